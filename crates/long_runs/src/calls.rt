// A long list of calls drawn at random on one unit, what they counted, and whether each line balances in the end.
use crate::course::{Counts, Course};
use crate::random::Random;
use crate::urgency::Urgency;
use controller::Controller;
use std::io;
use tally::Tally;

const CALLS: u32 = 100_000;

// Runs the calls, lets the unit come to rest, and prints a line of what was seen.
pub(crate) fn tell<C: Controller + Drop>(
    rt: &HostRuntime,
    what: &str,
    controller: C,
    urgency: Urgency,
) -> io::Result<()> {
    let width = controller.width();
    let mut course = Course::new(controller, urgency);
    let mut random = Random::new(2026);
    for _ in 0..CALLS {
        call(&mut course, &mut random, width.saturating_add(2));
    }
    rest(&mut course, width);
    report(rt, what, course.counts(), course.tallies())
}

// One call: the ranges are the odds. Numbers just past the width are drawn too, and refused.
fn call<C: Controller>(course: &mut Course<C>, random: &mut Random, numbers: u16) {
    let line = random.below(numbers);
    match random.below(32) {
        0..=8 => course.rise(line),
        9..=14 => course.fall(line),
        15..=17 => course.open(line),
        18 => course.shut(line),
        19..=26 => course.take_and_park(),
        27 => course.take_and_close(),
        _ => course.finish(),
    }
}

// Every line falls and is opened; what is in service ends, and what still waits is served.
fn rest<C: Controller>(course: &mut Course<C>, width: u16) {
    for line in 0..width {
        course.fall(line);
        course.open(line);
    }
    for _ in 0..8 {
        if !course.is_idle() {
            course.finish();
        }
    }
    serve(course, width);
}

fn serve<C: Controller>(course: &mut Course<C>, width: u16) {
    for _ in 0..=width {
        course.take_and_close();
    }
}

// Accepted, withdrawn and ended over all lines, and how many lines do not balance.
fn report(rt: &HostRuntime, what: &str, counts: Counts, tallies: &[Tally]) -> io::Result<()> {
    let accepted = sum(tallies, |tally| tally.accepted);
    let withdrawn = sum(tallies, |tally| tally.withdrawn);
    let ended = sum(tallies, |tally| tally.ended);
    let unbalanced = tallies
        .iter()
        .filter(|tally| tally.accepted != tally.withdrawn.saturating_add(tally.ended))
        .count();
    let Counts {
        calls,
        refused,
        started,
        spurious,
        deepest,
        wrong,
    } = counts;
    println!(rt; "{what}")?;
    println!(rt;
        "  calls {calls}, refused {refused}, START {started}, SPURIOUS {spurious}, deepest {deepest}"
    )?;
    println!(rt; "  accepted {accepted} = withdrawn {withdrawn} + ended {ended}")?;
    println!(rt; "  lines that do not balance {unbalanced}, starts and ends out of order {wrong}")
}

fn sum<F: Fn(&Tally) -> u32>(tallies: &[Tally], count: F) -> u32
    requires { F.IsAlwaysCallable count }
{
    // A loop: tried as `map` and `fold`, where that the count may be called is lost.
    let mut sum: u32 = 0;
    for tally in tallies {
        sum = sum.saturating_add(count(tally));
    }
    sum
}
