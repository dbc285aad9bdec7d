// Random calls on every kind of unit, and the balance of each line counted from what was answered: once every line has
// fallen and all is served, each request that was accepted was withdrawn or has ended.
use crate::calls::{Call, Passed};
use crate::counted::Counted;
use crate::random::Random;
use crate::spend::{Took, take_and_park};
use cascade::Cascade;
use controller::Controller;
use i8259a_controller::I8259aController;
use plic_controller::PlicController;
use service::MOST_DEPTH;
use std::array;
use std::process::Abort;
use units::old_unit;

const CALLS: usize = 20_000;

// More numbers than any of these units has lines: those of the new unit are below 64.
const NUMBERS: u16 = 80;

impl<C: Controller> Counted<C> {
    fn finish_newest(&mut self) {
        if let Some(entry) = self.dispatcher.newest() {
            self.call(Call::Finish(entry.line));
        }
    }

    // A number drawn at random picks the call: the ranges are the odds.
    fn draw(&mut self, choice: u8, line: u16) {
        let call = match choice {
            0..=4 => Call::Pass(Passed::Rise, line),
            5..=6 => Call::Pass(Passed::Fall, line),
            7..=8 => Call::Pass(Passed::Open, line),
            9 => Call::Pass(Passed::Shut, line),
            10..=11 => Call::TakeAndPark,
            12 => Call::TakeAndClose,
            _ => return self.finish_newest(),
        };
        self.call(call);
    }

    // Every line falls and is opened.
    fn fall_all(&mut self) {
        for line in 0..NUMBERS {
            self.call(Call::Pass(Passed::Fall, line));
            self.call(Call::Pass(Passed::Open, line));
        }
    }

    // What is in service is finished.
    fn finish_all(&mut self) {
        for _ in 0..MOST_DEPTH {
            self.finish_newest();
        }
    }

    // What still waits is served: all lines are low, so each is taken once at most.
    fn serve_all(&mut self) {
        for _ in 0..NUMBERS {
            self.call(Call::TakeAndClose);
        }
    }

    // Every line balances, and this many were accepted at least once.
    fn check(&self, rt: &impl Abort, busy: usize) {
        for tally in &self.tallies {
            assert_eq!(rt;
                tally.accepted,
                tally.withdrawn.saturating_add(tally.ended),
                "{tally:?}"
            );
        }
        let used = self
            .tallies
            .iter()
            .filter(|tally| tally.accepted > 0)
            .count();
        assert_eq!(rt; used, busy);
    }
}

// Random calls on a unit; then every line is served, and each balances.
fn check_unit<C: Controller + Drop>(rt: &impl Abort, controller: C, busy: usize) {
    let mut unit = Counted::new(controller);
    for (choice, byte) in Random(7).take(CALLS) {
        unit.draw(choice, u16::from(byte) % NUMBERS);
    }
    unit.fall_all();
    unit.finish_all();
    unit.serve_all();
    assert_eq!(rt;
        take_and_park(&mut unit.dispatcher),
        Took::Spurious { depth: 0 }
    );
    unit.check(rt, busy);
}

// Sources 1 to 21, three to each priority.
fn new_unit() -> PlicController {
    PlicController::new(array::from_fn(|n| match n {
        1..=21 => 1 + (n % 7) as u8,
        _ => 0,
    }))
}

#[test]
fn the_old_unit_balances(rt: HostRuntime) {
    check_unit(&rt, old_unit(), 15);
}

#[test]
fn the_new_unit_balances(rt: HostRuntime) {
    check_unit(&rt, new_unit(), 21);
}

#[test]
fn a_pile_of_three_balances(rt: HostRuntime) {
    check_unit(
        &rt,
        Cascade::new(old_unit(), 9, I8259aController::new()),
        22,
    );
}
