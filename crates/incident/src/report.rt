// One printed line for each thing done, with what was answered.
use controller::{Numbered, Refusal};
use std::{fmt, io};
use tally::Tally;

pub(crate) fn answer<W: fmt::Display + Drop, T: fmt::Display + Drop>(
    rt: &HostRuntime,
    what: W,
    answer: Result<T, Refusal>,
) -> io::Result<()> {
    match answer {
        Ok(value) => println!(rt; "  {what}: {value}"),
        Err(why) => println!(rt; "  {what}: {}", Numbered(why)),
    }
}

pub(crate) fn done(rt: &HostRuntime, what: &str, res: Result<(), Refusal>) -> io::Result<()> {
    answer(rt, what, res.map(|()| "done"))
}

// A call of a line.
pub(crate) fn call<T: fmt::Display + Drop>(
    rt: &HostRuntime,
    call: &str,
    n: u16,
    res: Result<T, Refusal>,
) -> io::Result<()> {
    answer(rt, format_args!("{call} {n}"), res)
}

pub(crate) fn yes_or_no(rt: &HostRuntime, what: &str, answer: bool) -> io::Result<()> {
    let word = if answer { "yes" } else { "no" };
    println!(rt; "  {what}: {word}")
}

pub(crate) fn line(rt: &HostRuntime, what: &str, answer: Option<u16>) -> io::Result<()> {
    match answer {
        Some(line) => println!(rt; "  {what}: {line}"),
        None => println!(rt; "  {what}: NONE"),
    }
}

// START and SPURIOUS by hand, as in `cases`: what a take brings back holds the claim, which is spent before anything is printed.
pub(crate) fn start(rt: &HostRuntime, line: u16, depth: usize) -> io::Result<()> {
    println!(rt; "  take: START {line}, depth {depth}")
}

pub(crate) fn spurious(rt: &HostRuntime, depth: usize) -> io::Result<()> {
    println!(rt; "  take: SPURIOUS, depth {depth}")
}

pub(crate) fn balance(rt: &HostRuntime, line: u16, tally: &Tally) -> io::Result<()> {
    let Tally {
        accepted,
        withdrawn,
        ended,
    } = *tally;
    let outstanding = tally.outstanding();
    println!(rt;
        "  balance of line {line}: accepted {accepted} = withdrawn {withdrawn} + ended {ended} + outstanding {outstanding}"
    )
}
