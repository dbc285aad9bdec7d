// Scripts of calls on any controller, with the replies that its rules give.
// controller_tests has the like: `ask` in a library would be public, with a contract of its own, which is no plainer.
use controller::{Answer, Controller, Refusal};
use std::process::Abort;

// Data and no closure, since a row of a script is a constant, and a test that fails prints its call.
#[derive(Clone, Copy, Debug)]
pub(crate) enum Call {
    Width,
    Span,
    There(u16),
    Fleeting(u16),
    Newest,
    Signal,
    Rise(u16),
    Fall(u16),
    Open(u16),
    Shut(u16),
    Take,
    Finish(u16),
}

// What a call brought back: a width or a span, a yes or no, a line or none, or an answer.
#[derive(Clone, Copy, PartialEq, Eq, Debug)]
pub(crate) enum Reply {
    Is(u32),
    Said(bool),
    Line(Option<u16>),
    Answered(Result<Answer, Refusal>),
}

// A call and its reply.
pub(crate) struct Step(pub Call, pub Reply);

fn ask<C: Controller>(unit: &mut C, call: Call) -> Reply {
    match call {
        Call::Width => Reply::Is(u32::from(unit.width())),
        Call::Span => Reply::Is(unit.span()),
        Call::There(n) => Reply::Said(unit.there(n)),
        Call::Fleeting(n) => Reply::Said(unit.fleeting(n)),
        Call::Newest => Reply::Line(unit.newest()),
        Call::Signal => Reply::Said(unit.signal()),
        Call::Rise(n) => Reply::Answered(unit.rise(n)),
        Call::Fall(n) => Reply::Answered(unit.fall(n)),
        Call::Open(n) => Reply::Answered(unit.open(n)),
        Call::Shut(n) => Reply::Answered(unit.shut(n)),
        Call::Take => Reply::Line(unit.take()),
        Call::Finish(n) => Reply::Answered(unit.finish(n)),
    }
}

// As `Step` and `run` of chip_tests, not shared: what asserts takes an `Abort`, and no library function here may have that bound.
pub(crate) fn run<C: Controller>(rt: &impl Abort, unit: &mut C, steps: &[Step]) {
    for (place, &Step(call, expected)) in steps.iter().enumerate() {
        assert_eq!(rt; ask(unit, call), expected, "step {place}, {call:?}");
    }
}

// Every line is opened and rises.
fn raise_all<C: Controller>(rt: &impl Abort, unit: &mut C, lines: &[u16]) {
    for &n in lines {
        assert_eq!(rt; unit.open(n), Ok(Answer::Done), "{n}");
        assert_eq!(rt; unit.rise(n), Ok(Answer::Accepted), "{n}");
    }
}

// All lines are open and high at once; they are taken in the order of their ranks, each once the one before is finished.
pub(crate) fn run_by_rank<C: Controller>(rt: &impl Abort, unit: &mut C, lines: &[u16]) {
    raise_all(rt, unit, lines);
    for &n in lines {
        assert_eq!(rt; unit.take(), Some(n), "{n}");
        assert_eq!(rt; unit.newest(), Some(n), "{n}");
        assert_eq!(rt; unit.fall(n), Ok(Answer::Noted), "{n}");
        assert_eq!(rt; unit.finish(n), Ok(Answer::Noted), "{n}");
    }
    assert!(rt; !unit.signal());
}
