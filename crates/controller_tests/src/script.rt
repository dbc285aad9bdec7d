// A call on any controller, and what it brings back.
// pile_tests has the like: `ask` in a library would be public, with a contract of its own, which is no plainer.
use controller::{Answer, Controller, Refusal};

// Data and no closure, since a row of a script is a constant, and a test that fails prints its call.
#[derive(Clone, Copy, Debug)]
pub(crate) enum Call {
    Rise(u16),
    Fall(u16),
    Open(u16),
    Shut(u16),
    Finish(u16),
    Take,
    Newest,
    Signal,
}

// What a call brought back: a yes or no, a line or none, or an answer.
#[derive(Clone, Copy, PartialEq, Eq, Debug)]
pub(crate) enum Reply {
    Said(bool),
    Line(Option<u16>),
    Answered(Result<Answer, Refusal>),
}

pub(crate) fn ask<C: Controller>(unit: &mut C, call: Call) -> Reply {
    match call {
        Call::Rise(n) => Reply::Answered(unit.rise(n)),
        Call::Fall(n) => Reply::Answered(unit.fall(n)),
        Call::Open(n) => Reply::Answered(unit.open(n)),
        Call::Shut(n) => Reply::Answered(unit.shut(n)),
        Call::Finish(n) => Reply::Answered(unit.finish(n)),
        Call::Take => Reply::Line(unit.take()),
        Call::Newest => Reply::Line(unit.newest()),
        Call::Signal => Reply::Said(unit.signal()),
    }
}
