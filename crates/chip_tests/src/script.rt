// A script of calls on a bare chip, with the replies that its rules give.
use controller::Refusal;
use std::fmt::Debug;
use std::process::Abort;

// What a call tells that was carried out.
#[derive(Clone, Copy, PartialEq, Eq, Debug)]
pub(crate) enum Told {
    Done,
    Value(u32),
    Signals(bool),
}

// What a call brought back.
pub(crate) type Reply = Result<Told, Refusal>;

// A call and its reply.
pub(crate) struct Step<C>(pub C, pub Reply);

// The steps from a new chip on.
pub(crate) struct Script<'a, C> {
    pub shows: &'a str,
    pub steps: &'a [Step<C>],
}

// As `Step` and `run` of pile_tests, not shared: what asserts takes an `Abort`, and no library function here may have that bound.
pub(crate) fn run<C: Copy + Debug, F: FnMut(C) -> Reply>(
    rt: &impl Abort,
    script: &Script<C>,
    mut ask: F,
)
    requires { F.IsAlwaysCallable ask }
{
    for (place, &Step(call, expected)) in script.steps.iter().enumerate() {
        assert_eq!(rt;
            ask(call),
            expected,
            "{}: step {place}, {call:?}",
            script.shows
        );
    }
}
