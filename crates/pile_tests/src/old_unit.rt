// The old unit: two 8259A chips, the slave on line 2 of the master.
use crate::script::Call::{
    Fall, Finish, Fleeting, Newest, Open, Rise, Shut, Signal, Span, Take, There, Width,
};
use crate::script::Reply::{Answered, Is, Line, Said};
use crate::script::{Step, run, run_by_rank};
use controller::Answer::{Accepted, Done, Noted, Withdrawn};
use controller::Refusal::{InService, NotALine, NotNewest};
use units::old_unit;

const BY_RANK: [u16; 15] = [0, 1, 8, 9, 10, 11, 12, 13, 14, 15, 3, 4, 5, 6, 7];

const STEPS: [Step; 52] = [
    Step(Width, Is(16)),
    Step(Span, Is(64)),
    Step(There(1), Said(true)),
    Step(There(8), Said(true)),
    Step(There(15), Said(true)),
    Step(There(16), Said(false)),
    Step(Fleeting(15), Said(true)),
    // the line from the slave is out of reach
    Step(There(2), Said(false)),
    Step(Fleeting(2), Said(false)),
    Step(Rise(2), Answered(Err(NotALine))),
    Step(Fall(2), Answered(Err(NotALine))),
    Step(Open(2), Answered(Err(NotALine))),
    Step(Shut(2), Answered(Err(NotALine))),
    Step(Finish(2), Answered(Err(NotALine))),
    Step(Finish(16), Answered(Err(NotALine))),
    // a shut line waits unheard
    Step(Rise(9), Answered(Ok(Accepted))),
    Step(Signal, Said(false)),
    Step(Open(9), Answered(Ok(Done))),
    Step(Signal, Said(true)),
    // what falls before the take is not taken
    Step(Fall(9), Answered(Ok(Withdrawn))),
    Step(Signal, Said(false)),
    Step(Take, Line(None)),
    Step(Newest, Line(None)),
    // the slave's line 1 in service
    Step(Rise(9), Answered(Ok(Accepted))),
    Step(Take, Line(Some(9))),
    Step(Newest, Line(Some(9))),
    Step(Shut(9), Answered(Err(InService))),
    Step(Rise(9), Answered(Ok(Noted))),
    // another of the slave's is of the same class and is not heard
    Step(Open(12), Answered(Ok(Done))),
    Step(Rise(12), Answered(Ok(Accepted))),
    Step(Signal, Said(false)),
    Step(Take, Line(None)),
    Step(Finish(12), Answered(Err(NotNewest))),
    // one of the master's is more urgent, and must be finished first
    Step(Open(1), Answered(Ok(Done))),
    Step(Rise(1), Answered(Ok(Accepted))),
    Step(Signal, Said(true)),
    Step(Take, Line(Some(1))),
    Step(Newest, Line(Some(1))),
    Step(Finish(9), Answered(Err(NotNewest))),
    Step(Fall(1), Answered(Ok(Noted))),
    Step(Finish(1), Answered(Ok(Noted))),
    Step(Newest, Line(Some(9))),
    // once the first is finished the second is heard
    Step(Fall(9), Answered(Ok(Noted))),
    Step(Finish(9), Answered(Ok(Noted))),
    Step(Signal, Said(true)),
    Step(Take, Line(Some(12))),
    // a line that is still high waits again
    Step(Finish(12), Answered(Ok(Accepted))),
    Step(Signal, Said(true)),
    Step(Shut(12), Answered(Ok(Done))),
    Step(Signal, Said(false)),
    Step(Fall(12), Answered(Ok(Withdrawn))),
    Step(Take, Line(None)),
];

#[test]
fn a_run_is_answered(rt: HostRuntime) {
    run(&rt, &mut old_unit(), &STEPS);
}

#[test]
fn lines_are_taken_by_rank(rt: HostRuntime) {
    run_by_rank(&rt, &mut old_unit(), &BY_RANK);
}
