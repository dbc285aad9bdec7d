// One list of calls; where fleeting and steady lines differ, so do the two columns.
use crate::script::Call::{Fall, Finish, Newest, Open, Rise, Shut, Signal, Take};
use crate::script::Reply::{Answered, Line, Said};
use crate::script::{Call, Reply, ask};
use controller::{Answer, Refusal};
use i8259a_controller::I8259aController;
use plic_controller::PlicController;
use std::array;

const ACCEPTED: Reply = Answered(Ok(Answer::Accepted));

const WITHDRAWN: Reply = Answered(Ok(Answer::Withdrawn));

const NOTED: Reply = Answered(Ok(Answer::Noted));

const DONE: Reply = Answered(Ok(Answer::Done));

const NOT_A_LINE: Reply = Answered(Err(Refusal::NotALine));

const IN_SERVICE: Reply = Answered(Err(Refusal::InService));

const NOT_NEWEST: Reply = Answered(Err(Refusal::NotNewest));

// A call, what it comes to on the 8259A, and what on the PLIC.
struct Row(Call, Reply, Reply);

const ROWS: [Row; 56] = [
    // no line, at either end
    Row(Rise(64), NOT_A_LINE, NOT_A_LINE),
    Row(Fall(256), NOT_A_LINE, NOT_A_LINE),
    Row(Open(65535), NOT_A_LINE, NOT_A_LINE),
    Row(Shut(64), NOT_A_LINE, NOT_A_LINE),
    Row(Finish(64), NOT_A_LINE, NOT_A_LINE),
    // all lines begin shut: an accepted rise is not ready
    Row(Rise(5), ACCEPTED, ACCEPTED),
    Row(Rise(5), NOTED, NOTED),
    Row(Signal, Said(false), Said(false)),
    Row(Take, Line(None), Line(None)),
    Row(Open(5), DONE, DONE),
    Row(Signal, Said(true), Said(true)),
    Row(Take, Line(Some(5)), Line(Some(5))),
    Row(Newest, Line(Some(5)), Line(Some(5))),
    Row(Signal, Said(false), Said(false)),
    // in service: a rise is only noted, a shut is refused
    Row(Rise(5), NOTED, NOTED),
    Row(Shut(5), IN_SERVICE, IN_SERVICE),
    // a less urgent line waits, a more urgent one nests
    Row(Open(6), DONE, DONE),
    Row(Rise(6), ACCEPTED, ACCEPTED),
    Row(Signal, Said(false), Said(false)),
    Row(Take, Line(None), Line(None)),
    Row(Open(3), DONE, DONE),
    Row(Rise(3), ACCEPTED, ACCEPTED),
    Row(Signal, Said(true), Said(true)),
    Row(Take, Line(Some(3)), Line(Some(3))),
    Row(Newest, Line(Some(3)), Line(Some(3))),
    // only the newest can be finished
    Row(Finish(5), NOT_NEWEST, NOT_NEWEST),
    Row(Finish(6), NOT_NEWEST, NOT_NEWEST),
    // still high: it is accepted again and starts again
    Row(Finish(3), ACCEPTED, ACCEPTED),
    Row(Take, Line(Some(3)), Line(Some(3))),
    Row(Fall(3), NOTED, NOTED),
    Row(Finish(3), NOTED, NOTED),
    Row(Newest, Line(Some(5)), Line(Some(5))),
    Row(Fall(5), NOTED, NOTED),
    Row(Finish(5), NOTED, NOTED),
    Row(Finish(5), NOT_NEWEST, NOT_NEWEST),
    Row(Take, Line(Some(6)), Line(Some(6))),
    Row(Fall(6), NOTED, NOTED),
    Row(Finish(6), NOTED, NOTED),
    Row(Newest, Line(None), Line(None)),
    // a line that falls before the take: a fleeting one is withdrawn, a steady one stays
    Row(Open(7), DONE, DONE),
    Row(Rise(7), ACCEPTED, ACCEPTED),
    Row(Signal, Said(true), Said(true)),
    Row(Fall(7), WITHDRAWN, NOTED),
    Row(Signal, Said(false), Said(true)),
    Row(Take, Line(None), Line(Some(7))),
    Row(Newest, Line(None), Line(Some(7))),
    Row(Finish(7), NOT_NEWEST, NOTED),
    // a shut line is held back, and not forgotten
    Row(Rise(7), ACCEPTED, ACCEPTED),
    Row(Shut(7), DONE, DONE),
    Row(Signal, Said(false), Said(false)),
    Row(Take, Line(None), Line(None)),
    Row(Open(7), DONE, DONE),
    Row(Take, Line(Some(7)), Line(Some(7))),
    // the spurious level 7 while level 7 itself is in service
    Row(Take, Line(None), Line(None)),
    Row(Fall(7), NOTED, NOTED),
    Row(Finish(7), NOTED, NOTED),
];

// Source n has priority 8 - n, so that the lines 1 to 7 are in the same order on both.
fn priorities() -> [u8; 64] {
    array::from_fn(|n| match n {
        1..=7 => 8 - n as u8,
        _ => 0,
    })
}

// The loop of `run` in pile_tests, not shared: what asserts takes an `Abort`, and no library function here may have that bound.
#[test]
fn both_answer_by_the_rules(rt: HostRuntime) {
    let mut old = I8259aController::new();
    let mut new = PlicController::new(priorities());
    for (place, &Row(call, on_old, on_new)) in ROWS.iter().enumerate() {
        assert_eq!(rt; ask(&mut old, call), on_old, "8259A, row {place}, {call:?}");
        assert_eq!(rt; ask(&mut new, call), on_new, "PLIC, row {place}, {call:?}");
    }
}
