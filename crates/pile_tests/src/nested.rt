// Piles of three chips, with a pile as the outer part and with one as the inner.
use crate::script::Call::{Open, Rise, Span, There, Width};
use crate::script::Reply::{Answered, Is, Said};
use crate::script::{Step, run, run_by_rank};
use cascade::Cascade;
use controller::Controller;
use controller::Refusal::NotALine;
use i8259a_controller::I8259aController;
use std::process::Abort;
use units::old_unit;

// A third chip on line 9 of the old unit: its lines are 16 to 23.
const BELOW: [Step; 9] = [
    Step(Width, Is(24)),
    Step(Span, Is(512)),
    Step(There(2), Said(false)),
    Step(There(9), Said(false)),
    Step(There(16), Said(true)),
    Step(There(23), Said(true)),
    Step(There(24), Said(false)),
    Step(Open(9), Answered(Err(NotALine))),
    Step(Rise(2), Answered(Err(NotALine))),
];

const BELOW_BY_RANK: [u16; 22] = [
    0, 1, 8, 16, 17, 18, 19, 20, 21, 22, 23, 10, 11, 12, 13, 14, 15, 3, 4, 5, 6, 7,
];

// The old unit on line 2 of a third chip: its lines are those from 8 on, without 10.
const ABOVE: [Step; 9] = [
    Step(Width, Is(24)),
    Step(Span, Is(512)),
    Step(There(2), Said(false)),
    Step(There(10), Said(false)),
    Step(There(8), Said(true)),
    Step(There(23), Said(true)),
    Step(There(24), Said(false)),
    Step(Open(10), Answered(Err(NotALine))),
    Step(Rise(2), Answered(Err(NotALine))),
];

const ABOVE_BY_RANK: [u16; 22] = [
    0, 1, 8, 9, 16, 17, 18, 19, 20, 21, 22, 23, 11, 12, 13, 14, 15, 3, 4, 5, 6, 7,
];

// What the pile tells and refuses, and then its lines by rank.
fn check_pile<C: Controller>(rt: &impl Abort, pile: &mut C, steps: &[Step], by_rank: &[u16]) {
    run(rt, pile, steps);
    run_by_rank(rt, pile, by_rank);
}

#[test]
fn a_pile_is_an_outer_part(rt: HostRuntime) {
    let mut three = Cascade::new(old_unit(), 9, I8259aController::new());
    check_pile(&rt, &mut three, &BELOW, &BELOW_BY_RANK);
}

#[test]
fn a_pile_is_an_inner_part(rt: HostRuntime) {
    let mut three = Cascade::new(I8259aController::new(), 2, old_unit());
    check_pile(&rt, &mut three, &ABOVE, &ABOVE_BY_RANK);
}
