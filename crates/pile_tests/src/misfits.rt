// Parts that do not fit: what the check refuses, in which order, and what their pile answers.
use crate::script::Call::{
    Fall, Finish, Fleeting, Newest, Open, Rise, Shut, Signal, Span, Take, There, Width,
};
use crate::script::Reply::{Answered, Is, Line, Said};
use crate::script::{Step, run};
use cascade::{Cascade, check};
use controller::Refusal::NotALine;
use controller::{Controller, Refusal};
use i8259a_controller::I8259aController;
use std::process::Abort;
use units::old_unit;

const VOID: [Step; 14] = [
    Step(Width, Is(0)),
    Step(Span, Is(1)),
    Step(There(0), Said(false)),
    Step(There(8), Said(false)),
    Step(Fleeting(0), Said(false)),
    Step(Newest, Line(None)),
    Step(Rise(0), Answered(Err(NotALine))),
    Step(Fall(8), Answered(Err(NotALine))),
    Step(Open(0), Answered(Err(NotALine))),
    Step(Shut(8), Answered(Err(NotALine))),
    Step(Finish(0), Answered(Err(NotALine))),
    Step(Signal, Said(false)),
    Step(Take, Line(None)),
    Step(Newest, Line(None)),
];

#[test]
fn parts_that_do_not_fit_make_no_line(rt: HostRuntime) {
    run(
        &rt,
        &mut Cascade::new(I8259aController::new(), 8, I8259aController::new()),
        &VOID,
    );
}

// Four chips. Eight of them span 2^24, so that eight and four are too large together.
fn four() -> Cascade<
    Cascade<I8259aController, I8259aController>,
    Cascade<I8259aController, I8259aController>,
> {
    Cascade::new(old_unit(), 0, old_unit())
}

// Puts line n into service, as in cases; but this asserts, and so takes an `Abort`, which no library function here may have.
fn serve<C: Controller>(rt: &impl Abort, unit: &mut C, n: u16) {
    let _ = unit.open(n);
    let _ = unit.rise(n);
    assert_eq!(rt; unit.take(), Some(n));
}

#[test]
fn the_check_asks_in_order(rt: HostRuntime) {
    let mut outer = Cascade::new(four(), 1, four());
    let mut inner = four();
    assert_eq!(rt; check(&mut outer, 3, &mut old_unit()), Ok(()));
    assert_eq!(rt; check(&mut outer, 3, &mut inner), Err(Refusal::TooLarge));
    serve(&rt, &mut inner, 3);
    assert_eq!(rt;
        check(&mut outer, 3, &mut inner),
        Err(Refusal::PartInService)
    );
    serve(&rt, &mut outer, 4);
    assert_eq!(rt;
        check(&mut outer, 3, &mut four()),
        Err(Refusal::PartInService)
    );
    assert_eq!(rt;
        check(&mut outer, 1, &mut inner),
        Err(Refusal::NotAFleetingLine)
    );
    assert_eq!(rt; outer.newest(), Some(4));
    assert_eq!(rt; inner.newest(), Some(3));
}
