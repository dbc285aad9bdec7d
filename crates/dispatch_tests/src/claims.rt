// Claims that are out while other calls are made.
ghost use Rattle.dispatch.specs.Snapshots.{Holds, Sound};

use crate::spend::{Took, close_or_park, take_and_park};
use controller::Answer::Accepted;
use controller::{Controller, Refusal};
use dispatch::{Claim, Dispatcher, Ended, Refused, Taken};
use i8259a_controller::I8259aController;
use std::process::Abort;
use std::test::Fail;

// The end of a line that is still high.
fn end(line: u16, depth: usize) -> Result<Ended, Refusal> {
    Ok(Ended {
        line,
        depth,
        answer: Accepted,
    })
}

// Line 2 is started while the handler of line 5 holds its claim.
fn interrupted<C: Controller>(rt: &impl Abort, dispatcher: &mut Dispatcher<C>, outer: Claim)
    requires sound { Sound C.Controller dispatcher.old }
    requires held { Holds C.Controller dispatcher.old outer }
{
    match dispatcher.take() {
        Taken::Start {
            depth,
            claim: inner,
        } => {
            assert_eq!(rt; (inner.line(), depth), (2, 2));
            assert_eq!(rt; dispatcher.finish(2), Err(Refusal::NotParked));
            assert_eq!(rt; dispatcher.finish(5), Err(Refusal::NotNewest));
            assert_eq!(rt; dispatcher.finish(9), Err(Refusal::NotALine));
            match dispatcher.close(outer) {
                Ok(_) => panic!(rt; "line 5 was closed"),
                Err(Refused { why, claim }) => {
                    assert_eq!(rt; why, Refusal::NotNewest);
                    assert_eq!(rt; close_or_park(dispatcher, inner), end(2, 2));
                    assert_eq!(rt; close_or_park(dispatcher, claim), end(5, 1));
                }
            }
        }
        Taken::Spurious { depth: _ } => panic!(rt; "line 2 was not started"),
    }
}

// Line 5 is started, and line 2 while its handler holds the claim.
fn nested<C: Controller + Drop>(rt: &impl Abort, controller: C)
    requires { C.Controller.sound controller }
{
    let mut dispatcher = Dispatcher::new(controller);
    let _ = dispatcher.open(5);
    let _ = dispatcher.open(2);
    let _ = dispatcher.rise(5);
    match dispatcher.take() {
        Taken::Start { depth: _, claim } => {
            let _ = dispatcher.rise(2);
            interrupted(rt, &mut dispatcher, claim);
        }
        Taken::Spurious { depth: _ } => panic!(rt; "line 5 was not started"),
    }
}

// A claim at a dispatcher that did not start its line.
fn strayed<C: Controller>(
    rt: &impl Abort,
    dispatcher: &mut Dispatcher<C>,
    other: &mut Dispatcher<C>,
) {
    match dispatcher.take() {
        Taken::Start { depth: _, claim } => match other.park(claim) {
            Ok(()) => panic!(rt; "the other parked line 3"),
            Err(Refused { why, claim }) => {
                assert_eq!(rt; why, Refusal::NotHeld);
                match other.close(claim) {
                    Ok(_) => panic!(rt; "the other closed line 3"),
                    Err(Refused { why, claim }) => {
                        assert_eq!(rt; why, Refusal::NotHeld);
                        assert_eq!(rt; close_or_park(dispatcher, claim), end(3, 1));
                    }
                }
            }
        },
        Taken::Spurious { depth: _ } => panic!(rt; "line 3 was not started"),
    }
}

#[test]
fn handlers_nest(rt: HostRuntime) {
    nested(&rt, I8259aController::new());
}

#[test]
fn a_stray_claim_is_not_held(rt: HostRuntime) -> Result<(), Fail> {
    let mut dispatcher = Dispatcher::new(I8259aController::new());
    let mut other = Dispatcher::new(I8259aController::new());
    dispatcher.open(3)?;
    dispatcher.rise(3)?;
    dispatcher.fall(3)?;
    dispatcher.rise(3)?;
    other.open(3)?;
    other.rise(3)?;
    assert_eq!(rt;
        take_and_park(&mut other),
        Took::Start { line: 3, depth: 1 }
    );
    strayed(&rt, &mut dispatcher, &mut other);
    assert_eq!(rt; other.finish(3), end(3, 1));
    Ok(())
}
