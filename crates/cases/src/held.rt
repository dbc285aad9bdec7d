// Claims that are out while other calls are made. dispatch_tests asserts what this prints.
ghost use Rattle.dispatch.specs.Snapshots.{Holds, Sound};

use crate::outcome::{Outcome, Told};
use crate::parts;
use crate::report::topic;
use crate::spend::{close_or_park, park, take_and_park};
use controller::Controller;
use dispatch::{Claim, Dispatcher, Refused, Taken};
use i8259a_controller::I8259aController;
use std::io;

// A row for a call that was not reached. The tables are arrays, since a claim that is out leaves no way for the `?` of a print or a push.
const NOT_CALLED: Told = Told("not called", Outcome::Nothing);

pub(crate) fn tell(rt: &HostRuntime) -> io::Result<()> {
    topic(
        rt,
        "A dispatcher over an 8259A: line 2 above line 5, both held",
        &nested(I8259aController::new()),
    )?;
    topic(
        rt,
        "Two dispatchers: a claim for line 3 of one, at the other",
        &strayed(),
    )
}

// Line 5 is started, and line 2 while its claim is out.
fn nested<C: Controller + Drop>(controller: C) -> [Told; 6]
    requires { C.Controller.sound controller }
{
    let mut unit = Dispatcher::new(controller);
    let _ = unit.open(5);
    let _ = unit.open(2);
    let _ = unit.rise(5);
    match unit.take() {
        Taken::Start { depth: _, claim } => {
            let _ = unit.rise(2);
            interrupted(&mut unit, claim)
        }
        Taken::Spurious { depth } => {
            let spurious = Told::new("take", Outcome::Spurious { depth });
            [
                spurious, NOT_CALLED, NOT_CALLED, NOT_CALLED, NOT_CALLED, NOT_CALLED,
            ]
        }
    }
}

// An inner handler is started while the outer one holds its claim.
fn interrupted<C: Controller>(unit: &mut Dispatcher<C>, outer: Claim) -> [Told; 6]
    requires sound { Sound C.Controller unit.old }
    requires held { Holds C.Controller unit.old outer }
{
    match unit.take() {
        Taken::Start {
            depth,
            claim: inner,
        } => {
            let line = inner.line();
            let taken = Told::new("take", Outcome::Start { line, depth });
            let newest = Told::new("finish 2", unit.finish(2));
            let below = Told::new("finish 5", unit.finish(5));
            match unit.close(outer) {
                Ok(end) => {
                    park(unit, inner);
                    let closed = Told::new("close 5", end);
                    [taken, newest, below, closed, NOT_CALLED, NOT_CALLED]
                }
                Err(Refused { why, claim }) => [
                    taken,
                    newest,
                    below,
                    Told::new("close 5", Outcome::Refused(why)),
                    Told::new("close 2", close_or_park(unit, inner)),
                    Told::new("close 5", close_or_park(unit, claim)),
                ],
            }
        }
        Taken::Spurious { depth } => {
            park(unit, outer);
            let spurious = Told::new("take", Outcome::Spurious { depth });
            [
                spurious, NOT_CALLED, NOT_CALLED, NOT_CALLED, NOT_CALLED, NOT_CALLED,
            ]
        }
    }
}

// Both dispatchers start line 3; one has it parked when the other's claim comes to it.
fn strayed() -> [Told; 4] {
    let mut unit = parts::open_unit();
    let mut other = parts::open_unit();
    let _ = unit.rise(3);
    let _ = other.rise(3);
    let _ = take_and_park(&mut other);
    lent(&mut unit, &mut other)
}

// A claim taken at one dispatcher is put to another.
fn lent<C: Controller>(unit: &mut Dispatcher<C>, other: &mut Dispatcher<C>) -> [Told; 4] {
    match unit.take() {
        Taken::Start { depth, claim } => {
            let line = claim.line();
            let taken = Told::new("take", Outcome::Start { line, depth });
            match other.park(claim) {
                Ok(()) => {
                    let parked = Told::new("park at the other", Outcome::Done);
                    [taken, parked, NOT_CALLED, NOT_CALLED]
                }
                Err(Refused { why, claim }) => {
                    let parked = Told::new("park at the other", Outcome::Refused(why));
                    match other.close(claim) {
                        Ok(end) => {
                            let closed = Told::new("close at the other", end);
                            [taken, parked, closed, NOT_CALLED]
                        }
                        Err(Refused { why, claim }) => [
                            taken,
                            parked,
                            Told::new("close at the other", Outcome::Refused(why)),
                            Told::new("close", close_or_park(unit, claim)),
                        ],
                    }
                }
            }
        }
        Taken::Spurious { depth } => {
            let spurious = Told::new("take", Outcome::Spurious { depth });
            [spurious, NOT_CALLED, NOT_CALLED, NOT_CALLED]
        }
    }
}
