// Calls that take a claim and spend it at once, and what is kept of it. What they require of a claim no public function
// may require, so cases, incident and long_runs have theirs.
ghost use Rattle.dispatch.specs.Snapshots.{Holds, KeepsOtherClaims};

use controller::{Controller, Refusal};
use dispatch::{Claim, Dispatcher, Ended, Refused, Taken};

// What a take brought back, with the line in place of its claim.
#[derive(Clone, Copy, PartialEq, Eq, Debug)]
pub(crate) enum Took {
    Start { line: u16, depth: usize },
    Spurious { depth: usize },
}

// What a take brought back, and what the close of its claim did.
#[derive(Clone, Copy, PartialEq, Eq, Debug)]
pub(crate) enum Served {
    Start {
        line: u16,
        depth: usize,
        end: Result<Ended, Refusal>,
    },
    Spurious {
        depth: usize,
    },
}

// A claim that is held is parked without fail.
pub(crate) fn park<C: Controller>(dispatcher: &mut Dispatcher<C>, claim: Claim)
    requires { Holds C.Controller dispatcher.old claim }
    ensures { KeepsOtherClaims C.Controller claim dispatcher.old dispatcher.new }
{
    dispatcher.park(claim).unwrap();
}

// Takes, and parks what was started. This and `take_and_close` are two: one function would be given a closure that spends
// the claim, and that the claim is held would be required at each closure and at the function.
pub(crate) fn take_and_park<C: Controller>(dispatcher: &mut Dispatcher<C>) -> Took {
    match dispatcher.take() {
        Taken::Start { depth, claim } => {
            let line = claim.line();
            park(dispatcher, claim);
            Took::Start { line, depth }
        }
        Taken::Spurious { depth } => Took::Spurious { depth },
    }
}

// Closes, or parks what was not closed.
pub(crate) fn close_or_park<C: Controller>(
    dispatcher: &mut Dispatcher<C>,
    claim: Claim,
) -> Result<Ended, Refusal>
    requires { Holds C.Controller dispatcher.old claim }
    ensures { KeepsOtherClaims C.Controller claim dispatcher.old dispatcher.new }
{
    // By hand: with map_err the proof did not close, since what its closure leaves of the other claims is lost.
    match dispatcher.close(claim) {
        Ok(ended) => Ok(ended),
        Err(Refused { why, claim }) => {
            park(dispatcher, claim);
            Err(why)
        }
    }
}

// Takes, and closes what was started.
pub(crate) fn take_and_close<C: Controller>(dispatcher: &mut Dispatcher<C>) -> Served {
    match dispatcher.take() {
        Taken::Start { depth, claim } => {
            let line = claim.line();
            let end = close_or_park(dispatcher, claim);
            Served::Start { line, depth, end }
        }
        Taken::Spurious { depth } => Served::Spurious { depth },
    }
}
