// Ways to spend a claim. What they require of it no public function may require, so incident, long_runs and
// dispatch_tests have theirs.
ghost use Rattle.dispatch.specs.Snapshots.{Holds, KeepsOtherClaims};

use crate::outcome::Outcome;
use controller::{Controller, Refusal};
use dispatch::{Claim, Dispatcher, Ended, Refused, Taken};

// A claim that is held is parked without fail.
pub(crate) fn park<C: Controller>(unit: &mut Dispatcher<C>, claim: Claim)
    requires { Holds C.Controller unit.old claim }
    ensures { KeepsOtherClaims C.Controller claim unit.old unit.new }
{
    unit.park(claim).unwrap();
}

// Takes, and parks what was started. dispatch_tests has the like: shared, it would be one more call of the dispatcher.
pub(crate) fn take_and_park<C: Controller>(unit: &mut Dispatcher<C>) -> Outcome {
    match unit.take() {
        Taken::Start { depth, claim } => {
            let line = claim.line();
            park(unit, claim);
            Outcome::Start { line, depth }
        }
        Taken::Spurious { depth } => Outcome::Spurious { depth },
    }
}

// Closes, or parks what was not closed.
pub(crate) fn close_or_park<C: Controller>(
    unit: &mut Dispatcher<C>,
    claim: Claim,
) -> Result<Ended, Refusal>
    requires { Holds C.Controller unit.old claim }
    ensures { KeepsOtherClaims C.Controller claim unit.old unit.new }
{
    match unit.close(claim) {
        Ok(ended) => Ok(ended),
        Err(Refused { why, claim }) => {
            park(unit, claim);
            Err(why)
        }
    }
}
