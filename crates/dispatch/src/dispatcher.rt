// The dispatcher and its eight calls.
ghost use Rattle.std.specs.Prelude.{◌≡◌, ℕ, true, List, []};
ghost use Rattle.controller.specs.Meaning.{Keeps};
ghost use Rattle.controller.specs.Rules.{Takes, Untouched};
ghost use Rattle.controller.specs.Telling.{meaning};
ghost use Rattle.service.specs.Nests.{most_depth, newest_is, newest_entry};
ghost use Rattle.service.specs.Calls.{passed_on};
ghost use Rattle.service.specs.Calls.Call.{Rise, Fall, Open, Shut, Park, Close, Finish, Take};
ghost use Rattle.service.specs.Steps.{Ends, depth};
ghost use Rattle.service.specs.Runs.{Quiet};
ghost use Rattle.service.specs.Law.{Serves};
ghost use Rattle.dispatch.specs.Tables.{atop, entries_of};
ghost use Rattle.dispatch.specs.Snapshots.{snapshot, Sound, Does, KeepsClaims};
ghost use Rattle.dispatch.specs.Replies.{taken_reply, finished_reply, closed_reply, parked_reply};
ghost use Rattle.dispatch.specs.Claims.{TakeClaims, TakesAnother, StartsAnother, ParkClaims, CloseClaims, EndClaims};

use crate::claim::Claim;
use crate::nest::Nest;
use crate::written::{Ended, Refused, Taken};
use controller::{Answer, Controller, Refusal};
use service::{Entry, MOST_DEPTH, Mark};

#[derive(Drop)]
pub struct Dispatcher<C> {
    controller: C,
    nest: Nest,
}

impl<C: Controller> Dispatcher<C> {
    // With an empty nest. Over a controller that is sound and quiet, the law of service holds from here on.
    pub fn new(controller: C) -> Dispatcher<C>
        ensures holds { result.controller ≡ controller }
        ensures sound { C.Controller.sound controller → Sound C.Controller result }
        ensures made { snapshot C.Controller result ≡ record { meaning = meaning C.Controller controller; nest = [] } }
        ensures serves { C.Controller.sound controller → Quiet (meaning C.Controller controller) → Serves (snapshot C.Controller result) }
    {
        Dispatcher {
            controller,
            nest: Nest::new(),
        }
    }

    // How many lines were started and have not ended yet.
    pub fn depth(&self) -> usize
        ensures { result ≡ depth (snapshot C.Controller self.now) }
    {
        self.nest.depth()
    }

    // The line that was started last, of those that have not ended yet.
    pub fn newest(&self) -> Option<Entry>
        ensures { result ≡ newest_entry (snapshot C.Controller self.now).nest }
    {
        self.nest.newest()
    }

    // Rise, fall, open and shut go to the controller, each by its own name. Each call says what it does, that a refusal changes nothing,
    // and what becomes of the claims that are out: a promise about two states, so no invariant of the dispatcher can hold it.
    pub fn rise(&mut self, n: u16) -> Result<Answer, Refusal>
        ensures does { Does C.Controller (Rise n) (passed_on result) self.old self.new }
        ensures refused { Untouched result self.old self.new }
        ensures claims { KeepsClaims C.Controller self.old self.new }
    {
        self.controller.rise(n)
    }

    pub fn fall(&mut self, n: u16) -> Result<Answer, Refusal>
        ensures does { Does C.Controller (Fall n) (passed_on result) self.old self.new }
        ensures refused { Untouched result self.old self.new }
        ensures claims { KeepsClaims C.Controller self.old self.new }
    {
        self.controller.fall(n)
    }

    pub fn open(&mut self, n: u16) -> Result<Answer, Refusal>
        ensures does { Does C.Controller (Open n) (passed_on result) self.old self.new }
        ensures refused { Untouched result self.old self.new }
        ensures claims { KeepsClaims C.Controller self.old self.new }
    {
        self.controller.open(n)
    }

    pub fn shut(&mut self, n: u16) -> Result<Answer, Refusal>
        ensures does { Does C.Controller (Shut n) (passed_on result) self.old self.new }
        ensures refused { Untouched result self.old self.new }
        ensures claims { KeepsClaims C.Controller self.old self.new }
    {
        self.controller.shut(n)
    }

    // START of the line that the controller takes; SPURIOUS if it takes none, and if the nest is full.
    pub fn take(&mut self) -> Taken
        ensures does { Does C.Controller Take (taken_reply result) self.old self.new }
        ensures unasked { depth (snapshot C.Controller self.old) ≡ most_depth → self.new ≡ self.old }
        ensures claims { TakeClaims result (snapshot C.Controller self.old).nest (snapshot C.Controller self.new).nest }
        ensures another { Sound C.Controller self.old → StartsAnother result (snapshot C.Controller self.old).nest }
    {
        let depth = self.nest.depth();
        if depth == MOST_DEPTH {
            return Taken::Spurious { depth };
        }
        match self.controller.take() {
            Some(line) => {
                self.nest.push(Entry {
                    line,
                    mark: Mark::Held,
                });
                Taken::Start {
                    depth: depth + 1,
                    claim: Claim { line },
                }
            }
            None => Taken::Spurious { depth },
        }
    }

    // Gives the claim up. Its line stays in service until finish ends it.
    pub fn park(&mut self, claim: Claim) -> Result<(), Refused>
        ensures does { Does C.Controller (Park claim.line) (parked_reply result) self.old self.new }
        ensures refused { Untouched result self.old self.new }
        ensures claims { ParkClaims claim result (snapshot C.Controller self.old).nest (snapshot C.Controller self.new).nest }
    {
        if !self.nest.holds(claim.line) {
            return Err(Refused {
                why: Refusal::NotHeld,
                claim,
            });
        }
        self.nest.park(claim.line);
        let Claim { line: _ } = claim;
        Ok(())
    }

    // Gives the claim up and ends its line. It asks for HELD as park does: a function for that question would hand the claim back in
    // both cases, and its callers would match them. On the way out the claim is spent, so the last match is no `map_err`.
    pub fn close(&mut self, claim: Claim) -> Result<Ended, Refused>
        ensures does { Does C.Controller (Close claim.line) (closed_reply result) self.old self.new }
        ensures refused { Untouched result self.old self.new }
        ensures claims { CloseClaims claim result (snapshot C.Controller self.old).nest (snapshot C.Controller self.new).nest }
    {
        if !self.nest.holds(claim.line) {
            return Err(Refused {
                why: Refusal::NotHeld,
                claim,
            });
        }
        if !self.nest.newest_is(claim.line) {
            return Err(Refused {
                why: Refusal::NotNewest,
                claim,
            });
        }
        match self.end(claim.line) {
            Ok(ended) => {
                let Claim { line: _ } = claim;
                Ok(ended)
            }
            Err(why) => Err(Refused { why, claim }),
        }
    }

    // Ends the newest line if it was parked.
    pub fn finish(&mut self, n: u16) -> Result<Ended, Refusal>
        ensures does { Does C.Controller (Finish n) (finished_reply result) self.old self.new }
        ensures refused { Untouched result self.old self.new }
        ensures claims { KeepsClaims C.Controller self.old self.new }
    {
        if !self.controller.there(n) {
            return Err(Refusal::NotALine);
        }
        if !self.nest.newest_is(n) {
            return Err(Refusal::NotNewest);
        }
        if !self.nest.newest_parked() {
            return Err(Refusal::NotParked);
        }
        self.end(n)
    }

    // Finishes the newest line at the controller, and removes its entry. In a sound state the controller does not refuse.
    fn end(&mut self, line: u16) -> Result<Ended, Refusal>
        ensures does { Sound C.Controller self.old → newest_is line (snapshot C.Controller self.old).nest ≡ true → Sound C.Controller self.new × Ends line (snapshot C.Controller self.old) (finished_reply result) (snapshot C.Controller self.new) }
        ensures refused { Untouched result self.old self.new }
        ensures claims { EndClaims line result (snapshot C.Controller self.old).nest (snapshot C.Controller self.new).nest }
    {
        let depth = self.nest.depth();
        let answer = self.controller.finish(line)?;
        self.nest.pop();
        Ok(Ended {
            line,
            depth,
            answer,
        })
    }
}
