// A course: one dispatcher, the calls made on it, and what was seen to go wrong. The handlers' claims are spent at once.
ghost use Rattle.dispatch.specs.Snapshots.{Holds};

use crate::urgency::{NUMBERS, Urgency};
use controller::{Answer, Controller, Refusal};
use dispatch::{Claim, Dispatcher, Ended, Entry, Refused, Taken};
use tally::Tally;

// What was counted. Wrong: a start that is no more urgent than what it interrupts, a depth that is not the nest's, or an end of
// another line than the newest.
#[derive(Clone, Copy, PartialEq, Eq, Debug, Default)]
pub(crate) struct Counts {
    pub(crate) calls: u32,
    pub(crate) refused: u32,
    pub(crate) started: u32,
    pub(crate) spurious: u32,
    pub(crate) deepest: usize,
    pub(crate) wrong: u32,
}

#[derive(Drop)]
pub(crate) struct Course<C> {
    unit: Dispatcher<C>,
    urgency: Urgency,
    tallies: [Tally; NUMBERS],
    counts: Counts,
}

impl<C: Controller> Course<C> {
    pub(crate) fn new(controller: C, urgency: Urgency) -> Course<C> {
        Course {
            unit: Dispatcher::new(controller),
            urgency,
            tallies: [Tally::new(); NUMBERS],
            counts: Counts::default(),
        }
    }

    pub(crate) fn counts(&self) -> Counts {
        self.counts
    }

    pub(crate) fn tallies(&self) -> &[Tally] {
        &self.tallies
    }

    pub(crate) fn rise(&mut self, line: u16) {
        let answer = self.unit.rise(line);
        self.answered(line, answer);
    }

    pub(crate) fn fall(&mut self, line: u16) {
        let answer = self.unit.fall(line);
        self.answered(line, answer);
    }

    pub(crate) fn open(&mut self, line: u16) {
        let answer = self.unit.open(line);
        self.answered(line, answer);
    }

    pub(crate) fn shut(&mut self, line: u16) {
        let answer = self.unit.shut(line);
        self.answered(line, answer);
    }

    // Starts a line and parks it. It and the next are two, as in dispatch_tests: one would be given a closure that spends the claim, and
    // what that requires of the claim would stand at each.
    pub(crate) fn take_and_park(&mut self) {
        let below = self.unit.newest();
        let held = self.unit.depth();
        match self.unit.take() {
            Taken::Start { depth, claim } => {
                let line = claim.line();
                self.unit.park(claim).unwrap();
                self.started(line, depth, below, held);
            }
            Taken::Spurious { depth } => self.spurious(depth, held),
        }
    }

    // Starts a line and ends it.
    pub(crate) fn take_and_close(&mut self) {
        let below = self.unit.newest();
        let held = self.unit.depth();
        match self.unit.take() {
            Taken::Start { depth, claim } => {
                let line = claim.line();
                let ended = close_or_park(&mut self.unit, claim);
                self.started(line, depth, below, held);
                self.ended(line, depth, ended);
            }
            Taken::Spurious { depth } => self.spurious(depth, held),
        }
    }

    // Ends the newest line, or is refused on an empty nest.
    pub(crate) fn finish(&mut self) {
        let line = self.unit.newest().map_or(0, |entry| entry.line);
        let depth = self.unit.depth();
        let ended = self.unit.finish(line);
        self.ended(line, depth, ended);
    }

    pub(crate) fn is_idle(&self) -> bool {
        self.unit.depth() == 0
    }

    fn answered(&mut self, line: u16, answer: Result<Answer, Refusal>) {
        self.called(answer.is_err());
        if let Some(tally) = self.tallies.get_mut(usize::from(line)) {
            tally.note_answer(answer);
        }
    }

    fn started(&mut self, line: u16, depth: usize, below: Option<Entry>, held: usize) {
        self.called(false);
        self.counts.started = self.counts.started.saturating_add(1);
        self.counts.deepest = self.counts.deepest.max(depth);
        let class = self.urgency.class(line);
        let urgent = below.is_none_or(|entry| class < self.urgency.class(entry.line));
        self.saw(urgent && depth == held.saturating_add(1));
    }

    fn spurious(&mut self, depth: usize, held: usize) {
        self.called(false);
        self.counts.spurious = self.counts.spurious.saturating_add(1);
        self.saw(depth == held);
    }

    // An end is of the newest line, at the depth that counted it.
    fn ended(&mut self, line: u16, depth: usize, ended: Result<Ended, Refusal>) {
        self.called(ended.is_err());
        if let Ok(end) = ended {
            self.saw(end.line == line && end.depth == depth);
        }
        if let Some(tally) = self.tallies.get_mut(usize::from(line)) {
            tally.note_end(ended);
        }
    }

    fn called(&mut self, refused: bool) {
        self.counts.calls = self.counts.calls.saturating_add(1);
        self.counts.refused = self.counts.refused.saturating_add(u32::from(refused));
    }

    fn saw(&mut self, right: bool) {
        self.counts.wrong = self.counts.wrong.saturating_add(u32::from(!right));
    }
}

// Closes, or parks what was not closed. What it requires of the claim no public function may require, so cases, incident and
// dispatch_tests have theirs.
fn close_or_park<C: Controller>(unit: &mut Dispatcher<C>, claim: Claim) -> Result<Ended, Refusal>
    requires { Holds C.Controller unit.old claim }
{
    match unit.close(claim) {
        Ok(ended) => Ok(ended),
        Err(Refused { why, claim }) => {
            unit.park(claim).unwrap();
            Err(why)
        }
    }
}
