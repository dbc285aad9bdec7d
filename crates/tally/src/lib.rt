// The balance of one line: how often it was accepted, was withdrawn and has ended, counted from what was answered of it.
#![tactic(auto)]

ghost use Rattle.std.specs.Prelude.{◌≡◌, ◌+◌, ◌-◌};
ghost use Rattle.service.specs.Calls.{passed_on};
ghost use Rattle.dispatch.specs.Replies.{finished_reply};
ghost use Rattle.tally.specs.Counting.{none, counted};
ghost use Rattle.tally.specs.Keeping.{TallyLaw};

use controller::{Answer, Refusal};
use dispatch::Ended;

// A count that has reached its greatest value stays there.
#[derive(Clone, Copy, PartialEq, Eq, Debug, Default)]
pub struct Tally {
    pub accepted: u32,
    pub withdrawn: u32,
    pub ended: u32,
}

impl Tally {
    // Whoever keeps one along the calls on a dispatcher learns that its counts are those of the law of service.
    pub fn new() -> Tally
        ensures value { result ≡ none }
        ensures law { TallyLaw }
    {
        Tally::default()
    }

    // Counts what a rise or a fall of the line brought back.
    pub fn note_answer(&mut self, answer: Result<Answer, Refusal>)
        ensures { self.new ≡ counted self.old (passed_on answer) }
    {
        match answer {
            Ok(Answer::Accepted) => self.accepted = self.accepted.saturating_add(1),
            Ok(Answer::Withdrawn) => self.withdrawn = self.withdrawn.saturating_add(1),
            _ => {}
        }
    }

    // Counts what a close or a finish of the line brought back.
    pub fn note_end(&mut self, ended: Result<Ended, Refusal>)
        ensures { self.new ≡ counted self.old (finished_reply ended) }
    {
        if let Ok(end) = ended {
            self.ended = self.ended.saturating_add(1);
            self.note_answer(Ok(end.answer));
        }
    }

    // What was accepted and was neither withdrawn nor ended: by the law of service 1 while the line waits or is in
    // service, else 0.
    pub fn outstanding(&self) -> u32
        ensures { result ≡ self.now.accepted - self.now.withdrawn - self.now.ended }
    {
        self.accepted
            .saturating_sub(self.withdrawn)
            .saturating_sub(self.ended)
    }
}
