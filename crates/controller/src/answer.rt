// What a call answers that was carried out.
ghost use Rattle.std.specs.Prelude.{◌≡◌, cond, Some};
ghost use Rattle.controller.specs.declared.answer.Answer.TheVariants.{Accepted, Noted};
ghost use Rattle.controller.specs.Answers.{word};

use std::fmt;

// Accepted: the line waits from now on. Withdrawn: it waits no longer. Noted: neither. Done: a mark was set.
#[derive(Clone, Copy, PartialEq, Eq, Debug)]
pub enum Answer {
    Accepted,
    Withdrawn,
    Noted,
    Done,
}

impl Answer {
    // Accepted if the line waits from now on, and Noted if it does not.
    pub fn accepted_if(waits: bool) -> Answer
        ensures { result ≡ cond waits Accepted Noted }
    {
        if waits {
            Answer::Accepted
        } else {
            Answer::Noted
        }
    }

    // The word under which the answer is printed.
    pub fn text(self) -> &'static str
        ensures { result.now ≡ word self }
    {
        match self {
            Answer::Accepted => "ACCEPTED",
            Answer::Withdrawn => "WITHDRAWN",
            Answer::Noted => "NOTED",
            Answer::Done => "DONE",
        }
    }
}

impl fmt::Display for Answer {
    ghost output = { λ a. Some (word a) };

    fn fmt<W: fmt::Write>(&self, f: &mut fmt::Formatter<W>) -> fmt::Result {
        f.write_str(self.text())
    }
}
