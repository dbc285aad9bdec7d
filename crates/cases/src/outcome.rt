// What came back of a call, in one form that can be kept and printed: a table has calls of many kinds, so it is one enum and
// not the result of each call. The words yes and no are those of a question.
use crate::report::Case;
use controller::{Answer, Numbered, Refusal};
use dispatch::Ended;
use std::{fmt, io};
use trace::Record;

#[derive(Clone, Copy)]
pub(crate) enum Outcome {
    Done,
    Fits,
    Yes,
    No,
    Nothing,
    Number(u32),
    Answered(Answer),
    Start { line: u16, depth: usize },
    Spurious { depth: usize },
    End(Ended),
    Record { length: usize, place: usize },
    EndOfTrace,
    Refused(Refusal),
}

// A call that was made, and what came back.
#[derive(Clone, Copy)]
pub(crate) struct Told(pub(crate) &'static str, pub(crate) Outcome);

impl Case for Told {
    fn tell(&self, rt: &HostRuntime) -> io::Result<()> {
        let Told(what, came) = *self;
        println!(rt; "  {what}: {came}")
    }
}

impl Told {
    pub(crate) fn new<T: Into<Outcome>>(what: &'static str, came: T) -> Told {
        Told(what, came.into())
    }
}

impl<T: Into<Outcome>> From<Result<T, Refusal>> for Outcome {
    fn from(came: Result<T, Refusal>) -> Outcome {
        match came {
            Ok(value) => value.into(),
            Err(why) => Outcome::Refused(why),
        }
    }
}

impl From<()> for Outcome {
    fn from((): ()) -> Outcome {
        Outcome::Done
    }
}

impl From<bool> for Outcome {
    fn from(answer: bool) -> Outcome {
        if answer { Outcome::Yes } else { Outcome::No }
    }
}

// Three widths, each by its own impl: one over all types that convert into `u32` would overlap that of `bool`.
impl From<u8> for Outcome {
    fn from(value: u8) -> Outcome {
        Outcome::Number(u32::from(value))
    }
}

impl From<u16> for Outcome {
    fn from(value: u16) -> Outcome {
        Outcome::Number(u32::from(value))
    }
}

impl From<u32> for Outcome {
    fn from(value: u32) -> Outcome {
        Outcome::Number(value)
    }
}

// A line, if there is one.
impl From<Option<u16>> for Outcome {
    fn from(line: Option<u16>) -> Outcome {
        line.map_or(Outcome::Nothing, Outcome::from)
    }
}

// A record of a trace, or its end.
impl From<Option<Record<'_>>> for Outcome {
    fn from(next: Option<Record<'_>>) -> Outcome {
        match next {
            Some(record) => Outcome::Record {
                length: record.bytes.len(),
                place: record.place,
            },
            None => Outcome::EndOfTrace,
        }
    }
}

impl From<Answer> for Outcome {
    fn from(answer: Answer) -> Outcome {
        Outcome::Answered(answer)
    }
}

impl From<Ended> for Outcome {
    fn from(ended: Ended) -> Outcome {
        Outcome::End(ended)
    }
}

impl fmt::Display for Outcome {
    fn fmt<W: fmt::Write>(&self, f: &mut fmt::Formatter<W>) -> fmt::Result {
        match *self {
            Outcome::Done => f.write_str("done"),
            Outcome::Fits => f.write_str("they fit"),
            Outcome::Yes => f.write_str("yes"),
            Outcome::No => f.write_str("no"),
            Outcome::Nothing => f.write_str("NONE"),
            Outcome::Number(value) => write!(f, "{value}"),
            Outcome::Answered(answer) => write!(f, "{answer}"),
            // By hand, as in `incident`: what a take brings back holds the claim, which is spent before anything is printed.
            Outcome::Start { line, depth } => write!(f, "START {line}, depth {depth}"),
            Outcome::Spurious { depth } => write!(f, "SPURIOUS, depth {depth}"),
            Outcome::End(end) => write!(f, "{end}"),
            Outcome::Record { length, place } => {
                write!(f, "record of length {length} at place {place}")
            }
            Outcome::EndOfTrace => f.write_str("END"),
            Outcome::Refused(why) => write!(f, "{}", Numbered(why)),
        }
    }
}
