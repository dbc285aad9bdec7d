// Why a call was not carried out. Each call asks its questions in a fixed order; the first that is answered no is the
// refusal, and a refused call changes nothing.
ghost use Rattle.std.specs.Prelude.{◌≡◌, Some};
ghost use Rattle.controller.specs.Refusals.{number, phrase, numbered_phrase};

use std::error::Error;
use std::fmt;

#[derive(Clone, Copy, PartialEq, Eq, Debug)]
pub enum Refusal {
    NotALine = 1,
    InService = 2,
    NotNewest = 3,
    NotHeld = 4,
    NotParked = 5,
    UnlawfulMap = 6,
    CutRecord = 7,
    NoSpace = 8,
    NotSetUp = 9,
    NotModelled = 10,
    NoSuchAddress = 11,
    NotAFleetingLine = 12,
    PartInService = 13,
    TooLarge = 14,
}

impl Refusal {
    // The number under which this refusal is logged and printed.
    pub fn number(self) -> u8
        ensures { result ≡ number self }
    {
        self as u8
    }

    // What was refused, in plain words.
    pub fn text(self) -> &'static str
        ensures { result.now ≡ phrase self }
    {
        match self {
            Refusal::NotALine => "no such line",
            Refusal::InService => "the line is in service",
            Refusal::NotNewest => "the line is not the newest in service",
            Refusal::NotHeld => "the line is not held",
            Refusal::NotParked => "the line is not parked",
            Refusal::UnlawfulMap => "the record's map is unlawful",
            Refusal::CutRecord => "the record is cut short",
            Refusal::NoSpace => "there is no space",
            Refusal::NotSetUp => "the chip is not set up far enough",
            Refusal::NotModelled => "the byte is not modelled",
            Refusal::NoSuchAddress => "no such port or offset",
            Refusal::NotAFleetingLine => "no such fleeting line of the outer controller",
            Refusal::PartInService => "a part has a line in service",
            Refusal::TooLarge => "the parts are too large together",
        }
    }
}

impl fmt::Display for Refusal {
    ghost output = { λ r. Some (phrase r) };

    fn fmt<W: fmt::Write>(&self, f: &mut fmt::Formatter<W>) -> fmt::Result {
        f.write_str(self.text())
    }
}

impl Error for Refusal {}

// A refusal as reports have it: its number, and what was refused.
#[derive(Clone, Copy, PartialEq, Eq, Debug)]
pub struct Numbered(pub Refusal);

impl fmt::Display for Numbered {
    ghost output = { λ n. Some (numbered_phrase n.0) };

    fn fmt<W: fmt::Write>(&self, f: &mut fmt::Formatter<W>) -> fmt::Result {
        let Numbered(why) = *self;
        let number = why.number();
        write!(f, "refused ({number}), {why}")
    }
}
