// The decoder: the acts that a record names.
ghost use Rattle.std.specs.Prelude.{◌≡◌, [], ◌∷◌, Some};
ghost use Rattle.std.specs.List.{flat_map};
ghost use Rattle.std.specs.Option.{option_to_list};
ghost use Rattle.trace.specs.Decoding.{line, past, decoded, act_at, in_order};
ghost use Rattle.trace.specs.Inverse.{WrittenBack};
ghost use Rattle.trace.specs.Printing.{act_text};

use crate::map::{FALL, FINISH, OPEN, RISE, SHUT, TAKE, has};
use crate::reader::Record;
use std::fmt;

#[derive(Clone, Copy, PartialEq, Eq, Debug)]
pub enum Act {
    Rise(u8),
    Fall(u8),
    Open(u8),
    Shut(u8),
    Take,
    Finish,
}

// The act and its line, as "rise 5" or "take".
impl fmt::Display for Act {
    ghost output = { λ a. Some (act_text a) };

    fn fmt<W: fmt::Write>(&self, f: &mut fmt::Formatter<W>) -> fmt::Result {
        match self {
            Act::Rise(n) => write!(f, "rise {n}"),
            Act::Fall(n) => write!(f, "fall {n}"),
            Act::Open(n) => write!(f, "open {n}"),
            Act::Shut(n) => write!(f, "shut {n}"),
            Act::Take => f.write_str("take"),
            Act::Finish => f.write_str("finish"),
        }
    }
}

// The acts of one record, at most one of each kind, in the order in which they are done.
#[derive(Clone, Copy, PartialEq, Eq, Debug, Default)]
pub struct Acts {
    pub rise: Option<u8>,
    pub fall: Option<u8>,
    pub open: Option<u8>,
    pub shut: Option<u8>,
    pub take: bool,
    pub finish: bool,
}

impl Acts {
    // The act of bit i of the map, if it is one of these.
    pub fn at(&self, i: u8) -> Option<Act>
        ensures { result ≡ act_at self.now i }
    {
        match i {
            RISE => Some(Act::Rise(self.rise?)),
            FALL => Some(Act::Fall(self.fall?)),
            OPEN => Some(Act::Open(self.open?)),
            SHUT => Some(Act::Shut(self.shut?)),
            TAKE if self.take => Some(Act::Take),
            FINISH if self.finish => Some(Act::Finish),
            _ => None,
        }
    }

    // The act of each bit, in bit order.
    pub fn in_order(&self) -> [Option<Act>; 6]
        ensures bits { result ≡ act_at self.now 0 ∷ act_at self.now 1 ∷ act_at self.now 2 ∷ act_at self.now 3 ∷ act_at self.now 4 ∷ act_at self.now 5 ∷ [] }
        ensures acts { flat_map option_to_list result ≡ in_order self.now }
    {
        [
            self.at(RISE),
            self.at(FALL),
            self.at(OPEN),
            self.at(SHUT),
            self.at(TAKE),
            self.at(FINISH),
        ]
    }
}

// The line at the front, where there is one, and what comes after it.
fn field(set: bool, bytes: &[u8]) -> (Option<u8>, &[u8])
    ensures { (result.0 ≡ line set bytes.now) × (result.1.now ≡ past set bytes.now) }
{
    match bytes {
        [line, rest @ ..] if set => (Some(*line), rest),
        _ => (None, bytes),
    }
}

impl Record<'_> {
    // The acts that the record names; none where it has no bytes.
    pub fn acts(&self) -> Acts
        ensures decodes { result ≡ decoded self.now.bytes.now }
        ensures inverse { WrittenBack result self.now.bytes.now }
    {
        let [map, rest @ ..] = self.bytes else {
            return Acts::default();
        };
        let map = *map;
        let (rise, rest) = field(has(map, RISE), rest);
        let (fall, rest) = field(has(map, FALL), rest);
        let (open, rest) = field(has(map, OPEN), rest);
        let (shut, _) = field(has(map, SHUT), rest);
        Acts {
            rise,
            fall,
            open,
            shut,
            take: has(map, TAKE),
            finish: has(map, FINISH),
        }
    }
}
