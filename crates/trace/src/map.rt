// The map byte of a record: each set bit names an act.
ghost use Rattle.std.specs.Prelude.{◌≡◌, ◌<◌};
ghost use Rattle.trace.specs.Maps.{bit, act_count};

// The acts by their bits, in the order in which they are done. The first four have a line. They are numbers and no enum,
// since they are places in a byte, to shift by, and a caller may ask of any number.
pub(crate) const RISE: u8 = 0;

pub(crate) const FALL: u8 = 1;

pub(crate) const OPEN: u8 = 2;

pub(crate) const SHUT: u8 = 3;

pub(crate) const TAKE: u8 = 4;

pub(crate) const FINISH: u8 = 5;

// How many bits of a map name an act.
pub const ACT_BITS: u8 = 6;

// Whether bit i of a map is set. Both chips ask the like of their own numbers: the three crates share none that knows of bits, and each
// is one expression.
pub(crate) fn has(map: u8, i: u8) -> bool
    requires { i < 8 }
    ensures { result ≡ bit map i }
{
    (map >> i) % 2 == 1
}

// How many acts a map names: bits 6 and 7 name none.
pub fn act_count(map: u8) -> usize
    ensures { result ≡ act_count map }
{
    (map % (1 << ACT_BITS)).count_ones() as usize
}
