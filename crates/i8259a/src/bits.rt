// A byte as a set of the levels 0 to 7. The levels are numbers: the ports' bytes and the lines of the chip give them as such.
ghost use Rattle.std.specs.Prelude.{◌≡◌, ◌<◌, IfSome};
ghost use Rattle.i8259a.specs.Bits.{bit, with, without, without_lowest, lowest, Levels};

use arbiter::{Level, winner};

// The PLIC and the traces ask the like of their own numbers: the three crates share none that knows of bits, and each is one expression.
pub(crate) fn bit(x: u8, n: u8) -> bool
    requires { n < 8 }
    ensures { result ≡ bit x n }
{
    (x >> n) % 2 == 1
}

// `with` and `without` are two: each caller here wants one of them always, so a flag would be a constant at every call.
pub(crate) fn with(x: u8, n: u8) -> u8
    requires { n < 8 }
    ensures { result ≡ with x n }
{
    x | 1 << n
}

pub(crate) fn without(x: u8, n: u8) -> u8
    requires { n < 8 }
    ensures { result ≡ without x n }
{
    x & !(1 << n)
}

pub(crate) fn without_lowest(x: u8) -> u8
    ensures { result ≡ without_lowest x }
{
    lowest(x).map_or(x, |n| without(x, n))
}

// The lowest level of the set, by the arbitration tree.
pub fn lowest(x: u8) -> Option<u8>
    ensures value { result ≡ lowest x }
    ensures level { IfSome result (λ n. n < 8) }
{
    winner(&levels(x)).map(|n| n as u8)
}

// A leaf for each level: the level itself if the set has it, or nothing.
fn levels(x: u8) -> [Option<Level>; 8]
    ensures { Levels x result }
{
    std::array::from_fn(|n| bit(x, n as u8).then_some(Level(n as u8)))
}
