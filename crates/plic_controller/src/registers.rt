// One use of a register each, at its offset. Functions over the chip, a type of another crate: as methods of the
// controller, each would speak of a controller for what is its chip's alone.
ghost use Rattle.std.specs.Prelude.{◌≡◌, ◌%◌, ◌<◌};
ghost use Rattle.plic.specs.Chip.{Completes, with_threshold};
ghost use Rattle.plic_controller.specs.Steps.{WithBit, ReadsPriority, SetsPriority, SetsEnabled, ClaimsFirst};

use plic::Plic;

// The offsets: the first priority and the first enable word, then the threshold, and the register that claims and completes. They are
// numbers of the register map's specification, and written out once for each driver of the chip, as the map has them.
const PRIORITIES: u32 = 0x000000;

const ENABLES: u32 = 0x002000;

const THRESHOLD: u32 = 0x200000;

const CLAIM: u32 = 0x200004;

// Gives source n a priority, of which three bits are kept. Here and below an offset that exists is written, so nothing is refused.
pub(crate) fn set_priority(chip: &mut Plic<64>, n: u16, priority: u8)
    ensures { SetsPriority chip.old n priority chip.new }
{
    let _ = chip.write(PRIORITIES + 4 * u32::from(n), u32::from(priority));
}

// The priority of source n.
pub(crate) fn priority(chip: &mut Plic<64>, n: u16) -> u32
    ensures { ReadsPriority chip.old n result chip.new }
{
    chip.read(PRIORITIES + 4 * u32::from(n)).unwrap_or(0)
}

// The value with its bit i set or cleared. The 8259A does the like to its masks of eight bits; one function for both widths would be
// generic over numbers, in a crate of bits of its own, and no plainer.
fn with_bit(value: u32, i: u32, on: bool) -> u32
    requires { i < 32 }
    ensures { WithBit value i on result }
{
    let mask = 1 << i;
    if on { value | mask } else { value & !mask }
}

// Opens or shuts source n in its enable word.
pub(crate) fn set_enabled(chip: &mut Plic<64>, n: u16, on: bool)
    ensures { SetsEnabled chip.old n on chip.new }
{
    let n = u32::from(n);
    let offset = ENABLES + 4 * (n / 32);
    if let Ok(word) = chip.read(offset) {
        let _ = chip.write(offset, with_bit(word, n % 32, on));
    }
}

// Sets the threshold, of which three bits are kept.
pub(crate) fn set_threshold(chip: &mut Plic<64>, level: u32)
    ensures { chip.new ≡ with_threshold 64 chip.old (level % 8) }
{
    let _ = chip.write(THRESHOLD, level);
}

// Claims the first source, whatever the threshold is, if there is one.
pub(crate) fn claim(chip: &mut Plic<64>) -> Option<u16>
    ensures { ClaimsFirst chip.old result chip.new }
{
    match chip.read(CLAIM).ok()? {
        0 => None,
        n => Some(n as u16),
    }
}

// Completes source n.
pub(crate) fn complete(chip: &mut Plic<64>, n: u16)
    ensures { Completes 64 chip.old n chip.new }
{
    let _ = chip.write(CLAIM, u32::from(n));
}
