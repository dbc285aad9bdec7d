// What the controller does with its chip, one register at a time. Levels are numbers, as the chip's commands have them.
ghost use Rattle.std.specs.Prelude.{◌≡◌, ◌<◌, cond};
ghost use Rattle.i8259a.specs.Bits.{with, without, lowest};
ghost use Rattle.i8259a.specs.Chip.{with_imr, with_isr};
ghost use Rattle.i8259a.specs.Signal.{SetUp};
ghost use Rattle.i8259a_controller.specs.Steps.{line_of, rise_answer, fall_answer, believed, TakesLevel};

use controller::Answer;
use i8259a::{I8259a, Register, lowest};

// How many levels a chip has.
pub(crate) const LEVELS: u16 = 8;

// The marks of a line, as its chip shows them.
#[derive(Clone, Copy)]
pub(crate) struct Line {
    pub(crate) high: bool,
    pub(crate) serving: bool,
}

impl Line {
    pub(crate) fn shown(chip: &mut I8259a, n: u16) -> Line
        ensures marks { result ≡ line_of chip.old n }
        ensures after { chip.new ≡ chip.old }
    {
        Line {
            high: chip.shows(Register::Irr, n),
            serving: chip.shows(Register::Isr, n),
        }
    }

    // The answer to a rise: a line that is neither high nor in service is accepted.
    pub(crate) fn rise_answer(self) -> Answer
        ensures { result ≡ rise_answer self.high self.serving }
    {
        Answer::accepted_if(!self.high && !self.serving)
    }

    // The answer to a fall: a line that waited is withdrawn.
    pub(crate) fn fall_answer(self) -> Answer
        ensures { result ≡ fall_answer self.high self.serving }
    {
        if self.high && !self.serving {
            Answer::Withdrawn
        } else {
            Answer::Noted
        }
    }
}

// Puts the bit of a level into the mask, or takes it out. The chip does the like to its own registers; shared, that would be a public
// function that requires a level below 8, and no public function here requires anything. A chip that is set up refuses neither access.
pub(crate) fn set_masked(chip: &mut I8259a, level: u8, masked: bool)
    requires { level < 8 }
    ensures { SetUp chip.old → chip.new ≡ with_imr chip.old (cond masked (with chip.old.imr level) (without chip.old.imr level)) }
{
    if let Ok(mask) = chip.read(1) {
        let bit = 1 << level;
        let _ = chip.write(1, if masked { mask | bit } else { mask & !bit });
    }
}

// The specific end of a level. A chip that is set up takes the command.
pub(crate) fn end(chip: &mut I8259a, level: u8)
    requires { level < 8 }
    ensures { SetUp chip.old → chip.new ≡ with_isr chip.old (without chip.old.isr level) }
{
    let _ = chip.write(0, 0x60 + level);
}

// The lowest level in service, which is the newest.
pub(crate) fn newest(chip: &mut I8259a) -> Option<u8>
    ensures answer { result ≡ lowest chip.old.isr }
    ensures after { chip.new ≡ chip.old }
{
    lowest(chip.look(Register::Isr))
}

// Acknowledges, and tells a level that went into service from a spurious level 7.
pub(crate) fn take(chip: &mut I8259a) -> Option<u16>
    ensures { SetUp chip.old → TakesLevel chip.old result chip.new }
{
    let before = chip.shows(Register::Isr, 7);
    let level = chip.acknowledge().ok()?;
    let after = chip.shows(Register::Isr, 7);
    believed(level, before, after).then_some(u16::from(level))
}

// Level 7 is believed only if its in-service bit was clear before the acknowledge and is set after it.
fn believed(level: u8, before: bool, after: bool) -> bool
    ensures { result ≡ believed level before after }
{
    level != 7 || (!before && after)
}
