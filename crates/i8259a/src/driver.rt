// The set-up as a driver does it.
ghost use Rattle.std.specs.Prelude.{◌≡◌, Ok};
ghost use Rattle.i8259a.specs.Writing.{ready};

use crate::chip::I8259a;
use controller::Refusal;

// The four set-up writes, from any state: the chip is then set up, with nothing in service and nothing masked.
pub fn set_up(chip: &mut I8259a, icw2: u8, icw3: u8) -> Result<(), Refusal>
    ensures answer { result ≡ Ok tt }
    ensures after { chip.new ≡ ready chip.old icw2 icw3 }
{
    chip.write(0, 0x19)?;
    chip.write(1, icw2)?;
    chip.write(1, icw3)?;
    chip.write(1, 0x01)
}
