// What a look at an 8259A's registers shows, and that it leaves the chip as it was.
use crate::commands::{ICW2, ICW3, READ_IRR, READ_ISR};
use i8259a::Register::{Irr, Isr};
use i8259a::{I8259a, Register, set_up};
use std::process::Abort;
use std::test::Fail;

// A register and a number, and whether the register shows that level.
struct Shown(Register, u16, bool);

const SHOWN: [Shown; 13] = [
    Shown(Irr, 2, true),
    Shown(Irr, 5, true),
    Shown(Irr, 0, false),
    Shown(Irr, 7, false),
    Shown(Isr, 2, true),
    Shown(Isr, 5, false),
    Shown(Isr, 7, false),
    // none above level 7
    Shown(Irr, 8, false),
    Shown(Irr, 256 + 2, false),
    Shown(Irr, 65535, false),
    Shown(Isr, 8, false),
    Shown(Isr, 256 + 2, false),
    Shown(Isr, 65535, false),
];

fn check_looks(rt: &impl Abort, chip: &mut I8259a) {
    let before = *chip;
    assert_eq!(rt; chip.look(Irr), 0x24);
    assert_eq!(rt; chip.look(Isr), 0x04);
    for &Shown(register, n, shows) in &SHOWN {
        assert_eq!(rt; chip.shows(register, n), shows, "{register:?}, {n}");
    }
    assert_eq!(rt; *chip, before);
}

// Lines 2 and 5 are high and level 2 is in service; whichever register is selected stays so.
#[test]
fn a_look_changes_nothing(rt: HostRuntime) -> Result<(), Fail> {
    let mut chip = I8259a::new();
    set_up(&mut chip, ICW2, ICW3)?;
    chip.rise(2)?;
    chip.rise(5)?;
    assert_eq!(rt; chip.acknowledge(), Ok(2));
    for (select, byte) in [(READ_IRR, 0x24), (READ_ISR, 0x04)] {
        chip.write(0, select)?;
        check_looks(&rt, &mut chip);
        assert_eq!(rt; chip.read(0), Ok(byte));
    }
    Ok(())
}
