// The parts that the cases are run on.
use controller::Controller;
use dispatch::Dispatcher;
use i8259a::{I8259a, set_up};
use i8259a_controller::I8259aController;
use plic_controller::PlicController;

// Offsets of a PLIC's registers. They are numbers of its specification, which a driver writes out.
pub(crate) const ENABLE: u32 = 0x002000;

pub(crate) const THRESHOLD: u32 = 0x200000;

pub(crate) const CLAIM_COMPLETE: u32 = 0x200004;

// An 8259A that is set up, with nothing masked.
pub(crate) fn chip() -> I8259a {
    let mut chip = I8259a::new();
    let _ = set_up(&mut chip, 0x08, 0x00);
    chip
}

// Line n of the chip rises and goes into service.
pub(crate) fn serve(chip: &mut I8259a, n: u16) {
    let _ = chip.rise(n);
    let _ = chip.acknowledge();
}

// A dispatcher over an 8259A with every line open.
pub(crate) fn open_unit() -> Dispatcher<I8259aController> {
    let mut unit = Dispatcher::new(I8259aController::new());
    for n in 0..8 {
        let _ = unit.open(n);
    }
    unit
}

// Sources 5 and 9 are of priority 4, and source 3 is more urgent.
pub(crate) fn plic_controller() -> PlicController {
    let mut priorities = [0; 64];
    priorities[3] = 6;
    priorities[5] = 4;
    priorities[9] = 4;
    PlicController::new(priorities)
}
