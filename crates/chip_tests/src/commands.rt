// The bytes that a driver writes to an 8259A.

// The set-up's four: the first to port 0, the others to port 1.
pub(crate) const ICW1: u8 = 0x19;

pub(crate) const ICW2: u8 = 0x20;

pub(crate) const ICW3: u8 = 0x04;

pub(crate) const ICW4: u8 = 0x01;

// To port 0 once the chip is set up: the end of the lowest level in service, and that of level 0, to which a level is added.
pub(crate) const END: u8 = 0x20;

pub(crate) const END_OF: u8 = 0x60;

// The read selects.
pub(crate) const READ_IRR: u8 = 0x0a;

pub(crate) const READ_ISR: u8 = 0x0b;
