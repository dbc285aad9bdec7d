// The bare Intel 8259A: its registers, its two ports, its signal and its acknowledge.
#![tactic(auto)]

mod bits;
mod chip;
mod driver;
mod look;
mod ports;

pub use bits::lowest;
pub use chip::{I8259a, Register, level_of};
pub use driver::set_up;
