// The 8259A as a controller of eight fleeting lines.
#![tactic(auto)]

mod steps;
mod unit;

pub use unit::I8259aController;
