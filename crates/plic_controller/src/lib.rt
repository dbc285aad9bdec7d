// The PLIC as a controller: it claims only what lies above its threshold, and the threshold follows what is in service.
#![tactic(auto)]

mod registers;
mod serving;
mod unit;

pub use unit::PlicController;
