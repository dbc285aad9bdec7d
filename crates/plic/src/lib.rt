// The bare RISC-V PLIC: gateways, registers at their offsets, claim and complete, for one context.
#![tactic(auto)]

mod chip;
mod gateway;
mod registers;
mod words;

pub use chip::Plic;
pub use gateway::{Gateway, Request};
