// The units that are built: named makings.
#![tactic(auto)]

mod old;

pub use old::old_unit;
