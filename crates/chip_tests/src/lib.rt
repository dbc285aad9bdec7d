// The words of answers and refusals, the arbitration tree, and both bare chips, their calls and their registers, as tables
// that the tests run.
#![tactic(auto)]

#[cfg(test)]
mod answers;
#[cfg(test)]
mod commands;
#[cfg(test)]
mod i8259a_scripts;
#[cfg(test)]
mod i8259a_writes;
#[cfg(test)]
mod levels;
#[cfg(test)]
mod looks;
#[cfg(test)]
mod offsets;
#[cfg(test)]
mod plic_registers;
#[cfg(test)]
mod plic_scripts;
#[cfg(test)]
mod refusals;
#[cfg(test)]
mod script;
#[cfg(test)]
mod winners;
