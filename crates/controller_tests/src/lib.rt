// What both controllers tell of themselves, and the same list of calls over both, with the answers that the rules give each.
#![tactic(auto)]

#[cfg(test)]
mod questions;
#[cfg(test)]
mod same_calls;
#[cfg(test)]
mod script;
