// The arbitration tree: which of many leaves holds the key that comes first. Both chips find their winner with it.
#![tactic(auto)]

mod key;
mod tree;

pub use key::{Key, Level, Priority};
pub use tree::winner;
