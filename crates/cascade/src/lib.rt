// A controller made of two: an inner one hung from a line of an outer one. It is proved for every two controllers.
#![tactic(auto)]

mod fit;
mod pile;

pub use fit::check;
pub use pile::Cascade;
