// What every interrupt controller tells, what its calls answer and leave, and the refusals that all layers share.
#![tactic(auto)]

mod answer;
mod refusal;
mod telling;

pub use answer::Answer;
pub use refusal::{Numbered, Refusal};
pub use telling::Controller;
