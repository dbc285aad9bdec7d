// What a dispatcher's calls do, and the law of service that follows over every list of calls.
#![tactic(auto)]

mod entry;
mod law;

pub use entry::{Entry, MOST_DEPTH, Mark};
pub use law::service_law;
