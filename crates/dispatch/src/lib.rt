// The dispatcher: it starts the line that its controller takes, keeps the nest of what it started, and ends it in order.
#![tactic(auto)]

mod claim;
mod dispatcher;
mod nest;
mod written;

pub use claim::Claim;
pub use dispatcher::Dispatcher;
pub use service::{Entry, Mark};
pub use written::{Ended, Refused, Taken};
