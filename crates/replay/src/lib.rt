// A trace replayed over a dispatcher, what it logs, and the line that is printed of a log record.
#![tactic(auto)]

mod act;
mod log;
mod perform;
mod printed;
mod replaying;

pub use log::{LogRecord, Replayed};
pub use printed::{record_line, stop_line, summary_line};
pub use replaying::{replay, replay_both};
