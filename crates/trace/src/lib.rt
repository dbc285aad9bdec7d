// Traces: records of the acts on a controller, read, decoded, written and surveyed, with no allocation.
#![tactic(auto)]

mod acts;
mod length;
mod map;
mod reader;
mod survey;
mod writer;

pub use acts::{Act, Acts};
pub use length::record_length;
pub use map::{ACT_BITS, act_count};
pub use reader::{Next, Reader, Record};
pub use survey::{Survey, survey_trace};
pub use writer::{write_acts, write_record};
