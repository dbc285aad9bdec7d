// The worked cases, and many more like them, run on the chips, the controllers, the dispatcher and the reader: a line for
// each, with what came back.
#![tactic(auto)]

mod claims;
mod completions;
mod ends;
mod fits;
mod held;
mod nests;
mod outcome;
mod parts;
mod piles;
mod report;
mod script;
mod set_up;
mod signals;
mod spend;
mod traces;
mod turned;

use std::io;
use worked_cases::worked_cases;

fn main(rt: HostRuntime) -> io::Result<()> {
    worked_cases();
    set_up::tell(&rt)?;
    signals::tell(&rt)?;
    ends::tell(&rt)?;
    claims::tell(&rt)?;
    completions::tell(&rt)?;
    nests::tell(&rt)?;
    turned::tell(&rt)?;
    held::tell(&rt)?;
    fits::tell(&rt)?;
    piles::tell(&rt)?;
    traces::tell(&rt)
}
