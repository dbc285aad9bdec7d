// Calls on a dispatcher that are refused.
use crate::parts;
use crate::script::Call::{Fall, Finish, Open, Rise, Shut, Take};
use crate::script::{Call, run};
use dispatch::Dispatcher;
use std::io;
use units::old_unit;

// A number that is no line; then a line that is not in service, one that is, and one below the newest.
const NOT_NOW: [Call; 13] = [
    Rise(8),
    Fall(8),
    Open(8),
    Shut(8),
    Finish(8),
    Finish(6),
    Rise(6),
    Take,
    Shut(6),
    Rise(4),
    Take,
    Finish(6),
    Finish(3),
];

// No source, and a source of priority 0.
const NO_SOURCE: [Call; 6] = [Rise(0), Open(64), Rise(7), Shut(7), Finish(7), Finish(5)];

// The master's line from the slave is no line of the unit.
const BETWEEN: [Call; 5] = [Rise(2), Open(2), Shut(2), Finish(2), Rise(16)];

pub(crate) fn tell(rt: &HostRuntime) -> io::Result<()> {
    run(
        rt,
        "A dispatcher over an 8259A with every line open: refusals",
        &mut parts::open_unit(),
        &NOT_NOW,
    )?;
    run(
        rt,
        "A dispatcher over a PLIC: refusals",
        &mut Dispatcher::new(parts::plic_controller()),
        &NO_SOURCE,
    )?;
    run(
        rt,
        "A dispatcher over the old unit: refusals",
        &mut Dispatcher::new(old_unit()),
        &BETWEEN,
    )
}
