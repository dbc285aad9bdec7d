// What starts, how deep it nests, and when a take is spurious.
use crate::parts;
use crate::script::Call::{Fall, Finish, Open, Rise, Shut, Take};
use crate::script::{Call, run};
use dispatch::Dispatcher;
use std::io;
use units::old_unit;

// Levels from 7 down to 0, a take with the nest full, and the first steps back.
const EIGHT_DEEP: [Call; 21] = [
    Rise(7),
    Take,
    Rise(6),
    Take,
    Rise(5),
    Take,
    Rise(4),
    Take,
    Rise(3),
    Take,
    Rise(2),
    Take,
    Rise(1),
    Take,
    Rise(0),
    Take,
    Take,
    Fall(0),
    Finish(0),
    Take,
    Finish(1),
];

// Line 7 is in service and no line is ready, for one reason after the other.
const SEVEN: [Call; 20] = [
    Take,
    Rise(7),
    Take,
    Take,
    Rise(3),
    Fall(3),
    Take,
    Shut(3),
    Rise(3),
    Take,
    Open(3),
    Take,
    Rise(5),
    Take,
    Finish(3),
    Fall(3),
    Take,
    Finish(5),
    Fall(7),
    Finish(7),
];

// Sources 5 and 9 are of one priority, source 3 of a greater one; a fall does not withdraw.
const ONE_PRIORITY: [Call; 15] = [
    Open(3),
    Open(5),
    Open(9),
    Rise(9),
    Rise(5),
    Fall(5),
    Take,
    Take,
    Rise(3),
    Take,
    Fall(3),
    Finish(3),
    Finish(5),
    Take,
    Finish(9),
];

// The slave's lines are of one class, that of the master's line 2.
const SLAVE: [Call; 14] = [
    Open(1),
    Open(3),
    Open(8),
    Open(15),
    Rise(15),
    Take,
    Rise(8),
    Take,
    Rise(3),
    Take,
    Rise(1),
    Take,
    Finish(1),
    Finish(15),
];

pub(crate) fn tell(rt: &HostRuntime) -> io::Result<()> {
    run(
        rt,
        "A dispatcher over an 8259A with every line open: eight deep",
        &mut parts::open_unit(),
        &EIGHT_DEEP,
    )?;
    run(
        rt,
        "A dispatcher over an 8259A with every line open: spurious takes",
        &mut parts::open_unit(),
        &SEVEN,
    )?;
    run(
        rt,
        "A dispatcher over a PLIC: sources of one priority",
        &mut Dispatcher::new(parts::plic_controller()),
        &ONE_PRIORITY,
    )?;
    run(
        rt,
        "A dispatcher over the old unit: lines of the slave",
        &mut Dispatcher::new(old_unit()),
        &SLAVE,
    )
}
