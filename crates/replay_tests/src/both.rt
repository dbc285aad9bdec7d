// Two units that tell the same replay the same, also where the trace is cut and where the logs are short.
ghost use Rattle.std.specs.Prelude.{◌≤◌};

use crate::runs::{FILL, TRACE};
use dispatch::Dispatcher;
use replay::replay_both;
use std::process::Abort;
use units::old_unit;

fn check_alike(rt: &impl Abort, trace: &[u8], room: usize)
    requires { room ≤ 8 }
{
    let mut one_log = [FILL; 8];
    let mut other_log = [FILL; 8];
    let (one, other) = replay_both(
        &mut Dispatcher::new(old_unit()),
        &mut Dispatcher::new(old_unit()),
        trace,
        &mut one_log[..room],
        &mut other_log[..room],
    );
    assert_eq!(rt; one, other, "{trace:?}, log of {room}");
    assert_eq!(rt; one_log, other_log, "{trace:?}, log of {room}");
}

fn check_cuts(rt: &impl Abort) {
    for length in 0..=TRACE.len() {
        check_alike(rt, &TRACE[..length], 8);
    }
}

fn check_rooms(rt: &impl Abort) {
    for room in 0..=8 {
        check_alike(rt, &TRACE, room);
    }
}

#[test]
fn units_that_tell_the_same(rt: HostRuntime) {
    check_cuts(&rt);
    check_rooms(&rt);
}
