// Where a replay stops: at the end, at a cut, at a bad map, and where the log is full.
ghost use Rattle.std.specs.Prelude.{◌<◌};

use crate::runs::{Run, TRACE, places, stop};
use controller::Refusal;
use replay::Replayed;
use std::process::Abort;

// By the length of the log. The records ask for 1, 2, 1, 1, 1, 1, 1, 2, 1 and 2 free places.
fn by_log_length() -> [Replayed; 9] {
    let full = Some(Refusal::NoSpace);
    [
        stop(0, 0, full),
        stop(0, 2, full),
        stop(2, 11, full),
        stop(3, 13, full),
        stop(3, 13, full),
        stop(5, 16, full),
        stop(5, 16, full),
        stop(6, 18, None),
        stop(6, 18, None),
    ]
}

#[test]
fn logs_of_every_length(rt: HostRuntime) {
    for (room, expected) in by_log_length().into_iter().enumerate() {
        Run::<8>::with_room(&TRACE, room).check_stop(&rt, expected, "log of", room);
    }
}

// What a replay of the trace cut to that many bytes answers. It does the records that end within them; where bytes of the
// next one are left, that record is cut.
fn cut_to(length: usize) -> Option<Replayed> {
    let place = places()
        .into_iter()
        .take_while(|place| place.bytes <= length)
        .last()?;
    let cut = place.bytes < length;
    Some(Replayed {
        fault: cut.then_some(Refusal::CutRecord),
        ..place
    })
}

#[test]
fn cuts_at_every_length(rt: HostRuntime) {
    for length in 0..=TRACE.len() {
        let expected = cut_to(length).expect(&rt, "the first place is at byte 0");
        Run::<8>::new(&TRACE[..length]).check_stop(&rt, expected, "cut to", length);
    }
}

fn check_bad_maps(rt: &impl Abort, place: Replayed)
    requires { place.bytes < 18 }
{
    let expected = Replayed {
        fault: Some(Refusal::UnlawfulMap),
        ..place
    };
    for map in [0x00, 0x40, 0x80, 0xff] {
        let mut trace = TRACE;
        trace[place.bytes] = map;
        Run::<8>::new(&trace).check_stop(rt, expected, "map", usize::from(map));
    }
}

#[test]
fn bad_maps_in_every_place(rt: HostRuntime) {
    for place in places() {
        // At the end no map stands.
        if place.bytes < TRACE.len() {
            check_bad_maps(&rt, place);
        }
    }
}
