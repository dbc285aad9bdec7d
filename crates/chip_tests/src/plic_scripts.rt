// Scripts of calls on a bare PLIC with the replies that its rules give.
ghost use Rattle.std.specs.Prelude.{◌≤◌};

use crate::offsets::{
    ALL, CLAIM_COMPLETE, ENABLE, ENABLE_HIGH, LAST_ENABLE, LAST_PENDING, LAST_PRIORITY, PENDING,
    PENDING_HIGH, PRIORITY_5, PRIORITY_9, PRIORITY_32, PRIORITY_63, THRESHOLD,
};
use crate::script::Told::{Done, Signals, Value};
use crate::script::{Reply, Script, Step, run};
use Call::{Claim, Complete, Fall, Read, Rise, Signal, Write};
use controller::Refusal::{NoSuchAddress, NotALine};
use plic::Plic;
use std::process::Abort;

// The bits of some sources in their word.
const BIT_5: u32 = 1 << 5;

const BIT_9: u32 = 1 << 9;

const BIT_63: u32 = 1 << 31;

// Data and no closure, since a row of a script is a constant, and a test that fails prints its call.
#[derive(Clone, Copy, Debug)]
enum Call {
    Rise(u16),
    Fall(u16),
    // an offset and a value
    Write(u32, u32),
    Read(u32),
    Signal,
    Claim,
    Complete(u32),
}

const SCRIPTS: [Script<Call>; 14] = [
    Script {
        shows: "a new PLIC has nothing to claim",
        steps: &[
            Step(Signal, Ok(Signals(false))),
            Step(Claim, Ok(Value(0))),
            Step(Claim, Ok(Value(0))),
            Step(Read(PENDING), Ok(Value(0))),
            Step(Read(PENDING_HIGH), Ok(Value(0))),
        ],
    },
    Script {
        shows: "a priority at the threshold is silent, one above it signals",
        steps: &[
            Step(Write(ENABLE, BIT_5), Ok(Done)),
            Step(Write(PRIORITY_5, 3), Ok(Done)),
            Step(Write(THRESHOLD, 3), Ok(Done)),
            Step(Rise(5), Ok(Done)),
            Step(Signal, Ok(Signals(false))),
            Step(Write(PRIORITY_5, 4), Ok(Done)),
            Step(Signal, Ok(Signals(true))),
            Step(Write(THRESHOLD, 4), Ok(Done)),
            Step(Signal, Ok(Signals(false))),
            Step(Write(THRESHOLD, 0), Ok(Done)),
            Step(Signal, Ok(Signals(true))),
        ],
    },
    Script {
        shows: "among equal priorities the smaller number is claimed, under any threshold",
        steps: &[
            Step(Write(ENABLE, BIT_5 | BIT_9), Ok(Done)),
            Step(Write(PRIORITY_5, 4), Ok(Done)),
            Step(Write(PRIORITY_9, 4), Ok(Done)),
            Step(Rise(9), Ok(Done)),
            Step(Rise(5), Ok(Done)),
            Step(Signal, Ok(Signals(true))),
            Step(Claim, Ok(Value(5))),
            Step(Complete(5), Ok(Done)),
            Step(Write(THRESHOLD, 7), Ok(Done)),
            Step(Signal, Ok(Signals(false))),
            Step(Claim, Ok(Value(5))),
            Step(Claim, Ok(Value(9))),
            Step(Claim, Ok(Value(0))),
        ],
    },
    Script {
        shows: "the greater priority is claimed first, in whichever word",
        steps: &[
            Step(Write(ENABLE, ALL), Ok(Done)),
            Step(Write(ENABLE_HIGH, ALL), Ok(Done)),
            Step(Write(PRIORITY_5, 2), Ok(Done)),
            Step(Write(PRIORITY_9, 3), Ok(Done)),
            Step(Write(PRIORITY_32, 3), Ok(Done)),
            Step(Write(PRIORITY_63, 7), Ok(Done)),
            Step(Rise(5), Ok(Done)),
            Step(Rise(9), Ok(Done)),
            Step(Rise(32), Ok(Done)),
            Step(Rise(63), Ok(Done)),
            Step(Claim, Ok(Value(63))),
            Step(Claim, Ok(Value(9))),
            Step(Claim, Ok(Value(32))),
            Step(Claim, Ok(Value(5))),
            Step(Claim, Ok(Value(0))),
        ],
    },
    Script {
        shows: "priority 0 is never claimed",
        steps: &[
            Step(Write(ENABLE, BIT_5), Ok(Done)),
            Step(Rise(5), Ok(Done)),
            Step(Signal, Ok(Signals(false))),
            Step(Claim, Ok(Value(0))),
            Step(Write(PRIORITY_5, 8), Ok(Done)),
            Step(Claim, Ok(Value(0))),
            Step(Read(PENDING), Ok(Value(BIT_5))),
            Step(Write(PRIORITY_5, 1), Ok(Done)),
            Step(Signal, Ok(Signals(true))),
            Step(Claim, Ok(Value(5))),
        ],
    },
    Script {
        shows: "a source that is not enabled is never claimed",
        steps: &[
            Step(Write(PRIORITY_5, 7), Ok(Done)),
            Step(Rise(5), Ok(Done)),
            Step(Signal, Ok(Signals(false))),
            Step(Claim, Ok(Value(0))),
            Step(Read(PENDING), Ok(Value(BIT_5))),
            Step(Write(ENABLE, BIT_9), Ok(Done)),
            Step(Claim, Ok(Value(0))),
            Step(Write(ENABLE, BIT_5), Ok(Done)),
            Step(Signal, Ok(Signals(true))),
            Step(Write(ENABLE, 0), Ok(Done)),
            Step(Signal, Ok(Signals(false))),
            Step(Write(ENABLE, BIT_5), Ok(Done)),
            Step(Claim, Ok(Value(5))),
        ],
    },
    Script {
        shows: "the pending bits show what is pending, and not what is claimed",
        steps: &[
            Step(Write(ENABLE, ALL), Ok(Done)),
            Step(Write(ENABLE_HIGH, ALL), Ok(Done)),
            Step(Write(PRIORITY_63, 1), Ok(Done)),
            Step(Rise(9), Ok(Done)),
            Step(Rise(32), Ok(Done)),
            Step(Rise(63), Ok(Done)),
            Step(Read(PENDING), Ok(Value(BIT_9))),
            Step(Read(PENDING_HIGH), Ok(Value(BIT_63 | 1))),
            Step(Claim, Ok(Value(63))),
            Step(Read(PENDING), Ok(Value(BIT_9))),
            Step(Read(PENDING_HIGH), Ok(Value(1))),
            Step(Complete(63), Ok(Done)),
            Step(Read(PENDING_HIGH), Ok(Value(BIT_63 | 1))),
        ],
    },
    Script {
        shows: "completing a source that is not enabled leaves it claimed",
        steps: &[
            Step(Write(ENABLE, BIT_5), Ok(Done)),
            Step(Write(PRIORITY_5, 1), Ok(Done)),
            Step(Rise(5), Ok(Done)),
            Step(Claim, Ok(Value(5))),
            Step(Write(ENABLE, 0), Ok(Done)),
            Step(Complete(5), Ok(Done)),
            Step(Write(ENABLE, BIT_5), Ok(Done)),
            Step(Read(PENDING), Ok(Value(0))),
            Step(Signal, Ok(Signals(false))),
            Step(Claim, Ok(Value(0))),
            Step(Complete(5), Ok(Done)),
            Step(Read(PENDING), Ok(Value(BIT_5))),
            Step(Claim, Ok(Value(5))),
        ],
    },
    Script {
        shows: "completion makes a high line pending again and a low one idle",
        steps: &[
            Step(Write(ENABLE, BIT_5), Ok(Done)),
            Step(Write(PRIORITY_5, 1), Ok(Done)),
            Step(Rise(5), Ok(Done)),
            Step(Claim, Ok(Value(5))),
            Step(Complete(5), Ok(Done)),
            Step(Signal, Ok(Signals(true))),
            Step(Claim, Ok(Value(5))),
            Step(Fall(5), Ok(Done)),
            Step(Complete(5), Ok(Done)),
            Step(Signal, Ok(Signals(false))),
            Step(Claim, Ok(Value(0))),
            Step(Rise(5), Ok(Done)),
            Step(Claim, Ok(Value(5))),
        ],
    },
    Script {
        shows: "of a claimed source only the line at its completion counts",
        steps: &[
            Step(Write(ENABLE, BIT_5), Ok(Done)),
            Step(Write(PRIORITY_5, 1), Ok(Done)),
            Step(Rise(5), Ok(Done)),
            Step(Claim, Ok(Value(5))),
            Step(Fall(5), Ok(Done)),
            Step(Rise(5), Ok(Done)),
            Step(Read(PENDING), Ok(Value(0))),
            Step(Claim, Ok(Value(0))),
            Step(Complete(5), Ok(Done)),
            Step(Claim, Ok(Value(5))),
            Step(Fall(5), Ok(Done)),
            Step(Rise(5), Ok(Done)),
            Step(Fall(5), Ok(Done)),
            Step(Complete(5), Ok(Done)),
            Step(Claim, Ok(Value(0))),
        ],
    },
    Script {
        shows: "completions of what is no source are ignored",
        steps: &[
            Step(Write(ENABLE, ALL), Ok(Done)),
            Step(Write(ENABLE_HIGH, ALL), Ok(Done)),
            Step(Write(PRIORITY_5, 1), Ok(Done)),
            Step(Rise(5), Ok(Done)),
            Step(Claim, Ok(Value(5))),
            Step(Complete(0), Ok(Done)),
            Step(Complete(64), Ok(Done)),
            Step(Complete(64 + 5), Ok(Done)),
            Step(Complete(1000), Ok(Done)),
            Step(Complete(0x100 + 5), Ok(Done)),
            Step(Complete(ALL), Ok(Done)),
            Step(Read(PENDING), Ok(Value(0))),
            Step(Claim, Ok(Value(0))),
            Step(Complete(5), Ok(Done)),
            Step(Claim, Ok(Value(5))),
        ],
    },
    Script {
        shows: "completions of what is not claimed are ignored",
        steps: &[
            Step(Write(ENABLE, BIT_5 | BIT_9), Ok(Done)),
            Step(Write(PRIORITY_5, 1), Ok(Done)),
            Step(Write(PRIORITY_9, 1), Ok(Done)),
            Step(Rise(5), Ok(Done)),
            Step(Fall(5), Ok(Done)),
            Step(Complete(5), Ok(Done)),
            Step(Complete(9), Ok(Done)),
            Step(Read(PENDING), Ok(Value(BIT_5))),
            Step(Claim, Ok(Value(5))),
            Step(Complete(9), Ok(Done)),
            Step(Claim, Ok(Value(0))),
        ],
    },
    Script {
        shows: "a fall does not withdraw a pending request",
        steps: &[
            Step(Write(ENABLE, BIT_5), Ok(Done)),
            Step(Write(PRIORITY_5, 1), Ok(Done)),
            Step(Rise(5), Ok(Done)),
            Step(Fall(5), Ok(Done)),
            Step(Read(PENDING), Ok(Value(BIT_5))),
            Step(Signal, Ok(Signals(true))),
            Step(Claim, Ok(Value(5))),
            Step(Complete(5), Ok(Done)),
            Step(Read(PENDING), Ok(Value(0))),
        ],
    },
    Script {
        shows: "numbers that are no source",
        steps: &[
            Step(Rise(0), Err(NotALine)),
            Step(Rise(64), Err(NotALine)),
            Step(Rise(1024), Err(NotALine)),
            Step(Rise(65535), Err(NotALine)),
            Step(Fall(0), Err(NotALine)),
            Step(Fall(64), Err(NotALine)),
            Step(Fall(65535), Err(NotALine)),
            Step(Read(PENDING), Ok(Value(0))),
            Step(Read(PENDING_HIGH), Ok(Value(0))),
            Step(Rise(1), Ok(Done)),
            Step(Rise(63), Ok(Done)),
            Step(Read(PENDING), Ok(Value(1 << 1))),
            Step(Read(PENDING_HIGH), Ok(Value(BIT_63))),
        ],
    },
];

// The bit of source 1023 in its word.
const LAST_BIT: u32 = 1 << 31;

const LARGE_SCRIPTS: [Script<Call>; 2] = [
    Script {
        shows: "the last of 1,023 sources",
        steps: &[
            Step(Write(LAST_PRIORITY, 15), Ok(Done)),
            Step(Read(LAST_PRIORITY), Ok(Value(7))),
            Step(Write(LAST_ENABLE, LAST_BIT), Ok(Done)),
            Step(Read(LAST_ENABLE), Ok(Value(LAST_BIT))),
            Step(Read(LAST_PENDING), Ok(Value(0))),
            Step(Rise(1023), Ok(Done)),
            Step(Read(LAST_PENDING), Ok(Value(LAST_BIT))),
            Step(Signal, Ok(Signals(true))),
            Step(Claim, Ok(Value(1023))),
            Step(Claim, Ok(Value(0))),
            Step(Fall(1023), Ok(Done)),
            Step(Complete(1023), Ok(Done)),
            Step(Read(LAST_PENDING), Ok(Value(0))),
        ],
    },
    Script {
        shows: "past the last of 1,023 sources, and before it",
        steps: &[
            Step(Rise(0), Err(NotALine)),
            Step(Rise(1024), Err(NotALine)),
            Step(Fall(1024), Err(NotALine)),
            Step(Rise(65535), Err(NotALine)),
            Step(Read(LAST_PENDING + 4), Err(NoSuchAddress)),
            Step(Write(LAST_ENABLE + 4, 0), Err(NoSuchAddress)),
            Step(Write(LAST_ENABLE, ALL), Ok(Done)),
            Step(Write(LAST_PRIORITY - 4, 1), Ok(Done)),
            Step(Write(LAST_PRIORITY, 1), Ok(Done)),
            Step(Rise(1023), Ok(Done)),
            Step(Rise(1022), Ok(Done)),
            Step(Claim, Ok(Value(1022))),
            Step(Complete(1024), Ok(Done)),
            Step(Claim, Ok(Value(1023))),
            Step(Claim, Ok(Value(0))),
        ],
    },
];

fn ask<const N: usize>(chip: &mut Plic<N>, call: Call) -> Reply {
    match call {
        Rise(source) => chip.rise(source).map(|()| Done),
        Fall(source) => chip.fall(source).map(|()| Done),
        Write(offset, word) => chip.write(offset, word).map(|()| Done),
        Read(offset) => chip.read(offset).map(Value),
        Signal => Ok(Signals(chip.signal())),
        Claim => chip.read(CLAIM_COMPLETE).map(Value),
        Complete(source) => chip.write(CLAIM_COMPLETE, source).map(|()| Done),
    }
}

// N is bounded, since a table of any size at all is not known to fit in memory.
fn check_scripts<const N: usize>(rt: &impl Abort, scripts: &[Script<Call>])
    requires { N ≤ 1024 }
{
    for script in scripts {
        let mut chip = Plic::<N>::new();
        run(rt, script, |call| ask(&mut chip, call));
    }
}

#[test]
fn scripts_are_answered(rt: HostRuntime) {
    check_scripts::<64>(&rt, &SCRIPTS);
}

#[test]
fn scripts_at_1024_numbers_are_answered(rt: HostRuntime) {
    check_scripts::<1024>(&rt, &LARGE_SCRIPTS);
}
