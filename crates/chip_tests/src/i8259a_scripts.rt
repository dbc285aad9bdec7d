// Scripts of calls on a bare 8259A with the replies that its rules give.
use crate::commands::{END, END_OF, ICW1, ICW2, ICW3, ICW4, READ_IRR, READ_ISR};
use crate::script::Told::{Done, Signals, Value};
use crate::script::{Reply, Script, Step, run};
use Call::{Acknowledge, Fall, Read, Rise, SetUp, Signal, Write};
use controller::Refusal::{NoSuchAddress, NotALine, NotModelled, NotSetUp};
use i8259a::{I8259a, set_up};
use std::process::Abort;
use std::test::Fail;

// Data and no closure, since a row of a script is a constant, and a test that fails prints its call.
#[derive(Clone, Copy, Debug)]
enum Call {
    // the whole set-up
    SetUp,
    Rise(u16),
    Fall(u16),
    // a port and a byte
    Write(u8, u8),
    Read(u8),
    Signal,
    Acknowledge,
}

const SCRIPTS: [Script<Call>; 15] = [
    Script {
        shows: "a new chip",
        steps: &[
            Step(Read(0), Ok(Value(0))),
            Step(Read(1), Ok(Value(0))),
            Step(Read(2), Err(NoSuchAddress)),
            Step(Read(255), Err(NoSuchAddress)),
            Step(Rise(3), Ok(Done)),
            Step(Read(0), Ok(Value(0x08))),
            Step(Signal, Ok(Signals(false))),
            Step(Acknowledge, Err(NotSetUp)),
            Step(Write(0, END), Err(NotSetUp)),
            Step(Write(0, READ_ISR), Err(NotSetUp)),
            Step(Write(1, 0xff), Err(NotSetUp)),
            Step(Read(1), Ok(Value(0))),
        ],
    },
    Script {
        shows: "only ICW4 completes the set-up",
        steps: &[
            Step(Rise(0), Ok(Done)),
            Step(Write(0, ICW1), Ok(Done)),
            Step(Acknowledge, Err(NotSetUp)),
            Step(Write(1, ICW2), Ok(Done)),
            Step(Acknowledge, Err(NotSetUp)),
            Step(Write(1, ICW3), Ok(Done)),
            Step(Signal, Ok(Signals(false))),
            Step(Acknowledge, Err(NotSetUp)),
            Step(Write(1, 0x03), Err(NotModelled)),
            Step(Acknowledge, Err(NotSetUp)),
            Step(Write(1, ICW4), Ok(Done)),
            Step(Read(1), Ok(Value(0))),
            Step(Signal, Ok(Signals(true))),
            Step(Acknowledge, Ok(Value(0))),
        ],
    },
    Script {
        shows: "ICW1 restarts a set-up that is not complete",
        steps: &[
            Step(Rise(7), Ok(Done)),
            Step(Write(0, ICW1), Ok(Done)),
            Step(Write(1, ICW2), Ok(Done)),
            Step(Write(1, ICW3), Ok(Done)),
            Step(Write(0, ICW1), Ok(Done)),
            Step(Write(1, ICW4), Ok(Done)),
            Step(Acknowledge, Err(NotSetUp)),
            Step(Write(1, ICW4), Ok(Done)),
            Step(Acknowledge, Err(NotSetUp)),
            Step(Write(1, ICW4), Ok(Done)),
            Step(Signal, Ok(Signals(true))),
        ],
    },
    Script {
        shows: "ICW1 clears the mask and the in-service register, selects IRR and keeps the lines",
        steps: &[
            Step(SetUp, Ok(Done)),
            Step(Rise(1), Ok(Done)),
            Step(Rise(4), Ok(Done)),
            Step(Write(1, 0xf0), Ok(Done)),
            Step(Acknowledge, Ok(Value(1))),
            Step(Write(0, READ_ISR), Ok(Done)),
            Step(Read(0), Ok(Value(0x02))),
            Step(Read(1), Ok(Value(0xf0))),
            Step(Write(0, 0xfd), Ok(Done)),
            Step(Read(0), Ok(Value(0x12))),
            Step(Read(1), Ok(Value(0))),
            Step(Signal, Ok(Signals(false))),
            Step(Acknowledge, Err(NotSetUp)),
            Step(SetUp, Ok(Done)),
            Step(Signal, Ok(Signals(true))),
            Step(Write(0, READ_ISR), Ok(Done)),
            Step(Read(0), Ok(Value(0))),
        ],
    },
    Script {
        shows: "a refused ICW1 leaves the set-up as it is",
        steps: &[
            Step(SetUp, Ok(Done)),
            Step(Rise(6), Ok(Done)),
            Step(Write(0, 0x11), Err(NotModelled)),
            Step(Write(0, 0x18), Err(NotModelled)),
            Step(Write(0, 0x1b), Err(NotModelled)),
            Step(Acknowledge, Ok(Value(6))),
        ],
    },
    Script {
        shows: "the mask reads back, whatever is selected",
        steps: &[
            Step(SetUp, Ok(Done)),
            Step(Write(1, 0xa5), Ok(Done)),
            Step(Read(1), Ok(Value(0xa5))),
            Step(Write(0, READ_ISR), Ok(Done)),
            Step(Read(1), Ok(Value(0xa5))),
            Step(Write(1, 0x5a), Ok(Done)),
            Step(Read(1), Ok(Value(0x5a))),
        ],
    },
    Script {
        shows: "the read selects",
        steps: &[
            Step(SetUp, Ok(Done)),
            Step(Rise(2), Ok(Done)),
            Step(Acknowledge, Ok(Value(2))),
            Step(Rise(0), Ok(Done)),
            Step(Read(0), Ok(Value(0x05))),
            Step(Write(0, READ_ISR), Ok(Done)),
            Step(Read(0), Ok(Value(0x04))),
            Step(Write(0, 0x08), Ok(Done)),
            Step(Read(0), Ok(Value(0x04))),
            Step(Write(0, 0x09), Ok(Done)),
            Step(Read(0), Ok(Value(0x04))),
            Step(Write(0, READ_IRR), Ok(Done)),
            Step(Read(0), Ok(Value(0x05))),
            Step(Write(0, 0x08), Ok(Done)),
            Step(Read(0), Ok(Value(0x05))),
            Step(Write(0, 0x09), Ok(Done)),
            Step(Read(0), Ok(Value(0x05))),
        ],
    },
    Script {
        shows: "a non-specific end ends the lowest level in service",
        steps: &[
            Step(SetUp, Ok(Done)),
            Step(Write(0, READ_ISR), Ok(Done)),
            Step(Rise(5), Ok(Done)),
            Step(Acknowledge, Ok(Value(5))),
            Step(Rise(1), Ok(Done)),
            Step(Acknowledge, Ok(Value(1))),
            Step(Read(0), Ok(Value(0x22))),
            Step(Write(0, END), Ok(Done)),
            Step(Read(0), Ok(Value(0x20))),
            Step(Signal, Ok(Signals(true))),
            Step(Fall(1), Ok(Done)),
            Step(Signal, Ok(Signals(false))),
            Step(Write(0, END), Ok(Done)),
            Step(Read(0), Ok(Value(0))),
            Step(Signal, Ok(Signals(true))),
            Step(Write(0, END), Ok(Done)),
            Step(Read(0), Ok(Value(0))),
        ],
    },
    Script {
        shows: "a specific end ends its own level, and 010 in the top bits ends none",
        steps: &[
            Step(SetUp, Ok(Done)),
            Step(Write(0, READ_ISR), Ok(Done)),
            Step(Rise(6), Ok(Done)),
            Step(Acknowledge, Ok(Value(6))),
            Step(Rise(3), Ok(Done)),
            Step(Acknowledge, Ok(Value(3))),
            Step(Rise(0), Ok(Done)),
            Step(Acknowledge, Ok(Value(0))),
            Step(Read(0), Ok(Value(0x49))),
            Step(Write(0, END_OF + 3), Ok(Done)),
            Step(Read(0), Ok(Value(0x41))),
            Step(Write(0, END_OF + 5), Ok(Done)),
            Step(Read(0), Ok(Value(0x41))),
            Step(Write(0, END_OF + 6), Ok(Done)),
            Step(Read(0), Ok(Value(0x01))),
            Step(Write(0, 0x40), Ok(Done)),
            Step(Read(0), Ok(Value(0x01))),
            Step(Write(0, END_OF), Ok(Done)),
            Step(Read(0), Ok(Value(0))),
        ],
    },
    Script {
        shows: "levels from 7 down to 0 nest eight deep",
        steps: &[
            Step(SetUp, Ok(Done)),
            Step(Write(0, READ_ISR), Ok(Done)),
            Step(Rise(7), Ok(Done)),
            Step(Acknowledge, Ok(Value(7))),
            Step(Rise(6), Ok(Done)),
            Step(Acknowledge, Ok(Value(6))),
            Step(Rise(5), Ok(Done)),
            Step(Acknowledge, Ok(Value(5))),
            Step(Rise(4), Ok(Done)),
            Step(Acknowledge, Ok(Value(4))),
            Step(Rise(3), Ok(Done)),
            Step(Acknowledge, Ok(Value(3))),
            Step(Rise(2), Ok(Done)),
            Step(Acknowledge, Ok(Value(2))),
            Step(Rise(1), Ok(Done)),
            Step(Acknowledge, Ok(Value(1))),
            Step(Rise(0), Ok(Done)),
            Step(Acknowledge, Ok(Value(0))),
            Step(Read(0), Ok(Value(0xff))),
            Step(Signal, Ok(Signals(false))),
            Step(Write(0, END), Ok(Done)),
            Step(Read(0), Ok(Value(0xfe))),
            Step(Acknowledge, Ok(Value(0))),
        ],
    },
    Script {
        shows: "only a level below every one in service signals",
        steps: &[
            Step(SetUp, Ok(Done)),
            Step(Rise(3), Ok(Done)),
            Step(Acknowledge, Ok(Value(3))),
            Step(Signal, Ok(Signals(false))),
            Step(Rise(4), Ok(Done)),
            Step(Rise(7), Ok(Done)),
            Step(Signal, Ok(Signals(false))),
            Step(Rise(2), Ok(Done)),
            Step(Signal, Ok(Signals(true))),
            Step(Fall(2), Ok(Done)),
            Step(Signal, Ok(Signals(false))),
            Step(Fall(3), Ok(Done)),
            Step(Write(0, END), Ok(Done)),
            Step(Acknowledge, Ok(Value(4))),
        ],
    },
    Script {
        shows: "a masked level does not signal, and in service it still holds others back",
        steps: &[
            Step(SetUp, Ok(Done)),
            Step(Write(1, 0x01), Ok(Done)),
            Step(Rise(0), Ok(Done)),
            Step(Read(0), Ok(Value(0x01))),
            Step(Signal, Ok(Signals(false))),
            Step(Rise(4), Ok(Done)),
            Step(Acknowledge, Ok(Value(4))),
            Step(Write(1, 0x11), Ok(Done)),
            Step(Rise(5), Ok(Done)),
            Step(Signal, Ok(Signals(false))),
            Step(Write(1, 0), Ok(Done)),
            Step(Signal, Ok(Signals(true))),
            Step(Write(1, 0xff), Ok(Done)),
            Step(Signal, Ok(Signals(false))),
        ],
    },
    Script {
        shows: "a line that falls or is masked after the signal is acknowledged as 7, with nothing in service",
        steps: &[
            Step(SetUp, Ok(Done)),
            Step(Write(0, READ_ISR), Ok(Done)),
            Step(Acknowledge, Ok(Value(7))),
            Step(Rise(4), Ok(Done)),
            Step(Signal, Ok(Signals(true))),
            Step(Fall(4), Ok(Done)),
            Step(Signal, Ok(Signals(false))),
            Step(Acknowledge, Ok(Value(7))),
            Step(Read(0), Ok(Value(0))),
            Step(Rise(4), Ok(Done)),
            Step(Write(1, 0x10), Ok(Done)),
            Step(Acknowledge, Ok(Value(7))),
            Step(Read(0), Ok(Value(0))),
            Step(Rise(7), Ok(Done)),
            Step(Acknowledge, Ok(Value(7))),
            Step(Read(0), Ok(Value(0x80))),
        ],
    },
    Script {
        shows: "numbers that are no line",
        steps: &[
            Step(Rise(8), Err(NotALine)),
            Step(Rise(255), Err(NotALine)),
            Step(Rise(256), Err(NotALine)),
            Step(Rise(65535), Err(NotALine)),
            Step(Read(0), Ok(Value(0))),
            Step(SetUp, Ok(Done)),
            Step(Rise(0), Ok(Done)),
            Step(Rise(7), Ok(Done)),
            Step(Fall(8), Err(NotALine)),
            Step(Fall(255), Err(NotALine)),
            Step(Fall(256), Err(NotALine)),
            Step(Fall(65535), Err(NotALine)),
            Step(Read(0), Ok(Value(0x81))),
        ],
    },
    Script {
        shows: "a line that rises or falls again stays as it is",
        steps: &[
            Step(Fall(2), Ok(Done)),
            Step(Read(0), Ok(Value(0))),
            Step(Rise(2), Ok(Done)),
            Step(Rise(2), Ok(Done)),
            Step(Read(0), Ok(Value(0x04))),
            Step(Fall(2), Ok(Done)),
            Step(Fall(2), Ok(Done)),
            Step(Read(0), Ok(Value(0))),
        ],
    },
];

fn ask(chip: &mut I8259a, call: Call) -> Reply {
    match call {
        SetUp => set_up(chip, ICW2, ICW3).map(|()| Done),
        Rise(line) => chip.rise(line).map(|()| Done),
        Fall(line) => chip.fall(line).map(|()| Done),
        Write(port, byte) => chip.write(port, byte).map(|()| Done),
        Read(port) => chip.read(port).map(|byte| Value(u32::from(byte))),
        Signal => Ok(Signals(chip.signal())),
        Acknowledge => chip.acknowledge().map(|level| Value(u32::from(level))),
    }
}

// A refused call changes nothing.
fn ask_checked(rt: &impl Abort, chip: &mut I8259a, call: Call) -> Reply {
    let before = *chip;
    let reply = ask(chip, call);
    assert!(rt; reply.is_ok() || *chip == before, "{call:?}");
    reply
}

#[test]
fn scripts_are_answered(rt: HostRuntime) {
    for script in &SCRIPTS {
        let mut chip = I8259a::new();
        run(&rt, script, |call| ask_checked(&rt, &mut chip, call));
    }
}

// A line alone: it signals, and both registers show its bit.
fn check_line(rt: &impl Abort, n: u16, bit: u8) -> Result<(), Fail> {
    let mut chip = I8259a::new();
    set_up(&mut chip, ICW2, ICW3)?;
    chip.rise(n)?;
    assert_eq!(rt; chip.read(0), Ok(bit));
    assert!(rt; chip.signal());
    assert_eq!(rt; chip.acknowledge().map(u16::from), Ok(n));
    chip.write(0, READ_ISR)?;
    assert_eq!(rt; chip.read(0), Ok(bit));
    Ok(())
}

#[test]
fn every_line_is_served(rt: HostRuntime) -> Result<(), Fail> {
    for n in 0..8u8 {
        check_line(&rt, u16::from(n), 1 << n)?;
    }
    Ok(())
}

// A chip that was set up with these bytes and then given another ICW1.
fn restarted(icw2: u8, icw3: u8) -> Result<I8259a, Fail> {
    let mut chip = I8259a::new();
    set_up(&mut chip, icw2, icw3)?;
    chip.write(0, ICW1)?;
    Ok(chip)
}

// No port shows the bytes of ICW2 and ICW3, but a comparison of chips does.
#[test]
fn icw1_forgets_icw3_and_keeps_icw2(rt: HostRuntime) -> Result<(), Fail> {
    assert_eq!(rt; restarted(0x20, 0x04)?, restarted(0x20, 0xff)?);
    assert_ne!(rt; restarted(0x20, 0x04)?, restarted(0x28, 0x04)?);
    Ok(())
}
