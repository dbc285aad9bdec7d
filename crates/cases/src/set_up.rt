// Writes to an 8259A at each step of its set-up.
use crate::outcome::{Outcome, Told};
use crate::parts;
use crate::report::{Case, topic};
use i8259a::I8259a;
use std::io;

// The set-up in its order: ICW1, ICW2, ICW3 and ICW4, each with its port.
const SET_UP: [(u8, u8); 4] = [(0, 0x19), (1, 0x08), (1, 0x04), (1, 0x01)];

// What is written after so many writes of the set-up, to which port, and the byte.
#[derive(Clone, Copy)]
struct Write(&'static str, usize, u8, u8);

const WRITES: [Write; 22] = [
    Write("OCW1", 0, 1, 0xff),
    Write("OCW2", 0, 0, 0x20),
    Write("OCW3", 0, 0, 0x0b),
    Write("ICW1", 0, 0, 0x19),
    Write("ICW1 with no ICW4 to come", 0, 0, 0x18),
    Write("ICW1 for edge triggering", 0, 0, 0x11),
    Write("ICW1 for a single chip", 0, 0, 0x1b),
    Write("ICW1 to no port", 0, 2, 0x19),
    Write("OCW2", 1, 0, 0x20),
    Write("ICW2", 1, 1, 0x08),
    Write("ICW1 again", 1, 0, 0x19),
    Write("ICW3", 2, 1, 0x04),
    Write("OCW3", 2, 0, 0x0b),
    Write("ICW4", 3, 1, 0x01),
    Write("ICW4 for another processor", 3, 1, 0x00),
    Write("OCW2", 3, 0, 0x20),
    Write("OCW1", 4, 1, 0xa5),
    Write("OCW3 for the in-service register", 4, 0, 0x0b),
    Write("OCW3 for a poll", 4, 0, 0x0c),
    Write("OCW3 for the special mask", 4, 0, 0x68),
    Write("ICW1 again", 4, 0, 0x19),
    Write("OCW1 to no port", 4, 2, 0xff),
];

pub(crate) fn tell(rt: &HostRuntime) -> io::Result<()> {
    topic(rt, "8259A: writes at each step of the set-up", &WRITES)?;
    topic(rt, "8259A: other calls before and after it", &calls())
}

impl Case for Write {
    fn tell(&self, rt: &HostRuntime) -> io::Result<()> {
        let Write(what, after, port, byte) = *self;
        let came = Outcome::from(begun(after).write(port, byte));
        println!(rt; "  after {after} of 4 writes, {what}, 0x{byte:02x} to port {port}: {came}")
    }
}

// A chip that was given so many writes of the set-up.
fn begun(writes: usize) -> I8259a {
    let mut chip = I8259a::new();
    for (port, byte) in SET_UP.into_iter().take(writes) {
        let _ = chip.write(port, byte);
    }
    chip
}

fn calls() -> [Told; 8] {
    let mut chip = parts::chip();
    [
        Told::new("acknowledge of a new chip", I8259a::new().acknowledge()),
        Told::new("acknowledge with no line high, level", chip.acknowledge()),
        Told::new("line 7 rises", chip.rise(7)),
        Told::new("line 8 rises", chip.rise(8)),
        Told::new("line 8 falls", chip.fall(8)),
        Told::new("port 0 reads as", chip.read(0)),
        Told::new("port 1 reads as", chip.read(1)),
        Told::new("port 2 reads as", chip.read(2)),
    ]
}
