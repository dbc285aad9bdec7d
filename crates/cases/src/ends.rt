// Every command of OCW2, given to an 8259A with levels 2 and 5 in service.
use crate::outcome::Outcome;
use crate::parts;
use crate::report::{Case, topic};
use i8259a::Register;
use std::io;

#[derive(Clone, Copy)]
struct Command(&'static str, u8);

const COMMANDS: [Command; 11] = [
    Command("non-specific end", 0x20),
    Command("specific end of 2", 0x62),
    Command("specific end of 5", 0x65),
    Command("specific end of 3", 0x63),
    Command("no operation", 0x40),
    Command("rotate in automatic end, clear", 0x00),
    Command("rotate in automatic end, set", 0x80),
    Command("rotate on non-specific end", 0xa0),
    Command("rotate on specific end of 2", 0xe2),
    Command("set priority", 0xc0),
    Command("OCW3 with the bits of an end", 0x28),
];

pub(crate) fn tell(rt: &HostRuntime) -> io::Result<()> {
    topic(rt, "8259A: levels 2 and 5 are in service", &COMMANDS)
}

impl Case for Command {
    fn tell(&self, rt: &HostRuntime) -> io::Result<()> {
        let Command(what, byte) = *self;
        let mut chip = parts::chip();
        parts::serve(&mut chip, 5);
        parts::serve(&mut chip, 2);
        let came = Outcome::from(chip.write(0, byte));
        let left = chip.look(Register::Isr);
        println!(rt; "  {what}, 0x{byte:02x}: {came}; in service 0b{left:08b}")
    }
}
