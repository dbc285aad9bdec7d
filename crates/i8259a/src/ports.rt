// What a byte written to a port means: it depends on the set-up step, the port and the byte. Ports and bytes are numbers, as a driver
// gives them: any is asked about.
ghost use Rattle.std.specs.Prelude.{◌≡◌, if◌then◌else◌, Ok};
ghost use Rattle.controller.specs.declared.refusal.Refusal.TheVariants.{NotModelled};
ghost use Rattle.controller.specs.Refusals.{asks};
ghost use Rattle.i8259a.specs.Writing.{write_answer, write_after, icw1_modelled, ocw2_modelled, ocw3_modelled, restarted, ended, selected};

use crate::bits::{bit, without, without_lowest};
use crate::chip::{I8259a, Register, Step};
use controller::Refusal;

impl I8259a {
    // Writes a byte to a port.
    pub fn write(&mut self, port: u8, byte: u8) -> Result<(), Refusal>
        ensures answer { result ≡ write_answer self.old port byte }
        ensures after { self.new ≡ write_after self.old port byte }
    {
        match (self.step, port, byte) {
            (_, 0, b) if bit(b, 4) => self.icw1(b),
            (Step::Done, 0, b) if bit(b, 3) => self.ocw3(b),
            (Step::Done, 0, b) => self.ocw2(b),
            (Step::Done, 1, b) => {
                self.imr = b;
                Ok(())
            }
            (Step::Icw2, 1, b) => {
                self.icw2 = b;
                self.step = Step::Icw3;
                Ok(())
            }
            (Step::Icw3, 1, b) => {
                self.icw3 = b;
                self.step = Step::Icw4;
                Ok(())
            }
            (Step::Icw4, 1, 0x01) => {
                self.step = Step::Done;
                Ok(())
            }
            (Step::Icw4, 1, _) => Err(Refusal::NotModelled),
            (_, 0 | 1, _) => Err(Refusal::NotSetUp),
            _ => Err(Refusal::NoSuchAddress),
        }
    }

    // ICW1 starts the set-up, from any step.
    fn icw1(&mut self, byte: u8) -> Result<(), Refusal>
        ensures answer { result ≡ asks (icw1_modelled byte) NotModelled (Ok tt) }
        ensures after { self.new ≡ (if icw1_modelled byte then restarted self.old else self.old) }
    {
        if bit(byte, 0) && bit(byte, 3) && !bit(byte, 1) {
            self.imr = 0;
            self.isr = 0;
            self.icw3 = 0;
            self.select.register = Register::Irr;
            self.step = Step::Icw2;
            Ok(())
        } else {
            Err(Refusal::NotModelled)
        }
    }

    // OCW2: the end commands.
    fn ocw2(&mut self, byte: u8) -> Result<(), Refusal>
        ensures answer { result ≡ asks (ocw2_modelled byte) NotModelled (Ok tt) }
        ensures after { self.new ≡ (if ocw2_modelled byte then ended self.old byte else self.old) }
    {
        match byte / 32 {
            0b001 => self.isr = without_lowest(self.isr),
            0b011 => self.isr = without(self.isr, byte % 8),
            0b010 => {}
            _ => return Err(Refusal::NotModelled),
        }
        Ok(())
    }

    // OCW3: the read select.
    fn ocw3(&mut self, byte: u8) -> Result<(), Refusal>
        ensures answer { result ≡ asks (ocw3_modelled byte) NotModelled (Ok tt) }
        ensures after { self.new ≡ (if ocw3_modelled byte then selected self.old byte else self.old) }
    {
        if bit(byte, 7) || bit(byte, 6) || bit(byte, 2) {
            return Err(Refusal::NotModelled);
        }
        match byte % 4 {
            0b10 => self.select.register = Register::Irr,
            0b11 => self.select.register = Register::Isr,
            _ => {}
        }
        Ok(())
    }
}
