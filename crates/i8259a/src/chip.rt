// A chip's registers, its lines, its signal and its acknowledge.
ghost use Rattle.std.specs.Prelude.{◌≡◌};
ghost use Rattle.i8259a.specs.Chip.{fresh, level_answer, line_answer, risen, fallen, shown, read_answer};
ghost use Rattle.i8259a.specs.Laws.{ChipLaws};
ghost use Rattle.i8259a.specs.Signal.{Signals, Acknowledges, Firsts, ahead};

use crate::bits::{lowest, with, without};
use controller::Refusal;

// What the set-up waits for.
#[derive(Clone, Copy, PartialEq, Eq, Debug, Default)]
pub(crate) enum Step {
    #[default]
    Icw1,
    Icw2,
    Icw3,
    Icw4,
    Done,
}

// A register that port 0 can read as.
#[derive(Clone, Copy, PartialEq, Eq, Debug, Default)]
pub enum Register {
    #[default]
    Irr,
    Isr,
}

// The read select: which register port 0 reads as.
#[derive(Clone, Copy, PartialEq, Eq, Debug, Default)]
pub(crate) struct ReadSelect {
    pub(crate) register: Register,
}

impl ReadSelect {
    // What port 0 reads as, over the two registers: they are passed, since a look borrows the select alone.
    pub(crate) fn shown(&self, irr: u8, isr: u8) -> u8
        ensures { result ≡ shown self.now.register irr isr }
    {
        match self.register {
            Register::Irr => irr,
            Register::Isr => isr,
        }
    }
}

// The default is a new chip: all zero, IRR selected, not set up.
#[derive(Clone, Copy, PartialEq, Eq, Debug, Default)]
pub struct I8259a {
    pub(crate) irr: u8,
    pub(crate) isr: u8,
    pub(crate) imr: u8,
    pub(crate) select: ReadSelect,
    pub(crate) icw2: u8,
    pub(crate) icw3: u8,
    pub(crate) step: Step,
}

// The level of line n, which has the same number.
pub fn level_of(n: u16) -> Result<u8, Refusal>
    ensures { result ≡ level_answer n }
{
    if n > 7 {
        return Err(Refusal::NotALine);
    }
    Ok(n as u8)
}

impl I8259a {
    // A new chip. Whoever makes one learns the laws of its calls.
    pub fn new() -> I8259a
        ensures value { result ≡ fresh }
        ensures laws { ChipLaws }
    {
        I8259a::default()
    }

    // Line n rises.
    pub fn rise(&mut self, n: u16) -> Result<(), Refusal>
        ensures answer { result ≡ line_answer n }
        ensures after { self.new ≡ risen self.old n }
    {
        let level = level_of(n)?;
        self.irr = with(self.irr, level);
        Ok(())
    }

    // Line n falls.
    pub fn fall(&mut self, n: u16) -> Result<(), Refusal>
        ensures answer { result ≡ line_answer n }
        ensures after { self.new ≡ fallen self.old n }
    {
        let level = level_of(n)?;
        self.irr = without(self.irr, level);
        Ok(())
    }

    // What a port reads as: port 0 the selected register, port 1 the mask.
    pub fn read(&self, port: u8) -> Result<u8, Refusal>
        ensures { result ≡ read_answer self.now port }
    {
        match port {
            0 => Ok(self.select.shown(self.irr, self.isr)),
            1 => Ok(self.imr),
            _ => Err(Refusal::NoSuchAddress),
        }
    }

    // Whether the chip signals the processor.
    pub fn signal(&self) -> bool
        ensures { Signals self.now result }
    {
        self.step == Step::Done && self.first().is_some()
    }

    // The processor's acknowledge: both pulses in one moment. Without a signal it answers level 7 and sets nothing.
    pub fn acknowledge(&mut self) -> Result<u8, Refusal>
        ensures { Acknowledges self.old result self.new }
    {
        if self.step != Step::Done {
            return Err(Refusal::NotSetUp);
        }
        match self.first() {
            Some(level) => {
                self.isr = with(self.isr, level);
                Ok(level)
            }
            None => Ok(7),
        }
    }

    // The lowest level that is high, not masked and below every level in service.
    fn first(&self) -> Option<u8>
        ensures { Firsts self.now result }
    {
        ahead(lowest(self.irr & !self.imr), lowest(self.isr))
    }
}

// The request, if it lies below the level in service.
fn ahead(request: Option<u8>, serving: Option<u8>) -> Option<u8>
    ensures { result ≡ ahead request serving }
{
    request.filter(|level| serving.is_none_or(|newest| *level < newest))
}
