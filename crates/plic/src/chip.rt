// The calls of a bare PLIC with the sources 1 to N - 1. The register map has room for 1,023 sources, so a number above
// that is no source, whatever N is.
ghost use Rattle.std.specs.Prelude.{◌≡◌, ℕ};
ghost use Rattle.plic.specs.Chip.{fresh, Rises, Falls, Completes, Leaves, Placed, Firsts, Claims, Signals, gateway_of};
ghost use Rattle.plic.specs.Laws.{ChipLaws};
ghost use Rattle.plic.specs.Registers.{There};
ghost use Rattle.plic.specs.Access.{Reading, Reads, Writing, Writes};

use crate::gateway::{Gateway, is_source, limit};
use crate::registers::{Register, locate};
use crate::words;
use arbiter::{Priority, winner};
use controller::Refusal;

#[derive(Drop)]
pub struct Plic<const N: usize> {
    gateways: [Gateway; N],
    threshold: u8,
}

impl<const N: usize> Plic<N> {
    // All zero: every source idle, low, not enabled and of priority 0. Whoever makes a PLIC learns the laws of its calls.
    pub fn new() -> Plic<N>
        ensures value { result ≡ fresh N }
        ensures laws { ChipLaws N }
    {
        Plic {
            gateways: [Gateway::default(); N],
            threshold: 0,
        }
    }

    // The line of source n rises.
    pub fn rise(&mut self, n: u16) -> Result<(), Refusal>
        ensures { Rises N self.old n result self.new }
    {
        let n = self.source(n)?;
        self.gateways[n].rise();
        Ok(())
    }

    // The line of source n falls.
    pub fn fall(&mut self, n: u16) -> Result<(), Refusal>
        ensures { Falls N self.old n result self.new }
    {
        let n = self.source(n)?;
        self.gateways[n].fall();
        Ok(())
    }

    // The gateway record of number n; a blank one past the last.
    pub fn gateway(&self, n: u16) -> Gateway
        ensures { result ≡ gateway_of N self.now n }
    {
        self.gateways[..limit::<N>()]
            .get(usize::from(n))
            .copied()
            .unwrap_or_default()
    }

    // Whether the context is signalled: some enabled pending source has a priority above the threshold.
    pub fn signal(&self) -> bool
        ensures { Signals N self.now result }
    {
        // Not `is_some_and`: tried; of its closure, which indexes in a generic function, nothing is known without clauses of its own.
        matches!(self.first(), Some(n) if self.gateways[n].priority > self.threshold)
    }

    // The register at an offset. A read of the claim register claims.
    pub fn read(&mut self, offset: u32) -> Result<u32, Refusal>
        ensures { Reads N self.old offset result self.new }
    {
        let register = locate::<N>(offset)?;
        Ok(self.read_register(register))
    }

    // A value into the register at an offset. A write to the claim register completes.
    pub fn write(&mut self, offset: u32, value: u32) -> Result<(), Refusal>
        ensures { Writes N self.old offset value result self.new }
    {
        let register = locate::<N>(offset)?;
        self.write_register(register, value);
        Ok(())
    }

    fn read_register(&mut self, register: Register) -> u32
        requires { There N register }
        ensures { Reading N self.old register result self.new }
    {
        match register {
            Register::SourcePriority(0) => 0,
            Register::SourcePriority(n) => u32::from(self.gateways[n].priority),
            Register::PendingWord(w) => words::word(&self.gateways, Gateway::is_pending, w),
            Register::EnableWord(w) => words::word(&self.gateways, Gateway::is_enabled, w),
            Register::Threshold => u32::from(self.threshold),
            Register::ClaimComplete => self.claim(),
        }
    }

    fn write_register(&mut self, register: Register, value: u32)
        requires { There N register }
        ensures { Writing N self.old register value self.new }
    {
        match register {
            Register::SourcePriority(0) | Register::PendingWord(_) => {}
            Register::SourcePriority(n) => self.gateways[n].set_priority((value % 8) as u8),
            Register::EnableWord(w) => words::enable(&mut self.gateways, w, value),
            Register::Threshold => self.threshold = (value % 8) as u8,
            Register::ClaimComplete => self.complete(value),
        }
    }

    // Claims the source that comes first; the threshold holds no claim back. It answers what the register reads as, so a number
    // and no Option: 0 stands for none.
    fn claim(&mut self) -> u32
        ensures { Claims N self.old result self.new }
    {
        match self.first() {
            Some(n) => {
                self.gateways[n].claim();
                n as u32
            }
            None => 0,
        }
    }

    // Completes an enabled claimed source; any other number is ignored.
    fn complete(&mut self, value: u32)
        ensures { Completes N self.old value self.new }
    {
        let n = value as usize;
        if is_source::<N>(n) && self.gateways[n].completable() {
            self.gateways[n].complete();
        }
    }

    // The source that a claim would answer.
    fn first(&self) -> Option<usize>
        ensures { Firsts N self.now result }
    {
        winner(&leaves(&self.gateways))
    }

    // The place of source n in the table; a number that is no source is refused.
    fn source(&self, n: u16) -> Result<usize, Refusal>
        ensures { Placed N n result }
    {
        let n = usize::from(n);
        if is_source::<N>(n) {
            Ok(n)
        } else {
            Err(Refusal::NotALine)
        }
    }
}

// A leaf for each number: the key of a source that contends for a claim, or nothing.
fn leaves<const N: usize>(gateways: &[Gateway; N]) -> [Option<Priority>; N]
    ensures { Leaves N gateways.now result }
{
    // Not `std::array::from_fn`: tried; of its closure, which indexes in a generic function, nothing is known without clauses of its own,
    // and of the array nothing without a lemma over its calls.
    let mut leaves = [None; N];
    for (n, gateway) in gateways.iter().enumerate() {
        if is_source::<N>(n) {
            leaves[n] = gateway.contender();
        }
    }
    leaves
}
