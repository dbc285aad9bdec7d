// The incident: a line falls between the signal and the acknowledge. Told through both chips, through the units as
// controllers, the whole way through a dispatcher above each, and as a device trace that is replayed on the old and the new unit.
#![tactic(auto)]

mod dispatched;
mod new_chip;
mod old_chip;
mod report;
mod traced;
mod unit;

use i8259a_controller::I8259aController;
use plic_controller::PlicController;
use replay::LogRecord;
use std::io;
use unit::Devices;
use units::old_unit;

// On a single chip the probe is on line 3; on the old unit it is the slave's line 1, and in the trace it is line 9 of either unit.
const ONE_CHIP: Devices = Devices {
    stirrer: 5,
    probe: 3,
};

const TWO_CHIPS: Devices = Devices {
    stirrer: 5,
    probe: 9,
};

// What a log holds before a replay writes it.
const UNWRITTEN: LogRecord = LogRecord::Spurious { depth: 0 };

// How many records a log has room for.
const MOST_RECORDS: usize = 64;

// A byte that is no lawful map.
const NO_MAP: u8 = 0x40;

fn main(rt: HostRuntime) -> io::Result<()> {
    println!(rt; "8259A")?;
    old_chip::tell(&rt)?;
    println!(rt; "PLIC")?;
    new_chip::tell(&rt)?;
    through_controllers(&rt)?;
    through_dispatchers(&rt)?;
    let trace = traced::read(&rt)?;
    through_traces(&rt, trace)
}

fn through_controllers(rt: &HostRuntime) -> io::Result<()> {
    println!(rt; "8259A as a controller")?;
    unit::tell(rt, &mut I8259aController::new(), ONE_CHIP)?;
    println!(rt; "PLIC as a controller")?;
    unit::tell(rt, &mut new_unit(ONE_CHIP), ONE_CHIP)?;
    println!(rt; "The old unit as a controller")?;
    unit::tell(rt, &mut old_unit(), TWO_CHIPS)
}

fn through_dispatchers(rt: &HostRuntime) -> io::Result<()> {
    println!(rt; "A dispatcher above an 8259A")?;
    dispatched::tell(rt, I8259aController::new(), ONE_CHIP)?;
    println!(rt; "A dispatcher above a PLIC")?;
    dispatched::tell(rt, new_unit(ONE_CHIP), ONE_CHIP)?;
    println!(rt; "A dispatcher above the old unit")?;
    dispatched::tell(rt, old_unit(), TWO_CHIPS)
}

// The trace whole on both units; and on the old unit without its last byte, into a log that is too short for it, and with a byte
// after it that is no map.
fn through_traces(rt: &HostRuntime, mut trace: Vec<u8>) -> io::Result<()> {
    let mut log = [UNWRITTEN; MOST_RECORDS];
    println!(rt; "The trace")?;
    traced::show(rt, trace.as_slice())?;
    println!(rt; "The trace replayed on the old unit")?;
    traced::tell(rt, old_unit(), trace.as_slice(), &mut log)?;
    println!(rt; "The trace replayed on the new unit")?;
    traced::tell(rt, new_unit(TWO_CHIPS), trace.as_slice(), &mut log)?;
    println!(rt; "The trace without its last byte, on the old unit")?;
    let cut = &trace[..trace.len().saturating_sub(1)];
    traced::tell(rt, old_unit(), cut, &mut log)?;
    println!(rt; "The trace on the old unit, with a log of two records")?;
    traced::tell(rt, old_unit(), trace.as_slice(), &mut [UNWRITTEN; 2])?;
    println!(rt; "The trace with a bad map after it, on the old unit")?;
    trace.push(NO_MAP)?;
    traced::tell(rt, old_unit(), trace.as_slice(), &mut log)
}

// A PLIC with the sources of these devices and no other: the probe's is more urgent than the stirrer's.
fn new_unit(devices: Devices) -> PlicController {
    PlicController::new(std::array::from_fn(|n| {
        if n == usize::from(devices.probe) {
            4
        } else if n == usize::from(devices.stirrer) {
            2
        } else {
            0
        }
    }))
}
