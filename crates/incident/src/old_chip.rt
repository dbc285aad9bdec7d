// On an 8259A the acknowledge names level 7, though nothing new is in service.
use crate::{ONE_CHIP, report};
use i8259a::{I8259a, set_up};
use std::io;

const STIRRER: u16 = ONE_CHIP.stirrer;

const PROBE: u16 = ONE_CHIP.probe;

pub(crate) fn tell(rt: &HostRuntime) -> io::Result<()> {
    let mut chip = I8259a::new();
    report::answer(rt, "acknowledge before the set-up", chip.acknowledge())?;
    report::done(
        rt,
        "set up, ICW2 0x08, ICW3 0x00",
        set_up(&mut chip, 0x08, 0x00),
    )?;
    report::done(
        rt,
        "select the in-service register at port 0",
        chip.write(0, 0x0b),
    )?;
    serve_the_stirrer(rt, &mut chip)?;
    lose_the_probe(rt, &mut chip)?;
    report::done(rt, "end of level 5", chip.write(0, 0x65))?;
    in_service(rt, &chip)
}

// The stirrer's handler is in service when the probe's line rises.
fn serve_the_stirrer(rt: &HostRuntime, chip: &mut I8259a) -> io::Result<()> {
    report::done(rt, "the stirrer's line 5 rises", chip.rise(STIRRER))?;
    report::yes_or_no(rt, "the chip signals", chip.signal())?;
    report::answer(rt, "acknowledge, level", chip.acknowledge())?;
    report::done(rt, "the stirrer's line 5 falls", chip.fall(STIRRER))?;
    in_service(rt, chip)
}

// The probe's line falls inside the one moment before the acknowledge.
fn lose_the_probe(rt: &HostRuntime, chip: &mut I8259a) -> io::Result<()> {
    report::done(rt, "the probe's line 3 rises", chip.rise(PROBE))?;
    report::yes_or_no(rt, "the chip signals", chip.signal())?;
    report::done(rt, "the probe's line 3 falls", chip.fall(PROBE))?;
    report::answer(rt, "acknowledge, level", chip.acknowledge())?;
    in_service(rt, chip)
}

fn in_service(rt: &HostRuntime, chip: &I8259a) -> io::Result<()> {
    report::answer(rt, "the in-service register reads as", chip.read(0))
}
