// On a PLIC a request that is pending stays: the claim still answers the probe's source.
use crate::{ONE_CHIP, report};
use plic::Plic;
use std::io;

const STIRRER: u16 = ONE_CHIP.stirrer;

const PROBE: u16 = ONE_CHIP.probe;

// The offsets of the chip's registers, written out as a driver does.
const ENABLE: u32 = 0x002000;

const THRESHOLD: u32 = 0x200000;

const CLAIM_COMPLETE: u32 = 0x200004;

pub(crate) fn tell(rt: &HostRuntime) -> io::Result<()> {
    let mut chip = Plic::<64>::new();
    report::answer(rt, "read of offset 0x000002", chip.read(0x000002))?;
    report::done(
        rt,
        "the stirrer's source 5 gets priority 2",
        chip.write(4 * 5, 2),
    )?;
    report::done(
        rt,
        "the probe's source 3 gets priority 4",
        chip.write(4 * 3, 4),
    )?;
    report::done(
        rt,
        "sources 3 and 5 are enabled",
        chip.write(ENABLE, 1 << 3 | 1 << 5),
    )?;
    serve_the_stirrer(rt, &mut chip)?;
    lose_the_probe(rt, &mut chip)?;
    report::done(rt, "complete source 3", chip.write(CLAIM_COMPLETE, 3))?;
    report::done(rt, "complete source 5", chip.write(CLAIM_COMPLETE, 5))?;
    report::answer(rt, "claim, source", chip.read(CLAIM_COMPLETE))
}

// The stirrer's handler is in service, under its own priority as threshold, when the probe's line rises.
fn serve_the_stirrer(rt: &HostRuntime, chip: &mut Plic<64>) -> io::Result<()> {
    report::done(rt, "the stirrer's line 5 rises", chip.rise(STIRRER))?;
    report::yes_or_no(rt, "the PLIC signals", chip.signal())?;
    report::answer(rt, "claim, source", chip.read(CLAIM_COMPLETE))?;
    report::done(rt, "threshold 2", chip.write(THRESHOLD, 2))?;
    report::done(rt, "the stirrer's line 5 falls", chip.fall(STIRRER))
}

// The probe's line falls inside the one moment before the claim.
fn lose_the_probe(rt: &HostRuntime, chip: &mut Plic<64>) -> io::Result<()> {
    report::done(rt, "the probe's line 3 rises", chip.rise(PROBE))?;
    report::yes_or_no(rt, "the PLIC signals", chip.signal())?;
    report::done(rt, "the probe's line 3 falls", chip.fall(PROBE))?;
    report::answer(rt, "claim, source", chip.read(CLAIM_COMPLETE))
}
