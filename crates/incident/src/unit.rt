// The same story through any controller: what was accepted, withdrawn and taken.
use crate::report;
use controller::Controller;
use std::io;

// The lines that the two devices raise.
#[derive(Clone, Copy)]
pub(crate) struct Devices {
    pub(crate) stirrer: u16,
    pub(crate) probe: u16,
}

pub(crate) fn tell<C: Controller>(
    rt: &HostRuntime,
    unit: &mut C,
    devices: Devices,
) -> io::Result<()> {
    let Devices { stirrer, probe } = devices;
    report::call(rt, "open", stirrer, unit.open(stirrer))?;
    report::call(rt, "open", probe, unit.open(probe))?;
    serve(rt, unit, stirrer)?;
    lose(rt, unit, probe)
}

// A line rises, is taken, and is finished.
fn serve<C: Controller>(rt: &HostRuntime, unit: &mut C, n: u16) -> io::Result<()> {
    report::call(rt, "rise", n, unit.rise(n))?;
    report::line(rt, "take", unit.take())?;
    report::call(rt, "shut", n, unit.shut(n))?;
    report::call(rt, "fall", n, unit.fall(n))?;
    report::call(rt, "finish", n, unit.finish(n))
}

// A line falls inside the one moment between the signal and the take.
fn lose<C: Controller>(rt: &HostRuntime, unit: &mut C, n: u16) -> io::Result<()> {
    report::call(rt, "rise", n, unit.rise(n))?;
    report::yes_or_no(rt, "signal", unit.signal())?;
    report::call(rt, "fall", n, unit.fall(n))?;
    report::line(rt, "take", unit.take())?;
    report::line(rt, "newest in service", unit.newest())?;
    report::call(rt, "finish", n, unit.finish(n))
}
