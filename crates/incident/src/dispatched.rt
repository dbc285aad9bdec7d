// The whole way on any unit: line, controller, dispatcher, handler, record; and at the end the balance of each line.
ghost use Rattle.dispatch.specs.Snapshots.{Holds};

use crate::report;
use crate::unit::Devices;
use controller::{Answer, Controller, Refusal};
use dispatch::{Claim, Dispatcher, Ended, Refused, Taken};
use std::io;
use tally::Tally;

// The line of a device, with the tally of what was answered of it.
#[derive(Clone, Copy)]
struct Device {
    line: u16,
    tally: Tally,
}

impl Device {
    fn new(line: u16) -> Device {
        Device {
            line,
            tally: Tally::new(),
        }
    }

    fn answered(
        &mut self,
        rt: &HostRuntime,
        call: &str,
        answer: Result<Answer, Refusal>,
    ) -> io::Result<()> {
        self.tally.note_answer(answer);
        report::call(rt, call, self.line, answer)
    }

    fn finish<C: Controller>(
        &mut self,
        rt: &HostRuntime,
        unit: &mut Dispatcher<C>,
    ) -> io::Result<()> {
        let ended = unit.finish(self.line);
        self.tally.note_end(ended);
        report::call(rt, "finish", self.line, ended)
    }

    // A handler that ends at once: it closes what was started.
    fn handle<C: Controller>(
        &mut self,
        rt: &HostRuntime,
        unit: &mut Dispatcher<C>,
    ) -> io::Result<()> {
        match unit.take() {
            Taken::Start { depth, claim } => {
                let line = claim.line();
                let ended = close_or_park(unit, claim);
                self.tally.note_end(ended);
                report::start(rt, line, depth)?;
                report::call(rt, "close", line, ended)
            }
            Taken::Spurious { depth } => report::spurious(rt, depth),
        }
    }

    fn balance(&self, rt: &HostRuntime) -> io::Result<()> {
        report::balance(rt, self.line, &self.tally)
    }
}

pub(crate) fn tell<C: Controller + Drop>(
    rt: &HostRuntime,
    controller: C,
    devices: Devices,
) -> io::Result<()> {
    let Devices { stirrer, probe } = devices;
    let mut unit = Dispatcher::new(controller);
    report::call(rt, "open", stirrer, unit.open(stirrer))?;
    report::call(rt, "open", probe, unit.open(probe))?;
    let mut stirred = Device::new(stirrer);
    let mut probed = Device::new(probe);
    stirred.answered(rt, "rise", unit.rise(stirrer))?;
    park_started(rt, &mut unit)?;
    probed.answered(rt, "rise", unit.rise(probe))?;
    probed.answered(rt, "fall", unit.fall(probe))?;
    probed.handle(rt, &mut unit)?;
    stirred.answered(rt, "fall", unit.fall(stirrer))?;
    stirred.finish(rt, &mut unit)?;
    probed.handle(rt, &mut unit)?;
    stirred.balance(rt)?;
    probed.balance(rt)
}

// A handler that will go on later: it parks what was started.
fn park_started<C: Controller>(rt: &HostRuntime, unit: &mut Dispatcher<C>) -> io::Result<()> {
    match unit.take() {
        Taken::Start { depth, claim } => {
            let line = claim.line();
            park(unit, claim);
            report::start(rt, line, depth)?;
            report::call(rt, "park", line, Ok(Answer::Done))
        }
        Taken::Spurious { depth } => report::spurious(rt, depth),
    }
}

// Closes, or parks what was not closed. What is required of the claim here and below no public function may require, so
// cases, long_runs and dispatch_tests have theirs.
fn close_or_park<C: Controller>(unit: &mut Dispatcher<C>, claim: Claim) -> Result<Ended, Refusal>
    requires { Holds C.Controller unit.old claim }
{
    match unit.close(claim) {
        Ok(ended) => Ok(ended),
        Err(Refused { why, claim }) => {
            park(unit, claim);
            Err(why)
        }
    }
}

// A claim that is held is parked without fail.
fn park<C: Controller>(unit: &mut Dispatcher<C>, claim: Claim)
    requires { Holds C.Controller unit.old claim }
{
    unit.park(claim).unwrap();
}
