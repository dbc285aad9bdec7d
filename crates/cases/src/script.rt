// Calls on a dispatcher, from a table: each is printed with what it brought back.
use crate::outcome::Outcome;
use crate::spend::take_and_park;
use controller::Controller;
use dispatch::Dispatcher;
use std::{fmt, io};

// A take parks what it started. Data and no closure, since a table's row is a constant and each call is printed.
#[derive(Clone, Copy)]
pub(crate) enum Call {
    Rise(u16),
    Fall(u16),
    Open(u16),
    Shut(u16),
    Take,
    Finish(u16),
}

impl fmt::Display for Call {
    fn fmt<W: fmt::Write>(&self, f: &mut fmt::Formatter<W>) -> fmt::Result {
        match *self {
            Call::Rise(n) => write!(f, "rise {n}"),
            Call::Fall(n) => write!(f, "fall {n}"),
            Call::Open(n) => write!(f, "open {n}"),
            Call::Shut(n) => write!(f, "shut {n}"),
            Call::Take => f.write_str("take"),
            Call::Finish(n) => write!(f, "finish {n}"),
        }
    }
}

fn perform<C: Controller>(unit: &mut Dispatcher<C>, call: Call) -> Outcome {
    match call {
        Call::Rise(n) => unit.rise(n).into(),
        Call::Fall(n) => unit.fall(n).into(),
        Call::Open(n) => unit.open(n).into(),
        Call::Shut(n) => unit.shut(n).into(),
        Call::Take => take_and_park(unit),
        Call::Finish(n) => unit.finish(n).into(),
    }
}

pub(crate) fn run<C: Controller>(
    rt: &HostRuntime,
    title: &str,
    unit: &mut Dispatcher<C>,
    calls: &[Call],
) -> io::Result<()> {
    println!(rt; "{title}")?;
    for call in calls {
        let came = perform(unit, *call);
        println!(rt; "  {call}: {came}")?;
    }
    Ok(())
}
