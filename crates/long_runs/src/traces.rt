// Traces drawn at random and replayed on two units that tell the same: their answers and their logs are laid side by side.
use crate::random::Random;
use controller::Controller;
use dispatch::Dispatcher;
use replay::{LogRecord, Replayed, replay_both};
use std::io;
use trace::{Acts, write_acts};

const TRACES: u32 = 2_000;

const BYTES: usize = 256;

const RECORDS: usize = 24;

const UNWRITTEN: LogRecord = LogRecord::Spurious { depth: 0 };

// What was counted over all traces: those whose answers and logs are equal, what was done of them, and how many had a fault.
#[derive(Clone, Copy, PartialEq, Eq, Debug, Default)]
struct Compared {
    equal: u32,
    bytes: usize,
    records: usize,
    faults: u32,
}

impl Compared {
    fn count(&mut self, one: Replayed, same: bool) {
        self.equal = self.equal.saturating_add(u32::from(same));
        self.bytes = self.bytes.saturating_add(one.bytes);
        self.records = self.records.saturating_add(one.records);
        self.faults = self.faults.saturating_add(u32::from(one.fault.is_some()));
    }
}

// Each trace on two units made anew.
pub(crate) fn tell<C, D, F, G>(
    rt: &HostRuntime,
    what: &str,
    numbers: u16,
    one: F,
    other: G,
) -> io::Result<()>
where
    C: Controller + Drop,
    D: Controller + Drop,
    F: Fn() -> C,
    G: Fn() -> D,
    requires { F.IsAlwaysCallable one × G.IsAlwaysCallable other }
{
    let mut random = Random::new(8259);
    let mut compared = Compared::default();
    for _ in 0..TRACES {
        let mut trace = [0; BYTES];
        let length = draw(&mut random, numbers, &mut trace);
        let bytes = trace.get(..length).unwrap_or_default();
        compare(one(), other(), bytes, &mut compared);
    }
    report(rt, what, compared)
}

fn compare<C: Controller + Drop, D: Controller + Drop>(
    one: C,
    other: D,
    trace: &[u8],
    compared: &mut Compared,
) {
    let mut one_log = [UNWRITTEN; RECORDS];
    let mut other_log = [UNWRITTEN; RECORDS];
    let mut one_unit = Dispatcher::new(one);
    let mut other_unit = Dispatcher::new(other);
    let (first, second) = replay_both(
        &mut one_unit,
        &mut other_unit,
        trace,
        &mut one_log,
        &mut other_log,
    );
    compared.count(first, first == second && one_log == other_log);
}

// Records one after the other, until one does not fit; now and then a bad map comes last. Answers how many bytes there are.
fn draw(random: &mut Random, numbers: u16, trace: &mut [u8; BYTES]) -> usize {
    let most = usize::from(random.below(BYTES as u16));
    let mut length: usize = 0;
    for _ in 0..BYTES {
        let acts = acts(random, numbers);
        let room = trace.get_mut(length..most).unwrap_or_default();
        match write_acts(&acts, room) {
            Ok(written) => length = length.saturating_add(written),
            Err(_) => break,
        }
    }
    if random.once_in(8)
        && let Some(byte) = trace.get_mut(length)
    {
        *byte = 0x40;
        length = length.saturating_add(1);
    }
    length
}

// The acts of one record, at least one.
fn acts(random: &mut Random, numbers: u16) -> Acts {
    Acts {
        rise: line(random, numbers, 2),
        fall: line(random, numbers, 3),
        open: line(random, numbers, 3),
        shut: line(random, numbers, 12),
        take: random.once_in(2),
        finish: random.once_in(3),
    }
}

fn line(random: &mut Random, numbers: u16, times: u16) -> Option<u8> {
    let line = u8::try_from(random.below(numbers)).ok()?;
    random.once_in(times).then_some(line)
}

fn report(rt: &HostRuntime, what: &str, compared: Compared) -> io::Result<()> {
    let Compared {
        equal,
        bytes,
        records,
        faults,
    } = compared;
    println!(rt; "{what}")?;
    println!(rt; "  traces {TRACES}, bytes done {bytes}, log records {records}, faults {faults}")?;
    println!(rt; "  equal answers and logs {equal}")
}
