// The incident as a device trace: read from standard input, shown record by record, and replayed.
use controller::{Controller, Numbered, Refusal};
use dispatch::Dispatcher;
use replay::{LogRecord, replay, stop_line};
use std::io;
use std::io::Read;
use trace::{Next, Reader, Record};

// A trace is at most so long; what comes after these bytes is left out.
const MOST_BYTES: usize = 65_536;

// The trace on standard input. Of a longer input one more byte is read, to tell that there is more.
pub(crate) fn read(rt: &HostRuntime) -> io::Result<Vec<u8>> {
    let mut trace = Vec::new(rt.alloc());
    rt.stdin()
        .take(MOST_BYTES as u64 + 1)
        .read_to_end(&mut trace)?;
    if trace.len() > MOST_BYTES {
        trace.truncate(MOST_BYTES);
        println!(rt;
            "The input is longer than {MOST_BYTES} bytes; what comes after them is left out"
        )?;
    }
    Ok(trace)
}

// The trace record by record, up to its end or its first fault.
pub(crate) fn show(rt: &HostRuntime, trace: &[u8]) -> io::Result<()> {
    let mut reader = Reader::new(trace);
    // As many turns as there are bytes, which no trace has more records than. No iterator of records: at a fault the reader stays, and
    // the fault's bytes are printed, so each case is spelled out.
    for _ in 0..trace.len() {
        let place = reader.place();
        match reader.next_record() {
            Next::End => return Ok(()),
            Next::Record(record) => show_record(rt, &record)?,
            Next::UnlawfulMap(rest) => return fault(rt, place, Refusal::UnlawfulMap, rest),
            Next::CutRecord(rest) => return fault(rt, place, Refusal::CutRecord, rest),
        }
    }
    Ok(())
}

fn show_record(rt: &HostRuntime, record: &Record) -> io::Result<()> {
    let place = record.place;
    print!(rt; "  byte {place}:")?;
    for act in record.acts().in_order().into_iter().flatten() {
        print!(rt; " {act}")?;
    }
    println!(rt; "")
}

fn fault(rt: &HostRuntime, place: usize, why: Refusal, rest: &[u8]) -> io::Result<()> {
    let left = rest.len();
    let why = Numbered(why);
    println!(rt; "  byte {place}: {why}; bytes from there on: {left}")
}

// Replays the trace on a unit just made, and prints what was logged and what was answered.
pub(crate) fn tell<C: Controller + Drop>(
    rt: &HostRuntime,
    controller: C,
    trace: &[u8],
    log: &mut [LogRecord],
) -> io::Result<()> {
    let mut unit = Dispatcher::new(controller);
    let replayed = replay(&mut unit, trace, log);
    for record in log.iter().take(replayed.records) {
        println!(rt; "  {record}")?;
    }
    println!(rt; "  {replayed}")?;
    let stop = stop_line(rt.alloc(), &replayed)?;
    println!(rt; "  {stop}")?;
    let depth = unit.depth();
    println!(rt; "  depth after it: {depth}")
}
