// Acts that are refused, and a record with all six acts, done in bit order.
use crate::runs::{FILL, Run, stop};
use controller::Refusal;
use replay::LogRecord;

fn turned(line: Option<u16>, depth: usize, why: Refusal) -> LogRecord {
    LogRecord::Turned { line, depth, why }
}

// All acts of line 2, which is no line; finish on an empty nest; then open 3, rise 3, take, shut 3.
#[test]
fn refused_acts(rt: HostRuntime) {
    let trace = [0x0f, 2, 2, 2, 2, 0x20, 0x05, 3, 3, 0x10, 0x08, 3];
    let run = Run::<9>::new(&trace);
    assert_eq!(rt; run.replayed, stop(7, trace.len(), None));
    let no_line = turned(Some(2), 0, Refusal::NotALine);
    let expected = [
        no_line,
        no_line,
        no_line,
        no_line,
        turned(None, 0, Refusal::NotNewest),
        LogRecord::Start { line: 3, depth: 1 },
        turned(Some(3), 1, Refusal::InService),
        FILL,
        FILL,
    ];
    assert_eq!(rt; run.log, expected);
}

// rise 4, fall 1, open 4, shut 6, take, finish: the take comes after the open, and the finish after the take.
#[test]
fn six_acts_in_bit_order(rt: HostRuntime) {
    let trace = [0x3f, 4, 1, 4, 6];
    let run = Run::<6>::new(&trace);
    assert_eq!(rt; run.replayed, stop(2, 5, None));
    let start = LogRecord::Start { line: 4, depth: 1 };
    let end = LogRecord::End { line: 4, depth: 1 };
    assert_eq!(rt; run.log, [start, end, FILL, FILL, FILL, FILL]);
}
