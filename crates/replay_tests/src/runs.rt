// One trace, its log, and what comes of a trace on an old unit just made.
ghost use Rattle.std.specs.Prelude.{◌≤◌};

use controller::Refusal;
use dispatch::Dispatcher;
use replay::{LogRecord, Replayed, replay};
use std::array;
use std::process::Abort;
use units::old_unit;

// open 7; rise 7, open 9; take; rise 9; fall 9; take; rise 2, which is no line; rise 9, take; finish; fall 9, finish.
pub(crate) const TRACE: [u8; 18] = [
    0x04, 7, 0x05, 7, 9, 0x10, 0x01, 9, 0x02, 9, 0x10, 0x01, 2, 0x11, 9, 0x20, 0x22, 9,
];

// What a replay of the trace logs, and each record as it is printed.
pub(crate) const LOG: [(LogRecord, &str); 6] = [
    (LogRecord::Start { line: 7, depth: 1 }, "S 7 1 0"),
    (LogRecord::Spurious { depth: 1 }, "X - 1 0"),
    (
        LogRecord::Turned {
            line: Some(2),
            depth: 1,
            why: Refusal::NotALine,
        },
        "T 2 1 1",
    ),
    (LogRecord::Start { line: 9, depth: 2 }, "S 9 2 0"),
    (LogRecord::End { line: 9, depth: 2 }, "E 9 2 0"),
    (LogRecord::End { line: 7, depth: 1 }, "E 7 1 0"),
];

// What no replay of the trace writes.
pub(crate) const FILL: LogRecord = LogRecord::Spurious { depth: 99 };

// What a replay answers that stops with this fault, or at the end with none.
pub(crate) fn stop(records: usize, bytes: usize, fault: Option<Refusal>) -> Replayed {
    Replayed {
        records,
        bytes,
        fault,
    }
}

// What a replay answers that does the records of the trace before each place, and no more: the last place is its end.
pub(crate) fn places() -> [Replayed; 11] {
    [
        stop(0, 0, None),
        stop(0, 2, None),
        stop(0, 5, None),
        stop(1, 6, None),
        stop(1, 8, None),
        stop(1, 10, None),
        stop(2, 11, None),
        stop(3, 13, None),
        stop(4, 15, None),
        stop(5, 16, None),
        stop(6, 18, None),
    ]
}

// What a replay on an old unit just made answered, and its log, which was filled before.
#[derive(Clone, Copy)]
pub(crate) struct Run<const N: usize> {
    pub(crate) replayed: Replayed,
    pub(crate) log: [LogRecord; N],
}

impl<const N: usize> Run<N> {
    pub(crate) fn new(trace: &[u8]) -> Run<N> {
        Run::with_room(trace, N)
    }

    // The replay is given only that many places of the log.
    pub(crate) fn with_room(trace: &[u8], room: usize) -> Run<N>
        requires { room ≤ N }
    {
        let mut log = [FILL; N];
        let replayed = replay(&mut Dispatcher::new(old_unit()), trace, &mut log[..room]);
        Run { replayed, log }
    }

    // The case `what` at `n`: the answer is the expected one, the log begins with that many records of the trace's, and
    // nothing past them was touched. What and n are printed alone, so they are no struct.
    pub(crate) fn check_stop(&self, rt: &impl Abort, expected: Replayed, what: &str, n: usize) {
        assert_eq!(rt; self.replayed, expected, "{what} {n}");
        let mut records = LOG.into_iter().take(expected.records);
        let log: [LogRecord; N] = array::from_fn(|_| records
            .next()
            .map_or(FILL, |(record, _)| record));
        assert_eq!(rt; self.log, log, "{what} {n}");
    }
}
