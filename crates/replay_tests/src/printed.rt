// The printed lines of a log, and of what the replay answered.
use crate::runs::{LOG, Run, TRACE};
use controller::Refusal;
use replay::{LogRecord, record_line, stop_line, summary_line};
use std::test::Fail;

#[test]
fn lines_of_a_log(rt: HostRuntime) -> Result<(), Fail> {
    let run = Run::<8>::new(&TRACE);
    for (record, (_, line)) in run.log.iter().zip(LOG) {
        assert_eq!(rt; record_line(rt.alloc(), record)?.as_str(), line);
    }
    assert_eq!(rt;
        summary_line(rt.alloc(), &run.replayed)?.as_str(),
        "F 6 18 0"
    );
    Ok(())
}

#[test]
fn lines_of_refusals(rt: HostRuntime) -> Result<(), Fail> {
    let empty = LogRecord::Turned {
        line: None,
        depth: 0,
        why: Refusal::NotNewest,
    };
    assert_eq!(rt; record_line(rt.alloc(), &empty)?.as_str(), "T - 0 3");
    let faulty = Run::<0>::new(&[0x40]).replayed;
    assert_eq!(rt; summary_line(rt.alloc(), &faulty)?.as_str(), "F 0 0 6");
    Ok(())
}

#[test]
fn why_a_replay_stopped(rt: HostRuntime) -> Result<(), Fail> {
    let whole = Run::<8>::new(&TRACE).replayed;
    assert_eq!(rt;
        stop_line(rt.alloc(), &whole)?.as_str(),
        "the whole trace was done"
    );
    let bad = Run::<8>::new(&[0x04, 7, 0x40]).replayed;
    assert_eq!(rt;
        stop_line(rt.alloc(), &bad)?.as_str(),
        "the trace is bad at byte 2"
    );
    let cut = Run::<8>::new(&[0x04, 7, 0x01]).replayed;
    assert_eq!(rt;
        stop_line(rt.alloc(), &cut)?.as_str(),
        "the trace is cut at byte 2"
    );
    let full = Run::<0>::new(&TRACE).replayed;
    assert_eq!(rt;
        stop_line(rt.alloc(), &full)?.as_str(),
        "the log is full before byte 0"
    );
    Ok(())
}
