// The acts of a record in bit order, and as they are printed.
use std::process::Abort;
use std::test::Fail;
use trace::{Act, Record};

fn check_order(rt: &impl Abort, bytes: &[u8], expected: [Option<Act>; 6]) {
    let record = Record { bytes, place: 0 };
    assert_eq!(rt; record.acts().in_order(), expected, "{bytes:?}");
}

#[test]
fn acts_come_in_bit_order(rt: HostRuntime) {
    let (take, finish) = (Some(Act::Take), Some(Act::Finish));
    check_order(&rt, b"\x00", [None; 6]);
    check_order(&rt, b"\x10", [None, None, None, None, take, None]);
    check_order(&rt, b"\x20", [None, None, None, None, None, finish]);
    let (open, shut) = (Some(Act::Open(5)), Some(Act::Shut(2)));
    check_order(&rt, b"\x2c\x05\x02", [None, None, open, shut, None, finish]);
    let (rise, fall) = (Some(Act::Rise(2)), Some(Act::Fall(5)));
    check_order(
        &rt,
        b"\x3f\x02\x05\x05\x02",
        [rise, fall, open, shut, take, finish],
    );
}

#[test]
fn acts_are_printed(rt: HostRuntime) -> Result<(), Fail> {
    let heap = rt.alloc();
    assert_eq!(rt; format!(in heap; "{}", Act::Rise(5))?.as_str(), "rise 5");
    assert_eq!(rt; format!(in heap; "{}", Act::Fall(0))?.as_str(), "fall 0");
    assert_eq!(rt; format!(in heap; "{}", Act::Open(63))?.as_str(), "open 63");
    assert_eq!(rt;
        format!(in heap; "{}", Act::Shut(255))?.as_str(),
        "shut 255"
    );
    assert_eq!(rt; format!(in heap; "{}", Act::Take)?.as_str(), "take");
    assert_eq!(rt; format!(in heap; "{}", Act::Finish)?.as_str(), "finish");
    Ok(())
}
