// The level of a line of an 8259A, by its number, and the lowest level of a set.
use controller::Refusal;
use controller::Refusal::NotALine;
use i8259a::{level_of, lowest};

const LEVELS: [(u16, Result<u8, Refusal>); 11] = [
    (0, Ok(0)),
    (1, Ok(1)),
    (2, Ok(2)),
    (3, Ok(3)),
    (4, Ok(4)),
    (5, Ok(5)),
    (6, Ok(6)),
    (7, Ok(7)),
    (8, Err(NotALine)),
    (256, Err(NotALine)),
    (65535, Err(NotALine)),
];

#[test]
fn a_line_is_the_level_of_its_number(rt: HostRuntime) {
    for &(n, level) in &LEVELS {
        assert_eq!(rt; level_of(n), level, "line {n}");
    }
}

#[test]
fn the_lowest_level_of_a_set_is_found(rt: HostRuntime) {
    for (set, level) in [
        (0x00, None),
        (0x01, Some(0)),
        (0x80, Some(7)),
        (0xa8, Some(3)),
        (0x60, Some(5)),
        (0xfe, Some(1)),
        (0xff, Some(0)),
    ] {
        assert_eq!(rt; lowest(set), level, "{set}");
    }
}
