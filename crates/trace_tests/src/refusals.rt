// What the writer answers for every map with few and many lines and little and much space.
use crate::format::{FILL, LINES, fields, lawful, length, written};
use controller::Refusal;
use std::process::Abort;
use trace::write_record;

// The first question that is answered no gives the refusal: the map, its lines, the space.
fn expected(map: u8, lines: usize, space: usize) -> Result<usize, Refusal> {
    if !lawful(map) {
        Err(Refusal::UnlawfulMap)
    } else if lines < fields(map) {
        Err(Refusal::CutRecord)
    } else if space < length(map) {
        Err(Refusal::NoSpace)
    } else {
        Ok(length(map))
    }
}

// In every space: the answer, and that only the bytes of a record that was written were touched.
fn check_lines(rt: &impl Abort, map: u8, lines: &[u8]) {
    for space in 0..=6 {
        let mut buffer = [FILL; 6];
        let answer = write_record(map, lines, &mut buffer[..space]);
        let expected = expected(map, lines.len(), space);
        assert_eq!(rt;
            answer,
            expected,
            "map {map}, lines {lines:?}, space {space}"
        );
        let left = if answer.is_ok() {
            written(map)
        } else {
            [FILL; 6]
        };
        assert_eq!(rt; buffer, left, "map {map}, lines {lines:?}, space {space}");
    }
}

fn check_map(rt: &impl Abort, map: u8) {
    for count in 0..=5 {
        check_lines(rt, map, &LINES[..count]);
    }
}

#[test]
fn the_writer_refuses_in_order(rt: HostRuntime) {
    for map in 0..=255u8 {
        check_map(&rt, map);
    }
}
