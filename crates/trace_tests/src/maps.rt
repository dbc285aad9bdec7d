// Every map through the writer, the reader and the decoder, and back.
use crate::format::{BITS, FILL, LINES, acts_of, lawful, length, set_bits, written};
use controller::Refusal;
use std::process::Abort;
use trace::{
    ACT_BITS, Acts, Next, Reader, Record, act_count, record_length, write_acts, write_record,
};

// An act is named for each set bit and for no other.
fn check_named(rt: &impl Abort, acts: &Acts, map: u8) {
    for (i, bit) in (0..ACT_BITS).zip(BITS) {
        let named = acts.at(i).is_some();
        assert_eq!(rt; named, map & bit != 0, "map {map}: bit {i}");
    }
    assert_eq!(rt; act_count(map), set_bits(map, &BITS), "map {map}");
}

// The acts are those of the format, and written they give the record again.
fn check_acts(rt: &impl Abort, record: &Record, map: u8) {
    assert_eq!(rt; record.map(), map, "map {map}");
    let acts = record.acts();
    assert_eq!(rt; acts, acts_of(map), "map {map}");
    check_named(rt, &acts, map);
    let mut buffer = [FILL; 6];
    let answer = write_acts(&acts, &mut buffer);
    assert_eq!(rt; answer, Ok(length(map)), "map {map}");
    assert_eq!(rt; buffer, written(map), "map {map}");
}

// The record is written and read; the byte that follows it is no map, and the reader stays there.
fn check_lawful(rt: &impl Abort, map: u8) {
    let length = length(map);
    assert_eq!(rt; record_length(map), Some(length), "map {map}");
    let mut buffer = [FILL; 6];
    let answer = write_record(map, &LINES, &mut buffer);
    assert_eq!(rt; answer, Ok(length), "map {map}");
    assert_eq!(rt; buffer, written(map), "map {map}");
    let mut reader = Reader::new(&buffer);
    let (bytes, rest) = buffer.split_at(length);
    let record = Record { bytes, place: 0 };
    assert_eq!(rt; reader.next_record(), Next::Record(record), "map {map}");
    check_acts(rt, &record, map);
    assert_eq!(rt; reader.next_record(), Next::UnlawfulMap(rest), "map {map}");
    assert_eq!(rt; reader.place(), length, "map {map}");
}

// An unlawful map is refused by the reader, which stays, and by the writer, which touches nothing.
fn check_unlawful(rt: &impl Abort, map: u8) {
    assert_eq!(rt; record_length(map), None, "map {map}");
    let mut buffer = [FILL; 6];
    let answer = write_record(map, &LINES, &mut buffer);
    assert_eq!(rt; answer, Err(Refusal::UnlawfulMap), "map {map}");
    assert_eq!(rt; buffer, [FILL; 6], "map {map}");
    let trace = [map, 0x01, 0x02];
    let mut reader = Reader::new(&trace);
    assert_eq!(rt;
        reader.next_record(),
        Next::UnlawfulMap(&trace),
        "map {map}"
    );
    assert_eq!(rt; reader.place(), 0, "map {map}");
}

#[test]
fn every_map_is_written_and_read(rt: HostRuntime) {
    for map in 0..=255u8 {
        if lawful(map) {
            check_lawful(&rt, map);
        } else {
            check_unlawful(&rt, map);
        }
    }
}
