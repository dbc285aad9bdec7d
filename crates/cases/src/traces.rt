// What the reader answers to maps, cut records and whole traces.
use crate::outcome::Outcome;
use crate::report::{Case, topic};
use std::io;
use trace::{Reader, survey_trace};

// A map, and how many bytes come after it.
#[derive(Clone, Copy)]
struct Cut(u8, usize);

const CUTS: [Cut; 27] = [
    Cut(0x00, 0),
    Cut(0x40, 0),
    Cut(0x40, 1),
    Cut(0x40, 4),
    Cut(0x80, 0),
    Cut(0xc1, 1),
    Cut(0xff, 4),
    Cut(0x01, 0),
    Cut(0x01, 1),
    Cut(0x02, 0),
    Cut(0x02, 1),
    Cut(0x04, 0),
    Cut(0x04, 1),
    Cut(0x08, 0),
    Cut(0x08, 1),
    Cut(0x10, 0),
    Cut(0x20, 0),
    Cut(0x30, 0),
    Cut(0x25, 0),
    Cut(0x25, 1),
    Cut(0x25, 2),
    Cut(0x25, 3),
    Cut(0x3f, 0),
    Cut(0x3f, 1),
    Cut(0x3f, 2),
    Cut(0x3f, 3),
    Cut(0x3f, 4),
];

// What a trace has, and its bytes.
#[derive(Clone, Copy)]
struct Trace(&'static str, &'static [u8]);

const TRACES: [Trace; 5] = [
    Trace("nothing", &[]),
    Trace("three records", &[0x05, 7, 7, 0x11, 7, 0x30]),
    Trace(
        "two records and an unlawful map",
        &[0x05, 7, 7, 0x10, 0x40, 0x30],
    ),
    Trace(
        "two records and one that is cut",
        &[0x05, 7, 7, 0x10, 0x03, 7],
    ),
    Trace("a record whose line is 0x40", &[0x01, 0x40]),
];

pub(crate) fn tell(rt: &HostRuntime) -> io::Result<()> {
    topic(rt, "Traces: a map, and bytes after it", &CUTS)?;
    topic(rt, "Traces: several records", &TRACES)
}

impl Case for Cut {
    fn tell(&self, rt: &HostRuntime) -> io::Result<()> {
        let Cut(map, more) = *self;
        let bytes = [map, 1, 2, 3, 4];
        let mut reader = Reader::new(&bytes[0..more.min(4) + 1]);
        let came = Outcome::from(reader.next_record().record());
        println!(rt; "  0x{map:02x} and {more} more: {came}")
    }
}

impl Case for Trace {
    fn tell(&self, rt: &HostRuntime) -> io::Result<()> {
        let Trace(what, bytes) = *self;
        let survey = survey_trace(bytes);
        let records = survey.records;
        let done = survey.bytes;
        let end = survey.fault.map_or(Outcome::EndOfTrace, Outcome::Refused);
        println!(rt; "  {what}: records {records}, bytes {done}, then {end}")
    }
}
