// One trace with records of every length, cut at every length and spoilt at every place.
ghost use Rattle.std.specs.Prelude.{◌<◌};

use controller::Refusal;
use std::process::Abort;
use trace::{Next, Reader, Record, Survey, survey_trace};

const TRACE: [u8; 16] = *b"\x10\x01\x05\x06\x09\x00\x0b\x01\x02\x03\x3f\xff\x00\x40\x06\x20";

// Where its records begin.
const PLACES: [usize; 6] = [0, 1, 3, 6, 10, 15];

// Where they end.
const ENDS: [usize; 6] = [1, 3, 6, 10, 15, 16];

const UNLAWFUL: [u8; 5] = [0x00, 0x40, 0x80, 0xc1, 0xff];

// The survey of the records that end within a length, with no fault.
fn survey_of(length: usize) -> Survey {
    let records = ENDS.partition_point(|end| *end <= length);
    Survey {
        records,
        bytes: ENDS[..records].last().copied().unwrap_or(0),
        fault: None,
    }
}

// After the surveyed records the reader stays at the end or at the fault, of which it gives all bytes.
fn check_stays(rt: &impl Abort, trace: &[u8], reader: &mut Reader, survey: Survey) {
    let rest = trace.get(survey.bytes..).unwrap_or_default();
    let next = match survey.fault {
        None => Next::End,
        Some(Refusal::UnlawfulMap) => Next::UnlawfulMap(rest),
        Some(_) => Next::CutRecord(rest),
    };
    assert_eq!(rt; next.fault(), survey.fault, "{trace:?}");
    assert_eq!(rt; next.record().err(), survey.fault, "{trace:?}");
    assert_eq!(rt; next == Next::End, rest.is_empty(), "{trace:?}");
    assert_eq!(rt; reader.place(), survey.bytes, "{trace:?}");
    for _ in 0..2 {
        assert_eq!(rt; reader.next_record(), next, "{trace:?}");
        assert_eq!(rt; reader.place(), survey.bytes, "{trace:?}");
    }
}

// The reader gives the surveyed records, each with its own bytes and its place.
fn check_trace(rt: &impl Abort, trace: &[u8], survey: Survey) {
    assert_eq!(rt; survey_trace(trace), survey, "{trace:?}");
    let mut reader = Reader::new(trace);
    for (place, end) in PLACES.into_iter().zip(ENDS).take(survey.records) {
        let bytes = trace.get(place..end).unwrap_or_default();
        let record = Record { bytes, place };
        let next = reader.next_record();
        assert_eq!(rt; next, Next::Record(record), "{trace:?}");
        assert_eq!(rt; next.record(), Ok(Some(record)), "{trace:?}");
        assert_eq!(rt; reader.place(), end, "{trace:?}");
    }
    check_stays(rt, trace, &mut reader, survey);
}

#[test]
fn a_trace_is_cut_at_every_length(rt: HostRuntime) {
    for length in 0..=TRACE.len() {
        let whole = survey_of(length);
        let cut = whole.bytes < length;
        let survey = Survey {
            fault: cut.then_some(Refusal::CutRecord),
            ..whole
        };
        check_trace(&rt, &TRACE[..length], survey);
    }
}

// An unlawful byte is a fault where a record begins; elsewhere it is a line like any other.
fn check_spoilt(rt: &impl Abort, place: usize)
    requires { place < 16 }
{
    let before = survey_of(place);
    let survey = if before.bytes == place {
        Survey {
            fault: Some(Refusal::UnlawfulMap),
            ..before
        }
    } else {
        survey_of(TRACE.len())
    };
    for byte in UNLAWFUL {
        let mut trace = TRACE;
        trace[place] = byte;
        check_trace(rt, &trace, survey);
    }
}

#[test]
fn an_unlawful_map_is_found_at_every_place(rt: HostRuntime) {
    for place in 0..TRACE.len() {
        check_spoilt(&rt, place);
    }
}
