// Every refusal has its number and its words.
use controller::{Numbered, Refusal};
use std::test::Fail;

// A refusal, its number and its words.
struct Row(Refusal, u8, &'static str);

const IN_ORDER: [Row; 14] = [
    Row(Refusal::NotALine, 1, "no such line"),
    Row(Refusal::InService, 2, "the line is in service"),
    Row(
        Refusal::NotNewest,
        3,
        "the line is not the newest in service",
    ),
    Row(Refusal::NotHeld, 4, "the line is not held"),
    Row(Refusal::NotParked, 5, "the line is not parked"),
    Row(Refusal::UnlawfulMap, 6, "the record's map is unlawful"),
    Row(Refusal::CutRecord, 7, "the record is cut short"),
    Row(Refusal::NoSpace, 8, "there is no space"),
    Row(Refusal::NotSetUp, 9, "the chip is not set up far enough"),
    Row(Refusal::NotModelled, 10, "the byte is not modelled"),
    Row(Refusal::NoSuchAddress, 11, "no such port or offset"),
    Row(
        Refusal::NotAFleetingLine,
        12,
        "no such fleeting line of the outer controller",
    ),
    Row(Refusal::PartInService, 13, "a part has a line in service"),
    Row(Refusal::TooLarge, 14, "the parts are too large together"),
];

#[test]
fn refusals_count_from_one(rt: HostRuntime) -> Result<(), Fail> {
    for (place, &Row(refusal, number, words)) in (1..=14).zip(&IN_ORDER) {
        assert_eq!(rt; number, place);
        assert_eq!(rt; refusal.number(), number);
        assert_eq!(rt; refusal.text(), words, "{number}");
        let printed = format!(in rt.alloc(); "{refusal}")?;
        assert_eq!(rt; printed.as_str(), words, "{number}");
    }
    Ok(())
}

#[test]
fn a_refusal_is_printed_with_its_number(rt: HostRuntime) -> Result<(), Fail> {
    let printed = format!(in rt.alloc(); "{}", Numbered(Refusal::NotHeld))?;
    assert_eq!(rt; printed.as_str(), "refused (4), the line is not held");
    Ok(())
}
