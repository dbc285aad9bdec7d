// Which offsets of a PLIC exist, what its registers keep, and the gateway record of each number.
use crate::offsets::{
    ALL, CLAIM_COMPLETE, ENABLE, ENABLE_HIGH, PENDING, PENDING_HIGH, PRIORITY_0, PRIORITY_1,
    PRIORITY_5, PRIORITY_9, PRIORITY_63, THRESHOLD,
};
use controller::Refusal;
use controller::Refusal::NoSuchAddress;
use plic::{Gateway, Plic, Request};
use std::process::Abort;
use std::test::Fail;

// An offset of a PLIC with 64 numbers, and the answer to a write there.
struct Place(u32, Result<(), Refusal>);

const PLACES: [Place; 36] = [
    // priorities
    Place(0x00_0000, Ok(())),
    Place(0x00_0001, Err(NoSuchAddress)),
    Place(0x00_0002, Err(NoSuchAddress)),
    Place(0x00_0003, Err(NoSuchAddress)),
    Place(0x00_0004, Ok(())),
    Place(0x00_00fc, Ok(())),
    Place(0x00_00fd, Err(NoSuchAddress)),
    Place(0x00_0100, Err(NoSuchAddress)),
    Place(0x00_0ffc, Err(NoSuchAddress)),
    // pending bits
    Place(0x00_1000, Ok(())),
    Place(0x00_1001, Err(NoSuchAddress)),
    Place(0x00_1003, Err(NoSuchAddress)),
    Place(0x00_1004, Ok(())),
    Place(0x00_1006, Err(NoSuchAddress)),
    Place(0x00_1008, Err(NoSuchAddress)),
    Place(0x00_107c, Err(NoSuchAddress)),
    Place(0x00_1ffc, Err(NoSuchAddress)),
    // enable bits
    Place(0x00_2000, Ok(())),
    Place(0x00_2002, Err(NoSuchAddress)),
    Place(0x00_2004, Ok(())),
    Place(0x00_2005, Err(NoSuchAddress)),
    Place(0x00_2008, Err(NoSuchAddress)),
    Place(0x00_207c, Err(NoSuchAddress)),
    Place(0x00_2080, Err(NoSuchAddress)),
    Place(0x00_3000, Err(NoSuchAddress)),
    // threshold, and claim and complete
    Place(0x1f_fffc, Err(NoSuchAddress)),
    Place(0x20_0000, Ok(())),
    Place(0x20_0001, Err(NoSuchAddress)),
    Place(0x20_0004, Ok(())),
    Place(0x20_0007, Err(NoSuchAddress)),
    Place(0x20_0008, Err(NoSuchAddress)),
    Place(0x20_1000, Err(NoSuchAddress)),
    Place(0x40_0000, Err(NoSuchAddress)),
    Place(0x8000_0000, Err(NoSuchAddress)),
    Place(0xffff_fffc, Err(NoSuchAddress)),
    Place(0xffff_ffff, Err(NoSuchAddress)),
];

fn check_place(rt: &impl Abort, chip: &mut Plic<64>, place: &Place) {
    let &Place(offset, answer) = place;
    assert_eq!(rt; chip.read(offset), answer.map(|()| 0), "offset {offset}");
    assert_eq!(rt; chip.write(offset, 0), answer, "offset {offset}");
}

// How many offsets from 0 on, up to past the last register, can be read.
fn readable<const N: usize>(chip: &mut Plic<N>) -> usize {
    (0..0x20_2000)
        .filter(|offset| chip.read(*offset).is_ok())
        .count()
}

// Each table of bits has a word for 32 numbers, and there are two more registers.
#[test]
fn offsets_exist_as_listed(rt: HostRuntime) {
    let mut chip = Plic::<64>::new();
    for place in &PLACES {
        check_place(&rt, &mut chip, place);
    }
    assert_eq!(rt; readable(&mut chip), 64 + 2 + 2 + 2);
    assert_eq!(rt; readable(&mut Plic::<1024>::new()), 1024 + 32 + 32 + 2);
}

// An offset, a value that is written there, and what is read then.
struct Kept(u32, u32, u32);

const KEPT: [Kept; 18] = [
    // priorities keep three bits, and source 0 none
    Kept(PRIORITY_0, 7, 0),
    Kept(PRIORITY_0, 0xffff_ffff, 0),
    Kept(PRIORITY_1, 0xffff_ffff, 7),
    Kept(PRIORITY_1, 8, 0),
    Kept(PRIORITY_5, 0xffff_fff5, 5),
    Kept(PRIORITY_63, 0x0000_0102, 2),
    // pending bits cannot be written
    Kept(PENDING, 0xffff_ffff, 0x0000_0200),
    Kept(PENDING, 0, 0x0000_0200),
    Kept(PENDING_HIGH, 0xffff_ffff, 0x8000_0000),
    Kept(PENDING_HIGH, 0, 0x8000_0000),
    // every enable bit but that of source 0
    Kept(ENABLE, 0x0000_0001, 0),
    Kept(ENABLE, 0xa5a5_a5a5, 0xa5a5_a5a4),
    Kept(ENABLE, 0xffff_ffff, 0xffff_fffe),
    Kept(ENABLE_HIGH, 0x5a5a_5a5b, 0x5a5a_5a5b),
    Kept(ENABLE_HIGH, 0xffff_ffff, 0xffff_ffff),
    // the threshold keeps three bits
    Kept(THRESHOLD, 0xffff_fffe, 6),
    Kept(THRESHOLD, 0x0000_0008, 0),
    Kept(THRESHOLD, 7, 7),
];

// The same is read twice in a row.
fn check_kept(rt: &impl Abort, chip: &mut Plic<64>, kept: &Kept) -> Result<(), Fail> {
    let &Kept(offset, written, read) = kept;
    chip.write(offset, written)?;
    for _ in 0..2 {
        assert_eq!(rt; chip.read(offset), Ok(read), "{written} at offset {offset}");
    }
    Ok(())
}

#[test]
fn registers_keep_what_they_have_room_for(rt: HostRuntime) -> Result<(), Fail> {
    let mut chip = Plic::<64>::new();
    chip.rise(9)?;
    chip.rise(63)?;
    for kept in &KEPT {
        check_kept(&rt, &mut chip, kept)?;
    }
    Ok(())
}

// A PLIC with every line high.
fn all_high() -> Result<Plic<64>, Fail> {
    let mut chip = Plic::<64>::new();
    for source in 1..64 {
        chip.rise(source)?;
    }
    Ok(chip)
}

// All are enabled, and one has a priority.
fn one_with_priority(source: u8) -> Result<Plic<64>, Fail> {
    let mut chip = all_high()?;
    chip.write(ENABLE, ALL)?;
    chip.write(ENABLE_HIGH, ALL)?;
    chip.write(4 * u32::from(source), 1)?;
    Ok(chip)
}

// All have a priority, and one is enabled.
fn one_enabled(source: u8) -> Result<Plic<64>, Fail> {
    let mut chip = all_high()?;
    for source in 1..64 {
        chip.write(4 * source, 7)?;
    }
    chip.write(ENABLE + 4 * u32::from(source / 32), 1 << (source % 32))?;
    Ok(chip)
}

fn check_only_claim(rt: &impl Abort, mut chip: Plic<64>, source: u8, what: &str) {
    for (signals, claimed) in [(true, u32::from(source)), (false, 0)] {
        assert_eq!(rt; chip.signal(), signals, "{what} of {source}");
        assert_eq!(rt;
            chip.read(CLAIM_COMPLETE),
            Ok(claimed),
            "{what} of {source}"
        );
    }
}

#[test]
fn every_source_has_its_own_priority_and_enable_bit(rt: HostRuntime) -> Result<(), Fail> {
    for source in 1..64 {
        check_only_claim(&rt, one_with_priority(source)?, source, "priority");
        check_only_claim(&rt, one_enabled(source)?, source, "enable bit");
    }
    Ok(())
}

#[test]
fn a_request_is_printed(rt: HostRuntime) -> Result<(), Fail> {
    let mut chip = Plic::<64>::new();
    let idle = chip.gateway(5).request;
    chip.rise(5)?;
    let pending = chip.gateway(5).request;
    let printed = format!(in rt.alloc(); "{idle} {pending} {}", Request::Claimed)?;
    assert_eq!(rt; printed.as_str(), "IDLE PENDING CLAIMED");
    Ok(())
}

// A number of a PLIC with 64, and its gateway record.
struct Held(u16, Gateway);

const BLANK: Gateway = Gateway {
    request: Request::Idle,
    high: false,
    enabled: false,
    priority: 0,
};

const HELD: [Held; 7] = [
    Held(0, BLANK),
    Held(
        5,
        Gateway {
            request: Request::Pending,
            high: true,
            enabled: true,
            priority: 3,
        },
    ),
    Held(
        9,
        Gateway {
            request: Request::Claimed,
            high: false,
            enabled: true,
            priority: 7,
        },
    ),
    Held(63, BLANK),
    // past the last
    Held(64, BLANK),
    Held(1024, BLANK),
    Held(65535, BLANK),
];

// Source 9 was claimed and fell; source 5 is pending.
#[test]
fn gateways_are_shown(rt: HostRuntime) -> Result<(), Fail> {
    let mut chip = Plic::<64>::new();
    chip.write(ENABLE, ALL)?;
    chip.write(PRIORITY_5, 3)?;
    chip.write(PRIORITY_9, 7)?;
    chip.rise(5)?;
    chip.rise(9)?;
    assert_eq!(rt; chip.read(CLAIM_COMPLETE), Ok(9));
    chip.fall(9)?;
    for &Held(n, gateway) in &HELD {
        assert_eq!(rt; chip.gateway(n), gateway, "{n}");
    }
    Ok(())
}
