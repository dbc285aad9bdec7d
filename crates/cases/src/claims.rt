// What a PLIC signals and claims while sources 5 and 9 are enabled and pending.
use crate::outcome::Outcome;
use crate::parts::{CLAIM_COMPLETE, ENABLE, THRESHOLD};
use crate::report::{Case, topic};
use plic::Plic;
use std::io;

// The priorities of sources 5 and 9, and the threshold.
#[derive(Clone, Copy)]
struct Priorities(u32, u32, u32);

const PRIORITIES: [Priorities; 13] = [
    Priorities(3, 0, 3),
    Priorities(4, 0, 3),
    Priorities(3, 3, 3),
    Priorities(3, 4, 3),
    Priorities(4, 4, 0),
    Priorities(4, 4, 7),
    Priorities(4, 6, 0),
    Priorities(6, 4, 5),
    Priorities(0, 1, 0),
    Priorities(0, 0, 0),
    Priorities(7, 7, 7),
    Priorities(12, 3, 3),
    Priorities(8, 1, 8),
];

pub(crate) fn tell(rt: &HostRuntime) -> io::Result<()> {
    topic(
        rt,
        "PLIC: sources 5 and 9 are enabled and pending",
        &PRIORITIES,
    )
}

impl Case for Priorities {
    fn tell(&self, rt: &HostRuntime) -> io::Result<()> {
        let Priorities(five, nine, threshold) = *self;
        let mut chip = asking(*self);
        let signal = Outcome::from(chip.signal());
        let first = Outcome::from(chip.read(CLAIM_COMPLETE));
        let second = Outcome::from(chip.read(CLAIM_COMPLETE));
        println!(rt;
            "  priorities {five} and {nine}, threshold {threshold}: signal {signal}, claims {first} and {second}"
        )
    }
}

fn asking(priorities: Priorities) -> Plic<64> {
    let Priorities(five, nine, threshold) = priorities;
    let mut chip = Plic::<64>::new();
    let _ = chip.write(4 * 5, five);
    let _ = chip.write(4 * 9, nine);
    let _ = chip.write(ENABLE, 1 << 5 | 1 << 9);
    let _ = chip.write(THRESHOLD, threshold);
    let _ = chip.rise(5);
    let _ = chip.rise(9);
    chip
}
