// Whether an 8259A signals, and the level that an acknowledge names, while lines 1 and 4 are high.
use crate::outcome::Outcome;
use crate::parts;
use crate::report::{Case, topic};
use std::io;

// The level that is in service, if one is, and the mask.
#[derive(Clone, Copy)]
struct Asked(Option<u16>, u8);

const ASKED: [Asked; 12] = [
    Asked(None, 0x00),
    Asked(None, 0x01),
    Asked(None, 0x02),
    Asked(None, 0x10),
    Asked(None, 0x12),
    Asked(None, 0xff),
    Asked(Some(7), 0x00),
    Asked(Some(7), 0x12),
    Asked(Some(5), 0x02),
    Asked(Some(3), 0x02),
    Asked(Some(1), 0x00),
    Asked(Some(0), 0x00),
];

pub(crate) fn tell(rt: &HostRuntime) -> io::Result<()> {
    topic(rt, "8259A: lines 1 and 4 are high", &ASKED)
}

impl Case for Asked {
    fn tell(&self, rt: &HostRuntime) -> io::Result<()> {
        let Asked(serving, mask) = *self;
        let mut chip = parts::chip();
        if let Some(n) = serving {
            parts::serve(&mut chip, n);
        }
        let _ = chip.rise(1);
        let _ = chip.rise(4);
        let _ = chip.write(1, mask);
        let newest = Outcome::from(serving);
        let signal = Outcome::from(chip.signal());
        let level = Outcome::from(chip.acknowledge());
        println!(rt;
            "  in service {newest}, mask 0x{mask:02x}: signal {signal}, acknowledge {level}"
        )
    }
}
