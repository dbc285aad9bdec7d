// What a completion leaves of source 5 of a PLIC.
use crate::parts::{CLAIM_COMPLETE, ENABLE};
use crate::report::{Case, topic};
use plic::{Plic, Request};
use std::io;

// Source 5 before the completion, and the number that is completed.
#[derive(Clone, Copy)]
struct Completion {
    request: Request,
    high: bool,
    enabled: bool,
    number: u32,
}

const IDLE: Completion = Completion {
    request: Request::Idle,
    high: false,
    enabled: true,
    number: 5,
};

const PENDING: Completion = Completion {
    request: Request::Pending,
    high: true,
    enabled: true,
    number: 5,
};

const CLAIMED: Completion = Completion {
    request: Request::Claimed,
    high: true,
    enabled: true,
    number: 5,
};

const COMPLETIONS: [Completion; 13] = [
    IDLE,
    Completion {
        enabled: false,
        ..IDLE
    },
    PENDING,
    Completion {
        high: false,
        ..PENDING
    },
    Completion {
        enabled: false,
        ..PENDING
    },
    CLAIMED,
    Completion {
        high: false,
        ..CLAIMED
    },
    Completion {
        enabled: false,
        ..CLAIMED
    },
    Completion {
        high: false,
        enabled: false,
        ..CLAIMED
    },
    Completion {
        number: 0,
        ..CLAIMED
    },
    Completion {
        number: 6,
        ..CLAIMED
    },
    Completion {
        number: 64,
        ..CLAIMED
    },
    Completion {
        number: 65541,
        ..CLAIMED
    },
];

pub(crate) fn tell(rt: &HostRuntime) -> io::Result<()> {
    topic(
        rt,
        "PLIC: source 5 before and after a completion",
        &COMPLETIONS,
    )
}

impl Case for Completion {
    fn tell(&self, rt: &HostRuntime) -> io::Result<()> {
        let Completion {
            request,
            high,
            enabled,
            number,
        } = *self;
        let mut chip = standing(*self);
        let _ = chip.write(CLAIM_COMPLETE, number);
        let line = either(high, "high", "low");
        let bit = either(enabled, "enabled", "not enabled");
        let after = chip.gateway(5).request;
        println!(rt; "  {request}, {line}, {bit}, complete {number}: {after}")
    }
}

// A PLIC whose source 5 stands so.
fn standing(source: Completion) -> Plic<64> {
    let mut chip = Plic::<64>::new();
    let _ = chip.write(4 * 5, 4);
    let _ = chip.write(ENABLE, 1 << 5);
    bring(&mut chip, source.request);
    if !source.high {
        let _ = chip.fall(5);
    }
    if !source.enabled {
        let _ = chip.write(ENABLE, 0);
    }
    chip
}

// Brings the request of source 5 there.
fn bring(chip: &mut Plic<64>, request: Request) {
    match request {
        Request::Idle => {}
        Request::Pending => {
            let _ = chip.rise(5);
        }
        Request::Claimed => {
            let _ = chip.rise(5);
            let _ = chip.read(CLAIM_COMPLETE);
        }
    }
}

fn either(flag: bool, yes: &'static str, no: &'static str) -> &'static str {
    if flag { yes } else { no }
}
