// What piles answer: one of parts that fit, and one of parts that do not.
use crate::outcome::Told;
use crate::parts::plic_controller;
use crate::report::topic;
use cascade::Cascade;
use controller::Controller;
use i8259a_controller::I8259aController;
use std::io;

pub(crate) fn tell(rt: &HostRuntime) -> io::Result<()> {
    let mut pile = Cascade::new(I8259aController::new(), 2, plic_controller());
    topic(
        rt,
        "Cascade: line 13, which is source 5 of a PLIC below an 8259A",
        &answers(&mut pile, 13),
    )?;
    let mut void = Cascade::new(I8259aController::new(), 8, I8259aController::new());
    topic(
        rt,
        "Cascade: line 3 of parts that do not fit",
        &answers(&mut void, 3),
    )
}

// Every question and every call, about line n.
fn answers<C: Controller>(pile: &mut C, n: u16) -> [Told; 12] {
    [
        Told::new("width", pile.width()),
        Told::new("span", pile.span()),
        Told::new("there", pile.there(n)),
        Told::new("fleeting", pile.fleeting(n)),
        Told::new("open", pile.open(n)),
        Told::new("rise", pile.rise(n)),
        Told::new("signal", pile.signal()),
        Told::new("take", pile.take()),
        Told::new("newest", pile.newest()),
        Told::new("shut", pile.shut(n)),
        Told::new("fall", pile.fall(n)),
        Told::new("finish", pile.finish(n)),
    ]
}
