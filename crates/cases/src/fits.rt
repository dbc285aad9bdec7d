// The check whether two controllers can be hung together: its three questions, and their order.
use crate::outcome::Outcome;
use crate::parts::plic_controller;
use crate::report::{Case, topic};
use cascade::{Cascade, check};
use controller::Controller;
use i8259a_controller::I8259aController;
use std::io;

// The inner and the outer, the line, the widths and the spans of both, and what the check brought back.
#[derive(Clone, Copy)]
struct Asked {
    what: &'static str,
    k: u16,
    widths: (u16, u16),
    spans: (u32, u32),
    came: Outcome,
}

pub(crate) fn tell(rt: &HostRuntime) -> io::Result<()> {
    topic(rt, "Cascade: from which line", &lines())?;
    let two = Cascade::new(I8259aController::new(), 2, plic_controller());
    let three = Cascade::new(two, 3, plic_controller());
    topic(rt, "Cascade: how large", &sizes(three))
}

impl Case for Asked {
    fn tell(&self, rt: &HostRuntime) -> io::Result<()> {
        let Asked {
            what,
            k,
            widths: (outer_width, inner_width),
            spans: (outer_span, inner_span),
            came,
        } = *self;
        println!(rt;
            "  {what}, from line {k}, widths {outer_width} and {inner_width}, spans {outer_span} and {inner_span}: {came}"
        )
    }
}

// Asks whether the inner can be hung from line k of the outer.
fn ask<O: Controller, I: Controller>(
    what: &'static str,
    outer: &mut O,
    k: u16,
    inner: &mut I,
) -> Asked {
    Asked {
        what,
        k,
        widths: (outer.width(), inner.width()),
        spans: (outer.span(), inner.span()),
        came: check(outer, k, inner).map(|()| Outcome::Fits).into(),
    }
}

fn lines() -> [Asked; 6] {
    let mut chip = I8259aController::new();
    let mut slave = I8259aController::new();
    let mut plic = plic_controller();
    let mut void = Cascade::new(I8259aController::new(), 8, I8259aController::new());
    [
        ask("8259A below an 8259A", &mut chip, 2, &mut slave),
        ask("8259A below an 8259A", &mut chip, 8, &mut slave),
        ask("PLIC below an 8259A", &mut chip, 2, &mut plic),
        ask(
            "8259A below a PLIC, whose lines are steady",
            &mut plic,
            5,
            &mut slave,
        ),
        ask(
            "pile of parts that do not fit, below an 8259A",
            &mut chip,
            2,
            &mut void,
        ),
        ask(
            "8259A below a pile of parts that do not fit",
            &mut void,
            0,
            &mut slave,
        ),
    ]
}

// Below an 8259A hang PLICs from lines 2 and 3, and another from line 4; what is asked next is too large.
fn sizes<O: Controller + Drop>(mut three: O) -> [Asked; 8] {
    let mut chip = I8259aController::new();
    let mut plic = plic_controller();
    let third = ask("PLIC below a pile of three", &mut three, 4, &mut plic);
    let mut four = Cascade::new(three, 4, plic_controller());
    let small = ask("8259A below a pile of four", &mut four, 5, &mut chip);
    let large = ask("PLIC below a pile of four", &mut four, 5, &mut plic);
    let gone = ask("PLIC below a pile of four", &mut four, 4, &mut plic);
    serve(&mut plic, 5);
    let inner = ask("the PLIC serves", &mut four, 5, &mut plic);
    serve(&mut four, 7);
    let both = ask("both serve", &mut four, 5, &mut plic);
    let none = ask("both serve", &mut four, 4, &mut plic);
    let outer = ask("the pile serves", &mut four, 5, &mut chip);
    [third, small, large, gone, inner, both, none, outer]
}

// Puts line n into service; pile_tests has the like, which asserts.
fn serve<C: Controller>(part: &mut C, n: u16) {
    let _ = part.open(n);
    let _ = part.rise(n);
    let _ = part.take();
}
