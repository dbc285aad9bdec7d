// Long runs, drawn at random and the same each time: a hundred thousand calls on every kind of unit, and thousands of traces on
// pairs of units that tell the same. What is proved of all runs is counted here on some.
#![tactic(auto)]

mod calls;
mod course;
mod random;
mod traces;
mod urgency;

use cascade::Cascade;
use i8259a_controller::I8259aController;
use plic_controller::PlicController;
use std::io;
use units::old_unit;
use urgency::Urgency;

fn main(rt: HostRuntime) -> io::Result<()> {
    long_calls(&rt)?;
    long_traces(&rt)
}

// A pile of three has a pile of two as its outer or as its inner part.
fn long_calls(rt: &HostRuntime) -> io::Result<()> {
    let chip = Urgency::of_8259a();
    let old = chip.piled(8, 2);
    calls::tell(rt, "8259A", I8259aController::new(), chip)?;
    calls::tell(rt, "PLIC", plic(), Urgency::of_plic(&priorities()))?;
    calls::tell(
        rt,
        "Old unit, an 8259A below line 2 of another",
        old_unit(),
        old,
    )?;
    calls::tell(
        rt,
        "PLIC below an 8259A",
        Cascade::new(I8259aController::new(), 2, plic()),
        old,
    )?;
    calls::tell(
        rt,
        "Three 8259As, a pile as the outer",
        outer_pile(),
        old.piled(16, 11),
    )?;
    calls::tell(rt, "Three 8259As, a pile as the inner", inner_pile(), old)?;
    calls::tell(
        rt,
        "PLIC below two 8259As, a pile as the outer",
        plic_outside(),
        old.piled(16, 11),
    )?;
    calls::tell(
        rt,
        "PLIC below two 8259As, a pile as the inner",
        plic_inside(),
        old,
    )?;
    calls::tell(rt, "Parts that do not fit", unfit(), chip)
}

fn long_traces(rt: &HostRuntime) -> io::Result<()> {
    traces::tell(rt, "Two old units", 18, pair, pair)?;
    traces::tell(
        rt,
        "Two PLICs, their priorities equal in the low three bits",
        66,
        plic,
        plic_of_high_bits,
    )?;
    traces::tell(
        rt,
        "Three 8259As, hung together in either order",
        26,
        outer_pile,
        inner_pile,
    )?;
    traces::tell(
        rt,
        "A PLIC below two 8259As, hung together in either order",
        82,
        plic_outside,
        plic_inside,
    )?;
    traces::tell(
        rt,
        "Parts that do not fit, of two kinds",
        18,
        unfit,
        unfit_plic,
    )
}

// Two 8259A controllers, one below the other.
type Pair = Cascade<I8259aController, I8259aController>;

// A name of this program's own, to hand on as a making.
fn pair() -> Pair {
    old_unit()
}

// A slave's line 3 is number 11 of the old unit: hung from there or from line 3 of the slave, a third part has the same lines.
fn outer_pile() -> Cascade<Pair, I8259aController> {
    Cascade::new(old_unit(), 11, I8259aController::new())
}

fn inner_pile() -> Cascade<I8259aController, Pair> {
    let pair = Cascade::new(I8259aController::new(), 3, I8259aController::new());
    Cascade::new(I8259aController::new(), 2, pair)
}

fn plic_outside() -> Cascade<Pair, PlicController> {
    Cascade::new(old_unit(), 11, plic())
}

fn plic_inside() -> Cascade<I8259aController, Cascade<I8259aController, PlicController>> {
    let pair = Cascade::new(I8259aController::new(), 3, plic());
    Cascade::new(I8259aController::new(), 2, pair)
}

fn plic() -> PlicController {
    PlicController::new(priorities())
}

// The bits above the low three count for nothing.
fn plic_of_high_bits() -> PlicController {
    PlicController::new(priorities().map(|priority| priority | 0xa8))
}

// Sources 1 to 21, three to each priority, as dispatch_tests has them: data of each that runs on it.
fn priorities() -> [u8; 64] {
    std::array::from_fn(|n| match n {
        1..=21 => 1 + (n % 7) as u8,
        _ => 0,
    })
}

// An 8259A has no line 8.
fn unfit() -> Pair {
    Cascade::new(I8259aController::new(), 8, I8259aController::new())
}

// A PLIC's lines are steady.
fn unfit_plic() -> Cascade<PlicController, I8259aController> {
    Cascade::new(plic(), 5, I8259aController::new())
}
