// What the units tell of themselves.
use controller::Controller;
use i8259a_controller::I8259aController;
use plic_controller::PlicController;
use std::array;
use std::process::Abort;

// Which numbers up to a little past the width are lines, and which of them fleeting.
fn check_lines<C: Controller>(rt: &impl Abort, unit: &C, lines: &[u16], fleeting: bool) {
    for n in 0..300u16 {
        let expected = lines.contains(&n);
        assert_eq!(rt; unit.there(n), expected, "line {n}");
        assert_eq!(rt; unit.fleeting(n), expected && fleeting, "fall rule of {n}");
    }
}

#[test]
fn the_8259a_has_eight_fleeting_lines(rt: HostRuntime) {
    let unit = I8259aController::new();
    assert_eq!(rt; unit.width(), 8);
    assert_eq!(rt; unit.span(), 8);
    check_lines(&rt, &unit, &[0, 1, 2, 3, 4, 5, 6, 7], true);
}

// The low three bits of each priority count, and entry 0 is ignored.
#[test]
fn the_plic_has_its_prioritized_sources(rt: HostRuntime) {
    let unit = PlicController::new(array::from_fn(|n| match n {
        0 => 7,
        1 => 1,
        2 => 8,
        9 => 255,
        63 => 12,
        _ => 0,
    }));
    assert_eq!(rt; unit.width(), 64);
    assert_eq!(rt; unit.span(), 512);
    check_lines(&rt, &unit, &[1, 9, 63], false);
}
