// The deepest nest: every level is started above a larger one, and the ninth take is spurious.
use crate::spend::{Took, take_and_park};
use controller::Answer::{Accepted, Done, Noted};
use controller::Refusal;
use dispatch::{Dispatcher, Ended, Entry, Mark};
use i8259a_controller::I8259aController;
use std::process::Abort;

type Unit = Dispatcher<I8259aController>;

fn start(rt: &impl Abort, dispatcher: &mut Unit, line: u16, depth: usize) {
    assert_eq!(rt; dispatcher.open(line), Ok(Done));
    assert_eq!(rt; dispatcher.rise(line), Ok(Accepted));
    assert_eq!(rt; dispatcher.rise(line), Ok(Noted));
    assert_eq!(rt; take_and_park(dispatcher), Took::Start { line, depth });
    assert_eq!(rt; dispatcher.shut(line), Err(Refusal::InService));
    assert_eq!(rt;
        dispatcher.newest(),
        Some(Entry {
            line,
            mark: Mark::Parked,
        })
    );
    assert_eq!(rt; dispatcher.depth(), depth);
}

fn finish(rt: &impl Abort, dispatcher: &mut Unit, line: u16, depth: usize) {
    let end = Ended {
        line,
        depth,
        answer: Noted,
    };
    assert_eq!(rt; dispatcher.fall(line), Ok(Noted));
    assert_eq!(rt; dispatcher.finish(line), Ok(end));
    assert_eq!(rt; dispatcher.finish(line), Err(Refusal::NotNewest));
}

// From level 7 up: each level brings a depth more.
fn start_all(rt: &impl Abort, dispatcher: &mut Unit) {
    for line in (0..8).rev() {
        start(rt, dispatcher, line, usize::from(8 - line));
    }
}

fn finish_all(rt: &impl Abort, dispatcher: &mut Unit) {
    for line in 0..8 {
        finish(rt, dispatcher, line, usize::from(8 - line));
    }
}

#[test]
fn eight_levels_nest(rt: HostRuntime) {
    let mut dispatcher = Dispatcher::new(I8259aController::new());
    assert_eq!(rt; take_and_park(&mut dispatcher), Took::Spurious { depth: 0 });
    start_all(&rt, &mut dispatcher);
    assert_eq!(rt; take_and_park(&mut dispatcher), Took::Spurious { depth: 8 });
    finish_all(&rt, &mut dispatcher);
    assert_eq!(rt; take_and_park(&mut dispatcher), Took::Spurious { depth: 0 });
}
