// Random calls against a plain model of eight lines, and after each call the balance of every line: what was accepted was
// withdrawn, has ended, waits or is in service.
use crate::calls::{Call, Passed, Said};
use crate::counted::Counted;
use crate::random::Random;
use crate::spend::{Served, Took, take_and_park};
use controller::Answer::{Accepted, Done, Noted, Withdrawn};
use controller::{Answer, Refusal};
use dispatch::Ended;
use i8259a_controller::I8259aController;
use std::process::Abort;
use tally::Tally;

const CALLS: usize = 4000;

// Where the request of a line stands.
#[derive(Clone, Copy, PartialEq, Eq, Default)]
enum Stage {
    #[default]
    Idle,
    Waiting,
    Serving,
}

#[derive(Clone, Copy, Default)]
struct Line {
    open: bool,
    high: bool,
    stage: Stage,
}

impl Line {
    fn rise(&mut self) -> Result<Answer, Refusal> {
        self.high = true;
        if self.stage != Stage::Idle {
            return Ok(Noted);
        }
        self.stage = Stage::Waiting;
        Ok(Accepted)
    }

    fn fall(&mut self) -> Result<Answer, Refusal> {
        self.high = false;
        if self.stage != Stage::Waiting {
            return Ok(Noted);
        }
        self.stage = Stage::Idle;
        Ok(Withdrawn)
    }

    fn open(&mut self) -> Result<Answer, Refusal> {
        self.open = true;
        Ok(Done)
    }

    fn shut(&mut self) -> Result<Answer, Refusal> {
        if self.stage == Stage::Serving {
            return Err(Refusal::InService);
        }
        self.open = false;
        Ok(Done)
    }

    fn pass(&mut self, passed: Passed) -> Result<Answer, Refusal> {
        match passed {
            Passed::Rise => self.rise(),
            Passed::Fall => self.fall(),
            Passed::Open => self.open(),
            Passed::Shut => self.shut(),
        }
    }

    // A line that is still high waits again. Not by `Answer::accepted_if`, with which the controllers answer.
    fn end(&mut self) -> Answer {
        if self.high {
            self.stage = Stage::Waiting;
            Accepted
        } else {
            self.stage = Stage::Idle;
            Noted
        }
    }

    fn balances(&self, tally: &Tally) -> bool {
        let settled = tally.withdrawn.saturating_add(tally.ended);
        let unsettled = u32::from(self.stage != Stage::Idle);
        tally.accepted == settled.saturating_add(unsettled)
    }
}

// The lines by their levels, which are their numbers.
#[derive(Clone, Copy, Default)]
struct Lines([Line; 8]);

impl Lines {
    // The line of the smallest level in service, which is the newest.
    fn newest(&self) -> Option<usize> {
        self.0.iter().position(|line| line.stage == Stage::Serving)
    }

    fn depth(&self) -> usize {
        self.0
            .iter()
            .filter(|line| line.stage == Stage::Serving)
            .count()
    }

    // The open waiting line of the smallest level, with its number, if it is below every level in service.
    fn first_ready(&mut self) -> Option<(u16, &mut Line)> {
        (0..8)
            .zip(&mut self.0)
            .take_while(|(_, line)| line.stage != Stage::Serving)
            .find(|(_, line)| line.open && line.stage == Stage::Waiting)
    }

    fn line(&mut self, number: u16) -> Result<&mut Line, Refusal> {
        self.0.get_mut(usize::from(number)).ok_or(Refusal::NotALine)
    }

    fn take(&mut self) -> Took {
        match self.first_ready() {
            Some((number, line)) => {
                line.stage = Stage::Serving;
                Took::Start {
                    line: number,
                    depth: self.depth(),
                }
            }
            None => Took::Spurious {
                depth: self.depth(),
            },
        }
    }

    fn finish(&mut self, number: u16) -> Result<Ended, Refusal> {
        let depth = self.depth();
        let newest = self.newest();
        let line = self.line(number)?;
        if newest != Some(usize::from(number)) {
            return Err(Refusal::NotNewest);
        }
        Ok(Ended {
            line: number,
            depth,
            answer: line.end(),
        })
    }

    fn take_and_close(&mut self) -> Served {
        match self.take() {
            Took::Start { line, depth } => {
                let end = self.finish(line);
                Served::Start { line, depth, end }
            }
            Took::Spurious { depth } => Served::Spurious { depth },
        }
    }

    fn pass(&mut self, passed: Passed, number: u16) -> Result<Answer, Refusal> {
        self.line(number)?.pass(passed)
    }

    // What is to be said of a call.
    fn answer(&mut self, call: Call) -> Said {
        match call {
            Call::Pass(passed, number) => Said::Answer(number, self.pass(passed, number)),
            Call::TakeAndPark => Said::Took(self.take()),
            Call::TakeAndClose => Said::Served(self.take_and_close()),
            Call::Finish(number) => Said::End(number, self.finish(number)),
        }
    }
}

// What two numbers drawn at random call: the ranges are the odds. Once in 16 a number that is no line is finished.
fn drawn(choice: u8, byte: u8) -> Call {
    let line = u16::from(byte % 8);
    match choice {
        0..=3 => Call::Pass(Passed::Rise, line),
        4..=5 => Call::Pass(Passed::Fall, line),
        6..=7 => Call::Pass(Passed::Open, line),
        8 => Call::Pass(Passed::Shut, line),
        9..=10 => Call::TakeAndPark,
        11 => Call::TakeAndClose,
        12 => Call::Finish(line + 8),
        _ => Call::Finish(line),
    }
}

// The dispatcher and the model, of which every call is made; the two say the same.
#[derive(Drop)]
struct Twin {
    counted: Counted<I8259aController>,
    model: Lines,
}

impl Twin {
    fn new() -> Twin {
        Twin {
            counted: Counted::new(I8259aController::new()),
            model: Lines::default(),
        }
    }

    fn call(&mut self, rt: &impl Abort, call: Call) {
        let said = self.counted.call(call);
        assert_eq!(rt; said, self.model.answer(call), "{call:?}");
        for (line, tally) in self.model.0.iter().zip(&self.counted.tallies) {
            assert!(rt; line.balances(tally), "{call:?}: {tally:?}");
        }
        let depth = self.counted.dispatcher.depth();
        assert_eq!(rt; depth, self.model.depth(), "{call:?}");
    }

    // Every line falls and is opened.
    fn fall_all(&mut self, rt: &impl Abort) {
        for line in 0..8 {
            self.call(rt, Call::Pass(Passed::Fall, line));
            self.call(rt, Call::Pass(Passed::Open, line));
        }
    }

    // Every line in service is finished, the newest first.
    fn finish_all(&mut self, rt: &impl Abort) {
        for line in 0..8 {
            self.call(rt, Call::Finish(line));
        }
    }

    // Nothing is left to take, and each request of every line was withdrawn or has ended.
    fn check_drained(&mut self, rt: &impl Abort) {
        assert_eq!(rt;
            take_and_park(&mut self.counted.dispatcher),
            Took::Spurious { depth: 0 }
        );
        for tally in &self.counted.tallies[..8] {
            let settled = tally.withdrawn.saturating_add(tally.ended);
            assert!(rt; tally.accepted > 0, "{tally:?}");
            assert_eq!(rt; tally.accepted, settled, "{tally:?}");
        }
    }
}

#[test]
fn random_calls_balance(rt: HostRuntime) {
    let mut twin = Twin::new();
    for (choice, byte) in Random(1).take(CALLS) {
        twin.call(&rt, drawn(choice, byte));
    }
    twin.fall_all(&rt);
    twin.finish_all(&rt);
    twin.check_drained(&rt);
}
