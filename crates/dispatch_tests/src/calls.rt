// The calls that the tests draw at random, and what a dispatcher says of each.
use crate::spend::{Served, Took, take_and_close, take_and_park};
use controller::{Answer, Controller, Refusal};
use dispatch::{Dispatcher, Ended};
use tally::Tally;

// A call of one line that the dispatcher passes on to its controller.
#[derive(Clone, Copy, Debug)]
pub(crate) enum Passed {
    Rise,
    Fall,
    Open,
    Shut,
}

// A call of a dispatcher, with its line where it names one. Take is followed at once by what spends its claim, so that a
// call is plain data.
#[derive(Clone, Copy, Debug)]
pub(crate) enum Call {
    Pass(Passed, u16),
    TakeAndPark,
    TakeAndClose,
    Finish(u16),
}

// What is said of a call, with the line that the call or what it took names.
#[derive(Clone, Copy, PartialEq, Eq, Debug)]
pub(crate) enum Said {
    Answer(u16, Result<Answer, Refusal>),
    Took(Took),
    Served(Served),
    End(u16, Result<Ended, Refusal>),
}

impl Passed {
    fn make<C: Controller>(
        self,
        dispatcher: &mut Dispatcher<C>,
        line: u16,
    ) -> Result<Answer, Refusal> {
        match self {
            Passed::Rise => dispatcher.rise(line),
            Passed::Fall => dispatcher.fall(line),
            Passed::Open => dispatcher.open(line),
            Passed::Shut => dispatcher.shut(line),
        }
    }
}

impl Call {
    pub(crate) fn make<C: Controller>(self, dispatcher: &mut Dispatcher<C>) -> Said {
        match self {
            Call::Pass(passed, line) => Said::Answer(line, passed.make(dispatcher, line)),
            Call::TakeAndPark => Said::Took(take_and_park(dispatcher)),
            Call::TakeAndClose => Said::Served(take_and_close(dispatcher)),
            Call::Finish(line) => Said::End(line, dispatcher.finish(line)),
        }
    }
}

impl Said {
    // Counts it in the tally of its line, if there is one. A start that was parked counts when its line is finished.
    pub(crate) fn note(self, tallies: &mut [Tally]) {
        match self {
            Said::Answer(line, answer) => {
                if let Some(tally) = tallies.get_mut(usize::from(line)) {
                    tally.note_answer(answer);
                }
            }
            Said::End(line, end) | Said::Served(Served::Start { line, end, .. }) => {
                if let Some(tally) = tallies.get_mut(usize::from(line)) {
                    tally.note_end(end);
                }
            }
            Said::Served(Served::Spurious { .. }) | Said::Took(_) => {}
        }
    }
}
