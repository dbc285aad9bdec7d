// A dispatcher whose answers are counted.
use crate::calls::{Call, Said};
use controller::Controller;
use dispatch::Dispatcher;
use tally::Tally;

// A dispatcher, and of each number the tally of what was answered: a call's line is drawn as a byte, so it is below 256.
#[derive(Drop)]
pub(crate) struct Counted<C> {
    pub(crate) dispatcher: Dispatcher<C>,
    pub(crate) tallies: [Tally; 256],
}

impl<C: Controller> Counted<C> {
    pub(crate) fn new(controller: C) -> Counted<C> {
        Counted {
            dispatcher: Dispatcher::new(controller),
            tallies: [Tally::new(); 256],
        }
    }

    // Makes the call, and counts what is said of it.
    pub(crate) fn call(&mut self, call: Call) -> Said {
        let said = call.make(&mut self.dispatcher);
        said.note(&mut self.tallies);
        said
    }
}
