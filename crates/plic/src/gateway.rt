// What a PLIC keeps of one source: its gateway record, and beside it the source's enable bit and priority.
ghost use Rattle.std.specs.Prelude.{◌≡◌, min, Some};
ghost use Rattle.plic.specs.Chip.{is_source};
ghost use Rattle.plic.specs.Gateways.{word, risen, fallen, claimed, completed, with_enabled, with_priority, completable, contender, is_pending};

use arbiter::Priority;
use std::fmt;

// How many numbers the register map has room for, 0 among them.
const NUMBERS: usize = 1024;

// One more than the greatest source number of a PLIC with the sources below N.
pub(crate) fn limit<const N: usize>() -> usize
    ensures { result ≡ min N 1024 }
{
    N.min(NUMBERS)
}

// Whether n is the number of a source there.
pub(crate) fn is_source<const N: usize>(n: usize) -> bool
    ensures { result ≡ is_source N n }
{
    n > 0 && n < limit::<N>()
}

// Where a source's request stands.
#[derive(Clone, Copy, PartialEq, Eq, Debug, Default)]
pub enum Request {
    #[default]
    Idle,
    Pending,
    Claimed,
}

impl fmt::Display for Request {
    ghost output = { λ r. Some (word r) };

    fn fmt<W: fmt::Write>(&self, f: &mut fmt::Formatter<W>) -> fmt::Result {
        f.write_str(match self {
            Request::Idle => "IDLE",
            Request::Pending => "PENDING",
            Request::Claimed => "CLAIMED",
        })
    }
}

// The default is idle, low, not enabled and of priority 0.
#[derive(Clone, Copy, PartialEq, Eq, Debug, Default)]
pub struct Gateway {
    pub request: Request,
    pub high: bool,
    pub enabled: bool,
    pub priority: u8,
}

impl Gateway {
    // The line rises: an idle source now has a request pending.
    pub(crate) fn rise(&mut self)
        ensures { self.new ≡ risen self.old }
    {
        self.high = true;
        if self.request == Request::Idle {
            self.request = Request::Pending;
        }
    }

    // The line falls; a request that is pending stays.
    pub(crate) fn fall(&mut self)
        ensures { self.new ≡ fallen self.old }
    {
        self.high = false;
    }

    pub(crate) fn claim(&mut self)
        ensures { self.new ≡ claimed self.old }
    {
        self.request = Request::Claimed;
    }

    // A line that is still high asks again.
    pub(crate) fn complete(&mut self)
        ensures { self.new ≡ completed self.old }
    {
        self.request = if self.high {
            Request::Pending
        } else {
            Request::Idle
        };
    }

    pub(crate) fn set_enabled(&mut self, enabled: bool)
        ensures { self.new ≡ with_enabled self.old enabled }
    {
        self.enabled = enabled;
    }

    pub(crate) fn set_priority(&mut self, priority: u8)
        ensures { self.new ≡ with_priority self.old priority }
    {
        self.priority = priority;
    }

    // Whether a completion of this source is heeded.
    pub(crate) fn completable(self) -> bool
        ensures { result ≡ completable self }
    {
        self.request == Request::Claimed && self.enabled
    }

    pub(crate) fn is_pending(self) -> bool
        ensures { result ≡ is_pending self.request }
    {
        self.request == Request::Pending
    }

    pub(crate) fn is_enabled(self) -> bool
        ensures { result ≡ self.enabled }
    {
        self.enabled
    }

    // The key under which this source contends for a claim.
    pub(crate) fn contender(self) -> Option<Priority>
        ensures { result ≡ contender self }
    {
        let contends = self.is_pending() && self.enabled && self.priority > 0;
        contends.then_some(Priority(self.priority))
    }
}
