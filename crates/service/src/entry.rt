// A line that was started and has not ended yet.

// The most entries that a nest has.
pub const MOST_DEPTH: usize = 8;

// Held: a claim for the line is out. Parked: its claim was given up, and the line is still in service.
#[derive(Clone, Copy, PartialEq, Eq, Debug, Default)]
pub enum Mark {
    #[default]
    Held,
    Parked,
}

#[derive(Clone, Copy, PartialEq, Eq, Debug, Default)]
pub struct Entry {
    pub line: u16,
    pub mark: Mark,
}
