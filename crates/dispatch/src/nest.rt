// The table of a nest. It has no invariant: a depth past the table's end counts as the table's length. Memory is fixed and
// the dispatcher's value is plain, so the table is an array with the depth beside it.
ghost use Rattle.std.specs.Prelude.{◌≡◌, ℕ, ◌<◌, ◌≤◌, true, List, [], ◌∷◌, length, take};
ghost use Rattle.controller.specs.Rules.{older};
ghost use Rattle.service.specs.Nests.{most_depth, held, newest_entry, newest_is, newest_parked, parked, removed};
ghost use Rattle.dispatch.specs.Tables.{entries_of, within, atop};
ghost use Rattle.dispatch.specs.Claims.{StayHeld, OthersStayHeld};

use service::{Entry, MOST_DEPTH, Mark};

// Oldest first; what stands from the depth on means nothing.
#[derive(Drop)]
pub(crate) struct Nest {
    entries: [Entry; MOST_DEPTH],
    depth: usize,
}

impl Nest {
    pub(crate) fn new() -> Nest
        ensures { entries_of result ≡ [] }
    {
        Nest {
            entries: [Entry::default(); MOST_DEPTH],
            depth: 0,
        }
    }

    pub(crate) fn depth(&self) -> usize
        ensures counts { result ≡ length (entries_of self.now) }
        ensures reads { result ≡ within self.now.depth }
        ensures few { result ≤ most_depth }
    {
        self.depth.min(MOST_DEPTH)
    }

    // The entries, oldest first.
    fn entries(&self) -> &[Entry]
        ensures { result.now ≡ take (within self.now.depth) self.now.entries }
    {
        &self.entries[..self.depth()]
    }

    pub(crate) fn newest(&self) -> Option<Entry>
        ensures { result ≡ newest_entry (entries_of self.now) }
    {
        self.entries().last().copied()
    }

    pub(crate) fn newest_is(&self, line: u16) -> bool
        ensures { result ≡ newest_is line (entries_of self.now) }
    {
        self.newest().is_some_and(|entry| line == entry.line)
    }

    pub(crate) fn newest_parked(&self) -> bool
        ensures { result ≡ newest_parked (entries_of self.now) }
    {
        self.newest()
            .is_some_and(|entry| entry.mark == Mark::Parked)
    }

    pub(crate) fn holds(&self, line: u16) -> bool
        ensures { result ≡ held line (entries_of self.now) }
    {
        let held = Entry {
            line,
            mark: Mark::Held,
        };
        self.entries().contains(&held)
    }

    // A full nest stays as it is.
    pub(crate) fn push(&mut self, entry: Entry)
        ensures entries { length (entries_of self.old) < most_depth → entries_of self.new ≡ entry ∷ entries_of self.old }
        ensures claims { StayHeld (entries_of self.old) (entries_of self.new) }
    {
        let depth = self.depth();
        if depth < MOST_DEPTH {
            self.entries[depth] = entry;
            self.depth = depth + 1;
        }
    }

    // An empty nest stays as it is.
    pub(crate) fn pop(&mut self)
        ensures entries { entries_of self.new ≡ removed (entries_of self.old) }
        ensures lines { (n : ℕ) (base : List ℕ) → newest_is n (entries_of self.old) ≡ true → older (atop (entries_of self.old) base) ≡ atop (entries_of self.new) base }
        ensures others { (n : ℕ) → newest_is n (entries_of self.old) ≡ true → OthersStayHeld n (entries_of self.old) (entries_of self.new) }
        ensures parked { newest_parked (entries_of self.old) ≡ true → StayHeld (entries_of self.old) (entries_of self.new) }
    {
        self.depth = self.depth().saturating_sub(1);
    }

    pub(crate) fn park(&mut self, line: u16)
        ensures marks { entries_of self.new ≡ parked line (entries_of self.old) }
        ensures lines { (base : List ℕ) → atop (entries_of self.new) base ≡ atop (entries_of self.old) base }
        ensures claims { OthersStayHeld line (entries_of self.old) (entries_of self.new) }
    {
        let depth = self.depth();
        for entry in &mut self.entries[..depth] {
            if entry.line == line {
                entry.mark = Mark::Parked;
            }
        }
    }
}
