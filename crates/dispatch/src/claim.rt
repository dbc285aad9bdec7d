// The right to end a line that was started.
ghost use Rattle.std.specs.Prelude.{◌≡◌};

// It is neither copied nor dropped: close or park spends it, and a refusal hands it back. Its line is private, so only a
// START makes one.
pub struct Claim {
    pub(crate) line: u16,
}

impl Claim {
    pub fn line(&self) -> u16
        ensures { result ≡ self.now.line }
    {
        self.line
    }
}
