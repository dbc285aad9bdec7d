// Random calls, the same in each run. The generator is no library's: there it would be a public call, with a contract of its own.

// The states of a linear congruential generator.
#[derive(Drop)]
pub(crate) struct Random(pub(crate) u32);

// A number below 16, which says what to call, and a byte, which says of which line.
impl Iterator for Random {
    type Item = (u8, u8);

    fn next(&mut self) -> Option<(u8, u8)> {
        self.0 = self.0.wrapping_mul(1_664_525).wrapping_add(1_013_904_223);
        let [_, _, line, choice] = self.0.to_le_bytes();
        Some((choice % 16, line))
    }
}
