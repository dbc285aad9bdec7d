// Numbers that look random and are the same in each run. The generator is no library's: there it would be a public call, with a contract
// of its own.

// The states of a linear congruential generator, of which the upper half is drawn.
#[derive(Drop)]
pub(crate) struct Random(u64);

impl Random {
    pub(crate) fn new(seed: u64) -> Random {
        Random(seed)
    }

    fn draw(&mut self) -> u32 {
        self.0 = self
            .0
            .wrapping_mul(6_364_136_223_846_793_005)
            .wrapping_add(1_442_695_040_888_963_407);
        (self.0 >> 32) as u32
    }

    // A number below the limit; 0 if there is none.
    pub(crate) fn below(&mut self, limit: u16) -> u16 {
        self.draw()
            .checked_rem(u32::from(limit))
            .map_or(0, |n| n as u16)
    }

    // True once in so many draws.
    pub(crate) fn once_in(&mut self, times: u16) -> bool {
        self.below(times) == 0
    }
}
