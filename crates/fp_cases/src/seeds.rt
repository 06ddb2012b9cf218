//! The numbers that choose what an input says.

/// The numbers of a seed, one after another (SplitMix64).
#[derive(Clone, Copy)]
pub struct Random {
    state: u64,
}

impl Random {
    /// From the first number on.
    pub fn new(seed: u64) -> Random {
        Random {
            state: seed.wrapping_mul(0xd1b5_4a32_d192_ed03),
        }
    }

    fn next(&mut self) -> u64 {
        self.state = self.state.wrapping_add(0x9e37_79b9_7f4a_7c15);
        let first = (self.state ^ (self.state >> 30)).wrapping_mul(0xbf58_476d_1ce4_e5b9);
        let second = (first ^ (first >> 27)).wrapping_mul(0x94d0_49bb_1331_11eb);
        second ^ (second >> 31)
    }

    /// One of the numbers below this end; 0 where there is none.
    pub fn below(&mut self, end: u64) -> u64 {
        self.next() % end.max(1)
    }

    /// One of the numbers from the first to the last.
    pub fn between(&mut self, first: u64, last: u64) -> u64 {
        let count = last.saturating_sub(first).saturating_add(1);
        first.saturating_add(self.below(count))
    }
}
