//! The numbers that choose what an input says.

/// The numbers of a seed and a round, one after another (SplitMix64).
#[derive(Clone, Copy)]
pub struct Random {
    state: u64,
}

impl Random {
    /// From the first number on.
    pub fn new(seed: u64, round: u64) -> Random {
        let state = seed.wrapping_mul(0xd1b5_4a32_d192_ed03);
        Random {
            state: state ^ round.wrapping_mul(0x8cb9_2ba7_2f3d_8dd7),
        }
    }

    /// The next one.
    pub fn next(&mut self) -> u64 {
        self.state = self.state.wrapping_add(0x9e37_79b9_7f4a_7c15);
        let first = (self.state ^ (self.state >> 30)).wrapping_mul(0xbf58_476d_1ce4_e5b9);
        let second = (first ^ (first >> 27)).wrapping_mul(0x94d0_49bb_1331_11eb);
        second ^ (second >> 31)
    }

    /// One of the numbers below this end; 0 where there is none.
    pub fn below(&mut self, end: u64) -> u64 {
        self.next() % end.max(1)
    }

    /// One of so many numbers, of which this is the first.
    pub fn from(&mut self, first: u64, count: u64) -> u64 {
        first.saturating_add(self.below(count))
    }

    /// One of these words.
    pub fn pick(&mut self, words: &[&'static [u8]]) -> &'static [u8] {
        let place = self.below(words.len() as u64) as usize;
        words.get(place).copied().unwrap_or(b"")
    }
}
