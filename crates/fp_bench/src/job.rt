//! What a workload is asked for, and what it was answered so far.

use crate::digest::Digest;
use crate::random::Random;
use crate::text::Text;
use std::alloc::Global;

/// A workload's size, its seed, and the digest of what it was answered.
#[derive(Clone, Copy)]
pub struct Job {
    pub alloc: Global,
    pub rounds: u64,
    pub seed: u64,
    /// Whether its inputs are small.
    pub is_small: bool,
    pub digest: Digest,
}

impl Job {
    /// So many, or a part of them.
    pub fn count(&self, full: u64) -> u64 {
        if self.is_small {
            (full / 32).saturating_add(2)
        } else {
            full
        }
    }

    /// The numbers of a round.
    pub fn random(&self, round: u64) -> Random {
        Random::new(self.seed, round)
    }

    /// What sets the keys of a round apart.
    pub fn mark(&self, round: u64) -> u64 {
        self.seed.wrapping_add(round)
    }

    /// An empty text, for what a round says.
    pub fn text(&self, round: u64) -> Text {
        Text::new(self.alloc, self.random(round), self.mark(round))
    }
}
