//! Where editors wait until they are told of their edits.

ghost use Rattle.std.specs.Prelude.{◌≡◌, ◌-◌, min, vec_len};
ghost use Rattle.fp_plane.specs.declared.bells.TheConstants.{BELLS};

use std::alloc::{AllocError, Global};
use std::sync::Condvar;

// As many as a service lets editors in: their revisions follow one another, so one waits at each.
const BELLS: usize = 32;

/// A bell for each of a few revisions in turn, so that a batch wakes those whose edits it has and
/// hardly anyone else.
#[derive(Drop)]
pub(crate) struct Bells {
    bells: Vec<Condvar>,
    ghost all: { vec_len bells ≡ BELLS },
}

impl Bells {
    /// All bells. Nobody waits yet.
    pub fn new(alloc: Global) -> Result<Bells, AllocError> {
        let mut bells = Vec::with_capacity(alloc, BELLS)?;
        for _ in 0..BELLS {
            bells.push_reserved(Condvar::new());
        }
        Ok(Bells { bells })
    }

    /// The bell of a revision.
    pub fn of(&self, revision: u64) -> &Condvar {
        &self.bells[(revision % BELLS as u64) as usize]
    }

    /// Wakes who waits for one of the revisions behind one, up to the last.
    pub fn ring(&self, behind: u64, last: u64) {
        for n in 0..bells_between(behind, last) {
            self.of(last.wrapping_sub(n)).notify_all();
        }
    }

    /// Wakes all who wait.
    pub fn ring_all(&self) {
        for bell in &self.bells {
            bell.notify_all();
        }
    }
}

// How many bells ring for the revisions behind one, up to the last: one for each, and none twice.
fn bells_between(behind: u64, last: u64) -> u64
    ensures { result ≡ min (last - behind) BELLS }
{
    last.saturating_sub(behind).min(BELLS as u64)
}
