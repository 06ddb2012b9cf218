//! What a flusher tells of its store's compactions.

ghost use Rattle.std.specs.Prelude.{◌≡◌, ◌≢◌, ◌↔◌, IsTrue};
ghost use Rattle.fp_plane.specs.Telling.{begun, has_begun, has_ended};
ghost use Rattle.fp_slots.specs.declared.slots.Step.TheVariants.{Begin};

use fp_disk::Disk;
use fp_group_commit::Store;
use fp_log::{Event, tell};
use fp_slots::Step;
use log::Log;

/// What is seen of a store's compactions.
#[derive(Drop, Clone, Copy)]
pub struct Seen {
    /// The generation of the slot that rules.
    pub generation: u64,
    /// Whether one runs.
    pub runs: bool,
}

impl Seen {
    /// What is seen of them now.
    pub fn of<D: Disk>(store: &Store<D>) -> Seen
        // The generation of the slot that rules.
        ensures generation { result.generation ≡ store.now.compaction.generation }
        // Whether a compaction runs.
        ensures runs { IsTrue result.runs ↔ (store.now.compaction.next ≢ Begin) }
    {
        Seen {
            generation: store.generation(),
            runs: !matches!(store.step(), Step::Begin),
        }
    }

    /// Whether one ended since then.
    pub fn has_ended(&self, now: &Seen) -> bool
        ensures { result ≡ has_ended self.now now.now }
    {
        self.generation < now.generation
    }

    /// Whether one began since then, which may have ended already.
    pub fn has_begun(&self, now: &Seen) -> bool
        ensures { result ≡ has_begun self.now now.now }
    {
        self.begun() < now.begun()
    }

    // How many have begun: each that ended, and one that runs.
    fn begun(&self) -> u128
        ensures { result ≡ begun self.now }
    {
        u128::from(self.generation) + u128::from(self.runs)
    }

    /// Tells what began and what ended since then.
    pub fn tell_since<R: Log, D: Disk>(&self, rt: &R, store: &Store<D>) {
        let now = Seen::of(store);
        let revision = store.revision();
        if self.runs && self.has_ended(&now) {
            tell(rt, &Event::CompactionEnded { revision });
        }
        if self.has_begun(&now) {
            tell(rt, &Event::CompactionBegun { revision });
        }
        if !self.runs && self.has_ended(&now) {
            tell(rt, &Event::CompactionEnded { revision });
        }
    }
}
