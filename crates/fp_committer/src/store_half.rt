//! The store's half of a committer.

ghost use Rattle.std.specs.Prelude.{◌≡◌, ◌++◌, [], false};
ghost use Rattle.fp_disk.specs.Crashes.{EachCrash};
ghost use Rattle.fp_recovery.specs.Stands.{StandsFor};
ghost use Rattle.fp_edit.specs.Log.{after_all};
ghost use Rattle.fp_group_commit.specs.Store.{IsFresh, readable_set};
ghost use Rattle.fp_committer.specs.StoreHalf.{KeptBy, new_half, taken_by};
ghost use Rattle.fp_committer.specs.StoreHalf.{way_by};
ghost use Rattle.fp_committer.specs.Way.{nothing_drawn, read_edits};
ghost use Rattle.fp_group_commit.specs.declared.phase.Phase.TheVariants.{Idle};

use crate::half::Half;
use crate::held::{Held, end};
use fp_disk::Disk;
use fp_group_commit::Store;
use std::marker::Model;

/// The store, and the batch that was drawn for it. Whoever holds it by value calls the disk; the
/// desk's half may be held elsewhere, under a lock say.
/// It isn't `Drop`, so that the store comes back by `into_store`.
pub struct StoreHalf<D: Disk> {
    pub(crate) store: Store<D>,
    pub(crate) held: Held,
    pub(crate) half: Half,
}

impl<D: Disk> Model for StoreHalf<D> {
    ghost use Rattle.std.specs.Coded.{codes};
    ghost use Rattle.fp_edit.specs.Flags.{coded_state};
    ghost use Rattle.fp_group_commit.specs.Changes.{coded_change};
    ghost use Rattle.fp_committer.specs.StoreHalf.{IsStoreHalf, StoreHalfState, changes_held};
    ghost use Rattle.fp_committer.specs.StoreHalf.{progress_of};

    ghost Value = { StoreHalfState D };

    ghost coded = { Prim.hlevel (codes, coded_state, coded_change) };

    ghost view = { λ h. record {
      store = h.store;
      progress = progress_of h.held h.store.phase;
      drawn = changes_held h.held h.store;
      half = h.half;
    } };

    ghost invariant = { λ h. IsStoreHalf D.honest D.unsynced h.held h.store h.half };
}

impl<D: Disk> StoreHalf<D> {
    // A store as it was made or opened, of which nothing was drawn.
    pub(crate) fn new(store: Store<D>, half: Half) -> StoreHalf<D>
        requires fresh { IsFresh store store.store.start }
        requires none { (half.all ≡ []) × (half.settled ≡ []) }
        ensures { result ≡ new_half store half }
    {
        let _ = store.phase();
        StoreHalf {
            store,
            held: Held::Nothing,
            half,
        }
    }

    /// Lends the store.
    pub fn store(&self) -> &Store<D>
        ensures store { result.now ≡ self.now.store }
    {
        &self.store
    }

    /// Shows what a crash leaves now: all that is settled, and perhaps what is drawn. Does nothing
    /// when it runs.
    pub fn rest(&self)
        // All that was drawn is what is settled, and behind it what is drawn now.
        ensures whole { self.now.half.all ≡ self.now.half.settled ++ self.now.drawn }
        // H: any crash state stands for the set after some first edits that were drawn, all that
        // are settled among them.
        ensures exit { EachCrash D.Disk self.now.store.disk (KeptBy self.now) }
        // With nothing drawn no batch is on its way, and what is sealed is what is settled.
        ensures idle { self.now.progress ≡ nothing_drawn → (self.now.store.phase ≡ Idle)
            × (self.now.drawn ≡ []) × (self.now.store.sealed ≡ self.now.half.settled) }
    {
        let _ = &self.held;
    }

    /// Gives the store back. What is drawn and isn't settled is told to nobody.
    pub fn into_store(self) -> Store<D>
        ensures store { result ≡ self.store }
    {
        let StoreHalf {
            store,
            held,
            half: _,
        } = self;
        end(held);
        store
    }

    /// Gives the disk back.
    pub fn into_disk(self) -> D
        ensures disk { result ≡ self.store.disk }
        // H: any crash state stands for the set after some first edits that were drawn, all that
        // are settled among them.
        ensures outcomes { EachCrash D.Disk result (KeptBy self) }
        // H: where no call failed, a read gives what is sealed, with the batch on its way exactly
        // where its gate was opened.
        ensures reads { D.honest result → self.store.failed ≡ false →
            StandsFor (D.bytes result) (readable_set self.store) }
        // H: the same by what was drawn: where no call failed, a read gives what is settled, and
        // what is drawn exactly once its gate was opened.
        ensures stands { D.honest result → self.store.failed ≡ false →
            StandsFor (D.bytes result)
            (after_all self.store.store.start (read_edits (taken_by self) (way_by self))) }
    {
        let StoreHalf {
            store,
            held,
            half: _,
        } = self;
        end(held);
        store.into_disk()
    }
}
