//! A store's half that a plane owns and lets go of with its last handle.

ghost use Rattle.std.specs.Prelude.{◌≡◌, ◌+◌, length};

use fp_committer::StoreHalf;
use fp_disk::Disk;
use std::marker::Model;

/// A store's half whose disk is let go of where it is let go of, so that a thread may be handed one.
pub struct OwnHalf<D: Disk + Drop> {
    half: StoreHalf<D>,
}

impl<D: Disk + Drop> Model for OwnHalf<D> {
    ghost use Rattle.std.specs.Coded.{codes};
    ghost use Rattle.fp_edit.specs.Flags.{coded_state};
    ghost use Rattle.fp_group_commit.specs.Changes.{coded_change};
    ghost use Rattle.fp_committer.specs.StoreHalf.{StoreHalfState};

    ghost Value = { StoreHalfState D };

    ghost coded = { Prim.hlevel (codes, coded_state, coded_change) };

    ghost view = { λ h. h.half };
}

impl<D: Disk + Drop> Drop for OwnHalf<D> {
    fn drop(self) {
        drop(self.into_half().into_disk());
    }
}

impl<D: Disk + Drop> OwnHalf<D> {
    /// Owns the half, whose disk is let go of with it, so that a thread may be handed one.
    pub fn new(half: StoreHalf<D>) -> OwnHalf<D>
        ensures { result ≡ half }
    {
        OwnHalf { half }
    }

    /// The last revision that is sealed.
    pub fn revision(&self) -> u64
        ensures { result ≡ self.now.store.store.start.revision + length self.now.store.sealed }
    {
        self.half.store().revision()
    }

    /// Gives the half back.
    pub fn into_half(self) -> StoreHalf<D>
        ensures { result ≡ self }
    {
        let Self { half } = self;
        half
    }
}
