//! What of a store's edits is told.

ghost use Rattle.std.specs.Prelude.{◌≡◌, ◌<◌, ◌+◌, ◌++◌, []};
ghost use Rattle.fp_edit.specs.Following.{changes_of};
ghost use Rattle.fp_group_commit.specs.Tokens.{EndsWith, front_of, front_revision};

use crate::opening::Opening;
use crate::part::Part;
use crate::receipt::Receipt;
use fp_edit::{Edit, FlagSet};
use std::alloc::Global;
use std::marker::Model;

/// The right to tell what is settled. It comes from an opening, and goes on by receipts alone.
#[derive(Drop)]
pub struct Settled {
    revision: u64,
    part: Part,
    last: Vec<Edit>,
}

impl Model for Settled {
    ghost use Rattle.std.specs.Coded.{codes};
    ghost use Rattle.std.specs.Prelude.{◌≡◌};
    ghost use Rattle.fp_edit.specs.Flags.{coded_state};
    ghost use Rattle.fp_edit.specs.Following.{changes_of};
    ghost use Rattle.fp_group_commit.specs.Changes.{coded_change};
    ghost use Rattle.fp_group_commit.specs.Tokens.{EndsWith, SettledState, front_revision};

    ghost Value = { SettledState };

    ghost coded = { Prim.hlevel (codes, coded_state, coded_change) };

    ghost view = { λ s. record {
      store = s.part.store;
      edits = s.part.edits;
      last = changes_of s.last.items;
    } };

    ghost invariant = { λ s. (s.revision ≡ front_revision s.part)
        × EndsWith s.part.edits (changes_of s.last.items) };
}

/// That these edits are settled.
#[derive(Drop)]
pub struct Told {
    revision: u64,
    part: Part,
}

impl Model for Told {
    ghost use Rattle.std.specs.Coded.{codes};
    ghost use Rattle.std.specs.Prelude.{◌≡◌};
    ghost use Rattle.fp_edit.specs.Flags.{coded_state};
    ghost use Rattle.fp_group_commit.specs.Changes.{coded_change};
    ghost use Rattle.fp_group_commit.specs.Tokens.{FrontState, front_revision};

    ghost Value = { FrontState };

    ghost coded = { Prim.hlevel (codes, coded_state, coded_change) };

    ghost view = { λ s. s.part };

    ghost invariant = { λ s. s.revision ≡ front_revision s.part };
}

impl Told {
    /// The last revision that is settled.
    pub fn revision(&self) -> u64
        ensures { result ≡ front_revision self.now }
    {
        self.revision
    }

    /// The beginning of the store's sealed edits that it tells of. It has no bytes, and of two
    /// one begins the other (`meets`).
    pub fn part(&self) -> &Part
        ensures { result.now ≡ self.now }
    {
        &self.part
    }
}

impl Settled {
    /// Spends an opening for the right to tell what is settled, and gives its set.
    pub fn of(alloc: Global, opening: Opening) -> (FlagSet, Settled)
        // The set is the one that the store began with.
        ensures set { result.0 ≡ opening.start }
        // Nothing of the opening's store is settled yet.
        ensures settled { (result.1.store ≡ opening) × (result.1.edits ≡ [])
            × (result.1.last ≡ []) }
    {
        let Opening { set, part } = opening;
        let settled = Settled {
            revision: set.revision(),
            part,
            last: Vec::new(alloc),
        };
        (set, settled)
    }

    /// Gives back the opening that it came from, where nothing was settled.
    pub fn into_opening(self, set: FlagSet) -> Opening
        // Nothing was settled.
        requires nothing { self.edits ≡ [] }
        // This is the set that the opening had.
        requires set { set ≡ self.store.start }
        ensures { result ≡ self.store }
    {
        Opening::new(set, self.part)
    }

    /// The last revision that is settled.
    pub fn revision(&self) -> u64
        ensures { result ≡ front_revision (front_of self.now) }
    {
        self.revision
    }

    /// Spends a receipt for the batch that comes next: its edits are settled, and are those that
    /// `last_batch` lends.
    pub fn advance(&mut self, receipt: Receipt)
        // The receipt is of this store.
        requires store { receipt.store ≡ self.old.store }
        // The receipt's batch begins with the revision behind what is settled.
        requires next { receipt.batch.first ≡ front_revision (front_of self.old) + 1 }
        // It is the same store.
        ensures store { self.new.store ≡ self.old.store }
        // The batch stands behind what was settled.
        ensures edits { self.new.edits ≡ self.old.edits ++ receipt.batch.changes }
        // What is settled is all that the receipt names.
        ensures all { self.new.edits ≡ receipt.edits }
        // The batch is the one that came last.
        ensures last { self.new.last ≡ receipt.batch.changes }
    {
        let Receipt { draw, part } = receipt;
        self.part.meets(&part);
        self.revision += draw.edits.len() as u64;
        self.part = part;
        self.last = draw.edits;
    }

    /// The edits of the batch that came last, none at first.
    pub fn last_batch(&self) -> &[Edit]
        ensures last { changes_of result.now ≡ self.now.last }
        // What is settled ends with them.
        ensures ends { EndsWith self.now.edits (changes_of result.now) }
    {
        &self.last
    }

    /// Tells what is settled, with its last revision.
    pub fn tell(&self) -> Told
        ensures { result ≡ front_of self.now }
    {
        Told {
            revision: self.revision,
            part: self.part.again(),
        }
    }
}
