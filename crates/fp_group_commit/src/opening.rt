//! The set that a store begins with.

ghost use Rattle.std.specs.Prelude.{◌≡◌, ◌<◌, ◌^◌, []};

use crate::part::Part;
use fp_edit::FlagSet;
use std::marker::Model;

/// The set that a store was made or opened with. It has the force of a receipt for it.
#[derive(Drop)]
pub struct Opening {
    pub(crate) set: FlagSet,
    pub(crate) part: Part,
}

impl Model for Opening {
    ghost use Rattle.std.specs.Coded.{codes};
    ghost use Rattle.std.specs.Prelude.{◌≡◌, []};
    ghost use Rattle.fp_edit.specs.Flags.{coded_state};
    ghost use Rattle.fp_group_commit.specs.Tokens.{Identity};

    ghost Value = { Identity };

    ghost coded = { Prim.hlevel (codes, coded_state) };

    ghost view = { λ o. o.part.store };

    ghost invariant = { λ o. (o.set ≡ o.part.store.start) × (o.part.edits ≡ []) };
}

impl Opening {
    pub(crate) fn new(set: FlagSet, part: Part) -> Opening
        requires { (set ≡ part.store.start) × (part.edits ≡ []) }
        ensures { result ≡ part.store }
    {
        Opening { set, part }
    }

    /// The set that the store began with.
    pub fn set(&self) -> &FlagSet
        ensures { result.now ≡ self.now.start }
    {
        &self.set
    }

    /// The revision of that set.
    pub fn revision(&self) -> u64
        ensures revision { result ≡ self.now.start.revision }
        // It is below 2^63.
        ensures bounded { result < 2 ^ 63 }
    {
        self.set.revision()
    }
}
