//! Beginnings of a store's sealed edits.

ghost use Rattle.std.specs.Prelude.{◌≡◌, List, [], ◌∷◌};
ghost use mathlib.Core.List.{IsPrefix};
ghost use Rattle.fp_edit.specs.Edits.{Change};

use fp_edit::{Edit, FlagSet};
use fp_fronts::{Front, Growing, Lists};
use std::marker::Model;

/// A set as an element of a list that is there in proofs alone.
#[derive(Drop)]
pub(crate) struct Start {
    set: FlagSet,
}

impl Model for Start {
    ghost use Rattle.fp_edit.specs.Flags.{State, coded_state};

    ghost Value = { State };

    ghost coded = { coded_state };

    ghost view = { λ s. s.set };
}

struct OneSet;

impl Lists<FlagSet, Start> for OneSet {
    ghost items = { λ s. s ∷ [] };
}

/// The set that a store started from. It has no bytes.
#[derive(Drop)]
pub(crate) struct Origin {
    front: Front<Start>,
}

impl Model for Origin {
    ghost use Rattle.fp_edit.specs.Flags.{State, coded_state};
    ghost use Rattle.fp_group_commit.specs.Tokens.{first_of};

    ghost Value = { State };

    ghost coded = { coded_state };

    ghost view = { λ o. first_of o.front.log };
}

impl Origin {
    /// This set.
    pub fn of(set: &FlagSet) -> Origin
        ensures { result ≡ set.now }
    {
        let (mut list, _) = Growing::<Start>::new();
        Origin {
            front: list.lengthen::<FlagSet, OneSet>(set),
        }
    }

    /// The same once more.
    pub fn again(&self) -> Origin
        ensures { result ≡ self.now }
    {
        Origin {
            front: self.front.again(),
        }
    }
}

/// An edit as an element of the list of sealed edits: what it changed.
#[derive(Drop)]
pub(crate) struct Applied {
    edit: Edit,
}

impl Model for Applied {
    ghost use Rattle.fp_edit.specs.Edits.{Change};
    ghost use Rattle.fp_edit.specs.Following.{change_of};
    ghost use Rattle.fp_group_commit.specs.Changes.{coded_change};

    ghost Value = { Change };

    ghost coded = { coded_change };

    ghost view = { λ a. change_of a.edit };
}

/// A beginning of a store's sealed edits. It has no bytes.
#[derive(Drop)]
pub struct Part {
    origin: Origin,
    front: Front<Applied>,
}

impl Model for Part {
    ghost use Rattle.std.specs.Coded.{codes};
    ghost use Rattle.fp_edit.specs.Flags.{coded_state};
    ghost use Rattle.fp_group_commit.specs.Changes.{coded_change};
    ghost use Rattle.fp_group_commit.specs.Tokens.{FrontState};

    ghost Value = { FrontState };

    ghost coded = { Prim.hlevel (codes, coded_state, coded_change) };

    ghost view = { λ p. record {
      store = record { name = p.front.name; start = p.origin };
      edits = p.front.log;
    } };
}

impl Part {
    pub(crate) fn new(origin: Origin, front: Front<Applied>) -> Part
        ensures { result ≡ record {
          store = record { name = front.name; start = origin };
          edits = front.log;
        } }
    {
        Part { origin, front }
    }

    pub(crate) fn front(&self) -> &Front<Applied>
        ensures { (result.now.name ≡ self.now.store.name) × (result.now.log ≡ self.now.edits) }
    {
        &self.front
    }

    /// The same once more.
    pub fn again(&self) -> Part
        ensures { result ≡ self.now }
    {
        Part {
            origin: self.origin.again(),
            front: self.front.again(),
        }
    }

    /// Shows that some list begins with both, so that the shorter begins the longer. Does nothing
    /// when it runs.
    pub fn meets(&self, other: &Part)
        // Both are of one store.
        requires { other.now.store ≡ self.now.store }
        ensures { (whole : List Change) × IsPrefix self.now.edits whole
            × IsPrefix other.now.edits whole }
    {
        self.front.meets(&other.front)
    }
}
