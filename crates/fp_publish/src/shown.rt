//! Tokens of what was shown.

ghost use Rattle.std.specs.Prelude.{◌≡◌, ◌<◌, ◌++◌, ◌↔◌, length, IsTrue, MatchBool};
ghost use mathlib.Core.List.{IsPrefix};
ghost use Rattle.fp_edit.specs.Following.{changes_of};
ghost use Rattle.fp_group_commit.specs.Tokens.{EndsWith, front_revision};

use fp_edit::Edit;
use fp_group_commit::{Part, Told};
use std::marker::Model;

/// That readers are shown these edits, or more.
#[derive(Drop)]
pub struct Shown {
    revision: u64,
    front: Part,
}

impl Model for Shown {
    ghost use Rattle.std.specs.Coded.{codes};
    ghost use Rattle.std.specs.Prelude.{◌≡◌};
    ghost use Rattle.fp_edit.specs.Flags.{coded_state};
    ghost use Rattle.fp_group_commit.specs.Changes.{coded_change};
    ghost use Rattle.fp_group_commit.specs.Tokens.{FrontState, front_revision};

    ghost Value = { FrontState };

    ghost coded = { Prim.hlevel (codes, coded_state, coded_change) };

    ghost view = { λ s. s.front };

    ghost invariant = { λ s. s.revision ≡ front_revision s.front };
}

impl Shown {
    pub(crate) fn new(revision: u64, front: Part) -> Shown
        requires { revision ≡ front_revision front }
        ensures { result ≡ front }
    {
        Shown { revision, front }
    }

    // What will be shown of what is told.
    pub(crate) fn of(told: &Told) -> Shown
        ensures { result ≡ told.now }
    {
        Shown::new(told.revision(), told.part().again())
    }

    /// The last revision of these edits.
    pub fn revision(&self) -> u64
        ensures { result ≡ front_revision self.now }
    {
        self.revision
    }

    /// The same once more. It takes no memory.
    pub fn again(&self) -> Shown
        ensures { result ≡ self.now }
    {
        Shown::new(self.revision, self.front.again())
    }

    pub(crate) fn front(&self) -> Part
        ensures { result ≡ self.now }
    {
        self.front.again()
    }

    /// Whether this is behind the other. Where it isn't, it goes on from it.
    pub fn is_behind(&self, other: &Shown) -> bool
        // Both are of one store.
        requires { self.now.store ≡ other.now.store }
        // The edits of the one that is behind are the first of the other's.
        ensures { MatchBool result
            (IsPrefix self.now.edits other.now.edits
            × (length self.now.edits < length other.now.edits))
            (IsPrefix other.now.edits self.now.edits) }
    {
        self.front.meets(&other.front);
        self.revision < other.revision
    }

    /// Whether both are of the same edits, of one store.
    pub fn is_same(&self, other: &Shown) -> bool
        // Both are of one store.
        requires { self.now.store ≡ other.now.store }
        ensures { IsTrue result ↔ (self.now ≡ other.now) }
    {
        self.front.meets(&other.front);
        self.revision == other.revision
    }

    // Whether the other is this one with these edits behind it.
    pub(crate) fn is_just_before(&self, other: &Shown, last: &[Edit]) -> bool
        requires store { self.now.store ≡ other.now.store }
        requires last { EndsWith other.now.edits (changes_of last.now) }
        ensures { IsTrue result → other.now.edits ≡ self.now.edits ++ changes_of last.now }
    {
        self.front.meets(&other.front);
        self.revision <= other.revision && other.revision - self.revision == last.len() as u64
    }
}
