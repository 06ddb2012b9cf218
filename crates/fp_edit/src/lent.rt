//! The parts of an edit, lent one by one: what is done to one flag each.

ghost use Rattle.std.specs.Prelude.{◌≡◌, ◌<◌, ◌^◌, ℕ, length, get_or, is_some, true};
ghost use Rattle.std.specs.List.{AllByRecursion};
ghost use Rattle.fp_edit.specs.Edits.{proposal_of};
ghost use Rattle.fp_edit.specs.Flags.{cost_found};
ghost use Rattle.fp_edit.specs.Lent.{AreApart, conflict_at, left_at, lent, lent_by, lent_parts};
ghost use Rattle.fp_edit.specs.Lent.{proposed};
ghost use Rattle.fp_edit.specs.Parts.{any_put, is_put, part_key, proposed_of};

use crate::edit::{Change, Edit, EditFault, Expect};
use fp_definition::{Definition, FlagKey};
use fp_documents::cost_of;

/// A change to one flag, lent by whoever has it.
#[derive(Clone, Copy)]
pub struct LentPart<'a> {
    pub key: &'a FlagKey,
    /// `None` where the key's flag goes.
    pub flag: Option<&'a Definition>,
    pub expect: Expect,
}

/// The parts of an edit: its only one, or those of a change set.
#[derive(Clone, Copy)]
pub enum EditParts<'a> {
    One(LentPart<'a>),
    Set(&'a [Change]),
}

impl<'a> LentPart<'a> {
    #[inline(always)]
    pub(crate) fn new(change: &'a Change) -> LentPart<'a>
        ensures { lent result ≡ proposed_of change.now }
    {
        match change {
            Change::Put { key, flag, expect } => LentPart {
                key,
                flag: Some(flag),
                expect: *expect,
            },
            Change::Delete { key, expect } => LentPart {
                key,
                flag: None,
                expect: *expect,
            },
        }
    }

    /// What its key's flag takes in an image behind it.
    #[inline(always)]
    pub fn cost(self) -> u128
        // The bytes of the flag that it puts, whichever revision marks that; 0 where it puts none.
        ensures cost { (revision : ℕ) → result
            ≡ cost_found (part_key (lent self.entry).part)
            (left_at revision (lent self.entry).part) }
        // Below 2^66.
        ensures small { result < 2 ^ 66 }
    {
        match self.flag {
            Some(flag) => cost_of(self.key, flag),
            None => 0,
        }
    }
}

impl<'a> EditParts<'a> {
    /// Those of this edit.
    #[inline(always)]
    pub fn new(edit: &'a Edit) -> EditParts<'a>
        // Together they propose what the edit does.
        ensures same { lent_by result ≡ proposal_of edit.now }
        // They are 64 at most, each of another key.
        ensures lawful { AreApart (lent_parts result) }
    {
        match edit {
            Edit::Put { key, flag, expect } => EditParts::One(LentPart {
                key,
                flag: Some(flag),
                expect: *expect,
            }),
            Edit::Delete { key, expect } => EditParts::One(LentPart {
                key,
                flag: None,
                expect: *expect,
            }),
            Edit::Set(changes) => EditParts::Set(changes.as_slice()),
        }
    }

    /// How many they are.
    #[inline(always)]
    pub fn len(self) -> usize
        ensures { result ≡ length (lent_parts self.entry) }
    {
        match self {
            EditParts::One(_) => 1,
            EditParts::Set(changes) => changes.len(),
        }
    }

    /// The part at this place, from 0 on.
    #[inline(always)]
    pub fn lend(self, i: usize) -> LentPart<'a>
        // There are more parts than that.
        requires { i < length (lent_parts self) }
        // It proposes what stands there of what all of them propose.
        ensures proposed { lent result ≡ get_or (proposed (lent_by self.entry)) i (lent result) }
        // It changes what stands there of what all of them change.
        ensures part { (lent result).part ≡ get_or (lent_parts self.entry) i (lent result).part }
    {
        match self {
            EditParts::One(part) => part,
            EditParts::Set(changes) => LentPart::new(&changes[i]),
        }
    }

    /// Whether one of them puts a flag.
    pub fn puts_any(self) -> bool
        ensures { result ≡ any_put (lent_parts self.entry) }
    {
        for i in 0..self.len() {
            if self.lend(i).flag.is_some() {
                return true;
            }
        }
        false
    }

    /// Whether each of them puts a flag.
    pub fn puts_all(self) -> bool
        // Where it is so; of `false` nothing is said.
        ensures { result ≡ true → AllByRecursion (λ p. is_put p ≡ true)
            (lent_parts self.entry) }
    {
        for i in 0..self.len() {
            if self.lend(i).flag.is_none() {
                return false;
            }
        }
        true
    }

    /// The fault of an edit where the key of the part at this place isn't as expected.
    pub(crate) fn conflict(self, at: usize, current: Option<u64>) -> EditFault
        ensures { result ≡ conflict_at (lent_by self.entry) at current }
    {
        match self {
            EditParts::One(_) => EditFault::Conflict { current },
            EditParts::Set(_) => EditFault::ConflictIn { at, current },
        }
    }
}
