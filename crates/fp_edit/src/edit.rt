//! Edits of a set of flags.

ghost use Rattle.std.specs.Prelude.{◌≡◌, IfOk};
ghost use Rattle.fp_edit.specs.Edits.{proposal_of};
ghost use Rattle.fp_edit.specs.Following.{change_of, unconditional};

use crate::changes::Changes;
use fp_definition::{Definition, FlagKey};
use std::alloc::AllocError;
use thiserror::Error;

/// The first number that is no revision: revisions are 1 to 2^63 - 1.
pub const REVISIONS_END: u64 = 0x8000_0000_0000_0000;

/// What has to stand at an edit's key for the edit to be made.
#[derive(Debug, Clone, Copy, PartialEq, Eq)]
pub enum Expect {
    /// Anything or nothing.
    Any,
    /// No flag.
    Absent,
    /// A flag that this revision changed last.
    At(u64),
}

/// One of the changes that are made together, and what its editor expects to find there.
#[derive(Drop)]
pub enum Change {
    /// The key's flag gets this definition.
    Put {
        key: FlagKey,
        flag: Definition,
        expect: Expect,
    },
    /// The key's flag goes.
    Delete {
        key: FlagKey,
        expect: Expect,
    },
}

/// What an editor asks for: a change to one flag, or changes to several under one revision.
#[derive(Drop)]
pub enum Edit {
    /// The key's flag gets this definition.
    Put {
        key: FlagKey,
        flag: Definition,
        expect: Expect,
    },
    /// The key's flag goes.
    Delete {
        key: FlagKey,
        expect: Expect,
    },
    /// All of these are made, or none.
    Set(Changes),
}

/// Why an edit isn't made, in the order of the tests.
#[derive(Debug, Clone, Copy, Error)]
pub enum EditFault {
    /// The key isn't as expected: `current` is the revision that changed its flag last, `None`
    /// where there is no flag.
    #[error("the key isn't as expected")]
    Conflict { current: Option<u64> },
    /// The same of the key of a change in a set: `at` is the change's place, from 0 on, and the first
    /// of which this is so.
    #[error("the key of change {at} isn't as expected")]
    ConflictIn { at: usize, current: Option<u64> },
    /// The set would have too many flags, or too large an image.
    #[error("the set would grow too large")]
    SetTooLarge,
    /// The set is at the greatest revision.
    #[error("all revisions are used")]
    RevisionsUsed,
    /// Memory ran out.
    #[error("memory ran out")]
    Memory,
}

impl From<Change> for Edit {
    ghost use Rattle.std.specs.Prelude.{◌≡◌};
    ghost use Rattle.fp_edit.specs.Edits.{proposal_of, single};
    ghost use Rattle.fp_edit.specs.Parts.{proposed_of};

    ghost from_gives = { λ change edit. proposal_of edit ≡ single (proposed_of change) };

    fn from(change: Change) -> Edit {
        match change {
            Change::Put { key, flag, expect } => Edit::Put { key, flag, expect },
            Change::Delete { key, expect } => Edit::Delete { key, expect },
        }
    }
}

impl Edit {
    /// The same change by an editor that expects nothing.
    pub fn unconditional(self) -> Edit
        ensures { proposal_of result ≡ unconditional (change_of self) }
    {
        let expect = Expect::Any;
        match self {
            Edit::Put { key, flag, .. } => Edit::Put { key, flag, expect },
            Edit::Delete { key, .. } => Edit::Delete { key, expect },
            Edit::Set(changes) => Edit::Set(changes.unconditional()),
        }
    }

    /// An equal edit, which shares the definitions.
    pub fn try_copy(&self) -> Result<Edit, AllocError>
        ensures { IfOk result (λ copy. proposal_of copy ≡ proposal_of self.now) }
    {
        match self {
            Edit::Put { key, flag, expect } => Ok(Edit::Put {
                key: key.try_copy()?,
                flag: flag.try_copy()?,
                expect: *expect,
            }),
            Edit::Delete { key, expect } => Ok(Edit::Delete {
                key: key.try_copy()?,
                expect: *expect,
            }),
            Edit::Set(changes) => Ok(Edit::Set(changes.try_copy()?)),
        }
    }
}
