//! Changes that are made together, under one revision.

ghost use Rattle.std.specs.Prelude.{◌≡◌, ◌+◌, ◌≤◌, [], None, Some, length, map, nat_le, true};
ghost use Rattle.std.specs.Prelude.{◌<◌, IfOk, IfErr, OnErr};
ghost use Rattle.fp_definition.specs.Key.{key_bytes};
ghost use Rattle.fp_edit.specs.Changes.{are_distinct, is_among, is_count, part_len, set_fault};
ghost use Rattle.fp_edit.specs.Changes.{set_len};
ghost use Rattle.fp_edit.specs.Keys.{AreMet};
ghost use Rattle.fp_edit.specs.Parts.{free, keys_of, part_key, parts_of, proposed_of};

use crate::edit::{Change, Expect};
use crate::keys::MetKeys;
use fp_definition::{Definition, FlagKey};
use std::alloc::{AllocError, Global};
use std::marker::Model;
use thiserror::Error;

/// The most changes that are made together.
pub const MOST_CHANGES: usize = 64;

/// The most bytes that an edit takes in a batch.
pub const LONGEST_EDIT: usize = 32_752;

/// How many bytes a put takes in a batch beside its key and its definition: its kind, and their
/// lengths.
pub const PUT_FRAME: usize = 7;

/// How many bytes a deletion takes in a batch beside its key: its kind, and the key's length.
pub const DELETE_FRAME: usize = 3;

/// How many bytes a set takes in a batch beside its changes: its kind, and their number.
pub const SET_FRAME: usize = 3;

/// Why changes can't be made together, in the order of the tests.
#[derive(Debug, Clone, Copy, Error)]
pub enum SetFault {
    /// There is none, or there are too many.
    #[error("a set has 1 to {MOST_CHANGES} changes")]
    BadCount,
    /// Two are of one key.
    #[error("two changes of a set are of one key")]
    RepeatedKey,
    /// In a batch they would take too many bytes.
    #[error("a set takes {LONGEST_EDIT} bytes at most")]
    TooLong,
}

/// Changes to 1 to 64 flags, all different ones, that are made together.
#[derive(Drop)]
pub struct Changes {
    changes: Vec<Change>,
}

impl Model for Changes {
    ghost use Rattle.std.specs.Prelude.{◌≡◌, List, None, map};
    ghost use Rattle.fp_edit.specs.Changes.{set_fault};
    ghost use Rattle.fp_edit.specs.Parts.{ProposedPart, parts_of, proposed_of};

    ghost Value = { List ProposedPart };

    ghost view = { λ a. map proposed_of a.changes.items };

    ghost invariant = { λ a. set_fault (parts_of (map proposed_of a.changes.items)) ≡ None };
}

impl Changes {
    /// These changes, in this order, as a change set. It's tested that they are 1 to 64, of
    /// different keys, and at most 32,752 bytes in a batch.
    pub fn new(changes: Vec<Change>) -> Result<Changes, (SetFault, Vec<Change>)>
        // `Ok`: the set has these changes.
        ensures made { IfOk result (λ c. c ≡ map proposed_of changes.items) }
        // `Ok`: they lack nothing that a set has to meet.
        ensures lawful { IfOk result (λ c. set_fault (parts_of c) ≡ None) }
        // `Err`: the first that they lack: `BadCount`, `RepeatedKey` or `TooLong`.
        ensures refused { IfErr result
            (λ e. set_fault (parts_of (map proposed_of changes.items)) ≡ Some e.0) }
        // An `Err` gives the changes back.
        ensures given_back { IfErr result (λ e. e.1 ≡ changes) }
    {
        match fault_of(*changes.allocator(), &changes) {
            Some(fault) => Err((fault, changes)),
            None => Ok(Changes { changes }),
        }
    }

    /// The same of changes known to lack nothing, without a test.
    pub fn of_lawful(changes: Vec<Change>) -> Changes
        // They lack nothing that a set has to meet.
        requires { set_fault (parts_of (map proposed_of changes.items)) ≡ None }
        ensures { result ≡ map proposed_of changes.items }
    {
        Changes { changes }
    }

    /// The changes in their order.
    pub fn as_slice(&self) -> &[Change]
        ensures changes { map proposed_of result.now ≡ self.now }
        // They lack nothing that a set has to meet.
        ensures lawful { set_fault (parts_of self.now) ≡ None }
    {
        &self.changes
    }

    /// The changes by value, in their order.
    pub fn into_changes(self) -> Vec<Change>
        ensures changes { map proposed_of result.items ≡ self }
        // They lack nothing that a set has to meet.
        ensures lawful { set_fault (parts_of self) ≡ None }
    {
        self.changes
    }

    /// How many bytes the set takes in a batch.
    pub fn encoded_len(&self) -> usize
        ensures len { result ≡ set_len (parts_of self.now) }
        // At most `LONGEST_EDIT`.
        ensures small { result ≤ LONGEST_EDIT }
    {
        let mut len = SET_FRAME;
        for change in self.changes.iter() {
            len += change.encoded_len();
        }
        len
    }

    /// Equal changes, which share the definitions.
    pub fn try_copy(&self) -> Result<Changes, AllocError>
        ensures { IfOk result (λ copy. copy ≡ self.now) }
    {
        let mut changes = Vec::with_capacity(*self.changes.allocator(), self.changes.len())?;
        for change in self.changes.iter() {
            changes.push(change.try_copy()?)?;
        }
        Ok(Changes { changes })
    }

    /// The same changes, whatever their editor expected.
    pub fn unconditional(self) -> Changes
        ensures { result ≡ map free (parts_of self) }
    {
        let mut changes = self.changes;
        for change in changes.iter_mut() {
            change.forget();
        }
        Changes { changes }
    }
}

impl Change {
    /// The key whose flag it changes.
    pub fn key(&self) -> &FlagKey
        ensures { key_bytes result.now ≡ part_key (proposed_of self.now).part }
    {
        match self {
            Change::Put { key, .. } => key,
            Change::Delete { key, .. } => key,
        }
    }

    /// How many bytes it takes in a batch, as of `put_len` or `delete_len`.
    pub fn encoded_len(&self) -> usize
        ensures { result ≡ part_len (proposed_of self.now).part }
    {
        match self {
            Change::Put { key, flag, .. } => put_len(key, flag),
            Change::Delete { key, .. } => delete_len(key),
        }
    }

    /// An equal change, which shares the definition.
    pub fn try_copy(&self) -> Result<Change, AllocError>
        ensures { IfOk result (λ copy. proposed_of copy ≡ proposed_of self.now) }
    {
        match self {
            Change::Put { key, flag, expect } => Ok(Change::Put {
                key: key.try_copy()?,
                flag: flag.try_copy()?,
                expect: *expect,
            }),
            Change::Delete { key, expect } => Ok(Change::Delete {
                key: key.try_copy()?,
                expect: *expect,
            }),
        }
    }

    // Forgets what its editor expected.
    fn forget(&mut self)
        ensures { proposed_of self.new ≡ free (proposed_of self.old).part }
    {
        match self {
            Change::Put { expect, .. } => *expect = Expect::Any,
            Change::Delete { expect, .. } => *expect = Expect::Any,
        }
    }
}

/// How many bytes a put takes in a batch: `PUT_FRAME`, and those of its key and its definition.
pub fn put_len(key: &FlagKey, flag: &Definition) -> usize
    ensures { result ≡ PUT_FRAME + length (key_bytes key.now) + length flag.now }
{
    PUT_FRAME + key.as_str().len() + flag.text().len()
}

/// How many bytes a deletion takes in a batch: `DELETE_FRAME`, and those of its key.
pub fn delete_len(key: &FlagKey) -> usize
    ensures { result ≡ DELETE_FRAME + length (key_bytes key.now) }
{
    DELETE_FRAME + key.as_str().len()
}

/// Whether so many changes may be made together.
pub(crate) fn is_count(count: usize) -> bool
    ensures { result ≡ is_count count }
{
    1 <= count && count <= MOST_CHANGES
}

// What the changes lack to be made together, if anything.
fn fault_of(alloc: Global, changes: &[Change]) -> Option<SetFault>
    ensures { result ≡ set_fault (parts_of (map proposed_of changes.now)) }
{
    if !is_count(changes.len()) {
        return Some(SetFault::BadCount);
    }
    if !are_distinct(alloc, changes) {
        return Some(SetFault::RepeatedKey);
    }
    if !is_short(changes) {
        return Some(SetFault::TooLong);
    }
    None
}

// Whether a change is of this key.
fn is_among(key: &FlagKey, changes: &[Change]) -> bool
    ensures { result ≡ is_among (key_bytes key.now) (keys_of changes.now) }
{
    for change in changes {
        if key.as_str() == change.key().as_str() {
            return true;
        }
    }
    false
}

// Whether no two are of one key. Where there is no memory to note the keys, each is compared with all
// behind it.
fn are_distinct(alloc: Global, changes: &[Change]) -> bool
    ensures { result ≡ are_distinct (keys_of changes.now) }
{
    match meet_all(&mut MetKeys::new(alloc), changes) {
        Ok(are_distinct) => are_distinct,
        Err(_) => differ(changes),
    }
}

// Meets the keys of the changes, the last one first, up to one that was met before; answers whether
// there is none.
fn meet_all<'a>(met: &mut MetKeys<'a>, changes: &'a [Change]) -> Result<bool, AllocError>
    requires { met.old ≡ [] }
    ensures distinct { IfOk result (λ all. all ≡ are_distinct (keys_of changes.now)) }
    ensures met { IfOk result (λ all. all ≡ true → AreMet met.new (keys_of changes.now)) }
    ensures memory { OnErr result (0 < length changes.now) }
{
    let Some((change, rest)) = changes.split_first() else {
        return Ok(true);
    };
    if !meet_all(met, rest)? {
        return Ok(false);
    }
    met.meet(change.key().as_str())
}

fn differ(changes: &[Change]) -> bool
    ensures { result ≡ are_distinct (keys_of changes.now) }
{
    for i in 0..changes.len() {
        if is_among(changes[i].key(), &changes[i + 1..]) {
            return false;
        }
    }
    true
}

// Whether they take no more bytes in a batch than an edit may.
fn is_short(changes: &[Change]) -> bool
    ensures { result ≡ nat_le (set_len (parts_of (map proposed_of changes.now))) LONGEST_EDIT }
{
    let mut left = LONGEST_EDIT - SET_FRAME;
    for change in changes {
        let len = change.encoded_len();
        if len > left {
            return false;
        }
        left -= len;
    }
    true
}
