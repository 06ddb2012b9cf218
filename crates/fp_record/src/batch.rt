//! Batches: edits under consecutive revisions.

ghost use Rattle.std.specs.Prelude.{◌≡◌, ◌+◌, ◌<◌, ◌≤◌, ◌++◌, ◌⊎◌, length, vec_len, map, IfOk};
ghost use Rattle.std.specs.Prelude.{◌≢◌, IfErr, OnOk, Ok, Err, None};
ghost use Rattle.std.specs.List.{AllByRecursion};
ghost use Rattle.fp_base.specs.Answer.{Gives};
ghost use Rattle.fp_definition.specs.Key.{key_bytes};
ghost use Rattle.fp_edit.specs.Changes.{set_fault};
ghost use Rattle.fp_edit.specs.Edits.{set};
ghost use Rattle.fp_edit.specs.Following.{change_of, changes_of};
ghost use Rattle.fp_edit.specs.Parts.{delete, parts_of, proposed_of, put};
ghost use Rattle.fp_record.specs.Group.{Group};
ghost use Rattle.fp_record.specs.Fields.{Tells};
ghost use Rattle.fp_record.specs.declared.fault.RecordFault.TheVariants.{Memory};
ghost use Rattle.fp_record.specs.WellFormed.{IsBatch, IsChange, IsPart};
ghost use Rattle.fp_record.specs.Reading.{batch_at, batch_in, count_at};
ghost use Rattle.fp_record.specs.Encoding.{encoding_of_batch, encoding_of_change, encoding_of_part};

use crate::edits::edits_from;
use crate::fault::RecordFault;
use crate::fields::{u16_at, u64_at};
use crate::writing::{put_definition, put_key, put_u16, put_u64};
use fp_definition::{Definition, FlagKey};
use fp_edit::{Change, Edit, LONGEST_EDIT, REVISIONS_END, delete_len, put_len};
use std::alloc::{AllocError, Global};
use std::marker::Model;

/// The most edits that a batch has.
pub const MOST_EDITS: usize = 64;

/// How many bytes stand in front of a batch's edits: the first revision, and their number.
pub const BATCH_HEAD: usize = 10;

/// The first byte of an edit that puts a flag.
pub const PUT_KIND: u8 = 1;

/// The first byte of one that deletes a flag.
pub const DELETE_KIND: u8 = 2;

/// The first byte of one that changes several flags.
pub const SET_KIND: u8 = 3;

/// Edits that are written and read together. What their editors expected isn't part of it.
#[derive(Drop)]
pub struct Batch {
    first: u64,
    edits: Vec<Edit>,
}

impl Model for Batch {
    ghost use Rattle.std.specs.Prelude.{◌+◌, ◌<◌, ◌≤◌, length};
    ghost use Rattle.std.specs.List.{AllByRecursion};
    ghost use Rattle.fp_record.specs.Group.{Group};
    ghost use Rattle.fp_edit.specs.Following.{changes_of};
    ghost use Rattle.fp_edit.specs.declared.edit.TheConstants.{REVISIONS_END};
    ghost use Rattle.fp_record.specs.declared.batch.TheConstants.{MOST_EDITS};

    ghost Value = { Group };

    ghost view = { λ a. record { first = a.first; changes = changes_of a.edits.items } };

    ghost invariant = { λ a. (0 < length a.edits.items) × (length a.edits.items ≤ MOST_EDITS)
        × (a.first + length a.edits.items ≤ REVISIONS_END) };
}

impl Batch {
    /// The batch of these edits, whose revisions are `first` and those that follow it.
    pub fn new(first: u64, edits: Vec<Edit>) -> Batch
        // At least one edit.
        requires some { 0 < vec_len edits }
        // At most `MOST_EDITS`, 64.
        requires few { vec_len edits ≤ MOST_EDITS }
        // The last revision is below `REVISIONS_END`, 2^63; the first may be 0.
        requires revisions { first + vec_len edits ≤ REVISIONS_END }
        ensures { result ≡ record { first = first; changes = changes_of edits.items } }
    {
        Batch { first, edits }
    }

    /// The revision of the first edit.
    pub fn first(&self) -> u64
        ensures { result ≡ self.now.first }
    {
        self.first
    }

    /// The edits in the order of their revisions.
    pub fn edits(&self) -> &[Edit]
        ensures { changes_of result.now ≡ self.now.changes }
    {
        &self.edits
    }

    /// The edits by value.
    pub fn into_edits(self) -> Vec<Edit>
        ensures { changes_of result.items ≡ self.changes }
    {
        self.edits
    }

    /// The batch as bytes, for the journal to keep.
    pub fn encode(&self, alloc: Global) -> Result<Vec<u8>, AllocError>
        // `Ok`: the batch is one that has a spelling.
        ensures lawful { IfOk result (λ _. IsBatch self.now) }
        // `Ok`: these bytes are its spelling.
        ensures spelled { IfOk result (λ bytes. bytes.items ≡ encoding_of_batch self.now) }
    {
        spelled(alloc, self.first, &self.edits)
    }

    /// The batch that the bytes spell, all of them.
    pub fn decode(alloc: Global, bytes: &[u8]) -> Result<Batch, RecordFault>
        // `Ok`: a batch that has a spelling, and the bytes are it, to the last.
        ensures spelled { IfOk result (λ batch.
            IsBatch batch × (bytes.now ≡ encoding_of_batch batch)) }
        // Bytes that spell a batch give that batch, or `Memory`.
        ensures found { (batch : Group) → IsBatch batch → bytes.now ≡ encoding_of_batch batch
            → (result ≡ Ok batch) ⊎ (result ≡ Err Memory) }
        // `BadRecord`: at the first byte of the first field that can't stand there; of bytes left
        // over, the first.
        ensures place { Gives (λ batch. batch) Tells result (batch_in bytes.now) }
    {
        whole_batch(alloc, bytes)
    }
}

/// How many bytes an edit takes in a batch, without encoding it.
#[tactic(auto, using(crate::proofs::Texts::definition_short))]
pub fn encoded_len(edit: &Edit) -> usize
    // Of an edit of one flag or of a set: exactly as many as its spelling has.
    ensures len { result ≡ length (encoding_of_change (change_of edit.now)) }
    // At most `LONGEST_EDIT`.
    ensures small { result ≤ LONGEST_EDIT }
{
    match edit {
        Edit::Put { key, flag, .. } => {
            // Since it is canonical, it is no longer than a definition may be.
            let _text = flag.text();
            put_len(key, flag)
        }
        Edit::Delete { key, .. } => delete_len(key),
        Edit::Set(changes) => changes.encoded_len(),
    }
}

#[tactic(auto, unfolding(crate::specs::Encoding::encoding_of_change))]
fn put_edit(out: &mut Vec<u8>, edit: &Edit) -> Result<(), AllocError>
    ensures written { OnOk result
        (out.new.items ≡ out.old.items ++ encoding_of_change (change_of edit.now)) }
    ensures lawful { OnOk result (IsChange (change_of edit.now)) }
{
    match edit {
        Edit::Put { key, flag, .. } => put_put(out, key, flag),
        Edit::Delete { key, .. } => put_delete(out, key),
        Edit::Set(changes) => put_set(out, changes.as_slice()),
    }
}

#[tactic(auto, unfolding(crate::specs::Encoding::encoding_of_part))]
fn put_put(out: &mut Vec<u8>, key: &FlagKey, flag: &Definition) -> Result<(), AllocError>
    ensures written { OnOk result
        (out.new.items ≡ out.old.items ++ encoding_of_part (put (key_bytes key.now) flag.now)) }
    ensures lawful { OnOk result (IsPart (put (key_bytes key.now) flag.now)) }
{
    out.push(PUT_KIND)?;
    put_key(out, key)?;
    put_definition(out, flag)
}

#[tactic(auto, unfolding(crate::specs::Encoding::encoding_of_part))]
fn put_delete(out: &mut Vec<u8>, key: &FlagKey) -> Result<(), AllocError>
    ensures written { OnOk result
        (out.new.items ≡ out.old.items ++ encoding_of_part (delete (key_bytes key.now))) }
    ensures lawful { OnOk result (IsPart (delete (key_bytes key.now))) }
{
    out.push(DELETE_KIND)?;
    put_key(out, key)
}

fn put_change(out: &mut Vec<u8>, change: &Change) -> Result<(), AllocError>
    ensures written { OnOk result
        (out.new.items ≡ out.old.items ++ encoding_of_part (proposed_of change.now).part) }
    ensures lawful { OnOk result (IsPart (proposed_of change.now).part) }
{
    match change {
        Change::Put { key, flag, .. } => put_put(out, key, flag),
        Change::Delete { key, .. } => put_delete(out, key),
    }
}

fn put_set(out: &mut Vec<u8>, changes: &[Change]) -> Result<(), AllocError>
    requires { set_fault (parts_of (map proposed_of changes.now)) ≡ None }
    ensures written { OnOk result (out.new.items ≡ out.old.items
        ++ encoding_of_change (set (parts_of (map proposed_of changes.now)))) }
    ensures lawful { OnOk result (IsChange (set (parts_of (map proposed_of changes.now)))) }
{
    out.push(SET_KIND)?;
    put_u16(out, changes.len() as u16)?;
    for change in changes {
        put_change(out, change)?;
    }
    Ok(())
}

fn spelled(alloc: Global, first: u64, edits: &[Edit]) -> Result<Vec<u8>, AllocError>
    requires { length edits.now ≤ MOST_EDITS }
    ensures changes { IfOk result (λ _. AllByRecursion IsChange (changes_of edits.now)) }
    ensures spelled { IfOk result (λ bytes.
        bytes.items ≡ encoding_of_batch
        (record { first = first; changes = changes_of edits.now })) }
{
    let mut out = Vec::with_capacity(alloc, room_for(edits))?;
    put_u64(&mut out, first)?;
    put_u16(&mut out, edits.len() as u16)?;
    for edit in edits {
        put_edit(&mut out, edit)?;
    }
    Ok(out)
}

// How many bytes the batch of these edits has, so that it is written without growing.
fn room_for(edits: &[Edit]) -> usize {
    let mut room = BATCH_HEAD;
    for edit in edits {
        room = room.saturating_add(encoded_len(edit));
    }
    room
}

/// How many edits a batch has, behind that first revision, and the place of the first. For who
/// reads a batch edit by edit.
#[tactic(auto, unfolding(crate::specs::Reading::count_at))]
pub fn count_from(bytes: &[u8], first: u64, at: usize) -> Result<(u16, usize), RecordFault>
    // The place lies within the bytes, or at their end.
    requires { at ≤ length bytes.now }
    // The count that stands there, or `BadRecord` at this place.
    ensures value { Gives (λ x. x) Tells result (count_at first bytes.now at) }
    // `Ok`: the place behind it lies within the bytes, or at their end.
    ensures within { IfOk result (λ x. x.1 ≤ length bytes.now) }
    // `Ok`: 1 to `MOST_EDITS`, the last of them at a revision below `REVISIONS_END`.
    ensures some { IfOk result (λ x. (0 < x.0) × (x.0 ≤ MOST_EDITS)
        × (first + x.0 ≤ REVISIONS_END)) }
    // It takes no memory, and never answers `Memory`.
    ensures no_memory { IfErr result (λ e. e ≢ Memory) }
{
    let (count, next) = u16_at(bytes, at)?;
    if count == 0 || count as usize > MOST_EDITS || first > REVISIONS_END - count as u64 {
        return Err(RecordFault::BadRecord { at });
    }
    Ok((count, next))
}

#[tactic(auto, unfolding(crate::specs::Reading::batch_at))]
fn batch_from(alloc: Global, bytes: &[u8]) -> Result<(Batch, usize), RecordFault>
    ensures value { Gives (λ x. x) Tells result (batch_at bytes.now) }
    ensures within { IfOk result (λ x. x.1 ≤ length bytes.now) }
{
    let (first, at) = u64_at(bytes, 0)?;
    let (count, at) = count_from(bytes, first, at)?;
    let (edits, next) = edits_from(alloc, bytes, count, at)?;
    Ok((Batch { first, edits }, next))
}

#[tactic(auto, unfolding(crate::specs::Reading::batch_in))]
fn whole_batch(alloc: Global, bytes: &[u8]) -> Result<Batch, RecordFault>
    ensures { Gives (λ batch. batch) Tells result (batch_in bytes.now) }
{
    let (batch, next) = batch_from(alloc, bytes)?;
    if next < bytes.len() {
        return Err(RecordFault::BadRecord { at: next });
    }
    Ok(batch)
}
