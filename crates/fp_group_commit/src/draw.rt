//! Groups of edits that are to be sealed together.

ghost use Rattle.std.specs.Prelude.{◌≡◌, ◌<◌, ◌≤◌, ◌+◌, ◌↔◌, length, IfOk, IfErr, OnOk, IsTrue};
ghost use Rattle.std.specs.List.{AllByRecursion};
ghost use Rattle.fp_edit.specs.Following.{changes_of};
ghost use Rattle.fp_pending.specs.Following.{Follows};
ghost use Rattle.fp_edit.specs.Log.{after_all};
ghost use Rattle.fp_edit.specs.declared.edit.TheConstants.{REVISIONS_END};
ghost use Rattle.fp_record.specs.declared.batch.TheConstants.{MOST_EDITS};
ghost use Rattle.fp_record.specs.WellFormed.{IsBatch};
ghost use Rattle.fp_record.specs.Encoding.{batch_len, encoding_of_batch};
ghost use Rattle.fp_recovery.specs.Stands.{IsAllowed};
ghost use Rattle.fp_group_commit.specs.Calls.{IsStrange};
ghost use Rattle.fp_group_commit.specs.Changes.{GoesOn};
ghost use Rattle.fp_group_commit.specs.Inside.{HasPlace};

use crate::fault::StoreFault;
use crate::part::Applied;
use fp_disk::Disk;
use fp_edit::{Edit, FlagSet};
use fp_fronts::Lists;
use fp_journal::Framed;
use fp_pending::{accepts, accepts_behind, catch_up, copies_of};
use fp_record::{BATCH_HEAD, Batch, MOST_EDITS, encoded_len};
use fp_slots::{FIRST_VERSION, Slots};
use std::alloc::{AllocError, Global};
use std::collections::VecDeque;
use std::marker::Model;

/// Edits under consecutive revisions.
#[derive(Drop)]
pub struct Draw {
    pub(crate) first: u64,
    pub(crate) edits: Vec<Edit>,
}

impl Model for Draw {
    ghost use Rattle.fp_record.specs.Group.{Group};
    ghost use Rattle.fp_edit.specs.Following.{changes_of};

    ghost Value = { Group };

    ghost view = { λ d. record { first = d.first; changes = changes_of d.edits.items } };
}

// What a draw adds to the list of sealed edits.
pub(crate) struct InDraw;

impl Lists<Draw, Applied> for InDraw {
    ghost items = { λ d. d.changes };
}

impl Draw {
    /// These edits, the first of which makes the revision `first`, and each other the one behind.
    /// Anybody may make a draw, since `stage` looks whether it goes on.
    pub fn new(first: u64, edits: Vec<Edit>) -> Draw
        ensures { result ≡ record { first = first; changes = changes_of edits.items } }
    {
        Draw { first, edits }
    }

    /// The revision of the first edit.
    pub fn first(&self) -> u64
        ensures { result ≡ self.now.first }
    {
        self.first
    }

    /// The edits.
    pub fn edits(&self) -> &[Edit]
        ensures { changes_of result.now ≡ self.now.changes }
    {
        &self.edits
    }

    /// How many edits there are.
    pub fn len(&self) -> usize
        ensures { result ≡ length self.now.changes }
    {
        self.edits.len()
    }
}

/// How many bytes the edits take in a batch's body.
pub fn spelled_sum(edits: &[Edit]) -> u64
    // 64 edits at most.
    requires { length edits.now ≤ MOST_EDITS }
    ensures { result ≡ batch_len (record { first = 0; changes = changes_of edits.now }) }
{
    let mut sum = BATCH_HEAD as u64;
    for edit in edits {
        sum += encoded_len(edit) as u64;
    }
    sum
}

// Whether the slots take the draw as the next batch.
pub(crate) fn has_room<D: Disk>(slots: &Slots<D>, draw: &Draw) -> bool
    ensures { IsTrue result ↔ HasPlace slots.now draw.now }
{
    if draw.edits.len() == 0 || draw.edits.len() > MOST_EDITS {
        return false;
    }
    has_place(slots.version(), draw) && fp_compaction::has_room(slots, spelled_sum(&draw.edits))
}

// Whether each edit of the draw has a place in a slot of this version: in one of the first a set of
// changes has none.
fn has_place(version: u8, draw: &Draw) -> bool
    ensures { IsTrue result ↔ AllByRecursion (IsAllowed version) draw.now.changes }
{
    if version > FIRST_VERSION {
        return true;
    }
    for edit in draw.edits.iter() {
        if let Edit::Set(_) = edit {
            return false;
        }
    }
    true
}

// The batch as it is written, and its edits once more.
fn framed(alloc: Global, most: u32, draw: &Draw) -> Result<(Framed, VecDeque<Edit>), AllocError>
    requires some { 0 < length draw.now.changes }
    requires few { length draw.now.changes ≤ MOST_EDITS }
    requires revisions { draw.now.first + length draw.now.changes ≤ REVISIONS_END }
    requires small { batch_len draw.now ≤ most }
    ensures lawful { IfOk result (λ _. IsBatch draw.now) }
    ensures spelled { IfOk result (λ r. r.0 ≡ encoding_of_batch draw.now) }
    ensures copied { IfOk result (λ r. changes_of r.1.items ≡ draw.now.changes) }
{
    // A parameter is known to be within its type.
    let _ = most;
    let batch = Batch::new(draw.first, copies_of(alloc, &draw.edits)?);
    let body = batch.encode(alloc)?;
    let framed = Framed::new(alloc, &body)?;
    Ok((framed, VecDeque::from(batch.into_edits())))
}

// Why a draw isn't staged, where there is no memory to take into the set what is ahead of it.
fn refusal_behind(alloc: Global, set: &FlagSet, ahead: &[Edit], draw: &Draw) -> StoreFault
    requires { Follows set.now (changes_of ahead.now) }
    ensures { IsStrange (after_all set.now (changes_of ahead.now)) draw.now result }
{
    if draw.first != set.revision() + ahead.len() as u64 + 1 {
        return StoreFault::Stranger;
    }
    if !accepts_behind(alloc, set, ahead, &draw.edits) {
        return StoreFault::Stranger;
    }
    StoreFault::Memory
}

// Takes into the set what is ahead of it, and all memory of the draw, where it goes on from there.
pub(crate) fn ready(
    alloc: Global,
    most: u32,
    set: &mut FlagSet,
    ahead: &mut VecDeque<Edit>,
    draw: &Draw,
) -> Result<(Framed, VecDeque<Edit>), StoreFault>
    requires follows { Follows set.old (changes_of ahead.old.items) }
    requires some { 0 < length draw.now.changes }
    requires few { length draw.now.changes ≤ MOST_EDITS }
    requires small { batch_len draw.now ≤ most }
    ensures same { after_all set.new (changes_of ahead.new.items)
        ≡ after_all set.old (changes_of ahead.old.items) }
    ensures follows { Follows set.new (changes_of ahead.new.items) }
    ensures done { OnOk result (length ahead.new.items ≡ 0) }
    ensures goes_on { OnOk result
        (GoesOn (after_all set.old (changes_of ahead.old.items)) draw.now) }
    ensures lawful { OnOk result (IsBatch draw.now) }
    ensures spelled { IfOk result (λ r. r.0 ≡ encoding_of_batch draw.now) }
    ensures copied { IfOk result (λ r. changes_of r.1.items ≡ draw.now.changes) }
    ensures fault { IfErr result
        (IsStrange (after_all set.old (changes_of ahead.old.items)) draw.now) }
{
    if catch_up(set, ahead).is_err() {
        return Err(refusal_behind(alloc, set, ahead.make_contiguous(), draw));
    }
    if draw.first != set.revision() + 1 {
        return Err(StoreFault::Stranger);
    }
    if !accepts(alloc, set, &draw.edits) {
        return Err(StoreFault::Stranger);
    }
    let Ok(framed) = framed(alloc, most, draw) else {
        return Err(StoreFault::Memory);
    };
    Ok(framed)
}
