//! Batches, read edit by edit onto a set.

ghost use Rattle.std.specs.Prelude.{◌≡◌, ◌≢◌, ◌≤◌, ◌<◌, ◌+◌, ◌^◌, length, map, take, Some, Err};
ghost use Rattle.std.specs.Prelude.{IfErr, IfOk, OnOk};
ghost use Rattle.fp_base.specs.Answer.{Gives};
ghost use Rattle.fp_edit.specs.Admits.{refusal};
ghost use Rattle.fp_edit.specs.Changes.{set_len};
ghost use Rattle.fp_edit.specs.Edits.{parts};
ghost use Rattle.fp_edit.specs.Flags.{State};
ghost use Rattle.fp_edit.specs.Following.{change_of, unconditional};
ghost use Rattle.fp_edit.specs.Parts.{parts_of, proposed_of};
ghost use Rattle.fp_edit.specs.declared.edit.TheConstants.{REVISIONS_END};
ghost use Rattle.fp_journal.specs.Reading.{IsWrong};
ghost use Rattle.fp_record.specs.Fields.{Tells};
ghost use Rattle.fp_record.specs.declared.fault.RecordFault.TheVariants.{Memory};
ghost use Rattle.fp_recovery.specs.Reading.{batch_onto, edit_onto, edits_onto, front_behind};
ghost use Rattle.fp_recovery.specs.Reading.{kind_at};
ghost use Rattle.fp_recovery.specs.Reading as says;
ghost use Rattle.fp_recovery.specs.Stands.{TakesBatch};

use crate::bodies::fault_of;
use fp_edit::{Change, Edit, EditFault, FlagSet, SET_FRAME};
use fp_journal::BodyFault;
use fp_record::{RecordFault, SET_KIND, count_from, edit_from, u8_at, u64_at};
use fp_slots::FIRST_VERSION;
use std::alloc::Global;

// How many edits the batch has that follows this revision, and the place of the first.
#[tactic(auto, unfolding(crate::specs::Reading::front_behind))]
fn front_from(bytes: &[u8], revision: u64) -> Result<(u16, usize), RecordFault>
    requires { revision < REVISIONS_END }
    ensures front { Gives (λ x. x) Tells result (front_behind revision bytes.now) }
    ensures within { IfOk result (λ x. x.1 ≤ length bytes.now) }
    ensures no_memory { IfErr result (λ e. e ≢ Memory) }
{
    let (first, at) = u64_at(bytes, 0)?;
    if first != revision + 1 {
        return Err(RecordFault::BadRecord { at: 0 });
    }
    count_from(bytes, first, at)
}

// The kind of the edit at this place, if one of that kind may stand in a slot of this version.
#[tactic(auto, unfolding(crate::specs::Reading::kind_at))]
fn kind_from(bytes: &[u8], version: u8, at: usize) -> Result<u8, RecordFault>
    requires { at ≤ length bytes.now }
    ensures kind { Gives (λ kind. kind) Tells result (kind_at version bytes.now at) }
    ensures no_memory { IfErr result (λ e. e ≢ Memory) }
{
    let (kind, _next) = u8_at(bytes, at)?;
    if kind == SET_KIND && version <= FIRST_VERSION {
        return Err(RecordFault::BadRecord { at });
    }
    Ok(kind)
}

// Makes the edit at this place, and answers the place behind it.
#[tactic(auto, unfolding(crate::specs::Reading::edit_onto))]
fn make_edit(
    alloc: Global,
    set: &mut FlagSet,
    version: u8,
    bytes: &[u8],
    at: usize,
) -> Result<usize, RecordFault>
    requires { at ≤ length bytes.now }
    ensures made { Gives (λ next. (set.new, next)) Tells result
        (edit_onto version bytes.now (set.old, at)) }
    ensures within { IfOk result (λ next. next ≤ length bytes.now) }
{
    kind_from(bytes, version, at)?;
    let (edit, next) = edit_from(alloc, Some(set), bytes, at)?;
    let Err((fault, edit)) = set.admit(edit) else {
        return Ok(next);
    };
    match fault {
        EditFault::Memory => Err(RecordFault::Memory),
        _ => Err(RecordFault::BadRecord {
            at: wrong_at(at, &edit, fault),
        }),
    }
}

// Where an edit that begins at this place is wrong, if a set doesn't accept it for this fault.
fn wrong_at(at: usize, edit: &Edit, fault: EditFault) -> usize
    requires refused { (s : State)
        × (refusal s (unconditional (change_of edit.now)) ≡ Some fault) }
    requires small { at + set_len (parts (change_of edit.now)) < 2 ^ 64 }
    ensures { result ≡ says.wrong_at at (change_of edit.now) fault }
{
    match (edit, fault) {
        (Edit::Set(changes), EditFault::ConflictIn { at: part, .. }) => {
            at + len_before(changes.as_slice(), part)
        }
        _ => at,
    }
}

// How many bytes of a set stand in front of the change at this place.
fn len_before(changes: &[Change], at: usize) -> usize
    requires within { at ≤ length changes.now }
    requires small { set_len (parts_of (map proposed_of changes.now)) < 2 ^ 64 }
    ensures { result ≡ set_len (take at (parts_of (map proposed_of changes.now))) }
{
    let mut len = SET_FRAME;
    for change in &changes[..at] {
        len += change.encoded_len();
    }
    len
}

// Makes so many edits, one after the other, and answers the place behind the last.
fn make_edits(
    alloc: Global,
    set: &mut FlagSet,
    version: u8,
    bytes: &[u8],
    count: u16,
    at: usize,
) -> Result<usize, RecordFault>
    requires { at ≤ length bytes.now }
    ensures made { Gives (λ next. (set.new, next)) Tells result
        (edits_onto version bytes.now count (set.old, at)) }
    ensures within { IfOk result (λ next. next ≤ length bytes.now) }
{
    let mut place = at;
    for _ in 0..count {
        place = make_edit(alloc, set, version, bytes, place)?;
    }
    Ok(place)
}

// Makes the edits of the batch that the bytes are.
#[tactic(auto, unfolding(crate::specs::Reading::batch_onto))]
fn make_batch(
    alloc: Global,
    set: &mut FlagSet,
    version: u8,
    bytes: &[u8],
) -> Result<(), RecordFault>
    ensures read { Gives (λ _. set.new) Tells result (batch_onto version set.old bytes.now) }
    ensures taken { OnOk result (TakesBatch version set.old bytes.now set.new) }
{
    let (count, at) = front_from(bytes, set.revision())?;
    let next = make_edits(alloc, set, version, bytes, count, at)?;
    if next < bytes.len() {
        return Err(RecordFault::BadRecord { at: next });
    }
    Ok(())
}

/// Leads the set on by the batch that the bytes are, in a slot of this version.
pub fn take_batch(
    alloc: Global,
    set: &mut FlagSet,
    version: u8,
    bytes: &[u8],
) -> Result<(), BodyFault>
    ensures taken { OnOk result (TakesBatch version set.old bytes.now set.new) }
    ensures fault { IfErr result (IsWrong (length bytes.now)
        (λ at. batch_onto version set.old bytes.now ≡ Err at)) }
{
    if let Err(fault) = make_batch(alloc, set, version, bytes) {
        return Err(fault_of(fault));
    }
    Ok(())
}
