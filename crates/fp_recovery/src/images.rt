//! Images, read into sets.

ghost use Rattle.std.specs.Prelude.{◌≡◌, length, IfOk, IfErr, Err};
ghost use Rattle.std.specs.FinMap as map;
ghost use Rattle.fp_base.specs.Answer.{Gives};
ghost use Rattle.fp_documents.specs.Entries.{entries_of};
ghost use Rattle.fp_journal.specs.Reading.{IsWrong};
ghost use Rattle.fp_record.specs.Fields.{Tells};
ghost use Rattle.fp_recovery.specs.Reading.{image_under};
ghost use Rattle.fp_recovery.specs.Stands.{IsImageOf};

use crate::bodies::fault_of;
use fp_definition::FlagKey;
use fp_edit::{Flag, FlagSet, REVISIONS_END};
use fp_journal::BodyFault;
use fp_record::{RecordFault, flags_of_image};
use std::alloc::Global;

// The flags of which the bytes are the image, by ascending keys.
#[tactic(auto, unfolding(crate::specs::Reading::image_under))]
fn flags_from(
    alloc: Global,
    base: u64,
    limit: u64,
    bytes: &[u8],
) -> Result<Vec<(FlagKey, Flag)>, RecordFault>
    ensures { Gives (λ flags. entries_of flags.items) Tells result
        (image_under base limit bytes.now) }
{
    if base >= REVISIONS_END || bytes.len() as u64 > limit {
        return Err(RecordFault::BadRecord { at: 0 });
    }
    let (flags, next) = flags_of_image(alloc, bytes, base)?;
    if next < bytes.len() {
        return Err(RecordFault::BadRecord { at: next });
    }
    Ok(flags)
}

// The set of which the bytes are the image, at this revision and under this limit.
fn set_from(alloc: Global, base: u64, limit: u64, bytes: &[u8]) -> Result<FlagSet, RecordFault>
    ensures read { Gives (λ s. map.entries s.flags) Tells result
        (image_under base limit bytes.now) }
    ensures found { IfOk result (IsImageOf base limit bytes.now) }
{
    let flags = flags_from(alloc, base, limit, bytes)?;
    let set = FlagSet::of_flags(alloc, base, limit, flags)?;
    Ok(set)
}

/// The set of which the bytes are the image, at this revision and under this limit.
pub fn read_image(alloc: Global, base: u64, limit: u64, bytes: &[u8]) -> Result<FlagSet, BodyFault>
    ensures found { IfOk result (IsImageOf base limit bytes.now) }
    ensures fault { IfErr result
        (IsWrong (length bytes.now) (λ at. image_under base limit bytes.now ≡ Err at)) }
{
    match set_from(alloc, base, limit, bytes) {
        Ok(set) => Ok(set),
        Err(fault) => Err(fault_of(fault)),
    }
}
