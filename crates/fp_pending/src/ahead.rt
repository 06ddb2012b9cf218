//! Edits that are ahead of a set.

ghost use Rattle.std.specs.Prelude.{◌≡◌, length, vec_len, IfOk, OnOk};
ghost use Rattle.fp_edit.specs.Following.{changes_of};
ghost use Rattle.fp_edit.specs.Log.{after_all};
ghost use Rattle.fp_pending.specs.Following.{Follows};

use fp_edit::{Edit, FlagSet};
use std::alloc::{AllocError, Global};
use std::collections::VecDeque;

/// Takes into the set the edits that are ahead of it, from the front. Where memory is wanting it
/// stops between two of them.
pub fn catch_up(set: &mut FlagSet, ahead: &mut VecDeque<Edit>) -> Result<(), AllocError>
    // The set accepts them one after another, whatever their editors expected.
    requires { Follows set.old (changes_of ahead.old.items) }
    // The set leads, with what is left ahead, where it led before.
    ensures same { after_all set.new (changes_of ahead.new.items)
        ≡ after_all set.old (changes_of ahead.old.items) }
    // It accepts what is left ahead, one after another.
    ensures follows { Follows set.new (changes_of ahead.new.items) }
    // `Ok`: nothing is left.
    ensures done { OnOk result (length ahead.new.items ≡ 0) }
{
    while let Some(edit) = ahead.pop_front() {
        if let Err(edit) = set.make(edit.unconditional()) {
            ahead.push_front_reserved(edit);
            return Err(AllocError);
        }
    }
    Ok(())
}

/// Copies of edits, one by one, which share the definitions.
pub fn copies_of(alloc: Global, edits: &[Edit]) -> Result<Vec<Edit>, AllocError>
    // `Ok`: they make the same changes; of what their editors expected nothing is said.
    ensures copied { IfOk result (λ copies. changes_of copies.items ≡ changes_of edits.now) }
    // `Ok`: as many.
    ensures len { IfOk result (λ copies. vec_len copies ≡ length edits.now) }
{
    let mut copies = Vec::with_capacity(alloc, edits.len())?;
    for edit in edits {
        copies.push(edit.try_copy()?)?;
    }
    Ok(copies)
}
