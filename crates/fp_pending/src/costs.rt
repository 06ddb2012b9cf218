//! What flags take behind edits that are not made.

ghost use Rattle.std.specs.Prelude.{OnOk};
ghost use Rattle.fp_edit.specs.Admits.{next};
ghost use Rattle.fp_edit.specs.Flags.{State};
ghost use Rattle.fp_edit.specs.Following.{change_of};
ghost use Rattle.fp_pending.specs.Noted.{AreNoted, IsNoted};

use fp_edit::{Edit, EditParts};
use std::alloc::{AllocError, Global};
use std::collections::BTreeMap;

/// What the flags at the keys of edits take of an image behind these edits. At other keys they take
/// what they took before them.
#[derive(Drop)]
pub(crate) struct Costs<'a> {
    // None where memory was wanting.
    pub(crate) noted: Option<BTreeMap<&'a str, u128>>,
}

impl<'a> Costs<'a> {
    /// Of no edits.
    pub(crate) fn new(alloc: Global) -> Costs<'a>
        ensures { (s : State) → IsNoted result s s }
    {
        Costs {
            noted: Some(BTreeMap::new(alloc)),
        }
    }

    /// Notes an edit behind the others.
    pub(crate) fn note(&mut self, edit: &'a Edit)
        ensures { (s t : State) → IsNoted self.old s t
            → IsNoted self.new s (next t (change_of edit.now)) }
    {
        if let Some(mut noted) = self.noted.take() {
            if note_edit(&mut noted, edit).is_ok() {
                self.noted = Some(noted);
            }
        }
    }
}

fn note_edit<'a>(noted: &mut BTreeMap<&'a str, u128>, edit: &'a Edit) -> Result<(), AllocError>
    ensures { OnOk result ((s t : State) → AreNoted noted.old s.flags t.flags
        → AreNoted noted.new s.flags (next t (change_of edit.now)).flags) }
{
    let parts = EditParts::new(edit);
    for i in 0..parts.len() {
        let part = parts.lend(i);
        noted.insert(part.key.as_str(), part.cost())?;
    }
    Ok(())
}
