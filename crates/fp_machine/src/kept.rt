//! The results that wait for others.

ghost use Rattle.std.specs.Prelude.{◌≡◌, ◌<◌, ◌≤◌, ◌++◌, ◌∷◌, [], ◌↔◌, OnOk, OnErr, IsSome, length};
ghost use Rattle.std.specs.Prelude.{take};
ghost use Rattle.std.specs.Option.{option_to_list};
ghost use Rattle.fp_machine.specs.Kept.{kept_items, kept_room};
ghost use Rattle.fp_machine.specs.Numbers.{DEEPEST_RULE};

use crate::machine::Found;
use arrayvec::ArrayVec;
use std::alloc::{AllocError, Global};

// No more wait at once where neither a list nor a text is made: a rule doesn't nest deeper.
const MOST: usize = 32;

/// The results that wait for others, the last one behind. Where memory is refused, as many as wait
/// in a rule that makes neither a list nor a text have their places in the value itself. These are
/// filled before they are used, which takes longer than to be given memory.
#[derive(Drop)]
pub enum Kept<'d> {
    Few(ArrayVec<Found<'d>, MOST>),
    Many(Vec<Found<'d>>),
}

impl<'d> Kept<'d> {
    /// None yet.
    pub fn none(alloc: Global) -> Kept<'d>
        ensures { kept_items result ≡ [] }
    {
        Kept::Many(Vec::new(alloc))
    }

    /// Where none waits yet, there are places for so many afterwards.
    pub fn make_room(&mut self, alloc: Global, room: usize) -> Result<(), AllocError>
        requires { kept_items self.old ≡ [] }
        ensures empty { OnOk result (kept_items self.new ≡ []) }
        ensures room { OnOk result (room ≤ kept_room self.new) }
        ensures memory { OnErr result (DEEPEST_RULE < room) }
    {
        match Vec::with_capacity(alloc, room) {
            Ok(many) => *self = Kept::Many(many),
            Err(refused) => {
                if room > MOST {
                    return Err(refused);
                }
                *self = Kept::Few(ArrayVec::new());
            }
        }
        Ok(())
    }

    /// One more waits, for which there is a place.
    pub fn push(&mut self, found: Found<'d>)
        requires { length (kept_items self.old) < kept_room self.old }
        ensures items { kept_items self.new ≡ kept_items self.old ++ found.entry ∷ [] }
        ensures room { kept_room self.new ≡ kept_room self.old }
    {
        match self {
            Kept::Few(few) => few.push(found),
            Kept::Many(many) => many.push_reserved(found),
        }
    }

    /// The last one waits no longer.
    pub fn pop(&mut self) -> Option<Found<'d>>
        ensures items { kept_items self.old ≡ kept_items self.new ++ option_to_list result }
        ensures any { IsSome result ↔ (0 < length (kept_items self.old)) }
        ensures room { kept_room self.new ≡ kept_room self.old }
    {
        match self {
            Kept::Few(few) => few.pop(),
            Kept::Many(many) => many.pop(),
        }
    }

    /// Only the first so many wait further.
    pub fn truncate(&mut self, count: usize)
        ensures items { kept_items self.new ≡ take count (kept_items self.old) }
        ensures room { kept_room self.new ≡ kept_room self.old }
    {
        match self {
            Kept::Few(few) => few.truncate(count),
            Kept::Many(many) => many.truncate(count),
        }
    }

    /// All that wait.
    pub fn as_slice(&self) -> &[Found<'d>]
        ensures { result.now ≡ kept_items self.now }
    {
        match self {
            Kept::Few(few) => few.as_slice(),
            Kept::Many(many) => many.as_slice(),
        }
    }
}
