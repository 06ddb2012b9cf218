//! What stands against an edit of a set.

ghost use Rattle.std.specs.Prelude.{◌≡◌, ◌<◌, ◌^◌, ◌&&◌, ℕ, true, false, MatchOption, nat_le};
ghost use Rattle.std.specs.FinMap as map;
ghost use Rattle.fp_definition.specs.Key.{key_bytes};
ghost use Rattle.fp_edit.specs.Admits.{changed_at, flags_after, has_revision, has_room};
ghost use Rattle.fp_edit.specs.Admits.{is_as_expected, is_met, is_within, present, refusal};
ghost use Rattle.fp_edit.specs.Edits.{proposal_of};
ghost use Rattle.fp_edit.specs.Flags.{size as size_of};
ghost use Rattle.fp_edit.specs.Lent.{AreApart, lent, lent_change, lent_parts};

use crate::edit::{Edit, EditFault, Expect, REVISIONS_END};
use crate::flag_set::{FlagSet, MOST_FLAGS};
use crate::lent::{EditParts, LentPart};
use crate::sums::{Sums, most_with, sums_after};
use fp_definition::{Definition, FlagKey};

impl FlagSet {
    /// Whether the set keeps within its limits, of flags and of bytes, with this definition under
    /// this key, whatever is there now.
    pub fn has_room_for(&self, key: &FlagKey, definition: &Definition) -> bool
        ensures { (changed : ℕ)
            → result ≡ is_within
            (map.insert self.now.flags (key_bytes key.now)
            (record { definition = definition.now; changed = changed })) self.now.limit }
    {
        self.has_room(EditParts::One(LentPart {
            key,
            flag: Some(definition),
            expect: Expect::Any,
        }))
    }

    /// The fault that `admit` would answer, want of memory aside; `None` where the edit meets every
    /// test.
    pub fn judge(&self, edit: &Edit) -> Option<EditFault>
        ensures { result ≡ refusal self.now (proposal_of edit.now) }
    {
        let parts = EditParts::new(edit);
        for at in 0..parts.len() {
            if let Some(current) = self.contradicts(parts.lend(at)) {
                return Some(parts.conflict(at, current));
            }
        }
        if !self.has_room(parts) {
            return Some(EditFault::SetTooLarge);
        }
        if !self.has_revision() {
            return Some(EditFault::RevisionsUsed);
        }
        None
    }

    // The revision that changed the key's flag last, where the key isn't as a part expects it, or the
    // part can't be made there.
    fn contradicts(&self, part: LentPart<'_>) -> Option<Option<u64>>
        ensures { MatchOption result (is_as_expected self.now (lent part.entry) ≡ true)
            (λ current. (is_as_expected self.now (lent part.entry) ≡ false)
            × (current ≡ present self.now (lent part.entry))) }
    {
        let puts = part.flag.is_some();
        // Where anything may stand there, nothing is looked up.
        if puts && part.expect == Expect::Any {
            return None;
        }
        let current = self.changed(part.key);
        if (puts || current.is_some()) && meets(part.expect, current) {
            return None;
        }
        Some(current)
    }

    // Whether the set keeps within its limits with all of the parts, or none of them puts a flag.
    // Mostly there is room whatever stands at their keys now, and nothing is looked up.
    fn has_room(&self, parts: EditParts<'_>) -> bool
        requires { AreApart (lent_parts parts) }
        ensures { result ≡ has_room self.now (lent_change parts.entry) }
    {
        !parts.puts_any()
            || self.holds(most_with(self.sums(), parts))
            || self.holds(self.sums_behind(parts))
    }

    // The set's own numbers.
    fn sums(&self) -> Sums
        ensures count { result.count ≡ map.len self.now.flags }
        ensures size { result.size ≡ size_of self.now.flags }
        ensures small { (result.count < 2 ^ 64) × (result.size < 2 ^ 64) }
    {
        Sums {
            count: self.len() as u128,
            size: self.size() as u128,
        }
    }

    // Whether the numbers are within the set's limits.
    fn holds(&self, sums: Sums) -> bool
        ensures { result ≡ nat_le sums.count MOST_FLAGS && nat_le sums.size self.now.limit }
    {
        sums.count <= MOST_FLAGS as u128 && sums.size <= self.limit() as u128
    }

    // The numbers behind the parts.
    fn sums_behind(&self, parts: EditParts<'_>) -> Sums
        requires { AreApart (lent_parts parts) }
        ensures count { result.count ≡ map.len (flags_after self.now (lent_change parts.entry)) }
        ensures size { result.size ≡ size_of (flags_after self.now (lent_change parts.entry)) }
    {
        let mut sums = self.sums();
        for i in 0..parts.len() {
            let part = parts.lend(i);
            sums = sums_after(sums, part, self.cost_at(part.key));
        }
        sums
    }

    fn changed(&self, key: &FlagKey) -> Option<u64>
        ensures { result ≡ changed_at self.now (key_bytes key.now) }
    {
        match self.get(key) {
            Some(flag) => Some(flag.changed),
            None => None,
        }
    }

    fn has_revision(&self) -> bool
        ensures { result ≡ has_revision self.now }
    {
        self.revision() < REVISIONS_END - 1
    }
}

fn meets(expect: Expect, current: Option<u64>) -> bool
    ensures { result ≡ is_met expect current }
{
    match (expect, current) {
        (Expect::Any, _) => true,
        (Expect::Absent, current) => current.is_none(),
        (Expect::At(_), None) => false,
        (Expect::At(revision), Some(current)) => current == revision,
    }
}
