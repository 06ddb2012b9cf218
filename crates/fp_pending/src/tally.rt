//! The numbers of a set that its limits bind, and what an edit makes of them.

ghost use Rattle.std.specs.Prelude.{◌≡◌, ◌<◌, ◌≤◌, ◌^◌, None, true, false, IfSome, MatchOption};
ghost use Rattle.std.specs.FinMap as map;
ghost use Rattle.fp_definition.specs.Key.{key_bytes};
ghost use Rattle.fp_base.specs.Tests.{first_failed};
ghost use Rattle.fp_edit.specs.Admits.{flags_after, has_revision, has_room, keys, next, refusal};
ghost use Rattle.fp_edit.specs.Edits.{Change, parts};
ghost use Rattle.fp_edit.specs.Flags.{State, cost_found, size as size_of};
ghost use Rattle.fp_edit.specs.Following.{change_of, unconditional};
ghost use Rattle.fp_edit.specs.Parts.{any_put};
ghost use Rattle.fp_pending.specs.Tallies.{IsTallyAbove, IsTallyOf};

use fp_definition::FlagKey;
use fp_edit::{Edit, EditParts, FlagSet, MOST_FLAGS, REVISIONS_END, Sums, most_with};

// These numbers.
#[derive(Clone, Copy)]
pub(crate) struct Tally {
    pub(crate) limit: u64,
    pub(crate) revision: u64,
    pub(crate) count: usize,
    pub(crate) size: u64,
}

// Those of a set.
pub(crate) fn tally_of(set: &FlagSet) -> Tally
    ensures { IsTallyOf result set.now }
{
    Tally {
        limit: set.limit(),
        revision: set.revision(),
        count: set.len(),
        size: set.size(),
    }
}

// What a key's flag takes after an edit, where it took that much before. An edit has no key twice.
pub(crate) fn key_cost(edit: &Edit, key: &FlagKey, before: u128) -> u128
    ensures { (s : State) → before ≡ cost_found (key_bytes key.now)
        (map.get s.flags (key_bytes key.now))
        → result ≡ cost_found (key_bytes key.now)
        (map.get (next s (change_of edit.now)).flags (key_bytes key.now)) }
{
    let parts = EditParts::new(edit);
    for i in 0..parts.len() {
        let part = parts.lend(i);
        if key.as_str() == part.key.as_str() {
            return part.cost();
        }
    }
    before
}

// The numbers after changes that led to these sums, if there is a revision for them and the limits,
// where these bind them, let them pass.
pub(crate) fn judged_sums(tally: Tally, sums: Sums, is_bound: bool) -> Option<Tally>
    requires fits { is_bound ≡ false → (sums.count ≤ tally.count) × (sums.size ≤ tally.size) }
    ensures judged { (s : State) (c : Change) → IsTallyOf tally s → is_bound ≡ any_put (parts c)
        → sums.count ≡ map.len (flags_after s c)
        → sums.size ≡ size_of (flags_after s c)
        → MatchOption result
        (has_room s c ≡ true → has_revision s ≡ true → ⊥)
        (λ t. (has_room s c ≡ true) × (has_revision s ≡ true) × IsTallyOf t (next s c)) }
    // The same where they are no more than known to be enough.
    ensures most { is_bound ≡ true → (s : State) (c : Change) → IsTallyAbove tally s
        → first_failed (keys s (unconditional c)) ≡ None → map.len (flags_after s c) ≤ sums.count
        → size_of (flags_after s c) ≤ sums.size → IfSome result (λ t.
        (refusal s (unconditional c) ≡ None) × IsTallyAbove t (next s c)) }
{
    if tally.revision >= REVISIONS_END - 1 {
        return None;
    }
    if is_bound && (sums.count > MOST_FLAGS as u128 || sums.size > tally.limit as u128) {
        return None;
    }
    Some(Tally {
        limit: tally.limit,
        revision: tally.revision + 1,
        count: sums.count as usize,
        size: sums.size as u64,
    })
}

// What the numbers are at most after an edit that puts flags and deletes none, if the limits let that
// pass whatever stands at its keys.
pub(crate) fn most_after(most: Tally, edit: &Edit) -> Option<Tally>
    ensures { (s : State) → IsTallyAbove most s → IfSome result (λ t.
        (refusal s (unconditional (change_of edit.now)) ≡ None)
        × IsTallyAbove t (next s (change_of edit.now))) }
{
    let parts = EditParts::new(edit);
    if !parts.puts_all() {
        return None;
    }
    judged_sums(most, most_with(sums_of(most), parts), true)
}

pub(crate) fn sums_of(tally: Tally) -> Sums
    ensures same { (result.count ≡ tally.count) × (result.size ≡ tally.size) }
    ensures small { (result.count < 2 ^ 64) × (result.size < 2 ^ 64) }
{
    Sums {
        count: tally.count as u128,
        size: tally.size as u128,
    }
}
