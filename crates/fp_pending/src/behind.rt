//! Whether a set accepts edits behind others that aren't made in it.

ghost use Rattle.std.specs.Prelude.{◌≡◌, ◌↔◌, IfSome, IfNone, IsTrue};
ghost use Rattle.std.specs.FinMap as map;
ghost use Rattle.fp_definition.specs.Key.{key_bytes};
ghost use Rattle.fp_edit.specs.Flags.{State, cost_found};
ghost use Rattle.fp_edit.specs.Following.{change_of, changes_of};
ghost use Rattle.fp_edit.specs.Log.{after_all};
ghost use Rattle.fp_pending.specs.Following.{Follows, set_behind};
ghost use Rattle.fp_pending.specs.Noted.{IsNoted};
ghost use Rattle.fp_pending.specs.Tallies.{IsTallyAbove, IsTallyOf, Judges};

use crate::costs::Costs;
use crate::tally::{Tally, judged_sums, key_cost, most_after, sums_of, tally_of};
use fp_definition::FlagKey;
use fp_edit::{Edit, EditParts, FlagSet, sums_after};
use std::alloc::Global;

/// Whether the set accepts the edits one after another, whatever their editors expected: exactly,
/// also where memory runs out for notes. It looks at the set only at their keys.
pub fn accepts(alloc: Global, set: &FlagSet, edits: &[Edit]) -> bool
    ensures { IsTrue result ↔ Follows set.now (changes_of edits.now) }
{
    accepts_behind(alloc, set, &[], edits)
}

/// Whether the set accepts the edits ahead one after another, and then these behind them, whatever
/// their editors expected: exactly, too. Where memory is wanting it looks back at all of those
/// ahead for each key.
pub fn accepts_behind<'a>(
    alloc: Global,
    set: &FlagSet,
    ahead: &'a [Edit],
    edits: &'a [Edit],
) -> bool
    ensures { IsTrue result ↔ (Follows set.now (changes_of ahead.now)
        × Follows (after_all set.now (changes_of ahead.now)) (changes_of edits.now)) }
{
    // Mostly all put flags, there is room whatever stands at their keys, and nothing is looked up.
    if let Some(most) = most_behind(tally_of(set), ahead) {
        if most_behind(most, edits).is_some() {
            return true;
        }
    }
    let mut costs = Costs::new(alloc);
    let Some(tally) = tally_behind(set, &[], &mut costs, tally_of(set), ahead) else {
        return false;
    };
    tally_behind(set, ahead, &mut costs, tally, edits).is_some()
}

// What a key's flag takes in the image after these edits, where it takes that much before them; 0
// without one.
fn cost_after(edits: &[Edit], key: &FlagKey, before: u128) -> u128
    ensures { (s : State) → before ≡ cost_found (key_bytes key.now)
        (map.get s.flags (key_bytes key.now))
        → result ≡ cost_found (key_bytes key.now)
        (map.get (after_all s (changes_of edits.now)).flags (key_bytes key.now)) }
{
    let mut cost = before;
    for edit in edits {
        cost = key_cost(edit, key, cost);
    }
    cost
}

// What the numbers are at most behind edits that put flags and delete none, if the limits let them
// pass whatever stands at their keys.
fn most_behind(most: Tally, edits: &[Edit]) -> Option<Tally>
    ensures { (s : State) → IsTallyAbove most s → IfSome result (λ t.
        Follows s (changes_of edits.now) × IsTallyAbove t (after_all s (changes_of edits.now))) }
{
    let mut now = most;
    for edit in edits {
        now = most_after(now, edit)?;
    }
    Some(now)
}

// The numbers behind the edits, where the set accepts them behind those of `ahead`, which lead to
// the numbers given.
fn tally_behind<'a>(
    set: &FlagSet,
    ahead: &[Edit],
    costs: &mut Costs<'a>,
    tally: Tally,
    edits: &'a [Edit],
) -> Option<Tally>
    requires tally { IsTallyOf tally (after_all set.now (changes_of ahead.now)) }
    requires noted { IsNoted costs.old set.now (after_all set.now (changes_of ahead.now)) }
    ensures accepted { IfSome result (λ t.
        Follows (after_all set.now (changes_of ahead.now)) (changes_of edits.now)
        × IsTallyOf t (set_behind set.now ahead.now edits.now)) }
    ensures noted { IfSome result (λ _.
        IsNoted costs.new set.now (set_behind set.now ahead.now edits.now)) }
    ensures refused { IfNone result
        (Follows (after_all set.now (changes_of ahead.now)) (changes_of edits.now) → ⊥) }
{
    let mut now = tally;
    for i in 0..edits.len() {
        now = judged_behind(set, ahead, &edits[..i], costs, now, &edits[i])?;
        costs.note(&edits[i]);
    }
    Some(now)
}

// The numbers behind an edit, where the set accepts it behind those of `ahead` and `before`, which
// lead to the numbers given.
fn judged_behind<'a>(
    set: &FlagSet,
    ahead: &[Edit],
    before: &[Edit],
    costs: &Costs<'a>,
    tally: Tally,
    edit: &'a Edit,
) -> Option<Tally>
    requires tally { IsTallyOf tally (set_behind set.now ahead.now before.now) }
    requires noted { IsNoted costs.now set.now (set_behind set.now ahead.now before.now) }
    ensures { Judges (set_behind set.now ahead.now before.now) (change_of edit.now) result }
{
    let parts = EditParts::new(edit);
    let mut sums = sums_of(tally);
    for i in 0..parts.len() {
        let part = parts.lend(i);
        let found = found_behind(set, ahead, before, costs, part.key);
        if part.flag.is_none() && found == 0 {
            return None;
        }
        sums = sums_after(sums, part, found);
    }
    judged_sums(tally, sums, parts.puts_any())
}

// What a key's flag takes behind those edits: as it is noted, or where there was no memory for that,
// as each of them left it.
fn found_behind<'a>(
    set: &FlagSet,
    ahead: &[Edit],
    before: &[Edit],
    costs: &Costs<'a>,
    key: &'a FlagKey,
) -> u128
    requires { IsNoted costs.now set.now (set_behind set.now ahead.now before.now) }
    ensures { result ≡ cost_found (key_bytes key.now)
        (map.get (set_behind set.now ahead.now before.now).flags (key_bytes key.now)) }
{
    let Some(noted) = &costs.noted else {
        return cost_after(before, key, cost_after(ahead, key, set.cost_at(key)));
    };
    let text = key.as_str();
    match noted.get(&text) {
        Some(cost) => *cost,
        None => set.cost_at(key),
    }
}
