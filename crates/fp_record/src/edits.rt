//! Edits from an offset on, each with the offset behind it.

ghost use Rattle.std.specs.Prelude.{◌≡◌, ◌≢◌, ◌+◌, ◌<◌, ◌≤◌, [], ◌∷◌, length, map, IfErr, IfOk};
ghost use Rattle.fp_base.specs.Answer.{Gives};
ghost use Rattle.fp_edit.specs.Edits.{proposal_of};
ghost use Rattle.fp_edit.specs.Following.{change_of, changes_of, unconditional};
ghost use Rattle.fp_edit.specs.Keys.{AreMet};
ghost use Rattle.fp_edit.specs.Parts.{delete, free, keys_of, part_key, parts_of, proposed_of};
ghost use Rattle.fp_record.specs.Fields.{Tells};
ghost use Rattle.fp_record.specs.Reading.{change_at, changes_at, many_from, new_key_at, next_part};
ghost use Rattle.fp_record.specs.Reading.{delete_at, part_at, part_count, put_at, put_with};
ghost use Rattle.fp_record.specs.Reading.{set_at};
ghost use Rattle.fp_record.specs.declared.fault.RecordFault.TheVariants.{Memory};

use crate::batch::{DELETE_KIND, PUT_KIND, SET_KIND};
use crate::fault::RecordFault;
use crate::fields::{definition_from, key_of, key_text_at, u8_at, u16_at};
use fp_definition::LONGEST_KEY;
use fp_edit::{
    Change, Changes, Edit, Expect, FlagSet, LONGEST_EDIT, MOST_CHANGES, MetKeys, definition_under,
};
use std::alloc::Global;

// The text of a key that was not met before, and the place behind it. It is met then.
#[tactic(auto, unfolding(crate::specs::Reading::new_key_at))]
fn new_key_from<'a>(
    bytes: &'a [u8],
    met: &mut MetKeys<'a>,
    at: usize,
) -> Result<(&'a str, usize), RecordFault>
    requires { at ≤ length bytes.now }
    ensures value { Gives (λ x. (x.0.now, x.1)) Tells result
        (new_key_at met.old bytes.now at) }
    ensures met { IfOk result (λ x. AreMet met.new (x.0.now ∷ met.old)) }
    ensures within { IfOk result (λ x. x.1 ≤ length bytes.now) }
    ensures short { IfOk result (λ x. (0 < length x.0.now) × (length x.0.now ≤ LONGEST_KEY)) }
{
    let (text, next) = key_text_at(bytes, at)?;
    if !met.meet(text)? {
        return Err(RecordFault::BadRecord { at: at + 2 });
    }
    Ok((text, next))
}

// The put of this key with the definition that is there, and the place behind it.
fn put_with(
    alloc: Global,
    set: Option<&FlagSet>,
    bytes: &[u8],
    key: &str,
    at: usize,
) -> Result<(Change, usize), RecordFault>
    requires within { at ≤ length bytes.now }
    requires short { (0 < length key.now) × (length key.now ≤ LONGEST_KEY) }
    ensures free { IfOk result (λ x. proposed_of x.0 ≡ free (proposed_of x.0).part) }
    ensures value { Gives (λ x. ((proposed_of x.0).part, x.1)) Tells result
        (put_with key.now bytes.now at) }
    ensures within { IfOk result (λ x. x.1 ≤ length bytes.now) }
{
    let key = key_of(alloc, key)?;
    let (flag, next) = definition_from(alloc, bytes, at, definition_under(set, &key))?;
    let expect = Expect::Any;
    Ok((Change::Put { key, flag, expect }, next))
}

// The deletion of that key.
fn delete_of(alloc: Global, key: &str) -> Result<Change, RecordFault>
    requires { (0 < length key.now) × (length key.now ≤ LONGEST_KEY) }
    ensures free { IfOk result (λ c. proposed_of c ≡ free (proposed_of c).part) }
    ensures part { IfOk result (λ c. (proposed_of c).part ≡ delete key.now) }
    ensures memory { IfErr result (λ e. e ≡ Memory) }
{
    let key = key_of(alloc, key)?;
    let expect = Expect::Any;
    Ok(Change::Delete { key, expect })
}

// What stands behind the kind of a put in a set.
#[tactic(auto, unfolding(crate::specs::Reading::put_at))]
fn put_from<'a>(
    alloc: Global,
    set: Option<&FlagSet>,
    bytes: &'a [u8],
    met: &mut MetKeys<'a>,
    at: usize,
) -> Result<(Change, usize), RecordFault>
    requires { at ≤ length bytes.now }
    ensures free { IfOk result (λ x. proposed_of x.0 ≡ free (proposed_of x.0).part) }
    ensures value { Gives (λ x. ((proposed_of x.0).part, x.1)) Tells result
        (put_at met.old bytes.now at) }
    ensures met { IfOk result (λ x. AreMet met.new (part_key (proposed_of x.0).part ∷ met.old)) }
    ensures within { IfOk result (λ x. x.1 ≤ length bytes.now) }
{
    let (key, next) = new_key_from(bytes, met, at)?;
    put_with(alloc, set, bytes, key, next)
}

// What stands behind that of a deletion.
#[tactic(auto, unfolding(crate::specs::Reading::delete_at))]
fn delete_from<'a>(
    alloc: Global,
    bytes: &'a [u8],
    met: &mut MetKeys<'a>,
    at: usize,
) -> Result<(Change, usize), RecordFault>
    requires { at ≤ length bytes.now }
    ensures free { IfOk result (λ x. proposed_of x.0 ≡ free (proposed_of x.0).part) }
    ensures value { Gives (λ x. ((proposed_of x.0).part, x.1)) Tells result
        (delete_at met.old bytes.now at) }
    ensures met { IfOk result (λ x. AreMet met.new (part_key (proposed_of x.0).part ∷ met.old)) }
    ensures within { IfOk result (λ x. x.1 ≤ length bytes.now) }
{
    let (key, next) = new_key_from(bytes, met, at)?;
    Ok((delete_of(alloc, key)?, next))
}

// The part of a set at this place, by an editor that expects nothing, whose key was not met before,
// and the place behind it.
#[tactic(auto, unfolding(crate::specs::Reading::part_at))]
fn part_from<'a>(
    alloc: Global,
    set: Option<&FlagSet>,
    bytes: &'a [u8],
    met: &mut MetKeys<'a>,
    at: usize,
) -> Result<(Change, usize), RecordFault>
    requires { at ≤ length bytes.now }
    ensures free { IfOk result (λ x. proposed_of x.0 ≡ free (proposed_of x.0).part) }
    ensures value { Gives (λ x. ((proposed_of x.0).part, x.1)) Tells result
        (part_at met.old bytes.now at) }
    ensures met { IfOk result (λ x. AreMet met.new (part_key (proposed_of x.0).part ∷ met.old)) }
    ensures within { IfOk result (λ x. x.1 ≤ length bytes.now) }
{
    let (kind, next) = u8_at(bytes, at)?;
    match kind {
        PUT_KIND => put_from(alloc, set, bytes, met, next),
        DELETE_KIND => delete_from(alloc, bytes, met, next),
        _ => Err(RecordFault::BadRecord { at }),
    }
}

// The change to one flag at this place, of whatever key, and the place behind it.
#[tactic(auto, unfolding(crate::specs::Reading::part_at))]
fn single_from(
    alloc: Global,
    set: Option<&FlagSet>,
    bytes: &[u8],
    at: usize,
) -> Result<(Change, usize), RecordFault>
    requires { at ≤ length bytes.now }
    ensures free { IfOk result (λ x. proposed_of x.0 ≡ free (proposed_of x.0).part) }
    ensures value { Gives (λ x. ((proposed_of x.0).part, x.1)) Tells result
        (part_at [] bytes.now at) }
    ensures within { IfOk result (λ x. x.1 ≤ length bytes.now) }
{
    let (kind, next) = u8_at(bytes, at)?;
    match kind {
        PUT_KIND => single_put_from(alloc, set, bytes, next),
        DELETE_KIND => single_delete_from(alloc, bytes, next),
        _ => Err(RecordFault::BadRecord { at }),
    }
}

// What stands behind the kind of its put.
#[tactic(auto, unfolding(crate::specs::Reading::new_key_at, crate::specs::Reading::put_at))]
fn single_put_from(
    alloc: Global,
    set: Option<&FlagSet>,
    bytes: &[u8],
    at: usize,
) -> Result<(Change, usize), RecordFault>
    requires { at ≤ length bytes.now }
    ensures free { IfOk result (λ x. proposed_of x.0 ≡ free (proposed_of x.0).part) }
    ensures value { Gives (λ x. ((proposed_of x.0).part, x.1)) Tells result
        (put_at [] bytes.now at) }
    ensures within { IfOk result (λ x. x.1 ≤ length bytes.now) }
{
    let (key, next) = key_text_at(bytes, at)?;
    put_with(alloc, set, bytes, key, next)
}

// What stands behind that of its deletion.
#[tactic(auto, unfolding(crate::specs::Reading::new_key_at, crate::specs::Reading::delete_at))]
fn single_delete_from(
    alloc: Global,
    bytes: &[u8],
    at: usize,
) -> Result<(Change, usize), RecordFault>
    requires { at ≤ length bytes.now }
    ensures free { IfOk result (λ x. proposed_of x.0 ≡ free (proposed_of x.0).part) }
    ensures value { Gives (λ x. ((proposed_of x.0).part, x.1)) Tells result
        (delete_at [] bytes.now at) }
    ensures within { IfOk result (λ x. x.1 ≤ length bytes.now) }
{
    let (key, next) = key_text_at(bytes, at)?;
    Ok((delete_of(alloc, key)?, next))
}

// How many parts a set has, and the place of the first.
#[tactic(auto, unfolding(crate::specs::Reading::part_count))]
fn part_count_from(bytes: &[u8], at: usize) -> Result<(u16, usize), RecordFault>
    requires { at ≤ length bytes.now }
    ensures value { Gives (λ x. x) Tells result (part_count bytes.now at) }
    ensures within { IfOk result (λ x. x.1 ≤ length bytes.now) }
    ensures no_memory { IfErr result (λ e. e ≢ Memory) }
{
    let (count, next) = u16_at(bytes, at)?;
    if count == 0 || count as usize > MOST_CHANGES {
        return Err(RecordFault::BadRecord { at });
    }
    Ok((count, next))
}

// So many parts of a set, of which no two are of one key, and the place behind them.
#[tactic(auto, unfolding(crate::specs::Reading::many_from))]
fn parts_from(
    alloc: Global,
    set: Option<&FlagSet>,
    bytes: &[u8],
    count: u16,
    at: usize,
) -> Result<(Vec<Change>, usize), RecordFault>
    requires { at ≤ length bytes.now }
    ensures free { IfOk result (λ x. map proposed_of x.0.items
        ≡ map free (parts_of (map proposed_of x.0.items))) }
    ensures value { Gives (λ x. (parts_of (map proposed_of x.0.items), (keys_of x.0.items, x.1)))
        Tells result (many_from (next_part bytes.now) count ([], at)) }
    ensures within { IfOk result (λ x. x.1 ≤ length bytes.now) }
{
    let mut met = MetKeys::new(alloc);
    let mut parts = Vec::new(alloc);
    let mut place = at;
    for _ in 0..count {
        let (part, next) = part_from(alloc, set, bytes, &mut met, place)?;
        parts.push(part)?;
        place = next;
    }
    Ok((parts, place))
}

// The set whose kind is at the one place and its number of parts at the other, and the place
// behind it.
#[tactic(auto, unfolding(crate::specs::Reading::set_at))]
fn set_from(
    alloc: Global,
    set: Option<&FlagSet>,
    bytes: &[u8],
    kind: usize,
    at: usize,
) -> Result<(Edit, usize), RecordFault>
    requires { (at ≡ kind + 1) × (at ≤ length bytes.now) }
    ensures free { IfOk result (λ x. proposal_of x.0 ≡ unconditional (change_of x.0)) }
    ensures value { Gives (λ x. (change_of x.0, x.1)) Tells result (set_at bytes.now kind at) }
    ensures within { IfOk result (λ x. x.1 ≤ length bytes.now) }
{
    let (count, next) = part_count_from(bytes, at)?;
    let (parts, next) = parts_from(alloc, set, bytes, count, next)?;
    if next > kind + LONGEST_EDIT {
        return Err(RecordFault::BadRecord { at: kind });
    }
    // Their number and their keys were tested as they were read.
    Ok((Edit::Set(Changes::of_lawful(parts)), next))
}

/// The edit at this place, by an editor that expects nothing, and the place behind it. For who
/// makes the edits of a batch one by one. A definition for a flag of the set, if there is one, is
/// read beside the flag's.
#[tactic(auto, unfolding(crate::specs::Reading::change_at))]
pub fn edit_from(
    alloc: Global,
    set: Option<&FlagSet>,
    bytes: &[u8],
    at: usize,
) -> Result<(Edit, usize), RecordFault>
    // The place lies within the bytes, or at their end.
    requires { at ≤ length bytes.now }
    // `Ok`: its editor expects nothing, of no change of a set either.
    ensures free { IfOk result (λ x. proposal_of x.0 ≡ unconditional (change_of x.0)) }
    // The edit that stands there, or the first field that can't stand there, or `Memory`.
    ensures value { Gives (λ x. (change_of x.0, x.1)) Tells result (change_at bytes.now at) }
    // `Ok`: the place behind it lies within the bytes, or at their end.
    ensures within { IfOk result (λ x. x.1 ≤ length bytes.now) }
{
    let (kind, next) = u8_at(bytes, at)?;
    if kind == SET_KIND {
        return set_from(alloc, set, bytes, at, next);
    }
    let (change, next) = single_from(alloc, set, bytes, at)?;
    Ok((Edit::from(change), next))
}

/// So many edits, and the place behind them.
#[tactic(auto, unfolding(crate::specs::Reading::many_from))]
pub fn edits_from(
    alloc: Global,
    bytes: &[u8],
    count: u16,
    at: usize,
) -> Result<(Vec<Edit>, usize), RecordFault>
    requires { at ≤ length bytes.now }
    ensures value { Gives (λ x. (changes_of x.0.items, x.1)) Tells result
        (changes_at count bytes.now at) }
    ensures count { IfOk result (λ x. length x.0.items ≡ count) }
    ensures within { IfOk result (λ x. x.1 ≤ length bytes.now) }
{
    let mut edits = Vec::new(alloc);
    let mut place = at;
    for _ in 0..count {
        let (edit, next) = edit_from(alloc, None, bytes, place)?;
        edits.push(edit)?;
        place = next;
    }
    Ok((edits, place))
}
