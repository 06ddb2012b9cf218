//! The changes of a set, made in two walks: what is put comes first, since it may lack memory.

ghost use Rattle.std.specs.Prelude.{◌≡◌, ◌+◌, ◌*◌, ◌<◌, ◌≤◌, ◌^◌, ℕ, [], ◌∷◌, true, is_some, None};
ghost use Rattle.std.specs.Prelude.{length, map as map_of, IfOk, OnOk, OnErr};
ghost use Rattle.std.specs.BTreeMap.{IsOrdered};
ghost use Rattle.std.specs.FinMap as map;
ghost use Rattle.fp_definition.specs.Key.{key_bytes, flag_cmp};
ghost use Rattle.fp_edit.specs.Admits.{parts_after};
ghost use Rattle.fp_documents.specs.Entries.{flags_of};
ghost use Rattle.fp_edit.specs.Flags.{cost_found, size as size_of};
ghost use Rattle.fp_edit.specs.Parts.{parts_of, proposed_of};
ghost use Rattle.fp_edit.specs.Puts.{HasPut, any_new, change_before, definition_before};
ghost use Rattle.fp_edit.specs.Puts.{deletes_of, flags_before, puts_of, replaced, with_flag};

use crate::changes::MOST_CHANGES;
use crate::edit::Change;
use fp_definition::{Definition, FlagKey};
use fp_documents::{Flag, cost_of, store, take};
use std::alloc::AllocError;
use std::collections::BTreeMap;
use std::mem;

/// The bytes that changes bring into an image, and those that they take out of it.
#[derive(Clone, Copy)]
pub(crate) struct Shift {
    pub(crate) come: u128,
    pub(crate) gone: u128,
}

/// Makes what changes put, and answers how the image changes by that. A change whose key had a flag
/// has that flag's definition then. Where memory is wanting nothing is made, and the changes are as
/// they were.
pub(crate) fn make_puts(
    flags: &mut BTreeMap<FlagKey, Flag>,
    changes: &mut [Change],
    revision: u64,
) -> Result<Shift, AllocError>
    requires ordered { IsOrdered flag_cmp flags.old }
    requires few { length changes.old ≤ MOST_CHANGES }
    ensures made { OnOk result (flags_of flags.new.entries
        ≡ parts_after revision (flags_of flags.old.entries)
        (puts_of (parts_of (map_of proposed_of changes.old)))) }
    ensures deletes { deletes_of (parts_of (map_of proposed_of changes.new))
        ≡ deletes_of (parts_of (map_of proposed_of changes.old)) }
    ensures size { IfOk result (λ s. size_of (flags_of flags.new.entries) + s.gone
        ≡ size_of (flags_of flags.old.entries) + s.come) }
    ensures small { IfOk result (λ s. (s.come ≤ length changes.old * 2 ^ 66)
        × (s.gone ≤ length changes.old * 2 ^ 66)) }
    ensures new { OnErr result (any_new (flags_of flags.old.entries)
        (parts_of (map_of proposed_of changes.old)) ≡ true) }
    ensures unchanged { OnErr result (flags_of flags.new.entries ≡ flags_of flags.old.entries) }
    ensures given_back { OnErr result (map_of proposed_of changes.new
        ≡ map_of proposed_of changes.old) }
    ensures ordered { IsOrdered flag_cmp flags.new }
{
    if changes.is_empty() {
        return Ok(Shift { come: 0, gone: 0 });
    }
    let first = make_put(flags, &mut changes[0], revision)?;
    match make_puts(flags, &mut changes[1..], revision) {
        Ok(shift) => Ok(Shift {
            come: first.shift.come + shift.come,
            gone: first.shift.gone + shift.gone,
        }),
        Err(e) => {
            undo_put(flags, &mut changes[0], first.before);
            Err(e)
        }
    }
}

// How the image changes by a change that puts, and the revision of the flag that it replaces.
#[derive(Clone, Copy)]
struct Step {
    shift: Shift,
    before: Option<u64>,
}

// The same of one change.
fn make_put(
    flags: &mut BTreeMap<FlagKey, Flag>,
    change: &mut Change,
    revision: u64,
) -> Result<Step, AllocError>
    requires { IsOrdered flag_cmp flags.old }
    ensures made { OnOk result (flags_of flags.new.entries
        ≡ parts_after revision (flags_of flags.old.entries)
        (puts_of ((proposed_of change.old).part ∷ []))) }
    ensures deletes { deletes_of ((proposed_of change.new).part ∷ [])
        ≡ deletes_of ((proposed_of change.old).part ∷ []) }
    ensures size { IfOk result (λ p. size_of (flags_of flags.new.entries) + p.shift.gone
        ≡ size_of (flags_of flags.old.entries) + p.shift.come) }
    ensures small { IfOk result (λ p. (p.shift.come < 2 ^ 66) × (p.shift.gone < 2 ^ 66)) }
    ensures before { IfOk result (λ p. flags_before (flags_of flags.new.entries)
        (proposed_of change.new).part p.before ≡ flags_of flags.old.entries) }
    ensures change { IfOk result (λ p. change_before (flags_of flags.new.entries)
        (proposed_of change.new) p.before ≡ proposed_of change.old) }
    ensures there { OnOk result (HasPut (flags_of flags.new.entries) (proposed_of change.new).part) }
    ensures new { OnErr result (any_new (flags_of flags.old.entries)
        ((proposed_of change.old).part ∷ []) ≡ true) }
    ensures unchanged { OnErr result (flags_of flags.new.entries ≡ flags_of flags.old.entries) }
    ensures given_back { OnErr result (proposed_of change.new ≡ proposed_of change.old) }
    ensures ordered { IsOrdered flag_cmp flags.new }
{
    let Change::Put { key, flag, .. } = change else {
        return Ok(Step {
            shift: Shift { come: 0, gone: 0 },
            before: None,
        });
    };
    let come = cost_of(key, flag);
    let before = put(flags, key, flag, revision)?;
    let gone = cost_before(key, flag, before);
    Ok(Step {
        shift: Shift { come, gone },
        before,
    })
}

// Undoes what a change put, if it replaced a flag of this revision.
fn undo_put(flags: &mut BTreeMap<FlagKey, Flag>, change: &mut Change, before: Option<u64>)
    requires ordered { IsOrdered flag_cmp flags.old }
    requires there { HasPut (flags_of flags.old.entries) (proposed_of change.old).part }
    ensures flags { flags_of flags.new.entries
        ≡ flags_before (flags_of flags.old.entries) (proposed_of change.old).part before }
    ensures change { proposed_of change.new
        ≡ change_before (flags_of flags.old.entries) (proposed_of change.old) before }
    ensures ordered { IsOrdered flag_cmp flags.new }
{
    if let Change::Put { key, flag, .. } = change {
        put_back(flags, key, flag, before);
    }
}

// Puts a flag under a key. Where one was there, it answers at which revision that was put, and its
// definition takes the place of the other.
fn put(
    flags: &mut BTreeMap<FlagKey, Flag>,
    key: &FlagKey,
    flag: &mut Definition,
    revision: u64,
) -> Result<Option<u64>, AllocError>
    ensures put { OnOk result (flags_of flags.new.entries
        ≡ map.insert (flags_of flags.old.entries) (key_bytes key.now)
        (record { definition = flag.old; changed = revision })) }
    ensures before { IfOk result (λ b. map.get (flags_of flags.old.entries) (key_bytes key.now)
        ≡ replaced flag.new b) }
    ensures kept { IfOk result (λ b. b ≡ None → flag.new ≡ flag.old) }
    ensures new { OnErr result (map.get (flags_of flags.old.entries) (key_bytes key.now) ≡ None) }
    ensures unchanged { OnErr result (flags_of flags.new.entries ≡ flags_of flags.old.entries) }
    ensures given_back { OnErr result (flag.new ≡ flag.old) }
    ensures ordered { IsOrdered flag_cmp flags.new }
{
    if let Some(found) = flags.get_mut(key) {
        mem::swap(&mut found.definition, flag);
        return Ok(Some(mem::replace(&mut found.changed, revision)));
    }
    add(flags, key, flag, revision)?;
    Ok(None)
}

// Puts a share of a flag under a key.
fn add(
    flags: &mut BTreeMap<FlagKey, Flag>,
    key: &FlagKey,
    flag: &Definition,
    revision: u64,
) -> Result<(), AllocError>
    requires { IsOrdered flag_cmp flags.old }
    ensures put { OnOk result (flags_of flags.new.entries
        ≡ map.insert (flags_of flags.old.entries) (key_bytes key.now)
        (record { definition = flag.now; changed = revision })) }
    ensures unchanged { OnErr result (flags_of flags.new.entries ≡ flags_of flags.old.entries) }
    ensures ordered { IsOrdered flag_cmp flags.new }
{
    let copy = Flag {
        definition: flag.try_copy()?,
        changed: revision,
    };
    store(flags, key.try_copy()?, copy)?;
    Ok(())
}

// What a flag took of an image that was replaced, 0 where there was none.
fn cost_before(key: &FlagKey, flag: &Definition, before: Option<u64>) -> u128
    ensures cost { result ≡ cost_found (key_bytes key.now) (replaced flag.now before) }
    ensures small { result < 2 ^ 66 }
{
    match before {
        Some(_) => cost_of(key, flag),
        None => 0,
    }
}

// Undoes a put that replaced a flag of this revision, if there was one.
fn put_back(
    flags: &mut BTreeMap<FlagKey, Flag>,
    key: &FlagKey,
    flag: &mut Definition,
    before: Option<u64>,
)
    requires ordered { IsOrdered flag_cmp flags.old }
    requires there { is_some (map.get (flags_of flags.old.entries) (key_bytes key.now)) ≡ true }
    ensures flags { flags_of flags.new.entries ≡ with_flag (flags_of flags.old.entries)
        (key_bytes key.now) (replaced flag.old before) }
    ensures definition { flag.new
        ≡ definition_before (flags_of flags.old.entries) (key_bytes key.now) flag.old before }
    ensures ordered { IsOrdered flag_cmp flags.new }
{
    let Some(changed) = before else {
        take(flags, key);
        return;
    };
    let Ok(_) = put(flags, key, flag, changed) else {
        unreachable!();
    };
}

/// Makes what changes delete, and answers the bytes that go out of an image.
pub(crate) fn make_deletes(flags: &mut BTreeMap<FlagKey, Flag>, changes: &[Change]) -> u128
    requires ordered { IsOrdered flag_cmp flags.old }
    requires few { length changes.now ≤ MOST_CHANGES }
    ensures made { (revision : ℕ) → flags_of flags.new.entries
        ≡ parts_after revision (flags_of flags.old.entries)
        (deletes_of (parts_of (map_of proposed_of changes.now))) }
    ensures size { size_of (flags_of flags.new.entries) + result
        ≡ size_of (flags_of flags.old.entries) }
    ensures small { result ≤ length changes.now * 2 ^ 66 }
    ensures ordered { IsOrdered flag_cmp flags.new }
{
    let mut gone = 0;
    for change in changes {
        gone += make_delete(flags, change);
    }
    gone
}

// The same of one change.
fn make_delete(flags: &mut BTreeMap<FlagKey, Flag>, change: &Change) -> u128
    requires { IsOrdered flag_cmp flags.old }
    ensures made { (revision : ℕ) → flags_of flags.new.entries
        ≡ parts_after revision (flags_of flags.old.entries)
        (deletes_of ((proposed_of change.now).part ∷ [])) }
    ensures size { size_of (flags_of flags.new.entries) + result
        ≡ size_of (flags_of flags.old.entries) }
    ensures small { result < 2 ^ 66 }
    ensures ordered { IsOrdered flag_cmp flags.new }
{
    match change {
        Change::Put { .. } => 0,
        Change::Delete { key, .. } => take(flags, key),
    }
}
