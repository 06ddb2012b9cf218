//! Flags by their keys.

ghost use Rattle.std.specs.Prelude.{◌≡◌, ◌+◌, ◌<◌, ◌^◌};
ghost use Rattle.std.specs.Prelude.{length, IfOk, OnOk, OnErr, IfErr};
ghost use Rattle.std.specs.Option.{option_copied};
ghost use Rattle.std.specs.BTreeMap.{IsOrdered};
ghost use Rattle.std.specs.FinMap as map;
ghost use Rattle.fp_definition.specs.Key.{key_bytes, flag_cmp};
ghost use Rattle.fp_documents.specs.Entries.{flags_of};
ghost use Rattle.fp_documents.specs.Flags.{cost_found};
ghost use Rattle.fp_documents.specs.declared.flags.TheConstants.{FLAG_FRAME};

use fp_definition::{Definition, FlagKey};
use std::alloc::{AllocError, AllocFailed, Global};
use std::collections::BTreeMap;

/// How many bytes an image takes beside its flags: those of their number.
pub const IMAGE_HEAD: u64 = 4;

/// How many bytes of an image a flag takes beside its key and its definition: those of their
/// lengths, and of the revision that changed it last.
pub const FLAG_FRAME: u128 = 14;

/// A flag of a set.
#[derive(Drop)]
pub struct Flag {
    /// What the flag is.
    pub definition: Definition,
    /// The revision that put this definition here.
    pub changed: u64,
}

/// The key's flag, `None` exactly where there is none.
pub fn find<'a>(flags: &'a BTreeMap<FlagKey, Flag>, key: &FlagKey) -> Option<&'a Flag>
    ensures { option_copied result ≡ map.get (flags_of flags.now.entries) (key_bytes key.now) }
{
    flags.get(key)
}

/// Stores a flag under a key, and answers what the flag that it replaces took in an image.
pub fn store(
    flags: &mut BTreeMap<FlagKey, Flag>,
    key: FlagKey,
    flag: Flag,
) -> Result<u128, AllocFailed<(FlagKey, Flag)>>
    // `Ok`: the bytes that the key's flag took before, 0 without one.
    ensures before { IfOk result (λ n. n ≡ cost_found (key_bytes key)
        (map.get (flags_of flags.old.entries) (key_bytes key))) }
    // `Ok`: the flag stands under the key, and all others stay.
    ensures stored { OnOk result
        (flags_of flags.new.entries
        ≡ map.insert (flags_of flags.old.entries) (key_bytes key) flag) }
    // An `Err` gives key and flag back.
    ensures given_back { IfErr result (λ e. e.value ≡ (key, flag)) }
    // An `Err` leaves the flags as they were.
    ensures unchanged { OnErr result (flags_of flags.new.entries ≡ flags_of flags.old.entries) }
    // The keys ascend.
    ensures ordered { IsOrdered flag_cmp flags.new }
{
    let len = key.as_str().len();
    match flags.insert(key, flag) {
        Ok(Some(before)) => Ok(FLAG_FRAME + len as u128 + before.definition.text().len() as u128),
        Ok(None) => Ok(0),
        Err(e) => Err(e),
    }
}

/// Takes a key's flag away, and answers what it took in an image.
pub fn take(flags: &mut BTreeMap<FlagKey, Flag>, key: &FlagKey) -> u128
    // The keys ascend.
    requires { IsOrdered flag_cmp flags.old }
    // The bytes that the key's flag took, 0 without one.
    ensures before { result ≡ cost_found (key_bytes key.now)
        (map.get (flags_of flags.old.entries) (key_bytes key.now)) }
    // They are fewer than 2^66.
    ensures small { result < 2 ^ 66 }
    // The key has no flag, and all others stay.
    ensures taken { flags_of flags.new.entries
        ≡ map.remove (flags_of flags.old.entries) (key_bytes key.now) }
    // The keys ascend.
    ensures ordered { IsOrdered flag_cmp flags.new }
{
    match flags.remove(key) {
        Some(flag) => cost_of(key, &flag.definition),
        None => 0,
    }
}

/// How many flags there are.
pub fn count(flags: &BTreeMap<FlagKey, Flag>) -> usize
    ensures { result ≡ map.len (flags_of flags.now.entries) }
{
    flags.len()
}

/// How many bytes a key and its definition take in an image.
pub fn cost_of(key: &FlagKey, definition: &Definition) -> u128
    // `FLAG_FRAME` with the bytes of both.
    ensures cost { result ≡ FLAG_FRAME + length (key_bytes key.now) + length definition.now }
    // They are fewer than 2^66.
    ensures small { result < 2 ^ 66 }
{
    FLAG_FRAME + key.as_str().len() as u128 + definition.text().len() as u128
}

/// How many bytes a key's flag takes in an image.
pub fn cost_at(flags: &BTreeMap<FlagKey, Flag>, key: &FlagKey) -> u128
    // As of `cost_of`, 0 without a flag.
    ensures cost { result ≡ cost_found (key_bytes key.now)
        (map.get (flags_of flags.now.entries) (key_bytes key.now)) }
    // They are fewer than 2^66.
    ensures small { result < 2 ^ 66 }
{
    match find(flags, key) {
        Some(flag) => cost_of(key, &flag.definition),
        None => 0,
    }
}

/// Equal flags, which share the definitions.
pub fn copy_of(
    alloc: Global,
    flags: &BTreeMap<FlagKey, Flag>,
) -> Result<BTreeMap<FlagKey, Flag>, AllocError>
    ensures copied { IfOk result (λ copy. flags_of copy.entries ≡ flags_of flags.now.entries) }
    // `Ok`: the keys ascend.
    ensures ordered { IfOk result (λ copy. IsOrdered flag_cmp copy) }
{
    let mut pairs = Vec::with_capacity(alloc, flags.len())?;
    for (key, flag) in flags.iter() {
        let shared = Flag {
            definition: flag.definition.try_copy()?,
            changed: flag.changed,
        };
        pairs.push((key.try_copy()?, shared))?;
    }
    Ok(pairs.into_iter().collect(alloc)?)
}
