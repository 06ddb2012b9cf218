//! Fields from an offset on, each with the offset behind it.

ghost use Rattle.std.specs.Prelude.{◌≡◌, ◌≢◌, ◌≤◌, ◌<◌, ◌+◌, length, IfOk, IfErr, is_some, IfSome};
ghost use Rattle.std.specs.Int.{w8, w16, w32, w64};
ghost use Rattle.std.specs.Str.{is_utf8};
ghost use Rattle.fp_base.specs.Answer.{Gives};
ghost use Rattle.fp_definition.specs.Key.{key_bytes};
ghost use Rattle.fp_record.specs.declared.fault.RecordFault.TheVariants.{Memory};
ghost use Rattle.fp_record.specs.Fields.{Tells, number_at, bytes_at, key_at, definition_at};

use crate::fault::RecordFault;
use fp_definition::{Definition, FlagKey, KeyFault, LONGEST_DEFINITION, LONGEST_KEY};
use std::alloc::Global;

/// The byte at this place, and the place behind it.
pub fn u8_at(bytes: &[u8], at: usize) -> Result<(u8, usize), RecordFault>
    // The place lies within the bytes, or at their end.
    requires { at ≤ length bytes.now }
    // The number that stands there, or `BadRecord` at this place where bytes are missing.
    ensures value { Gives (λ x. x) Tells result (number_at w8 bytes.now at) }
    // `Ok`: the place behind it lies within the bytes, or at their end.
    ensures within { IfOk result (λ x. x.1 ≤ length bytes.now) }
    // It takes no memory, and never answers `Memory`.
    ensures no_memory { IfErr result (λ e. e ≢ Memory) }
{
    if bytes.len() - at < 1 {
        return Err(RecordFault::BadRecord { at });
    }
    Ok((bytes[at], at + 1))
}

pub fn u16_at(bytes: &[u8], at: usize) -> Result<(u16, usize), RecordFault>
    requires { at ≤ length bytes.now }
    ensures value { Gives (λ x. x) Tells result (number_at w16 bytes.now at) }
    ensures within { IfOk result (λ x. x.1 ≤ length bytes.now) }
    ensures no_memory { IfErr result (λ e. e ≢ Memory) }
{
    if bytes.len() - at < 2 {
        return Err(RecordFault::BadRecord { at });
    }
    Ok((u16::from_be_bytes([bytes[at], bytes[at + 1]]), at + 2))
}

pub fn u32_at(bytes: &[u8], at: usize) -> Result<(u32, usize), RecordFault>
    requires { at ≤ length bytes.now }
    ensures value { Gives (λ x. x) Tells result (number_at w32 bytes.now at) }
    ensures within { IfOk result (λ x. x.1 ≤ length bytes.now) }
    ensures no_memory { IfErr result (λ e. e ≢ Memory) }
{
    if bytes.len() - at < 4 {
        return Err(RecordFault::BadRecord { at });
    }
    let number = u32::from_be_bytes([bytes[at], bytes[at + 1], bytes[at + 2], bytes[at + 3]]);
    Ok((number, at + 4))
}

/// The number in the eight bytes from this place on, the highest byte first, and the place behind
/// it.
pub fn u64_at(bytes: &[u8], at: usize) -> Result<(u64, usize), RecordFault>
    // The place lies within the bytes, or at their end.
    requires { at ≤ length bytes.now }
    // The number that stands there, or `BadRecord` at this place where bytes are missing.
    ensures value { Gives (λ x. x) Tells result (number_at w64 bytes.now at) }
    // `Ok`: the place behind it lies within the bytes, or at their end.
    ensures within { IfOk result (λ x. x.1 ≤ length bytes.now) }
    // It takes no memory, and never answers `Memory`.
    ensures no_memory { IfErr result (λ e. e ≢ Memory) }
{
    if bytes.len() - at < 8 {
        return Err(RecordFault::BadRecord { at });
    }
    let number = u64::from_be_bytes([
        bytes[at],
        bytes[at + 1],
        bytes[at + 2],
        bytes[at + 3],
        bytes[at + 4],
        bytes[at + 5],
        bytes[at + 6],
        bytes[at + 7],
    ]);
    Ok((number, at + 8))
}

fn part_at(bytes: &[u8], len: usize, at: usize) -> Result<(&[u8], usize), RecordFault>
    requires { at ≤ length bytes.now }
    ensures value { Gives (λ x. (x.0.now, x.1)) Tells result (bytes_at len bytes.now at) }
    ensures within { IfOk result (λ x. x.1 ≤ length bytes.now) }
    ensures no_memory { IfErr result (λ e. e ≢ Memory) }
{
    if bytes.len() - at < len {
        return Err(RecordFault::BadRecord { at });
    }
    Ok((&bytes[at..at + len], at + len))
}

fn text_of(bytes: &[u8]) -> Option<&str>
    ensures utf8 { is_some result ≡ is_utf8 bytes.now }
    ensures value { IfSome result (λ text. text.now ≡ bytes.now) }
{
    str::from_utf8(bytes).ok()
}

/// The bytes of a key, which is not yet kept.
#[tactic(auto, unfolding(crate::specs::Fields::key_at))]
pub fn key_text_at(bytes: &[u8], at: usize) -> Result<(&str, usize), RecordFault>
    requires { at ≤ length bytes.now }
    ensures value { Gives (λ x. (x.0.now, x.1)) Tells result (key_at bytes.now at) }
    ensures within { IfOk result (λ x. x.1 ≤ length bytes.now) }
    ensures short { IfOk result (λ x. (0 < length x.0.now) × (length x.0.now ≤ LONGEST_KEY)) }
    ensures ends { IfOk result (λ x. x.1 ≡ at + 2 + length x.0.now) }
    ensures no_memory { IfErr result (λ e. e ≢ Memory) }
{
    let (len, from) = u16_at(bytes, at)?;
    if len == 0 || len as usize > LONGEST_KEY {
        return Err(RecordFault::BadRecord { at });
    }
    let (key, next) = part_at(bytes, len as usize, from)?;
    match text_of(key) {
        Some(text) => Ok((text, next)),
        None => Err(RecordFault::BadRecord { at: from }),
    }
}

/// The key of that text.
pub fn key_of(alloc: Global, text: &str) -> Result<FlagKey, RecordFault>
    requires { (0 < length text.now) × (length text.now ≤ LONGEST_KEY) }
    ensures key { IfOk result (λ key. key_bytes key ≡ text.now) }
    ensures memory { IfErr result (λ e. e ≡ Memory) }
{
    match FlagKey::new(alloc, text) {
        Ok(key) => Ok(key),
        Err(KeyFault::Memory | KeyFault::BadKey) => Err(RecordFault::Memory),
    }
}

/// The definition at this place, read beside another, if there is one that it may be like.
#[tactic(auto, unfolding(crate::specs::Fields::definition_at))]
pub fn definition_from(
    alloc: Global,
    bytes: &[u8],
    at: usize,
    other: Option<&Definition>,
) -> Result<(Definition, usize), RecordFault>
    requires { at ≤ length bytes.now }
    ensures value { Gives (λ x. x) Tells result (definition_at bytes.now at) }
    ensures within { IfOk result (λ x. x.1 ≤ length bytes.now) }
{
    let (len, from) = u32_at(bytes, at)?;
    if len as usize > LONGEST_DEFINITION {
        return Err(RecordFault::BadRecord { at });
    }
    let (text, next) = part_at(bytes, len as usize, from)?;
    match Definition::from_text_beside(alloc, text, other)? {
        Some(definition) => Ok((definition, next)),
        None => Err(RecordFault::BadRecord { at: from }),
    }
}
