//! Texts as JSON writes them: in quotes, with what it needs escaped.

ghost use Rattle.std.specs.Prelude.{◌≡◌, ◌+◌, ◌≤◌, ◌<◌, ◌++◌, ◌∷◌, ◌/◌, ◌%◌, [], OnOk};
ghost use Rattle.std.specs.Prelude.{length, take, drop, map};
ghost use Rattle.std.specs.Char.{digit_char};
ghost use Rattle.std.specs.List.{prefix_len};
ghost use Rattle.std.specs.Simd.Lanes.{mask_l};
ghost use Rattle.std.specs.Str.{IsUtf8};
ghost use Rattle.json.specs.Print.{escape, escape_byte, quoted};
ghost use Rattle.serde_json.specs.Data.{string};
ghost use Rattle.serde_json.specs.Written.{compact_text};
ghost use Rattle.fp_base.specs.Unescaped.{is_escaped, is_unescaped};

use std::alloc::AllocError;
use std::simd::prelude::*;

// So many bytes are looked at together.
const TOGETHER: usize = 16;

// Of fewer, so many.
const HALF: usize = 8;

/// How many bytes at the front a string has as they are.
#[inline(always)]
#[tactic(auto, using(crate::proofs::Unescaped::run_within, crate::proofs::Unescaped::run_written))]
pub fn unescaped_len(bytes: &[u8]) -> usize
    ensures value { result ≡ prefix_len is_unescaped bytes.now }
    ensures within { result ≤ length bytes.now }
    // JSON writes them so.
    ensures written { escape (take result bytes.now) ≡ take result bytes.now }
{
    run_len(bytes)
}

#[inline(always)]
fn run_len(bytes: &[u8]) -> usize
    ensures { result ≡ prefix_len is_unescaped bytes.now }
{
    let mut len = 0;
    while bytes.len() - len >= TOGETHER {
        let found = escaped_among(u8x16::from_slice(&bytes[len..]));
        if found != 0 {
            return len + found.trailing_zeros() as usize;
        }
        len += TOGETHER;
    }
    rest_len(bytes, len)
}

// A bit for each of the bytes, set where a string can't have it as it is.
#[inline(always)]
fn escaped_among(bytes: u8x16) -> u64
    ensures { result ≡ mask_l (map is_escaped bytes) }
{
    (bytes.simd_eq(u8x16::splat(b'"'))
        | bytes.simd_eq(u8x16::splat(b'\\'))
        | bytes.simd_lt(u8x16::splat(0x20))).to_bitmask()
}

// Where they end that begin at a place.
#[inline(always)]
fn rest_len(bytes: &[u8], from: usize) -> usize
    requires { from ≤ length bytes.now }
    ensures { result ≡ from + prefix_len is_unescaped (drop from bytes.now) }
{
    if bytes.len() - from < HALF {
        return one_by_one(bytes, from);
    }
    let found = escaped_among_half(u8x8::from_slice(&bytes[from..]));
    if found != 0 {
        return from + found.trailing_zeros() as usize;
    }
    one_by_one(bytes, from + HALF)
}

// A bit for each of the bytes, as of `escaped_among`.
#[inline(always)]
fn escaped_among_half(bytes: u8x8) -> u64
    ensures { result ≡ mask_l (map is_escaped bytes) }
{
    (bytes.simd_eq(u8x8::splat(b'"'))
        | bytes.simd_eq(u8x8::splat(b'\\'))
        | bytes.simd_lt(u8x8::splat(0x20))).to_bitmask()
}

// Where they end that begin at a place, looked at one by one.
#[inline(always)]
fn one_by_one(bytes: &[u8], from: usize) -> usize
    requires { from ≤ length bytes.now }
    ensures { result ≡ from + prefix_len is_unescaped (drop from bytes.now) }
{
    let mut len = from;
    while len < bytes.len() && is_unescaped(bytes[len]) {
        len += 1;
    }
    len
}

// Whether a string has the byte as it is: all but a quote, a backslash and the control bytes. Most
// that are asked for are letters.
#[inline(always)]
fn is_unescaped(byte: u8) -> bool
    ensures { result ≡ is_unescaped byte }
{
    byte > b'\\' || (byte >= 0x20 && byte != b'"' && byte != b'\\')
}

/// Puts a text as JSON writes it, in quotes and with what it needs escaped, behind what is there.
pub fn put_quoted(out: &mut Vec<u8>, text: &str) -> Result<(), AllocError>
    ensures text { OnOk result (out.new.items
        ≡ out.old.items ++ compact_text (string text.now)) }
    ensures utf8 { IsUtf8 (compact_text (string text.now)) }
{
    put_between_quotes(out, text.as_bytes())
}

fn put_between_quotes(out: &mut Vec<u8>, bytes: &[u8]) -> Result<(), AllocError>
    ensures { OnOk result (out.new.items ≡ out.old.items ++ quoted bytes.now) }
{
    out.reserve(bytes.len() + 2)?;
    out.push(b'"')?;
    let run = unescaped_len(bytes);
    out.extend_from_slice(&bytes[..run])?;
    put_escaped(out, &bytes[run..])?;
    out.push(b'"')?;
    Ok(())
}

// Puts what is left of a text, with what it needs escaped.
fn put_escaped(out: &mut Vec<u8>, bytes: &[u8]) -> Result<(), AllocError>
    ensures { OnOk result (out.new.items ≡ out.old.items ++ escape bytes.now) }
{
    let mut at = 0;
    while at < bytes.len() {
        put_byte(out, bytes[at])?;
        at += 1;
        let run = unescaped_len(&bytes[at..]);
        out.extend_from_slice(&bytes[at..at + run])?;
        at += run;
    }
    Ok(())
}

// Puts what stands in a string for a byte.
#[tactic(auto, unfolding(json::specs::Print::escape_byte))]
fn put_byte(out: &mut Vec<u8>, byte: u8) -> Result<(), AllocError>
    ensures { OnOk result (out.new.items ≡ out.old.items ++ escape_byte byte) }
{
    match byte {
        b'"' | b'\\' => put_letter(out, byte),
        8 => put_letter(out, b'b'),
        9 => put_letter(out, b't'),
        10 => put_letter(out, b'n'),
        12 => put_letter(out, b'f'),
        13 => put_letter(out, b'r'),
        0..32 => put_number(out, byte),
        _ => Ok(out.push(byte)?),
    }
}

// Puts a letter behind a backslash.
fn put_letter(out: &mut Vec<u8>, letter: u8) -> Result<(), AllocError>
    ensures { OnOk result (out.new.items ≡ out.old.items ++ 92 ∷ letter ∷ []) }
{
    out.push(b'\\')?;
    out.push(letter)?;
    Ok(())
}

// Puts a control byte by its number.
fn put_number(out: &mut Vec<u8>, byte: u8) -> Result<(), AllocError>
    requires { byte < 32 }
    ensures { OnOk result (out.new.items
        ≡ out.old.items ++ 92 ∷ 117 ∷ 48 ∷ 48 ∷ digit_char (byte / 16) ∷ digit_char (byte % 16) ∷ []) }
{
    out.extend_from_slice(b"\\u00")?;
    out.push(hex(byte / 16))?;
    out.push(hex(byte % 16))?;
    Ok(())
}

fn hex(digit: u8) -> u8
    requires { digit < 16 }
    ensures { result ≡ digit_char digit }
{
    if digit < 10 {
        b'0' + digit
    } else {
        b'a' + (digit - 10)
    }
}
