//! Strings, as canonical text has them.

ghost use Rattle.std.specs.Prelude.{◌≡◌, ◌<◌, ◌≤◌, ◌+◌, ◌-◌, ◌∷◌, ◌++◌, [], ℕ, List, false, Some};
ghost use Rattle.std.specs.Prelude.{IfSome, IsSome, MatchOption};
ghost use Rattle.std.specs.Prelude.{drop, get_or, length, slice_range, take};
ghost use Rattle.std.specs.Char.{digit_char};
ghost use Rattle.std.specs.List.{prefix_len};
ghost use Rattle.json.specs.Print.{escape, escape_byte, escape_letter, quoted};
ghost use Rattle.fp_base.specs.Unescaped.{is_unescaped};

use crate::cursor::Cursor;
use fp_base::{unescaped_len, utf8_text};
use std::mem;

impl<'a> Cursor<'a> {
    // The string that comes next. One with escapes takes as much room as it has bytes.
    #[inline(always)]
    pub(crate) fn string(&mut self) -> Option<&'a str>
        ensures spelled { IfSome result (λ s. self.old ≡ quoted s.now ++ self.new) }
        ensures shorter { IfSome result (λ _. length self.new < length self.old) }
        ensures taken { (s left : List ℕ) → self.old ≡ quoted s ++ left
            → MatchOption result ⊥ (λ t. (t.now ≡ s) × (self.new ≡ left)) }
    {
        if !self.take(b'"') {
            return None;
        }
        let text = self.rest;
        let bytes = text.as_bytes();
        let end = unescaped_len(bytes);
        if end < bytes.len() && bytes[end] == b'"' {
            self.rest = &text[end + 1..];
            return Some(&text[..end]);
        }
        self.escaped()
    }

    // What is left of a string whose opening quote was passed.
    #[inline(never)]
    fn escaped(&mut self) -> Option<&'a str>
        ensures spelled { IfSome result (λ s. 34 ∷ self.old ≡ quoted s.now ++ self.new) }
        ensures shorter { IfSome result (λ _. length self.new < length self.old) }
        ensures taken { (s left : List ℕ) → self.old ≡ escape s ++ 34 ∷ left → IsSome result }
    {
        let room = mem::take(&mut self.room);
        let text = self.rest;
        let bytes = text.as_bytes();
        let Some((len, at)) = unescaped(bytes, room) else {
            self.room = room;
            return None;
        };
        self.rest = &text[at + 1..];
        let (front, behind) = room.split_at_mut(len);
        self.room = behind;
        utf8_text(front)
    }
}

// Puts what a string stands for into the room: how many bytes it is, and where the quote behind its
// spelling stands.
fn unescaped(bytes: &[u8], room: &mut [u8]) -> Option<(usize, usize)>
    requires { length bytes.now ≤ length room.old }
    ensures within { IfSome result (λ p. (p.0 ≤ p.1) × (p.1 < length bytes.now)) }
    ensures quote { IfSome result (λ p. get_or bytes.now p.1 0 ≡ 34) }
    ensures spelled { IfSome result (λ p. take p.1 bytes.now ≡ escape (take p.0 room.new)) }
    ensures same { length room.new ≡ length room.old }
    ensures taken { (s left : List ℕ) → bytes.now ≡ escape s ++ 34 ∷ left → IsSome result }
{
    let mut at = 0;
    let mut len = 0;
    while at < bytes.len() {
        let run = put_run(bytes, at, room, len);
        at += run;
        len += run;
        if at == bytes.len() {
            return None;
        }
        if bytes[at] == b'"' {
            return Some((len, at));
        }
        let (byte, next) = byte_at(bytes, at)?;
        room[len] = byte;
        len += 1;
        at = next;
    }
    None
}

// Puts the bytes that a string has as they are from a place on at a place of the room: how many
// they are.
#[inline(always)]
fn put_run(bytes: &[u8], at: usize, room: &mut [u8], len: usize) -> usize
    requires within { at ≤ length bytes.now }
    requires fits { len + (length bytes.now - at) ≤ length room.old }
    ensures run { result ≡ prefix_len is_unescaped (drop at bytes.now) }
    ensures within { at + result ≤ length bytes.now }
    ensures written { escape (take result (drop at bytes.now)) ≡ take result (drop at bytes.now) }
    ensures put { take (len + result) room.new
        ≡ take len room.old ++ take result (drop at bytes.now) }
    ensures same { length room.new ≡ length room.old }
{
    let run = unescaped_len(&bytes[at..]);
    room[len..len + run].copy_from_slice(&bytes[at..at + run]);
    run
}

// The byte whose spelling begins with a backslash at a place, and the place behind that.
#[inline(always)]
fn byte_at(bytes: &[u8], at: usize) -> Option<(u8, usize)>
    requires { at < length bytes.now }
    ensures within { IfSome result (λ p. (at < p.1) × (p.1 ≤ length bytes.now)) }
    ensures spelled { IfSome result (λ p. slice_range bytes.now at p.1 ≡ escape_byte p.0) }
    ensures taken { (x : ℕ) (left : List ℕ) → drop at bytes.now ≡ escape_byte x ++ left
        → get_or bytes.now at 0 ≡ 92 → IsSome result }
{
    if bytes[at] != b'\\' || bytes.len() - at < 2 {
        return None;
    }
    if bytes[at + 1] != b'u' {
        return Some((short(bytes[at + 1])?, at + 2));
    }
    if bytes.len() - at < 6 || bytes[at + 2] != b'0' || bytes[at + 3] != b'0' {
        return None;
    }
    Some((numbered(bytes[at + 4], bytes[at + 5])?, at + 6))
}

// What a letter behind a backslash stands for.
#[tactic(auto, unfolding(json::specs::Print::escape_byte))]
fn short(letter: u8) -> Option<u8>
    ensures spelled { IfSome result (λ b. escape_byte b ≡ 92 ∷ letter ∷ []) }
    ensures taken { (x : ℕ) → escape_byte x ≡ 92 ∷ letter ∷ [] → IsSome result }
{
    match letter {
        b'"' | b'\\' => Some(letter),
        b'b' => Some(8),
        b't' => Some(9),
        b'n' => Some(10),
        b'f' => Some(12),
        b'r' => Some(13),
        _ => None,
    }
}

// What the two last digits behind a backslash stand for, where a byte is spelled by its number.
fn numbered(high: u8, low: u8) -> Option<u8>
    ensures spelled { IfSome result (λ b.
        escape_byte b ≡ 92 ∷ 117 ∷ 48 ∷ 48 ∷ high ∷ low ∷ []) }
    ensures taken { (x : ℕ) → escape_byte x ≡ 92 ∷ 117 ∷ 48 ∷ 48 ∷ high ∷ low ∷ []
        → IsSome result }
{
    let sixteens = hex_digit(high)?;
    let ones = hex_digit(low)?;
    if sixteens > 1 {
        return None;
    }
    let byte = sixteens * 16 + ones;
    if has_letter(byte) {
        return None;
    }
    Some(byte)
}

// What a digit of hexadecimal in lower case stands for.
fn hex_digit(digit: u8) -> Option<u8>
    ensures spelled { IfSome result (λ d. (d < 16) × (digit_char d ≡ digit)) }
    ensures taken { (d : ℕ) → d < 16 → digit_char d ≡ digit → result ≡ Some d }
{
    match digit {
        b'0'..=b'9' => Some(digit - b'0'),
        b'a'..=b'f' => Some(digit - b'a' + 10),
        _ => None,
    }
}

// Whether a control byte is spelled by a letter.
fn has_letter(byte: u8) -> bool
    requires { byte < 32 }
    ensures none { result ≡ false → escape_letter byte ≡ 0 }
    ensures all { escape_letter byte ≡ 0 → result ≡ false }
{
    matches!(byte, 8 | 9 | 10 | 12 | 13)
}
