//! Bytes as text: whether they are UTF-8, tested in pieces.

ghost use Rattle.std.specs.Prelude.{◌≡◌, ◌<◌, ◌≤◌, ℕ, true, false, nat_le, nat_lt, MatchOption};
ghost use Rattle.std.specs.Prelude.{get_or, length, map};
ghost use Rattle.std.specs.Simd.Lanes.{mask_l};
ghost use Rattle.std.specs.Str.{IsUtf8};

use std::simd::prelude::*;

// So many bytes are looked at together.
const TOGETHER: usize = 16;

// Four times as many, in one test.
const MANY: usize = 64;

/// The text that the bytes are, `None` exactly where they aren't UTF-8.
pub fn utf8_text(bytes: &[u8]) -> Option<&str>
    ensures { MatchOption result (¬ (IsUtf8 bytes.now)) (λ text.
        (text.now ≡ bytes.now) × IsUtf8 bytes.now) }
{
    if !is_utf8(bytes) {
        return None;
    }
    Some(unsafe { str::from_utf8_unchecked(bytes) })
}

// Whether the bytes are UTF-8. ASCII is passed, and only what stands between is tested.
fn is_utf8(bytes: &[u8]) -> bool
    ensures text { result ≡ true → IsUtf8 bytes.now }
    ensures none { result ≡ false → ¬ (IsUtf8 bytes.now) }
{
    let mut at = ascii_end(bytes, 0);
    while at < bytes.len() {
        let end = piece_end(bytes, at);
        if str::from_utf8(&bytes[at..end]).is_err() {
            return false;
        }
        at = ascii_end(bytes, end);
    }
    true
}

// Where the ASCII ends that begins at a place.
#[inline(always)]
fn ascii_end(bytes: &[u8], from: usize) -> usize
    requires { from ≤ length bytes.now }
    ensures within { (from ≤ result) × (result ≤ length bytes.now) }
    ensures ascii { (k : ℕ) → from ≤ k → k < result → get_or bytes.now k 0 < 128 }
{
    let mut end = many_ascii_end(bytes, from);
    while bytes.len() - end >= TOGETHER {
        let found = foreign_among(u8x16::from_slice(&bytes[end..]));
        if found != 0 {
            return end + found.trailing_zeros() as usize;
        }
        end += TOGETHER;
    }
    while end < bytes.len() && bytes[end] < 0x80 {
        end += 1;
    }
    end
}

// Where the ASCII ends that is passed many bytes at once; more may stand behind it.
#[inline(always)]
fn many_ascii_end(bytes: &[u8], from: usize) -> usize
    requires { from ≤ length bytes.now }
    ensures within { (from ≤ result) × (result ≤ length bytes.now) }
    ensures ascii { (k : ℕ) → from ≤ k → k < result → get_or bytes.now k 0 < 128 }
{
    let mut end = from;
    while bytes.len() - end >= MANY {
        let first = u8x16::from_slice(&bytes[end..]);
        let second = u8x16::from_slice(&bytes[end + TOGETHER..]);
        let third = u8x16::from_slice(&bytes[end + 2 * TOGETHER..]);
        let fourth = u8x16::from_slice(&bytes[end + 3 * TOGETHER..]);
        if foreign_among((first | second) | (third | fourth)) != 0 {
            return end;
        }
        end += MANY;
    }
    end
}

// A bit for each of the bytes, set where it isn't ASCII.
#[inline(always)]
fn foreign_among(bytes: u8x16) -> u64
    ensures { result ≡ mask_l (map (nat_le 128) bytes) }
{
    bytes.simd_ge(u8x16::splat(0x80)).to_bitmask()
}

// Where a piece ends that begins at a place: at four ASCII bytes, or near the end at one. Fewer
// among wider characters aren't worth an end.
#[inline(always)]
fn piece_end(bytes: &[u8], from: usize) -> usize
    requires { from < length bytes.now }
    ensures within { (from < result) × (result ≤ length bytes.now) }
    ensures ascii { result < length bytes.now → get_or bytes.now result 0 < 128 }
{
    let mut end = from + 1;
    while bytes.len() - end >= TOGETHER + 3 {
        let second = u8x16::from_slice(&bytes[end + 1..]);
        let third = u8x16::from_slice(&bytes[end + 2..]);
        let fourth = u8x16::from_slice(&bytes[end + 3..]);
        let found = ascii_among(u8x16::from_slice(&bytes[end..]) | (second | third | fourth));
        if found != 0 {
            return end + found.trailing_zeros() as usize;
        }
        end += TOGETHER;
    }
    while end < bytes.len() && bytes[end] >= 0x80 {
        end += 1;
    }
    end
}

// A bit for each of the bytes, set where it is ASCII.
#[inline(always)]
fn ascii_among(bytes: u8x16) -> u64
    ensures { result ≡ mask_l (map (λ b. nat_lt b 128) bytes) }
{
    bytes.simd_lt(u8x16::splat(0x80)).to_bitmask()
}
