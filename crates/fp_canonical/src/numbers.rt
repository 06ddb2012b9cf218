//! Whole numbers, as canonical text has them.

ghost use Rattle.std.specs.Prelude.{◌≡◌, ◌<◌, ◌≤◌, ◌^◌, ◌+◌, ◌-◌, ◌++◌, ℕ, List, true, IfSome};
ghost use Rattle.std.specs.Prelude.{MatchOption, decimal, get_or, length};
ghost use Rattle.std.specs.Prelude.{is_some, negsuc};
ghost use Rattle.serde_json.specs.Data.{Num, negative};
ghost use Rattle.serde_json.specs.Find.{as_i64};
ghost use Rattle.serde_json.specs.View.{number_view};
ghost use Rattle.serde_json.specs.Written.{number_text};
ghost use Rattle.fp_base.specs.Ordered.{IsWritten};
ghost use Rattle.fp_canonical.specs.Reads.{Ends};

use crate::cursor::Cursor;
use serde_json::Number;

// How far above nought numbers go, and how far below.
const HIGHEST: u64 = 9_223_372_036_854_775_807;

const LOWEST: u64 = 9_223_372_036_854_775_808;

// From here on, a number with one digit more is larger than both.
const LEAST_FULL: u64 = 922_337_203_685_477_581;

impl<'a> Cursor<'a> {
    // The number that comes next.
    pub(crate) fn number(&mut self) -> Option<Number>
        ensures spelled { IfSome result (λ n.
            self.old ≡ number_text (number_view n) ++ self.new) }
        ensures shorter { IfSome result (λ _. length self.new < length self.old) }
        ensures whole { IfSome result (λ n. is_some (as_i64 (number_view n)) ≡ true) }
        ensures written { IfSome result (λ n. IsWritten (number_view n)) }
        ensures taken { (n : Num) (left : List ℕ) → IsWritten n → is_some (as_i64 n) ≡ true
            → self.old ≡ number_text n ++ left → Ends left
            → MatchOption result ⊥ (λ _. self.new ≡ left) }
    {
        if self.take(b'-') {
            let size = self.digits()?;
            if !is_below_nought(size) {
                return None;
            }
            return Some(below_nought(size));
        }
        let size = self.digits()?;
        if size > HIGHEST {
            return None;
        }
        Some(Number::from(size))
    }

    // The number that digits alone write.
    fn digits(&mut self) -> Option<u64>
        ensures spelled { IfSome result (λ n.
            (n < 2 ^ 64) × (self.old ≡ decimal n ++ self.new)) }
        ensures shorter { IfSome result (λ _. length self.new < length self.old) }
        ensures taken { (n : ℕ) (left : List ℕ) → n ≤ 2 ^ 63
            → self.old ≡ decimal n ++ left → Ends left
            → MatchOption result ⊥ (λ m. (m ≡ n) × (self.new ≡ left)) }
    {
        let text = self.rest;
        let bytes = text.as_bytes();
        let mut number = u64::from(digit_at(bytes, 0)?);
        let mut len = 1;
        while let Some(digit) = digit_at(bytes, len) {
            if number == 0 || number >= LEAST_FULL {
                return None;
            }
            number = number * 10 + u64::from(digit);
            len += 1;
        }
        self.rest = &text[len..];
        Some(number)
    }
}

// Whether a number of this size stands behind a minus.
#[inline(always)]
fn is_below_nought(size: u64) -> bool
    ensures within { result ≡ true → (0 < size) × (size ≤ 2 ^ 63) }
    ensures all { 0 < size → size ≤ 2 ^ 63 → result ≡ true }
{
    size != 0 && size <= LOWEST
}

// The number of this size below nought.
fn below_nought(size: u64) -> Number
    requires { (0 < size) × (size ≤ 2 ^ 63) }
    ensures { number_view result ≡ negative (negsuc (size - 1)) }
{
    let above = (size - 1) as i64;
    Number::from(-above - 1)
}

// What the digit at a place stands for, if there is one.
#[inline(always)]
fn digit_at(bytes: &[u8], at: usize) -> Option<u8>
    ensures { MatchOption result
        (at < length bytes.now → 48 ≤ get_or bytes.now at 0 → 57 < get_or bytes.now at 0)
        (λ d. (at < length bytes.now) × (d < 10) × (get_or bytes.now at 0 ≡ 48 + d)) }
{
    if at < bytes.len() && bytes[at].is_ascii_digit() {
        Some(bytes[at] - b'0')
    } else {
        None
    }
}
