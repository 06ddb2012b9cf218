//! Numbers of JSON, read off their texts.

ghost use Rattle.std.specs.Prelude.{◌≡◌, ◌==◌, ◌<◌, ◌+◌, ◌^◌, true, false, IfSome, IsTrue};
ghost use Rattle.std.specs.Prelude.{decimal, length, option_map, slice_index};
ghost use Rattle.serde_json.specs.Data.{number};
ghost use Rattle.serde_json.specs.Read.{number_of, number_from};
ghost use Rattle.serde_json.specs.View.{number_view};
ghost use Rattle.fp_base.specs.Ordered.{IsOrdered, IsWritten};
ghost use Rattle.fp_base.specs.TreeView.{tree_view};

use crate::tree::Tree;
use fast_float::Numeral;
use serde_json::Number;

// From here on, one digit more may not fit 64 bits.
const LEAST_FULL: u64 = 1_844_674_407_370_955_161;

// The tree of a number. A whole one reads as it is written, since it fits an i64.
pub(crate) fn number_tree<'a>(value: &Number) -> Tree<'a>
    ensures same { tree_view result ≡ number (number_view value.now) }
    ensures ordered { IsOrdered (tree_view result) }
{
    let _ = reads_as_written(value);
    Tree::Number(*value)
}

#[tactic(auto, using(crate::proofs::Numerals::written))]
fn reads_as_written(number: &Number) -> bool
    ensures { IsWritten (number_view number.now) }
{
    match number.as_i64() {
        Some(whole) => whole <= i64::MAX,
        None => false,
    }
}

/// The number that a text of JSON writes, `None` where it is out of range.
#[tactic(auto, using(crate::proofs::Numerals::decimals))]
pub(crate) fn number_in(text: &str) -> Option<Number>
    ensures { option_map number_view result ≡ number_of text.now }
{
    match plain_number(text.as_bytes()) {
        Some(number) => Some(Number::from(number)),
        None => any_number(text),
    }
}

// The number that digits alone write, where it is below `LEAST_FULL`. Most numbers are: one pass
// reads them, and no parts of them are looked for.
fn plain_number(text: &[u8]) -> Option<u64>
    ensures { IfSome result (λ n. (n < 2 ^ 64) × (text.now ≡ decimal n)) }
{
    let mut number = u64::from(digit(*text.first()?)?);
    for i in 1..text.len() {
        let next = digit(text[i])?;
        if number == 0 || number >= LEAST_FULL {
            return None;
        }
        number = number * 10 + u64::from(next);
    }
    Some(number)
}

// What a digit stands for.
fn digit(byte: u8) -> Option<u8>
    ensures { IfSome result (λ d. (d < 10) × (byte ≡ 48 + d)) }
{
    if byte.is_ascii_digit() {
        Some(byte - b'0')
    } else {
        None
    }
}

// The number that a text writes in whatever way. A whole one of 64 bits is kept as it is, and
// any other one as the nearest double, if there is one.
#[tactic(auto, unfolding(serde_json::specs::Read::number_of))]
fn any_number(text: &str) -> Option<Number>
    ensures { option_map number_view result ≡ number_of text.now }
{
    let bytes = text.as_bytes();
    if has_minus(bytes) {
        number_below_nought(&Numeral::scan(&bytes[1..]))
    } else {
        number_from_nought(&Numeral::scan(bytes))
    }
}

fn has_minus(bytes: &[u8]) -> bool
    ensures minus { result ≡ (slice_index bytes.now 0 == 45) }
    ensures some { IsTrue result → 0 < length bytes.now }
{
    !bytes.is_empty() && bytes[0] == b'-'
}

fn number_from_nought(numeral: &Numeral<'_>) -> Option<Number>
    ensures { option_map number_view result ≡ number_from false numeral.now }
{
    match numeral.to_u64() {
        Some(number) => Some(Number::from(number)),
        None => Number::from_f64(numeral.to_float::<f64>(false)),
    }
}

fn number_below_nought(numeral: &Numeral<'_>) -> Option<Number>
    ensures { option_map number_view result ≡ number_from true numeral.now }
{
    match numeral.to_i64(true) {
        Some(number) if number < 0 => Some(Number::from(number)),
        _ => Number::from_f64(numeral.to_float::<f64>(true)),
    }
}
