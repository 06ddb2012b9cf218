//! Texts within texts, items of lists, and texts joined.

ghost use Rattle.std.specs.Prelude.{◌≡◌, ◌++◌, eqb, Some, None, false, if◌then◌else◌, IfOk, OnErr};
ghost use Rattle.std.specs.Prelude.{option_map, string_bytes};
ghost use Rattle.std.specs.List.{starts_with as begins, ends_with as finishes};
ghost use Rattle.fp_operators.specs.View.{view, items_view};
ghost use Rattle.fp_operators.specs.Text.{occurs, is_among, is_part, has_prefix, has_suffix};
ghost use Rattle.fp_operators.specs.Text.{scalar_text};

use crate::datum::Datum;
use crate::equality::strictly_equal;
use itoa::Buffer;
use std::alloc::{AllocError, Global};

/// `in`: whether a text is a part of another, or a datum strictly equals an item of a list.
pub fn is_in(part: &Datum, whole: &Datum) -> bool
    ensures { result ≡ is_part (view part.now) (view whole.now) }
{
    match (part, whole) {
        (Datum::Text(s), Datum::Text(t)) => text_occurs(s.as_str(), t.as_str()),
        (_, Datum::List(items)) => item_occurs(part, items),
        _ => false,
    }
}

fn text_occurs(needle: &str, text: &str) -> bool
    ensures { result ≡ occurs needle.now text.now }
{
    text.contains(needle)
}

fn item_occurs(datum: &Datum, items: &Vec<Datum>) -> bool
    ensures { result ≡ is_among (view datum.now) (items_view items.now.items) }
{
    for item in items {
        if strictly_equal(datum, item) {
            return true;
        }
    }
    false
}

/// `starts_with`: whether the first text begins with the second.
pub fn starts_with(text: &Datum, prefix: &Datum) -> bool
    ensures { result ≡ has_prefix (view text.now) (view prefix.now) }
{
    match (text, prefix) {
        (Datum::Text(s), Datum::Text(t)) => text_begins(s.as_str(), t.as_str()),
        _ => false,
    }
}

fn text_begins(text: &str, prefix: &str) -> bool
    ensures { result ≡ begins eqb text.now prefix.now }
{
    text.starts_with(prefix)
}

/// `ends_with`: whether the first text ends with the second.
pub fn ends_with(text: &Datum, suffix: &Datum) -> bool
    ensures { result ≡ has_suffix (view text.now) (view suffix.now) }
{
    match (text, suffix) {
        (Datum::Text(s), Datum::Text(t)) => text_finishes(s.as_str(), t.as_str()),
        _ => false,
    }
}

fn text_finishes(text: &str, suffix: &str) -> bool
    ensures { result ≡ finishes eqb text.now suffix.now }
{
    text.ends_with(suffix)
}

/// One step of `cat`: puts a datum's text behind what is written, and tells whether it has one.
/// Lists and objects have none; null's is empty.
pub fn append_text(out: &mut String, datum: &Datum) -> Result<bool, AllocError>
    // `Ok(true)`: that text stands behind what was there; `Ok(false)`: the datum has none.
    ensures text { IfOk result (λ wrote.
        (if wrote then Some (string_bytes out.new) else None)
        ≡ option_map (λ t. string_bytes out.old ++ t) (scalar_text (view datum.now))) }
    // `Ok(false)`: what was there stays.
    ensures none { IfOk result (λ wrote.
        wrote ≡ false → string_bytes out.new ≡ string_bytes out.old) }
    // An `Err` leaves what was there.
    ensures err { OnErr result (string_bytes out.new ≡ string_bytes out.old) }
{
    match datum {
        Datum::Null => {}
        Datum::Bool(true) => out.push_str("true")?,
        Datum::Bool(false) => out.push_str("false")?,
        Datum::Whole(z) => {
            let mut digits = Buffer::new();
            out.push_str(digits.format(*z))?;
        }
        Datum::Text(s) => out.push_str(s.as_str())?,
        Datum::List(_) | Datum::Object(_) => return Ok(false),
    }
    Ok(true)
}
