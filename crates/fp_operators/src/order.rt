//! The order of data.

ghost use Rattle.std.specs.Prelude.{◌≡◌, ◌&&◌};
ghost use Rattle.fp_operators.specs.View.{view};
ghost use Rattle.fp_operators.specs.Order.{order, is_below, is_at_most};

use crate::datum::Datum;
use crate::numeral::whole_number;
use std::cmp::Ordering;

/// The order of two data, if they have one.
fn compare(a: &Datum, b: &Datum) -> Option<Ordering>
    ensures { result ≡ order (view a.now) (view b.now) }
{
    match (a, b) {
        (Datum::Whole(x), Datum::Whole(y)) => Some(x.cmp(y)),
        (Datum::Text(s), Datum::Text(t)) => Some(s.as_str().cmp(t.as_str())),
        (Datum::Whole(x), Datum::Text(t)) => whole_number(t.as_str()).map(|y| x.cmp(&y)),
        (Datum::Text(s), Datum::Whole(y)) => whole_number(s.as_str()).map(|x| x.cmp(y)),
        _ => None,
    }
}

/// `<` at two arguments: numbers by value, texts by bytes, a number and a text that writes one by
/// value. All else has no order, and isn't below anything.
pub fn less(a: &Datum, b: &Datum) -> bool
    ensures { result ≡ is_below (view a.now) (view b.now) }
{
    compare(a, b) == Some(Ordering::Less)
}

/// `<=` at two arguments, in the same order.
pub fn less_or_equal(a: &Datum, b: &Datum) -> bool
    ensures { result ≡ is_at_most (view a.now) (view b.now) }
{
    matches!(compare(a, b), Some(Ordering::Less | Ordering::Equal))
}

/// `>`: `less` of the arguments turned round.
pub fn greater(a: &Datum, b: &Datum) -> bool
    ensures { result ≡ is_below (view b.now) (view a.now) }
{
    less(b, a)
}

/// `>=`: `less_or_equal` of the arguments turned round.
pub fn greater_or_equal(a: &Datum, b: &Datum) -> bool
    ensures { result ≡ is_at_most (view b.now) (view a.now) }
{
    less_or_equal(b, a)
}

/// `<` at three arguments: whether the second lies between the others, and is neither.
pub fn between_exclusive(low: &Datum, middle: &Datum, high: &Datum) -> bool
    ensures { let m = view middle.now in
        result ≡ (is_below (view low.now) m && is_below m (view high.now)) }
{
    less(low, middle) && less(middle, high)
}

/// `<=` at three arguments: whether the second lies between the others, or is one of them.
pub fn between_inclusive(low: &Datum, middle: &Datum, high: &Datum) -> bool
    ensures { let m = view middle.now in
        result ≡ (is_at_most (view low.now) m && is_at_most m (view high.now)) }
{
    less_or_equal(low, middle) && less_or_equal(middle, high)
}
