//! Equality of data.

ghost use Rattle.std.specs.Prelude.{◌≡◌, not};
ghost use Rattle.fp_operators.specs.View.{view};
ghost use Rattle.fp_operators.specs.Equality.{strict_equality, loose_equality, number_meant};
ghost use Rattle.fp_operators.specs.Equality.{stands_for};

use crate::datum::Datum;
use crate::numeral::whole_number;

/// `===`: whether two data have one kind and one value. Lists and objects equal nothing.
pub fn strictly_equal(a: &Datum, b: &Datum) -> bool
    ensures { result ≡ strict_equality (view a.now) (view b.now) }
{
    match (a, b) {
        (Datum::Null, Datum::Null) => true,
        (Datum::Bool(x), Datum::Bool(y)) => *x == *y,
        (Datum::Whole(x), Datum::Whole(y)) => *x == *y,
        (Datum::Text(x), Datum::Text(y)) => x.as_str() == y.as_str(),
        _ => false,
    }
}

/// `!==`: the negation of `===`.
pub fn strictly_unequal(a: &Datum, b: &Datum) -> bool
    ensures { result ≡ not (strict_equality (view a.now) (view b.now)) }
{
    !strictly_equal(a, b)
}

/// The number that a text writes, and that true and false count as.
fn number_meant(datum: &Datum) -> Option<i64>
    ensures { result ≡ number_meant (view datum.now) }
{
    match datum {
        Datum::Text(text) => whole_number(text.as_str()),
        Datum::Bool(truth) => Some(i64::from(*truth)),
        _ => None,
    }
}

/// Whether a text or a boolean means this number.
fn stands_for(datum: &Datum, number: &Datum) -> bool
    ensures { result ≡ stands_for (view datum.now) (view number.now) }
{
    match number {
        Datum::Whole(z) => number_meant(datum) == Some(*z),
        _ => false,
    }
}

/// `==`: `===`, or one means the number that the other is: a text that writes it, or true and false
/// as 1 and 0.
pub fn loosely_equal(a: &Datum, b: &Datum) -> bool
    ensures { result ≡ loose_equality (view a.now) (view b.now) }
{
    strictly_equal(a, b) || stands_for(a, b) || stands_for(b, a)
}

/// `!=`: the negation of `==`.
pub fn loosely_unequal(a: &Datum, b: &Datum) -> bool
    ensures { result ≡ not (loose_equality (view a.now) (view b.now)) }
{
    !loosely_equal(a, b)
}
