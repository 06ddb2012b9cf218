//! Arithmetic of whole numbers.

ghost use Rattle.std.specs.Prelude.{◌≡◌};
ghost use Rattle.fp_operators.specs.View.{view};
ghost use Rattle.fp_operators.specs.Arithmetic.{remainder_of};

use crate::datum::Datum;

/// `%`: the remainder of two numbers with the dividend's sign, where the divisor isn't 0, and null
/// for all else. -2^63 and -1 leave 0.
pub fn remainder(dividend: &Datum, divisor: &Datum) -> Datum
    ensures { view result ≡ remainder_of (view dividend.now) (view divisor.now) }
{
    match (dividend, divisor) {
        (Datum::Whole(x), Datum::Whole(y)) => {
            if *y == 0 {
                Datum::Null
            } else {
                // A plain `%` has no value at -2^63 and -1.
                Datum::Whole(x.wrapping_rem(*y))
            }
        }
        _ => Datum::Null,
    }
}
