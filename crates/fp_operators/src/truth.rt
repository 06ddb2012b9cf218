//! Which data count as true.

ghost use Rattle.std.specs.Prelude.{◌≡◌, not};
ghost use Rattle.fp_operators.specs.View.{view};
ghost use Rattle.fp_operators.specs.Truth.{truth};

use crate::datum::Datum;

/// `!!`: whether a datum counts as true: all but null, false, 0, the empty text and the empty list
/// do.
pub fn is_truthy(datum: &Datum) -> bool
    ensures { result ≡ truth (view datum.now) }
{
    match datum {
        Datum::Null => false,
        Datum::Bool(b) => *b,
        Datum::Whole(z) => *z != 0,
        Datum::Text(s) => !s.as_str().is_empty(),
        Datum::List(items) => !items.is_empty(),
        Datum::Object(_) => true,
    }
}

/// `!`: whether a datum counts as false.
pub fn is_falsy(datum: &Datum) -> bool
    ensures { result ≡ not (truth (view datum.now)) }
{
    !is_truthy(datum)
}
