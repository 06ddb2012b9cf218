//! Numbers that texts write.

ghost use Rattle.std.specs.Prelude.{◌≡◌, ◌||◌};
ghost use Rattle.fp_operators.specs.Numeral.{begins_with_plus, leads_with_zero, whole_number_of};
ghost use Rattle.fp_operators.specs.Numeral.{place_of};

/// The whole number that a text writes: digits, perhaps behind a minus.
pub fn whole_number(text: &str) -> Option<i64>
    ensures { result ≡ whole_number_of text.now }
{
    if has_plus(text.as_bytes()) {
        return None;
    }
    text.parse::<i64>().ok()
}

/// The place of a list that a text writes: digits with no zero before others.
pub fn place(text: &str) -> Option<usize>
    ensures { result ≡ place_of text.now }
{
    if has_plus_or_zero(text.as_bytes()) {
        return None;
    }
    text.parse::<usize>().ok()
}

fn has_plus(bytes: &[u8]) -> bool
    ensures { result ≡ begins_with_plus bytes.now }
{
    match bytes {
        [first, ..] => *first == b'+',
        [] => false,
    }
}

fn has_plus_or_zero(bytes: &[u8]) -> bool
    ensures { result ≡ (begins_with_plus bytes.now || leads_with_zero bytes.now) }
{
    match bytes {
        [] => false,
        [first] => *first == b'+',
        [first, ..] => *first == b'+' || *first == b'0',
    }
}
