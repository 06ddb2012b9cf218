//! Where texts stand among weights.

ghost use Rattle.std.specs.Prelude.{◌≡◌, ◌<◌, ◌++◌};
ghost use Rattle.fp_operators.specs.Share.{place_among};

use crate::murmur::hash_of;

/// The place below a total that a text of two parts has by its hash. They are not joined for it.
pub fn place_below(total: u32, front: &str, back: &str) -> u32
    // The hash times the total, divided by 2^32.
    ensures place { result ≡ place_among total (front.now ++ back.now) }
    // It is below a total of 1 or more.
    ensures below { 0 < total → result < total }
{
    let hash = hash_of(front, back);
    ((hash as u64 * total as u64) >> 32) as u32
}
