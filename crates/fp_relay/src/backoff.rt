//! When a source that is away is tried again.

ghost use Rattle.std.specs.Prelude.{◌≡◌, ◌≤◌, ◌*◌};
ghost use Rattle.std.specs.Duration.{as_nanos};
ghost use Rattle.fp_relay.specs.Backoff.{base};

use std::time::Duration;

/// How long to wait before a source is tried again that failed so often before. The base is 0.1
/// seconds, doubled for each failure, and 5 seconds at most.
pub fn delay(failures: u32, random: u64) -> Duration
    // At least half of the base.
    ensures least { base failures ≤ 2 * as_nanos result }
    // At most the base.
    ensures most { as_nanos result ≤ base failures }
{
    let whole = base_of(failures);
    let half = whole / 2;
    Duration::from_millis(whole - random % (half + 1))
}

// The base in milliseconds.
fn base_of(failures: u32) -> u64
    ensures { result * 1_000_000 ≡ base failures }
{
    match failures {
        0 => 100,
        1 => 200,
        2 => 400,
        3 => 800,
        4 => 1_600,
        5 => 3_200,
        _ => 5_000,
    }
}
