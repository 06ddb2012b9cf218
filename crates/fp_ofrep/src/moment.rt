//! The moment at which a request is answered.

ghost use Rattle.std.specs.Prelude.{◌≡◌, ◌-◌, ◌/◌, ◌<◌, ◌^◌, min};
ghost use Rattle.std.specs.Time.{system_time_nanos};

use std::marker::Model;
use std::time::{Clock, SystemTime, UNIX_EPOCH};

// The last moment that a reply knows.
const LAST_MOMENT: u64 = 0x7fff_ffff_ffff_ffff;

/// A moment in seconds since 1970, below 2^63.
///
/// It isn't `Clone`: who answers a request can't use a moment that was read for another.
#[derive(Drop)]
pub struct Moment {
    seconds: u64,
}

impl Model for Moment {
    ghost use Rattle.std.specs.Prelude.{◌<◌, ◌^◌, ℕ};

    ghost Value = { ℕ };

    ghost view = { λ m. m.seconds };

    ghost invariant = { λ m. m.seconds < 2 ^ 63 };
}

impl Moment {
    /// The system's time at this call; 0 before 1970 or without a clock.
    pub fn now<C: Clock>(clock: &C) -> Moment {
        let seconds = match SystemTime::now(clock) {
            Ok(now) => seconds_of(now),
            Err(_) => 0,
        };
        Moment { seconds }
    }

    /// The seconds since 1970.
    pub fn seconds(&self) -> u64
        ensures same { result ≡ self.now }
        // They are below 2^63.
        ensures small { result < 2 ^ 63 }
    {
        self.seconds
    }
}

// The whole seconds from 1970 to this time, and at most the last moment that a reply knows.
fn seconds_of(now: SystemTime) -> u64
    ensures { result ≡ min (system_time_nanos now / 1_000_000_000) (2 ^ 63 - 1) }
{
    match now.duration_since(UNIX_EPOCH) {
        Ok(since) => since.as_secs().min(LAST_MOMENT),
        Err(_) => 0,
    }
}
