//! What an evaluator is asked, and when.

ghost use Rattle.std.specs.Prelude.{◌≡◌, ◌<◌, ◌≤◌, ◌^◌, MatchOption};

use http::Method;
use std::marker::Model;

/// A request, as far as a reply depends on it.
#[derive(Drop)]
pub struct Request {
    pub method: Method,
    /// Path and query, as they came.
    pub target: String,
    pub if_none_match: Option<Vec<u8>>,
    /// `None` where it was found to be too long, and not kept.
    pub body: Option<Vec<u8>>,
}

/// A moment in seconds since 1970, below 2^63.
#[derive(Drop)]
pub struct Moment {
    seconds: u64,
}

impl Model for Moment {
    ghost use Rattle.std.specs.Prelude.{◌<◌, ◌^◌, ℕ};

    ghost Value = { ℕ };

    ghost view = { λ m. m.seconds };

    ghost invariant = { λ m. m.seconds < 2 ^ 63 };
}

impl Moment {
    /// This moment, `None` exactly where it is 2^63 seconds since 1970 or later. Replies know no
    /// such moment.
    pub fn at(seconds: u64) -> Option<Moment>
        ensures { MatchOption result (2 ^ 63 ≤ seconds) (λ m. m ≡ seconds) }
    {
        if seconds > i64::MAX as u64 {
            return None;
        }
        Some(Moment { seconds })
    }

    /// The seconds since 1970.
    pub fn seconds(&self) -> u64
        ensures same { result ≡ self.now }
        // They are below 2^63.
        ensures small { result < 2 ^ 63 }
    {
        self.seconds
    }
}
