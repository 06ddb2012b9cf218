//! What a connection's next read waits for, and for how long.

ghost use Rattle.std.specs.Prelude.{◌≡◌, ◌↔◌, ◌<◌, ◌≤◌, ◌-◌, IsTrue, MatchOption};
ghost use Rattle.std.specs.Duration.{as_nanos};

use std::time::Duration;

/// What the next read waits for.
#[derive(Debug, Drop, Clone, Copy)]
pub enum Waiting {
    /// A request: nothing came since the last reply.
    Request,
    /// The rest of one, of which some came just before.
    Rest,
    /// The rest of one that began at this time of the clock.
    RestSince(Duration),
}

/// What is left of a limit that began at this time; `None` where nothing is.
pub fn left_of(limit: Duration, since: Duration, now: Duration) -> Option<Duration>
    ensures { MatchOption result (as_nanos limit ≤ as_nanos now - as_nanos since)
        (λ left. (0 < as_nanos left)
        × (as_nanos left ≡ as_nanos limit - (as_nanos now - as_nanos since))) }
{
    let left = limit.saturating_sub(now.saturating_sub(since));
    if left.is_zero() { None } else { Some(left) }
}

/// Whether a stream that is told to wait for so long serves one that may wait for this: it waits no
/// less, and longer by a slack at most. So what comes in many pieces doesn't have it told anew at
/// each.
pub fn serves(told: Duration, left: Duration, slack: Duration) -> bool
    ensures { IsTrue result ↔ ((as_nanos left ≤ as_nanos told)
        × (as_nanos told - as_nanos left ≤ as_nanos slack)) }
{
    let (told, left) = (told.as_nanos(), left.as_nanos());
    left <= told && told - left <= slack.as_nanos()
}
