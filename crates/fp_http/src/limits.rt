//! How long a connection may take, and what ended it.

ghost use Rattle.std.specs.Prelude.{◌≡◌, ◌*◌};
ghost use Rattle.std.specs.Duration.{as_nanos};

use std::io::ErrorKind;
use std::time::Duration;

/// How long a connection may take for what.
#[derive(Debug, Drop, Clone, Copy)]
pub struct TimeLimits {
    /// For saying nothing between two requests.
    pub idle: Duration,
    /// For a request, from its first bytes until it is whole.
    pub request: Duration,
    /// For taking some of a reply.
    pub reply: Duration,
}

impl TimeLimits {
    /// Those of a service: 75, 30 and 60 seconds.
    pub fn usual() -> TimeLimits
        // Between two requests it may say nothing for 75 seconds,
        ensures idle { as_nanos result.idle ≡ 75 * 1_000_000_000 }
        // a request is whole after 30,
        ensures request { as_nanos result.request ≡ 30 * 1_000_000_000 }
        // and some of a reply is taken within 60.
        ensures reply { as_nanos result.reply ≡ 60 * 1_000_000_000 }
    {
        TimeLimits {
            idle: Duration::from_secs(75),
            request: Duration::from_secs(30),
            reply: Duration::from_secs(60),
        }
    }
}

/// What ended a connection that its peer didn't end.
#[derive(Debug, Drop, Clone, Copy)]
pub enum Stop {
    /// It said nothing between two requests, for too long.
    Idle,
    /// A request that had begun wasn't whole in time.
    SlowRequest,
    /// Nothing of a reply was taken, for too long.
    SlowReply,
    /// Memory was wanting for a reply.
    Memory,
    /// The stream failed.
    Fault(ErrorKind),
}
