//! Pauses, where memory was wanting.

use fp_log::{Event, tell};
use log::Log;
use std::thread;
use std::time::{Clock, Duration};

/// Waits a millisecond, in which there may come to be memory.
pub fn pause(clock: &impl Clock) {
    thread::sleep(clock, Duration::from_millis(1));
}

/// What is tried again until there is memory for it.
#[derive(Drop)]
pub(crate) struct Retries {
    of: &'static str,
    is_told: bool,
}

impl Retries {
    /// Of this, which wasn't tried yet.
    pub(crate) fn of(of: &'static str) -> Retries {
        Retries { of, is_told: false }
    }

    /// Waits as `pause` does. The first time it is told.
    pub(crate) fn pause<R: Clock + Log>(&mut self, rt: &R) {
        if !self.is_told {
            tell(rt, &Event::MemoryWanting { of: self.of });
        }
        self.is_told = true;
        pause(rt);
    }
}
