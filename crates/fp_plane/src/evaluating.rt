//! Which evaluations are under way, so that whoever publishes waits for them before it has the
//! hall's lock, and not under it.

use crossbeam_utils::Backoff;
use std::sync::atomic::{AtomicUsize, Ordering};
use std::thread;
use std::time::{Clock, Duration};

// How often they are looked for, and how many microseconds pass between two looks once spinning is
// over: ten seconds in all, or a little more.
const LOOKS: u32 = 100_000;

const BETWEEN: u64 = 100;

/// How many evaluations are under way: those that began since something was shown last, and those
/// that began before. A hint: what is published waits by itself for who still reads what it changes.
#[derive(Drop)]
pub(crate) struct Evaluations {
    // 0 or 1 by turns: the side at which those that begin are counted.
    side: AtomicUsize,
    under_way: [AtomicUsize; 2],
}

impl Evaluations {
    /// None yet.
    pub fn new() -> Evaluations {
        Evaluations {
            side: AtomicUsize::new(0),
            under_way: [AtomicUsize::new(0), AtomicUsize::new(0)],
        }
    }

    /// One more, until it is let go of.
    pub fn begin(&self) -> Evaluating<'_> {
        let under_way = self.at(self.side.load(Ordering::SeqCst));
        under_way.fetch_add(1, Ordering::SeqCst);
        Evaluating { under_way }
    }

    /// Where something was shown, all that are under way began before.
    pub fn turn_if(&self, is_shown: bool) {
        if is_shown {
            self.side.fetch_xor(1, Ordering::SeqCst);
        }
    }

    /// Waits until those have ended that began before something was shown last, but for ten seconds
    /// alone.
    pub fn await_earlier<R: Clock>(&self, rt: &R) {
        let earlier = self.at(self.side.load(Ordering::SeqCst) ^ 1);
        let backoff = Backoff::new();
        for _ in 0..LOOKS {
            if earlier.load(Ordering::SeqCst) == 0 {
                return;
            }
            if backoff.is_completed() {
                thread::sleep(rt, Duration::from_micros(BETWEEN));
            } else {
                backoff.snooze();
            }
        }
    }

    fn at(&self, side: usize) -> &AtomicUsize {
        &self.under_way[side & 1]
    }
}

/// An evaluation that is under way.
pub struct Evaluating<'p> {
    under_way: &'p AtomicUsize,
}

impl Drop for Evaluating<'_> {
    fn drop(self) {
        let Self { under_way } = self;
        under_way.fetch_sub(1, Ordering::SeqCst);
    }
}
