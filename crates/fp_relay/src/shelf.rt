//! The thread that keeps the newest set in a file, beside those that show it.

ghost use Rattle.std.specs.Prelude.{◌≡◌, ◌++◌, ◌∷◌, []};
ghost use Rattle.std.specs.Arc.{arc_value};

use crate::events::{Event, tell_failure};
use crate::set::Set;
use crate::waiting::{OnShelf, PutDown};
use fp_connections::Host;
use fp_kept::{KeptFile, KeptFiles, parts_of};
use fp_news::News;
use std::alloc::Global;
use std::sync::{Arc, Condvar, CondvarTimeouts, Mutex, Wait};
use std::time::Duration;

// After how many seconds what couldn't be kept is tried again.
const AGAIN: u64 = 5;

/// Where the newest set is put down for the thread that keeps it.
#[derive(Drop)]
pub struct Shelf {
    waiting: Mutex<OnShelf>,
    changed: Condvar,
}

impl Shelf {
    /// With nothing on it.
    pub fn new() -> Shelf {
        Shelf {
            waiting: Mutex::new(OnShelf::new()),
            changed: Condvar::new(),
        }
    }

    /// Puts a set down, in place of an older one that wasn't kept yet.
    pub fn put<R: Wait>(&self, rt: &R, set: Arc<Set, Global>, put: &mut PutDown)
        // It is put down behind what was.
        ensures { put.new ≡ put.old ++ arc_value set ∷ [] }
    {
        self.waiting.lock(rt).put(set, put);
        self.changed.notify_all();
    }

    /// Nothing more is put down.
    pub fn close<R: Wait>(&self, rt: &R) {
        self.waiting.lock(rt).is_closed = true;
        self.changed.notify_all();
    }

    /// Keeps what is put down, until it is closed and nothing is left.
    pub fn keep_all<R: Host, K: KeptFiles>(&self, rt: &R, files: &K, file: &KeptFile) {
        for _ in rt.forever() {
            let Some(set) = self.take(rt) else {
                return;
            };
            self.keep(rt, files, file, &set);
        }
    }

    // The newest, once there is one; `None` where it is closed and there is none.
    fn take<R: Host>(&self, rt: &R) -> Option<Arc<Set, Global>> {
        for _ in rt.forever() {
            let mut waiting = self.waiting.lock(rt);
            if let Some(set) = waiting.set.take() {
                return Some(set);
            }
            if waiting.is_closed {
                return None;
            }
            let _waiting = self.changed.wait(rt, waiting);
        }
        unreachable!()
    }

    // Keeps a set, and tries again until a newer one is there; where it is closed, for a last time.
    fn keep<R: Host, K: KeptFiles>(&self, rt: &R, files: &K, file: &KeptFile, set: &Set) {
        let mut is_last = false;
        for _ in rt.forever() {
            let parts = parts_of(set.revision(), set.document());
            let Err(reason) = file.keep(files, &parts) else {
                return;
            };
            let path = file.path();
            tell_failure(rt, &Event::NotKept { path }, &reason);
            let (has_newer, is_closed) = self.wait_again(rt);
            if has_newer || is_last {
                return;
            }
            is_last = is_closed;
        }
    }

    // Waits before it tries again; whether there is something newer, and whether it is closed.
    fn wait_again<R: Host>(&self, rt: &R) -> (bool, bool) {
        let waiting = self.waiting.lock(rt);
        let most = Duration::from_secs(AGAIN);
        let (waiting, _waited) = self
            .changed
            .wait_timeout_while(rt, waiting, most, |waiting| {
                waiting.set.is_none() && !waiting.is_closed
            });
        (waiting.set.is_some(), waiting.is_closed)
    }
}
