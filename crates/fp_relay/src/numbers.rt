//! The numbers of a running relay, which its threads count together.

use fp_connections::milliseconds;
use fp_relay_replies::{Answered, Report};
use std::sync::atomic::{AtomicBool, AtomicU64, Ordering};
use std::time::Clock;

/// What the threads of a relay count.
#[derive(Drop)]
pub struct Numbers {
    has_set: AtomicBool,
    revision: AtomicU64,
    flags: AtomicU64,
    // In milliseconds of the clock.
    frame_at: AtomicU64,
    source_at: AtomicU64,
    is_connected: AtomicBool,
    source_revision: AtomicU64,
    answered: AnsweredCounts,
    frames: AtomicU64,
    frame_bytes: AtomicU64,
}

// How many requests were answered with each status.
#[derive(Drop)]
struct AnsweredCounts {
    ok: AtomicU64,
    no_content: AtomicU64,
    not_modified: AtomicU64,
    bad_request: AtomicU64,
    not_found: AtomicU64,
    not_allowed: AtomicU64,
    too_long: AtomicU64,
    target_too_long: AtomicU64,
    head_too_long: AtomicU64,
    not_implemented: AtomicU64,
    unavailable: AtomicU64,
}

impl AnsweredCounts {
    fn new() -> AnsweredCounts {
        AnsweredCounts {
            ok: AtomicU64::new(0),
            no_content: AtomicU64::new(0),
            not_modified: AtomicU64::new(0),
            bad_request: AtomicU64::new(0),
            not_found: AtomicU64::new(0),
            not_allowed: AtomicU64::new(0),
            too_long: AtomicU64::new(0),
            target_too_long: AtomicU64::new(0),
            head_too_long: AtomicU64::new(0),
            not_implemented: AtomicU64::new(0),
            unavailable: AtomicU64::new(0),
        }
    }

    // One more of this status, if it is shown. The one other, 500, is of a response that couldn't
    // be written.
    fn count(&self, status: u16) {
        let count = match status {
            200 => &self.ok,
            204 => &self.no_content,
            304 => &self.not_modified,
            400 => &self.bad_request,
            404 => &self.not_found,
            405 => &self.not_allowed,
            413 => &self.too_long,
            414 => &self.target_too_long,
            431 => &self.head_too_long,
            501 => &self.not_implemented,
            503 => &self.unavailable,
            _ => return,
        };
        count.fetch_add(1, Ordering::SeqCst);
    }

    fn now(&self) -> Answered {
        Answered {
            ok: read(&self.ok),
            no_content: read(&self.no_content),
            not_modified: read(&self.not_modified),
            bad_request: read(&self.bad_request),
            not_found: read(&self.not_found),
            not_allowed: read(&self.not_allowed),
            too_long: read(&self.too_long),
            target_too_long: read(&self.target_too_long),
            head_too_long: read(&self.head_too_long),
            not_implemented: read(&self.not_implemented),
            unavailable: read(&self.unavailable),
        }
    }
}

impl Numbers {
    /// Nothing was counted yet.
    pub fn new<R: Clock>(rt: &R) -> Numbers {
        let now = milliseconds(rt);
        Numbers {
            has_set: AtomicBool::new(false),
            revision: AtomicU64::new(0),
            flags: AtomicU64::new(0),
            frame_at: AtomicU64::new(now),
            source_at: AtomicU64::new(now),
            is_connected: AtomicBool::new(false),
            source_revision: AtomicU64::new(0),
            answered: AnsweredCounts::new(),
            frames: AtomicU64::new(0),
            frame_bytes: AtomicU64::new(0),
        }
    }

    /// A set is shown.
    pub fn show(&self, revision: u64, flags: u64) {
        self.revision.store(revision, Ordering::SeqCst);
        self.flags.store(flags, Ordering::SeqCst);
        self.has_set.store(true, Ordering::SeqCst);
    }

    /// A set was taken from the source, by a frame of so many bytes.
    pub fn take<R: Clock>(&self, rt: &R, bytes: u64) {
        self.frame_at.store(milliseconds(rt), Ordering::SeqCst);
        self.frames.fetch_add(1, Ordering::SeqCst);
        self.frame_bytes.fetch_add(bytes, Ordering::SeqCst);
    }

    /// The source showed this revision.
    pub fn note(&self, revision: u64) {
        self.source_revision.store(revision, Ordering::SeqCst);
    }

    /// A connection to the source stands from now on, or until now.
    pub fn connect<R: Clock>(&self, rt: &R, is_connected: bool) {
        self.source_at.store(milliseconds(rt), Ordering::SeqCst);
        self.is_connected.store(is_connected, Ordering::SeqCst);
    }

    /// A request was answered with this status.
    pub fn answer(&self, status: u16) {
        self.answered.count(status);
    }

    /// What an operator is told, but for the connections.
    pub fn report<R: Clock>(&self, rt: &R) -> Report {
        let now = milliseconds(rt);
        let since_source = if self.is_connected.load(Ordering::SeqCst) {
            0
        } else {
            seconds_since(&self.source_at, now)
        };
        let requests = self.answered.now();
        Report {
            has_set: self.has_set.load(Ordering::SeqCst),
            revision: read(&self.revision),
            flags: read(&self.flags),
            since_frame: seconds_since(&self.frame_at, now),
            since_source,
            source_revision: read(&self.source_revision),
            connections: 0,
            connections_total: 0,
            refused_total: 0,
            requests,
            // What the client has was evaluated too.
            evaluations: requests.ok.saturating_add(requests.not_modified),
            frames: read(&self.frames),
            frame_bytes: read(&self.frame_bytes),
        }
    }
}

fn read(count: &AtomicU64) -> u64 {
    count.load(Ordering::SeqCst)
}

fn seconds_since(at: &AtomicU64, now: u64) -> u64 {
    now.saturating_sub(read(at)) / 1000
}
