//! What happened to connections, as a status page shows it.

use std::sync::atomic::{AtomicU64, Ordering};

/// What a connection is for.
#[derive(Debug, Drop, Clone, Copy, PartialEq, Eq)]
pub enum Role {
    /// Requests over HTTP/1.1.
    Requests,
    /// A hello, and frames.
    Frames,
}

/// What happened to the connections of some threads. All threads add to it.
#[derive(Drop)]
pub struct Counts {
    requesters: AtomicU64,
    subscribers: AtomicU64,
    accepted: AtomicU64,
    refused: AtomicU64,
}

/// What was counted up to some moment. The numbers may be of moments that lie apart.
#[derive(Drop, Clone, Copy)]
pub struct Counted {
    /// Connections that are open for requests.
    pub requesters: u64,
    /// Connections that are open for frames.
    pub subscribers: u64,
    /// Connections that were let in.
    pub accepted: u64,
    /// Connections that were closed because there was no place or no descriptor for them.
    pub refused: u64,
}

impl Counts {
    /// Counts of nothing yet. Threads share them by `Arc`.
    pub fn new() -> Counts {
        Counts {
            requesters: AtomicU64::new(0),
            subscribers: AtomicU64::new(0),
            accepted: AtomicU64::new(0),
            refused: AtomicU64::new(0),
        }
    }

    /// What was counted up to now.
    pub fn now(&self) -> Counted {
        Counted {
            requesters: read(&self.requesters),
            subscribers: read(&self.subscribers),
            accepted: read(&self.accepted),
            refused: read(&self.refused),
        }
    }

    /// How many connections are open for this.
    pub fn open(&self, role: Role) -> u64 {
        read(self.of(role))
    }

    /// A connection was let in.
    pub fn came(&self, role: Role) {
        add_one(self.of(role));
        add_one(&self.accepted);
    }

    /// A connection was refused.
    pub fn was_refused(&self) {
        add_one(&self.refused);
    }

    /// A connection that was let in has ended.
    pub fn left(&self, role: Role) {
        self.of(role).fetch_sub(1, Ordering::SeqCst);
    }

    fn of(&self, role: Role) -> &AtomicU64 {
        match role {
            Role::Requests => &self.requesters,
            Role::Frames => &self.subscribers,
        }
    }
}

fn read(count: &AtomicU64) -> u64 {
    count.load(Ordering::SeqCst)
}

fn add_one(count: &AtomicU64) {
    count.fetch_add(1, Ordering::SeqCst);
}
