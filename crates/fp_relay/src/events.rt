//! What happened to a relay, as a line of its log says it.

use crate::source::SourceEnd;
use log::{Log, info};
use std::net::{SocketAddr, SocketAddrV4};
use std::{fmt, io};

/// Something that happened to a relay. What it carries is all that is told of it.
#[derive(Drop, Clone, Copy)]
pub enum Event<'e> {
    /// A listener was bound.
    Bound {
        port: &'e str,
        address: SocketAddr,
    },
    /// An address couldn't be bound.
    NotBound {
        port: &'e str,
        address: SocketAddrV4,
    },
    /// A thread couldn't begin, or what it needs wasn't to be had.
    NotStarted {
        thread: &'e str,
    },
    /// A kept frame was taken.
    Restored {
        revision: u64,
        flags: u64,
        path: &'e str,
    },
    /// There is no kept frame in the file.
    NotRestored {
        path: &'e str,
    },
    /// The source was reached.
    SourceReached {
        address: SocketAddrV4,
    },
    /// The source wasn't reached.
    SourceNotReached {
        address: SocketAddrV4,
        milliseconds: u64,
    },
    /// The connection to the source ended.
    SourceLeft {
        address: SocketAddrV4,
        milliseconds: u64,
        end: SourceEnd,
    },
    /// The source shows a revision that is below what is shown.
    SourceBehind {
        revision: u64,
        shown: u64,
    },
    /// A set is shown.
    Shown {
        revision: u64,
        flags: u64,
    },
    /// A frame wasn't kept.
    NotKept {
        path: &'e str,
    },
}

impl Event<'_> {
    /// The name that a program looks for.
    pub fn name(&self) -> &'static str {
        match self {
            Event::Bound { .. } => "bound",
            Event::NotBound { .. } => "not-bound",
            Event::NotStarted { .. } => "not-started",
            Event::Restored { .. } => "restored",
            Event::NotRestored { .. } => "not-restored",
            Event::SourceReached { .. } => "source-reached",
            Event::SourceNotReached { .. } => "source-not-reached",
            Event::SourceLeft { .. } => "source-left",
            Event::SourceBehind { .. } => "source-behind",
            Event::Shown { .. } => "shown",
            Event::NotKept { .. } => "not-kept",
        }
    }
}

impl fmt::Display for Event<'_> {
    fn fmt<W: fmt::Write>(&self, f: &mut fmt::Formatter<W>) -> fmt::Result {
        match self {
            Event::Bound { port, address } => write!(f, "port={port} address={address}"),
            Event::NotBound { port, address } => write!(f, "port={port} address={address}"),
            Event::NotStarted { thread } => write!(f, "thread={thread}"),
            Event::Restored {
                revision,
                flags,
                path,
            } => write!(f, "revision={revision} flags={flags} path={path}"),
            Event::NotRestored { path } => write!(f, "path={path}"),
            Event::SourceReached { address } => write!(f, "address={address}"),
            Event::SourceNotReached {
                address,
                milliseconds,
            } => write!(f, "address={address} again-in-ms={milliseconds}"),
            Event::SourceLeft {
                address,
                milliseconds,
                end,
            } => write!(
                f,
                "address={address} again-in-ms={milliseconds} cause={end}"
            ),
            Event::SourceBehind { revision, shown } => {
                write!(f, "revision={revision} shown={shown}")
            }
            Event::Shown { revision, flags } => write!(f, "revision={revision} flags={flags}"),
            Event::NotKept { path } => write!(f, "path={path}"),
        }
    }
}

/// Tells an event, where somebody asked for it.
pub fn tell<R: Log>(rt: &R, event: &Event<'_>) {
    info!(rt; target: event.name(), "{event}");
}

/// The same with the system's reason.
pub fn tell_failure<R: Log>(rt: &R, event: &Event<'_>, reason: &io::Error) {
    info!(rt; target: event.name(), "{event} reason={reason}");
}
