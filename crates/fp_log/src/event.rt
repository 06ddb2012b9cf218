//! What happened, as a line says it.

ghost use Rattle.std.specs.Prelude.{◌≡◌};
ghost use Rattle.fp_log.specs.Events.{cause_name, name_of, port_name, source_name};

use log::{Log, info};
use std::net::{SocketAddr, SocketAddrV4};
use std::{fmt, io};

/// What the connections of a listener are for.
#[derive(Debug, Drop, Clone, Copy)]
pub enum Port {
    /// Evaluations by OFREP.
    Ofrep,
    /// Edits.
    Edit,
    /// Snapshots.
    Stream,
}

impl Port {
    /// The word for a port, as `serve` says where it listens.
    pub fn name(&self) -> &'static str
        ensures { result.now ≡ port_name self.now }
    {
        match self {
            Port::Ofrep => "ofrep",
            Port::Edit => "edit",
            Port::Stream => "stream",
        }
    }
}

/// What is read or written.
#[derive(Debug, Drop, Clone, Copy)]
pub enum Source {
    /// The file of a store.
    File,
    /// Standard input.
    Input,
    /// Standard output.
    Output,
    /// A connection: that of `watch`, or one that a service lets in.
    Connection,
}

impl Source {
    /// The word for what is read or written.
    pub fn name(&self) -> &'static str
        ensures { result.now ≡ source_name self.now }
    {
        match self {
            Source::File => "file",
            Source::Input => "standard-input",
            Source::Output => "standard-output",
            Source::Connection => "connection",
        }
    }
}

/// Why a connection was ended.
#[derive(Debug, Drop, Clone, Copy)]
pub enum Cause {
    /// It said nothing between two requests, for too long.
    Idle,
    /// A request that had begun wasn't whole in time.
    SlowRequest,
    /// Nothing of a reply was taken, for too long.
    SlowReply,
    /// What came to a port for others is an HTTP request.
    HttpRequest,
    /// What came is no hello.
    NoHello,
    /// All places of its kind are taken.
    NoPlace,
    /// The stream failed, or memory was wanting.
    Fault,
}

impl Cause {
    /// The word for why a connection was ended.
    pub fn name(&self) -> &'static str
        ensures { result.now ≡ cause_name self.now }
    {
        match self {
            Cause::Idle => "idle",
            Cause::SlowRequest => "slow-request",
            Cause::SlowReply => "slow-reply",
            Cause::HttpRequest => "http-request",
            Cause::NoHello => "no-hello",
            Cause::NoPlace => "no-place",
            Cause::Fault => "fault",
        }
    }
}

/// Something that happened to the service or to a command. What it carries is all that is told of
/// it: none has a flag's definition, an edit or a context.
#[derive(Drop, Clone, Copy)]
pub enum Event<'e> {
    /// A store was opened, at this revision and with so many flags.
    Opened {
        path: &'e str,
        revision: u64,
        flags: usize,
        milliseconds: u64,
    },
    /// A listener was bound.
    Bound {
        port: Port,
        address: SocketAddr,
    },
    /// A connection was ended at a limit or by a fault.
    ConnectionEnded {
        port: Port,
        peer: SocketAddr,
        cause: Cause,
    },
    /// A compaction was begun, at this revision.
    CompactionBegun {
        revision: u64,
    },
    /// A compaction was ended, at this revision.
    CompactionEnded {
        revision: u64,
    },
    /// The store failed: this is the last revision that it kept.
    StoreFailed {
        revision: u64,
    },
    /// The service stopped at this revision.
    Stopped {
        revision: u64,
    },
    /// A file couldn't be opened, or another program has it.
    NotOpened {
        path: &'e str,
    },
    /// A call of the system failed.
    CallFailed {
        call: &'e str,
        source: Source,
    },
    /// An address couldn't be bound.
    NotBound {
        port: Port,
        address: SocketAddrV4,
    },
    /// There was no service at an address.
    NotConnected {
        address: SocketAddrV4,
    },
    /// A thread couldn't be started.
    NotStarted {
        thread: &'e str,
    },
    /// Memory is wanting for this, which is tried again until there is some.
    MemoryWanting {
        of: &'e str,
    },
}

impl Event<'_> {
    /// The name of the event, a word that a program looks for. What is shown of the event is its
    /// fields, each behind its name, and nothing else.
    pub fn name(&self) -> &'static str
        ensures { result.now ≡ name_of self.now }
    {
        match self {
            Event::Opened { .. } => "opened",
            Event::Bound { .. } => "bound",
            Event::ConnectionEnded { .. } => "connection-ended",
            Event::CompactionBegun { .. } => "compaction-begun",
            Event::CompactionEnded { .. } => "compaction-ended",
            Event::StoreFailed { .. } => "store-failed",
            Event::Stopped { .. } => "stopped",
            Event::NotOpened { .. } => "not-opened",
            Event::CallFailed { .. } => "call-failed",
            Event::NotBound { .. } => "not-bound",
            Event::NotConnected { .. } => "not-connected",
            Event::NotStarted { .. } => "not-started",
            Event::MemoryWanting { .. } => "memory-wanting",
        }
    }
}

impl fmt::Display for Event<'_> {
    ghost use Rattle.std.specs.Prelude.{Some};
    ghost use Rattle.fp_log.specs.Events.{text_of};

    ghost output = { λ e. Some (text_of e) };

    fn fmt<W: fmt::Write>(&self, f: &mut fmt::Formatter<W>) -> fmt::Result {
        match self {
            Event::Opened {
                path,
                revision,
                flags,
                milliseconds,
            } => write!(
                f,
                "revision={revision} flags={flags} ms={milliseconds} path={path}"
            ),
            Event::Bound { port, address } => {
                let port = port.name();
                write!(f, "port={port} address={address}")
            }
            Event::ConnectionEnded { port, peer, cause } => {
                let port = port.name();
                let cause = cause.name();
                write!(f, "port={port} peer={peer} cause={cause}")
            }
            Event::CompactionBegun { revision }
            | Event::CompactionEnded { revision }
            | Event::StoreFailed { revision }
            | Event::Stopped { revision } => write!(f, "revision={revision}"),
            Event::NotOpened { path } => write!(f, "path={path}"),
            Event::CallFailed { call, source } => {
                let source = source.name();
                write!(f, "call={call} of={source}")
            }
            Event::NotBound { port, address } => {
                let port = port.name();
                write!(f, "port={port} address={address}")
            }
            Event::NotConnected { address } => write!(f, "address={address}"),
            Event::NotStarted { thread } => write!(f, "thread={thread}"),
            Event::MemoryWanting { of } => write!(f, "of={of}"),
        }
    }
}

/// Tells an event to the runtime's log, where somebody asked for it; else it does nothing.
pub fn tell<R: Log>(rt: &R, event: &Event<'_>) {
    info!(rt; target: event.name(), "{event}");
}

/// Tells an event as `tell` does, with the system's reason behind it.
pub fn tell_failure<R: Log>(rt: &R, event: &Event<'_>, reason: &io::Error) {
    info!(rt; target: event.name(), "{event} reason={reason}");
}
