//! Why a connection ended.

use fp_http::Stop;
use fp_log::{Cause, Event, Port, tell, tell_failure};
use log::Log;
use std::io;
use std::io::ErrorKind;
use std::net::SocketAddr;

/// Why a connection ended.
#[derive(Debug, Drop, Clone, Copy, PartialEq, Eq)]
pub enum Ended {
    /// The peer ended it, or the service did, behind a last reply or as it stopped.
    Well,
    /// It said nothing between two requests, for too long.
    Idle,
    /// A request that had begun wasn't whole in time, or a hello's next byte didn't come.
    SlowRequest,
    /// Nothing of a reply was taken, for too long.
    SlowReply,
    /// What came to the editors' port is an HTTP request, or begins a TLS handshake.
    HttpRequest,
    /// What came to the subscribers' port is no hello.
    NoHello,
    /// All places of its kind are taken.
    NoPlace,
    /// The stream failed, or memory was wanting.
    Fault(ErrorKind),
}

impl From<Stop> for Ended {
    fn from(stop: Stop) -> Ended {
        match stop {
            Stop::Idle => Ended::Idle,
            Stop::SlowRequest => Ended::SlowRequest,
            Stop::SlowReply => Ended::SlowReply,
            Stop::Memory => Ended::Fault(ErrorKind::OutOfMemory),
            Stop::Fault(kind) => Ended::Fault(kind),
        }
    }
}

impl Ended {
    /// Tells why a connection of this port ended, where it didn't end well.
    pub fn tell<R: Log>(self, rt: &R, port: Port, peer: SocketAddr) {
        let cause = match self {
            Ended::Well => return,
            Ended::Idle => Cause::Idle,
            Ended::SlowRequest => Cause::SlowRequest,
            Ended::SlowReply => Cause::SlowReply,
            Ended::HttpRequest => Cause::HttpRequest,
            Ended::NoHello => Cause::NoHello,
            Ended::NoPlace => Cause::NoPlace,
            Ended::Fault(_) => Cause::Fault,
        };
        match self {
            Ended::Fault(kind) => tell_fault(rt, port, peer, &io::Error::from(kind)),
            _ => tell(rt, &Event::ConnectionEnded { port, peer, cause }),
        }
    }
}

/// Tells that a connection of this port ended by a fault: its stream's, or that something was wanting
/// for it.
pub fn tell_fault<R: Log>(rt: &R, port: Port, peer: SocketAddr, reason: &io::Error) {
    let cause = Cause::Fault;
    tell_failure(rt, &Event::ConnectionEnded { port, peer, cause }, reason);
}
