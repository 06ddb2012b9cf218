//! What becomes of one connection.

use crate::connections::Place;
use crate::ended::Ended;
use crate::evaluations::{LentEvaluator, LoanFault};
use crate::noted::Noted;
use crate::until_stopped::UntilStopped;
use fp_connections::{Host, end_untaken};
use fp_conversations::{EditorEnd, SubscriberFault, editor_loop, subscriber_loop};
use fp_disk::Disk;
use fp_http::{Blocking, Moment, Note, TimeLimits, serve_ofrep};
use fp_log::Port;
use fp_plane::{Editing, Naming, Plane, SealingPlane};
use fp_publish::{MOST_EVALUATORS, MOST_SEATS};
use fp_stream::HelloFault;
use fp_streams::{FailureCounted, StreamFault};
use std::alloc::{AllocError, Global};
use std::cell::Cell;
use std::io::{BufWriter, ErrorKind, Read, Write};
use std::net::TcpStream;
use std::rc::Rc;
use std::time::Duration;

/// How many editors there may be at once.
pub const MOST_EDITORS: usize = 32;

/// What the connections of a listener are for.
#[derive(Debug, Drop, Clone, Copy, PartialEq, Eq)]
pub enum Role {
    /// Evaluations by OFREP over HTTP/1.1.
    Evaluations,
    /// Edits, a line each.
    Edits,
    /// Snapshots, a frame each.
    Snapshots,
}

impl Role {
    /// The port of such connections, as it is told.
    pub fn port(self) -> Port {
        match self {
            Role::Evaluations => Port::Ofrep,
            Role::Edits => Port::Edit,
            Role::Snapshots => Port::Stream,
        }
    }

    /// How many of them there may be at once.
    pub fn limit(self) -> usize {
        match self {
            Role::Evaluations => MOST_EVALUATORS,
            Role::Edits => MOST_EDITORS,
            Role::Snapshots => MOST_SEATS,
        }
    }
}

/// Serves a connection to its end, and tells why it ended. A fault of it ends it alone.
pub fn converse<K, D, R>(
    rt: &R,
    role: Role,
    limits: TimeLimits,
    plane: &SealingPlane<K, D, R>,
    stream: &TcpStream,
    place: &Place<R>,
) -> Ended
where
    K: Naming,
    D: Disk + Drop,
    R: Host,
{
    // A reply is small, and waits for nothing behind it.
    let _ = stream.set_nodelay(true);
    let _ = stream.set_write_timeout(Some(limits.reply));
    end_untaken(stream, limits.reply);
    match role {
        Role::Evaluations => evaluate(rt, limits, plane.plane(), stream),
        Role::Edits => edit(rt, plane, stream, place),
        Role::Snapshots => subscribe(limits, plane.plane(), stream),
    }
}

// A note of why a connection was stopped, once for its stream, once for who answers, once to be read.
fn notes(alloc: Global) -> Result<(Note, Note, Note), AllocError> {
    let of_stream = Rc::new(alloc, Cell::new(None))?;
    let of_answers = of_stream.clone()?;
    let kept = of_stream.clone()?;
    Ok((of_stream, of_answers, kept))
}

fn evaluate<K, R>(rt: &R, limits: TimeLimits, plane: &Plane<K, R>, stream: &TcpStream) -> Ended
where
    K: Naming,
    R: Host,
{
    let evaluator = match LentEvaluator::of(plane) {
        Ok(evaluator) => evaluator,
        Err(LoanFault::Used) => return Ended::NoPlace,
        Err(LoanFault::Memory) => return Ended::Fault(ErrorKind::OutOfMemory),
    };
    let Ok((of_stream, of_answers, kept)) = notes(rt.alloc()) else {
        return Ended::Fault(ErrorKind::OutOfMemory);
    };
    let clock = *rt;
    let connection = Blocking::new(Noted::new(stream), clock, limits, of_stream);
    let now = move || Moment::now(&clock);
    let served = serve_ofrep(rt, connection, evaluator, now, of_answers);
    match (kept.get(), served) {
        (Some(stop), _) => stop.into(),
        (None, Ok(_evaluator)) => Ended::Well,
        (None, Err(reason)) => Ended::Fault(reason.kind()),
    }
}

fn edit<K, D, R>(
    rt: &R,
    plane: &SealingPlane<K, D, R>,
    stream: &TcpStream,
    place: &Place<R>,
) -> Ended
where
    K: Naming,
    D: Disk + Drop,
    R: Host,
{
    // A reply goes in one packet.
    let Ok(gathered) = BufWriter::new(rt.alloc(), Noted::new(stream)) else {
        return Ended::Fault(ErrorKind::OutOfMemory);
    };
    let mut r = FailureCounted::new(UntilStopped::new(stream, place));
    let mut w = FailureCounted::new(gathered);
    match edit_over(rt, plane, &mut r, &mut w) {
        Some(ended) => ended,
        None => of_streams(w.get_ref().get_ref().ended(), r.get_ref().ended()),
    }
}

// Why an editor's connection ended, but where its streams say it.
fn edit_over<K, D, R, I, O>(
    rt: &R,
    plane: &SealingPlane<K, D, R>,
    r: &mut FailureCounted<I>,
    w: &mut FailureCounted<O>,
) -> Option<Ended>
where
    K: Naming,
    D: Disk + Drop,
    R: Host,
    I: Read,
    O: Write,
{
    match editor_loop(&mut Editing::new(plane), rt.alloc(), r, w) {
        Ok(EditorEnd::Served(_told)) => Some(Ended::Well),
        Ok(EditorEnd::HttpRequest) => Some(Ended::HttpRequest),
        Err((StreamFault::Memory, _)) => Some(Ended::Fault(ErrorKind::OutOfMemory)),
        Err((StreamFault::Device, _)) => None,
    }
}

fn subscribe<K, R>(limits: TimeLimits, plane: &Plane<K, R>, stream: &TcpStream) -> Ended
where
    K: Naming,
    R: Host,
{
    // Who says no hello holds no place.
    let _ = stream.set_read_timeout(Some(limits.request));
    let mut r = FailureCounted::new(Noted::new(stream));
    let mut w = FailureCounted::new(Noted::new(stream));
    match subscribe_over(plane, stream, &mut r, &mut w) {
        Some(ended) => ended,
        None => of_streams(w.get_ref().ended(), r.get_ref().ended()),
    }
}

// Why a subscriber's connection ended, but where its streams say it.
fn subscribe_over<K, R>(
    plane: &Plane<K, R>,
    stream: &TcpStream,
    r: &mut FailureCounted<Noted<'_>>,
    w: &mut FailureCounted<Noted<'_>>,
) -> Option<Ended>
where
    K: Naming,
    R: Host,
{
    let (ended, _shown) = subscriber_loop(plane, r, w, || has_left(stream));
    match ended {
        Ok(_gone) => Some(Ended::Well),
        Err(SubscriberFault::TooLong) => Some(Ended::Fault(ErrorKind::FileTooLarge)),
        Err(SubscriberFault::Hello(HelloFault::Device)) | Err(SubscriberFault::Device) => None,
        // Who asks whether the port is there says nothing, or less than a hello.
        Err(SubscriberFault::Hello(HelloFault::Cut)) => Some(Ended::Well),
        Err(SubscriberFault::Hello(HelloFault::BadHello)) => Some(Ended::NoHello),
        Err(SubscriberFault::SeatsUsed) => Some(Ended::NoPlace),
    }
}

// Why a stream failed, as its writer says it, or else its reader.
fn of_streams(written: Option<Ended>, read: Option<Ended>) -> Ended {
    written.or(read).unwrap_or(Ended::Fault(ErrorKind::Other))
}

// How much of what a subscriber says behind its hello is dropped at each look: so many reads of 4 KB.
const DROPPED_READS: usize = 16;

// Whether the peer ended the stream. What it says behind its hello is no end, and is dropped.
fn has_left(stream: &TcpStream) -> bool {
    let mut stream = stream;
    let mut bytes = [0; 4096];
    let _ = stream.set_read_timeout(Some(Duration::from_millis(1)));
    for _ in 0..DROPPED_READS {
        match stream.read(&mut bytes) {
            Ok(0) => return true,
            Ok(_) => {}
            Err(fault) => {
                return !matches!(fault.kind(), ErrorKind::WouldBlock | ErrorKind::Interrupted);
            }
        }
    }
    false
}
