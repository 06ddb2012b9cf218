//! Many connections at once.

use crate::clients::{Response, byte_of, connect, evaluated, is_closed, say, say_put, told_next};
use fp_server::Host;
use fp_transcript::Text;
use std::net::{SocketAddr, TcpStream};
use std::thread;
use std::time::Duration;

// A connection that was let in, as the answer to these bytes shows.
fn let_in<R: Host>(rt: &R, at: SocketAddr, bytes: &[u8]) -> Option<TcpStream> {
    let stream = connect(rt, at).ok()?;
    if say(&stream, bytes) && byte_of(&mut &stream).is_some() {
        Some(stream)
    } else {
        None
    }
}

/// So many connections more: how many of them are let in.
pub fn enter<R: Host>(
    rt: &R,
    at: SocketAddr,
    count: u64,
    bytes: &[u8],
    crowd: &mut Vec<TcpStream>,
) -> u64 {
    let mut entered = 0u64;
    for _ in 0..count {
        if let Some(stream) = let_in(rt, at, bytes) {
            let _ = crowd.push(stream);
            entered = entered.saturating_add(1);
        }
    }
    entered
}

/// Whether one connection more is closed without a byte.
pub fn is_refused<R: Host>(rt: &R, at: SocketAddr) -> bool {
    match connect(rt, at) {
        Ok(stream) => is_closed(&stream),
        Err(_) => false,
    }
}

/// Whether one connection more is let in within five seconds.
pub fn comes_in<R: Host>(rt: &R, at: SocketAddr, bytes: &[u8], crowd: &mut Vec<TcpStream>) -> bool {
    for _ in 0..500 {
        if enter(rt, at, 1, bytes, crowd) == 1 {
            return true;
        }
        thread::sleep(rt, Duration::from_millis(10));
    }
    false
}

// An evaluation on a connection of its own, which is let in within five seconds.
fn anew<R: Host>(rt: &R, at: SocketAddr, key: &str) -> Option<(TcpStream, Response)> {
    for _ in 0..500 {
        let stream = connect(rt, at).ok()?;
        let response = evaluated(rt.alloc(), &stream, key);
        if response.is_there {
            return Some((stream, response));
        }
        thread::sleep(rt, Duration::from_millis(10));
    }
    None
}

/// The revisions at which a flag is evaluated on so many connections that are open at once.
pub fn see<R: Host>(rt: &R, at: SocketAddr, count: u64, key: &str, out: &mut Text) {
    let mut streams = Vec::new(rt.alloc());
    for _ in 0..count {
        if let Some((stream, response)) = anew(rt, at, key) {
            out.part();
            out.number(response.revision);
            let _ = streams.push(stream);
        }
    }
}

// Whether a flag is missing before it is put, and is found on another connection once it was told.
fn is_found<R: Host>(rt: &R, editor: &TcpStream, ofrep: SocketAddr, key: &str) -> Option<bool> {
    let (_closed, before) = anew(rt, ofrep, key)?;
    let is_told = say_put(rt.alloc(), editor, key) && told_next(rt.alloc(), editor).is_some();
    let (_other, after) = anew(rt, ofrep, key)?;
    Some(!before.is_found && is_told && after.is_found)
}

/// How many flags, of so many, are found once they were told, and not before.
pub fn found<R: Host>(rt: &R, edit: SocketAddr, ofrep: SocketAddr, count: u64) -> u64 {
    let Ok(editor) = connect(rt, edit) else {
        return 0;
    };
    let mut found = 0u64;
    let mut key = Text::new(rt.alloc());
    for n in 0..count {
        key.clear();
        key.push("flag-");
        key.number(n);
        if is_found(rt, &editor, ofrep, key.as_str()) == Some(true) {
            found = found.saturating_add(1);
        }
    }
    found
}
