//! The end of a connection whose peer may still be sending. Where a stream is closed with bytes that
//! nobody read, or more come behind that, the system resets it, and what the peer hasn't taken of its
//! last replies is lost.

use crate::connections::Place;
use fp_connections::{Host, has_taken_all};
use std::io::{ErrorKind, Read};
use std::net::{Shutdown, TcpStream};
use std::thread;
use std::time::{Duration, Instant};

// How many milliseconds it takes at most.
const MOST: u64 = 2_000;

// For how many of them it waits at once for more.
const LOOK: u64 = 10;

// So many looks behind which nothing came are enough where the service stops.
const QUIET_LOOKS: u32 = 10;

/// Says that nothing more comes, and drops what the peer still sends until it ends the stream too, for
/// no longer than two seconds. Where the service stops, until nothing came for a tenth of a second and
/// the peer has what was sent to it.
pub fn linger<R: Host>(rt: &R, stream: &TcpStream, place: &Place<R>) {
    let Ok(begun) = Instant::now(rt) else {
        return;
    };
    // At a stop no more is read, and the system would answer what comes behind this by a reset.
    if !place.is_closed() {
        let _ = stream.shutdown(Shutdown::Write);
    }
    let look = Duration::from_millis(LOOK);
    let _ = stream.set_read_timeout(Some(look));
    let mut quiet: u32 = 0;
    for _ in rt.forever() {
        match drop_next(stream) {
            Came::More => quiet = 0,
            Came::Nothing => quiet = quiet.saturating_add(1),
            // At a stop a stream seems to be at its end where nothing has come.
            Came::End if place.is_closed() => {
                thread::sleep(rt, look);
                quiet = quiet.saturating_add(1);
            }
            Came::End | Came::Fault => return,
        }
        let is_quiet = place.is_closed() && quiet >= QUIET_LOOKS && has_taken_all(stream);
        if is_quiet || is_over(rt, &begun) {
            return;
        }
    }
}

// What a look found.
enum Came {
    More,
    Nothing,
    End,
    Fault,
}

// Drops what comes next.
fn drop_next(stream: &TcpStream) -> Came {
    let mut stream = stream;
    let mut bytes = [0; 16_384];
    match stream.read(&mut bytes) {
        Ok(0) => Came::End,
        Ok(_) => Came::More,
        Err(fault) => match fault.kind() {
            ErrorKind::WouldBlock | ErrorKind::Interrupted => Came::Nothing,
            _ => Came::Fault,
        },
    }
}

// Whether it took all the time that it may take.
fn is_over<R: Host>(rt: &R, begun: &Instant) -> bool {
    match begun.elapsed(rt) {
        Ok(passed) => passed >= Duration::from_millis(MOST),
        Err(_) => true,
    }
}
