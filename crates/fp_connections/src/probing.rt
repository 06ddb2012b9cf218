//! Probes of peers that say nothing: the system asks a silent one whether it is still there.

use libc::net as c;
use std::os::fd::AsRawFd;

// After how many seconds of silence a peer is asked, how many pass between two questions, and how
// many it may leave without an answer.
const IDLE: i32 = 30;

const BETWEEN: i32 = 10;

const PROBES: i32 = 3;

/// Has the system probe the peer of a connection; of a listener, those of all connections that it
/// accepts from now on, which have what is set of it. A system that refuses it probes none.
pub fn probe_peers<S: AsRawFd>(socket: &S) {
    let fd = socket.as_raw_fd();
    // `std` doesn't offer these options. Each call sets a number of the socket, and no memory.
    let _ = unsafe { c::setsockopt(fd, c::SOL_SOCKET, c::SO_KEEPALIVE, &number(1), 4) };
    let _ = unsafe { c::setsockopt(fd, c::IPPROTO_TCP, c::TCP_KEEPIDLE, &number(IDLE), 4) };
    let _ = unsafe { c::setsockopt(fd, c::IPPROTO_TCP, c::TCP_KEEPINTVL, &number(BETWEEN), 4) };
    let _ = unsafe { c::setsockopt(fd, c::IPPROTO_TCP, c::TCP_KEEPCNT, &number(PROBES), 4) };
}

// An option's value.
pub(crate) fn number(value: i32) -> [u8; 16] {
    let mut bytes = [0; 16];
    bytes[..4].copy_from_slice(&value.to_ne_bytes());
    bytes
}
