//! What the peer of a connection takes of what is sent to it.

use crate::probing::number;
use libc::net as c;
use libc::types::pollfd;
use std::os::fd::AsRawFd;
use std::time::Duration;

/// Has the system end a connection whose peer takes nothing of what is sent to it for so long, be it
/// that it reads nothing or that it is gone: a write that waits fails by `ErrorKind::TimedOut` then. A
/// system that refuses it ends none.
pub fn end_untaken<S: AsRawFd>(socket: &S, most: Duration) {
    let fd = socket.as_raw_fd();
    let most = number(i32::try_from(most.as_millis()).unwrap_or(i32::MAX));
    // `std` doesn't offer this option either.
    let _ = unsafe { c::setsockopt(fd, c::IPPROTO_TCP, c::TCP_USER_TIMEOUT, &most, 4) };
}

/// Whether the peer's system took all that was sent, but for a last few KB. Nothing more may be sent
/// behind this: the connection has the least room for it from now on.
pub fn has_taken_all<S: AsRawFd>(socket: &S) -> bool {
    let fd = socket.as_raw_fd();
    // What hasn't been taken lies in that room, and one that is filled takes no write.
    let _ = unsafe { c::setsockopt(fd, c::SOL_SOCKET, c::SO_SNDBUF, &number(0), 4) };
    let mut asked = [pollfd {
        fd,
        events: c::POLLOUT,
        revents: 0,
    }];
    c::poll(&mut asked, 0) != 0
}
