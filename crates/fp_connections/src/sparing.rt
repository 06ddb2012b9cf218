//! Descriptors that connections leave to what a program opens itself.

use libc::types::rlimit;
use libc::{RLIMIT_NOFILE, getrlimit};
use std::net::TcpStream;
use std::os::fd::AsRawFd;

// How many: a connect to a source takes three, a file that is kept one, a connection that is refused
// one at each port.
const SPARED: u64 = 8;

/// Whether a connection that was let in took one of the last descriptors that the program may have.
/// Closing it leaves them to what the program opens itself.
pub fn took_one_of_the_last(stream: &TcpStream) -> bool {
    // The system sets a descriptor aside as the wait for a connection begins. So many may be free
    // by now, and the next one tells.
    is_one_of_the_last(stream)
        && match stream.try_clone() {
            Ok(next) => is_one_of_the_last(&next),
            Err(_) => true,
        }
}

// The system gives the least one that is free: where this is one of the last, those below are taken.
fn is_one_of_the_last(stream: &TcpStream) -> bool {
    let mut limit = rlimit {
        rlim_cur: 0,
        rlim_max: 0,
    };
    let is_known = getrlimit(RLIMIT_NOFILE, &mut limit) == 0;
    let number = u64::try_from(stream.as_raw_fd()).unwrap_or(0);
    is_known && limit.rlim_cur <= number.saturating_add(SPARED)
}
