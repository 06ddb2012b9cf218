//! The descriptors of the standard streams.

use libc::net as c;
use libc::types::pollfd;
use std::fs::File;
use std::os::fd::AsRawFd;
use std::rt::Files;

// The greatest descriptor of a standard stream.
const STANDARD_ERROR: i32 = 2;

// What takes the place of a closed stream, the first of these that can be opened for reading: a folder
// can neither be read nor written, and the device is empty and can't be written through this.
const HOLDING: [&str; 3] = ["/", ".", "/dev/null"];

/// Takes the descriptors of standard streams that are closed, for as long as these files are held.
/// Else a file or a socket that is opened later gets one, and what is written to that stream goes
/// into it. Writing to such a stream fails, and nothing is read of it. `None` where one is closed
/// still, since nothing could be opened.
pub fn hold_closed_streams<R: Files<File = File>>(rt: &R) -> Option<[Option<File>; 3]> {
    let held = [held(rt), held(rt), held(rt)];
    if is_closed(0) || is_closed(1) || is_closed(STANDARD_ERROR) {
        return None;
    }
    Some(held)
}

// The least descriptor that is free, where it is a standard stream's.
fn held<R: Files<File = File>>(rt: &R) -> Option<File> {
    for path in &HOLDING {
        if let Ok(opened) = File::open(rt, path) {
            if opened.as_raw_fd() > STANDARD_ERROR {
                return None;
            }
            return Some(opened);
        }
    }
    None
}

fn is_closed(descriptor: i32) -> bool {
    let mut asked = [pollfd {
        fd: descriptor,
        events: 0,
        revents: 0,
    }];
    c::poll(&mut asked, 0) > 0 && asked[0].revents & c::POLLNVAL != 0
}
