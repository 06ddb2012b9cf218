//! A socket that doesn't wait, with what is known of its readiness.

ghost use Rattle.std.specs.Prelude.{◌≡◌, ◌++◌, ◌≤◌, length};
ghost use Rattle.std.specs.Io.{WritesAtMost};

use crate::turn::{ROUNDS, Turn};
use mio::net::TcpStream;
use std::io;
use std::io::{ErrorKind, IoSlice, Read, Write};

/// A socket, and whether a read or a write may go on. Readiness is told at a change, so it is kept
/// until a call comes to its end.
#[derive(Drop)]
pub(crate) struct Socket {
    pub(crate) stream: TcpStream,
    pub(crate) may_read: bool,
    pub(crate) may_write: bool,
    /// Whether what comes is read by parts, the last byte by itself: a request that is whole by that
    /// has nothing behind it.
    pub(crate) parts: bool,
    // Whether the peer has ended its side or sent a byte out of band, where a read stops, or it has
    // failed: then a short read isn't the last.
    is_cut: bool,
    // The last byte that came, until it is given.
    last: Option<u8>,
    // Whether a read may go on behind it.
    may_follow: bool,
}

impl Socket {
    /// A new one, which may be written to.
    pub(crate) fn new(stream: TcpStream) -> Socket {
        Socket {
            stream,
            may_read: false,
            may_write: true,
            parts: false,
            is_cut: false,
            last: None,
            may_follow: false,
        }
    }

    /// What an event tells.
    pub(crate) fn mark(&mut self, reads: bool, writes: bool, is_cut: bool) {
        self.may_read = self.may_read || reads || is_cut;
        self.may_follow = self.may_follow || reads || is_cut;
        self.may_write = self.may_write || writes;
        self.is_cut = self.is_cut || is_cut;
    }

    /// Has what comes from now on be read by parts, or as a whole.
    pub(crate) fn part(&mut self, parts: bool) {
        if self.last.is_none() {
            self.parts = parts;
        }
    }

    /// Whether all that came was given.
    pub(crate) fn is_given(&self) -> bool {
        self.last.is_none()
    }

    // Of what came gives all, or all but the last byte, which is kept; one byte alone is given.
    fn keep_last(&mut self, came: &[u8]) -> usize
        ensures { result ≤ length came.now }
    {
        let [_, .., last] = came else {
            return came.len();
        };
        if !self.parts {
            return came.len();
        }
        self.last = Some(*last);
        self.may_follow = self.may_read;
        self.may_read = true;
        came.len() - 1
    }

    // Gives the byte that was kept.
    fn give_last(&mut self, last: u8, buf: &mut [u8]) -> usize
        ensures { result ≤ length buf.old }
    {
        let Some(first) = buf.first_mut() else {
            return 0;
        };
        *first = last;
        self.last = None;
        self.may_read = self.may_follow;
        1
    }

    /// Reads what the peer still says, and drops it, until it leaves.
    pub(crate) fn see_off(&mut self) -> Turn {
        let mut bytes = [0; 4096];
        for _ in 0..ROUNDS {
            if !self.may_read {
                return Turn::Waits;
            }
            if has_ended(self.read(&mut bytes)) {
                return Turn::Over;
            }
        }
        Turn::Goes
    }

    /// Writes both, one behind the other, by one call. It may stop anywhere.
    pub(crate) fn write_both(&mut self, first: &[u8], second: &[u8]) -> io::Result<usize>
        ensures writes { WritesAtMost result (first.now ++ second.now) }
        ensures reads { self.new.may_read ≡ self.old.may_read }
    {
        let texts = [IoSlice::new(first), IoSlice::new(second)];
        match self.stream.write_vectored(&texts) {
            Ok(count) => {
                self.may_write = count >= first.len() && count - first.len() == second.len();
                Ok(count)
            }
            Err(fault) => {
                self.may_write = fault.kind() == ErrorKind::Interrupted;
                Err(fault)
            }
        }
    }
}

impl Read for Socket {
    fn read(&mut self, buf: &mut [u8]) -> io::Result<usize> {
        if let Some(last) = self.last {
            return Ok(self.give_last(last, buf));
        }
        match self.stream.read(buf) {
            // Less than there was room for is all that there is.
            Ok(count) => {
                self.may_read = self.is_cut || count == buf.len();
                Ok(self.keep_last(&buf[..count]))
            }
            Err(fault) => {
                self.may_read = fault.kind() == ErrorKind::Interrupted;
                Err(fault)
            }
        }
    }
}

impl Write for Socket {
    fn write(&mut self, buf: &[u8]) -> io::Result<usize> {
        match self.stream.write(buf) {
            Ok(count) => {
                self.may_write = count == buf.len();
                Ok(count)
            }
            Err(fault) => {
                self.may_write = fault.kind() == ErrorKind::Interrupted;
                Err(fault)
            }
        }
    }

    fn flush(&mut self) -> io::Result<()> {
        Ok(())
    }
}

/// Whether a socket of which a call came to this gives or takes nothing more.
pub(crate) fn has_ended(outcome: io::Result<usize>) -> bool {
    match outcome {
        Ok(count) => count == 0,
        Err(fault) => !is_passing(fault.kind()),
    }
}

/// What a turn comes to at a failed call: it waits, where the call is to be made again.
pub(crate) fn turn_after(fault: io::Error) -> Turn {
    if is_passing(fault.kind()) {
        Turn::Waits
    } else {
        Turn::Over
    }
}

/// Whether a failed call is to be made again, now or when the socket is ready.
pub(crate) fn is_passing(kind: ErrorKind) -> bool {
    matches!(kind, ErrorKind::WouldBlock | ErrorKind::Interrupted)
}
