//! What an editor says until the service stops.

use crate::connections::Place;
use crate::ended::Ended;
use crate::noted::Noted;
use std::io;
use std::io::{ErrorKind, Read};
use std::net::TcpStream;
use std::sync::Wait;
use std::time::Clock;

/// What an editor says. As the service stops the stream seems to be at its end; but what has come of a
/// line then is no last line, so this fails there.
#[derive(Drop)]
pub struct UntilStopped<'s, R: Wait + Clock + Drop> {
    said: Noted<'s>,
    place: &'s Place<R>,
    is_stopped: bool,
}

impl<R: Wait + Clock + Drop> UntilStopped<'_, R> {
    /// Of the stream that has this place.
    pub fn new<'s>(stream: &'s TcpStream, place: &'s Place<R>) -> UntilStopped<'s, R> {
        UntilStopped {
            said: Noted::new(stream),
            place,
            is_stopped: false,
        }
    }

    /// Why it failed last, if it did.
    pub fn ended(&self) -> Option<Ended> {
        if self.is_stopped {
            return Some(Ended::Well);
        }
        self.said.ended()
    }
}

impl<R: Wait + Clock + Drop> Read for UntilStopped<'_, R> {
    fn read(&mut self, buf: &mut [u8]) -> io::Result<usize> {
        let count = self.said.read(buf)?;
        if count == 0 && self.place.is_closed() {
            self.is_stopped = true;
            return Err(io::Error::from(ErrorKind::ConnectionAborted));
        }
        Ok(count)
    }
}
