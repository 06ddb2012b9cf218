//! A connection's stream that keeps why it failed last.

use crate::ended::Ended;
use fp_http::Patient;
use fp_streams::WriteGathered;
use std::io;
use std::io::{ErrorKind, IoSlice, Read, Write};
use std::net::TcpStream;
use std::time::Duration;

/// One side of a stream, and why it failed last.
#[derive(Drop)]
pub struct Noted<'s> {
    stream: &'s TcpStream,
    ended: Option<Ended>,
}

impl Noted<'_> {
    /// Of this stream, which didn't fail yet.
    pub fn new(stream: &TcpStream) -> Noted<'_> {
        Noted {
            stream,
            ended: None,
        }
    }

    /// Why it failed last, if it did.
    pub fn ended(&self) -> Option<Ended> {
        self.ended
    }

    fn note_of_reader(&mut self, fault: &io::Error) {
        let ended = match fault.kind() {
            // Whoever reads tries that again.
            ErrorKind::Interrupted => return,
            // By the stream's own limit.
            ErrorKind::WouldBlock => Ended::SlowRequest,
            kind => Ended::Fault(kind),
        };
        self.ended = Some(ended);
    }

    fn note_of_writer(&mut self, fault: &io::Error) {
        let ended = match fault.kind() {
            // Whoever writes tries that again.
            ErrorKind::Interrupted => return,
            // By the stream's own limit, or by the system's on what isn't taken.
            ErrorKind::WouldBlock | ErrorKind::TimedOut => Ended::SlowReply,
            kind => Ended::Fault(kind),
        };
        self.ended = Some(ended);
    }
}

impl Read for Noted<'_> {
    fn read(&mut self, buf: &mut [u8]) -> io::Result<usize> {
        let mut stream = self.stream;
        match stream.read(buf) {
            Ok(count) => Ok(count),
            Err(fault) => {
                self.note_of_reader(&fault);
                Err(fault)
            }
        }
    }
}

impl Write for Noted<'_> {
    fn write(&mut self, buf: &[u8]) -> io::Result<usize> {
        let mut stream = self.stream;
        match stream.write(buf) {
            Ok(count) => Ok(count),
            Err(fault) => {
                self.note_of_writer(&fault);
                Err(fault)
            }
        }
    }

    fn flush(&mut self) -> io::Result<()> {
        Ok(())
    }
}

impl Patient for Noted<'_> {
    fn set_patience(&self, most: Duration) -> io::Result<()> {
        self.stream.set_read_timeout(Some(most))
    }
}

impl WriteGathered for Noted<'_> {
    fn write_gathered(&mut self, texts: &[IoSlice<'_>]) -> io::Result<usize> {
        match TcpStream::write_vectored(self.stream, texts) {
            Ok(count) => Ok(count),
            Err(fault) => {
                self.note_of_writer(&fault);
                Err(fault)
            }
        }
    }
}
