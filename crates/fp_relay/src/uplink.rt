//! The connection to the source, as one thread follows it and another one ends that.

use crate::connecting::connect_within;
use fp_connections::Host;
use std::io;
use std::io::{ErrorKind, Write};
use std::net::{Shutdown, SocketAddrV4, TcpStream};
use std::sync::{Condvar, CondvarTimeouts, Mutex, Wait};
use std::time::Duration;

// How many seconds a connect may take.
const CONNECT: u64 = 5;

// What the thread that follows is at.
#[derive(Drop)]
struct Standing {
    // A handle of the connection that stands.
    stream: Option<TcpStream>,
    is_ended: bool,
}

/// That it was ended for good: `Uplink::ended` and `Uplink::ended_within` make one, and nothing else
/// does.
#[derive(Drop)]
pub struct Ended {
    of: (),
}

/// The connection to the source: none, or one at a time, until it is ended for good.
#[derive(Drop)]
pub struct Uplink {
    standing: Mutex<Standing>,
    changed: Condvar,
}

impl Uplink {
    /// None yet.
    pub fn new() -> Uplink {
        Uplink {
            standing: Mutex::new(Standing {
                stream: None,
                is_ended: false,
            }),
            changed: Condvar::new(),
        }
    }

    /// A connection to this address, whose reads end where this is ended. A fault where it was.
    pub fn connect<R: Host>(&self, rt: &R, address: SocketAddrV4) -> io::Result<TcpStream> {
        if self.ended(rt).is_some() {
            return Err(io::Error::from(ErrorKind::ConnectionAborted));
        }
        let (stream, kept) = connect_twice(rt, address)?;
        self.standing.lock(rt).stand(kept);
        Ok(stream)
    }

    /// The connection is over.
    pub fn let_go<R: Wait>(&self, rt: &R) {
        self.standing.lock(rt).stream = None;
    }

    /// That it was ended, where it was.
    pub fn ended<R: Wait>(&self, rt: &R) -> Option<Ended> {
        self.standing.lock(rt).ended()
    }

    /// The same, once it was ended or so much time has passed.
    pub fn ended_within<R: Host>(&self, rt: &R, most: Duration) -> Option<Ended> {
        let standing = self.standing.lock(rt);
        let (standing, _waited) = self
            .changed
            .wait_timeout_while(rt, standing, most, |standing| !standing.is_ended);
        standing.ended()
    }

    /// Ends it: reads and waits end, and nothing is connected any more. A connect that is under way
    /// takes the time that it may.
    pub fn end<R: Wait>(&self, rt: &R) {
        self.standing.lock(rt).end();
        self.changed.notify_all();
    }
}

impl Standing {
    fn stand(&mut self, stream: TcpStream) {
        self.stream = Some(stream);
        if self.is_ended {
            self.cut();
        }
    }

    fn end(&mut self) {
        self.is_ended = true;
        self.cut();
    }

    fn ended(&self) -> Option<Ended> {
        if self.is_ended {
            return Some(Ended { of: () });
        }
        None
    }

    // Ends what is read of the connection.
    fn cut(&self) {
        if let Some(stream) = &self.stream {
            let _ = stream.shutdown(Shutdown::Both);
        }
    }
}

// A connection, and a second handle of it. One that reached itself, as at a port of this machine
// where nobody listens, is none.
fn connect_twice<R: Host>(rt: &R, address: SocketAddrV4) -> io::Result<(TcpStream, TcpStream)> {
    let most = Duration::from_secs(CONNECT);
    let stream = connect_within(rt, address, most)?;
    if stream.local_addr()? == stream.peer_addr()? {
        // It ends at once by a byte that isn't read; else the port would be taken for a minute.
        let _ = (&stream).write(&[0]);
        return Err(io::Error::from(ErrorKind::ConnectionRefused));
    }
    let kept = stream.try_clone()?;
    Ok((stream, kept))
}
