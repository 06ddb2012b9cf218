//! A connect that has a limit of time.

use fp_connections::Host;
use mio::{Events, Interest, Poll, Token};
use std::io;
use std::io::ErrorKind;
use std::net::{SocketAddr, SocketAddrV4, TcpStream};
use std::time::Duration;

/// A connection to this address. `TimedOut` where it doesn't stand by then.
pub fn connect_within<R: Host>(
    rt: &R,
    address: SocketAddrV4,
    most: Duration,
) -> io::Result<TcpStream> {
    let mut poll = Poll::new(rt)?;
    let mut events = Events::with_capacity(rt.alloc(), 1)?;
    let mut stream = mio::net::TcpStream::connect(rt, SocketAddr::V4(address))?;
    await_connect(&mut poll, &mut events, &mut stream, most)?;
    let stream = TcpStream::from(stream);
    stream.set_nonblocking(false)?;
    Ok(stream)
}

// Waits until the connection stands.
fn await_connect(
    poll: &mut Poll,
    events: &mut Events,
    stream: &mut mio::net::TcpStream,
    most: Duration,
) -> io::Result<()> {
    poll.registry()
        .register(stream, Token(0), Interest::WRITABLE)?;
    poll.poll(events, Some(most))?;
    if events.is_empty() {
        return Err(io::Error::from(ErrorKind::TimedOut));
    }
    match stream.take_error()? {
        Some(reason) => Err(reason),
        None => Ok(()),
    }
}
