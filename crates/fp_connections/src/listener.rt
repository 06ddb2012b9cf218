//! A listener, and what lets its connections in.

ghost use Rattle.std.specs.Prelude.{◌≡◌, is_some};
ghost use Rattle.std.specs.declared.net.socket_addr.SocketAddr.{SocketAddr};

use crate::probing::probe_peers;
use fp_log::{Event, Source, tell_failure};
use libc::net as c;
use log::Log;
use std::marker::Model;
use std::net::{Net, SocketAddr, SocketAddrV4, TcpListener, TcpStream};
use std::os::fd::AsRawFd;
use std::sync::Wait;
use std::sync::atomic::{AtomicBool, Ordering};
use std::time::{Clock, Duration};
use std::{io, thread};

/// A listener, bound; the peers of its connections are probed. One thread lets connections in, and
/// another one may end that.
#[derive(Drop)]
pub struct Listener {
    listener: TcpListener,
    bound: SocketAddr,
    is_closed: AtomicBool,
}

impl Model for Listener {
    ghost Value = { SocketAddr };

    ghost view = { λ l. l.bound };
}

/// That a listener was closed, for good. `Listener::accept_each` alone makes one.
#[derive(Drop)]
pub struct Closed(());

impl Closed {
    // Shows it where it is so.
    fn of(is_closed: bool) -> Option<Closed>
        ensures { is_some result ≡ is_closed }
    {
        is_closed.then(|| Closed(()))
    }
}

impl Listener {
    /// A listener at this address. Nobody is let in yet: that is `accept_each`.
    pub fn bind<R>(rt: &R, address: SocketAddrV4) -> io::Result<Listener>
    where
        R: Net<Listener = TcpListener, Stream = TcpStream>,
    {
        let listener = TcpListener::bind(rt, address)?;
        probe_peers(&listener);
        Ok(Listener {
            bound: listener.local_addr()?,
            listener,
            is_closed: AtomicBool::new(false),
        })
    }

    /// The address where it was bound, with its port.
    pub fn bound(&self) -> SocketAddr
        ensures { result ≡ self.now }
    {
        self.bound
    }

    /// Hands each connection to `let_in`, with its peer, one after another and by this thread, until
    /// the listener is closed. An `accept` that fails is told, once until one comes.
    pub fn accept_each<R, F>(&self, rt: &R, mut let_in: F) -> Closed
    where
        R: Wait + Clock + Log,
        F: FnMut(TcpStream, SocketAddr),
        requires { F.IsAlwaysCallable let_in }
    {
        let mut is_told = false;
        for _ in rt.forever() {
            let accepted = self.listener.accept();
            if let Some(closed) = Closed::of(self.is_closed.load(Ordering::SeqCst)) {
                return closed;
            }
            match accepted {
                Ok((stream, peer)) => {
                    is_told = false;
                    let_in(stream, peer);
                }
                Err(reason) => {
                    if !is_told {
                        tell_not_accepted(rt, &reason);
                    }
                    is_told = true;
                    // What is wanting may be there again soon.
                    thread::sleep(rt, Duration::from_millis(10));
                }
            }
        }
        unreachable!()
    }

    /// Lets no connection in any more, and has `accept_each` return.
    pub fn close(&self) {
        self.is_closed.store(true, Ordering::SeqCst);
        // `accept` fails from now on, where it waits too. This takes no descriptor, of which there
        // may be none left, and no connection, which may reach nobody.
        let _ = c::shutdown(self.listener.as_raw_fd(), c::SHUT_RDWR);
    }
}

fn tell_not_accepted<R: Log>(rt: &R, reason: &io::Error) {
    let (call, source) = ("accept", Source::Connection);
    tell_failure(rt, &Event::CallFailed { call, source }, reason);
}
