//! One listener and its connections.

ghost use Rattle.std.specs.Prelude.{◌≡◌};

use crate::connections::{Connections, Place};
use crate::ended::{Ended, tell_fault};
use crate::lingering::linger;
use crate::roles::{Role, converse};
use fp_connections::{Closed, Host, Listener};
use fp_disk::Disk;
use fp_http::TimeLimits;
use fp_log::{Event, Port, tell, tell_failure};
use fp_plane::{Naming, SealingPlane};
use std::alloc::Global;
use std::net::{Shutdown, SocketAddr, SocketAddrV4, TcpStream};
use std::sync::Arc;
use std::thread::JoinHandle;
use std::time::Duration;
use std::{io, thread};

/// What lets connections of a role in: where it was bound, and who came.
#[derive(Drop)]
pub struct Listening<R: Drop> {
    rt: R,
    role: Role,
    pub(crate) bound: SocketAddr,
    limits: TimeLimits,
    // The thread that accepts shares it.
    listener: Arc<Listener, Global>,
    connections: Connections<R>,
}

impl<R: Host> Listening<R> {
    /// At this address; nobody is let in yet. Its connections have so much time.
    pub fn bind(
        rt: &R,
        role: Role,
        address: SocketAddrV4,
        limits: TimeLimits,
    ) -> io::Result<Listening<R>> {
        let listener = bind(rt, role.port(), address)?;
        Ok(Listening {
            rt: *rt,
            role,
            bound: listener.bound(),
            limits,
            listener: Arc::new(rt.alloc(), listener)?,
            connections: Connections::new(*rt, rt.alloc(), role.limit())?,
        })
    }

    /// Accepts connections in a thread of its own, and serves each in one more.
    pub fn start<K, D>(&self, plane: &SealingPlane<K, D, R>) -> io::Result<()>
    where
        K: Naming + Send + Sync + 'static,
        D: Disk + Drop + Send + 'static,
    {
        let listener = Arc::try_clone(&self.listener)?;
        let connections = self.connections.try_copy()?;
        let plane = plane.try_copy()?;
        let own = self.rt;
        let role = self.role;
        let limits = self.limits;
        // It ends by what a closed listener alone gives.
        let started: Result<JoinHandle<Closed>, _> = thread::spawn(&self.rt, move || {
            accept(&own, &listener, role, limits, &connections, &plane)
        });
        match started {
            Ok(_thread) => Ok(()),
            Err(refused) => {
                let reason = io::Error::from(refused);
                let thread = role.port().name();
                tell_failure(&self.rt, &Event::NotStarted { thread }, &reason);
                Err(reason)
            }
        }
    }

    /// Tells where it was bound to who reads the log.
    pub fn tell_where(&self) {
        let (port, address) = (self.role.port(), self.bound);
        tell(&self.rt, &Event::Bound { port, address });
    }

    /// Where it was bound.
    pub fn bound(&self) -> SocketAddr
        ensures { result ≡ self.now.bound }
    {
        self.bound
    }

    /// Lets no connection in any more, and ends reads or writes that wait on those that are open.
    pub fn close(&self, how: Shutdown) {
        self.connections.close(how);
        self.listener.close();
    }

    /// Waits until no connection is open, for no longer than this.
    pub fn wait(&self, most: Duration) {
        self.connections.wait(most);
    }
}

// Binds an address. One that can't be bound is told.
fn bind<R: Host>(rt: &R, port: Port, address: SocketAddrV4) -> io::Result<Listener> {
    let bound = Listener::bind(rt, address);
    if let Err(reason) = &bound {
        tell_failure(rt, &Event::NotBound { port, address }, reason);
    }
    bound
}

// Lets connections in until the listener is closed. One that can't be served is told.
fn accept<K, D, R>(
    rt: &R,
    listener: &Listener,
    role: Role,
    limits: TimeLimits,
    connections: &Connections<R>,
    plane: &SealingPlane<K, D, R>,
) -> Closed
where
    K: Naming + Send + Sync + 'static,
    D: Disk + Drop + Send + 'static,
    R: Host,
{
    listener.accept_each(rt, |stream, peer| {
        if let Err(reason) = begin(rt, stream, peer, role, limits, connections, plane) {
            tell_fault(rt, role.port(), peer, &reason);
        }
    })
}

// How many milliseconds a connection waits for a place, where all are taken: for one whose peer has
// left, and that hasn't seen it yet.
const PATIENCE: u64 = 250;

// A place for a connection, which one that was left makes free.
fn place_for<K, D, R>(
    stream: &TcpStream,
    role: Role,
    connections: &Connections<R>,
    plane: &SealingPlane<K, D, R>,
) -> io::Result<Option<Place<R>>>
where
    K: Naming,
    D: Disk + Drop,
    R: Host,
{
    if let Some(place) = connections.admit(stream)? {
        return Ok(Some(place));
    }
    if role == Role::Snapshots {
        plane.plane().look_who_left();
    }
    connections.admit_within(stream, Duration::from_millis(PATIENCE))
}

// Serves a connection in a thread of its own. Where there is no place for it, it is closed, and where
// memory, a descriptor or a thread is wanting.
fn begin<K, D, R>(
    rt: &R,
    stream: TcpStream,
    peer: SocketAddr,
    role: Role,
    limits: TimeLimits,
    connections: &Connections<R>,
    plane: &SealingPlane<K, D, R>,
) -> io::Result<()>
where
    K: Naming + Send + Sync + 'static,
    D: Disk + Drop + Send + 'static,
    R: Host,
{
    let port = role.port();
    let Some(place) = place_for(&stream, role, connections, plane)? else {
        drop(stream);
        if !connections.is_closed() {
            Ended::NoPlace.tell(rt, port, peer);
        }
        return Ok(());
    };
    let plane = plane.try_copy()?;
    let own = *rt;
    let started = thread::spawn(rt, move || {
        let ended = converse(&own, role, limits, &plane, &stream, &place);
        if ended == Ended::Well || place.is_closed() {
            linger(&own, &stream, &place);
        }
        drop(stream);
        ended.tell(&own, port, peer);
        drop(place);
    });
    started?;
    Ok(())
}
