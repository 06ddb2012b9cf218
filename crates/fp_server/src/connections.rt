//! The connections of one listener that are open.

use std::alloc::{AllocError, Global};
use std::io;
use std::net::{Shutdown, TcpStream};
use std::sync::{Arc, Condvar, CondvarTimeouts, Mutex, Wait};
use std::time::{Clock, Duration};

// The open streams, each in a place of its own.
#[derive(Drop)]
struct Streams {
    places: Vec<Option<TcpStream>>,
    is_closed: bool,
}

impl Streams {
    // As many free places.
    fn new(alloc: Global, most: usize) -> Result<Streams, AllocError> {
        let mut places = Vec::with_capacity(alloc, most)?;
        for _ in 0..most {
            places.push(None)?;
        }
        Ok(Streams {
            places,
            is_closed: false,
        })
    }

    // Keeps a handle of the stream in a free place. `None` where there is none, or no
    // stream is let in any more.
    fn admit(&mut self, stream: &TcpStream) -> io::Result<Option<usize>> {
        if self.is_closed {
            return Ok(None);
        }
        let Some(at) = self.places.iter().position(|place| place.is_none()) else {
            return Ok(None);
        };
        let kept = stream.try_clone()?;
        self.put(at, Some(kept));
        Ok(Some(at))
    }

    fn put(&mut self, at: usize, stream: Option<TcpStream>) {
        if let Some(place) = self.places.get_mut(at) {
            *place = stream;
        }
    }

    fn is_empty(&self) -> bool {
        self.places.iter().all(|place| place.is_none())
    }

    // Whether one that is let in has to wait for a place.
    fn is_full(&self) -> bool {
        !self.is_closed && self.places.iter().all(|place| place.is_some())
    }

    // Lets no stream in any more, and ends what waits on these.
    fn close(&mut self, how: Shutdown) {
        self.is_closed = true;
        for stream in self.places.iter().flatten() {
            let _ = stream.shutdown(how);
        }
    }
}

#[derive(Drop)]
struct Shared<R: Drop> {
    rt: R,
    streams: Mutex<Streams>,
    left: Condvar,
}

/// A handle of the connections of one listener, which are at most so many at once.
#[derive(Drop)]
pub struct Connections<R: Drop> {
    shared: Arc<Shared<R>, Global>,
}

impl<R: Wait + Clock + Drop> Connections<R> {
    /// None yet, and at most so many at once.
    pub fn new(rt: R, alloc: Global, most: usize) -> Result<Connections<R>, AllocError> {
        let shared = Shared {
            rt,
            streams: Mutex::new(Streams::new(alloc, most)?),
            left: Condvar::new(),
        };
        Ok(Connections {
            shared: Arc::new(alloc, shared)?,
        })
    }

    /// One handle more.
    pub fn try_copy(&self) -> Result<Connections<R>, AllocError> {
        Ok(Connections {
            shared: Arc::try_clone(&self.shared)?,
        })
    }

    /// A place for this stream, until the place is let go of. `None` where all are taken, or no
    /// stream is let in any more. A place takes a descriptor, which may be wanting.
    pub fn admit(&self, stream: &TcpStream) -> io::Result<Option<Place<R>>> {
        let connections = self.try_copy()?;
        let at = self.shared.streams.lock(&self.shared.rt).admit(stream)?;
        Ok(at.map(|at| Place { connections, at }))
    }

    /// A place as `admit` gives one, which is waited for while all are taken, for no longer than
    /// this.
    pub fn admit_within(&self, stream: &TcpStream, most: Duration) -> io::Result<Option<Place<R>>> {
        let connections = self.try_copy()?;
        let shared = &self.shared;
        let streams = shared.streams.lock(&shared.rt);
        let (mut streams, _waited) = shared
            .left
            .wait_timeout_while(&shared.rt, streams, most, |streams| streams.is_full());
        let at = streams.admit(stream)?;
        Ok(at.map(|at| Place { connections, at }))
    }

    /// Lets no stream in any more, and ends reads or writes that wait on those that are open.
    pub fn close(&self, how: Shutdown) {
        self.shared.streams.lock(&self.shared.rt).close(how);
        self.shared.left.notify_all();
    }

    /// Whether no stream is let in any more, and no more is read of any, as at a stop.
    pub fn is_closed(&self) -> bool {
        self.shared.streams.lock(&self.shared.rt).is_closed
    }

    /// Waits until none is open, for no longer than this.
    pub fn wait(&self, most: Duration) {
        let shared = &self.shared;
        let streams = shared.streams.lock(&shared.rt);
        let _ = shared
            .left
            .wait_timeout_while(&shared.rt, streams, most, |streams| !streams.is_empty());
    }
}

/// The place of an open connection. It is free again where this is let go of.
pub struct Place<R: Wait + Clock + Drop> {
    connections: Connections<R>,
    at: usize,
}

impl<R: Wait + Clock + Drop> Place<R> {
    /// Whether no more of its stream is read, as at a stop.
    pub fn is_closed(&self) -> bool {
        self.connections.is_closed()
    }
}

impl<R: Wait + Clock + Drop> Drop for Place<R> {
    fn drop(self) {
        let Self { connections, at } = self;
        let shared = &connections.shared;
        shared.streams.lock(&shared.rt).put(at, None);
        shared.left.notify_all();
    }
}
