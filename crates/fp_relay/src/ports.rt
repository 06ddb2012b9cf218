//! The ports of a relay.

use crate::events::{Event, tell, tell_failure};
use crate::words::Options;
use fp_connections::{Host, Listener};
use fp_streams::{FailureCounted, StreamFault};
use std::alloc::Global;
use std::io;
use std::io::Write;
use std::net::SocketAddrV4;
use std::sync::Arc;

/// A listener, which its thread shares.
pub type Port = Arc<Listener, Global>;

/// The ports of a relay, of which the last two may not be asked for.
#[derive(Drop)]
pub struct Ports {
    pub ofrep: Port,
    pub stream: Option<Port>,
    pub status: Option<Port>,
}

impl Ports {
    /// Where the options say; nobody is let in yet.
    pub fn bind<R: Host>(rt: &R, options: &Options<'_>) -> io::Result<Ports> {
        Ok(Ports {
            ofrep: bind(rt, "ofrep", options.ofrep)?,
            stream: bind_one(rt, "stream", options.stream)?,
            status: bind_one(rt, "status", options.status)?,
        })
    }

    /// Says where connections are let in.
    pub fn say_where<O: Write>(&self, w: &mut FailureCounted<O>) -> Result<(), StreamFault> {
        w.say(&format_args!("ofrep {}", self.ofrep.bound()))?;
        if let Some(stream) = &self.stream {
            w.say(&format_args!("stream {}", stream.bound()))?;
        }
        if let Some(status) = &self.status {
            w.say(&format_args!("status {}", status.bound()))?;
        }
        Ok(())
    }

    /// Lets nobody in any more.
    pub fn close(&self) {
        self.ofrep.close();
        for port in self.stream.iter().chain(self.status.iter()) {
            port.close();
        }
    }
}

fn bind_one<R: Host>(
    rt: &R,
    port: &str,
    address: Option<SocketAddrV4>,
) -> io::Result<Option<Port>> {
    match address {
        Some(address) => Ok(Some(bind(rt, port, address)?)),
        None => Ok(None),
    }
}

// An address that can't be bound is told.
fn bind<R: Host>(rt: &R, port: &str, address: SocketAddrV4) -> io::Result<Port> {
    match Listener::bind(rt, address) {
        Ok(listener) => {
            let address = listener.bound();
            tell(rt, &Event::Bound { port, address });
            Ok(Arc::new(rt.alloc(), listener)?)
        }
        Err(reason) => {
            tell_failure(rt, &Event::NotBound { port, address }, &reason);
            Err(reason)
        }
    }
}
