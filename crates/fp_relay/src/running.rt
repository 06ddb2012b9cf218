//! A relay over sockets, from its start to its end.

ghost use Rattle.std.specs.Prelude.{OnOk};
ghost use Rattle.std.specs.Io.KnownBytes.{IsAtEnd};

use crate::ports::Ports;
use crate::threads::Relaying;
use crate::words::Options;
use fp_connections::Host;
use fp_kept::KeptFiles;
use fp_streams::{FailureCounted, StreamFault};
use std::alloc::AllocError;
use std::io::{ErrorKind, Read, Write};
use std::{fmt, io};

/// Why a relay gave up.
#[derive(Debug, Drop, Clone, Copy)]
pub enum RelayFault {
    /// An address couldn't be bound, a thread not begun, or a stream failed.
    Device,
    /// Memory ran out.
    Memory,
}

impl fmt::Display for RelayFault {
    fn fmt<W: fmt::Write>(&self, f: &mut fmt::Formatter<W>) -> fmt::Result {
        f.write_str(match self {
            RelayFault::Device => "device fault",
            RelayFault::Memory => "out of memory",
        })
    }
}

impl From<AllocError> for RelayFault {
    fn from(_fault: AllocError) -> RelayFault {
        RelayFault::Memory
    }
}

impl From<io::Error> for RelayFault {
    fn from(fault: io::Error) -> RelayFault {
        match fault.kind() {
            ErrorKind::OutOfMemory => RelayFault::Memory,
            _ => RelayFault::Device,
        }
    }
}

impl From<StreamFault> for RelayFault {
    fn from(fault: StreamFault) -> RelayFault {
        match fault {
            StreamFault::Device => RelayFault::Device,
            StreamFault::Memory => RelayFault::Memory,
        }
    }
}

/// Relays what the source shows, as the options say, until the input ends: first it says where its
/// ports are. Its threads end before it returns, unless one of them couldn't begin.
pub fn relay<R, K, I, O>(
    rt: &R,
    files: K,
    options: Options<'_>,
    r: &mut FailureCounted<I>,
    w: &mut FailureCounted<O>,
) -> Result<(), RelayFault>
where
    R: Host,
    K: KeptFiles + Send + 'static,
    I: Read,
    O: Write,
    // `Ok`: the input has ended.
    ensures { OnOk result (IsAtEnd (I.remaining r.new.inner)) }
{
    let ports = Ports::bind(rt, &options)?;
    let relaying = Relaying::begin(rt, files, options, &ports)?;
    let served = serve(&ports, r, w);
    relaying.end(rt, &ports);
    served
}

// Says where the ports are, and waits for the input's end.
fn serve<I: Read, O: Write>(
    ports: &Ports,
    r: &mut FailureCounted<I>,
    w: &mut FailureCounted<O>,
) -> Result<(), RelayFault>
    ensures { OnOk result (IsAtEnd (I.remaining r.new.inner)) }
{
    ports.say_where(w)?;
    let mut bytes = [0; 512];
    loop {
        if r.read(&mut bytes)? == 0 {
            return Ok(());
        }
    }
}
