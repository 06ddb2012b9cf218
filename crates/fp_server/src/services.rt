//! The three services of a store: where they listen, and who is let in until the input ends.

ghost use Rattle.std.specs.Prelude.{◌≡◌, ◌+◌, IfErr, OnOk};
ghost use Rattle.std.specs.Io.KnownBytes.{Appends, IsAtEnd};
ghost use Rattle.fp_streams.specs.Failures.{CountsFailures};
ghost use Rattle.fp_streams.specs.declared.counted.StreamFault.TheVariants.{Device};
ghost use Rattle.fp_server.specs.Ends.{BlamesStreams, IsAttendingFault, SaysWhere, where_text};

use crate::listening::Listening;
use crate::roles::Role;
use fp_commands::CommandFault;
use fp_connections::Host;
use fp_disk::Disk;
use fp_http::TimeLimits;
use fp_plane::{Closer, Naming, SealingPlane};
use fp_streams::{FailureCounted, StreamFault};
use std::io;
use std::io::{ErrorKind, Read, Write};
use std::net::{Shutdown, SocketAddrV4};
use std::time::Duration;

// How many seconds the connections of a port have to take their last replies, and then to end.
const GRACE: u64 = 2;

/// Where a service listens.
#[derive(Debug, Drop, Clone, Copy)]
pub struct Addresses {
    /// For evaluations by OFREP.
    pub ofrep: SocketAddrV4,
    /// For edits.
    pub edit: SocketAddrV4,
    /// For snapshots.
    pub stream: SocketAddrV4,
}

/// What lets connections in, a service a role.
#[derive(Drop)]
pub struct Services<R: Host> {
    ofrep: Listening<R>,
    edit: Listening<R>,
    stream: Listening<R>,
}

impl<R: Host> Services<R> {
    /// At these addresses; nobody is let in yet. Their connections have so much time.
    pub fn bind(rt: &R, addresses: &Addresses, limits: TimeLimits) -> io::Result<Services<R>> {
        Ok(Services {
            ofrep: Listening::bind(rt, Role::Evaluations, addresses.ofrep, limits)?,
            edit: Listening::bind(rt, Role::Edits, addresses.edit, limits)?,
            stream: Listening::bind(rt, Role::Snapshots, addresses.stream, limits)?,
        })
    }

    fn start<K, D>(&self, plane: &SealingPlane<K, D, R>) -> io::Result<()>
    where
        K: Naming + Send + Sync + 'static,
        D: Disk + Drop + Send + 'static,
    {
        self.ofrep.start(plane)?;
        self.edit.start(plane)?;
        self.stream.start(plane)
    }

    /// Lets connections in, says where, and waits for the input's end. What closes the plane is lent
    /// for so long, so that it isn't closed before.
    pub fn attend<K, D, I, O>(
        &self,
        plane: &SealingPlane<K, D, R>,
        _closer: &Closer<K>,
        r: &mut FailureCounted<I>,
        w: &mut FailureCounted<O>,
    ) -> Result<(), CommandFault>
    where
        K: Naming + Send + Sync + 'static,
        D: Disk + Drop + Send + 'static,
        I: Read,
        O: Write,
        ensures said { OnOk result (SaysWhere (O.contents w.old.inner) (O.contents w.new.inner)) }
        ensures ended { OnOk result (IsAtEnd (I.remaining r.new.inner)) }
        ensures fault { IfErr result IsAttendingFault }
        ensures calm { OnOk result (r.new.failures + w.new.failures
            ≡ r.old.failures + w.old.failures) }
        ensures blames { IfErr result (λ _. BlamesStreams
            (record { reader = r.old; writer = w.old })
            (record { reader = r.new; writer = w.new })) }
    {
        if let Err(fault) = self.start(plane) {
            return Err(fault_of(&fault));
        }
        self.say_where(w)?;
        self.tell_where();
        await_end(r)?;
        Ok(())
    }

    // Tells who reads the log where connections are let in.
    fn tell_where(&self) {
        for service in [&self.ofrep, &self.edit, &self.stream] {
            service.tell_where();
        }
    }

    // Says where connections are let in.
    fn say_where<O: Write>(&self, w: &mut FailureCounted<O>) -> Result<(), StreamFault>
        ensures said { OnOk result (Appends (O.contents w.old.inner) (O.contents w.new.inner)
            (where_text self.now.ofrep.bound self.now.edit.bound self.now.stream.bound)) }
        ensures fault { IfErr result (λ f. f ≡ Device) }
        ensures counted { CountsFailures w.old.failures w.new.failures result }
    {
        w.say(&format_args!("ofrep {}", self.ofrep.bound()))?;
        w.say(&format_args!("edit {}", self.edit.bound()))?;
        w.say(&format_args!("stream {}", self.stream.bound()))?;
        Ok(())
    }

    /// Reads nothing more of an editor.
    pub fn stop_reading(&self) {
        self.edit.close(Shutdown::Read);
    }

    /// Ends all connections. What is under way may be taken before.
    pub fn end(self) {
        let grace = Duration::from_secs(GRACE);
        let services = [&self.edit, &self.stream, &self.ofrep];
        for how in [Shutdown::Read, Shutdown::Both] {
            for service in services {
                service.close(how);
            }
            for service in services {
                service.wait(grace);
            }
        }
    }
}

// Reads an input to its end.
fn await_end<I: Read>(r: &mut FailureCounted<I>) -> Result<(), StreamFault>
    ensures ended { OnOk result (IsAtEnd (I.remaining r.new.inner)) }
    ensures fault { IfErr result (λ f. f ≡ Device) }
    ensures counted { CountsFailures r.old.failures r.new.failures result }
{
    let mut bytes = [0; 512];
    loop {
        if r.read(&mut bytes)? == 0 {
            return Ok(());
        }
    }
}

/// A fault of the system, as the program tells it.
pub fn fault_of(fault: &io::Error) -> CommandFault
    ensures { IsAttendingFault result }
{
    match fault.kind() {
        ErrorKind::OutOfMemory => CommandFault::Memory,
        _ => CommandFault::Device,
    }
}
