//! A service that runs over a disk in memory, and what becomes of it.

use crate::clients::line_of;
use crate::held::{Gate, HeldDisk};
use fp_commands::CommandFault;
use fp_disk::{Disk, FailedWrite, Failing, MemoryDisk};
use fp_files::SingleFile;
use fp_group_commit::Store;
use fp_server::{Addresses, Host, TimeLimits, serve};
use fp_streams::FailureCounted;
use fp_transcript::Text;
use std::alloc::{AllocGlobal, Global};
use std::io::Read;
use std::net::{Ipv4Addr, Shutdown, SocketAddr, SocketAddrV4};
use std::os::unix::net::UnixStream;
use std::sync::Arc;
use std::thread;
use std::thread::JoinHandle;

/// The least size of a slot.
pub const LEAST_SLOT: u64 = 262_144;

/// The path that the disk is at.
pub const PATH: &str = "flags";

/// A gate that the disk and the script share.
pub type SharedGate<R> = Arc<Gate<R>, Global>;

/// Where a service is reached.
#[derive(Drop, Clone, Copy)]
pub struct Ports {
    pub ofrep: SocketAddr,
    pub edit: SocketAddr,
    pub stream: SocketAddr,
}

impl Ports {
    // As the service says it.
    fn heard(alloc: Global, output: &mut UnixStream) -> Option<Ports> {
        let ofrep = address(alloc, output, "ofrep ")?;
        let edit = address(alloc, output, "edit ")?;
        let stream = address(alloc, output, "stream ")?;
        Some(Ports {
            ofrep,
            edit,
            stream,
        })
    }

    /// The address of the port of this name.
    pub fn port(&self, name: &str) -> Option<SocketAddr> {
        match name {
            "ofrep" => Some(self.ofrep),
            "edit" => Some(self.edit),
            "stream" => Some(self.stream),
            _ => None,
        }
    }
}

/// The address in the next line, behind its name.
pub fn address(alloc: Global, output: &mut UnixStream, name: &str) -> Option<SocketAddr> {
    let line = line_of(alloc, output);
    let text = str::from_utf8(&line).ok()?;
    text.strip_prefix(name)?.parse::<SocketAddr>().ok()
}

/// An input and an output, of which each has its other end elsewhere.
#[derive(Drop)]
pub struct Pipes {
    pub input: UnixStream,
    pub output: UnixStream,
}

/// Two of them, each the other end of the other one.
pub fn both_ends(rt: HostRuntime) -> Option<(Pipes, Pipes)> {
    let (input, their_input) = UnixStream::pair(&rt).ok()?;
    let (output, their_output) = UnixStream::pair(&rt).ok()?;
    let theirs = Pipes {
        input: their_input,
        output: their_output,
    };
    Some((Pipes { input, output }, theirs))
}

/// A service in a thread of its own: where it is reached, and what holds a call of its disk.
#[derive(Drop)]
pub struct Running<R: Host> {
    pub ports: Ports,
    pub gate: SharedGate<R>,
    pipes: Pipes,
    thread: JoinHandle<Ended>,
}

/// What became of a service: what it said, its fault, and what its disk, opened again, holds.
#[derive(Drop)]
pub struct Ended {
    pub said: String,
    pub left: String,
}

/// How large the slots of a new disk are, whether the one that rules is of the first version, and the
/// call from which on its calls fail, if one is named.
#[derive(Drop, Clone, Copy)]
pub struct DiskPlan {
    pub slot: u64,
    pub is_old: bool,
    pub failing: Option<u64>,
}

/// What is served, and how long its connections may take.
#[derive(Drop, Clone, Copy)]
pub struct Plan {
    pub disk: DiskPlan,
    pub limits: TimeLimits,
}

impl DiskPlan {
    /// Of the fewest bytes, of today's version, whose calls don't fail.
    pub fn plain() -> DiskPlan {
        DiskPlan {
            slot: LEAST_SLOT,
            is_old: false,
            failing: None,
        }
    }
}

// Where the version of the first slot is.
const VERSION_AT: u64 = 73;

/// A disk in memory with no flags on it.
pub fn new_disk(alloc: Global, plan: DiskPlan) -> Option<MemoryDisk> {
    let (store, _) = Store::create(alloc, MemoryDisk::new(alloc), plan.slot).ok()?;
    let mut disk = store.into_disk();
    if plan.is_old {
        let _ = disk.write_at(VERSION_AT, &[1]);
        let _ = disk.sync();
    }
    if let Some(call) = plan.failing {
        disk.set_failing(Failing::From(call), FailedWrite::Nothing);
    }
    Some(disk)
}

// The revision that a disk is left at, how many flags it has, and a line for each of them: its key
// and the revision that changed it last.
fn left_on<D: Disk + Drop>(alloc: Global, disk: D) -> String {
    let mut out = Text::new(alloc);
    match Store::open(alloc, disk) {
        Ok((store, opening)) => {
            let _disk = store.into_disk();
            let set = opening.set();
            out.named("revision", set.revision());
            out.named(", flags", set.len() as u64);
            out.push("\n");
            for (key, flag) in set.iter() {
                out.named(key.as_str(), flag.changed);
                out.push("\n");
            }
        }
        Err((fault, _disk)) => out.shown(&CommandFault::from(fault)),
    }
    out.text
}

// Serves a new disk, and opens it again.
fn run<R: Host>(rt: &R, gate: SharedGate<R>, plan: Plan, pipes: Pipes) -> Ended {
    let alloc = rt.alloc();
    let mut said = Text::new(alloc);
    let mut left = String::new(alloc);
    if let (Some(disk), Ok(path)) = (new_disk(alloc, plan.disk), String::from_str(alloc, PATH)) {
        let mut files = SingleFile::new(path, HeldDisk::new(disk, gate));
        served(rt, &mut files, plan.limits, pipes, &mut said);
        if let Some(disk) = files.into_disk() {
            left = left_on(alloc, disk);
        }
    }
    Ended {
        said: said.text,
        left,
    }
}

// Serves a disk on ports that are free.
fn served<R, D>(
    rt: &R,
    files: &mut SingleFile<D>,
    limits: TimeLimits,
    pipes: Pipes,
    said: &mut Text,
)
where
    R: Host,
    D: Disk + Drop + Send + 'static,
{
    let Pipes { input, output } = pipes;
    let free = SocketAddrV4::new(Ipv4Addr::LOCALHOST, 0);
    let addresses = Addresses {
        ofrep: free,
        edit: free,
        stream: free,
    };
    let outcome = serve(
        rt,
        files,
        PATH,
        &addresses,
        limits,
        &mut FailureCounted::new(input),
        &mut FailureCounted::new(output),
    );
    if let Err(fault) = outcome {
        said.shown(&fault);
    }
}

// Serves in a thread of its own.
fn spawned<R: Host>(
    rt: &R,
    gate: SharedGate<R>,
    plan: Plan,
    pipes: Pipes,
) -> Option<JoinHandle<Ended>> {
    let own = *rt;
    match thread::spawn(rt, move || run(&own, gate, plan, pipes)) {
        Ok(thread) => Some(thread),
        Err(_) => None,
    }
}

impl<R: Host> Running<R> {
    /// Starts a service over a new disk with no flags on it, and waits until it tells where it is
    /// reached. The plain runtime has pairs of sockets.
    pub fn start(rt: &R, plain: HostRuntime, plan: Plan) -> Option<Running<R>> {
        let (mut own, theirs) = both_ends(plain)?;
        let gate = Arc::new(rt.alloc(), Gate::new(*rt)).ok()?;
        let thread = spawned(rt, Arc::try_clone(&gate).ok()?, plan, theirs)?;
        let ports = Ports::heard(rt.alloc(), &mut own.output)?;
        Some(Running {
            ports,
            gate,
            pipes: own,
            thread,
        })
    }

    /// Ends its input, and waits for nothing.
    pub fn close(&self) {
        let _ = self.pipes.input.shutdown(Shutdown::Both);
    }

    /// Ends its input, and waits for what becomes of it: what it said last, then its fault.
    pub fn end(self, rt: &R) -> Ended {
        self.close();
        let Running {
            ports: _,
            gate: _,
            mut pipes,
            thread,
        } = self;
        let Ended { said, left } = thread.join(rt);
        let mut last = String::new(rt.alloc());
        let _ = pipes.output.read_to_string(&mut last);
        let _ = last.push_str(said.as_str());
        Ended { said: last, left }
    }
}
