//! The threads of a relay: its loops, who lets connections in, who follows the source, who keeps.

ghost use Rattle.std.specs.Prelude.{◌≡◌, [], IfOk};
ghost use Rattle.fp_stream.specs.Frames.{has_after};
ghost use Rattle.fp_stream.specs.declared.hello.Hello.TheVariants.{Nothing};

use crate::events::{Event, tell_failure};
use crate::following::{Showing, follow_source};
use crate::numbers::Numbers;
use crate::ports::{Port, Ports};
use crate::restoring::restored;
use crate::services::{Evaluations, StatusPages};
use crate::set::Set;
use crate::shelf::Shelf;
use crate::uplink::{Ended, Uplink};
use crate::waiting::PutDown;
use crate::words::Options;
use fp_connections::{Closed, Counts, Host, Role};
use fp_fronts::Growing;
use fp_kept::{KeptFile, KeptFiles};
use fp_loop::{Door, Informed, Limits, Loop, Loops};
use fp_relay_replies::Origins;
use fp_stream::Hello;
use std::alloc::{AllocError, Global};
use std::net::SocketAddrV4;
use std::sync::Arc;
use std::thread::JoinHandle;
use std::{io, thread};

// The most loops, each of which has a thread.
const MOST_LOOPS: usize = 64;

// The most subscribers at once.
const MOST_SUBSCRIBERS: u64 = 4_096;

// The most connections of operators at once.
const MOST_OPERATORS: u64 = 64;

// How long a connection may keep a loop waiting, in milliseconds.
const LIMITS: Limits = Limits {
    idle: 75_000,
    request: 30_000,
    reply: 60_000,
    leaving: 2_000,
};

/// What the threads of a relay share.
#[derive(Drop)]
pub struct Relaying {
    loops: Arc<Loops<Set>, Global>,
    status: Arc<Loops<Set>, Global>,
    numbers: Arc<Numbers, Global>,
    counts: Arc<Counts, Global>,
    // Of connections of operators, which nobody asks for.
    status_counts: Arc<Counts, Global>,
    shelf: Arc<Shelf, Global>,
    uplink: Arc<Uplink, Global>,
    // Who follows the source.
    following: Option<JoinHandle<Ended>>,
    // Who lets connections in: each ends by what a closed listener alone gives.
    doors: Vec<JoinHandle<Closed>>,
    // Those that end at once where they are told to.
    threads: Vec<JoinHandle<()>>,
}

impl Relaying {
    /// Begins all of them.
    pub fn begin<R: Host, K: KeptFiles + Send + 'static>(
        rt: &R,
        files: K,
        options: Options<'_>,
        ports: &Ports,
    ) -> io::Result<Relaying> {
        let mut relaying = Relaying::new(rt)?;
        relaying.begin_all(rt, files, options, ports)?;
        Ok(relaying)
    }

    // None of them has begun.
    fn new<R: Host>(rt: &R) -> Result<Relaying, AllocError> {
        let alloc = rt.alloc();
        Ok(Relaying {
            loops: Arc::new(alloc, Loops::new(alloc))?,
            status: Arc::new(alloc, Loops::new(alloc))?,
            numbers: Arc::new(alloc, Numbers::new(rt))?,
            counts: Arc::new(alloc, Counts::new())?,
            status_counts: Arc::new(alloc, Counts::new())?,
            shelf: Arc::new(alloc, Shelf::new())?,
            uplink: Arc::new(alloc, Uplink::new())?,
            following: None,
            doors: Vec::new(alloc),
            threads: Vec::new(alloc),
        })
    }

    fn begin_all<R: Host, K: KeptFiles + Send + 'static>(
        &mut self,
        rt: &R,
        files: K,
        options: Options<'_>,
        ports: &Ports,
    ) -> io::Result<()> {
        let (source, keep) = (options.source, options.keep);
        let origins = Arc::new(rt.alloc(), options.origins)?;
        told(rt, "loop", self.begin_loops(rt, origins))?;
        told(rt, "status", self.begin_status(rt))?;
        told(rt, "source", self.begin_source(rt, files, source, keep))?;
        told(rt, "port", self.let_in(rt, ports, options.connections))
    }

    /// Ends them, and waits until they have. What was shown is kept.
    pub fn end<R: Host>(self, rt: &R, ports: &Ports) {
        ports.close();
        self.loops.stop(rt);
        self.status.stop(rt);
        self.uplink.end(rt);
        join(rt, self.following);
        self.shelf.close(rt);
        for door in self.doors {
            door.join(rt);
        }
        for thread in self.threads {
            thread.join(rt);
        }
    }

    // A loop a processor, for evaluations and for snapshots.
    fn begin_loops<R: Host>(&mut self, rt: &R, origins: Arc<Origins, Global>) -> io::Result<()> {
        let alloc = rt.alloc();
        let processors = thread::available_parallelism(rt).map_or(1, |count| count.get());
        let mut loops = Loops::new(alloc);
        for _ in 0..processors.min(MOST_LOOPS) {
            let origins = Arc::try_clone(&origins)?;
            let numbers = Arc::try_clone(&self.numbers)?;
            let service = Evaluations::new(*rt, alloc, origins, numbers);
            let counts = Arc::try_clone(&self.counts)?;
            self.begin_loop(rt, service, counts, &mut loops)?;
        }
        self.loops = Arc::new(alloc, loops)?;
        Ok(())
    }

    // One loop for operators.
    fn begin_status<R: Host>(&mut self, rt: &R) -> io::Result<()> {
        let alloc = rt.alloc();
        let numbers = Arc::try_clone(&self.numbers)?;
        let counts = Arc::try_clone(&self.counts)?;
        let service = StatusPages::new(*rt, alloc, numbers, counts);
        let mut loops = Loops::new(alloc);
        let counts = Arc::try_clone(&self.status_counts)?;
        self.begin_loop(rt, service, counts, &mut loops)?;
        self.status = Arc::new(alloc, loops)?;
        Ok(())
    }

    // A loop over a service, in a thread of its own.
    fn begin_loop<R, S>(
        &mut self,
        rt: &R,
        service: S,
        counts: Arc<Counts, Global>,
        loops: &mut Loops<Set>,
    ) -> io::Result<()>
    where
        R: Host,
        S: Informed<Set> + Drop + Send + 'static,
    {
        let one: Loop<S, Set> = Loop::new(rt, rt.alloc(), service, LIMITS, counts)?;
        loops.add(one.inbox()?)?;
        Ok(self.threads.push(one.start(rt)?)?)
    }

    // Who follows the source, from what was kept on; and who keeps.
    fn begin_source<R: Host, K: KeptFiles + Send + 'static>(
        &mut self,
        rt: &R,
        files: K,
        source: SocketAddrV4,
        keep: Option<&str>,
    ) -> io::Result<()> {
        let uplink = Arc::try_clone(&self.uplink)?;
        let mut showing = self.showing(rt)?;
        let last = match keep {
            Some(path) => self.restore_and_keep(rt, files, path, &mut showing)?,
            None => Hello::Nothing,
        };
        let own = *rt;
        let follow = move ||
            requires { last ≡ has_after Nothing showing.seen.log }
        { follow_source(&own, source, &uplink, last, showing) };
        self.following = Some(thread::spawn(rt, follow)?);
        Ok(())
    }

    // What is shown, which is nothing yet.
    fn showing<R: Host>(&self, rt: &R) -> Result<Showing<R>, AllocError>
        ensures { IfOk result (λ s. s.seen.log ≡ []) }
    {
        Ok(Showing {
            rt: *rt,
            alloc: rt.alloc(),
            loops: Arc::try_clone(&self.loops)?,
            numbers: Arc::try_clone(&self.numbers)?,
            shelf: None,
            last: None,
            has_heard: false,
            seen: Growing::new().0,
            put: PutDown::new(),
        })
    }

    // Shows what the file at this path keeps, and has it keep what is shown from now on.
    fn restore_and_keep<R: Host, K: KeptFiles + Send + 'static>(
        &mut self,
        rt: &R,
        files: K,
        path: &str,
        showing: &mut Showing<R>,
    ) -> io::Result<Hello>
        requires { showing.old.seen.log ≡ [] }
        ensures { IfOk result (λ last. last ≡ has_after Nothing showing.new.seen.log) }
    {
        let file = KeptFile::at(rt.alloc(), path)?;
        let last = restored(rt, &files, &file, showing);
        showing.shelf = Some(Arc::try_clone(&self.shelf)?);
        self.begin_keeping(rt, files, file)?;
        Ok(last)
    }

    fn begin_keeping<R: Host, K: KeptFiles + Send + 'static>(
        &mut self,
        rt: &R,
        files: K,
        file: KeptFile,
    ) -> io::Result<()> {
        let own = *rt;
        let shelf = Arc::try_clone(&self.shelf)?;
        let begun = thread::spawn(rt, move || shelf.keep_all(&own, &files, &file));
        Ok(self.threads.push(begun?)?)
    }

    // Who lets connections in, a thread a port.
    fn let_in<R: Host>(&mut self, rt: &R, ports: &Ports, most: u32) -> io::Result<()> {
        self.open(rt, &ports.ofrep, Role::Requests, most as u64)?;
        if let Some(port) = &ports.stream {
            self.open(rt, port, Role::Frames, MOST_SUBSCRIBERS)?;
        }
        if let Some(port) = &ports.status {
            let door = Door {
                role: Role::Requests,
                most: MOST_OPERATORS,
                loops: Arc::try_clone(&self.status)?,
                counts: Arc::try_clone(&self.status_counts)?,
            };
            self.attend(rt, port, door)?;
        }
        Ok(())
    }

    fn open<R: Host>(&mut self, rt: &R, port: &Port, role: Role, most: u64) -> io::Result<()> {
        let door = Door {
            role,
            most,
            loops: Arc::try_clone(&self.loops)?,
            counts: Arc::try_clone(&self.counts)?,
        };
        self.attend(rt, port, door)
    }

    fn attend<R: Host>(&mut self, rt: &R, port: &Port, door: Door<Set>) -> io::Result<()> {
        Ok(self.doors.push(door.start(rt, port)?)?)
    }
}

// What begins a thread of this name. One that couldn't begin is told.
fn told<R: Host>(rt: &R, thread: &str, begun: io::Result<()>) -> io::Result<()> {
    if let Err(reason) = &begun {
        tell_failure(rt, &Event::NotStarted { thread }, reason);
    }
    begun
}

fn join<R: Host>(rt: &R, thread: Option<JoinHandle<Ended>>) {
    if let Some(thread) = thread {
        thread.join(rt);
    }
}
