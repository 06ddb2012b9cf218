//! The thread that follows the source, until the relay ends.

ghost use Rattle.std.specs.Prelude.{◌≡◌, ◌≤◌, ◌++◌, ◌∷◌, [], length, IsSome, OnOk, OnErr};
ghost use Rattle.std.specs.Arc.{arc_value};
ghost use Rattle.fp_stream.specs.Frames.{has_after};
ghost use Rattle.fp_stream.specs.Heads.{longest_body};
ghost use Rattle.fp_stream.specs.declared.hello.Hello.TheVariants.{Nothing};

use crate::backoff::delay;
use crate::events::{Event, tell, tell_failure};
use crate::numbers::Numbers;
use crate::set::{OfSet, Set};
use crate::shelf::Shelf;
use crate::source::{Audience, SourceEnd, follow};
use crate::uplink::{Ended, Uplink};
use crate::waiting::PutDown;
use fp_connections::{Host, probe_peers};
use fp_fronts::Growing;
use fp_loop::Loops;
use fp_news::News;
use fp_shown::Shown;
use fp_stream::{HEAD, Hello};
use fp_streams::FailureCounted;
use log::Log;
use std::alloc::{AllocError, Global};
use std::io;
use std::net::SocketAddrV4;
use std::sync::{Arc, Wait};
use std::time::{Clock, Duration};

/// Where what is new goes: to the loops, to what an operator reads, and to who keeps it.
#[derive(Drop)]
pub struct Showing<R: Drop> {
    pub rt: R,
    pub alloc: Global,
    pub loops: Arc<Loops<Set>, Global>,
    pub numbers: Arc<Numbers, Global>,
    pub shelf: Option<Arc<Shelf, Global>>,
    /// What was shown last.
    pub last: Option<Arc<Set, Global>>,
    /// Whether the connection that stands gave a frame.
    pub has_heard: bool,
    /// What was shown so far, in proofs alone.
    pub seen: Growing<Set>,
    /// What was put on the shelf so far, in proofs alone.
    pub put: PutDown,
}

impl<R: Wait + Log + Drop> Showing<R> {
    /// Shows a set to the loops. The next is read beside it.
    pub fn show_set(&mut self, set: &Arc<Set, Global>) -> Result<(), AllocError>
        // `Ok`: it was shown behind what was.
        ensures shown { OnOk result (self.new.seen.log
            ≡ self.old.seen.log ++ arc_value set.now ∷ []) }
        // `Err`: what was shown stays.
        ensures unchanged { OnErr result (self.new.seen.log ≡ self.old.seen.log) }
        // The shelf stays, and what was put on it.
        ensures put { (self.new.shelf ≡ self.old.shelf) × (self.new.put ≡ self.old.put) }
    {
        let (revision, flags) = (set.revision(), set.shown().set().len() as u64);
        let last = Arc::try_clone(set)?;
        self.loops.post_news(&self.rt, set)?;
        self.numbers.show(revision, flags);
        tell(&self.rt, &Event::Shown { revision, flags });
        self.seen.lengthen::<Set, OfSet>(set);
        self.last = Some(last);
        Ok(())
    }
}

impl<R: Wait + Clock + Log + Drop> Audience for Showing<R> {
    ghost seen = { λ s. s.seen.log };

    fn note(&mut self, revision: u64, last: Hello) {
        self.numbers.note(revision);
        if let Hello::Has(shown) = last
            && revision < shown
            && !self.has_heard
        {
            tell(&self.rt, &Event::SourceBehind { revision, shown });
        }
        self.has_heard = true;
    }

    fn show(&mut self, shown: Shown) -> Result<(), AllocError>
        requires { length shown.document ≤ longest_body }
        ensures shown { OnOk result (self.new.seen.log ≡ self.old.seen.log ++ shown ∷ []) }
        ensures unchanged { OnErr result (self.new.seen.log ≡ self.old.seen.log) }
        // Where there is a shelf, each set that is shown is put on it.
        ensures put { OnOk result (IsSome self.old.shelf
            → self.new.put ≡ self.old.put ++ shown ∷ []) }
    {
        let bytes = (HEAD + shown.document().len()) as u64;
        let set = Arc::new(self.alloc, Set::of(shown))?;
        let kept = Arc::try_clone(&set)?;
        self.show_set(&set)?;
        self.numbers.take(&self.rt, bytes);
        if let Some(shelf) = &self.shelf {
            shelf.put(&self.rt, kept, &mut self.put);
        }
        Ok(())
    }

    fn last(&self) -> Option<&Shown> {
        match &self.last {
            Some(set) => Some(set.shown()),
            None => None,
        }
    }
}

/// Follows the source at this address, and tries again whenever it is away, until the uplink is
/// ended.
pub fn follow_source<R: Host>(
    rt: &R,
    address: SocketAddrV4,
    uplink: &Uplink,
    last: Hello,
    showing: Showing<R>,
) -> Ended
    // It goes on from what was shown last.
    requires { last ≡ has_after Nothing showing.seen.log }
{
    let mut showing = showing;
    let mut last = last;
    let mut failures = 0u32;
    for _ in rt.forever() {
        showing.has_heard = false;
        let ended = attend_source(rt, address, uplink, &mut last, &mut showing);
        if let Some(ended) = uplink.ended(rt) {
            return ended;
        }
        if is_well(&ended) && showing.has_heard {
            failures = 0;
        }
        let wait = delay(failures, random(rt));
        tell_end(rt, address, &ended, wait);
        if let Some(ended) = uplink.ended_within(rt, wait) {
            return ended;
        }
        failures = failures.saturating_add(1);
    }
    unreachable!()
}

// Whether what came was as it should be, and there was memory for it.
fn is_well(ended: &io::Result<SourceEnd>) -> bool {
    !matches!(
        ended,
        Ok(SourceEnd::BadFrame(_) | SourceEnd::NoSet | SourceEnd::Memory)
    )
}

// One connection to the source, from its beginning to its end.
fn attend_source<R: Host>(
    rt: &R,
    address: SocketAddrV4,
    uplink: &Uplink,
    last: &mut Hello,
    showing: &mut Showing<R>,
) -> io::Result<SourceEnd>
    // This is what was shown last, before it and then.
    requires { last.old ≡ has_after Nothing showing.old.seen.log }
    ensures { last.new ≡ has_after Nothing showing.new.seen.log }
{
    let numbers = Arc::try_clone(&showing.numbers)?;
    let stream = uplink.connect(rt, address)?;
    probe_peers(&stream);
    numbers.connect(rt, true);
    tell(rt, &Event::SourceReached { address });
    let mut service = FailureCounted::new(&stream);
    let mut r = FailureCounted::new(&stream);
    let end = follow(showing.alloc, &mut service, &mut r, last, showing);
    numbers.connect(rt, false);
    uplink.let_go(rt);
    Ok(end)
}

// Tells how a connection ended, or that there was none.
fn tell_end<R: Host>(rt: &R, address: SocketAddrV4, ended: &io::Result<SourceEnd>, wait: Duration) {
    let milliseconds = wait.as_millis().min(u64::MAX as u128) as u64;
    match ended {
        Ok(end) => tell(
            rt,
            &Event::SourceLeft {
                address,
                milliseconds,
                end: *end,
            },
        ),
        Err(reason) => tell_failure(
            rt,
            &Event::SourceNotReached {
                address,
                milliseconds,
            },
            reason,
        ),
    }
}

// A random number, and 0 without one.
fn random<R: Host>(rt: &R) -> u64 {
    let mut bytes = [0; 8];
    match rt.fill_bytes(&mut bytes) {
        Ok(()) => u64::from_le_bytes(bytes),
        Err(_) => 0,
    }
}
