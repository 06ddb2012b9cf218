//! A store over sockets, from its opening to its end.

ghost use Rattle.std.specs.Prelude.{◌≡◌, ◌≢◌, ◌+◌, [], IfOk, IfErr, Ok, OnOk, codes};
ghost use Rattle.std.specs.FinMap as map;
ghost use Rattle.std.specs.Io.KnownBytes.{IsAtEnd};
ghost use Rattle.fp_commands.specs.declared.fault.CommandFault.TheVariants.{StoreFailed};
ghost use Rattle.fp_committer.specs.Course.{GoesThrough};
ghost use Rattle.fp_group_commit.specs.Store.{IsAtRest, IsFresh};
ghost use Rattle.fp_plane.specs.Flushing.{Flushes, IsResting};
ghost use Rattle.fp_hall.specs.Hall.{IsDeskOf, IsNewDesk, IsStoreOf};
ghost use Rattle.fp_log.specs.Events.{name_of, opening_text, text_of};
ghost use Rattle.fp_server.specs.Attends.{Serves};
ghost use Rattle.fp_server.specs.Ends.{BlamesStreams, IsBrokenOff, IsBrokenStore, IsServedStore};
ghost use Rattle.fp_server.specs.Ends.{IsServingFault, SaysWhere};

use crate::services::{Addresses, Services, fault_of};
use fp_commands::CommandFault;
use fp_committer::{DeskHalf, StoreHalf};
use fp_connections::Host;
use fp_disk::Disk;
use fp_files::DiskFiles;
use fp_fronts::Growing;
use fp_group_commit::{Opening, Store};
use fp_http::TimeLimits;
use fp_log::{Event, tell, tell_failure};
use fp_plane::{Accepted, Closer, Flushed, Naming, OwnHalf, Plane, SealingPlane, flusher};
use fp_streams::FailureCounted;
use std::alloc::AllocError;
use std::io::{Read, Write};
use std::marker::Brand;
use std::snapshot::Snapshot;
use std::thread::{Promise, PromisedHandle};
use std::time::Instant;
use std::{io, thread};

/// Serves the file at this path to editors, evaluators and subscribers, each in a thread of its
/// own, until the input ends. Then what was handed in is sealed, those who wait are answered, and
/// `stopped at revision N` is written.
///
/// Each connection has so much time as `limits` say. A store that failed is a fault at that end.
/// Where there is no thread for the flusher, what it was to do is done without one, so that the
/// disk comes back then too.
pub fn serve<R, F, I, O>(
    rt: &R,
    files: &mut F,
    path: &str,
    addresses: &Addresses,
    limits: TimeLimits,
    r: &mut FailureCounted<I>,
    w: &mut FailureCounted<O>,
) -> Result<(), CommandFault>
where
    R: Host,
    F: DiskFiles,
    F::Disk: Drop + Send + 'static,
    I: Read,
    O: Write,
    ensures { Serves F.DiskFiles F.Disk.Disk I.remaining O.contents
        (record { files = files.old; reader = r.old; writer = w.old })
        (record { files = files.new; reader = r.new; writer = w.new }) path.now result }
{
    let begun = Instant::now(rt).ok();
    let disk = files.open(path)?;
    let (store, opening) = match Store::open(rt.alloc(), disk) {
        Ok(opened) => opened,
        Err((fault, disk)) => {
            files.close(path, disk);
            return Err(fault.into());
        }
    };
    untouched(&store);
    tell(rt, &opened(path, &opening, milliseconds_since(rt, begun)));
    let services = match Services::bind(rt, addresses, limits) {
        Ok(services) => services,
        Err(fault) => {
            files.close(path, store.into_disk());
            return Err(fault_of(&fault));
        }
    };
    match serve_store(rt, store, opening, services, r, w) {
        Ok(store) => {
            let revision = store.revision();
            files.close(path, store.into_disk());
            tell(rt, &Event::Stopped { revision });
            w.say(&format_args!("stopped at revision {revision}"))?;
            Ok(())
        }
        Err((fault, store)) => {
            files.close(path, store.into_disk());
            Err(fault)
        }
    }
}

// What is told of an opening: where it was, and how much it holds.
fn opened<'e>(path: &'e str, opening: &Opening, milliseconds: u64) -> Event<'e>
    ensures name { name_of result ≡ codes "opened" }
    ensures text { text_of result ≡ opening_text path.now opening.now.start.revision
        (map.len opening.now.start.flags) milliseconds }
{
    Event::Opened {
        path,
        revision: opening.revision(),
        flags: opening.set().len(),
        milliseconds,
    }
}

// How many milliseconds passed since then, or none without a clock.
fn milliseconds_since<R: Host>(rt: &R, begun: Option<Instant>) -> u64 {
    let passed = begun.and_then(|begun| begun.elapsed(rt).ok());
    passed.map_or(0, |passed| passed.as_millis().min(u64::MAX as u128) as u64)
}

/// A store that isn't served any more, and why where that was by a fault.
type Given<D> = Result<Store<D>, (CommandFault, Store<D>)>;

// Serves a store by a committer over it.
fn serve_store<D, R, I, O>(
    rt: &R,
    store: Store<D>,
    opening: Opening,
    services: Services<R>,
    r: &mut FailureCounted<I>,
    w: &mut FailureCounted<O>,
) -> Given<D>
where
    D: Disk + Drop + Send + 'static,
    R: Host,
    I: Read,
    O: Write,
    requires ours { opening ≡ store.store }
    requires fresh { IsFresh store store.store.start }
    ensures well { IfOk result (λ s. IsServedStore D.Disk store s × IsAtRest s) }
    ensures broken { IfErr result (λ e. IsBrokenStore D.Disk store e.1 e.0) }
    ensures fault { IfErr result (λ e. IsServingFault e.0) }
    ensures said { OnOk result (SaysWhere (O.contents w.old.inner) (O.contents w.new.inner)) }
    ensures ended { OnOk result (IsAtEnd (I.remaining r.new.inner)) }
    ensures unfailed { OnOk result (r.new.failures + w.new.failures
        ≡ r.old.failures + w.old.failures) }
    ensures calm { IfErr result (λ e. e.0 ≡ StoreFailed → r.new.failures + w.new.failures
        ≡ r.old.failures + w.old.failures) }
    ensures blames { IfErr result (λ e. e.0 ≢ StoreFailed → BlamesStreams
        (record { reader = r.old; writer = w.old }) (record { reader = r.new; writer = w.new })) }
{
    untouched(&store);
    let (desk, half) = match DeskHalf::pair(rt.alloc(), store, opening) {
        Ok(halves) => halves,
        Err((fault, store, _)) => return Err((fault.into(), store)),
    };
    half.rest();
    let (began, _) = Growing::new();
    let (accepted, _) = Growing::new();
    match serve_named::<Brand, D, R, I, O>(rt, desk, accepted, half, began, services, r, w) {
        Ok(half) => {
            half.rest();
            Ok(half.into_store())
        }
        Err((fault, half)) => Err((fault, half.into_store())),
    }
}

// Shows that a store with which nothing was done is one that a committer may leave. Does nothing
// when it runs.
fn untouched<D: Disk>(store: &Store<D>)
    requires { IsFresh store.now store.now.store.start }
    ensures { GoesThrough D.Disk store.now store.now }
{
    // What a crash leaves is known only where it is asked.
    let _ = store.phase();
}

// The same of a half.
fn still<D: Disk>(half: &StoreHalf<D>)
    requires { IsResting half.now }
    ensures { Flushes D.Disk half.now half.now (Ok tt) }
{
    half.rest();
}

/// A store's half that isn't served any more, and why where that was by a fault.
type GivenHalf<D> = Result<StoreHalf<D>, (CommandFault, StoreHalf<D>)>;

// Two handles of one plane, and what closes it.
type Planes<K, D, R> = (SealingPlane<K, D, R>, SealingPlane<K, D, R>, Closer<K>);

// Serves a committer over the plane of its name.
fn serve_named<K, D, R, I, O>(
    rt: &R,
    desk: DeskHalf,
    accepted: Growing<Accepted>,
    half: StoreHalf<D>,
    began: Growing<OwnHalf<D>>,
    services: Services<R>,
    r: &mut FailureCounted<I>,
    w: &mut FailureCounted<O>,
) -> GivenHalf<D>
where
    K: Naming + Send + Sync + 'static,
    D: Disk + Drop + Send + 'static,
    R: Host,
    I: Read,
    O: Write,
    requires desk { IsDeskOf K.store K.desk_lists K.store_lists desk }
    requires fresh { IsNewDesk desk.desk }
    requires accepted { accepted.name ≡ K.accepted }
    requires none { accepted.log ≡ [] }
    requires half { IsStoreOf K.store K.desk_lists K.store_lists half }
    requires rest { IsResting half }
    requires named { began.name ≡ K.beginning }
    requires new { began.log ≡ [] }
    ensures well { IfOk result (λ h. Flushes D.Disk half h (Ok tt)) }
    ensures broken { IfErr result (λ e. IsBrokenOff D.Disk half e.1 e.0) }
    ensures fault { IfErr result (λ e. IsServingFault e.0) }
    ensures said { OnOk result (SaysWhere (O.contents w.old.inner) (O.contents w.new.inner)) }
    ensures ended { OnOk result (IsAtEnd (I.remaining r.new.inner)) }
    ensures unfailed { OnOk result (r.new.failures + w.new.failures
        ≡ r.old.failures + w.old.failures) }
    ensures calm { IfErr result (λ e. e.0 ≡ StoreFailed → r.new.failures + w.new.failures
        ≡ r.old.failures + w.old.failures) }
    ensures blames { IfErr result (λ e. e.0 ≢ StoreFailed → BlamesStreams
        (record { reader = r.old; writer = w.old }) (record { reader = r.new; writer = w.new })) }
{
    still(&half);
    let (plane, for_flusher, closer) = match planes::<K, D, R>(rt, desk, accepted) {
        Ok(planes) => planes,
        Err(fault) => return Err((fault.into(), half)),
    };
    let own = OwnHalf::new(half);
    let promise = FlushesFrom(Snapshot::of(&own));
    let began = plane.begin(own, began);
    let here = began.again();
    let flush = move || {
        let began = began;
        flusher(&for_flusher, began)
    };
    match thread::spawn_with(rt, promise, flush) {
        Ok(flusher) => serve_plane(rt, &plane, closer, flusher, services, r, w),
        Err(refused) => {
            // What the thread was to do is done here: with nothing to seal it gives the half back.
            let thread = "flusher";
            tell_failure(rt, &Event::NotStarted { thread }, &io::Error::from(refused));
            plane.plane().close(closer);
            Err((CommandFault::Device, flusher(&plane, here).half.into_half()))
        }
    }
}

// A plane over the desk's half, a handle of it for its flusher, and what closes it.
fn planes<K, D, R>(
    rt: &R,
    desk: DeskHalf,
    accepted: Growing<Accepted>,
) -> Result<Planes<K, D, R>, AllocError>
where
    K: Naming,
    D: Disk + Drop,
    R: Host,
    requires desk { IsDeskOf K.store K.desk_lists K.store_lists desk }
    requires fresh { IsNewDesk desk.desk }
    requires named { accepted.name ≡ K.accepted }
    requires none { accepted.log ≡ [] }
{
    let (plane, closer) = Plane::new(*rt, rt.alloc(), desk, accepted)?;
    let plane = SealingPlane::new(rt.alloc(), plane)?;
    let for_flusher = plane.try_copy()?;
    Ok((plane, for_flusher, closer))
}

/// What a flusher that began with this half promises.
#[derive(Drop)]
struct FlushesFrom<D: Disk + Drop>(Snapshot<OwnHalf<D>>);

impl<D: Disk + Drop> Promise<Flushed<D>> for FlushesFrom<D> {
    ghost use Rattle.fp_plane.specs.Flushing.{Flushes};

    ghost kept_by = { λ p r. Flushes D.Disk p.0.value r.half r.ended };
}

// Serves a plane, whose flusher runs, until the input ends.
fn serve_plane<K, D, R, I, O>(
    rt: &R,
    plane: &SealingPlane<K, D, R>,
    closer: Closer<K>,
    flusher: PromisedHandle<Flushed<D>, FlushesFrom<D>>,
    services: Services<R>,
    r: &mut FailureCounted<I>,
    w: &mut FailureCounted<O>,
) -> GivenHalf<D>
where
    K: Naming + Send + Sync + 'static,
    D: Disk + Drop + Send + 'static,
    R: Host,
    I: Read,
    O: Write,
    ensures well { IfOk result (λ h. Flushes D.Disk flusher.promise.0.value h (Ok tt)) }
    ensures broken { IfErr result (λ e. IsBrokenOff D.Disk flusher.promise.0.value e.1 e.0) }
    ensures fault { IfErr result (λ e. IsServingFault e.0) }
    ensures said { OnOk result (SaysWhere (O.contents w.old.inner) (O.contents w.new.inner)) }
    ensures ended { OnOk result (IsAtEnd (I.remaining r.new.inner)) }
    ensures unfailed { OnOk result (r.new.failures + w.new.failures
        ≡ r.old.failures + w.old.failures) }
    ensures calm { IfErr result (λ e. e.0 ≡ StoreFailed → r.new.failures + w.new.failures
        ≡ r.old.failures + w.old.failures) }
    ensures blames { IfErr result (λ e. e.0 ≢ StoreFailed → BlamesStreams
        (record { reader = r.old; writer = w.old }) (record { reader = r.new; writer = w.new })) }
{
    let attended = services.attend(plane, &closer, r, w);
    services.stop_reading();
    plane.plane().close(closer);
    let Flushed { half, ended } = flusher.join(rt);
    services.end();
    match (attended, ended) {
        (Ok(()), Ok(_settled)) => Ok(half.into_half()),
        (Ok(()), Err(_)) => Err((CommandFault::StoreFailed, half.into_half())),
        (Err(fault), _) => Err((fault, half.into_half())),
    }
}
