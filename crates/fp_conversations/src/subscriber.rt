//! A subscriber's connection.

ghost use Rattle.std.specs.Prelude.{◌≡◌, ◌≢◌, ◌<◌, ℕ, List, Option, IfErr, IfOk, IfSome};
ghost use Rattle.std.specs.Prelude.{IsSomeAnd, MatchBool};
ghost use Rattle.fp_publish.specs.Fronts.{Begins};
ghost use Rattle.fp_publish.specs.Seats.{had_by};
ghost use Rattle.fp_stream.specs.declared.hello.Hello.{Hello};
ghost use Rattle.fp_streams.specs.Failures.{CountsFailures};
ghost use Rattle.fp_streams.specs.declared.counted.StreamFault.TheVariants.{Device};
ghost use Rattle.fp_conversations.specs.Editing.{GoesOnFrom};
ghost use Rattle.fp_conversations.specs.Sending.{IsCause, IsSent, Serves};
ghost use Rattle.fp_conversations.specs.declared.subscriber.SubscriberFault.TheVariants as fault;

use fp_plane::{Gone, Naming, Plane, TakenSeat};
use fp_publish::Shown;
use fp_stream::{HelloFault, MOST_BODY, read_hello, write_frame};
use fp_streams::{FailureCounted, StreamFault, WriteGathered};
use std::io::Read;
use std::sync::Wait;
use std::time::Clock;

/// Why a subscriber was sent nothing more, though it may be there still.
#[derive(Debug, Drop, Clone, Copy)]
pub enum SubscriberFault {
    /// It said no hello.
    Hello(HelloFault),
    /// There is no seat for it.
    SeatsUsed,
    /// The document that is news to it is longer than a frame takes.
    TooLong,
    /// The writer failed.
    Device,
}

// Why the frames of a seat ended where the writer didn't fail.
#[derive(Drop)]
enum Served {
    // The plane was stopped, or the subscriber has left.
    Over(Gone),
    // The document that is news to it is longer than a frame takes.
    Long,
}

/// Reads a subscriber's hello, and sends it each document that is shown and that it hasn't got,
/// until the plane is stopped or it has left: a `Gone` says so, and nothing else ends it well. One
/// that is slow gets the newest.
///
/// With the end comes the most that was shown of what was handed. Whether it has left is asked each
/// second in which nothing new is shown, and where the plane looks who has left.
pub fn subscriber_loop<K, R, I, O, G>(
    plane: &Plane<K, R>,
    r: &mut FailureCounted<I>,
    w: &mut FailureCounted<O>,
    has_left: G,
) -> (Result<Gone, SubscriberFault>, Option<Shown>)
where
    K: Naming,
    R: Wait + Clock + Drop,
    I: Read,
    O: WriteGathered,
    G: Fn() -> bool + Drop,
    // `has_left` may be called at any time.
    requires { G.IsAlwaysCallable has_left }
    // `Ok`: behind a hello come frames of fronts that were shown, each news to who said that hello
    // and got those before: the `Shown` goes on from each. `TooLong`: the same, and what was shown
    // has news behind these with a document that no frame takes. `Device` exactly where a failure
    // of the writer was counted.
    ensures served { Serves result.1 (I.remaining r.old.inner) (I.remaining r.new.inner)
        (O.contents w.old.inner) (O.contents w.new.inner) w.old.failures w.new.failures result.0 }
    // What comes back is of the plane's store.
    ensures ours { IfSome result.1 (λ s. s.store ≡ K.store) }
    // `Hello` and `SeatsUsed`: nothing was written.
    ensures untouched { IfErr result.0 (λ f. (f ≢ fault.Device) → (f ≢ fault.TooLong)
        → w.new ≡ w.old) }
{
    let hello = match read_hello(r) {
        Ok(hello) => hello,
        Err(fault) => return (Err(SubscriberFault::Hello(fault)), None),
    };
    let Ok(mut seat) = plane.seat(hello) else {
        return (Err(SubscriberFault::SeatsUsed), None);
    };
    let mut shown = None;
    let served = serve_seat(plane, &mut seat, w, &has_left, &mut shown);
    plane.unseat(seat);
    match served {
        Ok(Served::Over(gone)) => (Ok(gone), shown),
        Ok(Served::Long) => (Err(SubscriberFault::TooLong), shown),
        Err(_) => (Err(SubscriberFault::Device), shown),
    }
}

// Sends each document that is handed to the seat, until nothing more is, or one is too long, and
// keeps the most that was shown of them.
fn serve_seat<K, R, O, G>(
    plane: &Plane<K, R>,
    seat: &mut TakenSeat<K>,
    w: &mut FailureCounted<O>,
    has_left: &G,
    shown: &mut Option<Shown>,
) -> Result<Served, StreamFault>
where
    K: Naming,
    R: Wait + Clock + Drop,
    O: WriteGathered,
    G: Fn() -> bool,
    requires may { G.IsAlwaysCallable has_left.now }
    requires ours { IfSome shown.old (λ s. s.store ≡ K.store) }
    ensures sent { IfOk result (λ served. (had : Hello) (before : Option (List ℕ))
        → IsSent shown.old had (had_by seat.old) before (O.contents w.old.inner)
        → (has : Hello) × IsSent shown.new had has before (O.contents w.new.inner)
        × IsCause shown.new has served) }
    ensures ours { IfSome shown.new (λ s. s.store ≡ K.store) }
    ensures fault { IfErr result (λ f. f ≡ Device) }
    ensures counted { CountsFailures w.old.failures w.new.failures result }
{
    loop {
        let handed = match plane.handed(seat, has_left) {
            Ok(handed) => handed,
            Err(gone) => return Ok(Served::Over(gone)),
        };
        keep_greater::<K>(shown, handed.shown());
        if handed.document().len() > MOST_BODY {
            return Ok(Served::Long);
        }
        write_frame(w, handed.revision(), handed.document())?;
    }
}

// Keeps the greater of what was shown.
fn keep_greater<K: Naming>(shown: &mut Option<Shown>, more: Shown)
    requires ours { IfSome shown.old (λ s. s.store ≡ K.store) }
    requires more { more.store ≡ K.store }
    ensures kept { GoesOnFrom shown.new shown.old }
    ensures more { IsSomeAnd shown.new (Begins more) }
    ensures ours { IfSome shown.new (λ s. s.store ≡ K.store) }
{
    if !is_above(shown, &more) {
        *shown = Some(more);
    }
}

// Whether more was shown than this.
fn is_above(shown: &Option<Shown>, other: &Shown) -> bool
    requires { IfSome shown.now (λ f. f.store ≡ other.now.store) }
    ensures { MatchBool result (IsSomeAnd shown.now (Begins other.now))
        (IfSome shown.now (λ f. Begins f other.now)) }
{
    match shown {
        Some(shown) => other.is_behind(shown),
        None => false,
    }
}
