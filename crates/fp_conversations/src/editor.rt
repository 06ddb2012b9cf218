//! An editor's connection.

ghost use Rattle.std.specs.Prelude.{◌≡◌, ◌+◌, ◌++◌, ◌∷◌, [], ℕ, List, Option, None};
ghost use Rattle.std.specs.Prelude.{false, IfErr, IfOk, IfSome, IsSomeAnd, OnErr, OnOk, MatchBool};
ghost use Rattle.std.specs.Result.{result_map_both};
ghost use Rattle.fp_publish.specs.Fronts.{Begins};
ghost use Rattle.fp_session.specs.Asks.{Ask, asked_by_input};
ghost use Rattle.fp_session.specs.Progress.{AsksFor};
ghost use Rattle.fp_session.specs.Requests.{IsHttpRequest, first_line};
ghost use Rattle.fp_streams.specs.Failures.{CountsFailures};
ghost use Rattle.fp_streams.specs.declared.counted.StreamFault.TheVariants.{Device};
ghost use Rattle.fp_hall.specs.declared.editor.Said.{Said};
ghost use Rattle.fp_conversations.specs.Editing.{Ends, GoesOnFrom, HandsIn, IsServed};
ghost use Rattle.fp_conversations.specs.Editing.{IsServedFirst};
ghost use Rattle.fp_conversations.specs.declared.editor.EditorEnd.TheVariants.{HttpRequest};

use crate::answer::answer_line;
use fp_disk::Disk;
use fp_edit::{Edit, LineFault};
use fp_group_commit::Told;
use fp_plane::{Editing, Naming};
use fp_session::{EditSource, InputLines};
use fp_streams::{FailureCounted, StreamFault};
use log::Log;
use std::alloc::Global;
use std::io::{Read, Write};
use std::sync::Wait;
use std::time::Clock;

/// How an editor's connection ended where neither stream failed.
#[derive(Drop)]
pub enum EditorEnd {
    /// Each line was answered. With it the most that was told.
    Served(Option<Told>),
    /// Its first line is an HTTP request's, so that nothing was answered: a page that a browser
    /// shows can say any lines behind it.
    HttpRequest,
}

/// Answers each line of an editor, before the next one is looked at, and each edit once it is
/// sealed, settled and shown; none of them where the first line is an HTTP request's.
///
/// With the end, or the fault, comes the most that was told. Want of memory ends it where a line
/// comes in; of an edit that was taken it always tells.
pub fn editor_loop<K, D, R, I, O>(
    editing: &mut Editing<'_, K, D, R>,
    alloc: Global,
    r: &mut FailureCounted<I>,
    w: &mut FailureCounted<O>,
) -> Result<EditorEnd, (StreamFault, Option<Told>)>
where
    K: Naming,
    D: Disk + Drop,
    R: Wait + Clock + Log + Drop,
    I: Read,
    O: Write,
    // `Served`: the first line is no HTTP request's, and there is one line for each line read
    // that gets one, in order. What comes back is of the plane's store, and each revision that was
    // written is the one that its line's edit made there. Each edit was handed in once, and answered
    // by what the hall said of it; or there was no memory to read it, which it is told, and it
    // wasn't handed in. `HttpRequest`: the first line is one.
    ensures served { IfOk result (λ end. IfSome (I.remaining r.old.inner) (λ input.
        Ends K.store end input editing.old editing.new
        (O.contents w.old.inner) (O.contents w.new.inner))) }

    // However the call ends, nothing is handed in but what the lines ask, in order, no edit twice,
    ensures handed { IfSome (I.remaining r.old.inner) (λ input.
        HandsIn (asked_by_input input) editing.old editing.new) }
    // and where the first line is an HTTP request's nothing is, nor is anything written.
    ensures silent { IfSome (I.remaining r.old.inner) (λ input.
        IsHttpRequest (first_line input) → (editing.new ≡ editing.old) × (w.new ≡ w.old)) }
    // `HttpRequest`: nothing was written or handed in.
    ensures untouched { IfOk result (λ end. end ≡ HttpRequest →
        (editing.new ≡ editing.old) × (w.new ≡ w.old)) }

    // `Err`, unless the writer failed: the same of some first lines that get one.
    ensures broken { IfErr result (λ e. w.new.failures ≡ w.old.failures →
        IfSome (I.remaining r.old.inner) (λ input.
        IsServedFirst K.store e.1 (asked_by_input input) editing.old editing.new
        (O.contents w.old.inner) (O.contents w.new.inner))) }
    // `Err`: what comes back is of the plane's store.
    ensures ours { IfErr result (λ e. IfSome e.1 (λ t. t.store ≡ K.store)) }
    // `Device` exactly where a failure of either stream was counted.
    ensures device { CountsFailures (r.old.failures + w.old.failures)
        (r.new.failures + w.new.failures) (result_map_both (λ t. t) (λ e. e.0) result) }
{
    let mut lines = InputLines::new(alloc);
    let is_request = match lines.begin_with_request(r) {
        Ok(is_request) => is_request,
        Err(fault) => return Err((fault, None)),
    };
    if is_request {
        return Ok(EditorEnd::HttpRequest);
    }
    match serve_source(editing, alloc, &mut lines, r, w) {
        Ok(told) => Ok(EditorEnd::Served(told)),
        Err(broken) => Err(broken),
    }
}

// Answers all that a source asks, in order, and gives the most that was told.
fn serve_source<K, D, R, S, A, O>(
    editing: &mut Editing<'_, K, D, R>,
    alloc: Global,
    source: &mut A,
    stream: &mut S,
    w: &mut FailureCounted<O>,
) -> Result<Option<Told>, (StreamFault, Option<Told>)>
where
    K: Naming,
    D: Disk + Drop,
    R: Wait + Clock + Log + Drop,
    A: EditSource<S>,
    O: Write,
    ensures served { IfOk result (λ told. (all : List Ask) → A.asks source.old stream.old all
        → IsServed K.store told all editing.old editing.new
        (O.contents w.old.inner) (O.contents w.new.inner)) }
    ensures broken { IfErr result (λ e. w.new.failures ≡ w.old.failures
        → (all : List Ask) → A.asks source.old stream.old all
        → IsServedFirst K.store e.1 all editing.old editing.new
        (O.contents w.old.inner) (O.contents w.new.inner)) }
    ensures handed { (all : List Ask) → A.asks source.old stream.old all
        → HandsIn all editing.old editing.new }
    ensures ours { IfErr result (λ e. IfSome e.1 (λ t. t.store ≡ K.store)) }
    ensures device { CountsFailures (A.failures stream.old + w.old.failures)
        (A.failures stream.new + w.new.failures) (result_map_both (λ t. t) (λ e. e.0) result) }
{
    let mut told = None;
    match answer_all(editing, alloc, source, stream, w, &mut told) {
        Ok(()) => Ok(told),
        Err(fault) => Err((fault, told)),
    }
}

// Answers all that a source asks, in order, and keeps the most that was told.
fn answer_all<K, D, R, S, A, O>(
    editing: &mut Editing<'_, K, D, R>,
    alloc: Global,
    source: &mut A,
    stream: &mut S,
    w: &mut FailureCounted<O>,
    told: &mut Option<Told>,
) -> Result<(), StreamFault>
where
    K: Naming,
    D: Disk + Drop,
    R: Wait + Clock + Log + Drop,
    A: EditSource<S>,
    O: Write,
    requires none { told.old ≡ None }
    ensures served { OnOk result ((all : List Ask) → A.asks source.old stream.old all
        → IsServed K.store told.new all editing.old editing.new
        (O.contents w.old.inner) (O.contents w.new.inner)) }
    ensures broken { OnErr result (w.new.failures ≡ w.old.failures
        → (all : List Ask) → A.asks source.old stream.old all
        → IsServedFirst K.store told.new all editing.old editing.new
        (O.contents w.old.inner) (O.contents w.new.inner)) }
    ensures handed { (all : List Ask) → A.asks source.old stream.old all
        → HandsIn all editing.old editing.new }
    ensures ours { IfSome told.new (λ t. t.store ≡ K.store) }
    ensures device { CountsFailures (A.failures stream.old + w.old.failures)
        (A.failures stream.new + w.new.failures) result }
{
    loop {
        loop {
            let Ok(next) = source.next(alloc) else {
                return Err(StreamFault::Memory);
            };
            let Some(asked) = next else {
                break;
            };
            answer(editing, alloc, asked, told, w)?;
        }
        let more = source.refill(stream)?;
        if !more {
            return Ok(());
        }
    }
}

// Answers what a line asks.
fn answer<K, D, R, O>(
    editing: &mut Editing<'_, K, D, R>,
    alloc: Global,
    asked: Result<Edit, LineFault>,
    told: &mut Option<Told>,
    w: &mut FailureCounted<O>,
) -> Result<(), StreamFault>
where
    K: Naming,
    D: Disk + Drop,
    R: Wait + Clock + Log + Drop,
    O: Write,
    requires ours { IfSome told.old (λ t. t.store ≡ K.store) }
    ensures answered { OnOk result ((x : Ask) (all : List Ask) (was : List Said)
        (before : Option (List ℕ)) → AsksFor asked x
        → IsServed K.store told.old all was editing.old before (O.contents w.old.inner)
        → IsServed K.store told.new (all ++ x ∷ []) was editing.new before
        (O.contents w.new.inner)) }
    ensures handed { (x : Ask) (all : List Ask) (was : List Said) → AsksFor asked x
        → HandsIn all was editing.old → HandsIn (all ++ x ∷ []) was editing.new }
    ensures ours { IfSome told.new (λ t. t.store ≡ K.store) }
    ensures fault { IfErr result (λ f. f ≡ Device) }
    ensures counted { CountsFailures w.old.failures w.new.failures result }
{
    let (answered, sent) = answer_line(editing, alloc, asked, w);
    keep_greater::<K>(told, answered.into_told());
    sent?;

    // The step of a compaction that is owed behind the batch is no part of an editor's wait.
    editing.go_on();
    Ok(())
}

// Keeps the greater of what was told.
fn keep_greater<K: Naming>(told: &mut Option<Told>, more: Option<Told>)
    requires ours { IfSome told.old (λ t. t.store ≡ K.store) }
    requires more { IfSome more (λ t. t.store ≡ K.store) }
    ensures kept { GoesOnFrom told.new told.old }
    ensures more { GoesOnFrom told.new more }
    ensures ours { IfSome told.new (λ t. t.store ≡ K.store) }
{
    let Some(more) = more else {
        return;
    };
    if !is_above(told, &more) {
        *told = Some(more);
    }
}

// Whether more was told than this.
fn is_above(told: &Option<Told>, other: &Told) -> bool
    requires { IfSome told.now (λ f. f.store ≡ other.now.store) }
    ensures { MatchBool result (IsSomeAnd told.now (Begins other.now))
        (IfSome told.now (λ f. Begins f other.now)) }
{
    match told {
        Some(told) => {
            told.part().meets(other.part());
            other.revision() < told.revision()
        }
        None => false,
    }
}
