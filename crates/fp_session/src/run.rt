//! The loop from what is asked to replies.

ghost use Rattle.std.specs.Prelude.{◌≡◌, ◌≢◌, ◌≤◌, ◌<◌, ◌+◌, ◌++◌, [], ◌∷◌, ℕ, List, length, Option};
ghost use Rattle.std.specs.Prelude.{IfErr, OnOk, MatchResult, Ok};
ghost use Rattle.std.specs.Io.KnownBytes.{Appends};
ghost use Rattle.fp_edit.specs.Flags.{State};
ghost use Rattle.fp_session.specs.Asks.{Ask};
ghost use Rattle.fp_session.specs.Progress.{AsksFor, EndsOver, IsAt, IsAtWith, IsBroken};
ghost use Rattle.fp_session.specs.Progress.{IsBrokenWith, IsSentFurther};
ghost use Rattle.fp_session.specs.Sources.{most_at_once, most_waiting};
ghost use Rattle.fp_session.specs.Streams.{Blames, IsFromWithin};
ghost use Rattle.fp_session.specs.declared.replies.TheConstants.{LONG};
ghost use Rattle.fp_session.specs.declared.fault.ApplyFault.TheVariants.{Device, Memory};

use crate::batching::Batching;
use crate::replies::{Replies, conclude, give_up, go_on};
use crate::source::EditSource;
use crate::{ApplyFault, EditStore};
use fp_edit::{Edit, LineFault};
use fp_streams::FailureCounted;
use std::alloc::Global;
use std::io::Write;

/// Answers all that a source asks, in order, and shows the flags behind the last reply. An edit is
/// kept before it is answered, with those that wait together with it.
///
/// Before the source gets more, what was asked is kept and all replies are sent. `Ok(false)` says
/// that a reply told of wanting memory. Where edits aren't kept their replies are `store-failed`,
/// the last ones. A stream or a writer that fails is `Device`, unless the store failed or memory
/// was wanting just before.
pub fn answer_all<S, A: EditSource<S>, W: Write, E: EditStore>(
    alloc: Global,
    source: &mut A,
    stream: &mut S,
    w: &mut FailureCounted<W>,
    edits: &mut E,
    batching: Batching,
) -> Result<bool, ApplyFault>
    requires fresh { (flags : State) → E.may_stand edits.old flags → flags ≡ E.state edits.old }
    ensures ends { EndsOver E.EditStore (most_at_once batching) edits.old edits.new
        (A.asks source.old stream.old) (W.contents w.old.inner) (W.contents w.new.inner)
        w.old.failures w.new.failures result }
    ensures device { Blames (A.failures stream.old + w.old.failures)
        (A.failures stream.new + w.new.failures) result }
    ensures read { IfErr result (λ f. f ≢ Device → A.failures stream.new ≡ A.failures stream.old) }
{
    // What a crash leaves is known only where it is asked.
    let _ = edits.flags();
    let mut replies = Replies::new(alloc);
    go_on(edits)?;
    loop {
        loop {
            let Ok(next) = source.next(alloc) else {
                return Err(give_up(w, &mut replies, ApplyFault::Memory));
            };
            let Some(edit) = next else {
                break;
            };
            answer(alloc, w, &mut replies, edits, edit, batching)?;
        }
        settle(alloc, w, &mut replies, edits)?;
        let more = source.refill(stream)?;
        if !more {
            let ended = replies.end(alloc, edits);
            return conclude(w, &mut replies, ended);
        }
    }
}

// Answers an edit, or what stood in its place. The replies are sent where many wait, and before a
// fault is answered.
fn answer<W: Write, E: EditStore>(
    alloc: Global,
    w: &mut FailureCounted<W>,
    replies: &mut Replies,
    edits: &mut E,
    edit: Result<Edit, LineFault>,
    batching: Batching,
) -> Result<(), ApplyFault>
    requires paid { E.owes edits.old → ⊥ }
    ensures answered { (first : E) (asked : List Ask) (x : Ask) (before : Option (List ℕ))
        → AsksFor edit x → length replies.old.waiting.items ≤ most_waiting batching
        → IsAtWith E.EditStore first edits.old asked before (W.contents w.old.inner) replies.old
        → MatchResult result
        (λ _. IsAtWith E.EditStore first edits.new (asked ++ x ∷ []) before
        (W.contents w.new.inner) replies.new)
        (IsBrokenWith E.EditStore (most_at_once batching) first edits.new (asked ++ x ∷ []) before
        (W.contents w.new.inner) w.old.failures w.new.failures) }
    ensures bounded { length replies.old.waiting.items ≤ most_waiting batching
        → OnOk result ((length replies.new.waiting.items ≤ most_waiting batching)
        × (length replies.new.text.items ≤ LONG)) }
    ensures paid { OnOk result (E.owes edits.new → ⊥) }
    ensures device { Blames w.old.failures w.new.failures result }
{
    match put(alloc, replies, edits, edit, batching) {
        Ok(()) => send_long(w, replies),
        Err(fault) => Err(give_up(w, replies, fault)),
    }
}

// Puts an edit to the flags, or what stood in its place, and has it kept where it is its own batch.
fn put<E: EditStore>(
    alloc: Global,
    replies: &mut Replies,
    edits: &mut E,
    edit: Result<Edit, LineFault>,
    batching: Batching,
) -> Result<(), ApplyFault>
    requires paid { E.owes edits.old → ⊥ }
    ensures asked { (first : E) (asked : List Ask) (sent : List ℕ) (x : Ask) → AsksFor edit x
        → length replies.old.waiting.items ≤ most_waiting batching
        → IsAt E.EditStore first edits.old asked sent replies.old → MatchResult result
        (λ _. IsAt E.EditStore first edits.new (asked ++ x ∷ []) sent replies.new)
        (IsBroken E.EditStore (most_at_once batching) first edits.new (asked ++ x ∷ []) sent
        replies.new) }
    ensures bounded { length replies.old.waiting.items ≤ most_waiting batching
        → OnOk result (length replies.new.waiting.items ≤ most_waiting batching) }
    ensures paid { OnOk result (E.owes edits.new → ⊥) }
    ensures fault { IfErr result IsFromWithin }
{
    replies.ask(alloc, edits, edit)?;
    match batching {
        Batching::Single => replies.seal(alloc, edits),
        Batching::Full => Ok(()),
    }
}

// Has what waits kept, and sends all replies, also before a fault is answered.
fn settle<W: Write, E: EditStore>(
    alloc: Global,
    w: &mut FailureCounted<W>,
    replies: &mut Replies,
    edits: &mut E,
) -> Result<(), ApplyFault>
    requires paid { E.owes edits.old → ⊥ }
    ensures settled { (first : E) (asked : List Ask) (before : Option (List ℕ)) (most : ℕ)
        → length replies.old.waiting.items ≤ most
        → IsAtWith E.EditStore first edits.old asked before (W.contents w.old.inner) replies.old
        → MatchResult result
        (λ _. IsAtWith E.EditStore first edits.new asked before (W.contents w.new.inner)
        replies.new)
        (IsBrokenWith E.EditStore most first edits.new asked before (W.contents w.new.inner)
        w.old.failures w.new.failures) }
    ensures none { OnOk result ((replies.new.waiting.items ≡ [])
        × (replies.new.text.items ≡ [])) }
    ensures paid { OnOk result (E.owes edits.new → ⊥) }
    ensures device { Blames w.old.failures w.new.failures result }
{
    match replies.seal(alloc, edits) {
        Ok(()) => send(w, replies),
        Err(fault) => Err(give_up(w, replies, fault)),
    }
}

// Sends the replies where many wait.
fn send_long<W: Write>(w: &mut FailureCounted<W>, replies: &mut Replies) -> Result<(), ApplyFault>
    ensures sent { (sent : List ℕ) (before : Option (List ℕ))
        → Appends before (W.contents w.old.inner) sent → OnOk result
        (IsSentFurther before (W.contents w.new.inner) sent replies.old replies.new) }
    ensures bounded { OnOk result (length replies.new.text.items ≤ LONG) }
    ensures waiting { replies.new.waiting ≡ replies.old.waiting }
    ensures failed { IfErr result (λ f. (f ≡ Device) × (w.old.failures < w.new.failures)) }
    ensures device { Blames w.old.failures w.new.failures result }
{
    if replies.is_long() {
        send(w, replies)?;
    }
    Ok(())
}

// Sends the replies.
fn send<W: Write>(w: &mut FailureCounted<W>, replies: &mut Replies) -> Result<(), ApplyFault>
    ensures sent { (sent : List ℕ) (before : Option (List ℕ))
        → Appends before (W.contents w.old.inner) sent → OnOk result
        (IsSentFurther before (W.contents w.new.inner) sent replies.old replies.new) }
    ensures none { OnOk result (replies.new.text.items ≡ []) }
    ensures waiting { replies.new.waiting ≡ replies.old.waiting }
    ensures failed { IfErr result (λ f. (f ≡ Device) × (w.old.failures < w.new.failures)) }
    ensures device { Blames w.old.failures w.new.failures result }
{
    replies.send(w)?;
    Ok(())
}
