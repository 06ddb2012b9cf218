//! Replies: those that wait until their batch is kept, and the texts of the others.

ghost use Rattle.std.specs.Prelude.{◌≡◌, ◌++◌, ◌&&◌, [], ◌∷◌, ℕ, List, Ok, Err, IfErr, IfOk, OnOk};
ghost use Rattle.std.specs.Prelude.{◌+◌, MatchResult, ◌<◌, ◌≤◌, nat_lt, length, true, vec_capacity};
ghost use Rattle.std.specs.Prelude.{vec_len, ◌↔◌, IsTrue};
ghost use Rattle.std.specs.Io.KnownBytes.{Appends};
ghost use Rattle.fp_edit.specs.Edits.{Change, proposal_of};
ghost use Rattle.fp_edit.specs.Following.{change_of};
ghost use Rattle.fp_edit.specs.Spelled.{Tells};
ghost use Rattle.fp_session.specs.Asks.{Ask};
ghost use Rattle.fp_session.specs.Progress.{AsksFor, IsAt, IsBroken, IsEnded, IsToldUpTo, Takes};
ghost use Rattle.fp_session.specs.Reply.{is_told, reply_of_code, store_failed, texts_of, told_if};
ghost use Rattle.fp_session.specs.Streams.{IsFromWithin};
ghost use Rattle.fp_session.specs.declared.replies.TheConstants.{LONG, MOST_WAITING};
ghost use Rattle.fp_session.specs.declared.fault.ApplyFault.TheVariants as run;
ghost use Rattle.fp_streams.specs.Failures.{CountsFailures};
ghost use Rattle.fp_streams.specs.declared.counted.StreamFault.TheVariants.{Device};

use crate::show::shown;
use crate::{ApplyFault, EditStore, Reply};
use fp_edit::{Edit, LineFault};
use fp_streams::{FailureCounted, StreamFault};
use std::alloc::{AllocError, Global};
use std::io::Write;

/// The most bytes of texts that stay unsent.
pub const LONG: usize = 65_536;

/// The most replies that wait until what they tell of is kept.
pub const MOST_WAITING: usize = 1_024;

// The room for a reply: most tell of a revision, or that the store failed.
const REPLY_ROOM: usize = 32;

/// What is answered, and isn't sent yet: the texts of replies, and behind them those that wait
/// until what they tell of is kept.
#[derive(Drop)]
pub struct Replies {
    text: Vec<u8>,
    waiting: Vec<Reply>,
    is_told: bool,
}

impl Replies {
    /// Nothing was asked yet.
    pub fn new(alloc: Global) -> Replies
        ensures text { result.text.items ≡ [] }
        ensures none { result.waiting.items ≡ [] }
        ensures told { result.is_told ≡ true }
    {
        Replies {
            text: Vec::new(alloc),
            waiting: Vec::new(alloc),
            is_told: true,
        }
    }

    /// Puts an edit to the flags, or what was asked in its place. What waits is kept first, where
    /// the edit can't wait together with it.
    pub fn ask<E: EditStore>(
        &mut self,
        alloc: Global,
        edits: &mut E,
        edit: Result<Edit, LineFault>,
    ) -> Result<(), ApplyFault>
        requires paid { E.owes edits.old → ⊥ }
        ensures asked { (first : E) (asked : List Ask) (sent : List ℕ) (x : Ask) → AsksFor edit x
            → IsAt E.EditStore first edits.old asked sent self.old → MatchResult result
            (λ _. IsAt E.EditStore first edits.new (asked ++ x ∷ []) sent self.new)
            (IsBroken E.EditStore (length self.old.waiting.items) first edits.new
            (asked ++ x ∷ []) sent self.new) }
        ensures one { OnOk result (length self.new.waiting.items
            ≤ length self.old.waiting.items + 1) }
        ensures bounded { OnOk result (length self.new.waiting.items ≤ MOST_WAITING) }
        ensures paid { OnOk result (E.owes edits.new → ⊥) }
        ensures fault { IfErr result IsFromWithin }
    {
        match edit {
            Ok(edit) => self.ask_edit(alloc, edits, edit),
            Err(fault) => self.refuse_line(alloc, edits, fault),
        }
    }

    // Answers a line that is no edit. What waits is kept first, where no reply more may wait.
    fn refuse_line<E: EditStore>(
        &mut self,
        alloc: Global,
        edits: &mut E,
        fault: LineFault,
    ) -> Result<(), ApplyFault>
        requires paid { E.owes edits.old → ⊥ }
        ensures asked { (first : E) (asked : List Ask) (sent : List ℕ) (x : Ask)
            → Tells fault (λ f. x ≡ Err f)
            → IsAt E.EditStore first edits.old asked sent self.old → MatchResult result
            (λ _. IsAt E.EditStore first edits.new (asked ++ x ∷ []) sent self.new)
            (IsBroken E.EditStore (length self.old.waiting.items) first edits.new
            (asked ++ x ∷ []) sent self.new) }
        ensures one { OnOk result (length self.new.waiting.items
            ≤ length self.old.waiting.items + 1) }
        ensures bounded { OnOk result (length self.new.waiting.items ≤ MOST_WAITING) }
        ensures paid { OnOk result (E.owes edits.new → ⊥) }
        ensures fault { IfErr result IsFromWithin }
    {
        self.make_place(alloc, edits, true)?;
        self.waiting.push(Reply::NoEdit(fault))?;
        Ok(())
    }

    // Puts an edit to the flags, once its reply has room.
    fn ask_edit<E: EditStore>(
        &mut self,
        alloc: Global,
        edits: &mut E,
        edit: Edit,
    ) -> Result<(), ApplyFault>
        requires paid { E.owes edits.old → ⊥ }
        ensures asked { (first : E) (asked : List Ask) (sent : List ℕ)
            → IsAt E.EditStore first edits.old asked sent self.old → MatchResult result
            (λ _. IsAt E.EditStore first edits.new
            (asked ++ Ok (proposal_of edit) ∷ []) sent self.new)
            (IsBroken E.EditStore (length self.old.waiting.items) first edits.new
            (asked ++ Ok (proposal_of edit) ∷ []) sent self.new) }
        ensures one { OnOk result (length self.new.waiting.items
            ≤ length self.old.waiting.items + 1) }
        ensures bounded { OnOk result (length self.new.waiting.items ≤ MOST_WAITING) }
        ensures paid { OnOk result (E.owes edits.new → ⊥) }
        ensures fault { IfErr result IsFromWithin }
    {
        let joins = edits.joins(&edit);
        self.make_place(alloc, edits, joins)?;
        self.waiting.reserve(1)?;
        let reply = submit(edits, edit);
        let Ok(()) = self.waiting.push(reply) else {
            unreachable!();
        };
        Ok(())
    }

    // Has what waits kept, where what comes can't wait together with it.
    fn make_place<E: EditStore>(
        &mut self,
        alloc: Global,
        edits: &mut E,
        joins: bool,
    ) -> Result<(), ApplyFault>
        requires paid { E.owes edits.old → ⊥ }
        ensures place { (c : Change) → (joins ≡ true → E.has_place edits.old c)
            → OnOk result (E.has_place edits.new c) }
        ensures room { OnOk result (length self.new.waiting.items < MOST_WAITING) }
        ensures no_more { OnOk result (length self.new.waiting.items
            ≤ length self.old.waiting.items) }
        ensures asked { (first : E) (asked : List Ask) (sent : List ℕ)
            → IsAt E.EditStore first edits.old asked sent self.old → MatchResult result
            (λ _. IsAt E.EditStore first edits.new asked sent self.new)
            (IsBroken E.EditStore (length self.old.waiting.items) first edits.new asked sent
            self.new) }
        ensures paid { OnOk result (E.owes edits.new → ⊥) }
        ensures fault { IfErr result IsFromWithin }
    {
        if joins && self.waiting.len() < MOST_WAITING {
            return Ok(());
        }
        self.seal(alloc, edits)?;
        Ok(())
    }

    /// Has what waits kept, and then tells of it. Where that fails, its replies tell no revision.
    /// What is done beside the edits goes on then by a step.
    ///
    /// What is told in either case is made before, so that no memory is wanting then.
    pub fn seal<E: EditStore>(&mut self, alloc: Global, edits: &mut E) -> Result<(), ApplyFault>
        requires paid { E.owes edits.old → ⊥ }
        ensures asked { (first : E) (asked : List Ask) (sent : List ℕ)
            → IsAt E.EditStore first edits.old asked sent self.old → MatchResult result
            (λ _. IsAt E.EditStore first edits.new asked sent self.new)
            (IsBroken E.EditStore (length self.old.waiting.items) first edits.new asked sent
            self.new) }
        ensures none { OnOk result (self.new.waiting.items ≡ []) }
        ensures place { OnOk result ((c : Change) → E.has_place edits.new c) }
        ensures paid { OnOk result (E.owes edits.new → ⊥) }
        ensures fault { IfErr result IsFromWithin }
    {
        let kept = self.telling(alloc, true)?;
        let failed = self.telling(alloc, false)?;
        self.text.reserve(kept.text.len().max(failed.text.len()))?;
        match edits.commit() {
            Ok(()) => self.tell(kept),
            Err(fault) => {
                self.tell(failed);
                return Err(fault.into());
            }
        }
        go_on(edits)?;
        Ok(())
    }

    /// Has what waits kept, ends what is done beside it, and shows the flags behind all replies.
    pub fn end<E: EditStore>(&mut self, alloc: Global, edits: &mut E) -> Result<(), ApplyFault>
        requires paid { E.owes edits.old → ⊥ }
        ensures ended { (first : E) (asked : List Ask) (sent : List ℕ)
            → IsAt E.EditStore first edits.old asked sent self.old → MatchResult result
            (λ _. IsEnded E.EditStore first edits.new asked sent self.new)
            (IsBroken E.EditStore (length self.old.waiting.items) first edits.new asked sent
            self.new) }
        ensures fault { IfErr result IsFromWithin }
    {
        self.seal(alloc, edits)?;
        rest(edits)?;
        let line = shown(alloc, edits.flags())?;
        self.text.extend_from_slice(&line)?;
        Ok(())
    }

    /// Whether no reply so far told of wanting memory.
    pub fn is_told(&self) -> bool
        ensures { result ≡ self.now.is_told }
    {
        self.is_told
    }

    /// Whether so much waits to be sent that it is better sent.
    pub fn is_long(&self) -> bool
        ensures { result ≡ nat_lt LONG (length self.now.text.items) }
    {
        self.text.len() > LONG
    }

    /// Whether nothing waits to be sent.
    pub fn is_sent(&self) -> bool
        ensures { IsTrue result ↔ (self.now.text.items ≡ []) }
    {
        self.text.is_empty()
    }

    /// Sends the texts, where there are any.
    pub fn send<W: Write>(&mut self, w: &mut FailureCounted<W>) -> Result<(), StreamFault>
        ensures sent { OnOk result
            (Appends (W.contents w.old.inner) (W.contents w.new.inner) self.old.text.items) }
        ensures none { OnOk result (self.new.text.items ≡ []) }
        ensures waiting { self.new.waiting ≡ self.old.waiting }
        ensures told { self.new.is_told ≡ self.old.is_told }
        ensures fault { IfErr result (λ f. f ≡ Device) }
        ensures counted { CountsFailures w.old.failures w.new.failures result }
    {
        if self.is_sent() {
            return Ok(());
        }
        w.send(&self.text)?;
        self.text.clear();
        Ok(())
    }

    // What the replies that wait tell, by whether what they tell of is kept.
    fn telling(&self, alloc: Global, is_kept: bool) -> Result<Telling, AllocError>
        ensures told { IfOk result (λ t. IsToldUpTo is_kept self.now.waiting.items t
            (length self.now.waiting.items)) }
    {
        let room = self.waiting.len().saturating_mul(REPLY_ROOM);
        let mut telling = Telling::with_room(alloc, room)?;
        let mut i = 0;
        while i < self.waiting.len() {
            let failed = Reply::StoreFailed;
            telling.add(as_told(&self.waiting[i], is_kept, &failed))?;
            i += 1;
        }
        Ok(telling)
    }

    // Tells what waits, in the room that there is for it.
    fn tell(&mut self, telling: Telling)
        requires room { vec_len self.old.text + length telling.text.items
            ≤ vec_capacity self.old.text }
        ensures text { self.new.text.items ≡ self.old.text.items ++ telling.text.items }
        ensures told { self.new.is_told ≡ (self.old.is_told && telling.is_told) }
        ensures none { self.new.waiting.items ≡ [] }
    {
        let Ok(()) = self.text.extend_from_slice(&telling.text) else {
            unreachable!();
        };
        self.is_told = self.is_told && telling.is_told;
        self.waiting.clear();
    }
}

// Replies that are told: their texts, and whether each tells what became of what it answers.
#[derive(Drop)]
struct Telling {
    text: Vec<u8>,
    is_told: bool,
}

impl Telling {
    // No reply yet, and room for so many bytes.
    fn with_room(alloc: Global, room: usize) -> Result<Telling, AllocError>
        ensures text { IfOk result (λ t. t.text.items ≡ []) }
        ensures told { IfOk result (λ t. t.is_told ≡ true) }
    {
        Ok(Telling {
            text: Vec::with_capacity(alloc, room)?,
            is_told: true,
        })
    }

    // Puts a reply on a line of its own behind the others.
    fn add(&mut self, reply: &Reply) -> Result<(), AllocError>
        ensures text { OnOk result
            (self.new.text.items ≡ self.old.text.items ++ texts_of (reply_of_code reply.now ∷ [])) }
        ensures told { OnOk result
            (self.new.is_told ≡ (self.old.is_told && is_told (reply_of_code reply.now))) }
    {
        reply.put_text(&mut self.text)?;
        self.text.push(b'\n')?;
        self.is_told = self.is_told && !reply.is_out_of_memory();
        Ok(())
    }
}

// How a reply is told: as it is, but of what isn't kept no revision.
fn as_told<'r>(reply: &'r Reply, is_kept: bool, failed: &'r Reply) -> &'r Reply
    requires { reply_of_code failed.now ≡ store_failed }
    ensures { reply_of_code result.now ≡ told_if is_kept (reply_of_code reply.now) }
{
    if is_kept || !reply.tells_revision() {
        reply
    } else {
        failed
    }
}

// Puts an edit to the flags, which have place for it.
fn submit<E: EditStore>(edits: &mut E, edit: Edit) -> Reply
    requires place { E.has_place edits.old (change_of edit) }
    ensures taken { Takes E.EditStore edits.old (Ok (proposal_of edit)) (reply_of_code result)
        edits.new }
    ensures owes { E.owes edits.new ↔ E.owes edits.old }
{
    match edits.submit(edit) {
        Ok(revision) => Reply::Revision(revision),
        Err(fault) => Reply::Refused(fault),
    }
}

/// Goes on with what is done beside the edits, where none waits.
pub fn go_on<E: EditStore>(edits: &mut E) -> Result<(), ApplyFault>
    ensures at { (first : E) (asked : List Ask) (sent : List ℕ) (r : Replies) (most : ℕ)
        → r.waiting.items ≡ [] → IsAt E.EditStore first edits.old asked sent r
        → MatchResult result (λ _. IsAt E.EditStore first edits.new asked sent r)
        (IsBroken E.EditStore most first edits.new asked sent r) }
    ensures place { OnOk result ((c : Change) → E.has_place edits.old c → E.has_place edits.new c) }
    ensures step { OnOk result (E.owes edits.old → E.steps edits.old edits.new) }
    ensures paid { OnOk result (E.owes edits.new → ⊥) }
    ensures fault { IfErr result IsFromWithin }
{
    edits.go_on()?;
    Ok(())
}

// Ends what is done beside the edits, where none waits.
fn rest<E: EditStore>(edits: &mut E) -> Result<(), ApplyFault>
    ensures at { (first : E) (asked : List Ask) (sent : List ℕ) (r : Replies) (most : ℕ)
        → r.waiting.items ≡ [] → IsAt E.EditStore first edits.old asked sent r
        → MatchResult result (λ _. IsAt E.EditStore first edits.new asked sent r)
        (IsBroken E.EditStore most first edits.new asked sent r) }
    ensures rests { OnOk result (E.rests edits.new) }
    ensures fault { IfErr result IsFromWithin }
{
    edits.rest()?;
    Ok(())
}

/// Sends the replies behind which a fault ended a run.
pub fn give_up<W: Write>(
    w: &mut FailureCounted<W>,
    replies: &mut Replies,
    fault: ApplyFault,
) -> ApplyFault
    ensures same { result ≡ fault }
    ensures sent { w.new.failures ≡ w.old.failures → Appends (W.contents w.old.inner)
        (W.contents w.new.inner) replies.old.text.items }
    ensures counted { w.old.failures ≤ w.new.failures }
{
    let _ = replies.send(w);
    fault
}

/// Sends the replies behind which a run ended, and tells how it ended.
pub fn conclude<W: Write>(
    w: &mut FailureCounted<W>,
    replies: &mut Replies,
    ended: Result<(), ApplyFault>,
) -> Result<bool, ApplyFault>
    ensures sent { w.new.failures ≡ w.old.failures → Appends (W.contents w.old.inner)
        (W.contents w.new.inner) replies.old.text.items }
    ensures fault { IfErr ended (λ f. (result ≡ Err f) × (w.old.failures ≤ w.new.failures)) }
    ensures outcome { OnOk ended (MatchResult result
        (λ told. (told ≡ replies.old.is_told) × (w.new.failures ≡ w.old.failures))
        (λ f. (f ≡ run.Device) × (w.old.failures < w.new.failures))) }
{
    match ended {
        Ok(()) => {
            replies.send(w)?;
            Ok(replies.is_told())
        }
        Err(fault) => Err(give_up(w, replies, fault)),
    }
}
