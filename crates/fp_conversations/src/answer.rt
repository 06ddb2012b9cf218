//! What an editor is answered.

ghost use Rattle.std.specs.Prelude.{◌≡◌, ◌++◌, ◌∷◌, [], true, IfOk, IfErr, OnOk};
ghost use Rattle.fp_streams.specs.Failures.{CountsFailures};
ghost use Rattle.fp_streams.specs.Said.{AppendsLine};
ghost use Rattle.fp_streams.specs.declared.counted.StreamFault.TheVariants.{Device};
ghost use Rattle.fp_edit.specs.Edits.{proposal_of};
ghost use Rattle.fp_session.specs.Reply as flags;
ghost use Rattle.fp_session.specs.Reply.{reply_of_code};
ghost use Rattle.fp_conversations.specs.Answers as answers;
ghost use Rattle.fp_conversations.specs.Answers.{IsSaid, only_refuses, answer_of_code, answer_to_refusal};
ghost use Rattle.fp_conversations.specs.Outcomes.{ComesTo, IsOutcomeOf, IsToldBy, IsToldOf};
ghost use Rattle.fp_conversations.specs.Outcomes.{answer_to_line, answer_to_outcome};
ghost use Rattle.fp_conversations.specs.Outcomes.{said_by, said_of, told_of};

use fp_desk::{SubmitFault, Ticket};
use fp_disk::Disk;
use fp_edit::{Edit, EditFault, LineFault};
use fp_group_commit::Told;
use fp_plane::{Editing, GivenUp, Naming, Refusal};
use fp_session::Reply;
use fp_streams::{FailureCounted, StreamFault};
use log::Log;
use std::alloc::{AllocError, Global};
use std::fmt;
use std::io::Write;
use std::sync::Wait;
use std::time::Clock;

// The room that the line of a refusal usually needs.
const USUAL_ROOM: usize = 64;

/// What a line of an editor came to. Its answer is made of this, and of nothing else.
#[derive(Drop)]
pub enum Answered {
    /// It is an edit, and this became of it.
    Edit(Outcome),
    /// It is no edit: the reply that says why.
    NoEdit(Reply),
}

impl Answered {
    /// What was told of it.
    pub fn into_told(self) -> Option<Told>
        ensures { result ≡ told_of self }
    {
        match self {
            Answered::Edit(Outcome::Kept(_, told)) => Some(told),
            _ => None,
        }
    }
}

/// What became of an edit: it is kept, wasn't taken, or isn't known to be kept. Each is of that
/// edit, by what alone could tell it: its ticket, or what a hall makes of its refusal or of its
/// ticket.
#[derive(Drop)]
pub enum Outcome {
    /// By its ticket, and what was told.
    Kept(Ticket, Told),
    /// By the refusal that a hall made of it.
    Refused(Refusal),
    /// By its ticket, which a hall gave up.
    Unknown(GivenUp),
}

// The answer to an edit.
#[derive(Debug, Drop)]
enum Answer {
    // What the flags say to it, or that it isn't known to be kept.
    Flags(Reply),
    // Too many edits aren't settled yet.
    QueueFull,
    // No edit is taken any more.
    Stopped,
}

/// Answers what a line asks, and gives what it came to: the answer is made of that alone.
pub fn answer_line<K, D, R, O>(
    editing: &mut Editing<'_, K, D, R>,
    alloc: Global,
    asked: Result<Edit, LineFault>,
    w: &mut FailureCounted<O>,
) -> (Answered, Result<(), StreamFault>)
where
    K: Naming,
    D: Disk + Drop,
    R: Wait + Clock + Log + Drop,
    O: Write,
    // Of an edit, what became of that edit; of a line that is no edit, why.
    ensures own { ComesTo asked result.0 }
    // What was told is of the plane's store, and has its ticket's revision, which its edit made.
    ensures ours { IsToldOf K.store result.0 }
    // What the hall said of it is all that was said to the editor.
    ensures said { editing.new ≡ editing.old ++ said_of result.0 }
    // `Ok`: the answer to it was written.
    ensures sent { OnOk result.1 (IsSaid (answer_to_line result.0)
        (O.contents w.old.inner) (O.contents w.new.inner)) }
    ensures fault { IfErr result.1 (λ f. f ≡ Device) }
    ensures counted { CountsFailures w.old.failures w.new.failures result.1 }
{
    let answered = answer_to(editing, asked);
    let sent = send_answered(alloc, w, &answered);
    (answered, sent)
}

// What a line that asks this comes to.
fn answer_to<K, D, R>(
    editing: &mut Editing<'_, K, D, R>,
    asked: Result<Edit, LineFault>,
) -> Answered
where
    K: Naming,
    D: Disk + Drop,
    R: Wait + Clock + Log + Drop,
    ensures own { ComesTo asked result }
    ensures ours { IsToldOf K.store result }
    ensures said { editing.new ≡ editing.old ++ said_of result }
{
    match asked {
        Ok(edit) => Answered::Edit(outcome_of(editing, edit)),
        Err(fault) => Answered::NoEdit(Reply::NoEdit(fault)),
    }
}

// Waits for what becomes of an edit.
fn outcome_of<K, D, R>(editing: &mut Editing<'_, K, D, R>, edit: Edit) -> Outcome
where
    K: Naming,
    D: Disk + Drop,
    R: Wait + Clock + Log + Drop,
    // What became of the edit is of that edit: kept, by its ticket; not taken, by the refusal
    // that a hall made of it; or not known to be kept, by its ticket, which a hall gave up.
    ensures own { IsOutcomeOf (proposal_of edit) result }
    // Where it is kept, what is told is of the plane's store and has its ticket's revision, which
    // its edit made.
    ensures ours { IsToldBy K.store result }
    // It is what the hall said to the editor.
    ensures said { editing.new ≡ editing.old ++ said_by result }
{
    let ticket = match editing.submit(edit) {
        Ok(ticket) => ticket,
        Err((refusal, _)) => return Outcome::Refused(refusal),
    };
    match editing.wait(ticket) {
        Ok((ticket, told, _)) => Outcome::Kept(ticket, told),
        Err(given_up) => Outcome::Unknown(given_up),
    }
}

// Sends the answer to a line that came to this.
fn send_answered<O: Write>(
    alloc: Global,
    w: &mut FailureCounted<O>,
    answered: &Answered,
) -> Result<(), StreamFault>
    ensures sent { OnOk result (IsSaid (answer_to_line answered.now)
        (O.contents w.old.inner) (O.contents w.new.inner)) }
    ensures fault { IfErr result (λ f. f ≡ Device) }
    ensures counted { CountsFailures w.old.failures w.new.failures result }
{
    match answered {
        Answered::Edit(outcome) => send_answer(alloc, w, &answer_of(outcome)),
        Answered::NoEdit(reply) => send_reply(alloc, w, reply),
    }
}

// The answer to an edit of which this became.
fn answer_of(outcome: &Outcome) -> Answer
    // Its ticket's revision, why it was refused, or `store-failed`.
    ensures { answer_of_code result ≡ answer_to_outcome outcome.now }
{
    match outcome {
        Outcome::Kept(ticket, _) => Answer::Flags(Reply::Revision(ticket.revision())),
        Outcome::Refused(refusal) => answer_to_refused(refusal.fault()),
        Outcome::Unknown(_) => Answer::Flags(Reply::StoreFailed),
    }
}

// The answer to an edit that wasn't taken: why.
fn answer_to_refused(fault: SubmitFault) -> Answer
    ensures { answer_of_code result ≡ answer_to_refusal fault }
{
    match fault {
        SubmitFault::Stopped => Answer::Stopped,
        SubmitFault::QueueFull => Answer::QueueFull,
        SubmitFault::Edit(fault) => Answer::Flags(Reply::Refused(fault)),
        SubmitFault::Memory => Answer::Flags(Reply::Refused(EditFault::Memory)),
    }
}

// The line of a revision. To tell it takes no memory.
#[derive(Drop)]
struct RevisionLine(u64);

impl fmt::Display for RevisionLine {
    ghost use Rattle.std.specs.Prelude.{Some};

    ghost output = { λ r. Some (flags.reply_text (flags.revision r.0)) };

    fn fmt<W: fmt::Write>(&self, f: &mut fmt::Formatter<W>) -> fmt::Result {
        write!(f, "{{\"revision\":{}}}", self.0)
    }
}

// The text of a reply on a line of its own.
fn line_of(alloc: Global, reply: &Reply) -> Result<Vec<u8>, AllocError>
    ensures { IfOk result
        (λ line. line.items ≡ flags.reply_text (reply_of_code reply.now) ++ 10 ∷ []) }
{
    let mut line = Vec::with_capacity(alloc, USUAL_ROOM)?;
    reply.put_text(&mut line)?;
    line.push(b'\n')?;
    Ok(line)
}

// Sends a text on a line of its own. It takes no memory.
fn send_text<O: Write>(w: &mut FailureCounted<O>, text: &str) -> Result<(), StreamFault>
    ensures sent { OnOk result
        (AppendsLine (O.contents w.old.inner) (O.contents w.new.inner) text.now) }
    ensures fault { IfErr result (λ f. f ≡ Device) }
    ensures counted { CountsFailures w.old.failures w.new.failures result }
{
    w.say(&text)
}

// Sends what only refuses, or that memory is wanting for it.
fn send_refusal<O: Write>(
    alloc: Global,
    w: &mut FailureCounted<O>,
    reply: &Reply,
) -> Result<(), StreamFault>
    requires { only_refuses (reply_of_code reply.now) ≡ true }
    ensures sent { OnOk result (IsSaid (answers.reply (reply_of_code reply.now))
        (O.contents w.old.inner) (O.contents w.new.inner)) }
    ensures fault { IfErr result (λ f. f ≡ Device) }
    ensures counted { CountsFailures w.old.failures w.new.failures result }
{
    match line_of(alloc, reply) {
        Ok(line) => w.send(&line),
        Err(_) => send_text(w, "{\"error\":\"out-of-memory\"}"),
    }
}

// Sends what the flags say. What tells of an edit that was taken takes no memory.
fn send_reply<O: Write>(
    alloc: Global,
    w: &mut FailureCounted<O>,
    reply: &Reply,
) -> Result<(), StreamFault>
    ensures sent { OnOk result (IsSaid (answers.reply (reply_of_code reply.now))
        (O.contents w.old.inner) (O.contents w.new.inner)) }
    ensures fault { IfErr result (λ f. f ≡ Device) }
    ensures counted { CountsFailures w.old.failures w.new.failures result }
{
    match reply {
        Reply::Revision(revision) => w.say(&RevisionLine(*revision)),
        Reply::StoreFailed => send_text(w, "{\"error\":\"store-failed\"}"),
        Reply::Refused(_) => send_refusal(alloc, w, reply),
        Reply::NoEdit(_) => send_refusal(alloc, w, reply),
    }
}

// Sends an answer on a line of its own.
fn send_answer<O: Write>(
    alloc: Global,
    w: &mut FailureCounted<O>,
    answer: &Answer,
) -> Result<(), StreamFault>
    ensures sent { OnOk result (IsSaid (answer_of_code answer.now)
        (O.contents w.old.inner) (O.contents w.new.inner)) }
    ensures fault { IfErr result (λ f. f ≡ Device) }
    ensures counted { CountsFailures w.old.failures w.new.failures result }
{
    match answer {
        Answer::Flags(reply) => send_reply(alloc, w, reply),
        Answer::QueueFull => send_text(w, "{\"error\":\"queue-full\"}"),
        Answer::Stopped => send_text(w, "{\"error\":\"stopped\"}"),
    }
}
