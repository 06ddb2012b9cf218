//! A committer's events, one at a time and in courses.

use crate::text::edit_of;
use crate::trial::{Answer, Fault, Held, Trial};
use crate::world::open;
use fp_committer::{Committer, Event};
use fp_desk::SubmitFault;
use fp_disk::MemoryDisk;
use fp_edit::{Edit, EditFault};
use fp_group_commit::StoreFault;
use fp_ofrep::Reply as Evaluation;
use fp_slots::Step;
use fp_transcript::{Args, Text};
use fp_world::Answer as Reply;

/// `draw`, `stage`, `sync-body`, `open-gate`, `sync-gate`, `settle`, `compact`, `ack REVISION`.
pub fn on_events(trial: &mut Trial, word: &str, args: &mut Args<'_>) -> Answer {
    let event = event_of(word, args);
    answer_to(trial, &event)
}

/// The event of such a word.
pub fn event_of(word: &str, args: &mut Args<'_>) -> Event {
    match word {
        "draw" => Event::Draw,
        "stage" => Event::Stage,
        "sync-body" => Event::SyncBody,
        "open-gate" => Event::OpenGate,
        "sync-gate" => Event::SyncGate,
        "settle" => Event::Settle,
        "compact" => Event::Compact,
        _ => Event::Ack(args.number()),
    }
}

/// `submit EDIT`, `submits COUNT EDIT`, `edit EDIT`, `with EDIT`, `batch CALLS`.
pub fn on_edits(trial: &mut Trial, word: &str, args: &mut Args<'_>) -> Answer {
    match word {
        "submit" => submit(trial, 1, args),
        "submits" => submit(trial, args.number(), args),
        "edit" => admit(trial, args),
        "with" => wait_with(trial, args),
        _ => batch(trial, args.number()),
    }
}

fn wait_with(trial: &mut Trial, args: &mut Args<'_>) -> Answer {
    let Some(edit) = edit_of(args) else {
        return Answer::NotUnderstood;
    };
    match trial.edits.push_back(edit) {
        Ok(()) => Answer::Done,
        Err(_) => Answer::NoMemory,
    }
}

/// What an event is answered.
#[derive(Clone, Copy)]
pub enum Became {
    Fault(StoreFault),
    Ticket(u64),
    Acked(u64),
    // It isn't its turn.
    NotNow,
    Waiting,
    // What is told of any other.
    Told(Answer),
}

/// What this answer is. Its text, if it has one, is put behind this one.
pub fn became_of(reply: &Reply, out: &mut Text) -> Became {
    match reply {
        Reply::Memory => Became::Told(Answer::NoMemory),
        Reply::NotNow => Became::NotNow,
        Reply::Refused(fault) => Became::Told(refused(*fault)),
        Reply::Fault(StoreFault::Memory) => Became::Told(Answer::NoMemory),
        Reply::Fault(fault) => Became::Fault(*fault),
        Reply::Ticket(revision) => Became::Ticket(*revision),
        Reply::Drawn(count) => Became::Told(Answer::Named("drawn", *count as u64)),
        Reply::Done => Became::Told(Answer::Word("done")),
        Reply::Sealed(revision) => Became::Told(Answer::Named("sealed", *revision)),
        Reply::Settled(revision) => Became::Told(Answer::Named("settled", *revision)),
        Reply::Acked(revision) => Became::Acked(*revision),
        Reply::Waiting => Became::Waiting,
        Reply::Phase(next) => Became::Told(Answer::Word(next_step(*next))),
        reply => Became::Told(shown_of(reply, out)),
    }
}

/// The step of a compaction that is the next one.
pub fn next_step(step: Step) -> &'static str {
    match step {
        Step::Begin => "next begin",
        Step::Close => "next close",
        Step::SyncClose => "next sync-close",
        Step::Part => "next part",
        Step::Tail => "next tail",
        Step::SyncBody => "next sync-body",
        Step::Open => "next open",
        Step::SyncOpen => "next sync-open",
    }
}

// What a subscriber or an evaluator is answered, and the publisher.
fn shown_of(reply: &Reply, out: &mut Text) -> Answer {
    match reply {
        Reply::Published(revision) => Answer::Named("published", *revision),
        Reply::Nothing => Answer::Word("nothing"),
        Reply::Handed(handed) => {
            out.named("handed", handed.revision());
            out.push(" ");
            out.bytes(handed.document());
            Answer::Text
        }
        Reply::Reply(revision, reply) => {
            out.named("reply", *revision);
            out.push(": ");
            say_reply(reply, out)
        }
        _ => Answer::NotUnderstood,
    }
}

// The status, the revision and the body.
fn say_reply(reply: &Evaluation, out: &mut Text) -> Answer {
    out.number(u64::from(reply.status.as_u16()));
    out.push(" ");
    if let Some(revision) = reply.headers.flag_revision {
        out.named("at", revision);
        out.push(" ");
    }
    out.bytes(&reply.body);
    Answer::Text
}

fn stepped(world: &mut Committer<MemoryDisk>, event: &Event, out: &mut Text) -> Became {
    let reply = world.step(event).into();
    became_of(&reply, out)
}

// What the event is answered. One for which memory was wanting is asked once more.
fn asked(world: &mut Committer<MemoryDisk>, event: &Event, out: &mut Text) -> Became {
    match stepped(world, event, out) {
        Became::Told(Answer::NoMemory) => stepped(world, event, out),
        became => became,
    }
}

fn happens(trial: &mut Trial, event: &Event) -> Became {
    let became = match &mut trial.held {
        Held::Open(open) => asked(&mut open.world, event, &mut trial.text),
        Held::Closed(_) => Became::Told(Answer::NotUnderstood),
    };
    if let Became::Acked(revision) = became {
        trial.tell(revision);
    }
    became
}

fn answer_to(trial: &mut Trial, event: &Event) -> Answer {
    let became = happens(trial, event);
    answer_of(trial, became)
}

/// What is told of it.
pub fn answer_of(trial: &Trial, became: Became) -> Answer {
    match became {
        Became::Fault(fault) => not_done(trial, fault),
        Became::Ticket(revision) => Answer::Named("ticket", revision),
        Became::Acked(revision) => Answer::Named("acked", revision),
        Became::NotNow => Answer::Word("not now"),
        Became::Waiting => Answer::Word("waiting"),
        Became::Told(answer) => answer,
    }
}

/// Why a desk didn't take an edit.
pub fn refused(fault: SubmitFault) -> Answer {
    match fault {
        SubmitFault::Stopped => Answer::Word("stopped"),
        SubmitFault::Edit(EditFault::Memory) => Answer::NoMemory,
        SubmitFault::Edit(fault) => Answer::Refused(fault),
        SubmitFault::QueueFull => Answer::Word("queue full"),
        SubmitFault::Memory => Answer::NoMemory,
    }
}

/// Why a store didn't make a call.
pub fn not_done(trial: &Trial, fault: StoreFault) -> Answer {
    match fault {
        StoreFault::Device => trial.fault(Fault::Device),
        StoreFault::Failed => Answer::Fault(Fault::StoreFailed),
        StoreFault::Memory => Answer::NoMemory,
        StoreFault::Stranger => Answer::Word("stranger"),
    }
}

// Submits an edit so many times, and answers the last time.
fn submit(trial: &mut Trial, count: u64, args: &mut Args<'_>) -> Answer {
    match edit_of(args) {
        Some(edit) => submit_often(trial, count, &Event::Submit(edit)),
        None => Answer::NotUnderstood,
    }
}

fn submit_often(trial: &mut Trial, count: u64, event: &Event) -> Answer {
    let mut last = Answer::Done;
    for _ in 0..count {
        last = answer_to(trial, event);
    }
    last
}

// The course of an edit from its draw on.
fn event_at(place: u64, revision: u64) -> Event {
    match place {
        0 => Event::Draw,
        1 => Event::Stage,
        2 => Event::SyncBody,
        3 => Event::OpenGate,
        4 => Event::SyncGate,
        5 => Event::Settle,
        _ => Event::Ack(revision),
    }
}

fn happens_at(trial: &mut Trial, place: u64, revision: u64) -> Became {
    let event = event_at(place, revision);
    happens(trial, &event)
}

// Takes what waits so many events far, the last of which tells its editor.
fn course(trial: &mut Trial, revision: u64, events: u64) -> Answer {
    for place in 0..events {
        let became = happens_at(trial, place, revision);
        let answer = ended(trial, became, place);
        if !matches!(answer, Answer::Done) {
            return answer;
        }
    }
    Answer::Word(how_far(events))
}

// What ends a course at this event, if it does. A draw that was made before is the one to stage.
// Who waits for the edit is told that the store failed, in that call or before.
fn ended(trial: &Trial, became: Became, place: u64) -> Answer {
    match became {
        Became::NotNow if place > 0 => Answer::Word("no room"),
        Became::Fault(StoreFault::Device) if !trial.is_failing => Answer::NoMemory,
        Became::Fault(_) => Answer::Fault(Fault::StoreFailed),
        Became::Acked(revision) => Answer::Revision(revision),
        Became::Waiting => Answer::Word("waiting"),
        Became::Told(Answer::NoMemory) => Answer::NoMemory,
        _ => Answer::Done,
    }
}

fn how_far(events: u64) -> &'static str {
    match events {
        2 => "staged",
        3 => "body synced",
        _ => "gate opened",
    }
}

// An edit's whole course, up to where its editor is told.
const WHOLE: u64 = 7;

fn admit(trial: &mut Trial, args: &mut Args<'_>) -> Answer {
    match edit_of(args) {
        Some(edit) => admit_edit(trial, edit, WHOLE),
        None => Answer::NotUnderstood,
    }
}

fn admit_edit(trial: &mut Trial, edit: Edit, events: u64) -> Answer {
    match happens(trial, &Event::Submit(edit)) {
        Became::Ticket(revision) => course(trial, revision, events),
        became => answer_of(trial, became),
    }
}

// The edits that wait, submitted to the disk as it is opened now and drawn as one batch, of whose
// four calls so many are made.
fn batch(trial: &mut Trial, calls: u64) -> Answer {
    match open(trial) {
        Answer::Revision(_) => batch_on(trial, calls),
        answer => {
            trial.edits.clear();
            answer
        }
    }
}

fn batch_on(trial: &mut Trial, calls: u64) -> Answer {
    match submit_waiting(trial) {
        Became::Ticket(revision) => course(trial, revision, events_of(calls)),
        became => answer_of(trial, became),
    }
}

fn events_of(calls: u64) -> u64 {
    if calls < 4 { calls + 1 } else { WHOLE }
}

// Submits the edits that wait, up to one that is refused, and says what the last one is answered.
fn submit_waiting(trial: &mut Trial) -> Became {
    let mut last = Became::Ticket(0);
    for _ in 0..trial.edits.len() {
        let Some(edit) = trial.edits.pop_front() else {
            return last;
        };
        last = happens(trial, &Event::Submit(edit));
        if !matches!(last, Became::Ticket(_)) {
            trial.edits.clear();
        }
    }
    last
}
