//! A whole world on the disk in memory: editors, a flusher, evaluators and
//! subscribers, one event at a time.

ghost use Rattle.std.specs.Prelude.{◌≤◌, length};
ghost use Rattle.fp_publish.specs.declared.board.TheConstants.{MOST_EVALUATORS};
ghost use Rattle.fp_publish.specs.declared.seats.TheConstants.{MOST_SEATS};

use crate::event::{Became, answer_of, became_of, event_of};
use crate::run::ON_EVENTS;
use crate::text::edit_of;
use crate::trial::{Answer, Fault, Trial};
use crate::world::found;
use fp_committer::Event as Commit;
use fp_disk::MemoryDisk;
use fp_publish::{MOST_EVALUATORS, MOST_SEATS};
use fp_stream::Hello;
use fp_transcript::{Args, Text};
use fp_world::{Event, Moment, Request, World};
use http::Method;
use std::alloc::Global;
use std::sync::Wait;

/// A store, its desk, a board over it, evaluators and seats.
pub type Whole = World<MemoryDisk>;

// The words that open and end one.
const OF_WORLD: [&str; 3] = ["world", "end-world", "reopen"];

// The words of events that aren't the committer's.
const ON_VIEWS: [&str; 4] = ["submit", "publish", "hand", "evaluate"];

/// Whether such a word is for a world that is open, or opens one.
pub fn is_of_world(word: &str, world: &Option<Whole>) -> bool {
    OF_WORLD.contains(&word)
        || world.is_some() && (ON_EVENTS.contains(&word) || ON_VIEWS.contains(&word))
}

/// `world READERS HELLO ..`, `end-world`, `reopen`, and each event of the one that is open.
pub fn on_whole<R: Wait>(
    rt: &R,
    trial: &mut Trial,
    world: &mut Option<Whole>,
    word: &str,
    args: &mut Args<'_>,
) -> Answer {
    match world.take() {
        Some(open) => on_open(rt, trial, world, open, word, args),
        None if word == "world" => begin(rt, trial, world, args),
        None => Answer::NotUnderstood,
    }
}

fn on_open<R: Wait>(
    rt: &R,
    trial: &mut Trial,
    world: &mut Option<Whole>,
    open: Whole,
    word: &str,
    args: &mut Args<'_>,
) -> Answer {
    let mut open = open;
    if word == "end-world" {
        trial.put_disk(open.into_disk(rt));
        return Answer::Done;
    }
    if word == "reopen" {
        return reopened(rt, trial, open);
    }
    let answer = match asked(trial, word, args) {
        Some(event) => answered(rt, trial, &mut open, &event),
        None => Answer::NotUnderstood,
    };
    put_world(rt, world, open);
    answer
}

// Ends a world by opening its disk again, and tells the revision that it then has.
fn reopened<R: Wait>(rt: &R, trial: &mut Trial, open: Whole) -> Answer {
    match open.reopen(rt, trial.alloc) {
        Ok((store, _opening)) => {
            let revision = store.revision();
            trial.put_disk(store.into_disk());
            Answer::Revision(revision)
        }
        Err((fault, disk)) => {
            trial.put_disk(disk);
            trial.fault(fault.into())
        }
    }
}

fn put_world<R: Wait>(rt: &R, world: &mut Option<Whole>, open: Whole) {
    if let Some(before) = world.replace(open) {
        let _disk = before.into_disk(rt);
    }
}

// The disk is lent to a world until `end-world` or `reopen`.
fn begin<R: Wait>(
    rt: &R,
    trial: &mut Trial,
    world: &mut Option<Whole>,
    args: &mut Args<'_>,
) -> Answer {
    let readers = args.number() as usize;
    let hellos = hellos(args);
    if args.is_bad || readers > MOST_EVALUATORS || hellos.len() > MOST_SEATS {
        return Answer::NotUnderstood;
    }
    let disk = trial.take_disk();
    match made(rt, trial.alloc, disk, &hellos, readers) {
        Ok(open) => {
            put_world(rt, world, open);
            Answer::Done
        }
        Err((fault, disk)) => {
            trial.put_disk(disk);
            trial.fault(fault)
        }
    }
}

fn hellos(args: &mut Args<'_>) -> Vec<Hello> {
    let mut hellos = Vec::new(args.alloc);
    for word in args.rest.split_whitespace() {
        let hello = hello_of(word, args);
        if hellos.push(hello).is_err() {
            args.is_short = true;
        }
    }
    hellos
}

fn hello_of(word: &str, args: &mut Args<'_>) -> Hello {
    if word == "nothing" {
        Hello::Nothing
    } else {
        Hello::Has(args.number_of(word))
    }
}

/// A world over what the disk stands for, with a seat for each subscriber and so many
/// evaluators; or the disk comes back.
pub fn made<R: Wait>(
    rt: &R,
    alloc: Global,
    disk: MemoryDisk,
    hellos: &[Hello],
    readers: usize,
) -> Result<Whole, (Fault, MemoryDisk)>
    requires seats { length hellos.now ≤ MOST_SEATS }
    requires readers { readers ≤ MOST_EVALUATORS }
{
    let (store, opening) = found(alloc, disk)?;
    match World::new(rt, alloc, store, opening, hellos, readers) {
        Ok(world) => Ok(world),
        Err((_, store, _)) => Err((Fault::Memory, store.into_disk())),
    }
}

/// What a line asks of a world.
pub fn asked(trial: &mut Trial, word: &str, args: &mut Args<'_>) -> Option<Event> {
    match word {
        "submit" => edit_of(args).map(Event::Submit),
        "publish" => Some(Event::Publish),
        "hand" => Some(Event::Hand(args.number() as usize)),
        "evaluate" => evaluation(trial, args),
        // There is a world already.
        "world" => None,
        word => Some(of_committer(event_of(word, args))),
    }
}

// An event of a committer, as a world has it.
fn of_committer(event: Commit) -> Event {
    match event {
        Commit::Submit(edit) => Event::Submit(edit),
        Commit::Draw => Event::Draw,
        Commit::Stage => Event::Stage,
        Commit::SyncBody => Event::SyncBody,
        Commit::OpenGate => Event::OpenGate,
        Commit::SyncGate => Event::SyncGate,
        Commit::Settle => Event::Settle,
        Commit::Ack(revision) => Event::Ack(revision),
        Commit::Compact => Event::Compact,
    }
}

// `evaluate READER TARGET`: a POST, whose body are the lines that wait, at the first moment.
fn evaluation(trial: &mut Trial, args: &mut Args<'_>) -> Option<Event> {
    let reader = args.number() as usize;
    let body = trial.take_input();
    posted(args, reader, args.rest, body)
}

/// An evaluator is asked by a POST to this target.
pub fn posted(args: &mut Args<'_>, reader: usize, target: &str, body: Vec<u8>) -> Option<Event> {
    let Ok(target) = String::from_str(args.alloc, target) else {
        args.is_short = true;
        return None;
    };
    let request = Request {
        method: Method::POST,
        target,
        if_none_match: None,
        body: Some(body),
    };
    Some(Event::Evaluate(reader, request, Moment::at(0)?))
}

fn stepped<R: Wait>(rt: &R, world: &mut Whole, event: &Event, out: &mut Text) -> Became {
    let reply = world.step(rt, event);
    became_of(&reply, out)
}

// What the event is answered. One for which memory was wanting is asked once more.
fn answered<R: Wait>(rt: &R, trial: &mut Trial, world: &mut Whole, event: &Event) -> Answer {
    let became = match stepped(rt, world, event, &mut trial.text) {
        Became::Told(Answer::NoMemory) => stepped(rt, world, event, &mut trial.text),
        became => became,
    };
    answer_of(trial, became)
}
