//! Worlds whose events are drawn from a seed or listed, over a disk that stops and crashes, compared
//! with what they told.

use crate::disk::{crash_as, failed_write};
use crate::seeds::Draws;
use crate::sweep::{FILLS, failing_at};
use crate::told::Told;
use crate::trial::{Answer, Trial};
use crate::whole::{Whole, asked, made};
use fp_disk::{Choice, FailedWrite, Failing, Fill, MemoryDisk};
use fp_stream::Hello;
use fp_transcript::{Args, Text, first_word};
use fp_world::{Answer as Reply, Event, recover};
use std::alloc::{AllocError, Global};
use std::sync::Wait;

// Who sits in the seats of such a world, and how many evaluators it has.
const SEATS: [Hello; 3] = [Hello::Nothing, Hello::Has(0), Hello::Has(40)];

const READERS: usize = 2;

// A stop is at a call of the disk before this one, or there is none.
const STOPS: u64 = 48;

// No list makes so many calls.
const MOST: u64 = 10_000;

fn ran<R: Wait>(
    rt: &R,
    alloc: Global,
    world: &mut Whole,
    events: &[Event],
) -> Result<Vec<Reply>, AllocError> {
    world.run(rt, alloc, events)
}

// A world over the disk, which comes back behind these events, and their answers. Nothing is
// answered where the disk isn't opened.
fn lived<R: Wait>(
    rt: &R,
    alloc: Global,
    disk: MemoryDisk,
    events: &[Event],
) -> (MemoryDisk, Result<Vec<Reply>, AllocError>) {
    match made(rt, alloc, disk, &SEATS, READERS) {
        Ok(world) => {
            let mut world = world;
            let answers = ran(rt, alloc, &mut world, events);
            (world.into_disk(rt), answers)
        }
        Err((_, disk)) => (disk, Ok(Vec::new(alloc))),
    }
}

// Runs these events on the trial's disk: whether the disk stopped them.
fn list<R: Wait>(
    rt: &R,
    trial: &mut Trial,
    events: &[Event],
    told: &mut Told,
) -> Result<bool, AllocError> {
    let (disk, answers) = lived(rt, trial.alloc, trial.take_disk(), events);
    trial.put_disk(disk);
    let answers = answers?;
    told.note_all(events, &answers)?;
    Ok(is_stopped(events, &answers))
}

fn is_stopped(events: &[Event], answers: &[Reply]) -> bool {
    answers.len() < events.len() || answers.iter().any(|a| matches!(a, Reply::Fault(_)))
}

// Opens the disk, and compares it with what was told, or begins anew with it.
fn reopened(trial: &mut Trial, told: &mut Told, is_new: bool) -> Result<(), AllocError> {
    match recover(trial.alloc, trial.take_disk()) {
        Ok((store, opening)) => {
            trial.put_disk(store.into_disk());
            if is_new {
                return told.begin(opening.set());
            }
            told.compare(opening.set());
        }
        Err((_, disk)) => {
            trial.put_disk(disk);
            told.lost();
        }
    }
    Ok(())
}

/// `worlds LISTS EVENTS`, `stops EVENTS`, with `sets` behind it or without: how often what was told
/// before a crash wasn't kept, and how many kinds of answers there were.
pub fn on_seeds<R: Wait>(rt: &R, trial: &mut Trial, word: &str, args: &mut Args<'_>) -> Answer {
    let mut told = Told::new(trial.alloc);
    let lists = if word == "worlds" { args.number() } else { 0 };
    let count = args.number();
    let draws = Draws::new(trial.alloc, args.word() == "sets");
    let done = if word == "worlds" {
        worlds(rt, trial, &mut told, draws, lists, count)
    } else {
        stops(rt, trial, &mut told, draws, count)
    };
    match done {
        Ok(()) => told.tell(&mut trial.text),
        Err(_) => Answer::NoMemory,
    }
}

// The disk is opened as a world, which runs so many events and is stopped at a call of the disk or
// not; the power is cut, and the disk opened again, all by a seed, and again and again.
fn worlds<R: Wait>(
    rt: &R,
    trial: &mut Trial,
    told: &mut Told,
    draws: Draws,
    lists: u64,
    count: u64,
) -> Result<(), AllocError> {
    let mut draws = draws;
    reopened(trial, told, true)?;
    for _ in 0..lists {
        draws.near = told.newest();
        trial.set_failing(Failing::From(draws.below(STOPS)), FailedWrite::Half);
        let events = draws.events(count)?;
        let _stopped = list(rt, trial, &events, told)?;
        crash(trial, &mut draws);
        reopened(trial, told, false)?;
    }
    Ok(())
}

fn crash(trial: &mut Trial, draws: &mut Draws) {
    let length = draws.left_length();
    let writes = [draws.fill(), draws.fill()];
    let rest = draws.fill();
    let _crashed = crash_as(
        trial,
        Choice {
            length,
            writes: &writes,
            rest,
        },
    );
}

// Events that are run on a disk of these bytes, of which calls fail.
#[derive(Clone, Copy)]
struct Course<'a> {
    bytes: &'a [u8],
    events: &'a [Event],
    is_alone: bool,
    writes: FailedWrite,
}

// One list of events by the seed.
fn stops<R: Wait>(
    rt: &R,
    trial: &mut Trial,
    told: &mut Told,
    draws: Draws,
    count: u64,
) -> Result<(), AllocError> {
    let bytes = trial.bytes().ok_or(AllocError)?;
    let mut draws = draws;
    reopened(trial, told, true)?;
    draws.near = told.newest();
    let events = draws.events(count)?;
    let course = Course {
        bytes: &bytes,
        events: &events,
        is_alone: false,
        writes: FailedWrite::Half,
    };
    stopped(rt, trial, told, course)
}

/// `stops`, `stops half`, `stops alone`, `stops alone half`: the events of a block, in the same way
/// as those that are drawn.
pub fn on_listed<R: Wait>(
    rt: &R,
    trial: &mut Trial,
    args: &mut Args<'_>,
    lines: &[String],
    out: &mut Text,
) {
    let mut told = Told::new(trial.alloc);
    match listed(rt, trial, &mut told, args, lines) {
        Ok(()) => {
            told.tell(out);
        }
        Err(_) => out.is_short = true,
    }
}

fn listed<R: Wait>(
    rt: &R,
    trial: &mut Trial,
    told: &mut Told,
    args: &mut Args<'_>,
    lines: &[String],
) -> Result<(), AllocError> {
    let bytes = trial.bytes().ok_or(AllocError)?;
    let events = events_of(trial, args, lines)?;
    let (first, more) = first_word(args.rest);
    let is_alone = first == "alone";
    let course = Course {
        bytes: &bytes,
        events: &events,
        is_alone,
        writes: failed_write(if is_alone { more } else { first }),
    };
    stopped(rt, trial, told, course)
}

// The events that these lines are.
fn events_of(
    trial: &mut Trial,
    args: &mut Args<'_>,
    lines: &[String],
) -> Result<Vec<Event>, AllocError> {
    let mut events = Vec::new(trial.alloc);
    for line in lines {
        let mut words = Args::of(trial.alloc, line.as_str());
        let word = words.word();
        if let Some(event) = asked(trial, word, &mut words) {
            events.push(event)?;
        }
        args.is_bad = args.is_bad || words.is_bad;
        args.is_short = args.is_short || words.is_short;
    }
    Ok(events)
}

// The same disk again and again, with a stop at each call of it and each kind of crash there.
fn stopped<R: Wait>(
    rt: &R,
    trial: &mut Trial,
    told: &mut Told,
    course: Course<'_>,
) -> Result<(), AllocError> {
    for call in 0..MOST {
        for rest in FILLS {
            if !stop(rt, trial, told, course, call, rest)? {
                return Ok(());
            }
        }
        told.stops = told.stops.saturating_add(1);
    }
    Ok(())
}

// Whether the events are stopped at this call, behind which the disk is cut to the least
// and to the greatest length.
fn stop<R: Wait>(
    rt: &R,
    trial: &mut Trial,
    told: &mut Told,
    course: Course<'_>,
    call: u64,
    rest: Fill,
) -> Result<bool, AllocError> {
    let mut is_stopped = false;
    for length in [0, u64::MAX] {
        let _held = trial.hold_copy(course.bytes);
        reopened(trial, told, true)?;
        trial.set_failing(failing_at(course.is_alone, call), course.writes);
        is_stopped = list(rt, trial, course.events, told)?;
        let choice = Choice {
            length,
            writes: &[],
            rest,
        };
        let _crashed = crash_as(trial, choice);
        reopened(trial, told, false)?;
    }
    Ok(is_stopped)
}
