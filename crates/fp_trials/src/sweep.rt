//! A block run again and again with a stop at each call of the disk and each kind of crash there.

use crate::disk::{crash_as, failed_write};
use crate::run::step;
use crate::trial::{Answer, Fault, Trial};
use fp_disk::{Choice, FailedWrite, Failing, Fill};
use fp_transcript::Text;

/// What becomes of pending bytes.
pub const FILLS: [Fill; 8] = [
    Fill::Old,
    Fill::New,
    Fill::Byte(0xa5),
    Fill::Byte(0),
    Fill::Byte(0x37),
    Fill::Seed(1),
    Fill::Seed(2),
    Fill::Seed(3),
];

const HEAD: &str = "call: old new a5 00 37 seed1 seed2 seed3 | the same, longest\n";

// A sweep has at most so many calls.
const MOST: u64 = 10_000;

// The block that is run, on a disk of these bytes whose calls fail so.
#[derive(Clone, Copy)]
struct Course<'a> {
    bytes: &'a [u8],
    block: &'a [String],
    failing: Failing,
    writes: FailedWrite,
}

// The document of a revision that was found.
#[derive(Drop)]
struct Shown {
    revision: u64,
    document: Text,
}

/// `sweep`, `sweep half`, `alone`, `alone half`. For each call of the block's disk, from 0 on
/// until a run has no stop: the block is run on a disk of the same bytes of which that call
/// fails, and all behind it or it alone; the power is cut with each choice of what is pending,
/// and the disk is opened. A row has the call, the line that it belongs to, the greatest revision
/// that was told before, and the revisions that were found, first those of the shortest disks and
/// then those of the longest.
pub fn sweep(trial: &mut Trial, word: &str, rest: &str, block: &[String], out: &mut Text) {
    match trial.bytes() {
        Some(bytes) => sweep_over(trial, &bytes, word == "alone", rest, block, out),
        None => out.is_short = true,
    }
}

fn sweep_over(
    trial: &mut Trial,
    bytes: &[u8],
    is_alone: bool,
    rest: &str,
    block: &[String],
    out: &mut Text,
) {
    let told = trial.told;
    let mut found = Vec::new(trial.alloc);
    out.push(HEAD);
    for call in 0..MOST {
        let course = Course {
            bytes,
            block,
            failing: failing_at(is_alone, call),
            writes: failed_write(rest),
        };
        out.number(call);
        if !row(trial, course, &mut found, out) {
            break;
        }
    }
    tell_all(&found, out);
    trial.hold_copy(bytes).tell_plain(out);
    trial.told = told;
}

/// All calls from this one on fail, or it alone.
pub fn failing_at(is_alone: bool, call: u64) -> Failing {
    if is_alone {
        Failing::At(call)
    } else {
        Failing::From(call)
    }
}

// What is found where the disk fails so, and whether it does.
fn row(trial: &mut Trial, course: Course<'_>, found: &mut Vec<Shown>, out: &mut Text) -> bool {
    let is_stopped = tell_run(trial, course, out);
    after_crashes(trial, course, 0, found, out);
    out.push(" |");
    after_crashes(trial, course, u64::MAX, found, out);
    out.push("\n");
    is_stopped
}

// Runs the block, and tells where it ended and whether the disk failed.
fn tell_run(trial: &mut Trial, course: Course<'_>, out: &mut Text) -> bool {
    let line = run_to(trial, course);
    if line.is_empty() {
        out.push(" no stop");
    } else {
        out.push(" in ");
    }
    out.push(line);
    out.push(", told ");
    out.number(trial.told);
    out.push(":");
    !line.is_empty()
}

// What is found behind a crash with each choice of what is pending, of disks so long.
fn after_crashes(
    trial: &mut Trial,
    course: Course<'_>,
    length: u64,
    found: &mut Vec<Shown>,
    out: &mut Text,
) {
    for rest in FILLS {
        let _stop = run_to(trial, course);
        let choice = Choice {
            length,
            writes: &[],
            rest,
        };
        crash_as(trial, choice).tell_plain(out);
        tell_opened(trial, found, out);
    }
}

// Runs the block on its disk with nothing told: the line at which the disk fails, or none.
fn run_to<'a>(trial: &mut Trial, course: Course<'a>) -> &'a str {
    begin(trial, course);
    for line in course.block {
        if step(trial, line.as_str()).is_fault() {
            return line.as_str();
        }
    }
    ""
}

fn begin(trial: &mut Trial, course: Course<'_>) {
    let _held = trial.hold_copy(course.bytes);
    trial.edits.clear();
    trial.input.clear();
    trial.told = 0;
    trial.set_failing(course.failing, course.writes);
}

// What the disk is opened as.
fn tell_opened(trial: &mut Trial, found: &mut Vec<Shown>, out: &mut Text) {
    match step(trial, "open") {
        Answer::Revision(revision) => tell_revision(trial, revision, found, out),
        Answer::Fault(Fault::Unformatted) => out.push(" -"),
        answer => tell_other(answer, out),
    }
}

fn tell_other(answer: Answer, out: &mut Text) {
    out.push(" (");
    answer.tell_plain(out);
    out.push(")");
}

fn tell_revision(trial: &mut Trial, revision: u64, found: &mut Vec<Shown>, out: &mut Text) {
    out.push(" ");
    out.number(revision);
    if revision < trial.told {
        out.push(" LOST");
    }
    let _shown = step(trial, "show");
    if !agrees(found, revision, &trial.text, out) {
        out.push(" OTHER FLAGS");
    }
}

// Whether each disk of this revision had the same document so far.
fn agrees(found: &mut Vec<Shown>, revision: u64, document: &Text, out: &mut Text) -> bool {
    for shown in found.iter() {
        if shown.revision == revision {
            return shown.document.as_str() == document.as_str();
        }
    }
    if found.push(copied(revision, document)).is_err() {
        out.is_short = true;
    }
    true
}

fn copied(revision: u64, text: &Text) -> Shown {
    let mut document = text.another();
    document.put(text);
    Shown { revision, document }
}

fn tell_all(found: &[Shown], out: &mut Text) {
    for shown in found {
        out.number(shown.revision);
        out.push(" ");
        out.put(&shown.document);
        out.push("\n");
    }
}
