//! One command, and blocks of commands that are run for each of some words.

use crate::text::judged;
use crate::trial::{Answer, Trial};
use crate::{commands, damage, disk, eval, event, frames, journal, parts, world};
use fp_transcript::{Args, Text};

// The words of the modules.
const ON_BYTES: [&str; 9] = [
    "hold", "write", "read", "text", "len", "sync", "cut", "keep", "back",
];

const ON_FAULTS: [&str; 5] = ["fuse", "fail", "calm", "crash", "calls"];

const ON_WORLD: [&str; 8] = [
    "create", "open", "close", "recover", "show", "marks", "size", "room",
];

pub const ON_EVENTS: [&str; 8] = [
    "draw",
    "stage",
    "sync-body",
    "open-gate",
    "sync-gate",
    "settle",
    "compact",
    "ack",
];

const ON_EDITS: [&str; 5] = ["submit", "submits", "edit", "with", "batch"];

const ON_PARTS: [&str; 4] = ["stop", "stray", "receipt", "confirm"];

const ON_INPUT: [&str; 4] = ["input", "last", "raw", "turns"];

const ON_COMMANDS: [&str; 4] = ["init", "apply", "import", "shown"];

const ON_SLOTS: [&str; 2] = ["chain", "slot"];

const ON_DAMAGE: [&str; 2] = ["flips", "seeds"];

fn understood(trial: &mut Trial, word: &str, args: &mut Args<'_>) -> Answer {
    if ON_BYTES.contains(&word) {
        disk::on_bytes(trial, word, args)
    } else if ON_FAULTS.contains(&word) {
        disk::on_faults(trial, word, args)
    } else if ON_WORLD.contains(&word) {
        world::on_world(trial, word, args)
    } else if ON_EVENTS.contains(&word) {
        event::on_events(trial, word, args)
    } else if ON_EDITS.contains(&word) {
        event::on_edits(trial, word, args)
    } else {
        composed(trial, word, args)
    }
}

// Parts of a world, commands of the program, frames, slots, changed bytes.
fn composed(trial: &mut Trial, word: &str, args: &mut Args<'_>) -> Answer {
    if ON_INPUT.contains(&word) {
        commands::on_input(trial, word, args)
    } else if ON_COMMANDS.contains(&word) {
        commands::on_commands(trial, word, args.rest)
    } else if word == "eval" {
        eval::on_eval(trial, args)
    } else if word == "frame" {
        frames::on_frame(trial, args)
    } else if ON_PARTS.contains(&word) {
        parts::on_parts(trial, word, args)
    } else if ON_SLOTS.contains(&word) {
        journal::on_slots(trial, word, args)
    } else if ON_DAMAGE.contains(&word) {
        damage::on_damage(trial, word, args)
    } else {
        Answer::NotUnderstood
    }
}

/// Does what a line says.
pub fn step(trial: &mut Trial, line: &str) -> Answer {
    trial.text.clear();
    let mut args = Args::of(trial.alloc, line);
    let word = args.word();
    let answer = understood(trial, word, &mut args);
    judged(&args, answer)
}

/// `for WORD ..`: the block once for each word, which stands at each `%` in it. A word as `0..4` is
/// the numbers from the first to before the second.
pub fn repeat(trial: &mut Trial, args: &mut Args<'_>, block: &[String], out: &mut Text) {
    for word in args.rest.split_whitespace() {
        match word.split_once("..") {
            Some((from, to)) => count(trial, args.number_of(from), args.number_of(to), block, out),
            None => row(trial, word, block, out),
        }
    }
}

fn count(trial: &mut Trial, from: u64, to: u64, block: &[String], out: &mut Text) {
    let mut word = Text::new(trial.alloc);
    for number in from..to {
        word.clear();
        word.number(number);
        row(trial, word.as_str(), block, out);
    }
}

// The answers to the lines with this word, in a row.
fn row(trial: &mut Trial, word: &str, block: &[String], out: &mut Text) {
    out.push(word);
    out.push(":");
    let mut between = " ";
    for line in block {
        let answer = step_with(trial, word, line);
        if !matches!(answer, Answer::Done) {
            out.push(between);
            tell_in_row(trial, answer, out);
            between = " | ";
        }
    }
    out.push("\n");
}

fn step_with(trial: &mut Trial, word: &str, line: &str) -> Answer {
    let mut with = Text::new(trial.alloc);
    with.replaced(line, "%", word);
    if with.is_short {
        return Answer::NoMemory;
    }
    step(trial, with.as_str())
}

fn tell_in_row(trial: &Trial, answer: Answer, out: &mut Text) {
    match answer {
        Answer::Text | Answer::Stopped => out.flat(&trial.text),
        answer => answer.tell_plain(out),
    }
}
