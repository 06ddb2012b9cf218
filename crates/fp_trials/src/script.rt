//! A file of trials: its lines in order, its blocks, and the program's commands over files.

use crate::held::{HeldFile, on_held};
use crate::logged::on_logged;
use crate::noted::on_noted;
use crate::run::{repeat, step};
use crate::seeded::{on_listed, on_seeds};
use crate::sweep::sweep;
use crate::text::judged;
use crate::trial::{Answer, Fault, Trial};
use crate::whole::{Whole, is_of_world, on_whole};
use fp_commands::command;
use fp_files::SystemFiles;
use fp_streams::FailureCounted;
use fp_transcript::{Answers, Args, Text, first_word};
use log::Log;
use std::alloc::AllocGlobal;
use std::fs::File;
use std::rt::Files;
use std::sync::Wait;
use std::{fs, mem};

/// What answers the lines of a file: what they work on; the world, the file that is held and the
/// block that are open, if there are any.
pub struct Script<'a, R: Files<File = File> + AllocGlobal + Log + Wait + Copy + Drop> {
    rt: &'a R,
    trial: Trial,
    world: Option<Whole>,
    held: Option<HeldFile<'a, R>>,
    block: Block,
}

// The line that opened a block, and the lines in it.
#[derive(Drop)]
struct Block {
    head: Text,
    lines: Vec<String>,
}

impl<'a, R: Files<File = File> + AllocGlobal + Log + Wait + Copy + Drop> Script<'a, R> {
    /// Over an empty disk.
    pub fn new(rt: &'a R) -> Script<'a, R> {
        let alloc = rt.alloc();
        Script {
            rt,
            trial: Trial::new(alloc),
            world: None,
            held: None,
            block: Block {
                head: Text::new(alloc),
                lines: Vec::new(alloc),
            },
        }
    }

    /// Ends the world that is open.
    pub fn end(self) {
        let Script {
            rt,
            trial: _,
            world,
            held: _,
            block: _,
        } = self;
        end_world(rt, world);
    }
}

fn end_world<R: Wait>(rt: &R, world: Option<Whole>) {
    if let Some(world) = world {
        let _disk = world.into_disk(rt);
    }
}

impl<'a, R: Files<File = File> + AllocGlobal + Log + Wait + Copy + Drop> Answers for Script<'a, R> {
    /// Appends the answer to a line. Those between one that ends in `{` and a `}` are a block, for
    /// which the latter answers.
    fn answer(&mut self, line: &str, out: &mut Text) {
        if line == "}" {
            run_block(self.rt, &mut self.trial, &mut self.block, out);
        } else if !self.block.head.is_empty() {
            push_line(&mut self.block, line, out);
        } else if let Some(head) = head_of(line) {
            self.block.head.push(head);
            out.is_short = self.block.head.is_short;
        } else {
            let answer = alone(
                self.rt,
                &mut self.trial,
                &mut self.world,
                &mut self.held,
                line,
            );
            answer.tell(&self.trial.text, out);
        }
    }
}

fn push_line(block: &mut Block, line: &str, out: &mut Text) {
    if !out.push_copy(line, &mut block.lines) {
        out.is_short = true;
    }
}

// What a line says that opens a block.
fn head_of(line: &str) -> Option<&str> {
    let head = line.strip_suffix(" {")?;
    let (word, _) = first_word(head);
    matches!(word, "for" | "sweep" | "alone" | "stops").then_some(head)
}

// `for WORD ..`, `sweep`, `sweep half`, `alone`, `alone half`, and the same words behind `stops`.
fn run_block<R: Wait>(rt: &R, trial: &mut Trial, block: &mut Block, out: &mut Text) {
    let none = Vec::new(trial.alloc);
    let lines = mem::replace(&mut block.lines, none);
    let head = mem::replace(&mut block.head, out.another());
    let mut args = Args::of(trial.alloc, head.as_str());
    match args.word() {
        "for" => repeat(trial, &mut args, &lines, out),
        "stops" => on_listed(rt, trial, &mut args, &lines, out),
        // A `}` without a block.
        "" => out.push("not understood"),
        word => sweep(trial, word, args.rest, &lines, out),
    }
    judged(&args, Answer::Done).tell_plain(out);
}

// The words of commands that can't stand in a block.
const OVER_FILES: [&str; 6] = ["$", "logged", "load", "save", "noted", "held"];

const OF_SEEDS: [&str; 2] = ["worlds", "stops"];

// What works on a world, what can't stand in a block, and any other line.
fn alone<'a, R: Files<File = File> + AllocGlobal + Log + Wait + Copy + Drop>(
    rt: &'a R,
    trial: &mut Trial,
    world: &mut Option<Whole>,
    held: &mut Option<HeldFile<'a, R>>,
    line: &str,
) -> Answer {
    let mut args = Args::of(trial.alloc, line);
    let word = args.word();
    if is_of_world(word, world) {
        trial.text.clear();
        let answer = on_whole(rt, trial, world, word, &mut args);
        judged(&args, answer)
    } else if OF_SEEDS.contains(&word) {
        trial.text.clear();
        let answer = on_seeds(rt, trial, word, &mut args);
        judged(&args, answer)
    } else if OVER_FILES.contains(&word) {
        trial.text.clear();
        let answer = over_files(rt, trial, held, word, &mut args);
        judged(&args, answer)
    } else {
        step(trial, line)
    }
}

// `$ WORD ..`, `logged ..`, `load NAME`, `save NAME`, `noted ..`, `held ..`.
fn over_files<'a, R: Files<File = File> + AllocGlobal + Log + Copy + Drop>(
    rt: &'a R,
    trial: &mut Trial,
    held: &mut Option<HeldFile<'a, R>>,
    word: &str,
    args: &mut Args<'_>,
) -> Answer {
    match word {
        "$" => program(rt, trial, args),
        "logged" => on_logged(rt, trial, args),
        "load" => load(rt, trial, args.rest),
        "save" => save(rt, trial, args.rest),
        "held" => on_held(rt, held, args),
        _ => on_noted(rt, trial, args),
    }
}

/// The words of a command, of which `''` is the empty one.
pub fn words_of(args: &Args<'_>, out: &mut Text) -> Vec<String> {
    let mut words = Vec::new(args.alloc);
    for word in args.rest.split_whitespace() {
        let word = if word == "''" { "" } else { word };
        if !out.push_copy(word, &mut words) {
            out.is_short = true;
        }
    }
    words
}

// `$ WORD ..`: the program's command of these words, of which `''` is the empty one, on
// the lines that wait. It answers what was written, what was told on the error stream,
// and a status that isn't 0.
fn program<R: Files<File = File> + AllocGlobal + Log>(
    rt: &R,
    trial: &mut Trial,
    args: &mut Args<'_>,
) -> Answer {
    let words = words_of(args, &mut trial.text);
    let input = trial.take_input();
    let status = run(rt, &words, &input, &mut trial.text);
    ended(trial, status)
}

/// The answer of a command that ended so, behind what it wrote and told.
pub fn ended(trial: &mut Trial, status: u8) -> Answer {
    if tells_of_memory(trial.text.as_str()) {
        return Answer::NoMemory;
    }
    if status != 0 {
        trial.text.named("status", u64::from(status));
    }
    Answer::Text
}

// Runs the command: what it wrote and told, and its status.
fn run<R: Files<File = File> + AllocGlobal + Log>(
    rt: &R,
    words: &[String],
    input: &[u8],
    out: &mut Text,
) -> u8 {
    let alloc = rt.alloc();
    let mut reader = FailureCounted::new(input);
    let mut writer = FailureCounted::new(Vec::new(alloc));
    let mut errors = FailureCounted::new(Vec::new(alloc));
    let mut files = SystemFiles::of(rt);
    let status = command(
        alloc,
        &mut files,
        words,
        &mut reader,
        &mut writer,
        &mut errors,
        0,
    );
    out.bytes(&writer.into_inner());
    out.bytes(&errors.into_inner());
    status
}

fn tells_of_memory(text: &str) -> bool {
    text.contains("out-of-memory") || text.contains("out of memory")
}

// `load NAME`: the disk holds the file's bytes.
fn load<R: Files<File = File> + AllocGlobal + Log>(
    rt: &R,
    trial: &mut Trial,
    name: &str,
) -> Answer {
    match fs::read(rt, name) {
        Ok(bytes) => trial.hold(bytes),
        Err(_) => Answer::Fault(Fault::Device),
    }
}

// `save NAME`: the file holds the disk's bytes.
fn save<R: Files>(rt: &R, trial: &mut Trial, name: &str) -> Answer {
    let Some(bytes) = trial.bytes() else {
        return Answer::NoMemory;
    };
    match fs::write(rt, name, bytes.as_slice()) {
        Ok(()) => Answer::Done,
        Err(_) => Answer::Fault(Fault::Device),
    }
}
