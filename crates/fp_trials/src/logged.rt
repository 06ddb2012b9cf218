//! The program's commands with its log, at a moment that a trial says.

use crate::commands::{How, Turns, how_of, streams_of, tell_turns};
use crate::noted::{held_on, noted};
use crate::script::{ended, words_of};
use crate::trial::{Answer, Trial};
use fp_commands::command;
use fp_files::SystemFiles;
use fp_log::{Reported, Source, Stamped};
use fp_streams::FailureCounted;
use fp_transcript::{Args, Text, first_word};
use log::{LevelFilter, Log, Logged};
use std::alloc::AllocGlobal;
use std::cell::RefCell;
use std::fmt::Display;
use std::fs::File;
use std::io;
use std::io::Write;
use std::rt::Files;
use std::time::{Clock, Duration};

/// Stands in for the program's clock, which shows one moment, and for its error stream, which is
/// kept.
#[derive(Clone, Copy, Drop)]
struct Standing<'a> {
    moment: u64,
    told: &'a RefCell<Text>,
}

impl Clock for Standing<'_> {
    fn monotonic(&self) -> io::Result<Duration> {
        Ok(Duration::from_secs(self.moment))
    }

    fn since_1970(&self) -> io::Result<Duration> {
        Ok(Duration::from_secs(self.moment))
    }
}

impl Eprint for Standing<'_> {
    fn eprint<D: Display + Drop>(&self, value: D) -> io::Result<()> {
        if let Ok(mut told) = self.told.try_borrow_mut() {
            told.shown(&value);
        }
        Ok(())
    }

    fn eprintln<D: Display + Drop>(&self, value: D) -> io::Result<()> {
        self.eprint(value)?;
        self.eprint("\n")
    }
}

impl Write for Standing<'_> {
    fn write(&mut self, bytes: &[u8]) -> io::Result<usize> {
        if let Ok(mut told) = self.told.try_borrow_mut() {
            told.bytes(bytes);
        }
        Ok(bytes.len())
    }

    fn flush(&mut self) -> io::Result<()> {
        Ok(())
    }
}

/// `logged MOMENT COMMAND`: with the program's log at this moment, in seconds since 1970, or `off`.
/// COMMAND is `$ WORD ..`, with what becomes of its streams before it or nothing, or `noted ..`.
pub fn on_logged<R: Files<File = File> + AllocGlobal + Log + Copy + Drop>(
    rt: &R,
    trial: &mut Trial,
    args: &mut Args<'_>,
) -> Answer {
    let (level, moment) = match args.word() {
        "off" => (LevelFilter::Off, 0),
        word => (LevelFilter::Info, args.number_of(word)),
    };
    match first_word(args.rest) {
        ("noted", rest) => {
            args.rest = rest;
            over_noted(rt, level, moment, trial, args)
        }
        _ => {
            let Some((how, words)) = words_behind(args, &mut trial.text) else {
                return Answer::NotUnderstood;
            };
            let status = program(rt, level, moment, trial, how, &words);
            ended(trial, status)
        }
    }
}

// `[HOW] $ WORD ..`: what becomes of the streams, and the words.
fn words_behind(args: &mut Args<'_>, out: &mut Text) -> Option<(How, Vec<String>)> {
    let (how, words) = args.rest.split_once('$')?;
    let how = how_of(how.trim())?;
    args.rest = words;
    Some((how, words_of(args, out)))
}

// The same as `noted ..`, and behind it what was told.
fn over_noted<R: Files<File = File> + AllocGlobal + Log + Copy + Drop>(
    rt: &R,
    level: LevelFilter,
    moment: u64,
    trial: &mut Trial,
    args: &mut Args<'_>,
) -> Answer {
    let told = RefCell::new(Text::new(trial.alloc));
    let standing = Standing {
        moment,
        told: &told,
    };
    let left = noted(&Logged::new(*rt, level, Stamped(standing)), trial, args);
    tell(trial, &told.into_inner());
    held_on(trial, left)
}

// What was told on the error stream.
fn tell(trial: &mut Trial, told: &Text) {
    trial.text.end_line();
    trial.text.put(told);
}

// What a command reads, which calls of its streams were made, and what was told.
#[derive(Drop)]
struct Room {
    input: Vec<u8>,
    turns: RefCell<Turns>,
    told: RefCell<Text>,
}

// Runs the command: its status. What it wrote stands in the trial, and behind it what was told.
fn program<R: Files<File = File> + AllocGlobal + Log + Copy + Drop>(
    rt: &R,
    level: LevelFilter,
    moment: u64,
    trial: &mut Trial,
    how: How,
    words: &[String],
) -> u8 {
    let room = Room {
        input: trial.take_input(),
        turns: RefCell::new(Turns::new(trial.alloc)),
        told: RefCell::new(Text::new(trial.alloc)),
    };
    let standing = Standing {
        moment,
        told: &room.told,
    };
    let logged = Logged::new(*rt, level, Stamped(standing));
    let status = in_room(logged, standing, &room, how, words);
    let Room {
        input: _,
        turns,
        told,
    } = room;
    tell_turns(trial, turns.into_inner());
    tell(trial, &told.into_inner());
    status
}

// As the program does, with a report of each stream.
fn in_room<'a, R: Files<File = File> + AllocGlobal + Log + Copy + Drop>(
    rt: R,
    standing: Standing<'a>,
    room: &'a Room,
    how: How,
    words: &[String],
) -> u8 {
    let (source, sink) = streams_of(how, &room.input, &room.turns);
    let mut files = SystemFiles::of(rt);
    command(
        rt.alloc(),
        &mut files,
        words,
        &mut FailureCounted::new(Reported::new(rt, Source::Input, source)),
        &mut FailureCounted::new(Reported::new(rt, Source::Output, sink)),
        &mut FailureCounted::new(standing),
        0,
    )
}
