//! The commands of the program, over a disk in memory, and the lines that they read.

use crate::text::{bytes_of, put_line};
use crate::trial::{Answer, Trial, tell_fault};
use crate::world::room;
use fp_commands::{CommandFault, apply_disk, import_disk, init_disk, show_disk};
use fp_disk::Disk;
use fp_streams::FailureCounted;
use fp_transcript::{Args, Text, number};
use std::alloc::Global;
use std::cell::RefCell;
use std::io;
use std::io::{ErrorKind, Read};

/// `input EDIT`, `last EDIT` for a line without its end, and `raw BYTES`; `turns`, of the last
/// command's streams.
pub fn on_input(trial: &mut Trial, word: &str, args: &mut Args<'_>) -> Answer {
    if word == "turns" {
        trial.text.put(&trial.turns);
        return Answer::Text;
    }
    if word == "raw" {
        return trial.wait(&bytes_of(args));
    }
    let mut line = Text::new(trial.alloc);
    put_line(args, &mut line);
    if word == "input" {
        line.push("\n");
    }
    args.is_short = args.is_short || line.is_short;
    trial.wait(line.as_str().as_bytes())
}

/// What becomes of the streams.
#[derive(Clone, Copy)]
pub enum How {
    Well,
    /// The input gives a line a read.
    Terminal,
    /// The input ends in a failure.
    Broken,
    /// The input ends for want of memory.
    Short,
    /// The first two reads are interrupted.
    Interrupted,
    /// The output takes so many bytes.
    Full(u64),
    /// The output takes all, and fails as it is flushed.
    Unflushed,
}

/// What these words say of it.
pub fn how_of(rest: &str) -> Option<How> {
    match rest {
        "" => Some(How::Well),
        "terminal" => Some(How::Terminal),
        "broken" => Some(How::Broken),
        "short" => Some(How::Short),
        "interrupted" => Some(How::Interrupted),
        "unflushed" => Some(How::Unflushed),
        _ => number(rest.strip_prefix("full ")?).map(How::Full),
    }
}

/// The calls of a command's streams, in order, and what was written.
#[derive(Drop)]
pub struct Turns {
    pub calls: Text,
    pub written: Vec<u8>,
}

impl Turns {
    /// No call yet.
    pub fn new(alloc: Global) -> Turns {
        Turns {
            calls: Text::new(alloc),
            written: Vec::new(alloc),
        }
    }
}

// Tells of a call of a stream.
fn note(turns: &RefCell<Turns>, what: &str) {
    if let Ok(mut turns) = turns.try_borrow_mut() {
        turns.calls.part();
        turns.calls.push(what);
    }
}

// Keeps what is written.
fn keep(turns: &RefCell<Turns>, bytes: &[u8]) -> io::Result<()> {
    match turns.try_borrow_mut() {
        Ok(mut turns) => Ok(turns.written.extend_from_slice(bytes)?),
        Err(_) => Err(ErrorKind::Other.into()),
    }
}

/// Gives these bytes, and then ends or fails.
#[derive(Drop)]
pub struct Source<'a> {
    bytes: &'a [u8],
    how: How,
    interruptions: u32,
    turns: &'a RefCell<Turns>,
}

impl Source<'_> {
    // Why the next read fails, if it does.
    fn failure(&mut self) -> Option<ErrorKind> {
        match self.how {
            How::Broken if self.bytes.is_empty() => Some(ErrorKind::Other),
            How::Short if self.bytes.is_empty() => Some(ErrorKind::OutOfMemory),
            How::Interrupted if self.interruptions > 0 => {
                self.interruptions -= 1;
                Some(ErrorKind::Interrupted)
            }
            _ => None,
        }
    }

    // How many bytes a read gives at most.
    fn given(&self) -> usize {
        match self.how {
            How::Terminal => line_length(self.bytes),
            _ => self.bytes.len(),
        }
    }
}

// The bytes of the first line, with its end.
fn line_length(bytes: &[u8]) -> usize {
    match bytes.iter().position(|byte| *byte == b'\n') {
        Some(at) => at.saturating_add(1),
        None => bytes.len(),
    }
}

impl<'a> Read for Source<'a> {
    fn read(&mut self, buf: &mut [u8]) -> io::Result<usize> {
        note(self.turns, "read");
        if let Some(kind) = self.failure() {
            return Err(kind.into());
        }
        let count = self.given().min(self.bytes.len()).min(buf.len());
        let (now, later) = self.bytes.split_at(count);
        buf[..count].copy_from_slice(now);
        self.bytes = later;
        Ok(count)
    }
}

/// Takes so many bytes, and then fails.
#[derive(Drop)]
pub struct Sink<'a> {
    room: usize,
    how: How,
    turns: &'a RefCell<Turns>,
}

impl io::Write for Sink<'_> {
    fn write(&mut self, buf: &[u8]) -> io::Result<usize> {
        note(self.turns, "write");
        let count = buf.len().min(self.room);
        if count == 0 && !buf.is_empty() {
            return Err(ErrorKind::StorageFull.into());
        }
        keep(self.turns, &buf[..count])?;
        self.room -= count;
        Ok(count)
    }

    fn flush(&mut self) -> io::Result<()> {
        note(self.turns, "flush");
        match self.how {
            How::Unflushed => Err(ErrorKind::StorageFull.into()),
            _ => Ok(()),
        }
    }
}

/// The streams of a command, whose input are these bytes.
pub fn streams_of<'a>(
    how: How,
    input: &'a [u8],
    turns: &'a RefCell<Turns>,
) -> (Source<'a>, Sink<'a>) {
    let source = Source {
        bytes: input,
        how,
        interruptions: 2,
        turns,
    };
    let room = match how {
        How::Full(room) => room as usize,
        _ => usize::MAX,
    };
    (source, Sink { room, how, turns })
}

/// `init`, `apply`, `import`, `shown`; behind each of them what becomes of the streams: `terminal`,
/// `broken`, `short`, `interrupted`, `full ROOM`, `unflushed`.
pub fn on_commands(trial: &mut Trial, word: &str, rest: &str) -> Answer {
    let Some(how) = how_of(rest) else {
        return Answer::NotUnderstood;
    };
    let disk = trial.take_disk();
    let (disk, outcome) = ran(trial, word, how, disk);
    trial.put_disk(disk);
    match outcome {
        Ok(true) if trial.text.is_empty() && !trial.text.is_short => Answer::Done,
        Ok(true) => Answer::Text,
        Ok(false) => Answer::NoMemory,
        Err(fault) => stopped(trial, rest, &fault),
    }
}

/// The command on the lines that wait, over a disk: what it wrote stands in the trial, and so do
/// the turns of its streams.
pub fn ran<D: Disk + Drop>(
    trial: &mut Trial,
    word: &str,
    how: How,
    disk: D,
) -> (D, Result<bool, CommandFault>) {
    let turns = RefCell::new(Turns::new(trial.alloc));
    let input = trial.take_input();
    let (source, sink) = streams_of(how, &input, &turns);
    let mut writer = FailureCounted::new(sink);
    let ran = run_on(trial.alloc, word, source, &mut writer, disk);
    drop(writer);
    tell_turns(trial, turns.into_inner());
    trial.told = told_in(trial.text.as_str(), trial.told);
    ran
}

/// What was written stands in the trial, and so do the calls.
pub fn tell_turns(trial: &mut Trial, turns: Turns) {
    let Turns { calls, written } = turns;
    trial.text.bytes(&written);
    trial.turns = calls;
}

fn run_on<D: Disk>(
    alloc: Global,
    word: &str,
    source: Source<'_>,
    writer: &mut FailureCounted<Sink<'_>>,
    disk: D,
) -> Ran<D> {
    match word {
        "init" => of_unit(init_disk(alloc, disk)),
        "shown" => of_unit(show_disk(alloc, writer, disk)),
        "apply" => apply_disk(alloc, &mut FailureCounted::new(source), writer, disk),
        _ => import_disk(alloc, &mut FailureCounted::new(source), writer, disk),
    }
}

type Ran<D> = (D, Result<bool, CommandFault>);

// No reply of a command without any tells of wanting memory.
fn of_unit<D>(ran: (D, Result<(), CommandFault>)) -> Ran<D> {
    match ran {
        (disk, Ok(())) => (disk, Ok(true)),
        (disk, Err(fault)) => (disk, Err(fault)),
    }
}

// Each revision that was replied is told.
fn told_in(output: &str, told: u64) -> u64 {
    let mut told = told;
    for line in output.lines() {
        told = told.max(replied(line));
    }
    told
}

fn replied(line: &str) -> u64 {
    match line.strip_prefix("{\"revision\":") {
        Some(rest) => rest.trim_end_matches('}').parse::<u64>().unwrap_or(0),
        None => 0,
    }
}

/// The answer of a command that gave up, behind what it wrote.
pub fn stopped(trial: &mut Trial, rest: &str, fault: &CommandFault) -> Answer {
    trial.text.end_line();
    tell_fault(fault, &mut trial.text);
    if wants_memory(trial, rest, fault) {
        Answer::NoMemory
    } else {
        Answer::Stopped
    }
}

// The longest edit line.
const LONGEST: u64 = 32_768;

// Where no call was told to fail, a disk in memory fails for want of memory alone, and so does a
// store that has room for any edit.
fn wants_memory(trial: &mut Trial, rest: &str, fault: &CommandFault) -> bool {
    match fault {
        CommandFault::Memory => rest != "short",
        CommandFault::Device => rest.is_empty() && !trial.is_failing,
        CommandFault::StoreFailed => !trial.is_failing && LONGEST < room(trial),
        _ => false,
    }
}
