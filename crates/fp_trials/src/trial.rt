//! What commands work on, and what comes of them.

use fp_commands::CommandFault;
use fp_committer::Committer;
use fp_disk::{Disk, FailedWrite, Failing, MemoryDisk};
use fp_edit::{Edit, EditFault};
use fp_journal::{BytesFault, read_bytes};
use fp_layout::OpenFault;
use fp_transcript::Text;
use std::alloc::Global;
use std::collections::VecDeque;
use std::mem;

/// Why a disk or a store refused.
#[derive(Clone, Copy)]
pub enum Fault {
    NotEmpty,
    Unformatted,
    UnknownVersion(u8),
    Damaged(u64),
    Device,
    StoreFailed,
    Memory,
}

impl From<OpenFault> for Fault {
    fn from(fault: OpenFault) -> Fault {
        match fault {
            OpenFault::Unformatted => Fault::Unformatted,
            OpenFault::UnknownVersion(version) => Fault::UnknownVersion(version),
            OpenFault::Damaged { at } => Fault::Damaged(at),
            OpenFault::Device => Fault::Device,
            OpenFault::Memory => Fault::Memory,
        }
    }
}

// The fault of the program's commands, whose text is told.
fn as_told(fault: Fault) -> CommandFault {
    match fault {
        Fault::NotEmpty => CommandFault::NotEmpty,
        Fault::Unformatted => CommandFault::Unformatted,
        Fault::UnknownVersion(version) => CommandFault::UnknownVersion(version),
        Fault::Damaged(at) => CommandFault::Damaged { at },
        Fault::Device => CommandFault::Device,
        Fault::StoreFailed => CommandFault::StoreFailed,
        Fault::Memory => CommandFault::Memory,
    }
}

// All bytes of a disk, which is made sure of first.
fn synced_bytes<D: Disk>(alloc: Global, disk: &mut D) -> Result<Vec<u8>, BytesFault> {
    disk.sync()?;
    let len = disk.len()?;
    read_bytes(alloc, disk, 0, len as usize)
}

/// What came of a command.
#[derive(Clone, Copy)]
pub enum Answer {
    /// It was done, and there is nothing to tell.
    Done,
    /// The line is no command.
    NotUnderstood,
    /// Memory ran out.
    NoMemory,
    /// The flags are at this revision.
    Revision(u64),
    /// A number that was asked for.
    Number(u64),
    /// What became of an event, and the number that goes with it.
    Named(&'static str, u64),
    /// How far it came.
    Word(&'static str),
    /// A text, which stands in the trial.
    Text,
    /// The flags don't admit the edit.
    Refused(EditFault),
    /// The disk or its bytes are at fault.
    Fault(Fault),
    /// A command of the program gave up: what it wrote, and why, stand in the trial.
    Stopped,
}

impl Answer {
    /// Whether it is a fault.
    pub fn is_fault(self) -> bool {
        matches!(self, Answer::Fault(_) | Answer::Stopped)
    }

    /// Tells it. The text is what stands in the trial.
    pub fn tell(self, text: &Text, out: &mut Text) {
        match self {
            Answer::Text | Answer::Stopped => out.put(text),
            answer => answer.tell_plain(out),
        }
    }

    /// Tells it, where it has no text.
    pub fn tell_plain(self, out: &mut Text) {
        match self {
            Answer::Done | Answer::Text | Answer::Stopped => {}
            Answer::NoMemory => out.is_short = true,
            Answer::NotUnderstood => out.push("not understood"),
            Answer::Revision(revision) => out.named("revision", revision),
            Answer::Number(number) => out.number(number),
            Answer::Named(name, number) => out.named(name, number),
            Answer::Word(word) => out.push(word),
            Answer::Refused(fault) => tell_refused(fault, out),
            Answer::Fault(fault) => tell_fault(&as_told(fault), out),
        }
    }
}

fn tell_refused(fault: EditFault, out: &mut Text) {
    match fault {
        EditFault::Conflict { current } => tell_conflict(current, out),
        EditFault::ConflictIn { at, current } => {
            tell_conflict(current, out);
            out.named(" of change", at as u64);
        }
        fault => out.shown(&fault),
    }
}

fn tell_conflict(current: Option<u64>, out: &mut Text) {
    match current {
        None => out.push("conflict"),
        Some(revision) => out.named("conflict at", revision),
    }
}

/// Tells a fault of the program's commands.
pub fn tell_fault(fault: &CommandFault, out: &mut Text) {
    out.shown(fault);
}

/// A world that may be let go.
pub struct OpenWorld {
    pub world: Committer<MemoryDisk>,
}

impl OpenWorld {
    pub fn into_disk(self) -> MemoryDisk {
        let OpenWorld { world } = self;
        world.into_disk()
    }
}

impl Drop for OpenWorld {
    fn drop(self) {
        let _disk = self.into_disk();
    }
}

/// A disk, or the world that is open on it.
#[derive(Drop)]
pub enum Held {
    Closed(MemoryDisk),
    Open(OpenWorld),
}

/// What commands work on: a disk or an open world, the bytes that were kept of one, the
/// edits and the lines that wait, and the greatest revision that was told; the text of the
/// last answer that is one; and the reads, writes and flushes of the last command.
#[derive(Drop)]
pub struct Trial {
    pub alloc: Global,
    pub held: Held,
    pub kept: Vec<u8>,
    pub edits: VecDeque<Edit>,
    pub input: Vec<u8>,
    pub told: u64,
    pub text: Text,
    pub turns: Text,
    // Whether calls of the disk were told to fail.
    pub is_failing: bool,
}

impl Trial {
    /// A trial over an empty disk.
    pub fn new(alloc: Global) -> Trial {
        Trial {
            alloc,
            held: Held::Closed(MemoryDisk::new(alloc)),
            kept: Vec::new(alloc),
            edits: VecDeque::new(alloc),
            input: Vec::new(alloc),
            told: 0,
            text: Text::new(alloc),
            turns: Text::new(alloc),
            is_failing: false,
        }
    }

    /// The disk, closed.
    pub fn take_disk(&mut self) -> MemoryDisk {
        let none = Held::Closed(MemoryDisk::new(self.alloc));
        match mem::replace(&mut self.held, none) {
            Held::Closed(disk) => disk,
            Held::Open(open) => open.into_disk(),
        }
    }

    /// Goes on with this disk.
    pub fn put_disk(&mut self, disk: MemoryDisk) {
        self.held = Held::Closed(disk);
    }

    /// Goes on with another disk, which holds these bytes.
    pub fn hold(&mut self, bytes: Vec<u8>) -> Answer {
        match MemoryDisk::holding(self.alloc, bytes) {
            Ok(disk) => {
                self.put_disk(disk);
                self.is_failing = false;
                Answer::Done
            }
            Err(_) => Answer::NoMemory,
        }
    }

    /// Goes on with another disk, which holds a copy of these bytes.
    pub fn hold_copy(&mut self, bytes: &[u8]) -> Answer {
        match bytes.to_vec(self.alloc) {
            Ok(bytes) => self.hold(bytes),
            Err(_) => Answer::NoMemory,
        }
    }

    /// The disk's bytes. No call of it fails from then on. None where memory is wanting.
    pub fn bytes(&mut self) -> Option<Vec<u8>> {
        self.set_failing(Failing::Never, FailedWrite::Nothing);
        let mut disk = self.take_disk();
        let bytes = synced_bytes(self.alloc, &mut disk);
        self.put_disk(disk);
        bytes.ok()
    }

    /// These calls of the disk fail from now on.
    pub fn set_failing(&mut self, failing: Failing, writes: FailedWrite) {
        let mut disk = self.take_disk();
        disk.set_failing(failing, writes);
        self.put_disk(disk);
        self.is_failing = !matches!(failing, Failing::Never);
    }

    /// The lines that wait.
    pub fn take_input(&mut self) -> Vec<u8> {
        let none = Vec::new(self.alloc);
        mem::replace(&mut self.input, none)
    }

    /// Some bytes wait.
    pub fn wait(&mut self, bytes: &[u8]) -> Answer {
        match self.input.extend_from_slice(bytes) {
            Ok(()) => Answer::Done,
            Err(_) => Answer::NoMemory,
        }
    }

    /// Tells a revision.
    pub fn tell(&mut self, revision: u64) {
        self.told = self.told.max(revision);
    }

    /// The answer of this fault. Where no call was told to fail, a disk in memory fails
    /// for want of memory alone.
    pub fn fault(&self, fault: Fault) -> Answer {
        match fault {
            Fault::Memory => Answer::NoMemory,
            Fault::Device if !self.is_failing => Answer::NoMemory,
            fault => Answer::Fault(fault),
        }
    }
}
