//! The calls that a disk makes on its file, each of them: a sync that isn't made shows in no byte
//! that is read back.

use crate::commands::{How, ran};
use crate::text::bytes_of;
use crate::trial::{Answer, Trial, tell_fault};
use fp_commands::CommandFault;
use fp_disk::{Disk, DiskFault, FileDisk};
use fp_log::{Reported, Source};
use fp_transcript::{Args, Text};
use log::Log;
use std::alloc::{AllocGlobal, Global};
use std::cell::RefCell;
use std::fmt::Display;
use std::fs::{Metadata, OpenFile, OpenOptions};
use std::io::{ErrorKind, Read, Seek, SeekFrom, Write};
use std::rt::Files;
use std::{fs, io, mem};

// The calls of a file, and how many more pass before one fails.
#[derive(Drop)]
struct Calls {
    text: Text,
    passing: u64,
}

impl Calls {
    fn note(&mut self, call: &impl Display) -> io::Result<()> {
        self.text.part();
        self.text.shown(call);
        if self.passing == 0 {
            return Err(ErrorKind::Other.into());
        }
        self.passing -= 1;
        Ok(())
    }
}

// A file whose calls are noted. A write that fails puts one byte first.
#[derive(Drop)]
struct NotedFile<'a, F: Drop> {
    file: F,
    calls: &'a RefCell<Calls>,
}

impl<F: Drop> NotedFile<'_, F> {
    fn note(&self, call: &impl Display) -> io::Result<()> {
        match self.calls.try_borrow_mut() {
            Ok(mut calls) => calls.note(call),
            Err(_) => Err(ErrorKind::Other.into()),
        }
    }

    // A single byte is noted itself.
    fn note_write(&self, bytes: &[u8]) -> io::Result<()> {
        match bytes {
            [byte] => self.note(&format_args!("byte {byte:02x}")),
            _ => self.note(&format_args!("write {}", bytes.len())),
        }
    }
}

impl<F: Read + Drop> Read for NotedFile<'_, F> {
    fn read(&mut self, buf: &mut [u8]) -> io::Result<usize> {
        self.note(&format_args!("read {}", buf.len()))?;
        self.file.read(buf)
    }
}

impl<F: Write + Drop> Write for NotedFile<'_, F> {
    fn write(&mut self, buf: &[u8]) -> io::Result<usize> {
        if let Err(e) = self.note_write(buf) {
            let _ = self.file.write(buf.get(..1).unwrap_or(&[]))?;
            return Err(e);
        }
        self.file.write(buf)
    }

    fn flush(&mut self) -> io::Result<()> {
        self.file.flush()
    }
}

impl<F: Seek + Drop> Seek for NotedFile<'_, F> {
    fn seek(&mut self, to: SeekFrom) -> io::Result<u64> {
        match to {
            SeekFrom::Start(at) => self.note(&format_args!("seek {at}"))?,
            SeekFrom::End(0) => self.note(&"seek end")?,
            _ => self.note(&"seek from there")?,
        }
        self.file.seek(to)
    }
}

impl<F: OpenFile + Drop> OpenFile for NotedFile<'_, F> {
    fn metadata(&self) -> io::Result<Metadata> {
        self.file.metadata()
    }

    fn set_len(&self, size: u64) -> io::Result<()> {
        self.note(&format_args!("set_len {size}"))?;
        self.file.set_len(size)
    }

    fn sync_all(&self) -> io::Result<()> {
        self.note(&"sync_all")?;
        self.file.sync_all()
    }

    fn sync_data(&self) -> io::Result<()> {
        self.note(&"sync_data")?;
        self.file.sync_data()
    }
}

// Where the file is made.
const NAME: &str = "noted.fp";

/// `noted PASSING init`, `noted PASSING apply`, `noted PASSING on CALL / CALL ..`: over a file with
/// the disk's bytes, of which so many calls pass before one fails, or `all`. Answers its calls, and
/// then what was written or read, and the fault. The disk then has the file's bytes.
pub fn on_noted<R: Files + AllocGlobal + Log + Copy + Drop>(
    rt: &R,
    trial: &mut Trial,
    args: &mut Args<'_>,
) -> Answer {
    let left = noted(rt, trial, args);
    held_on(trial, left)
}

/// The bytes that the file is left with; none where memory was wanting.
pub fn noted<R: Files + AllocGlobal + Log + Copy + Drop>(
    rt: &R,
    trial: &mut Trial,
    args: &mut Args<'_>,
) -> Option<io::Result<Vec<u8>>> {
    let passing = match args.word() {
        "all" => u64::MAX,
        word => args.number_of(word),
    };
    let bytes = trial.bytes()?;
    Some(in_file(rt, trial, &bytes, passing, args))
}

/// Goes on with the bytes that the file was left with.
pub fn held_on(trial: &mut Trial, left: Option<io::Result<Vec<u8>>>) -> Answer {
    match left {
        Some(Ok(bytes)) => match trial.hold(bytes) {
            Answer::Done => Answer::Text,
            answer => answer,
        },
        Some(Err(_)) => Answer::Word("no file"),
        None => Answer::NoMemory,
    }
}

fn in_file<R: Files + AllocGlobal + Log + Copy + Drop>(
    rt: &R,
    trial: &mut Trial,
    bytes: &[u8],
    passing: u64,
    args: &mut Args<'_>,
) -> io::Result<Vec<u8>> {
    fs::write(rt, NAME, bytes)?;
    let mut how = OpenOptions::new();
    how.read(true).write(true);
    let file = how.open(rt, NAME)?;
    let calls = RefCell::new(Calls {
        text: Text::new(trial.alloc),
        passing,
    });
    let noted = NotedFile {
        file,
        calls: &calls,
    };
    let disk = FileDisk::over(Reported::new(*rt, Source::File, noted));
    on_disk(trial, disk, args);
    tell_first(trial, calls.into_inner().text);
    let bytes = fs::read(rt, NAME)?;
    fs::remove_file(rt, NAME)?;
    Ok(bytes)
}

// The calls stand in front of what was told.
fn tell_first(trial: &mut Trial, calls: Text) {
    let told = mem::replace(&mut trial.text, calls);
    trial.text.end_line();
    trial.text.put(&told);
}

// What is told of it stands in the trial.
fn on_disk<F: Read + Write + Seek + OpenFile + Drop>(
    trial: &mut Trial,
    disk: FileDisk<F>,
    args: &mut Args<'_>,
) {
    match args.word() {
        "on" => {
            let mut disk = disk;
            let made = calls_of(&mut disk, args, &mut trial.text);
            if made.is_err() {
                trial.text.end_line();
                tell_fault(&CommandFault::Device, &mut trial.text);
            }
        }
        word => {
            let (_disk, outcome) = ran(trial, word, How::Well, disk);
            if let Err(fault) = outcome {
                trial.text.end_line();
                tell_fault(&fault, &mut trial.text);
            }
        }
    }
}

// `CALL / CALL ..`.
fn calls_of<F: Read + Write + Seek + OpenFile + Drop>(
    disk: &mut FileDisk<F>,
    args: &Args<'_>,
    out: &mut Text,
) -> Result<(), DiskFault> {
    for call in args.rest.split(" / ") {
        one_call(args.alloc, disk, call, out)?;
    }
    Ok(())
}

// `write AT BYTES`, `read AT` of four bytes, `len`, `sync`.
fn one_call<F: Read + Write + Seek + OpenFile + Drop>(
    alloc: Global,
    disk: &mut FileDisk<F>,
    call: &str,
    out: &mut Text,
) -> Result<(), DiskFault> {
    let mut args = Args::of(alloc, call);
    match args.word() {
        "write" => {
            let at = args.number();
            disk.write_at(at, &bytes_of(&mut args))
        }
        "read" => {
            let at = args.number();
            let mut bytes = [0u8; 4];
            disk.read_at(at, &mut bytes)?;
            out.part();
            out.digits(&bytes);
            Ok(())
        }
        "len" => {
            let length = disk.len()?;
            out.part();
            out.number(length);
            Ok(())
        }
        _ => {
            disk.sync()?;
            Ok(())
        }
    }
}
