//! A disk over a file.

ghost use Rattle.std.specs.Prelude.{◌≡◌, [], ◌∷◌, ◌++◌};
ghost use Rattle.fp_disk.specs.Outcomes.{CountsFaults, all_synced};

use crate::disk::{Disk, DiskFault};
use crate::history::{CallKind, History};
use std::fs::OpenFile;
use std::io;
use std::io::{Read, Seek, SeekFrom, Write};
use std::marker::Model;

/// A disk over a file of a runtime. It notes its calls and counts its failures; what a real file
/// keeps over a crash, nothing here shows, so that it is never honest. It never makes a file
/// shorter.
#[derive(Drop)]
pub struct FileDisk<F: Drop> {
    file: F,
    history: History,
}

impl<F: Drop> Model for FileDisk<F> {
    ghost use Rattle.fp_disk.specs.History.{Calls};

    ghost Value = { Calls };

    ghost view = { λ d. d.history };
}

impl<F: Drop> FileDisk<F> {
    /// The disk, of no call yet, over a file that was opened to be read and written. It is never
    /// honest, so that of `Disk`'s clauses `called` and `cause` alone say something of it.
    pub fn over(file: F) -> FileDisk<F>
        ensures { result ≡ record { made = []; faults = 0 } }
    {
        FileDisk {
            file,
            history: History::new(),
        }
    }
}

// The answer of the system to such a call, noted.
fn noted<T>(history: &mut History, kind: CallKind, done: io::Result<T>) -> Result<T, DiskFault>
    ensures made { history.new.made ≡ history.old.made ++ kind ∷ [] }
    ensures cause { CountsFaults history.old.faults history.new.faults result }
{
    history.add(kind);
    match done {
        Ok(value) => Ok(value),
        Err(_) => Err(history.fault()),
    }
}

fn read<F: Read + Seek>(file: &mut F, at: u64, into: &mut [u8]) -> io::Result<()> {
    file.seek(SeekFrom::Start(at))?;
    file.read_exact(into)
}

// A write of nothing past the end reaches as far as any other.
fn write<F: Write + Seek + OpenFile>(file: &mut F, at: u64, from: &[u8]) -> io::Result<()> {
    if !from.is_empty() {
        file.seek(SeekFrom::Start(at))?;
        return file.write_all(from);
    }
    if file.seek(SeekFrom::End(0))? < at {
        file.set_len(at)?;
    }
    Ok(())
}

impl<F: Read + Write + Seek + OpenFile + Drop> Disk for FileDisk<F> {
    ghost honest = { λ d. ⊥ };

    ghost bytes = { λ d. [] };

    ghost unsynced = { λ d. all_synced [] };

    ghost moment = { λ d. 0 };

    ghost crash_states_since = { λ d t c. ⊥ };

    ghost faults = { λ d. d.faults };

    ghost calls = { λ d. d.made };

    ghost present = { λ d h. absurd h };

    ghost counts_now = { λ d t c h le out. absurd h };

    ghost only_now = { λ d c h left. absurd h };

    fn len(&mut self) -> Result<u64, DiskFault> {
        let end = self.file.seek(SeekFrom::End(0));
        noted(&mut self.history, CallKind::Length, end)
    }

    fn read_at(&mut self, at: u64, into: &mut [u8]) -> Result<(), DiskFault> {
        let done = read(&mut self.file, at, into);
        noted(&mut self.history, CallKind::Read, done)
    }

    fn write_at(&mut self, at: u64, from: &[u8]) -> Result<(), DiskFault> {
        let done = write(&mut self.file, at, from);
        noted(&mut self.history, CallKind::Write, done)
    }

    fn sync(&mut self) -> Result<(), DiskFault> {
        let done = self.file.sync_data();
        noted(&mut self.history, CallKind::Sync, done)
    }
}
