//! The files of a runtime.

ghost use Rattle.std.specs.Prelude.{◌≡◌, Some, [], ◌∷◌, ◌++◌, IfOk};
ghost use Rattle.fp_disk.specs.Outcomes.{CountsFaults};

use crate::files::DiskFiles;
use crate::locks::open_for;
use crate::openings::{OpeningLog, Purpose};
use fp_disk::{DiskFault, FileDisk};
use fp_log::{Event, Reported, Source, tell_failure};
use log::Log;
use std::fs::File;
use std::marker::Model;
use std::rt::Files;

/// The disk over a file of a runtime, whose failures are told to the runtime's log.
pub type SystemDisk<R> = FileDisk<Reported<R, File>>;

/// The files of a runtime. Nothing shows what stands at a path, so that their disks are never
/// honest. One that is opened to be written has the system's lock until its disk is closed. What
/// can't be opened, and each call of a file that fails, is told to the runtime's log.
#[derive(Drop)]
pub struct SystemFiles<R: Drop> {
    rt: R,
    log: OpeningLog,
}

impl<R: Drop> Model for SystemFiles<R> {
    ghost use Rattle.fp_files.specs.Openings.{Openings};

    ghost Value = { Openings };

    ghost view = { λ f. f.log };
}

impl<R: Drop> SystemFiles<R> {
    /// The files of this runtime, of which no path was asked for yet. Its calls have the clauses of
    /// `DiskFiles`, and no more: its disks, a `FileDisk` each, are never honest.
    pub fn of(rt: R) -> SystemFiles<R>
        ensures { result ≡ record { asked = []; faults = 0 } }
    {
        SystemFiles {
            rt,
            log: OpeningLog::new(),
        }
    }
}

impl<R: Files<File = File> + Log + Copy + Drop> SystemFiles<R> {
    // The file at this path, as the system gives it for this, noted.
    fn lend(&mut self, path: &str, purpose: Purpose) -> Result<SystemDisk<R>, DiskFault>
        ensures asked { self.new.asked ≡ self.old.asked ++ (path.now, purpose) ∷ [] }
        ensures cause { CountsFaults self.old.faults self.new.faults result }
        ensures disk { IfOk result (λ d. d ≡ record { made = []; faults = 0 }) }
    {
        self.log.ask(path, purpose);
        match open_for(&self.rt, path, purpose) {
            Ok(file) => Ok(FileDisk::over(Reported::new(self.rt, Source::File, file))),
            Err(reason) => {
                tell_failure(&self.rt, &Event::NotOpened { path }, &reason);
                Err(self.log.fault())
            }
        }
    }
}

impl<R: Files<File = File> + Log + Copy + Drop> DiskFiles for SystemFiles<R> {
    type Disk = SystemDisk<R>;

    ghost at = { λ f path. Some (record { made = []; faults = 0 }) };

    ghost lent = { λ f path. Unit {0} };

    ghost asked = { λ f. f.asked };

    ghost faults = { λ f. f.faults };

    fn create(&mut self, path: &str) -> Result<SystemDisk<R>, DiskFault> {
        self.lend(path, Purpose::Making)
    }

    fn open(&mut self, path: &str) -> Result<SystemDisk<R>, DiskFault> {
        self.lend(path, Purpose::Writing)
    }

    fn open_read_only(&mut self, path: &str) -> Result<SystemDisk<R>, DiskFault> {
        self.lend(path, Purpose::Reading)
    }

    fn close(&mut self, path: &str, disk: SystemDisk<R>) {
        let _ = path;
        drop(disk);
    }
}
