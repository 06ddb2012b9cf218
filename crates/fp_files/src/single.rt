//! One disk at one path.

ghost use Rattle.std.specs.Prelude.{◌≡◌, ◌≢◌, Some, None, [], ◌∷◌, ◌++◌, IfOk};
ghost use Rattle.std.specs.Prelude.{OnOk, OnErr, string_bytes};
ghost use Rattle.fp_disk.specs.Outcomes.{CountsFaults};
ghost use Rattle.fp_files.specs.Openings.{disk_at};

use crate::files::DiskFiles;
use crate::openings::{OpeningLog, Purpose};
use fp_disk::{Disk, DiskFault};
use std::marker::Model;

/// One disk at one path; no other path has one.
#[derive(Drop)]
pub struct SingleFile<D: Drop> {
    path: String,
    disk: Option<D>,
    log: OpeningLog,
}

impl<D: Drop> Model for SingleFile<D> {
    ghost use Rattle.std.specs.Prelude.{string_bytes};
    ghost use Rattle.std.specs.Coded.{codes};
    ghost use Rattle.fp_files.specs.Openings.{OneFile};

    ghost Value = { OneFile D };

    ghost coded = { Prim.hlevel (codes) };

    ghost view = { λ f. record { path = string_bytes f.path; disk = f.disk; openings = f.log } };
}

impl<D: Drop> SingleFile<D> {
    /// This disk at this path, and none at another: one file of which all clauses of `DiskFiles`
    /// hold, honest where its disk is.
    pub fn new(path: String, disk: D) -> SingleFile<D>
        ensures { result ≡ record {
          path = string_bytes path;
          disk = Some disk;
          openings = record { asked = []; faults = 0 };
        } }
    {
        SingleFile {
            path,
            disk: Some(disk),
            log: OpeningLog::new(),
        }
    }

    /// Gives the disk back, unless it is lent.
    pub fn into_disk(self) -> Option<D>
        ensures { result ≡ self.disk }
    {
        let SingleFile {
            path: _,
            disk,
            log: _,
        } = self;
        disk
    }

    // To whom it is lent, nobody else gets it.
    fn lend(&mut self, path: &str, purpose: Purpose) -> Result<D, DiskFault>
        ensures found { IfOk result (λ d. disk_at self.old path.now ≡ Some d) }
        ensures lent { OnOk result ((path.now ≡ self.new.path) × (self.new.disk ≡ None)) }
        ensures alone { OnOk result (self.old.disk ≢ None) }
        ensures path { self.new.path ≡ self.old.path }
        ensures failed { OnErr result (self.new.disk ≡ self.old.disk) }
        ensures asked { self.new.openings.asked ≡ self.old.openings.asked
            ++ (path.now, purpose) ∷ [] }
        ensures cause { CountsFaults self.old.openings.faults self.new.openings.faults result }
    {
        self.log.ask(path, purpose);
        if path != self.path.as_str() {
            return Err(self.log.fault());
        }
        match self.disk.take() {
            Some(disk) => Ok(disk),
            None => Err(self.log.fault()),
        }
    }
}

impl<D: Disk + Drop> DiskFiles for SingleFile<D> {
    type Disk = D;

    ghost at = { disk_at };

    ghost lent = { λ f path. (path ≡ f.path) × (f.disk ≡ None) };

    ghost asked = { λ f. f.openings.asked };

    ghost faults = { λ f. f.openings.faults };

    fn create(&mut self, path: &str) -> Result<D, DiskFault> {
        self.lend(path, Purpose::Making)
    }

    fn open(&mut self, path: &str) -> Result<D, DiskFault> {
        self.lend(path, Purpose::Writing)
    }

    fn open_read_only(&mut self, path: &str) -> Result<D, DiskFault> {
        self.lend(path, Purpose::Reading)
    }

    fn close(&mut self, path: &str, disk: D) {
        if path == self.path.as_str() {
            self.disk = Some(disk);
        }
    }
}
