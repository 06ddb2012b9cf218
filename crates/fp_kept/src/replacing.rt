//! The steps by which one file takes the place of another: each asks for what the one before gives.

use std::alloc::{AllocError, Global};
use std::fs::File;
use std::io;
use std::io::ErrorKind;
use std::rt::Files;

/// Where a file is made that is to take another's place: beside it, with `.new` behind its name.
#[derive(Drop)]
pub struct Beside {
    path: String,
}

impl Beside {
    /// The place beside this path.
    pub fn of(alloc: Global, path: &str) -> Result<Beside, AllocError> {
        Ok(Beside {
            path: format!(in alloc; "{path}.new")?,
        })
    }

    /// Where it is.
    pub fn path(&self) -> &str {
        self.path.as_str()
    }
}

/// That a file beside another was made and synced: `Made::synced` alone makes one.
#[derive(Drop)]
pub struct Made<'b> {
    beside: &'b Beside,
}

impl<'b> Made<'b> {
    /// Syncs the file that was made there. Nothing more is written to it.
    pub fn synced(file: File, beside: &'b Beside) -> io::Result<Made<'b>> {
        file.sync_all()?;
        Ok(Made { beside })
    }

    /// Gives it the name of the file whose place it takes.
    pub fn renamed<R: Files<File = File>>(self, rt: &R, to: &str) -> io::Result<Renamed> {
        rt.rename(self.beside.path(), to)?;
        Ok(Renamed { of: () })
    }
}

/// That such a file has the other's name: `Made::renamed` alone makes one.
#[derive(Drop)]
pub struct Renamed {
    of: (),
}

impl Renamed {
    /// Syncs the names in its folder, where that can be asked: of a folder that can be opened to be
    /// read, on a file system that syncs folders.
    pub fn synced_in<R: Files<File = File>>(self, rt: &R, folder: &str) -> io::Result<Replaced> {
        let Ok(folder) = File::open(rt, folder) else {
            return Ok(Replaced { of: () });
        };
        match folder.sync_all() {
            Err(fault) if fault.kind() != ErrorKind::InvalidInput => Err(fault),
            _ => Ok(Replaced { of: () }),
        }
    }
}

/// That it took the other's place: `Renamed::synced_in` alone makes one.
#[derive(Drop)]
pub struct Replaced {
    of: (),
}
