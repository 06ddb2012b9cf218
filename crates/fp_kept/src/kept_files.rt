//! The calls of the system by which a frame is kept.

use crate::kept::KeptParts;
use crate::replacing::{Beside, Made, Renamed, Replaced};
use std::alloc::Global;
use std::fs::{File, Metadata, OpenFile, OpenOptions};
use std::io;
use std::io::{ErrorKind, Read, Write};
use std::rt::Files;

// The longest file that is read: a frame of the longest body, and its digest.
const LONGEST: u64 = 134_217_728 + 48;

const NO_FILE: &str = "what stands there, or at .new, is no regular file";

const NO_FRAME: &str = "what stands there is no kept frame";

// With what a frame begins.
const BEGINNING: &[u8; 4] = b"SNP1";

/// The calls by which a frame is kept: those of the system are `SystemFiles`.
pub trait KeptFiles: Drop {
    /// All bytes of a file. A file that is longer than any kept frame may be refused.
    fn read(&self, alloc: Global, path: &str) -> io::Result<Vec<u8>>;

    /// Whether a file may be made at this path: `Err` where something else stands there, as a folder
    /// or a device, also behind a link; `Ok` where nothing does.
    fn may_write(&self, path: &str) -> io::Result<()>;

    /// Whether a frame may take the place of what stands at this path: of nothing, an empty file, or
    /// one that begins as a frame does. `Err` where it is anything else.
    fn may_replace(&self, path: &str) -> io::Result<()>;

    /// Makes a new file of these parts, in place of one that there may be, and syncs it.
    fn write<'b>(&self, beside: &'b Beside, parts: &KeptParts<'_>) -> io::Result<Made<'b>>;

    /// Gives such a file the name of another, whose place it takes.
    fn rename(&self, made: Made<'_>, to: &str) -> io::Result<Renamed>;

    /// Syncs the names in its folder, where that can be asked.
    fn sync_folder(&self, renamed: Renamed, path: &str) -> io::Result<Replaced>;
}

/// The files of the system.
#[derive(Drop)]
pub struct SystemFiles<R: Drop> {
    rt: R,
}

impl<R: Files<File = File> + Drop> SystemFiles<R> {
    /// Those of a runtime; it reads no file that is longer than a kept frame can be.
    pub fn of(rt: R) -> SystemFiles<R> {
        SystemFiles { rt }
    }
}

impl<R: Files<File = File> + Drop> KeptFiles for SystemFiles<R> {
    fn read(&self, alloc: Global, path: &str) -> io::Result<Vec<u8>> {
        let about = self.rt.metadata(path)?;
        is_regular(&about)?;
        if about.len() > LONGEST {
            return Err(io::Error::from(ErrorKind::FileTooLarge));
        }
        let mut file = File::open(&self.rt, path)?;
        let mut bytes = Vec::new(alloc);
        file.read_to_end(&mut bytes)?;
        Ok(bytes)
    }

    fn may_write(&self, path: &str) -> io::Result<()> {
        match self.rt.metadata(path) {
            Ok(about) => is_regular(&about),
            Err(reason) if reason.kind() == ErrorKind::NotFound => Ok(()),
            Err(reason) => Err(reason),
        }
    }

    fn may_replace(&self, path: &str) -> io::Result<()> {
        self.may_write(path)?;
        match File::open(&self.rt, path) {
            Ok(mut file) => begins_a_frame(&mut file),
            Err(reason) if reason.kind() == ErrorKind::NotFound => Ok(()),
            Err(reason) => Err(reason),
        }
    }

    fn write<'b>(&self, beside: &'b Beside, parts: &KeptParts<'_>) -> io::Result<Made<'b>> {
        // What was left there goes first. So nothing is written through a link, or into a file that has
        // another name too.
        let _ = self.rt.remove_file(beside.path());
        let mut file = OpenOptions::new()
            .write(true)
            .create_new(true)
            .open(&self.rt, beside.path())?;
        file.write_all(&parts.head)?;
        file.write_all(parts.document)?;
        file.write_all(&parts.digest)?;
        Made::synced(file, beside)
    }

    fn rename(&self, made: Made<'_>, to: &str) -> io::Result<Renamed> {
        made.renamed(&self.rt, to)
    }

    fn sync_folder(&self, renamed: Renamed, path: &str) -> io::Result<Replaced> {
        renamed.synced_in(&self.rt, path)
    }
}

// Nothing else is read or written: a pipe would be waited for, a device replaced.
fn is_regular(about: &Metadata) -> io::Result<()> {
    if about.is_file() {
        return Ok(());
    }
    Err(io::Error::new(ErrorKind::InvalidInput, NO_FILE))
}

// What is empty, or begins as a frame does.
fn begins_a_frame<F: Read>(file: &mut F) -> io::Result<()> {
    let mut bytes = [0; 4];
    let count = file.read(&mut bytes)?;
    if count == 0 || bytes == *BEGINNING {
        return Ok(());
    }
    Err(io::Error::new(ErrorKind::InvalidInput, NO_FRAME))
}
