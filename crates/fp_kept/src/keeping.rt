//! The file in which the last frame is kept.

ghost use Rattle.std.specs.Prelude.{IfOk, IfSome};
ghost use Rattle.fp_stream.specs.Frames.{snapshot_of};
ghost use Rattle.fp_kept.specs.Kept.{IsCarried};

use crate::kept::{KeptParts, decode};
use crate::kept_files::KeptFiles;
use crate::replacing::{Beside, Replaced};
use fp_stream::Frame;
use std::alloc::{AllocError, Global};
use std::io;

/// Where a frame is kept: a file, and a second one that takes its place once it is whole.
#[derive(Drop)]
pub struct KeptFile {
    path: String,
    beside: Beside,
    folder: String,
}

impl KeptFile {
    /// The file at this path, to be read at a start and written while sets are shown. The second
    /// one is beside it, with `.new` behind its name.
    pub fn at(alloc: Global, path: &str) -> Result<KeptFile, AllocError> {
        let folder = match path.rfind('/') {
            Some(0) => "/",
            Some(end) => &path[..end],
            None => ".",
        };
        Ok(KeptFile {
            path: String::from_str(alloc, path)?,
            beside: Beside::of(alloc, path)?,
            folder: String::from_str(alloc, folder)?,
        })
    }

    /// Where it is.
    pub fn path(&self) -> &str {
        self.path.as_str()
    }

    /// The frame that is kept, to show it at a start; `None` where the file has none.
    pub fn read<K: KeptFiles>(&self, alloc: Global, files: &K) -> io::Result<Option<Frame>>
        // A frame that is found is one that a stream may carry.
        ensures { IfOk result (λ found. IfSome found (λ f. IsCarried (snapshot_of f))) }
    {
        let bytes = files.read(alloc, self.path.as_str())?;
        let kept = decode(alloc, &bytes)?;
        Ok(kept)
    }

    /// Keeps a frame in place of the one before: it is written beside it and synced, and then takes
    /// its place, so that a crash leaves one or the other. Nothing is written where what stands
    /// at either place is no regular file, or at its own neither empty nor the beginning of a frame.
    pub fn keep<K: KeptFiles>(&self, files: &K, parts: &KeptParts<'_>) -> io::Result<Replaced> {
        files.may_replace(self.path.as_str())?;
        files.may_write(self.beside.path())?;
        let made = files.write(&self.beside, parts)?;
        let renamed = files.rename(made, self.path.as_str())?;
        files.sync_folder(renamed, self.folder.as_str())
    }
}
