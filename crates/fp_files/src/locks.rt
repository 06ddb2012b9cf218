//! How a file is opened, and who may write it.

ghost use Rattle.std.specs.Prelude.{◌≡◌, ◌↔◌, IsTrue, IsOk, true};
ghost use Rattle.std.specs.Fs.{new_options, with_create, with_read, with_write};
ghost use Rattle.fp_files.specs.Locks.{HasNoLocks, MayWrite};
ghost use Rattle.fp_files.specs.Openings.{makes, writes};

use crate::openings::Purpose;
use libc::{POSIX_FADV_DONTNEED, posix_fadvise};
use std::fs::{File, Metadata, OpenOptions, TryLockError};
use std::io;
use std::io::ErrorKind;
use std::os::fd::AsRawFd;
use std::os::unix::fs::FileTypeExt;
use std::rt::Files;

// The system's number for "no locks available".
const NO_LOCKS: i32 = 37;

const TAKEN: &str = "another program has the file to write";

const NO_FILE: &str = "it is a folder or a pipe";

/// The file at this path, with its lock where it is to be written: the file has it until it is
/// closed. Where another program has the lock it isn't opened. What is in the file stays. One that
/// is to be written is read as its device has it, and the name of one that is to be made is synced.
pub fn open_for<R: Files<File = File>>(rt: &R, path: &str, purpose: Purpose) -> io::Result<File> {
    if !writes(purpose) {
        has_bytes(&rt.metadata(path)?)?;
    }
    let file = options_for(purpose).open(rt, path)?;
    if writes(purpose) {
        may_write(file.try_lock())?;
        forget(&file);
    }
    if makes(purpose) {
        sync_name(rt, path)?;
    }
    Ok(file)
}

// Has the folder of a path keep the names that it has now. One that may not be read, or whose file
// system syncs no folders, isn't asked.
fn sync_name<R: Files<File = File>>(rt: &R, path: &str) -> io::Result<()> {
    let folder = match File::open(rt, folder_of(path)) {
        Err(fault) if fault.kind() == ErrorKind::PermissionDenied => return Ok(()),
        opened => opened?,
    };
    match folder.sync_all() {
        Err(fault) if fault.kind() != ErrorKind::InvalidInput => Err(fault),
        _ => Ok(()),
    }
}

// The folder in which a path names something.
fn folder_of(path: &str) -> &str {
    match path.rfind('/') {
        Some(0) => "/",
        Some(end) => &path[..end],
        None => ".",
    }
}

// Has the system forget what it holds of a file in memory. A sync that failed may have left there
// what the device doesn't have, as if it were synced, so that no later sync would write it.
fn forget(file: &File) {
    let _ = posix_fadvise(file.as_raw_fd(), 0, 0, POSIX_FADV_DONTNEED);
}

// What opens for reading, and neither a folder nor what waits for a writer.
fn has_bytes(about: &Metadata) -> io::Result<()> {
    if about.is_dir() || about.file_type().is_fifo() {
        return Err(io::Error::new(ErrorKind::InvalidInput, NO_FILE));
    }
    Ok(())
}

// It is never cut.
fn options_for(purpose: Purpose) -> OpenOptions
    ensures { result ≡ with_create (with_write (with_read new_options true) (writes purpose))
        (makes purpose) }
{
    let mut how = OpenOptions::new();
    how.read(true).write(writes(purpose)).create(makes(purpose));
    how
}

fn writes(purpose: Purpose) -> bool
    ensures { result ≡ writes purpose }
{
    !matches!(purpose, Purpose::Reading)
}

fn makes(purpose: Purpose) -> bool
    ensures { result ≡ makes purpose }
{
    matches!(purpose, Purpose::Making)
}

// A lock that isn't to be had where there is one is a fault, and a file system without locks none.
fn may_write(asked: Result<(), TryLockError>) -> io::Result<()>
    ensures { IsOk result ↔ MayWrite asked }
{
    match asked {
        Ok(()) => Ok(()),
        Err(TryLockError::WouldBlock) => Err(io::Error::new(ErrorKind::WouldBlock, TAKEN)),
        Err(TryLockError::Error(fault)) => {
            if has_no_locks(&fault) {
                return Ok(());
            }
            Err(fault)
        }
    }
}

fn has_no_locks(fault: &io::Error) -> bool
    ensures { IsTrue result ↔ HasNoLocks fault.now }
{
    fault.kind() == ErrorKind::Unsupported || fault.raw_os_error() == Some(NO_LOCKS)
}
