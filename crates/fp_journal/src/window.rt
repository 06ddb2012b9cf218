//! A part of a disk's bytes that was read, and more of them as they are needed.

ghost use Rattle.std.specs.Prelude.{◌≡◌, ◌<◌, ◌≤◌, ◌+◌, ◌-◌, ◌^◌, length, slice_range, IfOk, OnOk};
ghost use Rattle.std.specs.Prelude.{IsErrOf};
ghost use Rattle.fp_journal.specs.Holds.{Holds};
ghost use Rattle.fp_journal.specs.Pieces.{OnlyReads};
ghost use Rattle.fp_journal.specs.Windows.{IsWindowAt, StandsIn};
ghost use Rattle.fp_journal.specs.declared.pieces.BytesFault.TheVariants.{Device, Memory};

use crate::pieces::{BytesFault, PIECE, read_on};
use fp_disk::Disk;
use std::alloc::{AllocError, Global};

/// The bytes of a disk from a place on, so many as were read.
#[derive(Drop)]
pub(crate) struct Window {
    pub(crate) at: u64,
    pub(crate) bytes: Vec<u8>,
}

impl Window {
    // Nothing was read yet.
    pub(crate) fn new(alloc: Global, at: u64) -> Window
        ensures { (result.at ≡ at) × (length result.bytes.items ≡ 0) }
    {
        Window {
            at,
            bytes: Vec::new(alloc),
        }
    }

    // The bytes from there on, as far as they were read.
    pub(crate) fn from(&self, at: u64) -> &[u8]
        requires place { IsWindowAt self.now at }
        ensures { result.now ≡ slice_range self.now.bytes.items (at - self.now.at)
            (length self.now.bytes.items) }
    {
        &self.bytes[(at - self.at) as usize..]
    }

    // So many bytes from there on.
    pub(crate) fn copy(&self, alloc: Global, at: u64, len: usize) -> Result<Vec<u8>, AllocError>
        requires from { IsWindowAt self.now at }
        requires to { IsWindowAt self.now (at + len) }
        ensures { IfOk result (λ v. v.items ≡ slice_range self.now.bytes.items (at - self.now.at)
            (at - self.now.at + len)) }
    {
        let first = (at - self.at) as usize;
        Vec::from_slice(alloc, &self.bytes[first..first + len])
    }

    // Reads on until the bytes from `at` on are here, so many at least. No byte is read twice, and
    // none behind the limit.
    pub(crate) fn reach<D: Disk>(
        &mut self,
        alloc: Global,
        disk: &mut D,
        at: u64,
        len: usize,
        limit: u64,
    ) -> Result<(), BytesFault>
        requires place { IsWindowAt self.old at }
        requires within { at + len ≤ limit }
        requires long { D.honest disk.old → limit ≤ length (D.bytes disk.old) }
        requires stands { D.honest disk.old → StandsIn self.old (D.bytes disk.old) }
        ensures place { OnOk result (IsWindowAt self.new at × IsWindowAt self.new (at + len)) }
        ensures stands { D.honest disk.old → OnOk result (StandsIn self.new (D.bytes disk.old)) }
        ensures kept { OnlyReads D.Disk disk.old disk.new }
        ensures no_failure { OnOk result (D.faults disk.new ≡ D.faults disk.old) }
        ensures cause { IsErrOf result Device → D.faults disk.old < D.faults disk.new }
        ensures memory { IsErrOf result Memory → D.faults disk.new ≡ D.faults disk.old }
    {
        let first = (at - self.at) as usize;
        let there = self.bytes.len() - first;
        if len > there {
            self.bytes = read_from(alloc, disk, &self.bytes[first..], at, len, limit)?;
            self.at = at;
        }
        Ok(())
    }
}

// These bytes, which stand at `at`, and behind them more, so that they are so many at least: a
// piece of them, or as many as are needed or left.
fn read_from<D: Disk>(
    alloc: Global,
    disk: &mut D,
    front: &[u8],
    at: u64,
    len: usize,
    limit: u64,
) -> Result<Vec<u8>, BytesFault>
    requires more { length front.now < len }
    requires within { (at + len ≤ limit) × (limit < 2 ^ 64) }
    requires long { D.honest disk.old → limit ≤ length (D.bytes disk.old) }
    requires stands { D.honest disk.old → Holds (D.bytes disk.old) at front.now }
    ensures long { IfOk result (λ v. len ≤ length v.items) }
    ensures stands { D.honest disk.old → IfOk result (λ v. Holds (D.bytes disk.old) at v.items) }
    ensures kept { OnlyReads D.Disk disk.old disk.new }
    ensures no_failure { OnOk result (D.faults disk.new ≡ D.faults disk.old) }
    ensures cause { IsErrOf result Device → D.faults disk.old < D.faults disk.new }
    ensures memory { IsErrOf result Memory → D.faults disk.new ≡ D.faults disk.old }
{
    let mut bytes = Vec::from_slice(alloc, front)?;
    let from = at + front.len() as u64;
    let wanted = (len - front.len()).max(PIECE) as u64;
    let count = wanted.min(limit - from) as usize;
    read_on(alloc, disk, at, count, &mut bytes)?;
    Ok(bytes)
}
