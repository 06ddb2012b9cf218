//! The bytes of a disk, read in pieces.

ghost use Rattle.std.specs.Prelude.{◌≡◌, ◌<◌, ◌≤◌, ◌+◌, ◌-◌, ◌^◌, length, min, slice_range};
ghost use Rattle.std.specs.Prelude.{IfOk, OnOk, IsErrOf};
ghost use Rattle.fp_journal.specs.Firsts.{AreFirst};
ghost use Rattle.fp_journal.specs.Holds.{Holds};
ghost use Rattle.fp_journal.specs.Pieces.{OnlyReads};
ghost use Rattle.fp_journal.specs.declared.pieces.BytesFault.TheVariants.{Device, Memory};
ghost use Rattle.fp_journal.specs.declared.pieces.TheConstants.{PIECE};

use fp_disk::{Disk, DiskFault};
use std::alloc::{AllocError, Global};

/// The most bytes that one call reads.
pub const PIECE: usize = 65_536;

/// Why a disk's bytes weren't read.
#[derive(Clone, Copy, Debug)]
pub enum BytesFault {
    /// The device refused.
    Device,
    /// Memory ran out.
    Memory,
}

impl From<DiskFault> for BytesFault {
    ghost from_gives = { λ _ e. e ≡ Device };

    fn from(_fault: DiskFault) -> BytesFault {
        BytesFault::Device
    }
}

impl From<AllocError> for BytesFault {
    ghost from_gives = { λ _ e. e ≡ Memory };

    fn from(_fault: AllocError) -> BytesFault {
        BytesFault::Memory
    }
}

// So many bytes of a disk from a place on, by one call.
fn read_piece<D: Disk>(
    alloc: Global,
    disk: &mut D,
    at: u64,
    count: usize,
) -> Result<Vec<u8>, BytesFault>
    requires short { count ≤ PIECE }
    requires within { D.honest disk.old → at + count ≤ length (D.bytes disk.old) }
    ensures bytes { D.honest disk.old →
        IfOk result (λ v. v.items ≡ slice_range (D.bytes disk.old) at (at + count)) }
    ensures long { IfOk result (λ v. length v.items ≡ count) }
    ensures kept { OnlyReads D.Disk disk.old disk.new }
    ensures no_failure { OnOk result (D.faults disk.new ≡ D.faults disk.old) }
    ensures cause { IsErrOf result Device → D.faults disk.old < D.faults disk.new }
    ensures memory { IsErrOf result Memory → D.faults disk.new ≡ D.faults disk.old }
{
    let mut piece = Vec::new(alloc);
    piece.resize(count, 0)?;
    disk.read_at(at, &mut piece)?;
    Ok(piece)
}

// Puts more bytes of a disk behind these, which stand at `first`, by one call.
fn put_piece<D: Disk>(
    alloc: Global,
    disk: &mut D,
    first: u64,
    count: usize,
    bytes: &mut Vec<u8>,
) -> Result<(), BytesFault>
    requires short { count ≤ PIECE }
    requires fits { first + length bytes.old.items + count < 2 ^ 64 }
    requires within { D.honest disk.old →
        first + length bytes.old.items + count ≤ length (D.bytes disk.old) }
    requires stands { D.honest disk.old → Holds (D.bytes disk.old) first bytes.old.items }
    ensures stands { D.honest disk.old →
        OnOk result (Holds (D.bytes disk.old) first bytes.new.items) }
    ensures long { OnOk result (length bytes.new.items ≡ length bytes.old.items + count) }
    ensures kept { OnlyReads D.Disk disk.old disk.new }
    ensures no_failure { OnOk result (D.faults disk.new ≡ D.faults disk.old) }
    ensures cause { IsErrOf result Device → D.faults disk.old < D.faults disk.new }
    ensures memory { IsErrOf result Memory → D.faults disk.new ≡ D.faults disk.old }
{
    let piece = read_piece(alloc, disk, first + bytes.len() as u64, count)?;
    bytes.extend_from_slice(&piece)?;
    Ok(())
}

// Puts more bytes of a disk behind these, which stand at `first`. No call reads more than a piece.
pub(crate) fn read_on<D: Disk>(
    alloc: Global,
    disk: &mut D,
    first: u64,
    count: usize,
    bytes: &mut Vec<u8>,
) -> Result<(), BytesFault>
    requires fits { first + length bytes.old.items + count < 2 ^ 64 }
    requires within { D.honest disk.old →
        first + length bytes.old.items + count ≤ length (D.bytes disk.old) }
    requires stands { D.honest disk.old → Holds (D.bytes disk.old) first bytes.old.items }
    ensures stands { D.honest disk.old →
        OnOk result (Holds (D.bytes disk.old) first bytes.new.items) }
    ensures long { OnOk result (length bytes.new.items ≡ length bytes.old.items + count) }
    ensures kept { OnlyReads D.Disk disk.old disk.new }
    ensures no_failure { OnOk result (D.faults disk.new ≡ D.faults disk.old) }
    ensures cause { IsErrOf result Device → D.faults disk.old < D.faults disk.new }
    ensures memory { IsErrOf result Memory → D.faults disk.new ≡ D.faults disk.old }
{
    let stop = bytes.len() + count;
    while bytes.len() < stop {
        let more = (stop - bytes.len()).min(PIECE);
        put_piece(alloc, disk, first, more, bytes)?;
    }
    Ok(())
}

/// So many bytes of a disk from a place on. It reads in pieces of at most 65,536.
pub fn read_bytes<D: Disk>(
    alloc: Global,
    disk: &mut D,
    at: u64,
    count: usize,
) -> Result<Vec<u8>, BytesFault>
    // The place behind them is below 2^64.
    requires fits { at + count < 2 ^ 64 }
    // H: so many bytes are there.
    requires within { D.honest disk.old → at + count ≤ length (D.bytes disk.old) }
    // H: `Ok`: they stand at this place.
    ensures stands { D.honest disk.old → IfOk result (λ v. Holds (D.bytes disk.old) at v.items) }
    // `Ok`: there are so many.
    ensures long { IfOk result (λ v. length v.items ≡ count) }
    // What it leaves of the disk.
    ensures kept { OnlyReads D.Disk disk.old disk.new }
    // `Ok`: no call of the disk failed.
    ensures no_failure { OnOk result (D.faults disk.new ≡ D.faults disk.old) }
    // `Device`: a call of the disk failed.
    ensures cause { IsErrOf result Device → D.faults disk.old < D.faults disk.new }
    // `Memory`: no call of the disk failed.
    ensures memory { IsErrOf result Memory → D.faults disk.new ≡ D.faults disk.old }
{
    let mut bytes = Vec::with_capacity(alloc, count)?;
    read_on(alloc, disk, at, count, &mut bytes)?;
    Ok(bytes)
}

/// The first bytes of a disk of this length from a place on: so many, or as many as there are.
pub fn read_first<D: Disk>(
    alloc: Global,
    disk: &mut D,
    at: u64,
    count: usize,
    len: u64,
) -> Result<Vec<u8>, BytesFault>
    // The place lies within the disk, or at its end.
    requires within { at ≤ len }
    // H: the disk has this length.
    requires long { D.honest disk.old → len ≡ length (D.bytes disk.old) }
    // H: `Ok`: they stand at this place, so many or as many as there are.
    ensures first { D.honest disk.old →
        IfOk result (λ v. AreFirst (D.bytes disk.old) at count v.items) }
    // `Ok`: so many, or as many as this length leaves.
    ensures many { IfOk result (λ v. length v.items ≡ min count (len - at)) }
    // What it leaves of the disk.
    ensures kept { OnlyReads D.Disk disk.old disk.new }
    // `Ok`: no call of the disk failed.
    ensures no_failure { OnOk result (D.faults disk.new ≡ D.faults disk.old) }
    // `Device`: a call of the disk failed.
    ensures cause { IsErrOf result Device → D.faults disk.old < D.faults disk.new }
    // `Memory`: no call of the disk failed.
    ensures memory { IsErrOf result Memory → D.faults disk.new ≡ D.faults disk.old }
{
    let there = (len - at).min(count as u64) as usize;
    let bytes = read_bytes(alloc, disk, at, there)?;
    Ok(bytes)
}
