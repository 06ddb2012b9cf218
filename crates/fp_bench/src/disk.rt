//! Disks in memory that claim nothing, and their bytes.

use crate::job::Job;
use crate::pool::Pool;
use crate::text::Text;
use fp_disk::{Disk, FileDisk};
use std::fs::{Metadata, OpenFile};
use std::io;
use std::io::{Cursor, ErrorKind, Read, Seek, SeekFrom, Write};

/// A file in memory. A sync of it does nothing.
#[derive(Drop)]
pub struct MemoryFile {
    bytes: Cursor<Vec<u8>>,
}

impl Read for MemoryFile {
    fn read(&mut self, buf: &mut [u8]) -> io::Result<usize> {
        self.bytes.read(buf)
    }
}

impl Write for MemoryFile {
    fn write(&mut self, buf: &[u8]) -> io::Result<usize> {
        self.bytes.write(buf)
    }

    fn flush(&mut self) -> io::Result<()> {
        self.bytes.flush()
    }
}

impl Seek for MemoryFile {
    fn seek(&mut self, to: SeekFrom) -> io::Result<u64> {
        self.bytes.seek(to)
    }
}

impl OpenFile for MemoryFile {
    fn metadata(&self) -> io::Result<Metadata> {
        Err(ErrorKind::Unsupported.into())
    }

    fn set_len(&self, _size: u64) -> io::Result<()> {
        Err(ErrorKind::Unsupported.into())
    }

    fn sync_all(&self) -> io::Result<()> {
        Ok(())
    }

    fn sync_data(&self) -> io::Result<()> {
        Ok(())
    }
}

/// The disk over such a file. It notes nothing, and is never honest.
pub type PlainDisk = FileDisk<MemoryFile>;

/// What a disk is to hold.
#[derive(Clone, Copy)]
pub struct Contents {
    /// The size of a slot.
    pub slot: u64,
    /// The flags of its image, each changed last by the revision behind its number.
    pub flags: u64,
    /// The batches behind the image.
    pub batches: u64,
}

impl Contents {
    /// No flags, in slots of this size.
    pub fn of_no_flags(slot: u64) -> Contents {
        Contents {
            slot,
            flags: 0,
            batches: 0,
        }
    }
}

// The edits of a batch.
const EDITS: u64 = 64;

/// The disk of a round, which holds this, with definitions of the pool.
pub fn disk_of(job: &mut Job, pool: &mut Pool, round: u64, contents: Contents) -> PlainDisk {
    let mut disk = job.text(round);
    let mut part = job.text(round);
    let mut flag = job.text(round);
    image(&mut part, &mut flag, pool, contents.flags);
    front(&mut disk, contents, part.bytes());
    for n in 0..contents.batches {
        batch(&mut part, &mut flag, pool, contents, n);
        disk.push(b"\xa5");
        sized(&mut disk, part.bytes(), 4);
    }
    disk.fill(contents.slot.saturating_add(65));
    if disk.is_short() || flag.is_short() || part.is_short() {
        job.digest.fail();
    }
    let bytes = Cursor::new(disk.into_bytes());
    FileDisk::over(MemoryFile { bytes })
}

// What is read of a disk at once.
const PIECE: u64 = 4_096;

/// All bytes that a disk holds at the end, which are answers too. The last piece reaches to its end.
pub fn left(job: &mut Job, disk: PlainDisk) {
    let mut disk = disk;
    let piece = vec![in job.alloc; 0u8; PIECE as usize];
    let (Ok(end), Ok(mut piece)) = (disk.len(), piece) else {
        job.digest.fail();
        return;
    };
    job.digest.number(end);
    for n in 0..=end / PIECE {
        let at = n.saturating_mul(PIECE).min(end.saturating_sub(PIECE));
        match disk.read_at(at, &mut piece) {
            Ok(()) => job.digest.bytes(&piece),
            Err(_) => job.digest.fail(),
        }
    }
}

// The length of these bytes, and the bytes.
fn sized(out: &mut Text, bytes: &[u8], width: usize) {
    out.field(bytes.len() as u64, width);
    out.push(bytes);
}

// The header, and the first slot up to its first batch.
fn front(disk: &mut Text, contents: Contents, image: &[u8]) {
    disk.push(b"\xa5FLAGPLN1\x01");
    disk.field(contents.slot, 8);
    disk.fill(64);
    disk.push(b"\xa5");
    disk.field(1, 8);
    disk.push(b"\x01");
    disk.field(contents.flags, 8);
    sized(disk, image, 4);
}

fn image(out: &mut Text, flag: &mut Text, pool: &mut Pool, flags: u64) {
    out.field(flags, 4);
    for n in 0..flags {
        put_key(out, flag, n);
        out.field(n + 1, 8);
        put_definition(out, flag, pool);
    }
}

// Each flag that is deleted was put by the edit before.
fn batch(out: &mut Text, flag: &mut Text, pool: &mut Pool, contents: Contents, number: u64) {
    let before = contents.flags.saturating_add(number.saturating_mul(EDITS));
    out.clear();
    out.field(before.saturating_add(1), 8);
    out.field(EDITS, 2);
    let mut chosen = 0;
    for n in 0..EDITS {
        if n % 16 == 15 {
            out.push(b"\x02");
            put_key(out, flag, chosen);
        } else {
            chosen = flag.random.below(contents.flags.saturating_mul(2));
            out.push(b"\x01");
            put_key(out, flag, chosen);
            put_definition(out, flag, pool);
        }
    }
}

fn put_key(out: &mut Text, flag: &mut Text, number: u64) {
    flag.clear();
    flag.number = number;
    flag.key();
    sized(out, flag.bytes(), 2);
}

fn put_definition(out: &mut Text, flag: &mut Text, pool: &mut Pool) {
    flag.clear();
    pool.put(flag);
    sized(out, flag.bytes(), 4);
}
