//! A disk in memory.

ghost use Rattle.std.specs.Prelude.{◌≡◌, ◌≤◌, ◌<◌, ◌+◌, ◌^◌, ◌-◌, [], ◌∷◌, ◌++◌};
ghost use Rattle.std.specs.Prelude.{length, slice_range, IfOk, OnOk, OnErr};
ghost use Rattle.fp_disk.specs.Outcomes.{AreBytes, with_bytes_at};
ghost use Rattle.fp_disk.specs.Memory.{Memory, Answered, HoldsBytes, Keeps, state, unsynced_of};
ghost use Rattle.fp_disk.specs.Memory.{LeftSince, fresh, bytes_after_write, write_progress};
ghost use Rattle.fp_disk.specs.MemoryLaws.{counts, only, has_present};
ghost use Rattle.fp_disk.specs.declared.call.Request.TheVariants.{Len, Read, Write, Sync};
ghost use Rattle.fp_disk.specs.declared.call.Progress.TheVariants.{Nothing};

use crate::call::{Bytes, Call, Progress, Request};
use crate::disk::{Disk, DiskFault};
use crate::failing::{FailedWrite, Failing};
use crate::history::{CallKind, History};
use std::alloc::{AllocError, Global};
use std::marker::Model;
use std::snapshot::Snapshot;

/// A disk in memory. It records each call, so that what a crash leaves can be chosen later, and
/// fails as it is told to. A call for which there is no memory, or a write that would end past
/// 2^64, fails too, and leaves no record.
#[derive(Drop)]
pub struct MemoryDisk {
    pub(crate) alloc: Global,
    first: Snapshot<Vec<u8>>,
    bytes: Vec<u8>,
    pub(crate) synced: Vec<u8>,
    pub(crate) calls: Vec<Call>,
    // How many of the calls were made when the last sync ended.
    pub(crate) all_synced: usize,
    // No crash leaves more bytes.
    pub(crate) reach: u64,
    failing: Failing,
    failed_writes: FailedWrite,
    history: History,
}

impl Model for MemoryDisk {
    ghost Value = { Memory };

    ghost view = { λ m. record {
      first = m.first.value.items;
      calls = m.calls.items;
      failing = m.failing;
      failed_writes = m.failed_writes;
      made = m.history.made;
      faults = m.history.faults;
    } };

    ghost invariant = { λ m. Keeps m.first.value.items m.bytes.items m.synced.items m.calls.items
        m.all_synced m.reach };
}

impl MemoryDisk {
    /// An empty disk, of which no call fails.
    pub fn new(alloc: Global) -> MemoryDisk
        // Nothing is pending, and no call was made.
        ensures fresh { result ≡ fresh [] }
        // It holds nothing but bytes, so it is honest.
        ensures honest { HoldsBytes result.first result.calls }
    {
        let bytes = Vec::new(alloc);
        MemoryDisk {
            alloc,
            first: Snapshot::of(&bytes),
            bytes,
            synced: Vec::new(alloc),
            calls: Vec::new(alloc),
            all_synced: 0,
            reach: 0,
            failing: Failing::Never,
            failed_writes: FailedWrite::Nothing,
            history: History::new(),
        }
    }

    /// A disk that holds these bytes, of which no call fails.
    pub fn holding(alloc: Global, bytes: Vec<u8>) -> Result<MemoryDisk, AllocError>
        // `Ok`: nothing is pending, and no call was made.
        ensures fresh { IfOk result (λ m. m ≡ fresh bytes.items) }
        // `Ok`: it holds nothing but bytes, so it is honest.
        ensures honest { IfOk result (λ m. HoldsBytes m.first m.calls) }
    {
        let synced = bytes.to_vec(alloc)?;
        Ok(MemoryDisk {
            alloc,
            first: Snapshot::of(&bytes),
            reach: bytes.len() as u64,
            bytes,
            synced,
            calls: Vec::new(alloc),
            all_synced: 0,
            failing: Failing::Never,
            failed_writes: FailedWrite::Nothing,
            history: History::new(),
        })
    }

    /// From now on these calls fail, counted from 0; a write that fails so does nothing, or puts
    /// its first half.
    pub fn set_failing(&mut self, failing: Failing, writes: FailedWrite)
        // All else stays.
        ensures failing { self.new ≡ record self.old { failing = failing; failed_writes = writes } }
        // It holds nothing but bytes, so it is honest.
        ensures honest { HoldsBytes self.new.first self.new.calls }
    {
        self.failing = failing;
        self.failed_writes = writes;
    }

    /// The calls so far in order, each with how much of it was done, but for those that left no
    /// record.
    pub fn calls(&self) -> &[Call]
        ensures calls { result.now ≡ self.now.calls }
        // It holds nothing but bytes, so it is honest.
        ensures honest { HoldsBytes self.now.first self.now.calls }
    {
        self.calls.as_slice()
    }
}

// Puts these at a place that is there.
fn lay(bytes: &mut [u8], at: usize, from: &[u8])
    requires { at + length from.now ≤ length bytes.old }
    ensures { bytes.new ≡ with_bytes_at bytes.old at from.now }
{
    bytes[at..at + from.len()].copy_from_slice(from);
}

// Puts these at a place, and zeros in a gap.
fn overwrite(bytes: &mut Vec<u8>, at: usize, from: &[u8]) -> Result<(), AllocError>
    requires { at + length from.now < 2 ^ 64 }
    ensures ok { OnOk result (bytes.new.items ≡ with_bytes_at bytes.old.items at from.now) }
    ensures err { OnErr result (bytes.new.items ≡ bytes.old.items) }
{
    let end = at + from.len();
    if end <= bytes.len() {
        lay(bytes, at, from);
        return Ok(());
    }
    bytes.resize(end, 0)?;
    lay(bytes, at, from);
    Ok(())
}

// So much of a write.
fn put(bytes: &mut Vec<u8>, at: usize, from: &[u8], progress: Progress) -> Result<(), AllocError>
    requires { at + length from.now < 2 ^ 64 }
    ensures ok { OnOk result
        (bytes.new.items ≡ bytes_after_write progress bytes.old.items at from.now) }
    ensures err { OnErr result (bytes.new.items ≡ bytes.old.items) }
{
    match progress {
        Progress::Whole => overwrite(bytes, at, from),
        Progress::Half => overwrite(bytes, at, &from[..from.len() / 2]),
        Progress::Nothing => Ok(()),
    }
}

// A write and its record; where there is no memory for both, neither. It answers the write's end.
fn put_and_record(
    alloc: Global,
    bytes: &mut Vec<u8>,
    calls: &mut Vec<Call>,
    at: u64,
    from: &[u8],
    progress: Progress,
) -> Result<u64, AllocError>
    ensures brought { AreBytes from.now }
    ensures end { IfOk result (λ end. end ≡ at + length from.now) }
    ensures bytes { OnOk result
        (bytes.new.items ≡ bytes_after_write progress bytes.old.items at from.now) }
    ensures calls { OnOk result
        (calls.new.items ≡ calls.old.items ++
        (record { request = Write at from.now; progress = progress }) ∷ []) }
    ensures err { OnErr result
        ((bytes.new.items ≡ bytes.old.items) × (calls.new.items ≡ calls.old.items)) }
{
    let end = at.checked_add(from.len() as u64).ok_or(AllocError)?;
    calls.reserve(1)?;
    let copy = Bytes::copy_of(alloc, from)?;
    put(bytes, at as usize, from, progress)?;
    calls.push_reserved(Call {
        request: Request::Write { at, bytes: copy },
        progress,
    });
    Ok(end)
}

// The record of a call that wrote nothing.
fn note(calls: &mut Vec<Call>, request: Request, progress: Progress) -> Result<(), AllocError>
    ensures ok { OnOk result
        (calls.new.items ≡ calls.old.items ++
        (record { request = request; progress = progress }) ∷ []) }
    ensures err { OnErr result (calls.new.items ≡ calls.old.items) }
{
    calls.push(Call { request, progress })?;
    Ok(())
}

impl Disk for MemoryDisk {
    ghost honest = { λ m. HoldsBytes m.first m.calls };

    ghost bytes = { λ m. (state m).bytes };

    ghost unsynced = { λ m. unsynced_of (state m) };

    ghost moment = { λ m. length m.calls };

    ghost crash_states_since = { λ m t c. LeftSince m.first m.calls t c };

    ghost faults = { λ m. m.faults };

    ghost calls = { λ m. m.made };

    ghost present = { λ m h. has_present m h };

    ghost counts_now = { λ m t c h le out. counts m.first m.calls t c le out };

    ghost only_now = { λ m c h left. only m.first m.calls c left };

    fn len(&mut self) -> Result<u64, DiskFault>
        // `Ok`: the call was to pass, and is recorded. A fault: it was to fail, and is recorded so;
        // or no memory was found, and it did nothing and left no record.
        ensures recorded { Answered self.old self.new Len Nothing result }
        // It holds nothing but bytes, so it is honest.
        ensures honest { HoldsBytes self.new.first self.new.calls }
        // `Ok`: so many bytes are there.
        ensures answer { IfOk result (λ n. n ≡ length (state self.old).bytes) }
    {
        let progress = self.failing.progress();
        self.failing = self.failing.after_call();
        self.history.add(CallKind::Length);
        let Ok(()) = note(&mut self.calls, Request::Len, progress) else {
            return Err(self.history.fault());
        };
        if !progress.is_whole() {
            return Err(self.history.fault());
        }
        Ok(self.bytes.len() as u64)
    }

    fn read_at(&mut self, at: u64, into: &mut [u8]) -> Result<(), DiskFault>
        // All these places are there.
        requires { HoldsBytes self.old.first self.old.calls →
            at + length into.old ≤ length (state self.old).bytes }
        // As of `MemoryDisk::len`.
        ensures recorded { Answered self.old self.new (Read at (length into.old)) Nothing result }
        // It holds nothing but bytes, so it is honest.
        ensures honest { HoldsBytes self.new.first self.new.calls }
        // `Ok`: these are the bytes that stand there.
        ensures answer { OnOk result
            (into.new ≡ slice_range (state self.old).bytes at (at + length into.old)) }
    {
        let progress = self.failing.progress();
        self.failing = self.failing.after_call();
        self.history.add(CallKind::Read);
        let request = Request::Read {
            at,
            length: into.len(),
        };
        let Ok(()) = note(&mut self.calls, request, progress) else {
            return Err(self.history.fault());
        };
        if !progress.is_whole() {
            return Err(self.history.fault());
        }
        let at = at as usize;
        into.copy_from_slice(&self.bytes[at..at + into.len()]);
        Ok(())
    }

    fn write_at(&mut self, at: u64, from: &[u8]) -> Result<(), DiskFault>
        // As of `MemoryDisk::len`. A write that was to fail puts nothing, or its first half; one
        // that would end past 2^64 leaves no record either.
        ensures recorded { Answered self.old self.new (Write at from.now)
            (write_progress self.old.failed_writes self.old.failing) result }
        // What is written is numbers from 0 to 255.
        ensures bytes { AreBytes from.now }
        // It holds nothing but bytes, so it is honest.
        ensures honest { HoldsBytes self.new.first self.new.calls }
    {
        let progress = self.failed_writes.progress(self.failing);
        self.failing = self.failing.after_call();
        self.history.add(CallKind::Write);
        let put = put_and_record(
            self.alloc,
            &mut self.bytes,
            &mut self.calls,
            at,
            from,
            progress,
        );
        let Ok(end) = put else {
            return Err(self.history.fault());
        };
        self.reach = self.reach.max(end);
        if !progress.is_whole() {
            return Err(self.history.fault());
        }
        Ok(())
    }

    fn sync(&mut self) -> Result<(), DiskFault>
        // As of `MemoryDisk::len`.
        ensures recorded { Answered self.old self.new Sync Nothing result }
        // It holds nothing but bytes, so it is honest.
        ensures honest { HoldsBytes self.new.first self.new.calls }
    {
        let progress = self.failing.progress();
        self.failing = self.failing.after_call();
        self.history.add(CallKind::Sync);
        let Ok(bytes) = self.bytes.to_vec(self.alloc) else {
            return Err(self.history.fault());
        };
        let Ok(()) = note(&mut self.calls, Request::Sync, progress) else {
            return Err(self.history.fault());
        };
        if !progress.is_whole() {
            return Err(self.history.fault());
        }
        self.synced = bytes;
        self.all_synced = self.calls.len();
        self.reach = self.bytes.len() as u64;
        Ok(())
    }
}
