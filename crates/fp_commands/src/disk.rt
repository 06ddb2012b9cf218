//! The commands over a disk. Each gives the disk back.

ghost use Rattle.fp_disk.specs.Crashes.{AtAnyMoment, EachCrash, IsUntouched, SameHonesty};
ghost use Rattle.std.specs.Prelude.{◌≡◌, ◌≢◌, ◌⊎◌, ◌<◌, ◌+◌, ◌++◌, [], ◌∷◌, Ok, Err, IfErr};
ghost use Rattle.std.specs.Prelude.{MatchResult, OnOk};
ghost use Rattle.std.specs.Io.KnownBytes.{Appends};
ghost use Rattle.fp_disk.specs.History.{Makes};
ghost use Rattle.fp_disk.specs.Outcomes.{IsOutcome, LeavesOnly, all_synced};
ghost use Rattle.fp_disk.specs.declared.history.CallKind.TheVariants.{Length};
ghost use Rattle.fp_journal.specs.Pieces.{ThenSomeReads};
ghost use Rattle.fp_layout.specs.declared.size.TheConstants.{STANDARD_SLOT};
ghost use Rattle.fp_layout.specs.NewDisk.{IsNewDisk, format_calls};
ghost use Rattle.fp_session.specs.Run.{show_line};
ghost use Rattle.fp_session.specs.Session.{StandsAhead, disk_of};
ghost use Rattle.fp_recovery.specs.Durable.{IsNewSetOrNone, IsDurable};
ghost use Rattle.fp_recovery.specs.Refusals.{StandsForNone};
ghost use Rattle.fp_commands.specs.Disks.{Blames, IfRefused, IsMakingFault, IsShowingFault};
ghost use Rattle.fp_commands.specs.Disks.{IsShown, IsStreamFault, opening_calls};
ghost use Rattle.fp_commands.specs.Faults.{of_run};
ghost use Rattle.fp_commands.specs.Files.{AppliesToDisk, ImportsToDisk};
ghost use Rattle.fp_commands.specs.Task.{no_flags};
ghost use Rattle.fp_commands.specs.declared.fault.CommandFault.TheVariants.{Device, NotEmpty};

use crate::document::read_document;
use crate::fault::CommandFault;
use fp_disk::Disk;
use fp_edit::FlagSet;
use fp_group_commit::{CreateFault, Store};
use fp_layout::SlotSize;
use fp_session::{ApplyFault, DiskSession, apply_lines, import_flags, shown};
use fp_streams::FailureCounted;
use std::alloc::Global;
use std::io::{Read, Write};

/// Makes an empty disk one that stands for no flags at revision 0, with slots of 2^24 bytes and a
/// limit of 2^23 bytes. Gives the disk back.
pub fn init_disk<D: Disk>(alloc: Global, disk: D) -> (D, Result<(), CommandFault>)
    // H: at `Ok` the bytes are those of a new disk, with slots of 2^24 bytes.
    ensures made { D.honest disk → OnOk result.1 (IsNewDisk STANDARD_SLOT (D.bytes result.0)) }
    // H: at `Ok` every crash state stands for no flags at revision 0, under a limit of 2^23 bytes.
    ensures sure { D.honest disk → OnOk result.1 (IsDurable (D.unsynced result.0) no_flags) }
    // H: at `Ok` the disk had no bytes.
    ensures empty { D.honest disk → OnOk result.1 (D.bytes disk ≡ []) }
    // H: at `NotEmpty` it had some.
    ensures not_empty { D.honest disk → IfErr result.1 (λ f. f ≡ NotEmpty → D.bytes disk ≢ []) }
    // H: at a fault, of a disk that has bytes, and of any at a fault but `Device`: what is read and
    // pending stays, and a crash at any moment leaves what one could leave before.
    ensures kept { D.honest disk → IfErr result.1 (λ f. (D.bytes disk ≢ []) ⊎ (f ≢ Device)
        → IsUntouched D.Disk disk result.0) }
    // H: of an empty disk, all of it synced: any crash state at any moment is no disk yet, or one
    // of no flags.
    ensures any_moment { D.honest disk → D.unsynced disk ≡ all_synced []
        → LeavesOnly D.moment D.crash_states_since disk result.0 (IsNewSetOrNone STANDARD_SLOT) }
    // `Ok`: ten calls: length; write, sync; write, write, sync; write, sync; write, sync. A fault:
    // some first ones of these.
    ensures called { Makes (Length ∷ format_calls) (D.calls disk) (D.calls result.0) result.1 }
    // Any fault but `Device`: the disk's length was asked for, and nothing else.
    ensures untouched { IfErr result.1 (λ f. (f ≡ Device)
        ⊎ (D.calls result.0 ≡ D.calls disk ++ Length ∷ [])) }
    // A fault is `NotEmpty`, `Device` or `Memory`.
    ensures fault { IfErr result.1 IsMakingFault }
    // `Ok`: no call of the disk failed.
    ensures no_failure { OnOk result.1 (D.faults result.0 ≡ D.faults disk) }
    // `Device` only where the disk's count of failures rose.
    ensures cause { IfErr result.1 (λ f. f ≡ Device → D.faults disk < D.faults result.0) }
    // The disk is honest exactly if it was before.
    ensures honest { SameHonesty D.Disk disk result.0 }
{
    match Store::create(alloc, disk, SlotSize::standard().bytes()) {
        Ok((store, _)) => (store.into_disk(), Ok(())),
        Err((CreateFault::NotEmpty, disk)) => (disk, Err(CommandFault::NotEmpty)),
        Err((CreateFault::Device, disk)) => (disk, Err(CommandFault::Device)),
        Err((CreateFault::Memory, disk)) => (disk, Err(CommandFault::Memory)),
        Err((CreateFault::BadSize, _)) => unreachable!(),
    }
}

/// Writes the line of what a disk stands for: the revision, a space, the document, a newline.
/// Nothing is written on the disk, which comes back.
pub fn show_disk<D: Disk, W: Write>(
    alloc: Global,
    w: &mut FailureCounted<W>,
    disk: D,
) -> (D, Result<(), CommandFault>)
    // `Ok`: the line of some flags was written. H: the bytes stand for these flags.
    ensures shown { OnOk result.1
        (IsShown (D.honest disk) (D.bytes disk) (W.contents w.old.inner) (W.contents w.new.inner)) }
    // H: the bytes stay.
    ensures same { D.honest disk → D.bytes result.0 ≡ D.bytes disk }
    // Whatever comes back, its calls were some first ones of sync and length, or these and reads
    // behind them.
    ensures called { ThenSomeReads opening_calls (D.calls disk) (D.calls result.0) }
    // A fault is one of the bytes, `Device` or `Memory`. H: opening refuses the bytes so, and they
    // stand for no set.
    ensures fault { IfErr result.1 (IsShowingFault (D.honest disk) (D.bytes disk)) }
    // A fault of the bytes: nothing was written to the output.
    ensures nothing_written { IfErr result.1 (IfRefused (w.new ≡ w.old)) }
    // Any fault: nothing was written to the output, unless the writer failed.
    ensures untold { IfErr result.1 (λ _. w.new.failures ≡ w.old.failures → w.new ≡ w.old) }
    // H: of bytes that stand for no set the writer is as it was, whatever comes back.
    ensures nothing_stood { D.honest disk → StandsForNone (D.bytes disk) → w.new ≡ w.old }
    // `Device` only where the disk or the writer failed; at `Ok` and `Memory` neither did.
    ensures device { Blames (D.faults disk + w.old.failures) (D.faults result.0 + w.new.failures)
        result.1 }
    // `Ok`: no call of the disk failed.
    ensures no_failure { OnOk result.1 (D.faults result.0 ≡ D.faults disk) }
    // H: any crash state at any moment is one from before.
    ensures any_moment { AtAnyMoment D.Disk disk result.0 (IsOutcome (D.unsynced disk)) }
    // The disk is honest exactly if it was before.
    ensures honest { SameHonesty D.Disk disk result.0 }
{
    match Store::open(alloc, disk) {
        Ok((store, opening)) => {
            let outcome = show(alloc, w, opening.set());
            (store.into_disk(), outcome)
        }
        Err((fault, disk)) => (disk, Err(fault.into())),
    }
}

/// Answers each line of the reader in order over what a disk stands for, and shows the flags behind
/// the last reply: one record, of which at most one line is on its way at a time. Each edit is
/// sealed on the disk before it is answered; the disk comes back.
///
/// Where a slot runs short a compaction goes on beside the edits, and is ended before the flags are
/// shown. `Ok(false)` says that a reply told of wanting memory.
pub fn apply_disk<D: Disk, R: Read, W: Write>(
    alloc: Global,
    r: &mut FailureCounted<R>,
    w: &mut FailureCounted<W>,
    disk: D,
) -> (D, Result<bool, CommandFault>)
    ensures { AppliesToDisk D.Disk R.remaining W.contents
        (record { reader = r.old; writer = w.old }) (record { reader = r.new; writer = w.new })
        disk result.0 result.1 }
{
    let session = match DiskSession::open(alloc, disk) {
        Ok(session) => session,
        Err((fault, disk)) => return (disk, Err(fault.into())),
    };
    let (kept, outcome) = apply_lines(alloc, r, w, session);
    end_run(kept, outcome)
}

/// Puts each flag of the flagd document that the reader gives over what a disk stands for, by
/// ascending keys and whatever stands there: the record of `apply_disk`, over a put for each flag,
/// of which 1,024 at most are on their way at once. Each put is sealed on the disk before it is
/// answered; the disk comes back.
///
/// All of the document is read before the first put. Each put is answered, one that is refused too,
/// and the flags are shown behind the last reply. A fault of the document is its first one, told
/// only where the disk is opened. `Ok(false)` says that a reply told of wanting memory.
pub fn import_disk<D: Disk, R: Read, W: Write>(
    alloc: Global,
    r: &mut FailureCounted<R>,
    w: &mut FailureCounted<W>,
    disk: D,
) -> (D, Result<bool, CommandFault>)
    ensures { ImportsToDisk D.Disk R.remaining W.contents
        (record { reader = r.old; writer = w.old }) (record { reader = r.new; writer = w.new })
        disk result.0 result.1 }
{
    let session = match DiskSession::open(alloc, disk) {
        Ok(session) => session,
        Err((fault, disk)) => return (disk, Err(fault.into())),
    };
    let flags = match read_document(alloc, r) {
        Ok(flags) => flags,
        Err(fault) => return (session.into_disk(), Err(fault)),
    };
    let (kept, outcome) = import_flags(alloc, w, session, flags);
    end_run(kept, outcome)
}

// Gives the disk back behind a run.
fn end_run<D: Disk>(
    kept: DiskSession<D>,
    outcome: Result<bool, ApplyFault>,
) -> (D, Result<bool, CommandFault>)
    ensures disk { result.0 ≡ disk_of kept }
    ensures keeps { EachCrash D.Disk result.0 (StandsAhead kept.desk) }
    ensures outcome { MatchResult outcome (λ told. result.1 ≡ Ok told)
        (λ f. result.1 ≡ Err (of_run f)) }
{
    let disk = kept.into_disk();
    match outcome {
        Ok(told) => (disk, Ok(told)),
        Err(fault) => (disk, Err(fault.into())),
    }
}

// Writes the line of these flags.
fn show<W: Write>(
    alloc: Global,
    w: &mut FailureCounted<W>,
    flags: &FlagSet,
) -> Result<(), CommandFault>
    ensures shown { OnOk result
        (Appends (W.contents w.old.inner) (W.contents w.new.inner) (show_line flags.now)) }
    ensures fault { IfErr result IsStreamFault }
    ensures untold { IfErr result (λ _. w.new.failures ≡ w.old.failures → w.new ≡ w.old) }
    ensures device { Blames w.old.failures w.new.failures result }
{
    let line = shown(alloc, flags)?;
    w.send(&line)?;
    Ok(())
}
