//! The evaluation of one flag of what a disk stands for.

ghost use Rattle.std.specs.Prelude.{◌≡◌, ◌<◌, ◌+◌, ◌^◌, [], IfOk, IfErr, OnOk};
ghost use Rattle.fp_disk.specs.Crashes.{AtAnyMoment, SameHonesty};
ghost use Rattle.fp_disk.specs.Outcomes.{IsOutcome};
ghost use Rattle.fp_journal.specs.Pieces.{ThenSomeReads};
ghost use Rattle.fp_ofrep.specs.Seen.{response_seen};
ghost use Rattle.fp_recovery.specs.Refusals.{StandsForNone};
ghost use Rattle.fp_commands.specs.Disks.{Blames, IfFileRefused, IfRefused, IsShowingFault};
ghost use Rattle.fp_commands.specs.Disks.{IsStreamFault, opening_calls};
ghost use Rattle.fp_commands.specs.Eval.{IsAnswered, IsEvaluated, reply_line};

use crate::fault::CommandFault;
use fp_desk::Desk;
use fp_disk::Disk;
use fp_group_commit::{Opening, Store};
use fp_ofrep::{Body, Reply, answer_for};
use fp_publish::Published;
use fp_streams::FailureCounted;
use itoa::Buffer;
use std::alloc::{AllocError, Global};
use std::io::{Read, Write};

/// Writes the reply to the evaluation request that the reader gives, for the flag of this key in
/// what a disk stands for: the status, a space, the body, a newline. Nothing is written on the
/// disk, which comes back.
///
/// The moment is in seconds since 1970.
pub fn eval_disk<D: Disk, R: Read, W: Write>(
    alloc: Global,
    r: &mut FailureCounted<R>,
    w: &mut FailureCounted<W>,
    disk: D,
    key: &str,
    now: u64,
) -> (D, Result<(), CommandFault>)
    // The moment is below 2^63.
    requires { now < 2 ^ 63 }
    // `Ok`: the reply to the request for the flag of this key was written, as a function of some
    // flags and the moment. H: the bytes stand for these flags.
    ensures evaluated { OnOk result.1 (IsEvaluated (D.honest disk) (D.bytes disk) key.now now
        (R.remaining r.old.inner) (W.contents w.old.inner) (W.contents w.new.inner)) }
    // H: the bytes stay.
    ensures same { D.honest disk → D.bytes result.0 ≡ D.bytes disk }
    // H: any crash state at any moment is one from before.
    ensures any_moment { AtAnyMoment D.Disk disk result.0 (IsOutcome (D.unsynced disk)) }
    // Whatever comes back, its calls were some first ones of sync and length, or these and reads
    // behind them.
    ensures called { ThenSomeReads opening_calls (D.calls disk) (D.calls result.0) }
    // A fault is one of the bytes, `Device` or `Memory`. H: opening refuses the bytes so, and they
    // stand for no set.
    ensures fault { IfErr result.1 (IsShowingFault (D.honest disk) (D.bytes disk)) }
    // A fault of the bytes: nothing was read.
    ensures unread { IfErr result.1 (IfFileRefused (r.new ≡ r.old)) }
    // A fault of the bytes: nothing was written to the output.
    ensures nothing_written { IfErr result.1 (IfRefused (w.new ≡ w.old)) }
    // Any fault: nothing was written to the output, unless the writer failed.
    ensures untold { IfErr result.1 (λ _. w.new.failures ≡ w.old.failures → w.new ≡ w.old) }
    // H: of bytes that stand for no set reader and writer are as they were, whatever comes back.
    ensures nothing_stood { D.honest disk → StandsForNone (D.bytes disk)
        → (r.new ≡ r.old) × (w.new ≡ w.old) }
    // `Device` only where the disk, the reader or the writer failed; at `Ok` and `Memory` none did.
    ensures device { Blames (D.faults disk + (r.old.failures + w.old.failures))
        (D.faults result.0 + (r.new.failures + w.new.failures)) result.1 }
    // `Ok`: no call of the disk failed.
    ensures no_failure { OnOk result.1 (D.faults result.0 ≡ D.faults disk) }
    // The disk is honest exactly if it was before.
    ensures honest { SameHonesty D.Disk disk result.0 }
{
    match Store::open(alloc, disk) {
        Ok((store, opening)) => {
            let outcome = eval(alloc, r, w, opening, key, now);
            (store.into_disk(), outcome)
        }
        Err((fault, disk)) => (disk, Err(fault.into())),
    }
}

// Writes the reply over the set that a store was opened with.
fn eval<R: Read, W: Write>(
    alloc: Global,
    r: &mut FailureCounted<R>,
    w: &mut FailureCounted<W>,
    opening: Opening,
    key: &str,
    now: u64,
) -> Result<(), CommandFault>
    requires { now < 2 ^ 63 }
    ensures answered { OnOk result (IsAnswered opening.start key.now now
        (R.remaining r.old.inner) (W.contents w.old.inner) (W.contents w.new.inner)) }
    ensures fault { IfErr result IsStreamFault }
    ensures untold { IfErr result (λ _. w.new.failures ≡ w.old.failures → w.new ≡ w.old) }
    ensures device { Blames (r.old.failures + w.old.failures)
        (r.new.failures + w.new.failures) result }
{
    let published = published_of(alloc, opening)?;
    let body = r.read_to_end(alloc)?;
    let reply = answer_for(alloc, &published.view(), key, Body::Whole(&body), now)?;
    let line = line_of(alloc, &reply)?;
    w.send(&line)?;
    Ok(())
}

// What a desk publishes before any edit.
fn published_of(alloc: Global, opening: Opening) -> Result<Published, AllocError>
    ensures { IfOk result (λ p. p ≡ record { store = opening; edits = [] }) }
{
    match Desk::new(alloc, opening) {
        Ok(desk) => Published::build(&desk),
        Err((fault, _opening)) => Err(fault),
    }
}

// The line that shows a reply.
fn line_of(alloc: Global, reply: &Reply) -> Result<Vec<u8>, AllocError>
    ensures { IfOk result (λ line. line.items ≡ reply_line (response_seen reply.now)) }
{
    let mut line = Vec::from_slice(
        alloc,
        Buffer::new().format(reply.status.as_u16()).as_bytes(),
    )?;
    line.push(b' ')?;
    line.extend_from_slice(&reply.body)?;
    line.push(b'\n')?;
    Ok(line)
}
