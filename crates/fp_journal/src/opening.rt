//! A journal behind the chain that is read of a disk.

ghost use Rattle.std.specs.Prelude.{◌≡◌, ◌<◌, ◌≤◌, ◌+◌, [], length};
ghost use Rattle.std.specs.Prelude.{IfOk, IfErr, MatchResult};
ghost use Rattle.fp_disk.specs.Outcomes.{all_synced};
ghost use Rattle.fp_journal.specs.Holds.{Holds};
ghost use Rattle.fp_journal.specs.Pieces.{OnlyReads};
ghost use Rattle.fp_journal.specs.Reading.{ReadsChain, Refuses};
ghost use Rattle.fp_journal.specs.declared.chain.ChainFault.TheVariants.{Device, Memory};
ghost use Rattle.fp_journal.specs.declared.journal.Phase.TheVariants.{Idle};

use crate::chain::{ChainFault, Reader, read_chain};
use crate::journal::Journal;
use crate::slot::Slot;
use crate::text::Text;
use fp_disk::Disk;
use std::alloc::Global;

/// Goes on behind the chain that begins behind this text of the slot, on a disk of this length. The
/// disk gets a new name, so that no older token is one of its own.
pub fn resume<D: Disk, R: Reader>(
    alloc: Global,
    mut disk: D,
    slot: Slot,
    at: u64,
    len: u64,
    mut text: Text,
    reader: &mut R,
) -> Result<Journal<D>, (ChainFault, D)>
    // The chain begins behind the text, within the disk or at its end.
    requires place { (at ≡ slot.start + length text) × (at ≤ len) }
    // H: the disk has this length.
    requires long { D.honest disk → len ≡ length (D.bytes disk) }
    // H: the text stands in the slot, from its first byte on.
    requires stands { D.honest disk → Holds (D.bytes disk) slot.start text }
    // H: nothing is pending.
    requires synced { D.honest disk → D.unsynced disk ≡ all_synced (D.bytes disk) }
    // `Ok`: it lies in this slot, nothing is sealed and no body is on its way.
    ensures begins { IfOk result (λ j. (j.slot ≡ slot) × (j.sealed ≡ []) × (j.phase ≡ Idle)) }
    // `Ok`: as of `read_chain`, and it goes on behind the text and that chain.
    ensures found { IfOk result (λ j. ReadsChain (D.honest disk) R.takes slot.most at slot.stop
        (D.bytes disk) reader.old reader.new text j.front (slot.start + length j.front)) }
    // H: as of `read_chain`.
    ensures fault { D.honest disk → IfErr result (λ e.
        Refuses R.takes R.refuses slot.most at slot.stop (D.bytes disk) reader.old e.0) }
    // As of `read_chain`, of the disk that it has or gives back.
    ensures kept { MatchResult result (λ j. OnlyReads D.Disk disk j.disk)
        (λ e. OnlyReads D.Disk disk e.1) }
    // `Ok`: no call of the disk failed.
    ensures no_failure { IfOk result (λ j. D.faults j.disk ≡ D.faults disk) }
    // `Device`: a call of the disk failed.
    ensures cause { IfErr result (λ e. e.0 ≡ Device → D.faults disk < D.faults e.1) }
    // `Memory`: no call of the disk failed.
    ensures memory { IfErr result (λ e. e.0 ≡ Memory → D.faults e.1 ≡ D.faults disk) }
{
    match read_chain(alloc, &mut disk, at, slot, len, reader, &mut text) {
        Ok(end) => Ok(Journal::go_on(alloc, disk, slot, text, end)),
        Err(fault) => Err((fault, disk)),
    }
}
