//! A new disk.

ghost use Rattle.fp_disk.specs.Crashes.{IsUntouched, SameHonesty};
ghost use Rattle.std.specs.Prelude.{◌≡◌, ◌≢◌, ◌⊎◌, ◌<◌, ◌+◌, ◌∷◌, ◌++◌, [], length, IfOk};
ghost use Rattle.std.specs.Prelude.{false, IfErr, OnOk, IsOk, MatchResult};
ghost use Rattle.fp_disk.specs.History.{Makes, MakesSome};
ghost use Rattle.fp_disk.specs.declared.history.CallKind.TheVariants.{Length, Sync, Write};
ghost use Rattle.fp_disk.specs.Outcomes.{CountsFaults, IsOutcome, LeavesOnly, Written, all_synced};
ghost use Rattle.fp_disk.specs.Outcomes.{with_write};
ghost use Rattle.fp_disk.specs.Word.{KeepsWord};
ghost use Rattle.fp_journal.specs.declared.journal.Phase.TheVariants.{Idle};
ghost use Rattle.fp_layout.specs.Size.{first_slot, second_slot};
ghost use Rattle.fp_layout.specs.Layout.{IsHeader, IsHead, IsActive};
ghost use Rattle.fp_layout.specs.NewDisk.{IsNewDisk, IsNewOrNone, closed_bytes, empty_image};
ghost use Rattle.fp_layout.specs.NewDisk.{format_calls, new_front};
ghost use Rattle.fp_layout.specs.declared.header.TheConstants.{HEADER};
ghost use Rattle.fp_slots.specs.declared.places.TheConstants.{VERSION};
ghost use Rattle.fp_slots.specs.declared.slots.Step.TheVariants.{Begin};
ghost use Rattle.fp_layout.specs.declared.format.CreateFault.TheVariants.{NotEmpty, Device};

use crate::header::{HEADER, HEADER_VERSION, ZEROS};
use crate::size::SlotSize;
use fp_disk::{Disk, DiskFault};
use fp_gate::OPEN;
use fp_journal::Journal;
use fp_slots::{IMAGE_PLACE, Slots, VERSION};
use std::alloc::{AllocError, Global};

/// How many bytes an image of no flags has: those of their number.
const EMPTY_IMAGE: usize = 4;

/// The place of the first batch's gate on a new disk, behind an image of no flags.
pub const FIRST_GATE: usize = HEADER + IMAGE_PLACE + EMPTY_IMAGE;

/// Why a disk wasn't made.
#[derive(Clone, Copy, Debug)]
pub enum CreateFault {
    /// There are bytes already.
    NotEmpty,
    /// The device refused.
    Device,
    /// Memory ran out.
    Memory,
}

// The bytes up to the first batch's gate, with every gate closed.
fn closed(alloc: Global, size: SlotSize) -> Result<Vec<u8>, AllocError>
    ensures { IfOk result (λ v. v.items ≡ closed_bytes size) }
{
    [
        &[0][..],
        b"FLAGPLN1",
        &[HEADER_VERSION],
        &size.bytes().to_be_bytes(),
        &[0; ZEROS],
        &[0],
        &1u64.to_be_bytes(),
        &[VERSION],
        &0u64.to_be_bytes(),
        &4u32.to_be_bytes(),
        &0u32.to_be_bytes(),
        &[0],
    ]
    .concat(alloc)
}

// Writes, and makes sure of it.
fn write_synced<D: Disk>(disk: &mut D, at: u64, from: &[u8]) -> Result<(), DiskFault>
    ensures written { D.honest disk.old → OnOk result (Written (D.bytes disk.old) at from.now
        (D.bytes disk.new)) }
    ensures all_synced { D.honest disk.old → OnOk result (D.unsynced disk.new
        ≡ all_synced (D.bytes disk.new)) }
    ensures word { KeepsWord D.Disk disk.old disk.new
        (IsOutcome (with_write (D.unsynced disk.old) at (length from.now))) }
    ensures called { Makes (Write ∷ Sync ∷ []) (D.calls disk.old) (D.calls disk.new) result }
    ensures cause { CountsFaults (D.faults disk.old) (D.faults disk.new) result }
{
    disk.write_at(at, from)?;
    disk.sync()
}

// Writes the layout onto an empty disk: the header's gate,
// which comes last, opens over what is synced.
fn format<D: Disk>(disk: &mut D, size: SlotSize, closed: &[u8]) -> Result<(), DiskFault>
    requires { closed.now ≡ closed_bytes size }
    ensures made { D.honest disk.old → D.bytes disk.old ≡ []
        → OnOk result (IsNewDisk size (D.bytes disk.new)) }
    ensures all_synced { D.honest disk.old → OnOk result (D.unsynced disk.new
        ≡ all_synced (D.bytes disk.new)) }
    ensures word { KeepsWord D.Disk disk.old disk.new
        (λ c. D.unsynced disk.old ≡ all_synced [] → IsNewOrNone size c) }
    ensures called { Makes format_calls (D.calls disk.old) (D.calls disk.new) result }
    ensures cause { CountsFaults (D.faults disk.old) (D.faults disk.new) result }
{
    write_synced(disk, 0, &[0])?;
    disk.write_at(1, &closed[1..])?;
    write_synced(disk, HEADER as u64 + size.bytes(), &[0])?;
    write_synced(disk, HEADER as u64, &[OPEN])?;
    write_synced(disk, 0, &[OPEN])
}

/// Makes an empty disk one of this layout, with no flag and revision 0, and its two slots, of which
/// the first rules. Each fault gives the disk back. The header's gate opens last.
pub fn create<D: Disk>(
    alloc: Global,
    mut disk: D,
    size: SlotSize,
) -> Result<Slots<D>, (CreateFault, D)>
    // `Ok`: the journal lies in the first slot, behind an image of no flags; nothing is sealed and
    // no body is on its way.
    ensures journal { IfOk result (λ s. (s.journal.slot ≡ first_slot size)
        × (s.journal.front ≡ new_front) × (s.journal.sealed ≡ []) × (s.journal.phase ≡ Idle)) }
    // `Ok`: the other slot is the second, whose gate counts as closed; generation 1, version 2, and
    // no compaction runs.
    ensures beside { IfOk result (λ s. (s.other ≡ second_slot size) × (s.generation ≡ 1)
        × (s.version ≡ VERSION) × (s.step ≡ Begin) × (s.may_open ≡ false)) }
    // H: `Ok`: the bytes are those of a new disk, each of them.
    ensures made { D.honest disk → IfOk result (λ s. IsNewDisk size (D.bytes s.journal.disk)) }
    // H: `Ok`: they are the one crash state.
    ensures all_synced { D.honest disk → IfOk result (λ s. D.unsynced s.journal.disk
        ≡ all_synced (D.bytes s.journal.disk)) }
    // H: `Ok`: there is a header of this size, and the first slot rules, with an image of no flags
    // at revision 0.
    ensures stands { D.honest disk → IfOk result (λ s. IsHeader (D.bytes s.journal.disk) size
        × IsActive (D.bytes s.journal.disk) size (first_slot size) (second_slot size)
        × IsHead (D.bytes s.journal.disk) HEADER size VERSION 1 0 empty_image) }
    // H: `NotEmpty`: there were bytes.
    ensures not_empty { D.honest disk → IfErr result (λ e. e.0 ≡ NotEmpty → D.bytes disk ≢ []) }
    // H: `Ok`: the disk had no bytes.
    ensures empty { D.honest disk → IsOk result → D.bytes disk ≡ [] }
    // H: of an empty disk, all of it synced: any crash state at any moment is no disk of this
    // layout, or the whole new one.
    ensures any_moment { D.honest disk → D.unsynced disk ≡ all_synced []
        → MatchResult result (λ s. LeavesOnly D.moment D.crash_states_since disk s.journal.disk
        (IsNewOrNone size)) (λ e. LeavesOnly D.moment D.crash_states_since disk e.1
        (IsNewOrNone size)) }
    // The disk is honest after it exactly if it was before.
    ensures honest { MatchResult result (λ s. SameHonesty D.Disk disk s.journal.disk)
        (λ e. SameHonesty D.Disk disk e.1) }
    // `Ok`: ten calls of the disk: length; write, sync; write, write, sync; write, sync; write,
    // sync. A fault: some first ones of them.
    ensures called { MatchResult result (λ s. D.calls s.journal.disk
        ≡ D.calls disk ++ Length ∷ format_calls) (λ e. MakesSome (Length ∷ format_calls)
        (D.calls disk) (D.calls e.1)) }
    // Any fault but `Device`: the disk's length was asked for, and nothing else.
    ensures untouched { IfErr result (λ e. (e.0 ≡ Device)
        ⊎ (D.calls e.1 ≡ D.calls disk ++ Length ∷ [])) }

    // H: at a fault of a disk that had bytes, and at any fault but `Device`: what is read and
    // pending stays, and a crash at any moment leaves what one could leave before.
    ensures kept { D.honest disk → IfErr result (λ e. (D.bytes disk ≢ []) ⊎ (e.0 ≢ Device)
        → IsUntouched D.Disk disk e.1) }
    // `Ok`: no call of the disk failed.
    ensures no_failure { IfOk result (λ s. D.faults s.journal.disk ≡ D.faults disk) }
    // `Device`: a call of the disk failed.
    ensures cause { IfErr result (λ e. e.0 ≡ Device → D.faults disk < D.faults e.1) }
    // Any other fault: no call of the disk failed.
    ensures unfailed { IfErr result (λ e. e.0 ≢ Device → D.faults e.1 ≡ D.faults disk) }
{
    match disk.len() {
        Ok(0) => {}
        Ok(_) => return Err((CreateFault::NotEmpty, disk)),
        Err(_) => return Err((CreateFault::Device, disk)),
    }
    let Ok(mut bytes) = closed(alloc, size) else {
        return Err((CreateFault::Memory, disk));
    };
    let Ok(()) = format(&mut disk, size, &bytes) else {
        return Err((CreateFault::Device, disk));
    };
    bytes[HEADER] = OPEN;
    let journal = Journal::adopt(alloc, disk, size.first_slot(), &bytes, FIRST_GATE as u64);
    Ok(Slots::new(alloc, journal, size.second_slot(), 1, VERSION, false))
}
