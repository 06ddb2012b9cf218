//! A disk that is there, opened as two slots and the set that they keep.

ghost use Rattle.std.specs.Prelude.{◌≡◌, ◌↔◌, ℕ, IfOk, IfErr, IsTrue};
ghost use Rattle.std.specs.Prelude.{slice_index};
ghost use Rattle.fp_disk.specs.Outcomes.{all_synced};
ghost use Rattle.fp_gate.specs.declared.gate.TheConstants.{OPEN};
ghost use Rattle.fp_journal.specs.declared.journal.Phase.TheVariants.{Idle};
ghost use Rattle.fp_layout.specs.Layout.{HasSlots};
ghost use Rattle.fp_layout.specs.Opens.{OpensDisk};
ghost use Rattle.fp_recovery.specs.Recovered.{StandsAt};
ghost use Rattle.fp_recovery.specs.Refusals.{RefusesBytes};
ghost use Rattle.fp_recovery.specs.Stands.{StandsFor};
ghost use Rattle.fp_slots.specs.declared.slots.Step.TheVariants.{Begin};
ghost use Rattle.fp_compaction.specs.Sets.{IsKeptIn, IsPlaced, place_of};

use fp_disk::Disk;
use fp_edit::FlagSet;
use fp_layout::OpenFault;
use fp_recovery::Replayer;
use fp_slots::Slots;
use std::alloc::Global;

/// Opens a disk: its two slots, with a journal in the one that rules, and the set that they keep.
/// It syncs before it reads, and writes nothing; a fault gives the disk back.
pub fn open<D: Disk>(alloc: Global, disk: D) -> Result<(Slots<D>, FlagSet), (OpenFault, D)>
    // H: `Ok`: the bytes stand for the set.
    ensures stands { D.honest disk → IfOk result (λ r. StandsFor (D.bytes disk) r.1) }
    // H: `Ok`: they do by the journal's slot, and it goes on at the closed gate behind what stands
    // there.
    ensures place { D.honest disk →
        IfOk result (λ r. StandsAt (D.bytes disk) r.1 (place_of r.0.journal)) }
    // H: `Ok`: the two slots are the disk's, and the journal's rules, under this generation and of
    // this version.
    ensures slots { D.honest disk → IfOk result (λ r.
        HasSlots (D.bytes disk) r.0.journal.slot r.0.other r.0.version r.0.generation) }
    // `Ok`, over any disk: the two slots are those of one size, and a set's image may take half of
    // one. H: they keep the set.
    ensures kept { IfOk result (λ r. (size : ℕ) × IsPlaced size r.0 r.1.limit
        × (D.honest disk → IsKeptIn (D.unsynced r.0.journal.disk) r.0 size r.1)) }
    // `Ok`: no batch is on its way and no compaction runs.
    ensures rest { IfOk result (λ r. (r.0.step ≡ Begin) × (r.0.journal.phase ≡ Idle)) }
    // H: `Ok`: the other slot's gate counts as open exactly where it is.
    ensures other_gate { D.honest disk → IfOk result (λ r. IsTrue r.0.may_open
        ↔ (slice_index (D.bytes disk) r.0.other.start ≡ OPEN)) }
    // H: `Err`: the first fault of the bytes, with its place, or `Device` or `Memory`.
    ensures fault { D.honest disk → IfErr result (λ e. RefusesBytes (D.bytes disk) e.0) }
    // H: `Ok`: the bytes are the one crash state.
    ensures all_synced { D.honest disk →
        IfOk result (λ r. D.unsynced r.0.journal.disk ≡ all_synced (D.bytes disk)) }
    // As of `recover` of `fp_recovery`, but its calls are sync, length, and behind them reads.
    ensures opens { OpensDisk D.Disk (λ r. r.0.journal.disk) disk result }
{
    let mut restoring = Replayer::new(alloc);
    let slots = fp_layout::open(alloc, disk, &mut restoring)?;
    let set = restoring.into_set();
    Ok((slots, set))
}
