//! Stores on new disks and on disks that kept edits before.

ghost use Rattle.fp_disk.specs.Crashes.{AtAnyMoment, IsUntouched, SameHonesty};
ghost use Rattle.std.specs.Prelude.{◌≡◌, ◌≢◌, ◌⊎◌, ◌<◌, ◌++◌, [], ◌∷◌, IfOk};
ghost use Rattle.std.specs.Prelude.{◌↔◌, IfErr, IsOk, IsTrue, MatchResult, false, slice_index};
ghost use Rattle.fp_disk.specs.History.{MakesSome};
ghost use Rattle.fp_disk.specs.Outcomes.{IsOutcome, LeavesOnly, all_synced};
ghost use Rattle.fp_disk.specs.declared.history.CallKind.TheVariants.{Length, Sync};
ghost use Rattle.fp_edit.specs.Flags.{State};
ghost use Rattle.fp_gate.specs.declared.gate.TheConstants.{OPEN};
ghost use Rattle.fp_journal.specs.Pieces.{ThenReads, ThenSomeReads};
ghost use Rattle.fp_layout.specs.NewDisk.{IsNewDisk, format_calls};
ghost use Rattle.fp_slots.specs.declared.places.TheConstants.{VERSION};
ghost use Rattle.fp_layout.specs.Layout.{HasSlots};
ghost use Rattle.fp_layout.specs.Size.{IsSlotSize, first_slot, second_slot};
ghost use Rattle.fp_layout.specs.declared.fault.OpenFault.TheVariants as opening;
ghost use Rattle.fp_layout.specs.declared.format.TheConstants.{FIRST_GATE};
ghost use Rattle.fp_recovery.specs.Durable.{IsNewSetOrNone, IsDurable};
ghost use Rattle.fp_recovery.specs.Recovered.{StandsAt};
ghost use Rattle.fp_recovery.specs.Refusals.{IsUnlessWanting, RefusesBytes};
ghost use Rattle.fp_recovery.specs.Stands.{StandsFor};
ghost use Rattle.fp_group_commit.specs.Store.{IsFresh, new_set};
ghost use Rattle.fp_group_commit.specs.declared.fault.CreateFault.TheVariants.{NotEmpty, BadSize};
ghost use Rattle.fp_group_commit.specs.declared.fault.CreateFault.TheVariants.{Device, Memory};

use crate::fault::CreateFault;
use crate::opening::Opening;
use crate::store::Store;
use fp_disk::Disk;
use fp_edit::FlagSet;
use fp_layout::{CreateFault as LayoutFault, OpenFault, SlotSize};
use std::alloc::Global;

// Why a disk isn't made where the size of its slots is none.
fn refusal_of_size<D: Disk>(disk: &mut D) -> CreateFault
    ensures not_empty { D.honest disk.old → result ≡ NotEmpty → D.bytes disk.old ≢ [] }
    ensures bad_size { D.honest disk.old → result ≡ BadSize → D.bytes disk.old ≡ [] }
    ensures kept { D.honest disk.old → IsUntouched D.Disk disk.old disk.new }
    ensures honest { SameHonesty D.Disk disk.old disk.new }
    ensures called { D.calls disk.new ≡ D.calls disk.old ++ Length ∷ [] }
    ensures cause { result ≡ Device → D.faults disk.old < D.faults disk.new }
    ensures unfailed { result ≢ Device → D.faults disk.new ≡ D.faults disk.old }
    ensures no_memory { result ≢ Memory }
{
    match disk.len() {
        Ok(0) => CreateFault::BadSize,
        Ok(_) => CreateFault::NotEmpty,
        Err(_) => CreateFault::Device,
    }
}

impl<D: Disk> Store<D> {
    /// Makes an empty disk one that keeps no flags, at revision 0, in slots of this size. A disk
    /// that isn't empty is left as it is.
    pub fn create(
        alloc: Global,
        mut disk: D,
        size: u64,
    ) -> Result<(Store<D>, Opening), (CreateFault, D)>
        // `Ok`: a slot may have this size.
        ensures allowed { IfOk result (λ _. IsSlotSize size) }
        // H: at `Ok` the disk had no bytes.
        ensures empty { D.honest disk → IsOk result → D.bytes disk ≡ [] }
        // `Ok`: the store begins with no flags at revision 0. Nothing is sealed since or on its
        // way, no call has failed, no compaction runs; a batch may take what its slot says, and
        // what lies behind the closed gate is left.
        ensures fresh { IfOk result (λ r. IsFresh r.0 (new_set size)) }
        // `Ok`: the opening names this store.
        ensures opening { IfOk result (λ r. r.1 ≡ r.0.store) }
        // `Ok`: both slots have this size, and the first one rules.
        ensures slots { IfOk result (λ r. (r.0.place.slot ≡ first_slot size)
            × (r.0.other ≡ second_slot size)) }
        // `Ok`: the closed gate is where a new disk's first batch goes.
        ensures gate { IfOk result (λ r. r.0.place.gate ≡ FIRST_GATE) }
        // `Ok`: the slot is of the version of all that is written.
        ensures version { IfOk result (λ r. r.0.compaction.version ≡ VERSION) }
        // `Ok`: the other slot's gate counts as closed, so that the first compaction makes no
        // call to close it.
        ensures other_gate { IfOk result (λ r. r.0.may_open ≡ false) }
        // H: at `Ok` the bytes are those of a new disk.
        ensures made { D.honest disk → IfOk result (λ r. IsNewDisk size (D.bytes r.0.disk)) }
        // H: at `Ok` every crash state stands for no flags at revision 0.
        ensures sure { D.honest disk →
            IfOk result (λ r. IsDurable (D.unsynced r.0.disk) (new_set size)) }

        // H: at `NotEmpty` the disk had bytes.
        ensures not_empty { D.honest disk →
            IfErr result (λ e. e.0 ≡ NotEmpty → D.bytes disk ≢ []) }
        // H: at `BadSize` the disk had none.
        ensures bad_size { D.honest disk → IfErr result (λ e. e.0 ≡ BadSize → D.bytes disk ≡ []) }
        // `BadSize`: a slot can't have this size.
        ensures no_size { IfErr result (λ e. e.0 ≡ BadSize → IsSlotSize size → ⊥) }
        // `Ok`: no call of the disk failed.
        ensures no_failure { IfOk result (λ r. D.faults r.0.disk ≡ D.faults disk) }
        // `Device`: a call of the disk failed.
        ensures cause { IfErr result (λ e. e.0 ≡ Device → D.faults disk < D.faults e.1) }
        // Any other fault: no call of the disk failed.
        ensures unfailed { IfErr result (λ e. e.0 ≢ Device → D.faults e.1 ≡ D.faults disk) }
        // `Memory` only where a slot may have this size.
        ensures memory { IfErr result (λ e. e.0 ≡ Memory → IsSlotSize size) }

        // H: at an `Err`, but for `Device` over an empty disk: what is read and pending stays,
        // and a crash at any moment leaves what one could leave before.
        ensures kept { D.honest disk → IfErr result (λ e. (D.bytes disk ≢ []) ⊎ (e.0 ≢ Device)
            → IsUntouched D.Disk disk e.1) }

        // H: of an empty disk, all of it synced, any crash state at any moment is no disk yet, or
        // one of no flags.
        ensures any_moment { D.honest disk → D.unsynced disk ≡ all_synced [] → MatchResult result
            (λ r. LeavesOnly D.moment D.crash_states_since disk r.0.disk
            (IsNewSetOrNone size))
            (λ e. LeavesOnly D.moment D.crash_states_since disk e.1 (IsNewSetOrNone size)) }
        // `Ok`: ten calls of the disk: length; write, sync; write, write, sync; write, sync;
        // write, sync. `Err`: some first ones of them.
        ensures called { MatchResult result
            (λ r. D.calls r.0.disk ≡ D.calls disk ++ Length ∷ format_calls)
            (λ e. MakesSome (Length ∷ format_calls) (D.calls disk) (D.calls e.1)) }
        // Any fault but `Device`: the disk's length was asked for, and nothing else.
        ensures untouched { IfErr result (λ e. (e.0 ≡ Device)
            ⊎ (D.calls e.1 ≡ D.calls disk ++ Length ∷ [])) }
        // However it ends, the disk keeps its word as it did.
        ensures honest { MatchResult result (λ r. SameHonesty D.Disk disk r.0.disk)
            (λ e. SameHonesty D.Disk disk e.1) }
    {
        let Some(size) = SlotSize::new(size) else {
            return Err((refusal_of_size(&mut disk), disk));
        };
        let slots = match fp_layout::create(alloc, disk, size) {
            Ok(slots) => slots,
            Err((LayoutFault::NotEmpty, disk)) => return Err((CreateFault::NotEmpty, disk)),
            Err((LayoutFault::Device, disk)) => return Err((CreateFault::Device, disk)),
            Err((LayoutFault::Memory, disk)) => return Err((CreateFault::Memory, disk)),
        };
        let limit = size.bytes() / 2;
        let set = FlagSet::new(alloc, limit);
        Ok(Store::adopt(alloc, set, FlagSet::new(alloc, limit), slots))
    }

    /// Goes on from what a disk stands for. It syncs before it reads, and writes nothing.
    pub fn open(alloc: Global, disk: D) -> Result<(Store<D>, Opening), (OpenFault, D)>
        // H: at `Ok` the bytes stand for the set of the opening.
        ensures stands { D.honest disk →
            IfOk result (λ r. StandsFor (D.bytes disk) r.0.store.start) }
        // H: at `Ok` the store goes on in the slot that rules, at the closed gate behind what
        // stands there: so what a batch may take and what is left are that slot's.
        ensures place { D.honest disk → IfOk result (λ r.
            StandsAt (D.bytes disk) r.0.store.start r.0.place) }
        // H: at `Ok` the slots, the version and the generation are the disk's.
        ensures slots { D.honest disk → IfOk result (λ r. HasSlots (D.bytes disk)
            r.0.place.slot r.0.other r.0.compaction.version r.0.compaction.generation) }
        // H: at `Ok` the bytes stand for no other set.
        ensures only { D.honest disk → IfOk result (λ r. (other : State) →
            StandsFor (D.bytes disk) other → other ≡ r.0.store.start) }
        // `Ok`: the store begins with that set. Nothing is sealed since or on its way, no call
        // has failed, no compaction runs; a batch may take what its slot says, and what lies
        // behind the closed gate is left.
        ensures fresh { IfOk result (λ r. IsFresh r.0 r.0.store.start) }
        // `Ok`: the opening names this store.
        ensures opening { IfOk result (λ r. r.1 ≡ r.0.store) }
        // H: at `Ok` the other slot's gate counts as open exactly where it is. Only then the
        // first compaction's `Close` writes.
        ensures other_gate { D.honest disk → IfOk result (λ r. IsTrue r.0.may_open
            ↔ (slice_index (D.bytes disk) r.0.other.start ≡ OPEN)) }

        // H: at `Ok` every crash state stands for the set now.
        ensures sure { D.honest disk →
            IfOk result (λ r. IsDurable (D.unsynced r.0.disk) r.0.store.start) }

        // H: a fault of the bytes is the first one that they have, in the order of the layout.
        ensures fault { D.honest disk → IfErr result (λ e. RefusesBytes (D.bytes disk) e.0) }
        // H: bytes that stand for a set are refused with `Device` or `Memory` alone.
        ensures refused { D.honest disk → IfErr result (λ e. IsUnlessWanting (D.bytes disk) e.0) }
        // `Ok`: no call of the disk failed.
        ensures no_failure { IfOk result (λ r. D.faults r.0.disk ≡ D.faults disk) }
        // `Device`: a call of the disk failed.
        ensures cause { IfErr result (λ e. e.0 ≡ opening.Device → D.faults disk < D.faults e.1) }
        // `Memory`: no call of the disk failed.
        ensures memory { IfErr result (λ e. e.0 ≡ opening.Memory → D.faults e.1 ≡ D.faults disk) }
        // `Ok`: the calls of the disk are a sync, the length, and behind them reads alone. `Err`:
        // some first ones of these.
        ensures called { MatchResult result
            (λ r. ThenReads (Sync ∷ Length ∷ []) (D.calls disk) (D.calls r.0.disk))
            (λ e. ThenSomeReads (Sync ∷ Length ∷ []) (D.calls disk) (D.calls e.1)) }
        // H: the bytes stay.
        ensures same { D.honest disk → MatchResult result
            (λ r. D.bytes r.0.disk ≡ D.bytes disk) (λ e. D.bytes e.1 ≡ D.bytes disk) }
        // H: any crash state at any moment is one from before.
        ensures any_moment { D.honest disk → MatchResult result
            (λ r. LeavesOnly D.moment D.crash_states_since disk r.0.disk
            (IsOutcome (D.unsynced disk)))
            (λ e. LeavesOnly D.moment D.crash_states_since disk e.1 (IsOutcome (D.unsynced disk))) }
        // However it ends, the disk keeps its word as it did.
        ensures honest { MatchResult result (λ r. SameHonesty D.Disk disk r.0.disk)
            (λ e. SameHonesty D.Disk disk e.1) }
    {
        let (slots, set) = match fp_compaction::open(alloc, disk) {
            Ok(opened) => opened,
            Err(refused) => return Err(refused),
        };
        let Ok(own) = set.try_copy() else {
            return Err((OpenFault::Memory, slots.into_disk()));
        };
        Ok(Store::adopt(alloc, set, own, slots))
    }
}
