//! Steps of a compaction: for room for a batch, one beside the batches, and to its end.

ghost use Rattle.std.specs.Prelude.{◌≡◌, ◌↔◌, ◌⊎◌, ◌<◌, ◌≤◌, ◌+◌, ◌^◌, length, IfErr, OnOk};
ghost use Rattle.std.specs.Prelude.{IsTrue};
ghost use Rattle.fp_disk.specs.Crashes.{EachCrash};
ghost use Rattle.fp_record.specs.declared.batch.TheConstants.{MOST_EDITS};
ghost use Rattle.fp_recovery.specs.Room.{IsFullFor};
ghost use Rattle.fp_recovery.specs.Stands.{StandsFor};
ghost use Rattle.fp_slots.specs.declared.slots.Step.TheVariants.{Begin};
ghost use Rattle.fp_group_commit.specs.Calls.{Compacts};
ghost use Rattle.fp_group_commit.specs.Changes.{HasRoom};
ghost use Rattle.fp_group_commit.specs.Store.{IsAtRest, MayCompact, sealed_set};
ghost use Rattle.fp_committer.specs.Room.{BeginsNone, EndsOne, Halts, IsDue, Proceeds};
ghost use Rattle.fp_committer.specs.declared.fault.CommitFault.TheVariants.{Memory, StoreFailed};

use crate::fault::CommitFault;
use fp_disk::Disk;
use fp_group_commit::{Draw, Store, StoreFault};
use fp_slots::{Step, VERSION};

// Takes the next step.
fn take_step<D: Disk>(store: &mut Store<D>) -> Result<(), CommitFault>
    requires may { MayCompact store.old }
    requires rest { IsAtRest store.old }
    ensures ok { OnOk result (Compacts D.faults store.old store.new) }
    ensures proceeds { OnOk result (Proceeds D.Disk store.old store.new) }
    ensures halts { IfErr result (Halts D.Disk store.old store.new) }
    ensures memory { IfErr result (λ f. f ≡ Memory → BeginsNone store.old store.new) }
{
    match store.compact_step() {
        Ok(_next) => Ok(()),
        Err(StoreFault::Device) => Err(CommitFault::StoreFailed),
        Err(StoreFault::Memory) => Err(CommitFault::Memory),
        Err(StoreFault::Failed) => unreachable!(),
        Err(StoreFault::Stranger) => unreachable!(),
    }
}

/// Takes steps until there is room for the draw: none where there is. Where no generation is left
/// for them it gives up.
pub(crate) fn make_room<D: Disk>(store: &mut Store<D>, draw: &Draw) -> Result<(), CommitFault>
    requires rest { IsAtRest store.old }
    requires keeps { EachCrash D.Disk store.old.disk (λ c. StandsFor c (sealed_set store.old)) }
    requires some { 0 < length draw.now.changes }
    requires few { length draw.now.changes ≤ MOST_EDITS }
    ensures room { OnOk result (HasRoom store.new draw.now) }
    ensures none { HasRoom store.old draw.now → store.new ≡ store.old }
    ensures proceeds { OnOk result (Proceeds D.Disk store.old store.new) }
    ensures halts { IfErr result (λ f. Halts D.Disk store.old store.new f
        ⊎ ((f ≡ StoreFailed) × Proceeds D.Disk store.old store.new
        × (2 ^ 64 ≤ store.new.compaction.generation + 1)
        × EachCrash D.Disk store.new.disk
        (λ c. IsFullFor c (sealed_set store.new) draw.now
        store.new.compaction.generation))) }
{
    while !store.has_room(draw) {
        if !store.may_compact() {
            return Err(CommitFault::StoreFailed);
        }
        take_step(store)?;
    }
    Ok(())
}

// Whether a step is due: a compaction runs, or one may begin, where less than a quarter of a slot
// is left, or the slot is older than all that is written.
fn is_due<D: Disk>(store: &Store<D>) -> bool
    ensures { IsTrue result ↔ IsDue store.now }
{
    match store.step() {
        Step::Begin => store.may_compact() && (store.is_short() || store.version() < VERSION),
        _ => true,
    }
}

/// Takes a step where a compaction runs, or begins one where less than a quarter of a slot is
/// left, or the slot is older than all that is written.
pub(crate) fn go_on<D: Disk>(store: &mut Store<D>) -> Result<(), CommitFault>
    requires rest { IsAtRest store.old }
    requires keeps { EachCrash D.Disk store.old.disk (λ c. StandsFor c (sealed_set store.old)) }
    ensures proceeds { OnOk result (Proceeds D.Disk store.old store.new) }
    ensures halts { IfErr result (Halts D.Disk store.old store.new) }
    ensures taken { OnOk result (IsDue store.old → Compacts D.faults store.old store.new) }
    ensures none { OnOk result ((IsDue store.old → ⊥) → store.new ≡ store.old) }
    ensures memory { IfErr result (λ f. f ≡ Memory → BeginsNone store.old store.new) }
{
    if !is_due(store) {
        return Ok(());
    }
    take_step(store)?;
    Ok(())
}

/// Takes the steps of a compaction that runs, to its end.
pub(crate) fn finish<D: Disk>(store: &mut Store<D>) -> Result<(), CommitFault>
    requires rest { IsAtRest store.old }
    requires keeps { EachCrash D.Disk store.old.disk (λ c. StandsFor c (sealed_set store.old)) }
    ensures none_runs { OnOk result (store.new.compaction.next ≡ Begin) }
    ensures none { store.old.compaction.next ≡ Begin → store.new ≡ store.old }
    ensures one { OnOk result (EndsOne store.old store.new) }
    ensures proceeds { OnOk result (Proceeds D.Disk store.old store.new) }
    ensures halts { IfErr result (Halts D.Disk store.old store.new) }
{
    while !matches!(store.step(), Step::Begin) {
        take_step(store)?;
    }
    Ok(())
}
