//! A batch, from where it is drawn to where it is sealed, and a compaction beside the batches: what
//! the store's half does for sessions and for the service.

ghost use Rattle.std.specs.Prelude.{◌≡◌, [], ◌∷◌, false, IfErr, OnErr, OnOk};
ghost use Rattle.fp_disk.specs.History.{MakesSome};
ghost use Rattle.fp_disk.specs.declared.history.CallKind.TheVariants.{Sync, Write};
ghost use Rattle.fp_slots.specs.declared.slots.Step.TheVariants.{Begin};
ghost use Rattle.fp_group_commit.specs.Calls.{Compacts};
ghost use Rattle.fp_committer.specs.Course.{CallsOn, GoesWell, HasCause, FailsBy, Reaches};
ghost use Rattle.fp_committer.specs.Room.{BeginsNone, EndsOne, IsDue};
ghost use Rattle.fp_committer.specs.StoreHalf.{taken_by, way_by};
ghost use Rattle.fp_committer.specs.Way.{CanStage, batch_drawn, batch_staged, batch_sealed};
ghost use Rattle.fp_committer.specs.Way.{nothing_drawn};
ghost use Rattle.fp_committer.specs.Works.{BreaksOff, batch_calls};
ghost use Rattle.fp_committer.specs.declared.fault.CommitFault.TheVariants.{Memory, StoreFailed};

use crate::event::Answer;
use crate::fault::CommitFault;
use crate::held::Held;
use crate::room;
use crate::store_half::StoreHalf;
use fp_disk::Disk;
use fp_group_commit::StoreFault;

impl<D: Disk> StoreHalf<D> {
    /// Seals what is drawn by the four calls of a batch, behind steps of a compaction where there
    /// is no room for it yet. Where memory was wanting it is drawn still, and can be sealed
    /// later.
    pub fn seal(&mut self) -> Result<(), CommitFault>
        // A batch is drawn.
        requires drawn { self.old.progress ≡ batch_drawn }
        // The store hasn't failed.
        requires well { self.old.store.failed ≡ false }
        // H: any crash state at any moment keeps all that is settled.
        ensures kept { CallsOn D.Disk self.old self.new }
        // `Ok`: what was drawn is sealed.
        ensures sealed { OnOk result (self.new.progress ≡ batch_sealed) }
        // `Ok`, where there was room for it: its four calls were made and no other, and a
        // compaction stays where it is.
        ensures alone { CanStage (taken_by self.old) (way_by self.old)
            → OnOk result (Reaches D.Disk batch_calls batch_sealed self.old self.new) }
        // `Ok`: no call of the disk failed, and the calls were those of whole works: steps of a
        // compaction, and batches (write, sync, write, sync).
        ensures well { OnOk result (GoesWell D.Disk self.old.store self.new.store) }
        // `Memory`: it is drawn still.
        ensures later { IfErr result (λ f. f ≡ Memory → self.new.progress ≡ batch_drawn) }
        // `StoreFailed` only where a call of the disk failed, and so the store, or where no
        // generation is left to make room for what is drawn, and H: no crash state has room for
        // it. `Memory`: the store is well, and no call failed.
        ensures cause { IfErr result (HasCause D.Disk self.old self.new) }
        // `Err`: the calls were those of whole works, and some first ones of one more.
        ensures called { OnErr result (BreaksOff D.Disk self.old.store self.new.store) }
    {
        self.make_room()?;
        self.write()?;
        self.make_sure()
    }

    // Takes steps of a compaction until there is room for what is drawn.
    fn make_room(&mut self) -> Result<(), CommitFault>
        requires drawn { self.old.progress ≡ batch_drawn }
        requires well { self.old.store.failed ≡ false }
        ensures kept { CallsOn D.Disk self.old self.new }
        ensures still { self.new.progress ≡ batch_drawn }
        ensures room { OnOk result (CanStage (taken_by self.new) (way_by self.new)) }
        ensures none { CanStage (taken_by self.old) (way_by self.old) → self.new ≡ self.old }
        ensures well { OnOk result (GoesWell D.Disk self.old.store self.new.store) }
        ensures cause { IfErr result (HasCause D.Disk self.old self.new) }
        ensures called { OnErr result (BreaksOff D.Disk self.old.store self.new.store) }
    {
        let Held::Drawn(draw) = &self.held else {
            unreachable!()
        };
        room::make_room(&mut self.store, draw)
    }

    // Writes what is drawn, where there is room for it.
    fn write(&mut self) -> Result<(), CommitFault>
        requires may { CanStage (taken_by self.old) (way_by self.old) }
        requires well { self.old.store.failed ≡ false }
        ensures kept { CallsOn D.Disk self.old self.new }
        ensures staged { OnOk result
            (Reaches D.Disk (Write ∷ []) batch_staged self.old self.new) }
        ensures later { IfErr result (λ f. f ≡ Memory → self.new.progress ≡ batch_drawn) }
        ensures cause { IfErr result (FailsBy D.Disk self.old.store self.new.store) }
        ensures called { OnErr result (MakesSome (Write ∷ []) (D.calls self.old.store.disk)
            (D.calls self.new.store.disk)) }
    {
        match self.stage() {
            Answer::Done => Ok(()),
            Answer::Fault(StoreFault::Memory) => Err(CommitFault::Memory),
            _ => Err(CommitFault::StoreFailed),
        }
    }

    // Makes sure of what was written, opens its gate, and makes sure of that.
    fn make_sure(&mut self) -> Result<(), CommitFault>
        requires staged { self.old.progress ≡ batch_staged }
        requires well { self.old.store.failed ≡ false }
        ensures kept { CallsOn D.Disk self.old self.new }
        ensures sealed { OnOk result
            (Reaches D.Disk (Sync ∷ Write ∷ Sync ∷ []) batch_sealed self.old self.new) }
        ensures fault { IfErr result (λ f. f ≡ StoreFailed) }
        ensures cause { IfErr result (FailsBy D.Disk self.old.store self.new.store) }
        ensures called { OnErr result (MakesSome (Sync ∷ Write ∷ Sync ∷ [])
            (D.calls self.old.store.disk) (D.calls self.new.store.disk)) }
    {
        let Answer::Done = self.sync_body() else {
            return Err(CommitFault::StoreFailed);
        };
        let Answer::Done = self.open_gate() else {
            return Err(CommitFault::StoreFailed);
        };
        let Answer::Sealed(_) = self.sync_gate() else {
            return Err(CommitFault::StoreFailed);
        };
        Ok(())
    }

    /// Takes a step where a compaction runs, or begins one where less than a quarter of a slot is
    /// left for batches, or the slot is older than all that is written.
    pub fn go_on(&mut self) -> Result<(), CommitFault>
        // Nothing is drawn.
        requires rest { self.old.progress ≡ nothing_drawn }
        // The store hasn't failed.
        requires well { self.old.store.failed ≡ false }
        // H: any crash state at any moment keeps all that is settled.
        ensures kept { CallsOn D.Disk self.old self.new }
        // Nothing is drawn then either.
        ensures still { self.new.progress ≡ nothing_drawn }
        // `Ok`: no call of the disk failed, and the calls were those of whole works, as of
        // `seal`.
        ensures well { OnOk result (GoesWell D.Disk self.old.store self.new.store) }
        // `StoreFailed` only where a call of the disk failed, and so the store. `Memory`: it is
        // well, and no call failed.
        ensures cause { IfErr result (FailsBy D.Disk self.old.store self.new.store) }
        // `Err`: the calls were those of whole works, and some first ones of one more.
        ensures called { OnErr result (BreaksOff D.Disk self.old.store self.new.store) }
        // `Ok`: the step was taken where one was due: where a compaction runs, or where one may
        // begin, and less than a quarter of a slot is left for batches or the slot is older than
        // all that is written.
        ensures taken { OnOk result
            (IsDue self.old.store → Compacts D.faults self.old.store self.new.store) }
        // `Ok`: where none was due the store is as before.
        ensures none { OnOk result
            ((IsDue self.old.store → ⊥) → self.new.store ≡ self.old.store) }
        // `Memory`: none ran, and the store is as before.
        ensures memory { IfErr result
            (λ f. f ≡ Memory → BeginsNone self.old.store self.new.store) }
    {
        room::go_on(&mut self.store)
    }

    /// Takes the steps of a compaction that runs, to its end. Where none runs it does nothing.
    pub fn finish(&mut self) -> Result<(), CommitFault>
        // Nothing is drawn.
        requires rest { self.old.progress ≡ nothing_drawn }
        // The store hasn't failed.
        requires well { self.old.store.failed ≡ false }
        // H: any crash state at any moment keeps all that is settled.
        ensures kept { CallsOn D.Disk self.old self.new }
        // Nothing is drawn then either.
        ensures still { self.new.progress ≡ nothing_drawn }
        // `Ok`: no compaction runs.
        ensures none_runs { OnOk result (self.new.store.compaction.next ≡ Begin) }
        // Where none ran the store is as before.
        ensures none { self.old.store.compaction.next ≡ Begin → self.new.store ≡ self.old.store }
        // `Ok`: no other was begun. Where one ran the generation is the next one.
        ensures one { OnOk result (EndsOne self.old.store self.new.store) }
        // `Ok`: no call of the disk failed, and the calls were those of whole works, as of
        // `seal`.
        ensures well { OnOk result (GoesWell D.Disk self.old.store self.new.store) }
        // `StoreFailed` only where a call of the disk failed, and so the store. `Memory`: it is
        // well, and no call failed.
        ensures cause { IfErr result (FailsBy D.Disk self.old.store self.new.store) }
        // `Err`: the calls were those of whole works, and some first ones of one more.
        ensures called { OnErr result (BreaksOff D.Disk self.old.store self.new.store) }
    {
        room::finish(&mut self.store)
    }
}
