//! A batch on its way and a compaction beside it: the calls of the disk, one at a time.

ghost use Rattle.std.specs.Prelude.{◌≡◌};
ghost use Rattle.fp_disk.specs.declared.history.CallKind.TheVariants.{Sync, Write};
ghost use Rattle.fp_committer.specs.StoreHalf.{KeepsHalf, MakesOfCompaction, MakesOne};
ghost use Rattle.fp_committer.specs.StoreHalf.{taken_by, way_by};
ghost use Rattle.fp_committer.specs.Way.{OpensGate, Seals, Stages, StepsOn, SyncsBody};

use crate::event::Answer;
use crate::held::{Held, end};
use crate::store_half::StoreHalf;
use fp_disk::Disk;
use fp_group_commit::{Phase, StoreFault};
use std::mem;

impl<D: Disk> StoreHalf<D> {
    /// Writes what is drawn. All memory of the batch is taken here.
    pub fn stage(&mut self) -> Answer
        // A step of the plain machine: `Done` where a batch is drawn and has room, which is then
        // staged; else `NotNow`. `Device` and `Failed` are told as the store tells them; `Memory`
        // changes nothing.
        ensures steps { Stages (taken_by self.old) (way_by self.old) result (way_by self.new) }
        // H: any crash state at any moment keeps all that is settled.
        ensures kept { KeepsHalf D.Disk self.old result self.new }
        // `Done`: one call of the disk, a write; `Device`: that one or none; else none.
        ensures called { MakesOne Write result (D.calls self.old.store.disk)
            (D.calls self.new.store.disk) }
    {
        if self.store.failed() {
            return Answer::Fault(StoreFault::Failed);
        }
        let draw = match mem::replace(&mut self.held, Held::InFlight) {
            Held::Drawn(draw) => draw,
            other => {
                end(mem::replace(&mut self.held, other));
                return Answer::NotNow;
            }
        };
        if !self.store.has_room(&draw) {
            end(mem::replace(&mut self.held, Held::Drawn(draw)));
            return Answer::NotNow;
        }
        let Err((fault, draw)) = self.store.stage(draw) else {
            return Answer::Done;
        };
        end(mem::replace(&mut self.held, Held::Drawn(draw)));
        if let StoreFault::Stranger = fault {
            unreachable!()
        }
        Answer::Fault(fault)
    }

    /// Makes sure of the batch that was staged.
    pub fn sync_body(&mut self) -> Answer
        // A step of the plain machine: `Done` where the batch is staged, and it is synced then;
        // else `NotNow`, or `Device` or `Failed`.
        ensures steps { SyncsBody (taken_by self.old) (way_by self.old) result (way_by self.new) }
        // H: any crash state at any moment keeps all that is settled.
        ensures kept { KeepsHalf D.Disk self.old result self.new }
        // `Done`: one call of the disk, a sync; `Device`: that one or none; else none.
        ensures called { MakesOne Sync result (D.calls self.old.store.disk)
            (D.calls self.new.store.disk) }
    {
        if self.store.failed() {
            return Answer::Fault(StoreFault::Failed);
        }
        let Phase::Staged = self.store.phase() else {
            return Answer::NotNow;
        };
        let Err(fault) = self.store.sync_body() else {
            return Answer::Done;
        };
        Answer::Fault(fault)
    }

    /// Opens the gate in front of the batch that was synced.
    pub fn open_gate(&mut self) -> Answer
        // A step of the plain machine: `Done` where the batch is synced, and its gate is opened
        // then; else `NotNow`, or `Device` or `Failed`.
        ensures steps { OpensGate (taken_by self.old) (way_by self.old) result (way_by self.new) }
        // H: any crash state at any moment keeps all that is settled.
        ensures kept { KeepsHalf D.Disk self.old result self.new }
        // `Done`: one call of the disk, a write; `Device`: that one or none; else none.
        ensures called { MakesOne Write result (D.calls self.old.store.disk)
            (D.calls self.new.store.disk) }
    {
        if self.store.failed() {
            return Answer::Fault(StoreFault::Failed);
        }
        let Phase::BodySynced = self.store.phase() else {
            return Answer::NotNow;
        };
        let Err(fault) = self.store.open_gate() else {
            return Answer::Done;
        };
        Answer::Fault(fault)
    }

    /// Makes sure of the gate: the batch is sealed, up to the revision that is answered.
    pub fn sync_gate(&mut self) -> Answer
        // A step of the plain machine: `Sealed` where the gate was opened, and the batch takes
        // its bytes of the room; else `NotNow`, or `Device` or `Failed`.
        ensures steps { Seals (taken_by self.old) (way_by self.old) result (way_by self.new) }
        // H: any crash state at any moment keeps all that is settled.
        ensures kept { KeepsHalf D.Disk self.old result self.new }
        // `Sealed`: one call of the disk, a sync; `Device`: that one or none; else none.
        ensures called { MakesOne Sync result (D.calls self.old.store.disk)
            (D.calls self.new.store.disk) }
    {
        if self.store.failed() {
            return Answer::Fault(StoreFault::Failed);
        }
        let Phase::GateOpened = self.store.phase() else {
            return Answer::NotNow;
        };
        match self.store.sync_gate() {
            Ok(receipt) => {
                end(mem::replace(&mut self.held, Held::Sealed(receipt)));
                Answer::Sealed(self.store.revision())
            }
            Err(fault) => Answer::Fault(fault),
        }
    }

    /// Takes the next step of a compaction. Memory can be wanting only as one begins.
    pub fn compact_step(&mut self) -> Answer
        // A step of the plain machine: `Phase` names the step that follows, where one may be
        // taken; else `NotNow`, or `Device` or `Failed`; `Memory`, only as one begins, changes
        // nothing. At the last step what a slot has beside head, image and tail is room.
        ensures steps { StepsOn (taken_by self.old) (way_by self.old) result (way_by self.new) }
        // H: any crash state at any moment keeps all that is settled.
        ensures kept { KeepsHalf D.Disk self.old result self.new }
        // `Phase` and `Device`: one call of the disk at most; else none.
        ensures called { MakesOfCompaction result (D.calls self.old.store.disk)
            (D.calls self.new.store.disk) }
    {
        if self.store.failed() {
            return Answer::Fault(StoreFault::Failed);
        }
        if !self.store.may_compact() {
            return Answer::NotNow;
        }
        let Err(fault) = self.store.compact_step() else {
            return Answer::Phase(self.store.step());
        };
        Answer::Fault(fault)
    }
}
