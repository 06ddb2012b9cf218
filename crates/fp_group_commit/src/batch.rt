//! A batch on its way, by four calls with one call of the disk each.

ghost use Rattle.std.specs.Prelude.{◌≡◌, ◌+◌, ◌++◌, [], ◌∷◌, true, false, IfOk, IfErr, OnOk};
ghost use Rattle.std.specs.Prelude.{OnErr};
ghost use Rattle.fp_disk.specs.declared.history.CallKind.TheVariants.{Sync, Write};
ghost use Rattle.fp_group_commit.specs.Calls.{CallsDisk, FailsBy, MovesOn, MovesTo, RefusesBy};
ghost use Rattle.fp_group_commit.specs.Calls.{SameRoom, SameStore, TakesRoom};
ghost use Rattle.fp_group_commit.specs.Changes.{GoesOn, HasRoom};
ghost use Rattle.fp_group_commit.specs.Store.{Leaves, sealed_set};
ghost use Rattle.fp_group_commit.specs.declared.fault.StoreFault.TheVariants.{Device};
ghost use Rattle.fp_group_commit.specs.declared.phase.Phase.TheVariants.{Idle, Staged, BodySynced};
ghost use Rattle.fp_group_commit.specs.declared.phase.Phase.TheVariants.{GateOpened};

use crate::draw::{Draw, InDraw, ready};
use crate::fault::StoreFault;
use crate::part::Part;
use crate::phase::Phase;
use crate::receipt::Receipt;
use crate::store::Store;
use fp_compaction::{make_ready, open_gate, phase, stage, sync_body, sync_gate};
use fp_disk::Disk;
use fp_journal::Phase as JournalPhase;
use std::mem;

impl<D: Disk> Store<D> {
    /// Writes the batch behind the closed gate. All memory of the batch is taken here.
    pub fn stage(&mut self, draw: Draw) -> Result<(), (StoreFault, Draw)>
        // No batch is on its way.
        requires idle { self.old.phase ≡ Idle }
        // There is room for the draw, as `has_room` says.
        requires room { HasRoom self.old draw }
        // What is sealed stays.
        ensures same { (self.new.store ≡ self.old.store) × (self.new.sealed ≡ self.old.sealed) }
        // `Ok`: the phase is `Staged`, and the device failed neither before nor in the call.
        ensures ok { OnOk result (MovesTo D.faults Staged self.old self.new) }
        // `Ok`: the draw's edits are on their way.
        ensures staged { OnOk result (self.new.staged ≡ draw.changes) }
        // `Ok`: the draw goes on from what is sealed: its revisions are the next ones, and its
        // edits are accepted one after another.
        ensures goes_on { OnOk result (GoesOn (sealed_set self.old) draw) }
        // `Err`: the phase is as before.
        ensures phase { OnErr result (self.new.phase ≡ self.old.phase) }
        // `Device`: it failed in this call, and phase and room are as before. `Failed`: it had
        // failed before. `Memory` only where the draw goes on from what is sealed, `Stranger`
        // only where it doesn't. But for `Device` nothing changed.
        ensures fault { IfErr result (λ e. RefusesBy D.faults self.old self.new draw e.0) }
        // `Err`: the draw comes back.
        ensures given_back { IfErr result (λ e. e.1 ≡ draw) }
        // What a batch may take, what is left for batches, the other slot and a compaction stay.
        ensures same_room { SameRoom self.old self.new }
        // Opening the gate hasn't begun.
        ensures begun { self.new.begun ≡ false }
        // Its one call of the disk is a write.
        ensures disk { CallsDisk D.Disk (Write ∷ []) self.old self.new (Leaves self.old) result }
    {
        if let JournalPhase::Failed = phase(&self.slots) {
            return Err((StoreFault::Failed, draw));
        }
        let most = self.slots.journal().slot().most;
        let (framed, copies) = match ready(
            self.alloc,
            most,
            &mut self.set,
            &mut self.ahead,
            &draw,
        ) {
            Ok(ready) => ready,
            Err(fault) => return Err((fault, draw)),
        };
        let Ok(()) = make_ready(&mut self.slots, &framed) else {
            return Err((StoreFault::Memory, draw));
        };
        let Ok(()) = stage(&mut self.slots, framed) else {
            return Err((StoreFault::Device, draw));
        };
        self.batch = draw;
        self.copies = copies;
        self.phase = Phase::Staged;
        Ok(())
    }

    /// Makes sure of the batch. It takes no memory.
    pub fn sync_body(&mut self) -> Result<(), StoreFault>
        // The phase is `Staged`.
        requires { self.old.phase ≡ Staged }
        // The phase that follows is `BodySynced`.
        ensures moves { MovesOn D.faults BodySynced self.old self.new result }
        // Where opening the gate hadn't begun, it hasn't yet.
        ensures begun { self.old.begun ≡ false → self.new.begun ≡ false }
        // Its one call of the disk is a sync.
        ensures disk { CallsDisk D.Disk (Sync ∷ []) self.old self.new (Leaves self.old) result }
    {
        if let JournalPhase::Failed = phase(&self.slots) {
            return Err(StoreFault::Failed);
        }
        let Ok(()) = sync_body(&mut self.slots) else {
            return Err(StoreFault::Device);
        };
        self.phase = Phase::BodySynced;
        Ok(())
    }

    /// Opens the gate in front of the batch. It takes no memory.
    pub fn open_gate(&mut self) -> Result<(), StoreFault>
        // The phase is `BodySynced`.
        requires { self.old.phase ≡ BodySynced }
        // The phase that follows is `GateOpened`.
        ensures moves { MovesOn D.faults GateOpened self.old self.new result }
        // `Ok`, and at `Device` too: opening the gate has begun, and has until the batch is
        // sealed.
        ensures begun { OnOk result (self.new.begun ≡ true)
            × IfErr result (λ e. e ≡ Device → self.new.begun ≡ true) }
        // Its one call of the disk is a write.
        ensures disk { CallsDisk D.Disk (Write ∷ []) self.old self.new (Leaves self.new) result }
    {
        if let JournalPhase::Failed = phase(&self.slots) {
            return Err(StoreFault::Failed);
        }
        let Ok(()) = open_gate(&mut self.slots) else {
            return Err(StoreFault::Device);
        };
        self.phase = Phase::GateOpened;
        Ok(())
    }

    /// Makes sure of the gate: the batch is sealed, and this is its receipt. It takes no memory.
    pub fn sync_gate(&mut self) -> Result<Receipt, StoreFault>
        // The phase is `GateOpened`.
        requires { self.old.phase ≡ GateOpened }
        // It is the same store.
        ensures store { self.new.store ≡ self.old.store }
        // `Ok`: the phase is `Idle`, and the device failed neither before nor in the call.
        ensures ok { OnOk result (MovesTo D.faults Idle self.old self.new) }
        // `Ok`: the batch stands behind what was sealed.
        ensures sealed { OnOk result (self.new.sealed ≡ self.old.sealed ++ self.old.staged) }
        // `Ok`: the receipt names this store and all that is sealed now.
        ensures receipt { IfOk result (λ r. (r.store ≡ self.new.store)
            × (r.edits ≡ self.new.sealed)) }
        // `Ok`: its batch is the one that was on its way, under the revisions behind those sealed
        // before.
        ensures batch { IfOk result (λ r. (r.batch.changes ≡ self.old.staged)
            × (r.batch.first ≡ (sealed_set self.old).revision + 1)) }
        // `Err`: what is sealed and what is on its way stay.
        ensures err { IfErr result (λ _. SameStore self.old self.new) }
        // `Err`: the phase is as before.
        ensures phase { OnErr result (self.new.phase ≡ self.old.phase) }
        // `Device`: it failed in this call, and phase and room are as before. `Failed`: it had
        // failed before, and nothing changed. There is no other fault.
        ensures fault { IfErr result (FailsBy D.faults self.old self.new) }
        // `Ok`: of the bytes left the batch took its body, 4 bytes of length and a gate, and as
        // many joined the tail of a compaction that can take it. All else of that is where it
        // was.
        ensures takes_room { OnOk result (TakesRoom self.old self.new) }
        // `Ok`: the next batch's gate hasn't begun to open. `Err`: where opening had begun, it
        // has still.
        ensures begun { OnOk result (self.new.begun ≡ false)
            × OnErr result (self.old.begun ≡ true → self.new.begun ≡ true) }
        // Its one call of the disk is a sync.
        ensures disk { CallsDisk D.Disk (Sync ∷ []) self.old self.new (Leaves self.old) result }
    {
        if let JournalPhase::Failed = phase(&self.slots) {
            return Err(StoreFault::Failed);
        }
        let Ok(_sealed) = sync_gate(&mut self.slots) else {
            return Err(StoreFault::Device);
        };
        // What a crash leaves now is known only where it is asked.
        let _ = phase(&self.slots);
        self.phase = Phase::Idle;
        mem::swap(&mut self.ahead, &mut self.copies);
        let front = self.sealed.lengthen::<Draw, InDraw>(&self.batch);
        let none = Draw::new(0, Vec::new(self.alloc));
        let draw = mem::replace(&mut self.batch, none);
        Ok(Receipt {
            draw,
            part: Part::new(self.origin.again(), front),
        })
    }
}
