//! A batch, which may be on its way beside a compaction until the tail is written.

ghost use Rattle.fp_disk.specs.declared.history.CallKind.TheVariants.{Sync, Write};
ghost use Rattle.std.specs.Prelude.{◌≡◌, ◌≤◌, ◌+◌, [], ◌∷◌, ◌++◌, true, false, length, IfOk, OnOk};
ghost use Rattle.std.specs.Prelude.{OnErr};
ghost use Rattle.fp_journal.specs.State.{room};
ghost use Rattle.fp_journal.specs.declared.journal.Phase.TheVariants.{Idle, Staged, BodySynced};
ghost use Rattle.fp_journal.specs.declared.journal.Phase.TheVariants.{GateOpened, Failed};
ghost use Rattle.fp_journal.specs.declared.framed.TheConstants.{FRAME};
ghost use Rattle.fp_slots.specs.Calls.{KeepsCompaction};
ghost use Rattle.fp_slots.specs.State.{IsEarly, KeepsOrNext, KeepsSealed};

use crate::slots::Slots;
use fp_disk::{Disk, DiskFault};
use fp_journal::{Framed, Sealed};

impl<D: Disk> Slots<D> {
    /// Writes a body behind the closed gate of the slot that rules, also beside a compaction until
    /// its tail is written.
    pub fn stage(&mut self, framed: Framed) -> Result<(), DiskFault>
        // No tail was written.
        requires early { IsEarly self.old.step }
        // No body is on its way.
        requires idle { self.old.journal.phase ≡ Idle }
        // The body is no longer than the slot allows.
        requires short { length framed ≤ self.old.journal.slot.most }
        // There is room for it: its bytes and 6.
        requires room { length framed + FRAME ≤ room self.old.journal }
        // The sealed bodies stay, and this one is staged.
        ensures bodies { (self.new.journal.sealed ≡ self.old.journal.sealed)
            × (self.new.journal.staged ≡ framed) }
        // `Ok`: `Staged`; a fault: `Failed`.
        ensures phase { OnOk result (self.new.journal.phase ≡ Staged)
            × OnErr result (self.new.journal.phase ≡ Failed) }
        // No call has begun to open the gate.
        ensures begun { self.new.journal.begun ≡ false }
        // H: in any crash state at any moment the slot that ruled rules, with what was sealed.
        ensures kept { KeepsCompaction D.Disk self.old self.new (KeepsSealed self.old) result }
        // One call of the disk, a write, also at a fault.
        ensures called { D.calls self.new.journal.disk
            ≡ D.calls self.old.journal.disk ++ Write ∷ [] }
    {
        self.journal.stage(framed)?;
        Ok(())
    }

    /// Makes sure of the body.
    pub fn sync_staged(&mut self) -> Result<(), DiskFault>
        // No tail was written.
        requires early { IsEarly self.old.step }
        // The phase is `Staged`.
        requires staged { self.old.journal.phase ≡ Staged }
        // The sealed bodies and the staged one stay.
        ensures bodies { (self.new.journal.sealed ≡ self.old.journal.sealed)
            × (self.new.journal.staged ≡ self.old.journal.staged) }
        // `Ok`: `BodySynced`; a fault: `Failed`.
        ensures phase { OnOk result (self.new.journal.phase ≡ BodySynced)
            × OnErr result (self.new.journal.phase ≡ Failed) }
        // No call has begun to open the gate.
        ensures begun { self.new.journal.begun ≡ false }
        // H: in any crash state at any moment the slot that ruled rules, with what was sealed.
        ensures kept { KeepsCompaction D.Disk self.old self.new (KeepsSealed self.old) result }
        // One call of the disk, a sync, also at a fault.
        ensures called { D.calls self.new.journal.disk
            ≡ D.calls self.old.journal.disk ++ Sync ∷ [] }
    {
        let synced = self.journal.sync()?;
        self.journal.body_synced(synced);
        Ok(())
    }

    /// Opens the gate in front of the body.
    pub fn open_gate(&mut self) -> Result<(), DiskFault>
        // No tail was written.
        requires early { IsEarly self.old.step }
        // The phase is `BodySynced`.
        requires synced { self.old.journal.phase ≡ BodySynced }
        // The sealed bodies and the staged one stay.
        ensures bodies { (self.new.journal.sealed ≡ self.old.journal.sealed)
            × (self.new.journal.staged ≡ self.old.journal.staged) }
        // `Ok`: `GateOpened`; a fault: `Failed`.
        ensures phase { OnOk result (self.new.journal.phase ≡ GateOpened)
            × OnErr result (self.new.journal.phase ≡ Failed) }
        // Either way a call has begun to open the gate.
        ensures begun { self.new.journal.begun ≡ true }
        // H: in any crash state at any moment the slot that ruled rules, with what was sealed, or
        // with that and the staged body.
        ensures kept { KeepsCompaction D.Disk self.old self.new
            (KeepsOrNext self.old self.old.journal.staged) result }
        // One call of the disk, a write, also at a fault.
        ensures called { D.calls self.new.journal.disk
            ≡ D.calls self.old.journal.disk ++ Write ∷ [] }
    {
        self.journal.open_gate()?;
        Ok(())
    }

    /// Makes sure of the open gate: the body is sealed.
    pub fn sync_gate(&mut self) -> Result<Sealed, DiskFault>
        // No tail was written.
        requires early { IsEarly self.old.step }
        // The phase is `GateOpened`.
        requires opened { self.old.journal.phase ≡ GateOpened }
        // `Ok`: the body is sealed, and none is on its way.
        ensures ok { OnOk result
            ((self.new.journal.sealed ≡ self.old.journal.sealed ++ self.old.journal.staged ∷ [])
            × (self.new.journal.phase ≡ Idle)) }
        // `Ok`: the token says for good that this journal has sealed these bodies.
        ensures token { IfOk result (λ t. (t.name ≡ self.new.journal.name)
            × (t.bodies ≡ self.new.journal.sealed)) }
        // `Ok`: no call has begun to open the next gate; a fault: one had begun to open this one.
        ensures begun { OnOk result (self.new.journal.begun ≡ false)
            × OnErr result (self.new.journal.begun ≡ true) }
        // A fault: the sealed bodies and the staged one stay, and the phase is `Failed`.
        ensures err { OnErr result ((self.new.journal.sealed ≡ self.old.journal.sealed)
            × (self.new.journal.staged ≡ self.old.journal.staged)
            × (self.new.journal.phase ≡ Failed)) }
        // H: in any crash state at any moment the slot that ruled rules, with what was sealed
        // before, or with that and the staged body.
        ensures kept { KeepsCompaction D.Disk self.old self.new
            (KeepsOrNext self.old self.old.journal.staged) result }
        // One call of the disk, a sync, also at a fault.
        ensures called { D.calls self.new.journal.disk
            ≡ D.calls self.old.journal.disk ++ Sync ∷ [] }
    {
        let synced = self.journal.sync()?;
        Ok(self.journal.gate_synced(synced))
    }
}
