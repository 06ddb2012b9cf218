//! A compaction: the other slot is closed, filled, and opened, by one call of the disk a step.

ghost use Rattle.fp_disk.specs.declared.history.CallKind.TheVariants.{Sync, Write};
ghost use Rattle.std.specs.Prelude.{◌≡◌, ◌≢◌, ◌<◌, ◌≤◌, ◌+◌, ◌-◌, [], ◌∷◌, ◌++◌, if◌then◌else◌};
ghost use Rattle.std.specs.Prelude.{true, false, OnOk, OnErr};
ghost use Rattle.fp_journal.specs.declared.journal.Phase.TheVariants.{Idle, Failed};
ghost use Rattle.fp_slots.specs.Calls.{KeepsOutside, KeepsSlots, WritesPart};
ghost use Rattle.fp_slots.specs.State.{Keeps, KeepsEither, SameSlots};
ghost use Rattle.fp_slots.specs.declared.places.TheConstants.{PART, VERSION};
ghost use Rattle.fp_slots.specs.declared.slots.Step.TheVariants.{Begin, Close, SyncClose, Part};
ghost use Rattle.fp_slots.specs.declared.slots.Step.TheVariants.{Tail, SyncBody, Open, SyncOpen};

use crate::held::Held;
use crate::places::{PART, VERSION};
use crate::planning::piece;
use crate::slots::Slots;
use fp_disk::{Disk, DiskFault};
use std::mem;

impl<D: Disk> Slots<D> {
    /// Closes the other slot's gate, where that may be open.
    pub fn close_other(&mut self) -> Result<(), DiskFault>
        // The next step is `Close`.
        requires step { self.old.step ≡ Close }
        // No call of the journal has failed.
        requires live { self.old.journal.phase ≢ Failed }
        // `Ok`: the next step is `SyncClose`; a fault: it stays.
        ensures step { OnOk result (self.new.step ≡ SyncClose)
            × OnErr result (self.new.step ≡ Close) }
        // What is left of head and image stays.
        ensures left { self.new.left ≡ self.old.left }
        // H: in any crash state at any moment the slot that ruled rules, with what the journal
        // claims.
        ensures kept { KeepsSlots D.Disk self.old self.new (Keeps self.old) result }
        // One call of the disk, a write, also at a fault; none where the gate counts as closed.
        ensures called { D.calls self.new.journal.disk
            ≡ D.calls self.old.journal.disk ++ (if self.old.may_open then Write ∷ [] else []) }
    {
        let _phase = self.journal.phase();
        if !self.may_open {
            self.held = Held::SyncClose;
            return Ok(());
        }
        self.journal.write_outside(self.other.start, &[0])?;
        self.held = Held::SyncClose;
        Ok(())
    }

    /// Makes sure of the closed gate: from now on what lies behind it decides nothing.
    pub fn sync_close(&mut self) -> Result<(), DiskFault>
        // The next step is `SyncClose`.
        requires step { self.old.step ≡ SyncClose }
        // No call of the journal has failed.
        requires live { self.old.journal.phase ≢ Failed }
        // `Ok`: the next step is `Part`; a fault: it stays.
        ensures step { OnOk result (self.new.step ≡ Part)
            × OnErr result (self.new.step ≡ SyncClose) }
        // What is left of head and image stays.
        ensures left { self.new.left ≡ self.old.left }
        // H: in any crash state at any moment the slot that ruled rules, with what the journal
        // claims.
        ensures kept { KeepsSlots D.Disk self.old self.new (Keeps self.old) result }
        // One call of the disk, a sync, also at a fault.
        ensures called { D.calls self.new.journal.disk
            ≡ D.calls self.old.journal.disk ++ Sync ∷ [] }
    {
        let _closed = self.journal.sync()?;
        self.held = Held::Part;
        Ok(())
    }

    /// Writes the next 65,536 bytes (`PART`) of head and image behind the closed gate, or what is
    /// left of them.
    pub fn write_part(&mut self) -> Result<(), DiskFault>
        // The next step is `Part`.
        requires step { self.old.step ≡ Part }
        // No call of the journal has failed.
        requires live { self.old.journal.phase ≢ Failed }
        // `Ok`: the next step is `Part` while more is left than this part, then `Tail`; a fault: it
        // stays.
        ensures step { OnOk result ((PART < self.old.left → self.new.step ≡ Part)
            × (self.old.left ≤ PART → self.new.step ≡ Tail))
            × OnErr result (self.new.step ≡ Part) }
        // `Ok`: what is left of head and image falls by 65,536 bytes, or to none.
        ensures less { OnOk result (self.new.left ≡ self.old.left - PART) }
        // H: `Ok`: these bytes of the text, and no others, were written at their place in the other
        // slot.
        ensures written { D.honest self.old.journal.disk →
            OnOk result (WritesPart D.Disk self.old self.new) }
        // A fault: what is left stays.
        ensures left { OnErr result (self.new.left ≡ self.old.left) }
        // H: in any crash state at any moment the slot that ruled rules, with what the journal
        // claims.
        ensures kept { KeepsSlots D.Disk self.old self.new (Keeps self.old) result }
        // One call of the disk, a write, also at a fault.
        ensures called { D.calls self.new.journal.disk
            ≡ D.calls self.old.journal.disk ++ Write ∷ [] }
    {
        let left = self.head - self.done;
        let to = self.done + left.min(PART);
        self.journal.write_outside(
            self.other.start + self.done as u64,
            piece(&self.planned, self.done, to),
        )?;
        self.done = to;
        if to < self.head {
            return Ok(());
        }
        self.held = Held::Tail;
        Ok(())
    }

    /// Writes the bodies behind the image, and a closed gate last.
    pub fn write_tail(&mut self) -> Result<(), DiskFault>
        // The next step is `Tail`.
        requires step { self.old.step ≡ Tail }
        // No batch is on its way, and no call of the journal has failed.
        requires live { self.old.journal.phase ≡ Idle }
        // `Ok`: the next step is `SyncBody`; a fault: it stays.
        ensures step { OnOk result (self.new.step ≡ SyncBody)
            × OnErr result (self.new.step ≡ Tail) }
        // What is left of head and image stays.
        ensures left { self.new.left ≡ self.old.left }
        // H: in any crash state at any moment the slot that ruled rules, with what the journal
        // claims.
        ensures kept { KeepsSlots D.Disk self.old self.new (Keeps self.old) result }
        // One call of the disk, a write, also at a fault.
        ensures called { D.calls self.new.journal.disk
            ≡ D.calls self.old.journal.disk ++ Write ∷ [] }
    {
        let to = self.ended + 1;
        self.journal.write_outside(
            self.other.start + self.done as u64,
            piece(&self.planned, self.done, to),
        )?;
        self.held = Held::SyncBody;
        Ok(())
    }

    /// Makes sure of all that was written behind the closed gate.
    pub fn sync_parts(&mut self) -> Result<(), DiskFault>
        // The next step is `SyncBody`.
        requires step { self.old.step ≡ SyncBody }
        // No call of the journal has failed.
        requires live { self.old.journal.phase ≢ Failed }
        // `Ok`: the next step is `Open`; a fault: it stays.
        ensures step { OnOk result (self.new.step ≡ Open)
            × OnErr result (self.new.step ≡ SyncBody) }
        // What is left of head and image stays.
        ensures left { self.new.left ≡ self.old.left }
        // H: in any crash state at any moment the slot that ruled rules, with what the journal
        // claims.
        ensures kept { KeepsSlots D.Disk self.old self.new (Keeps self.old) result }
        // One call of the disk, a sync, also at a fault.
        ensures called { D.calls self.new.journal.disk
            ≡ D.calls self.old.journal.disk ++ Sync ∷ [] }
    {
        let synced = self.journal.sync()?;
        self.held = Held::Open(synced);
        Ok(())
    }

    /// Opens the other slot's gate: from now on a crash leaves the one slot or the other to rule.
    pub fn open_other(&mut self) -> Result<(), DiskFault>
        // The next step is `Open`.
        requires step { self.old.step ≡ Open }
        // No call of the journal has failed.
        requires live { self.old.journal.phase ≢ Failed }
        // `Ok`: the next step is `SyncOpen`; a fault: it stays.
        ensures step { OnOk result (self.new.step ≡ SyncOpen)
            × OnErr result (self.new.step ≡ Open) }
        // What is left of head and image stays.
        ensures left { self.new.left ≡ self.old.left }
        // H: in any crash state at any moment the slot that ruled rules with what it sealed, or the
        // other one with the text that it is to hold.
        ensures kept { KeepsSlots D.Disk self.old self.new (KeepsEither self.old) result }
        // One call of the disk, a write, also at a fault.
        ensures called { D.calls self.new.journal.disk
            ≡ D.calls self.old.journal.disk ++ Write ∷ [] }
    {
        let Held::Open(synced) = mem::replace(&mut self.held, Held::Opening) else {
            unreachable!()
        };
        let from = self.other.start + 1;
        let gate = self
            .journal
            .gate_outside(self.other.start)
            .guarding(from, from + self.ended as u64);
        self.held = Held::SyncOpen(self.journal.open_outside(gate, synced)?);
        Ok(())
    }

    /// Makes sure of the open gate, and goes on in that slot.
    pub fn switch(&mut self) -> Result<(), DiskFault>
        // The next step is `SyncOpen`.
        requires step { self.old.step ≡ SyncOpen }
        // No call of the journal has failed.
        requires live { self.old.journal.phase ≢ Failed }
        // `Ok`: the journal goes on in the other slot, behind the text that it was to hold; nothing
        // is sealed and no body is on its way.
        ensures switched { OnOk result ((self.new.journal.slot ≡ self.old.other)
            × (self.new.journal.front ≡ self.old.text)
            × (self.new.journal.sealed ≡ [])
            × (self.new.journal.phase ≡ Idle)) }
        // `Ok`: no call has begun to open a batch's gate.
        ensures begun { OnOk result (self.new.journal.begun ≡ false) }
        // `Ok`: the slots change places, under the next generation and version 2; the gate of the
        // one that ruled counts as open, and no compaction runs.
        ensures turned { OnOk result ((self.new.other ≡ self.old.journal.slot)
            × (self.new.generation ≡ self.old.generation + 1)
            × (self.new.version ≡ VERSION)
            × (self.new.may_open ≡ true)
            × (self.new.step ≡ Begin)) }
        // A fault: the slots and the step stay, and the phase is `Failed`.
        ensures broken { OnErr result (SameSlots self.old self.new
            × (self.new.step ≡ SyncOpen)
            × (self.new.journal.phase ≡ Failed)) }
        // What is left of head and image stays.
        ensures left { self.new.left ≡ self.old.left }
        // H: in any crash state at any moment the slot that ruled rules with what it sealed, or the
        // other one with the text that it is to hold. Text outside both slots stays sure. A fault
        // exactly where the count of failures rose.
        ensures call { KeepsOutside D.Disk self.old self.new (KeepsEither self.old) result }
        // One call of the disk, a sync, also at a fault.
        ensures called { D.calls self.new.journal.disk
            ≡ D.calls self.old.journal.disk ++ Sync ∷ [] }
    {
        let synced = self.journal.sync()?;
        let Held::SyncOpen(gate) = mem::replace(&mut self.held, Held::Begin) else {
            unreachable!()
        };
        let _gate = self.journal.seal_outside(gate, synced);
        let len = self.ended as u64;
        let old = self.journal.slot();
        self.journal.switch(self.other, &self.planned, len);
        self.other = old;
        self.generation += 1;
        self.version = VERSION;
        self.may_open = true;
        Ok(())
    }
}
