//! What a journal's disk is asked for outside its slot, at any phase of a body.

ghost use Rattle.fp_disk.specs.Outcomes.{Written as HasWritten, with_write};
ghost use Rattle.fp_disk.specs.declared.history.CallKind.TheVariants.{Write};
ghost use Rattle.fp_gate.specs.Gates.{IsOpen, IsShut, IsSyncOf, StaysAsRead};
ghost use Rattle.fp_gate.specs.declared.gate.TheConstants.{OPEN};
ghost use Rattle.std.specs.Prelude.{◌≡◌, ◌∷◌, [], ◌++◌, length, IfOk, OnOk, OnErr};
ghost use Rattle.fp_journal.specs.Holds.{Apart};
ghost use Rattle.fp_journal.specs.Calls.{KeepsAround};
ghost use Rattle.fp_journal.specs.State.{CrashStates, Outside};
ghost use Rattle.fp_journal.specs.declared.journal.Phase.TheVariants.{Failed};

use crate::journal::Journal;
use fp_disk::{Disk, DiskFault, Synced};
use fp_gate::{Closed, Gate, Open, Written};
use std::mem;

impl<D: Disk> Journal<D> {
    /// Writes outside the slot, at any phase.
    pub fn write_outside(&mut self, at: u64, from: &[u8]) -> Result<(), DiskFault>
        // None of these places is one of the slot's.
        requires { Outside self.old.slot at (length from.now) }
        // H: `Ok`: the bytes stand there, zeros in a gap, and the range is pending.
        ensures written { D.honest self.old.disk →
            OnOk result (HasWritten (D.bytes self.old.disk) at from.now (D.bytes self.new.disk)
            × (D.unsynced self.new.disk
            ≡ with_write (D.unsynced self.old.disk) at (length from.now))) }
        // The sealed bodies and the staged one stay.
        ensures bodies { (self.new.sealed ≡ self.old.sealed) × (self.new.staged ≡ self.old.staged) }
        // `Ok`: as before; a fault: `Failed`.
        ensures phase { OnOk result (self.new.phase ≡ self.old.phase)
            × OnErr result (self.new.phase ≡ Failed) }
        // As before.
        ensures begun { self.new.begun ≡ self.old.begun }
        // H: any crash state at any moment is as `phase` says. What lies apart from what is written
        // stays.
        ensures kept { KeepsAround D.Disk self.old self.new
            (CrashStates self.old)
            (Apart at (length from.now)) result }
        // One call of the disk, a write, also at a fault.
        ensures called { D.calls self.new.disk ≡ D.calls self.old.disk ++ Write ∷ [] }
    {
        let failed = self.held.failed();
        let held = mem::replace(&mut self.held, failed);
        self.disk.write_at(at, from)?;
        self.held = held;
        Ok(())
    }

    /// The gate at a place outside the slot, where no crash leaves an open one. It makes no call of
    /// the disk.
    pub fn gate_outside(&self, at: u64) -> Gate<Closed>
        // H: every crash state has the byte at this place closed.
        requires shut { D.honest self.now.disk → IsShut (D.unsynced self.now.disk) at }
        // It is at this place, and guards nothing yet.
        ensures gate { result ≡ record { at = at; from = 0; to = 0 } }
    {
        Gate::adopt(&self.disk, at)
    }

    /// Opens a gate outside the slot, at any phase, for a sync made after what it guards was
    /// written.
    pub fn open_outside(
        &mut self,
        gate: Gate<Closed>,
        synced: Synced<D>,
    ) -> Result<Gate<Written>, DiskFault>
        // Its place is none of the slot's.
        requires outside { Outside self.old.slot gate.at 1 }
        // H: every crash state has the byte at this place closed.
        requires shut { D.honest self.old.disk → IsShut (D.unsynced self.old.disk) gate.at }
        // H: every crash state has what it guards as it is read.
        requires firm { D.honest self.old.disk →
            StaysAsRead (D.unsynced self.old.disk) (D.bytes self.old.disk) gate.from gate.to }
        // The token is of a sync of this disk, no later than now.
        requires token { IsSyncOf D.honest D.moment self.old.disk self.old.disk_name synced }
        // `Ok`: the same gate, written.
        ensures gate { IfOk result (λ g. g ≡ gate) }
        // H: `Ok`: an open byte stands there, and is pending.
        ensures written { D.honest self.old.disk →
            OnOk result
            (HasWritten (D.bytes self.old.disk) gate.at (OPEN ∷ []) (D.bytes self.new.disk)
            × (D.unsynced self.new.disk ≡ with_write (D.unsynced self.old.disk) gate.at 1)) }
        // The sealed bodies and the staged one stay.
        ensures bodies { (self.new.sealed ≡ self.old.sealed) × (self.new.staged ≡ self.old.staged) }
        // `Ok`: as before; a fault: `Failed`.
        ensures phase { OnOk result (self.new.phase ≡ self.old.phase)
            × OnErr result (self.new.phase ≡ Failed) }
        // As before.
        ensures begun { self.new.begun ≡ self.old.begun }
        // H: any crash state at any moment is as `phase` says. What lies apart from this byte
        // stays.
        ensures kept { KeepsAround D.Disk self.old self.new
            (CrashStates self.old)
            (Apart gate.at 1) result }
        // One call of the disk, a write, also at a fault.
        ensures called { D.calls self.new.disk ≡ D.calls self.old.disk ++ Write ∷ [] }
    {
        let failed = self.held.failed();
        let held = mem::replace(&mut self.held, failed);
        let written = gate.open(&mut self.disk, synced)?;
        self.held = held;
        Ok(written)
    }

    /// The gate outside the slot as open for good, for a sync made after its byte was written. It
    /// makes no call of the disk.
    pub fn seal_outside(&self, gate: Gate<Written>, synced: Synced<D>) -> Gate<Open>
        // The token is of a sync of this disk, no later than now.
        requires token { IsSyncOf D.honest D.moment self.now.disk self.now.disk_name synced }
        // H: every crash state has its byte open.
        requires open { D.honest self.now.disk → IsOpen (D.unsynced self.now.disk) gate.at }
        // The same gate, open.
        ensures gate { result ≡ gate }
    {
        gate.seal(&self.disk, synced)
    }
}
