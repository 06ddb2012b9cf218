//! A disk with a name, and tokens of its syncs.

ghost use Rattle.std.specs.Prelude.{◌≡◌, ◌↔◌, ◌≤◌, ◌+◌, ◌⊎◌, [], ◌∷◌, ◌++◌, length, slice_range};
ghost use Rattle.std.specs.Prelude.{IfOk, OnOk, IsErr};
ghost use Rattle.fp_disk.specs.Outcomes.{CountsFaults, ChangesWithin, Elapses, IsOutcome, Written};
ghost use Rattle.fp_disk.specs.Outcomes.{all_synced, with_write};

use crate::disk::{Disk, DiskFault};
use crate::history::CallKind;
use fp_fronts::Growing;
use std::marker::Model;
use std::snapshot::Snapshot;

/// A disk with a name, whose syncs are told by tokens. Clauses see the disk and the name.
#[derive(Drop)]
pub struct Checked<D: Disk> {
    disk: D,
    name: Growing<u8>,
}

impl<D: Disk> Model for Checked<D> {
    ghost use Rattle.fp_disk.specs.Checked.{Named};

    ghost Value = { Named D };

    ghost view = { λ c. record { disk = c.disk; name = c.name.name } };
}

/// A sync that succeeded, by the name of its disk and the moment after it. Only `Checked::sync`
/// makes one.
#[derive(Drop)]
pub struct Synced<D: Disk> {
    disk: Snapshot<Growing<u8>>,
    at: Snapshot<D>,
}

impl<D: Disk> Model for Synced<D> {
    ghost use Rattle.fp_disk.specs.Checked.{Mark};

    ghost Value = { Mark };

    ghost view = { λ s. record { disk = s.disk.value.name; moment = D.moment s.at.value } };
}

impl<D: Disk> Checked<D> {
    /// The disk, under a new name, so that its syncs are told by tokens.
    pub fn new(disk: D) -> Checked<D>
        ensures { result.disk ≡ disk }
    {
        Checked {
            disk,
            name: Growing::new().0,
        }
    }

    /// Gives the disk back.
    pub fn into_disk(self) -> D
        ensures { result ≡ self.disk }
    {
        let Checked { disk, name: _ } = self;
        disk
    }

    /// How many bytes there are.
    pub fn len(&mut self) -> Result<u64, DiskFault>
        // The name stays.
        ensures name { self.new.name ≡ self.old.name }
        // H: `Ok`: so many bytes are there.
        ensures answer { D.honest self.old.disk →
            IfOk result (λ n. n ≡ length (D.bytes self.old.disk)) }
        // The disk is honest after it exactly if it was before.
        ensures honest { D.honest self.old.disk ↔ D.honest self.new.disk }
        // H: what is read and pending stays.
        ensures same { D.honest self.old.disk → (D.bytes self.new.disk ≡ D.bytes self.old.disk)
            × (D.unsynced self.new.disk ≡ D.unsynced self.old.disk) }
        // H: it adds no crash state, at any moment within it.
        ensures time { D.honest self.old.disk →
            Elapses (D.moment self.old.disk) (D.moment self.new.disk)
            (D.crash_states_since self.old.disk)
            (D.crash_states_since self.new.disk) (IsOutcome (D.unsynced self.old.disk)) }
        // The call is noted behind those before it, also where it fails.
        ensures called { D.calls self.new.disk ≡ D.calls self.old.disk ++ CallKind.Length ∷ [] }
        // A fault exactly where the count of failures rose.
        ensures cause { CountsFaults (D.faults self.old.disk) (D.faults self.new.disk) result }
    {
        self.disk.len()
    }

    /// Reads the bytes from a place on.
    pub fn read_at(&mut self, at: u64, into: &mut [u8]) -> Result<(), DiskFault>
        // H: all these places are there.
        requires { D.honest self.old.disk → at + length into.old ≤ length (D.bytes self.old.disk) }
        // The name stays.
        ensures name { self.new.name ≡ self.old.name }
        // H: `Ok`: these are the bytes that stand there.
        ensures answer { D.honest self.old.disk →
            OnOk result (into.new ≡ slice_range (D.bytes self.old.disk) at (at + length into.old)) }
        // The disk is honest after it exactly if it was before.
        ensures honest { D.honest self.old.disk ↔ D.honest self.new.disk }
        // H: what is read and pending stays.
        ensures same { D.honest self.old.disk → (D.bytes self.new.disk ≡ D.bytes self.old.disk)
            × (D.unsynced self.new.disk ≡ D.unsynced self.old.disk) }
        // H: it adds no crash state, at any moment within it.
        ensures time { D.honest self.old.disk →
            Elapses (D.moment self.old.disk) (D.moment self.new.disk)
            (D.crash_states_since self.old.disk)
            (D.crash_states_since self.new.disk) (IsOutcome (D.unsynced self.old.disk)) }
        // The call is noted behind those before it, also where it fails.
        ensures called { D.calls self.new.disk ≡ D.calls self.old.disk ++ CallKind.Read ∷ [] }
        // A fault exactly where the count of failures rose.
        ensures cause { CountsFaults (D.faults self.old.disk) (D.faults self.new.disk) result }
    {
        self.disk.read_at(at, into)
    }

    /// Puts these bytes at a place, over what is there and past the end.
    pub fn write_at(&mut self, at: u64, from: &[u8]) -> Result<(), DiskFault>
        // The name stays.
        ensures name { self.new.name ≡ self.old.name }
        // H: `Ok`: the bytes stand there, zeros in a gap.
        ensures written { D.honest self.old.disk →
            OnOk result (Written (D.bytes self.old.disk) at from.now (D.bytes self.new.disk)) }
        // The disk is honest after it exactly if it was before.
        ensures honest { D.honest self.old.disk ↔ D.honest self.new.disk }
        // H: `Ok`: the range is pending.
        ensures unsynced { D.honest self.old.disk →
            OnOk result
            (D.unsynced self.new.disk
            ≡ with_write (D.unsynced self.old.disk) at (length from.now)) }
        // H: a fault: what is read changed within the range at most.
        ensures partly { D.honest self.old.disk → IsErr result →
            ChangesWithin (D.bytes self.old.disk) at (length from.now) (D.bytes self.new.disk) }
        // H: a fault: pending is as before, or as after `Ok`.
        ensures failed { D.honest self.old.disk → IsErr result →
            (D.unsynced self.new.disk ≡ D.unsynced self.old.disk)
            ⊎ (D.unsynced self.new.disk
            ≡ with_write (D.unsynced self.old.disk) at (length from.now)) }
        // H: it adds no crash state but those with the range pending, at any moment within it.
        ensures time { D.honest self.old.disk →
            Elapses (D.moment self.old.disk) (D.moment self.new.disk)
            (D.crash_states_since self.old.disk)
            (D.crash_states_since self.new.disk)
            (IsOutcome (with_write (D.unsynced self.old.disk) at (length from.now))) }
        // The call is noted behind those before it, also where it fails.
        ensures called { D.calls self.new.disk ≡ D.calls self.old.disk ++ CallKind.Write ∷ [] }
        // A fault exactly where the count of failures rose.
        ensures cause { CountsFaults (D.faults self.old.disk) (D.faults self.new.disk) result }
    {
        self.disk.write_at(at, from)
    }

    /// Syncs, and tells it by a token. Nothing else makes a `Synced`.
    pub fn sync(&mut self) -> Result<Synced<D>, DiskFault>
        // `Ok`: the token names this disk and the moment after the sync.
        ensures token { IfOk result
            (λ s. (s.disk ≡ self.new.name) × (s.moment ≡ D.moment self.new.disk)) }
        // The name stays.
        ensures name { self.new.name ≡ self.old.name }
        // H: `Ok`: what is read is the one crash state.
        ensures durable { D.honest self.old.disk →
            OnOk result (D.unsynced self.new.disk ≡ all_synced (D.bytes self.old.disk)) }
        // H: a fault: pending is as before.
        ensures failed { D.honest self.old.disk → IsErr result →
            D.unsynced self.new.disk ≡ D.unsynced self.old.disk }
        // The disk is honest after it exactly if it was before.
        ensures honest { D.honest self.old.disk ↔ D.honest self.new.disk }
        // H: what is read stays.
        ensures same { D.honest self.old.disk → D.bytes self.new.disk ≡ D.bytes self.old.disk }
        // H: it adds no crash state, at any moment within it.
        ensures time { D.honest self.old.disk →
            Elapses (D.moment self.old.disk) (D.moment self.new.disk)
            (D.crash_states_since self.old.disk)
            (D.crash_states_since self.new.disk) (IsOutcome (D.unsynced self.old.disk)) }
        // The call is noted behind those before it, also where it fails.
        ensures called { D.calls self.new.disk ≡ D.calls self.old.disk ++ CallKind.Sync ∷ [] }
        // A fault exactly where the count of failures rose.
        ensures cause { CountsFaults (D.faults self.old.disk) (D.faults self.new.disk) result }
    {
        self.disk.sync()?;
        Ok(Synced {
            disk: Snapshot::of(&self.name),
            at: Snapshot::of(&self.disk),
        })
    }
}
