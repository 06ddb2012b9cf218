//! What a disk promises.

ghost use Rattle.std.specs.Prelude.{◌≡◌, ◌↔◌, ◌⊎◌, ◌≤◌, ◌<◌, ◌+◌, [], ◌∷◌, ◌++◌, List, ℕ, length};
ghost use Rattle.std.specs.Prelude.{slice_range, IfOk, OnOk, IsErr};
ghost use Rattle.fp_disk.specs.declared.history.CallKind.{CallKind};
ghost use Rattle.fp_disk.specs.Outcomes.{PendingState, IsOutcome, Written, ChangesWithin};
ghost use Rattle.fp_disk.specs.Outcomes.{all_synced, with_write, Elapses, CountsFaults};

use crate::history::CallKind;

/// Why a disk's call failed.
#[derive(Clone, Copy, Debug)]
pub enum DiskFault {
    /// The device refused, or is full.
    Device,
}

/// A list of bytes whose writes count only after a sync. A call that fails may have done a part of
/// its work.
pub trait Disk {
    /// That it keeps what is said here. Nothing shows it of a real file.
    ghost honest: { Self → Type 0 };

    /// What a read gives.
    ghost bytes: { Self → List ℕ };

    /// What the last sync made sure of, and what was written since.
    ghost unsynced: { Self → PendingState };

    /// The moment, as a number that doesn't fall.
    ghost moment: { Self → ℕ };

    /// What a crash at some moment from that one on might have left.
    ghost crash_states_since: { Self → ℕ → List ℕ → Type 0 };

    /// How often the disk has failed.
    ghost faults: { Self → ℕ };

    /// Which calls were made so far, in order, those that failed among them.
    ghost calls: { Self → List CallKind };

    /// How many bytes there are.
    fn len(&mut self) -> Result<u64, DiskFault>
        // H: `Ok`: so many bytes are there.
        ensures answer { honest self.old → IfOk result (λ n. n ≡ length (bytes self.old)) }
        // The disk is honest after it exactly if it was before.
        ensures honest { honest self.old ↔ honest self.new }
        // H: what is read and pending stays.
        ensures same { honest self.old → (bytes self.new ≡ bytes self.old)
            × (unsynced self.new ≡ unsynced self.old) }
        // H: it adds no crash state, at any moment within it.
        ensures time { honest self.old →
            Elapses (moment self.old) (moment self.new) (crash_states_since self.old)
            (crash_states_since self.new)
            (IsOutcome (unsynced self.old)) }
        // The call is noted behind those before it, also where it fails.
        ensures called { calls self.new ≡ calls self.old ++ CallKind.Length ∷ [] }
        // A fault exactly where the count of failures rose.
        ensures cause { CountsFaults (faults self.old) (faults self.new) result };

    /// Reads the bytes from a place on.
    fn read_at(&mut self, at: u64, into: &mut [u8]) -> Result<(), DiskFault>
        // H: all these places are there.
        requires { honest self.old → at + length into.old ≤ length (bytes self.old) }
        // H: `Ok`: these are the bytes that stand there.
        ensures answer { honest self.old →
            OnOk result (into.new ≡ slice_range (bytes self.old) at (at + length into.old)) }
        // The disk is honest after it exactly if it was before.
        ensures honest { honest self.old ↔ honest self.new }
        // H: what is read and pending stays.
        ensures same { honest self.old → (bytes self.new ≡ bytes self.old)
            × (unsynced self.new ≡ unsynced self.old) }
        // H: it adds no crash state, at any moment within it.
        ensures time { honest self.old →
            Elapses (moment self.old) (moment self.new) (crash_states_since self.old)
            (crash_states_since self.new)
            (IsOutcome (unsynced self.old)) }
        // The call is noted behind those before it, also where it fails.
        ensures called { calls self.new ≡ calls self.old ++ CallKind.Read ∷ [] }
        // A fault exactly where the count of failures rose.
        ensures cause { CountsFaults (faults self.old) (faults self.new) result };

    /// Puts these bytes at a place, over what is there and past the end.
    fn write_at(&mut self, at: u64, from: &[u8]) -> Result<(), DiskFault>
        // H: `Ok`: the bytes stand there, zeros in a gap.
        ensures written { honest self.old →
            OnOk result (Written (bytes self.old) at from.now (bytes self.new)) }
        // The disk is honest after it exactly if it was before.
        ensures honest { honest self.old ↔ honest self.new }
        // H: `Ok`: the range is pending.
        ensures unsynced { honest self.old →
            OnOk result (unsynced self.new ≡ with_write (unsynced self.old) at (length from.now)) }
        // H: a fault: what is read changed within the range at most.
        ensures partly { honest self.old → IsErr result →
            ChangesWithin (bytes self.old) at (length from.now) (bytes self.new) }
        // H: a fault: pending is as before, or as after `Ok`.
        ensures failed { honest self.old → IsErr result → (unsynced self.new ≡ unsynced self.old)
            ⊎ (unsynced self.new ≡ with_write (unsynced self.old) at (length from.now)) }
        // H: it adds no crash state but those with the range pending, at any moment within it.
        ensures time { honest self.old →
            Elapses (moment self.old) (moment self.new) (crash_states_since self.old)
            (crash_states_since self.new)
            (IsOutcome (with_write (unsynced self.old) at (length from.now))) }
        // The call is noted behind those before it, also where it fails.
        ensures called { calls self.new ≡ calls self.old ++ CallKind.Write ∷ [] }
        // A fault exactly where the count of failures rose.
        ensures cause { CountsFaults (faults self.old) (faults self.new) result };

    /// Makes sure of all that was written: after it, a crash leaves what a read gives.
    fn sync(&mut self) -> Result<(), DiskFault>
        // H: `Ok`: what is read is the one crash state.
        ensures durable { honest self.old →
            OnOk result (unsynced self.new ≡ all_synced (bytes self.old)) }
        // H: a fault: pending is as before.
        ensures failed { honest self.old → IsErr result → unsynced self.new ≡ unsynced self.old }
        // The disk is honest after it exactly if it was before.
        ensures honest { honest self.old ↔ honest self.new }
        // H: what is read stays.
        ensures same { honest self.old → bytes self.new ≡ bytes self.old }
        // H: it adds no crash state, at any moment within it.
        ensures time { honest self.old →
            Elapses (moment self.old) (moment self.new) (crash_states_since self.old)
            (crash_states_since self.new)
            (IsOutcome (unsynced self.old)) }
        // The call is noted behind those before it, also where it fails.
        ensures called { calls self.new ≡ calls self.old ++ CallKind.Sync ∷ [] }
        // A fault exactly where the count of failures rose.
        ensures cause { CountsFaults (faults self.old) (faults self.new) result };

    /// The bytes are an outcome, and so each is a number from 0 to 255.
    ghost present: { (d : Self) → honest d → IsOutcome (unsynced d) (bytes d) };

    /// This moment is one of those since an earlier one.
    ghost counts_now: { (d : Self) (t : ℕ) (c : List ℕ) →
        honest d → t ≤ moment d → IsOutcome (unsynced d) c → crash_states_since d t c };

    /// Since this moment there is no other.
    ghost only_now: { (d : Self) (c : List ℕ) →
        honest d → crash_states_since d (moment d) c → IsOutcome (unsynced d) c };
}
