//! A gate: its place, its state as a type, and the two calls that open it.

ghost use Rattle.fp_disk.specs.Crashes.{AtAnyMoment};
ghost use Rattle.std.specs.Prelude.{◌≡◌, ◌⊎◌, ◌≤◌, ◌<◌, length, slice_index, IfOk, OnOk};
ghost use Rattle.fp_gate.specs.Calls.{WritesByte};
ghost use Rattle.fp_gate.specs.Gates.{Gated, IsSyncOf, IsShut, IsOpen};
ghost use Rattle.fp_gate.specs.Gates.{StaysAsRead, Guards, IsButFor};

use fp_disk::{Checked, Disk, DiskFault, Synced};
use std::marker::{Model, PhantomData};

/// The byte of a gate that is open. Each other one is that of a closed gate.
pub const OPEN: u8 = 0xa5;

/// A byte of a gate that is closed. Each byte but `OPEN` is one.
const CLOSED: u8 = 0;

/// Its byte isn't a5, whatever a crash leaves.
pub struct Closed;

/// Its byte was written as a5, and a crash may leave another.
pub struct Written;

/// Its byte is a5, whatever a crash leaves.
pub struct Open;

/// A gate: the place of its byte, and the places that it guards, which are none
/// until `guarding` says which.
#[derive(Drop)]
pub struct Gate<S> {
    at: u64,
    from: u64,
    to: u64,
    state: PhantomData<S>,
}

impl<S> Model for Gate<S> {
    ghost Value = { Gated };

    ghost view = { λ g. record { at = g.at; from = g.from; to = g.to } };

    ghost invariant = { λ g. (g.at < g.from) ⊎ (g.to ≤ g.at) };
}

impl<S> Gate<S> {
    /// The place of its byte.
    pub fn at(&self) -> u64
        ensures { result ≡ self.now.at }
    {
        self.at
    }
}

impl Gate<Closed> {
    /// Writes a closed byte. After the next sync that succeeds a gate may adopt the place.
    pub fn place_closed<D: Disk>(disk: &mut Checked<D>, at: u64) -> Result<(), DiskFault>
        // The disk is as after a write of one closed byte there, done or failed.
        ensures wrote { WritesByte D.Disk disk.old disk.new at CLOSED result }
    {
        disk.write_at(at, &[CLOSED])
    }

    /// The gate at a place whose byte is closed whatever a crash leaves; it guards nothing yet. No
    /// call is made.
    pub fn adopt<D: Disk>(disk: &Checked<D>, at: u64) -> Gate<Closed>
        // H: the byte is there and closed in every crash state.
        requires { D.honest disk.now.disk → IsShut (D.unsynced disk.now.disk) at }
        ensures { result ≡ record { at = at; from = 0; to = 0 } }
    {
        let _ = disk;
        Gate {
            at,
            from: 0,
            to: 0,
            state: PhantomData,
        }
    }

    /// The same gate, which guards the places from one on and before another.
    pub fn guarding(self, from: u64, to: u64) -> Gate<Closed>
        // The gate's own byte isn't among them.
        requires { (self.at < from) ⊎ (to ≤ self.at) }
        ensures { result ≡ record { at = self.at; from = from; to = to } }
    {
        Gate {
            at: self.at,
            from,
            to,
            state: PhantomData,
        }
    }

    /// Writes the open byte, for a sync made after what the gate guards was written. A fault takes
    /// the gate, and its byte may be anything.
    pub fn open<D: Disk>(
        self,
        disk: &mut Checked<D>,
        synced: Synced<D>,
    ) -> Result<Gate<Written>, DiskFault>
        // H: the byte is there and closed in every crash state.
        requires shut { D.honest disk.old.disk → IsShut (D.unsynced disk.old.disk) self.at }
        // H: what it guards is in every crash state as it is read.
        requires firm { D.honest disk.old.disk →
            StaysAsRead (D.unsynced disk.old.disk) (D.bytes disk.old.disk) self.from self.to }
        // It is of a sync of this disk that succeeded, and no later than now where the disk is
        // honest.
        requires token { IsSyncOf D.honest D.moment disk.old.disk disk.old.name synced }

        // `Ok`: the same gate.
        ensures gate { IfOk result (λ g. g ≡ self) }

        // H: any crash state at any moment is one from before, but for the gate's byte.
        ensures each { AtAnyMoment D.Disk disk.old.disk disk.new.disk
            (IsButFor (D.unsynced disk.old.disk) self.at) }
        // H: in any crash state at any moment the byte is there; where it is open, so is what the
        // gate guards, as it was read.
        ensures guards { AtAnyMoment D.Disk disk.old.disk disk.new.disk
            (Guards self (D.bytes disk.old.disk)) }

        // The disk is as after a write of the open byte there, done or failed.
        ensures wrote { WritesByte D.Disk disk.old disk.new self.at OPEN result }
        // H: `Ok`: the open byte is read there.
        ensures shown { D.honest disk.old.disk →
            OnOk result
            ((self.at < length (D.bytes disk.new.disk))
            × (slice_index (D.bytes disk.new.disk) self.at ≡ OPEN)) }
    {
        let _ = synced;
        disk.write_at(self.at, &[OPEN])?;
        Ok(Gate {
            at: self.at,
            from: self.from,
            to: self.to,
            state: PhantomData,
        })
    }
}

impl Gate<Written> {
    /// The gate as open for good, for a sync made after its own byte was written. No call is made.
    pub fn seal<D: Disk>(self, disk: &Checked<D>, synced: Synced<D>) -> Gate<Open>
        // It is of a sync of this disk that succeeded, and no later than now where the disk is
        // honest.
        requires token { IsSyncOf D.honest D.moment disk.now.disk disk.now.name synced }
        // H: the byte is there and open in every crash state.
        requires open { D.honest disk.now.disk → IsOpen (D.unsynced disk.now.disk) self.at }
        ensures { result ≡ self }
    {
        let _ = (disk, synced);
        Gate {
            at: self.at,
            from: self.from,
            to: self.to,
            state: PhantomData,
        }
    }
}
