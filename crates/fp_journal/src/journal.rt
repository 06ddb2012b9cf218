//! A slot of a disk as a chain of bodies behind gates, which grows by four calls a body.

ghost use Rattle.fp_disk.specs.Crashes.{EachCrash};
ghost use Rattle.fp_disk.specs.Outcomes.{IsOutcome, all_synced};
ghost use Rattle.fp_disk.specs.declared.history.CallKind.TheVariants.{Sync, Write};
ghost use Rattle.fp_gate.specs.Gates.{IsSyncOf};
ghost use Rattle.std.specs.Prelude.{◌≡◌, ◌<◌, ◌≤◌, ◌+◌, ◌∷◌, [], ◌++◌, List, ℕ, true, false};
ghost use Rattle.std.specs.Prelude.{length, slice_range, IfOk, OnOk, OnErr};
ghost use Rattle.fp_journal.specs.Chain.{with_gate};
ghost use Rattle.fp_journal.specs.Calls.{KeepsAround};
ghost use Rattle.fp_journal.specs.State.{AllShort, CrashStates, HasChain, HasChainOrNext, HasNext};
ghost use Rattle.fp_journal.specs.State.{EndsClosed, IsOnWay, Outside, SameSlot, StatesAfterSync};
ghost use Rattle.fp_journal.specs.State.{has_begun, room};
ghost use Rattle.fp_journal.specs.declared.journal.Phase.TheVariants.{Idle, Staged, BodySynced};
ghost use Rattle.fp_journal.specs.declared.journal.Phase.TheVariants.{GateOpened, Failed};
ghost use Rattle.fp_journal.specs.declared.framed.TheConstants.{FRAME};

use crate::framed::Framed;
use crate::held::Held;
use crate::sealed::{Body, InFrame, Sealed};
use crate::slot::Slot;
use crate::text::Text;
use fp_disk::{Checked, Disk, DiskFault, Synced};
use fp_fronts::Growing;
use fp_gate::Gate;
use std::alloc::Global;
use std::marker::Model;
use std::mem;

mod outside;

/// How far a body is on its way.
#[derive(Clone, Copy, Debug)]
pub enum Phase {
    /// None is.
    Idle,
    /// It was written behind the closed gate.
    Staged,
    /// It is synced.
    BodySynced,
    /// The gate in front of it was written open.
    GateOpened,
    /// A call failed: nothing more is written.
    /// `begun` in clauses says whether one began to open the gate.
    Failed,
}

/// A slot of a disk: a front, then bodies, each behind an open gate,
/// and a closed gate behind the last.
#[derive(Drop)]
pub struct Journal<D: Disk> {
    disk: Checked<D>,
    slot: Slot,
    held: Held<D>,
    end: u64,
    in_flight: Vec<u8>,
    sealed: Growing<Body>,
    front: Text,
}

impl<D: Disk> Model for Journal<D> {
    ghost use Rattle.fp_journal.specs.Chain.{body_of};
    ghost use Rattle.fp_journal.specs.State.{JournalState, IsHeld, IsKept, begun_of, phase_of};

    ghost Value = { JournalState D };

    ghost view = { λ s. record {
      disk = s.disk.disk;
      disk_name = s.disk.name;
      name = s.sealed.name;
      slot = s.slot;
      front = s.front;
      sealed = s.sealed.log;
      staged = body_of s.in_flight.items;
      phase = phase_of s.held;
      begun = begun_of s.held;
    } };

    ghost invariant = { λ s. IsKept D.honest D.bytes D.unsynced
        (record {
          disk = s.disk.disk;
          disk_name = s.disk.name;
          name = s.sealed.name;
          slot = s.slot;
          front = s.front;
          sealed = s.sealed.log;
          staged = body_of s.in_flight.items;
          phase = phase_of s.held;
          begun = begun_of s.held;
        })
        s.end s.in_flight.items × IsHeld D.honest D.moment s.disk.disk s.disk.name s.end s.held };
}

impl<D: Disk> Journal<D> {
    /// Goes on in a slot whose bytes up to `end` are those of `opened`, with a closed gate there.
    /// The disk gets a new name, so that no older token is one of its own.
    pub fn adopt(alloc: Global, disk: D, slot: Slot, opened: &Vec<u8>, end: u64) -> Journal<D>
        // The end lies behind the slot's first byte, or there, and within these bytes.
        requires place { (slot.start ≤ end) × (end ≤ length opened.now.items) }
        // The gate lies within the slot.
        requires within { end < slot.stop }
        // H: the last sync made sure of that text and of a closed gate behind it, and no write
        // since reached them.
        requires quiet { D.honest disk →
            EndsClosed slot.start slot.stop (slice_range opened.now.items slot.start end)
            (D.unsynced disk) }
        // It lies in this slot, behind that text.
        ensures slot { (result.slot ≡ slot)
            × (result.front ≡ slice_range opened.now.items slot.start end) }
        // Nothing is sealed and no body is on its way.
        ensures begins { (result.sealed ≡ []) × (result.phase ≡ Idle) }
        // The disk stays as it is.
        ensures disk { result.disk ≡ disk }
    {
        let front = Text::new(&opened[slot.start as usize..end as usize]);
        Journal::go_on(alloc, disk, slot, front, end)
    }

    // Goes on in a slot behind this text, which stands there firm before a closed gate.
    pub(crate) fn go_on(alloc: Global, disk: D, slot: Slot, front: Text, end: u64) -> Journal<D>
        requires place { end ≡ slot.start + length front }
        requires within { end < slot.stop }
        requires quiet { D.honest disk →
            EndsClosed slot.start slot.stop front (D.unsynced disk) }
        ensures slot { (result.slot ≡ slot) × (result.front ≡ front) }
        ensures begins { (result.sealed ≡ []) × (result.phase ≡ Idle) }
        ensures disk { result.disk ≡ disk }
    {
        let (sealed, _) = Growing::new();
        Journal {
            disk: Checked::new(disk),
            slot,
            held: Held::Idle,
            end,
            in_flight: Vec::new(alloc),
            sealed,
            front,
        }
    }

    /// Goes on in another slot, where the first so many of these bytes stand before a closed gate.
    /// It makes no call of the disk.
    pub fn switch(&mut self, slot: Slot, text: &Vec<u8>, len: u64)
        // No body is on its way.
        requires idle { self.old.phase ≡ Idle }
        // There are so many bytes.
        requires place { len ≤ length text.now.items }
        // The gate lies within the slot.
        requires within { slot.start + len < slot.stop }
        // H: the last sync made sure of that text in this slot and of a closed gate behind it, and
        // no write since reached them.
        requires quiet { D.honest self.old.disk →
            EndsClosed slot.start slot.stop (slice_range text.now.items 0 len)
            (D.unsynced self.old.disk) }
        // It lies in this slot, behind that text.
        ensures slot { (self.new.slot ≡ slot)
            × (self.new.front ≡ slice_range text.now.items 0 len) }
        // Nothing is sealed and no body is on its way.
        ensures begins { (self.new.sealed ≡ []) × (self.new.phase ≡ Idle)
            × (self.new.begun ≡ false) }
        // The disk stays as it is, with its name.
        ensures disk { (self.new.disk ≡ self.old.disk) × (self.new.disk_name ≡ self.old.disk_name) }
    {
        self.slot = slot;
        self.held = Held::Idle;
        self.end = slot.start + len;
        self.sealed = Growing::new().0;
        self.front = Text::new(&text[..len as usize]);
    }

    /// The slot in which it lies.
    pub fn slot(&self) -> Slot
        ensures slot { result ≡ self.now.slot }
        // No body that it sealed is longer than the slot allows.
        ensures short { AllShort result.most self.now.sealed }
    {
        self.slot
    }

    /// How many bytes are left from the closed gate to the slot's end.
    pub fn room(&self) -> u64
        ensures { result ≡ room self.now }
    {
        self.slot.stop - self.end
    }

    /// The bytes of the body on its way: its length, the body, and a closed gate.
    pub fn bytes_on_way(&self) -> &[u8]
        // A body is on its way, and no call has failed.
        requires { IsOnWay self.now.phase }
        ensures bytes { result.now ≡ with_gate self.now.staged }
        // The body is no longer than the slot allows.
        ensures short { length self.now.staged ≤ self.now.slot.most }
    {
        self.in_flight.as_slice()
    }

    /// How far the body on its way is, which says what a crash would leave now.
    pub fn phase(&self) -> Phase
        ensures phase { result ≡ self.now.phase }
        // `begun` is false up to `BodySynced` and true at `GateOpened`; at `Failed` it is either.
        ensures begun { has_begun self.now.phase self.now.begun ≡ self.now.begun }
        // H: each crash state has the chain of the sealed bodies; or, only where `begun`, of those
        // and the staged one.
        ensures outcomes { EachCrash D.Disk self.now.disk (CrashStates self.now) }
        // H: at `GateOpened` what is read has the chain of the sealed bodies and the staged one.
        ensures reads { D.honest self.now.disk → self.now.phase ≡ GateOpened →
            HasChain self.now.slot self.now.front (self.now.sealed ++ self.now.staged ∷ [])
            (D.bytes self.now.disk) }
    {
        self.held.phase()
    }

    /// Gives the disk back.
    pub fn into_disk(self) -> D
        ensures disk { result ≡ self.disk }
        // H: each crash state is as `phase` says.
        ensures outcomes { EachCrash D.Disk result (CrashStates self) }
    {
        let Journal {
            disk,
            slot: _,
            held: _,
            end: _,
            in_flight: _,
            sealed: _,
            front: _,
        } = self;
        disk.into_disk()
    }
}

impl<D: Disk> Journal<D> {
    /// Writes the body behind its length, and a closed gate behind it, in one write.
    pub fn stage(&mut self, framed: Framed) -> Result<(), DiskFault>
        // No body is on its way.
        requires idle { self.old.phase ≡ Idle }
        // The body is no longer than the slot allows.
        requires short { length framed ≤ self.old.slot.most }
        // There is room for it: its bytes and 6.
        requires room { length framed + FRAME ≤ room self.old }
        // The sealed bodies stay, and this one is staged.
        ensures bodies { (self.new.sealed ≡ self.old.sealed) × (self.new.staged ≡ framed) }
        // `Ok`: `Staged`; a fault: `Failed`.
        ensures phase { OnOk result (self.new.phase ≡ Staged)
            × OnErr result (self.new.phase ≡ Failed) }
        // No call has begun to open the gate.
        ensures begun { self.new.begun ≡ false }
        // H: any crash state at any moment has the chain of the sealed bodies. What lies outside
        // the slot stays.
        ensures kept { KeepsAround D.Disk self.old self.new
            (HasChain self.old.slot self.old.front self.old.sealed)
            (Outside self.old.slot) result }
        // One call of the disk, a write, also at a fault.
        ensures called { D.calls self.new.disk ≡ D.calls self.old.disk ++ Write ∷ [] }
    {
        self.held = Held::Failed(false);
        self.in_flight = framed.into_bytes();
        self.disk.write_at(self.end + 1, &self.in_flight)?;
        self.held = Held::Staged;
        Ok(())
    }

    /// Makes sure of all that was written, at any phase, and tells it by a token.
    pub fn sync(&mut self) -> Result<Synced<D>, DiskFault>
        // `Ok`: the token names the journal's disk and this moment.
        ensures token { IfOk result (λ s. (s.disk ≡ self.new.disk_name)
            × (s.moment ≡ D.moment self.new.disk)) }
        // H: the bytes stay.
        ensures same_bytes { D.honest self.old.disk →
            D.bytes self.new.disk ≡ D.bytes self.old.disk }
        // H: `Ok`: they are the one crash state.
        ensures durable { D.honest self.old.disk →
            OnOk result (D.unsynced self.new.disk ≡ all_synced (D.bytes self.old.disk)) }

        // H: `Ok`: what was staged is in each crash state; once the gate was opened, the new chain
        // is.
        ensures firm { D.honest self.new.disk →
            OnOk result ((c : List ℕ) → IsOutcome (D.unsynced self.new.disk) c →
            StatesAfterSync self.new c) }

        // The sealed bodies and the staged one stay.
        ensures bodies { (self.new.sealed ≡ self.old.sealed) × (self.new.staged ≡ self.old.staged) }
        // `Ok`: as before; a fault: `Failed`.
        ensures phase { OnOk result (self.new.phase ≡ self.old.phase)
            × OnErr result (self.new.phase ≡ Failed) }
        // As before.
        ensures begun { self.new.begun ≡ self.old.begun }
        // H: any crash state at any moment is as `phase` says. All text stays.
        ensures kept { KeepsAround D.Disk self.old self.new
            (CrashStates self.old)
            (λ at n. Unit {0}) result }
        // One call of the disk, a sync, also at a fault.
        ensures called { D.calls self.new.disk ≡ D.calls self.old.disk ++ Sync ∷ [] }
    {
        let failed = self.held.failed();
        let held = mem::replace(&mut self.held, failed);
        let synced = self.disk.sync()?;
        self.held = held;
        Ok(synced)
    }

    /// Takes the sync that made sure of the body, whose gate is closed still.
    /// It makes no call of the disk.
    pub fn body_synced(&mut self, synced: Synced<D>)
        // The phase is `Staged`.
        requires staged { self.old.phase ≡ Staged }
        // The token is of a sync of this disk, no later than now.
        requires token { IsSyncOf D.honest D.moment self.old.disk self.old.disk_name synced }
        // H: every crash state has the staged body behind its closed gate.
        requires firm { EachCrash D.Disk self.old.disk
            (HasNext self.old.slot self.old.front self.old.sealed self.old.staged) }
        // The slot stays, and the front and the names.
        ensures same { SameSlot self.old self.new }
        // The disk stays as it is.
        ensures disk { self.new.disk ≡ self.old.disk }
        // The sealed bodies and the staged one stay.
        ensures bodies { (self.new.sealed ≡ self.old.sealed) × (self.new.staged ≡ self.old.staged) }
        // The phase is `BodySynced`; no call has begun to open the gate.
        ensures phase { (self.new.phase ≡ BodySynced) × (self.new.begun ≡ false) }
    {
        self.held = Held::BodySynced(synced);
    }

    /// Opens the gate in front of the body, by a write of one byte.
    pub fn open_gate(&mut self) -> Result<(), DiskFault>
        // The phase is `BodySynced`.
        requires { self.old.phase ≡ BodySynced }
        // The sealed bodies and the staged one stay.
        ensures bodies { (self.new.sealed ≡ self.old.sealed) × (self.new.staged ≡ self.old.staged) }
        // `Ok`: `GateOpened`; a fault: `Failed`.
        ensures phase { OnOk result (self.new.phase ≡ GateOpened)
            × OnErr result (self.new.phase ≡ Failed) }
        // Either way a call has begun to open the gate.
        ensures begun { self.new.begun ≡ true }

        // H: `Ok`: what is read has the staged body in its chain.
        ensures reads { D.honest self.old.disk →
            OnOk result (HasChain self.old.slot self.old.front
            (self.old.sealed ++ self.old.staged ∷ []) (D.bytes self.new.disk)) }
        // H: any crash state at any moment has the chain of the sealed bodies, or of those and the
        // staged one. What lies outside the slot stays.
        ensures kept { KeepsAround D.Disk self.old self.new
            (HasChainOrNext self.old.slot self.old.front self.old.sealed self.old.staged)
            (Outside self.old.slot) result }
        // One call of the disk, a write, also at a fault.
        ensures called { D.calls self.new.disk ≡ D.calls self.old.disk ++ Write ∷ [] }
    {
        let Held::BodySynced(synced) = mem::replace(&mut self.held, Held::Failed(true)) else {
            unreachable!()
        };
        let from = self.end + 1;
        let gate = Gate::adopt(&self.disk, self.end).guarding(
            from,
            from + self.in_flight.len() as u64,
        );
        self.held = Held::GateOpened(gate.open(&mut self.disk, synced)?);
        Ok(())
    }

    /// Takes the sync that made sure of the open gate: the body is sealed.
    /// It makes no call of the disk.
    pub fn gate_synced(&mut self, synced: Synced<D>) -> Sealed
        // The phase is `GateOpened`.
        requires opened { self.old.phase ≡ GateOpened }
        // The token is of a sync of this disk, no later than now.
        requires token { IsSyncOf D.honest D.moment self.old.disk self.old.disk_name synced }
        // H: every crash state has the chain with the new body.
        requires firm { EachCrash D.Disk self.old.disk
            (HasChain self.old.slot self.old.front (self.old.sealed ++ self.old.staged ∷ [])) }
        // The slot stays, and the front and the names.
        ensures same { SameSlot self.old self.new }
        // The disk stays as it is.
        ensures disk { self.new.disk ≡ self.old.disk }
        // The body is sealed, and none is on its way.
        ensures sealed { (self.new.sealed ≡ self.old.sealed ++ self.old.staged ∷ [])
            × (self.new.phase ≡ Idle) }
        // No call has begun to open the next gate.
        ensures begun { self.new.begun ≡ false }
        // The token says for good that this journal has sealed these bodies.
        ensures token { (result.name ≡ self.new.name) × (result.bodies ≡ self.new.sealed) }
        // H: each crash state has the chain of the sealed bodies.
        ensures exit { EachCrash D.Disk self.new.disk
            (HasChain self.new.slot self.new.front self.new.sealed) }
    {
        let Held::GateOpened(gate) = mem::replace(&mut self.held, Held::Idle) else {
            unreachable!()
        };
        let gate = gate.seal(&self.disk, synced);
        self.end += self.in_flight.len() as u64;
        Sealed::new(
            gate,
            self.sealed.lengthen::<Vec<u8>, InFrame>(&self.in_flight),
        )
    }
}
