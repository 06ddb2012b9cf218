//! Two slots, and what a compaction does next.

ghost use Rattle.fp_disk.specs.Crashes.{EachCrash};
ghost use Rattle.std.specs.Prelude.{◌≡◌, ◌≢◌, ◌⊎◌, ◌<◌, ◌≤◌, ◌+◌, ◌-◌, ◌^◌, length, OnOk, OnErr};
ghost use Rattle.fp_journal.specs.Chain.{with_gate};
ghost use Rattle.fp_journal.specs.State.{IsOnWay};
ghost use Rattle.fp_journal.specs.declared.journal.Phase.TheVariants.{Failed};
ghost use Rattle.fp_slots.specs.Head.{IsVersion, head_text};
ghost use Rattle.fp_slots.specs.State.{IsBeaten, IsFrontOf, IsStill, Leaves};
ghost use Rattle.fp_slots.specs.declared.places.TheConstants.{IMAGE_PLACE, VERSION, VERSION_PLACE};
ghost use Rattle.fp_slots.specs.declared.slots.Step.TheVariants.{Begin, Close};

use crate::held::Held;
use crate::places::{IMAGE_PLACE, VERSION};
use crate::planning::{on_way, shut_head};
use fp_disk::Disk;
use fp_journal::{Journal, Slot};
use std::alloc::{AllocError, Global};
use std::marker::Model;

/// What a compaction does next.
#[derive(Clone, Copy, Debug)]
pub enum Step {
    /// None runs.
    Begin,
    /// It closes the other slot's gate, if that is open.
    Close,
    /// It makes sure of that.
    SyncClose,
    /// It writes a part of the image.
    Part,
    /// It writes what is left, and a closed gate.
    Tail,
    /// It makes sure of that.
    SyncBody,
    /// It opens the other slot's gate.
    Open,
    /// It makes sure of that, and goes on in that slot.
    SyncOpen,
}

/// Two slots, of which a journal fills the one that rules.
#[derive(Drop)]
pub struct Slots<D: Disk> {
    pub(crate) journal: Journal<D>,
    pub(crate) other: Slot,
    pub(crate) generation: u64,
    pub(crate) version: u8,
    pub(crate) held: Held<D>,
    pub(crate) may_open: bool,
    // The text that the other slot is to hold, a closed gate, and what is to stand behind that one.
    pub(crate) planned: Vec<u8>,
    pub(crate) ended: usize,
    pub(crate) head: usize,
    pub(crate) done: usize,
}

impl<D: Disk> Model for Slots<D> {
    ghost use Rattle.std.specs.Prelude.{slice_range, drop, ◌+◌, ◌-◌};
    ghost use Rattle.fp_slots.specs.State.{SlotsState, IsKept, IsHeld, IsWithin, step_of};

    ghost Value = { SlotsState D };

    ghost view = { λ s. record {
      journal = s.journal;
      other = s.other;
      generation = s.generation;
      version = s.version;
      may_open = s.may_open;
      step = step_of s.held;
      text = slice_range s.planned.items 0 s.ended;
      head = s.head;
      left = s.head - s.done;
      coming = drop (s.ended + 1) s.planned.items;
    } };

    ghost invariant = { λ s. IsKept D.honest D.bytes D.unsynced
        (record {
          journal = s.journal;
          other = s.other;
          generation = s.generation;
          version = s.version;
          may_open = s.may_open;
          step = step_of s.held;
          text = slice_range s.planned.items 0 s.ended;
          head = s.head;
          left = s.head - s.done;
          coming = drop (s.ended + 1) s.planned.items;
        })
        s.may_open (slice_range s.planned.items 0 (s.ended + 1)) s.done
        × IsHeld D.honest D.moment s.journal s.other.start s.held
        × IsWithin s.planned.items s.ended s.head s.done };
}

impl<D: Disk> Slots<D> {
    /// Two slots, of which a journal fills the one that rules. It makes no call of the disk.
    pub fn new(
        alloc: Global,
        journal: Journal<D>,
        other: Slot,
        generation: u64,
        version: u8,
        may_open: bool,
    ) -> Slots<D>
        // The two slots share no place.
        requires apart { (journal.slot.stop ≤ other.start) ⊎ (other.stop ≤ journal.slot.start) }
        // Each has room for its gate and generation.
        requires wide { (other.start + VERSION_PLACE ≤ other.stop)
            × (journal.slot.start + VERSION_PLACE ≤ journal.slot.stop) }
        // The journal's slot has that generation and that version.
        requires front { IsFrontOf version generation journal.front }
        // The version is 1 or 2.
        requires known { IsVersion version }
        // No call of the journal has failed.
        requires live { journal.phase ≢ Failed }
        // H: in every crash state the other slot's gate is closed, or, where it may be open, its
        // generation is smaller.
        requires beaten { D.honest journal.disk →
            IsBeaten may_open other.start generation (D.unsynced journal.disk) }
        // They are as they were given, and no compaction runs.
        ensures same { (result.journal ≡ journal)
            × (result.other ≡ other)
            × (result.generation ≡ generation)
            × (result.version ≡ version)
            × (result.may_open ≡ may_open)
            × (result.step ≡ Begin) }
    {
        let _phase = journal.phase();
        Slots {
            journal,
            other,
            generation,
            version,
            held: Held::Begin,
            may_open,
            planned: Vec::new(alloc),
            ended: 0,
            head: 0,
            done: 0,
        }
    }

    /// Gives the disk back.
    pub fn into_disk(self) -> D
        ensures disk { result ≡ self.journal.disk }
        // H: what a crash leaves is as `step` says.
        ensures outcomes { EachCrash D.Disk result (Leaves self.step self) }
    {
        let Slots {
            journal,
            other: _,
            generation: _,
            version: _,
            held: _,
            may_open: _,
            planned: _,
            ended: _,
            head: _,
            done: _,
        } = self;
        journal.into_disk()
    }

    /// What a compaction does next, which says what a crash would leave now, also where a call
    /// failed.
    pub fn step(&self) -> Step
        ensures step { result ≡ self.now.step }
        // H: in each crash state the journal's slot rules, with what the journal claims; at `Open`
        // and `SyncOpen` perhaps the other one, with the text that it is to hold.
        ensures outcomes { EachCrash D.Disk self.now.journal.disk (Leaves result self.now) }
        // From `SyncBody` on no batch is on its way.
        ensures still { IsStill self.now.step self.now.journal.phase }
        // The journal's slot has this generation and this version.
        ensures front { IsFrontOf self.now.version self.now.generation
            self.now.journal.front }
        // The generation is below 2^64.
        ensures numbered { self.now.generation < 2 ^ 64 }
    {
        let _phase = self.journal.phase();
        self.held.step()
    }

    /// The journal in the slot that rules.
    pub fn journal(&self) -> &Journal<D>
        ensures { result.now ≡ self.now.journal }
    {
        &self.journal
    }

    /// The generation of the slot that rules.
    pub fn generation(&self) -> u64
        ensures { result ≡ self.now.generation }
    {
        self.generation
    }

    /// The version of the slot that rules.
    pub fn version(&self) -> u8
        ensures version { result ≡ self.now.version }
        // It is 1 or 2.
        ensures known { IsVersion self.now.version }
    {
        self.version
    }

    /// How many bytes the other slot has, and how many of them it is to hold behind the image.
    pub fn beside(&self) -> (u64, u64)
        ensures size { result.0 ≡ self.now.other.stop - self.now.other.start }
        ensures tail { result.1 ≡ length self.now.text - self.now.head }
    {
        (
            self.other.stop - self.other.start,
            (self.ended - self.head) as u64,
        )
    }

    /// Begins a compaction that is to leave this image of that revision in the other slot, under
    /// the next generation, by the version of all that is written. A body on its way is kept ready
    /// to go behind it. It makes no call of the disk; where memory runs out all stays as it was.
    pub fn begin(&mut self, alloc: Global, base: u64, image: &[u8]) -> Result<(), AllocError>
        // No compaction runs.
        requires step { self.old.step ≡ Begin }
        // No call of the journal has failed.
        requires live { self.old.journal.phase ≢ Failed }
        // There is a generation behind this one.
        requires next { self.old.generation + 1 < 2 ^ 64 }
        // The image has fewer than 2^32 bytes.
        requires short { length image.now < 2 ^ 32 }
        // Head, image and a closed gate fit into the other slot.
        requires fits { self.old.other.start + IMAGE_PLACE + length image.now
            < self.old.other.stop }
        // The slots stay as they are.
        ensures same { (self.new.journal ≡ self.old.journal)
            × (self.new.other ≡ self.old.other)
            × (self.new.generation ≡ self.old.generation)
            × (self.new.version ≡ self.old.version)
            × (self.new.may_open ≡ self.old.may_open) }
        // `Ok`: the other slot is to hold the next generation, version 2, this base and this image;
        // all of that but the gate's byte is left to be written.
        ensures text { OnOk result
            ((self.new.text ≡ head_text VERSION (self.old.generation + 1) base image.now)
            × (self.new.head ≡ IMAGE_PLACE + length image.now)
            × (self.new.left + 1 ≡ self.new.head)) }
        // `Ok`: the bytes of a body on its way are kept ready to go behind it.
        ensures ready { OnOk result (IsOnWay self.old.journal.phase →
            self.new.coming ≡ with_gate self.old.journal.staged) }
        // Memory alone fails, and changes nothing.
        ensures err { OnErr result (self.new ≡ self.old) }
        // `Ok`: the next step is `Close`.
        ensures step { OnOk result (self.new.step ≡ Close) × OnErr result (self.new.step ≡ Begin) }
    {
        let next = self.generation + 1;
        let planned = shut_head(alloc, VERSION, next, base, image, on_way(&self.journal))?;
        self.ended = IMAGE_PLACE + image.len();
        self.head = self.ended;
        self.done = 1;
        self.planned = planned;
        self.held = Held::Close;
        Ok(())
    }
}
