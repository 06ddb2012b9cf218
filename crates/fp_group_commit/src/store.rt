//! A store of edits on a disk.

ghost use Rattle.fp_disk.specs.Crashes.{EachCrash};
ghost use Rattle.std.specs.Prelude.{◌≡◌, ◌<◌, ◌+◌, ◌-◌, ◌/◌, ◌↔◌, ℕ, length};
ghost use Rattle.std.specs.Prelude.{IsTrue, false};
ghost use mathlib.Core.List.{IsPrefix};
ghost use Rattle.fp_journal.specs.declared.journal.Phase.TheVariants as journal;
ghost use Rattle.fp_compaction.specs.Sets.{IsKeptIn, IsPlaced};
ghost use Rattle.fp_recovery.specs.Stands.{StandsFor};
ghost use Rattle.fp_slots.specs.declared.slots.Step.TheVariants.{Begin};
ghost use Rattle.fp_recovery.specs.Room.{IsFullFor};
ghost use Rattle.fp_group_commit.specs.Changes.{HasNoRoom, HasRoom};
ghost use Rattle.fp_group_commit.specs.Inside.{IsOver};
ghost use Rattle.fp_slots.specs.Head.{IsVersion};
ghost use Rattle.fp_group_commit.specs.Store.{IsAtRest, IsFresh, Leaves, MayCompact, sealed_set};
ghost use Rattle.fp_group_commit.specs.Store.{is_opened, readable_set};

use crate::draw::{Draw, has_room};
use crate::opening::Opening;
use crate::part::{Applied, Origin, Part};
use crate::phase::Phase;
use crate::receipt::Receipt;
use crate::settled::Told;
use fp_compaction::phase;
use fp_disk::Disk;
use fp_edit::{Edit, FlagSet};
use fp_fronts::Growing;
use fp_journal::Phase as JournalPhase;
use fp_slots::{Slots, Step};
use std::alloc::Global;
use std::collections::VecDeque;
use std::marker::Model;

/// A disk that keeps edits, batch after batch.
/// It isn't `Drop`, so that the disk comes back by `into_disk`.
pub struct Store<D: Disk> {
    pub(crate) slots: Slots<D>,
    // The sealed set but for the edits of `ahead`, which are those of the last batch.
    pub(crate) set: FlagSet,
    pub(crate) ahead: VecDeque<Edit>,
    // The edits of the batch on its way once more.
    pub(crate) copies: VecDeque<Edit>,
    pub(crate) batch: Draw,
    pub(crate) phase: Phase,
    pub(crate) sealed: Growing<Applied>,
    pub(crate) origin: Origin,
    pub(crate) alloc: Global,
}

impl<D: Disk> Model for Store<D> {
    ghost use Rattle.std.specs.Coded.{codes};
    ghost use Rattle.fp_edit.specs.Flags.{coded_state};
    ghost use Rattle.fp_edit.specs.Following.{changes_of};
    ghost use Rattle.fp_group_commit.specs.Changes.{coded_change};
    ghost use Rattle.fp_group_commit.specs.Inside.{seen};
    ghost use Rattle.fp_group_commit.specs.Sound.{IsSound};
    ghost use Rattle.fp_group_commit.specs.Store.{StoreState};

    ghost Value = { StoreState D };

    ghost coded = { Prim.hlevel (codes, coded_state, coded_change) };

    ghost view = { λ s. seen (record {
      store = record { name = s.sealed.name; start = s.origin };
      sealed = s.sealed.log;
      staged = s.batch.changes;
      phase = s.phase;
      slots = s.slots;
    }) };

    ghost invariant = { λ s. IsSound D.honest D.unsynced (record {
      store = record { name = s.sealed.name; start = s.origin };
      sealed = s.sealed.log;
      staged = s.batch.changes;
      phase = s.phase;
      slots = s.slots;
    })
        s.set s.batch.first (changes_of s.ahead.items) (changes_of s.copies.items) };
}

impl<D: Disk> Store<D> {
    // Goes on from what two slots keep. The two sets are the same:
    // one is the store's, one the opening's.
    pub(crate) fn adopt(
        alloc: Global,
        set: FlagSet,
        own: FlagSet,
        slots: Slots<D>,
    ) -> (Store<D>, Opening)
        requires same { own ≡ set }
        requires rest { (slots.journal.phase ≡ journal.Idle) × (slots.step ≡ Begin) }
        requires kept { (size : ℕ) × IsPlaced size slots set.limit
            × (D.honest slots.journal.disk →
            IsKeptIn (D.unsynced slots.journal.disk) slots size set) }
        ensures fresh { IsFresh result.0 set }
        ensures over { IsOver slots result.0 }
        ensures opening { result.1 ≡ result.0.store }
        ensures outcomes { EachCrash D.Disk slots.journal.disk (Leaves result.0) }
    {
        // What the slots' outcomes are is known only where it is asked.
        let _ = phase(&slots);
        let (sealed, front) = Growing::<Applied>::new();
        let origin = Origin::of(&set);
        let part = Part::new(origin.again(), front);
        let store = Store {
            slots,
            set: own,
            ahead: VecDeque::new(alloc),
            copies: VecDeque::new(alloc),
            batch: Draw::new(0, Vec::new(alloc)),
            phase: Phase::Idle,
            sealed,
            origin,
            alloc,
        };
        (store, Opening::new(set, part))
    }

    /// How far the batch on its way is, so which call comes next. A call that the device refuses
    /// leaves it.
    pub fn phase(&self) -> Phase
        ensures phase { result ≡ self.now.phase }
        // Where no call of the device failed, opening the gate has begun exactly where the phase
        // is `GateOpened`.
        ensures begun { self.now.failed ≡ false → self.now.begun ≡ is_opened result }
        // H: every crash state stands for the sealed set or, once opening the gate has begun,
        // perhaps for that with the batch on its way.
        ensures outcomes { EachCrash D.Disk self.now.disk (Leaves self.now) }
    {
        let _ = phase(&self.slots);
        self.phase
    }

    /// What a compaction does next, `Begin` where none runs.
    pub fn step(&self) -> Step
        ensures { result ≡ self.now.compaction.next }
    {
        self.slots.step()
    }

    /// Whether a call of the device has failed.
    pub fn failed(&self) -> bool
        ensures { result ≡ self.now.failed }
    {
        matches!(self.slots.journal().phase(), JournalPhase::Failed)
    }

    /// Whether the draw can be staged now: it is within the limits of a batch, fits beside a
    /// compaction, where one runs, and holds no set of changes where the slot that rules is of
    /// the first version.
    pub fn has_room(&self, draw: &Draw) -> bool
        // True exactly where that is so: 1 to 64 edits, a body as short as the slot takes, and
        // room for it with its length and gates; where a compaction runs its tail isn't written
        // yet, and has room for it too.
        ensures room { IsTrue result ↔ HasRoom self.now draw.now }

        // H: where nothing is on its way, no compaction runs and the slot has no room for the
        // draw, by its bytes or by its version, nor has any crash state, in the same generation.
        ensures full { IsAtRest self.now → self.now.compaction.next ≡ Begin
            → HasNoRoom self.now draw.now
            → EachCrash D.Disk self.now.disk
            (λ c. IsFullFor c (sealed_set self.now) draw.now self.now.compaction.generation) }

        // A quarter of a slot is half of what a set may take.
        ensures quarter { (self.now.other.stop - self.now.other.start) / 4
            ≡ self.now.store.start.limit / 2 }
    {
        // What the slots' outcomes are is known only where it is asked.
        let _ = phase(&self.slots);
        has_room(&self.slots, draw)
    }

    /// Whether a step of a compaction may be taken: where none runs there is a generation more,
    /// and no batch is on its way where the tail is next.
    pub fn may_compact(&self) -> bool
        ensures { IsTrue result ↔ MayCompact self.now }
    {
        match self.slots.step() {
            Step::Begin => self.slots.generation() < u64::MAX,
            Step::Tail => matches!(self.phase, Phase::Idle),
            _ => true,
        }
    }

    /// The version of the slot that rules, as opening found it, until a compaction's last step
    /// makes it 2. In one of version 1 no set of changes has a place.
    pub fn version(&self) -> u8
        ensures version { result ≡ self.now.compaction.version }
        // It is 1 or 2.
        ensures known { IsVersion result }
    {
        self.slots.version()
    }

    /// The generation of the slot that rules. Each compaction that ends raises it.
    pub fn generation(&self) -> u64
        ensures { result ≡ self.now.compaction.generation }
    {
        self.slots.generation()
    }

    /// How many bytes are left for batches, with their gates and lengths.
    pub fn room(&self) -> u64
        ensures { result ≡ self.now.room }
    {
        self.slots.journal().room()
    }

    /// Whether less than a quarter of a slot is left for batches, so that a compaction is due.
    pub fn is_short(&self) -> bool
        ensures { IsTrue result ↔ (self.now.room < self.now.store.start.limit / 2) }
    {
        let (size, _) = self.slots.beside();
        self.slots.journal().room() < size / 4
    }

    /// The last revision that is sealed.
    pub fn revision(&self) -> u64
        ensures { result ≡ self.now.store.start.revision + length self.now.sealed }
    {
        self.set.revision() + self.ahead.len() as u64
    }

    /// Gives the disk back, in whatever phase.
    pub fn into_disk(self) -> D
        ensures disk { result ≡ self.disk }
        // H: every crash state stands for the sealed set or, once opening the gate has begun,
        // perhaps for that with the batch on its way.
        ensures outcomes { EachCrash D.Disk result (Leaves self) }
        // H: where no call of the device failed, a read gives what is sealed, with the batch on
        // its way exactly where its gate was opened.
        ensures reads { D.honest result → self.failed ≡ false →
            StandsFor (D.bytes result) (readable_set self) }
    {
        // What the slots' outcomes are is known only where it is asked.
        let _ = phase(&self.slots);
        let Store {
            slots,
            set: _,
            ahead: _,
            copies: _,
            batch: _,
            phase: _,
            sealed: _,
            origin: _,
            alloc: _,
        } = self;
        slots.into_disk()
    }

    /// Shows that what a receipt tells of begins what the store keeps. Does nothing when it runs,
    /// and says so of a failed store too.
    pub fn confirm(&self, receipt: &Receipt)
        // The receipt is of this store.
        requires { receipt.now.store ≡ self.now.store }
        ensures { IsPrefix receipt.now.edits self.now.sealed }
    {
        self.sealed.confirm(receipt.part.front())
    }

    /// Shows that what was told begins what the store keeps. Does nothing when it runs, and says
    /// so of a failed store too.
    pub fn confirm_told(&self, told: &Told)
        // The `Told` is of this store.
        requires { told.now.store ≡ self.now.store }
        ensures { IsPrefix told.now.edits self.now.sealed }
    {
        self.sealed.confirm(told.part().front())
    }
}
