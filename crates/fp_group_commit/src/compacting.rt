//! A step of a compaction, beside the batches.

ghost use Rattle.fp_edit.specs.Following.{changes_of};
ghost use Rattle.fp_pending.specs.Following.{Follows};
ghost use Rattle.fp_edit.specs.Log.{after_all};
ghost use Rattle.std.specs.Prelude.{◌≡◌, length, IfOk, IfErr, OnOk, OnErr};
ghost use Rattle.fp_compaction.specs.Steps.{calls_of};
ghost use Rattle.fp_slots.specs.declared.slots.Step.TheVariants.{Begin};
ghost use Rattle.fp_group_commit.specs.Calls.{CallsDisk, Compacts, SameStore, StopsBy};
ghost use Rattle.fp_group_commit.specs.Store.{Leaves, MayCompact};
ghost use Rattle.fp_group_commit.specs.declared.phase.Phase.TheVariants.{Idle};

use crate::fault::StoreFault;
use crate::phase::Phase;
use crate::store::Store;
use fp_compaction::{StepFault, phase, take_step};
use fp_disk::Disk;
use fp_edit::{Edit, FlagSet};
use fp_journal::Phase as JournalPhase;
use fp_slots::Step;
use std::alloc::AllocError;
use std::collections::VecDeque;

// Takes into the set what is ahead of it, where a compaction begins with it. Where a batch is on
// its way nothing is.
fn catch_up(
    next: Step,
    phase: Phase,
    set: &mut FlagSet,
    ahead: &mut VecDeque<Edit>,
) -> Result<(), AllocError>
    requires follows { Follows set.old (changes_of ahead.old.items) }
    ensures same { after_all set.new (changes_of ahead.new.items)
        ≡ after_all set.old (changes_of ahead.old.items) }
    ensures follows { Follows set.new (changes_of ahead.new.items) }
    ensures done { OnOk result (next ≡ Begin → phase ≡ Idle → length ahead.new.items ≡ 0) }
    ensures begins { OnErr result (next ≡ Begin) }
    ensures still { (phase ≡ Idle → ⊥) → changes_of ahead.new.items ≡ changes_of ahead.old.items }
{
    if !matches!(next, Step::Begin) {
        return Ok(());
    }
    match phase {
        Phase::Idle => fp_pending::catch_up(set, ahead),
        Phase::Staged | Phase::BodySynced | Phase::GateOpened => Ok(()),
    }
}

impl<D: Disk> Store<D> {
    /// Takes the next of a compaction's eight steps, with one call of the disk at most, and
    /// answers the one behind it. It takes memory only as one begins, for the image and for what
    /// the last batch adds to the set.
    pub fn compact_step(&mut self) -> Result<Step, StoreFault>
        // A step may be taken, as `may_compact` says.
        requires { MayCompact self.old }
        // What is sealed and what is on its way stay.
        ensures same { SameStore self.old self.new }
        // The phase stays.
        ensures phase { self.new.phase ≡ self.old.phase }
        // Opening the gate has begun exactly where it had.
        ensures begun { self.new.begun ≡ self.old.begun }
        // `Ok`: the step was taken.
        ensures ok { OnOk result (Compacts D.faults self.old self.new) }
        // `Ok`: the answer is the step that follows.
        ensures next { IfOk result (λ next. next ≡ self.new.compaction.next) }
        // `Device`: it failed in this call, and phase, room and compaction are as before.
        // `Failed`, where it had failed before, and `Memory`, only at the first step: nothing
        // changed.
        ensures fault { IfErr result (StopsBy D.faults self.old self.new) }
        // Its calls of the disk are those of the step taken: none at the first, and at `Close`
        // where the gate counts as closed; else a write or a sync.
        ensures disk { CallsDisk D.Disk (calls_of self.old.compaction.next self.old.may_open)
            self.old self.new (Leaves self.old) result }
    {
        if let JournalPhase::Failed = phase(&self.slots) {
            return Err(StoreFault::Failed);
        }
        let next = self.slots.step();
        let Ok(()) = catch_up(next, self.phase, &mut self.set, &mut self.ahead) else {
            return Err(StoreFault::Memory);
        };
        let Err(fault) = take_step(self.alloc, &mut self.slots, &self.set) else {
            return Ok(self.slots.step());
        };
        if let StepFault::Memory = fault {
            return Err(StoreFault::Memory);
        }
        Err(StoreFault::Device)
    }
}
