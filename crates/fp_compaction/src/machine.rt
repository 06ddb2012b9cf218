//! A compaction's next step, whichever it is.

ghost use Rattle.std.specs.Prelude.{◌≡◌, ◌≢◌, ◌/◌, ℕ, IfErr, OnOk, OnErr};
ghost use Rattle.fp_journal.specs.declared.journal.Phase.TheVariants.{Failed};
ghost use Rattle.fp_edit.specs.Flags.{size as size_of};
ghost use Rattle.fp_slots.specs.declared.slots.Step.TheVariants.{Begin, SyncOpen};
ghost use Rattle.fp_compaction.specs.Sets.{IsPlannedFor};
ghost use Rattle.fp_compaction.specs.Steps.{BreaksOff, HasImageRoom, MayStep, StartsImage, Stays};
ghost use Rattle.fp_compaction.specs.Steps.{StepsOn, TakesStep, Turns, next_left, next_step};
ghost use Rattle.fp_compaction.specs.declared.machine.StepFault.TheVariants.{Device, Memory};

use crate::steps::{begin, chunk, close, copy_tail, finish, open_other, seal, sync_close};
use fp_disk::{Disk, DiskFault};
use fp_edit::FlagSet;
use fp_slots::{Slots, Step};
use std::alloc::{AllocError, Global};

/// Why a step wasn't taken.
#[derive(Clone, Copy, Debug)]
pub enum StepFault {
    /// The device refused.
    Device,
    /// Memory ran out, which it can only as a compaction begins.
    Memory,
}

impl From<DiskFault> for StepFault {
    ghost from_gives = { λ _ e. e ≡ Device };

    fn from(_fault: DiskFault) -> StepFault {
        StepFault::Device
    }
}

impl From<AllocError> for StepFault {
    ghost from_gives = { λ _ e. e ≡ Memory };

    fn from(_fault: AllocError) -> StepFault {
        StepFault::Memory
    }
}

// Takes the next step of a compaction that runs.
fn step_on<D: Disk>(slots: &mut Slots<D>) -> Result<(), DiskFault>
    requires runs { slots.old.step ≢ Begin }
    requires live { slots.old.journal.phase ≢ Failed }
    requires may { MayStep slots.old }
    ensures { StepsOn D.Disk slots.old slots.new result }
{
    match slots.step() {
        Step::Begin => unreachable!(),
        Step::Close => close(slots),
        Step::SyncClose => sync_close(slots),
        Step::Part => chunk(slots),
        Step::Tail => copy_tail(slots),
        Step::SyncBody => seal(slots),
        Step::Open => open_other(slots),
        Step::SyncOpen => finish(slots),
    }
}

/// Takes the next step, with one call of the disk at most. The set is what is kept, and is looked
/// at only where no compaction runs.
pub fn take_step<D: Disk>(
    alloc: Global,
    slots: &mut Slots<D>,
    set: &FlagSet,
) -> Result<(), StepFault>
    // No call of the journal has failed.
    requires live { slots.old.journal.phase ≢ Failed }
    // A step may be taken.
    requires may { MayStep slots.old }
    // Where no compaction runs: the set's limit takes at least an image of no flags, and an image
    // as long as it has room in the other slot.
    requires place { slots.old.step ≡ Begin → HasImageRoom slots.old set.now }
    // What it leaves, what it keeps, and its calls.
    ensures taken { TakesStep D.Disk slots.old slots.new }
    // `Ok`: the step that follows is next, a `Part` for each 65,536 bytes begun of head and image;
    // a fault: the same step.
    ensures order { OnOk result (slots.new.step ≡ next_step slots.old.step slots.old.left)
        × OnErr result (slots.new.step ≡ slots.old.step) }
    // `Ok`: by a `Part` what is left of head and image falls by 65,536 bytes, or to none; by
    // another step of one that runs it stays.
    ensures left { OnOk result (slots.old.step ≢ Begin →
        slots.new.left ≡ next_left slots.old.step slots.old.left) }
    // `Ok`, at the first step: what the other slot is to hold spells the set, if its limit is half
    // a slot.
    ensures planned { OnOk result (slots.old.step ≡ Begin → (size : ℕ)
        → set.now.limit ≡ size / 2 → IsPlannedFor slots.new size set.now) }
    // `Ok`, at the first step: only the plan is new, of head and image, with a batch on its way
    // kept ready to go behind them.
    ensures begun { OnOk result (slots.old.step ≡ Begin →
        StartsImage (size_of set.now.flags) set.now.limit slots.old slots.new) }
    // `Ok`, at each step between the first and the last: nothing but the step and what is left
    // changed.
    ensures stays { OnOk result (slots.old.step ≢ Begin → slots.old.step ≢ SyncOpen →
        Stays slots.old slots.new) }
    // `Ok`, at the last step: the slots are turned, under the next generation and version 2; the
    // gate of the one that ruled counts as open, and the room is what lies behind the planned text.
    ensures turned { OnOk result (slots.old.step ≡ SyncOpen → Turns slots.old slots.new) }
    // `Ok`: no call of the disk failed.
    ensures no_failure { OnOk result
        (D.faults slots.new.journal.disk ≡ D.faults slots.old.journal.disk) }
    // `Device`: a call of the disk failed, so the journal has failed; nothing else changed.
    ensures device { IfErr result (λ e. e ≡ Device → BreaksOff D.faults slots.old slots.new) }
    // `Memory`: it was the first step, and nothing changed.
    ensures memory { IfErr result (λ e. e ≡ Memory →
        (slots.old.step ≡ Begin) × (slots.new ≡ slots.old)) }
{
    if let Step::Begin = slots.step() {
        return Ok(begin(alloc, slots, set)?);
    }
    Ok(step_on(slots)?)
}
