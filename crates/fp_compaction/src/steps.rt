//! The steps of a compaction, with one call of the disk each at most,
//! by the set that the bytes stand for at each moment.

ghost use Rattle.std.specs.Prelude.{◌≡◌, ◌≢◌, ◌<◌, ◌≤◌, ◌+◌, ◌-◌, ◌/◌, ◌^◌, [], ℕ, OnOk, OnErr};
ghost use Rattle.fp_journal.specs.declared.journal.Phase.TheVariants.{Idle, Failed};
ghost use Rattle.fp_slots.specs.declared.places.TheConstants.{IMAGE_PLACE};
ghost use Rattle.fp_slots.specs.declared.slots.Step.TheVariants.{Begin, Close, SyncClose, Part};
ghost use Rattle.fp_slots.specs.declared.slots.Step.TheVariants.{Tail, SyncBody, Open, SyncOpen};
ghost use Rattle.fp_edit.specs.Flags.{size as size_of};
ghost use Rattle.fp_documents.specs.declared.flags.TheConstants.{IMAGE_HEAD};
ghost use Rattle.fp_compaction.specs.Steps.{StartsImage, StepsOn, TakesStep};
ghost use Rattle.fp_compaction.specs.Sets.{GoesOnKept, IsPlannedFor, LeavesEither};

use crate::image::image_of;
use fp_disk::{Disk, DiskFault};
use fp_edit::FlagSet;
use fp_slots::Slots;
use std::alloc::{AllocError, Global};

/// Begins a compaction of this set, under the next generation and version 2. It makes no call of
/// the disk.
pub fn begin<D: Disk>(alloc: Global, slots: &mut Slots<D>, set: &FlagSet) -> Result<(), AllocError>
    // No compaction runs.
    requires step { slots.old.step ≡ Begin }
    // No call of the journal has failed.
    requires live { slots.old.journal.phase ≢ Failed }
    // There is a generation behind this one.
    requires next { slots.old.generation + 1 < 2 ^ 64 }
    // The set's limit takes at least an image of no flags, and is below 2^32.
    requires limit { (IMAGE_HEAD ≤ set.now.limit) × (set.now.limit < 2 ^ 32) }
    // An image as long as that limit fits into the other slot, with its head and a closed gate.
    requires wide { slots.old.other.start + IMAGE_PLACE + set.now.limit < slots.old.other.stop }
    // What it leaves, what it keeps, and that it makes no call.
    ensures taken { TakesStep D.Disk slots.old slots.new }
    // `Ok`: the next step is `Close`.
    ensures step { OnOk result (slots.new.step ≡ Close) × OnErr result (slots.new.step ≡ Begin) }
    // `Ok`: what the other slot is to hold spells the set, if its limit is half a slot.
    ensures planned { OnOk result ((size : ℕ) → set.now.limit ≡ size / 2
        → IsPlannedFor slots.new size set.now) }
    // `Ok`: only the plan is new: head and image, as long as the set's size says, with a batch on
    // its way kept ready to go behind them.
    ensures begun { OnOk result
        (StartsImage (size_of set.now.flags) set.now.limit slots.old slots.new) }
    // Memory alone fails, and changes nothing.
    ensures err { OnErr result (slots.new ≡ slots.old) }
{
    // What a crash leaves now is known only where it is asked.
    let _ = slots.step();
    let image = image_of(alloc, set)?;
    slots.begin(alloc, set.revision(), &image)?;
    Ok(())
}

/// Closes the other slot's gate, where it may be open.
pub fn close<D: Disk>(slots: &mut Slots<D>) -> Result<(), DiskFault>
    // The next step is `Close`.
    requires step { slots.old.step ≡ Close }
    // No call of the journal has failed.
    requires live { slots.old.journal.phase ≢ Failed }
    // The step is taken, or the device failed.
    ensures { StepsOn D.Disk slots.old slots.new result }
{
    slots.close_other()
}

/// Makes sure of the closed gate.
pub fn sync_close<D: Disk>(slots: &mut Slots<D>) -> Result<(), DiskFault>
    // The next step is `SyncClose`.
    requires step { slots.old.step ≡ SyncClose }
    // No call of the journal has failed.
    requires live { slots.old.journal.phase ≢ Failed }
    // The step is taken, or the device failed.
    ensures { StepsOn D.Disk slots.old slots.new result }
{
    slots.sync_close()
}

/// Writes the next 65,536 bytes of head and image, or what is left of them.
pub fn chunk<D: Disk>(slots: &mut Slots<D>) -> Result<(), DiskFault>
    // The next step is `Part`.
    requires step { slots.old.step ≡ Part }
    // No call of the journal has failed.
    requires live { slots.old.journal.phase ≢ Failed }
    // The step is taken, or the device failed.
    ensures { StepsOn D.Disk slots.old slots.new result }
{
    slots.write_part()
}

/// Writes the batches that were sealed since the beginning, and a closed gate.
pub fn copy_tail<D: Disk>(slots: &mut Slots<D>) -> Result<(), DiskFault>
    // The next step is `Tail`.
    requires step { slots.old.step ≡ Tail }
    // No batch is on its way, and no call of the journal has failed.
    requires live { slots.old.journal.phase ≡ Idle }
    // The step is taken, or the device failed.
    ensures { StepsOn D.Disk slots.old slots.new result }
{
    slots.write_tail()
}

/// Makes sure of what was written.
pub fn seal<D: Disk>(slots: &mut Slots<D>) -> Result<(), DiskFault>
    // The next step is `SyncBody`.
    requires step { slots.old.step ≡ SyncBody }
    // No call of the journal has failed.
    requires live { slots.old.journal.phase ≢ Failed }
    // The step is taken, or the device failed.
    ensures { StepsOn D.Disk slots.old slots.new result }
{
    slots.sync_parts()
}

/// Opens the other slot's gate: from now on either slot may rule, and both stand for the set.
pub fn open_other<D: Disk>(slots: &mut Slots<D>) -> Result<(), DiskFault>
    // The next step is `Open`.
    requires step { slots.old.step ≡ Open }
    // No call of the journal has failed.
    requires live { slots.old.journal.phase ≢ Failed }
    // H: where both slots stand for one set, any crash state at any moment stands for it.
    ensures stands { LeavesEither D.Disk slots.old slots.new }
    // H: the set that was kept is kept.
    ensures kept { GoesOnKept D.Disk slots.old slots.new }
    // The step is taken, or the device failed.
    ensures on { StepsOn D.Disk slots.old slots.new result }
{
    slots.open_other()
}

/// Makes sure of the open gate: from now on the other slot rules, and stands for the set.
pub fn finish<D: Disk>(slots: &mut Slots<D>) -> Result<(), DiskFault>
    // The next step is `SyncOpen`.
    requires step { slots.old.step ≡ SyncOpen }
    // No call of the journal has failed.
    requires live { slots.old.journal.phase ≢ Failed }
    // H: where both slots stand for one set, any crash state at any moment stands for it.
    ensures stands { LeavesEither D.Disk slots.old slots.new }
    // `Ok`: the journal goes on behind the text that the other slot was to hold, and nothing is
    // sealed.
    ensures text { OnOk result ((slots.new.journal.front ≡ slots.old.text)
        × (slots.new.journal.sealed ≡ [])) }
    // The step is taken, or the device failed.
    ensures on { StepsOn D.Disk slots.old slots.new result }
{
    // That no batch is on its way is known only where it is asked.
    let _ = slots.step();
    slots.switch()?;
    Ok(())
}
