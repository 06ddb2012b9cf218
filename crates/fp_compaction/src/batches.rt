//! Batches beside a compaction, by the sets that they lead from and to.

ghost use Rattle.fp_disk.specs.declared.history.CallKind.TheVariants.{Sync, Write};
ghost use Rattle.std.specs.Prelude.{◌≡◌, ◌≢◌, [], ◌∷◌, ◌++◌, true, false, length, IfOk, OnOk};
ghost use Rattle.std.specs.Prelude.{OnErr};
ghost use Rattle.fp_journal.specs.Chain.{body_of, with_length};
ghost use Rattle.fp_gate.specs.declared.gate.TheConstants.{OPEN};
ghost use Rattle.fp_journal.specs.State.{SameSlot, has_begun};
ghost use Rattle.fp_journal.specs.declared.journal.Phase.TheVariants.{Idle, Staged, BodySynced};
ghost use Rattle.fp_journal.specs.declared.journal.Phase.TheVariants.{GateOpened, Failed};
ghost use Rattle.fp_slots.specs.State.{IsEarly, IsGrowing, SameCompaction, SamePlan};
ghost use Rattle.fp_compaction.specs.Sets.{GoesOnKept};
ghost use Rattle.fp_compaction.specs.Steps.{IsFullNow, LeavesNow, ReadsNext};
ghost use Rattle.fp_compaction.specs.Batches.{FitsBeside, HasRoomFor, IsReadyFor, KeepsNext};
ghost use Rattle.fp_compaction.specs.Batches.{LeavesNext, LeavesSealed, PlansNext};
ghost use Rattle.fp_compaction.specs.Calls.{MakesCall, MovesBatch};

use crate::room::is_growing;
use fp_disk::{Disk, DiskFault};
use fp_journal::{Framed, Phase, Sealed};
use fp_slots::Slots;
use std::alloc::AllocError;

/// Keeps a body ready to join what the other slot is to hold, where a compaction can take it. All
/// memory is taken here.
pub fn make_ready<D: Disk>(slots: &mut Slots<D>, framed: &Framed) -> Result<(), AllocError>
    // No call of the journal has failed.
    requires live { slots.old.journal.phase ≢ Failed }
    // The slots and the planned text stay.
    ensures same { SamePlan slots.old slots.new }
    // `Ok`: the body is kept ready, where a compaction can take it.
    ensures ready { OnOk result (IsReadyFor slots.new framed.now) }
    // Memory alone fails, and changes nothing.
    ensures err { OnErr result (slots.new ≡ slots.old) }
{
    if !is_growing(slots.step()) {
        return Ok(());
    }
    slots.plan_body(framed)?;
    Ok(())
}

/// Writes a body behind the closed gate of the slot that rules.
pub fn stage<D: Disk>(slots: &mut Slots<D>, framed: Framed) -> Result<(), DiskFault>
    // No batch is on its way.
    requires idle { slots.old.journal.phase ≡ Idle }
    // There is room for it, as `has_room` has it.
    requires room { HasRoomFor slots.old (length framed) }
    // By a write the batch comes to `Staged`, or the journal has failed.
    ensures moves { MovesBatch D.Disk Write Staged false slots.old slots.new result }
    // H: any crash state at any moment stands for the kept set.
    ensures stands { LeavesSealed D.Disk slots.old slots.new }
    // This body is the staged one.
    ensures staged { slots.new.journal.staged ≡ framed }
{
    slots.stage(framed)
}

/// Makes sure of the body.
pub fn sync_body<D: Disk>(slots: &mut Slots<D>) -> Result<(), DiskFault>
    // No tail was written.
    requires early { IsEarly slots.old.step }
    // The phase is `Staged`.
    requires staged { slots.old.journal.phase ≡ Staged }
    // By a sync the batch comes to `BodySynced`, or the journal has failed.
    ensures moves { MovesBatch D.Disk Sync BodySynced false slots.old slots.new result }
    // H: any crash state at any moment stands for the kept set.
    ensures stands { LeavesSealed D.Disk slots.old slots.new }
    // The staged body stays.
    ensures staged { slots.new.journal.staged ≡ slots.old.journal.staged }
{
    slots.sync_staged()
}

/// Opens the gate in front of the body.
pub fn open_gate<D: Disk>(slots: &mut Slots<D>) -> Result<(), DiskFault>
    // No tail was written.
    requires early { IsEarly slots.old.step }
    // The phase is `BodySynced`.
    requires synced { slots.old.journal.phase ≡ BodySynced }
    // By a write the batch comes to `GateOpened`, or the journal has failed.
    ensures moves { MovesBatch D.Disk Write GateOpened true slots.old slots.new result }
    // H: any crash state at any moment stands for the kept set, or for what the batch makes of it.
    ensures stands { LeavesNext D.Disk slots.old slots.new }
    // The staged body stays.
    ensures staged { slots.new.journal.staged ≡ slots.old.journal.staged }
{
    slots.open_gate()
}

// Lets the body that is kept ready join what the other slot is to hold,
// where a compaction can take it.
fn grow<D: Disk>(slots: &mut Slots<D>)
    requires live { slots.old.journal.phase ≢ Failed }
    requires ready { IsReadyFor slots.old (body_of slots.old.coming) }
    requires fits { FitsBeside slots.old (body_of slots.old.coming) }
    ensures grown { IsGrowing slots.old.step →
        slots.new.text ≡ slots.old.text ++ OPEN ∷ with_length (body_of slots.old.coming) }
    ensures still { (IsGrowing slots.old.step → ⊥) → slots.new.text ≡ slots.old.text }
    ensures journal { (slots.new.journal ≡ slots.old.journal)
        × (slots.new.other ≡ slots.old.other) × (slots.new.generation ≡ slots.old.generation)
        × (slots.new.version ≡ slots.old.version) × (slots.new.may_open ≡ slots.old.may_open) × (slots.new.step ≡ slots.old.step)
        × (slots.new.head ≡ slots.old.head) × (slots.new.left ≡ slots.old.left) }
{
    if is_growing(slots.step()) {
        slots.lengthen();
    }
}

/// Makes sure of the open gate: the batch is sealed, and a compaction
/// that can take it will have it in the other slot.
pub fn sync_gate<D: Disk>(slots: &mut Slots<D>) -> Result<Sealed, DiskFault>
    // No tail was written.
    requires early { IsEarly slots.old.step }
    // The phase is `GateOpened`.
    requires opened { slots.old.journal.phase ≡ GateOpened }
    // The staged body is kept ready, where a compaction can take it.
    requires ready { IsReadyFor slots.old slots.old.journal.staged }
    // It fits into the other slot, where a compaction can take it.
    requires fits { FitsBeside slots.old slots.old.journal.staged }
    // H: any crash state at any moment stands for the kept set, or for what the batch makes of it.
    ensures stands { LeavesNext D.Disk slots.old slots.new }
    // `Ok`: the body is sealed, and none is on its way.
    ensures sealed { OnOk result ((slots.new.journal.phase ≡ Idle) × (slots.new.journal.sealed
        ≡ slots.old.journal.sealed ++ slots.old.journal.staged ∷ [])) }
    // H: `Ok`: what the batch makes of the set is kept.
    ensures next { OnOk result (KeepsNext D.Disk slots.old slots.new) }
    // `Ok`: where a compaction can take the batch, the other slot is to hold what it makes of the
    // set.
    ensures planned { OnOk result (PlansNext slots.old slots.new) }
    // `Ok`: where a compaction can take the batch, it stands behind the planned text, with its
    // length and an open gate.
    ensures grown { OnOk result (IsGrowing slots.old.step → slots.new.text
        ≡ slots.old.text ++ OPEN ∷ with_length slots.old.journal.staged) }
    // `Ok`: where none can, the planned text stays.
    ensures still { OnOk result ((IsGrowing slots.old.step → ⊥)
        → slots.new.text ≡ slots.old.text) }
    // `Ok`: the token says for good that this journal has sealed these bodies.
    ensures token { IfOk result (λ t. (t.name ≡ slots.new.journal.name)
        × (t.bodies ≡ slots.new.journal.sealed)) }
    // `Ok`: no call has begun to open the next gate.
    ensures shut { OnOk result (slots.new.journal.begun ≡ false) }
    // The journal's slot stays, and its front and the names.
    ensures same_slot { SameSlot slots.old.journal slots.new.journal }
    // A fault: the sealed bodies and the staged one stay.
    ensures bodies { OnErr result ((slots.new.journal.sealed ≡ slots.old.journal.sealed)
        × (slots.new.journal.staged ≡ slots.old.journal.staged)) }
    // A fault: the journal has failed, with the gate begun; the set that was kept is kept, and the
    // compaction stays.
    ensures broken { OnErr result ((slots.new.journal.phase ≡ Failed)
        × (slots.new.journal.begun ≡ true)
        × GoesOnKept D.Disk slots.old slots.new
        × SameCompaction slots.old slots.new) }
    // The other slot stays, and generation, version, step, and what is left of head and image.
    ensures beside { (slots.new.other ≡ slots.old.other)
        × (slots.new.generation ≡ slots.old.generation)
        × (slots.new.version ≡ slots.old.version) × (slots.new.step ≡ slots.old.step)
        × (slots.new.head ≡ slots.old.head) × (slots.new.left ≡ slots.old.left)
        × (slots.new.may_open ≡ slots.old.may_open) }
    // It makes one call of the disk, a sync.
    ensures call { MakesCall D.Disk Sync slots.old slots.new result }
{
    // What the slot's version may be is known only where it is asked.
    let _ = slots.version();
    let sealed = slots.sync_gate()?;
    grow(slots);
    Ok(sealed)
}

/// How far the batch on its way is, which says what a crash would leave now, and what a read gives.
pub fn phase<D: Disk>(slots: &Slots<D>) -> Phase
    ensures phase { result ≡ slots.now.journal.phase }
    // `begun` is false up to `BodySynced` and true at `GateOpened`; at `Failed` it is either.
    ensures begun { has_begun slots.now.journal.phase slots.now.journal.begun
        ≡ slots.now.journal.begun }
    // H: any crash state now stands for the kept set, or, with its gate begun, for what the batch
    // on its way makes of it; also where a call failed. From `Open` on this wants that the other
    // slot is to hold that set.
    ensures outcomes { LeavesNow D.Disk slots.now }
    // H: at `GateOpened`, until the tail is written, what is read stands for what the batch makes
    // of the set.
    ensures reads { IsEarly slots.now.step → ReadsNext D.Disk slots.now }
    // H: no compaction runs and no gate is begun: where the slot has no room for a batch, by its
    // bytes or by its version, nor has any crash state, and it is of the same generation.
    ensures full { IsFullNow D.Disk slots.now }
{
    let _ = slots.step();
    slots.journal().phase()
}
