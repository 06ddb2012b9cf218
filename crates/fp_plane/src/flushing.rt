//! Who seals draws and settles under the plane's lock, and calls the disk without it.
//!
//! Behind each batch a step of a compaction is owed: who draws one owes it, and nobody draws while
//! one is owed.

ghost use Rattle.std.specs.Prelude.{◌≡◌, ◌⊎◌, ◌<◌, ◌≤◌, ◌++◌, ◌∷◌, [], true, false, IfErr, IfOk, OnErr};
ghost use Rattle.std.specs.Prelude.{OnOk};
ghost use Rattle.fp_edit.specs.Edits.{proposal_of};
ghost use Rattle.fp_committer.specs.Course.{Course};
ghost use Rattle.fp_committer.specs.StoreHalf.{StoreHalfState};
ghost use Rattle.fp_committer.specs.Way.{batch_drawn, batch_sealed};
ghost use Rattle.fp_group_commit.specs.Tokens.{front_revision};
ghost use Rattle.fp_plane.specs.Flushing.{Flushes, HasBroken, IsResting, PaysEach};
ghost use Rattle.fp_plane.specs.Flushing.{StepsWhereDue};
ghost use Rattle.fp_hall.specs.Editors.{said_at};
ghost use Rattle.fp_hall.specs.Hall.{IsStoreOf, SealsNoMore, settled_by};
ghost use Rattle.fp_plane.specs.declared.flushing.Lull.TheVariants.{Alone};

use crate::gathering::{Gathering, Sealing};
use crate::owned::OwnHalf;
use crate::pausing::Retries;
use crate::plane::Plane;
use crate::sealing::SealingPlane;
use crate::telling::Seen;
use fp_committer::{CommitFault, StoreHalf};
use fp_disk::Disk;
use fp_edit::Edit;
use fp_fronts::Front;
use fp_hall::{AllSettled, Editor, Hall, Naming, PlaneTicket, Refusal};
use fp_log::{Event, tell};
use fp_publish::Shown;
use log::Log;
use std::sync::{MutexGuard, Wait};
use std::time::Clock;

/// That sealing broke off, and the hall and all who wait were told: the device failed, or there is no
/// room for what was drawn and no generation to make it. `Plane::break_off` makes one, and nothing else
/// does.
#[derive(Debug, Drop, Clone, Copy)]
pub struct Broken {
    of: (),
}

/// That sealing failed, for one of these two reasons, and the hall isn't told yet.
#[derive(Debug, Drop, Clone, Copy)]
pub(crate) struct UntoldFailure;

/// What a flusher gives back: the store's half, and that all that was taken is settled, or that
/// sealing broke off.
#[derive(Drop)]
pub struct Flushed<D: Disk + Drop> {
    pub half: OwnHalf<D>,
    pub ended: Result<AllSettled, Broken>,
}

/// Why a flusher lets the store's half lie: whoever was told last was alone, or the hall was ended,
/// since the plane is to stop and nothing waits.
#[derive(Drop)]
pub(crate) enum Lull {
    Alone,
    Over(AllSettled),
}

/// Seals what is handed in and no editor seals itself, batch after batch, settles and shows it,
/// and tells all who wait, until the plane is to stop and nothing waits, or sealing broke off:
/// its own or an editor's. Then it gives the half back.
///
/// Want of memory is tried again. Compactions and a failure are told to who asked for it, once
/// those who wait for the batch were told.
pub fn flusher<K, D, R>(plane: &SealingPlane<K, D, R>, began: Front<OwnHalf<D>>) -> Flushed<D>
where
    K: Naming,
    D: Disk + Drop,
    R: Wait + Clock + Log + Drop,
    // The front has the name that `K` gives to the plane's beginning.
    requires { began.name ≡ K.beginning }
    // From the half that the front lists to the one that comes back, whoever sealed: one record,
    // `Flushes`.
    ensures { (first : StoreHalfState D) → began.log ≡ first ∷ [] →
        Flushes D.Disk first result.half result.ended }
{
    let flushed = plane.flush_all(&began);
    plane.plane().tell_all();
    if flushed.ended.is_err() {
        let revision = flushed.half.revision();
        tell(&plane.plane().shared.rt, &Event::StoreFailed { revision });
    }
    flushed
}

/// Takes the step that is owed. Then it seals, settles and shows all that is drawn, and takes the step
/// behind each batch, until whoever was told last was alone, or the plane is to stop and nothing waits.
pub(crate) fn flush_while_busy<K, D, R>(
    plane: &Plane<K, R>,
    half: &mut StoreHalf<D>,
    gathering: &mut Gathering,
    owes_step: &mut bool,
) -> Result<Lull, UntoldFailure>
where
    K: Naming,
    D: Disk,
    R: Wait + Clock + Log + Drop,
    requires ours { IsStoreOf K.store K.desk_lists K.store_lists half.old }
    requires rest { IsResting half.old }
    ensures course { Course D.Disk half.old half.new }
    ensures rest { OnOk result (IsResting half.new) }
    ensures no_failure { OnOk result
        (D.faults half.new.store.disk ≡ D.faults half.old.store.disk) }
    ensures cause { OnErr result
        (HasBroken D.Disk half.old.store.disk half.new.store.disk half.new) }
    ensures broken { OnErr result (SealsNoMore D.Disk half.new) }
    ensures alone { IfOk result (λ p. p ≡ Alone → gathering.new.alone ≡ true) }
    // The step that is owed is taken first, and one at the end of each turn.
    ensures steps { OnOk result (PaysEach D.Disk owes_step.old half.old half.new) }
    ensures paid { OnOk result (owes_step.new ≡ false) }
{
    take_step(&plane.shared.rt, half, owes_step)?;
    for _ in plane.shared.rt.forever() {
        plane.gather(gathering);
        match plane.draw(half, owes_step) {
            Ok(()) => {}
            Err(settled) => return Ok(Lull::Over(settled)),
        }
        flush(plane, half, gathering)?;
        take_step(&plane.shared.rt, half, owes_step)?;
        if gathering.is_alone() {
            return Ok(Lull::Alone);
        }
    }
    unreachable!()
}

/// Hands an edit in, and seals it with all that waits, settles and shows it. A step is owed then.
pub(crate) fn submit_and_flush<K, D, R>(
    plane: &Plane<K, R>,
    half: &mut StoreHalf<D>,
    gathering: &mut Gathering,
    owes_step: &mut bool,
    edit: Edit,
    editor: &mut Editor,
) -> (
    Result<PlaneTicket<K>, (Refusal, Edit)>,
    Result<(), UntoldFailure>,
)
where
    K: Naming,
    D: Disk,
    R: Wait + Clock + Log + Drop,
    requires ours { IsStoreOf K.store K.desk_lists K.store_lists half.old }
    requires rest { IsResting half.old }
    requires paid { owes_step.old ≡ false }
    ensures refused { IfErr result.0 (λ e. e.0.edit ≡ proposal_of edit) }
    ensures ticket { IfOk result.0 (λ t. (t.store ≡ K.store) × (t.edit ≡ proposal_of edit)) }
    ensures given_back { IfErr result.0 (λ e. e.1 ≡ edit) }
    ensures said { editor.new ≡ editor.old ++ said_at result.0 ∷ [] }
    ensures course { Course D.Disk half.old half.new }
    ensures rest { OnOk result.1 (IsResting half.new) }
    ensures no_failure { OnOk result.1
        (D.faults half.new.store.disk ≡ D.faults half.old.store.disk) }
    ensures cause { OnErr result.1
        (HasBroken D.Disk half.old.store.disk half.new.store.disk half.new) }
    ensures broken { OnErr result.1 (SealsNoMore D.Disk half.new) }
    // Nothing is drawn without a step that is owed behind it.
    ensures owes { owes_step.new ≡ false → half.new ≡ half.old }
{
    let (submitted, drawn) = plane.submit_and_draw(edit, editor, half, owes_step);
    if !drawn {
        return (submitted, Ok(()));
    }
    match flush(plane, half, gathering) {
        Ok(_shown) => (submitted, Ok(())),
        Err(failure) => (submitted, Err(failure)),
    }
}

// Seals, settles and shows what is drawn, and gives what is shown.
fn flush<K, D, R>(
    plane: &Plane<K, R>,
    half: &mut StoreHalf<D>,
    gathering: &mut Gathering,
) -> Result<Shown, UntoldFailure>
where
    K: Naming,
    D: Disk,
    R: Wait + Clock + Log + Drop,
    requires ours { IsStoreOf K.store K.desk_lists K.store_lists half.old }
    requires drawn { half.old.progress ≡ batch_drawn }
    requires well { half.old.store.failed ≡ false }
    ensures course { Course D.Disk half.old half.new }
    ensures rest { OnOk result (IsResting half.new) }
    // `Ok`: what is settled is shown.
    ensures shown { IfOk result (λ s. settled_by half.new ≤ front_revision s) }
    ensures no_failure { OnOk result
        (D.faults half.new.store.disk ≡ D.faults half.old.store.disk) }
    ensures cause { OnErr result
        (HasBroken D.Disk half.old.store.disk half.new.store.disk half.new) }
    ensures broken { OnErr result (SealsNoMore D.Disk half.new) }
{
    let before = Seen::of(half.store());
    let sealing = Sealing::begin(&plane.shared.rt, half.store());
    seal(&plane.shared.rt, half)?;
    let told = sealing.edits(half.store());
    let taken = sealing.taken(&plane.shared.rt);
    let (waiting, shown) = plane.settle(half);
    gathering.note_told(told, waiting, taken);
    before.tell_since(&plane.shared.rt, half.store());
    Ok(shown)
}

// Seals what is drawn. Where memory is wanting it is tried again.
fn seal<D: Disk, R: Wait + Clock + Log>(
    rt: &R,
    half: &mut StoreHalf<D>,
) -> Result<(), UntoldFailure>
    requires drawn { half.old.progress ≡ batch_drawn }
    requires well { half.old.store.failed ≡ false }
    ensures course { Course D.Disk half.old half.new }
    ensures sealed { OnOk result ((half.new.progress ≡ batch_sealed)
        × (half.new.store.failed ≡ false)) }
    ensures no_failure { OnOk result
        (D.faults half.new.store.disk ≡ D.faults half.old.store.disk) }
    ensures cause { OnErr result
        (HasBroken D.Disk half.old.store.disk half.new.store.disk half.new) }
    ensures broken { OnErr result (SealsNoMore D.Disk half.new) }
{
    let mut retries = Retries::of("batch");
    for _ in rt.forever() {
        match half.seal() {
            Ok(()) => return Ok(()),
            Err(CommitFault::Memory) => retries.pause(rt),
            Err(CommitFault::StoreFailed) => return Err(UntoldFailure),
        }
    }
    unreachable!()
}

/// Takes the step of a compaction that is owed, where one is due, and tells what began or ended by it.
pub(crate) fn take_step<D, R>(
    rt: &R,
    half: &mut StoreHalf<D>,
    owes_step: &mut bool,
) -> Result<(), UntoldFailure>
where
    D: Disk,
    R: Log,
    requires rest { IsResting half.old }
    ensures course { Course D.Disk half.old half.new }
    ensures rest { OnOk result (IsResting half.new) }
    ensures no_failure { OnOk result
        (D.faults half.new.store.disk ≡ D.faults half.old.store.disk) }
    ensures cause { OnErr result (D.faults half.old.store.disk < D.faults half.new.store.disk) }
    ensures broken { OnErr result (half.new.store.failed ≡ true) }
    // The step that is owed is taken where it is due,
    ensures step { OnOk result (owes_step.old ≡ true
        → StepsWhereDue D.faults half.old.store half.new.store) }
    // and none where none is owed.
    ensures no_step { owes_step.old ≡ false → half.new ≡ half.old }
    // None is owed then.
    ensures paid { owes_step.new ≡ false }
{
    if !*owes_step {
        return Ok(());
    }
    *owes_step = false;
    let before = Seen::of(half.store());
    compact_on(half)?;
    before.tell_since(rt, half.store());
    Ok(())
}

// Takes a step of a compaction, where one is due. Where memory is wanting for it, none is taken.
fn compact_on<D: Disk>(half: &mut StoreHalf<D>) -> Result<(), UntoldFailure>
    requires rest { IsResting half.old }
    ensures course { Course D.Disk half.old half.new }
    ensures rest { OnOk result (IsResting half.new) }
    ensures no_failure { OnOk result
        (D.faults half.new.store.disk ≡ D.faults half.old.store.disk) }
    ensures cause { OnErr result (D.faults half.old.store.disk < D.faults half.new.store.disk) }
    ensures broken { OnErr result (half.new.store.failed ≡ true) }
    ensures step { OnOk result (StepsWhereDue D.faults half.old.store half.new.store) }
{
    match half.go_on() {
        Ok(()) => Ok(()),
        Err(CommitFault::Memory) => Ok(()),
        Err(CommitFault::StoreFailed) => Err(UntoldFailure),
    }
}

impl<K: Naming, R: Wait + Clock + Log + Drop> Plane<K, R> {
    /// Wakes all who wait for what is sealed.
    pub(crate) fn tell_all(&self) {
        self.shared.bells.ring_all();
        self.shared.news.notify_all();
    }

    /// No batch is drawn any more, since this half seals nothing any more. Wakes all who wait, and the
    /// flusher: that wants the lock of a hall that sealing broke off.
    pub(crate) fn break_off<D: Disk>(&self, half: &StoreHalf<D>) -> Broken
        requires ours { IsStoreOf K.store K.desk_lists K.store_lists half.now }
        requires cause { SealsNoMore D.Disk half.now }
    {
        self.tell_broken(self.broken(half))
    }

    // The lock, under which the hall is told that sealing broke off.
    fn broken<D: Disk>(&self, half: &StoreHalf<D>) -> MutexGuard<'_, Hall<K, R>>
        requires ours { IsStoreOf K.store K.desk_lists K.store_lists half.now }
        requires cause { SealsNoMore D.Disk half.now }
        ensures failed { result.value.failed ≡ true }
        ensures ended { result.value.ended ≡ true }
    {
        let mut hall = self.shared.hall.lock(&self.shared.rt);
        hall.break_off(half);
        hall
    }

    // Lets go of the lock of a hall that was told, and wakes all who wait, and the flusher.
    fn tell_broken(&self, hall: MutexGuard<'_, Hall<K, R>>) -> Broken
        requires failed { hall.value.failed ≡ true }
        requires ended { hall.value.ended ≡ true }
    {
        drop(hall);
        self.tell_all();
        self.shared.work.notify_all();
        Broken { of: () }
    }
}
