//! What whoever seals does under the hall's lock: to wait for edits, draw them, settle and show what
//! is sealed.

ghost use Rattle.std.specs.Prelude.{◌≡◌, ◌≤◌, ◌++◌, ◌∷◌, [], true, false, IfErr, IfOk, OnErr, OnOk};
ghost use Rattle.std.specs.Prelude.{is_ok};
ghost use Rattle.fp_edit.specs.Edits.{proposal_of};
ghost use Rattle.fp_committer.specs.Course.{ListsOn};
ghost use Rattle.fp_committer.specs.Way.{batch_drawn, batch_sealed, nothing_drawn};
ghost use Rattle.fp_group_commit.specs.Tokens.{front_revision};
ghost use Rattle.fp_hall.specs.Editors.{said_at};
ghost use Rattle.fp_hall.specs.Hall.{IsStoreOf, settled_by};

use crate::pausing::Retries;
use crate::plane::Plane;
use fp_committer::StoreHalf;
use fp_disk::Disk;
use fp_edit::Edit;
use fp_group_commit::Told;
use fp_hall::{AllSettled, Editor, Naming, PlaneTicket, Refusal};
use fp_publish::Shown;
use log::Log;
use std::sync::Wait;
use std::time::Clock;

impl<K: Naming, R: Wait + Clock + Log + Drop> Plane<K, R> {
    /// Waits until an edit waits, the plane is to stop, or sealing broke off.
    pub(crate) fn await_work(&self) {
        let shared = &self.shared;
        let mut hall = shared.hall.lock(&shared.rt);
        for _ in shared.rt.forever() {
            if hall.waiting_count() > 0 || hall.is_closing() || hall.is_over() {
                return;
            }
            hall = shared.work.wait(&shared.rt, hall);
        }
        unreachable!()
    }

    // Waits until edits wait, and draws them. `Err` where the plane is to stop and none does: the
    // hall was ended under the same lock, and no batch is drawn any more.
    pub(crate) fn draw<D: Disk>(
        &self,
        half: &mut StoreHalf<D>,
        owes_step: &mut bool,
    ) -> Result<(), AllSettled>
        requires ours { IsStoreOf K.store K.desk_lists K.store_lists half.old }
        requires none { half.old.progress ≡ nothing_drawn }
        // Nobody draws while a step is owed,
        requires paid { owes_step.old ≡ false }
        // `Ok`: a batch is drawn, and a crash keeps what is settled.
        ensures drawn { OnOk result ((half.new.progress ≡ batch_drawn)
            × ListsOn D.Disk half.old half.new) }
        // `Err`: nothing changed.
        ensures none { OnErr result (half.new ≡ half.old) }
        // and who draws owes one.
        ensures owes { owes_step.new ≡ is_ok result }
    {
        let shared = &self.shared;
        half.rest();
        let mut hall = shared.hall.lock(&shared.rt);
        let mut retries = Retries::of("batch");
        for _ in shared.rt.forever() {
            match hall.draw(half) {
                Ok(Some(_)) => {
                    *owes_step = true;
                    shared.note_waiting(&hall);
                    half.rest();
                    return Ok(());
                }
                Ok(None) if hall.is_closing() => return Err(hall.end()),
                Ok(None) => hall = shared.work.wait(&shared.rt, hall),
                Err(_) => {
                    drop(hall);
                    retries.pause(&shared.rt);
                    hall = shared.hall.lock(&shared.rt);
                }
            }
        }
        unreachable!()
    }

    // Hands an edit in, and draws it with all that waits. Where memory is wanting for the draw, the
    // flusher is woken, which tries again.
    pub(crate) fn submit_and_draw<D: Disk>(
        &self,
        edit: Edit,
        editor: &mut Editor,
        half: &mut StoreHalf<D>,
        owes_step: &mut bool,
    ) -> (Result<PlaneTicket<K>, (Refusal, Edit)>, bool)
        requires ours { IsStoreOf K.store K.desk_lists K.store_lists half.old }
        requires none { half.old.progress ≡ nothing_drawn }
        requires paid { owes_step.old ≡ false }
        ensures refused { IfErr result.0 (λ e. e.0.edit ≡ proposal_of edit) }
        ensures ticket { IfOk result.0 (λ t. (t.store ≡ K.store) × (t.edit ≡ proposal_of edit)) }
        ensures given_back { IfErr result.0 (λ e. e.1 ≡ edit) }
        ensures said { editor.new ≡ editor.old ++ said_at result.0 ∷ [] }
        ensures drawn { result.1 ≡ true → (half.new.progress ≡ batch_drawn)
            × ListsOn D.Disk half.old half.new }
        ensures none { result.1 ≡ false → half.new ≡ half.old }
        ensures owes { owes_step.new ≡ result.1 }
    {
        let shared = &self.shared;
        half.rest();
        let mut hall = shared.hall.lock(&shared.rt);
        let ticket = match hall.submit(edit, editor) {
            Ok(ticket) => ticket,
            Err(refused) => return (Err(refused), false),
        };
        if let Ok(Some(_)) = hall.draw(half) {
            *owes_step = true;
            shared.note_waiting(&hall);
            half.rest();
            return (Ok(ticket), true);
        }
        shared.note_waiting(&hall);
        drop(hall);
        shared.work.notify_one();
        (Ok(ticket), false)
    }

    // Settles what is sealed, shows it and tells those whose edits it has, and the subscribers.
    // Answers how many edits waited then, and what is shown.
    pub(crate) fn settle<D: Disk>(&self, half: &mut StoreHalf<D>) -> (usize, Shown)
        requires ours { IsStoreOf K.store K.desk_lists K.store_lists half.old }
        requires sealed { half.old.progress ≡ batch_sealed }
        // What was sealed is settled, and a crash keeps it from then on.
        ensures settled { ListsOn D.Disk half.old half.new }
        // Nothing is drawn any more.
        ensures none { half.new.progress ≡ nothing_drawn }
        // What is settled is shown.
        ensures shown { settled_by half.new ≤ front_revision result.1 }
    {
        let shared = &self.shared;
        shared.evaluations.await_earlier(&shared.rt);
        let mut retries = Retries::of("settling");
        for _ in shared.rt.forever() {
            let mut hall = shared.hall.lock(&shared.rt);
            let before = hall.settled_revision();
            if hall.settle(half).is_ok() {
                let told = hall.told();
                let published = hall.publish();
                shared.evaluations.turn_if(published.is_ok());
                let waiting = hall.waiting_count();

                // Who is woken wants the lock.
                drop(hall);
                half.rest();
                let (behind, shown) = match published {
                    Ok(shown) => (before, shown),
                    // Who looked meanwhile found that not all that is settled is shown, and sleeps, be
                    // its own edit of an earlier batch.
                    Err(_) => (0, self.publish(&told)),
                };
                self.tell(behind, &shown);
                return (waiting, shown);
            }
            drop(hall);
            retries.pause(&shared.rt);
        }
        unreachable!()
    }

    // Wakes the editors of the revisions behind one, up to the last that is shown, and the
    // subscribers.
    fn tell(&self, behind: u64, shown: &Shown) {
        self.shared.bells.ring(behind, shown.revision());
        self.shared.news.notify_all();
    }

    // Shows what is settled, as soon as there is memory for it: at least what was told.
    fn publish(&self, told: &Told) -> Shown
        requires ours { told.now.store ≡ K.store }
        ensures shown { front_revision told.now ≤ front_revision result }
    {
        let shared = &self.shared;
        let mut retries = Retries::of("publication");
        for _ in shared.rt.forever() {
            retries.pause(&shared.rt);
            let mut hall = shared.hall.lock(&shared.rt);

            // Where memory is wanting still, what is shown is behind what was told.
            let published = hall.publish();
            shared.evaluations.turn_if(published.is_ok());
            if let Some(shown) = hall.shown(told) {
                return shown;
            }
        }
        unreachable!()
    }
}
