//! A plane, and the place where its store's half lies.
//!
//! Who seals: an editor tries the half's lock. Where it gets it, and whoever was told last was
//! alone (its batch had one edit, and nobody waited behind it), it takes the step of a compaction
//! that is owed behind that batch, hands its edit in and draws it under one lock of the hall,
//! seals, settles and shows it, and lets the half's lock go: the flusher isn't woken. Else it
//! hands the edit in and wakes the flusher, which takes the half's lock and keeps it, also while it
//! sleeps, until it has sealed one edit alone and nobody waits. So many editors have one that
//! gathers for all, and one editor has no hand-over.
//!
//! Why no wake is lost: each edit that its editor doesn't draw itself is handed in before the
//! flusher is woken, and the flusher sleeps under the hall's lock only where no edit waits, the
//! plane isn't to stop and sealing didn't break off. It may have to wait for the half's lock
//! then, which whoever seals lets go of. Whoever breaks off says so to the hall before it lets
//! the half's lock go: so the flusher, which is woken, finds that it is over, and ends. At its
//! end it takes the half out of its place under the lock under which it ended the hall: an editor
//! that comes later finds none, and a hall that takes no edit.
//!
//! An editor sleeps, under the hall's lock, where its edit isn't settled or not all that is settled
//! is shown. Both are so at once but where memory is wanting to show it: then all up to what is
//! shown at last are woken, and not the editors of that batch alone (`Plane::settle`).

ghost use Rattle.std.specs.Prelude.{◌≡◌, ◌++◌, ◌∷◌, [], is_err, IfOk, IfErr, IfSome};
ghost use Rattle.fp_committer.specs.StoreHalf.{StoreHalfState};
ghost use Rattle.fp_edit.specs.Edits.{proposal_of};
ghost use Rattle.fp_plane.specs.Flushing.{Flushes, IsResting};
ghost use Rattle.fp_hall.specs.Editors.{said_at};
ghost use Rattle.fp_hall.specs.Hall.{IsStoreOf};

use crate::flushing::{Broken, Flushed};
use crate::leading::Lying;
use crate::owned::OwnHalf;
use crate::pausing::pause;
use crate::plane::Plane;
use fp_disk::Disk;
use fp_edit::Edit;
use fp_fronts::{Front, Growing};
use fp_hall::{AllSettled, Editor, Naming, PlaneTicket, Refusal};
use log::Log;
use std::alloc::{AllocError, Global};
use std::sync::{Arc, Mutex, Wait};
use std::time::Clock;

/// A handle of a plane and of the place where its store's half lies, under a lock of its own: whoever
/// has that lock seals, and nobody else can. The hall's lock is taken under it, and never before it.
#[derive(Drop)]
pub struct SealingPlane<K: Naming, D: Disk + Drop, R: Wait + Drop> {
    plane: Plane<K, R>,
    place: Arc<Mutex<Option<Lying<K, D>>>, Global>,
}

impl<K: Naming, D: Disk + Drop, R: Wait + Drop> SealingPlane<K, D, R> {
    /// Over a plane, for one store's half, which isn't there yet.
    pub fn new(alloc: Global, plane: Plane<K, R>) -> Result<SealingPlane<K, D, R>, AllocError> {
        let place = Arc::new(alloc, Mutex::new(None))?;
        Ok(SealingPlane { plane, place })
    }

    /// One handle more.
    pub fn try_copy(&self) -> Result<SealingPlane<K, D, R>, AllocError> {
        Ok(SealingPlane {
            plane: self.plane.try_copy()?,
            place: Arc::try_clone(&self.place)?,
        })
    }

    /// The plane, for those who don't hand edits in.
    pub fn plane(&self) -> &Plane<K, R> {
        &self.plane
    }

    /// Puts the half in its place, as the flusher is begun. The front names it for good.
    pub fn begin(&self, half: OwnHalf<D>, began: Growing<OwnHalf<D>>) -> Front<OwnHalf<D>>
        // The half is the store's of the committer that `K` names.
        requires ours { IsStoreOf K.store K.desk_lists K.store_lists half }
        // Nothing of it is drawn, and no call of the disk has failed.
        requires rest { IsResting half }
        // The list has the name that `K` gives to the plane's beginning.
        requires named { began.name ≡ K.beginning }
        // The list is empty.
        requires fresh { began.log ≡ [] }
        // The front has that name.
        ensures named { result.name ≡ K.beginning }
        // It lists this half alone.
        ensures began { result.log ≡ half ∷ [] }
    {
        let (lying, front) = Lying::new(half, began);
        let mut place = self.place.lock(&self.plane.shared.rt);
        *place = Some(lying);
        front
    }
}

impl<K: Naming, D: Disk + Drop, R: Wait + Clock + Log + Drop> SealingPlane<K, D, R> {
    // Hands an edit in, as `Plane::submit` does. An editor that is alone seals it too; else the
    // flusher does, which is woken behind that.
    pub(crate) fn submit(
        &self,
        edit: Edit,
        editor: &mut Editor,
    ) -> Result<PlaneTicket<K>, (Refusal, Edit)>
        ensures refused { IfErr result (λ e. e.0.edit ≡ proposal_of edit) }
        ensures ticket { IfOk result (λ t. (t.store ≡ K.store) × (t.edit ≡ proposal_of edit)) }
        ensures given_back { IfErr result (λ e. e.1 ≡ edit) }
        ensures said { editor.new ≡ editor.old ++ said_at result ∷ [] }
    {
        if let Some(mut place) = self.place.try_lock() {
            if let Some(lying) = &mut *place {
                return lying.lead(&self.plane, edit, editor);
            }
        }
        self.plane.submit(edit, editor)
    }

    // Takes the step of a compaction that an editor owes behind the batch that it sealed.
    pub(crate) fn go_on(&self) {
        if let Some(mut place) = self.place.try_lock() {
            if let Some(lying) = &mut *place {
                lying.go_on(&self.plane);
            }
        }
    }

    /// Seals what waits and no editor seals, until the plane is to stop and nothing waits, or sealing
    /// broke off. Then it takes the half out of its place, for good.
    pub(crate) fn flush_all(&self, began: &Front<OwnHalf<D>>) -> Flushed<D>
        requires { began.now.name ≡ K.beginning }
        ensures { (first : StoreHalfState D) → began.now.log ≡ first ∷ [] →
            Flushes D.Disk first result.half result.ended }
    {
        for _ in self.plane.shared.rt.forever() {
            // It looks under the hall's lock, so what was handed in since it let the place go is seen.
            self.plane.await_work();
            if let Some((lying, ended)) = self.flush() {
                return lying.into_flushed(began, ended);
            }
        }
        unreachable!()
    }

    // Seals what waits. Where nothing is sealed any more it takes the half out of its place, under the
    // same lock: who comes later finds none, and its edit is refused.
    fn flush(&self) -> Option<(Lying<K, D>, Result<AllSettled, Broken>)>
        ensures { IfSome result (λ p. p.0.broken ≡ is_err p.1) }
    {
        let rt = &self.plane.shared.rt;
        let mut place = self.place.lock(rt);
        let Some(lying) = &mut *place else {
            pause(rt);
            return None;
        };
        let ended = lying.flush(&self.plane)?;
        Some((place.take()?, ended))
    }
}
