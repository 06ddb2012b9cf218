//! The store's half of a plane where nobody seals, and who seals by it.

ghost use Rattle.std.specs.Prelude.{◌≡◌, ◌++◌, ◌∷◌, [], true, false, is_err, IfOk, IfErr};
ghost use Rattle.std.specs.Prelude.{IfNone, IfSome, OnOk};
ghost use Rattle.fp_edit.specs.Edits.{proposal_of};
ghost use Rattle.fp_committer.specs.StoreHalf.{StoreHalfState};
ghost use Rattle.fp_committer.specs.Course.{Course};
ghost use Rattle.fp_plane.specs.Flushing.{Flushes, IsResting, PaysEach, PaysFirst, StepsWhereDue};
ghost use Rattle.fp_hall.specs.Editors.{said_at};
ghost use Rattle.fp_hall.specs.Hall.{IsStoreOf};

use crate::flushing::{
    Broken, Flushed, Lull, UntoldFailure, flush_while_busy, submit_and_flush, take_step,
};
use crate::gathering::Gathering;
use crate::owned::OwnHalf;
use crate::plane::Plane;
use fp_committer::StoreHalf;
use fp_disk::Disk;
use fp_edit::Edit;
use fp_fronts::{Front, Growing, Lists};
use fp_hall::{AllSettled, Editor, Naming, PlaneTicket, Refusal};
use log::Log;
use std::marker::{Model, PhantomData};
use std::sync::Wait;
use std::time::Clock;

// A half, as the only element of a list.
struct OnlyHalf;

impl<D: Disk + Drop> Lists<OwnHalf<D>, OwnHalf<D>> for OnlyHalf {
    ghost items = { λ h. h ∷ [] };
}

/// The store's half of a plane where nobody seals. It lies under a lock of its own, and who takes that
/// lock seals: the flusher, or an editor that is alone.
pub(crate) struct Lying<K: Naming, D: Disk + Drop> {
    half: StoreHalf<D>,
    // That sealing broke off, which was told then.
    broken: Option<Broken>,
    gathering: Gathering,
    // Whether a step of a compaction is owed behind the last batch.
    owes_step: bool,
    // The half that the plane began with, as the one element of its list.
    began: Growing<OwnHalf<D>>,
    of: PhantomData<K>,
}

impl<K: Naming, D: Disk + Drop> Model for Lying<K, D> {
    ghost use Rattle.std.specs.Coded.{codes};
    ghost use Rattle.std.specs.Prelude.{◌≡◌, is_some};
    ghost use Rattle.fp_edit.specs.Flags.{coded_state};
    ghost use Rattle.fp_group_commit.specs.Changes.{coded_change};
    ghost use Rattle.fp_plane.specs.Lying.{IsLeft, LyingState};

    ghost Value = { LyingState D };

    ghost coded = { Prim.hlevel (codes, coded_state, coded_change) };

    ghost view = { λ l. record {
      half = l.half;
      broken = is_some l.broken;
      alone = l.gathering.alone;
      owes_step = l.owes_step;
    } };

    ghost invariant = { λ l. (l.began.name ≡ K.beginning)
        × IsLeft D.Disk K.store K.desk_lists K.store_lists l.half (is_some l.broken) l.began.log };
}

impl<K: Naming, D: Disk + Drop> Drop for Lying<K, D> {
    fn drop(self) {
        let Self {
            half,
            broken: _,
            gathering: _,
            owes_step: _,
            began: _began,
            of: _,
        } = self;
        drop(half.into_disk());
    }
}

impl<K: Naming, D: Disk + Drop> Lying<K, D> {
    /// The half as a plane begins with it. The front names it for good.
    pub fn new(half: OwnHalf<D>, began: Growing<OwnHalf<D>>) -> (Lying<K, D>, Front<OwnHalf<D>>)
        requires ours { IsStoreOf K.store K.desk_lists K.store_lists half }
        requires rest { IsResting half }
        requires named { began.name ≡ K.beginning }
        requires fresh { began.log ≡ [] }
        ensures lies { result.0
            ≡ record { half = half; broken = false; alone = true; owes_step = false } }
        ensures named { result.1.name ≡ K.beginning }
        ensures began { result.1.log ≡ half ∷ [] }
    {
        let mut began = began;
        let front = began.lengthen::<OwnHalf<D>, OnlyHalf>(&half);
        let half = half.into_half();
        half.rest();
        let lying = Lying {
            half,
            broken: None,
            gathering: Gathering::new(),
            owes_step: false,
            began,
            of: PhantomData,
        };
        (lying, front)
    }

    /// Hands an edit in, and seals it with all that waits, where whoever was told last was alone: behind
    /// the step that is owed. Where sealing broke off, or others are about, it is handed in for the
    /// flusher.
    pub fn lead<R>(
        &mut self,
        plane: &Plane<K, R>,
        edit: Edit,
        editor: &mut Editor,
    ) -> Result<PlaneTicket<K>, (Refusal, Edit)>
    where
        R: Wait + Clock + Log + Drop,
        ensures refused { IfErr result (λ e. e.0.edit ≡ proposal_of edit) }
        ensures ticket { IfOk result (λ t. (t.store ≡ K.store) × (t.edit ≡ proposal_of edit)) }
        ensures given_back { IfErr result (λ e. e.1 ≡ edit) }
        ensures said { editor.new ≡ editor.old ++ said_at result ∷ [] }
        ensures others { self.old.alone ≡ false → self.new ≡ self.old }
        ensures broken { self.old.broken ≡ true → self.new ≡ self.old }
        // The step that was owed is taken before it seals.
        ensures step { self.old.alone ≡ true → self.old.broken ≡ false → self.new.broken ≡ false
            → PaysFirst D.Disk self.old.owes_step self.old.half self.new.half }
        // An editor that handed its edit in owes a step, also where there was no memory to draw it.
        ensures owes { OnOk result (self.old.alone ≡ true → self.old.broken ≡ false
            → self.new.owes_step ≡ true) }
    {
        if self.broken.is_some() || !self.gathering.is_alone() {
            return plane.submit(edit, editor);
        }
        self.go_on(plane);
        let submitted = self.seal(plane, edit, editor);
        if submitted.is_ok() {
            self.owes_step = true;
        }
        submitted
    }

    // Hands an edit in, and seals it with all that waits. Where the step before it broke sealing off,
    // the hall is over, which refuses it.
    fn seal<R>(
        &mut self,
        plane: &Plane<K, R>,
        edit: Edit,
        editor: &mut Editor,
    ) -> Result<PlaneTicket<K>, (Refusal, Edit)>
    where
        R: Wait + Clock + Log + Drop,
        requires paid { self.old.owes_step ≡ false }
        ensures refused { IfErr result (λ e. e.0.edit ≡ proposal_of edit) }
        ensures ticket { IfOk result (λ t. (t.store ≡ K.store) × (t.edit ≡ proposal_of edit)) }
        ensures given_back { IfErr result (λ e. e.1 ≡ edit) }
        ensures said { editor.new ≡ editor.old ++ said_at result ∷ [] }
        ensures broken { self.old.broken ≡ true → self.new ≡ self.old }
        ensures course { self.old.broken ≡ false → Course D.Disk self.old.half self.new.half }
    {
        if self.broken.is_some() {
            return plane.submit(edit, editor);
        }
        let (submitted, ended) = submit_and_flush(
            plane,
            &mut self.half,
            &mut self.gathering,
            &mut self.owes_step,
            edit,
            editor,
        );
        match ended {
            Ok(()) => {}
            Err(UntoldFailure) => self.broken = Some(plane.break_off(&self.half)),
        }
        submitted
    }

    /// Takes the step of a compaction that an editor owes, where one is due.
    pub fn go_on<R>(&mut self, plane: &Plane<K, R>)
    where
        R: Wait + Clock + Log + Drop,
        ensures broken { self.old.broken ≡ true → self.new ≡ self.old }
        ensures rest { self.new.alone ≡ self.old.alone }
        // The step that is owed is taken where it is due, or taking it broke sealing off.
        ensures step { self.old.broken ≡ false → self.old.owes_step ≡ true
            → self.new.broken ≡ false
            → StepsWhereDue D.faults self.old.half.store self.new.half.store }
        // None is taken where none is owed.
        ensures no_step { self.old.owes_step ≡ false → self.new ≡ self.old }
        // None is owed then.
        ensures paid { self.old.broken ≡ false → self.new.owes_step ≡ false }
    {
        if self.broken.is_some() || !self.owes_step {
            return;
        }
        let stepped = take_step(&plane.shared.rt, &mut self.half, &mut self.owes_step);
        match stepped {
            Ok(()) => {}
            Err(UntoldFailure) => self.broken = Some(plane.break_off(&self.half)),
        }
    }

    /// Seals what waits, for as long as editors are about. `Some` where nothing is sealed any more:
    /// sealing broke off, or the plane is to stop, nothing waits and the hall was ended.
    pub fn flush<R>(&mut self, plane: &Plane<K, R>) -> Option<Result<AllSettled, Broken>>
    where
        R: Wait + Clock + Log + Drop,
        ensures over { IfSome result (λ ended. self.new.broken ≡ is_err ended) }
        ensures on { IfNone result ((self.new.broken ≡ false) × (self.new.alone ≡ true)) }
        // The step that was owed is taken first, and one at the end of each turn.
        ensures steps { self.old.broken ≡ false → self.new.broken ≡ false
            → PaysEach D.Disk self.old.owes_step self.old.half self.new.half }
        // No step is owed where it pauses.
        ensures paid { IfNone result (self.new.owes_step ≡ false) }
    {
        if let Some(broken) = self.broken {
            return Some(Err(broken));
        }
        let paused = flush_while_busy(
            plane,
            &mut self.half,
            &mut self.gathering,
            &mut self.owes_step,
        );
        match paused {
            Ok(Lull::Alone) => None,
            Ok(Lull::Over(settled)) => Some(Ok(settled)),
            Err(UntoldFailure) => {
                let broken = plane.break_off(&self.half);
                self.broken = Some(broken);
                Some(Err(broken))
            }
        }
    }

    /// Gives the half back, which came from the one that the front names, and how it ended: well
    /// only where the hall was ended.
    pub fn into_flushed(
        self,
        began: &Front<OwnHalf<D>>,
        ended: Result<AllSettled, Broken>,
    ) -> Flushed<D>
        requires named { began.now.name ≡ K.beginning }
        requires ended { self.broken ≡ is_err ended }
        ensures { (first : StoreHalfState D) → began.now.log ≡ first ∷ [] →
            Flushes D.Disk first result.half result.ended }
    {
        self.began.confirm(began);
        let Self {
            half,
            broken: _,
            gathering: _,
            owes_step: _,
            began: _began,
            of: _,
        } = self;
        Flushed {
            half: OwnHalf::new(half),
            ended,
        }
    }
}
