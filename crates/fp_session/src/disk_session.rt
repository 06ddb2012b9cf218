//! Edits that go to a disk, by the halves of a committer.

ghost use Rattle.std.specs.Prelude.{◌≡◌, ◌<◌, [], ◌∷◌, false, IfOk, IfErr, MatchResult};
ghost use Rattle.std.specs.Prelude.{◌≢◌, true};
ghost use Rattle.fp_disk.specs.Crashes.{EachCrash, SameHonesty};
ghost use Rattle.fp_disk.specs.Outcomes.{IsOutcome, LeavesOnly};
ghost use Rattle.fp_disk.specs.declared.history.CallKind.TheVariants.{Length, Sync};
ghost use Rattle.fp_edit.specs.Flags.{State};
ghost use Rattle.fp_journal.specs.Pieces.{ThenReads, ThenSomeReads};
ghost use Rattle.fp_layout.specs.declared.fault.OpenFault.TheVariants as opening;
ghost use Rattle.fp_recovery.specs.Refusals.{IsUnlessWanting, RefusesBytes};
ghost use Rattle.fp_recovery.specs.Stands.{StandsFor};
ghost use Rattle.fp_slots.specs.declared.slots.Step.TheVariants.{Begin};
ghost use Rattle.fp_group_commit.specs.Store.{IsFresh};
ghost use Rattle.fp_desk.specs.Desk.{settled_revision};
ghost use Rattle.fp_committer.specs.Kept.{IsAfterFirst};
ghost use Rattle.fp_session.specs.Session.{Begins, Fails, HasPlace, IsInStep, IsReady, Keeps, LeavesFlags};
ghost use Rattle.fp_session.specs.Session.{StandsAhead, Steps, disk_of, flags_of};
ghost use Rattle.fp_session.specs.SessionLaws.{flags_as, flags_on, keeps_itself, keeps_on};

use crate::commit::commit_all;
use crate::{CommitFault, EditStore};
use fp_committer::{DeskHalf, StoreHalf};
use fp_desk::SubmitFault;
use fp_disk::Disk;
use fp_edit::{Edit, EditFault, FlagSet};
use fp_group_commit::{Opening, Store};
use fp_layout::OpenFault;
use std::alloc::Global;
use std::marker::Model;

/// A set of flags, and the disk that keeps it: edits wait at a desk, and `commit` seals and
/// settles them in batches. Where a slot runs short a compaction goes on beside them, a step
/// at the beginning and behind each batch, and further ones where a batch has no room.
///
/// It isn't `Drop`, so that the disk comes back by `into_disk`.
pub struct DiskSession<D: Disk> {
    store: StoreHalf<D>,
    desk: DeskHalf,
    // Edits weren't kept. No other is taken then.
    is_stopped: bool,
    // Nothing was done yet, or a batch was sealed since a step was taken.
    is_due: bool,
}

impl<D: Disk> Model for DiskSession<D> {
    ghost use Rattle.std.specs.Coded.{codes};
    ghost use Rattle.std.specs.Prelude.{◌≡◌, false};
    ghost use Rattle.fp_edit.specs.Flags.{coded_state};
    ghost use Rattle.fp_group_commit.specs.Changes.{coded_change};
    ghost use Rattle.fp_session.specs.Session.{AreAtRest, AreOne, SessionState};

    ghost Value = { SessionState D };

    ghost coded = { Prim.hlevel (codes, coded_state, coded_change) };

    ghost view = { λ s. record {
      half = s.store;
      desk = s.desk.desk;
      stopped = s.is_stopped;
      owes = s.is_due;
    } };

    ghost invariant = { λ s. AreOne s.desk s.store
        × (s.is_stopped ≡ false → AreAtRest s.desk s.store) };
}

impl<D: Disk> DiskSession<D> {
    /// A session over a store as it was made or opened. It takes memory for a copy of the set.
    pub fn new(alloc: Global, store: Store<D>, opening: Opening) -> Result<DiskSession<D>, Store<D>>
        // The opening is this store's.
        requires opening { opening ≡ store.store }
        // Nothing is sealed since, nothing is on its way, and no compaction runs.
        requires fresh { IsFresh store store.store.start }
        // `Ok`: it is over this store and takes edits. H: every crash state stands for what is
        // sealed.
        ensures made { IfOk result (λ s. (s.half.store ≡ store) × IsReady D.Disk s) }
        // `Ok`: no compaction runs.
        ensures rests { IfOk result (λ s. s.half.store.compaction.next ≡ Begin) }
        // `Ok`: a step is owed.
        ensures owes { IfOk result (λ s. s.owes ≡ true) }
        // `Ok`: nothing was drawn before, and its flags are those that its store begins with.
        ensures begins { IfOk result (Begins D.Disk) }
        // `Ok`: nothing waits, so that no flags may stand but its own.
        ensures kept { IfOk result (λ s. (flags : State)
            → IsAfterFirst s.desk (settled_revision s.desk) flags → flags ≡ flags_of s) }
        // `Ok`: its flags are the store's.
        ensures flags { IfOk result (λ s. flags_of s ≡ store.store.start) }
        // `Err`: the store comes back as it was.
        ensures given_back { IfErr result (λ e. e ≡ store) }
    {
        match DeskHalf::pair(alloc, store, opening) {
            Ok((desk, store)) => {
                // What a crash leaves is known only where it is asked.
                store.rest();
                Ok(DiskSession {
                    store,
                    desk,
                    is_stopped: false,
                    is_due: true,
                })
            }
            Err((_, store, _)) => Err(store),
        }
    }

    /// A session over what a disk stands for. It syncs before it reads, and writes nothing.
    pub fn open(alloc: Global, disk: D) -> Result<DiskSession<D>, (OpenFault, D)>
        // H: at `Ok` the bytes stand for its flags.
        ensures stands { D.honest disk → IfOk result (λ s. StandsFor (D.bytes disk) (flags_of s)) }
        // H: at `Ok` the bytes stand for no other flags.
        ensures only { D.honest disk → IfOk result (λ s. (other : State) →
            StandsFor (D.bytes disk) other → other ≡ flags_of s) }
        // `Ok`: it takes edits, and no batch is on its way. H: every crash state stands for what is
        // sealed.
        ensures ready { IfOk result (λ s. IsReady D.Disk s) }
        // `Ok`: no compaction runs.
        ensures rests { IfOk result (λ s. s.half.store.compaction.next ≡ Begin) }
        // `Ok`: a step is owed.
        ensures owes { IfOk result (λ s. s.owes ≡ true) }
        // `Ok`: nothing was drawn before, and its flags are those that its store begins with.
        ensures begins { IfOk result (Begins D.Disk) }
        // `Ok`: nothing waits, so that no flags may stand but its own.
        ensures kept { IfOk result (λ s. (flags : State)
            → IsAfterFirst s.desk (settled_revision s.desk) flags → flags ≡ flags_of s) }
        // H: a fault is one of the bytes, the first in the order of the layout; or `Device`, or
        // `Memory`.
        ensures fault { D.honest disk → IfErr result (λ e. RefusesBytes (D.bytes disk) e.0) }
        // H: at a fault of the bytes they stand for no set.
        ensures refused { D.honest disk → IfErr result (λ e. IsUnlessWanting (D.bytes disk) e.0) }
        // `Ok`: no call of the disk failed.
        ensures no_failure { IfOk result (λ s. D.faults (disk_of s) ≡ D.faults disk) }
        // `Device` only where the disk's count of failures rose.
        ensures cause { IfErr result (λ e. e.0 ≡ opening.Device → D.faults disk < D.faults e.1) }
        // `Memory`: no call of the disk failed.
        ensures memory { IfErr result (λ e. e.0 ≡ opening.Memory → D.faults e.1 ≡ D.faults disk) }
        // `Ok`: its calls were a sync, the length and reads; a fault: some first ones of these.
        ensures called { MatchResult result
            (λ s. ThenReads (Sync ∷ Length ∷ []) (D.calls disk) (D.calls (disk_of s)))
            (λ e. ThenSomeReads (Sync ∷ Length ∷ []) (D.calls disk) (D.calls e.1)) }
        // H: the bytes stay.
        ensures same { D.honest disk → MatchResult result
            (λ s. D.bytes (disk_of s) ≡ D.bytes disk) (λ e. D.bytes e.1 ≡ D.bytes disk) }
        // H: any crash state at any moment is one from before.
        ensures any_moment { D.honest disk → MatchResult result
            (λ s. LeavesOnly D.moment D.crash_states_since disk (disk_of s)
            (IsOutcome (D.unsynced disk)))
            (λ e. LeavesOnly D.moment D.crash_states_since disk e.1 (IsOutcome (D.unsynced disk))) }
        // The disk is honest exactly if it was before.
        ensures honest { MatchResult result (λ s. SameHonesty D.Disk disk (disk_of s))
            (λ e. SameHonesty D.Disk disk e.1) }
    {
        let (store, opening) = match Store::open(alloc, disk) {
            Ok(opened) => opened,
            Err(refused) => return Err(refused),
        };
        match DiskSession::new(alloc, store, opening) {
            Ok(session) => Ok(session),
            Err(store) => Err((OpenFault::Memory, store.into_disk())),
        }
    }

    // Shows what a crash leaves while nothing is done. Does nothing when it runs.
    fn stays(&self)
        ensures still { LeavesFlags D.Disk self.now self.now
            (IsAfterFirst self.now.desk (settled_revision self.now.desk)) }
        ensures in_step { self.now.stopped ≡ false
            → IsInStep D.Disk self.now.half.store self.now.desk }
    {
        self.store.rest();
    }

    /// Gives the disk back.
    pub fn into_disk(self) -> D
        // It is the session's.
        ensures disk { result ≡ disk_of self }
        // H: every crash state stands for what is settled, or for that and some first of the edits
        // that wait.
        ensures keeps { EachCrash D.Disk result (StandsAhead self.desk) }
    {
        let DiskSession {
            store,
            desk: _,
            is_stopped: _,
            is_due: _,
        } = self;
        store.into_disk()
    }
}

impl<D: Disk> EditStore for DiskSession<D> {
    ghost state = { λ s. flags_of s };

    ghost may_stand = { λ s flags. IsAfterFirst s.desk (settled_revision s.desk) flags };

    ghost has_place = { λ s change. HasPlace s change };

    ghost continues_to = { λ a b. Keeps D.Disk a b };

    ghost fails_on = { λ f a b. Fails D.Disk f a b };

    ghost leaves = { λ a b P. LeavesFlags D.Disk a b P };

    ghost rests = { λ s. s.half.store.compaction.next ≡ Begin };

    ghost waits = { λ s. s.desk.waiting ≢ [] };

    ghost owes = { λ s. s.owes ≡ true };

    ghost steps = { λ a b. Steps D.Disk a b };

    ghost leads_to_itself = { λ s. keeps_itself D.Disk s };

    ghost leads_on = { λ a b c h k. keeps_on D.Disk a b c h k };

    ghost leaves_on = { λ a b c P h k. flags_on D.Disk a b c P h k };

    ghost leaves_as = { λ a b P Q f h. flags_as D.Disk a b P Q f h };

    fn joins(&self, edit: &Edit) -> bool {
        self.desk.desk().joins(edit) && !self.is_stopped
    }

    fn submit(&mut self, edit: Edit) -> Result<u64, EditFault> {
        self.stays();
        match self.desk.submit(edit) {
            Ok(ticket) => Ok(ticket.revision()),
            Err((SubmitFault::Edit(fault), _)) => Err(fault),
            Err((SubmitFault::Memory, _)) => Err(EditFault::Memory),
            Err((SubmitFault::Stopped, _)) => unreachable!(),
            Err((SubmitFault::QueueFull, _)) => unreachable!(),
        }
    }

    fn commit(&mut self) -> Result<(), CommitFault> {
        self.stays();
        if self.is_stopped {
            return Err(CommitFault::StoreFailed);
        }
        self.is_due = self.desk.desk().is_waiting();
        self.is_stopped = true;
        commit_all(&mut self.desk, &mut self.store)?;
        self.is_stopped = false;
        Ok(())
    }

    fn go_on(&mut self) -> Result<(), CommitFault> {
        self.stays();
        if self.is_stopped {
            return Err(CommitFault::StoreFailed);
        }
        if !self.is_due {
            return Ok(());
        }
        self.is_due = false;
        self.is_stopped = true;
        self.store.go_on()?;
        self.is_stopped = false;
        self.stays();
        Ok(())
    }

    fn rest(&mut self) -> Result<(), CommitFault> {
        self.stays();
        if self.is_stopped {
            return Err(CommitFault::StoreFailed);
        }
        self.is_stopped = true;
        self.store.finish()?;
        self.is_stopped = false;
        self.stays();
        Ok(())
    }

    fn flags(&self) -> &FlagSet {
        self.stays();
        self.desk.desk().head()
    }
}
