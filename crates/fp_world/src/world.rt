//! A store, its desk, and what is published of it, over one list of events.

ghost use Rattle.fp_disk.specs.Crashes.{AtAnyMoment, EachCrash, SameHonesty};
ghost use Rattle.std.specs.Prelude.{◌≡◌, ◌⊎◌, ◌≤◌, ◌++◌, ℕ, false, length, IfOk, IfErr, OnErr};
ghost use Rattle.fp_desk.specs.Desk.{DeskState, log};
ghost use Rattle.fp_layout.specs.declared.fault.OpenFault.TheVariants.{Device, Memory};
ghost use Rattle.fp_group_commit.specs.Store.{IsFresh};
ghost use Rattle.fp_recovery.specs.Stands.{StandsFor};
ghost use Rattle.fp_publish.specs.declared.board.TheConstants.{MOST_EVALUATORS};
ghost use Rattle.fp_publish.specs.declared.seats.TheConstants.{MOST_SEATS};
ghost use Rattle.fp_world.specs.declared.event.Event.TheVariants as asked;
ghost use Rattle.fp_committer.specs.Commits.{opened_set};
ghost use Rattle.fp_committer.specs.Kept.{IsAfterFirst, KeptFrom};
ghost use Rattle.fp_world.specs.Events.{MakesItsCall, RisesFor, accepted_by, told_after};
ghost use Rattle.fp_world.specs.Machine.{Run, Step, accepted_edits, told_by};
ghost use Rattle.fp_world.specs.World.{Course, IsNewWorld, Opens, StepsTo};
ghost use Rattle.fp_world.specs.World.{desk_of, disk_of, machine, told_of};

use crate::event::{Answer, Event};
use crate::request::{Moment, Request};
use crate::views::Views;
use fp_committer::Committer;
use fp_disk::Disk;
use fp_group_commit::{Opening, Store};
use fp_layout::OpenFault;
use fp_stream::Hello;
use std::alloc::{AllocError, Global};
use std::marker::Model;
use std::sync::Wait;

/// A store and its desk, with what is published of them.
pub struct World<D: Disk> {
    committer: Committer<D>,
    views: Views,
}

impl<D: Disk> Model for World<D> {
    ghost use Rattle.std.specs.Coded.{codes};
    ghost use Rattle.fp_edit.specs.Flags.{coded_state};
    ghost use Rattle.fp_group_commit.specs.Changes.{coded_change};
    ghost use Rattle.fp_desk.specs.Desk.{settled_front};
    ghost use Rattle.fp_publish.specs.Fronts.{Begins};
    ghost use Rattle.fp_world.specs.World.{WorldState};

    ghost Value = { WorldState D };

    ghost coded = { Prim.hlevel (codes, coded_state, coded_change) };

    ghost view = { λ w. record { committer = w.committer; views = w.views } };

    ghost invariant = { λ w. Begins w.views.board (settled_front w.committer.desk) };
}

impl<D: Disk> World<D> {
    /// A world over a store as it was made or opened, with its opening. It has a seat for each
    /// subscriber, who has what is said here, and so many evaluators.
    pub fn new<R: Wait>(
        rt: &R,
        alloc: Global,
        store: Store<D>,
        opening: Opening,
        seats: &[Hello],
        readers: usize,
    ) -> Result<World<D>, (AllocError, Store<D>, Opening)>
        // The opening is this store's.
        requires opening { opening ≡ store.store }
        // The store is as it was made or opened.
        requires fresh { IsFresh store store.store.start }
        // 32 seats at most.
        requires seats { length seats.now ≤ MOST_SEATS }
        // 16 evaluators at most.
        requires readers { readers ≤ MOST_EVALUATORS }
        // `Ok`: nothing is accepted yet; what was told is the start, whose set is published. The
        // seats have what is said, and there are so many evaluators.
        ensures made { IfOk result (λ w. IsNewWorld store seats.now readers w) }
        // `Err`: store and opening come back.
        ensures given_back { IfErr result (λ e. (e.1 ≡ store) × (e.2 ≡ opening)) }
    {
        let committer = Committer::new(alloc, store, opening)?;
        match Views::new(rt, alloc, committer.desk(), seats, readers) {
            Ok(views) => Ok(World { committer, views }),
            Err(fault) => {
                let (store, opening) = committer.into_parts();
                Err((fault, store, opening))
            }
        }
    }

    // Publishes what is settled, where it isn't published.
    fn publish<R: Wait>(&mut self, rt: &R) -> Answer
        ensures { StepsTo D.Disk self.old asked.Publish result self.new }
    {
        self.committer.rest();
        let Ok(published) = self.views.publish(rt, self.committer.desk()) else {
            return Answer::Memory;
        };
        let Some(shown) = published else {
            return Answer::NotNow;
        };
        Answer::Published(shown.revision())
    }

    // Hands what is published to the subscriber of a seat, who is then told it.
    fn hand(&mut self, seat: usize) -> Answer
        ensures { StepsTo D.Disk self.old (asked.Hand seat) result self.new }
    {
        self.committer.rest();
        if seat >= self.views.seats() {
            return Answer::NotNow;
        }
        match self.views.hand(seat) {
            Ok(Some(handed)) => {
                self.committer.tell(handed.revision());
                Answer::Handed(handed)
            }
            Ok(None) => Answer::Nothing,
            Err(_) => Answer::Memory,
        }
    }

    // Replies over what is published, which is then told.
    fn evaluate(&mut self, reader: usize, request: &Request, now: &Moment) -> Answer
        ensures { StepsTo D.Disk self.old (asked.Evaluate reader request.now now.now) result
            self.new }
    {
        self.committer.rest();
        if reader >= self.views.readers() {
            return Answer::NotNow;
        }
        let Ok(reply) = self.views.evaluate(reader, request, now) else {
            return Answer::Memory;
        };
        let revision = self.views.revision();
        self.committer.tell(revision);
        Answer::Reply(revision, reply)
    }

    // Does what the event asks.
    fn turn<R: Wait>(&mut self, rt: &R, event: &Event) -> Answer
        ensures { StepsTo D.Disk self.old event.now result self.new }
    {
        match event {
            Event::Publish => self.publish(rt),
            Event::Hand(seat) => self.hand(*seat),
            Event::Evaluate(reader, request, now) => self.evaluate(*reader, request, now),
            Event::Submit(edit) => self.committer.submit(edit).into(),
            Event::Draw => self.committer.draw().into(),
            Event::Stage => self.committer.stage().into(),
            Event::SyncBody => self.committer.sync_body().into(),
            Event::OpenGate => self.committer.open_gate().into(),
            Event::SyncGate => self.committer.sync_gate().into(),
            Event::Settle => self.committer.settle().into(),
            Event::Ack(revision) => self.committer.ack(*revision).into(),
            Event::Compact => self.committer.compact().into(),
        }
    }

    /// Does what the event asks, and answers what became of it. Only a publication may wait.
    pub fn step<R: Wait>(&mut self, rt: &R, event: &Event) -> Answer
        // A step of the plain machine: which answer the event gets, in both directions, and what
        // it changes. At a compaction's end the room is a slot's bytes less those of its head,
        // the image of the set that was sealed as it began, and the batches sealed since.
        ensures steps { Step (machine self.old) event.now result (machine self.new) }
        // The log grows by the edit that was answered by a ticket, and by nothing else.
        ensures log { log (desk_of self.new)
            ≡ log (desk_of self.old) ++ accepted_by event.now result }
        // What was told is the greater of what was told before and the revision of an `Acked`, a
        // `Handed` or a `Reply`.
        ensures told { told_of self.new ≡ told_after (told_of self.old) result }
        // Store and desk are the same ones.
        ensures same { (self.new.committer.store.store ≡ self.old.committer.store.store)
            × ((desk_of self.new).store ≡ (desk_of self.old).store) }
        // H: at any moment any crash state stands for the set after some first accepted edits, as
        // many as were told before it or more.
        ensures any_moment { AtAnyMoment D.Disk (disk_of self.old) (disk_of self.new)
            (KeptFrom (desk_of self.new) (told_of self.old)) }
        // H: after it any crash state stands for the set after as many of them as were told by
        // then, or more.
        ensures exit { EachCrash D.Disk (disk_of self.new)
            (KeptFrom (desk_of self.new) (told_of self.new)) }
        ensures honest { SameHonesty D.Disk (disk_of self.old) (disk_of self.new) }
        // At most one call of the disk, of one kind for each event but `Compact`: `Stage` and
        // `OpenGate` write, `SyncBody` and `SyncGate` sync. None of the others, and none where it
        // isn't the event's turn.
        ensures called { MakesItsCall event.now result (D.calls (disk_of self.old))
            (D.calls (disk_of self.new)) }
        // The disk's count of failures rises exactly where `Device` is answered.
        ensures cause { RisesFor result (D.faults (disk_of self.old))
            (D.faults (disk_of self.new)) }
    {
        self.turn(rt, event)
    }

    // The events in their order, each a step. The answers' room is taken first.
    fn follow<R: Wait>(
        &mut self,
        rt: &R,
        alloc: Global,
        events: &[Event],
    ) -> Result<Vec<Answer>, AllocError>
        ensures course { IfOk result (λ answers.
            Course D.Disk self.old events.now answers.items self.new) }
        ensures err { OnErr result (self.new ≡ self.old) }
    {
        let mut answers = Vec::with_capacity(alloc, events.len())?;
        for event in events {
            answers.push_reserved(self.turn(rt, event));
        }
        Ok(answers)
    }

    /// Does what the events ask, one after another. At `Err` none of them was asked.
    pub fn run<R: Wait>(
        &mut self,
        rt: &R,
        alloc: Global,
        events: &[Event],
    ) -> Result<Vec<Answer>, AllocError>
        // `Ok`: each event was a step in its turn, of which all holds that `World::step`
        // promises: so a crash in a step keeps what was told before that step.
        ensures course { IfOk result (λ answers.
            Course D.Disk self.old events.now answers.items self.new) }
        // `Ok`: the answers are a run of the plain machine.
        ensures run { IfOk result (λ answers.
            Run (machine self.old) events.now answers.items (machine self.new)) }
        // `Ok`: the log is the one before, and behind it the accepted edits in their order.
        ensures log { IfOk result (λ answers. log (desk_of self.new)
            ≡ log (desk_of self.old) ++ accepted_edits events.now answers.items) }
        // `Ok`: what was told is the greatest of what was told before and what the answers told.
        ensures told { IfOk result (λ answers.
            told_of self.new ≡ told_by (told_of self.old) answers.items) }
        // H: at any moment any crash state stands for the set after some first accepted edits, as
        // many as were told as it began or more.
        ensures any_moment { AtAnyMoment D.Disk (disk_of self.old) (disk_of self.new)
            (KeptFrom (desk_of self.new) (told_of self.old)) }
        // H: after it any crash state stands for the set after as many of them as were told by
        // then, or more.
        ensures exit { EachCrash D.Disk (disk_of self.new)
            (KeptFrom (desk_of self.new) (told_of self.new)) }
        ensures honest { SameHonesty D.Disk (disk_of self.old) (disk_of self.new) }
        // `Err`, which is out of memory: nothing changed.
        ensures err { OnErr result (self.new ≡ self.old) }
    {
        self.committer.rest();
        let answers = self.follow(rt, alloc, events)?;
        Ok(answers)
    }

    /// Gives the disk back. It may wait for an evaluator elsewhere.
    pub fn into_disk<R: Wait>(self, rt: &R) -> D
        ensures disk { result ≡ disk_of self }
        // H: any crash state stands for the set after some first accepted edits, as many as were
        // told or more.
        ensures outcomes { EachCrash D.Disk result (KeptFrom (desk_of self) (told_of self)) }
        // H: where no call failed, a read gives what is sealed, with the batch in flight exactly
        // where its gate was opened.
        ensures stands { D.honest result → (machine self).commits.failed ≡ false →
            StandsFor (D.bytes result) (opened_set (machine self).commits) }
    {
        let World { committer, views } = self;
        views.end(rt);
        committer.into_disk()
    }

    /// Opens the disk again, and gives the set that it then stands for. It syncs before it reads,
    /// and writes nothing.
    pub fn reopen<R: Wait>(
        self,
        rt: &R,
        alloc: Global,
    ) -> Result<(Store<D>, Opening), (OpenFault, D)>
        // `Ok`: the store is as it was opened: nothing is sealed since or on its way, no call has
        // failed, and no compaction runs.
        ensures fresh { IfOk result (λ r. IsFresh r.0 r.0.store.start) }
        // `Ok`: the opening names this store.
        ensures opening { IfOk result (λ r. r.1 ≡ r.0.store) }
        // One record, `Opens`: what it leaves of the disk.
        ensures opens { Opens D.Disk (disk_of self) result }

        // H: whatever failed, at `Ok` the set is the one after some first accepted edits, as many
        // as were told or more.
        ensures kept { D.honest (disk_of self) →
            IfOk result (λ r. IsAfterFirst (desk_of self) (told_of self) r.0.store.start) }

        // H: where no call failed, at `Ok` it is what is sealed, with the batch in flight exactly
        // where its gate was opened.
        ensures set { D.honest (disk_of self) → (machine self).commits.failed ≡ false →
            IfOk result (λ r. r.0.store.start ≡ opened_set (machine self).commits) }
        // H: it is refused only with `Device` or `Memory`.
        ensures refused { D.honest (disk_of self) →
            IfErr result (λ e. (e.0 ≡ Device) ⊎ (e.0 ≡ Memory)) }
    {
        Store::open(alloc, self.into_disk(rt))
    }
}

/// Opens a disk that holds what a crash left of a world, and gives the set that it stands for. It
/// syncs before it reads, and writes nothing.
pub fn recover<D: Disk>(alloc: Global, disk: D) -> Result<(Store<D>, Opening), (OpenFault, D)>
    // `Ok`: the store is as it was opened: nothing is sealed since or on its way, no call has
    // failed, and no compaction runs.
    ensures fresh { IfOk result (λ r. IsFresh r.0 r.0.store.start) }
    // `Ok`: the opening names this store.
    ensures opening { IfOk result (λ r. r.1 ≡ r.0.store) }
    // One record, `Opens`: what it leaves of the disk.
    ensures opens { Opens D.Disk disk result }
    // H: where the disk keeps a desk's log from some revision on, as `World` promises of each
    // crash state: at `Ok` the set is the one after some first accepted edits, as many as that
    // revision says or more.
    ensures kept { D.honest disk → (desk : DeskState) (told : ℕ) →
        KeptFrom desk told (D.bytes disk)
        → IfOk result (λ r. IsAfterFirst desk told r.0.store.start) }
    // H: such a disk is refused only with `Device` or `Memory`.
    ensures refused { D.honest disk → (desk : DeskState) (told : ℕ) →
        KeptFrom desk told (D.bytes disk) → IfErr result (λ e. (e.0 ≡ Device) ⊎ (e.0 ≡ Memory)) }
{
    Store::open(alloc, disk)
}
