//! Both halves in one hand: edits, from where they are handed in to where they are settled.

ghost use Rattle.std.specs.Prelude.{◌≡◌, ◌≤◌, max, [], false, IfOk, IfErr};
ghost use Rattle.fp_disk.specs.Crashes.{EachCrash};
ghost use Rattle.fp_desk.specs.Desk.{log, settled_revision};
ghost use Rattle.fp_recovery.specs.Stands.{StandsFor};
ghost use Rattle.fp_group_commit.specs.Store.{IsFresh, readable_set};
ghost use Rattle.fp_committer.specs.Commits.{opened_set};
ghost use Rattle.fp_committer.specs.Committer.{IsNewCommitter, StepsBy, commits_of};
ghost use Rattle.fp_committer.specs.Kept.{KeptFrom};
ghost use Rattle.fp_committer.specs.declared.event.Event.TheVariants as asked;

use crate::desk_half::DeskHalf;
use crate::event::{Answer, Event};
use crate::store_half::StoreHalf;
use fp_desk::{Desk, SubmitFault, Ticket};
use fp_disk::Disk;
use fp_edit::Edit;
use fp_group_commit::{Opening, Store};
use std::alloc::{AllocError, Global};
use std::marker::Model;

/// A store, a desk, and what is between them.
pub struct Committer<D: Disk> {
    desk: DeskHalf,
    store: StoreHalf<D>,
    // One for each accepted edit, in their order.
    tickets: Vec<Ticket>,
    // The revision that the store began at.
    start: u64,
    told: u64,
}

impl<D: Disk> Model for Committer<D> {
    ghost use Rattle.std.specs.Coded.{codes};
    ghost use Rattle.fp_edit.specs.Flags.{coded_state};
    ghost use Rattle.fp_group_commit.specs.Changes.{coded_change};
    ghost use Rattle.fp_committer.specs.Committer.{CommitterState, IsCommitter};

    ghost Value = { CommitterState D };

    ghost coded = { Prim.hlevel (codes, coded_state, coded_change) };

    ghost view = { λ w. record {
      store = w.store.store;
      desk = w.desk.desk;
      progress = w.store.progress;
      told = w.told;
    } };

    ghost invariant = { λ w. IsCommitter w.desk w.store w.tickets.items w.start w.told };
}

impl<D: Disk> Committer<D> {
    /// A committer over a store as it was made or opened and its opening, for who drives both
    /// halves by one event after another.
    pub fn new(
        alloc: Global,
        store: Store<D>,
        opening: Opening,
    ) -> Result<Committer<D>, (AllocError, Store<D>, Opening)>
        // The opening is this store's.
        requires opening { opening ≡ store.store }
        // The store is as it was made or opened.
        requires fresh { IsFresh store store.store.start }
        // `Ok`: nothing is accepted yet or on its way, and what was told is the revision that the
        // store began with.
        ensures made { IfOk result (λ w. IsNewCommitter store w) }
        // `Err`: store and opening come back.
        ensures given_back { IfErr result (λ e. (e.1 ≡ store) × (e.2 ≡ opening)) }
    {
        let start = opening.revision();
        let (desk, store) = DeskHalf::pair(alloc, store, opening)?;
        Ok(Committer {
            desk,
            store,
            tickets: Vec::new(alloc),
            start,
            told: start,
        })
    }

    /// Does what the event asks: one call of the desk, or a call of the disk by the store. A call
    /// of its own does each of the events too.
    pub fn step(&mut self, event: &Event) -> Answer
        // All of it is one record, `StepsBy`.
        ensures { StepsBy D.Disk self.old event.now result self.new }
    {
        match event {
            Event::Submit(edit) => self.submit(edit),
            Event::Draw => self.draw(),
            Event::Stage => self.stage(),
            Event::SyncBody => self.sync_body(),
            Event::OpenGate => self.open_gate(),
            Event::SyncGate => self.sync_gate(),
            Event::Settle => self.settle(),
            Event::Ack(revision) => self.ack(*revision),
            Event::Compact => self.compact(),
        }
    }

    /// Takes an edit, and gives the revision that it makes. The room for its ticket is taken
    /// first.
    pub fn submit(&mut self, edit: &Edit) -> Answer
        // As of `Committer::step` at `Submit`.
        ensures { StepsBy D.Disk self.old (asked.Submit edit.now) result self.new }
    {
        self.store.rest();
        let Ok(edit) = edit.try_copy() else {
            return Answer::Refused(SubmitFault::Memory);
        };
        if self.tickets.try_reserve(1).is_err() {
            return Answer::Refused(SubmitFault::Memory);
        }
        match self.desk.submit(edit) {
            Ok(ticket) => {
                let revision = ticket.revision();
                self.tickets.push_reserved(ticket);
                Answer::Ticket(revision)
            }
            Err((fault, _)) => Answer::Refused(fault),
        }
    }

    /// Draws a batch of what waits.
    pub fn draw(&mut self) -> Answer
        // As of `Committer::step` at `Draw`.
        ensures { StepsBy D.Disk self.old asked.Draw result self.new }
    {
        self.store.rest();
        let Ok(drawn) = self.desk.draw(&mut self.store) else {
            return Answer::Memory;
        };
        let Some(count) = drawn else {
            return Answer::NotNow;
        };
        Answer::Drawn(count)
    }

    /// Settles what is sealed.
    pub fn settle(&mut self) -> Answer
        // As of `Committer::step` at `Settle`.
        ensures { StepsBy D.Disk self.old asked.Settle result self.new }
    {
        self.store.rest();
        let Ok(settled) = self.desk.settle(&mut self.store) else {
            return Answer::Memory;
        };
        let Some(revision) = settled else {
            return Answer::NotNow;
        };
        Answer::Settled(revision)
    }

    /// Acknowledges whether the edit of this revision is settled, where its ticket was given. So
    /// its revision is told.
    pub fn ack(&mut self, revision: u64) -> Answer
        // As of `Committer::step` at `Ack`.
        ensures { StepsBy D.Disk self.old (asked.Ack revision) result self.new }
    {
        self.store.rest();
        if revision <= self.start {
            return Answer::NotNow;
        }
        let Some(ticket) = self.tickets.get((revision - self.start - 1) as usize) else {
            return Answer::NotNow;
        };
        let Some(_) = self.desk.desk().ack(ticket) else {
            return Answer::Waiting;
        };
        self.told = u64::max(self.told, ticket.revision());
        Answer::Acked(ticket.revision())
    }

    /// Writes what is drawn.
    pub fn stage(&mut self) -> Answer
        // As of `Committer::step` at `Stage`.
        ensures { StepsBy D.Disk self.old asked.Stage result self.new }
    {
        self.store.rest();
        self.store.stage()
    }

    /// Makes sure of what was written.
    pub fn sync_body(&mut self) -> Answer
        // As of `Committer::step` at `SyncBody`.
        ensures { StepsBy D.Disk self.old asked.SyncBody result self.new }
    {
        self.store.rest();
        self.store.sync_body()
    }

    /// Opens the gate of what is in flight.
    pub fn open_gate(&mut self) -> Answer
        // As of `Committer::step` at `OpenGate`.
        ensures { StepsBy D.Disk self.old asked.OpenGate result self.new }
    {
        self.store.rest();
        self.store.open_gate()
    }

    /// Seals what is in flight.
    pub fn sync_gate(&mut self) -> Answer
        // As of `Committer::step` at `SyncGate`.
        ensures { StepsBy D.Disk self.old asked.SyncGate result self.new }
    {
        self.store.rest();
        self.store.sync_gate()
    }

    /// Takes the next step of a compaction.
    pub fn compact(&mut self) -> Answer
        // As of `Committer::step` at `Compact`.
        ensures { StepsBy D.Disk self.old asked.Compact result self.new }
    {
        self.store.rest();
        self.store.compact_step()
    }

    /// Shows that the disk keeps what was told. Does nothing when it runs.
    pub fn rest(&self)
        // What was told is settled.
        ensures low { self.now.told ≤ settled_revision self.now.desk }
        // H: any crash state stands for the set after some first accepted edits, all that were
        // told among them.
        ensures exit { EachCrash D.Disk self.now.store.disk
            (KeptFrom self.now.desk self.now.told) }
    {
        self.store.rest();
    }

    /// Lends the desk.
    pub fn desk(&self) -> &Desk
        ensures { result.now ≡ self.now.desk }
    {
        self.desk.desk()
    }

    /// This revision, which is settled, is told too: by a frame or a reply, say.
    pub fn tell(&mut self, revision: u64)
        // The revision is settled.
        requires { revision ≤ settled_revision self.old.desk }
        // What was told is the greater of what was and this revision.
        ensures told { self.new ≡ record self.old { told = max self.old.told revision } }
        // H: any crash state stands for the set after some first accepted edits, all that were
        // told among them.
        ensures exit { EachCrash D.Disk self.new.store.disk
            (KeptFrom self.new.desk self.new.told) }
    {
        self.store.rest();
        self.told = u64::max(self.told, revision);
    }

    /// Gives back what it was made of, where no edit was accepted.
    pub fn into_parts(self) -> (Store<D>, Opening)
        // No edit was accepted.
        requires { log self.desk ≡ [] }
        ensures store { result.0 ≡ self.store }
        ensures opening { result.1 ≡ self.store.store }
    {
        let Committer {
            desk,
            store,
            tickets: _,
            start: _,
            told: _,
        } = self;
        (store.into_store(), desk.into_opening())
    }

    /// Gives the disk back. What waits and isn't sealed is lost.
    pub fn into_disk(self) -> D
        ensures disk { result ≡ self.store.disk }
        // H: any crash state stands for the set after some first accepted edits, all that were
        // told among them.
        ensures outcomes { EachCrash D.Disk result (KeptFrom self.desk self.told) }
        // H: where no call failed, a read gives what is sealed, with the batch on its way exactly
        // where its gate was opened.
        ensures reads { D.honest result → self.store.failed ≡ false →
            StandsFor (D.bytes result) (readable_set self.store) }
        // H: the same by the desk: where no call failed, a read gives what is settled, and what
        // is drawn exactly once its gate was opened.
        ensures stands { D.honest result → (commits_of self).failed ≡ false →
            StandsFor (D.bytes result) (opened_set (commits_of self)) }
    {
        self.store.rest();
        let Committer {
            desk: _,
            store,
            tickets: _,
            start: _,
            told: _,
        } = self;
        store.into_disk()
    }
}
