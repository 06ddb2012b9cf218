//! A desk.

ghost use Rattle.std.specs.Prelude.{◌≡◌, ◌≢◌, ◌<◌, ◌≤◌, ◌+◌, ◌++◌, ◌↔◌, []};
ghost use Rattle.std.specs.Prelude.{length, true, false, IfOk, IfErr, IfSome, IfNone};
ghost use Rattle.std.specs.Prelude.{IsTrue, OnOk, OnErr};
ghost use Rattle.fp_edit.specs.Edits.{proposal_of};
ghost use Rattle.fp_edit.specs.Following.{change_of, changes_of};
ghost use Rattle.fp_group_commit.specs.Tokens.{EndsWith};
ghost use Rattle.fp_desk.specs.Desk.{head, log, settled_front, settled_revision};
ghost use Rattle.fp_desk.specs.Desk.{settled_set, most_of, FitsBehind, IsAccepted, IsDrawn, Draws};
ghost use Rattle.fp_desk.specs.Desk.{Refuses, SettlesNot};

use crate::fault::{SettleFault, SubmitFault};
use crate::queue::{copies_of_front, first_part, fits_behind, move_front, same_changes};
use fp_edit::{Edit, EditFault, FlagSet};
use fp_group_commit::{Draw, Opening, Receipt, Settled, Told};
use fp_journal::FRAME;
use fp_pending::catch_up;
use std::alloc::{AllocError, Global};
use std::collections::VecDeque;
use std::marker::Model;
use std::mem;
use std::snapshot::Snapshot;

/// The most edits that are accepted and not settled yet.
pub const MOST_QUEUED: usize = 1_024;

/// A place in the commit order.
#[derive(Drop)]
pub struct Ticket {
    revision: u64,
    edit: Snapshot<Edit>,
    settled: Told,
}

impl Model for Ticket {
    ghost use Rattle.std.specs.Coded.{codes};
    ghost use Rattle.fp_edit.specs.Edits.{proposal_of};
    ghost use Rattle.fp_edit.specs.Flags.{coded_state};
    ghost use Rattle.fp_group_commit.specs.Changes.{coded_change};
    ghost use Rattle.fp_desk.specs.Desk.{TicketState};

    ghost Value = { TicketState };

    ghost coded = { Prim.hlevel (codes, coded_state, coded_change) };

    ghost view = { λ t. record {
      store = t.settled.store;
      revision = t.revision;
      edit = proposal_of t.edit.value;
    } };
}

impl Ticket {
    /// The revision that its edit makes. `submit` alone makes a ticket, and it can't be copied.
    pub fn revision(&self) -> u64
        ensures { result ≡ self.now.revision }
    {
        self.revision
    }
}

/// Edits on their way, and what is settled.
#[derive(Drop)]
pub struct Desk {
    head: FlagSet,
    base: FlagSet,
    lag: VecDeque<Edit>,
    drawn: VecDeque<Edit>,
    waiting: VecDeque<Edit>,
    settled: Settled,
    stopped: bool,
    alloc: Global,
}

impl Model for Desk {
    ghost use Rattle.std.specs.Coded.{codes};
    ghost use Rattle.fp_edit.specs.Flags.{coded_state};
    ghost use Rattle.fp_edit.specs.Following.{changes_of};
    ghost use Rattle.fp_group_commit.specs.Changes.{coded_change};
    ghost use Rattle.fp_desk.specs.Desk.{DeskState, IsSound};

    ghost Value = { DeskState };

    ghost coded = { Prim.hlevel (codes, coded_state, coded_change) };

    ghost view = { λ d. record {
      store = d.settled.store;
      settled = d.settled.edits;
      drawn = changes_of d.drawn.items;
      waiting = changes_of d.waiting.items;
      stopped = d.stopped;
      last = d.settled.last;
    } };

    ghost invariant = { λ d. IsSound (record {
      store = d.settled.store;
      settled = d.settled.edits;
      drawn = changes_of d.drawn.items;
      waiting = changes_of d.waiting.items;
      stopped = d.stopped;
      last = d.settled.last;
    })
        d.head d.base (changes_of d.lag.items) };
}

impl Desk {
    /// A desk over the opening of a store, of which nothing waits yet. It copies the opening's
    /// set once.
    pub fn new(alloc: Global, opening: Opening) -> Result<Desk, (AllocError, Opening)>
        // `Ok`: nothing is accepted yet, in the store of the opening, and the desk isn't stopped.
        ensures made { IfOk result (λ d. d ≡ record {
          store = opening;
          settled = [];
          drawn = [];
          waiting = [];
          stopped = false;
          last = [];
        }) }
        // `Err`: the opening comes back.
        ensures given_back { IfErr result (λ e. e.1 ≡ opening) }
    {
        let Ok(head) = opening.set().try_copy() else {
            return Err((AllocError, opening));
        };
        // Its revision is below 2^63, which is known where it is asked.
        let _ = head.revision();
        let (base, settled) = Settled::of(alloc, opening);
        Ok(Desk {
            head,
            base,
            lag: VecDeque::new(alloc),
            drawn: VecDeque::new(alloc),
            waiting: VecDeque::new(alloc),
            settled,
            stopped: false,
            alloc,
        })
    }

    /// Takes an edit, behind those that wait. A ticket says which revision it makes.
    pub fn submit(&mut self, edit: Edit) -> Result<Ticket, (SubmitFault, Edit)>
        // `Ok`: the desk isn't stopped, the head admits the edit, fewer than 1,024 aren't
        // settled, and it stands behind those that wait.
        ensures accepted { OnOk result (IsAccepted self.old self.new (proposal_of edit)) }
        // `Ok`: the ticket names this store and the edit, with what its editor expected.
        ensures ticket { IfOk result (λ t. (t.store ≡ self.new.store)
            × (t.edit ≡ proposal_of edit)) }
        // `Ok`: its revision is that of the last accepted edit, which this one is.
        ensures revision { IfOk result (λ t.
            t.revision ≡ self.new.store.start.revision + length (log self.new)) }
        // `Err`: the first of `Stopped`, the head's refusal, `QueueFull` at 1,024 edits that
        // aren't settled; `Memory` only where none of these applies.
        ensures refused { IfErr result (λ e. Refuses self.old (proposal_of edit) e.0) }
        // `Err`: the edit comes back.
        ensures given_back { IfErr result (λ e. e.1 ≡ edit) }
        // An `Err` changes nothing.
        ensures unchanged { OnErr result (self.new ≡ self.old) }
    {
        if self.stopped {
            return Err((SubmitFault::Stopped, edit));
        }
        if let Some(fault) = self.head.judge(&edit) {
            return Err((SubmitFault::Edit(fault), edit));
        }
        if self.drawn.len() + self.waiting.len() >= MOST_QUEUED {
            return Err((SubmitFault::QueueFull, edit));
        }
        if self.waiting.try_reserve(1).is_err() {
            return Err((SubmitFault::Memory, edit));
        }
        let Ok(copy) = edit.try_copy() else {
            return Err((SubmitFault::Memory, edit));
        };
        let shown = Snapshot::of(&edit);
        match self.head.make(edit) {
            Ok(revision) => {
                self.waiting.push_back_reserved(copy);
                Ok(Ticket {
                    revision,
                    edit: shown,
                    settled: self.settled.tell(),
                })
            }
            Err(edit) => Err((SubmitFault::Memory, edit)),
        }
    }

    /// Whether an edit waits to be drawn.
    pub fn is_waiting(&self) -> bool
        ensures { IsTrue result ↔ (self.now.waiting ≢ []) }
    {
        !self.waiting.is_empty()
    }

    /// How many edits wait to be drawn.
    pub fn waiting_count(&self) -> usize
        ensures { result ≡ length self.now.waiting }
    {
        self.waiting.len()
    }

    /// Whether the edit would be drawn together with all that wait before it, as one batch.
    pub fn joins(&self, edit: &Edit) -> bool
        ensures { IsTrue result ↔ FitsBehind (most_of self.now.store.start.limit)
            self.now.waiting (change_of edit.now) }
    {
        fits_behind(&self.waiting, edit, self.longest_body())
    }

    // The most bytes of a batch's body.
    fn longest_body(&self) -> u64
        ensures { result ≡ most_of self.now.store.start.limit }
    {
        (self.head.limit() / 4).saturating_sub(FRAME)
    }

    /// Draws the longest first part of what waits that makes a batch, where none is out.
    pub fn draw(&mut self) -> Result<Option<Draw>, AllocError>
        // `Ok`: `None` only where a draw is out or nothing waits. Else the draw, under the
        // revisions behind what is settled: the longest first part of what waits that makes a
        // batch, of 1 to 64 edits within an eighth of a slot.
        ensures drawn { IfOk result (Draws self.old self.new) }
        // `Err` only where nothing is drawn and something waits.
        ensures memory { OnErr result ((self.old.drawn ≡ []) × (self.old.waiting ≢ [])) }
        // An `Err` changes nothing.
        ensures unchanged { OnErr result (self.new ≡ self.old) }
    {
        if !self.drawn.is_empty() || self.waiting.is_empty() {
            return Ok(None);
        }
        let first = self.settled.revision() + 1;
        let n = first_part(&self.waiting, self.longest_body());
        self.drawn.try_reserve(n)?;
        let edits = copies_of_front(self.alloc, &self.waiting, n)?;
        move_front(&mut self.waiting, &mut self.drawn, n);
        Ok(Some(Draw::new(first, edits)))
    }

    /// Spends a receipt for what is drawn: from then on it is settled, and may be told.
    pub fn settle(&mut self, receipt: Receipt) -> Result<(), (SettleFault, Receipt)>
        // The receipt is of the desk's store.
        requires { receipt.store ≡ self.old.store }
        // `Ok`: the receipt's batch is what is drawn, change by change, under the next revisions.
        ensures drawn { OnOk result (IsDrawn self.old receipt) }
        // `Ok`: all that was drawn stands behind what was settled, and nothing is drawn any more.
        ensures settled { OnOk result (self.new
            ≡ record self.old {
              settled = self.old.settled ++ self.old.drawn;
              drawn = [];
              last = self.old.drawn;
            }) }
        // `Ok`: what is settled is all that the receipt names.
        ensures all { OnOk result (self.new.settled ≡ receipt.edits) }
        // `Stranger` only where the receipt's batch isn't what is drawn, `Memory` only where it
        // is.
        ensures refused { IfErr result (λ e. SettlesNot self.old receipt e.0) }
        // `Err`: the receipt comes back.
        ensures given_back { IfErr result (λ e. e.1 ≡ receipt) }
        // An `Err` changes nothing.
        ensures unchanged { OnErr result (self.new ≡ self.old) }
    {
        if self.drawn.is_empty()
            || receipt.batch().first() != self.settled.revision() + 1
            || !same_changes(&self.drawn, receipt.batch().edits())
        {
            return Err((SettleFault::Stranger, receipt));
        }
        if catch_up(&mut self.base, &mut self.lag).is_err() {
            return Err((SettleFault::Memory, receipt));
        }
        self.settled.advance(receipt);
        mem::swap(&mut self.lag, &mut self.drawn);

        // Where memory is wanting here, the base goes on another time.
        let _ = catch_up(&mut self.base, &mut self.lag);
        Ok(())
    }

    /// Tells whether the ticket's edit is settled. It looks at the ticket's revision alone.
    pub fn ack(&self, ticket: &Ticket) -> Option<Told>
        // `None` only where the ticket's revision is behind all that is settled.
        ensures waiting { IfNone result (settled_revision self.now < ticket.now.revision) }
        // `Some` only where it isn't: the ticket's revision is settled.
        ensures settled { IfSome result (λ _. ticket.now.revision ≤ settled_revision self.now) }
        // `Some`: what is told is all that is settled, in the desk's store.
        ensures told { IfSome result (λ t.
            (t.store ≡ self.now.store) × (t.edits ≡ self.now.settled)) }
    {
        if ticket.revision <= self.settled.revision() {
            Some(self.settled.tell())
        } else {
            None
        }
    }

    /// The set that all accepted edits lead to, by which the next one is judged.
    pub fn head(&self) -> &FlagSet
        ensures { result.now ≡ head self.now }
    {
        &self.head
    }

    /// The last revision that is settled.
    pub fn settled_revision(&self) -> u64
        ensures { result ≡ settled_revision self.now }
    {
        self.settled.revision()
    }

    /// Tells all that is settled, as a front of the store's edits.
    pub fn told(&self) -> Told
        ensures { result ≡ settled_front self.now }
    {
        self.settled.tell()
    }

    /// The edits of the batch that was settled last, none at first.
    pub fn last_batch(&self) -> &[Edit]
        ensures last { changes_of result.now ≡ self.now.last }
        // What is settled ends with them.
        ensures ends { EndsWith self.now.settled (changes_of result.now) }
    {
        self.settled.last_batch()
    }

    /// An equal set to the settled one, which shares the definitions. It costs a walk over the
    /// set.
    pub fn settled_copy(&self) -> Result<FlagSet, AllocError>
        ensures { IfOk result (λ copy. copy ≡ settled_set self.now) }
    {
        let mut copy = self.base.try_copy()?;
        let lag = copies_of_front(self.alloc, &self.lag, self.lag.len())?;
        catch_up(&mut copy, &mut VecDeque::from(lag))?;
        Ok(copy)
    }

    /// Takes no further edits. What waits goes on.
    pub fn stop(&mut self)
        ensures { self.new ≡ record self.old { stopped = true } }
    {
        self.stopped = true;
    }

    /// Gives the opening back, where no edit was accepted.
    pub fn into_opening(self) -> Opening
        // No edit was accepted.
        requires { log self ≡ [] }
        ensures { result ≡ self.store }
    {
        let Desk { head, settled, .. } = self;
        settled.into_opening(head)
    }
}
