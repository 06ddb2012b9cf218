//! What a plane's lock keeps.

ghost use Rattle.std.specs.Prelude.{◌≡◌, ◌⊎◌, ◌<◌, ◌≤◌, ◌+◌, ◌++◌, ◌∷◌, [], true};
ghost use Rattle.std.specs.Prelude.{◌≢◌, length, IfOk, IfErr, IfNone, IfSome, OnOk, OnErr};
ghost use Rattle.std.specs.Prelude.{MatchOption, MatchResult, All, vec_len, ◌||◌};
ghost use Rattle.fp_edit.specs.Edits.{change_in, proposal_of};
ghost use Rattle.fp_desk.specs.Desk.{IsAccepted, Refuses, log};
ghost use Rattle.fp_desk.specs.Desk.{settled_front, settled_revision};
ghost use Rattle.fp_committer.specs.Committer.{Agree, HaveDrawn, HaveSettled};
ghost use Rattle.fp_committer.specs.Way.{batch_sealed};
ghost use Rattle.fp_group_commit.specs.Tokens.{front_revision};
ghost use Rattle.fp_publish.specs.Fronts.{Begins};
ghost use Rattle.fp_publish.specs.declared.board.TheConstants.{MOST_EVALUATORS};
ghost use Rattle.std.specs.Vec.{vec_capacity};
ghost use Rattle.fp_hall.specs.Hall.{IsAtRest, IsDeskOf, IsNew, IsNewDesk, IsOver, IsStoreOf};
ghost use Rattle.fp_hall.specs.Hall.{IsUnanswered, SealsNoMore, desk_of, settled_by};
ghost use Rattle.fp_hall.specs.Editors.{said_at};
ghost use Rattle.fp_hall.specs.Numbers.{most_evaluators};
ghost use Rattle.fp_hall.specs.declared.editor.Said.TheVariants as said;
ghost use Rattle.fp_hall.specs.Places.{StandsAt};

mod ending;
mod lending;
mod tokens;

use crate::editor::Editor;
use crate::naming::Naming;
use crate::own_board::OwnBoard;
use crate::ticket::{Accepted, PlaneTicket};
use fp_committer::{DeskHalf, StoreHalf};
use fp_disk::Disk;
use fp_edit::Edit;
use fp_fronts::Growing;
use fp_group_commit::Told;
use fp_publish::{Evaluator, MOST_EVALUATORS, Seats, Shown};
pub use lending::TakenSeat;
use std::alloc::{AllocError, Global};
use std::marker::{Model, PhantomData};
use std::snapshot::Snapshot;
use std::sync::Wait;
pub use tokens::{AllSettled, Closer, GivenUp, Gone, Refusal, Staying};

/// Somebody has each evaluator.
#[derive(Debug, Drop, Clone, Copy)]
pub struct EvaluatorsUsed;

/// The desk and the board of one store, and what is lent of them: what the lock of a plane keeps.
#[derive(Drop)]
pub struct Hall<K: Naming, R: Wait + Drop> {
    desk: DeskHalf,
    // All that the desk accepted. It has no bytes.
    accepted: Growing<Accepted>,
    board: OwnBoard<R>,
    idle: Vec<Evaluator>,
    seats: Seats,
    has_failed: bool,
    is_closing: bool,
    has_ended: bool,
    looks: u64,
    alloc: Global,
    of: PhantomData<K>,
}

impl<K: Naming, R: Wait + Drop> Model for Hall<K, R> {
    ghost use Rattle.std.specs.Coded.{codes};
    ghost use Rattle.std.specs.Prelude.{◌≡◌, ◌≤◌};
    ghost use Rattle.std.specs.Vec.{vec_capacity};
    ghost use Rattle.fp_desk.specs.Desk.{log};
    ghost use Rattle.fp_edit.specs.Flags.{coded_state};
    ghost use Rattle.fp_group_commit.specs.Changes.{coded_change};
    ghost use Rattle.fp_publish.specs.declared.board.TheConstants.{MOST_EVALUATORS};
    ghost use Rattle.fp_hall.specs.Hall.{HallState, IsOrderly};

    ghost Value = { HallState };

    ghost coded = { Prim.hlevel (codes, coded_state, coded_change) };

    ghost view = { λ h. record {
      desk = h.desk.desk;
      half = h.desk.half;
      shown = h.board;
      idle = h.idle.items;
      taken = h.seats.taken;
      handed = h.seats.last;
      failed = h.has_failed;
      closing = h.is_closing;
      ended = h.has_ended;
    } };

    ghost invariant = { λ h. IsOrderly K.store K.desk_lists K.store_lists (record {
      desk = h.desk.desk;
      half = h.desk.half;
      shown = h.board;
      idle = h.idle.items;
      taken = h.seats.taken;
      handed = h.seats.last;
      failed = h.has_failed;
      closing = h.is_closing;
      ended = h.has_ended;
    }) × (MOST_EVALUATORS ≤ vec_capacity h.idle) × (h.accepted.name ≡ K.accepted)
        × (h.accepted.log ≡ log h.desk.desk) };
}

// As many evaluators of the board as it has room for.
fn evaluators<R: Wait + Drop>(
    alloc: Global,
    board: &mut OwnBoard<R>,
) -> Result<Vec<Evaluator>, AllocError>
    ensures same { board.new ≡ board.old }
    ensures rest { IfOk result (λ es. All (IsAtRest board.old.store) es.items) }
    ensures all { IfOk result (λ es. vec_len es ≡ MOST_EVALUATORS) }
    ensures room { IfOk result (λ es. MOST_EVALUATORS ≤ vec_capacity es) }
{
    let mut evaluators = Vec::with_capacity(alloc, MOST_EVALUATORS)?;
    for _ in 0..MOST_EVALUATORS {
        evaluators.push_reserved(board.evaluator()?);
    }
    Ok(evaluators)
}

impl<K: Naming, R: Wait + Drop> Hall<K, R> {
    /// A hall over the desk's half of the committer that it is of, and what alone closes it. Nothing
    /// was accepted yet.
    pub fn new(
        rt: R,
        alloc: Global,
        desk: DeskHalf,
        accepted: Growing<Accepted>,
    ) -> Result<(Hall<K, R>, Closer<K>), AllocError>
        // The half is the desk's of the committer that `K` names.
        requires ours { IsDeskOf K.store K.desk_lists K.store_lists desk }
        // No edit was handed in yet.
        requires fresh { IsNewDesk desk.desk }
        // The list has the name that `K` gives to what the plane accepts, and is empty.
        requires named { accepted.name ≡ K.accepted }
        requires none { accepted.log ≡ [] }
        // `Ok`: nothing was accepted, no seat is taken, and nothing broke off, closed or ended.
        // The set that the store began with is shown.
        ensures new { IfOk result (λ p. IsNew K.store p.0) }
        // `Ok`: nobody has any of the 16 evaluators.
        ensures all { IfOk result (λ p. length p.0.idle ≡ most_evaluators) }
    {
        let mut board = OwnBoard::new(rt, alloc, desk.desk())?;
        let idle = evaluators(alloc, &mut board)?;
        let hall = Hall {
            desk,
            accepted,
            board,
            idle,
            seats: Seats::new(),
            has_failed: false,
            is_closing: false,
            has_ended: false,
            looks: 0,
            alloc,
            of: PhantomData,
        };
        Ok((hall, Closer { of: PhantomData }))
    }

    // ---- editors

    /// Puts an edit behind those that wait, as `Desk::submit` does, and says to its editor what
    /// became of that.
    pub fn submit(
        &mut self,
        edit: Edit,
        editor: &mut Editor,
    ) -> Result<PlaneTicket<K>, (Refusal, Edit)>
        // `Ok`: as of `Desk::submit`: not stopped, admitted by the head, fewer than 1,024 not
        // settled, and it stands behind those that wait.
        ensures accepted { OnOk result (IsAccepted self.old.desk self.new.desk (proposal_of edit)) }
        // `Ok`: the ticket names the plane's store and the edit, with what its editor expected.
        ensures ticket { IfOk result (λ t. (t.store ≡ K.store) × (t.edit ≡ proposal_of edit)) }
        // `Ok`: its revision is that of the last accepted edit, which this one is.
        ensures revision { IfOk result (λ t.
            t.revision ≡ K.store.start.revision + length (log self.new.desk)) }
        // `Err`: the refusal names the edit, with what its editor expected, and has the first
        // fault that `Desk::submit` finds.
        ensures refused { IfErr result (λ e. (e.0.edit ≡ proposal_of edit)
            × Refuses self.old.desk (proposal_of edit) e.0.fault) }
        // `Err`: the edit comes back.
        ensures given_back { IfErr result (λ e. e.1 ≡ edit) }
        // The editor is said that it is taken, or why it isn't, and nothing else.
        ensures said { editor.new ≡ editor.old ++ said_at result ∷ [] }
        // An `Err` changes nothing.
        ensures unchanged { OnErr result (self.new ≡ self.old) }
        // Nothing but the desk changes.
        ensures rest { self.new ≡ record self.old { desk = self.new.desk } }
    {
        let handed_in = Snapshot::of(&edit);
        match self.desk.submit(edit) {
            Ok(ticket) => {
                let ticket = PlaneTicket::of(ticket, &handed_in, &mut self.accepted);
                editor.hear_taken(&ticket);
                Ok(ticket)
            }
            Err((fault, edit)) => {
                let refusal = Refusal {
                    fault,
                    edit: handed_in,
                };
                editor.hear_refused(&refusal);
                Err((refusal, edit))
            }
        }
    }

    /// What is told of a ticket, once its edit is settled and shown.
    pub fn answer(&self, ticket: &PlaneTicket<K>) -> Option<(Told, Shown)>
        // `Some`: what is told is of the plane's store, and has at least the ticket's revision.
        ensures told { IfSome result (λ p.
            (p.0.store ≡ K.store) × (ticket.now.revision ≤ front_revision p.0)) }
        // `Some`: the ticket's edit is the one that makes its revision, in what is told.
        ensures place { IfSome result (λ p.
            StandsAt p.0 ticket.now.revision (change_in ticket.now.edit)) }
        // `Some`: what is shown goes on from what is told.
        ensures shown { IfSome result (λ p. Begins p.0 p.1) }
        // `None` only where the edit isn't settled, or what is settled isn't shown. Else the
        // settled front and the one that is shown.
        ensures fronts { MatchOption result
            (IsUnanswered self.now ticket.now.revision)
            (λ p. (p.0 ≡ settled_front self.now.desk) × (p.1 ≡ self.now.shown)) }
    {
        ticket.stands_in(&self.accepted);
        let told = self.desk.desk().ack(ticket.ticket())?;
        let shown = self.board.shown(&told)?;
        Some((told, shown))
    }

    /// Gives a ticket up, and says that to its editor; or hands it back where something may still
    /// become of its edit.
    pub fn give_up(
        &self,
        ticket: PlaneTicket<K>,
        editor: &mut Editor,
    ) -> Result<GivenUp, PlaneTicket<K>>
        // `Ok`: no edit is settled any more, and the ticket's isn't settled, or what is settled
        // isn't shown.
        ensures given_up { OnOk result (IsOver self.now × IsUnanswered self.now ticket.revision) }
        // `Err` only where that isn't so.
        ensures waits { OnErr result
            ((IsOver self.now → ⊥) ⊎ (IsUnanswered self.now ticket.revision → ⊥)) }
        // It is this ticket, either way.
        ensures same { MatchResult result (λ g. g ≡ ticket) (λ t. t ≡ ticket) }
        // `Ok`: the editor is said so. `Err`: nothing is said.
        ensures said { MatchResult result (λ g. editor.new ≡ editor.old ++ said.Unknown g ∷ [])
            (λ _. editor.new ≡ editor.old) }
    {
        if self.is_over() && self.answer(&ticket).is_none() {
            let ticket = ticket.into_ticket();
            let given_up = GivenUp { ticket };
            editor.hear_unknown(&given_up);
            Ok(given_up)
        } else {
            Err(ticket)
        }
    }

    /// Whether no edit is settled any more: sealing broke off, or the flusher has ended.
    pub fn is_over(&self) -> bool
        ensures { result ≡ (self.now.failed || self.now.ended) }
    {
        self.has_failed || self.has_ended
    }

    // ---- the flusher

    /// Draws what makes the longest batch for the store's half, where nothing is out, and answers
    /// how many edits it has.
    pub fn draw<D: Disk>(&mut self, store: &mut StoreHalf<D>) -> Result<Option<usize>, AllocError>
        // The half is the store's of the committer that `K` names.
        requires ours { IsStoreOf K.store K.desk_lists K.store_lists store.old }
        // It is still.
        ensures ours { IsStoreOf K.store K.desk_lists K.store_lists store.new }
        // `Some`: as of `DeskHalf::draw`, in both halves at once. `None` only where something is
        // drawn or nothing waits.
        ensures drawn { IfOk result (λ o. MatchOption o
            ((self.old.desk.drawn ≢ []) ⊎ (self.old.desk.waiting ≡ []))
            (λ count. HaveDrawn (desk_of self.old) (desk_of self.new) store.old store.new count)) }
        // `None`: nothing has changed.
        ensures none { IfOk result (λ o. IfNone o
            ((self.new ≡ self.old) × (store.new ≡ store.old))) }
        // Both halves agree on what is drawn and settled.
        ensures agree { Agree (desk_of self.new) store.new }
        // `Err`: nothing has changed.
        ensures unchanged { OnErr result ((self.new ≡ self.old) × (store.new ≡ store.old)) }
        // Nothing but the desk's half and the store's changes.
        ensures rest { self.new
            ≡ record self.old { desk = self.new.desk; half = self.new.half } }
    {
        self.desk.draw(store)
    }

    /// Whether the flusher is to end where nothing waits.
    pub fn is_closing(&self) -> bool
        ensures { result ≡ self.now.closing }
    {
        self.is_closing
    }

    /// How many edits wait to be drawn.
    pub fn waiting_count(&self) -> usize
        ensures { result ≡ length self.now.desk.waiting }
    {
        self.desk.desk().waiting_count()
    }

    /// The last revision that is settled.
    pub fn settled_revision(&self) -> u64
        ensures { result ≡ settled_revision self.now.desk }
    {
        self.desk.desk().settled_revision()
    }

    /// Tells all that is settled.
    pub fn told(&self) -> Told
        ensures front { result ≡ settled_front self.now.desk }
        // It is of the plane's store.
        ensures ours { result.store ≡ K.store }
    {
        self.desk.desk().told()
    }

    /// Settles what is sealed of the store's half, and answers the last revision that is settled.
    pub fn settle<D: Disk>(&mut self, store: &mut StoreHalf<D>) -> Result<Option<u64>, AllocError>
        // The half is the store's of the committer that `K` names.
        requires ours { IsStoreOf K.store K.desk_lists K.store_lists store.old }
        // It is still.
        ensures ours { IsStoreOf K.store K.desk_lists K.store_lists store.new }
        // `Some`: what was sealed is settled, all of it, in both halves at once. `None` only
        // where no batch was sealed.
        ensures settled { IfOk result (λ o. MatchOption o (store.old.progress ≢ batch_sealed)
            (λ revision. HaveSettled (desk_of self.old) (desk_of self.new)
            store.old store.new revision)) }
        // Both halves agree on the last revision that is settled.
        ensures agree { settled_by store.new ≡ settled_revision self.new.desk }
        // `Err`: nothing has changed.
        ensures unchanged { OnErr result ((self.new ≡ self.old) × (store.new ≡ store.old)) }
        // Nothing but the desk's half and the store's changes.
        ensures rest { self.new
            ≡ record self.old { desk = self.new.desk; half = self.new.half } }
    {
        self.desk.settle(store)
    }

    /// Shows what is settled, to evaluators and subscribers.
    pub fn publish(&mut self) -> Result<Shown, AllocError>
        // `Ok`: what is shown is the settled front, and all else stays.
        ensures published { OnOk result (self.new
            ≡ record self.old { shown = settled_front self.old.desk }) }
        // `Ok`: the `Shown` names it.
        ensures shown { IfOk result (λ s. s ≡ self.new.shown) }
        // An `Err` changes nothing.
        ensures unchanged { OnErr result (self.new ≡ self.old) }
    {
        self.board.publish(self.desk.desk())
    }

    /// A token of what is shown, where that is no less than what was told.
    pub fn shown(&self, told: &Told) -> Option<Shown>
        // What was told is of the plane's store.
        requires { told.now.store ≡ K.store }
        // `Some` exactly where the revision that is shown is at least the told one. What is shown
        // goes on from what was told then.
        ensures shown { MatchOption result
            (front_revision self.now.shown < front_revision told.now)
            (λ s. (s ≡ self.now.shown) × Begins told.now s) }
        // `Some`: it has at least the told revision.
        ensures reached { IfSome result (λ s. front_revision told.now ≤ front_revision s) }
    {
        self.board.shown(told)
    }
}
