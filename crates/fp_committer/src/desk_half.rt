//! The desk's half of a committer.

ghost use Rattle.std.specs.Prelude.{◌≡◌, [], true, false, length, IfOk, IfErr, IfNone, OnOk, OnErr};
ghost use Rattle.std.specs.Prelude.{◌+◌, ◌≢◌, ◌⊎◌, MatchOption};
ghost use Rattle.fp_edit.specs.Edits.{proposal_of};
ghost use Rattle.fp_desk.specs.Desk.{IsAccepted, Refuses, log};
ghost use Rattle.fp_group_commit.specs.Store.{IsFresh};
ghost use Rattle.fp_committer.specs.Committer.{AreHalves, Agree, HaveDrawn, HaveSettled};
ghost use Rattle.fp_committer.specs.StoreHalf.{new_half};
ghost use Rattle.fp_committer.specs.Way.{batch_sealed};

use crate::half::Half;
use crate::held::{Held, end};
use crate::store_half::StoreHalf;
use fp_desk::{Desk, SettleFault, SubmitFault, Ticket};
use fp_disk::Disk;
use fp_edit::Edit;
use fp_group_commit::{Opening, Store};
use std::alloc::{AllocError, Global};
use std::marker::Model;
use std::mem;

/// The desk. It takes edits and tells of them while the store's half is held elsewhere; to draw and
/// to settle wants both.
#[derive(Drop)]
pub struct DeskHalf {
    desk: Desk,
    half: Half,
}

impl Model for DeskHalf {
    ghost use Rattle.std.specs.Coded.{codes};
    ghost use Rattle.fp_edit.specs.Flags.{coded_state};
    ghost use Rattle.fp_group_commit.specs.Changes.{coded_change};
    ghost use Rattle.fp_committer.specs.Committer.{DeskHalfState, IsListed};

    ghost Value = { DeskHalfState };

    ghost coded = { Prim.hlevel (codes, coded_state, coded_change) };

    ghost view = { λ h. record { desk = h.desk; half = h.half } };

    ghost invariant = { λ h. IsListed h.desk h.half };
}

impl DeskHalf {
    /// Both halves, over a store as it was made or opened and its opening.
    pub fn pair<D: Disk>(
        alloc: Global,
        store: Store<D>,
        opening: Opening,
    ) -> Result<(DeskHalf, StoreHalf<D>), (AllocError, Store<D>, Opening)>
        // The opening is this store's.
        requires opening { opening ≡ store.store }
        // The store is as it was made or opened.
        requires fresh { IsFresh store store.store.start }
        // `Ok`: the desk is over this opening, and nothing is accepted yet.
        ensures desk { IfOk result (λ r. r.0.desk ≡ record {
          store = opening;
          settled = [];
          drawn = [];
          waiting = [];
          stopped = false;
          last = [];
        }) }
        // `Ok`: the store's half has this store, and nothing is drawn.
        ensures store { IfOk result (λ r. r.1 ≡ new_half store r.1.half) }
        // `Ok`: they are halves of one committer, and agree on what is drawn and settled.
        ensures halves { IfOk result (λ r. AreHalves r.0 r.1 × Agree r.0 r.1) }
        // `Err`: both come back.
        ensures given_back { IfErr result (λ e. (e.1 ≡ store) × (e.2 ≡ opening)) }
    {
        let desk = match Desk::new(alloc, opening) {
            Ok(desk) => desk,
            Err((fault, opening)) => return Err((fault, store, opening)),
        };
        let (here, there) = Half::pair();
        Ok((DeskHalf { desk, half: here }, StoreHalf::new(store, there)))
    }

    /// Lends the desk.
    pub fn desk(&self) -> &Desk
        ensures { result.now ≡ self.now.desk }
    {
        &self.desk
    }

    /// Takes an edit, behind those that wait, as `Desk::submit` does.
    pub fn submit(&mut self, edit: Edit) -> Result<Ticket, (SubmitFault, Edit)>
        // As of `Desk::submit`.
        ensures accepted { OnOk result (IsAccepted self.old.desk self.new.desk (proposal_of edit)) }
        // As of `Desk::submit`.
        ensures ticket { IfOk result (λ t. (t.store ≡ self.new.desk.store)
            × (t.edit ≡ proposal_of edit)) }
        // As of `Desk::submit`.
        ensures revision { IfOk result (λ t. t.revision
            ≡ self.new.desk.store.start.revision + length (log self.new.desk)) }
        // What the half lists stays.
        ensures half { self.new.half ≡ self.old.half }
        // As of `Desk::submit`.
        ensures refused { IfErr result (λ e. Refuses self.old.desk (proposal_of edit) e.0) }
        // `Err`: the edit comes back.
        ensures given_back { IfErr result (λ e. e.1 ≡ edit) }
        // An `Err` changes nothing.
        ensures unchanged { OnErr result (self.new ≡ self.old) }
    {
        self.desk.submit(edit)
    }

    /// Takes no further edits. What waits goes on, and what the half lists stays.
    pub fn stop(&mut self)
        ensures { self.new ≡ record self.old { desk = record self.old.desk { stopped = true } } }
    {
        self.desk.stop();
    }

    /// Draws the longest first part of what waits that makes a batch, where nothing is drawn, and
    /// answers how many edits it has.
    pub fn draw<D: Disk>(&mut self, store: &mut StoreHalf<D>) -> Result<Option<usize>, AllocError>
        // They are the halves of one committer.
        requires { AreHalves self.old store.old }
        // `Some`: as the desk draws, in both halves at once. `None` only where something is drawn
        // or nothing waits.
        ensures drawn { IfOk result (λ o. MatchOption o
            ((self.old.desk.drawn ≢ []) ⊎ (self.old.desk.waiting ≡ []))
            (HaveDrawn self.old self.new store.old store.new)) }
        // `None`: neither half has changed.
        ensures none { IfOk result (λ o. IfNone o
            ((self.new ≡ self.old) × (store.new ≡ store.old))) }
        // `Err` only where nothing is drawn and something waits.
        ensures memory { OnErr result
            ((self.old.desk.drawn ≡ []) × (self.old.desk.waiting ≢ [])) }
        // `Err`: neither half has changed.
        ensures unchanged { OnErr result ((self.new ≡ self.old) × (store.new ≡ store.old)) }
        // They are halves of one committer still, and agree on what is drawn and settled.
        ensures halves { AreHalves self.new store.new × Agree self.new store.new }
    {
        self.half.agrees(&store.half);
        store.rest();
        let Some(draw) = self.desk.draw()? else {
            return Ok(None);
        };
        let count = draw.len();
        self.half.draw(&mut store.half, &self.desk);
        end(mem::replace(&mut store.held, Held::Drawn(draw)));
        Ok(Some(count))
    }

    /// Settles what is sealed, and answers the last revision that is settled. The store's half
    /// has the receipt, so that another store's can't be given.
    pub fn settle<D: Disk>(&mut self, store: &mut StoreHalf<D>) -> Result<Option<u64>, AllocError>
        // They are the halves of one committer.
        requires { AreHalves self.old store.old }
        // `Some`: what was sealed is settled, all of it, in both halves at once. `None` only
        // where no batch was sealed.
        ensures settled { IfOk result (λ o. MatchOption o (store.old.progress ≢ batch_sealed)
            (HaveSettled self.old self.new store.old store.new)) }
        // `None`: neither half has changed.
        ensures none { IfOk result (λ o. IfNone o
            ((self.new ≡ self.old) × (store.new ≡ store.old))) }
        // `Err` only where a batch was sealed.
        ensures memory { OnErr result (store.old.progress ≡ batch_sealed) }
        // `Err`: neither half has changed.
        ensures unchanged { OnErr result ((self.new ≡ self.old) × (store.new ≡ store.old)) }
        // They are halves of one committer still, and agree on what is drawn and settled.
        ensures halves { AreHalves self.new store.new × Agree self.new store.new }
    {
        self.half.agrees(&store.half);
        store.rest();
        let receipt = match mem::replace(&mut store.held, Held::Nothing) {
            Held::Sealed(receipt) => receipt,
            other => {
                end(mem::replace(&mut store.held, other));
                return Ok(None);
            }
        };
        match self.desk.settle(receipt) {
            Ok(()) => {
                self.half.settle(&mut store.half, &self.desk);
                Ok(Some(self.desk.settled_revision()))
            }
            Err((SettleFault::Stranger, receipt)) => {
                receipt.forgo();
                unreachable!()
            }
            Err((SettleFault::Memory, receipt)) => {
                end(mem::replace(&mut store.held, Held::Sealed(receipt)));
                Err(AllocError)
            }
        }
    }

    /// Gives the opening back, where no edit was accepted.
    pub fn into_opening(self) -> Opening
        // No edit was accepted.
        requires { log self.desk ≡ [] }
        ensures { result ≡ self.desk.store }
    {
        let DeskHalf { desk, half: _ } = self;
        desk.into_opening()
    }
}
