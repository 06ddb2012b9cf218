//! Tickets of a plane, which know where their edits stand.

ghost use Rattle.std.specs.Prelude.{◌≡◌, ◌+◌, ◌∷◌, ◌++◌, [], length};
ghost use Rattle.fp_edit.specs.Edits.{change_in, proposal_of};
ghost use Rattle.fp_hall.specs.Places.{StandsAt};

use crate::naming::Naming;
use fp_desk::Ticket;
use fp_edit::Edit;
use fp_fronts::{Front, Growing, Lists};
use std::marker::{Model, PhantomData};
use std::snapshot::Snapshot;

/// What an edit changed, as an element of the list of all that a plane accepted.
#[derive(Drop)]
pub struct Accepted {
    edit: Edit,
}

impl Model for Accepted {
    ghost use Rattle.fp_edit.specs.Edits.{Change};
    ghost use Rattle.fp_edit.specs.Following.{change_of};
    ghost use Rattle.fp_group_commit.specs.Changes.{coded_change};

    ghost Value = { Change };

    ghost coded = { coded_change };

    ghost view = { λ a. change_of a.edit };
}

// One edit, as it was handed in.
struct OneEdit;

impl Lists<Snapshot<Edit>, Accepted> for OneEdit {
    ghost items = { λ s. change_in (proposal_of s.value) ∷ [] };
}

/// The ticket of an edit that the plane of this name accepted. It knows that its edit stands at its
/// revision among all that the plane accepts.
#[derive(Drop)]
pub struct PlaneTicket<K: Naming> {
    ticket: Ticket,
    // All that was accepted, up to its edit. It has no bytes.
    accepted: Front<Accepted>,
    of: PhantomData<K>,
}

impl<K: Naming> Model for PlaneTicket<K> {
    ghost use Rattle.std.specs.Coded.{codes};
    ghost use Rattle.std.specs.Prelude.{◌≡◌};
    ghost use Rattle.fp_desk.specs.Desk.{TicketState};
    ghost use Rattle.fp_edit.specs.Edits.{change_in};
    ghost use Rattle.fp_edit.specs.Flags.{coded_state};
    ghost use Rattle.fp_group_commit.specs.Changes.{coded_change};
    ghost use Rattle.fp_hall.specs.Places.{StandsAt};

    ghost Value = { TicketState };

    ghost coded = { Prim.hlevel (codes, coded_state, coded_change) };

    ghost view = { λ t. t.ticket };

    ghost invariant = { λ t. (t.ticket.store ≡ K.store) × (t.accepted.name ≡ K.accepted)
        × StandsAt (record { store = K.store; edits = t.accepted.log }) t.ticket.revision
        (change_in t.ticket.edit) };
}

impl<K: Naming> PlaneTicket<K> {
    /// The revision that its edit makes.
    pub fn revision(&self) -> u64
        ensures { result ≡ self.now.revision }
    {
        self.ticket.revision()
    }

    /// Lends the ticket alone.
    pub(crate) fn ticket(&self) -> &Ticket
        ensures { result.now ≡ self.now }
    {
        &self.ticket
    }

    /// The ticket alone.
    pub fn into_ticket(self) -> Ticket
        ensures { result ≡ self }
    {
        let Self {
            ticket,
            accepted: _,
            of: _,
        } = self;
        ticket
    }

    // Puts its edit behind all that was accepted before.
    pub(crate) fn of(
        ticket: Ticket,
        edit: &Snapshot<Edit>,
        all: &mut Growing<Accepted>,
    ) -> PlaneTicket<K>
        requires store { ticket.store ≡ K.store }
        requires named { all.old.name ≡ K.accepted }
        requires edit { ticket.edit ≡ proposal_of edit.now.value }
        requires next { ticket.revision
            ≡ K.store.start.revision + length all.old.log + 1 }
        ensures same { result ≡ ticket }
        ensures named { all.new.name ≡ all.old.name }
        ensures listed { all.new.log ≡ all.old.log ++ change_in ticket.edit ∷ [] }
    {
        PlaneTicket {
            ticket,
            accepted: all.lengthen::<Snapshot<Edit>, OneEdit>(edit),
            of: PhantomData,
        }
    }

    // Shows that its edit stands at its revision among all that was accepted. Does nothing when it
    // runs.
    pub(crate) fn stands_in(&self, all: &Growing<Accepted>)
        requires { all.now.name ≡ K.accepted }
        ensures { StandsAt (record { store = K.store; edits = all.now.log }) self.now.revision
            (change_in self.now.edit) }
    {
        all.confirm(&self.accepted)
    }
}
