//! What a hall alone makes: that an edit wasn't taken, that one isn't known to be kept, what closes
//! the hall, that all that was taken is settled, and that a subscriber gets nothing more.

ghost use Rattle.std.specs.Prelude.{◌≡◌, is_some};

use crate::naming::Naming;
use fp_desk::{SubmitFault, Ticket};
use fp_edit::Edit;
use std::marker::{Model, PhantomData};
use std::snapshot::Snapshot;

/// That an edit wasn't taken, and why. A hall that refuses it makes one, and nothing else does.
#[derive(Drop)]
pub struct Refusal {
    pub(super) fault: SubmitFault,
    pub(super) edit: Snapshot<Edit>,
}

impl Model for Refusal {
    ghost use Rattle.fp_edit.specs.Edits.{proposal_of};
    ghost use Rattle.fp_hall.specs.Hall.{RefusalState};

    ghost Value = { RefusalState };

    ghost view = { λ r. record { fault = r.fault; edit = proposal_of r.edit.value } };
}

impl Refusal {
    /// Why the edit wasn't taken.
    pub fn fault(&self) -> SubmitFault
        ensures { result ≡ self.now.fault }
    {
        self.fault
    }
}

/// What closes the hall of this name. `Hall::new` makes one, and nothing else does.
#[derive(Drop)]
pub struct Closer<K: Naming> {
    pub(super) of: PhantomData<K>,
}

impl<K: Naming> Model for Closer<K> {
    ghost Value = { Unit {0} };

    ghost view = { λ _. tt };
}

/// That no batch is drawn any more, and all that was taken is settled: the plane is to stop,
/// nothing is drawn and nothing waits. `Hall::end` makes one, and nothing else does.
#[derive(Drop)]
pub struct AllSettled {
    pub(super) of: (),
}

impl Model for AllSettled {
    ghost Value = { Unit {0} };

    ghost view = { λ _. tt };
}

/// That a subscriber gets nothing more: the plane was stopped, or it has left. `Hall::staying` and
/// `Staying::where_left` make one, and nothing else does.
#[derive(Drop)]
pub struct Gone {
    pub(super) of: (),
}

impl Model for Gone {
    ghost Value = { Unit {0} };

    ghost view = { λ _. tt };
}

/// That subscribers stay, but those who have left. `Hall::staying` makes one, and nothing else does.
#[derive(Drop)]
pub struct Staying {
    pub(super) of: (),
}

impl Model for Staying {
    ghost Value = { Unit {0} };

    ghost view = { λ _. tt };
}

impl Staying {
    /// Asks whether a subscriber has left: `Some` exactly where it is answered so.
    pub fn where_left<G: Fn() -> bool>(self, has_left: &G) -> Option<Gone>
        requires { G.IsAlwaysCallable has_left.now }
        ensures { G.post has_left.now (is_some result) }
    {
        has_left().then(|| Gone { of: () })
    }
}

/// The ticket of an edit that isn't known to be kept: no edit is settled any more, and it isn't
/// settled, or what is settled isn't shown. A hall in which that is so makes one, and nothing else does.
#[derive(Drop)]
pub struct GivenUp {
    pub(super) ticket: Ticket,
}

impl Model for GivenUp {
    ghost use Rattle.std.specs.Coded.{codes};
    ghost use Rattle.fp_desk.specs.Desk.{TicketState};
    ghost use Rattle.fp_edit.specs.Flags.{coded_state};
    ghost use Rattle.fp_group_commit.specs.Changes.{coded_change};

    ghost Value = { TicketState };

    ghost coded = { Prim.hlevel (codes, coded_state, coded_change) };

    ghost view = { λ g. g.ticket };
}
