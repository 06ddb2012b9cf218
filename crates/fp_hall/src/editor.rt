//! An editor of a plane, by what a hall said to it.

ghost use Rattle.std.specs.Prelude.{◌≡◌, ◌++◌, ◌∷◌, []};
ghost use Rattle.fp_hall.specs.declared.editor.Said.TheVariants as said;

use crate::hall::{GivenUp, Refusal};
use crate::naming::Naming;
use crate::ticket::PlaneTicket;
use fp_desk::Ticket;
use fp_fronts::{Growing, Lists};
use std::marker::Model;

/// What a hall says to an editor, as an element of the list of all that was said to it.
#[derive(Drop)]
pub enum Said {
    /// Its edit is taken, by this ticket.
    Taken(Ticket),
    /// Its edit isn't taken.
    Refused(Refusal),
    /// The edit that it has this ticket of isn't known to be kept.
    Unknown(GivenUp),
}

// Lists of the one thing said, a marker for each kind.
struct OneTaken;

impl<K: Naming> Lists<PlaneTicket<K>, Said> for OneTaken {
    ghost items = { λ t. said.Taken t ∷ [] };
}

struct OneRefused;

impl Lists<Refusal, Said> for OneRefused {
    ghost items = { λ r. said.Refused r ∷ [] };
}

struct OneUnknown;

impl Lists<GivenUp, Said> for OneUnknown {
    ghost items = { λ g. said.Unknown g ∷ [] };
}

/// An editor: all that a hall said to it, in order. It is there in proofs alone, so it takes no
/// bytes; only a hall makes it longer.
#[derive(Drop)]
pub struct Editor {
    heard: Growing<Said>,
}

impl Model for Editor {
    ghost use Rattle.std.specs.Coded.{codes};
    ghost use Rattle.std.specs.Prelude.{List};
    ghost use Rattle.fp_edit.specs.Flags.{coded_state};
    ghost use Rattle.fp_group_commit.specs.Changes.{coded_change};
    ghost use Rattle.fp_hall.specs.declared.editor.Said.{Said};

    ghost Value = { List Said };

    ghost coded = { Prim.hlevel (codes, coded_state, coded_change) };

    ghost view = { λ e. e.heard.log };
}

impl Editor {
    /// One to whom nothing was said.
    pub fn new() -> Editor
        ensures { result ≡ [] }
    {
        Editor {
            heard: Growing::new().0,
        }
    }

    pub(crate) fn hear_taken<K: Naming>(&mut self, ticket: &PlaneTicket<K>)
        ensures { self.new ≡ self.old ++ said.Taken ticket.now ∷ [] }
    {
        self.heard.lengthen::<PlaneTicket<K>, OneTaken>(ticket);
    }

    pub(crate) fn hear_refused(&mut self, refusal: &Refusal)
        ensures { self.new ≡ self.old ++ said.Refused refusal.now ∷ [] }
    {
        self.heard.lengthen::<Refusal, OneRefused>(refusal);
    }

    pub(crate) fn hear_unknown(&mut self, given_up: &GivenUp)
        ensures { self.new ≡ self.old ++ said.Unknown given_up.now ∷ [] }
    {
        self.heard.lengthen::<GivenUp, OneUnknown>(given_up);
    }
}
