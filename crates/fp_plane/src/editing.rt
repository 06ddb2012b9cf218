//! What an editor's connection has of a plane.

ghost use Rattle.std.specs.Prelude.{◌≡◌, ◌≤◌, ◌++◌, ◌∷◌, [], IfOk, IfErr, MatchResult};
ghost use Rattle.fp_edit.specs.Edits.{change_in, proposal_of};
ghost use Rattle.fp_group_commit.specs.Tokens.{front_revision};
ghost use Rattle.fp_publish.specs.Fronts.{Begins};
ghost use Rattle.fp_hall.specs.Editors.{said_at};
ghost use Rattle.fp_hall.specs.Places.{StandsAt};
ghost use Rattle.fp_hall.specs.declared.editor.Said.TheVariants.{Unknown};

use crate::sealing::SealingPlane;
use fp_desk::Ticket;
use fp_disk::Disk;
use fp_edit::Edit;
use fp_group_commit::Told;
use fp_hall::{Editor, GivenUp, Naming, PlaneTicket, Refusal};
use fp_publish::Shown;
use log::Log;
use std::marker::Model;
use std::sync::Wait;
use std::time::Clock;

/// What an editor's connection has of a plane: it hands edits in, and waits for what becomes of
/// them. It is seen as all that was said to the editor, so nothing is handed in through it unseen,
/// and it gives nothing else of the plane.
#[derive(Drop)]
pub struct Editing<'a, K: Naming, D: Disk + Drop, R: Wait + Drop> {
    plane: &'a SealingPlane<K, D, R>,
    editor: Editor,
}

impl<'a, K: Naming, D: Disk + Drop, R: Wait + Drop> Model for Editing<'a, K, D, R> {
    ghost use Rattle.std.specs.Coded.{codes};
    ghost use Rattle.std.specs.Prelude.{List};
    ghost use Rattle.fp_edit.specs.Flags.{coded_state};
    ghost use Rattle.fp_group_commit.specs.Changes.{coded_change};
    ghost use Rattle.fp_hall.specs.declared.editor.Said.{Said};

    ghost Value = { List Said };

    ghost coded = { Prim.hlevel (codes, coded_state, coded_change) };

    ghost view = { λ e. e.editor };
}

impl<'a, K: Naming, D: Disk + Drop, R: Wait + Drop> Editing<'a, K, D, R> {
    /// Of a plane, for an editor to whom nothing was said.
    pub fn new(plane: &'a SealingPlane<K, D, R>) -> Editing<'a, K, D, R>
        ensures { result ≡ [] }
    {
        Editing {
            plane,
            editor: Editor::new(),
        }
    }
}

impl<'a, K: Naming, D: Disk + Drop, R: Wait + Clock + Log + Drop> Editing<'a, K, D, R> {
    /// Hands an edit in, as `Plane::submit` does. An editor that is alone seals it too; else the
    /// flusher does, which is woken behind that.
    pub fn submit(&mut self, edit: Edit) -> Result<PlaneTicket<K>, (Refusal, Edit)>
        // As of `Plane::submit`.
        ensures refused { IfErr result (λ e. e.0.edit ≡ proposal_of edit) }
        // As of `Plane::submit`.
        ensures ticket { IfOk result (λ t. (t.store ≡ K.store) × (t.edit ≡ proposal_of edit)) }
        // `Err`: the edit comes back.
        ensures given_back { IfErr result (λ e. e.1 ≡ edit) }
        // The hall said to the editor that it is taken, or why it isn't, and nothing else.
        ensures said { self.new ≡ self.old ++ said_at result ∷ [] }
    {
        self.plane.submit(edit, &mut self.editor)
    }

    /// Waits for what becomes of the ticket's edit, as `Plane::wait` does.
    pub fn wait(&mut self, ticket: PlaneTicket<K>) -> Result<(Ticket, Told, Shown), GivenUp>
        // The ticket that comes back, or is given up, is this one.
        ensures same { MatchResult result (λ p. p.0 ≡ ticket) (λ g. g ≡ ticket) }
        // `Ok`: what is told is of the plane's store, and has at least the ticket's revision.
        ensures told { IfOk result (λ p.
            (p.1.store ≡ K.store) × (ticket.revision ≤ front_revision p.1)) }
        // `Ok`: the ticket's edit is the one that makes its revision, in what is told.
        ensures place { IfOk result (λ p.
            StandsAt p.1 ticket.revision (change_in ticket.edit)) }
        // `Ok`: what is shown goes on from what is told.
        ensures shown { IfOk result (λ p. Begins p.1 p.2) }
        // `Ok`: the hall said nothing more to the editor. `Err`: that the ticket is given up.
        ensures said { MatchResult result (λ _. self.new ≡ self.old)
            (λ g. self.new ≡ self.old ++ Unknown g ∷ []) }
    {
        self.plane.plane().wait(ticket, &mut self.editor)
    }

    /// Takes the step of a compaction that this editor owes behind the batch that it sealed. Who was
    /// told of the batch needn't wait for it, so it comes behind the answer.
    pub fn go_on(&self) {
        self.plane.go_on();
    }
}
