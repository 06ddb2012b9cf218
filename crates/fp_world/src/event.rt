//! What a world is asked, and what it answers.

ghost use Rattle.std.specs.Prelude.{◌≡◌};

use crate::request::{Moment, Request};
use fp_committer::Answer as Committed;
use fp_desk::SubmitFault;
use fp_edit::Edit;
use fp_group_commit::StoreFault;
use fp_ofrep::Reply as Evaluation;
use fp_publish::Handed;
use fp_slots::Step;

/// One call of the desk or of the board, or one call of the disk by the store.
#[derive(Drop)]
pub enum Event {
    /// An editor hands in an edit.
    Submit(Edit),
    /// A batch is drawn of what waits.
    Draw,
    /// What is drawn is written.
    Stage,
    /// The batch is made sure of.
    SyncBody,
    /// Its gate is opened.
    OpenGate,
    /// The gate is made sure of.
    SyncGate,
    /// What is sealed is settled.
    Settle,
    /// The editor of the ticket for this revision asks whether it is settled.
    Ack(u64),
    /// The next step of a compaction is taken.
    Compact,
    /// What is settled is published.
    Publish,
    /// The subscriber of this seat asks for what is published.
    Hand(usize),
    /// This evaluator is asked, at this moment.
    Evaluate(usize, Request, Moment),
}

/// What became of an event.
#[derive(Drop)]
pub enum Answer {
    /// It isn't its turn, and nothing changed.
    NotNow,
    /// Memory ran out, and nothing changed.
    Memory,
    /// The edit wasn't accepted.
    Refused(SubmitFault),
    /// The store didn't do it.
    Fault(StoreFault),
    /// The edit was accepted, and makes this revision.
    Ticket(u64),
    /// So many edits were drawn.
    Drawn(usize),
    /// The call was made.
    Done,
    /// All up to this revision is sealed.
    Sealed(u64),
    /// All up to this revision is settled.
    Settled(u64),
    /// This revision is settled.
    Acked(u64),
    /// It isn't settled yet.
    Waiting,
    /// The step was taken, and this is the next one.
    Phase(Step),
    /// All up to this revision is published.
    Published(u64),
    /// The subscriber is handed this.
    Handed(Handed),
    /// The subscriber has it already.
    Nothing,
    /// The reply over what is published, which is at this revision.
    Reply(u64, Evaluation),
}

impl From<Committed> for Answer {
    ghost use Rattle.fp_world.specs.Events.{answer_by};

    ghost from_gives = { λ said a. a ≡ answer_by said };

    fn from(said: Committed) -> Answer {
        match said {
            Committed::NotNow => Answer::NotNow,
            Committed::Memory => Answer::Memory,
            Committed::Refused(fault) => Answer::Refused(fault),
            Committed::Fault(fault) => Answer::Fault(fault),
            Committed::Ticket(revision) => Answer::Ticket(revision),
            Committed::Drawn(count) => Answer::Drawn(count),
            Committed::Done => Answer::Done,
            Committed::Sealed(revision) => Answer::Sealed(revision),
            Committed::Settled(revision) => Answer::Settled(revision),
            Committed::Acked(revision) => Answer::Acked(revision),
            Committed::Waiting => Answer::Waiting,
            Committed::Phase(step) => Answer::Phase(step),
        }
    }
}
