//! What a committer is asked, and what it answers.

use fp_desk::SubmitFault;
use fp_edit::Edit;
use fp_group_commit::StoreFault;
use fp_slots::Step;

/// One call of the desk, or one call of the disk by the store.
#[derive(Drop)]
pub enum Event {
    /// An editor hands in an edit.
    Submit(Edit),
    /// A batch is drawn of what waits.
    Draw,
    /// What is drawn is written.
    Stage,
    /// The batch is made sure of.
    SyncBody,
    /// Its gate is opened.
    OpenGate,
    /// The gate is made sure of.
    SyncGate,
    /// What is sealed is settled.
    Settle,
    /// The editor of the ticket for this revision asks whether it is settled.
    Ack(u64),
    /// The next step of a compaction is taken.
    Compact,
}

/// What became of an event.
#[derive(Drop)]
pub enum Answer {
    /// It isn't its turn, and nothing changed.
    NotNow,
    /// Memory ran out, and nothing changed.
    Memory,
    /// The edit wasn't accepted.
    Refused(SubmitFault),
    /// The store didn't do it.
    Fault(StoreFault),
    /// The edit was accepted, and makes this revision.
    Ticket(u64),
    /// So many edits were drawn.
    Drawn(usize),
    /// The call was made.
    Done,
    /// All up to this revision is sealed.
    Sealed(u64),
    /// All up to this revision is settled.
    Settled(u64),
    /// This revision is settled.
    Acked(u64),
    /// It isn't settled yet.
    Waiting,
    /// The step was taken, and this is the next one.
    Phase(Step),
}
