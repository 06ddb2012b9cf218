//! The desk: edits that wait, tickets for them, and what is settled.
#![tactic(auto)]

mod desk;
mod fault;
mod queue;

pub use desk::{Desk, MOST_QUEUED, Ticket};
pub use fault::{SettleFault, SubmitFault};
