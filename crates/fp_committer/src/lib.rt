//! What brings edits from a desk to a disk: the store's half and the desk's, which can be held apart,
//! and both as one committer.
#![tactic(auto)]

mod batch;
mod committer;
mod desk_half;
mod event;
mod fault;
mod half;
mod held;
mod room;
mod sealing;
mod store_half;

pub use committer::Committer;
pub use desk_half::DeskHalf;
pub use event::{Answer, Event};
pub use fault::CommitFault;
pub use store_half::StoreHalf;
