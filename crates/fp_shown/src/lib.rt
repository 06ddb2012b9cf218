//! Sets of flags made of the snapshots of a stream, and that they are the sets of the plane.
#![tactic(auto)]

mod fault;
mod lawful;
mod laws;
mod members;
mod reading;
mod shown;

pub use fault::ShownFault;
pub use lawful::every_set_is_lawful;
pub use laws::{same_document_same_reply, shows_what_was_handed};
pub use reading::SHOWN_LIMIT;
pub use shown::Shown;
