//! What happened, told to an operator who asked for it.
#![tactic(auto)]

mod event;
mod reported;
mod stamped;

pub use event::{Cause, Event, Port, Source, tell, tell_failure};
pub use reported::Reported;
pub use stamped::Stamped;
