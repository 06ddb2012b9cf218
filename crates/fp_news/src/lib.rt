//! News, of which newer replace older, and what a subscriber to them is sent.
#![tactic(auto)]

mod newest;
mod news;
mod outgoing;

pub use newest::Newest;
pub use news::News;
pub use outgoing::Outgoing;
