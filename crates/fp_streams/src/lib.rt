//! Readers and writers whose failures are counted.
#![tactic(auto)]

mod counted;
mod gathered;

pub use counted::{FailureCounted, StreamFault};
pub use gathered::WriteGathered;
