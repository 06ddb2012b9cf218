//! Edits that a set accepts and that aren't made in it yet: what it accepts behind them, and how it
//! catches up with them.
#![tactic(auto)]

mod ahead;
mod behind;
mod costs;
mod tally;

pub use ahead::{catch_up, copies_of};
pub use behind::{accepts, accepts_behind};
