//! The published view: the settled set of a desk, which evaluators take without waiting.
#![tactic(auto)]

mod board;
mod evaluator;
mod page;
mod published;
mod rule;
mod seats;
mod shown;

pub use board::{Board, MOST_EVALUATORS};
pub use evaluator::{Closed, Evaluator};
pub use published::{Published, View};
pub use seats::{Handed, MOST_SEATS, Seat, Seats, SeatsUsed};
pub use shown::Shown;
