//! Editors, evaluators, subscribers and a flusher in threads, over one desk and one board.
#![tactic(auto)]

mod bells;
mod editing;
mod evaluating;
mod flushing;
mod gathering;
mod leading;
mod owned;
mod pausing;
mod plane;
mod sealing;
mod telling;
mod turns;

pub use editing::Editing;
pub use evaluating::Evaluating;
pub use flushing::{Broken, Flushed, flusher};
pub use fp_hall::{
    Accepted, AllSettled, Closer, Editor, EvaluatorsUsed, GivenUp, Gone, Hall, Naming, PlaneTicket,
    Refusal, Said, TakenSeat,
};
pub use owned::OwnHalf;
pub use plane::Plane;
pub use sealing::SealingPlane;
