//! What editors, evaluators, subscribers and a flusher share under one lock: a desk and a board, and
//! what is lent of them.
#![tactic(auto)]

mod editor;
mod hall;
mod naming;
mod own_board;
mod ticket;

pub use editor::{Editor, Said};
pub use hall::{
    AllSettled, Closer, EvaluatorsUsed, GivenUp, Gone, Hall, Refusal, Staying, TakenSeat,
};
pub use naming::Naming;
pub use ticket::{Accepted, PlaneTicket};
