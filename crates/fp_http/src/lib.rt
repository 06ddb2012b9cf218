//! The OpenFeature Remote Evaluation Protocol over one HTTP/1.1 connection.
#![tactic(auto)]

mod asked;
mod blocking;
mod connection;
mod evaluator;
mod fault;
mod gathering;
mod limits;
mod published;
mod response;
mod service;
mod waiting;

pub use blocking::{Blocking, Note, Patient};
pub use connection::serve_ofrep;
pub use evaluator::Evaluator;
pub use fault::NoReply;
pub use fp_ofrep::Moment;
pub use limits::{Stop, TimeLimits};
pub use published::Keeping;
