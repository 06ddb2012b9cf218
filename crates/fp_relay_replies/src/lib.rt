//! What a relay responds over what it shows: to evaluations, to web pages, to operators.
#![tactic(auto)]

mod cross_origin;
mod evaluating;
mod metrics;
mod origins;
mod spelling;
mod status;

pub use cross_origin::{Allowance, Origins};
pub use evaluating::respond;
pub use fp_ofrep::Moment;
pub use origins::is_origin;
pub use status::{Answered, Report, answer_status};
