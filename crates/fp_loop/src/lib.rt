//! Many connections on few threads: HTTP services and streams of frames over readiness.
#![tactic(auto)]

mod counting;
mod door;
mod heard;
mod inbox;
mod informed;
mod member;
mod peer;
mod queue;
mod refusal;
mod socket;
mod starting;
mod subscriber;
mod talk;
mod times;
mod turn;
mod turning;

pub use door::Door;
pub use inbox::{Inbox, Loops};
pub use informed::Informed;
pub use talk::MOST_REQUEST;
pub use times::{Limits, Waiting, is_over_time};
pub use turning::Loop;
