//! What subscribers say, and the snapshots that they get: hellos and frames.
#![tactic(auto)]

mod decoder;
mod fault;
mod frame;
mod head;
mod hello;
mod laws;
mod reading;
mod watch;

pub use decoder::Decoder;
pub use fault::FrameFault;
pub use frame::{Frame, write_frame};
pub use head::{HEAD, MOST_BODY, head_bytes};
pub use hello::{Hello, HelloFault, read_hello, write_hello};
pub use laws::{no_other_frames, one_reading, what_is_written_is_read};
pub use watch::{WatchFault, watch_loop};
