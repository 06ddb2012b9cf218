//! A compaction: what the slot that rules keeps is written into the other one,
//! beside batches, and that takes its place.
#![tactic(auto)]

mod batches;
mod image;
mod machine;
mod opening;
mod room;
mod steps;

pub use batches::{make_ready, open_gate, phase, stage, sync_body, sync_gate};
pub use image::image_of;
pub use machine::{StepFault, take_step};
pub use opening::open;
pub use room::has_room;
pub use steps::{begin, chunk, close, copy_tail, finish, open_other, seal, sync_close};
