//! Sets of flags on a disk: what its bytes stand for, and how they are read back.
#![tactic(auto)]

mod batches;
mod bodies;
mod exact;
mod images;
mod laws;
mod recovering;
mod restoring;

pub use exact::{
    bytes_have_one_fault, bytes_stand_or_have_a_fault, faults_lie_within,
    standing_bytes_have_no_fault,
};
pub use laws::bytes_stand_for_one;
pub use recovering::recover;
pub use restoring::Replayer;
