//! The bytes of a flagplane disk: its header and its two slots, made and read.
#![tactic(auto)]

mod fault;
mod field;
mod format;
mod head;
mod header;
mod opening;
mod size;

pub use fault::OpenFault;
pub use format::{CreateFault, create};
pub use opening::{Place, SlotReader, open, read_disk};
pub use size::SlotSize;
