//! The program's commands, over its words, its streams and a disk.
#![tactic(auto)]

mod disk;
mod document;
mod ending;
mod eval;
mod fault;
mod program;

pub use disk::{apply_disk, import_disk, init_disk, show_disk};
pub use ending::status_of;
pub use eval::eval_disk;
pub use fault::CommandFault;
pub use program::command;
