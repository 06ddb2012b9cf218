//! What opens the disk at a path.
#![tactic(auto)]

mod files;
mod locks;
mod openings;
mod single;
mod system;

pub use files::DiskFiles;
pub use openings::{OpeningLog, Purpose};
pub use single::SingleFile;
pub use system::{SystemDisk, SystemFiles};
