//! Disks whose writes count only after a sync: what a crash may leave of one, a disk in memory that
//! fails and crashes as it is told, a disk over a file, and tokens of the syncs that succeeded.
#![tactic(auto)]

mod call;
mod checked;
mod choice;
mod crash;
mod disk;
mod failing;
mod file;
mod history;
mod memory;

pub use call::{Bytes, Call, Progress, Request};
pub use checked::{Checked, Synced};
pub use choice::{Choice, Fill};
pub use disk::{Disk, DiskFault};
pub use failing::{FailedWrite, Failing};
pub use file::FileDisk;
pub use history::{CallKind, History};
pub use memory::MemoryDisk;
