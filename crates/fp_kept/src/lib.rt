//! The last frame, kept over restarts: as bytes with their digest, and in a file.
#![tactic(auto)]

mod keeping;
mod kept;
mod kept_files;
mod replacing;

pub use keeping::KeptFile;
pub use kept::{KeptParts, decode, parts_of};
pub use kept_files::{KeptFiles, SystemFiles};
pub use replacing::{Beside, Made, Renamed, Replaced};
