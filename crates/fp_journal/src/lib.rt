//! Batches in one slot of a disk, each behind a gate that opens only once what it guards is synced.
#![tactic(auto)]

mod chain;
mod framed;
mod held;
mod journal;
mod opening;
mod pieces;
mod sealed;
mod slot;
mod text;
mod window;

pub use chain::{BodyFault, ChainFault, Reader, read_chain};
pub use framed::{BODY_PLACE, FRAME, Framed, LENGTH_FIELD};
pub use journal::{Journal, Phase};
pub use opening::resume;
pub use pieces::{BytesFault, PIECE, read_bytes, read_first};
pub use sealed::{Body, Sealed};
pub use slot::Slot;
pub use text::Text;
