//! A store that seals edits on a disk in batches, and the tokens that tell what it keeps.
#![tactic(auto)]

mod batch;
mod compacting;
mod draw;
mod fault;
mod making;
mod opening;
mod part;
mod phase;
mod receipt;
mod settled;
mod store;

pub use draw::{Draw, spelled_sum};
pub use fault::{CreateFault, StoreFault};
pub use opening::Opening;
pub use part::Part;
pub use phase::Phase;
pub use receipt::Receipt;
pub use settled::{Settled, Told};
pub use store::Store;
