//! Edits and where they go: the loop from what is asked to replies, over streams.
#![tactic(auto)]

mod batching;
mod chunk;
mod commit;
mod disk_session;
mod edit_store;
mod fault;
mod import;
mod input;
mod laws;
mod line;
mod replies;
mod reply;
mod request;
mod run;
mod show;
mod source;

pub use disk_session::DiskSession;
pub use edit_store::EditStore;
pub use fault::ApplyFault;
pub use fp_committer::CommitFault;
pub use import::import_flags;
pub use input::{InputLines, apply_lines};
pub use laws::closes_and_opens;
pub use reply::Reply;
pub use show::shown;
pub use source::EditSource;
