//! Flags by their keys, and the documents that show them.
#![tactic(auto)]

mod document;
mod flags;

pub use document::{Document, document_after, document_of};
pub use flags::{
    FLAG_FRAME, Flag, IMAGE_HEAD, copy_of, cost_at, cost_of, count, find, store, take,
};
