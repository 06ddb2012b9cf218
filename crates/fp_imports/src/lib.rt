//! Flagd documents: what they define, once the references in their targeting are replaced.
#![tactic(auto)]

mod document;
mod faults;
mod references;

pub use document::{expand_document, expand_tree};
pub use faults::ImportFault;
pub use references::{MOST_EXPANDED_VALUES, MOST_REPLACEMENTS};
