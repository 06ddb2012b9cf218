//! Canonical JSON, read from its text straight to a tree.
#![tactic(auto)]

mod cursor;
mod numbers;
mod reading;
mod strings;

pub use cursor::Cursor;
pub use reading::{Unread, read_value};
