//! A list that only its owner lengthens, and its beginnings as tokens. Both are there in proofs
//! alone and take no bytes.
#![tactic(auto)]

mod count;
mod growing;

pub use count::Count;
pub use growing::{Front, Growing, Lists};
