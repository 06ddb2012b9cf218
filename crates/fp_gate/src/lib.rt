//! One byte of a disk as a gate: what it guards counts only where it is a5, and
//! opening it costs a sync.
#![tactic(auto)]

mod gate;

pub use gate::{Closed, Gate, OPEN, Open, Written};
