//! One flag: its key, and its definition, tested and made canonical once and shared from then on.
#![tactic(auto)]

mod choice;
mod definition;
mod faults;
mod key;
mod kind;
mod members;
mod reading;
mod resolving;
mod rules;
mod spelling;
mod text;
mod variants;

pub use definition::{DEEPEST_DEFINITION, Definition, LONGEST_DEFINITION};
pub use faults::{DefFault, KeyFault};
pub use key::{FlagKey, LONGEST_KEY};
pub use members::{MOST_METADATA, MOST_VARIANTS};
pub use resolving::{EvalFault, Reason, Resolved};
