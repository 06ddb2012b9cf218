//! The data that rules compute with, and what each operator gives for it.
#![tactic(auto)]

mod arithmetic;
mod datum;
mod equality;
mod kept_text;
pub mod laws;
mod murmur;
mod numeral;
mod order;
mod path;
mod share;
mod text;
mod truth;
mod version;

pub use arithmetic::remainder;
pub use datum::Datum;
pub use equality::{loosely_equal, loosely_unequal, strictly_equal, strictly_unequal};
pub use kept_text::Text;
pub use murmur::hash_of;
pub use order::{
    between_exclusive, between_inclusive, greater, greater_or_equal, less, less_or_equal,
};
pub use path::{at_text, named, step, variable};
pub use share::place_below;
pub use text::{append_text, ends_with, is_in, starts_with};
pub use truth::{is_falsy, is_truthy};
pub use version::sem_ver;
