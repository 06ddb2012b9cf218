//! JSON values as flagplane takes them: whole numbers, bounded nesting, one canonical text.
#![tactic(auto)]

mod escaping;
mod gathering;
mod next;
mod numbers;
mod places;
mod spares;
mod tree;
mod tree_reading;
mod utf8;
mod values;
mod walks;
mod writing;

pub use escaping::{put_quoted, unescaped_len};
pub use places::member_in_order;
pub use tree::Tree;
pub use tree_reading::read_tree;
pub use utf8::utf8_text;
pub use values::whole_numbers;
pub use writing::put_name;
