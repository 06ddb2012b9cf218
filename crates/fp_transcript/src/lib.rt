//! Files of commands with the answers to them: read, answered again and compared.
#![tactic(auto)]

mod answering;
mod args;
mod comparing;
mod expand;
mod text;

pub use answering::{Answers, cases, transcript};
pub use args::{Args, first_word, number};
pub use comparing::{report, rewrite};
pub use expand::{Texts, expanded};
pub use text::Text;
