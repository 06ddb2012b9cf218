//! Rules as trees, and code that gives what they mean: its instructions, and the machine that runs
//! them on data.
#![tactic(auto)]

mod code;
mod few;
mod kept;
mod machine;
mod moment;
mod operator;
mod results;
mod table;

pub use code::{Code, Operand, Step};
pub use machine::Found;
pub use operator::{BinaryOperator, ChainOperator, Operator, UnaryOperator};
pub use table::{Share, Table};
