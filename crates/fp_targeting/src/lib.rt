//! Targeting rules: from JSON to a rule, and from a rule and data to a result.
#![tactic(auto)]

mod build;
mod builder;
mod data;
mod json;
pub mod laws;
mod names;
mod operands;
mod pairs;
mod rule;
mod strict;
mod turn;

pub use data::Data;
pub use fp_base::whole_numbers;
pub use fp_machine::Found;
pub use pairs::GREATEST_WEIGHT;
pub use rule::{DEEPEST_RULE, MOST_RULE_VALUES, Rule, RuleFault};
pub use turn::ROOM_FOR_A_KEY;
