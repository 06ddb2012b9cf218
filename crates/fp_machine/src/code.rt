//! The code of a rule: instructions, and the constants that they name.

use crate::operator::Operator;
use crate::table::Table;
use fp_operators::Datum;

/// Where an operator finds what an argument gives. Places are of 16 bits, so that an instruction
/// takes 16 bytes.
#[derive(Clone, Copy, Drop)]
pub enum Operand {
    /// A constant, by its place in the pool.
    Constant(u16),
    /// What a path names in the data, else null: the text at its place in the pool.
    Variable(u16),
    /// All data.
    All,
    /// The result at hand.
    AtHand,
}

/// An instruction. One result is at hand, and others are kept on a stack.
#[derive(Drop)]
pub enum Step {
    /// The operand is at hand next.
    Load(Operand),
    /// Null is at hand next.
    LoadNull,
    /// The number is at hand next: it has room in the instruction.
    LoadWhole(i64),
    /// What is at hand goes onto the stack.
    Keep,
    /// What the operand is goes onto the stack.
    KeepOf(Operand),
    /// So many instructions are skipped.
    Skip(u32),
    /// So many are skipped where what is at hand is false.
    SkipIfFalse(u32),
    /// So many are skipped where what is at hand is true.
    SkipIfTrue(u32),
    /// What is at hand is a path. Where it names something in the data, that is at hand next, and
    /// so many instructions are skipped; else null is.
    Find(u32),
    /// The same of a path that is known, as in `Operand::Variable`.
    FindVariable { path: u16, skip: u32 },
    /// An operator's result for one operand is at hand next.
    One(Operator, Operand),
    /// The same of two.
    Two(Operator, Operand, Operand),
    /// The same of two and what is at hand.
    Three(Operator, Operand, Operand),
    /// The same of the last kept result and what is at hand.
    Second(Operator),
    /// The same of the last two kept results and what is at hand.
    Third(Operator),
    /// The texts of so many kept results, joined.
    Join(u32),
    /// A list of so many kept results.
    Collect(u32),
    /// A list of what is at hand alone.
    Wrap,
    /// The name whose share the operand falls to.
    Split(Operand, Table),
    /// The name whose share the flag's key followed by the targeting key falls to.
    SplitByOwnKey(Table),
    /// An operator's arguments, so many, end here. Does nothing.
    End(Operator, u32),
}

/// The code of a rule. Instructions stand from the last one to the first, so that what one skips
/// is known when it is added.
#[derive(Drop)]
pub struct Code {
    pub steps: Vec<Step>,
    pub pool: Vec<Datum>,
    /// The most results that are kept at once.
    pub room: usize,
}
