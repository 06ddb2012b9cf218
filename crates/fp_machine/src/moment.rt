//! Whether code may read the moment of an evaluation.

ghost use Rattle.std.specs.Prelude.{◌≡◌};
ghost use Rattle.fp_operators.specs.Path.{parts};
ghost use Rattle.fp_machine.specs.Moment.{any_reads, is_of_the_moment, operand_reads};
ghost use Rattle.fp_machine.specs.Moment.{parts_read, path_reads, step_reads};
ghost use Rattle.fp_machine.specs.Reading.{env_of};
ghost use Rattle.fp_machine.specs.declared.code.Operand.TheVariants.{Variable};

use crate::code::{Code, Operand, Step};
use crate::machine::path_at;

impl Code {
    /// Some instruction may read the moment: it takes all data, what a computed path names, or
    /// what stands beside the context, but for the flag's key.
    pub fn reads_moment(&self) -> bool
        // Whether any instruction may, by its operands.
        ensures { result ≡ any_reads (env_of self.now) self.now.steps.items }
    {
        for step in self.steps.iter() {
            if self.step_reads(step) {
                return true;
            }
        }
        false
    }

    fn step_reads(&self, step: &Step) -> bool
        ensures { result ≡ step_reads (env_of self.now) step.now }
    {
        match step {
            Step::Find(_) => true,
            Step::FindVariable { path, .. } => self.variable_reads(*path),
            Step::Load(operand) => self.operand_reads(operand),
            Step::KeepOf(operand) => self.operand_reads(operand),
            Step::One(_, operand) => self.operand_reads(operand),
            Step::Split(operand, _) => self.operand_reads(operand),
            Step::Two(_, a, b) => self.operand_reads(a) || self.operand_reads(b),
            Step::Three(_, a, b) => self.operand_reads(a) || self.operand_reads(b),
            _ => false,
        }
    }

    fn operand_reads(&self, operand: &Operand) -> bool
        ensures { result ≡ operand_reads (env_of self.now) operand.now }
    {
        match operand {
            Operand::Variable(place) => self.variable_reads(*place),
            Operand::All => true,
            _ => false,
        }
    }

    fn variable_reads(&self, place: u16) -> bool
        ensures { result ≡ operand_reads (env_of self.now) (Variable place) }
    {
        path_reads(path_at(self.pool.as_slice(), place))
    }
}

// The empty path names all data.
fn path_reads(path: &str) -> bool
    ensures { result ≡ path_reads path.now }
{
    if path.is_empty() {
        return true;
    }
    below(path)
}

fn below(path: &str) -> bool
    ensures { result ≡ parts_read (parts path.now) }
{
    match path.split_once('.') {
        None => path == "$flagd",
        Some((first, rest)) => first == "$flagd" && is_of_the_moment(rest),
    }
}

fn is_of_the_moment(rest: &str) -> bool
    ensures { result ≡ is_of_the_moment (parts rest.now) }
{
    match rest.split_once('.') {
        None => rest != "flagKey",
        Some((part, _)) => part != "flagKey",
    }
}
