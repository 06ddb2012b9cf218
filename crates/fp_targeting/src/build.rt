//! From a tree of JSON to the code of the rule that it writes.

ghost use Rattle.std.specs.Prelude.{◌≡◌, ◌≤◌, ◌+◌, [], true, false, Some, None, IfOk, length};
ghost use Rattle.serde_json.specs.Data.{depth};
ghost use Rattle.fp_base.specs.Count.{count};
ghost use Rattle.fp_base.specs.Ordered.{IsOrdered, AreOrdered};
ghost use Rattle.fp_base.specs.TreeView.{tree_view, tree_items};
ghost use Rattle.fp_targeting.specs.Compiles.{Compiles, CompileAll, Applies, IsCompiled, NoRule};
ghost use Rattle.fp_targeting.specs.Compiles.{is_array};
ghost use Rattle.fp_targeting.specs.Emits.{Adds, Decides, Finds};
ghost use Rattle.fp_machine.specs.Sound.{IsSound};
ghost use Rattle.fp_machine.specs.Operators.{takes};
ghost use Rattle.fp_machine.specs.Reading.{rule_of_code};
ghost use Rattle.fp_machine.specs.Rule.{apply, rule};
ghost use Rattle.fp_targeting.specs.Strict.{stops, skip_past, looks_at_results};
ghost use Rattle.fp_machine.specs.View.{rules_of};
ghost use Rattle.fp_machine.specs.declared.code.Code.{Code};
ghost use Rattle.fp_machine.specs.declared.operator.Operator.TheVariants.{If, Var, Fractional};
ghost use Rattle.fp_machine.specs.Numbers.{DEEPEST_RULE};
ghost use Rattle.fp_targeting.specs.Numbers.{MOST_RULE_VALUES};

use crate::builder::{Builder, short};
use crate::json::{are_literals, arguments, is_array, text_of};
use crate::pairs::read_table;
use fp_base::Tree as Json;
use fp_machine::{Code, Operand, Operator, Step, Table};
use std::alloc::{AllocError, Global};

// So many instructions and constants have room beside those that a rule of few values mostly has.
const SPARE: usize = 4;

/// The code of a rule of about so many JSON values, or none where the value is no rule or has an
/// unknown operator. Mostly there is half an instruction and a quarter of a constant a value: so
/// much room is taken at once, and what isn't needed is given back.
pub fn code_of(alloc: Global, json: &Json<'_>, values: usize) -> Result<Option<Code>, AllocError>
    requires ordered { IsOrdered (tree_view json.now) }
    requires few { count (tree_view json.now) ≤ MOST_RULE_VALUES }
    requires flat { depth (tree_view json.now) ≤ DEEPEST_RULE }
    ensures some { IfOk result (λ x. (code : Code) → x ≡ Some code
        → IsCompiled (λ r. (r ≡ rule_of_code code) × IsSound code) (tree_view json.now)) }
    ensures none { IfOk result (λ x. x ≡ None → NoRule (tree_view json.now)) }
{
    let mut builder = Builder {
        code: no_code(alloc, values)?,
    };
    if !builder.compute(alloc, json, 0)? {
        return Ok(None);
    }
    builder.shrink();
    Ok(Some(builder.code))
}

// No code yet, with room for that of a rule of so many values.
fn no_code(alloc: Global, values: usize) -> Result<Code, AllocError>
    ensures { IfOk result (λ code.
        (code.steps.items ≡ []) × (code.pool.items ≡ []) × (code.room ≡ 0)) }
{
    Ok(Code {
        steps: Vec::with_capacity(alloc, values / 2 + SPARE)?,
        pool: Vec::with_capacity(alloc, values / 4 + SPARE)?,
        room: 0,
    })
}

impl Builder {
    // Code of the arguments of `and` and `or`: each but the last one may decide.
    #[cycle(build)]
    fn conditions(
        &mut self,
        alloc: Global,
        operator: Operator,
        arguments: &[Json<'_>],
        height: usize,
    ) -> Result<bool, AllocError>
        requires stops { stops operator ≡ true }
        requires any { 1 ≤ length arguments.now }
        requires ordered { AreOrdered (tree_items arguments.now) }
        ensures { IfOk result (λ done. CompileAll done
            (λ rs. Decides operator height rs self.old.code self.new.code)
            (tree_items arguments.now)) }
    {
        let end = self.code.steps.len();
        let mut left = arguments.len() - 1;
        if !self.compute(alloc, &arguments[left], height)? {
            return Ok(false);
        }
        'conditions: while left > 0 {
            left -= 1;
            let skipped = short(self.code.steps.len() - end)?;
            self.push(skip_past(operator, skipped))?;
            if !self.compute(alloc, &arguments[left], height)? {
                return Ok(false);
            }
        }
        Ok(true)
    }

    // Code of the arguments of `if` behind so many pairs, which may be one alone or none.
    #[cycle(build)]
    fn otherwise(
        &mut self,
        alloc: Global,
        arguments: &[Json<'_>],
        height: usize,
    ) -> Result<bool, AllocError>
        requires few { length arguments.now ≤ 1 }
        requires ordered { AreOrdered (tree_items arguments.now) }
        ensures { IfOk result (λ done. CompileAll done
            (λ rs. Decides If height rs self.old.code self.new.code) (tree_items arguments.now)) }
    {
        match arguments {
            [last, ..] => Ok(self.compute(alloc, last, height)?),
            [] => {
                self.push(Step::LoadNull)?;
                Ok(true)
            }
        }
    }

    // Code of the arguments of `if`: pairs of a condition and what is the result then.
    #[cycle(build)]
    fn branches(
        &mut self,
        alloc: Global,
        arguments: &[Json<'_>],
        height: usize,
    ) -> Result<bool, AllocError>
        requires ordered { AreOrdered (tree_items arguments.now) }
        ensures { IfOk result (λ done. CompileAll done
            (λ rs. Decides If height rs self.old.code self.new.code) (tree_items arguments.now)) }
    {
        let end = self.code.steps.len();
        let mut pairs = arguments.len() / 2;
        if !self.otherwise(alloc, &arguments[2 * pairs..], height)? {
            return Ok(false);
        }
        'pairs: while pairs > 0 {
            pairs -= 1;
            let other = self.code.steps.len();
            let skipped = short(other - end)?;
            self.push(Step::Skip(skipped))?;
            if !self.compute(alloc, &arguments[2 * pairs + 1], height)? {
                return Ok(false);
            }
            let skipped = short(self.code.steps.len() - other)?;
            self.push(Step::SkipIfFalse(skipped))?;
            if !self.compute(alloc, &arguments[2 * pairs], height)? {
                return Ok(false);
            }
        }
        Ok(true)
    }

    // Code of a path. Where it names something, so many instructions are skipped.
    #[cycle(build)]
    fn find(
        &mut self,
        alloc: Global,
        path: &Json<'_>,
        skip: u32,
        height: usize,
    ) -> Result<bool, AllocError>
        requires { IsOrdered (tree_view path.now) }
        ensures { IfOk result (λ done. Compiles done
            (λ p. Finds skip height p self.old.code self.new.code) (tree_view path.now)) }
    {
        if let Some(known) = text_of(path) {
            self.find_known(alloc, known, skip)?;
            return Ok(true);
        }
        self.push(Step::Find(skip))?;
        Ok(self.compute(alloc, path, height)?)
    }

    // Code of the arguments of `var`: a path, and what stands in where it names nothing.
    #[cycle(build)]
    fn found(
        &mut self,
        alloc: Global,
        arguments: &[Json<'_>],
        height: usize,
    ) -> Result<bool, AllocError>
        requires any { 1 ≤ length arguments.now }
        requires few { length arguments.now ≤ 2 }
        requires ordered { AreOrdered (tree_items arguments.now) }
        ensures { IfOk result (λ done. CompileAll done
            (λ rs. Decides Var height rs self.old.code self.new.code) (tree_items arguments.now)) }
    {
        match arguments {
            [path, default, ..] => {
                let end = self.code.steps.len();
                if !self.compute(alloc, default, height)? {
                    return Ok(false);
                }
                let skipped = short(self.code.steps.len() - end)?;
                Ok(self.find(alloc, path, skipped, height)?)
            }
            [path, ..] => Ok(self.find(alloc, path, 0, height)?),
            [] => Ok(false),
        }
    }

    // Code of `fractional` at a bucketing rule and pairs.
    #[cycle(build)]
    fn split_by(
        &mut self,
        alloc: Global,
        bucketing: &Json<'_>,
        table: Table,
        height: usize,
    ) -> Result<bool, AllocError>
        requires ordered { IsOrdered (tree_view bucketing.now) }
        requires other { is_array (tree_view bucketing.now) ≡ false }
        ensures { IfOk result (λ done. Compiles done
            (λ r. Adds height (apply Fractional (rule r table)) self.old.code self.new.code)
            (tree_view bucketing.now)) }
    {
        match self.operand(alloc, bucketing)? {
            Some(key) => {
                self.push(Step::Split(key, table))?;
                Ok(true)
            }
            None => {
                self.push(Step::Split(Operand::AtHand, table))?;
                Ok(self.compute(alloc, bucketing, height)?)
            }
        }
    }

    // Code of `fractional`.
    #[cycle(build)]
    fn split(
        &mut self,
        alloc: Global,
        arguments: &[Json<'_>],
        height: usize,
    ) -> Result<bool, AllocError>
        requires ordered { AreOrdered (tree_items arguments.now) }
        ensures { IfOk result (λ done. Applies done Fractional
            (λ r. Adds height r self.old.code self.new.code) (tree_items arguments.now)) }
    {
        match arguments {
            [] => Ok(false),
            [first, behind @ ..] => {
                if is_array(first) {
                    return Ok(self.split_by_own_key(alloc, arguments)?);
                }
                if behind.is_empty() {
                    return Ok(false);
                }
                let Some(table) = read_table(alloc, behind)? else {
                    return Ok(false);
                };
                Ok(self.split_by(alloc, first, table, height)?)
            }
        }
    }

    // Code of `var`.
    #[cycle(build)]
    fn var(
        &mut self,
        alloc: Global,
        arguments: &[Json<'_>],
        height: usize,
    ) -> Result<bool, AllocError>
        requires takes { length arguments.now ≤ 2 }
        requires ordered { AreOrdered (tree_items arguments.now) }
        ensures { IfOk result (λ done. CompileAll done
            (λ rs. Adds height (apply Var (rules_of rs)) self.old.code self.new.code)
            (tree_items arguments.now)) }
    {
        if let Some(operand) = self.known_variable(alloc, arguments)? {
            self.push(Step::Load(operand))?;
            return Ok(true);
        }
        self.end(Operator::Var, arguments.len())?;
        Ok(self.found(alloc, arguments, height)?)
    }

    // Code of an operator at arguments that it takes, `fractional` apart.
    #[cycle(build)]
    fn taken(
        &mut self,
        alloc: Global,
        operator: Operator,
        arguments: &[Json<'_>],
        height: usize,
    ) -> Result<bool, AllocError>
        requires takes { takes operator (length arguments.now) ≡ true }
        requires other { looks_at_results operator ≡ true }
        requires ordered { AreOrdered (tree_items arguments.now) }
        ensures { IfOk result (λ done. CompileAll done
            (λ rs. Adds height (apply operator (rules_of rs)) self.old.code self.new.code)
            (tree_items arguments.now)) }
    {
        match operator {
            Operator::If => {
                self.end(operator, arguments.len())?;
                Ok(self.branches(alloc, arguments, height)?)
            }
            Operator::And | Operator::Or => {
                self.end(operator, arguments.len())?;
                Ok(self.conditions(alloc, operator, arguments, height)?)
            }
            Operator::Var => Ok(self.var(alloc, arguments, height)?),
            Operator::Cat => {
                let count = short(arguments.len())?;
                self.push(Step::Join(count))?;
                Ok(self.each_kept(alloc, arguments, height)?)
            }
            Operator::SemVer | Operator::Unary(_) | Operator::Binary(_) | Operator::Chain(_) => {
                Ok(self.few(alloc, operator, arguments, height)?)
            }
            Operator::Fractional => Ok(false),
        }
    }

    // Code of an operator, where it takes these arguments.
    #[cycle(build)]
    fn apply(
        &mut self,
        alloc: Global,
        operator: Operator,
        arguments: &[Json<'_>],
        height: usize,
    ) -> Result<bool, AllocError>
        requires ordered { AreOrdered (tree_items arguments.now) }
        ensures { IfOk result (λ done. Applies done operator
            (λ r. Adds height r self.old.code self.new.code) (tree_items arguments.now)) }
    {
        if let Operator::Fractional = operator {
            return Ok(self.split(alloc, arguments, height)?);
        }
        if !operator.takes(arguments.len()) {
            return Ok(false);
        }
        Ok(self.taken(alloc, operator, arguments, height)?)
    }

    /// Code of a rule, to be done first, where so many results are kept before: whether the value
    /// is one, without an unknown operator.
    #[cycle(build)]
    pub fn compute(
        &mut self,
        alloc: Global,
        json: &Json<'_>,
        height: usize,
    ) -> Result<bool, AllocError>
        requires { IsOrdered (tree_view json.now) }
        ensures { IfOk result (λ done. Compiles done
            (λ r. Adds height r self.old.code self.new.code) (tree_view json.now)) }
    {
        match json {
            Json::Null | Json::Bool(_) | Json::Number(_) | Json::String(_) => {
                self.load_constant(alloc, json)?;
                Ok(true)
            }
            Json::Array(items) => {
                if are_literals(items) {
                    self.load_constant(alloc, json)?;
                    return Ok(true);
                }
                Ok(self.list(alloc, items, height)?)
            }
            Json::Object(members) => {
                if members.len() != 1 {
                    self.load_constant(alloc, json)?;
                    return Ok(true);
                }
                let only = &members[0];
                match Operator::named(only.0) {
                    Some(operator) => {
                        Ok(self.apply(alloc, operator, arguments(&only.1), height)?)
                    }
                    None => Ok(false),
                }
            }
        }
    }
}

// What is skipped to the end of an operator's arguments, where one decides.
fn skip_past(operator: Operator, count: u32) -> Step
    ensures { result ≡ skip_past operator count }
{
    match operator {
        Operator::And => Step::SkipIfFalse(count),
        _ => Step::SkipIfTrue(count),
    }
}
