//! Code of operators that look at all their arguments' results, of lists, and of what is kept.

ghost use Rattle.std.specs.Prelude.{◌≡◌, true, false, IfOk, length};
ghost use Rattle.serde_json.specs.Data.{no_items, item, array};
ghost use Rattle.fp_base.specs.Ordered.{IsOrdered, AreOrdered};
ghost use Rattle.fp_base.specs.TreeView.{tree_view, tree_items};
ghost use Rattle.fp_targeting.specs.Compiles.{CompileAll, Compiles};
ghost use Rattle.fp_targeting.specs.Literal.{all_literal};
ghost use Rattle.fp_targeting.specs.Emits.{Adds, AddsAlone, Keeps, KeepsOne};
ghost use Rattle.fp_machine.specs.Operators.{takes};
ghost use Rattle.fp_machine.specs.Rule.{apply};
ghost use Rattle.fp_targeting.specs.Strict.{is_strict};
ghost use Rattle.fp_machine.specs.View.{rules_of};

use crate::builder::{Builder, above, short};
use crate::json::is_lent;
use fp_base::Tree as Json;
use fp_machine::{Operand, Operator, Step};
use std::alloc::{AllocError, Global};

impl Builder {
    // Code of an operator at one argument.
    #[cycle(build)]
    fn one(
        &mut self,
        alloc: Global,
        operator: Operator,
        a: &Json<'_>,
        height: usize,
    ) -> Result<bool, AllocError>
        requires strict { is_strict operator ≡ true }
        requires ordered { IsOrdered (tree_view a.now) }
        ensures { IfOk result (λ done. CompileAll done
            (λ rs. Adds height (apply operator (rules_of rs)) self.old.code self.new.code)
            (item (tree_view a.now) no_items)) }
    {
        match self.operand(alloc, a)? {
            Some(x) => {
                self.push(Step::One(operator, x))?;
                Ok(true)
            }
            None => {
                self.push(Step::One(operator, Operand::AtHand))?;
                Ok(self.compute(alloc, a, height)?)
            }
        }
    }

    // Code of an operator at two arguments.
    #[cycle(build)]
    fn two(
        &mut self,
        alloc: Global,
        operator: Operator,
        a: &Json<'_>,
        b: &Json<'_>,
        height: usize,
    ) -> Result<bool, AllocError>
        requires strict { is_strict operator ≡ true }
        requires first { IsOrdered (tree_view a.now) }
        requires second { IsOrdered (tree_view b.now) }
        ensures { IfOk result (λ done. CompileAll done
            (λ rs. Adds height (apply operator (rules_of rs)) self.old.code self.new.code)
            (item (tree_view a.now) (item (tree_view b.now) no_items))) }
    {
        let first = self.operand(alloc, a)?;
        let second = self.operand(alloc, b)?;
        match (first, second) {
            (Some(x), Some(y)) => {
                self.push(Step::Two(operator, x, y))?;
                Ok(true)
            }
            (Some(x), None) => {
                self.push(Step::Two(operator, x, Operand::AtHand))?;
                Ok(self.compute(alloc, b, height)?)
            }
            (None, Some(y)) => {
                self.push(Step::Two(operator, Operand::AtHand, y))?;
                Ok(self.compute(alloc, a, height)?)
            }
            (None, None) => Ok(self.second(alloc, operator, a, b, height)?),
        }
    }

    // The same where the first result is kept.
    #[cycle(build)]
    fn second(
        &mut self,
        alloc: Global,
        operator: Operator,
        a: &Json<'_>,
        b: &Json<'_>,
        height: usize,
    ) -> Result<bool, AllocError>
        requires strict { is_strict operator ≡ true }
        requires first { IsOrdered (tree_view a.now) }
        requires second { IsOrdered (tree_view b.now) }
        ensures { IfOk result (λ done. CompileAll done
            (λ rs. Adds height (apply operator (rules_of rs)) self.old.code self.new.code)
            (item (tree_view a.now) (item (tree_view b.now) no_items))) }
    {
        let above = above(height, 1)?;
        self.push(Step::Second(operator))?;
        if !self.compute(alloc, b, above)? {
            return Ok(false);
        }
        self.keep(Step::Keep, above)?;
        Ok(self.compute(alloc, a, height)?)
    }

    // Code of an operator at three arguments.
    #[cycle(build)]
    fn three(
        &mut self,
        alloc: Global,
        operator: Operator,
        a: &Json<'_>,
        b: &Json<'_>,
        c: &Json<'_>,
        height: usize,
    ) -> Result<bool, AllocError>
        requires strict { is_strict operator ≡ true }
        requires first { IsOrdered (tree_view a.now) }
        requires second { IsOrdered (tree_view b.now) }
        requires third { IsOrdered (tree_view c.now) }
        ensures { IfOk result (λ done. CompileAll done
            (λ rs. Adds height (apply operator (rules_of rs)) self.old.code self.new.code)
            (item (tree_view a.now) (item (tree_view b.now) (item (tree_view c.now) no_items)))) }
    {
        if !(is_lent(a) && is_lent(b)) {
            return Ok(self.third(alloc, operator, a, b, c, height)?);
        }
        let first = self.operand(alloc, a)?;
        let second = self.operand(alloc, b)?;
        match (first, second) {
            (Some(x), Some(y)) => {
                self.push(Step::Three(operator, x, y))?;
                Ok(self.compute(alloc, c, height)?)
            }
            _ => Ok(self.third(alloc, operator, a, b, c, height)?),
        }
    }

    // The same where the first two results are kept.
    #[cycle(build)]
    fn third(
        &mut self,
        alloc: Global,
        operator: Operator,
        a: &Json<'_>,
        b: &Json<'_>,
        c: &Json<'_>,
        height: usize,
    ) -> Result<bool, AllocError>
        requires strict { is_strict operator ≡ true }
        requires first { IsOrdered (tree_view a.now) }
        requires second { IsOrdered (tree_view b.now) }
        requires third { IsOrdered (tree_view c.now) }
        ensures { IfOk result (λ done. CompileAll done
            (λ rs. AddsAlone height operator rs self.old.code self.new.code)
            (item (tree_view a.now) (item (tree_view b.now) (item (tree_view c.now) no_items)))) }
    {
        let one = above(height, 1)?;
        let two = above(one, 1)?;
        self.push(Step::Third(operator))?;
        if !self.compute(alloc, c, two)? {
            return Ok(false);
        }
        self.keep(Step::Keep, two)?;
        if !self.compute(alloc, b, one)? {
            return Ok(false);
        }
        self.keep(Step::Keep, one)?;
        Ok(self.compute(alloc, a, height)?)
    }

    // Code of an argument, whose result is kept above so many.
    #[cycle(build)]
    fn one_kept(
        &mut self,
        alloc: Global,
        argument: &Json<'_>,
        height: usize,
    ) -> Result<bool, AllocError>
        requires { IsOrdered (tree_view argument.now) }
        ensures { IfOk result (λ done. Compiles done
            (λ r. KeepsOne height r self.old.code self.new.code) (tree_view argument.now)) }
    {
        let above = above(height, 1)?;
        match self.operand(alloc, argument)? {
            Some(operand) => {
                self.keep(Step::KeepOf(operand), above)?;
                Ok(true)
            }
            None => {
                self.keep(Step::Keep, above)?;
                Ok(self.compute(alloc, argument, height)?)
            }
        }
    }

    /// Code of arguments, one after the other, each of whose results is kept.
    #[cycle(build)]
    pub fn each_kept(
        &mut self,
        alloc: Global,
        arguments: &[Json<'_>],
        height: usize,
    ) -> Result<bool, AllocError>
        requires { AreOrdered (tree_items arguments.now) }
        ensures { IfOk result (λ done. CompileAll done
            (λ rs. Keeps height rs self.old.code self.new.code) (tree_items arguments.now)) }
    {
        let mut left = arguments.len();
        'arguments: while left > 0 {
            left -= 1;
            let below = above(height, left)?;
            if !self.one_kept(alloc, &arguments[left], below)? {
                return Ok(false);
            }
        }
        Ok(true)
    }

    /// Code of a list. The result of an only item is wrapped where it is, and not kept.
    #[cycle(build)]
    pub fn list(
        &mut self,
        alloc: Global,
        items: &[Json<'_>],
        height: usize,
    ) -> Result<bool, AllocError>
        requires other { all_literal (tree_items items.now) ≡ false }
        requires ordered { AreOrdered (tree_items items.now) }
        ensures { IfOk result (λ done. Compiles done
            (λ r. Adds height r self.old.code self.new.code) (array (tree_items items.now))) }
    {
        if let [only] = items {
            self.push(Step::Wrap)?;
            return Ok(self.compute(alloc, only, height)?);
        }
        let count = short(items.len())?;
        self.push(Step::Collect(count))?;
        Ok(self.each_kept(alloc, items, height)?)
    }

    /// Code of an operator that looks at the results of all its arguments.
    #[cycle(build)]
    pub fn few(
        &mut self,
        alloc: Global,
        operator: Operator,
        arguments: &[Json<'_>],
        height: usize,
    ) -> Result<bool, AllocError>
        requires strict { is_strict operator ≡ true }
        requires takes { takes operator (length arguments.now) ≡ true }
        requires ordered { AreOrdered (tree_items arguments.now) }
        ensures { IfOk result (λ done. CompileAll done
            (λ rs. Adds height (apply operator (rules_of rs)) self.old.code self.new.code)
            (tree_items arguments.now)) }
    {
        match arguments {
            [] => Ok(false),
            [a] => Ok(self.one(alloc, operator, a, height)?),
            [a, b] => Ok(self.two(alloc, operator, a, b, height)?),
            [a, b, c, ..] => Ok(self.three(alloc, operator, a, b, c, height)?),
        }
    }
}
