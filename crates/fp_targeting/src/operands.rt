//! What is added to code: instructions, and operands that no instruction is needed for.

ghost use Rattle.std.specs.Prelude.{◌≡◌, ◌≤◌, ◌<◌, ◌^◌, ℕ, true, Some, None, IfOk, IfSome, OnOk};
ghost use Rattle.std.specs.Prelude.{length};
ghost use Rattle.fp_base.specs.Ordered.{IsOrdered};
ghost use Rattle.fp_base.specs.TreeView.{tree_view, tree_items};
ghost use Rattle.fp_operators.specs.Data.{text};
ghost use Rattle.fp_operators.specs.FromJson.{data_of};
ghost use Rattle.fp_targeting.specs.Compiles.{IsCompiled, AreCompiled, is_plain, CompileSplit};
ghost use Rattle.fp_targeting.specs.Emits.{Pushed, IsOperand, Adds, Finds, IsPlaced};
ghost use Rattle.fp_targeting.specs.Emits.{Stands};
ghost use Rattle.fp_machine.specs.Rule.{apply, literal, rule};
ghost use Rattle.fp_machine.specs.View.{rules_of};
ghost use Rattle.fp_machine.specs.declared.code.Operand.{Operand};
ghost use Rattle.fp_machine.specs.declared.code.Step.TheVariants.{LoadWhole};
ghost use Rattle.fp_machine.specs.declared.operator.Operator.TheVariants.{Var, Fractional};

use crate::builder::Builder;
use crate::json::{are_literals, arguments, text_of, whole_number, writes};
use crate::pairs::read_table;
use fp_base::Tree as Json;
use fp_machine::{Operand, Step};
use fp_operators::Datum;
use std::alloc::{AllocError, Global};

// Among so many constants, the last ones, an equal one is looked for: a usual rule has fewer.
const LOOKED_THROUGH: usize = 32;

impl Builder {
    // The number is at hand next.
    fn load_whole(&mut self, number: i64) -> Result<(), AllocError>
        ensures { OnOk result (Pushed (LoadWhole number) self.old.code self.new.code) }
    {
        self.push(Step::LoadWhole(number))?;
        Ok(())
    }

    // A value that stands for itself, as a constant.
    fn constant(&mut self, alloc: Global, json: &Json<'_>) -> Result<Operand, AllocError>
        requires plain { is_plain (tree_view json.now) ≡ true }
        requires ordered { IsOrdered (tree_view json.now) }
        ensures { IfOk result (λ o. IsCompiled
            (λ r. IsOperand o r self.old.code self.new.code) (tree_view json.now)) }
    {
        let place = self.place(alloc, json)?;
        Ok(Operand::Constant(place))
    }

    // The place of what a value writes, which is put into the pool where it isn't there.
    fn place(&mut self, alloc: Global, json: &Json<'_>) -> Result<u16, AllocError>
        requires { IsOrdered (tree_view json.now) }
        ensures { IfOk result (λ n.
            IsPlaced n (data_of (tree_view json.now)) self.old.code self.new.code) }
    {
        if let Some(there) = place_of(self.code.pool.as_slice(), json) {
            return Ok(as_place(there));
        }
        let place = as_place(self.code.pool.len());
        self.code.pool.push(Datum::from_tree(alloc, json)?)?;
        Ok(place)
    }

    // The place of a path.
    fn path(&mut self, alloc: Global, path: &str) -> Result<u16, AllocError>
        ensures { IfOk result (λ n. IsPlaced n (text path.now) self.old.code self.new.code) }
    {
        let json = Json::String(path);
        self.place(alloc, &json)
    }

    /// `var` without a path, or with one that is known.
    pub fn known_variable(
        &mut self,
        alloc: Global,
        arguments: &[Json<'_>],
    ) -> Result<Option<Operand>, AllocError>
        ensures some { IfOk result (λ x. (o : Operand) → x ≡ Some o → AreCompiled
            (λ rs. IsOperand o (apply Var (rules_of rs)) self.old.code self.new.code)
            (tree_items arguments.now)) }
        ensures none { IfOk result (λ x. x ≡ None → self.new.code ≡ self.old.code) }
        ensures any { IfOk result (λ x. x ≡ None → 1 ≤ length arguments.now) }
        ensures few { IfOk result (λ x. (o : Operand) → x ≡ Some o → length arguments.now ≤ 1) }
    {
        match arguments {
            [] => Ok(Some(Operand::All)),
            [only] => match text_of(only) {
                Some(path) => Ok(Some(Operand::Variable(self.path(alloc, path)?))),
                None => Ok(None),
            },
            [_, _, ..] => Ok(None),
        }
    }

    /// What no instruction is needed for: a constant, or what a known path names.
    pub fn operand(&mut self, alloc: Global, json: &Json<'_>) -> Result<Option<Operand>, AllocError>
        requires ordered { IsOrdered (tree_view json.now) }
        ensures some { IfOk result (λ x. (o : Operand) → x ≡ Some o → IsCompiled
            (λ r. IsOperand o r self.old.code self.new.code) (tree_view json.now)) }
        ensures none { IfOk result (λ x. x ≡ None → self.new.code ≡ self.old.code) }
    {
        match json {
            Json::Null | Json::Bool(_) | Json::Number(_) | Json::String(_) => {
                Ok(Some(self.constant(alloc, json)?))
            }
            Json::Array(items) => {
                if !are_literals(items) {
                    return Ok(None);
                }
                Ok(Some(self.constant(alloc, json)?))
            }
            Json::Object(members) => {
                if members.len() != 1 {
                    return Ok(Some(self.constant(alloc, json)?));
                }
                let only = &members[0];
                if only.0 != "var" {
                    return Ok(None);
                }
                Ok(self.known_variable(alloc, arguments(&only.1))?)
            }
        }
    }

    /// Code of `fractional` at pairs alone.
    pub fn split_by_own_key(
        &mut self,
        alloc: Global,
        pairs: &[Json<'_>],
    ) -> Result<bool, AllocError>
        ensures { IfOk result (λ done. CompileSplit done
            (λ rs. (h : ℕ) → Adds h (apply Fractional (rules_of rs)) self.old.code self.new.code)
            (tree_items pairs.now)) }
    {
        let Some(table) = read_table(alloc, pairs)? else {
            return Ok(false);
        };
        self.push(Step::SplitByOwnKey(table))?;
        Ok(true)
    }

    /// Code of a path that is known. Where it names something, so many instructions are skipped.
    pub fn find_known(&mut self, alloc: Global, path: &str, skip: u32) -> Result<(), AllocError>
        ensures { OnOk result ((h : ℕ)
            → Finds skip h (literal (text path.now)) self.old.code self.new.code) }
    {
        let path = self.path(alloc, path)?;
        self.push(Step::FindVariable { path, skip })?;
        Ok(())
    }

    /// A value that stands for itself is at hand next.
    pub fn load_constant(&mut self, alloc: Global, json: &Json<'_>) -> Result<(), AllocError>
        requires plain { is_plain (tree_view json.now) ≡ true }
        requires ordered { IsOrdered (tree_view json.now) }
        ensures { OnOk result ((h : ℕ) → IsCompiled
            (λ r. Adds h r self.old.code self.new.code) (tree_view json.now)) }
    {
        if let Some(number) = whole_number(json) {
            self.load_whole(number)?;
            return Ok(());
        }
        let operand = self.constant(alloc, json)?;
        self.push(Step::Load(operand))?;
        Ok(())
    }
}

// Where what a value writes stands already, if it does among the last so many.
fn place_of(pool: &[Datum], json: &Json<'_>) -> Option<usize>
    ensures { IfSome result (λ n. Stands n (data_of (tree_view json.now)) pool.now) }
{
    let last = pool.len().saturating_sub(LOOKED_THROUGH);
    let mut left = pool.len();
    'pool: while left > last {
        left -= 1;
        if writes(json, &pool[left]) {
            return Some(left);
        }
    }
    None
}

// A place in the pool, of which each fits: a rule has fewer values than there are numbers.
fn as_place(count: usize) -> u16
    ensures { count < 2 ^ 16 → result ≡ count }
{
    u16::try_from(count).unwrap_or(u16::MAX)
}
