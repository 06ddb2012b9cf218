//! The rule of a definition's `targeting`.

ghost use Rattle.std.specs.Prelude.{◌≡◌, ◌≤◌, true, None, Some, Ok, IfOk, IfErr, codes};
ghost use Rattle.serde_json.specs.Data.{depth};
ghost use Rattle.serde_json.specs.Find.{get};
ghost use Rattle.fp_base.specs.Answer.{IsFirst};
ghost use Rattle.fp_base.specs.Ordered.{IsOrdered};
ghost use Rattle.fp_base.specs.Tests.{first_failed};
ghost use Rattle.fp_base.specs.TreeView.{tree_view};
ghost use Rattle.fp_base.specs.Whole.{is_whole};
ghost use Rattle.fp_definition.specs.Beside.{targeting_beside};
ghost use Rattle.fp_definition.specs.Faults.{Tells};
ghost use Rattle.fp_definition.specs.Targeting.{rule_in};
ghost use Rattle.fp_definition.specs.Valid.{targeting_tests, verdict_tests};
ghost use Rattle.fp_targeting.specs.Compile.{verdict};

use crate::definition::{DEEPEST_DEFINITION, Definition};
use crate::faults::DefFault;
use fp_base::Tree;
use fp_targeting::{Rule, RuleFault};
use std::alloc::Global;

// The rule of a definition's tree, or that there is none; the other definition's, if there is one.
pub(crate) fn rule_beside(
    alloc: Global,
    tree: &Tree<'_>,
    other: Option<&Definition>,
) -> Result<Option<Rule>, DefFault>
    requires whole { other ≡ None → is_whole (tree_view tree.now) ≡ true }
    requires flat { other ≡ None → depth (tree_view tree.now) ≤ DEEPEST_DEFINITION }
    requires ordered { other ≡ None → IsOrdered (tree_view tree.now) }
    ensures rule { IfOk result (λ r. r ≡ rule_in (targeting_beside other.entry (tree_view tree.now))) }
    ensures met { IfOk result (λ _.
        first_failed (targeting_tests (targeting_beside other.entry (tree_view tree.now))) ≡ None) }
    ensures refused { IfErr result (IsFirst Tells
        (first_failed (targeting_tests (targeting_beside other.entry (tree_view tree.now))))) }
{
    match other {
        Some(other) => Ok(other.rule_share()?),
        None => rule_of(alloc, tree),
    }
}

// The rule that a definition's tree has, or that there is none.
#[tactic(auto, unfolding(crate::specs::Valid::targeting_tests, crate::specs::Targeting::rule_in))]
fn rule_of(alloc: Global, tree: &Tree<'_>) -> Result<Option<Rule>, DefFault>
    requires whole { is_whole (tree_view tree.now) ≡ true }
    requires flat { depth (tree_view tree.now) ≤ DEEPEST_DEFINITION }
    requires ordered { IsOrdered (tree_view tree.now) }
    ensures rule { IfOk result (λ r. r ≡ rule_in (get (codes "targeting") (tree_view tree.now))) }
    ensures met { IfOk result (λ _.
        first_failed (targeting_tests (get (codes "targeting") (tree_view tree.now))) ≡ None) }
    ensures refused { IfErr result
        (IsFirst Tells
        (first_failed (targeting_tests (get (codes "targeting") (tree_view tree.now))))) }
{
    match tree.get("targeting") {
        None => Ok(None),
        Some(targeting) => rule_written(alloc, targeting),
    }
}

// The rule that this writes, if it isn't null or the object without members.
#[tactic(auto, unfolding(crate::specs::Valid::targeting_tests, crate::specs::Targeting::rule_in))]
fn rule_written(alloc: Global, targeting: &Tree<'_>) -> Result<Option<Rule>, DefFault>
    requires whole { is_whole (tree_view targeting.now) ≡ true }
    requires flat { depth (tree_view targeting.now) ≤ DEEPEST_DEFINITION }
    requires ordered { IsOrdered (tree_view targeting.now) }
    ensures rule { IfOk result (λ r. r ≡ rule_in (Some (tree_view targeting.now))) }
    ensures met { IfOk result (λ _.
        first_failed (targeting_tests (Some (tree_view targeting.now))) ≡ None) }
    ensures refused { IfErr result
        (IsFirst Tells (first_failed (targeting_tests (Some (tree_view targeting.now))))) }
{
    match targeting {
        Tree::Object(members) => {
            if members.is_empty() {
                return Ok(None);
            }
            Ok(Some(compiled(alloc, targeting)?))
        }
        Tree::Null => Ok(None),
        _ => Err(DefFault::BadRule),
    }
}

// The rule of an object.
fn compiled(alloc: Global, targeting: &Tree<'_>) -> Result<Rule, DefFault>
    requires whole { is_whole (tree_view targeting.now) ≡ true }
    requires flat { depth (tree_view targeting.now) ≤ DEEPEST_DEFINITION }
    requires ordered { IsOrdered (tree_view targeting.now) }
    ensures rule { IfOk result (λ r. verdict (tree_view targeting.now) ≡ Ok r) }
    ensures met { IfOk result (λ _.
        first_failed (verdict_tests (verdict (tree_view targeting.now))) ≡ None) }
    ensures refused { IfErr result
        (IsFirst Tells (first_failed (verdict_tests (verdict (tree_view targeting.now))))) }
{
    match Rule::from_tree(alloc, targeting) {
        Ok(rule) => Ok(rule),
        Err(RuleFault::TooDeep) => Err(DefFault::TooDeep),
        Err(RuleFault::UnsupportedOperator(name)) => Err(DefFault::UnsupportedOperator(name)),
        Err(RuleFault::BadRule) => Err(DefFault::BadRule),
        Err(RuleFault::Memory) => Err(DefFault::Memory),
    }
}
