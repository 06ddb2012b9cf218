//! Compiled rules.

ghost use Rattle.std.specs.Prelude.{◌≡◌, ◌≤◌, ◌↔◌, ◌||◌, true, false, IfOk, OnErr};
ghost use Rattle.serde_json.specs.Data.{depth};
ghost use Rattle.serde_json.specs.View.{view as json_view};
ghost use Rattle.fp_operators.specs.View.{view};
ghost use Rattle.fp_targeting.specs.Compile.{verdict, first_unknown};
ghost use Rattle.fp_base.specs.Answer.{Gives};
ghost use Rattle.fp_base.specs.Ordered.{IsOrdered};
ghost use Rattle.fp_base.specs.TreeView.{tree_view};
ghost use Rattle.fp_base.specs.Whole.{is_whole};
ghost use Rattle.fp_targeting.specs.Answer.{Tells, unknown_or_bad};
ghost use Rattle.fp_operators.specs.Data as values;
ghost use Rattle.fp_operators.specs.Memory.{takes_memory};
ghost use Rattle.fp_machine.specs.Found.{found_view};
ghost use Rattle.fp_machine.specs.Means.{Means};
ghost use Rattle.fp_machine.specs.Meaning.{meaning};
ghost use Rattle.fp_machine.specs.Memory.{needs_memory};
ghost use Rattle.fp_targeting.specs.Moment.{IsTimeless};

use crate::build::code_of;
use crate::data::Data;
use crate::names::unknown_operator;
use bumpalo::Bump;
use fp_base::Tree as Json;
use fp_machine::{Code, Found};
use fp_operators::Datum;
use serde_json::Value;
use std::alloc::{AllocError, AllocFailed, Global};
use std::marker::Model;
use std::sync::Arc;

/// Lists and objects of a rule stand in one another at most this deep.
pub const DEEPEST_RULE: u32 = 32;

/// The most JSON values that a rule has, its literals' insides and its operators' objects included.
pub const MOST_RULE_VALUES: usize = 1_024;

/// A share of a compiled rule. Its code, run on any data, wants no operand that isn't there, skips
/// to nowhere outside and has room for what it keeps: that is the type's invariant.
#[derive(Drop)]
pub struct Rule {
    code: Arc<Code, Global>,
}

impl Model for Rule {
    ghost use Rattle.std.specs.Arc.{arc_value};
    ghost use Rattle.fp_machine.specs.Rule as rules;
    ghost use Rattle.fp_machine.specs.Codes.{coded_rule};
    ghost use Rattle.fp_machine.specs.Sound.{IsSound};
    ghost use Rattle.fp_machine.specs.Reading.{rule_of_code};

    ghost Value = { rules.Rule };

    ghost coded = { coded_rule };

    ghost view = { λ r. rule_of_code (arc_value r.code) };

    ghost invariant = { λ r. IsSound (arc_value r.code) };
}

/// Why a value is no rule, in the order in which the faults are looked for.
#[derive(Debug, Drop)]
pub enum RuleFault {
    /// Lists and objects stand in one another too deep.
    TooDeep,
    /// There is no operator of this name: the first such in reading order.
    UnsupportedOperator(String),
    /// An operator has another number of arguments than it takes, `fractional` others than pairs
    /// whose weights are within the limit, the rule has too many values, or a number in it isn't
    /// whole.
    BadRule,
    /// Memory ran out.
    Memory,
}

impl From<AllocError> for RuleFault {
    ghost use Rattle.fp_targeting.specs.declared.rule.RuleFault.TheVariants.{Memory};

    ghost from_gives = { λ _ e. e ≡ Memory };

    fn from(_: AllocError) -> RuleFault {
        RuleFault::Memory
    }
}

impl<T: Drop> From<AllocFailed<T>> for RuleFault {
    ghost use Rattle.fp_targeting.specs.declared.rule.RuleFault.TheVariants.{Memory};

    ghost from_gives = { λ _ e. e ≡ Memory };

    fn from(_: AllocFailed<T>) -> RuleFault {
        RuleFault::Memory
    }
}

impl Rule {
    /// The rule that a JSON value writes, or the first of its faults: `TooDeep`;
    /// `UnsupportedOperator` with the first such name in reading order; `BadRule`. At any place the
    /// answer may be `Memory` instead.
    pub fn compile(alloc: Global, value: &Value) -> Result<Rule, RuleFault>
        ensures { Gives (λ rule. rule) Tells result (verdict (json_view value.now)) }
    {
        let arena = Bump::new(alloc);
        let json = Json::of_value(&arena, value)?;
        compiled(alloc, &json)
    }

    /// The same of a tree that nests within the limit and has whole numbers; neither is tested
    /// again.
    pub fn from_tree(alloc: Global, tree: &Json<'_>) -> Result<Rule, RuleFault>
        // Each number is whole.
        requires whole { is_whole (tree_view tree.now) ≡ true }
        // It nests at most 32 deep.
        requires flat { depth (tree_view tree.now) ≤ DEEPEST_RULE }
        // The tree is ordered.
        requires ordered { IsOrdered (tree_view tree.now) }
        ensures { Gives (λ rule. rule) Tells result (verdict (tree_view tree.now)) }
    {
        let Some(left) = tree.values_left(MOST_RULE_VALUES) else {
            return Err(refusal(alloc, tree));
        };
        let values = MOST_RULE_VALUES.saturating_sub(left);
        match code_of(alloc, tree, values)? {
            Some(code) => {
                let share = Arc::new(alloc, code)?;
                Ok(Rule { code: share })
            }
            None => Err(refusal(alloc, tree)),
        }
    }

    /// An equal rule, which is another share of the same: nothing is compiled again.
    pub fn try_copy(&self) -> Result<Rule, AllocError>
        ensures { IfOk result (λ r. r ≡ self.now) }
    {
        let code = Arc::try_clone(&self.code)?;
        Ok(Rule { code })
    }

    /// What the rule gives for the data, lent where it stands in the rule or in the data.
    pub fn find<'d>(&'d self, alloc: Global, data: &'d Data) -> Result<Found<'d>, AllocError>
        // `Ok`: a result that the rule means on these data, by the relation.
        ensures means { IfOk result (λ x. Means self.now «data».now (found_view x)) }
        // `Ok`: it is the one that the plain program computes.
        ensures computed { IfOk result (λ x. found_view x ≡ meaning «data».now self.now) }
        // `Err`: the rule needs memory by its tree: a `cat` or a `sem_ver` stands in it, or a list
        // that isn't all literals.
        ensures memory { OnErr result (needs_memory self.now ≡ true) }
    {
        self.code.run(alloc, data.datum())
    }

    /// The same by value: a copy, where the result is lent.
    pub fn eval(&self, alloc: Global, data: &Data) -> Result<Datum, AllocError>
        // `Ok`: a result that the rule means on these data, by the relation.
        ensures means { IfOk result (λ x. Means self.now «data».now (view x)) }
        // `Ok`: it is the one that the plain program computes.
        ensures computed { IfOk result (λ x. view x ≡ meaning «data».now self.now) }
        // `Err`: the rule needs memory by its tree, as of `find`, or the result takes memory: it is
        // a text, a list or an object.
        ensures memory { OnErr result (
            (needs_memory self.now || takes_memory (meaning «data».now self.now)) ≡ true) }
    {
        self.find(alloc, data)?.into_datum(alloc)
    }

    /// Whether what the rule gives may depend on the moment. `false`: for whatever flag and context
    /// it gives at any moment what it gives at any other.
    pub fn reads_moment(&self) -> bool
        ensures { result ≡ false → IsTimeless self.now }
    {
        self.code.reads_moment()
    }

    /// Law: on given data a rule has exactly one result. It does nothing when it runs.
    pub fn one_result(&self)
        // On any data there is a result that the rule means.
        ensures exists { (d : values.Data) → (x : values.Data) × Means self.now d x }
        // There is only one.
        ensures unique { (d x y : values.Data) → Means self.now d x → Means self.now d y → x ≡ y }
        // It is exactly the one that the plain program computes.
        ensures computed { (d x : values.Data) → Means self.now d x ↔ (x ≡ meaning d self.now) }
    {
        let _code = &self.code;
    }
}

// The rule that a tree writes.
fn compiled(alloc: Global, json: &Json<'_>) -> Result<Rule, RuleFault>
    requires { IsOrdered (tree_view json.now) }
    ensures { Gives (λ rule. rule) Tells result (verdict (tree_view json.now)) }
{
    if !json.nests_within(DEEPEST_RULE) {
        return Err(RuleFault::TooDeep);
    }
    if !json.has_whole_numbers() {
        return Err(refusal(alloc, json));
    }
    Rule::from_tree(alloc, json)
}

// Why a value is no rule that nests within the limit: an unknown operator comes before all that is
// counted, and before numbers that aren't whole.
fn refusal(alloc: Global, json: &Json<'_>) -> RuleFault
    ensures { Tells result (λ fault. fault ≡ unknown_or_bad (first_unknown (tree_view json.now))) }
{
    match unknown_operator(json) {
        Some(name) => match String::from_str(alloc, name) {
            Ok(name) => RuleFault::UnsupportedOperator(name),
            Err(_) => RuleFault::Memory,
        },
        None => RuleFault::BadRule,
    }
}
