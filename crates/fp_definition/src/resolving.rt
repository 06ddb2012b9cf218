//! What a definition resolves to.

ghost use Rattle.std.specs.Prelude.{false, ◌≡◌, ◌<◌, ◌^◌, ◌↔◌, ℕ, List, Result, true, IfOk, IfErr};
ghost use Rattle.std.specs.Prelude.{IfSome, IsSome, OnErr, codes};
ghost use Rattle.serde_json.specs.Data.{Data as JsonData};
ghost use Rattle.serde_json.specs.Find.{as_object, get};
ghost use Rattle.serde_json.specs.View.{view};
ghost use Rattle.fp_base.specs.Answer.{Answers, Gives};
ghost use Rattle.fp_base.specs.Ordered.{IsOrdered};
ghost use Rattle.fp_base.specs.TreeView.{tree_view};
ghost use Rattle.fp_base.specs.Whole.{is_whole};
ghost use Rattle.fp_definition.specs.Key.{key_bytes};
ghost use Rattle.fp_definition.specs.Memory.{HasRule, rule_needs_memory};
ghost use Rattle.fp_definition.specs.Outcome.{outcome_of, IsTimeless};
ghost use Rattle.fp_definition.specs.Resolving.{Resolves, Said, Tells, TellsItself};
ghost use Rattle.fp_definition.specs.Resolving.{by_default, by_result, data_of, is_disabled};
ghost use Rattle.fp_definition.specs.Resolving.{Spells, outcome_of_variant, outcome_spelled, spelled_by};
ghost use Rattle.fp_definition.specs.Targeting.{rule_in};
ghost use Rattle.fp_definition.specs.declared.resolving.EvalFault.TheVariants.{Memory, NoVariant};
ghost use Rattle.fp_operators.specs.Data as values;
ghost use Rattle.fp_operators.specs.View.{view as datum_view};
ghost use Rattle.fp_machine.specs.Meaning.{meaning};
ghost use Rattle.fp_machine.specs.Means.{Means};
ghost use Rattle.fp_machine.specs.Memory.{needs_memory};
ghost use Rattle.fp_targeting.specs.RuleData.{IsOfContext};

use crate::definition::Definition;
use crate::key::FlagKey;
use crate::variants::variant_named;
use fp_base::Tree;
use fp_operators::Datum;
use fp_targeting::{Data, Rule};
use serde_json::Value;
use std::alloc::{AllocError, Global};

/// Why a variant was taken.
#[derive(Debug, Clone, Copy)]
pub enum Reason {
    /// The definition has no rule.
    Static,
    /// The rule gave null.
    Default,
    /// The rule named the variant.
    TargetingMatch,
}

/// Why a definition resolves to no variant.
#[derive(Debug, Clone, Copy)]
pub enum EvalFault {
    /// The flag is disabled.
    Disabled,
    /// The rule's result names no variant.
    NoVariant,
    /// Memory ran out.
    Memory,
}

impl From<AllocError> for EvalFault {
    ghost use Rattle.fp_definition.specs.declared.resolving.EvalFault.TheVariants.{Memory};

    ghost from_gives = { λ _ e. e ≡ Memory };

    fn from(_: AllocError) -> EvalFault {
        EvalFault::Memory
    }
}

/// A variant, lent by its definition.
#[derive(Drop)]
pub struct Resolved<'d> {
    pub variant: &'d str,
    /// The value's canonical text.
    pub value: &'d [u8],
    pub reason: Reason,
}

impl Definition {
    /// What the flag of this key resolves to in a context, at a moment in seconds since 1970: a
    /// variant, `Disabled` or `NoVariant`. The variant's value is lent as its canonical text, where
    /// it stands in the definition's.
    #[tactic(auto, unfolding(crate::specs::Outcome::outcome_of))]
    pub fn resolve(
        &self,
        alloc: Global,
        key: &FlagKey,
        context: &Value,
        now: u64,
    ) -> Result<Resolved<'_>, EvalFault>
        // The context is an object.
        requires object { IsSome (as_object (view context.now)) }
        // Its numbers are whole.
        requires whole { is_whole (view context.now) ≡ true }
        // The moment is below 2^63.
        requires moment { now < 2 ^ 63 }
        // An outcome that the definition has for key, context and moment (`Resolves`), or `Memory`.
        ensures resolves { Answers spelled_by Tells result
            (Spells (Resolves (data_of self.now) (key_bytes key.now) (view context.now) now)) }
        // The outcome that `outcome_of` computes of these, or `Memory`.
        ensures computed { Gives spelled_by Tells result (outcome_spelled
            (outcome_of (data_of self.now) (key_bytes key.now) (view context.now) now)) }
        // `Memory`: there is a rule.
        ensures memory { IfErr result (λ e. e ≡ Memory → HasRule (data_of self.now)) }
    {
        if self.is_disabled() {
            return Err(EvalFault::Disabled);
        }
        match self.rule() {
            None => self.default_of(Reason::Static),
            Some(rule) => {
                let data = Data::new(alloc, context, key.as_str(), now)?;
                self.by_rule(alloc, rule, &data)
            }
        }
    }

    /// As `resolve`, in a context that is a tree. The rule's data are made of it only where there
    /// is a rule, and where memory is wanting for them (the outer `Err`) nothing is evaluated.
    #[tactic(auto, unfolding(crate::specs::Outcome::outcome_of))]
    pub fn resolve_tree(
        &self,
        alloc: Global,
        key: &FlagKey,
        context: &Tree<'_>,
        now: u64,
    ) -> Result<Result<Resolved<'_>, EvalFault>, AllocError>
        // The context is an object.
        requires object { IsSome (as_object (tree_view context.now)) }
        // Its numbers are whole.
        requires whole { is_whole (tree_view context.now) ≡ true }
        // It is ordered.
        requires ordered { IsOrdered (tree_view context.now) }
        // The moment is below 2^63.
        requires moment { now < 2 ^ 63 }
        // `Ok`: an outcome that the definition has for key, context and moment (`Resolves`), or
        // `Memory`.
        ensures resolves { IfOk result (λ r. Answers spelled_by Tells r
            (Spells (Resolves (data_of self.now) (key_bytes key.now) (tree_view context.now) now))) }
        // `Ok`: the outcome that `outcome_of` computes of these, or `Memory`.
        ensures computed { IfOk result (λ r. Gives spelled_by Tells r (outcome_spelled
            (outcome_of (data_of self.now) (key_bytes key.now) (tree_view context.now) now))) }
        // `Memory`: a `cat`, a `sem_ver`, or a list that isn't all literals stands in the rule.
        ensures memory { IfOk result (λ r. IfErr r (λ e. e ≡ Memory
            → rule_needs_memory (rule_in (get (codes "targeting") (data_of self.now))) ≡ true)) }
        // The outer `Err`: there is a rule.
        ensures no_data { OnErr result (HasRule (data_of self.now)) }
    {
        if self.is_disabled() {
            return Ok(Err(EvalFault::Disabled));
        }
        let Some(rule) = self.rule() else {
            return Ok(self.default_of(Reason::Static));
        };
        let data = Data::of_tree(alloc, context, key.as_str(), now)?;
        Ok(self.by_rule(alloc, rule, &data))
    }

    /// As `resolve`, over the data of a context at a moment, made once for many flags. Where there
    /// is a rule they turn to the flag of this key, which asks for no memory; what the rule names
    /// is lent.
    #[tactic(auto, unfolding(crate::specs::Outcome::outcome_of))]
    pub fn resolve_in(
        &self,
        alloc: Global,
        key: &FlagKey,
        data: &mut Data,
    ) -> Result<Resolved<'_>, EvalFault>
        // Over data of whatever context and moment, made for whatever flag: an outcome that the
        // definition has for this key in that context at that moment (`Resolves`), or `Memory`.
        ensures resolves { (context : JsonData) (now : ℕ) → IsOfContext context now «data».old
            → Answers spelled_by Tells result
            (Spells (Resolves (data_of self.now) (key_bytes key.now) context now)) }
        // Over these: the outcome that `outcome_of` computes, or `Memory`.
        ensures computed { (context : JsonData) (now : ℕ) → IsOfContext context now «data».old
            → Gives spelled_by Tells result
            (outcome_spelled (outcome_of (data_of self.now) (key_bytes key.now) context now)) }
        // The data stay of that context and moment.
        ensures context { (context : JsonData) (now : ℕ) → IsOfContext context now «data».old
            → IsOfContext context now «data».new }
        // `Memory`: a `cat`, a `sem_ver`, or a list that isn't all literals stands in the rule.
        ensures memory { IfErr result (λ e. e ≡ Memory
            → rule_needs_memory (rule_in (get (codes "targeting") (data_of self.now))) ≡ true) }
    {
        if self.is_disabled() {
            return Err(EvalFault::Disabled);
        }
        let Some(rule) = self.rule() else {
            return self.default_of(Reason::Static);
        };
        key.turn(data);
        self.by_rule(alloc, rule, data)
    }

    /// Whether the outcome may depend on the moment. `false`: it is the same at any moment,
    /// whatever the key and the context.
    pub fn reads_moment(&self) -> bool
        ensures { result ≡ false → IsTimeless (data_of self.now) }
    {
        match self.rule() {
            Some(rule) => rule.reads_moment(),
            None => false,
        }
    }

    /// Law: for each key, context and moment there is exactly one outcome (`Resolves`), the one
    /// that `outcome_of` computes. Does nothing when it runs.
    pub fn one_outcome(&self)
        ensures { (key : List ℕ) (context : JsonData) (now : ℕ) (outcome : Result Said EvalFault)
            → Resolves (data_of self.now) key context now outcome
            ↔ (outcome ≡ outcome_of (data_of self.now) key context now) }
    {
        rule_has_one_result(self.rule());
    }

    fn is_disabled(&self) -> bool
        ensures { result ≡ is_disabled (get (codes "state") (data_of self.now)) }
    {
        self.choice().is_disabled
    }

    fn by_rule(&self, alloc: Global, rule: &Rule, data: &Data) -> Result<Resolved<'_>, EvalFault>
        ensures resolves { Answers spelled_by Tells result (Spells (λ outcome.
            (x : values.Data) × Means rule.now «data».now x
            × (outcome ≡ by_result (data_of self.now) x))) }
        ensures computed { Gives spelled_by Tells result
            (outcome_spelled (by_result (data_of self.now) (meaning «data».now rule.now))) }
        ensures memory { IfErr result (λ e. e ≡ Memory → needs_memory rule.now ≡ true) }
    {
        let given = rule.find(alloc, data)?;
        self.named_by(given.datum())
    }

    // The variant that a rule's result names.
    fn named_by(&self, given: &Datum) -> Result<Resolved<'_>, EvalFault>
        ensures resolves { Gives spelled_by TellsItself result
            (outcome_spelled (by_result (data_of self.now) (datum_view given.now))) }
        ensures refused { IfErr result (λ e. e ≡ NoVariant) }
    {
        match given {
            Datum::Null => self.default_of(Reason::Default),
            Datum::Text(name) => self.variant_named(name.as_str(), Reason::TargetingMatch),
            Datum::Bool(true) => self.variant_named("true", Reason::TargetingMatch),
            Datum::Bool(false) => self.variant_named("false", Reason::TargetingMatch),
            Datum::Whole(_) | Datum::List(_) | Datum::Object(_) => Err(EvalFault::NoVariant),
        }
    }

    fn default_of(&self, reason: Reason) -> Result<Resolved<'_>, EvalFault>
        ensures resolves { Gives spelled_by TellsItself result
            (outcome_spelled (by_default reason (data_of self.now))) }
        ensures refused { IfErr result (λ e. e ≡ NoVariant) }
    {
        self.variant_named(self.choice().default.as_str(), reason)
    }

    fn variant_named(&self, name: &str, reason: Reason) -> Result<Resolved<'_>, EvalFault>
        ensures resolves { Gives spelled_by TellsItself result (outcome_spelled
            (outcome_of_variant name.now reason (get (codes "variants") (data_of self.now)))) }
        ensures refused { IfErr result (λ e. e ≡ NoVariant) }
    {
        match variant_named(self.text(), &self.choice().variants, name) {
            Some((variant, value)) => Ok(Resolved {
                variant,
                value,
                reason,
            }),
            None => Err(EvalFault::NoVariant),
        }
    }
}

fn rule_has_one_result(rule: &Option<Rule>)
    ensures { IfSome rule.now (λ r.
        (env x : values.Data) → Means r env x ↔ (x ≡ meaning env r)) }
{
    if let Some(rule) = rule {
        rule.one_result();
    }
}
