//! What code gives for data.

ghost use Rattle.std.specs.Prelude.{◌≡◌, ◌≢◌, ◌≤◌, true, Some, IsSome, option_map, if◌then◌else◌};
ghost use Rattle.std.specs.Prelude.{List, [], ◌∷◌, map, get_or, IfOk, OnOk, OnErr};
ghost use Rattle.fp_operators.specs.Data as values;
ghost use Rattle.fp_operators.specs.Data.{null as null_data};
ghost use Rattle.fp_operators.specs.Memory.{takes_memory};
ghost use Rattle.fp_operators.specs.Path.{at_text as at_text_of, found_or};
ghost use Rattle.fp_operators.specs.View.{view};
ghost use Rattle.fp_machine.specs.Sound.{IsSound};
ghost use Rattle.fp_machine.specs.Found.{found_view, stack_view};
ghost use Rattle.fp_machine.specs.Frugal.{asks, is_sem_ver};
ghost use Rattle.fp_machine.specs.Kept.{kept_room};
ghost use Rattle.fp_machine.specs.Machine.{act, few, left_by, look, path_at, text_bytes};
ghost use Rattle.fp_machine.specs.Machine.{found_at};
ghost use Rattle.fp_machine.specs.Meaning.{meaning};
ghost use Rattle.fp_machine.specs.Memory.{needs_memory};
ghost use Rattle.fp_machine.specs.Reading.{env_of, rule_of_code};
ghost use Rattle.fp_machine.specs.declared.code.Operand.TheVariants.{AtHand};

use crate::code::{Code, Operand, Step};
use crate::few::{of_one, of_three, of_two};
use crate::kept::Kept;
use crate::operator::Operator;
use crate::results::{collect, join, second, third, wrap};
use fp_operators::{Datum, at_text, is_falsy, is_truthy, named};
use std::alloc::{AllocError, Global};
use std::mem::take;

/// A result: lent where it stands in the rule or in the data, else made for it.
#[derive(Drop)]
pub enum Found<'d> {
    Lent(&'d Datum),
    Made(Datum),
}

/// What fills a place where no result is kept.
impl<'d> Default for Found<'d> {
    ghost is_default = { λ x. found_view x ≡ null_data };

    fn default() -> Found<'d> {
        Found::Made(Datum::Null)
    }
}

impl<'d> Found<'d> {
    // What was found, else null.
    fn or_null(found: Option<&'d Datum>) -> Found<'d>
        ensures { found_view result ≡ found_or null_data (option_map (λ d. view d.now) found.entry) }
    {
        match found {
            Some(datum) => Found::Lent(datum),
            None => Found::Made(Datum::Null),
        }
    }

    /// The result that was found, lent.
    pub fn datum(&self) -> &Datum
        ensures { view result.now ≡ found_view self.now }
    {
        match self {
            Found::Lent(datum) => datum,
            Found::Made(datum) => datum,
        }
    }

    /// The result itself, copied where it is only lent.
    pub fn into_datum(self, alloc: Global) -> Result<Datum, AllocError>
        // `Ok`: an equal datum.
        ensures copy { IfOk result (λ d. view d ≡ found_view self.entry) }
        // `Err`: it is a text, a list or an object.
        ensures memory { OnErr result (takes_memory (found_view self.entry) ≡ true) }
    {
        match self {
            Found::Lent(datum) => datum.try_copy(alloc),
            Found::Made(datum) => Ok(datum),
        }
    }
}

fn text(datum: &Datum) -> &str
    ensures { result.now ≡ text_bytes (view datum.now) }
{
    match datum {
        Datum::Text(text) => text.as_str(),
        _ => "",
    }
}

// The path at a place in the pool.
pub fn path_at(pool: &[Datum], place: u16) -> &str
    ensures { result.now ≡ text_bytes (get_or (map view pool.now) place null_data) }
{
    match pool.get(place as usize) {
        Some(datum) => text(datum),
        None => "",
    }
}

impl Code {
    // What the path at a place in the pool names.
    fn variable<'d>(&self, root: &'d Datum, place: u16) -> Option<&'d Datum>
        ensures { option_map (λ d. view d.now) result
            ≡ at_text_of (path_at (env_of self.now) place) (view root.now) }
    {
        at_text(root, path_at(self.pool.as_slice(), place))
    }

    // What an operand is that isn't at hand. What names nothing is null.
    fn lent<'d>(&'d self, operand: &Operand, root: &'d Datum) -> Option<&'d Datum>
        ensures { operand.now ≢ AtHand → (v : values.Data)
            → look (env_of self.now) (view root.now) v operand.now
            ≡ found_or null_data (option_map (λ d. view d.now) result) }
    {
        match operand {
            Operand::Constant(place) => self.pool.get(*place as usize),
            Operand::Variable(place) => self.variable(root, *place),
            Operand::All => Some(root),
            Operand::AtHand => None,
        }
    }

    fn look<'a>(
        &'a self,
        operand: &Operand,
        at_hand: &'a Found<'_>,
        root: &'a Datum,
        null: &'a Datum,
    ) -> &'a Datum
        requires { view null.now ≡ null_data }
        ensures { view result.now
            ≡ look (env_of self.now) (view root.now) (found_view at_hand.now) operand.now }
    {
        match operand {
            Operand::AtHand => at_hand.datum(),
            _ => or_null(self.lent(operand, root), null),
        }
    }

    // The operand is at hand next.
    fn load<'d>(&'d self, operand: &Operand, root: &'d Datum, at_hand: &mut Found<'d>) -> u32
        ensures at_hand { found_view at_hand.new
            ≡ look (env_of self.now) (view root.now) (found_view at_hand.old) operand.now }
        ensures skipped { result ≡ 0 }
    {
        match operand {
            Operand::AtHand => 0,
            _ => lend(self.lent(operand, root), at_hand),
        }
    }

    // What an operand is, which is no longer at hand. Most are constants.
    fn take_operand<'d>(
        &'d self,
        operand: &Operand,
        root: &'d Datum,
        at_hand: &mut Found<'d>,
    ) -> Found<'d>
        ensures is { found_view result
            ≡ look (env_of self.now) (view root.now) (found_view at_hand.old) operand.now }
        ensures left { found_view at_hand.new ≡ left_by operand.now (found_view at_hand.old) }
    {
        match operand {
            Operand::AtHand => take(at_hand),
            Operand::Constant(place) => Found::or_null(self.pool.get(*place as usize)),
            _ => Found::or_null(self.lent(operand, root)),
        }
    }

    // An operator's result for an operand is at hand next.
    fn do_one(
        &self,
        operator: Operator,
        a: &Operand,
        root: &Datum,
        null: &Datum,
        at_hand: &mut Found<'_>,
    ) -> u32
        requires { view null.now ≡ null_data }
        ensures at_hand { found_view at_hand.new ≡ few operator
            (look (env_of self.now) (view root.now) (found_view at_hand.old) a.now ∷ []) }
        ensures skipped { result ≡ 0 }
    {
        *at_hand = Found::Made(of_one(operator, self.look(a, at_hand, root, null)));
        0
    }

    // The same of two.
    fn do_two(
        &self,
        operator: Operator,
        a: &Operand,
        b: &Operand,
        root: &Datum,
        null: &Datum,
        at_hand: &mut Found<'_>,
    ) -> u32
        requires { view null.now ≡ null_data }
        ensures at_hand { let v = found_view at_hand.old in found_view at_hand.new ≡ few operator
            (look (env_of self.now) (view root.now) v a.now
            ∷ look (env_of self.now) (view root.now) v b.now ∷ []) }
        ensures skipped { result ≡ 0 }
    {
        let b = self.look(b, at_hand, root, null);
        *at_hand = Found::Made(of_two(operator, self.look(a, at_hand, root, null), b));
        0
    }

    // The same of two and what is at hand.
    fn do_three(
        &self,
        alloc: Global,
        operator: Operator,
        a: &Operand,
        b: &Operand,
        root: &Datum,
        null: &Datum,
        at_hand: &mut Found<'_>,
    ) -> Result<u32, AllocError>
        requires { view null.now ≡ null_data }
        ensures at_hand { let v = found_view at_hand.old in OnOk result
            (found_view at_hand.new ≡ few operator
            (look (env_of self.now) (view root.now) v a.now
            ∷ look (env_of self.now) (view root.now) v b.now ∷ v ∷ [])) }
        ensures skipped { IfOk result (λ n. n ≡ 0) }
        ensures memory { OnErr result (is_sem_ver operator ≡ true) }
    {
        let b = self.look(b, at_hand, root, null);
        let a = self.look(a, at_hand, root, null);
        *at_hand = Found::Made(of_three(alloc, operator, a, b, at_hand.datum())?);
        Ok(0)
    }

    // Does one instruction, and answers how many are skipped next.
    fn act<'d>(
        &'d self,
        alloc: Global,
        step: &'d Step,
        root: &'d Datum,
        null: &Datum,
        at_hand: &mut Found<'d>,
        kept: &mut Kept<'d>,
    ) -> Result<u32, AllocError>
        requires null { view null.now ≡ null_data }
        requires room { self.now.room ≤ kept_room kept.old }
        requires can { IsSome (act (env_of self.now) (view root.now) step.now
            (found_view at_hand.old) (stack_view kept.old)) }
        ensures does { IfOk result (λ n.
            act (env_of self.now) (view root.now) step.now
            (found_view at_hand.old) (stack_view kept.old)
            ≡ Some (n, found_view at_hand.new, stack_view kept.new)) }
        ensures room { kept_room kept.new ≡ kept_room kept.old }
        ensures memory { OnErr result (asks step.now ≡ true) }
    {
        match step {
            Step::Load(operand) => Ok(self.load(operand, root, at_hand)),
            Step::LoadNull => Ok(lend(None, at_hand)),
            Step::LoadWhole(number) => {
                *at_hand = Found::Made(Datum::Whole(*number));
                Ok(0)
            }
            Step::Keep => {
                kept.push(take(at_hand));
                Ok(0)
            }
            Step::KeepOf(operand) => {
                kept.push(self.take_operand(operand, root, at_hand));
                Ok(0)
            }
            Step::Skip(count) => Ok(*count),
            Step::SkipIfFalse(count) => Ok(count_if(is_falsy(at_hand.datum()), *count)),
            Step::SkipIfTrue(count) => Ok(count_if(is_truthy(at_hand.datum()), *count)),
            Step::Find(count) => Ok(find(named(root, at_hand.datum()), *count, at_hand)),
            Step::FindVariable { path, skip } => {
                Ok(find(self.variable(root, *path), *skip, at_hand))
            }
            Step::One(operator, a) => Ok(self.do_one(*operator, a, root, null, at_hand)),
            Step::Two(operator, a, b) => Ok(self.do_two(*operator, a, b, root, null, at_hand)),
            Step::Three(operator, a, b) => {
                self.do_three(alloc, *operator, a, b, root, null, at_hand)
            }
            Step::Second(operator) => Ok(second(*operator, at_hand, kept)),
            Step::Third(operator) => third(alloc, *operator, at_hand, kept),
            Step::Join(count) => join(alloc, *count, at_hand, kept),
            Step::Collect(count) => collect(alloc, *count, at_hand, kept),
            Step::Wrap => wrap(alloc, at_hand),
            Step::Split(operand, table) => {
                let key = self.look(operand, at_hand, root, null);
                Ok(lend(table.chosen_by(key), at_hand))
            }
            Step::SplitByOwnKey(table) => Ok(lend(table.chosen_by_own_key(root), at_hand)),
            Step::End(_, _) => Ok(0),
        }
    }

    /// What the rule of this code gives for the data.
    pub fn run<'d>(&'d self, alloc: Global, root: &'d Datum) -> Result<Found<'d>, AllocError>
        // The code is sound: it is of one rule, and on any data gives what that means.
        requires { IsSound self.now }
        // `Ok`: what the rule means on these data.
        ensures means { IfOk result (λ x.
            found_view x ≡ meaning (view root.now) (rule_of_code self.now)) }
        // `Err`: the rule needs memory by its tree: a `cat` or a `sem_ver` stands in it, or a list
        // that isn't all literals.
        ensures memory { OnErr result (needs_memory (rule_of_code self.now) ≡ true) }
    {
        let null = Datum::Null;
        self.do_all(alloc, root, &null)
    }

    // Does all instructions, from the last one that was added on. The stack has its room before.
    fn do_all<'d>(
        &'d self,
        alloc: Global,
        root: &'d Datum,
        null: &Datum,
    ) -> Result<Found<'d>, AllocError>
        requires null { view null.now ≡ null_data }
        requires sound { IsSound self.now }
        ensures means { IfOk result (λ x.
            found_view x ≡ meaning (view root.now) (rule_of_code self.now)) }
        ensures memory { OnErr result (needs_memory (rule_of_code self.now) ≡ true) }
    {
        let mut kept = Kept::none(alloc);
        if self.room > 0 {
            kept.make_room(alloc, self.room)?;
        }
        let mut at_hand = Found::Made(Datum::Null);
        let mut left = self.steps.len();
        'steps: while left > 0 {
            left -= 1;
            let step = &self.steps[left];
            let skipped = self.act(alloc, step, root, null, &mut at_hand, &mut kept)?;
            left -= skipped as usize;
        }
        Ok(at_hand)
    }
}

fn or_null<'d>(datum: Option<&'d Datum>, null: &'d Datum) -> &'d Datum
    requires { view null.now ≡ null_data }
    ensures { view result.now
        ≡ found_or null_data (option_map (λ d. view d.now) datum.entry) }
{
    match datum {
        Some(datum) => datum,
        None => null,
    }
}

// The datum is at hand next, else null.
fn lend<'d>(datum: Option<&'d Datum>, at_hand: &mut Found<'d>) -> u32
    ensures at_hand { found_view at_hand.new
        ≡ found_or null_data (option_map (λ d. view d.now) datum.entry) }
    ensures skipped { result ≡ 0 }
{
    *at_hand = Found::or_null(datum);
    0
}

fn count_if(holds: bool, count: u32) -> u32
    ensures { result ≡ (if holds then count else 0) }
{
    if holds { count } else { 0 }
}

// What was found is at hand next, else null: how many instructions are skipped.
fn find<'d>(found: Option<&'d Datum>, count: u32, at_hand: &mut Found<'d>) -> u32
    ensures { (s : List values.Data) → found_at count s (option_map (λ d. view d.now) found.entry)
        ≡ Some (result, found_view at_hand.new, s) }
{
    let skipped = if found.is_some() { count } else { 0 };
    *at_hand = Found::or_null(found);
    skipped
}
