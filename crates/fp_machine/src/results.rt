//! Results made of others: of what is at hand, and of those that waited.

ghost use Rattle.std.specs.Prelude.{◌≡◌, ◌≤◌, true, Some, IsSome, IfOk, OnOk, OnErr};
ghost use Rattle.std.specs.Prelude.{[], ◌∷◌, map, drop, length};
ghost use Rattle.fp_operators.specs.Text.{concatenation};
ghost use Rattle.fp_operators.specs.View.{view};
ghost use Rattle.fp_machine.specs.Found.{found_view, stack_view};
ghost use Rattle.fp_machine.specs.Frugal.{is_sem_ver};
ghost use Rattle.fp_machine.specs.Kept.{kept_items, kept_room};
ghost use Rattle.fp_machine.specs.Machine.{of_kept, list_of, second, third};
ghost use Rattle.fp_machine.specs.Stack.{off, onto};

use crate::few::{of_three, of_two};
use crate::kept::Kept;
use crate::machine::Found;
use crate::operator::Operator;
use fp_operators::{Datum, Text, append_text};
use std::alloc::{AllocError, Global};
use std::mem::take;

/// An operator's result for the last kept result and the one at hand is at hand next.
pub fn second(operator: Operator, at_hand: &mut Found<'_>, kept: &mut Kept<'_>) -> u32
    requires { IsSome (second operator (found_view at_hand.old) (stack_view kept.old)) }
    ensures does { second operator (found_view at_hand.old) (stack_view kept.old)
        ≡ Some (result, found_view at_hand.new, stack_view kept.new) }
    ensures room { kept_room kept.new ≡ kept_room kept.old }
{
    if let Some(first) = kept.pop() {
        *at_hand = Found::Made(of_two(operator, first.datum(), at_hand.datum()));
    }
    0
}

/// An operator's result for the last two kept results and the one at hand is at hand next.
pub fn third(
    alloc: Global,
    operator: Operator,
    at_hand: &mut Found<'_>,
    kept: &mut Kept<'_>,
) -> Result<u32, AllocError>
    requires { IsSome (third operator (found_view at_hand.old) (stack_view kept.old)) }
    ensures does { IfOk result (λ n. third operator (found_view at_hand.old)
        (stack_view kept.old)
        ≡ Some (n, found_view at_hand.new, stack_view kept.new)) }
    ensures room { kept_room kept.new ≡ kept_room kept.old }
    ensures memory { OnErr result (is_sem_ver operator ≡ true) }
{
    if let Some(second) = kept.pop() {
        if let Some(first) = kept.pop() {
            let last = at_hand.datum();
            let made = of_three(alloc, operator, first.datum(), second.datum(), last)?;
            *at_hand = Found::Made(made);
        }
    }
    Ok(0)
}

/// The texts of the last kept results, so many, are at hand next, joined.
pub fn join(
    alloc: Global,
    count: u32,
    at_hand: &mut Found<'_>,
    kept: &mut Kept<'_>,
) -> Result<u32, AllocError>
    requires { count ≤ length (kept_items kept.old) }
    ensures does { IfOk result (λ n. of_kept concatenation count (stack_view kept.old)
        ≡ Some (n, found_view at_hand.new, stack_view kept.new)) }
    ensures room { kept_room kept.new ≡ kept_room kept.old }
{
    let from = kept.as_slice().len() - count as usize;
    let joined = joined(alloc, behind(kept, from))?;
    kept.truncate(from);
    *at_hand = Found::Made(joined);
    Ok(0)
}

fn behind<'k, 'd>(kept: &'k Kept<'d>, from: usize) -> &'k [Found<'d>]
    requires { from ≤ length (kept_items kept.now) }
    ensures { result.now ≡ drop from (kept_items kept.now) }
{
    &kept.as_slice()[from..]
}

fn joined(alloc: Global, parts: &[Found<'_>]) -> Result<Datum, AllocError>
    ensures { IfOk result (λ d. view d ≡ concatenation (map found_view parts.now)) }
{
    let mut text = String::new(alloc);
    for part in parts {
        if !append_text(&mut text, part.datum())? {
            return Ok(Datum::Null);
        }
    }
    Ok(Datum::Text(Text::from(text)))
}

/// A list of the last kept results, so many, is at hand next: each is copied where it is only lent.
pub fn collect(
    alloc: Global,
    count: u32,
    at_hand: &mut Found<'_>,
    kept: &mut Kept<'_>,
) -> Result<u32, AllocError>
    requires { count ≤ length (kept_items kept.old) }
    ensures does { IfOk result (λ n. of_kept list_of count (stack_view kept.old)
        ≡ Some (n, found_view at_hand.new, stack_view kept.new)) }
    ensures room { kept_room kept.new ≡ kept_room kept.old }
{
    let mut list = taken_off(alloc, kept, count)?;
    list.reverse();
    *at_hand = Found::Made(Datum::List(list));
    Ok(0)
}

/// A list of what is at hand alone is at hand next: it is copied where it is only lent.
pub fn wrap(alloc: Global, at_hand: &mut Found<'_>) -> Result<u32, AllocError>
    ensures at_hand { OnOk result (found_view at_hand.new
        ≡ list_of (found_view at_hand.old ∷ [])) }
    ensures skipped { IfOk result (λ n. n ≡ 0) }
{
    let mut items = Vec::with_capacity(alloc, 1)?;
    items.push(take(at_hand).into_datum(alloc)?)?;
    *at_hand = Found::Made(Datum::List(items));
    Ok(0)
}

// The last kept results, so many, the last one first.
fn taken_off(alloc: Global, kept: &mut Kept<'_>, count: u32) -> Result<Vec<Datum>, AllocError>
    requires { count ≤ length (kept_items kept.old) }
    ensures taken { IfOk result (λ v. off count (stack_view kept.old) []
        ≡ (onto (map view v.items) [], stack_view kept.new)) }
    ensures room { kept_room kept.new ≡ kept_room kept.old }
{
    let mut items = Vec::with_capacity(alloc, count as usize)?;
    let mut left = count;
    'results: while left > 0 {
        left -= 1;
        if let Some(result) = kept.pop() {
            items.push(result.into_datum(alloc)?)?;
        }
    }
    Ok(items)
}
