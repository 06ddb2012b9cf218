//! The pairs of `fractional`, as JSON writes them.

ghost use Rattle.std.specs.Prelude.{◌≡◌, ◌+◌, true, None, Some, IfOk, List, option_map, is_some};
ghost use Rattle.fp_base.specs.TreeView.{tree_view, tree_items};
ghost use Rattle.fp_operators.specs.Data.{whole};
ghost use Rattle.fp_machine.specs.Rule.{Rule, Rules};
ghost use Rattle.fp_machine.specs.Split.{total_of, weight_in, within_limit};
ghost use Rattle.fp_machine.specs.View.{rules_of};
ghost use Rattle.fp_targeting.specs.Compile.{items_unknown, rules_from};
ghost use Rattle.fp_targeting.specs.Pairs.{name_written, weight_written, pair_of_items};
ghost use Rattle.fp_targeting.specs.Pairs.{pair_written, pair_view};

use fp_base::Tree as Json;
use fp_machine::{Share, Table};
use fp_operators::{Datum, Text};
use std::alloc::{AllocError, Global};

/// The greatest weight of a pair, and the greatest total of a rule's pairs.
pub const GREATEST_WEIGHT: u32 = 0x7fff_ffff;

/// What a pair in JSON writes.
#[derive(Clone, Copy, Drop)]
struct Pair<'j> {
    name: &'j str,
    weight: Option<u32>,
}

/// The table of these pairs, or none where one is no pair or they weigh too much together.
pub fn read_table(alloc: Global, pairs: &[Json<'_>]) -> Result<Option<Table>, AllocError>
    ensures pairs { IfOk result (λ o. (t : Rules) → o ≡ Some t
        → option_map rules_of (rules_from (tree_items pairs.now)) ≡ Some t) }
    ensures known { IfOk result (λ o. (t : Rules) → o ≡ Some t
        → items_unknown (tree_items pairs.now) ≡ None) }
    ensures total { IfOk result (λ o. (t : Rules) → o ≡ Some t
        → is_some (total_of t) ≡ true) }
    ensures none { IfOk result (λ o. o ≡ None → (rs : List Rule)
        → rules_from (tree_items pairs.now) ≡ Some rs → total_of (rules_of rs) ≡ None) }
{
    let mut shares = Vec::with_capacity(alloc, pairs.len())?;
    let mut total = 0;
    for json in pairs {
        let Some(pair) = pair_in(json) else {
            return Ok(None);
        };
        let Some(more) = added(total, pair.weight.unwrap_or(1)) else {
            return Ok(None);
        };
        total = more;
        let name = Datum::Text(Text::from_str(alloc, pair.name)?);
        shares.push(Share {
            name,
            weight: pair.weight,
        })?;
    }
    let table = Table::of(alloc, shares, total)?;
    Ok(Some(table))
}

fn added(sum: u32, weight: u32) -> Option<u32>
    ensures { result ≡ within_limit (Some (sum + weight)) }
{
    let total = sum as u64 + weight as u64;
    if total > GREATEST_WEIGHT as u64 {
        return None;
    }
    Some(total as u32)
}

fn pair_in<'j>(json: &'j Json<'_>) -> Option<Pair<'j>>
    ensures { option_map pair_view result ≡ pair_written (tree_view json.now) }
{
    match json {
        Json::Array(items) => pair_of(items),
        _ => None,
    }
}

fn pair_of<'j>(items: &'j [Json<'_>]) -> Option<Pair<'j>>
    ensures { option_map pair_view result ≡ pair_of_items (tree_items items.now) }
{
    match items {
        [] => None,
        [name] => match name_in(name) {
            Some(name) => Some(Pair { name, weight: None }),
            None => None,
        },
        [name, weight] => match (name_in(name), weight_in(weight)) {
            (Some(name), Some(weight)) => Some(Pair {
                name,
                weight: Some(weight),
            }),
            _ => None,
        },
        [_, _, _, ..] => None,
    }
}

fn name_in<'j>(json: &'j Json<'_>) -> Option<&'j str>
    ensures { option_map (λ s. s.now) result ≡ name_written (tree_view json.now) }
{
    match json {
        Json::String(name) => Some(*name),
        _ => None,
    }
}

fn weight_in(json: &Json<'_>) -> Option<u32>
    ensures { result ≡ weight_written (tree_view json.now) }
{
    match json {
        Json::Number(number) => match number.as_i64() {
            Some(z) => weight(z),
            None => None,
        },
        _ => None,
    }
}

fn weight(number: i64) -> Option<u32>
    ensures { result ≡ weight_in (whole number) }
{
    if number < 0 || number > GREATEST_WEIGHT as i64 {
        return None;
    }
    Some(number as u32)
}
