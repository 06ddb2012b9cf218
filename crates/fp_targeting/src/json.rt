//! What a JSON value is, as a part of a rule.

ghost use Rattle.std.specs.Prelude.{◌≡◌, ◌≤◌, true, false, option_map};
ghost use Rattle.serde_json.specs.Find.{as_str};
ghost use Rattle.fp_base.specs.Count.{count, items_count};
ghost use Rattle.fp_base.specs.Ordered.{IsOrdered, AreOrdered};
ghost use Rattle.fp_base.specs.TreeView.{tree_view, tree_items};
ghost use Rattle.fp_targeting.specs.Compile.{first_unknown, items_unknown, arguments_of};
ghost use Rattle.fp_targeting.specs.Compile.{rules_from};
ghost use Rattle.fp_targeting.specs.Compiles.{is_array};
ghost use Rattle.fp_operators.specs.FromJson.{data_of, items_from};
ghost use Rattle.fp_operators.specs.View.{view, items_view};
ghost use Rattle.fp_targeting.specs.Literal.{is_literal, all_literal, whole_in};

use fp_base::Tree as Json;
use fp_operators::Datum;
use std::slice::from_ref;

/// A list of arguments, or an only one.
pub fn arguments<'t, 'j>(json: &'t Json<'j>) -> &'t [Json<'j>]
    requires { IsOrdered (tree_view json.now) }
    ensures rules { rules_from (tree_items result.now) ≡ arguments_of (tree_view json.now) }
    ensures unknown { items_unknown (tree_items result.now) ≡ first_unknown (tree_view json.now) }
    ensures ordered { AreOrdered (tree_items result.now) }
    ensures few { items_count (tree_items result.now) ≤ count (tree_view json.now) }
{
    match json {
        Json::Array(items) => *items,
        _ => from_ref(json),
    }
}

/// Whether a value is a list.
pub fn is_array(json: &Json<'_>) -> bool
    ensures { result ≡ is_array (tree_view json.now) }
{
    matches!(json, Json::Array(_))
}

/// The text that a value is.
pub fn text_of<'t>(json: &'t Json<'_>) -> Option<&'t str>
    ensures { option_map (λ s. s.now) result ≡ as_str (tree_view json.now) }
{
    match json {
        Json::String(text) => Some(text),
        _ => None,
    }
}

/// Whether a value is no list, and no operator's object.
pub fn is_literal(json: &Json<'_>) -> bool
    ensures { result ≡ is_literal (tree_view json.now) }
{
    match json {
        Json::Null | Json::Bool(_) | Json::Number(_) | Json::String(_) => true,
        Json::Array(_) => false,
        Json::Object(members) => members.len() != 1,
    }
}

/// The same of each of these.
pub fn are_literals(items: &[Json<'_>]) -> bool
    ensures { result ≡ all_literal (tree_items items.now) }
{
    for item in items {
        if !is_literal(item) {
            return false;
        }
    }
    true
}

/// The whole number that a value is.
pub fn whole_number(json: &Json<'_>) -> Option<i64>
    ensures { result ≡ whole_in (data_of (tree_view json.now)) }
{
    match json {
        Json::Number(number) => number.as_i64(),
        _ => None,
    }
}

/// Whether a value that stands for itself writes a datum. Objects aren't looked into.
pub fn writes(json: &Json<'_>, datum: &Datum) -> bool
    ensures { result ≡ true → view datum.now ≡ data_of (tree_view json.now) }
{
    match (datum, json) {
        (Datum::Text(a), Json::String(b)) => a.as_str().len() == b.len() && a.as_str() == *b,
        (Datum::List(made), Json::Array(items)) => all_write(items, made.as_slice()),
        _ => is_scalar(json, datum),
    }
}

// The same of each of these.
fn all_write(items: &[Json<'_>], made: &[Datum]) -> bool
    ensures { result ≡ true → items_view made.now ≡ items_from (tree_items items.now) }
{
    if items.len() != made.len() {
        return false;
    }
    let mut left = items.len();
    'items: while left > 0 {
        left -= 1;
        if !is_scalar(&items[left], &made[left]) {
            return false;
        }
    }
    true
}

// Whether a value is a datum that is no list and no object.
fn is_scalar(json: &Json<'_>, datum: &Datum) -> bool
    ensures { result ≡ true → view datum.now ≡ data_of (tree_view json.now) }
{
    match (datum, json) {
        (Datum::Null, Json::Null) => true,
        (Datum::Bool(a), Json::Bool(b)) => *a == *b,
        (Datum::Whole(a), Json::Number(b)) => b.as_i64() == Some(*a),
        (Datum::Text(a), Json::String(b)) => a.as_str() == *b,
        _ => false,
    }
}

/// Whether no instruction is needed for a value, as `Builder::operand` finds.
pub fn is_lent(json: &Json<'_>) -> bool
    requires { IsOrdered (tree_view json.now) }
{
    match json {
        Json::Null | Json::Bool(_) | Json::Number(_) | Json::String(_) => true,
        Json::Array(items) => are_literals(items),
        Json::Object(members) => {
            if members.len() != 1 {
                return true;
            }
            let only = &members[0];
            only.0 == "var" && is_known(arguments(&only.1))
        }
    }
}

// Whether `var` is of all data, or of a path that is known.
fn is_known(arguments: &[Json<'_>]) -> bool {
    match arguments {
        [] => true,
        [only] => text_of(only).is_some(),
        [_, _, ..] => false,
    }
}
