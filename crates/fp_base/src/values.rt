//! Values that own their texts: whether their numbers are whole, and the trees that borrow from them.

ghost use Rattle.std.specs.Prelude.{◌≡◌, IfOk};
ghost use Rattle.serde_json.specs.View.{view, items_view, members_view};
ghost use Rattle.fp_base.specs.Ordered.{IsOrdered, AreOrdered, MembersAreOrdered};
ghost use Rattle.fp_base.specs.Sorted.{IsSorted};
ghost use Rattle.fp_base.specs.TreeView.{tree_view, tree_items, tree_members};
ghost use Rattle.fp_base.specs.Whole.{is_whole};

use crate::next::{next_named, next_value};
use crate::numbers::number_tree;
use crate::tree::Tree;
use bumpalo::Bump;
use bumpalo::collections::into_bump_slice;
use serde_json::{Map, Value};
use std::alloc::AllocError;

/// Whether no number in the value has a fraction, an exponent or more than 64 signed bits.
/// `-0` counts as a fraction.
pub fn whole_numbers(value: &Value) -> bool
    ensures { result ≡ is_whole (view value.now) }
{
    match value {
        Value::Null | Value::Bool(_) | Value::String(_) => true,
        Value::Number(number) => number.is_i64(),
        Value::Array(items) => {
            let mut items = items.iter();
            while let Some(item) = next_value(&mut items) {
                if !whole_numbers(item) {
                    return false;
                }
            }
            true
        }
        Value::Object(members) => {
            let mut members = members.iter();
            while let Some((_name, member)) = next_named(&mut members) {
                if !whole_numbers(member) {
                    return false;
                }
            }
            true
        }
    }
}

impl<'a> Tree<'a> {
    /// The tree of the same data, which borrows the value's texts. Its lists and objects stand in
    /// the arena.
    pub fn of_value(arena: &'a Bump, value: &'a Value) -> Result<Tree<'a>, AllocError>
        ensures same { IfOk result (λ t. tree_view t ≡ view value.now) }
        // `Ok`: it is ordered.
        ensures ordered { IfOk result (λ t. IsOrdered (tree_view t)) }
    {
        lent(arena, value)
    }
}

#[cycle(lends)]
fn lent<'a>(arena: &'a Bump, value: &'a Value) -> Result<Tree<'a>, AllocError>
    ensures same { IfOk result (λ t. tree_view t ≡ view value.now) }
    ensures ordered { IfOk result (λ t. IsOrdered (tree_view t)) }
{
    match value {
        Value::Null => Ok(Tree::Null),
        Value::Bool(b) => Ok(Tree::Bool(*b)),
        Value::Number(number) => Ok(number_tree(number)),
        Value::String(text) => Ok(Tree::String(text.as_str())),
        Value::Array(items) => Ok(Tree::Array(lent_items(arena, items)?)),
        Value::Object(members) => Ok(Tree::Object(lent_members(arena, members)?)),
    }
}

#[cycle(lends)]
fn lent_items<'a>(arena: &'a Bump, items: &'a Vec<Value>) -> Result<&'a [Tree<'a>], AllocError>
    ensures same { IfOk result (λ found. tree_items found.now ≡ items_view items.now.items) }
    ensures ordered { IfOk result (λ found. AreOrdered (tree_items found.now)) }
{
    let mut found = Vec::with_capacity(arena, items.len())?;
    for item in items {
        found.push(lent(arena, item)?)?;
    }
    Ok(into_bump_slice(found))
}

#[cycle(lends)]
fn lent_members<'a>(
    arena: &'a Bump,
    members: &'a Map<String, Value>,
) -> Result<&'a [(&'a str, Tree<'a>)], AllocError>
    ensures same { IfOk result (λ found.
        tree_members found.now ≡ members_view members.now.entries) }
    ensures sorted { IfOk result (λ found. IsSorted (tree_members found.now)) }
    ensures ordered { IfOk result (λ found. MembersAreOrdered (tree_members found.now)) }
{
    let mut found = Vec::with_capacity(arena, members.len())?;
    for (name, member) in members.iter() {
        found.push((name.as_str(), lent(arena, member)?))?;
    }
    Ok(into_bump_slice(found))
}
