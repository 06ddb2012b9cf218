//! The data that rules compute with.

ghost use Rattle.std.specs.Prelude.{◌≡◌, IfOk, OnErr, true};
ghost use Rattle.fp_base.specs.Ordered.{IsOrdered, AreOrdered, MembersAreOrdered};
ghost use Rattle.fp_base.specs.Sorted.{IsSorted};
ghost use Rattle.fp_base.specs.TreeView.{tree_view, tree_items, tree_members};
ghost use Rattle.fp_operators.specs.View.{view, items_view, members_view};
ghost use Rattle.fp_operators.specs.FromJson.{data_of, items_from, members_from};
ghost use Rattle.fp_operators.specs.Memory.{takes_memory};

use crate::kept_text::Text;
use fp_base::Tree;
use std::alloc::{AllocError, Global};
use std::collections::BTreeMap;

// Below so many members, putting each into a map by itself is cheaper than making the map at once.
const LEAST_AT_ONCE: usize = 8;

/// Data of rules: what JSON writes, with whole numbers from -2^63 to 2^63-1 alone.
///
/// Data nest no deeper than the JSON that they were read from, which the reader limits to 127
/// levels, and a rule's result than the rule and its data: so the recursion over them is bounded.
#[derive(Drop)]
pub enum Datum {
    Null,
    Bool(bool),
    Whole(i64),
    Text(Text),
    List(Vec<Datum>),
    Object(BTreeMap<String, Datum>),
}

impl Datum {
    /// The datum that a tree of JSON writes. A number that isn't whole becomes null, so callers
    /// refuse such a tree.
    #[cycle(from_tree)]
    pub fn from_tree(alloc: Global, tree: &Tree<'_>) -> Result<Datum, AllocError>
        // The tree is ordered.
        requires { IsOrdered (tree_view tree.now) }
        ensures { IfOk result (λ d. view d ≡ data_of (tree_view tree.now)) }
    {
        match tree {
            Tree::Null => Ok(Datum::Null),
            Tree::Bool(b) => Ok(Datum::Bool(*b)),
            Tree::Number(n) => match n.as_i64() {
                Some(z) => Ok(Datum::Whole(z)),
                None => Ok(Datum::Null),
            },
            Tree::String(s) => Ok(Datum::Text(Text::from_str(alloc, s)?)),
            Tree::Array(items) => Ok(Datum::List(from_items(alloc, items)?)),
            Tree::Object(members) => {
                if members.len() < LEAST_AT_ONCE {
                    return Ok(Datum::Object(from_few(alloc, members)?));
                }
                Ok(Datum::Object(from_many(alloc, members)?))
            }
        }
    }

    /// An equal datum.
    #[cycle(copy)]
    pub fn try_copy(&self, alloc: Global) -> Result<Datum, AllocError>
        ensures copy { IfOk result (λ d. view d ≡ view self.now) }
        // `Err`: it is a text, a list or an object; copying any other can't fail.
        ensures memory { OnErr result (takes_memory (view self.now) ≡ true) }
    {
        match self {
            Datum::Null => Ok(Datum::Null),
            Datum::Bool(b) => Ok(Datum::Bool(*b)),
            Datum::Whole(z) => Ok(Datum::Whole(*z)),
            Datum::Text(s) => Ok(Datum::Text(s.try_copy()?)),
            Datum::List(items) => Ok(Datum::List(copy_items(alloc, items)?)),
            Datum::Object(members) => Ok(Datum::Object(copy_members(alloc, members)?)),
        }
    }
}

#[cycle(from_tree)]
fn from_items(alloc: Global, items: &[Tree<'_>]) -> Result<Vec<Datum>, AllocError>
    requires { AreOrdered (tree_items items.now) }
    ensures { IfOk result (λ v. items_view v.items ≡ items_from (tree_items items.now)) }
{
    let mut found = Vec::with_capacity(alloc, items.len())?;
    for item in items {
        found.push(Datum::from_tree(alloc, item)?)?;
    }
    Ok(found)
}

#[cycle(from_tree)]
fn from_few(
    alloc: Global,
    members: &[(&str, Tree<'_>)],
) -> Result<BTreeMap<String, Datum>, AllocError>
    requires sorted { IsSorted (tree_members members.now) }
    requires ordered { MembersAreOrdered (tree_members members.now) }
    ensures { IfOk result
        (λ m. members_view m.entries ≡ members_from (tree_members members.now)) }
{
    let mut found = BTreeMap::new(alloc);
    for member in members {
        let name = String::from_str(alloc, member.0)?;
        drop(found.insert(name, Datum::from_tree(alloc, &member.1)?)?);
    }
    Ok(found)
}

#[cycle(from_tree)]
fn from_many(
    alloc: Global,
    members: &[(&str, Tree<'_>)],
) -> Result<BTreeMap<String, Datum>, AllocError>
    requires sorted { IsSorted (tree_members members.now) }
    requires ordered { MembersAreOrdered (tree_members members.now) }
    ensures { IfOk result
        (λ m. members_view m.entries ≡ members_from (tree_members members.now)) }
{
    let mut found = Vec::with_capacity(alloc, members.len())?;
    for member in members {
        let name = String::from_str(alloc, member.0)?;
        found.push((name, Datum::from_tree(alloc, &member.1)?))?;
    }
    Ok(found.into_iter().collect(alloc)?)
}

#[cycle(copy)]
fn copy_items(alloc: Global, items: &Vec<Datum>) -> Result<Vec<Datum>, AllocError>
    ensures { IfOk result (λ v. items_view v.items ≡ items_view items.now.items) }
{
    let mut copies = Vec::with_capacity(alloc, items.len())?;
    for item in items {
        copies.push(item.try_copy(alloc)?)?;
    }
    Ok(copies)
}

#[cycle(copy)]
fn copy_members(
    alloc: Global,
    members: &BTreeMap<String, Datum>,
) -> Result<BTreeMap<String, Datum>, AllocError>
    ensures { IfOk result (λ m. members_view m.entries ≡ members_view members.now.entries) }
{
    let mut copies = BTreeMap::new(alloc);
    for (key, member) in members.iter() {
        let name = key.clone()?;
        drop(copies.insert(name, member.try_copy(alloc)?)?);
    }
    Ok(copies)
}
