//! References in a targeting, replaced by the evaluators that they name.

ghost use Rattle.std.specs.Prelude.{◌≡◌, ◌+◌, ℕ, true, false, map, option_map};
ghost use Rattle.std.specs.Prelude.{IfOk, IfSome, Ok};
ghost use Rattle.serde_json.specs.Data.{Members, object};
ghost use Rattle.fp_base.specs.Answer.{Gives};
ghost use Rattle.fp_base.specs.Count.{count, items_count, members_count};
ghost use Rattle.fp_base.specs.Ordered.{IsOrdered};
ghost use Rattle.fp_base.specs.Sorted.{IsSorted};
ghost use Rattle.fp_base.specs.TreeView.{tree_view, tree_items, tree_members};
ghost use Rattle.fp_imports.specs.References.{reference as reference_of, count_one, expansion};
ghost use Rattle.fp_imports.specs.References.{items_expansion, members_expansion, replacement};
ghost use Rattle.fp_imports.specs.References.{whole_expansion};
ghost use Rattle.fp_imports.specs.Refers.{refers, items_refer, members_refer};
ghost use Rattle.fp_imports.specs.Faults.{TellsBroken, with_rest};

use crate::faults::ReferenceFault;
use bumpalo::Bump;
use bumpalo::collections::into_bump_slice;
use fp_base::{Tree, member_in_order};
use std::alloc::Global;

/// References that a targeting may replace inside one another.
pub const MOST_REPLACEMENTS: u32 = 8;

/// The most values that a targeting has once its references are replaced.
pub const MOST_EXPANDED_VALUES: usize = 16_384;

// A targeting with its references replaced, and how many more values it might have had.
pub(crate) fn expand<'a>(
    alloc: Global,
    arena: &'a Bump,
    evaluators: &[(&'a str, Tree<'a>)],
    targeting: &Tree<'a>,
) -> Result<(Tree<'a>, usize), ReferenceFault>
    requires evaluators { IsOrdered (object (tree_members evaluators.now)) }
    requires targeting { IsOrdered (tree_view targeting.now) }
    ensures made { Gives (with_rest tree_view) TellsBroken result
        (whole_expansion (tree_members evaluators.now) (tree_view targeting.now)) }
    ensures ordered { IfOk result (λ p. IsOrdered (tree_view p.0)) }
{
    expand_value(
        alloc,
        arena,
        evaluators,
        targeting,
        MOST_REPLACEMENTS,
        MOST_EXPANDED_VALUES,
    )
}

// `more` replacements may still stand in one another, and `left` values may still be counted.
#[cycle(expands)]
fn expand_value<'a>(
    alloc: Global,
    arena: &'a Bump,
    evaluators: &[(&'a str, Tree<'a>)],
    value: &Tree<'a>,
    more: u32,
    left: usize,
) -> Result<(Tree<'a>, usize), ReferenceFault>
    requires { IsSorted (tree_members evaluators.now) }
    ensures { Gives (with_rest tree_view) TellsBroken result
        (expansion (replacement (tree_members evaluators.now) more) (tree_view value.now) left) }
{
    match value {
        Tree::Object(members) => match reference(members) {
            Some(name) => expand_reference(alloc, arena, evaluators, name, more, left),
            None => {
                if left == 0 {
                    return Err(ReferenceFault::TooLarge);
                }
                match expand_members(alloc, arena, evaluators, members, more, left - 1) {
                    Ok((found, rest)) => Ok((Tree::Object(found), rest)),
                    Err(fault) => Err(fault),
                }
            }
        },
        Tree::Array(items) => {
            if left == 0 {
                return Err(ReferenceFault::TooLarge);
            }
            match expand_items(alloc, arena, evaluators, items, more, left - 1) {
                Ok((found, rest)) => Ok((Tree::Array(found), rest)),
                Err(fault) => Err(fault),
            }
        }
        Tree::Null | Tree::Bool(_) | Tree::Number(_) | Tree::String(_) => {
            counted_alone(*value, left)
        }
    }
}

// What stands for a name.
#[cycle(expands)]
fn expand_reference<'a>(
    alloc: Global,
    arena: &'a Bump,
    evaluators: &[(&'a str, Tree<'a>)],
    name: &str,
    more: u32,
    left: usize,
) -> Result<(Tree<'a>, usize), ReferenceFault>
    requires { IsSorted (tree_members evaluators.now) }
    ensures { Gives (with_rest tree_view) TellsBroken result
        (replacement (tree_members evaluators.now) more name.now left) }
{
    if more == 0 {
        return Err(ReferenceFault::TooDeep);
    }
    match member_in_order(evaluators, name) {
        Some(evaluator) => expand_value(alloc, arena, evaluators, evaluator, more - 1, left),
        None => Err(ReferenceFault::Unknown(String::from_str(alloc, name)?)),
    }
}

#[cycle(expands)]
fn expand_items<'a>(
    alloc: Global,
    arena: &'a Bump,
    evaluators: &[(&'a str, Tree<'a>)],
    items: &[Tree<'a>],
    more: u32,
    left: usize,
) -> Result<(&'a [Tree<'a>], usize), ReferenceFault>
    requires { IsSorted (tree_members evaluators.now) }
    ensures { Gives (with_rest (λ v. map tree_view v.now)) TellsBroken result
        (items_expansion (replacement (tree_members evaluators.now) more)
        (tree_items items.now) left) }
{
    let mut found = Vec::with_capacity(arena, items.len())?;
    let mut unused = left;
    for item in items {
        match expand_value(alloc, arena, evaluators, item, more, unused) {
            Ok((made, rest)) => {
                found.push_reserved(made);
                unused = rest;
            }
            Err(fault) => return Err(fault),
        }
    }
    Ok((into_bump_slice(found), unused))
}

#[cycle(expands)]
fn expand_members<'a>(
    alloc: Global,
    arena: &'a Bump,
    evaluators: &[(&'a str, Tree<'a>)],
    members: &[(&'a str, Tree<'a>)],
    more: u32,
    left: usize,
) -> Result<(&'a [(&'a str, Tree<'a>)], usize), ReferenceFault>
    requires { IsSorted (tree_members evaluators.now) }
    ensures { Gives (with_rest (λ v. tree_members v.now)) TellsBroken result
        (members_expansion (replacement (tree_members evaluators.now) more)
        (tree_members members.now) left) }
{
    let mut found = Vec::with_capacity(arena, members.len())?;
    let mut unused = left;
    for member in members {
        match expand_value(alloc, arena, evaluators, &member.1, more, unused) {
            Ok((made, rest)) => {
                found.push_reserved((member.0, made));
                unused = rest;
            }
            Err(fault) => return Err(fault),
        }
    }
    Ok((into_bump_slice(found), unused))
}

// Whether a targeting has no references to replace, and few enough values. It is its own expansion
// then.
pub(crate) fn stands(targeting: &Tree<'_>) -> bool
    ensures { result ≡ true → (evaluators : Members) → (rest : ℕ)
        × (whole_expansion evaluators (tree_view targeting.now)
        ≡ Ok (tree_view targeting.now, rest)) }
{
    uncounted(targeting, MOST_EXPANDED_VALUES).is_some()
}

// How many values may still be counted after those of a tree in which no reference stands.
#[cycle(stands)]
fn uncounted(tree: &Tree<'_>, left: usize) -> Option<usize>
    ensures { IfSome result (λ rest. (refers (tree_view tree.now) ≡ false)
        × (left ≡ count (tree_view tree.now) + rest)) }
{
    let after = left.checked_sub(1)?;
    match tree {
        Tree::Null | Tree::Bool(_) | Tree::Number(_) | Tree::String(_) => Some(after),
        Tree::Array(items) => uncounted_items(items, after),
        Tree::Object(members) => match reference(members) {
            Some(_) => None,
            None => uncounted_members(members, after),
        },
    }
}

#[cycle(stands)]
fn uncounted_items(items: &[Tree<'_>], left: usize) -> Option<usize>
    ensures { IfSome result (λ rest. (items_refer (tree_items items.now) ≡ false)
        × (left ≡ items_count (tree_items items.now) + rest)) }
{
    let mut unused = left;
    for item in items {
        unused = uncounted(item, unused)?;
    }
    Some(unused)
}

#[cycle(stands)]
fn uncounted_members(members: &[(&str, Tree<'_>)], left: usize) -> Option<usize>
    ensures { IfSome result (λ rest. (members_refer (tree_members members.now) ≡ false)
        × (left ≡ members_count (tree_members members.now) + rest)) }
{
    let mut unused = left;
    for member in members {
        unused = uncounted(&member.1, unused)?;
    }
    Some(unused)
}

// A tree that holds no others, if it may be counted.
fn counted_alone<'a>(tree: Tree<'a>, left: usize) -> Result<(Tree<'a>, usize), ReferenceFault>
    ensures { Gives (with_rest tree_view) TellsBroken result
        (count_one left (λ n. Ok (tree_view tree.entry, n))) }
{
    if left == 0 {
        Err(ReferenceFault::TooLarge)
    } else {
        Ok((tree, left - 1))
    }
}

// The name that an object refers to, if it is a reference.
fn reference<'a>(members: &[(&str, Tree<'a>)]) -> Option<&'a str>
    ensures { option_map (λ s. s.now) result ≡ reference_of (tree_members members.now) }
{
    if members.len() != 1 {
        return None;
    }
    let member = &members[0];
    match &member.1 {
        Tree::String(name) => {
            if member.0 == "$ref" {
                Some(*name)
            } else {
                None
            }
        }
        _ => None,
    }
}
