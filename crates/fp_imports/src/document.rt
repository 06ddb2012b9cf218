//! A flagd document as flags.

ghost use Rattle.std.specs.Prelude.{◌≡◌, None, map, option_map, codes, IfOk, IfSome};
ghost use Rattle.std.specs.List.Sorted.{IsStrictlySortedBy};
ghost use Rattle.std.specs.Map.{keys_of};
ghost use Rattle.serde_json.specs.Data.{object};
ghost use Rattle.serde_json.specs.Find.{get_member};
ghost use Rattle.serde_json.specs.View.{view};
ghost use Rattle.fp_base.specs.Answer.{Gives};
ghost use Rattle.fp_base.specs.Ordered.{IsOrdered};
ghost use Rattle.fp_base.specs.TreeView.{tree_view, tree_members};
ghost use Rattle.fp_definition.specs.Key.{flag_cmp, key_bytes};
ghost use Rattle.fp_imports.specs.Document.{document as document_of};
ghost use Rattle.fp_imports.specs.Document.{flags_of as every_flag, flag_of as one_flag};
ghost use Rattle.fp_imports.specs.Document.{flag_if_valid, flag_expansion};
ghost use Rattle.fp_imports.specs.Faults.{Tells, TellsBroken, seen_flag};
ghost use Rattle.fp_imports.specs.Places.{IsPlaceOf};

use crate::faults::{ImportFault, ReferenceFault};
use crate::references::{expand, stands};
use bumpalo::Bump;
use bumpalo::collections::into_bump_slice;
use fp_base::{Tree, member_in_order};
use fp_definition::{DefFault, Definition, FlagKey, KeyFault};
use serde_json::Value;
use std::alloc::Global;

/// The flags of a flagd document, by ascending keys, with the references in their targeting
/// replaced. What the document has beside `flags` and `$evaluators` is dropped.
///
/// Flags are looked at by ascending keys, and the first fault is answered; of one flag the key
/// first, then its references, then its definition with the references replaced.
pub fn expand_document(
    alloc: Global,
    document: Value,
) -> Result<Vec<(FlagKey, Definition)>, ImportFault>
    // `Ok`: exactly the keys and canonical texts of the flags that the document defines; a fault:
    // the first one that it has, or `Memory`, which is never told as a flag's.
    ensures flags { Gives (λ v. map seen_flag v.items) Tells result (document_of (view document)) }
    // `Ok`: the keys ascend strictly.
    ensures ascending { IfOk result (λ v. IsStrictlySortedBy flag_cmp (keys_of v.items)) }
{
    let arena = Bump::new(alloc);
    let tree = Tree::of_value(&arena, &document)?;
    expand_tree(alloc, &arena, &tree)
}

/// The flags of a flagd document that was read into the arena as a tree, as `expand_document` gives
/// them. Texts are never copied until a definition owns its own.
pub fn expand_tree<'a>(
    alloc: Global,
    arena: &'a Bump,
    document: &Tree<'a>,
) -> Result<Vec<(FlagKey, Definition)>, ImportFault>
    // The tree is ordered, as one is that `read_tree` of `fp_base` made.
    requires { IsOrdered (tree_view document.now) }
    // `Ok`: exactly the keys and canonical texts of the flags that the document defines; a fault:
    // the first one that it has, or `Memory`, which is never told as a flag's.
    ensures flags { Gives (λ v. map seen_flag v.items) Tells result
        (document_of (tree_view document.now)) }
    // `Ok`: the keys ascend strictly.
    ensures ascending { IfOk result (λ v. IsStrictlySortedBy flag_cmp (keys_of v.items)) }
{
    let Tree::Object(members) = document else {
        return Err(ImportFault::NotDocument);
    };
    let Some(Tree::Object(flags)) = member_in_order(members, "flags") else {
        return Err(ImportFault::NotDocument);
    };
    match member_in_order(members, "$evaluators") {
        None => flags_of(alloc, arena, &[], flags),
        Some(Tree::Object(evaluators)) => flags_of(alloc, arena, evaluators, flags),
        Some(_) => Err(ImportFault::NotDocument),
    }
}

fn flags_of<'a>(
    alloc: Global,
    arena: &'a Bump,
    evaluators: &[(&'a str, Tree<'a>)],
    flags: &[(&'a str, Tree<'a>)],
) -> Result<Vec<(FlagKey, Definition)>, ImportFault>
    requires evaluators { IsOrdered (object (tree_members evaluators.now)) }
    requires flags { IsOrdered (object (tree_members flags.now)) }
    ensures flags { Gives (λ v. map seen_flag v.items) Tells result
        (every_flag (tree_members evaluators.now) (tree_members flags.now)) }
    ensures ascending { IfOk result (λ v. IsStrictlySortedBy flag_cmp (keys_of v.items)) }
{
    let mut found = Vec::with_capacity(alloc, flags.len())?;
    for flag in flags {
        match flag_named(alloc, arena, evaluators, flag.0, &flag.1) {
            Ok(made) => found.push(made)?,
            Err(fault) => return Err(fault),
        }
    }
    Ok(found)
}

fn flag_named<'a>(
    alloc: Global,
    arena: &'a Bump,
    evaluators: &[(&'a str, Tree<'a>)],
    name: &str,
    flag: &Tree<'a>,
) -> Result<(FlagKey, Definition), ImportFault>
    requires evaluators { IsOrdered (object (tree_members evaluators.now)) }
    requires flag { IsOrdered (tree_view flag.now) }
    ensures { Gives seen_flag Tells result
        (one_flag (tree_members evaluators.now) name.now (tree_view flag.now)) }
{
    let key = match FlagKey::new(alloc, name) {
        Ok(key) => key,
        Err(KeyFault::BadKey) => return Err(ImportFault::BadKey(String::from_str(alloc, name)?)),
        Err(KeyFault::Memory) => return Err(ImportFault::Memory),
    };
    match expand_flag(alloc, arena, evaluators, flag) {
        Ok(flag) => flag_defined(alloc, key, &flag),
        Err(ReferenceFault::Unknown(name)) => Err(ImportFault::RefUnknown(name)),
        Err(ReferenceFault::TooDeep) => Err(ImportFault::RefTooDeep),
        Err(ReferenceFault::TooLarge) => Err(ImportFault::Flag(key, DefFault::TooLarge)),
        Err(ReferenceFault::Memory) => Err(ImportFault::Memory),
    }
}

// The flag of that key whose definition the tree is.
fn flag_defined(
    alloc: Global,
    key: FlagKey,
    flag: &Tree<'_>,
) -> Result<(FlagKey, Definition), ImportFault>
    requires { IsOrdered (tree_view flag.now) }
    ensures { Gives seen_flag Tells result (flag_if_valid (key_bytes key) (tree_view flag.now)) }
{
    match Definition::from_tree(alloc, flag) {
        Ok(definition) => Ok((key, definition)),
        Err(DefFault::Memory) => Err(ImportFault::Memory),
        Err(fault) => Err(ImportFault::Flag(key, fault)),
    }
}

// A flag with the references in its targeting replaced. All else stays where it is.
fn expand_flag<'a>(
    alloc: Global,
    arena: &'a Bump,
    evaluators: &[(&'a str, Tree<'a>)],
    flag: &Tree<'a>,
) -> Result<Tree<'a>, ReferenceFault>
    requires evaluators { IsOrdered (object (tree_members evaluators.now)) }
    requires flag { IsOrdered (tree_view flag.now) }
    ensures made { Gives tree_view TellsBroken result
        (flag_expansion (tree_members evaluators.now) (tree_view flag.now)) }
    ensures ordered { IfOk result (λ t. IsOrdered (tree_view t)) }
{
    let Tree::Object(members) = flag else {
        return Ok(*flag);
    };
    let Some(at) = place_of(members, "targeting") else {
        return Ok(*flag);
    };
    if stands(&members[at].1) {
        return Ok(*flag);
    }
    match expand(alloc, arena, evaluators, &members[at].1) {
        Ok((targeting, _)) => {
            let mut expanded = Vec::from_slice(arena, members)?;
            expanded[at].1 = targeting;
            Ok(Tree::Object(into_bump_slice(expanded)))
        }
        Err(fault) => Err(fault),
    }
}

// Where the member of that name stands.
fn place_of(members: &[(&str, Tree<'_>)], name: &str) -> Option<usize>
    ensures found { IfSome result (IsPlaceOf name.now members.now) }
    ensures none { result ≡ None → get_member name.now (tree_members members.now) ≡ None }
{
    for at in 0..members.len() {
        if members[at].0 == name {
            return Some(at);
        }
    }
    None
}
