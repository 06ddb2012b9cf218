//! The tests that each member of a definition has to meet.

ghost use Rattle.std.specs.Prelude.{◌≡◌, List, Bool, codes, Some, IfOk, IfErr, is_some};
ghost use Rattle.serde_json.specs.Events.{members_len};
ghost use Rattle.serde_json.specs.Find.{as_object, get};
ghost use Rattle.fp_base.specs.Answer.{IsFirst};
ghost use Rattle.fp_base.specs.Tests.{first_failed};
ghost use Rattle.fp_base.specs.TreeView.{tree_view, tree_members};
ghost use Rattle.fp_definition.specs.Choice.{MeetsTests};
ghost use Rattle.fp_definition.specs.Faults.{Tells};
ghost use Rattle.fp_definition.specs.Valid.{Fault, choice_tests, is_state, are_variants, variant_members};
ghost use Rattle.fp_definition.specs.Valid.{is_between, names_variant, is_metadata};
ghost use Rattle.fp_definition.specs.Valid.{metadata_members};

use crate::faults::DefFault;
use crate::kind::{are_of_one_kind, are_scalars};
use fp_base::Tree;

/// The most variants that a definition has.
pub const MOST_VARIANTS: usize = 64;

/// The most members that a definition's `metadata` has.
pub const MOST_METADATA: usize = 32;

// The fault of the first test of a tree's members that it doesn't meet, but for that of `targeting`,
// whatever is tested behind them.
pub(crate) fn tested_members(tree: &Tree<'_>) -> Result<(), DefFault>
    ensures met { IfOk result (λ _. MeetsTests (tree_view tree.now)) }
    ensures refused { (others : List (Bool × Fault)) → IfErr result
        (IsFirst Tells (first_failed (choice_tests (tree_view tree.now) others))) }
{
    if !is_object(tree) {
        return Err(DefFault::NotObject);
    }
    if !has_state(tree) {
        return Err(DefFault::BadState);
    }
    if !has_variants(tree) {
        return Err(DefFault::BadVariants);
    }
    if !has_default(tree) {
        return Err(DefFault::BadDefault);
    }
    if !has_metadata(tree) {
        return Err(DefFault::BadMetadata);
    }
    Ok(())
}

fn is_object(tree: &Tree<'_>) -> bool
    ensures { result ≡ is_some (as_object (tree_view tree.now)) }
{
    matches!(tree, Tree::Object(_))
}

fn has_state(tree: &Tree<'_>) -> bool
    ensures { result ≡ is_state (get (codes "state") (tree_view tree.now)) }
{
    match tree.get("state") {
        None => true,
        Some(Tree::String(text)) => *text == "ENABLED" || *text == "DISABLED",
        Some(_) => false,
    }
}

fn has_variants(tree: &Tree<'_>) -> bool
    ensures { result ≡ are_variants (get (codes "variants") (tree_view tree.now)) }
{
    match tree.get("variants") {
        Some(Tree::Object(members)) => are_variant_members(members),
        _ => false,
    }
}

#[tactic(auto, unfolding(crate::specs::Valid::variant_members))]
fn are_variant_members(members: &[(&str, Tree<'_>)]) -> bool
    ensures { result ≡ variant_members (tree_members members.now) }
{
    count_is_within(members, 1, MOST_VARIANTS) && are_of_one_kind(members)
}

fn has_default(tree: &Tree<'_>) -> bool
    ensures { result ≡ names_variant
        (get (codes "defaultVariant") (tree_view tree.now))
        (get (codes "variants") (tree_view tree.now)) }
{
    match (tree.get("defaultVariant"), tree.get("variants")) {
        (Some(Tree::String(name)), Some(variants)) => variants.get(name).is_some(),
        _ => false,
    }
}

fn has_metadata(tree: &Tree<'_>) -> bool
    ensures { result ≡ is_metadata (get (codes "metadata") (tree_view tree.now)) }
{
    match tree.get("metadata") {
        None => true,
        Some(metadata) => is_metadata(metadata),
    }
}

fn is_metadata(tree: &Tree<'_>) -> bool
    ensures { result ≡ is_metadata (Some (tree_view tree.now)) }
{
    match tree {
        Tree::Object(members) => are_metadata_members(members),
        _ => false,
    }
}

#[tactic(auto, unfolding(crate::specs::Valid::metadata_members))]
fn are_metadata_members(members: &[(&str, Tree<'_>)]) -> bool
    ensures { result ≡ metadata_members (tree_members members.now) }
{
    count_is_within(members, 0, MOST_METADATA) && are_scalars(members)
}

#[tactic(auto, using(fp_base::proofs::Counted::counted))]
fn count_is_within(members: &[(&str, Tree<'_>)], least: usize, most: usize) -> bool
    ensures { result ≡ is_between least most (members_len (tree_members members.now)) }
{
    least <= members.len() && members.len() <= most
}
