//! The evaluation context in a request's body.

ghost use Rattle.std.specs.Prelude.{◌≡◌, true, Some, IfOk, IsSome, is_some, codes};
ghost use Rattle.serde_json.specs.Find.{as_object, get};
ghost use Rattle.fp_base.specs.Ordered.{IsOrdered};
ghost use Rattle.fp_base.specs.Tests.{first_failed};
ghost use Rattle.fp_base.specs.TreeView.{tree_view};
ghost use Rattle.fp_base.specs.Whole.{is_whole};
ghost use Rattle.fp_ofrep.specs.Context.{context_of, context_of_data, context_tests, no_context};
ghost use Rattle.fp_ofrep.specs.Context.{text_or_none, unless};
ghost use Rattle.fp_ofrep.specs.Seen.{result_map};

use crate::failure::Failure;
use bumpalo::Bump;
use fp_base::{Tree, read_tree};
use json::Scratch;
use std::alloc::{AllocError, Global};

/// The context in a body, or its first fault. It lends the body's texts.
pub(crate) fn read_context<'a>(
    alloc: Global,
    arena: &'a Bump,
    body: &'a [u8],
    scratch: &'a mut Scratch,
) -> Result<Result<Tree<'a>, Failure>, AllocError>
    ensures context { IfOk result (λ r. result_map tree_view r ≡ context_of body.now) }
    ensures object { IfOk result (λ r. IfOk r (λ t. IsSome (as_object (tree_view t)))) }
    ensures whole { IfOk result (λ r. IfOk r (λ t. is_whole (tree_view t) ≡ true)) }
    ensures ordered { IfOk result (λ r. IfOk r (λ t. IsOrdered (tree_view t))) }
{
    if body.is_empty() {
        return Ok(Ok(empty()));
    }
    match read_tree(alloc, arena, body, scratch)? {
        Some(tree) => Ok(context_of_tree(&tree)),
        None => Ok(Err(Failure::NotJson)),
    }
}

fn empty<'a>() -> Tree<'a>
    ensures { tree_view result ≡ no_context }
{
    Tree::Object(&[])
}

fn context_of_tree<'a>(body: &Tree<'a>) -> Result<Tree<'a>, Failure>
    requires { IsOrdered (tree_view body.now) }
    ensures context { result_map tree_view result
        ≡ context_of_data (Some (tree_view body.now)) }
    ensures object { IfOk result (λ t. IsSome (as_object (tree_view t))) }
    ensures whole { IfOk result (λ t. is_whole (tree_view t) ≡ true) }
    ensures ordered { IfOk result (λ t. IsOrdered (tree_view t)) }
{
    let Tree::Object(_) = body else {
        return Err(Failure::NotObject);
    };
    match body.get("context") {
        None | Some(Tree::Null) => Ok(empty()),
        Some(context) => tested(*context),
    }
}

fn tested<'a>(context: Tree<'a>) -> Result<Tree<'a>, Failure>
    requires { IsOrdered (tree_view context) }
    ensures context { result_map tree_view result
        ≡ unless (first_failed (context_tests (tree_view context.entry)))
        (tree_view context.entry) }
    ensures object { IfOk result (λ t. IsSome (as_object (tree_view t))) }
    ensures whole { IfOk result (λ t. is_whole (tree_view t) ≡ true) }
    ensures ordered { IfOk result (λ t. IsOrdered (tree_view t)) }
{
    if !is_object(&context) {
        return Err(Failure::ContextNotObject);
    }
    if !has_text_or_none(&context) {
        return Err(Failure::KeyNotText);
    }
    if !context.has_whole_numbers() {
        return Err(Failure::NotWhole);
    }
    Ok(context)
}

fn is_object(tree: &Tree<'_>) -> bool
    ensures { result ≡ is_some (as_object (tree_view tree.now)) }
{
    matches!(tree, Tree::Object(_))
}

fn has_text_or_none(context: &Tree<'_>) -> bool
    ensures { result ≡ text_or_none (get (codes "targetingKey") (tree_view context.now)) }
{
    match context.get("targetingKey") {
        None | Some(Tree::String(_)) => true,
        Some(_) => false,
    }
}
