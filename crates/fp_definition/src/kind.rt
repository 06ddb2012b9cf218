//! Kinds of JSON, and members that are of one kind.

ghost use Rattle.std.specs.Prelude.{◌≡◌};
ghost use Rattle.fp_base.specs.TreeView.{tree_view, tree_members};
ghost use Rattle.fp_definition.specs.Kinds.{is_kind, is_scalar, all_kind, one_kind};
ghost use Rattle.fp_definition.specs.Kinds.{all_scalars};

use fp_base::Tree;

/// The kinds of value that a flag can have.
#[derive(Debug, Clone, Copy)]
pub(crate) enum Kind {
    Boolean,
    Text,
    Number,
    Object,
}

fn is_of(tree: &Tree<'_>, kind: Kind) -> bool
    ensures { result ≡ is_kind kind (tree_view tree.now) }
{
    match (tree, kind) {
        (Tree::Bool(_), Kind::Boolean) => true,
        (Tree::String(_), Kind::Text) => true,
        (Tree::Number(_), Kind::Number) => true,
        (Tree::Object(_), Kind::Object) => true,
        _ => false,
    }
}

fn are_all_of(members: &[(&str, Tree<'_>)], kind: Kind) -> bool
    ensures { result ≡ all_kind kind (tree_members members.now) }
{
    for member in members {
        if !is_of(&member.1, kind) {
            return false;
        }
    }
    true
}

pub(crate) fn are_of_one_kind(members: &[(&str, Tree<'_>)]) -> bool
    ensures { result ≡ one_kind (tree_members members.now) }
{
    are_all_of(members, Kind::Boolean)
        || are_all_of(members, Kind::Text)
        || are_all_of(members, Kind::Number)
        || are_all_of(members, Kind::Object)
}

fn is_scalar(tree: &Tree<'_>) -> bool
    ensures { result ≡ is_scalar (tree_view tree.now) }
{
    is_of(tree, Kind::Boolean) || is_of(tree, Kind::Text) || is_of(tree, Kind::Number)
}

pub(crate) fn are_scalars(members: &[(&str, Tree<'_>)]) -> bool
    ensures { result ≡ all_scalars (tree_members members.now) }
{
    for member in members {
        if !is_scalar(&member.1) {
            return false;
        }
    }
    true
}
