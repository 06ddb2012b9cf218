//! What is left of a list or of an object, of which one is handed out after another.

ghost use Rattle.std.specs.Prelude.{◌≡◌};
ghost use Rattle.std.specs.Slice.Iter.{iter_rest};
ghost use Rattle.serde_json.specs.View.{view, items_view, members_view};
ghost use Rattle.fp_base.specs.Next.{first_item, first_member};
ghost use Rattle.fp_base.specs.TreeView.{tree_view, tree_items, tree_members};

use crate::tree::Tree;
use serde_json::Value;
use std::collections::btree_map;
use std::slice;

// The next tree of a list.
#[inline(always)]
pub(crate) fn next_item<'i, 'a>(items: &mut slice::Iter<'i, Tree<'a>>) -> Option<&'i Tree<'a>>
    ensures { tree_items (iter_rest items.old)
        ≡ first_item (λ t. tree_view t.now) result (tree_items (iter_rest items.new)) }
{
    items.next()
}

// The next tree of an object, behind its name.
#[inline(always)]
pub(crate) fn next_member<'i, 'a>(
    members: &mut slice::Iter<'i, (&'a str, Tree<'a>)>,
) -> Option<(&'a str, &'i Tree<'a>)>
    ensures { tree_members (iter_rest members.old)
        ≡ first_member (λ t. tree_view t.now) result (tree_members (iter_rest members.new)) }
{
    let member = members.next()?;
    Some((member.0, &member.1))
}

// The next value of a list.
#[inline(always)]
pub(crate) fn next_value<'i>(items: &mut slice::Iter<'i, Value>) -> Option<&'i Value>
    ensures { items_view (iter_rest items.old)
        ≡ first_item (λ v. view v.now) result (items_view (iter_rest items.new)) }
{
    items.next()
}

// The next value of an object, behind its name.
#[inline(always)]
pub(crate) fn next_named<'i>(
    members: &mut btree_map::Iter<'i, String, Value>,
) -> Option<(&'i str, &'i Value)>
    ensures { members_view members.old
        ≡ first_member (λ v. view v.now) result (members_view members.new) }
{
    let (name, member) = members.next()?;
    Some((name.as_str(), member))
}
