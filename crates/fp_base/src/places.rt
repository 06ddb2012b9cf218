//! Members of an object in ascending order of their names: where one belongs, and one is found.

ghost use Rattle.std.specs.Prelude.{◌≡◌, true, drop, OnOk, option_map};
ghost use Rattle.serde_json.specs.Data.{put};
ghost use Rattle.serde_json.specs.Find.{get_member};
ghost use Rattle.fp_base.specs.Places.{IsPlaceOf, first_is_named};
ghost use Rattle.fp_base.specs.Sorted.{IsSorted};
ghost use Rattle.fp_base.specs.TreeView.{tree_view, tree_members};

use crate::tree::Tree;
use std::alloc::AllocError;

/// The member of that name, found by halves; `None` exactly where there is none.
pub fn member_in_order<'m, 'a>(
    members: &'m [(&'a str, Tree<'a>)],
    name: &str,
) -> Option<&'m Tree<'a>>
    // The members ascend by their names, each name once.
    requires { IsSorted (tree_members members.now) }
    ensures { option_map (λ t. tree_view t.now) result
        ≡ get_member name.now (tree_members members.now) }
{
    let at = place_of(members, name);
    if is_named(members, at, name) {
        Some(&members[at].1)
    } else {
        None
    }
}

// Puts a member where it belongs. It takes the place of one of the same name.
pub(crate) fn put_in_order<'a>(
    members: &mut Vec<(&'a str, Tree<'a>)>,
    name: &'a str,
    tree: Tree<'a>,
) -> Result<(), AllocError>
    requires { IsSorted (tree_members members.old.items) }
    ensures { OnOk result (tree_members members.new.items
        ≡ put name.now (tree_view tree.entry) (tree_members members.old.items)) }
{
    let at = place_of(members, name);
    if is_named(members, at, name) {
        members[at].1 = tree;
        Ok(())
    } else {
        members.insert(at, (name, tree))?;
        Ok(())
    }
}

// Whether the member at a place has this name.
fn is_named(members: &[(&str, Tree<'_>)], at: usize, name: &str) -> bool
    ensures { result ≡ first_is_named name.now (drop at members.now) }
{
    match members.get(at) {
        Some(member) => member.0 == name,
        None => false,
    }
}

// The first place whose name doesn't come before this one, or the end.
fn place_of(members: &[(&str, Tree<'_>)], name: &str) -> usize
    requires { IsSorted (tree_members members.now) }
    ensures { IsPlaceOf name.now members.now result }
{
    let mut low = 0;
    let mut high = members.len();
    while low < high {
        let middle = low + (high - low) / 2;
        if members[middle].0.cmp(name).is_lt() {
            low = middle + 1;
        } else {
            high = middle;
        }
    }
    low
}
