//! JSON, put straight behind what is there.

ghost use Rattle.std.specs.Prelude.{◌≡◌, ◌≤◌, ◌++◌, ◌∷◌, [], true, false, Some, IfOk, OnOk, is_some};
ghost use Rattle.std.specs.Str.{IsUtf8};
ghost use Rattle.json.specs.Print.{quoted};
ghost use Rattle.serde_json.specs.Data.{array, depth, number as numeral, object};
ghost use Rattle.serde_json.specs.Find.{as_i64};
ghost use Rattle.serde_json.specs.Read.{max_depth};
ghost use Rattle.serde_json.specs.View.{number_view};
ghost use Rattle.serde_json.specs.Written.{compact_text, number_text, comma_if};
ghost use Rattle.serde_json.specs.Written.{items_text, members_text};
ghost use Rattle.fp_base.specs.Json.{json_of};
ghost use Rattle.fp_base.specs.Ordered.{IsOrdered};
ghost use Rattle.fp_base.specs.Printed.{IsPrinted};
ghost use Rattle.fp_base.specs.TreeView.{tree_view, tree_items, tree_members};
ghost use Rattle.fp_base.specs.Whole.{is_whole, items_whole, members_whole};

use crate::escaping::put_quoted;
use crate::tree::Tree;
use serde_json::Number;
use std::alloc::{AllocError, Global};

impl<'a> Tree<'a> {
    /// Puts the text without spaces behind what is there: the canonical text, where the tree is
    /// ordered.
    pub fn put_text(&self, out: &mut Vec<u8>) -> Result<(), AllocError>
        // Each number is whole.
        requires { is_whole (tree_view self.now) ≡ true }
        ensures text { OnOk result (out.new.items
            ≡ out.old.items ++ compact_text (tree_view self.now)) }
        // `Ok`: that text is UTF-8, and each number in it is one of JSON.
        ensures printed { OnOk result (IsPrinted (tree_view self.now)) }
    {
        put_tree(out, self)
    }
}

#[cycle(puts)]
fn put_tree(out: &mut Vec<u8>, tree: &Tree<'_>) -> Result<(), AllocError>
    requires { is_whole (tree_view tree.now) ≡ true }
    ensures text { OnOk result (out.new.items
        ≡ out.old.items ++ compact_text (tree_view tree.now)) }
    ensures printed { OnOk result (IsPrinted (tree_view tree.now)) }
{
    match tree {
        Tree::Null => out.extend_from_slice(b"null"),
        Tree::Bool(true) => out.extend_from_slice(b"true"),
        Tree::Bool(false) => out.extend_from_slice(b"false"),
        Tree::Number(number) => put_number(out, number),
        Tree::String(text) => put_quoted(out, text),
        Tree::Array(items) => put_items(out, items),
        Tree::Object(members) => put_members(out, members),
    }
}

#[cycle(puts)]
fn put_items(out: &mut Vec<u8>, items: &[Tree<'_>]) -> Result<(), AllocError>
    requires { items_whole (tree_items items.now) ≡ true }
    ensures text { OnOk result (out.new.items
        ≡ out.old.items ++ 91 ∷ items_text false (tree_items items.now)) }
    ensures printed { OnOk result (IsPrinted (array (tree_items items.now))) }
{
    out.push(b'[')?;
    let mut later = false;
    for item in items {
        put_comma(out, later)?;
        put_tree(out, item)?;
        later = true;
    }
    out.push(b']')?;
    Ok(())
}

#[cycle(puts)]
fn put_members(out: &mut Vec<u8>, members: &[(&str, Tree<'_>)]) -> Result<(), AllocError>
    requires { members_whole (tree_members members.now) ≡ true }
    ensures text { OnOk result (out.new.items
        ≡ out.old.items ++ 123 ∷ members_text false (tree_members members.now)) }
    ensures printed { OnOk result (IsPrinted (object (tree_members members.now))) }
{
    out.push(b'{')?;
    let mut later = false;
    for member in members {
        put_name(out, later, member.0)?;
        put_tree(out, &member.1)?;
        later = true;
    }
    out.push(b'}')?;
    Ok(())
}

fn put_number(out: &mut Vec<u8>, number: &Number) -> Result<(), AllocError>
    requires { is_some (as_i64 (number_view number.now)) ≡ true }
    ensures text { OnOk result (out.new.items
        ≡ out.old.items ++ number_text (number_view number.now)) }
    ensures printed { OnOk result (IsPrinted (numeral (number_view number.now))) }
{
    let Some(whole) = number.as_i64() else {
        unreachable!()
    };
    let mut digits = itoa::Buffer::new();
    out.extend_from_slice(digits.format(whole).as_bytes())?;
    Ok(())
}

fn put_comma(out: &mut Vec<u8>, later: bool) -> Result<(), AllocError>
    ensures { OnOk result (out.new.items ≡ out.old.items ++ comma_if later) }
{
    if later {
        out.push(b',')?;
    }
    Ok(())
}

/// Puts the name of a member and its colon behind what is there, with a comma before them where a
/// member stands there already.
pub fn put_name(out: &mut Vec<u8>, later: bool, name: &str) -> Result<(), AllocError>
    ensures text { OnOk result (out.new.items
        ≡ out.old.items ++ (comma_if later ++ (quoted name.now ++ 58 ∷ []))) }
    // The quoted name is UTF-8.
    ensures utf8 { OnOk result (IsUtf8 (quoted name.now)) }
{
    put_comma(out, later)?;
    put_quoted(out, name)?;
    out.push(b':')?;
    Ok(())
}
