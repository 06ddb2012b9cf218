//! JSON as a tree that borrows its texts.

ghost use Rattle.std.specs.Prelude.{◌≡◌, option_map};
ghost use Rattle.std.specs.Str.{bytes_eq};
ghost use Rattle.serde_json.specs.Find.{get, get_member};
ghost use Rattle.fp_base.specs.TreeView.{tree_view, tree_members};

use serde_json::Number;

/// A JSON value that borrows its texts from what it was read from, and its lists and objects from
/// the arena that it was read into. Clauses see it as its data (`tree_view`), as they see a
/// `serde_json::Value`.
#[derive(Clone, Copy)]
pub enum Tree<'a> {
    Null,
    Bool(bool),
    Number(Number),
    String(&'a str),
    Array(&'a [Tree<'a>]),
    Object(&'a [(&'a str, Tree<'a>)]),
}

impl<'a> Tree<'a> {
    /// The member of that name, looked for from the front; `None` exactly where this is no object
    /// with such a member.
    pub fn get(&self, name: &str) -> Option<&Tree<'a>>
        ensures { option_map (λ t. tree_view t.now) result ≡ get name.now (tree_view self.now) }
    {
        match self {
            Tree::Object(members) => member_named(members, name),
            _ => None,
        }
    }
}

// The first member of that name.
fn member_named<'m, 'a>(members: &'m [(&'a str, Tree<'a>)], name: &str) -> Option<&'m Tree<'a>>
    ensures { option_map (λ t. tree_view t.now) result
        ≡ get_member name.now (tree_members members.now) }
{
    for member in members {
        if is_same(member.0, name) {
            return Some(&member.1);
        }
    }
    None
}

// Whether two names are the same. Most names that are looked through differ in length already.
#[inline(always)]
fn is_same(name: &str, other: &str) -> bool
    ensures { result ≡ bytes_eq name.now other.now }
{
    name.len() == other.len() && name == other
}
