//! What a definition chooses from, kept as an evaluation asks for it.

ghost use Rattle.std.specs.Prelude.{◌≡◌, true, Some, IfOk, codes, option_map};
ghost use Rattle.serde_json.specs.Data.{Members, no_members, object, string};
ghost use Rattle.serde_json.specs.Find.{get};
ghost use Rattle.fp_base.specs.Ordered.{IsOrdered};
ghost use Rattle.fp_base.specs.TreeView.{tree_view};
ghost use Rattle.fp_definition.specs.Choice.{IsChoice, MeetsTests};
ghost use Rattle.fp_definition.specs.Beside.{AreAlike};
ghost use Rattle.fp_definition.specs.Resolving.{data_of, is_disabled};
ghost use Rattle.fp_definition.specs.Spelled.{AreNoted};
ghost use Rattle.fp_definition.specs.Valid.{names_variant};

use crate::spelling::{Places, Variant};
use fp_base::Tree;
use fp_operators::Text;
use std::alloc::{AllocError, Global};

// Whether a definition is disabled, the name of its default variant, and where the values of its
// variants and of other members stand in its text. What else it has is in its text and its rule
// alone.
#[derive(Drop)]
pub(crate) struct Choice {
    pub(crate) is_disabled: bool,
    pub(crate) default: Text,
    pub(crate) variants: Vec<Variant>,
    pub(crate) places: Places,
}

// The choice of a text whose data meet the tests of their members, of which these were noted. The
// tree has its members, but for `targeting`.
pub(crate) fn chosen(
    alloc: Global,
    tree: &Tree<'_>,
    text: &[u8],
    variants: Option<Vec<Variant>>,
    places: Places,
) -> Result<Choice, AllocError>
    requires tested { MeetsTests (data_of text.now) }
    requires ordered { IsOrdered (data_of text.now) }
    requires alike { AreAlike (tree_view tree.now) (data_of text.now) }
    requires noted { (ms : Members) → data_of text.now ≡ object ms
        → AreNoted text.now (option_map (λ v. v.items) variants) places no_members ms }
    ensures { IfOk result (IsChoice (data_of text.now) text.now) }
{
    let Some(variants) = variants else {
        unreachable!()
    };
    let default = default_of(alloc, tree)?;
    Ok(Choice {
        is_disabled: says_disabled(tree),
        default,
        variants,
        places,
    })
}

fn says_disabled(tree: &Tree<'_>) -> bool
    ensures { result ≡ is_disabled (get (codes "state") (tree_view tree.now)) }
{
    match tree.get("state") {
        Some(Tree::String(text)) => *text == "DISABLED",
        _ => false,
    }
}

fn default_of(alloc: Global, tree: &Tree<'_>) -> Result<Text, AllocError>
    requires { names_variant (get (codes "defaultVariant") (tree_view tree.now))
        (get (codes "variants") (tree_view tree.now)) ≡ true }
    ensures { IfOk result (λ t. get (codes "defaultVariant") (tree_view tree.now)
        ≡ Some (string t.bytes)) }
{
    let Some(Tree::String(name)) = tree.get("defaultVariant") else {
        unreachable!()
    };
    Text::from_str(alloc, name)
}
