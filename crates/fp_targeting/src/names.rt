//! Names that stand for operators.

ghost use Rattle.std.specs.Prelude.{◌≡◌, option_map};
ghost use Rattle.fp_base.specs.TreeView.{tree_view, tree_items};
ghost use Rattle.fp_targeting.specs.Compile.{first_unknown, items_unknown};

use fp_base::Tree as Json;
use fp_machine::Operator;

/// The first name in reading order that stands for an operator and is none's.
#[cycle(names)]
pub fn unknown_operator<'t>(json: &'t Json<'_>) -> Option<&'t str>
    ensures { option_map (λ s. s.now) result ≡ first_unknown (tree_view json.now) }
{
    match json {
        Json::Null | Json::Bool(_) | Json::Number(_) | Json::String(_) => None,
        Json::Array(items) => unknown_among(items),
        Json::Object(members) => {
            if members.len() != 1 {
                return None;
            }
            let only = &members[0];
            if Operator::named(only.0).is_none() {
                return Some(only.0);
            }
            unknown_operator(&only.1)
        }
    }
}

#[cycle(names)]
fn unknown_among<'t>(items: &'t [Json<'_>]) -> Option<&'t str>
    ensures { option_map (λ s. s.now) result ≡ items_unknown (tree_items items.now) }
{
    for item in items {
        if let Some(name) = unknown_operator(item) {
            return Some(name);
        }
    }
    None
}
