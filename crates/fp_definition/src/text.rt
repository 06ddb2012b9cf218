//! The canonical text of a definition, and the tests of its size.

ghost use Rattle.std.specs.Prelude.{◌≡◌, ◌≤◌, true, length, Some, IfOk, IfErr, option_map};
ghost use Rattle.serde_json.specs.Data.{Members, depth, no_members, object};
ghost use Rattle.serde_json.specs.Written.{compact_text};
ghost use Rattle.fp_base.specs.Answer.{IsFirst};
ghost use Rattle.fp_base.specs.Json.{json_of};
ghost use Rattle.fp_base.specs.Ordered.{IsOrdered};
ghost use Rattle.fp_base.specs.TreeView.{tree_view};
ghost use Rattle.fp_base.specs.Whole.{is_whole};
ghost use Rattle.fp_definition.specs.Faults.{Tells};
ghost use Rattle.fp_definition.specs.Spelled.{AreNoted};
ghost use Rattle.fp_definition.specs.Valid.{first_fault};

use crate::definition::{DEEPEST_DEFINITION, LONGEST_DEFINITION};
use crate::faults::DefFault;
use crate::spelling::{Spelled, spell};
use fp_base::Tree;
use std::alloc::Global;

// The canonical text of a tree that meets the tests of its size, with what was noted of it.
pub(crate) fn text_of(alloc: Global, tree: &Tree<'_>) -> Result<Spelled, DefFault>
    requires { IsOrdered (tree_view tree.now) }
    ensures whole { IfOk result (λ _. is_whole (tree_view tree.now) ≡ true) }
    ensures flat { IfOk result (λ _. depth (tree_view tree.now) ≤ DEEPEST_DEFINITION) }
    ensures short { IfOk result (λ s. length s.text.items ≤ LONGEST_DEFINITION) }
    ensures text { IfOk result (λ s. s.text.items ≡ compact_text (tree_view tree.now)) }
    ensures reads { IfOk result (λ s. json_of s.text.items ≡ Some (tree_view tree.now)) }
    ensures noted { IfOk result (λ s. (ms : Members) → tree_view tree.now ≡ object ms
        → AreNoted s.text.items (option_map (λ v. v.items) s.variants) s.places no_members ms) }
    ensures refused { IfErr result (IsFirst Tells (first_fault (tree_view tree.now))) }
{
    tested_size(tree)?;
    let spelled = spell(alloc, tree)?;
    if spelled.text.len() > LONGEST_DEFINITION {
        return Err(DefFault::TooLarge);
    }
    Ok(spelled)
}

// The fault of the first test of size that a tree surely doesn't meet. Ok leaves open whether its
// text is too long.
fn tested_size(tree: &Tree<'_>) -> Result<(), DefFault>
    ensures whole { IfOk result (λ _. is_whole (tree_view tree.now) ≡ true) }
    ensures flat { IfOk result (λ _. depth (tree_view tree.now) ≤ DEEPEST_DEFINITION) }
    ensures refused { IfErr result (IsFirst Tells (first_fault (tree_view tree.now))) }
{
    if tree.is_plain(DEEPEST_DEFINITION, LONGEST_DEFINITION) {
        return Ok(());
    }
    if !tree.nests_within(DEEPEST_DEFINITION) {
        return Err(DefFault::TooDeep);
    }
    if !tree.has_whole_numbers() {
        return Err(DefFault::WholeNumbersOnly);
    }
    if tree.is_longer(LONGEST_DEFINITION) {
        return Err(DefFault::TooLarge);
    }
    Ok(())
}

// The same text in at most twice the room that it takes, since it is kept.
pub(crate) fn fitted(text: Vec<u8>) -> Vec<u8>
    ensures { result.items ≡ text.items }
{
    let mut text = text;
    if text.len() < text.capacity() / 2 {
        text.shrink_to_fit();
    }
    text
}
