//! A flag's definition.

ghost use Rattle.std.specs.Prelude.{◌≡◌, true, Some, None, IfOk, IfErr, IfSome};
ghost use Rattle.std.specs.Prelude.{◌≤◌, codes, length, option_map};
ghost use Rattle.serde_json.specs.Data.{Members, no_members, object};
ghost use Rattle.serde_json.specs.Find.{get};
ghost use Rattle.serde_json.specs.View.{view};
ghost use Rattle.serde_json.specs.Written.{compact_text};
ghost use Rattle.fp_base.specs.Answer.{IsFirst};
ghost use Rattle.fp_base.specs.Json.{json_of};
ghost use Rattle.fp_base.specs.Ordered.{IsOrdered};
ghost use Rattle.fp_base.specs.TreeView.{tree_view};
ghost use Rattle.fp_base.specs.Tests.{first_failed};
ghost use Rattle.fp_definition.specs.Beside.{AreAlike, IsReadAs, IsTold, members_with, object_with};
ghost use Rattle.fp_definition.specs.Beside.{targeting_beside, targeting_in};
ghost use Rattle.fp_definition.specs.Choice.{IsChoice};
ghost use Rattle.fp_definition.specs.Faults.{Tells};
ghost use Rattle.fp_definition.specs.Resolving.{data_of};
ghost use Rattle.fp_definition.specs.Spelled.{AreNoted};
ghost use Rattle.fp_definition.specs.Targeting.{rule_in};
ghost use Rattle.fp_definition.specs.Valid.{first_fault, IsValid, is_definition_text};
ghost use Rattle.fp_definition.specs.Valid.{definition_in, targeting_tests};

use crate::choice::{Choice, chosen};
use crate::faults::DefFault;
use crate::members::tested_members;
use crate::reading::{Reading, read_definition};
use crate::rules::rule_beside;
use crate::spelling::Spelled;
use crate::text::{fitted, text_of};
use bumpalo::Bump;
use fp_base::{Tree, utf8_text};
use fp_canonical::Unread;
use fp_targeting::Rule;
use serde_json::Value;
use std::alloc::{AllocError, Global};
use std::marker::Model;
use std::sync::Arc;

/// Lists and objects of a definition stand in one another at most this deep.
pub const DEEPEST_DEFINITION: u32 = 32;

/// The most bytes that a definition's canonical text has.
pub const LONGEST_DEFINITION: usize = 16_384;

// What all shares have in common: the canonical text, what the definition chooses from, and the
// rule of its `targeting`.
#[derive(Drop)]
struct Kept {
    text: Vec<u8>,
    choice: Choice,
    rule: Option<Rule>,
}

/// A share of a definition. It was tested, its text made and its rule compiled once, for all
/// shares.
#[derive(Drop)]
pub struct Definition {
    share: Arc<Kept, Global>,
}

impl Model for Definition {
    ghost use Rattle.std.specs.Prelude.{List, ℕ};
    ghost use Rattle.std.specs.Arc.{arc_value};
    ghost use Rattle.fp_definition.specs.Kept.{IsDefinition};

    ghost Value = { List ℕ };

    ghost view = { λ a. (arc_value a.share).text.items };

    ghost invariant = { λ a. IsDefinition (arc_value a.share) };
}

impl Definition {
    /// The definition that a JSON value is: tested, made canonical and compiled once, for all
    /// shares.
    pub fn from_value(alloc: Global, value: Value) -> Result<Definition, DefFault>
        // `Ok`: the value is a valid definition.
        ensures valid { IfOk result (λ _. IsValid (view value)) }
        // `Ok`: the definition is the value's canonical text.
        ensures text { IfOk result (λ d. d ≡ compact_text (view value)) }
        // `Ok`: that text reads back as the value.
        ensures reads { IfOk result (λ d. json_of d ≡ Some (view value)) }
        // `Err`: the first fault that the value has, in the order of the tests, or `Memory`.
        ensures refused { IfErr result (IsFirst Tells (first_fault (view value))) }
    {
        let arena = Bump::new(alloc);
        let tree = Tree::of_value(&arena, &value)?;
        Definition::from_tree(alloc, &tree)
    }

    /// As `from_value`, of a tree of JSON.
    pub fn from_tree(alloc: Global, tree: &Tree<'_>) -> Result<Definition, DefFault>
        // The tree is ordered.
        requires { IsOrdered (tree_view tree.now) }
        // `Ok`: the tree's data are a valid definition.
        ensures valid { IfOk result (λ _. IsValid (tree_view tree.now)) }
        // `Ok`: the definition is their canonical text.
        ensures text { IfOk result (λ d. d ≡ compact_text (tree_view tree.now)) }
        // `Ok`: that text reads back as the data.
        ensures reads { IfOk result (λ d. json_of d ≡ Some (tree_view tree.now)) }
        // `Err`: the first fault that the data have, in the order of the tests, or `Memory`.
        ensures refused { IfErr result (IsFirst Tells (first_fault (tree_view tree.now))) }
    {
        let spelled = text_of(alloc, tree)?;
        finished(alloc, tree, spelled, None)
    }

    /// The definition whose canonical text the bytes are, and `None` exactly where they are no such
    /// text; read beside another definition, if there is one. Bytes that are the other's text
    /// give a share of it; where `targeting` is spelled as the other's, its rule is shared, and
    /// neither read nor compiled again. Bytes that are no definition's text may be read twice.
    pub fn from_text_beside(
        alloc: Global,
        text: &[u8],
        other: Option<&Definition>,
    ) -> Result<Option<Definition>, AllocError>
        ensures { IfOk result (λ o. o ≡ definition_in text.now) }
    {
        let Some(other) = other else {
            return read_text(alloc, text, None);
        };
        if other.text() == text {
            return Ok(Some(other.try_copy()?));
        }
        match read_text(alloc, text, Some(other))? {
            Some(definition) => Ok(Some(definition)),
            None => read_text(alloc, text, None),
        }
    }

    /// The canonical text, which `from_text_beside` takes.
    pub fn text(&self) -> &[u8]
        ensures text { result.now ≡ self.now }
        // It is the canonical text of a valid definition.
        ensures canonical { is_definition_text self.now ≡ true }
    {
        self.share.text.as_slice()
    }

    /// The canonical text of the member `metadata` of the data which the text spells, and `None`
    /// where there is none. It is lent where it stands in the text.
    pub fn metadata(&self) -> Option<&[u8]>
        ensures { option_map (λ t. t.now) result
            ≡ option_map compact_text (get (codes "metadata") (data_of self.now)) }
    {
        match self.choice().places.metadata {
            Some(place) => Some(&self.text()[place.start..place.end]),
            None => None,
        }
    }

    // The same of the member `targeting`.
    pub(crate) fn targeting(&self) -> Option<&[u8]>
        ensures text { option_map (λ t. t.now) result
            ≡ option_map compact_text (get (codes "targeting") (data_of self.now)) }
        ensures canonical { is_definition_text self.now ≡ true }
    {
        let text = self.text();
        match self.choice().places.targeting {
            Some(place) => Some(&text[place.start..place.end]),
            None => None,
        }
    }

    // What it chooses from.
    pub(crate) fn choice(&self) -> &Choice
        ensures { IsChoice (data_of self.now) self.now result.now }
    {
        &self.share.choice
    }

    // A share of its rule, if it has one.
    #[tactic(auto, using(crate::proofs::Refused::targeting_met))]
    pub(crate) fn rule_share(&self) -> Result<Option<Rule>, AllocError>
        ensures rule { IfOk result (λ r. r ≡ rule_in (get (codes "targeting") (data_of self.now))) }
        ensures met { first_failed (targeting_tests (get (codes "targeting") (data_of self.now)))
            ≡ None }
    {
        // What it is the text of meets the tests.
        let _text = self.text();
        match self.rule() {
            Some(rule) => Ok(Some(rule.try_copy()?)),
            None => Ok(None),
        }
    }

    // The rule of the member `targeting`.
    pub(crate) fn rule(&self) -> &Option<Rule>
        ensures { result.now ≡ rule_in (get (codes "targeting") (data_of self.now)) }
    {
        &self.share.rule
    }

    /// An equal definition, which is another share of the same: nothing is tested, printed or
    /// compiled again.
    pub fn try_copy(&self) -> Result<Definition, AllocError>
        ensures { IfOk result (λ d. d ≡ self.now) }
    {
        let share = Arc::try_clone(&self.share)?;
        Ok(Definition { share })
    }
}

// The definition whose canonical text this is, which meets the tests of its size. The tree has its
// members, but for `targeting` where that is another definition's.
fn finished(
    alloc: Global,
    tree: &Tree<'_>,
    spelled: Spelled,
    other: Option<&Definition>,
) -> Result<Definition, DefFault>
    requires short { length spelled.text.items ≤ LONGEST_DEFINITION }
    requires read { IsReadAs spelled.text.items (data_of spelled.text.items) }
    requires alike { AreAlike (tree_view tree.now) (data_of spelled.text.items) }
    requires alone { other ≡ None → tree_view tree.now ≡ data_of spelled.text.items }
    requires targeting { targeting_beside other (tree_view tree.now)
        ≡ get (codes "targeting") (data_of spelled.text.items) }
    requires noted { (ms : Members) → data_of spelled.text.items ≡ object ms
        → AreNoted spelled.text.items (option_map (λ v. v.items) spelled.variants)
        spelled.places no_members ms }
    ensures valid { IfOk result (λ _. IsValid (data_of spelled.text.items)) }
    ensures text { IfOk result (λ d. d ≡ spelled.text.items) }
    ensures refused { IfErr result (IsFirst Tells (first_fault (data_of spelled.text.items))) }
{
    tested_members(tree)?;
    let rule = rule_beside(alloc, tree, other)?;
    let Spelled {
        text,
        variants,
        places,
    } = spelled;
    let choice = chosen(alloc, tree, &text, variants, places)?;
    let text = fitted(text);
    let share = Arc::new(alloc, Kept { text, choice, rule })?;
    Ok(Definition { share })
}

// The definition whose canonical text the bytes are, read beside another if there is one. `None` is
// exact where there is no other.
#[tactic(auto, using(fp_base::proofs::Reading::json_of_refused, crate::proofs::Refused::too_long))]
fn read_text(
    alloc: Global,
    text: &[u8],
    other: Option<&Definition>,
) -> Result<Option<Definition>, AllocError>
    ensures some { IfOk result (λ o. IfSome o (λ d. Some d ≡ definition_in text.now)) }
    ensures exact { other.entry ≡ None → IfOk result (λ o. o ≡ definition_in text.now) }
{
    if text.len() > LONGEST_DEFINITION {
        return Ok(None);
    }
    let Some(whole) = utf8_text(text) else {
        return Ok(None);
    };
    let mut room = Vec::new(alloc);
    room.resize(text.len(), 0)?;
    let arena = Bump::new(alloc);
    match read_definition(alloc, &arena, whole, room.as_mut_slice(), other) {
        Ok(found) => read_through(alloc, text, found),
        Err(Unread::Memory) => Err(AllocError),
        Err(Unread::NotCanonical) => Ok(None),
    }
}

// The definition that was read of its canonical text.
fn read_through(
    alloc: Global,
    text: &[u8],
    found: Reading<'_, '_>,
) -> Result<Option<Definition>, AllocError>
    requires read { IsReadAs text.now (object_with found.noted.other found.members.now) }
    requires told { IsTold found.noted.other found.members.now }
    requires short { length text.now ≤ LONGEST_DEFINITION }
    requires noted { AreNoted text.now (option_map (λ v. v.items) found.noted.variants)
        found.noted.places no_members
        (members_with (targeting_in found.noted.other) found.members.now no_members) }
    ensures { IfOk result (λ o. o ≡ definition_in text.now) }
{
    let Reading { members, noted } = found;
    let tree = Tree::Object(members);
    let mut own = Vec::with_capacity(alloc, text.len())?;
    own.extend_from_slice(text)?;
    let spelled = Spelled {
        text: own,
        variants: noted.variants,
        places: noted.places,
    };
    match finished(alloc, &tree, spelled, noted.other) {
        Ok(definition) => Ok(Some(definition)),
        Err(fault) => no_definition(fault, text),
    }
}

// There is none of this text, which has the fault, unless memory was wanting.
#[tactic(auto, unfolding(crate::specs::Valid::is_text_of))]
fn no_definition(fault: DefFault, _text: &[u8]) -> Result<Option<Definition>, AllocError>
    requires fault { IsFirst Tells (first_fault (data_of _text.now)) fault }
    requires read { json_of _text.now ≡ Some (data_of _text.now) }
    ensures { IfOk result (λ o. o ≡ definition_in _text.now) }
{
    match fault {
        DefFault::Memory => Err(AllocError),
        _ => Ok(None),
    }
}
