//! A definition's canonical text, and where what replies tell of it stands there.

ghost use Rattle.std.specs.Prelude.{◌≡◌, ◌≤◌, ◌++◌, ◌∷◌, ◌&&◌, [], true, false, Some, codes, IfOk, OnOk};
ghost use Rattle.std.specs.Prelude.{is_none, option_map};
ghost use Rattle.std.specs.Str.{bytes_eq};
ghost use Rattle.json.specs.Print.{quoted};
ghost use Rattle.serde_json.specs.Data.{depth, member, Members, no_members, object};
ghost use Rattle.serde_json.specs.Read.{max_depth};
ghost use Rattle.serde_json.specs.Written.{comma_if, compact_text, members_text};
ghost use Rattle.fp_base.specs.Json.{json_of};
ghost use Rattle.fp_base.specs.Ordered.{IsOrdered};
ghost use Rattle.fp_base.specs.Printed.{IsPrinted};
ghost use Rattle.fp_base.specs.TreeView.{tree_members, tree_view};
ghost use Rattle.fp_base.specs.Whole.{is_whole, members_whole};
ghost use Rattle.fp_definition.specs.Spelled.{AreAt, AreIn, AreNoted, noted_at};

use fp_base::{Tree, put_name};
use fp_operators::Text;
use std::alloc::{AllocError, Global};

// Where some bytes of a text stand.
#[derive(Drop, Clone, Copy)]
pub(crate) struct Place {
    pub(crate) start: usize,
    pub(crate) end: usize,
}

// A variant's name, and where its value stands.
#[derive(Drop)]
pub(crate) struct Variant {
    pub(crate) name: Text,
    pub(crate) value: Place,
}

// Where the values of members stand.
#[derive(Drop, Clone, Copy)]
pub(crate) struct Places {
    pub(crate) metadata: Option<Place>,
    pub(crate) targeting: Option<Place>,
}

impl Places {
    // Nothing is noted.
    pub(crate) fn none() -> Places
        ensures { result ≡ record { metadata = None; targeting = None } }
    {
        Places {
            metadata: None,
            targeting: None,
        }
    }

    // Notes where the value of a member of this name stands, of the first of either name.
    pub(crate) fn note(&mut self, name: &str, place: Place)
        ensures metadata { self.new.metadata
            ≡ noted_at (codes "metadata") name.now place self.old.metadata }
        ensures targeting { self.new.targeting
            ≡ noted_at (codes "targeting") name.now place self.old.targeting }
    {
        if is_first(name, "metadata", self.metadata.is_none()) {
            self.metadata = Some(place);
        }
        if is_first(name, "targeting", self.targeting.is_none()) {
            self.targeting = Some(place);
        }
    }
}

// A text, and where the values of its variants, in their order, and of other members stand in it.
#[derive(Drop)]
pub(crate) struct Spelled {
    pub(crate) text: Vec<u8>,
    pub(crate) variants: Option<Vec<Variant>>,
    pub(crate) places: Places,
}

// A text is begun with this room.
const USUAL_ROOM: usize = 512;

// The text of a tree.
pub(crate) fn spell(alloc: Global, tree: &Tree<'_>) -> Result<Spelled, AllocError>
    requires whole { is_whole (tree_view tree.now) ≡ true }
    requires flat { depth (tree_view tree.now) ≤ max_depth }
    requires ordered { IsOrdered (tree_view tree.now) }
    ensures text { IfOk result (λ s. s.text.items ≡ compact_text (tree_view tree.now)) }
    ensures reads { IfOk result (λ s. json_of s.text.items ≡ Some (tree_view tree.now)) }
    ensures noted { IfOk result (λ s. (ms : Members) → tree_view tree.now ≡ object ms
        → AreNoted s.text.items (option_map (λ v. v.items) s.variants) s.places no_members ms) }
{
    let mut spelled = Spelled {
        text: Vec::with_capacity(alloc, USUAL_ROOM)?,
        variants: None,
        places: Places::none(),
    };
    put_definition(alloc, &mut spelled, tree)?;
    Ok(spelled)
}

// Puts a tree. Nothing was noted.
fn put_definition(alloc: Global, spelled: &mut Spelled, tree: &Tree<'_>) -> Result<(), AllocError>
    requires { is_whole (tree_view tree.now) ≡ true }
    ensures text { OnOk result (spelled.new.text.items
        ≡ spelled.old.text.items ++ compact_text (tree_view tree.now)) }
    ensures printed { OnOk result (IsPrinted (tree_view tree.now)) }
    ensures noted { OnOk result ((ms : Members) → tree_view tree.now ≡ object ms
        → AreNoted spelled.old.text.items (option_map (λ v. v.items) spelled.old.variants)
        spelled.old.places ms ms
        → AreNoted spelled.new.text.items (option_map (λ v. v.items) spelled.new.variants)
        spelled.new.places no_members ms) }
{
    match tree {
        Tree::Object(members) => put_members(alloc, spelled, members),
        _ => tree.put_text(&mut spelled.text),
    }
}

// Puts the members of a definition.
fn put_members(
    alloc: Global,
    spelled: &mut Spelled,
    members: &[(&str, Tree<'_>)],
) -> Result<(), AllocError>
    requires { members_whole (tree_members members.now) ≡ true }
    ensures text { OnOk result (spelled.new.text.items
        ≡ spelled.old.text.items ++ compact_text (object (tree_members members.now))) }
    ensures printed { OnOk result (IsPrinted (object (tree_members members.now))) }
    ensures noted { OnOk result (
        AreNoted spelled.old.text.items (option_map (λ v. v.items) spelled.old.variants)
        spelled.old.places (tree_members members.now) (tree_members members.now)
        → AreNoted spelled.new.text.items (option_map (λ v. v.items) spelled.new.variants)
        spelled.new.places no_members (tree_members members.now)) }
{
    spelled.text.push(b'{')?;
    let mut later = false;
    for member in members {
        put_name(&mut spelled.text, later, member.0)?;
        put_member(alloc, spelled, member.0, &member.1)?;
        later = true;
    }
    spelled.text.push(b'}')?;
    Ok(())
}

// Puts the value of a member, and notes the first of each name.
fn put_member(
    alloc: Global,
    spelled: &mut Spelled,
    name: &str,
    value: &Tree<'_>,
) -> Result<(), AllocError>
    requires { is_whole (tree_view value.now) ≡ true }
    ensures text { OnOk result (spelled.new.text.items
        ≡ spelled.old.text.items ++ compact_text (tree_view value.now)) }
    ensures printed { OnOk result (IsPrinted (tree_view value.now)) }
    ensures noted { OnOk result ((left all : Members)
        → AreNoted spelled.old.text.items (option_map (λ v. v.items) spelled.old.variants)
        spelled.old.places (member name.now (tree_view value.now) left) all
        → AreNoted spelled.new.text.items (option_map (λ v. v.items) spelled.new.variants)
        spelled.new.places left all) }
{
    if is_first(name, "variants", spelled.variants.is_none()) {
        let variants = put_variants(alloc, &mut spelled.text, value)?;
        spelled.variants = Some(variants);
        return Ok(());
    }
    let start = spelled.text.len();
    value.put_text(&mut spelled.text)?;
    let end = spelled.text.len();
    spelled.places.note(name, Place { start, end });
    Ok(())
}

// Whether a name is this one, of which nothing was noted.
#[inline(always)]
pub(crate) fn is_first(name: &str, other: &str, is_new: bool) -> bool
    ensures { result ≡ (bytes_eq name.now other.now && is_new) }
{
    name == other && is_new
}

// Puts the value of `variants`, and notes the variants if it is an object.
fn put_variants(
    alloc: Global,
    text: &mut Vec<u8>,
    value: &Tree<'_>,
) -> Result<Vec<Variant>, AllocError>
    requires { is_whole (tree_view value.now) ≡ true }
    ensures text { OnOk result (text.new.items
        ≡ text.old.items ++ compact_text (tree_view value.now)) }
    ensures printed { OnOk result (IsPrinted (tree_view value.now)) }
    ensures noted { IfOk result (λ vs. AreIn text.new.items vs.items (Some (tree_view value.now))) }
{
    match value {
        Tree::Object(members) => put_noting(alloc, text, members),
        _ => {
            value.put_text(text)?;
            Ok(Vec::new(alloc))
        }
    }
}

// Puts an object, and notes where its values stand.
fn put_noting(
    alloc: Global,
    text: &mut Vec<u8>,
    members: &[(&str, Tree<'_>)],
) -> Result<Vec<Variant>, AllocError>
    requires { members_whole (tree_members members.now) ≡ true }
    ensures text { OnOk result (text.new.items
        ≡ text.old.items ++ compact_text (object (tree_members members.now))) }
    ensures printed { OnOk result (IsPrinted (object (tree_members members.now))) }
    ensures noted { IfOk result (λ vs. AreAt text.new.items vs.items (tree_members members.now)) }
{
    let mut variants = Vec::with_capacity(alloc, members.len())?;
    text.push(b'{')?;
    let mut later = false;
    for member in members {
        put_name(text, later, member.0)?;
        let start = text.len();
        member.1.put_text(text)?;
        let end = text.len();
        let name = Text::from_str(alloc, member.0)?;
        let value = Place { start, end };
        variants.push(Variant { name, value })?;
        later = true;
    }
    text.push(b'}')?;
    Ok(variants)
}
