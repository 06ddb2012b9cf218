//! A definition, read from its canonical text.

ghost use Rattle.std.specs.Prelude.{◌≡◌, ◌<◌, ◌≤◌, ◌-◌, ◌++◌, [], ℕ, List, false, true, None, Some};
ghost use Rattle.std.specs.Prelude.{IfErr, IfOk, IsSome, OnOk, MatchResult, codes, length, option_map};
ghost use Rattle.std.specs.Str.{bytes_eq};
ghost use Rattle.serde_json.specs.Data.{Data, Members, depth, member, no_members, object};
ghost use Rattle.serde_json.specs.Written.{compact_text, members_text};
ghost use Rattle.fp_base.specs.Json.{json_of};
ghost use Rattle.fp_base.specs.Ordered.{IsOrdered};
ghost use Rattle.fp_base.specs.Sorted.{IsSorted};
ghost use Rattle.fp_base.specs.TreeView.{tree_members, tree_view};
ghost use Rattle.fp_base.specs.Whole.{is_whole};
ghost use Rattle.fp_canonical.specs.Reads.{Ends, Reads, ReadsMembers};
ghost use Rattle.fp_canonical.specs.declared.reading.Unread.TheVariants.{Memory};
ghost use Rattle.fp_definition.specs.Beside.{in_place, members_with, object_with, targeting_in};
ghost use Rattle.fp_definition.specs.Beside.{IsOn, IsReadAs, IsTold};
ghost use Rattle.fp_definition.specs.Spelled.{AreAt, AreIn, AreNoted};

use crate::definition::{DEEPEST_DEFINITION, Definition};
use crate::spelling::{Place, Places, Variant, is_first};
use bumpalo::Bump;
use bumpalo::collections::into_bump_slice;
use fp_base::Tree;
use fp_canonical::{Cursor, Unread, read_value};
use fp_operators::Text;
use std::alloc::Global;

// So many members a definition has mostly, at most.
const MEMBERS: usize = 5;

// So many variants mostly.
const VARIANTS: usize = 2;

// The members of a text, and what was noted of them.
#[derive(Drop)]
pub(crate) struct Reading<'a, 'o> {
    pub(crate) members: &'a [(&'a str, Tree<'a>)],
    pub(crate) noted: Noted<'o>,
}

// Where the values of a text's variants, in their order, and of other members stand in it, and the
// definition whose `targeting` it has, if that was found out: null is then read for it.
#[derive(Drop)]
pub(crate) struct Noted<'o> {
    pub(crate) variants: Option<Vec<Variant>>,
    pub(crate) places: Places,
    pub(crate) other: Option<&'o Definition>,
}

// The object whose canonical text this is, within the depth of a definition. `room` is for strings
// that have escapes. A `targeting` that is spelled as the other's is passed over.
pub(crate) fn read_definition<'a, 'o>(
    alloc: Global,
    arena: &'a Bump,
    text: &'a str,
    room: &'a mut [u8],
    other: Option<&'o Definition>,
) -> Result<Reading<'a, 'o>, Unread>
    requires { length text.now ≤ length room.old }
    ensures read { IfOk result (λ r.
        IsReadAs text.now (object_with r.noted.other r.members.now)) }
    ensures noted { IfOk result (λ r. AreNoted text.now
        (option_map (λ v. v.items) r.noted.variants) r.noted.places no_members
        (members_with (targeting_in r.noted.other) r.members.now no_members)) }
    ensures alone { other.entry ≡ None → IfOk result (λ r. r.noted.other ≡ None) }
    ensures told { IfOk result (λ r. IsTold r.noted.other r.members.now) }
    // It is read wherever the text is the canonical one of an object, if there is memory and no
    // other.
    ensures taken { (ms : Members) → other.entry ≡ None
        → Reads DEEPEST_DEFINITION (object ms) text.now [] → IfErr result (λ e. e ≡ Memory) }
{
    let mut cursor = Cursor::new(text, room);
    if !cursor.take(b'{') {
        return Err(Unread::NotCanonical);
    }
    let (members, noted) = read_members(alloc, arena, &mut cursor, text.len(), other)?;
    if cursor.left() > 0 {
        return Err(Unread::NotCanonical);
    }
    Ok(Reading { members, noted })
}

// The members of a definition, whose whole text is so long.
fn read_members<'a, 'o>(
    alloc: Global,
    arena: &'a Bump,
    cursor: &mut Cursor<'a>,
    len: usize,
    other: Option<&'o Definition>,
) -> Result<(&'a [(&'a str, Tree<'a>)], Noted<'o>), Unread>
    requires { length cursor.old ≤ len }
    ensures read { IfOk result (λ p. ReadsMembers (DEEPEST_DEFINITION - 1) false
        (members_with (targeting_in p.1.other) p.0.now no_members) cursor.old cursor.new) }
    ensures sorted { IfOk result (λ p. IsSorted (tree_members p.0.now)) }
    ensures noted { IfOk result (λ p. (passed : List ℕ) → len ≡ length (passed ++ cursor.old)
        → AreNoted (passed ++ members_text false
        (members_with (targeting_in p.1.other) p.0.now no_members))
        (option_map (λ v. v.items) p.1.variants) p.1.places no_members
        (members_with (targeting_in p.1.other) p.0.now no_members)) }
    ensures alone { other.entry ≡ None → IfOk result (λ p. p.1.other ≡ None) }
    ensures told { IfOk result (λ p. IsTold p.1.other p.0.now) }
    ensures taken { (ms : Members) (left : List ℕ) → other.entry ≡ None
        → ReadsMembers (DEEPEST_DEFINITION - 1) false ms cursor.old left → IsSorted ms
        → MatchResult result (λ _. cursor.new ≡ left) (λ e. e ≡ Memory) }
{
    let mut found: Vec<(&'a str, Tree<'a>), &'a Bump> = Vec::with_capacity(arena, MEMBERS)?;
    let mut noted = Noted {
        variants: None,
        places: Places::none(),
        other: None,
    };
    'members: while let Some(name) = cursor.next_name(found.as_slice())? {
        let value = read_member(alloc, arena, cursor, len, name, other, &mut noted)?;
        found.push((name, value))?;
    }
    Ok((into_bump_slice(found), noted))
}

// The value of a member. The first of each name is noted.
fn read_member<'a, 'o>(
    alloc: Global,
    arena: &'a Bump,
    cursor: &mut Cursor<'a>,
    len: usize,
    name: &str,
    other: Option<&'o Definition>,
    noted: &mut Noted<'o>,
) -> Result<Tree<'a>, Unread>
    requires within { length cursor.old ≤ len }
    requires first { IsSome noted.old.other → bytes_eq name.now (codes "targeting") ≡ false }
    ensures read { IfOk result (λ t. Reads (DEEPEST_DEFINITION - 1)
        (in_place (targeting_in noted.new.other) name.now (tree_view t)) cursor.old cursor.new) }
    ensures shorter { OnOk result (length cursor.new < length cursor.old) }
    ensures noted { IfOk result (λ t. (passed : List ℕ) → len ≡ length (passed ++ cursor.old)
        → (left all : Members)
        → AreNoted passed (option_map (λ v. v.items) noted.old.variants) noted.old.places
        (member name.now (in_place (targeting_in noted.new.other) name.now (tree_view t)) left) all
        → AreNoted
        (passed ++ compact_text (in_place (targeting_in noted.new.other) name.now (tree_view t)))
        (option_map (λ v. v.items) noted.new.variants) noted.new.places left all) }
    ensures on { IfOk result (λ _. IsOn noted.old.other noted.new.other name.now) }
    ensures alone { other.entry ≡ None → noted.new.other ≡ noted.old.other }
    ensures taken { (d : Data) (left : List ℕ) → other.entry ≡ None
        → Reads (DEEPEST_DEFINITION - 1) d cursor.old left → Ends left
        → MatchResult result (λ _. cursor.new ≡ left) (λ e. e ≡ Memory) }
{
    if is_first(name, "variants", noted.variants.is_none()) {
        let (value, variants) = read_variants(alloc, arena, cursor, len)?;
        noted.variants = Some(variants);
        return Ok(value);
    }
    let start = len - cursor.left();
    let value = read_or_pass(arena, cursor, name, other, &mut noted.other)?;
    let end = len - cursor.left();
    noted.places.note(name, Place { start, end });
    Ok(value)
}

// The value of a member, or null where it is the other's `targeting`, which is then told.
fn read_or_pass<'a, 'o>(
    arena: &'a Bump,
    cursor: &mut Cursor<'a>,
    name: &str,
    other: Option<&'o Definition>,
    told: &mut Option<&'o Definition>,
) -> Result<Tree<'a>, Unread>
    requires { IsSome told.old → bytes_eq name.now (codes "targeting") ≡ false }
    ensures read { IfOk result (λ t. Reads (DEEPEST_DEFINITION - 1)
        (in_place (targeting_in told.new) name.now (tree_view t)) cursor.old cursor.new) }
    ensures shorter { OnOk result (length cursor.new < length cursor.old) }
    ensures on { IfOk result (λ _. IsOn told.old told.new name.now) }
    ensures alone { other.entry ≡ None → told.new ≡ told.old }
    ensures taken { (d : Data) (left : List ℕ) → other.entry ≡ None
        → Reads (DEEPEST_DEFINITION - 1) d cursor.old left → Ends left
        → MatchResult result (λ _. cursor.new ≡ left) (λ e. e ≡ Memory) }
{
    if name == "targeting" && passes_targeting(cursor, other) {
        *told = other;
        return Ok(Tree::Null);
    }
    read_value(arena, cursor, DEEPEST_DEFINITION - 1)
}

// Goes past the `targeting` of another definition, if it comes next.
fn passes_targeting(cursor: &mut Cursor<'_>, other: Option<&Definition>) -> bool
    ensures passed { result ≡ true → (d : Data) × (targeting_in other.entry ≡ Some d)
        × Reads (DEEPEST_DEFINITION - 1) d cursor.old cursor.new }
    ensures shorter { result ≡ true → length cursor.new < length cursor.old }
    ensures kept { result ≡ false → cursor.new ≡ cursor.old }
    ensures alone { other.entry ≡ None → result ≡ false }
{
    match other {
        Some(other) => match other.targeting() {
            Some(text) => cursor.take_text(text),
            None => false,
        },
        None => false,
    }
}

// The value of `variants`, and the variants if it is an object.
fn read_variants<'a>(
    alloc: Global,
    arena: &'a Bump,
    cursor: &mut Cursor<'a>,
    len: usize,
) -> Result<(Tree<'a>, Vec<Variant>), Unread>
    requires { length cursor.old ≤ len }
    ensures read { IfOk result (λ p.
        Reads (DEEPEST_DEFINITION - 1) (tree_view p.0) cursor.old cursor.new) }
    ensures shorter { OnOk result (length cursor.new < length cursor.old) }
    ensures noted { IfOk result (λ p. (passed : List ℕ) → len ≡ length (passed ++ cursor.old)
        → AreIn (passed ++ compact_text (tree_view p.0)) p.1.items (Some (tree_view p.0))) }
    ensures taken { (d : Data) (left : List ℕ)
        → Reads (DEEPEST_DEFINITION - 1) d cursor.old left → Ends left
        → MatchResult result (λ _. cursor.new ≡ left) (λ e. e ≡ Memory) }
{
    if cursor.take(b'{') {
        let (members, variants) = read_noting(alloc, arena, cursor, len)?;
        return Ok((Tree::Object(members), variants));
    }
    let value = read_value(arena, cursor, DEEPEST_DEFINITION - 1)?;
    Ok((value, Vec::new(alloc)))
}

// The members of an object, and where their values stand.
fn read_noting<'a>(
    alloc: Global,
    arena: &'a Bump,
    cursor: &mut Cursor<'a>,
    len: usize,
) -> Result<(&'a [(&'a str, Tree<'a>)], Vec<Variant>), Unread>
    requires { length cursor.old ≤ len }
    ensures read { IfOk result (λ p.
        ReadsMembers (DEEPEST_DEFINITION - 2) false (tree_members p.0.now) cursor.old
        cursor.new) }
    ensures sorted { IfOk result (λ p. IsSorted (tree_members p.0.now)) }
    ensures shorter { OnOk result (length cursor.new < length cursor.old) }
    ensures noted { IfOk result (λ p. (passed : List ℕ) → len ≡ length (passed ++ cursor.old)
        → AreAt (passed ++ members_text false (tree_members p.0.now)) p.1.items
        (tree_members p.0.now)) }
    ensures taken { (ms : Members) (left : List ℕ)
        → ReadsMembers (DEEPEST_DEFINITION - 2) false ms cursor.old left → IsSorted ms
        → MatchResult result (λ _. cursor.new ≡ left) (λ e. e ≡ Memory) }
{
    let mut found: Vec<(&'a str, Tree<'a>), &'a Bump> = Vec::new(arena);
    let mut variants = Vec::with_capacity(alloc, VARIANTS)?;
    'members: while let Some(name) = cursor.next_name(found.as_slice())? {
        let start = len - cursor.left();
        let value = read_value(arena, cursor, DEEPEST_DEFINITION - 2)?;
        let end = len - cursor.left();
        found.push((name, value))?;
        let name = Text::from_str(alloc, name)?;
        let value = Place { start, end };
        variants.push(Variant { name, value })?;
    }
    Ok((into_bump_slice(found), variants))
}
