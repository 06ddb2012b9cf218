//! From canonical text to a tree.

ghost use Rattle.std.specs.Prelude.{ℕ, ◌≡◌, ◌≢◌, ◌<◌, ◌∷◌, ◌++◌, List, true, false, Ok, None, IfOk};
ghost use Rattle.std.specs.Prelude.{IfSome, OnOk, MatchOption, MatchResult, length};
ghost use Rattle.std.specs.Prelude.{is_some};
ghost use Rattle.json.specs.Print.{quoted};
ghost use Rattle.serde_json.specs.Data.{Data, Items, Members, Num, depth};
ghost use Rattle.serde_json.specs.Find.{as_i64};
ghost use Rattle.serde_json.specs.Written.{comma_if, number_text};
ghost use Rattle.fp_base.specs.Ordered.{IsWritten};
ghost use Rattle.fp_base.specs.Places.{AreBefore};
ghost use Rattle.fp_base.specs.Sorted.{IsSorted};
ghost use Rattle.fp_base.specs.TreeView.{tree_items, tree_members, tree_view};
ghost use Rattle.fp_canonical.specs.Reads.{Ends, Reads, ReadsItems, ReadsMembers, is_some_there};
ghost use Rattle.fp_canonical.specs.declared.reading.Unread.TheVariants.{Memory};

use crate::cursor::Cursor;
use bumpalo::Bump;
use bumpalo::collections::into_bump_slice;
use fp_base::Tree;
use std::alloc::{AllocError, AllocFailed};

/// Why nothing was read.
#[derive(Debug, Drop)]
pub enum Unread {
    /// What comes next is no canonical text, or it nests too deep.
    NotCanonical,
    /// Memory ran out.
    Memory,
}

impl From<AllocError> for Unread {
    ghost use Rattle.fp_canonical.specs.declared.reading.Unread.TheVariants.{Memory};

    ghost from_gives = { λ _ e. e ≡ Memory };

    fn from(_: AllocError) -> Unread {
        Unread::Memory
    }
}

impl<T: Drop> From<AllocFailed<T>> for Unread {
    ghost use Rattle.fp_canonical.specs.declared.reading.Unread.TheVariants.{Memory};

    ghost from_gives = { λ _ e. e ≡ Memory };

    fn from(_: AllocFailed<T>) -> Unread {
        Unread::Memory
    }
}

impl<'a> Cursor<'a> {
    /// The name of the next member, behind these, with what stands before it and its colon. `None`
    /// behind the brace that ends the object.
    #[inline(always)]
    pub fn next_name(&mut self, members: &[(&'a str, Tree<'a>)]) -> Result<Option<&'a str>, Unread>
        // The members stand in order.
        requires { IsSorted (tree_members members.now) }
        ensures named { IfOk result (λ o. MatchOption o (self.old ≡ 125 ∷ self.new) (λ name.
            self.old
            ≡ comma_if (is_some_there members.now) ++ (quoted name.now ++ 58 ∷ self.new))) }
        // It comes behind theirs in the order of bytes.
        ensures behind { IfOk result (λ o. IfSome o (λ name. AreBefore name.now members.now)) }
        ensures shorter { OnOk result (length self.new < length self.old) }
        // `None` wherever the brace comes next.
        ensures ended { (left : List ℕ) → self.old ≡ 125 ∷ left → result ≡ Ok None }
        // The name wherever one that stands behind theirs comes next.
        ensures taken { (name left : List ℕ)
            → self.old ≡ comma_if (is_some_there members.now) ++ (quoted name ++ 58 ∷ left)
            → AreBefore name members.now
            → MatchResult result
            (λ o. MatchOption o ⊥ (λ found. (found.now ≡ name) × (self.new ≡ left))) (λ _. ⊥) }
    {
        if self.take(b'}') {
            return Ok(None);
        }
        if !members.is_empty() && !self.take(b',') {
            return Err(Unread::NotCanonical);
        }
        let name = self.named()?;
        if !comes_last(members, name) {
            return Err(Unread::NotCanonical);
        }
        Ok(Some(name))
    }

    // A name with its colon.
    #[inline(always)]
    fn named(&mut self) -> Result<&'a str, Unread>
        ensures named { IfOk result (λ name. self.old ≡ quoted name.now ++ 58 ∷ self.new) }
        ensures shorter { OnOk result (length self.new < length self.old) }
        ensures taken { (name left : List ℕ) → self.old ≡ quoted name ++ 58 ∷ left
            → MatchResult result (λ found. (found.now ≡ name) × (self.new ≡ left)) (λ _. ⊥) }
    {
        let Some(name) = self.string() else {
            return Err(Unread::NotCanonical);
        };
        if !self.take(b':') {
            return Err(Unread::NotCanonical);
        }
        Ok(name)
    }

    // Whether an item comes next, behind others or not; its comma is passed. `false` behind the
    // bracket that ends the list.
    #[inline(always)]
    fn next_item(&mut self, later: bool) -> Result<bool, Unread>
        ensures more { result ≡ Ok true → self.old ≡ comma_if later ++ self.new }
        ensures end { result ≡ Ok false → self.old ≡ 93 ∷ self.new }
        ensures taken { (byte : ℕ) (left : List ℕ) → byte ≢ 93
            → self.old ≡ comma_if later ++ byte ∷ left → result ≡ Ok true }
        ensures ended { (left : List ℕ) → self.old ≡ 93 ∷ left → result ≡ Ok false }
    {
        if self.take(b']') {
            return Ok(false);
        }
        if later && !self.take(b',') {
            return Err(Unread::NotCanonical);
        }
        Ok(true)
    }
}

// Whether a name comes behind those of all members.
#[inline(always)]
fn comes_last(members: &[(&str, Tree<'_>)], name: &str) -> bool
    requires { IsSorted (tree_members members.now) }
    ensures behind { result ≡ true → AreBefore name.now members.now }
    ensures all { AreBefore name.now members.now → result ≡ true }
{
    match members.last() {
        Some(last) => last.0.cmp(name).is_lt(),
        None => true,
    }
}

/// The tree of the data whose canonical text comes next, with its lists and objects in the arena.
/// These may nest `depth` deep.
#[cycle(read)]
pub fn read_value<'a>(
    arena: &'a Bump,
    cursor: &mut Cursor<'a>,
    depth: u32,
) -> Result<Tree<'a>, Unread>
    ensures read { IfOk result (λ t. Reads depth (tree_view t) cursor.old cursor.new) }
    ensures shorter { OnOk result (length cursor.new < length cursor.old) }
    // What comes next is read wherever it is the canonical text of any data, if there is memory.
    ensures taken { (d : Data) (left : List ℕ) → Reads depth d cursor.old left → Ends left
        → MatchResult result (λ _. cursor.new ≡ left) (λ e. e ≡ Memory) }
{
    if cursor.take(b'{') {
        if depth == 0 {
            return Err(Unread::NotCanonical);
        }
        return Ok(Tree::Object(read_members(arena, cursor, depth - 1)?));
    }
    if cursor.take(b'[') {
        if depth == 0 {
            return Err(Unread::NotCanonical);
        }
        return Ok(Tree::Array(read_items(arena, cursor, depth - 1)?));
    }
    read_scalar(cursor)
}

#[cycle(read)]
fn read_items<'a>(
    arena: &'a Bump,
    cursor: &mut Cursor<'a>,
    depth: u32,
) -> Result<&'a [Tree<'a>], Unread>
    ensures read { IfOk result (λ v.
        ReadsItems depth false (tree_items v.now) cursor.old cursor.new) }
    ensures shorter { OnOk result (length cursor.new < length cursor.old) }
    ensures taken { (ds : Items) (left : List ℕ) → ReadsItems depth false ds cursor.old left
        → MatchResult result (λ _. cursor.new ≡ left) (λ e. e ≡ Memory) }
{
    let mut found: Vec<Tree<'a>, &'a Bump> = Vec::new(arena);
    let mut later = false;
    'items: while cursor.next_item(later)? {
        let item = read_value(arena, cursor, depth)?;
        found.reserve(1)?;
        found.push_reserved(item);
        later = true;
    }
    Ok(into_bump_slice(found))
}

#[cycle(read)]
fn read_members<'a>(
    arena: &'a Bump,
    cursor: &mut Cursor<'a>,
    depth: u32,
) -> Result<&'a [(&'a str, Tree<'a>)], Unread>
    ensures read { IfOk result (λ v.
        ReadsMembers depth false (tree_members v.now) cursor.old cursor.new) }
    ensures sorted { IfOk result (λ v. IsSorted (tree_members v.now)) }
    ensures shorter { OnOk result (length cursor.new < length cursor.old) }
    ensures taken { (ms : Members) (left : List ℕ) → ReadsMembers depth false ms cursor.old left
        → IsSorted ms → MatchResult result (λ _. cursor.new ≡ left) (λ e. e ≡ Memory) }
{
    let mut found: Vec<(&'a str, Tree<'a>), &'a Bump> = Vec::new(arena);
    'members: while let Some(name) = cursor.next_name(found.as_slice())? {
        let value = read_value(arena, cursor, depth)?;
        found.push((name, value))?;
    }
    Ok(into_bump_slice(found))
}

// A string, a number, `true`, `false` or `null`.
#[tactic(auto, using(fp_base::proofs::Views::scalars))]
fn read_scalar<'a>(cursor: &mut Cursor<'a>) -> Result<Tree<'a>, Unread>
    ensures read { (limit : ℕ)
        → IfOk result (λ t. Reads limit (tree_view t) cursor.old cursor.new) }
    ensures shorter { OnOk result (length cursor.new < length cursor.old) }
    ensures taken { (limit : ℕ) (d : Data) (left : List ℕ) → depth d ≡ 0
        → Reads limit d cursor.old left → Ends left
        → MatchResult result (λ _. cursor.new ≡ left) (λ _. ⊥) }
{
    match cursor.peek() {
        b'"' => read_string(cursor),
        b't' => after(cursor.take_word("true"), Tree::Bool(true)),
        b'f' => after(cursor.take_word("false"), Tree::Bool(false)),
        b'n' => after(cursor.take_word("null"), Tree::Null),
        _ => read_number(cursor),
    }
}

// What a word stands for, if it was there.
fn after(taken: bool, tree: Tree<'_>) -> Result<Tree<'_>, Unread>
    ensures { MatchResult result (λ t. (taken ≡ true) × (t ≡ tree.entry)) (λ _. taken ≡ false) }
{
    if taken {
        Ok(tree)
    } else {
        Err(Unread::NotCanonical)
    }
}

#[tactic(auto, using(fp_base::proofs::Views::scalars))]
fn read_string<'a>(cursor: &mut Cursor<'a>) -> Result<Tree<'a>, Unread>
    ensures read { (limit : ℕ)
        → IfOk result (λ t. Reads limit (tree_view t) cursor.old cursor.new) }
    ensures shorter { OnOk result (length cursor.new < length cursor.old) }
    ensures taken { (s left : List ℕ) → cursor.old ≡ quoted s ++ left
        → MatchResult result (λ _. cursor.new ≡ left) (λ _. ⊥) }
{
    match cursor.string() {
        Some(text) => Ok(Tree::String(text)),
        None => Err(Unread::NotCanonical),
    }
}

#[tactic(auto, using(fp_base::proofs::Views::scalars))]
fn read_number<'a>(cursor: &mut Cursor<'a>) -> Result<Tree<'a>, Unread>
    ensures read { (limit : ℕ)
        → IfOk result (λ t. Reads limit (tree_view t) cursor.old cursor.new) }
    ensures shorter { OnOk result (length cursor.new < length cursor.old) }
    ensures taken { (n : Num) (left : List ℕ) → IsWritten n → is_some (as_i64 n) ≡ true
        → cursor.old ≡ number_text n ++ left → Ends left
        → MatchResult result (λ _. cursor.new ≡ left) (λ _. ⊥) }
{
    match cursor.number() {
        Some(number) => Ok(Tree::Number(number)),
        None => Err(Unread::NotCanonical),
    }
}
