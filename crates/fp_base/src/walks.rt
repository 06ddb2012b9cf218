//! Walks over trees that stop as soon as the answer is known, and allocate nothing.

ghost use Rattle.std.specs.Prelude.{◌≡◌, ◌≤◌, nat_le, true, false, not, length, is_some};
ghost use Rattle.serde_json.specs.Data.{depth};
ghost use Rattle.serde_json.specs.Written.{compact_text};
ghost use Rattle.fp_base.specs.Count.{spend, count};
ghost use Rattle.fp_base.specs.Plain.{plain_left};
ghost use Rattle.fp_base.specs.TreeView.{tree_view};
ghost use Rattle.fp_base.specs.Weight.{weight};
ghost use Rattle.fp_base.specs.Whole.{is_whole};

use crate::next::{next_item, next_member};
use crate::tree::Tree;

impl<'a> Tree<'a> {
    /// Whether no number in the tree has a fraction, an exponent or more than 64 signed bits.
    /// `-0` counts as a fraction.
    pub fn has_whole_numbers(&self) -> bool
        ensures { result ≡ is_whole (tree_view self.now) }
    {
        is_whole(self)
    }

    /// Whether the tree's lists and objects stand in one another at most `limit` deep.
    pub fn nests_within(&self, limit: u32) -> bool
        ensures { result ≡ nat_le (depth (tree_view self.now)) limit }
    {
        nests(self, limit)
    }

    /// What remains of a budget of values once this one and all in it are paid for, `None` exactly
    /// where they are more. Names of members cost nothing.
    pub fn values_left(&self, budget: usize) -> Option<usize>
        ensures { result ≡ spend budget (count (tree_view self.now)) }
    {
        count_left(self, budget)
    }

    /// Whether texts and names, with one byte for each item and member, are more bytes than the
    /// limit: a cheap test by which nothing is printed.
    #[tactic(auto, using(crate::proofs::TextLengths::too_heavy))]
    pub fn is_longer(&self, limit: usize) -> bool
        ensures weighed { result ≡ not (nat_le (weight (tree_view self.now)) limit) }
        // `true`: the canonical text is longer than the limit too.
        ensures longer { result ≡ true
            → nat_le (length (compact_text (tree_view self.now))) limit ≡ false }
    {
        bytes_left(self, limit).is_none()
    }

    /// Whether all numbers are whole, the tree nests at most `limit` deep, and isn't longer than
    /// `bytes` by `is_longer`: three tests in one walk.
    #[tactic(auto, using(crate::proofs::TextLengths::not_plain))]
    pub fn is_plain(&self, limit: u32, bytes: usize) -> bool
        // Exactly where all three are met.
        ensures plain { result ≡ is_some (plain_left limit bytes (tree_view self.now)) }
        ensures whole { result ≡ true → is_whole (tree_view self.now) ≡ true }
        ensures flat { result ≡ true → depth (tree_view self.now) ≤ limit }
        // `false` of a tree with whole numbers that nests at most `limit` deep: its canonical text
        // is longer than `bytes`.
        ensures refused { result ≡ false → is_whole (tree_view self.now) ≡ true
            → depth (tree_view self.now) ≤ limit
            → nat_le (length (compact_text (tree_view self.now))) bytes ≡ false }
    {
        plain_left(self, limit, bytes).is_some()
    }
}

fn is_whole(tree: &Tree<'_>) -> bool
    ensures { result ≡ is_whole (tree_view tree.now) }
{
    match tree {
        Tree::Null | Tree::Bool(_) | Tree::String(_) => true,
        Tree::Number(number) => number.is_i64(),
        Tree::Array(items) => {
            let mut items = items.iter();
            while let Some(item) = next_item(&mut items) {
                if !is_whole(item) {
                    return false;
                }
            }
            true
        }
        Tree::Object(members) => {
            let mut members = members.iter();
            while let Some((_name, member)) = next_member(&mut members) {
                if !is_whole(member) {
                    return false;
                }
            }
            true
        }
    }
}

fn nests(tree: &Tree<'_>, limit: u32) -> bool
    ensures { result ≡ nat_le (depth (tree_view tree.now)) limit }
{
    match tree {
        Tree::Null | Tree::Bool(_) | Tree::String(_) | Tree::Number(_) => true,
        Tree::Array(items) => {
            if limit == 0 {
                return false;
            }
            let mut items = items.iter();
            while let Some(item) = next_item(&mut items) {
                if !nests(item, limit - 1) {
                    return false;
                }
            }
            true
        }
        Tree::Object(members) => {
            if limit == 0 {
                return false;
            }
            let mut members = members.iter();
            while let Some((_name, member)) = next_member(&mut members) {
                if !nests(member, limit - 1) {
                    return false;
                }
            }
            true
        }
    }
}

#[tactic(auto, using(crate::proofs::Counted::count_some))]
fn count_left(tree: &Tree<'_>, budget: usize) -> Option<usize>
    ensures { result ≡ spend budget (count (tree_view tree.now)) }
{
    let mut left = budget.checked_sub(1)?;
    match tree {
        Tree::Null | Tree::Bool(_) | Tree::String(_) | Tree::Number(_) => Some(left),
        Tree::Array(items) => {
            let mut items = items.iter();
            while let Some(item) = next_item(&mut items) {
                left = count_left(item, left)?;
            }
            Some(left)
        }
        Tree::Object(members) => {
            let mut members = members.iter();
            while let Some((_name, member)) = next_member(&mut members) {
                left = count_left(member, left)?;
            }
            Some(left)
        }
    }
}

// What remains of a budget of bytes after those that the canonical text takes at least.
fn bytes_left(tree: &Tree<'_>, budget: usize) -> Option<usize>
    ensures { result ≡ spend budget (weight (tree_view tree.now)) }
{
    match tree {
        Tree::Null | Tree::Bool(_) | Tree::Number(_) => Some(budget),
        Tree::String(text) => budget.checked_sub(text.len()),
        Tree::Array(items) => {
            let mut left = budget;
            let mut items = items.iter();
            while let Some(item) = next_item(&mut items) {
                left = left.checked_sub(1)?;
                left = bytes_left(item, left)?;
            }
            Some(left)
        }
        Tree::Object(members) => {
            let mut left = budget;
            let mut members = members.iter();
            while let Some((name, member)) = next_member(&mut members) {
                left = left.checked_sub(1)?;
                left = left.checked_sub(name.len())?;
                left = bytes_left(member, left)?;
            }
            Some(left)
        }
    }
}

// What remains of the budget of bytes where all numbers are whole and it nests within the limit.
fn plain_left(tree: &Tree<'_>, limit: u32, bytes: usize) -> Option<usize>
    ensures { result ≡ plain_left limit bytes (tree_view tree.now) }
{
    match tree {
        Tree::Null | Tree::Bool(_) => Some(bytes),
        Tree::Number(number) => { if number.is_i64() { Some(bytes) } else { None } }
        Tree::String(text) => bytes.checked_sub(text.len()),
        Tree::Array(items) => {
            if limit == 0 {
                return None;
            }
            let mut left = bytes;
            let mut items = items.iter();
            while let Some(item) = next_item(&mut items) {
                left = left.checked_sub(1)?;
                left = plain_left(item, limit - 1, left)?;
            }
            Some(left)
        }
        Tree::Object(members) => {
            if limit == 0 {
                return None;
            }
            let mut left = bytes;
            let mut members = members.iter();
            while let Some((name, member)) = next_member(&mut members) {
                left = left.checked_sub(1)?;
                left = left.checked_sub(name.len())?;
                left = plain_left(member, limit - 1, left)?;
            }
            Some(left)
        }
    }
}
