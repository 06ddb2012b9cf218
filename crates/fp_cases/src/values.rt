//! Cases of JSON.

use fp_base::{Tree, whole_numbers};
use fp_transcript::Text;
use serde_json::Value;

/// So many items are shown of a list that may be long.
pub const SHOWN: usize = 8;

const NOT_WHOLE: &str = "numbers that aren't whole";

/// The answer to a command that only looks at a tree.
pub fn looked_at(word: &str, first: &str, number: u64, tree: &Tree<'_>, out: &mut Text) {
    match word {
        "json" => put_text(tree, out),
        "fits" => fits(number, tree, out),
        "nests" => nests(number, tree, out),
        "budget" => put_left(tree.values_left(number as usize), out),
        _ => put_member(tree.get(first), out),
    }
}

/// The text of a value, as its own library writes it.
pub fn put_value(value: &Value, out: &mut Text) {
    if !whole_numbers(value) {
        return out.push(NOT_WHOLE);
    }
    out.shown(value);
}

// The canonical text.
fn put_text(tree: &Tree<'_>, out: &mut Text) {
    if let Some(text) = text_of(tree, out) {
        out.utf8(&text);
    }
}

fn text_of(tree: &Tree<'_>, out: &mut Text) -> Option<Vec<u8>> {
    if !tree.has_whole_numbers() {
        out.push(NOT_WHOLE);
        return None;
    }
    let mut text = Vec::new(out.alloc);
    let put = tree.put_text(&mut text);
    out.got(put)?;
    Some(text)
}

// Whether the canonical text has so many bytes at most.
fn fits(limit: u64, tree: &Tree<'_>, out: &mut Text) {
    if let Some(text) = text_of(tree, out) {
        let is_within = text.len() as u64 <= limit;
        out.push(if is_within { "fits" } else { "is longer" });
    }
}

// Whether lists and objects stand in one another so deep at most.
fn nests(limit: u64, tree: &Tree<'_>, out: &mut Text) {
    let is_within = tree.nests_within(u32::try_from(limit).unwrap_or(u32::MAX));
    out.push(if is_within { "within" } else { "deeper" });
}

// What is left of so many values.
fn put_left(left: Option<usize>, out: &mut Text) {
    match left {
        Some(left) => {
            out.number(left as u64);
            out.push(" left");
        }
        None => out.push("spent"),
    }
}

// The member that was looked for; a number whatever it is.
fn put_member(member: Option<&Tree<'_>>, out: &mut Text) {
    match member {
        Some(Tree::Number(number)) => out.shown(number),
        Some(member) => put_text(member, out),
        None => out.push("none"),
    }
}
