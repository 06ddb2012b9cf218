//! Paths into data.

ghost use Rattle.std.specs.Prelude.{◌≡◌, IfOk, option_map, map, bytes_eq, true};
ghost use Rattle.std.specs.Ordering.{nat_cmp, is_lt};
ghost use Rattle.std.specs.Cmp.Lexicographic.{slice_cmp};
ghost use Rattle.fp_operators.specs.View.{view, items_view, members_view};
ghost use Rattle.fp_operators.specs.Path.{item_at, member_at, step_to, parts, follow};
ghost use Rattle.fp_operators.specs.Path.{at_text as at_text_of, named_by, variable_of};

use crate::datum::Datum;
use crate::numeral::place;
use itoa::Buffer;
use std::alloc::{AllocError, Global};
use std::cmp::Ordering;
use std::collections::BTreeMap;

// A node of a map holds fewer members than this.
const FEW: usize = 16;

/// `var`: a copy of what the first argument names in the data, else of the second argument, else
/// null. With no argument, all data; further arguments are not looked at.
pub fn variable(alloc: Global, root: &Datum, arguments: &[Datum]) -> Result<Datum, AllocError>
    ensures { IfOk result (λ d. view d ≡ variable_of (view root.now) (map view arguments.now)) }
{
    match arguments {
        [] => root.try_copy(alloc),
        [path] => match named(root, path) {
            Some(found) => found.try_copy(alloc),
            None => Ok(Datum::Null),
        },
        [path, default, ..] => match named(root, path) {
            Some(found) => found.try_copy(alloc),
            None => default.try_copy(alloc),
        },
    }
}

/// What a datum names in the data, lent: a text or a number, by its decimal text, its path; null
/// all of them. `None` where it names nothing.
pub fn named<'d>(root: &'d Datum, path: &Datum) -> Option<&'d Datum>
    ensures { option_map (λ d. view d.now) result ≡ named_by (view path.now) (view root.now) }
{
    match path {
        Datum::Null => Some(root),
        Datum::Text(s) => at_text(root, s.as_str()),
        Datum::Whole(z) => {
            let mut digits = Buffer::new();
            at_text(root, digits.format(*z))
        }
        _ => None,
    }
}

/// What the dotted path that a text writes names in the data, lent; the empty one all of them. It
/// is walked once, with one look-up a part.
pub fn at_text<'d>(root: &'d Datum, path: &str) -> Option<&'d Datum>
    ensures { option_map (λ d. view d.now) result ≡ at_text_of path.now (view root.now) }
{
    if path.is_empty() {
        return Some(root);
    }
    at_path(root, path)
}

/// What a text's parts, one after the other, lead to.
fn at_path<'d>(root: &'d Datum, path: &str) -> Option<&'d Datum>
    ensures { option_map (λ d. view d.now) result ≡ follow (parts path.now) (view root.now) }
{
    let mut rest = path;
    let mut target = root;
    'parts: while let Some((part, more)) = rest.split_once('.') {
        target = step(target, part)?;
        rest = more;
    }
    step(target, rest)
}

/// What one part of a path names in a datum: an object's member by its name, a list's item by its
/// place.
pub fn step<'d>(target: &'d Datum, part: &str) -> Option<&'d Datum>
    ensures { option_map (λ d. view d.now) result ≡ step_to part.now (view target.now) }
{
    match target {
        Datum::Object(members) => member(members, part),
        Datum::List(items) => item(items, place(part)?),
        _ => None,
    }
}

fn item(items: &Vec<Datum>, place: usize) -> Option<&Datum>
    ensures { option_map (λ d. view d.now) result ≡ item_at place (items_view items.now.items) }
{
    items.get(place)
}

fn member<'d>(members: &'d BTreeMap<String, Datum>, name: &str) -> Option<&'d Datum>
    ensures { option_map (λ d. view d.now) result
        ≡ member_at name.now (members_view members.now.entries) }
{
    if 2 < members.len() && members.len() < FEW {
        return member_of_few(members, name);
    }
    members.get(name)
}

// A look at one member after the other: `get` orders the name against each, which takes longer
// where there are three or more.
fn member_of_few<'d>(members: &'d BTreeMap<String, Datum>, name: &str) -> Option<&'d Datum>
    ensures { option_map (λ d. view d.now) result
        ≡ member_at name.now (members_view members.now.entries) }
{
    for (key, datum) in members.iter() {
        if is_past(key.as_bytes(), name.as_bytes()) {
            return None;
        }
        if is_name(key.as_bytes(), name.as_bytes()) {
            return Some(datum);
        }
    }
    None
}

// Whether the first byte says that this key and those behind it come after the name.
fn is_past(key: &[u8], name: &[u8]) -> bool
    ensures { result ≡ true → is_lt (slice_cmp nat_cmp name.now key.now) ≡ true }
{
    match (key, name) {
        ([a, ..], [b, ..]) => *b < *a,
        _ => false,
    }
}

// Most other names differ in their length or their last byte, so few are compared.
fn is_name(key: &[u8], name: &[u8]) -> bool
    ensures { result ≡ bytes_eq name.now key.now }
{
    end_alike(key, name) && matches!(name.cmp(&key), Ordering::Equal)
}

fn end_alike(a: &[u8], b: &[u8]) -> bool
    ensures { a.now ≡ b.now → result ≡ true }
{
    a.len() == b.len() && a.last() == b.last()
}
