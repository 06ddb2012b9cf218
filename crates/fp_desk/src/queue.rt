//! Edits in a queue.

ghost use Rattle.std.specs.Prelude.{◌≡◌, ◌<◌, ◌≤◌, ◌+◌, ◌++◌, ◌↔◌, length, take, drop, IfOk};
ghost use Rattle.std.specs.Prelude.{IsTrue, map};
ghost use Rattle.std.specs.VecDeque.{deque_len, deque_capacity};
ghost use Rattle.fp_desk.specs.Desk.{FitsBehind, IsLongestPart};
ghost use Rattle.fp_edit.specs.Following.{change_of, changes_of};
ghost use Rattle.fp_edit.specs.Parts.{parts_of, proposed_of};

use fp_edit::{Change, Edit};
use fp_record::{BATCH_HEAD, MOST_EDITS, encoded_len};
use std::alloc::{AllocError, Global};
use std::collections::VecDeque;

// Whether two edits change the same.
fn same_change(a: &Edit, b: &Edit) -> bool
    ensures { IsTrue result ↔ (change_of a.now ≡ change_of b.now) }
{
    match (a, b) {
        (
            Edit::Put { key, flag, .. },
            Edit::Put {
                key: other_key,
                flag: other,
                ..
            },
        ) => { key.as_str() == other_key.as_str() && flag.text() == other.text() }
        (Edit::Delete { key, .. }, Edit::Delete { key: other_key, .. }) => {
            key.as_str() == other_key.as_str()
        }
        (Edit::Set(changes), Edit::Set(others)) => {
            same_parts(changes.as_slice(), others.as_slice())
        }
        _ => false,
    }
}

// Whether two sets of changes change the same, one by one.
fn same_parts(changes: &[Change], others: &[Change]) -> bool
    ensures { IsTrue result ↔ (parts_of (map proposed_of changes.now)
        ≡ parts_of (map proposed_of others.now)) }
{
    if changes.len() != others.len() {
        return false;
    }
    for i in 0..changes.len() {
        if !same_part(&changes[i], &others[i]) {
            return false;
        }
    }
    true
}

// Whether two changes of sets change the same.
fn same_part(a: &Change, b: &Change) -> bool
    ensures { IsTrue result ↔ ((proposed_of a.now).part ≡ (proposed_of b.now).part) }
{
    match (a, b) {
        (
            Change::Put { key, flag, .. },
            Change::Put {
                key: other_key,
                flag: other,
                ..
            },
        ) => { key.as_str() == other_key.as_str() && flag.text() == other.text() }
        (Change::Delete { key, .. }, Change::Delete { key: other_key, .. }) => {
            key.as_str() == other_key.as_str()
        }
        _ => false,
    }
}

// Whether the edits change the same, one by one.
pub fn same_changes(queue: &VecDeque<Edit>, edits: &[Edit]) -> bool
    ensures { IsTrue result ↔ (changes_of queue.now.items ≡ changes_of edits.now) }
{
    if queue.len() != edits.len() {
        return false;
    }
    let mut i = 0;
    while i < edits.len() {
        if !same_change(&queue[i], &edits[i]) {
            return false;
        }
        i += 1;
    }
    true
}

// How many of the edits that wait make the longest batch.
pub fn first_part(waiting: &VecDeque<Edit>, most: u64) -> usize
    requires { 0 < length waiting.now.items }
    ensures longest { IsLongestPart most
        (record { first = 0; changes = changes_of (take result waiting.now.items) })
        (changes_of waiting.now.items) (changes_of (drop result waiting.now.items)) }
    ensures within { result ≤ length waiting.now.items }
{
    let mut n = 1;
    let mut sum = BATCH_HEAD as u64 + encoded_len(&waiting[0]) as u64;
    while n < waiting.len() && n < MOST_EDITS {
        let next = sum + encoded_len(&waiting[n]) as u64;
        if next > most {
            return n;
        }
        sum = next;
        n += 1;
    }
    n
}

// Whether an edit makes one batch with those that wait before it.
pub fn fits_behind(waiting: &VecDeque<Edit>, edit: &Edit, most: u64) -> bool
    ensures { IsTrue result ↔
        FitsBehind most (changes_of waiting.now.items) (change_of edit.now) }
{
    if waiting.is_empty() {
        return true;
    }
    if waiting.len() >= MOST_EDITS {
        return false;
    }
    let mut sum = BATCH_HEAD as u64 + encoded_len(edit) as u64;
    let mut i = 0;
    while i < waiting.len() {
        sum += encoded_len(&waiting[i]) as u64;
        i += 1;
    }
    sum <= most
}

// The first edits once more.
pub fn copies_of_front(
    alloc: Global,
    waiting: &VecDeque<Edit>,
    n: usize,
) -> Result<Vec<Edit>, AllocError>
    requires { n ≤ length waiting.now.items }
    ensures { IfOk result (λ copies.
        changes_of copies.items ≡ changes_of (take n waiting.now.items)) }
{
    let mut copies = Vec::with_capacity(alloc, n)?;
    for i in 0..n {
        copies.push_reserved(waiting[i].try_copy()?);
    }
    Ok(copies)
}

// Moves the first edits behind others, where there is room for them.
pub fn move_front(waiting: &mut VecDeque<Edit>, drawn: &mut VecDeque<Edit>, n: usize)
    requires there { n ≤ length waiting.old.items }
    requires room { deque_len drawn.old + n ≤ deque_capacity drawn.old }
    ensures all { drawn.new.items ++ waiting.new.items ≡ drawn.old.items ++ waiting.old.items }
    ensures count { length drawn.new.items ≡ length drawn.old.items + n }
{
    let mut left = n;
    while left > 0 {
        let Some(edit) = waiting.pop_front() else {
            unreachable!()
        };
        drawn.push_back_reserved(edit);
        left -= 1;
    }
}
