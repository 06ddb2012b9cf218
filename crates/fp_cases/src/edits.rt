//! Cases of edits, and of the sets that they make.

use crate::values::SHOWN;
use fp_definition::FlagKey;
use fp_edit::{Change, Edit, EditFault, Expect, Flag, FlagSet, LineFault, PartFault, parse_line};
use fp_transcript::Text;

/// Tells the edit that a line spells.
pub fn parsed(line: &[u8], out: &mut Text) {
    if let Some(edit) = edit_of(line, out) {
        put_edit(&edit, out);
    }
}

/// The edit that a line spells, or its fault told.
pub fn edit_of(line: &[u8], out: &mut Text) -> Option<Edit> {
    match parse_line(out.alloc, line) {
        Ok(edit) => Some(edit),
        Err(LineFault::Memory) => {
            out.is_short = true;
            None
        }
        Err(LineFault::InSet { at, fault }) => {
            put_part_fault(at, &fault, out);
            None
        }
        Err(fault) => {
            out.shown(&fault);
            None
        }
    }
}

fn put_part_fault(at: usize, fault: &PartFault, out: &mut Text) {
    out.named("change", at as u64);
    out.push(": ");
    out.shown(fault);
}

/// An edit: what it does, its key, what it expects, and a put's definition; of a set that of its
/// first changes, each on a line of its own.
pub fn put_edit(edit: &Edit, out: &mut Text) {
    match edit {
        Edit::Put { key, flag, expect } => {
            put_head("put ", key, *expect, out);
            out.push(" ");
            out.utf8(flag.text());
        }
        Edit::Delete { key, expect } => put_head("delete ", key, *expect, out),
        Edit::Set(changes) => {
            out.named("set of", changes.as_slice().len() as u64);
            for change in changes.as_slice().iter().take(SHOWN) {
                out.push("\n");
                put_change(change, out);
            }
        }
    }
}

fn put_change(change: &Change, out: &mut Text) {
    match change {
        Change::Put { key, flag, expect } => {
            put_head("put ", key, *expect, out);
            out.push(" ");
            out.utf8(flag.text());
        }
        Change::Delete { key, expect } => put_head("delete ", key, *expect, out),
    }
}

fn put_head(name: &str, key: &FlagKey, expect: Expect, out: &mut Text) {
    out.push(name);
    out.push(key.as_str());
    match expect {
        Expect::Any => out.push(", if any"),
        Expect::Absent => out.push(", if absent"),
        Expect::At(revision) => out.named(", if at", revision),
    }
}

/// Admits the edit of each line, and tells of the last one and of the set then.
pub fn admitted(set: &mut FlagSet, lines: &[u8], out: &mut Text) {
    let Ok(lines) = std::str::from_utf8(lines) else {
        return out.push("no UTF-8");
    };
    let mut answer = out.another();
    for line in lines.lines() {
        answer.text.clear();
        if let Some(edit) = edit_of(line.as_bytes(), &mut answer) {
            admit(set, edit, &mut answer);
        }
    }
    out.put(&answer);
    out.push("; ");
    put_size(set, out);
}

// An edit that wants memory is given back, and so tried once more.
fn admit(set: &mut FlagSet, edit: Edit, out: &mut Text) {
    match set.admit(edit) {
        Ok(revision) => out.named("revision", revision),
        Err((EditFault::Memory, edit)) => match set.admit(edit) {
            Ok(revision) => out.named("revision", revision),
            Err((fault, _)) => put_fault(fault, out),
        },
        Err((fault, _)) => put_fault(fault, out),
    }
}

fn put_fault(fault: EditFault, out: &mut Text) {
    match fault {
        EditFault::Conflict { current } => put_conflict(current, out),
        EditFault::ConflictIn { at, current } => {
            out.named("change", at as u64);
            out.push(": ");
            put_conflict(current, out);
        }
        EditFault::Memory => out.is_short = true,
        fault => out.shown(&fault),
    }
}

fn put_conflict(current: Option<u64>, out: &mut Text) {
    match current {
        None => out.push("conflict, no flag there"),
        Some(revision) => out.named("conflict, changed at", revision),
    }
}

/// What stands against an edit.
pub fn judged(set: &FlagSet, line: &[u8], out: &mut Text) {
    if let Some(edit) = edit_of(line, out) {
        match set.judge(&edit) {
            Some(fault) => put_fault(fault, out),
            None => out.push("nothing"),
        }
    }
}

/// A key's flag.
pub fn put_flag(set: &FlagSet, key: &FlagKey, out: &mut Text) {
    match set.get(key) {
        Some(flag) => {
            out.named("changed at", flag.changed);
            out.push(", ");
            out.utf8(flag.definition.text());
        }
        None => out.push("none"),
    }
}

/// How large a set is.
pub fn put_size(set: &FlagSet, out: &mut Text) {
    if set.is_empty() {
        out.push("empty, ");
    }
    out.number(set.len() as u64);
    out.push(" flags, ");
    out.number(set.size());
    out.named(" of", set.limit());
    out.named(" bytes, at", set.revision());
}

/// Each key, and the revision that changed it.
pub fn put_changes(set: &FlagSet, out: &mut Text) {
    for (key, flag) in set.iter() {
        out.named(key.as_str(), flag.changed);
        out.push("\n");
    }
}

/// Brings back the flag of a put, as changed at a revision.
pub fn restored(set: &mut FlagSet, changed: u64, line: &[u8], out: &mut Text) {
    match edit_of(line, out) {
        Some(Edit::Put { key, flag, .. }) => {
            let flag = Flag {
                definition: flag,
                changed,
            };
            restore(set, key, flag, out);
        }
        Some(_) => out.push("no put"),
        None => {}
    }
}

fn restore(set: &mut FlagSet, key: FlagKey, flag: Flag, out: &mut Text) {
    let changed = flag.changed;
    if changed == 0 || changed > set.revision() || !set.has_room_for(&key, &flag.definition) {
        return out.push("no room");
    }
    let restored = set.restore(key, flag);
    if out.got(restored).is_some() {
        put_size(set, out);
    }
}
