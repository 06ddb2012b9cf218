//! Cases of the bytes of batches and images.

use crate::edits::{edit_of, put_edit};
use crate::values::SHOWN;
use fp_definition::FlagKey;
use fp_edit::{Edit, Flag, FlagSet};
use fp_record::{Batch, Image, RecordFault, encoded_len};
use fp_transcript::Text;

/// The batch that bytes spell.
pub fn batch(bytes: &[u8], out: &mut Text) {
    match Batch::decode(out.alloc, bytes) {
        Ok(batch) => {
            put_batch(&batch, out);
            if let Some(again) = out.got(batch.encode(out.alloc)) {
                put_again(&again, bytes, out);
            }
        }
        Err(fault) => put_fault(fault, out),
    }
}

fn put_batch(batch: &Batch, out: &mut Text) {
    out.named("first", batch.first());
    out.push("\n");
    for edit in batch.edits().iter().take(SHOWN) {
        out.number(encoded_len(edit) as u64);
        out.push(" bytes, ");
        put_edit(edit, out);
        out.push("\n");
    }
}

fn put_again(again: &[u8], bytes: &[u8], out: &mut Text) {
    out.number(bytes.len() as u64);
    out.push(if again == bytes {
        " bytes, spelled again"
    } else {
        " bytes, spelled otherwise"
    });
}

fn put_fault(fault: RecordFault, out: &mut Text) {
    match fault {
        RecordFault::BadRecord { at } => out.named("bad at", at as u64),
        RecordFault::Memory => out.is_short = true,
    }
}

/// The image that bytes spell.
pub fn image(bytes: &[u8], out: &mut Text) {
    match Image::decode(out.alloc, bytes) {
        Ok(image) => {
            put_flags(image.flags(), out);
            let again = Image::new(image.into_flags()).encode(out.alloc);
            if let Some(again) = out.got(again) {
                put_again(&again, bytes, out);
            }
        }
        Err(fault) => put_fault(fault, out),
    }
}

fn put_flags(flags: &[(FlagKey, Flag)], out: &mut Text) {
    out.named("flags", flags.len() as u64);
    out.push("\n");
    for (key, flag) in flags.iter().take(SHOWN) {
        out.push(key.as_str());
        out.named(", changed", flag.changed);
        out.push(", ");
        out.number(flag.definition.text().len() as u64);
        out.push(" bytes\n");
    }
}

/// The bytes of the image of a set.
pub fn image_of(set: &FlagSet, out: &mut Text) {
    if let Some(image) = out.got(Image::of(out.alloc, set)) {
        if let Some(bytes) = out.got(image.encode(out.alloc)) {
            out.written(&bytes);
        }
    }
}

/// The bytes of the batch of edits, a line for each.
pub fn spelled(first: u64, lines: &[u8], out: &mut Text) {
    let edits = edits_of(lines, out);
    if edits.is_empty() || edits.len() > 64 || first > (1 << 63) - edits.len() as u64 {
        return out.push("no batch");
    }
    if let Some(bytes) = out.got(Batch::new(first, edits).encode(out.alloc)) {
        out.written(&bytes);
    }
}

fn edits_of(lines: &[u8], out: &mut Text) -> Vec<Edit> {
    let mut edits = Vec::new(out.alloc);
    if let Ok(lines) = std::str::from_utf8(lines) {
        for line in lines.lines() {
            if let Some(edit) = edit_of(line.as_bytes(), out) {
                let _ = out.got(edits.push(edit));
            }
        }
    }
    edits
}

// Where a batch's bytes are wrong, if they are.
fn place(bytes: &[u8], out: &mut Text) -> Option<usize> {
    match Batch::decode(out.alloc, bytes) {
        Ok(_) => None,
        Err(RecordFault::BadRecord { at }) => Some(at),
        Err(RecordFault::Memory) => {
            out.is_short = true;
            None
        }
    }
}

fn put_place(place: Option<usize>, out: &mut Text) {
    match place {
        Some(at) => out.named("bad at", at as u64),
        None => out.push("stands"),
    }
    out.push("\n");
}

/// What each beginning of a batch's bytes is, a line for lengths in a row that are the same.
pub fn beginnings(bytes: &[u8], out: &mut Text) {
    let mut before = None;
    for end in 0..=bytes.len() {
        let now = place(&bytes[..end], out);
        if before != Some(now) {
            out.named("from", end as u64);
            out.push(": ");
            put_place(now, out);
            before = Some(now);
        }
    }
}

/// What a batch's bytes are once one of them is another: at each, a line for values in
/// a row that are the same.
pub fn changed(bytes: &[u8], out: &mut Text) {
    if let Some(mut body) = out.got(Vec::from_slice(out.alloc, bytes)) {
        for at in 0..body.len() {
            changed_at(&mut body, at, out);
        }
    }
}

fn changed_at(body: &mut Vec<u8>, at: usize, out: &mut Text) {
    if at >= body.len() {
        return;
    }
    let kept = body[at];
    let mut before = None;
    for byte in 0..=255u8 {
        if at < body.len() {
            body[at] = byte;
        }
        let now = place(body, out);
        if before != Some(now) {
            out.named("byte", at as u64);
            out.named(" from", u64::from(byte));
            out.push(": ");
            put_place(now, out);
            before = Some(now);
        }
    }
    if at < body.len() {
        body[at] = kept;
    }
}
