//! Disks of which single bytes were changed.

use crate::seeds::{FIRST_SEED, next_seed};
use crate::trial::{Answer, Fault, Trial};
use crate::world::found;
use fp_disk::MemoryDisk;
use fp_transcript::{Args, Text};
use std::alloc::Global;
use std::mem;

/// `flips FROM TO`: each byte from the first place up to the second is each
/// other byte, one at a time.
/// `seeds COUNT FROM TO [BYTES]`: one byte there, or so many, is another one, by so many seeds.
pub fn on_damage(trial: &mut Trial, word: &str, args: &mut Args<'_>) -> Answer {
    let Some(bytes) = trial.bytes() else {
        return Answer::NoMemory;
    };
    if word == "flips" {
        flips(&bytes, args, &mut trial.text)
    } else {
        seeds(&bytes, args, &mut trial.text)
    }
}

// What a disk is opened as.
#[derive(Clone, Copy, PartialEq, Eq)]
enum Found {
    Revision(u64),
    NoDisk,
    UnknownVersion,
    // Damage at a byte that was changed.
    Here,
    Damaged(u64),
    NoMemory,
}

fn tell_found(found: Found, out: &mut Text) {
    match found {
        Found::Revision(revision) => out.named("revision", revision),
        Found::NoDisk => out.push("not a flagplane file"),
        Found::UnknownVersion => out.push("unknown version"),
        Found::Here => out.push("damaged here"),
        Found::Damaged(at) => out.named("damaged at byte", at),
        Found::NoMemory => out.is_short = true,
    }
}

// What these bytes are opened as, with this byte at this place.
fn found_with(alloc: Global, bytes: &[u8], at: u64, byte: u8) -> Found {
    match bytes.to_vec(alloc) {
        Ok(mut copy) => {
            put(&mut copy, at, byte);
            opened_as(alloc, copy, &[at])
        }
        Err(_) => Found::NoMemory,
    }
}

fn put(bytes: &mut [u8], at: u64, byte: u8) {
    if let Some(place) = bytes.get_mut(at as usize) {
        *place = byte;
    }
}

// What these bytes are opened as, of which those at these places were changed.
fn opened_as(alloc: Global, bytes: Vec<u8>, changed: &[u64]) -> Found {
    let Ok(disk) = MemoryDisk::holding(alloc, bytes) else {
        return Found::NoMemory;
    };
    match found(alloc, disk) {
        Ok((store, opening)) => {
            let _disk = store.into_disk();
            Found::Revision(opening.revision())
        }
        Err((fault, _disk)) => found_fault(fault, changed),
    }
}

fn found_fault(fault: Fault, changed: &[u64]) -> Found {
    match fault {
        Fault::Unformatted => Found::NoDisk,
        Fault::UnknownVersion(_) => Found::UnknownVersion,
        Fault::Damaged(place) if changed.contains(&place) => Found::Here,
        Fault::Damaged(place) => Found::Damaged(place),
        _ => Found::NoMemory,
    }
}

// How often something was found.
#[derive(Clone, Copy)]
struct Tally {
    found: Found,
    count: u64,
}

// Counts what was found. What came first stands first.
fn add(tallies: &mut Vec<Tally>, found: Found, out: &mut Text) {
    for tally in tallies.iter_mut() {
        if tally.found == found {
            tally.count = tally.count.saturating_add(1);
            return;
        }
    }
    if tallies.push(Tally { found, count: 1 }).is_err() {
        out.is_short = true;
    }
}

fn tell_tallies(tallies: &[Tally], between: &str, out: &mut Text) {
    for tally in tallies {
        if !out.is_empty() {
            out.push(between);
        }
        out.number(tally.count);
        out.push(" ");
        tell_found(tally.found, out);
    }
}

// A row for each run of places with one text.
fn flips(bytes: &[u8], args: &mut Args<'_>, out: &mut Text) -> Answer {
    let mut row = Text::new(args.alloc);
    let mut last = Text::new(args.alloc);
    let from = args.number();
    for at in from..args.number() {
        flip(args.alloc, bytes, at, &mut row);
        if row.as_str() != last.as_str() {
            tell_row(at, &row, out);
            mem::swap(&mut row, &mut last);
        }
    }
    Answer::Text
}

fn tell_row(at: u64, row: &Text, out: &mut Text) {
    out.named("from", at);
    out.push(": ");
    out.put(row);
    out.push("\n");
}

fn byte_at(bytes: &[u8], at: u64) -> u8 {
    bytes.get(at as usize).copied().unwrap_or(0)
}

fn flip(alloc: Global, bytes: &[u8], at: u64, row: &mut Text) {
    row.clear();
    let mut tallies = Vec::new(alloc);
    let old = byte_at(bytes, at);
    for byte in 0..=255u8 {
        if byte != old {
            add(&mut tallies, found_with(alloc, bytes, at, byte), row);
        }
    }
    tell_tallies(&tallies, ", ", row);
}

// How many of these disks are opened, or refused by which fault of their bytes: a line for each.
fn seeds(bytes: &[u8], args: &mut Args<'_>, out: &mut Text) -> Answer {
    let mut tallies = Vec::new(args.alloc);
    let count = args.number();
    let range = range_in(args);
    let mut seed = FIRST_SEED;
    for _ in 0..count {
        let found = found_by_seed(args.alloc, bytes, range, &mut seed);
        add(&mut tallies, found, out);
    }
    tell_tallies(&tallies, "\n", out);
    Answer::Text
}

// Where bytes are changed, and how many of one disk.
#[derive(Clone, Copy)]
struct Range {
    from: u64,
    length: u64,
    places: u64,
}

fn range_in(args: &mut Args<'_>) -> Range {
    let from = args.number();
    let length = args.number().saturating_sub(from);
    let places = if args.rest.is_empty() {
        1
    } else {
        args.number()
    };
    Range {
        from,
        length,
        places,
    }
}

// What these bytes are opened as once so many of the range are other ones, by the numbers behind the seed.
fn found_by_seed(alloc: Global, bytes: &[u8], range: Range, seed: &mut u64) -> Found {
    let Ok(mut copy) = bytes.to_vec(alloc) else {
        return Found::NoMemory;
    };
    let mut places = Vec::new(alloc);
    for _ in 0..range.places {
        *seed = next_seed(*seed);
        let at = range.from.saturating_add(*seed % range.length.max(1));
        let byte = changed(&copy, at, *seed);
        put(&mut copy, at, byte);
        if places.push(at).is_err() {
            return Found::NoMemory;
        }
    }
    opened_as(alloc, copy, &places)
}

// Another byte than the one at this place.
fn changed(bytes: &[u8], at: u64, seed: u64) -> u8 {
    byte_at(bytes, at) ^ (1 + (seed / 0x1_0000_0000 % 255) as u8)
}
