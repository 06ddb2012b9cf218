//! What a line of trials says: bytes, edits and what becomes of writes.

use crate::trial::Answer;
use fp_disk::Fill;
use fp_edit::{Edit, LineFault, parse_line};
use fp_transcript::{Args, Text, first_word, number};
use hex::FromHexError;

/// What `ON` stands for.
pub const ON: &str = r#"{"defaultVariant":"on","state":"ENABLED","variants":{"on":true}}"#;

/// The answer to a line that says this.
pub fn judged(args: &Args<'_>, answer: Answer) -> Answer {
    if args.is_short {
        Answer::NoMemory
    } else if args.is_bad {
        Answer::NotUnderstood
    } else {
        answer
    }
}

// The text that a word of bytes stands for.
fn as_text(word: &str) -> Option<&str> {
    if word == "ON" {
        Some(ON)
    } else {
        word.strip_prefix("'")
    }
}

// A byte in hex digits.
fn byte(args: &mut Args<'_>, digits: &str) -> u8 {
    match u8::from_str_radix(digits, 16) {
        Ok(byte) => byte,
        Err(_) => {
            args.is_bad = true;
            0
        }
    }
}

/// All words, as bytes: words of hex digits, `'text` and `ON`, and a byte so
/// many times, as in `00*46`.
pub fn bytes_of(args: &mut Args<'_>) -> Vec<u8> {
    let mut bytes = Vec::new(args.alloc);
    for word in args.rest.split_whitespace() {
        match as_text(word) {
            Some(text) => push(args, &mut bytes, text.as_bytes()),
            None => push_digits(args, &mut bytes, word),
        }
    }
    bytes
}

fn push(args: &mut Args<'_>, bytes: &mut Vec<u8>, more: &[u8]) {
    if bytes.extend_from_slice(more).is_err() {
        args.is_short = true;
    }
}

fn push_digits(args: &mut Args<'_>, bytes: &mut Vec<u8>, word: &str) {
    match word.split_once('*') {
        Some((digits, times)) => push_often(args, bytes, digits, times),
        None => push_hex(args, bytes, word),
    }
}

fn push_often(args: &mut Args<'_>, bytes: &mut Vec<u8>, digits: &str, times: &str) {
    let byte = byte(args, digits);
    for _ in 0..args.number_of(times) {
        push(args, bytes, &[byte]);
    }
}

fn push_hex(args: &mut Args<'_>, bytes: &mut Vec<u8>, digits: &str) {
    match hex::decode(args.alloc, digits) {
        Ok(found) => push(args, bytes, &found),
        Err(FromHexError::OutOfMemory) => args.is_short = true,
        Err(_) => args.is_bad = true,
    }
}

/// The next word, what becomes of bytes in a crash: `old`, `new`, a byte in hex digits,
/// or a seed, as in `seed7`.
pub fn fill_of(args: &mut Args<'_>) -> Fill {
    match args.word() {
        "old" => Fill::Old,
        "new" => Fill::New,
        word => match word.strip_prefix("seed") {
            Some(seed) => Fill::Seed(args.number_of(seed)),
            None => Fill::Byte(byte(args, word)),
        },
    }
}

/// All words, an edit by its line.
pub fn edit_of(args: &mut Args<'_>) -> Option<Edit> {
    let mut line = Text::new(args.alloc);
    put_line(args, &mut line);
    match parse_line(args.alloc, line.as_str().as_bytes()) {
        Ok(edit) => Some(edit),
        Err(LineFault::Memory) => {
            args.is_short = true;
            None
        }
        Err(_) => {
            args.is_bad = true;
            None
        }
    }
}

/// Appends the line of an edit: of `put KEY`, of `put KEY LENGTH` with a definition of so many
/// bytes, of `delete KEY`, each with `if absent` or `if REVISION` behind it or without; of
/// `set EDIT, EDIT ..`, with such edits; any other text is a line itself, in which `ON` stands for
/// its definition.
pub fn put_line(args: &mut Args<'_>, out: &mut Text) {
    match args.rest.strip_prefix("set ") {
        Some(edits) => put_set(args, edits, out),
        None => put_single(args, args.rest, out),
    }
    args.is_short = args.is_short || out.is_short;
}

fn put_set(args: &mut Args<'_>, edits: &str, out: &mut Text) {
    out.push(r#"{"edits":["#);
    let mut is_later = false;
    for edit in edits.split(", ") {
        if is_later {
            out.push(",");
        }
        put_single(args, edit, out);
        is_later = true;
    }
    out.push(r#"],"op":"set"}"#);
}

fn put_single(args: &mut Args<'_>, text: &str, out: &mut Text) {
    let (edit, expected) = text.split_once(" if ").unwrap_or((text, "any"));
    let (word, rest) = first_word(edit);
    let (key, length) = first_word(rest);
    match word {
        "put" => put_put(args, key, length, expected, out),
        "delete" => edit_line("{", key, "delete", expected, out),
        _ => out.replaced(edit, "ON", ON),
    }
}

fn put_put(args: &mut Args<'_>, key: &str, length: &str, expected: &str, out: &mut Text) {
    out.push(r#"{"flag":"#);
    if length.is_empty() {
        out.push(ON);
    } else {
        let length = args.number_of(length);
        long_definition(length, out);
    }
    edit_line(",", key, "put", expected, out);
}

// A definition whose canonical text has so many bytes, from 42 on.
fn long_definition(length: u64, out: &mut Text) {
    out.push(r#"{"defaultVariant":"v","variants":{"v":""#);
    for _ in 0..length.saturating_sub(42) {
        out.push("x");
    }
    out.push(r#""}}"#);
}

// What stands behind the definition: a revision that is expected, or a word as a text of JSON.
fn edit_line(before: &str, key: &str, op: &str, expected: &str, out: &mut Text) {
    let quote = if number(expected).is_some() { "" } else { "\"" };
    out.push(before);
    out.push(r#""if":"#);
    out.push(quote);
    out.push(expected);
    out.push(quote);
    out.push(r#","key":""#);
    out.push(key);
    out.push(r#"","op":""#);
    out.push(op);
    out.push(r#""}"#);
}
