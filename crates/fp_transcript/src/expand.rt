//! Short ways to write long operands, and bytes that are no text.
//!
//! What stands between two backquotes is put in place: `@NAME` the text of that name, `0x00ff`
//! these bytes, and other texts themselves. `64 TEXT` puts TEXT 64 times, and `0010..0026 TEXT`
//! once for each number; `#` in it is then the number, in as many digits as the first has.

use std::alloc::{AllocError, Global};
use std::collections::BTreeMap;

/// Texts by their names.
pub type Texts = BTreeMap<String, Vec<u8>>;

// How often a part is put, and the numbers that stand for `#`.
#[derive(Clone, Copy)]
struct Counted {
    first: u32,
    last: u32,
    digits: usize,
}

/// The bytes that an operand writes, with its texts by their names. Where memory is wanting the
/// call ends with that fault.
pub fn expanded(alloc: Global, texts: &Texts, operand: &str) -> Result<Vec<u8>, AllocError> {
    let mut out = Vec::new(alloc);
    let mut inside = false;
    for part in operand.split('`') {
        if inside {
            put_part(alloc, texts, part, &mut out)?;
        } else {
            out.extend_from_slice(part.as_bytes())?;
        }
        inside = !inside;
    }
    Ok(out)
}

fn put_part(alloc: Global, texts: &Texts, part: &str, out: &mut Vec<u8>) -> Result<(), AllocError> {
    if let Some((head, piece)) = part.split_once(' ') {
        if let Some(counted) = counted_by(head) {
            let piece = piece_of(alloc, texts, piece)?;
            return put_counted(alloc, counted, &piece, out);
        }
    }
    out.extend_from_slice(&piece_of(alloc, texts, part)?)
}

fn counted_by(head: &str) -> Option<Counted> {
    match head.split_once("..") {
        Some((first, last)) => Some(Counted {
            first: first.parse().ok()?,
            last: last.parse().ok()?,
            digits: first.len(),
        }),
        None => Some(Counted {
            first: 1,
            last: head.parse().ok()?,
            digits: 1,
        }),
    }
}

fn put_counted(
    alloc: Global,
    counted: Counted,
    piece: &[u8],
    out: &mut Vec<u8>,
) -> Result<(), AllocError> {
    for n in counted.first..=counted.last {
        let digits = counted.digits;
        let number = format!(in alloc; "{n:0digits$}")?;
        put_numbered(number.as_bytes(), piece, out)?;
    }
    Ok(())
}

fn put_numbered(number: &[u8], piece: &[u8], out: &mut Vec<u8>) -> Result<(), AllocError> {
    for byte in piece {
        if *byte == b'#' {
            out.extend_from_slice(number)?;
        } else {
            out.push(*byte)?;
        }
    }
    Ok(())
}

fn piece_of(alloc: Global, texts: &Texts, piece: &str) -> Result<Vec<u8>, AllocError> {
    if let Some(name) = piece.strip_prefix("@") {
        return match texts.get(name) {
            Some(text) => text.clone(),
            None => Vec::from_slice(alloc, b"no such text"),
        };
    }
    match piece.strip_prefix("0x") {
        Some(digits) => bytes_of(alloc, digits),
        None => Vec::from_slice(alloc, piece.as_bytes()),
    }
}

fn bytes_of(alloc: Global, digits: &str) -> Result<Vec<u8>, AllocError> {
    let mut bytes = Vec::new(alloc);
    for pair in digits.as_bytes().chunks(2) {
        if let [high, low] = pair {
            bytes.push(digit(*high) << 4 | digit(*low))?;
        }
    }
    Ok(bytes)
}

fn digit(letter: u8) -> u8 {
    match letter {
        b'0'..=b'9' => letter - b'0',
        b'a'..=b'f' => letter - b'a' + 10,
        _ => 0,
    }
}
