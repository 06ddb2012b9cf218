//! What the words of a command stand for, and how some answers are said.

use crate::clients::fill;
use crate::courses::{Course, revisions_in};
use crate::held::Hold;
use fp_server::TimeLimits;
use fp_transcript::{Args, Text, Texts, expanded};
use std::net::TcpStream;
use std::time::Duration;

/// `IDLE REQUEST REPLY`, each in milliseconds.
pub fn limits_of(args: &mut Args<'_>) -> TimeLimits {
    TimeLimits {
        idle: Duration::from_millis(args.number()),
        request: Duration::from_millis(args.number()),
        reply: Duration::from_millis(args.number()),
    }
}

/// The first line of a text.
pub fn first_line(text: &str) -> &str {
    text.lines().next().unwrap_or("")
}

/// `behind COUNT`, `from PLACE`.
pub fn hold_of(args: &mut Args<'_>) -> Hold {
    match args.word() {
        "behind" => Hold::Behind(args.number()),
        _ => Hold::WriteFrom(args.number()),
    }
}

/// How editors put, by the words behind their number.
pub fn course(word: &str, args: &mut Args<'_>) -> Course {
    Course {
        number: 0,
        count: args.number(),
        is_at_once: args.word() == "at-once",
        is_turning: word == "turners",
    }
}

/// The bytes that are left of the line.
pub fn bytes(texts: &Texts, args: &mut Args<'_>) -> Vec<u8> {
    match expanded(args.alloc, texts, args.rest) {
        Ok(bytes) => bytes,
        Err(_) => {
            args.is_short = true;
            Vec::new(args.alloc)
        }
    }
}

/// Puts so many flags of the definition that the words say.
pub fn filled(peer: &TcpStream, texts: &Texts, args: &mut Args<'_>) -> Option<u64> {
    let count = args.number();
    let flag = bytes(texts, args);
    fill(args.alloc, peer, count, str::from_utf8(&flag).ok()?)
}

/// The revision that was told last, if all were in order.
pub fn say_last(last: Option<u64>, out: &mut Text) {
    match last {
        Some(last) => out.named("one by one, to", last),
        None => out.push("not one by one"),
    }
}

/// Whether the service stopped at the revision that its disk is left at.
pub fn is_at(said: &str, left: &str) -> Option<bool> {
    let said = said.trim_end().strip_prefix("stopped at ")?;
    let (revision, _) = left.split_once(',')?;
    Some(said == revision)
}

/// How many revisions were told, and whether they are those from 1 on, each once.
pub fn say_told(told: &Text, out: &mut Text) {
    let revisions = revisions_in(told.alloc, told.as_str());
    let last = revisions.len() as u64;
    let are_all = revisions.iter().copied().eq(1..=last);
    out.named(
        if are_all {
            "each from 1 to"
        } else {
            "others, so many:"
        },
        last,
    );
}
