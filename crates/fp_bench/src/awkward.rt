//! Definitions, keys and contexts near their limits, and some past them.

use crate::commands::{applied, shown};
use crate::disk::{Contents, PlainDisk, disk_of};
use crate::evaluations::ALL;
use crate::job::Job;
use crate::pool::{Pool, Sample};
use crate::text::{Spelling, Text};
use crate::world::{Plane, ask, plane_over};
use std::sync::Wait;

// What each key of 200 bytes begins with.
const STEM: &[u8] =
    b"organisation-of-a-large-company.department-of-many-teams.team-of-the-checkout.service-for-baskets.component-of-the-total.page-of-payment.feature-with-a-long-name.";

fn key(text: &mut Text, number: u64) {
    text.push(STEM);
    text.four(text.mark);
    text.push(b"-experiment-of-the-number-");
    text.four(number);
}

/// A definition of one of twelve kinds, of which the last four are refused.
pub fn flag(text: &mut Text) {
    text.say(br#"{"state":"ENABLED","serial":1%u,"defaultVariant":"a","variants":{"#);
    match text.random.below(12) {
        0 => long_texts(text, 1, 1_800),
        1 => long_texts(text, 64, 20),
        2 => nested(text, 26),
        3 => numbers(text, b"-9223372036854775808"),
        4 => similar_names(text),
        5 => metadata(text),
        6 => long_rule(text, b"in"),
        7 => deep_rule(text),
        8 => long_texts(text, 1, 2_300),
        9 => nested(text, 50),
        10 => numbers(text, b"0.5"),
        _ => long_rule(text, b"among"),
    }
    text.say(b"}}");
}

// The name of a variant.
fn name(text: &mut Text, number: u64) {
    text.number = number;
    if number == 0 {
        text.say(br#""a":"#);
    } else {
        text.say(br#","v-%d":"#);
    }
}

// So many variants of so many words each.
fn long_texts(text: &mut Text, count: u64, words: u64) {
    for n in 0..count {
        name(text, n);
        text.say(b"\"");
        text.words(words);
        text.say(b"\"");
    }
}

// Lists in lists.
fn nested(text: &mut Text, depth: u64) {
    for n in 0..8 {
        name(text, n);
        text.say(br#"{"list":"#);
        for _ in 0..depth {
            text.say(br#"[%N,"%w","#);
        }
        text.say(b"null");
        for _ in 0..depth {
            text.say(b"]");
        }
        text.say(b"}");
    }
}

fn numbers(text: &mut Text, last: &[u8]) {
    text.say(br#""a":{"numbers":["#);
    for _ in 0..700 {
        let number = text.random.next() / 2;
        text.decimal(number);
        text.say(b",");
    }
    text.say(last);
    text.say(b"]}");
}

// Names that differ at their end.
fn similar_names(text: &mut Text) {
    text.say(br#""a":{"last":true"#);
    for n in 0..70 {
        text.say(br#",""#);
        text.push(STEM);
        text.four(n);
        text.say(br#"":"%w""#);
    }
    text.say(b"}");
}

fn metadata(text: &mut Text) {
    text.say(br#""a":true},"metadata":{"last":1"#);
    for n in 0..31 {
        text.number = n;
        text.say(br#","note-%d":""#);
        text.words(45);
        text.say(b"\"");
    }
}

// A rule of nearly as many values as there may be.
fn long_rule(text: &mut Text, operator: &[u8]) {
    text.tenants = 980;
    text.say(br#""a":true,"b":false},"targeting":{"if":[{""#);
    text.push(operator);
    text.say(br#"":[{"var":"tenant"},[%T]]},"a","b"]"#);
}

// An `if` in the last place of an `if`, and so on.
fn deep_rule(text: &mut Text) {
    text.say(br#""a":true,"b":false},"targeting":{"if":["#);
    for _ in 0..13 {
        text.say(br#"{"==":[{"var":"address.city.district"},""#);
        text.words(90);
        text.say(br#""]},"a",{"if":["#);
    }
    text.say(br#""b""#);
    for _ in 0..13 {
        text.say(b"]}");
    }
    text.say(b"]");
}

// A context of some 60 KB.
fn context(text: &mut Text) {
    text.clear();
    text.tenants = 1_500;
    text.say(br#"{"context":{"targetingKey":"user-%N","tenant":"%t","groups":[%T],"notes":""#);
    text.words(3_000);
    text.say(br#""}}"#);
}

// All flags, and three of them, each with a context of its own.
fn evaluated<R: Wait>(rt: &R, plane: &mut Plane, job: &mut Job, round: u64) {
    let mut target = job.text(round);
    let mut body = job.text(round);
    body.spelling = Spelling::OneLine;
    for n in 0..4 {
        context(&mut body);
        target.clear();
        target.push(ALL);
        if n > 0 {
            target.push(b"/");
            key(&mut target, n);
        }
        let _tag = ask(rt, plane, job, target.bytes(), None, body.bytes());
    }
    if target.is_short() || body.is_short() {
        job.digest.fail();
    }
}

// Most flags are put twice or more.
fn lines(job: &mut Job, pool: &mut Pool, round: u64) -> Text {
    let mut text = job.text(round);
    for n in 0..job.count(96) {
        text.push(br#"{"op":"put","key":""#);
        key(&mut text, n % 40);
        text.push(br#"","flag":"#);
        pool.put(&mut text);
        text.push(b"}\n");
    }
    if text.is_short() {
        job.digest.fail();
    }
    text
}

// A disk to which such lines were applied, and which was opened again.
fn edited(job: &mut Job, pool: &mut Pool, round: u64) -> PlainDisk {
    let disk = disk_of(job, pool, round, Contents::of_no_flags(1 << 22));
    let text = lines(job, pool, round);
    let disk = applied(job, text.bytes(), disk);
    shown(job, disk)
}

/// A disk a round: its lines, its opening, and evaluations over it.
pub fn awkward<R: Wait>(rt: &R, job: &mut Job) {
    let mut pool = Pool::new(job, Sample::Awkward, [Spelling::OneLine; 2]);
    for round in 0..job.rounds {
        let disk = edited(job, &mut pool, round);
        match plane_over(rt, job.alloc, disk, &[]) {
            Some(plane) => {
                let mut plane = plane;
                evaluated(rt, &mut plane, job, round);
                let _disk = plane.into_disk(rt);
            }
            None => job.digest.fail(),
        }
    }
}
