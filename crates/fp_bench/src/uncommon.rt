//! What users send now and then, of usual size: lines, bodies and documents that are made once.

use crate::commands::{applied, offered, shown};
use crate::disk::{Contents, disk_of};
use crate::evaluations::ALL;
use crate::flags::{Rules, referring};
use crate::importing::evaluators;
use crate::job::Job;
use crate::pool::Pool;
use crate::text::{Spelling, Text};
use crate::world::{Plane, ask, plane_over};
use std::sync::Wait;

// What a definition has that most don't have.
#[derive(Clone, Copy)]
enum Shape {
    ManyVariants,
    LongNumbers,
    ObjectsInRule,
    EmptyRule,
    Fraction,
    UnknownOperator,
    UnknownDefault,
}

const TEXT: &[u8] = br#""%o for %y""#;

const CHOICE: &[u8] =
    br#"{"if":[{"in":[{"var":"tenant"},[%T]]},"v3",{"starts_with":[{"var":"email"},"%r"]},"v5","v0"]}"#;

const COMPARISON: &[u8] =
    br#"{"if":[{">":[{"var":"balance"},-%l]},"v1",{"<=":[-1%N,{"var":"orders"},%l]},"v2","v0"]}"#;

const LOOKUP: &[u8] =
    br#"{"if":[{"in":[{"var":"offer"},[{"plan":"%p","from":-1%N,"seats":%n},{"seats":%n,"plan":"%p"}]]},"v1",{"==":[{"var":"address"},{"zip":"%N","city":"%y"}]},"v4","v0"]}"#;

const NOTES: &[u8] = br#"{"ticket":-1%N,"owner":"team-%o","serial":%l,"about":"%w"}"#;

impl Shape {
    // How many variants there are, and what one of them is.
    fn variants(self) -> (u64, &'static [u8]) {
        match self {
            Shape::LongNumbers => (12, b"-%l"),
            Shape::ObjectsInRule => (6, br#"{"title":"%w","columns":-1%n,"area":"%o"}"#),
            _ => (32, TEXT),
        }
    }

    fn rule(self) -> &'static [u8] {
        match self {
            Shape::LongNumbers => COMPARISON,
            Shape::ObjectsInRule => LOOKUP,
            Shape::EmptyRule => b"{}",
            Shape::UnknownOperator => br#"{"if":[{"matches":[{"var":"email"},"%r"]},"v3","v0"]}"#,
            _ => CHOICE,
        }
    }

    // The member at a place of an editor's own.
    fn member(self, text: &mut Text, place: u64) {
        match place {
            0 => text.say(br#""state":"ENABLED""#),
            1 => {
                let (count, value) = self.variants();
                variants(text, count, value);
            }
            2 => {
                text.say(br#""targeting":"#);
                text.say(self.rule());
            }
            3 => {
                text.say(br#""metadata":"#);
                text.say(match self {
                    Shape::Fraction => br#"{"owner":"team-%o","ratio":0.%N,"about":"%w"}"#,
                    _ => NOTES,
                });
            }
            _ => text.say(match self {
                Shape::UnknownDefault => br#""defaultVariant":"v99""#,
                _ => br#""defaultVariant":"v2""#,
            }),
        }
    }

    // A definition, its members from any of them on.
    fn say(self, text: &mut Text) {
        text.tenants = 6;
        let first = text.random.below(5);
        text.say(b"{");
        for n in 0..5 {
            if n > 0 {
                text.say(b",");
            }
            self.member(text, first.wrapping_add(n) % 5);
        }
        text.say(b"}");
    }
}

// Variants in the order of their numbers, which isn't that of their names.
fn variants(text: &mut Text, count: u64, value: &'static [u8]) {
    text.say(br#""variants":{"#);
    for n in 0..count {
        if n > 0 {
            text.say(b",");
        }
        text.push(b"\"v");
        text.decimal(n);
        text.push(b"\": ");
        text.say(value);
    }
    text.say(b"}");
}

// How a line stands around its definition.
#[derive(Clone, Copy)]
enum Form {
    Put,
    Reversed,
    Twice,
    Delete,
    UnknownOp,
    MemberTooMany,
    EmptyKey,
    Unended,
}

impl Form {
    fn front(self) -> &'static [u8] {
        match self {
            Form::Put | Form::Unended => br#"{"op":"put","key":"%k","flag":"#,
            Form::Reversed => br#"{"flag":"#,
            Form::Twice => br#"{"key":"%o","op":"delete","flag":{"a":%l,"a":-1%N},"flag":"#,
            Form::Delete => br#"{"op":"delete","key":"%k","flag":"#,
            Form::UnknownOp => br#"{"op":"move","key":"%k","flag":"#,
            Form::MemberTooMany => br#"{"op":"put","comment":"%w","key":"%k","flag":"#,
            Form::EmptyKey => br#"{"op":"put","key":"","flag":"#,
        }
    }

    fn back(self) -> &'static [u8] {
        match self {
            Form::Unended => b"\n",
            Form::Reversed | Form::Twice => b",\"if\":null,\"key\":\"%k\",\"op\":\"put\"}\n",
            _ => b"}\n",
        }
    }
}

// Each two have a key in common.
const LINES: [(Form, Shape); 18] = [
    (Form::Put, Shape::ManyVariants),
    (Form::Reversed, Shape::LongNumbers),
    (Form::Put, Shape::ObjectsInRule),
    (Form::Delete, Shape::ObjectsInRule),
    (Form::Twice, Shape::ManyVariants),
    (Form::Put, Shape::Fraction),
    (Form::Reversed, Shape::ManyVariants),
    (Form::UnknownOp, Shape::LongNumbers),
    (Form::Put, Shape::LongNumbers),
    (Form::MemberTooMany, Shape::ManyVariants),
    (Form::Twice, Shape::ObjectsInRule),
    (Form::Put, Shape::UnknownOperator),
    (Form::Put, Shape::EmptyRule),
    (Form::EmptyKey, Shape::ObjectsInRule),
    (Form::Reversed, Shape::ObjectsInRule),
    (Form::Unended, Shape::ManyVariants),
    (Form::Put, Shape::ManyVariants),
    (Form::Reversed, Shape::UnknownDefault),
];

fn lines(job: &mut Job) -> Text {
    let mut text = job.text(0);
    text.spelling = Spelling::OneLine;
    for n in 0..job.count(512) {
        let (form, shape) = LINES[(n % 18) as usize];
        text.number = n / 2;
        text.say(form.front());
        shape.say(&mut text);
        text.say(form.back());
    }
    if text.is_short() {
        job.digest.fail();
    }
    text
}

// What a client says of itself in 60 members, or beside a context.
const MEMBERS: [&[u8]; 4] = [
    br#""%o-%d":"%w","#,
    br#""%o-%d":-%l,"#,
    br#""%o-%d":{"zip":"%N","city":"%y"},"#,
    br#""%o-%d":["%r",%n,"%r"],"#,
];

// So many members in a mixed order.
fn members(text: &mut Text, count: u64) {
    for n in 0..count {
        text.number = n.wrapping_mul(7) % 60;
        text.say(MEMBERS[(n % 4) as usize]);
    }
}

// A body whose 60 members are beside its context or in it.
fn body(text: &mut Text, beside: u64, inside: u64) {
    text.spelling = Spelling::OneLine;
    text.say(b"{");
    members(text, beside);
    text.say(br#""context":{"targetingKey":"user-%N","balance":-%l,"#);
    members(text, inside);
    text.say(br#""address":{"zip":"%N","city":"%y"},"tenant":"%t","email":"%r-%N"},"sent":%l}"#);
}

#[derive(Drop)]
struct Request {
    target: Text,
    body: Text,
}

// Flags of two rules, one without a rule, and one that isn't there, by their numbers.
const ASKED: [u64; 4] = [0, 7, 6, 4_000];

fn requests(job: &mut Job) -> Vec<Request> {
    let mut requests = Vec::new(job.alloc);
    for n in 0..job.count(192) {
        let mut target = job.text(0);
        target.number = ASKED[(n % 4) as usize].wrapping_add((n / 4 % 16).wrapping_mul(9));
        target.push(ALL);
        target.push(b"/");
        target.key();
        let mut text = job.text(n);
        if n / 4 % 2 == 0 {
            body(&mut text, 58, 2);
        } else {
            body(&mut text, 2, 55);
        }
        let is_short = target.is_short() || text.is_short();
        let request = Request { target, body: text };
        if is_short || requests.push(request).is_err() {
            job.digest.fail();
        }
    }
    requests
}

// How the last flag of a document and the document end; the first three are refused.
const ENDS: [&[u8]; 4] = [
    br#""variants":{"on":true},"targeting":{"if":[{"$ref":"absent-%n"},"on"]}}}}"#,
    br#""variants":{"on":%n.5}}}}"#,
    br#""variants":{"on":true}}}"#,
    br#""variants":{"on":true}}}}"#,
];

const SOUND: [Shape; 3] = [
    Shape::ManyVariants,
    Shape::LongNumbers,
    Shape::ObjectsInRule,
];

fn document(job: &mut Job, end: &'static [u8]) -> Text {
    let mut text = job.text(0);
    text.spelling = Spelling::Lines;
    text.say(br#"{"$evaluators":{"#);
    evaluators(&mut text);
    text.say(br#"},"flags":{"#);
    for n in 0..job.count(60) {
        text.number = n;
        text.say(br#""%k":"#);
        if n % 2 == 0 {
            referring(&mut text);
        } else {
            SOUND[(n % 3) as usize].say(&mut text);
        }
        text.say(b",");
    }
    text.say(br#""zone":{"defaultVariant":"on","#);
    text.say(end);
    if text.is_short() {
        job.digest.fail();
    }
    text
}

fn documents(job: &mut Job) -> Vec<Text> {
    let mut documents = Vec::new(job.alloc);
    for end in ENDS {
        let text = document(job, end);
        if documents.push(text).is_err() {
            job.digest.fail();
        }
    }
    documents
}

fn evaluated<R: Wait>(rt: &R, plane: &mut Plane, job: &mut Job, requests: &[Request]) {
    for request in requests {
        let target = request.target.bytes();
        let _tag = ask(rt, plane, job, target, None, request.body.bytes());
    }
}

/// A round: lines over a disk of some flags, requests over what they leave, and documents over a
/// disk of none.
pub fn uncommon<R: Wait>(rt: &R, job: &mut Job) {
    let lines = lines(job);
    let requests = requests(job);
    let documents = documents(job);
    let mut pool = Pool::on_disk(job, Rules::Usual);
    for round in 0..job.rounds {
        let contents = Contents {
            slot: 1 << 20,
            flags: job.count(60),
            batches: 0,
        };
        let disk = disk_of(job, &mut pool, round, contents);
        let disk = applied(job, lines.bytes(), disk);
        match plane_over(rt, job.alloc, disk, &[]) {
            Some(plane) => {
                let mut plane = plane;
                evaluated(rt, &mut plane, job, &requests);
                let _disk = plane.into_disk(rt);
            }
            None => job.digest.fail(),
        }
        let mut disk = disk_of(job, &mut pool, round, Contents::of_no_flags(1 << 19));
        for document in &documents {
            disk = offered(job, document.bytes(), disk);
        }
        let _disk = shown(job, disk);
    }
}
