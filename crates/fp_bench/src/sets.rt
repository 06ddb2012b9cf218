//! Sets of changes, over a disk of some flags that is opened behind them.

use crate::commands::{applied, shown};
use crate::disk::{Contents, disk_of, left};
use crate::flags::Rules;
use crate::job::Job;
use crate::pool::{Pool, Sample};
use crate::text::{Spelling, Text};

// The keys that sets speak of.
const KEYS: u64 = 2_000;

// From one key of a set to the next, so that they stand in no order and none comes twice.
const STEP: u64 = 613;

// The most changes of a set.
const CHANGES: u64 = 64;

// What a set is like.
#[derive(Clone, Copy)]
enum Kind {
    // Changes to as many flags.
    Plain(u64),
    // Its last key is its first one again.
    Repeated,
    // It deletes the flags that one of this many changes put.
    Undone(u64),
}

// A key, as far behind the first one of its set.
fn key(text: &mut Text, first: u64, place: u64) {
    text.number = first.wrapping_add(place.wrapping_mul(STEP)) % KEYS;
    text.push(br#""key": ""#);
    text.key();
    text.push(b"\"");
}

fn put(text: &mut Text, pool: &mut Pool, first: u64, place: u64) {
    text.push(br#"{"flag": "#);
    pool.put(text);
    text.push(b", ");
    key(text, first, place);
    text.push(br#", "op": "put"}"#);
}

fn delete(text: &mut Text, first: u64, place: u64) {
    text.push(b"{");
    key(text, first, place);
    text.push(br#", "op": "delete"}"#);
}

// A line of a set, of which this key is the first one.
fn line(text: &mut Text, pool: &mut Pool, first: u64, kind: Kind) {
    let count = match kind {
        Kind::Plain(count) | Kind::Undone(count) => count,
        Kind::Repeated => CHANGES,
    };
    text.push(br#"{"edits": ["#);
    for place in 0..count {
        if place > 0 {
            text.push(b", ");
        }
        match kind {
            Kind::Plain(_) => put(text, pool, first, place),
            Kind::Repeated => put(text, pool, first, place % (CHANGES - 1)),
            Kind::Undone(_) => delete(text, first, place),
        }
    }
    text.push(br#"], "op": "set"}"#);
    text.push(b"\n");
}

// The lines of a round. Of sixteen sets one has a key twice, one a change too many, two have few
// changes, and two are undone by the set behind them.
fn lines(job: &mut Job, pool: &mut Pool, round: u64) -> Text {
    let mut text = job.text(round);
    let mut undone = None;
    for _ in 0..job.count(128) {
        if let Some((first, count)) = undone.take() {
            line(&mut text, pool, first, Kind::Undone(count));
        }
        let first = text.random.below(KEYS);
        let kind = match text.random.below(16) {
            0 => Kind::Repeated,
            1 => Kind::Plain(CHANGES + 1),
            2 | 3 => Kind::Plain(text.random.from(1, 3)),
            chosen => {
                if chosen < 6 {
                    undone = Some((first, CHANGES));
                }
                Kind::Plain(CHANGES)
            }
        };
        line(&mut text, pool, first, kind);
    }
    if text.is_short() {
        job.digest.fail();
    }
    text
}

/// A disk and its lines a round; then it is opened and shown.
pub fn sets(job: &mut Job) {
    let mut kept = Pool::on_disk(job, Rules::Usual);
    let short = Sample::Definition(Rules::None);
    let mut pool = Pool::new(job, short, [Spelling::OneLine, Spelling::Canonical]);
    for round in 0..job.rounds {
        let contents = Contents {
            slot: 1 << 22,
            flags: job.count(500),
            batches: 0,
        };
        let disk = disk_of(job, &mut kept, round, contents);
        let text = lines(job, &mut pool, round);
        let disk = applied(job, text.bytes(), disk);
        let disk = shown(job, disk);
        left(job, disk);
    }
}
