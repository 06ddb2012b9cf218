//! Lines as editors and their scripts write them, over a disk of some flags.

use crate::commands::applied;
use crate::disk::{Contents, disk_of, left};
use crate::flags::Rules;
use crate::job::Job;
use crate::pool::{Pool, Sample};
use crate::text::{Spelling, Text};

// Lines that are no edits.
const FAULTY: [&[u8]; 4] = [
    br#"{"op":"put","key":"half","flag":{"variants":"#,
    br#"{"op":"move","key":"banner"}"#,
    br#"{"flag":{"state":"ON","variants":{"on":true}},"key":"banner","op":"put"}"#,
    br#"{"flag":{"defaultVariant":"on","targeting":{"regex":[1]},"variants":{"on":true}},"key":"k","op":"put"}"#,
];

// The keys that lines speak of.
const KEYS: u64 = 2_000;

// Editors that know which revision changed each flag last; 0 where there is none.
#[derive(Drop)]
struct Editors {
    text: Text,
    changed: Vec<u64>,
    revision: u64,
}

impl Editors {
    // The next edit is made, and leaves a flag at this key or none.
    fn change(&mut self, is_put: bool) {
        self.revision = self.revision.saturating_add(1);
        if let Some(changed) = self.changed.get_mut(self.text.number as usize) {
            *changed = if is_put { self.revision } else { 0 };
        }
    }

    fn current(&self) -> u64 {
        self.changed
            .get(self.text.number as usize)
            .copied()
            .unwrap_or(0)
    }

    // What is expected at the key. One line of eight is a conflict.
    fn expectation(&mut self) {
        let current = self.current();
        let chosen = self.text.random.below(8);
        match chosen {
            0 => self.expect_revision(self.revision.saturating_add(1)),
            1 | 2 => self.text.push(br#", "if": "any""#),
            3..6 if current == 0 => self.text.push(br#", "if": "absent""#),
            3..6 => self.expect_revision(current),
            _ => {}
        }
        if chosen > 0 {
            self.change(true);
        }
    }

    fn expect_revision(&mut self, revision: u64) {
        self.text.push(br#", "if": "#);
        self.text.decimal(revision);
    }

    fn put(&mut self, pool: &mut Pool) {
        if self.text.random.below(2) == 0 {
            self.text.push(br#"{"op": "put", "key": ""#);
            self.text.key();
            self.text.push(b"\"");
            self.expectation();
            self.text.push(br#", "flag": "#);
            pool.put(&mut self.text);
        } else {
            self.text.push(br#"{"flag": "#);
            pool.put(&mut self.text);
            self.expectation();
            self.text.push(br#", "key": ""#);
            self.text.key();
            self.text.push(br#"", "op": "put""#);
        }
        self.text.push(b"}");
    }

    fn delete(&mut self) {
        if self.current() > 0 {
            self.change(false);
        }
        self.text.push(br#"{"op": "delete", "key": ""#);
        self.text.key();
        self.text.push(br#""}"#);
    }

    fn line(&mut self, pool: &mut Pool) {
        self.text.number = self.text.random.below(KEYS);
        match self.text.random.below(100) {
            0..3 => {
                let faulty = self.text.random.pick(&FAULTY);
                self.text.push(faulty);
            }
            3..8 => self.delete(),
            _ => self.put(pool),
        }
        self.text.push(b"\n");
    }
}

// The lines of a round, over a disk of so many flags.
fn lines(job: &mut Job, pool: &mut Pool, round: u64, flags: u64) -> Text {
    let mut editors = Editors {
        text: job.text(round),
        changed: Vec::new(job.alloc),
        revision: flags,
    };
    for n in 0..KEYS {
        let changed = if n < flags { n + 1 } else { 0 };
        if editors.changed.push(changed).is_err() {
            job.digest.fail();
        }
    }
    for _ in 0..job.count(4_000) {
        editors.line(pool);
    }
    if editors.text.is_short() {
        job.digest.fail();
    }
    editors.text
}

/// A disk and its lines a round.
pub fn edits(job: &mut Job) {
    let mut kept = Pool::on_disk(job, Rules::Usual);
    let usual = Sample::Definition(Rules::Usual);
    let mut pool = Pool::new(job, usual, [Spelling::OneLine, Spelling::Canonical]);
    for round in 0..job.rounds {
        let contents = Contents {
            slot: 1 << 22,
            flags: job.count(500),
            batches: 0,
        };
        let disk = disk_of(job, &mut kept, round, contents);
        let text = lines(job, &mut pool, round, contents.flags);
        let disk = applied(job, text.bytes(), disk);
        left(job, disk);
    }
}
