//! Documents of flagd, as files that people edit, each imported to a disk of no flags.

use crate::commands::imported;
use crate::disk::{Contents, disk_of, left};
use crate::flags::{EVALUATORS, REFERENCE, condition};
use crate::job::Job;
use crate::pool::{Pool, Sample};
use crate::text::{Spelling, Text};

/// Each but the first three refers to the one that stands three before it.
pub fn evaluators(text: &mut Text) {
    text.tenants = 12;
    for n in 0..EVALUATORS {
        if n > 0 {
            text.say(b",");
        }
        text.number = n;
        text.say(br#""evaluator-%d":{"or":["#);
        if n >= 3 {
            text.number = n - 3;
            text.say(REFERENCE);
            text.say(b",");
        }
        condition(text);
        text.say(b"]}");
    }
}

fn document(job: &mut Job, pool: &mut Pool, round: u64, flags: u64) -> Text {
    let mut text = job.text(round);
    text.spelling = Spelling::Lines;
    text.say(br#"{"$schema":"https://flagd.dev/schema/v0/flags.json","$evaluators":{"#);
    evaluators(&mut text);
    text.say(br#"},"flags":{"#);
    for n in 0..flags {
        if n > 0 {
            text.push(b",\n    ");
        }
        text.number = n;
        text.push(b"\"");
        text.key();
        text.push(b"\": ");
        pool.put(&mut text);
    }
    text.say(b"}}");
    if text.is_short() {
        job.digest.fail();
    }
    text
}

/// A document and a disk a round.
pub fn importing(job: &mut Job) {
    let mut pool = Pool::new(job, Sample::Imported, [Spelling::Lines; 2]);
    for round in 0..job.rounds {
        let disk = disk_of(job, &mut pool, round, Contents::of_no_flags(1 << 21));
        let text = document(job, &mut pool, round, job.count(800));
        let disk = imported(job, text.bytes(), disk);
        left(job, disk);
    }
}
