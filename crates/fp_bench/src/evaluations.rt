//! Clients that ask for all flags, poll, and ask for flags one by one, each time with a context of
//! its own.

use crate::disk::{Contents, disk_of};
use crate::flags::Rules;
use crate::job::Job;
use crate::pool::{Pool, Sample};
use crate::text::{Spelling, Text};
use crate::world::{Plane, ask, plane_over};
use std::sync::Wait;

/// Where all flags are asked for.
pub const ALL: &[u8] = b"/ofrep/v1/evaluate/flags";

// What is asked for, and the contexts for it.
#[derive(Drop)]
struct Asking {
    target: Text,
    body: Text,
    contexts: Pool,
}

impl Asking {
    // Another context.
    fn turn(&mut self) {
        self.body.clear();
        self.contexts.put(&mut self.body);
    }

    // All flags, and a poll with the tag that came.
    fn all<R: Wait>(&mut self, rt: &R, plane: &mut Plane, job: &mut Job) {
        self.turn();
        let tag = ask(rt, plane, job, ALL, None, self.body.bytes());
        if tag.is_none() {
            job.digest.fail();
        }
        let _tag = ask(rt, plane, job, ALL, tag, self.body.bytes());
    }

    // One flag.
    fn one<R: Wait>(&mut self, rt: &R, plane: &mut Plane, job: &mut Job, number: u64) {
        self.turn();
        self.target.clear();
        self.target.number = number;
        self.target.push(ALL);
        self.target.push(b"/");
        self.target.key();
        let target = self.target.bytes();
        let _tag = ask(rt, plane, job, target, None, self.body.bytes());
    }

    // The clients of a round, each of which asks for all flags and for each.
    fn clients<R: Wait>(
        &mut self,
        rt: &R,
        plane: &mut Plane,
        job: &mut Job,
        round: u64,
        flags: u64,
    ) {
        self.target.mark = job.mark(round);
        for _ in 0..job.count(16) {
            self.all(rt, plane, job);
            for number in 0..flags {
                self.one(rt, plane, job, number);
            }
        }
    }
}

/// A set of flags and its clients a round.
pub fn evaluations<R: Wait>(rt: &R, job: &mut Job) {
    let mut pool = Pool::on_disk(job, Rules::Long);
    let spellings = [Spelling::OneLine, Spelling::Canonical];
    let mut asking = Asking {
        target: job.text(0),
        body: job.text(0),
        contexts: Pool::new(job, Sample::Context, spellings),
    };
    for round in 0..job.rounds {
        let contents = Contents {
            slot: 1 << 20,
            flags: job.count(60),
            batches: 0,
        };
        let disk = disk_of(job, &mut pool, round, contents);
        match plane_over(rt, job.alloc, disk, &[]) {
            Some(plane) => {
                let mut plane = plane;
                asking.clients(rt, &mut plane, job, round, contents.flags);
                let _disk = plane.into_disk(rt);
            }
            None => job.digest.fail(),
        }
    }
}
