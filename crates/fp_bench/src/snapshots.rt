//! Edits one by one, each published, and handed to subscribers as a document of all flags.

use crate::digest::Digest;
use crate::disk::{Contents, disk_of, left};
use crate::flags::Rules;
use crate::job::Job;
use crate::pool::Pool;
use crate::text::Text;
use crate::world::{Plane, compact, hand, plane_over, publish};
use fp_edit::{Edit, parse_line};
use fp_publish::Handed;
use fp_stream::{Decoder, Hello, MOST_BODY, write_frame};
use fp_streams::{FailureCounted, WriteGathered};
use std::alloc::Global;
use std::io;
use std::io::{ErrorKind, Write};
use std::sync::Wait;

const SEATS: [Hello; 4] = [Hello::Nothing; 4];

// What a connection takes at once.
const PIECE: usize = 1_460;

// An edit that puts one of so many flags.
fn edit(alloc: Global, text: &mut Text, pool: &mut Pool, flags: u64) -> Option<Edit> {
    text.clear();
    text.number = text.random.below(flags);
    text.push(br#"{"op":"put","key":""#);
    text.key();
    text.push(br#"","flag":"#);
    pool.put(text);
    text.push(b"}");
    parse_line(alloc, text.bytes()).ok()
}

// A subscriber behind a connection.
#[derive(Drop)]
struct Subscriber {
    alloc: Global,
    decoder: Decoder,
    digest: Digest,
}

impl Write for Subscriber {
    fn write(&mut self, buf: &[u8]) -> io::Result<usize> {
        let count = buf.len().min(PIECE);
        let Ok(frames) = self.decoder.feed(self.alloc, &buf[..count]) else {
            return Err(ErrorKind::InvalidData.into());
        };
        for frame in &frames {
            self.digest.number(frame.revision);
            self.digest.bytes(&frame.body);
        }
        Ok(count)
    }

    fn flush(&mut self) -> io::Result<()> {
        Ok(())
    }
}

impl WriteGathered for Subscriber {}

// A connection to a subscriber.
type Connection = FailureCounted<Subscriber>;

fn connected(alloc: Global, hello: Hello) -> Connection {
    FailureCounted::new(Subscriber {
        alloc,
        decoder: Decoder::new(alloc, hello),
        digest: Digest::new(),
    })
}

// Sends what was handed: whether it arrived.
fn sent(handed: &Handed, connection: &mut Connection) -> bool {
    let document = handed.document();
    document.len() <= MOST_BODY && write_frame(connection, handed.revision(), document).is_ok()
}

// Each seat is handed what is published, and one subscriber reads it.
fn hand_to_all<R: Wait>(
    rt: &R,
    plane: &mut Plane,
    job: &mut Job,
    connections: &mut [Connection],
    turn: usize,
) {
    for (seat, connection) in connections.iter_mut().enumerate() {
        let Some(handed) = hand(rt, plane, seat) else {
            job.digest.fail();
            return;
        };
        job.digest.number(handed.revision());
        if seat == turn && !sent(&handed, connection) {
            job.digest.fail();
        }
    }
}

// So many edits, with a compaction behind each 64 of them and at the end.
fn edits<R: Wait>(
    rt: &R,
    plane: &mut Plane,
    job: &mut Job,
    pool: &mut Pool,
    count: u64,
    flags: u64,
) {
    let mut text = job.text(0);
    let mut connections = SEATS.map(|hello| connected(job.alloc, hello));
    for n in 0..count {
        match edit(job.alloc, &mut text, pool, flags) {
            Some(edit) => publish(rt, plane, edit, &mut job.digest),
            None => job.digest.fail(),
        }
        hand_to_all(rt, plane, job, &mut connections, (n % 4) as usize);
        if n % 64 == 63 || n + 1 == count {
            compact(rt, plane, &mut job.digest);
        }
    }
    for connection in connections {
        match connection.into_inner().digest.whole() {
            Some(digest) => job.digest.number(digest),
            None => job.digest.fail(),
        }
    }
}

/// So many edits a round, all over one disk.
pub fn snapshots<R: Wait>(rt: &R, job: &mut Job) {
    let contents = Contents {
        slot: 1 << 21,
        flags: job.count(1_000),
        batches: 0,
    };
    let count = job.rounds.saturating_mul(job.count(64));
    let mut pool = Pool::on_disk(job, Rules::Usual);
    let disk = disk_of(job, &mut pool, 0, contents);
    match plane_over(rt, job.alloc, disk, &SEATS) {
        Some(plane) => {
            let mut plane = plane;
            edits(rt, &mut plane, job, &mut pool, count, contents.flags);
            left(job, plane.into_disk(rt));
        }
        None => job.digest.fail(),
    }
}
