//! A world over a disk: edits, snapshots and replies.

ghost use Rattle.std.specs.Prelude.{◌≤◌, length};
ghost use Rattle.fp_publish.specs.declared.seats.TheConstants.{MOST_SEATS};

use crate::digest::Digest;
use crate::disk::PlainDisk;
use crate::job::Job;
use fp_edit::Edit;
use fp_ofrep::Reply;
use fp_publish::Handed;
use fp_slots::Step;
use fp_stream::Hello;
use fp_world::{Answer, Event, Moment, Request, World, recover};
use http::Method;
use std::alloc::Global;
use std::sync::Wait;

/// A world over a disk that claims nothing.
pub type Plane = World<PlainDisk>;

// Seconds since 1970.
const MOMENT: u64 = 1_800_000_000;

/// A world over what a disk holds, with one evaluator.
pub fn plane_over<R: Wait>(rt: &R, alloc: Global, disk: PlainDisk, seats: &[Hello]) -> Option<Plane>
    requires { length seats.now ≤ MOST_SEATS }
{
    let Ok((store, opening)) = recover(alloc, disk) else {
        return None;
    };
    match World::new(rt, alloc, store, opening, seats, 1) {
        Ok(plane) => Some(plane),
        Err((_, store, _)) => {
            let _disk = store.into_disk();
            None
        }
    }
}

fn step<R: Wait>(rt: &R, plane: &mut Plane, event: Event, digest: &mut Digest) {
    match plane.step(rt, &event) {
        Answer::Done => digest.number(1),
        Answer::Drawn(count) => digest.number(count as u64),
        Answer::Ticket(number)
        | Answer::Sealed(number)
        | Answer::Settled(number)
        | Answer::Published(number) => digest.number(number),
        _ => digest.fail(),
    }
}

/// An edit, from where it is handed in to where it is published.
pub fn publish<R: Wait>(rt: &R, plane: &mut Plane, edit: Edit, digest: &mut Digest) {
    step(rt, plane, Event::Submit(edit), digest);
    step(rt, plane, Event::Draw, digest);
    step(rt, plane, Event::Stage, digest);
    step(rt, plane, Event::SyncBody, digest);
    step(rt, plane, Event::OpenGate, digest);
    step(rt, plane, Event::SyncGate, digest);
    step(rt, plane, Event::Settle, digest);
    step(rt, plane, Event::Publish, digest);
}

/// A compaction, from its first step to its last.
pub fn compact<R: Wait>(rt: &R, plane: &mut Plane, digest: &mut Digest) {
    for _ in 0..4_096 {
        match plane.step(rt, &Event::Compact) {
            Answer::Phase(Step::Begin) => return,
            Answer::Phase(_) => digest.number(1),
            _ => break,
        }
    }
    digest.fail();
}

/// What the subscriber of this seat is handed.
pub fn hand<R: Wait>(rt: &R, plane: &mut Plane, seat: usize) -> Option<Handed> {
    match plane.step(rt, &Event::Hand(seat)) {
        Answer::Handed(handed) => Some(handed),
        _ => None,
    }
}

// A POST of this body to this target.
fn post(alloc: Global, target: &[u8], tag: Option<Vec<u8>>, body: &[u8]) -> Option<Event> {
    let moment = Moment::at(MOMENT)?;
    let Ok(target) = String::from_utf8_lossy(alloc, target) else {
        return None;
    };
    let Ok(body) = Vec::from_slice(alloc, body) else {
        return None;
    };
    let request = Request {
        method: Method::POST,
        target,
        if_none_match: tag,
        body: Some(body),
    };
    Some(Event::Evaluate(0, request, moment))
}

// What a request is answered.
fn reply_to<R: Wait>(rt: &R, plane: &mut Plane, asked: &Event) -> Option<Reply> {
    match plane.step(rt, asked) {
        Answer::Reply(_, reply) => Some(reply),
        _ => None,
    }
}

/// Posts this body to this target, and gives the tag of the reply.
pub fn ask<R: Wait>(
    rt: &R,
    plane: &mut Plane,
    job: &mut Job,
    target: &[u8],
    tag: Option<Vec<u8>>,
    body: &[u8],
) -> Option<Vec<u8>> {
    let Some(asked) = post(job.alloc, target, tag, body) else {
        job.digest.fail();
        return None;
    };
    let Some(reply) = reply_to(rt, plane, &asked) else {
        job.digest.fail();
        return None;
    };
    job.digest.number(u64::from(reply.status.as_u16()));
    job.digest.bytes(&reply.body);
    let tag = reply.headers.etag;
    if let Some(tag) = &tag {
        job.digest.bytes(tag);
    }
    tag
}
