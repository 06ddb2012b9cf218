//! What is kept for who asks again: room for reading, and the tags of replies for all flags.

ghost use Rattle.std.specs.Prelude.{◌≡◌, ◌<◌, ◌^◌, ◌⊎◌, ℕ, IfOk, IfSome};
ghost use Rattle.std.specs.Prelude.{None, OnErr, OnOk, Some, true};
ghost use Rattle.std.specs.FinMap as map;
ghost use Rattle.std.specs.Option.{option_copied};
ghost use Rattle.fp_group_commit.specs.Tokens.{front_set};
ghost use Rattle.fp_ofrep.specs.Kept.{AreTimeless, AsksForAll, HasTag, IsKeptOf, IsPutAt, IsTagOf};
ghost use Rattle.fp_ofrep.specs.Reply.{reply};
ghost use Rattle.fp_ofrep.specs.Seen.{body_seen, response_seen};

use crate::bulk::reply_with_tag;
use crate::reply::Reply;
use crate::request::{Body, answer_with};
use crate::route::{Route, route_of};
use fp_edit::FlagSet;
use fp_publish::{Shown, View};
use http::Method;
use json::Scratch;
use std::alloc::{AllocError, Global};
use std::marker::Model;

/// The most tags that are kept at once: who asks by more contexts in turn is answered as if none were.
pub const MOST_KEPT_TAGS: usize = 32;

/// The most bytes of a request's body whose tag is kept.
pub const LONGEST_KEPT_BODY: usize = 2_048;

// The most bytes of a request's body whose room for reading stays.
const LONGEST_BODY_OF_ROOM: usize = 16_384;

// The tag of the reply to a request with this body. Bodies are compared whole: that two have one
// digest doesn't show that they are the same.
#[derive(Drop)]
struct KeptTag {
    body: Vec<u8>,
    tag: Vec<u8>,
}

// Tags of replies for all flags, of one published set, each with the body that was asked by. None
// is kept of a set with a rule that may read the moment (`Definition::reads_moment`).
#[derive(Drop)]
struct KeptTags {
    shown: Shown,
    is_timeless: bool,
    tags: Vec<KeptTag>,
    // How many were kept so far, up to an overflow: the next one takes the place of the oldest.
    next: usize,
}

impl Model for KeptTags {
    ghost use Rattle.std.specs.Coded.{codes};
    ghost use Rattle.fp_edit.specs.Flags.{coded_state};
    ghost use Rattle.fp_group_commit.specs.Changes.{coded_change};
    ghost use Rattle.fp_group_commit.specs.Tokens.{FrontState};
    ghost use Rattle.fp_ofrep.specs.Kept.{AreKept};

    ghost Value = { FrontState };

    ghost coded = { Prim.hlevel (codes, coded_state, coded_change) };

    ghost view = { λ k. k.shown };

    ghost invariant = { λ k. AreKept k.shown k.is_timeless k.tags.items };
}

impl KeptTags {
    // None yet, of what is lent.
    fn of(alloc: Global, view: &View<'_>) -> KeptTags
        ensures { result ≡ view.now }
    {
        KeptTags {
            shown: view.shown(),
            is_timeless: is_timeless(view.set()),
            tags: Vec::new(alloc),
            next: 0,
        }
    }

    // Whether they are of what is lent.
    fn is_of(&self, view: &View<'_>) -> bool
        requires { self.now.store ≡ view.now.store }
        ensures { result ≡ true → self.now ≡ view.now }
    {
        self.shown.is_same(&view.shown())
    }

    // The tag of the reply to a request with this body, where it is kept.
    fn tag(&self, body: &[u8]) -> Option<&[u8]>
        ensures { IfSome result (λ tag. IsTagOf (front_set self.now) body.now tag.now) }
    {
        for kept in self.tags.iter() {
            if kept.body.as_slice() == body {
                return Some(kept.tag.as_slice());
            }
        }
        None
    }

    // Keeps a tag, in the place of the oldest one where there are as many as may be. A long body's
    // isn't kept.
    fn keep(&mut self, alloc: Global, body: &[u8], tag: &[u8]) -> Result<(), AllocError>
        requires { (now : ℕ) × HasTag (front_set self.old) body.now tag.now now }
        ensures { self.new ≡ self.old }
    {
        if !self.is_timeless || body.len() > LONGEST_KEPT_BODY {
            return Ok(());
        }
        let kept = KeptTag {
            body: body.to_vec(alloc)?,
            tag: tag.to_vec(alloc)?,
        };
        put_at(&mut self.tags, self.next % MOST_KEPT_TAGS, kept)?;
        self.next = self.next.wrapping_add(1);
        Ok(())
    }
}

/// What a connection keeps from request to request: tags of replies for all flags, and the room
/// that bodies are read with, whose 16 KB are then cleared once. It is made for the first request,
/// in a box, so that moving this is cheap.
#[derive(Drop)]
pub struct Kept {
    tags: Option<KeptTags>,
    scratch: Option<Box<Scratch>>,
}

impl Model for Kept {
    ghost use Rattle.std.specs.Prelude.{Option};
    ghost use Rattle.std.specs.Coded.{codes};
    ghost use Rattle.fp_edit.specs.Flags.{coded_state};
    ghost use Rattle.fp_group_commit.specs.Changes.{coded_change};
    ghost use Rattle.fp_group_commit.specs.Tokens.{FrontState};

    ghost Value = { Option FrontState };

    ghost coded = { Prim.hlevel (codes, coded_state, coded_change) };

    ghost view = { λ k. k.tags };
}

impl Kept {
    /// Nothing yet, which takes no memory.
    pub fn new() -> Kept
        ensures { result ≡ None }
    {
        Kept {
            tags: None,
            scratch: None,
        }
    }
}

// The room for reading, made where there is none.
fn room_in(alloc: Global, kept: &mut Option<Box<Scratch>>) -> Result<&mut Scratch, AllocError> {
    if kept.is_none() {
        *kept = Some(Box::new(alloc, Scratch::new(alloc))?);
    }
    match kept {
        Some(scratch) => Ok(scratch),
        None => Err(AllocError),
    }
}

// Gives the room back behind a long body, by which it grew.
fn give_back(kept: &mut Option<Box<Scratch>>, body: Body<'_>) {
    if let Body::Whole(bytes) = body
        && bytes.len() > LONGEST_BODY_OF_ROOM
    {
        *kept = None;
    }
}

// Puts a tag into a place, or behind all where there are no more than places in front of it.
fn put_at(tags: &mut Vec<KeptTag>, place: usize, kept: KeptTag) -> Result<(), AllocError>
    ensures put { OnOk result (IsPutAt tags.old.items place kept tags.new.items) }
    ensures unchanged { OnErr result (tags.new.items ≡ tags.old.items) }
{
    if place < tags.len() {
        tags[place] = kept;
    } else {
        tags.push(kept)?;
    }
    Ok(())
}

// No rule of these flags may read the moment.
#[tactic(auto, using(crate::proofs::TagLemmas::timeless_more))]
fn is_timeless(set: &FlagSet) -> bool
    ensures { result ≡ true → AreTimeless (map.entries set.now.flags) }
{
    for (_, flag) in set.iter() {
        if flag.definition.reads_moment() {
            return false;
        }
    }
    true
}

// The body of a request for all flags, where its tag may be kept.
fn bulk_body<'b>(method: &Method, target: &str, body: Body<'b>) -> Option<&'b [u8]>
    ensures { IfSome result (λ b. AsksForAll method.now target.now (body_seen body.entry) b.now) }
{
    let Body::Whole(bytes) = body else {
        return None;
    };
    if bytes.len() > LONGEST_KEPT_BODY || method.as_str() != "POST" {
        return None;
    }
    match route_of(target.as_bytes()) {
        Some(Route::Bulk) => Some(bytes),
        _ => None,
    }
}

// The tag of the reply over what is lent to a request with this body, where it is kept.
fn known_tag<'k>(kept: &'k Option<KeptTags>, view: &View<'_>, body: &[u8]) -> Option<&'k [u8]>
    requires { IsKeptOf kept.now view.now.store }
    ensures { IfSome result (λ tag. IsTagOf (front_set view.now) body.now tag.now) }
{
    let Some(tags) = kept else {
        return None;
    };
    if !tags.is_of(view) {
        return None;
    }
    tags.tag(body)
}

// What is kept, where it is of what is lent, or nothing yet.
fn tags_of(alloc: Global, kept: Option<KeptTags>, view: &View<'_>) -> KeptTags
    requires { IsKeptOf kept view.now.store }
    ensures { result ≡ view.now }
{
    let Some(tags) = kept else {
        return KeptTags::of(alloc, view);
    };
    if tags.is_of(view) {
        return tags;
    }
    KeptTags::of(alloc, view)
}

// Keeps the tag of a reply, where there is memory for it.
fn note(alloc: Global, kept: &mut Option<KeptTags>, view: &View<'_>, body: &[u8], tag: &[u8])
    requires store { IsKeptOf kept.old view.now.store }
    requires tag { (now : ℕ) × HasTag (front_set view.now) body.now tag.now now }
    ensures { kept.new ≡ Some view.now }
{
    let mut tags = tags_of(alloc, kept.take(), view);
    let _ = tags.keep(alloc, body, tag);
    *kept = Some(tags);
}

/// As `answer`, for less work: the room that a body is read with is kept, and where all flags are
/// asked for again by the same body, a reply whose tag is kept isn't hashed, and isn't made where
/// the client has it. Tags of the last `MOST_KEPT_TAGS` bodies of at most `LONGEST_KEPT_BODY` bytes
/// are kept, where there is memory for them, and forgotten where another set is lent. The room is
/// given back behind a body of more than 16 KB.
pub fn answer_keeping(
    alloc: Global,
    view: &View<'_>,
    method: &Method,
    target: &str,
    if_none_match: Option<&[u8]>,
    body: Body<'_>,
    now: u64,
    kept: &mut Kept,
) -> Result<Reply, AllocError>
    // The moment is below 2^63.
    requires moment { now < 2 ^ 63 }
    // What is kept, if anything, is of the view's store.
    requires store { IsKeptOf kept.old view.now.store }
    // `Ok`: the very reply of `answer`, whatever is kept.
    ensures said { IfOk result (λ r. response_seen r
        ≡ reply (front_set view.now) method.now target.now (option_copied if_none_match.entry)
        (body_seen body.entry) now) }
    // What is kept stays of that store.
    ensures store { IsKeptOf kept.new view.now.store }
    // It is as it was, or of what is lent.
    ensures kept { (kept.new ≡ kept.old) ⊎ (kept.new ≡ Some view.now) }
{
    let set = view.set();
    let room = room_in(alloc, &mut kept.scratch)?;
    let Some(asked) = bulk_body(method, target, body) else {
        let reply = answer_with(alloc, set, method, target, if_none_match, body, now, room);
        give_back(&mut kept.scratch, body);
        return reply;
    };
    if let Some(tag) = known_tag(&kept.tags, view, asked) {
        return reply_with_tag(alloc, set, if_none_match, asked, now, tag, room);
    }
    let reply = answer_with(alloc, set, method, target, if_none_match, body, now, room)?;
    if let Some(tag) = &reply.headers.etag {
        note(alloc, &mut kept.tags, view, asked, tag);
    }
    Ok(reply)
}
