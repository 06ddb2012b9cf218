//! The reply to a request.

ghost use Rattle.std.specs.Prelude.{◌≡◌, ◌<◌, ◌^◌, IfOk, option_map};
ghost use Rattle.std.specs.Option.{option_copied};
ghost use Rattle.fp_group_commit.specs.Tokens.{front_set};
ghost use Rattle.fp_ofrep.specs.Reply.{reply_to_evaluation, reply_to_post, reply};
ghost use Rattle.fp_ofrep.specs.Reply.{reply_for, reply_to_route};
ghost use Rattle.fp_ofrep.specs.Response.{empty as empty_response, not_allowed};
ghost use Rattle.fp_ofrep.specs.Seen.{body_seen, route_seen, response_seen};

use crate::bulk::evaluate_bulk;
use crate::reply::{Headers, Reply};
use crate::route::{Route, route_of};
use crate::single::{evaluate_key, evaluate_single};
use fp_edit::FlagSet;
use fp_publish::View;
use http::{Method, StatusCode};
use json::Scratch;
use std::alloc::{AllocError, Global};

/// The most bytes that a request's body has.
pub const LONGEST_BODY: usize = 65_536;

/// A request's body.
#[derive(Clone, Copy, Drop)]
pub enum Body<'b> {
    Whole(&'b [u8]),
    /// It was found to be too long, and is not kept.
    TooLong,
}

/// The reply to a request over what is published, at a moment in seconds since 1970. At `Err`
/// memory was refused, and nothing happened. The room that the body is read with is made anew.
pub fn answer(
    alloc: Global,
    view: &View<'_>,
    method: &Method,
    target: &str,
    if_none_match: Option<&[u8]>,
    body: Body<'_>,
    now: u64,
) -> Result<Reply, AllocError>
    // The moment is below 2^63.
    requires { now < 2 ^ 63 }
    // `Ok`: status, headers and body are the function `reply` of the view's set and revision, the
    // request and the moment.
    ensures { IfOk result (λ r. response_seen r
        ≡ reply (front_set view.now) method.now target.now (option_copied if_none_match.entry)
        (body_seen body.entry) now) }
{
    answer_over(alloc, view.set(), method, target, if_none_match, body, now)
}

/// As `answer`, for one flag by its key itself, which is no segment of a path. There is no method
/// either.
pub fn answer_for(
    alloc: Global,
    view: &View<'_>,
    key: &str,
    body: Body<'_>,
    now: u64,
) -> Result<Reply, AllocError>
    // The moment is below 2^63.
    requires { now < 2 ^ 63 }
    // `Ok`: status, headers and body are the function `reply_for` of the view's set and revision,
    // the key, the body and the moment.
    ensures { IfOk result (λ r. response_seen r
        ≡ reply_for (front_set view.now) key.now (body_seen body.entry) now) }
{
    let mut scratch = Scratch::new(alloc);
    posted(
        alloc,
        view.set(),
        Route::Key(key),
        None,
        body,
        now,
        &mut scratch,
    )
}

/// As `answer`, over any set of flags.
pub fn answer_over(
    alloc: Global,
    set: &FlagSet,
    method: &Method,
    target: &str,
    if_none_match: Option<&[u8]>,
    body: Body<'_>,
    now: u64,
) -> Result<Reply, AllocError>
    // The moment is below 2^63.
    requires { now < 2 ^ 63 }
    // `Ok`: status, headers and body are the function `reply` of the set and its revision, the
    // request and the moment.
    ensures { IfOk result (λ r. response_seen r
        ≡ reply set.now method.now target.now (option_copied if_none_match.entry)
        (body_seen body.entry) now) }
{
    let mut scratch = Scratch::new(alloc);
    answer_with(
        alloc,
        set,
        method,
        target,
        if_none_match,
        body,
        now,
        &mut scratch,
    )
}

/// The same, with the room that the body is read with.
pub(crate) fn answer_with(
    alloc: Global,
    set: &FlagSet,
    method: &Method,
    target: &str,
    if_none_match: Option<&[u8]>,
    body: Body<'_>,
    now: u64,
    scratch: &mut Scratch,
) -> Result<Reply, AllocError>
    requires { now < 2 ^ 63 }
    ensures { IfOk result (λ r. response_seen r
        ≡ reply set.now method.now target.now (option_copied if_none_match.entry)
        (body_seen body.entry) now) }
{
    let route = route_of(target.as_bytes());
    routed(alloc, set, route, method, if_none_match, body, now, scratch)
}

fn routed(
    alloc: Global,
    set: &FlagSet,
    route: Option<Route<'_>>,
    method: &Method,
    if_none_match: Option<&[u8]>,
    body: Body<'_>,
    now: u64,
    scratch: &mut Scratch,
) -> Result<Reply, AllocError>
    requires { now < 2 ^ 63 }
    ensures { IfOk result (λ r. response_seen r
        ≡ reply_to_route set.now (option_map route_seen route.entry) method.now
        (option_copied if_none_match.entry) (body_seen body.entry) now) }
{
    let Some(route) = route else {
        return Ok(empty(alloc, StatusCode::NOT_FOUND));
    };
    if method.as_str() != "POST" {
        return Ok(only_post(alloc));
    }
    posted(alloc, set, route, if_none_match, body, now, scratch)
}

fn posted(
    alloc: Global,
    set: &FlagSet,
    route: Route<'_>,
    if_none_match: Option<&[u8]>,
    body: Body<'_>,
    now: u64,
    scratch: &mut Scratch,
) -> Result<Reply, AllocError>
    requires { now < 2 ^ 63 }
    ensures { IfOk result (λ r. response_seen r
        ≡ reply_to_post set.now (route_seen route.entry) (option_copied if_none_match.entry)
        (body_seen body.entry) now) }
{
    let Body::Whole(body) = body else {
        return Ok(empty(alloc, StatusCode::PAYLOAD_TOO_LARGE));
    };
    if body.len() > LONGEST_BODY {
        return Ok(empty(alloc, StatusCode::PAYLOAD_TOO_LARGE));
    }
    evaluated(alloc, set, route, if_none_match, body, now, scratch)
}

fn evaluated(
    alloc: Global,
    set: &FlagSet,
    route: Route<'_>,
    if_none_match: Option<&[u8]>,
    body: &[u8],
    now: u64,
    scratch: &mut Scratch,
) -> Result<Reply, AllocError>
    requires { now < 2 ^ 63 }
    ensures { IfOk result (λ r. response_seen r
        ≡ reply_to_evaluation set.now (route_seen route.entry) (option_copied if_none_match.entry)
        body.now now) }
{
    match route {
        Route::Bulk => evaluate_bulk(alloc, set, if_none_match, body, now, scratch),
        Route::Single(segment) => evaluate_single(alloc, set, segment, body, now, scratch),
        Route::Key(text) => evaluate_key(alloc, set, text, body, now, scratch),
    }
}

fn empty(alloc: Global, status: StatusCode) -> Reply
    ensures { response_seen result ≡ empty_response status }
{
    Reply {
        status,
        headers: Headers {
            allow_post: false,
            is_json: false,
            flag_revision: None,
            etag: None,
        },
        body: Vec::new(alloc),
    }
}

fn only_post(alloc: Global) -> Reply
    ensures { response_seen result ≡ not_allowed }
{
    Reply {
        status: StatusCode::METHOD_NOT_ALLOWED,
        headers: Headers {
            allow_post: true,
            is_json: false,
            flag_revision: None,
            etag: None,
        },
        body: Vec::new(alloc),
    }
}
