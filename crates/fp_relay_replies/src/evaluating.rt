//! What is answered to a request for evaluations.

ghost use Rattle.std.specs.Prelude.{◌≡◌, ◌<◌, ◌^◌, IfOk, OnOk, is_some};
ghost use Rattle.std.specs.Option.{option_copied};
ghost use Rattle.fp_ofrep.specs.Route.{route_of as route_by};
ghost use Rattle.fp_ofrep.specs.Seen.{response_seen};
ghost use Rattle.fp_relay_replies.specs.Answers.{IsSent, Responds, and_allowed, answer_from_set};
ghost use Rattle.fp_relay_replies.specs.Answers.{answer_without_set, asks_leave, leave, reply_to};
ghost use Rattle.fp_relay_replies.specs.Asking.{asked_by, value_of, target_in};
ghost use Rattle.fp_relay_replies.specs.CrossOrigin.{allowance_seen};
ghost use Rattle.http.specs.Request.{head_of};
ghost use Rattle.http_server.specs.Response.{IsBlank};
ghost use Rattle.std.specs.Prelude.{option_map};

use crate::cross_origin::{Allowance, Origins, add, add_leave, tell_pages};
use crate::spelling::spell;
use bytes::Bytes;
use fp_edit::FlagSet;
use fp_ofrep::{Body, Moment, Reply, answer_over, field_list, route_of};
use fp_shown::Shown;
use http::header::{self, HeaderName};
use http::{Request, StatusCode};
use http_server::Response;
use std::alloc::{AllocError, Global};

/// Fills the response to a request over what is shown, as a service of `http_server` does it. The
/// moment is used up, so that none serves two requests. `Err`: out of memory.
pub fn respond(
    alloc: Global,
    shown: Option<&Shown>,
    origins: &Origins,
    request: &Request<Bytes>,
    moment: Moment,
    response: &mut Response,
) -> Result<(), AllocError>
    // Status 200, no field and no body.
    requires blank { IsBlank response.old }
    // `Ok`: the reply of the protocol over what is shown, its fields in order and no other, behind
    // them what the request's origin is allowed, and last `vary: origin`, exactly where origins are
    // listed and no `*` is, whoever asks; 503 with `retry-after: 1` where nothing is shown yet. 204
    // with what a page may ask, whether or not something is shown, exactly where a page that is
    // allowed to asks `OPTIONS` at a path of the protocol.
    ensures { OnOk result (Responds (option_copied shown.entry) origins.now
        (asked_by request.now) moment response.new) }
{
    let now = moment.seconds();
    let allowance = origins.allowance(first_value(request, header::ORIGIN));
    match shown {
        Some(shown) => {
            let set = shown.set();
            respond_over(alloc, set, origins, request, allowance, now, response)
        }
        None => respond_without_set(alloc, origins, request, allowance, response),
    }
}

// The response over a set.
fn respond_over(
    alloc: Global,
    set: &FlagSet,
    origins: &Origins,
    request: &Request<Bytes>,
    allowance: Option<Allowance<'_>>,
    now: u64,
    response: &mut Response,
) -> Result<(), AllocError>
    requires moment { now < 2 ^ 63 }
    requires blank { IsBlank response.old }
    ensures { OnOk result (IsSent (and_allowed (answer_from_set set.now (asked_by request.now)
        (option_map allowance_seen allowance.entry) now) origins.now
        (option_map allowance_seen allowance.entry)) response.new) }
{
    fill(alloc, set, request, allowance, now, response)?;
    tell_pages(alloc, origins, allowance, response)
}

// The response where there is none.
fn respond_without_set(
    alloc: Global,
    origins: &Origins,
    request: &Request<Bytes>,
    allowance: Option<Allowance<'_>>,
    response: &mut Response,
) -> Result<(), AllocError>
    requires { IsBlank response.old }
    ensures { OnOk result (IsSent (and_allowed (answer_without_set (asked_by request.now)
        (option_map allowance_seen allowance.entry)) origins.now
        (option_map allowance_seen allowance.entry)) response.new) }
{
    fill_without_set(request, allowance, response)?;
    tell_pages(alloc, origins, allowance, response)
}

// There is nothing to answer from, but what a page may ask.
fn fill_without_set(
    request: &Request<Bytes>,
    allowance: Option<Allowance<'_>>,
    response: &mut Response,
) -> Result<(), AllocError>
    requires { IsBlank response.old }
    ensures { OnOk result (IsSent (answer_without_set (asked_by request.now)
        (option_map allowance_seen allowance.entry)) response.new) }
{
    if is_preflight(request, &allowance) {
        return fill_leave(response);
    }
    response.status = StatusCode::SERVICE_UNAVAILABLE;
    add(response, header::RETRY_AFTER, "1")
}

// What a page may ask.
fn fill_leave(response: &mut Response) -> Result<(), AllocError>
    requires { IsBlank response.old }
    ensures { OnOk result (IsSent leave response.new) }
{
    response.status = StatusCode::NO_CONTENT;
    add_leave(response)
}

// Fills a response by the reply, or where a page asks what it may ask by the answer to that.
fn fill(
    alloc: Global,
    set: &FlagSet,
    request: &Request<Bytes>,
    allowance: Option<Allowance<'_>>,
    now: u64,
    response: &mut Response,
) -> Result<(), AllocError>
    requires moment { now < 2 ^ 63 }
    requires blank { IsBlank response.old }
    ensures { OnOk result (IsSent (answer_from_set set.now (asked_by request.now)
        (option_map allowance_seen allowance.entry) now) response.new) }
{
    if is_preflight(request, &allowance) {
        return fill_leave(response);
    }
    let reply = reply_over(alloc, set, request, now)?;
    spell(alloc, reply, response)
}

// Whether a page that is allowed to asks what it may ask at a path of the protocol.
fn is_preflight(request: &Request<Bytes>, allowance: &Option<Allowance<'_>>) -> bool
    ensures { result
        ≡ asks_leave (asked_by request.now) (option_map allowance_seen allowance.now) }
{
    allowance.is_some()
        && request.method().as_str() == "OPTIONS"
        && is_of_protocol(target_of(request))
}

// Whether something of the protocol stands at a target.
fn is_of_protocol(target: &str) -> bool
    ensures { result ≡ is_some (route_by target.now) }
{
    route_of(target.as_bytes()).is_some()
}

// The reply over a set.
fn reply_over(
    alloc: Global,
    set: &FlagSet,
    request: &Request<Bytes>,
    now: u64,
) -> Result<Reply, AllocError>
    requires { now < 2 ^ 63 }
    ensures { IfOk result (λ r. response_seen r ≡ reply_to set.now (asked_by request.now) now) }
{
    let tags = field_list(alloc, request.headers().get_all(header::IF_NONE_MATCH))?;
    let tags = tags.as_ref().map(|tags| tags.as_slice());
    let body = Body::Whole(request.body().as_slice());
    answer_over(
        alloc,
        set,
        request.method(),
        target_of(request),
        tags,
        body,
        now,
    )
}

// The path and the query.
fn target_of(request: &Request<Bytes>) -> &str
    ensures { result.now ≡ target_in (head_of request.now) }
{
    match request.uri().path_and_query() {
        Some(target) => target.as_str(),
        None => "",
    }
}

// The value of the first field of this name.
fn first_value(request: &Request<Bytes>, name: HeaderName) -> Option<&[u8]>
    ensures { option_copied result ≡ value_of (head_of request.now) name }
{
    match request.headers().get(name) {
        Some(value) => Some(value.as_bytes()),
        None => None,
    }
}
