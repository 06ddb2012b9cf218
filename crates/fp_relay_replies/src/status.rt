//! What an operator reads of a relay: whether it answers, and its numbers.

ghost use Rattle.std.specs.Prelude.{◌≡◌, OnOk};
ghost use Rattle.http.specs.Request.{head_of};
ghost use Rattle.http_server.specs.Response.{IsBlank};
ghost use Rattle.http_uri.specs.Uri.{uri_path};
ghost use Rattle.fp_relay_replies.specs.Answers.{IsSent};
ghost use Rattle.fp_relay_replies.specs.Status.{health_of, is_read, not_read, numbers_of};
ghost use Rattle.fp_relay_replies.specs.Status.{read_only, status_answer};

use crate::cross_origin::add;
use crate::metrics::metrics_text;
use bytes::Bytes;
use http::{Request, StatusCode, header};
use http_server::Response;
use std::alloc::{AllocError, Global};

/// How many requests were answered with each status.
#[derive(Drop, Clone, Copy)]
pub struct Answered {
    /// With 200.
    pub ok: u64,
    /// With 204.
    pub no_content: u64,
    /// With 304.
    pub not_modified: u64,
    /// With 400.
    pub bad_request: u64,
    /// With 404.
    pub not_found: u64,
    /// With 405.
    pub not_allowed: u64,
    /// With 413.
    pub too_long: u64,
    /// With 414.
    pub target_too_long: u64,
    /// With 431.
    pub head_too_long: u64,
    /// With 501.
    pub not_implemented: u64,
    /// With 503.
    pub unavailable: u64,
}

/// The numbers of a relay.
#[derive(Drop, Clone, Copy)]
pub struct Report {
    /// Whether there is a set to answer from.
    pub has_set: bool,
    /// Its revision, or 0.
    pub revision: u64,
    /// How many flags it has.
    pub flags: u64,
    /// Seconds since the last frame that was taken, or since the start.
    pub since_frame: u64,
    /// Seconds since a connection to the source stood, or since the start.
    pub since_source: u64,
    /// The revision of the last frame of the source, taken or not.
    pub source_revision: u64,
    /// Connections that are open.
    pub connections: u64,
    /// Connections that there were.
    pub connections_total: u64,
    /// Connections that were refused.
    pub refused_total: u64,
    /// Requests that were answered.
    pub requests: Answered,
    /// How many of them were evaluated.
    pub evaluations: u64,
    /// Frames that were taken.
    pub frames: u64,
    /// Their bytes.
    pub frame_bytes: u64,
}

/// Fills the response to a request of an operator, from what a relay counted: `/healthz` for a
/// balancer, `/metrics` for Prometheus. `Err`: out of memory.
pub fn answer_status(
    alloc: Global,
    request: &Request<Bytes>,
    report: &Report,
    response: &mut Response,
) -> Result<(), AllocError>
    // Status 200, no field and no body.
    requires { IsBlank response.old }
    // `Ok`: `/healthz` is 200 with a set and else 503; `/metrics` is 200 with each number of the
    // report, its meaning and its kind; to `HEAD` as to `GET`, and 405 with `allow: GET, HEAD` to
    // another method there; 404 anywhere else.
    ensures { OnOk result (IsSent (status_answer report.now (head_of request.now).method
        (uri_path (head_of request.now).uri)) response.new) }
{
    let path = request.uri().path();
    if path == "/healthz" {
        return show_health(request, report, response);
    }
    if path == "/metrics" {
        return show_numbers(alloc, request, report, response);
    }
    response.status = StatusCode::NOT_FOUND;
    Ok(())
}

// Whether requests are answered.
fn show_health(
    request: &Request<Bytes>,
    report: &Report,
    response: &mut Response,
) -> Result<(), AllocError>
    requires { IsBlank response.old }
    ensures { OnOk result (IsSent (read_only (head_of request.now).method (health_of report.now))
        response.new) }
{
    if !is_for_reading(request) {
        return refuse(response);
    }
    if !report.has_set {
        response.status = StatusCode::SERVICE_UNAVAILABLE;
    }
    Ok(())
}

fn show_numbers(
    alloc: Global,
    request: &Request<Bytes>,
    report: &Report,
    response: &mut Response,
) -> Result<(), AllocError>
    requires { IsBlank response.old }
    ensures { OnOk result (IsSent (read_only (head_of request.now).method (numbers_of report.now))
        response.new) }
{
    if !is_for_reading(request) {
        return refuse(response);
    }
    let text = metrics_text(alloc, report)?;
    add(response, header::CONTENT_TYPE, "text/plain; version=0.0.4")?;
    match Bytes::from_vec(text) {
        Ok(text) => response.body.push(text),
        Err(_) => Err(AllocError),
    }
}

// Whether it asks for what is there. Who sends the response leaves out its body to `HEAD`.
fn is_for_reading(request: &Request<Bytes>) -> bool
    ensures { result ≡ is_read (head_of request.now).method }
{
    let method = request.method().as_str();
    method == "GET" || method == "HEAD"
}

// No other method is taken.
fn refuse(response: &mut Response) -> Result<(), AllocError>
    requires { IsBlank response.old }
    ensures { OnOk result (IsSent not_read response.new) }
{
    response.status = StatusCode::METHOD_NOT_ALLOWED;
    add(response, header::ALLOW, "GET, HEAD")
}
