//! A reply as a response of HTTP.

ghost use Rattle.std.specs.Prelude.{◌≡◌, ◌==◌, Some, None, IfOk, OnOk, codes, decimal, length};
ghost use Rattle.std.specs.Prelude.{option_map, string_bytes, if◌then◌else◌};
ghost use Rattle.http.specs.Response.{body_of, head_of};
ghost use Rattle.http_header.specs.FieldValue.{plain_value};
ghost use Rattle.http_header.specs.HeaderMap.{insert};
ghost use Rattle.fp_ofrep.specs.Seen.{response_seen};
ghost use Rattle.fp_http.specs.Responses.{IsHeadOf, and_field, when};

use crate::fault::NoReply;
use bytes::Bytes;
use fp_ofrep::{Headers, Reply};
use http::Response;
use http::header::{self, HeaderMap, HeaderName, HeaderValue};
use http::response::Parts;
use http_body_util::Full;
use std::alloc::Global;

// Sets a field.
fn set(
    alloc: Global,
    fields: &mut HeaderMap<HeaderValue>,
    name: HeaderName,
    value: &[u8],
) -> Result<(), NoReply>
    ensures { OnOk result (fields.new ≡ insert fields.old name (plain_value value.now)) }
{
    let value = HeaderValue::from_bytes(alloc, value).map_err(|_| NoReply::Memory)?;
    match fields.insert(name, value) {
        Ok(_) => Ok(()),
        Err(_) => Err(NoReply::Memory),
    }
}

// Sets the fields that a status may have.
fn set_kind(
    alloc: Global,
    fields: &mut HeaderMap<HeaderValue>,
    headers: &Headers,
) -> Result<(), NoReply>
    ensures { OnOk result (fields.new ≡ and_field (and_field fields.old
        (codes "allow") (when headers.now.allow_post (codes "POST")))
        (codes "content-type") (when headers.now.is_json (codes "application/json"))) }
{
    if headers.allow_post {
        set(alloc, fields, header::ALLOW, b"POST")?;
    }
    if headers.is_json {
        set(alloc, fields, header::CONTENT_TYPE, b"application/json")?;
    }
    Ok(())
}

// The one name that no standard has.
fn revision_name(alloc: Global) -> Result<HeaderName, NoReply>
    ensures { IfOk result (λ name. name ≡ codes "flag-revision") }
{
    HeaderName::from_bytes(alloc, b"flag-revision").map_err(|_| NoReply::Memory)
}

// The number in decimal.
fn text_of(alloc: Global, number: u64) -> Result<String, NoReply>
    ensures { IfOk result (λ text. string_bytes text ≡ decimal number) }
{
    format!(in alloc; "{number}").map_err(|_| NoReply::Memory)
}

// Sets the revision of the flags.
fn set_revision(
    alloc: Global,
    fields: &mut HeaderMap<HeaderValue>,
    revision: Option<u64>,
) -> Result<(), NoReply>
    ensures { OnOk result (fields.new
        ≡ and_field fields.old (codes "flag-revision") (option_map decimal revision)) }
{
    let Some(revision) = revision else {
        return Ok(());
    };
    let text = text_of(alloc, revision)?;
    let name = revision_name(alloc)?;
    set(alloc, fields, name, text.as_bytes())
}

// Sets the tag of the body.
fn set_tag(
    alloc: Global,
    fields: &mut HeaderMap<HeaderValue>,
    tag: &Option<Vec<u8>>,
) -> Result<(), NoReply>
    ensures { OnOk result (fields.new
        ≡ and_field fields.old (codes "etag") (option_map (λ v. v.items) tag.now)) }
{
    match tag {
        Some(tag) => set(alloc, fields, header::ETAG, tag),
        None => Ok(()),
    }
}

/// The response that a reply is sent as.
pub fn response_of(alloc: Global, reply: Reply) -> Result<Response<Full<Bytes>>, NoReply>
    ensures head { IfOk result (λ r. IsHeadOf (response_seen reply) (head_of r)) }
    ensures body { IfOk result (λ r. (body_of r).buf
        ≡ (if length reply.body.items == 0 then None else Some reply.body.items)) }
{
    let Reply {
        status,
        headers,
        body,
    } = reply;
    let body = Bytes::from_vec(body).map_err(|_| NoReply::Memory)?;
    let mut parts = Parts::new(alloc);
    parts.status = status;
    set_kind(alloc, &mut parts.headers, &headers)?;
    set_revision(alloc, &mut parts.headers, headers.flag_revision)?;
    set_tag(alloc, &mut parts.headers, &headers.etag)?;
    Ok(Response::from_parts(parts, Full::new(body)))
}
