//! A reply as a response.

ghost use Rattle.std.specs.Prelude.{◌≡◌, OnOk, codes, decimal, option_map};
ghost use Rattle.std.specs.Prelude.{IsTrue};
ghost use Rattle.http_header.specs.FieldValue.{is_visible_text};
ghost use Rattle.http_server.specs.Response.{IsBlank, IsResponse, fields_of};
ghost use Rattle.fp_ofrep.specs.Seen.{response_seen};
ghost use Rattle.fp_relay_replies.specs.Answers.{IsSent, and_field, and_reply, told, when};

use crate::cross_origin::add;
use bytes::Bytes;
use fp_ofrep::{Headers, Reply};
use http::header::{self, HeaderName, HeaderValue};
use http_server::Response;
use std::alloc::{AllocError, Global};

/// Fills a response by a reply.
pub fn spell(alloc: Global, reply: Reply, response: &mut Response) -> Result<(), AllocError>
    requires { IsBlank response.old }
    ensures { OnOk result (IsSent (told (response_seen reply)) response.new) }
{
    let Reply {
        status,
        headers,
        body,
    } = reply;
    response.status = status;
    spell_headers(alloc, headers, response)?;
    match Bytes::from_vec(body) {
        Ok(body) => response.body.push(body),
        Err(_) => Err(AllocError),
    }
}

// Adds the fields of a reply.
fn spell_headers(alloc: Global, headers: Headers, response: &mut Response) -> Result<(), AllocError>
    ensures { OnOk result (IsResponse response.old.status (and_reply (fields_of response.old)
        headers.allow_post headers.is_json headers.flag_revision
        (option_map (λ v. v.items) headers.etag)) response.old.body.items response.new) }
{
    add_where(headers.allow_post, header::ALLOW, "POST", response)?;
    add_where(
        headers.is_json,
        header::CONTENT_TYPE,
        "application/json",
        response,
    )?;
    add_revision(alloc, headers.flag_revision, response)?;
    add_tag(headers.etag, response)
}

// Adds a field where it is to be there.
fn add_where(
    is_there: bool,
    name: HeaderName,
    value: &'static str,
    response: &mut Response,
) -> Result<(), AllocError>
    requires { IsTrue (is_visible_text value.now) }
    ensures { OnOk result (IsResponse response.old.status (and_field (fields_of response.old)
        name (when is_there value.now)) response.old.body.items response.new) }
{
    if is_there {
        return add(response, name, value);
    }
    Ok(())
}

// The one name that no standard has.
fn revision_name() -> HeaderName
    ensures { result ≡ codes "flag-revision" }
{
    HeaderName::from_static("flag-revision")
}

// Adds the revision of the flags.
fn add_revision(
    alloc: Global,
    revision: Option<u64>,
    response: &mut Response,
) -> Result<(), AllocError>
    ensures { OnOk result (IsResponse response.old.status (and_field (fields_of response.old)
        (codes "flag-revision") (option_map decimal revision)) response.old.body.items
        response.new) }
{
    match revision {
        Some(revision) => {
            let value = HeaderValue::from_u64(alloc, revision)?;
            response.add_header(revision_name(), value)
        }
        None => Ok(()),
    }
}

// Adds the tag of the body.
fn add_tag(tag: Option<Vec<u8>>, response: &mut Response) -> Result<(), AllocError>
    ensures { OnOk result (IsResponse response.old.status (and_field (fields_of response.old)
        (codes "etag") (option_map (λ v. v.items) tag)) response.old.body.items response.new) }
{
    match tag {
        Some(tag) => match HeaderValue::from_vec(tag) {
            Ok(value) => response.add_header(header::ETAG, value),
            Err(_) => Err(AllocError),
        },
        None => Ok(()),
    }
}
