//! Replies.

ghost use Rattle.std.specs.Prelude.{◌≡◌, IfOk};
ghost use Rattle.std.specs.Option.{option_copied};
ghost use Rattle.fp_ofrep.specs.Response.{failure_response};
ghost use Rattle.fp_ofrep.specs.Seen.{response_seen};

use crate::failure::Failure;
use crate::write::put_failure;
use http::StatusCode;
use std::alloc::{AllocError, Global};

// The body of a reply for one flag is begun with this room.
pub(crate) const USUAL_ROOM: usize = 128;

/// The headers of a reply.
#[derive(Drop)]
pub struct Headers {
    /// Whether there is `allow: POST`.
    pub allow_post: bool,
    /// Whether there is `content-type: application/json`.
    pub is_json: bool,
    /// The number in `flag-revision`.
    pub flag_revision: Option<u64>,
    /// The text of `etag`.
    pub etag: Option<Vec<u8>>,
}

/// A reply.
#[derive(Drop)]
pub struct Reply {
    pub status: StatusCode,
    pub headers: Headers,
    pub body: Vec<u8>,
}

/// The reply that tells a failure.
pub(crate) fn failed(
    alloc: Global,
    failure: Failure,
    key: Option<&str>,
) -> Result<Reply, AllocError>
    ensures { IfOk result
        (λ r. response_seen r ≡ failure_response failure (option_copied key.entry)) }
{
    let mut body = Vec::with_capacity(alloc, USUAL_ROOM)?;
    put_failure(&mut body, failure, key)?;
    Ok(Reply {
        status: failure.status(),
        headers: Headers {
            allow_post: false,
            is_json: true,
            flag_revision: None,
            etag: None,
        },
        body,
    })
}
