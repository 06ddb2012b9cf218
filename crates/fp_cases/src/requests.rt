//! Cases of evaluation requests.

use fp_edit::FlagSet;
use fp_ofrep::{Body, Reply, answer_over};
use fp_transcript::Text;
use http::Method;
use http::method::MethodError;
use std::alloc::{AllocError, Global};

/// What requests have in common until it is changed: the method and `If-None-Match`.
#[derive(Drop)]
pub struct Asking {
    method: Vec<u8>,
    if_none_match: Option<Vec<u8>>,
}

impl Asking {
    /// `POST`, without `If-None-Match`.
    pub fn new(alloc: Global) -> Result<Asking, AllocError> {
        Ok(Asking {
            method: Vec::from_slice(alloc, b"POST")?,
            if_none_match: None,
        })
    }

    pub fn set_method(&mut self, method: Vec<u8>) {
        self.method = method;
    }

    /// No bytes stand for no header.
    pub fn set_if_none_match(&mut self, field: Vec<u8>) {
        self.if_none_match = if field.is_empty() { None } else { Some(field) };
    }

    fn method(&self, out: &mut Text) -> Option<Method> {
        match Method::from_bytes(out.alloc, &self.method) {
            Ok(method) => Some(method),
            Err(MethodError::Invalid) => {
                out.push("no method");
                None
            }
            Err(MethodError::OutOfMemory) => {
                out.is_short = true;
                None
            }
        }
    }

    /// The reply to a request: its status, a line for each header, and the body if there is one.
    pub fn ask(&self, set: &FlagSet, target: &str, body: Body<'_>, now: u64, out: &mut Text) {
        if now >= 1 << 63 {
            return out.push("no moment");
        }
        let Some(method) = self.method(out) else {
            return;
        };
        let field = self.if_none_match.as_deref();
        let reply = answer_over(out.alloc, set, &method, target, field, body, now);
        if let Some(reply) = out.got(reply) {
            put_reply(&reply, out);
        }
    }
}

fn put_reply(reply: &Reply, out: &mut Text) {
    out.number(u64::from(reply.status.as_u16()));
    if reply.headers.allow_post {
        out.push("\nallow: POST");
    }
    if reply.headers.is_json {
        out.push("\ncontent-type: application/json");
    }
    if let Some(revision) = reply.headers.flag_revision {
        out.named("\nflag-revision:", revision);
    }
    if let Some(tag) = &reply.headers.etag {
        out.push("\netag: ");
        out.utf8(tag);
    }
    if !reply.body.is_empty() {
        out.push("\n");
        out.utf8(&reply.body);
    }
}
