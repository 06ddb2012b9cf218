//! What a request asks, kept until its body is there.

ghost use Rattle.std.specs.Prelude.{IfOk};
ghost use Rattle.http.specs.Request.{head_of};
ghost use Rattle.fp_http.specs.Asking.{IsAsked};

use fp_ofrep::field_list;
use http::{Method, Request, header};
use std::alloc::{AllocError, Global};

/// The head of a request, as far as a reply depends on it.
#[derive(Drop)]
pub struct Asked {
    pub method: Method,
    /// Path and query, as they came.
    pub target: String,
    /// All fields of this name, as one list.
    pub if_none_match: Option<Vec<u8>>,
}

impl Asked {
    /// Takes what a reply depends on.
    pub fn of<B>(alloc: Global, request: &Request<B>) -> Result<Asked, AllocError>
        ensures { IfOk result (IsAsked (head_of request.now)) }
    {
        let method = request.method().clone()?;
        let target = match request.uri().path_and_query() {
            Some(target) => String::from_str(alloc, target.as_str())?,
            None => String::new(alloc),
        };
        let if_none_match = field_list(alloc, request.headers().get_all(header::IF_NONE_MATCH))?;
        Ok(Asked {
            method,
            target,
            if_none_match,
        })
    }
}
