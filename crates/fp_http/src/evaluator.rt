//! Who gives the replies.

ghost use Rattle.std.specs.Prelude.{◌<◌, ◌^◌, ℕ, List, Option, IfOk};
ghost use Rattle.std.specs.Option.{option_copied};
ghost use Rattle.fp_ofrep.specs.Response.{Response};
ghost use Rattle.fp_ofrep.specs.Seen.{body_seen, response_seen};

use crate::fault::NoReply;
use fp_ofrep::{Body, Reply};
use http::Method;
use std::alloc::Global;

/// Gives the replies of one connection, a request after another.
pub trait Evaluator: Drop {
    /// Which responses it may give to a method, a target, the text of `if-none-match`, a body that
    /// isn't too long, and a moment.
    ghost replies: { List ℕ → List ℕ → Option (List ℕ) → Option (List ℕ) → ℕ → Response → Type 0 };

    /// The reply to a request, at a moment in seconds since 1970: one of those that `replies` says
    /// it may give to this method, target, `if-none-match`, body and moment.
    fn answer(
        &mut self,
        alloc: Global,
        method: &Method,
        target: &str,
        if_none_match: Option<&[u8]>,
        body: Body<'_>,
        now: u64,
    ) -> Result<Reply, NoReply>
        // The moment is below 2^63.
        requires { now < 2 ^ 63 }
        ensures { IfOk result (λ r. replies method.now target.now
            (option_copied if_none_match.entry) (body_seen body.entry) now (response_seen r)) };
}
