//! The reply for one flag.

ghost use Rattle.std.specs.Prelude.{◌≡◌, ◌<◌, ◌^◌, ℕ, List, true, None, Err, IfOk, IsSome, codes};
ghost use Rattle.serde_json.specs.Written.{compact_text};
ghost use Rattle.fp_definition.specs.Key.{key_bytes};
ghost use Rattle.fp_ofrep.specs.Bodies.{success};
ghost use Rattle.fp_ofrep.specs.Response.{success_response};
ghost use Rattle.serde_json.specs.Find.{as_object, get};
ghost use Rattle.std.specs.Str.Lossy.{utf8_lossy};
ghost use Rattle.fp_edit.specs.Flags.{State};
ghost use Rattle.fp_base.specs.Ordered.{IsOrdered};
ghost use Rattle.fp_base.specs.TreeView.{tree_view};
ghost use Rattle.fp_base.specs.Whole.{is_whole};
ghost use Rattle.fp_ofrep.specs.Context.{context_of};
ghost use Rattle.fp_ofrep.specs.Seen.{response_seen};
ghost use Rattle.fp_ofrep.specs.Single.{after_body, reply_for_invalid_utf8, reply_for_decoded_key};
ghost use Rattle.fp_ofrep.specs.Single.{evaluation_at, evaluation_of};
ghost use Rattle.fp_ofrep.specs.Single.{flag_at, reply_with_key, response_of, single_reply};
ghost use Rattle.fp_definition.specs.Resolving.{Said, data_of, spelled_by, spelling};

use crate::context::read_context;
use crate::failure::Failure;
use crate::reply::{Headers, Reply, USUAL_ROOM, failed};
use crate::write::put_success;
use bumpalo::Bump;
use fp_base::Tree;
use fp_definition::{Definition, EvalFault, FlagKey, KeyFault, Resolved};
use fp_edit::{Flag, FlagSet};
use http::StatusCode;
use json::Scratch;
use percent_encoding::percent_decode;
use std::alloc::{AllocError, Global};

/// The evaluation of the flag whose key a segment of the path encodes.
pub(crate) fn evaluate_single(
    alloc: Global,
    set: &FlagSet,
    segment: &[u8],
    body: &[u8],
    now: u64,
    scratch: &mut Scratch,
) -> Result<Reply, AllocError>
    requires { now < 2 ^ 63 }
    ensures { IfOk result (λ r. response_seen r ≡ single_reply set.now segment.now body.now now) }
{
    let key = percent_decode(segment).into_cow(alloc)?;
    decoded_reply(alloc, set, &key, body, now, scratch)
}

fn decoded_reply(
    alloc: Global,
    set: &FlagSet,
    key: &[u8],
    body: &[u8],
    now: u64,
    scratch: &mut Scratch,
) -> Result<Reply, AllocError>
    requires { now < 2 ^ 63 }
    ensures { IfOk result
        (λ r. response_seen r ≡ reply_for_decoded_key set.now key.now body.now now) }
{
    match str::from_utf8(key) {
        Ok(text) => evaluate_key(alloc, set, text, body, now, scratch),
        Err(_) => broken_reply(alloc, key, body, scratch),
    }
}

// The reply at a key that isn't UTF-8.
fn broken_reply(
    alloc: Global,
    key: &[u8],
    body: &[u8],
    scratch: &mut Scratch,
) -> Result<Reply, AllocError>
    ensures { IfOk result (λ r. (set : State) (now : ℕ)
        → response_seen r ≡ reply_for_invalid_utf8 set (utf8_lossy key.now) body.now now) }
{
    let shown = String::from_utf8_lossy(alloc, key)?;
    let failure = body_failure(alloc, body, scratch)?;
    failed(alloc, failure, Some(shown.as_str()))
}

// What stands against a request for a flag that isn't there.
fn body_failure(alloc: Global, body: &[u8], scratch: &mut Scratch) -> Result<Failure, AllocError>
    ensures { IfOk result (λ f. (shown : List ℕ) (now : ℕ)
        → after_body shown None (context_of body.now) now ≡ Err f) }
{
    let arena = Bump::new(alloc);
    match read_context(alloc, &arena, body, scratch)? {
        Ok(_) => Ok(Failure::NotFound),
        Err(failure) => Ok(failure),
    }
}

/// The evaluation of the flag of a key.
pub(crate) fn evaluate_key(
    alloc: Global,
    set: &FlagSet,
    text: &str,
    body: &[u8],
    now: u64,
    scratch: &mut Scratch,
) -> Result<Reply, AllocError>
    requires { now < 2 ^ 63 }
    ensures { IfOk result (λ r. response_seen r ≡ reply_with_key set.now text.now body.now now) }
{
    let arena = Bump::new(alloc);
    match read_context(alloc, &arena, body, scratch)? {
        Ok(context) => found_reply(alloc, set, text, &context, now),
        Err(failure) => failed(alloc, failure, Some(text)),
    }
}

fn found_reply(
    alloc: Global,
    set: &FlagSet,
    text: &str,
    context: &Tree<'_>,
    now: u64,
) -> Result<Reply, AllocError>
    requires object { IsSome (as_object (tree_view context.now)) }
    requires whole { is_whole (tree_view context.now) ≡ true }
    requires ordered { IsOrdered (tree_view context.now) }
    requires moment { now < 2 ^ 63 }
    ensures { IfOk result (λ r. response_seen r ≡ response_of set.now.revision text.now
        (evaluation_at text.now (flag_at set.now.flags text.now) (tree_view context.now) now)) }
{
    match FlagKey::new(alloc, text) {
        Ok(key) => match set.get(&key) {
            Some(flag) => resolved_reply(
                alloc,
                set.revision(),
                &key,
                &flag.definition,
                context,
                now,
            ),
            None => failed(alloc, Failure::NotFound, Some(text)),
        },
        Err(KeyFault::BadKey) => failed(alloc, Failure::NotFound, Some(text)),
        Err(KeyFault::Memory) => Err(AllocError),
    }
}

fn resolved_reply(
    alloc: Global,
    revision: u64,
    key: &FlagKey,
    definition: &Definition,
    context: &Tree<'_>,
    now: u64,
) -> Result<Reply, AllocError>
    requires object { IsSome (as_object (tree_view context.now)) }
    requires whole { is_whole (tree_view context.now) ≡ true }
    requires ordered { IsOrdered (tree_view context.now) }
    requires moment { now < 2 ^ 63 }
    ensures { IfOk result (λ r. response_seen r ≡ response_of revision (key_bytes key.now)
        (evaluation_of (key_bytes key.now) (data_of definition.now) (tree_view context.now) now)) }
{
    match definition.resolve_tree(alloc, key, context, now)? {
        Ok(said) => said_reply(alloc, revision, key, definition, &said),
        Err(EvalFault::Disabled) => failed(alloc, Failure::FlagDisabled, Some(key.as_str())),
        Err(EvalFault::NoVariant) => failed(alloc, Failure::NamesNoVariant, Some(key.as_str())),
        Err(EvalFault::Memory) => Err(AllocError),
    }
}

fn said_reply(
    alloc: Global,
    revision: u64,
    key: &FlagKey,
    definition: &Definition,
    said: &Resolved<'_>,
) -> Result<Reply, AllocError>
    ensures { IfOk result (λ r. (s : Said) → spelled_by said.now ≡ spelling s
        → response_seen r ≡ success_response revision None (compact_text
        (success (key_bytes key.now) (get (codes "metadata") (data_of definition.now)) s))) }
{
    let mut body = Vec::with_capacity(alloc, USUAL_ROOM)?;
    put_success(&mut body, key.as_str(), definition.metadata(), said)?;
    Ok(Reply {
        status: StatusCode::OK,
        headers: Headers {
            allow_post: false,
            is_json: true,
            flag_revision: Some(revision),
            etag: None,
        },
        body,
    })
}
