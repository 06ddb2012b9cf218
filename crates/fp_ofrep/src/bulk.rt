//! The evaluation of all flags.

ghost use Rattle.std.specs.Prelude.{◌≡◌, ◌++◌, ◌∷◌, [], ℕ, ◌<◌, ◌^◌, true, false, Some, IfOk, IsSome, OnOk};
ghost use Rattle.std.specs.FinMap as map;
ghost use Rattle.serde_json.specs.Data.{Data as JsonData, Items};
ghost use Rattle.serde_json.specs.Find.{as_object};
ghost use Rattle.serde_json.specs.Written.{comma_if, compact_text, items_text};
ghost use Rattle.fp_base.specs.Ordered.{IsOrdered};
ghost use Rattle.fp_base.specs.TreeView.{tree_view};
ghost use Rattle.fp_base.specs.Whole.{is_whole};
ghost use Rattle.fp_definition.specs.Key.{key_bytes};
ghost use Rattle.fp_definition.specs.Resolving.{data_of};
ghost use Rattle.fp_targeting.specs.RuleData.{IsOfContext};
ghost use Rattle.fp_ofrep.specs.Bulk.{bulk_data, bulk_reply, flag_items, with_flag_item};
ghost use Rattle.std.specs.Option.{option_copied};
ghost use Rattle.fp_ofrep.specs.Kept.{HasTag};
ghost use Rattle.fp_ofrep.specs.Response.{not_modified, success_response};
ghost use Rattle.fp_ofrep.specs.Seen.{response_seen};
ghost use Rattle.fp_ofrep.specs.Tag.{response_with_tag};
ghost use Rattle.fp_ofrep.specs.Single.{evaluation_of};

use crate::context::read_context;
use crate::failure::Failure;
use crate::reply::{Headers, Reply, failed};
use crate::tag::{entity_tag, is_known};
use crate::write::{put_failure, put_success};
use bumpalo::Bump;
use fp_base::Tree;
use fp_definition::{Definition, EvalFault, FlagKey};
use fp_edit::FlagSet;
use fp_targeting::Data;
use http::StatusCode;
use json::Scratch;
use std::alloc::{AllocError, Global};

// A body is begun with room for so many bytes a flag, which suffices for a short key and value.
const ROOM_FOR_A_FLAG: usize = 72;

const ROOM_ROUND_FLAGS: usize = 16;

/// The evaluation of all flags.
pub(crate) fn evaluate_bulk(
    alloc: Global,
    set: &FlagSet,
    if_none_match: Option<&[u8]>,
    body: &[u8],
    now: u64,
    scratch: &mut Scratch,
) -> Result<Reply, AllocError>
    requires { now < 2 ^ 63 }
    ensures { IfOk result (λ r. response_seen r
        ≡ bulk_reply set.now (option_copied if_none_match.entry) body.now now) }
{
    let arena = Bump::new(alloc);
    match read_context(alloc, &arena, body, scratch)? {
        Ok(context) => {
            let text = bulk_text(alloc, set, &context, now)?;
            tagged_reply(alloc, set.revision(), if_none_match, text)
        }
        Err(failure) => failed(alloc, failure, None),
    }
}

/// The same where the tag of the body for all flags is known. The body isn't made where the client
/// has it.
pub(crate) fn reply_with_tag(
    alloc: Global,
    set: &FlagSet,
    if_none_match: Option<&[u8]>,
    body: &[u8],
    now: u64,
    tag: &[u8],
    scratch: &mut Scratch,
) -> Result<Reply, AllocError>
    requires moment { now < 2 ^ 63 }
    requires tag { HasTag set.now body.now tag.now now }
    ensures { IfOk result (λ r. response_seen r
        ≡ bulk_reply set.now (option_copied if_none_match.entry) body.now now) }
{
    let kept = tag.to_vec(alloc)?;
    if is_known(tag, if_none_match) {
        return Ok(not_modified(alloc, set.revision(), kept));
    }
    let arena = Bump::new(alloc);
    match read_context(alloc, &arena, body, scratch)? {
        Ok(context) => {
            let text = bulk_text(alloc, set, &context, now)?;
            Ok(all_flags(set.revision(), kept, text))
        }
        Err(failure) => failed(alloc, failure, None),
    }
}

// The reply with its tag, or without a body where the client has it.
fn tagged_reply(
    alloc: Global,
    revision: u64,
    if_none_match: Option<&[u8]>,
    body: Vec<u8>,
) -> Result<Reply, AllocError>
    ensures { IfOk result (λ r. response_seen r
        ≡ response_with_tag revision (option_copied if_none_match.entry) body.items) }
{
    let tag = entity_tag(alloc, &body)?;
    if is_known(&tag, if_none_match) {
        return Ok(not_modified(alloc, revision, tag));
    }
    Ok(all_flags(revision, tag, body))
}

// The client has the body of this tag.
fn not_modified(alloc: Global, revision: u64, tag: Vec<u8>) -> Reply
    ensures { response_seen result ≡ not_modified revision tag.items }
{
    Reply {
        status: StatusCode::NOT_MODIFIED,
        headers: Headers {
            allow_post: false,
            is_json: false,
            flag_revision: Some(revision),
            etag: Some(tag),
        },
        body: Vec::new(alloc),
    }
}

// The body for all flags, and its tag.
fn all_flags(revision: u64, tag: Vec<u8>, body: Vec<u8>) -> Reply
    ensures { response_seen result ≡ success_response revision (Some tag.items) body.items }
{
    Reply {
        status: StatusCode::OK,
        headers: Headers {
            allow_post: false,
            is_json: true,
            flag_revision: Some(revision),
            etag: Some(tag),
        },
        body,
    }
}

// The body for all flags.
fn bulk_text(
    alloc: Global,
    set: &FlagSet,
    context: &Tree<'_>,
    now: u64,
) -> Result<Vec<u8>, AllocError>
    requires object { IsSome (as_object (tree_view context.now)) }
    requires whole { is_whole (tree_view context.now) ≡ true }
    requires ordered { IsOrdered (tree_view context.now) }
    requires moment { now < 2 ^ 63 }
    ensures { IfOk result (λ t. t.items
        ≡ compact_text (bulk_data set.now.flags (tree_view context.now) now)) }
{
    let room = ROOM_ROUND_FLAGS + set.len() * ROOM_FOR_A_FLAG;
    let mut out = Vec::with_capacity(alloc, room)?;
    out.extend_from_slice(b"{\"flags\":[")?;
    let mut data = Data::of_tree(alloc, context, "", now)?;
    put_flags(alloc, &mut out, set, &mut data)?;
    out.extend_from_slice(b"]}")?;
    Ok(out)
}

// Puts the flags of the list. The data are made once for all of them.
fn put_flags(
    alloc: Global,
    out: &mut Vec<u8>,
    set: &FlagSet,
    data: &mut Data,
) -> Result<(), AllocError>
    ensures { OnOk result ((context : JsonData) (now : ℕ)
        → IsOfContext context now «data».old → out.new.items ++ 93 ∷ [] ≡ out.old.items
        ++ items_text false (flag_items (map.entries set.now.flags) context now)) }
{
    let mut later = false;
    for (key, flag) in set.iter() {
        later = put_flag(alloc, out, later, key, &flag.definition, data)?;
    }
    Ok(())
}

// Puts a flag of the list, and says whether one stands there now. Whatever flags come after it, they
// are then what is left to put.
fn put_flag(
    alloc: Global,
    out: &mut Vec<u8>,
    later: bool,
    key: &FlagKey,
    definition: &Definition,
    data: &mut Data,
) -> Result<bool, AllocError>
    ensures text { IfOk result (λ after. (context : JsonData) (now : ℕ) (rest : Items)
        → IsOfContext context now «data».old
        → out.new.items ++ items_text after rest ≡ out.old.items ++ items_text later
        (with_flag_item (key_bytes key.now)
        (evaluation_of (key_bytes key.now) (data_of definition.now) context now) rest)) }
    ensures context { OnOk result ((context : JsonData) (now : ℕ)
        → IsOfContext context now «data».old → IsOfContext context now «data».new) }
{
    match definition.resolve_in(alloc, key, data) {
        Ok(said) => {
            put_comma(out, later)?;
            put_success(out, key.as_str(), definition.metadata(), &said)?;
            Ok(true)
        }
        Err(EvalFault::Disabled) => Ok(later),
        Err(EvalFault::NoVariant) => {
            put_comma(out, later)?;
            put_failure(out, Failure::NamesNoVariant, Some(key.as_str()))?;
            Ok(true)
        }
        Err(EvalFault::Memory) => Err(AllocError),
    }
}

fn put_comma(out: &mut Vec<u8>, later: bool) -> Result<(), AllocError>
    ensures { OnOk result (out.new.items ≡ out.old.items ++ comma_if later) }
{
    if later {
        out.push(b',')?;
    }
    Ok(())
}
