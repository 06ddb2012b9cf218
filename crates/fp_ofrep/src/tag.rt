//! Tags of bodies.

ghost use Rattle.std.specs.Prelude.{◌≡◌, [], IfOk};
ghost use Rattle.std.specs.Option.{option_copied};
ghost use Rattle.fp_ofrep.specs.Route.{behind as behind_text};
ghost use Rattle.fp_ofrep.specs.Tag.{tag_of, is_known as is_known_by, has_tag};
ghost use Rattle.fp_ofrep.specs.Tag.{is_tag as is_entity_tag, strong as strong_text};
ghost use Rattle.fp_ofrep.specs.Tag.{without_blanks as without_blanks_text};

use sha2::{Digest, Sha256};
use std::alloc::{AllocError, Global};

/// The entity tag of a body.
pub(crate) fn entity_tag(alloc: Global, body: &[u8]) -> Result<Vec<u8>, AllocError>
    ensures { IfOk result (λ t. t.items ≡ tag_of body.now) }
{
    let digest = Sha256::digest(body);
    let text = hex::encode(alloc, digest)?;
    let mut tag = Vec::with_capacity(alloc, 66)?;
    tag.push(b'"')?;
    tag.extend_from_slice(text.as_bytes())?;
    tag.push(b'"')?;
    Ok(tag)
}

/// Whether a client that sent this `If-None-Match` has the body of this tag.
pub(crate) fn is_known(tag: &[u8], if_none_match: Option<&[u8]>) -> bool
    ensures { result ≡ is_known_by tag.now (option_copied if_none_match.entry) }
{
    match if_none_match {
        Some(field) => field == b"*".as_slice() || lists_tag(tag, field),
        None => false,
    }
}

#[tactic(auto, using(crate::proofs::Parts::at_comma, crate::proofs::Parts::at_other))]
fn lists_tag(tag: &[u8], field: &[u8]) -> bool
    ensures { result ≡ has_tag tag.now [] field.now }
{
    let mut start = 0;
    for at in 0..field.len() {
        if field[at] != b',' {
            continue;
        }
        if is_tag(tag, &field[start..at]) {
            return true;
        }
        start = at + 1;
    }
    is_tag(tag, &field[start..])
}

fn is_tag(tag: &[u8], part: &[u8]) -> bool
    ensures { result ≡ is_entity_tag tag.now part.now }
{
    match behind(tag, strong(without_blanks(part))) {
        Some(rest) => without_blanks(rest).is_empty(),
        None => false,
    }
}

fn strong(text: &[u8]) -> &[u8]
    ensures { result.now ≡ strong_text text.now }
{
    match text {
        [b'W', b'/', rest @ ..] => rest,
        _ => text,
    }
}

/// What is left of a text behind a front.
#[tactic(auto, using(crate::proofs::Parts::behind_empty))]
pub(crate) fn behind<'a>(front: &[u8], text: &'a [u8]) -> Option<&'a [u8]>
    ensures { option_copied result ≡ behind_text front.now text.now }
{
    let mut rest = text;
    for byte in front {
        if rest.is_empty() {
            return None;
        }
        if rest[0] != *byte {
            return None;
        }
        rest = &rest[1..];
    }
    Some(rest)
}

fn without_blanks(text: &[u8]) -> &[u8]
    ensures { result.now ≡ without_blanks_text text.now }
{
    let mut rest = text;
    while let [b' ' | b'\t', after @ ..] = rest {
        rest = after;
    }
    rest
}
