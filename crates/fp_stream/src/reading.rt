//! Frames in a slice of bytes.

ghost use Rattle.std.specs.Prelude.{◌≡◌, ◌+◌, ◌++◌, [], length, IfOk};
ghost use Rattle.std.specs.Vec.{vec_capacity};
ghost use Rattle.fp_stream.specs.declared.head.TheConstants.{HEAD};
ghost use Rattle.fp_stream.specs.Steps.{Adds};
ghost use Rattle.fp_stream.specs.Founds.{IsFound};

use crate::decoder::Decoder;
use crate::fault::FrameFault;
use crate::frame::Frame;
use crate::head::{HEAD, head_of};
use crate::hello::Hello;
use std::alloc::{AllocError, Global};

// Room is taken for so many times the bytes that came.
const MOST_AHEAD: usize = 8;

// What stands at a head and behind it.
#[derive(Drop)]
pub(crate) enum Found {
    // A whole frame.
    Whole(Frame),
    // No whole frame: reading stops.
    Stop(Decoder),
}

// The frame of this head, if it is lawful and its body is there.
pub(crate) fn frame_behind(
    alloc: Global,
    has: Hello,
    head: &[u8],
    behind: &[u8],
) -> Result<Found, AllocError>
    requires { length head.now ≡ HEAD }
    ensures { IfOk result (λ found. IsFound has head.now behind.now found) }
{
    let head = match head_of(has, head) {
        Ok(head) => head,
        Err(fault) => return Ok(Found::Stop(Decoder::owing(alloc, has, fault))),
    };
    if behind.len() < head.size {
        let held = begun(alloc, behind, head.size)?;
        return Ok(Found::Stop(Decoder::behind_head(has, head, held)));
    }
    let body = behind[..head.size].to_vec(alloc)?;
    Ok(Found::Whole(Frame {
        revision: head.revision,
        body,
    }))
}

// What came of a body of this size. A head alone takes no room, whatever size it tells.
fn begun(alloc: Global, behind: &[u8], size: usize) -> Result<Vec<u8>, AllocError>
    ensures came { IfOk result (λ held. held.items ≡ behind.now) }
    ensures alone { behind.now ≡ [] → IfOk result (λ held. vec_capacity held ≡ 0) }
{
    if behind.is_empty() {
        return Ok(Vec::new(alloc));
    }
    let mut held = Vec::new(alloc);
    make_room(&mut held, behind.len(), size);
    held.extend_from_slice(behind)?;
    Ok(held)
}

// Before what is held grows by so many bytes room is asked for eight times as many as came, up to
// this size, so that it is seldom moved. A `Vec` that grows may take twice what is asked for. Where
// so much is refused, less may do.
pub(crate) fn make_room(held: &mut Vec<u8>, more: usize, size: usize)
    ensures { held.new.items ≡ held.old.items }
{
    let len = held.len();
    if held.capacity() - len < more {
        let room = len
            .saturating_add(more)
            .saturating_mul(MOST_AHEAD)
            .min(size);
        let _ = held.reserve(room.saturating_sub(len));
    }
}

// Adds the frames that stand at the front of the bytes.
pub(crate) fn frames_of(
    alloc: Global,
    has: Hello,
    bytes: &[u8],
    frames: &mut Vec<Frame>,
) -> Result<Decoder, AllocError>
    ensures { IfOk result (λ decoder.
        Adds has bytes.now frames.old.items frames.new.items decoder) }
{
    let mut has = has;
    let mut rest = bytes;
    while rest.len() >= HEAD {
        let (head, behind) = rest.split_at(HEAD);
        let frame = match frame_behind(alloc, has, head, behind)? {
            Found::Whole(frame) => frame,
            Found::Stop(decoder) => return Ok(decoder),
        };
        has = Hello::Has(frame.revision);
        rest = &behind[frame.body.len()..];
        frames.push(frame)?;
    }
    Ok(Decoder::before_head(has, rest.to_vec(alloc)?))
}

// A head of two parts.
pub(crate) fn joined(held: &[u8], front: &[u8]) -> [u8; HEAD]
    requires { length held.now + length front.now ≡ HEAD }
    ensures { result ≡ held.now ++ front.now }
{
    let mut head = [0; HEAD];
    let (start, end) = head.split_at_mut(held.len());
    start.copy_from_slice(held);
    end.copy_from_slice(front);
    head
}
