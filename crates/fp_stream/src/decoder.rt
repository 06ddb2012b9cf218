//! Frames from the pieces of a stream.

ghost use Rattle.std.specs.Prelude.{◌≡◌, ◌<◌, ◌≤◌, ◌+◌, ◌++◌, ℕ, List, [], length, Option, Some};
ghost use Rattle.std.specs.Prelude.{None, Err, IfSome, IfOk, OnErr};
ghost use Rattle.fp_stream.specs.declared.fault.FrameFault.TheVariants.{Failed};
ghost use Rattle.fp_stream.specs.declared.hello.Hello.{Hello};
ghost use Rattle.fp_stream.specs.declared.head.TheConstants.{HEAD};
ghost use Rattle.fp_stream.specs.Heads.{head, IsHead};
ghost use Rattle.fp_stream.specs.Frames.{Snapshot, snapshots_of};
ghost use Rattle.fp_stream.specs.Decoding.{DecodesTo, Feeds, HasRead, bytes_taken, snapshots_given};
ghost use Rattle.fp_stream.specs.Steps.{wanted_by};

use crate::fault::FrameFault;
use crate::frame::Frame;
use crate::head::{HEAD, Head};
use crate::hello::Hello;
use crate::reading::{Found, frame_behind, frames_of, joined, make_room};
use std::alloc::{AllocError, Global};
use std::marker::Model;
use std::mem;

/// Reads frames from the pieces of a stream, in whatever pieces it comes.
#[derive(Drop)]
pub struct Decoder {
    // What the subscriber has.
    pub(crate) has: Hello,
    // The head of the frame that comes in, once it is there.
    pub(crate) head: Option<Head>,
    // What came of that head, or of the body behind it.
    pub(crate) held: Vec<u8>,
    // What the next call answers.
    pub(crate) owed: Option<FrameFault>,
}

impl Model for Decoder {
    ghost use Rattle.fp_stream.specs.Decoding.{Reader};
    ghost use Rattle.fp_stream.specs.Steps.{held_of, IsPart};

    ghost Value = { Reader };

    ghost view = { λ d. record { has = d.has; held = held_of d.head d.held.items; owed = d.owed } };

    ghost invariant = { λ d. IsPart d.has d.head d.held.items };
}

impl Decoder {
    /// Begins to read for a subscriber that has this. It takes no memory.
    pub fn new(alloc: Global, hello: Hello) -> Decoder
        // It holds no bytes, and owes no fault.
        ensures start { result ≡ record { has = hello; held = []; owed = None } }
        // It has read nothing, and given nothing.
        ensures so_far { HasRead hello [] [] result }
    {
        Decoder {
            has: hello,
            head: None,
            held: Vec::new(alloc),
            owed: None,
        }
    }

    /// Takes the next piece of the stream, and gives each frame that is whole now. A fault behind
    /// such frames is answered by the next call, and after a fault other than `Memory` each call
    /// answers `Failed`.
    ///
    /// Of a head `BadMagic` comes first, then `TooLong`, then `NotRising`, once its 16 bytes are
    /// there. A body's bytes are copied once; room is asked for only when bytes came, for eight
    /// times as many and for no more than the body has. At `Memory` the piece isn't taken, and can
    /// be fed again.
    pub fn feed(&mut self, alloc: Global, piece: &[u8]) -> Result<Vec<Frame>, FrameFault>
        // A fault that is owed is answered, whatever the piece is, and from then on `Failed`.
        ensures owed { IfSome self.old.owed (λ fault. (result ≡ Err fault)
            × (self.new ≡ record self.old { owed = Some Failed })) }
        // Else `Ok`: all frames that what was held and the piece hold, and a fault behind them is
        // owed. A fault: it stands there with no frame before it. `Memory`: all is as before.
        ensures read { self.old.owed ≡ None → Feeds self.old piece.now result self.new }
        // What it gave so far are the frames of all bytes that it took so far, however these were
        // cut.
        ensures so_far { (has : Hello) (bytes : List ℕ) (frames : List Snapshot) →
            HasRead has bytes frames self.old →
            HasRead has (bytes ++ bytes_taken result piece.now) (frames ++ snapshots_given result)
            self.new }
    {
        if let Some(fault) = self.owed {
            self.owed = Some(FrameFault::Failed);
            return Err(fault);
        }
        self.read_on(alloc, piece)
    }

    /// The fault that the next call of `feed` answers, if there is one.
    pub fn owed(&self) -> Option<FrameFault>
        ensures { result ≡ self.now.owed }
    {
        self.owed
    }

    // Answers a piece, where no fault is owed.
    fn read_on(&mut self, alloc: Global, piece: &[u8]) -> Result<Vec<Frame>, FrameFault>
        requires { self.old.owed ≡ None }
        ensures { Feeds self.old piece.now result self.new }
    {
        let frames = self.take(alloc, piece)?;
        match self.owed {
            Some(fault) if frames.is_empty() => {
                self.owed = Some(FrameFault::Failed);
                Err(fault)
            }
            _ => Ok(frames),
        }
    }

    // Takes a piece, where no fault is owed.
    fn take(&mut self, alloc: Global, piece: &[u8]) -> Result<Vec<Frame>, AllocError>
        requires { self.old.owed ≡ None }
        ensures leaves { IfOk result (λ frames.
            DecodesTo self.old.has (self.old.held ++ piece.now) (snapshots_of frames.items)
            self.new) }
        ensures err { OnErr result (self.new ≡ self.old) }
    {
        if piece.len() < wanted(self.head) - self.held.len() {
            make_room(&mut self.held, piece.len(), wanted(self.head));
            self.held.extend_from_slice(piece)?;
            return Ok(Vec::new(alloc));
        }
        let (frames, next) = match self.head {
            None => finish_head(alloc, self.has, &self.held, piece)?,
            Some(head) => finish_body(alloc, head, &mut self.held, piece)?,
        };
        *self = next;
        Ok(frames)
    }

    // Where less than a head has come.
    pub(crate) fn before_head(has: Hello, held: Vec<u8>) -> Decoder
        requires { length held.items < HEAD }
        ensures { result ≡ record { has = has; held = held.items; owed = None } }
    {
        Decoder {
            has,
            head: None,
            held,
            owed: None,
        }
    }

    // Where less than the body behind a head has come.
    pub(crate) fn behind_head(has: Hello, known: Head, held: Vec<u8>) -> Decoder
        requires lawful { IsHead has known.revision known.size }
        requires short { length held.items < known.size }
        ensures { result ≡
            record { has = has; held = head known.revision known.size ++ held.items; owed = None } }
    {
        Decoder {
            has,
            head: Some(known),
            held,
            owed: None,
        }
    }

    // Where a fault stands.
    pub(crate) fn owing(alloc: Global, has: Hello, fault: FrameFault) -> Decoder
        ensures { result ≡ record { has = has; held = []; owed = Some fault } }
    {
        Decoder {
            has,
            head: None,
            held: Vec::new(alloc),
            owed: Some(fault),
        }
    }
}

// How long the head is to be, or the body behind it.
fn wanted(head: Option<Head>) -> usize
    ensures { result ≡ wanted_by head }
{
    match head {
        None => HEAD,
        Some(head) => head.size,
    }
}

// Ends a head that came in part, and reads on.
fn finish_head(
    alloc: Global,
    has: Hello,
    held: &[u8],
    piece: &[u8],
) -> Result<(Vec<Frame>, Decoder), AllocError>
    requires part { length held.now < HEAD }
    requires ends { HEAD ≤ length held.now + length piece.now }
    ensures { IfOk result (λ out.
        DecodesTo has (held.now ++ piece.now) (snapshots_of out.0.items) out.1) }
{
    let (front, behind) = piece.split_at(HEAD - held.len());
    let head = joined(held, front);
    let mut frames = Vec::new(alloc);
    let frame = match frame_behind(alloc, has, &head, behind)? {
        Found::Whole(frame) => frame,
        Found::Stop(decoder) => return Ok((frames, decoder)),
    };
    let last = Hello::Has(frame.revision);
    let rest = &behind[frame.body.len()..];
    frames.push(frame)?;
    let next = frames_of(alloc, last, rest, &mut frames)?;
    Ok((frames, next))
}

// Ends a body that came in part, and reads on. What came of it goes into the frame as
// it is; an `Err` leaves it.
fn finish_body(
    alloc: Global,
    known: Head,
    held: &mut Vec<u8>,
    piece: &[u8],
) -> Result<(Vec<Frame>, Decoder), AllocError>
    requires part { length held.old.items ≤ known.size }
    requires ends { known.size ≤ length held.old.items + length piece.now }
    ensures read { IfOk result (λ out. (has : Hello) → IsHead has known.revision known.size →
        DecodesTo has ((head known.revision known.size ++ held.old.items) ++ piece.now)
        (snapshots_of out.0.items) out.1) }
    ensures err { OnErr result (held.new.items ≡ held.old.items) }
{
    let (front, behind) = piece.split_at(known.size - held.len());
    let mut frames = Vec::new(alloc);
    // The first frame keeps its place, and gets its body when nothing can fail any more.
    frames.push(Frame {
        revision: known.revision,
        body: Vec::new(alloc),
    })?;
    let next = frames_of(alloc, Hello::Has(known.revision), behind, &mut frames)?;
    held.extend_from_slice(front)?;
    frames[0].body = mem::replace(held, Vec::new(alloc));
    Ok((frames, next))
}
