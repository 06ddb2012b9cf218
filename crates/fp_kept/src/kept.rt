//! The frame that is kept over restarts, as bytes: the frame, and the SHA-256 of its bytes.

ghost use Rattle.std.specs.Prelude.{◌≡◌, ◌≤◌, ◌++◌, [], ℕ, List, Err, length, IfOk, IsTrue, ◌↔◌};
ghost use Rattle.sha2.specs.Sha256.{sha256};
ghost use Rattle.fp_stream.specs.Decoding.{HasRead, Reader, bytes_taken};
ghost use Rattle.fp_stream.specs.Frames.{Snapshot, snapshots_of};
ghost use Rattle.fp_stream.specs.declared.head.TheConstants.{MOST_BODY};
ghost use Rattle.fp_stream.specs.declared.hello.Hello.TheVariants.{Nothing};
ghost use Rattle.fp_kept.specs.Kept.{IsFrame, IsKept, frame_of, kept_as};

use fp_stream::{Decoder, Frame, FrameFault, HEAD, Hello, head_bytes, what_is_written_is_read};
use sha2::{Digest, Sha256};
use std::alloc::{AllocError, Global};

/// How long a digest is.
pub const DIGEST: usize = 32;

/// A kept frame in its parts, one behind the other.
#[derive(Drop, Clone, Copy)]
pub struct KeptParts<'d> {
    pub head: [u8; HEAD],
    pub document: &'d [u8],
    pub digest: [u8; DIGEST],
}

/// A snapshot as it is kept, in parts that are written one behind the other: `KeptFile::keep` takes
/// them. The document isn't copied.
pub fn parts_of(revision: u64, document: &[u8]) -> KeptParts<'_>
    // A frame can carry the document.
    requires { length document.now ≤ MOST_BODY }
    // The parts are the bytes of the snapshot's frame, and behind them the SHA-256 of these.
    ensures { result.head ++ (result.document.now ++ result.digest) ≡ kept_as
        (frame_of (record { revision = revision; document = document.now })) }
{
    let head = head_bytes(revision, document.len() as u32);
    KeptParts {
        head,
        document,
        digest: digest_of(&head, document),
    }
}

// The digest of a head and a document.
fn digest_of(head: &[u8], document: &[u8]) -> [u8; DIGEST]
    ensures { result ≡ sha256 (head.now ++ document.now) }
{
    let mut hasher = Sha256::new();
    hasher.update(head);
    hasher.update(document);
    hasher.finalize()
}

// The digest of a text.
fn digest_in(text: &[u8]) -> [u8; DIGEST]
    ensures { result ≡ sha256 text.now }
{
    let mut hasher = Sha256::new();
    hasher.update(text);
    hasher.finalize()
}

/// Reads back what was kept. `Err`: out of memory.
pub fn decode(alloc: Global, bytes: &[u8]) -> Result<Option<Frame>, AllocError>
    // `Ok`: the frame that was kept as these bytes; `None` exactly where no frame was.
    ensures { IfOk result (IsKept bytes.now) }
{
    if bytes.len() < DIGEST {
        return Ok(None);
    }
    let (text, digest) = bytes.split_at(bytes.len() - DIGEST);
    if is_digest(digest, text) {
        return only_frame(alloc, text);
    }
    Ok(None)
}

// Whether the first is the digest of the second.
fn is_digest(digest: &[u8], text: &[u8]) -> bool
    ensures { IsTrue result ↔ (digest.now ≡ sha256 text.now) }
{
    digest == digest_in(text).as_slice()
}

// The one frame that the bytes are.
fn only_frame(alloc: Global, text: &[u8]) -> Result<Option<Frame>, AllocError>
    ensures { IfOk result (IsFrame text.now) }
{
    what_is_written_is_read();
    let mut frames = whole_frames(alloc, text)?;
    if frames.len() != 1 {
        return Ok(None);
    }
    if frames[0].body.len() + HEAD != text.len() {
        return Ok(None);
    }
    Ok(frames.pop())
}

// The frames that bytes hold.
fn whole_frames(alloc: Global, text: &[u8]) -> Result<Vec<Frame>, AllocError>
    ensures { IfOk result (λ frames. (now : Reader)
        × HasRead Nothing text.now (snapshots_of frames.items) now) }
{
    let mut decoder = Decoder::new(alloc, Hello::Nothing);
    match decoder.feed(alloc, text) {
        Ok(frames) => Ok(frames),
        Err(fault) => no_frames(alloc, fault),
    }
}

// None at all, but where memory was wanting to read them.
fn no_frames(alloc: Global, fault: FrameFault) -> Result<Vec<Frame>, AllocError>
    ensures { IfOk result (λ frames. (frames.items ≡ [])
        × ((text : List ℕ) → bytes_taken (Err fault) text ≡ text)) }
{
    match fault {
        FrameFault::Memory => Err(AllocError),
        FrameFault::BadMagic => Ok(Vec::new(alloc)),
        FrameFault::TooLong => Ok(Vec::new(alloc)),
        FrameFault::NotRising => Ok(Vec::new(alloc)),
        FrameFault::Failed => Ok(Vec::new(alloc)),
    }
}
