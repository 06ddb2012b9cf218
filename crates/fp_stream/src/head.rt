//! The 16 bytes in front of a body.

ghost use Rattle.std.specs.Prelude.{◌≡◌, ◌<◌, length, take, codes, slice_range};
ghost use Rattle.std.specs.Prelude.{IfOk, IfErr, IsTrue, ◌↔◌};
ghost use Rattle.std.specs.Int.{w32, w64, from_be_bytes};
ghost use Rattle.fp_stream.specs.Heads.{head, IsHead, HasFault};
ghost use Rattle.fp_stream.specs.declared.head.TheConstants.{HEAD, REVISION_AT, SIZE_AT};

use crate::fault::FrameFault;
use crate::hello::Hello;

/// The longest body of a frame.
pub const MOST_BODY: usize = 134_217_728;

/// How long the head of a frame is.
pub const HEAD: usize = 16;

// Where its revision begins, behind `SNP1`, and the length of its body behind that.
const REVISION_AT: usize = 4;

const SIZE_AT: usize = 12;

// A head that was read: what its frame's revision is, and how long its body.
#[derive(Drop, Clone, Copy)]
pub(crate) struct Head {
    pub(crate) revision: u64,
    pub(crate) size: usize,
}

// The head that the bytes are, for a subscriber that has this.
pub(crate) fn head_of(has: Hello, bytes: &[u8]) -> Result<Head, FrameFault>
    requires { length bytes.now ≡ HEAD }
    ensures is { IfOk result (λ h. bytes.now ≡ head h.revision h.size) }
    ensures lawful { IfOk result (λ h. IsHead has h.revision h.size) }
    ensures fault { IfErr result (λ f. HasFault has bytes.now f) }
{
    if !has_magic(bytes) {
        return Err(FrameFault::BadMagic);
    }
    let revision = revision_in(bytes);
    let size = size_in(bytes) as usize;
    if size > MOST_BODY {
        return Err(FrameFault::TooLong);
    }
    if !has.is_behind(revision) {
        return Err(FrameFault::NotRising);
    }
    Ok(Head { revision, size })
}

fn has_magic(bytes: &[u8]) -> bool
    ensures { IsTrue result ↔ (take REVISION_AT bytes.now ≡ codes "SNP1") }
{
    bytes.starts_with(b"SNP1")
}

fn revision_in(bytes: &[u8]) -> u64
    requires { length bytes.now ≡ HEAD }
    ensures { result ≡ from_be_bytes w64 (slice_range bytes.now REVISION_AT SIZE_AT) }
{
    let mut revision = [0; 8];
    revision.copy_from_slice(&bytes[REVISION_AT..SIZE_AT]);
    u64::from_be_bytes(revision)
}

fn size_in(bytes: &[u8]) -> u32
    requires { length bytes.now ≡ HEAD }
    ensures { result ≡ from_be_bytes w32 (slice_range bytes.now SIZE_AT HEAD) }
{
    let mut size = [0; 4];
    size.copy_from_slice(&bytes[SIZE_AT..HEAD]);
    u32::from_be_bytes(size)
}

/// The head of a frame, for who sends or keeps it apart from the document that stands behind it.
pub fn head_bytes(revision: u64, size: u32) -> [u8; HEAD]
    // The bytes in front of a document of this revision and this length.
    ensures { result ≡ head revision size }
{
    let r = revision.to_be_bytes();
    let s = size.to_be_bytes();
    [
        b'S', b'N', b'P', b'1', r[0], r[1], r[2], r[3], r[4], r[5], r[6], r[7], s[0], s[1], s[2],
        s[3],
    ]
}
