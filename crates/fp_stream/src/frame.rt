//! What a frame carries, and how it is written.

ghost use Rattle.std.specs.Prelude.{◌≡◌, ◌≤◌, ◌<◌, length, IfErr, OnOk};
ghost use Rattle.std.specs.Io.KnownBytes.{Appends};
ghost use Rattle.fp_streams.specs.Failures.{CountsFailures};
ghost use Rattle.fp_streams.specs.declared.counted.StreamFault.TheVariants.{Device};
ghost use Rattle.fp_stream.specs.declared.head.TheConstants.{MOST_BODY};
ghost use Rattle.fp_stream.specs.Frames.{frame};

use crate::head::head_bytes;
use fp_streams::{FailureCounted, StreamFault, WriteGathered};

/// A snapshot as a frame carries it. The body is not read: whoever wrote it
/// says that it is a document.
#[derive(Debug, Drop)]
pub struct Frame {
    /// The revision of the set of flags.
    pub revision: u64,
    /// Its document.
    pub body: Vec<u8>,
}

/// Writes the frame of a document, by one call where the writer takes it whole. At an error some of
/// it may have been written.
pub fn write_frame<W: WriteGathered>(
    w: &mut FailureCounted<W>,
    revision: u64,
    document: &[u8],
) -> Result<(), StreamFault>
    // The document has at most 2^27 bytes.
    requires { length document.now ≤ MOST_BODY }
    // `Ok`: exactly the bytes of the frame stand behind what the writer held.
    ensures frame { OnOk result (Appends (W.contents w.old.inner) (W.contents w.new.inner)
        (frame revision document.now)) }
    // Its one fault is `Device`.
    ensures fault { IfErr result (λ f. f ≡ Device) }
    // `Device` exactly where the writer's count of failures rose.
    ensures counted { CountsFailures w.old.failures w.new.failures result }
{
    w.send_both(&head_bytes(revision, document.len() as u32), document)?;
    Ok(())
}
