//! What a subscriber is shown.

ghost use Rattle.std.specs.Prelude.{◌≡◌, ◌+◌, IfErr, OnOk};
ghost use Rattle.std.specs.Io.KnownBytes.{Appends};
ghost use Rattle.fp_streams.specs.Failures.{CountsFailures};
ghost use Rattle.fp_streams.specs.declared.counted.StreamFault.TheVariants.{Device};
ghost use Rattle.fp_stream.specs.Frames.{snapshot_of, snapshots_of};
ghost use Rattle.fp_stream.specs.Watching.{Watches, BlamesStreams, lines_of, line_of};

use crate::decoder::Decoder;
use crate::fault::FrameFault;
use crate::frame::Frame;
use crate::hello::Hello;
use fp_streams::{FailureCounted, StreamFault};
use itoa::Buffer;
use std::alloc::Global;
use std::error::Error;
use std::fmt;
use std::io::{Read, Write};

const CHUNK: usize = 65_536;

/// Why a subscriber is shown nothing more. Its text is `device fault`, `out of memory`, or `bad
/// stream` for each fault of a frame.
#[derive(Debug, Drop, Clone, Copy)]
pub enum WatchFault {
    /// The reader or the writer failed.
    Device,
    /// There was no memory.
    Memory,
    /// What came is no frame.
    BadFrame(FrameFault),
}

impl fmt::Display for WatchFault {
    ghost use Rattle.std.specs.Prelude.{Some};
    ghost use Rattle.fp_stream.specs.Watching.{text_of};

    ghost output = { λ fault. Some (text_of fault) };

    fn fmt<W: fmt::Write>(&self, f: &mut fmt::Formatter<W>) -> fmt::Result {
        f.write_str(match self {
            WatchFault::Device => "device fault",
            WatchFault::Memory => "out of memory",
            WatchFault::BadFrame(_) => "bad stream",
        })
    }
}

impl Error for WatchFault {}

impl From<StreamFault> for WatchFault {
    ghost use Rattle.fp_stream.specs.Watching.{of_stream};

    ghost from_gives = { λ f e. e ≡ of_stream f };

    fn from(fault: StreamFault) -> WatchFault {
        match fault {
            StreamFault::Device => WatchFault::Device,
            StreamFault::Memory => WatchFault::Memory,
        }
    }
}

impl From<FrameFault> for WatchFault {
    ghost use Rattle.fp_stream.specs.Watching.{of_frame};

    ghost from_gives = { λ f e. e ≡ of_frame f };

    fn from(fault: FrameFault) -> WatchFault {
        match fault {
            FrameFault::Memory => WatchFault::Memory,
            fault => WatchFault::BadFrame(fault),
        }
    }
}

/// Shows each frame that the reader gives to a subscriber that has this, as soon as it is whole:
/// its revision, a space, its document and a newline. It ends well where the reader does, inside a
/// frame too.
pub fn watch_loop<R: Read, W: Write>(
    alloc: Global,
    r: &mut FailureCounted<R>,
    w: &mut FailureCounted<W>,
    has: Hello,
) -> Result<(), WatchFault>
    // However it ended, unless the writer failed: a line was written for each frame in what the
    // reader gave, in order, and nothing else, up to a fault, or up to less than a whole frame.
    // `Ok`: the reader is at its end. At `Memory` alone the last bytes that were read weren't
    // looked at.
    ensures watched { w.new.failures ≡ w.old.failures
        → Watches has (R.remaining r.old.inner) (R.remaining r.new.inner)
        (W.contents w.old.inner) (W.contents w.new.inner) result }
    // `Device` exactly where the reader or the writer failed.
    ensures device { BlamesStreams (r.old.failures + w.old.failures)
        (r.new.failures + w.new.failures) result }
{
    let mut decoder = Decoder::new(alloc, has);
    let mut chunk = [0; CHUNK];
    loop {
        let count = r.read(&mut chunk)?;
        if count == 0 {
            return Ok(());
        }
        let frames = decoder.feed(alloc, &chunk[..count])?;
        show_all(w, frames)?;
        if let Some(fault) = decoder.owed() {
            return Err(fault.into());
        }
    }
}

// Shows these frames.
fn show_all<W: Write>(w: &mut FailureCounted<W>, frames: Vec<Frame>) -> Result<(), StreamFault>
    ensures shown { OnOk result (Appends (W.contents w.old.inner) (W.contents w.new.inner)
        (lines_of (snapshots_of frames.items))) }
    ensures fault { IfErr result (λ f. f ≡ Device) }
    ensures counted { CountsFailures w.old.failures w.new.failures result }
{
    for frame in frames {
        show(w, &frame)?;
    }
    Ok(())
}

// Shows a frame on a line.
fn show<W: Write>(w: &mut FailureCounted<W>, frame: &Frame) -> Result<(), StreamFault>
    ensures shown { OnOk result (Appends (W.contents w.old.inner) (W.contents w.new.inner)
        (line_of (snapshot_of frame.now))) }
    ensures fault { IfErr result (λ f. f ≡ Device) }
    ensures counted { CountsFailures w.old.failures w.new.failures result }
{
    w.send(Buffer::new().format(frame.revision).as_bytes())?;
    w.send(b" ")?;
    w.send(&frame.body)?;
    w.send(b"\n")?;
    Ok(())
}
