//! One connection to the source: what it sends, and what is shown of it.

ghost use Rattle.std.specs.Prelude.{◌≡◌, ◌≤◌, ◌++◌, ◌∷◌, [], ℕ, List, length, IfErr, OnOk, OnErr};
ghost use Rattle.fp_stream.specs.Frames.{Snapshot, snapshot_of, snapshots_of};
ghost use Rattle.fp_stream.specs.Heads.{longest_body};
ghost use Rattle.fp_relay.specs.Following.{AreShort, Shows, ShowsFront};
ghost use Rattle.fp_relay.specs.Ends.{IsSetFault, of_frame, of_shown, of_stream};
ghost use Rattle.fp_relay.specs.Ends.{Follows, end_of};
ghost use Rattle.fp_relay.specs.declared.source.SourceEnd.TheVariants.{Memory};

use fp_shown::{Shown, ShownFault};
use fp_stream::{Decoder, Frame, FrameFault, Hello, write_hello};
use fp_streams::{FailureCounted, StreamFault};
use std::alloc::{AllocError, Global};
use std::fmt;
use std::io::{Read, Write};

// How many bytes are read at once.
const CHUNK: usize = 65_536;

/// Who is told what the source sends, and shown what is new.
pub trait Audience {
    // What it was shown so far, in turn.
    ghost seen: { Self → List Snapshot };

    /// Notes that a frame of this revision came, where this was shown last. One that isn't newer is
    /// dropped.
    fn note(&mut self, revision: u64, last: Hello)
        // What was shown stays.
        ensures { seen self.new ≡ seen self.old };

    /// Shows a set, which is newer than what was shown last. `Err`: out of memory.
    fn show(&mut self, shown: Shown) -> Result<(), AllocError>
        // A frame can carry the document.
        requires { length shown.document ≤ longest_body }
        // `Ok`: it was shown behind what was.
        ensures shown { OnOk result (seen self.new ≡ seen self.old ++ shown ∷ []) }
        // `Err`: what was shown stays.
        ensures unchanged { OnErr result (seen self.new ≡ seen self.old) };

    /// What was shown last, if it is at hand. The next is read beside it.
    fn last(&self) -> Option<&Shown>;
}

/// Why nothing more is taken from a connection.
#[derive(Debug, Drop, Clone, Copy)]
pub enum SourceEnd {
    /// The source ended it.
    Closed,
    /// It failed.
    Device,
    /// There was no memory.
    Memory,
    /// What came is no frame.
    BadFrame(FrameFault),
    /// A frame's document is that of no set of flags.
    NoSet,
}

impl fmt::Display for SourceEnd {
    fn fmt<W: fmt::Write>(&self, f: &mut fmt::Formatter<W>) -> fmt::Result {
        match self {
            SourceEnd::Closed => f.write_str("closed"),
            SourceEnd::Device => f.write_str("device fault"),
            SourceEnd::Memory => f.write_str("out of memory"),
            SourceEnd::BadFrame(fault) => write!(f, "{fault}"),
            SourceEnd::NoSet => f.write_str("no set of flags"),
        }
    }
}

impl From<StreamFault> for SourceEnd {
    ghost from_gives = { λ f e. e ≡ of_stream f };

    fn from(fault: StreamFault) -> SourceEnd {
        match fault {
            StreamFault::Device => SourceEnd::Device,
            StreamFault::Memory => SourceEnd::Memory,
        }
    }
}

impl From<FrameFault> for SourceEnd {
    ghost from_gives = { λ f e. e ≡ of_frame f };

    fn from(fault: FrameFault) -> SourceEnd {
        match fault {
            FrameFault::Memory => SourceEnd::Memory,
            fault => SourceEnd::BadFrame(fault),
        }
    }
}

impl From<ShownFault> for SourceEnd {
    ghost from_gives = { λ f e. e ≡ of_shown f };

    fn from(fault: ShownFault) -> SourceEnd {
        match fault {
            ShownFault::NoSet => SourceEnd::NoSet,
            ShownFault::Memory => SourceEnd::Memory,
        }
    }
}

impl From<AllocError> for SourceEnd {
    ghost from_gives = { λ _ e. e ≡ Memory };

    fn from(_fault: AllocError) -> SourceEnd {
        SourceEnd::Memory
    }
}

/// Follows one connection to the source, until it ends: says hello with nothing, and shows the
/// audience each set that is newer than what was shown last, as soon as its frame is whole. Answers
/// why it ended; call it again with the same `last` over the next connection.
pub fn follow<S: Write, R: Read, A: Audience>(
    alloc: Global,
    service: &mut FailureCounted<S>,
    r: &mut FailureCounted<R>,
    last: &mut Hello,
    audience: &mut A,
) -> SourceEnd
    // However it ended: what the audience was shown are the sets of the first frames that the bytes
    // which came hold, in their order, each above what was shown last and above each that was shown
    // since, so never an equal or a lower revision; all of them, but behind a frame that shows no
    // set, or at `Memory`.
    ensures { Follows (R.remaining r.old.inner) (R.remaining r.new.inner) last.old last.new
        (A.seen audience.old) (A.seen audience.new) result }
{
    if let Err(fault) = write_hello(service, Hello::Nothing) {
        return fault.into();
    }
    match take_frames(alloc, r, last, audience) {
        Ok(()) => SourceEnd::Closed,
        Err(end) => end,
    }
}

// Takes frames until the source ends the connection.
fn take_frames<R: Read, A: Audience>(
    alloc: Global,
    r: &mut FailureCounted<R>,
    last: &mut Hello,
    audience: &mut A,
) -> Result<(), SourceEnd>
    ensures { Follows (R.remaining r.old.inner) (R.remaining r.new.inner) last.old last.new
        (A.seen audience.old) (A.seen audience.new) (end_of result) }
{
    let mut decoder = Decoder::new(alloc, Hello::Nothing);
    let mut chunk = [0; CHUNK];
    loop {
        let count = r.read(&mut chunk)?;
        if count == 0 {
            return Ok(());
        }
        let frames = decoder.feed(alloc, &chunk[..count])?;
        show_all(alloc, frames, last, audience)?;
        if let Some(fault) = decoder.owed() {
            return Err(fault.into());
        }
    }
}

// Shows what is new of these frames.
fn show_all<A: Audience>(
    alloc: Global,
    frames: Vec<Frame>,
    last: &mut Hello,
    audience: &mut A,
) -> Result<(), SourceEnd>
    requires { AreShort (snapshots_of frames.items) }
    ensures all { OnOk result (Shows last.old last.new (A.seen audience.old)
        (A.seen audience.new) (snapshots_of frames.items)) }
    ensures front { OnErr result (ShowsFront last.old last.new (A.seen audience.old)
        (A.seen audience.new) (snapshots_of frames.items)) }
    ensures fault { IfErr result IsSetFault }
{
    for frame in frames {
        show_newer(alloc, frame, last, audience)?;
    }
    Ok(())
}

// Shows the set of a frame that is newer than what was shown last.
fn show_newer<A: Audience>(
    alloc: Global,
    frame: Frame,
    last: &mut Hello,
    audience: &mut A,
) -> Result<(), SourceEnd>
    requires { length frame.body.items ≤ longest_body }
    ensures shows { OnOk result (Shows last.old last.new (A.seen audience.old)
        (A.seen audience.new) (snapshot_of frame ∷ [])) }
    ensures unchanged { OnErr result ((last.new ≡ last.old)
        × (A.seen audience.new ≡ A.seen audience.old)) }
    ensures fault { IfErr result IsSetFault }
{
    let revision = frame.revision;
    audience.note(revision, *last);
    if !last.is_behind(revision) {
        return Ok(());
    }
    let shown = Shown::of_frame_behind(alloc, frame, audience.last())?;
    audience.show(shown)?;
    *last = Hello::Has(revision);
    Ok(())
}
