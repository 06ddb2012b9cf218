//! What a relay shows: the flags of one frame.

ghost use Rattle.std.specs.Prelude.{◌≡◌, Err, IfOk};
ghost use Rattle.fp_stream.specs.Frames.{snapshot_of};
ghost use Rattle.fp_shown.specs.Sets.{HasNoSet, HasSet, IsLawful, IsSetOf};
ghost use Rattle.fp_shown.specs.declared.fault.ShownFault.TheVariants.{NoSet};

use crate::fault::ShownFault;
use crate::reading::set_of;
use fp_edit::FlagSet;
use fp_stream::Frame;
use std::alloc::Global;
use std::marker::Model;

/// The set of flags of one frame, and the frame's document as it came.
#[derive(Drop)]
pub struct Shown {
    set: FlagSet,
    document: Vec<u8>,
}

impl Model for Shown {
    ghost use Rattle.fp_stream.specs.Frames.{Snapshot};
    ghost use Rattle.fp_shown.specs.Sets.{IsLawful, IsSetOf};

    ghost Value = { Snapshot };

    ghost view = { λ s. record { revision = s.set.revision; document = s.document.items } };

    ghost invariant = { λ s. IsSetOf s.set.revision s.document.items s.set × IsLawful s.set };
}

impl Shown {
    /// What a relay shows of a frame: the set of flags that it carries. A document doesn't tell
    /// when a flag was changed, nor the limit of the set's size: all flags are marked with the
    /// frame's revision, and the limit is `SHOWN_LIMIT`. Neither is in any reply.
    pub fn of_frame(alloc: Global, frame: Frame) -> Result<Shown, ShownFault>
        // `Ok`: it is seen as the frame's revision and document.
        ensures shown { IfOk result (λ s. s ≡ snapshot_of frame) }
        // `Ok`: there is a lawful set with both.
        ensures set { IfOk result (λ _. HasSet frame.revision frame.body.items) }
        // `NoSet`: no lawful set whatever has both.
        ensures refused { result ≡ Err NoSet → HasNoSet frame.revision frame.body.items }
    {
        Shown::of_frame_behind(alloc, frame, None)
    }

    /// As `of_frame`, behind what was shown before, if anything was: what both have in common is
    /// read quicker, and shared.
    pub fn of_frame_behind(
        alloc: Global,
        frame: Frame,
        before: Option<&Shown>,
    ) -> Result<Shown, ShownFault>
        // `Ok`: it is seen as the frame's revision and document.
        ensures shown { IfOk result (λ s. s ≡ snapshot_of frame) }
        // `Ok`: there is a lawful set with both.
        ensures set { IfOk result (λ _. HasSet frame.revision frame.body.items) }
        // `NoSet`: no lawful set whatever has both.
        ensures refused { result ≡ Err NoSet → HasNoSet frame.revision frame.body.items }
    {
        let set = set_of(alloc, frame.revision, &frame.body, set_in(before))?;
        Ok(Shown {
            set,
            document: frame.body,
        })
    }

    /// The frame's revision.
    pub fn revision(&self) -> u64
        ensures { result ≡ self.now.revision }
    {
        self.set.revision()
    }

    /// The frame's document, byte for byte as it came.
    pub fn document(&self) -> &[u8]
        ensures { result.now ≡ self.now.document }
    {
        self.document.as_slice()
    }

    /// The set that is shown, over which `answer_over` of `fp_ofrep` replies.
    pub fn set(&self) -> &FlagSet
        // It has this revision and this document.
        ensures set { IsSetOf self.now.revision self.now.document result.now }
        // It is lawful.
        ensures lawful { IsLawful result.now }
    {
        &self.set
    }
}

// The set of what is shown.
fn set_in(shown: Option<&Shown>) -> Option<&FlagSet> {
    match shown {
        Some(shown) => Some(&shown.set),
        None => None,
    }
}
