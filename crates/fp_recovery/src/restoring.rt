//! A set that is made again from an image and batches.

ghost use Rattle.std.specs.Prelude.{◌≡◌};
ghost use Rattle.fp_recovery.specs.Refusals.{nothing_read};

use crate::batches::take_batch;
use crate::images::read_image;
use fp_edit::FlagSet;
use fp_journal::{BodyFault, Reader};
use fp_layout::SlotReader;
use fp_slots::FIRST_VERSION;
use std::alloc::Global;
use std::marker::Model;

/// A set on its way back: the image makes it, and each batch leads it on.
#[derive(Drop)]
pub struct Replayer {
    version: u8,
    set: FlagSet,
    alloc: Global,
}

impl Model for Replayer {
    ghost use Rattle.fp_recovery.specs.Refusals.{Replayed, coded_replayed};

    ghost Value = { Replayed };

    ghost coded = { coded_replayed };

    ghost view = { λ r. record { version = r.version; set = r.set } };
}

impl Replayer {
    /// Nothing read yet, and no flags; `fp_layout` hands it a slot's image, then each batch. A set
    /// of changes in a slot of version 1 is damage at its kind; an edit that the set doesn't accept
    /// at its own kind, or at that of the first change in it that the set doesn't accept.
    pub fn new(alloc: Global) -> Replayer
        ensures { result ≡ nothing_read }
    {
        Replayer {
            version: FIRST_VERSION,
            set: FlagSet::new(alloc, 0),
            alloc,
        }
    }

    /// The set as the image and the batches so far have made it.
    pub fn into_set(self) -> FlagSet
        ensures { result ≡ self.set }
    {
        self.set
    }
}

impl Reader for Replayer {
    ghost use Rattle.fp_recovery.specs.Refusals.{RefusesBatch, TakesBody};

    ghost takes = { TakesBody };

    ghost refuses = { RefusesBatch };

    fn take(&mut self, body: &[u8]) -> Result<(), BodyFault> {
        take_batch(self.alloc, &mut self.set, self.version, body)
    }
}

impl SlotReader for Replayer {
    ghost use Rattle.fp_recovery.specs.Refusals.{BeginsWith, RejectsImage};

    ghost begins = { BeginsWith };

    ghost rejects = { RejectsImage };

    fn begin(&mut self, version: u8, base: u64, limit: u64, image: &[u8]) -> Result<(), BodyFault> {
        self.version = version;
        self.set = read_image(self.alloc, base, limit, image)?;
        Ok(())
    }
}
