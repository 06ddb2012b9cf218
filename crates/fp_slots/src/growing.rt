//! The text that the other slot is to hold grows by the batches that are sealed beside a
//! compaction.

ghost use Rattle.std.specs.Prelude.{◌≡◌, ◌≢◌, ◌<◌, ◌+◌, [], ◌∷◌, ◌++◌, length, OnOk, OnErr};
ghost use Rattle.fp_gate.specs.declared.gate.TheConstants.{OPEN};
ghost use Rattle.fp_journal.specs.Chain.{body_of, with_length, with_gate};
ghost use Rattle.fp_journal.specs.declared.journal.Phase.TheVariants.{Failed};
ghost use Rattle.fp_slots.specs.State.{IsGrowing, SamePlan};

use crate::planning::{open_between, put_behind};
use crate::slots::Slots;
use fp_disk::Disk;
use fp_journal::Framed;
use std::alloc::AllocError;

impl<D: Disk> Slots<D> {
    /// Keeps a body ready to go behind the planned text, before it is staged. It makes no call of
    /// the disk, and takes all memory that `lengthen` needs.
    pub fn plan_body(&mut self, framed: &Framed) -> Result<(), AllocError>
        // A compaction runs, and its tail isn't written.
        requires growing { IsGrowing self.old.step }
        // No call of the journal has failed.
        requires live { self.old.journal.phase ≢ Failed }
        // The slots and the planned text stay.
        ensures same { SamePlan self.old self.new }
        // `Ok`: the bytes of this body's write are kept ready.
        ensures ready { OnOk result (self.new.coming ≡ with_gate framed.now) }
        // Memory alone fails, and changes nothing.
        ensures err { OnErr result (self.new ≡ self.old) }
    {
        put_behind(&mut self.planned, self.ended + 1, framed.as_slice())?;
        Ok(())
    }

    /// Puts the body that is kept ready behind the planned text, once it is sealed. It makes no
    /// call of the disk.
    pub fn lengthen(&mut self)
        // A compaction runs, and its tail isn't written.
        requires growing { IsGrowing self.old.step }
        // No call of the journal has failed.
        requires live { self.old.journal.phase ≢ Failed }
        // A body is kept ready.
        requires ready { self.old.coming ≡ with_gate (body_of self.old.coming) }
        // It fits into the other slot, behind that text.
        requires fits { self.old.other.start
            + length (self.old.text ++ OPEN ∷ with_length (body_of self.old.coming))
            < self.old.other.stop }
        // It stands behind the planned text, with its length and an open gate, and is kept ready no
        // more.
        ensures grown { (self.new.text
            ≡ self.old.text ++ OPEN ∷ with_length (body_of self.old.coming))
            × (self.new.coming ≡ []) }
        // All else stays.
        ensures same { (self.new.journal ≡ self.old.journal) × (self.new.other ≡ self.old.other)
            × (self.new.generation ≡ self.old.generation) × (self.new.version ≡ self.old.version)
            × (self.new.may_open ≡ self.old.may_open) × (self.new.step ≡ self.old.step)
            × (self.new.head ≡ self.old.head) × (self.new.left ≡ self.old.left) }
    {
        self.ended = open_between(&mut self.planned, self.ended);
    }
}
