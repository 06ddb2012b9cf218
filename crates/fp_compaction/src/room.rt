//! Room for a batch beside a compaction.

ghost use Rattle.std.specs.Prelude.{◌<◌, ◌≤◌, ◌+◌, ◌/◌, ◌^◌, ◌↔◌, IsTrue};
ghost use Rattle.fp_slots.specs.State.{HasBegun, IsEarly, IsGrowing};
ghost use Rattle.fp_compaction.specs.Batches.{HasRoomFor};
ghost use Rattle.fp_journal.specs.declared.framed.TheConstants.{FRAME};

use fp_disk::Disk;
use fp_journal::FRAME;
use fp_slots::{Slots, Step};

// Whether a compaction runs whose tail isn't written.
pub(crate) fn is_growing(step: Step) -> bool
    ensures { IsTrue result ↔ IsGrowing step }
{
    match step {
        Step::Begin | Step::SyncBody | Step::Open | Step::SyncOpen => false,
        Step::Close | Step::SyncClose | Step::Part | Step::Tail => true,
    }
}

// Whether a batch may be on its way.
fn is_early(step: Step) -> bool
    ensures { IsTrue result ↔ IsEarly step }
{
    match step {
        Step::SyncBody | Step::Open | Step::SyncOpen => false,
        Step::Begin | Step::Close | Step::SyncClose | Step::Part | Step::Tail => true,
    }
}

// Whether a compaction runs.
fn has_begun(step: Step) -> bool
    ensures { IsTrue result ↔ HasBegun step }
{
    match step {
        Step::Begin => false,
        Step::Close
        | Step::SyncClose
        | Step::Part
        | Step::Tail
        | Step::SyncBody
        | Step::Open
        | Step::SyncOpen => true,
    }
}

// Whether so many bytes more, and a gate and a length for them and a last gate,
// leave the tail within a quarter of its slot.
fn fits_tail(size: u64, tail: u64, len: u64) -> bool
    requires { len < 2 ^ 32 }
    ensures { IsTrue result ↔ (tail + len + FRAME ≤ size / 4) }
{
    let (quarter, more) = (size / 4, len + FRAME);
    more <= quarter && tail <= quarter - more
}

/// Whether there is room for a batch whose body has so many bytes. Exactly where it is as short as
/// its slot takes, fits behind the last gate, no tail was written yet, and, while a compaction
/// runs, the tail takes a quarter of a slot at most with it.
pub fn has_room<D: Disk>(slots: &Slots<D>, len: u64) -> bool
    ensures { IsTrue result ↔ HasRoomFor slots.now len }
{
    let journal = slots.journal();
    let step = slots.step();
    let (size, tail) = slots.beside();
    len <= u64::from(journal.slot().most)
        && len + FRAME <= journal.room()
        && is_early(step)
        && (!has_begun(step) || fits_tail(size, tail, len))
}
