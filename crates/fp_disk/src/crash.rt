//! A crash of a disk in memory: the synced bytes, and each pending write as it was chosen.

ghost use Rattle.std.specs.Prelude.{◌≡◌, ◌≤◌, ◌<◌, ◌-◌, ℕ, [], length, slice_index, slice_index_or};
ghost use Rattle.std.specs.Prelude.{if◌then◌else◌, IfOk};
ghost use Rattle.fp_disk.specs.Outcomes.{IsOutcome};
ghost use Rattle.fp_disk.specs.Memory.{HoldsBytes, state, fresh, unsynced_of, writes_after};
ghost use Rattle.fp_disk.specs.Crash.{IsLeft, byte_of_fill, fill_of, byte_after_writes, reaches};

use crate::call::{Call, Request};
use crate::choice::{Choice, Fill};
use crate::memory::MemoryDisk;
use std::alloc::{AllocError, Global};

// The synced bytes, and more up to this length.
fn synced_and_more(
    alloc: Global,
    synced: &[u8],
    len: usize,
    rest: Fill,
) -> Result<Vec<u8>, AllocError>
    requires { length synced.now ≤ len }
    ensures len { IfOk result (λ v. length v.items ≡ len) }
    ensures places { IfOk result
        (λ v. (k : ℕ) → k < len →
        slice_index v.items k ≡ slice_index_or synced.now k (byte_of_fill rest k 0 0)) }
{
    let mut left = synced.to_vec(alloc)?;
    for place in synced.len()..len {
        left.push(rest.of(place, 0, 0))?;
    }
    Ok(left)
}

// One write, as it was chosen.
fn lay(left: &mut [u8], at: u64, bytes: &[u8], fill: Fill)
    ensures len { length left.new ≡ length left.old }
    ensures places { (k : ℕ) → k < length left.old →
        slice_index left.new k ≡
        (if reaches (at, bytes.now) k then byte_of_fill fill k (slice_index left.old k)
        (slice_index bytes.now (k - at)) else slice_index left.old k) }
{
    let first = at as usize;
    let end = left.len().min(first.saturating_add(bytes.len()));
    for place in first..end {
        left[place] = fill.of(place, left[place], bytes[place - first]);
    }
}

// What becomes of the write of this number.
fn nth(fills: &[Fill], number: usize, rest: Fill) -> Fill
    ensures { result ≡ fill_of fills.now rest number }
{
    fills.get(number).copied().unwrap_or(rest)
}

// All writes of these calls, as they were chosen.
fn lay_all(left: &mut [u8], calls: &[Call], fills: &[Fill], rest: Fill)
    ensures len { length left.new ≡ length left.old }
    ensures places { (k : ℕ) → k < length left.old →
        slice_index left.new k ≡ byte_after_writes fills.now rest (writes_after [] calls.now) k
        (slice_index left.old k) }
{
    let mut number = 0usize;
    for call in calls {
        if let Request::Write { at, bytes } = &call.request {
            lay(left, *at, bytes.as_slice(), nth(fills, number, rest));
            number += 1;
        }
    }
}

impl MemoryDisk {
    // The bytes that a crash leaves at this moment.
    fn left_by(&self, choice: &Choice<'_>) -> Result<Vec<u8>, AllocError>
        ensures { IfOk result
            (λ v. IsLeft choice.now.length choice.now.writes.now choice.now.rest
            (state self.now) v.items) }
    {
        let len = self
            .synced
            .len()
            .max(choice.length.min(self.reach) as usize);
        let mut left = synced_and_more(self.alloc, &self.synced, len, choice.rest)?;
        lay_all(
            &mut left,
            &self.calls[self.all_synced..],
            choice.writes,
            choice.rest,
        );
        Ok(left)
    }

    /// The disk after a crash at this moment, of which no call fails. The choice says which of the
    /// crash states it is; a write that failed may be shown whole.
    pub fn crash(self, choice: Choice<'_>) -> Result<MemoryDisk, AllocError>
        // `Ok`: it holds exactly the bytes that were chosen.
        ensures left { IfOk result
            (λ m. IsLeft choice.entry.length choice.entry.writes.now choice.entry.rest
            (state self) m.first) }
        // `Ok`: they are a crash state of this moment.
        ensures outcome { IfOk result (λ m. IsOutcome (unsynced_of (state self)) m.first) }
        // `Ok`: nothing is pending, and no call was made.
        ensures fresh { IfOk result (λ m. m ≡ fresh m.first) }
        // `Ok`: it holds nothing but bytes, so it is honest.
        ensures honest { IfOk result (λ m. HoldsBytes m.first m.calls) }
    {
        MemoryDisk::holding(self.alloc, self.left_by(&choice)?)
    }
}
