//! The text that a slot is to hold, as its bytes.

ghost use Rattle.std.specs.Prelude.{◌≡◌, ◌<◌, ◌≤◌, ◌+◌, ◌-◌, ◌^◌, [], ◌∷◌, ◌++◌, length};
ghost use Rattle.std.specs.Prelude.{slice_range, slice_set, IfOk, OnOk, OnErr};
ghost use Rattle.fp_gate.specs.declared.gate.TheConstants.{OPEN};
ghost use Rattle.fp_journal.specs.Chain.{with_gate};
ghost use Rattle.fp_journal.specs.State.{IsOnWay};
ghost use Rattle.fp_slots.specs.Head.{head_text};

use crate::places::IMAGE_PLACE;
use fp_disk::Disk;
use fp_gate::OPEN;
use fp_journal::{Journal, Phase};
use std::alloc::{AllocError, Global};

// The bytes of the body on its way, where there is one.
pub(crate) fn on_way<D: Disk>(journal: &Journal<D>) -> &[u8]
    ensures { IsOnWay journal.now.phase → result.now ≡ with_gate journal.now.staged }
{
    match journal.phase() {
        Phase::Idle | Phase::Failed => &[],
        Phase::Staged | Phase::BodySynced | Phase::GateOpened => journal.bytes_on_way(),
    }
}

// The head of a slot, the closed gate of its first batch, and these bytes behind it.
pub(crate) fn shut_head(
    alloc: Global,
    version: u8,
    generation: u64,
    base: u64,
    image: &[u8],
    behind: &[u8],
) -> Result<Vec<u8>, AllocError>
    requires { length image.now < 2 ^ 32 }
    ensures { IfOk result (λ v. v.items
        ≡ (head_text version generation base image.now ++ 0 ∷ []) ++ behind.now) }
{
    let mut bytes = [
        &[OPEN][..],
        &generation.to_be_bytes(),
        &[version],
        &base.to_be_bytes(),
        &(image.len() as u32).to_be_bytes(),
    ]
    .concat(alloc)?;
    bytes.extend_from_slice(image)?;
    bytes.push(0)?;
    bytes.extend_from_slice(behind)?;
    Ok(bytes)
}

// The planned bytes from one place up to another.
pub(crate) fn piece(planned: &Vec<u8>, from: usize, to: usize) -> &[u8]
    requires within { (from ≤ to) × (to ≤ length planned.now.items) }
    ensures bytes { result.now ≡ slice_range planned.now.items from to }
    ensures len { length result.now ≡ to - from }
{
    &planned[from..to]
}

// Puts these bytes behind the first so many, in place of all that was there.
pub(crate) fn put_behind(planned: &mut Vec<u8>, len: usize, bytes: &[u8]) -> Result<(), AllocError>
    requires { len ≤ length planned.old.items }
    ensures ok { OnOk result
        (planned.new.items ≡ slice_range planned.old.items 0 len ++ bytes.now) }
    ensures err { OnErr result (planned.new.items ≡ planned.old.items) }
{
    planned.reserve(bytes.len())?;
    planned.truncate(len);
    let Ok(()) = planned.extend_from_slice(bytes) else {
        unreachable!()
    };
    Ok(())
}

// Opens a gate among the bytes, and answers the place of the last of them.
pub(crate) fn open_between(planned: &mut Vec<u8>, at: usize) -> usize
    requires { at < length planned.old.items }
    ensures opened { planned.new.items ≡ slice_set planned.old.items at OPEN }
    ensures last { result + 1 ≡ length planned.old.items }
{
    let last = planned.len() - 1;
    planned[at] = OPEN;
    last
}
