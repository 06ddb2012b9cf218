//! Which of two slots rules.

ghost use Rattle.std.specs.Prelude.{◌≡◌, ◌<◌, ◌≤◌, ◌+◌, ◌^◌, List, ℕ, length, slice_index};
ghost use Rattle.std.specs.Prelude.{IfOk, IfErr};
ghost use Rattle.fp_gate.specs.declared.gate.TheConstants.{OPEN};
ghost use Rattle.fp_slots.specs.Rules.{HasGeneration, HasLeads, IsOneOf, IsRuling, RefusesSlots};
ghost use Rattle.fp_slots.specs.declared.places.TheConstants.{IMAGE_PLACE, VERSION_PLACE};

use crate::places::{GENERATION_PLACE, VERSION_PLACE};
use fp_gate::OPEN;
use fp_journal::Slot;

/// Why no slot of a disk rules.
#[derive(Clone, Copy, Debug)]
pub enum SlotFault {
    /// This byte is the first to show it.
    Damaged { at: u64 },
}

/// The slot that rules, the other one, and whether that one's gate is open.
#[derive(Clone, Copy)]
pub struct Active<'a> {
    /// The one that rules.
    pub slot: Slot,
    /// Its first bytes.
    pub bytes: &'a [u8],
    /// The other one.
    pub other: Slot,
    /// Whether the other one's gate is open.
    pub is_open: bool,
}

// The generation behind the gate of the slot of which these are the first bytes.
fn generation_of(bytes: &[u8]) -> u64
    requires { VERSION_PLACE ≤ length bytes.now }
    ensures { HasGeneration 0 result bytes.now }
{
    let at = GENERATION_PLACE;
    u64::from_be_bytes([
        bytes[at],
        bytes[at + 1],
        bytes[at + 2],
        bytes[at + 3],
        bytes[at + 4],
        bytes[at + 5],
        bytes[at + 6],
        bytes[at + 7],
    ])
}

/// Which of two slots rules, by the first bytes of both, or the place that shows that neither does.
pub fn pick<'a>(
    first: Slot,
    mine: &'a [u8],
    second: Slot,
    its: &'a [u8],
) -> Result<Active<'a>, SlotFault>
    // The first slot's bytes reach past its generation.
    requires whole { VERSION_PLACE ≤ length mine.now }
    // The second slot has its gate.
    requires there { 0 < length its.now }
    // Where the second slot's image begins is below 2^64.
    requires fits { second.start + IMAGE_PLACE < 2 ^ 64 }
    // `Ok`: one of the two with its first bytes, and the other one.
    ensures are { IfOk result (λ r.
        IsOneOf first mine.now second its.now r.slot r.bytes.now r.other) }
    // `Ok`: its gate is open.
    ensures open { IfOk result (λ r. slice_index r.bytes.now 0 ≡ OPEN) }
    // `Ok`: over any bytes that begin both slots so, it rules; and whether the other's gate is
    // open.
    ensures found { IfOk result (λ r. (c : List ℕ) → HasLeads first mine.now second its.now c →
        IsRuling r.slot.start r.other.start r.is_open c) }
    // The place that shows it: the first slot, where no gate is open; the end of the bytes, where a
    // generation is cut; behind the second gate, where both are equal.
    ensures fault { IfErr result (λ f. (c : List ℕ) → HasLeads first mine.now second its.now c →
        RefusesSlots first.start second.start c f) }
{
    let is_open = mine[0] == OPEN;
    if its[0] == OPEN {
        if is_open {
            return pick_by_generation(first, mine, second, its);
        }
        return Ok(Active {
            slot: second,
            bytes: its,
            other: first,
            is_open: false,
        });
    }
    if !is_open {
        return Err(SlotFault::Damaged { at: first.start });
    }
    Ok(Active {
        slot: first,
        bytes: mine,
        other: second,
        is_open: false,
    })
}

// Which of two slots rules whose gates are both open.
fn pick_by_generation<'a>(
    first: Slot,
    mine: &'a [u8],
    second: Slot,
    its: &'a [u8],
) -> Result<Active<'a>, SlotFault>
    requires whole { VERSION_PLACE ≤ length mine.now }
    requires there { 0 < length its.now }
    requires fits { second.start + IMAGE_PLACE < 2 ^ 64 }
    requires first_open { slice_index mine.now 0 ≡ OPEN }
    requires second_open { slice_index its.now 0 ≡ OPEN }
    ensures are { IfOk result (λ r.
        IsOneOf first mine.now second its.now r.slot r.bytes.now r.other) }
    ensures open { IfOk result (λ r. slice_index r.bytes.now 0 ≡ OPEN) }
    ensures found { IfOk result (λ r. (c : List ℕ) → HasLeads first mine.now second its.now c →
        IsRuling r.slot.start r.other.start r.is_open c) }
    ensures fault { IfErr result (λ f. (c : List ℕ) → HasLeads first mine.now second its.now c →
        RefusesSlots first.start second.start c f) }
{
    if its.len() < VERSION_PLACE {
        return Err(SlotFault::Damaged {
            at: second.start + its.len() as u64,
        });
    }
    let (generation, other) = (generation_of(mine), generation_of(its));
    if generation == other {
        return Err(SlotFault::Damaged {
            at: second.start + GENERATION_PLACE as u64,
        });
    }
    if other < generation {
        return Ok(Active {
            slot: first,
            bytes: mine,
            other: second,
            is_open: true,
        });
    }
    Ok(Active {
        slot: second,
        bytes: its,
        other: first,
        is_open: true,
    })
}
