//! What stands in a slot in front of its batches.

ghost use Rattle.std.specs.Prelude.{◌≡◌, ◌≢◌, ◌<◌, ◌≤◌, ◌+◌, ◌-◌, ◌/◌, ◌^◌, List, ℕ};
ghost use Rattle.std.specs.Prelude.{length, min, slice_index, IfOk, IfErr, IfSome, IfNone};
ghost use Rattle.fp_gate.specs.declared.gate.TheConstants.{OPEN};
ghost use Rattle.fp_layout.specs.Layout.{HasVersion, HasBase, HasLength, front_text};
ghost use Rattle.fp_layout.specs.Faults.{IsDamage, BreaksHead};
ghost use Rattle.fp_layout.specs.declared.fault.OpenFault.TheVariants.{Device};
ghost use Rattle.fp_layout.specs.declared.head.TheConstants.{BASES_END};
ghost use Rattle.fp_slots.specs.Head.{IsVersion};
ghost use Rattle.fp_slots.specs.Rules.{IsLead};
ghost use Rattle.fp_slots.specs.declared.places.TheConstants.{IMAGE_PLACE};

use crate::fault::OpenFault;
use crate::field::{u32_at, u64_at};
use crate::size::SlotSize;
use fp_slots::{
    BASE_PLACE, FIRST_VERSION, GENERATION_PLACE, IMAGE_PLACE, LENGTH_PLACE, VERSION, VERSION_PLACE,
};

/// No image is of this revision or a later one.
pub const BASES_END: u64 = 1 << 63;

/// What stands in a slot in front of its image.
#[derive(Clone, Copy)]
pub(crate) struct Head {
    /// How what stands behind it is written.
    pub(crate) version: u8,
    /// Which of two slots is the later one.
    pub(crate) generation: u64,
    /// The revision of the image.
    pub(crate) base: u64,
    /// How many bytes the image has.
    pub(crate) len: usize,
}

// The version behind the gate and the generation, where there is one that is read.
fn version_of(bytes: &[u8]) -> Option<u8>
    ensures some { IfSome result (HasVersion bytes.now 0) }
    ensures none { IfNone result ((version : ℕ) → HasVersion bytes.now 0 version → ⊥) }
{
    if bytes.len() < BASE_PLACE {
        return None;
    }
    let version = bytes[VERSION_PLACE];
    if version < FIRST_VERSION || version > VERSION {
        return None;
    }
    Some(version)
}

// The revision of the image, where there is one.
fn base_of(bytes: &[u8]) -> Option<u64>
    ensures some { IfSome result (HasBase bytes.now 0) }
    ensures none { IfNone result ((base : ℕ) → HasBase bytes.now 0 base → ⊥) }
{
    if bytes.len() < LENGTH_PLACE {
        return None;
    }
    let base = u64_at(bytes, BASE_PLACE);
    if base >= BASES_END {
        return None;
    }
    Some(base)
}

// How many bytes the image has, where that is told and not too many.
fn length_of(bytes: &[u8], size: SlotSize) -> Option<usize>
    ensures some { IfSome result (HasLength bytes.now 0 size) }
    ensures none { IfNone result ((len : ℕ) → HasLength bytes.now 0 size len → ⊥) }
{
    if bytes.len() < IMAGE_PLACE {
        return None;
    }
    let len = u32_at(bytes, LENGTH_PLACE);
    if u64::from(len) > size.bytes() / 2 {
        return None;
    }
    Some(len as usize)
}

// Reads the head of the slot that begins there and has these first bytes, on a disk of this length.
pub(crate) fn read_head(
    bytes: &[u8],
    slot: u64,
    len: u64,
    size: SlotSize,
) -> Result<Head, OpenFault>
    requires open { slice_index bytes.now 0 ≡ OPEN }
    requires many { length bytes.now ≡ min IMAGE_PLACE (len - slot) }
    requires fits { slot + IMAGE_PLACE < 2 ^ 64 }
    ensures text { IfOk result (λ h.
        bytes.now ≡ front_text h.version h.generation h.base h.len) }
    ensures known { IfOk result (λ h. IsVersion h.version) }
    ensures small { IfOk result (λ h.
        (h.generation < 2 ^ 64) × (h.base < BASES_END) × (h.len ≤ size / 2)) }
    ensures within { IfOk result (λ h. slot + IMAGE_PLACE + h.len ≤ len) }
    ensures fault { IfErr result (λ f. (c : List ℕ) → IsLead c slot bytes.now →
        length c ≡ len → IsDamage (BreaksHead c slot size) f) }
    ensures no_device { IfErr result (λ e. e ≢ Device) }
{
    if bytes.len() < VERSION_PLACE {
        return Err(OpenFault::Damaged {
            at: slot + GENERATION_PLACE as u64,
        });
    }
    let Some(version) = version_of(bytes) else {
        return Err(OpenFault::Damaged {
            at: slot + VERSION_PLACE as u64,
        });
    };
    let Some(base) = base_of(bytes) else {
        return Err(OpenFault::Damaged {
            at: slot + BASE_PLACE as u64,
        });
    };
    let Some(image) = length_of(bytes, size) else {
        return Err(OpenFault::Damaged {
            at: slot + LENGTH_PLACE as u64,
        });
    };
    let place = slot + IMAGE_PLACE as u64;
    if len - place < image as u64 {
        return Err(OpenFault::Damaged { at: place });
    }
    Ok(Head {
        version,
        generation: u64_at(bytes, GENERATION_PLACE),
        base,
        len: image,
    })
}
