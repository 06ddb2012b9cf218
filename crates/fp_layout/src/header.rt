//! The header in front of all the bytes of a disk.

ghost use Rattle.std.specs.Prelude.{◌≡◌, ◌≢◌, ◌≤◌, ◌<◌, ◌+◌, ◌↔◌, List, ℕ, IsTrue, length};
ghost use Rattle.std.specs.Prelude.{IfOk, IfErr, IfSome, IfNone};
ghost use Rattle.fp_journal.specs.Firsts.{AreFirst};
ghost use Rattle.fp_layout.specs.Size.{IsSlotSize};
ghost use Rattle.fp_layout.specs.Layout.{IsFormatted, IsHeader, AreZeros, IsFirstOther};
ghost use Rattle.fp_layout.specs.Faults.{RefusesHeader};
ghost use Rattle.fp_layout.specs.declared.fault.OpenFault.TheVariants.{Device};
ghost use Rattle.fp_layout.specs.declared.header.TheConstants.{HEADER};

use crate::fault::OpenFault;
use crate::field::u64_at;
use crate::size::SlotSize;
use fp_gate::OPEN;

/// How many bytes it has.
pub const HEADER: usize = 64;

/// Its version.
pub const HEADER_VERSION: u8 = 1;

/// The place of the version, of one byte, behind the magic text.
pub const HEADER_VERSION_PLACE: usize = 9;

/// The place of how many bytes a slot has, of eight bytes.
pub const SIZE_PLACE: usize = 10;

/// The place of the zeros that fill the header.
pub const ZEROS_PLACE: usize = 18;

/// How many they are.
pub const ZEROS: usize = HEADER - ZEROS_PLACE;

/// `FLAGPLN1` as a number.
pub const MAGIC: u64 = 0x464c_4147_504c_4e31;

// The first byte from there up to the stop that isn't 0.
fn first_other(bytes: &[u8], from: usize, stop: usize) -> Option<usize>
    requires { (from ≤ stop) × (stop ≤ length bytes.now) }
    ensures some { IfSome result (IsFirstOther bytes.now from stop) }
    ensures none { IfNone result (AreZeros bytes.now from stop) }
{
    for at in from..stop {
        if bytes[at] != 0 {
            return Some(at);
        }
    }
    None
}

// Whether the gate is open, and the magic text stands behind it.
fn is_formatted(bytes: &[u8]) -> bool
    ensures { IsTrue result ↔ IsFormatted bytes.now }
{
    bytes.len() >= HEADER && bytes[0] == OPEN && u64_at(bytes, 1) == MAGIC
}

// Reads the header of a disk of this length, of which these are the first bytes.
pub(crate) fn read_header(bytes: &[u8], len: u64) -> Result<SlotSize, OpenFault>
    ensures found { IfOk result (λ s. (c : List ℕ) → AreFirst c 0 HEADER bytes.now →
        length c ≡ len → IsHeader c s) }
    ensures allowed { IfOk result IsSlotSize }
    ensures within { IfOk result (λ s. HEADER + 1 + s ≤ len) }
    ensures fault { IfErr result (λ f. (c : List ℕ) → AreFirst c 0 HEADER bytes.now →
        length c ≡ len → RefusesHeader c f) }
    ensures no_device { IfErr result (λ e. e ≢ Device) }
{
    if !is_formatted(bytes) {
        return Err(OpenFault::Unformatted);
    }
    if bytes[HEADER_VERSION_PLACE] != HEADER_VERSION {
        return Err(OpenFault::UnknownVersion(bytes[HEADER_VERSION_PLACE]));
    }
    let Some(size) = SlotSize::new(u64_at(bytes, SIZE_PLACE)) else {
        return Err(OpenFault::Damaged {
            at: SIZE_PLACE as u64,
        });
    };
    if let Some(at) = first_other(bytes, ZEROS_PLACE, HEADER) {
        return Err(OpenFault::Damaged { at: at as u64 });
    }
    if len < HEADER as u64 + 1 + size.bytes() {
        return Err(OpenFault::Damaged { at: len });
    }
    Ok(size)
}
