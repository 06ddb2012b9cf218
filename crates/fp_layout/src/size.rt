//! How many bytes a slot has.

ghost use Rattle.std.specs.Prelude.{◌≡◌, ◌<◌, ◌+◌, ◌-◌, ◌/◌, ◌↔◌, IsSome, IfSome};
ghost use Rattle.fp_layout.specs.Size.{IsSlotSize, first_slot, second_slot};
ghost use Rattle.fp_layout.specs.declared.size.TheConstants.{STANDARD_SLOT};

use crate::header::HEADER;
use fp_journal::{FRAME, Slot};
use std::marker::Model;

/// How many bytes a slot of a new disk has, as the program makes it.
pub const STANDARD_SLOT: u64 = 1 << 24;

/// The fewest bytes that a slot has.
pub const SMALLEST_SLOT: u64 = 1 << 18;

/// The most bytes that a slot has.
pub const LARGEST_SLOT: u64 = 1 << 30;

/// How many bytes a slot has: a power of two from `SMALLEST_SLOT` to `LARGEST_SLOT`.
#[derive(Clone, Copy, Debug)]
pub struct SlotSize {
    bytes: u64,
}

impl Model for SlotSize {
    ghost use Rattle.std.specs.Prelude.{ℕ};
    ghost use Rattle.std.specs.Coded.{coded_ℕ};
    ghost use Rattle.fp_layout.specs.Size.{IsSlotSize};

    ghost Value = { ℕ };

    ghost coded = { coded_ℕ };

    ghost view = { λ s. s.bytes };

    ghost invariant = { λ s. IsSlotSize s.bytes };

    ghost inverse = { λ n. record { bytes = n } };
}

impl SlotSize {
    /// The size that the program gives the slots of a new disk, 2^24 bytes.
    pub const fn standard() -> SlotSize
        ensures { result ≡ STANDARD_SLOT }
    {
        SlotSize {
            bytes: STANDARD_SLOT,
        }
    }

    /// The size of this many bytes, if a slot may have it.
    pub fn new(bytes: u64) -> Option<SlotSize>
        // There is one exactly where the number is a power of two from 2^18 to 2^30.
        ensures allowed { IsSome result ↔ IsSlotSize bytes }
        // It has so many bytes.
        ensures value { IfSome result (λ s. s ≡ bytes) }
    {
        if bytes.is_power_of_two() && (SMALLEST_SLOT..=LARGEST_SLOT).contains(&bytes) {
            Some(SlotSize { bytes })
        } else {
            None
        }
    }

    /// How many bytes that is.
    pub fn bytes(self) -> u64
        ensures bytes { result ≡ self }
        // A power of two from 2^18 to 2^30.
        ensures allowed { IsSlotSize result }
    {
        self.bytes
    }

    /// The first slot, which begins behind the header, at 64. A batch with both its gates takes an
    /// eighth of it at most.
    pub fn first_slot(self) -> Slot
        ensures slot { result ≡ first_slot self }
        // The size is a power of two from 2^18 to 2^30.
        ensures allowed { IsSlotSize self }
    {
        Slot {
            start: HEADER as u64,
            stop: HEADER as u64 + self.bytes,
            most: (self.bytes / 8 - FRAME) as u32,
        }
    }

    /// The second slot, which begins behind the first. A batch with both its gates takes an eighth
    /// of it at most.
    pub fn second_slot(self) -> Slot
        ensures slot { result ≡ second_slot self }
    {
        let first = self.first_slot();
        Slot {
            start: first.stop,
            stop: first.stop + self.bytes,
            most: first.most,
        }
    }
}
