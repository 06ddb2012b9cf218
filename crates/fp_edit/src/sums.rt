//! The numbers of a set that its limits bind: of flags, and while the parts of an edit are made.

ghost use Rattle.std.specs.Prelude.{◌≡◌, ◌+◌, ◌<◌, ◌≤◌, ◌^◌, ℕ, length};
ghost use Rattle.std.specs.FinMap as map;
ghost use Rattle.fp_edit.specs.Admits.{flags_after, part_after};
ghost use Rattle.fp_edit.specs.Flags.{Flags, State, cost_found, size as size_of, total_cost};
ghost use Rattle.fp_edit.specs.Lent.{lent, lent_change, lent_parts};
ghost use Rattle.fp_edit.specs.Parts.{part_key};
ghost use Rattle.fp_documents.specs.Entries.{entries_of};
ghost use Rattle.fp_documents.specs.declared.flags.TheConstants.{IMAGE_HEAD};

use crate::changes::MOST_CHANGES;
use crate::lent::{EditParts, LentPart};
use fp_definition::FlagKey;
use fp_documents::{Flag, IMAGE_HEAD, cost_of};

/// The number of flags and the bytes of their image.
#[derive(Clone, Copy)]
pub struct Sums {
    pub count: u128,
    pub size: u128,
}

/// The numbers behind a part at a key whose flag takes `found` bytes of the image, 0 without one.
pub fn sums_after(sums: Sums, part: LentPart<'_>, found: u128) -> Sums
    // These bytes are among those counted.
    requires found { found ≤ sums.size }
    // So is the flag, if there is one.
    requires some { 0 < found → 0 < sums.count }
    // The numbers are below 2^100.
    requires small { (sums.count < 2 ^ 100) × (sums.size < 2 ^ 100) }
    // A part brings one flag at most, and 2^66 bytes.
    ensures grown { (result.count ≤ sums.count + 1) × (result.size ≤ sums.size + 2 ^ 66) }
    // The numbers of any flags, of which the one at the key takes `found` bytes, become those of
    // the flags behind the part.
    ensures after { (revision : ℕ) (flags : Flags) → sums.count ≡ map.len flags
        → sums.size ≡ size_of flags
        → found ≡ cost_found (part_key (lent part.entry).part)
        (map.get flags (part_key (lent part.entry).part))
        → (result.count ≡ map.len (part_after revision flags (lent part.entry).part))
        × (result.size ≡ size_of (part_after revision flags (lent part.entry).part)) }
    // Where `found` is 0, numbers that any flags don't pass become numbers that those behind the
    // part don't pass.
    ensures most { found ≡ 0 → (revision : ℕ) (flags : Flags) → map.len flags ≤ sums.count
        → size_of flags ≤ sums.size
        → (map.len (part_after revision flags (lent part.entry).part) ≤ result.count)
        × (size_of (part_after revision flags (lent part.entry).part) ≤ result.size) }
{
    Sums {
        count: sums.count + u128::from(part.flag.is_some()) - u128::from(found > 0),
        size: sums.size + part.cost() - found,
    }
}

/// What the numbers are at most behind parts, as if nothing stood at their keys.
pub fn most_with(sums: Sums, parts: EditParts<'_>) -> Sums
    // There are 64 parts at most.
    requires few { length (lent_parts parts) ≤ MOST_CHANGES }
    // The numbers are below 2^64.
    requires small { (sums.count < 2 ^ 64) × (sums.size < 2 ^ 64) }
    // Numbers that a set's don't pass become numbers that those behind the parts don't pass.
    ensures { (s : State) → map.len s.flags ≤ sums.count → size_of s.flags ≤ sums.size
        → (map.len (flags_after s (lent_change parts.entry)) ≤ result.count)
        × (size_of (flags_after s (lent_change parts.entry)) ≤ result.size) }
{
    let mut most = sums;
    for i in 0..parts.len() {
        most = sums_after(most, parts.lend(i), 0);
    }
    most
}

/// What the image of these flags takes.
pub fn size_of_flags(flags: &[(FlagKey, Flag)]) -> u64
    requires { IMAGE_HEAD + total_cost (entries_of flags.now) < 2 ^ 64 }
    ensures { result ≡ IMAGE_HEAD + total_cost (entries_of flags.now) }
{
    let mut size = IMAGE_HEAD;
    for (key, flag) in flags {
        size += cost_of(key, &flag.definition) as u64;
    }
    size
}
