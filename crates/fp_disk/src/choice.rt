//! What a crash leaves, as a trial chooses it.

ghost use Rattle.std.specs.Prelude.{◌≡◌};
ghost use Rattle.fp_disk.specs.Crash.{byte_of_seed, byte_of_fill};

/// What becomes of a byte that a crash leaves open.
#[derive(Clone, Copy, Debug)]
pub enum Fill {
    /// What it was before the write.
    Old,
    /// What was written.
    New,
    /// This byte.
    Byte(u8),
    /// A byte drawn from this seed and the byte's place.
    Seed(u64),
}

/// What a crash leaves, of all that it may.
#[derive(Clone, Copy)]
pub struct Choice<'a> {
    /// How many bytes: of the numbers that a crash may leave, the nearest to this.
    pub length: u64,
    /// What becomes of the bytes of each write since the last sync, in the order of the writes. A
    /// write that failed counts.
    pub writes: &'a [Fill],
    /// What becomes of the writes behind those, and of the bytes that no write reached, past the
    /// end of what was synced, which were 0.
    pub rest: Fill,
}

#[tactic(auto, unfolding(crate::specs::Crash::byte_of_seed))]
// A byte from this seed, for this place.
pub(crate) fn draw(seed: u64, place: u64) -> u8
    ensures { result ≡ byte_of_seed seed place }
{
    let spread = place.wrapping_mul(0x9e37_79b9_7f4a_7c15).wrapping_add(seed);
    let folded = spread.wrapping_add(spread / 0x1_0000_0000);
    let mixed = folded.wrapping_mul(0xd6e8_feb8_6659_fd93);
    (mixed / 0x100_0000_0000_0000) as u8
}

impl Fill {
    // The byte at a place where these were.
    pub(crate) fn of(self, place: usize, old: u8, new: u8) -> u8
        ensures { result ≡ byte_of_fill self place old new }
    {
        match self {
            Fill::Old => old,
            Fill::New => new,
            Fill::Byte(byte) => byte,
            Fill::Seed(seed) => draw(seed, place as u64),
        }
    }
}
