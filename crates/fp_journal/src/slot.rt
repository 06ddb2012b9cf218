//! A slot of a disk.

/// A part of a disk, and how long a body in it may be.
#[derive(Clone, Copy, Debug)]
pub struct Slot {
    /// Its first byte.
    pub start: u64,
    /// The place behind its last byte.
    pub stop: u64,
    /// The most bytes of a body.
    pub most: u32,
}
