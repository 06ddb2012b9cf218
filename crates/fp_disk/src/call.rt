//! The calls of a disk in memory, as it records them.

ghost use Rattle.std.specs.Prelude.{◌≡◌, ◌↔◌, List, ℕ, IfOk, IsTrue};

use std::alloc::{AllocError, Global};
use std::marker::Model;

/// The bytes that a call brought.
#[derive(Drop)]
pub struct Bytes {
    bytes: Vec<u8>,
}

impl Model for Bytes {
    ghost Value = { List ℕ };

    ghost view = { λ b. b.bytes.items };
}

impl Bytes {
    /// A copy of these bytes.
    pub fn copy_of(alloc: Global, bytes: &[u8]) -> Result<Bytes, AllocError>
        ensures { IfOk result (λ b. b ≡ bytes.now) }
    {
        Ok(Bytes {
            bytes: bytes.to_vec(alloc)?,
        })
    }

    /// The bytes, in order.
    pub fn as_slice(&self) -> &[u8]
        ensures { result.now ≡ self.now }
    {
        self.bytes.as_slice()
    }
}

/// What was asked of a disk.
#[derive(Drop)]
pub enum Request {
    /// How many bytes there are.
    Len,
    /// So many bytes from a place on.
    Read { at: u64, length: usize },
    /// That these be put at a place.
    Write { at: u64, bytes: Bytes },
    /// That a crash leave what a read gives.
    Sync,
}

/// How much of a call was done. All but `Whole` are calls that failed.
#[derive(Clone, Copy, Debug, PartialEq, Eq)]
pub enum Progress {
    /// The call succeeded.
    Whole,
    /// A write put the first half of its bytes, rounded down, and failed.
    Half,
    /// The call failed and did nothing.
    Nothing,
}

impl Progress {
    /// Whether the call succeeded.
    pub fn is_whole(self) -> bool
        ensures { IsTrue result ↔ (self ≡ Progress.Whole) }
    {
        self == Progress::Whole
    }
}

/// A call of a disk, as the disk in memory records it.
#[derive(Drop)]
pub struct Call {
    pub request: Request,
    pub progress: Progress,
}
