//! Why bytes are no frames.

ghost use Rattle.std.specs.Prelude.{◌≡◌};
ghost use Rattle.fp_stream.specs.declared.fault.FrameFault.TheVariants.{Memory};

use std::alloc::{AllocError, AllocFailed};
use thiserror::Error;

/// Why a decoder gave no frames.
#[derive(Debug, Drop, Clone, Copy, Error)]
pub enum FrameFault {
    /// What stands in a head's place doesn't begin as a head.
    #[error("no frame")]
    BadMagic,
    /// The head tells of a body that is longer than any.
    #[error("a body that is too long")]
    TooLong,
    /// The revision isn't above the one that the subscriber has.
    #[error("a revision that does not rise")]
    NotRising,
    /// There was no memory, and nothing of the piece was taken.
    #[error("out of memory")]
    Memory,
    /// A fault was told before.
    #[error("the stream has failed")]
    Failed,
}

impl From<AllocError> for FrameFault {
    ghost from_gives = { λ _ e. e ≡ Memory };

    fn from(_e: AllocError) -> FrameFault {
        FrameFault::Memory
    }
}

impl<T: Drop> From<AllocFailed<T>> for FrameFault {
    ghost from_gives = { λ _ e. e ≡ Memory };

    fn from(_e: AllocFailed<T>) -> FrameFault {
        FrameFault::Memory
    }
}
