//! Why a frame shows no set.

ghost use Rattle.std.specs.Prelude.{◌≡◌};
ghost use Rattle.fp_shown.specs.declared.fault.ShownFault.TheVariants.{Memory};

use std::alloc::{AllocError, AllocFailed};
use thiserror::Error;

/// Why there is nothing to show.
#[derive(Debug, Drop, Clone, Copy, Error)]
pub enum ShownFault {
    /// No set of flags has the frame's revision and document.
    #[error("the document is none of a set of flags")]
    NoSet,
    /// There was no memory.
    #[error("out of memory")]
    Memory,
}

impl From<AllocError> for ShownFault {
    ghost from_gives = { λ _ e. e ≡ Memory };

    fn from(_: AllocError) -> ShownFault {
        ShownFault::Memory
    }
}

impl<T: Drop> From<AllocFailed<T>> for ShownFault {
    ghost from_gives = { λ _ e. e ≡ Memory };

    fn from(_: AllocFailed<T>) -> ShownFault {
        ShownFault::Memory
    }
}
