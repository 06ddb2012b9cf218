//! Why bytes are no record.

ghost use Rattle.std.specs.Prelude.{◌≡◌};
ghost use Rattle.fp_record.specs.declared.fault.RecordFault.TheVariants.{Memory};

use std::alloc::{AllocError, AllocFailed};
use thiserror::Error;

/// Why bytes weren't decoded.
#[derive(Debug, Drop, Clone, Copy, Error)]
pub enum RecordFault {
    /// The bytes spell no value. `at` is where the first field that can't stand begins, counted
    /// from the first byte; of bytes that are left over it is the first.
    #[error("no record at byte {at}")]
    BadRecord { at: usize },
    /// There was no memory for the value.
    #[error("out of memory")]
    Memory,
}

impl From<AllocError> for RecordFault {
    ghost from_gives = { λ _ e. e ≡ Memory };

    fn from(_e: AllocError) -> RecordFault {
        RecordFault::Memory
    }
}

impl<T: Drop> From<AllocFailed<T>> for RecordFault {
    ghost from_gives = { λ _ e. e ≡ Memory };

    fn from(_e: AllocFailed<T>) -> RecordFault {
        RecordFault::Memory
    }
}
