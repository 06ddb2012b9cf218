//! What ends a run over an input before its end.

ghost use Rattle.std.specs.Prelude.{◌≡◌};

use crate::CommitFault;
use fp_streams::StreamFault;
use std::alloc::{AllocError, AllocFailed};
use std::error::Error;
use std::fmt;

/// Why an input wasn't answered to its end.
#[derive(Debug, Drop, Clone, Copy)]
pub enum ApplyFault {
    /// The reader or the writer failed.
    Device,
    /// What keeps the flags failed.
    StoreFailed,
    /// A growth was refused that no reply could tell of.
    Memory,
    /// A growth was refused that an edit wanted to be kept.
    CommitMemory,
}

impl ApplyFault {
    ghost use Rattle.fp_session.specs.Fault.{text_of};

    /// The text by which the program names the fault; `Display` shows the same.
    pub fn as_str(&self) -> &'static str
        ensures { result.now ≡ text_of self.now }
    {
        match self {
            ApplyFault::Device => "device fault",
            ApplyFault::StoreFailed => "store failed",
            ApplyFault::Memory | ApplyFault::CommitMemory => "out of memory",
        }
    }
}

impl fmt::Display for ApplyFault {
    ghost use Rattle.std.specs.Prelude.{Some};
    ghost use Rattle.fp_session.specs.Fault.{text_of};

    ghost output = { λ e. Some (text_of e) };

    fn fmt<W: fmt::Write>(&self, f: &mut fmt::Formatter<W>) -> fmt::Result {
        f.write_str(self.as_str())
    }
}

impl Error for ApplyFault {}

impl From<StreamFault> for ApplyFault {
    ghost use Rattle.fp_session.specs.Streams.{of_stream};

    ghost from_gives = { λ f e. e ≡ of_stream f };

    fn from(fault: StreamFault) -> ApplyFault {
        match fault {
            StreamFault::Device => ApplyFault::Device,
            StreamFault::Memory => ApplyFault::Memory,
        }
    }
}

impl From<CommitFault> for ApplyFault {
    ghost use Rattle.fp_session.specs.Fault.{of_commit};

    ghost from_gives = { λ f e. e ≡ of_commit f };

    fn from(fault: CommitFault) -> ApplyFault {
        match fault {
            CommitFault::StoreFailed => ApplyFault::StoreFailed,
            CommitFault::Memory => ApplyFault::CommitMemory,
        }
    }
}

impl From<AllocError> for ApplyFault {
    ghost use Rattle.fp_session.specs.declared.fault.ApplyFault.TheVariants.{Memory};

    ghost from_gives = { λ _ e. e ≡ Memory };

    fn from(_: AllocError) -> ApplyFault {
        ApplyFault::Memory
    }
}

impl<T: Drop> From<AllocFailed<T>> for ApplyFault {
    ghost use Rattle.fp_session.specs.declared.fault.ApplyFault.TheVariants.{Memory};

    ghost from_gives = { λ _ e. e ≡ Memory };

    fn from(_: AllocFailed<T>) -> ApplyFault {
        ApplyFault::Memory
    }
}
