//! Why a document isn't taken.

ghost use Rattle.std.specs.Prelude.{◌≡◌};

use fp_definition::{DefFault, FlagKey};
use std::alloc::{AllocError, AllocFailed};

/// Why a document isn't taken. Flags are looked at in the order of their keys, and the first fault
/// is answered.
#[derive(Debug, Drop)]
pub enum ImportFault {
    /// The value is no object, `flags` in it is none, or `$evaluators` is there and is none.
    NotDocument,
    /// A reference names an evaluator that there isn't.
    RefUnknown(String),
    /// A reference stands inside too many replacements.
    RefTooDeep,
    /// The flag's definition has this fault, once its references are replaced.
    Flag(FlagKey, DefFault),
    /// Memory ran out.
    Memory,
    /// A flag's name is no key.
    BadKey(String),
}

impl From<AllocError> for ImportFault {
    ghost use Rattle.fp_imports.specs.declared.faults.ImportFault.TheVariants.{Memory};

    ghost from_gives = { λ _ e. e ≡ Memory };

    fn from(_: AllocError) -> ImportFault {
        ImportFault::Memory
    }
}

impl<T: Drop> From<AllocFailed<T>> for ImportFault {
    ghost use Rattle.fp_imports.specs.declared.faults.ImportFault.TheVariants.{Memory};

    ghost from_gives = { λ _ e. e ≡ Memory };

    fn from(_: AllocFailed<T>) -> ImportFault {
        ImportFault::Memory
    }
}

// Why the references in a targeting can't be replaced.
#[derive(Drop)]
pub(crate) enum ReferenceFault {
    Unknown(String),
    TooDeep,
    TooLarge,
    Memory,
}

impl From<AllocError> for ReferenceFault {
    ghost use Rattle.fp_imports.specs.declared.faults.ReferenceFault.TheVariants.{Memory};

    ghost from_gives = { λ _ e. e ≡ Memory };

    fn from(_: AllocError) -> ReferenceFault {
        ReferenceFault::Memory
    }
}

impl<T: Drop> From<AllocFailed<T>> for ReferenceFault {
    ghost use Rattle.fp_imports.specs.declared.faults.ReferenceFault.TheVariants.{Memory};

    ghost from_gives = { λ _ e. e ≡ Memory };

    fn from(_: AllocFailed<T>) -> ReferenceFault {
        ReferenceFault::Memory
    }
}
