//! Why a command gave up.

ghost use Rattle.std.specs.Prelude.{◌≡◌};
ghost use Rattle.fp_commands.specs.Faults.{of_import, of_open, of_run, of_stream};
ghost use Rattle.fp_commands.specs.declared.fault.CommandFault.TheVariants.{Device, Memory};

use fp_definition::{DefFault, FlagKey};
use fp_disk::DiskFault;
use fp_imports::ImportFault;
use fp_layout::OpenFault;
use fp_session::ApplyFault;
use fp_streams::StreamFault;
use std::alloc::AllocError;
use std::error::Error;
use std::fmt;

/// Why a command gave up.
#[derive(Debug, Drop)]
pub enum CommandFault {
    /// There are bytes where a disk was to be made.
    NotEmpty,
    /// The bytes don't begin as a disk of this program.
    Unformatted,
    /// The disk is of another version.
    UnknownVersion(u8),
    /// This byte is the first to show that the disk isn't sound.
    Damaged { at: u64 },
    /// A disk, a reader or a writer failed, or a file wasn't opened.
    Device,
    /// The disk failed as an edit was kept, or has no room for it.
    StoreFailed,
    /// Memory ran out.
    Memory,
    /// What was read is no flagd document.
    NotDocument,
    /// A reference names an evaluator that there isn't.
    UnknownEvaluator(String),
    /// A reference stands inside too many replacements.
    EvaluatorsTooDeep,
    /// A flag's name is no key.
    BadKey,
    /// The flag's definition has this fault.
    Flag(FlagKey, DefFault),
}

impl fmt::Display for CommandFault {
    ghost use Rattle.std.specs.Prelude.{Some};
    ghost use Rattle.fp_commands.specs.Faults.{fault_text};

    ghost output = { λ e. Some (fault_text e) };

    fn fmt<W: fmt::Write>(&self, f: &mut fmt::Formatter<W>) -> fmt::Result {
        match self {
            CommandFault::NotEmpty => f.write_str("file is not empty"),
            CommandFault::Unformatted => f.write_str("not a flagplane file"),
            CommandFault::UnknownVersion(version) => write!(f, "unknown version {version}"),
            CommandFault::Damaged { at } => write!(f, "damaged at byte {at}"),
            CommandFault::Device => f.write_str(ApplyFault::Device.as_str()),
            CommandFault::StoreFailed => f.write_str(ApplyFault::StoreFailed.as_str()),
            CommandFault::Memory => f.write_str(ApplyFault::Memory.as_str()),
            CommandFault::NotDocument => f.write_str("not a flag document"),
            CommandFault::UnknownEvaluator(name) => write!(f, "unknown evaluator {name}"),
            CommandFault::EvaluatorsTooDeep => f.write_str("evaluators nested too deep"),
            CommandFault::BadKey => f.write_str("bad key"),
            CommandFault::Flag(key, fault) => {
                let key = key.as_str();
                let fault = fault.as_str();
                write!(f, "flag {key}: {fault}")
            }
        }
    }
}

impl Error for CommandFault {}

impl From<StreamFault> for CommandFault {
    ghost from_gives = { λ f e. e ≡ of_stream f };

    fn from(fault: StreamFault) -> CommandFault {
        match fault {
            StreamFault::Device => CommandFault::Device,
            StreamFault::Memory => CommandFault::Memory,
        }
    }
}

impl From<AllocError> for CommandFault {
    ghost from_gives = { λ _ e. e ≡ Memory };

    fn from(_fault: AllocError) -> CommandFault {
        CommandFault::Memory
    }
}

impl From<DiskFault> for CommandFault {
    ghost from_gives = { λ _ e. e ≡ Device };

    fn from(_fault: DiskFault) -> CommandFault {
        CommandFault::Device
    }
}

impl From<OpenFault> for CommandFault {
    ghost from_gives = { λ f e. e ≡ of_open f };

    fn from(fault: OpenFault) -> CommandFault {
        match fault {
            OpenFault::Unformatted => CommandFault::Unformatted,
            OpenFault::UnknownVersion(version) => CommandFault::UnknownVersion(version),
            OpenFault::Damaged { at } => CommandFault::Damaged { at },
            OpenFault::Device => CommandFault::Device,
            OpenFault::Memory => CommandFault::Memory,
        }
    }
}

impl From<ImportFault> for CommandFault {
    ghost from_gives = { λ f e. e ≡ of_import f };

    fn from(fault: ImportFault) -> CommandFault {
        match fault {
            ImportFault::NotDocument => CommandFault::NotDocument,
            ImportFault::RefUnknown(name) => CommandFault::UnknownEvaluator(name),
            ImportFault::RefTooDeep => CommandFault::EvaluatorsTooDeep,
            ImportFault::Flag(key, fault) => CommandFault::Flag(key, fault),
            ImportFault::Memory => CommandFault::Memory,
            ImportFault::BadKey(_name) => CommandFault::BadKey,
        }
    }
}

impl From<ApplyFault> for CommandFault {
    ghost from_gives = { λ f e. e ≡ of_run f };

    fn from(fault: ApplyFault) -> CommandFault {
        match fault {
            ApplyFault::Device => CommandFault::Device,
            ApplyFault::StoreFailed => CommandFault::StoreFailed,
            ApplyFault::Memory | ApplyFault::CommitMemory => CommandFault::Memory,
        }
    }
}
