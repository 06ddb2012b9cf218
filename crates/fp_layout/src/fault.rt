//! Why a disk can't be opened.

ghost use Rattle.std.specs.Prelude.{◌≡◌};
ghost use Rattle.fp_layout.specs.Faults.{fault_of_bytes, fault_of_chain, fault_of_slots};
ghost use Rattle.fp_layout.specs.declared.fault.OpenFault.TheVariants.{Device};

use fp_disk::DiskFault;
use fp_journal::{BytesFault, ChainFault};
use fp_slots::SlotFault;

/// Why a disk can't be opened.
#[derive(Clone, Copy, Debug)]
pub enum OpenFault {
    /// It doesn't begin as a disk of this layout.
    Unformatted,
    /// It is of another version.
    UnknownVersion(u8),
    /// This byte is the first to show it.
    Damaged { at: u64 },
    /// The device refused.
    Device,
    /// Memory ran out.
    Memory,
}

impl From<DiskFault> for OpenFault {
    ghost from_gives = { λ _ e. e ≡ Device };

    fn from(_fault: DiskFault) -> OpenFault {
        OpenFault::Device
    }
}

impl From<BytesFault> for OpenFault {
    ghost from_gives = { λ f e. e ≡ fault_of_bytes f };

    fn from(fault: BytesFault) -> OpenFault {
        match fault {
            BytesFault::Device => OpenFault::Device,
            BytesFault::Memory => OpenFault::Memory,
        }
    }
}

impl From<ChainFault> for OpenFault {
    ghost from_gives = { λ f e. e ≡ fault_of_chain f };

    fn from(fault: ChainFault) -> OpenFault {
        match fault {
            ChainFault::Damaged { at } => OpenFault::Damaged { at },
            ChainFault::Device => OpenFault::Device,
            ChainFault::Memory => OpenFault::Memory,
        }
    }
}

impl From<SlotFault> for OpenFault {
    ghost from_gives = { λ f e. e ≡ fault_of_slots f };

    fn from(fault: SlotFault) -> OpenFault {
        match fault {
            SlotFault::Damaged { at } => OpenFault::Damaged { at },
        }
    }
}
