//! Why a store refuses.

use fp_layout::CreateFault as LayoutFault;

/// Why a disk wasn't made, in the order of the tests.
#[derive(Clone, Copy, Debug)]
pub enum CreateFault {
    /// There are bytes already.
    NotEmpty,
    /// A slot can't have this size.
    BadSize,
    /// The device refused.
    Device,
    /// Memory ran out.
    Memory,
}

/// Why a call of a store wasn't done.
#[derive(Clone, Copy, Debug)]
pub enum StoreFault {
    /// The device refused. From then on the store has failed, and its disk is to be opened again.
    Device,
    /// The store had failed before.
    Failed,
    /// Memory ran out, and nothing changed.
    Memory,
    /// The draw doesn't go on from what is sealed, and nothing changed.
    Stranger,
}
