//! Why edits weren't kept.

/// Why edits weren't kept.
#[derive(Debug, Drop, Clone, Copy)]
pub enum CommitFault {
    /// The device failed, or there is no room for a batch and no generation to make it.
    StoreFailed,
    /// Memory was wanting.
    Memory,
}
