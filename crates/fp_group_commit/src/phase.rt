//! How far a batch is on its way.

/// How far a batch is on its way, so which call comes next.
#[derive(Clone, Copy, Debug)]
pub enum Phase {
    /// None is.
    Idle,
    /// It was written behind the closed gate.
    Staged,
    /// It is synced.
    BodySynced,
    /// The gate in front of it was written open.
    GateOpened,
}
