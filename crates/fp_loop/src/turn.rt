//! What a connection's turn came to.

/// How many reads and writes one turn may take, so that a busy connection leaves time for others.
pub(crate) const ROUNDS: u32 = 16;

/// What a connection's turn came to.
#[derive(Debug, Drop, Clone, Copy, PartialEq, Eq)]
pub(crate) enum Turn {
    /// It waits for its socket, or for news.
    Waits,
    /// It could go on, once others had their turns.
    Goes,
    /// It has ended.
    Over,
}
