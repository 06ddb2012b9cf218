//! Batches of edits.

/// How many edits are kept at once.
#[derive(Clone, Copy, Debug)]
pub enum Batching {
    /// Each by itself, since who asks for it waits for the reply.
    Single,
    /// As many as may wait together.
    Full,
}
