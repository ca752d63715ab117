//! What changes a file in memory.

/// A change of a file. Contracts alone see it.
#[derive(Drop)]
pub enum FileCall {
    /// An offset, and the byte written there.
    Byte(u64, u8),

    /// All that was written before it was settled.
    Sync,
}
