//! Texts that an event may change.

/// Which texts of a desktop an event may change.
#[derive(Clone, Copy, Debug, PartialEq, Eq)]
pub enum Stale {
    /// None of them.
    Nothing,
    /// At most the one of this number.
    Text(u16),
    /// Any of them.
    All,
}
