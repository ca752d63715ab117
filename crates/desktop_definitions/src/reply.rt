//! What the desktop replies to an event.

/// What the desktop replies to an event.
#[derive(Clone, Copy, Debug, PartialEq, Eq)]
pub enum Reply {
    /// It was done.
    Done,
    /// It was refused, with one of the `codes`: the desktop is as it was.
    No(u8),
}
