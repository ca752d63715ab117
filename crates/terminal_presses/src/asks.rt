//! What is asked for.

/// What is asked for in the line below, and typed there.
#[derive(Clone, Copy, Debug, PartialEq, Eq)]
pub enum Asks {
    /// The name of a host file.
    File,
    /// The number of a line.
    Line,
    /// The words that are sought behind the caret.
    Words,
    /// The words that are sought before the caret.
    WordsBefore,
}
