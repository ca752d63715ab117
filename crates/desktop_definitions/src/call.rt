//! Calls of commands, and the commands by what they take after their words.

/// A call: the word of a command stood in a text of a viewer.
#[derive(Clone, Copy, Debug, PartialEq, Eq)]
pub struct Call {
    /// The viewer's id.
    pub viewer: u16,
    /// Whether it stood in the menu; otherwise in the main text.
    pub in_menu: bool,
    /// The position after the word, where the parameters begin.
    pub after: u32,
}

/// A command that takes a name.
#[derive(Clone, Copy, Debug, PartialEq, Eq)]
pub enum NameCommand {
    /// Opens a copy of a file, or an empty text, in the user track.
    OpenDocument,
    /// Opens a copy of a file in the system track.
    OpenFile,
    /// Sets the font of what is typed.
    SetFont,
    /// Gives the newest selection a font.
    ChangeFont,
}

/// A command that takes a number.
#[derive(Clone, Copy, Debug, PartialEq, Eq)]
pub enum NumberCommand {
    /// Sets the colour of what is typed.
    SetColor,
    /// Sets the vertical offset of what is typed.
    SetOffset,
    /// Gives the newest selection a colour.
    ChangeColor,
    /// Gives the newest selection a vertical offset.
    ChangeOffset,
}

/// A command that takes a viewer.
#[derive(Clone, Copy, Debug, PartialEq, Eq)]
pub enum ViewerCommand {
    /// Closes it; it is kept.
    Close,
    /// Opens a second one on its text.
    Copy,
    /// Stores its text as the file that its menu names.
    Store,
    /// Finds the next place of the pattern in its text.
    Search,
    /// Opens a second one on its text, which has the whole column.
    Grow,
}
