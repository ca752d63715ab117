//! What is wished of the caret.

/// Where the caret goes from where it stands, in the text of its viewer.
#[derive(Clone, Copy, Debug, PartialEq, Eq)]
pub enum Step {
    /// Before the character before it.
    Left,
    /// Behind the character behind it.
    Right,
    /// To the beginning of the word before it, or of the text.
    WordLeft,
    /// To the beginning of the next word, or to the end of the text.
    WordRight,
    /// To the line above, in the same column.
    Up,
    /// To the line below.
    Down,
    /// To the beginning of its line.
    LineStart,
    /// To the end of its line.
    LineEnd,
    /// To the beginning of the text.
    TextStart,
    /// To the end of the text.
    TextEnd,
    /// As many lines up as the viewer has rows, less one.
    PageUp,
    /// As many lines down.
    PageDown,
}

/// A command on the viewer of the caret that has a key.
#[derive(Clone, Copy, Debug, PartialEq, Eq)]
pub enum CaretCommand {
    /// Edit.Search: on to where the pattern comes next.
    Search,
    /// Edit.Store: the text of the viewer becomes a document.
    Store,
}

/// What is wished of the caret by a key.
#[derive(Clone, Copy, Debug, PartialEq, Eq)]
pub enum KeyWish {
    /// It goes a step.
    Step(Step),
    /// The character behind it is deleted.
    DeleteNext,
    /// A command is called on its viewer.
    Call(CaretCommand),
    /// The command is called whose word the caret stands in, or else the first of its line.
    CallLine,
    /// The marker goes to it.
    Mark,
    /// It goes a step, and what it passes is selected. A line end that has no cell isn't, at the end of what is selected or
    /// cut: its line fills the row. What is selected up to it counts as selected up to the caret behind it.
    Select(Step),
    /// The same with what is selected up to it: where that leaves nothing it only goes there.
    SelectOn(Step),
    /// It goes to the end of its text, and all of that is selected.
    SelectAll,
    /// What is selected up to it is cut.
    CutSelected,
    /// Its line is cut, with the end of the line where that has a cell.
    CutLine,
    /// Its line is broken, where that has no room for a word of so many characters more.
    Break(u8),
    /// It goes to a position of its text, or to the end of that, where its line is in sight.
    Place(u32),
    /// The same wherever its line is: that comes into sight.
    Reach(u32),
}

/// Why no events do what is wished.
#[derive(Clone, Copy, Debug, PartialEq, Eq)]
pub enum WhyNot {
    /// No viewer has the caret.
    NoCaret,
    /// The viewer that has it shows no row of its text.
    NoRow,
    /// No presses in its scroll bar lead to the line: it is too far, or the viewer has one row.
    TooFar,
    /// The caret stands at the end of the text.
    NothingBehind,
    /// The position stands right of the last column that the viewer shows.
    PastEdge,
    /// No word of the command is in sight, or none of any command stands in the line.
    NoWord,
    /// The word of the command isn't in sight, or the line to which the caret is to go, or not both ends of what is to be
    /// selected or cut.
    NotInSight,
    /// There is no character to cut.
    NothingThere,
    /// The line has room for the word, or no blank behind which it could be broken, or the caret stands right of what the
    /// viewer shows of it.
    NoBreak,
}
