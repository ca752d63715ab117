//! What is heard of a keyboard and a mouse, and what is pressed. Plain data.

/// What is heard.
#[derive(Clone, Copy, Debug, PartialEq, Eq)]
pub enum Heard {
    /// A byte came.
    Byte(u8),
    /// For a while no byte came.
    Quiet,
}

/// A button of the mouse.
#[derive(Clone, Copy, Debug, PartialEq, Eq)]
pub enum Button {
    Left,
    Middle,
    Right,
}

/// A key that goes a character or a row further, to an end of the row, or a word further.
#[derive(Clone, Copy, Debug, PartialEq, Eq)]
pub enum Arrow {
    Up,
    Down,
    Right,
    Left,
    /// The key Home.
    Home,
    /// The key End.
    End,
    /// Right with Ctrl.
    WordRight,
    /// Left with Ctrl.
    WordLeft,
}

/// A key that brings another part of the display into sight: rows further up or down, or the columns of a side.
#[derive(Clone, Copy, Debug, PartialEq, Eq)]
pub enum Page {
    Up,
    Down,
    Left,
    Right,
}

/// How a person wishes a viewer's text to move.
#[derive(Clone, Copy, Debug, PartialEq, Eq)]
pub enum Scroll {
    /// Some lines toward the beginning, by the wheel.
    WheelUp,
    /// Some lines toward the end, by the wheel.
    WheelDown,
    /// As many lines as are in sight, toward the beginning.
    PageUp,
    /// As many lines as are in sight, toward the end.
    PageDown,
    /// To the first line.
    First,
    /// To the last line.
    Last,
}

/// A function key.
#[derive(Clone, Copy, Debug, PartialEq, Eq)]
pub enum FunctionKey {
    F1,
    F2,
    F3,
    F4,
    F5,
    F6,
    F7,
    F8,
    F9,
    F10,
    F11,
    F12,
}

/// What a terminal reports of the mouse: a button goes down, or goes up.
#[derive(Clone, Copy, Debug, PartialEq, Eq)]
pub struct MouseReport {
    /// The button.
    pub button: Button,
    /// Whether it goes down; otherwise it goes up.
    pub is_down: bool,
    /// Whether the key Shift is held.
    pub with_shift: bool,
    /// Whether the key Alt is held.
    pub with_alt: bool,
    /// Whether the key Ctrl is held.
    pub with_control: bool,
    /// The terminal's column, counted from 1 at the left.
    pub column: u16,
    /// The terminal's row, counted from 1 at the top.
    pub row: u16,
}

/// What a terminal reports of the wheel.
#[derive(Clone, Copy, Debug, PartialEq, Eq)]
pub struct WheelReport {
    /// Whether it turns upward; otherwise it turns downward.
    pub is_up: bool,
    /// The terminal's column, counted from 1 at the left.
    pub column: u16,
    /// The terminal's row, counted from 1 at the top.
    pub row: u16,
}

/// What is pressed, or else told by the terminal.
#[derive(Clone, Copy, Debug, PartialEq, Eq)]
pub enum Press {
    /// A byte that can be typed: a tabulator (9), a carriage return (13), or one from the space to the tilde (32 to
    /// 126).
    Character(u8),
    /// A character of several bytes, none of which can be typed.
    Foreign,
    /// A byte below the space that is none of the other keys, as the key Ctrl makes it with a letter.
    Control(u8),
    /// The key that deletes backward.
    Back,
    /// The key that deletes forward.
    Delete,
    /// The key Escape.
    Escape,
    /// An arrow, or another key that moves the caret.
    Arrow(Arrow),
    /// An arrow, Home or End with Shift.
    Leap(Arrow),
    /// A key that moves the text of a viewer.
    Scroll(Scroll),
    /// A key that brings another part of the display into sight: PageUp, PageDown, or the arrow to a side, with Alt.
    Page(Page),
    /// A function key.
    Function(FunctionKey),
    /// A button of the mouse.
    Mouse(MouseReport),
    /// The wheel of the mouse.
    Wheel(WheelReport),
    /// What follows is pasted.
    PasteBegins,
    /// What is pasted ends here.
    PasteEnds,
    /// The terminal has so many rows, and so many columns.
    Size(u16, u16),
    /// The host file whose text was told could be read no further.
    FileFails,
    /// A sequence of bytes that means nothing here.
    Unknown,
}

/// What one byte, or a quiet while, completes: no press, one, or two in that order.
#[derive(Clone, Copy)]
pub enum Presses {
    Nothing,
    One(Press),
    Two(Press, Press),
}
