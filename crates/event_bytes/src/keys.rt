//! Keys of the keyboard and of the mouse.
ghost use Rattle.std.specs.Prelude.{◌≡◌, ◌<◌, ◌^◌};
ghost use Rattle.event_bytes.specs.Keys.{key_number, keys_number};

/// A key of the keyboard with a meaning of its own.
#[derive(Clone, Copy, Debug, PartialEq, Eq)]
pub enum Key {
    /// Deletes the character before the caret.
    Back,
    /// Copies the newest selection.
    Copy,
    /// Inserts what was copied at the caret.
    Paste,
    /// Copies the newest selection and deletes it.
    Cut,
    /// Removes caret, selections and marker.
    Escape,
}

impl Key {
    /// All of them, by their numbers.
    pub const ALL: [Key; 5] = [Key::Back, Key::Copy, Key::Paste, Key::Cut, Key::Escape];

    /// Its number, 0 to 4.
    pub(crate) fn number(self) -> u8
        ensures { result ≡ key_number self }
    {
        self as u8
    }
}

/// Keys of the mouse: the one that is pressed first, and maybe another one that is pressed while it is down.
#[derive(Clone, Copy, Debug, PartialEq, Eq)]
pub enum Keys {
    Left,
    LeftMiddle,
    LeftRight,
    Middle,
    MiddleLeft,
    MiddleRight,
    Right,
    RightLeft,
    RightMiddle,
}

impl Keys {
    /// All of them, by their numbers.
    pub const ALL: [Keys; 9] = [
        Keys::Left,
        Keys::LeftMiddle,
        Keys::LeftRight,
        Keys::Middle,
        Keys::MiddleLeft,
        Keys::MiddleRight,
        Keys::Right,
        Keys::RightLeft,
        Keys::RightMiddle,
    ];

    /// Their number, 0 to 8.
    pub(crate) fn number(self) -> u8
        ensures { result ≡ keys_number self }
    {
        self as u8
    }
}
