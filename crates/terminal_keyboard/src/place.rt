//! Where in the spelling of a press one stands.

/// The character in front of the numbers of a sequence.
#[derive(Clone, Copy)]
pub(crate) enum Mark {
    /// There is none.
    Plain,
    /// The one of mouse reports, `<`.
    Mouse,
    /// Another one, of sequences that mean nothing here.
    Odd,
}

/// The numbers of a sequence as far as it is heard: the first three, and which of them, counted from 0, stands last.
#[derive(Clone, Copy)]
pub(crate) struct Numbers {
    pub mark: Mark,
    pub last: u8,
    pub first: u16,
    pub second: u16,
    pub third: u16,
}

/// Where in the spelling of a press one stands.
#[derive(Clone, Copy)]
pub(crate) enum SequencePlace {
    /// Between two spellings.
    Ground,
    /// After an escape byte.
    Escape,
    /// After an escape byte and `O`.
    Shift,
    /// After an escape byte and `[`, with these numbers.
    Sequence(Numbers),
    /// After an escape byte and `[[`, with which the console of Linux spells function keys.
    Console,
    /// Before so many last bytes of a mouse report of the older form, which doesn't tell which button goes up.
    Report(u8),
}
