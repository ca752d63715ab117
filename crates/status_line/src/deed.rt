//! What a press did, in words.
ghost use Rattle.std.specs.Prelude.{◌≡◌, ◌≤◌, length};
ghost use Rattle.status_line.specs.Deeds.{click_deed, deed_of, deed_with, deed_words, key_deed, keys_deed, typed_more};
ghost use Rattle.status_line.specs.Deeds.{erasing_deed, import_words, typed_words};

use event_bytes::{Event, Key, Keys};

/// What a press did, as far as the line below says it.
#[derive(Clone, Copy, Debug, PartialEq, Eq)]
pub enum Deed {
    /// So many characters were typed.
    Typed(u32),
    /// A key of the keyboard was pressed.
    Key(Key),
    /// The marker was set.
    Mark,
    /// The mouse was pressed with these keys.
    Click(Keys),
    /// The word at this cell was called.
    Call { x: u8, y: u8 },
    /// A key called the command that stores the text of the caret's viewer.
    Store,
    /// A key called the command that searches.
    Search,
    /// A text moved in its viewer.
    Scroll,
    /// A file was made, or got other characters.
    File,
    /// So many documents came by an import.
    Import(u32),
    /// What was typed where a pattern was found was typed in another such place.
    Replacement,
    /// A paragraph was filled.
    Paragraph,
    /// The key Delete was pressed: it deletes the character behind the caret, or what is selected.
    Delete,
    /// A part of what a press did, of which the rest can't be taken back.
    Part,
}

impl Default for Deed {
    /// A part.
    fn default() -> Deed {
        Deed::Part
    }
}

impl Deed {
    /// What the event did.
    pub fn of(event: &Event) -> Deed
        ensures { result ≡ deed_of event.now }
    {
        match event {
            Event::Typed(bytes) => Deed::Typed(bytes.as_bytes().len() as u32),
            Event::Key(key) => Deed::Key(*key),
            Event::Mark { .. } => Deed::Mark,
            Event::Point { keys, x0, y0, .. } => click_deed(*keys, *x0, *y0),
            Event::File { .. } => Deed::File,
        }
    }

    /// What a press did that did this, once it posted an event more: characters are counted, and else it is named by its
    /// first event.
    pub fn with(self, event: &Event) -> Deed
        ensures { result ≡ deed_with event.now self }
    {
        match self {
            Deed::Typed(count) => Deed::Typed(typed_more(event, count)),
            other => other,
        }
    }

    /// What a key did that deletes a character, or what is selected: that behind the caret or that before it.
    pub fn erasing(behind: bool) -> Deed
        ensures { result ≡ erasing_deed behind }
    {
        if behind {
            Deed::Delete
        } else {
            Deed::Key(Key::Back)
        }
    }

    /// The words for it, but for the number of characters or documents and for the word that was called.
    pub fn words(self) -> &'static [u8]
        ensures value { result.now ≡ deed_words self }
        ensures short { length result.now ≤ 40 }
    {
        match self {
            Deed::Typed(count) => typed_words(count),
            Deed::Key(key) => key_words(key),
            Deed::Mark => b"the marker",
            Deed::Click(keys) => click_words(keys),
            Deed::Call { .. } => b"a command",
            Deed::Store => b"Edit.Store",
            Deed::Search => b"Edit.Search",
            Deed::Scroll => b"a scroll",
            Deed::File => b"a file",
            Deed::Import(count) => import_words(count),
            Deed::Replacement => b"a replacement",
            Deed::Paragraph => b"the paragraph",
            Deed::Delete => b"a Delete",
            Deed::Part => b"a part of it, and the rest can't be",
        }
    }
}

/// With the characters that an event types so many are typed.
pub fn typed_more(event: &Event, typed: u32) -> u32
    ensures { result ≡ typed_more event.now typed }
{
    match event {
        Event::Typed(bytes) => typed.saturating_add(bytes.as_bytes().len() as u32),
        _ => typed,
    }
}

/// What a click with these keys did that began at this cell.
fn click_deed(keys: Keys, x: u8, y: u8) -> Deed
    ensures { result ≡ click_deed keys x y }
{
    if matches!(keys, Keys::Middle) {
        Deed::Call { x, y }
    } else {
        Deed::Click(keys)
    }
}

/// The words behind the number of characters.
fn typed_words(count: u32) -> &'static [u8]
    ensures value { result.now ≡ typed_words count }
    ensures short { length result.now ≤ 40 }
{
    if count == 1 {
        b" character"
    } else {
        b" characters"
    }
}

/// The words behind the number of documents.
fn import_words(count: u32) -> &'static [u8]
    ensures value { result.now ≡ import_words count }
    ensures short { length result.now ≤ 40 }
{
    if count == 1 {
        b" document"
    } else {
        b" documents"
    }
}

/// The words for a key of the keyboard.
fn key_words(key: Key) -> &'static [u8]
    ensures value { result.now ≡ key_deed key }
    ensures short { length result.now ≤ 40 }
{
    match key {
        Key::Back => b"a Backspace",
        Key::Copy => b"a copy",
        Key::Paste => b"a paste",
        Key::Cut => b"a cut",
        Key::Escape => b"Escape",
    }
}

/// The words for keys of the mouse.
fn click_words(keys: Keys) -> &'static [u8]
    ensures value { result.now ≡ keys_deed keys }
    ensures short { length result.now ≤ 40 }
{
    match keys {
        Keys::Left => b"the caret, or a viewer that was dragged",
        Keys::Middle => b"a command",
        Keys::Right => b"a selection",
        Keys::LeftMiddle => b"a copy to the caret",
        Keys::LeftRight => b"a look",
        Keys::RightLeft => b"what was deleted",
        Keys::RightMiddle => b"what was copied",
        Keys::MiddleLeft | Keys::MiddleRight => b"a click",
    }
}
