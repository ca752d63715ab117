//! Why something isn't done, in words.
ghost use Rattle.std.specs.Prelude.{◌≡◌, ◌≤◌, length};
ghost use Rattle.status_line.specs.Sayings.{cut_short, no_document, reason, marked_words, unread_words, short_reason};

use crate::saying::{SayingLine, line};
use desktop_definitions::codes::NO_FILE;
use host_files::HostFault;

/// Why an event was refused, by the code of the refusal.
const REASONS: [&[u8]; 14] = [
    b"refused",
    b"No caret is set: click into a text, or F11 without a mouse.",
    b"Nothing is selected: drag over a text with the right button, or with F3.",
    b"A name or number is missing behind that word.",
    b"That word isn't a command: System.Tool shows all of them.",
    b"There is no document of that name, or it is named twice.",
    b"There is no room: close or delete something, or call System.Collect.",
    b"No viewer has the marker, or none was closed: F1 and a click set the marker.",
    b"There are 256 documents already: System.DeleteFiles makes room.",
    b"That lies outside the desktop.",
    b"Not found from the caret on: Ctrl-F again goes to the beginning of the text.",
    b"Fonts are 0 to 4, colours 0 to 15, and offsets -64 to 63.",
    b"Eight viewers lie over one another there: close one first.",
    b"A viewer of one row can't be parted.",
];

/// Why an event was refused, with the code.
pub(crate) fn reason(code: u8) -> &'static [u8]
    ensures value { result.now ≡ reason code }
    ensures short { length result.now ≤ 80 }
{
    REASONS
        .get(usize::from(code))
        .copied()
        .unwrap_or(b"refused")
}

/// There is no document of a name, or it is named twice: the name, or the first of several, is that behind the word
/// that was called, as far as it is seen.
#[tactic(auto, unfolding(crate::specs::Sayings::no_document))]
pub(crate) fn no_document(name: &[u8]) -> SayingLine
    requires { length name.now ≤ 31 }
    ensures { result.items ≡ no_document name.now }
{
    if name.is_empty() {
        return line(reason(NO_FILE));
    }
    let mut text = line(b"From ");
    text.try_extend_from_slice(name).unwrap();
    text.try_extend_from_slice(b" on: no such document, or named twice")
        .unwrap();
    text
}

/// The same in short.
fn short_reason(code: u8) -> &'static [u8]
    ensures value { result.now ≡ short_reason code }
    ensures short { length result.now ≤ 21 }
{
    match code {
        1 => b"no caret",
        6 => b"no room",
        _ => b"it was refused",
    }
}

/// How far a paste or a host file came that was cut short, and why.
pub(crate) fn cut_short(typed: u32, code: u8) -> SayingLine
    ensures { result.items ≡ cut_short typed code }
{
    let mut digits = itoa::Buffer::new();
    let mut text = SayingLine::new();
    text.try_extend_from_slice(digits.format(typed).as_bytes())
        .unwrap();
    text.try_extend_from_slice(b" characters typed, the rest dropped: ")
        .unwrap();
    text.try_extend_from_slice(short_reason(code)).unwrap();
    text
}

/// Why the text of a host file isn't typed.
pub(crate) fn unread_words(why: HostFault) -> &'static [u8]
    ensures value { result.now ≡ unread_words why }
    ensures short { length result.now ≤ 80 }
{
    match why {
        HostFault::Missing => b"There is no such file: nothing was typed.",
        HostFault::Folder => b"That is a folder, and no file: nothing was typed.",
        HostFault::NoRight => b"There is no right to read it: nothing was typed.",
        HostFault::Special => b"That is a pipe or a device: nothing was typed.",
        HostFault::TooLong => b"It has more than 262,144 bytes: nothing was typed.",
        HostFault::NoHome => b"HOME isn't set, so ~ is no folder: nothing was typed.",
        HostFault::NoMemory => b"There is no memory for it: nothing was typed.",
        HostFault::InUse | HostFault::Taken | HostFault::ReadOnly | HostFault::Refused =>
            b"It can't be read: nothing was typed.",
    }
}

/// How many characters became question marks.
pub(crate) fn marked_words(count: u32) -> SayingLine
    ensures { result.items ≡ marked_words count }
{
    let mut digits = itoa::Buffer::new();
    let mut text = SayingLine::new();
    text.try_extend_from_slice(digits.format(count).as_bytes())
        .unwrap();
    let rest: &[u8] = if count == 1 {
        b" character became ?"
    } else {
        b" characters became ?"
    };
    text.try_extend_from_slice(rest).unwrap();
    text
}
