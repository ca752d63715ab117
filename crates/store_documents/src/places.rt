//! Where a byte of a file stands.
ghost use Rattle.std.specs.Prelude.{◌≡◌, length};
ghost use Rattle.store_documents.specs.HostText.{place_of};

use event_bytes::CARRIAGE_RETURN;

/// The place of a byte: its line and its column, both counted from 1.
#[derive(Clone, Copy, Debug, PartialEq, Eq)]
pub struct Place {
    pub line: usize,
    pub column: usize,
}

/// Where what follows a text stands, each of whose lines ends with CR.
pub(crate) fn place_behind(text: &[u8]) -> Place
    ensures { result ≡ place_of text.now }
{
    let mut line = 1;
    let mut column = 1;
    for byte in text {
        if *byte == CARRIAGE_RETURN {
            line += 1;
            column = 1;
        } else {
            column += 1;
        }
    }
    Place { line, column }
}
