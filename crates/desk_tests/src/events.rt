//! Events and the bytes that spell them. What a name and the bytes of a file may be, the scripts `names_and_words`,
//! `escapes` and `longest_file` show.

use event_bytes::{Event, FileBytes, Name};
use std::test::Fail;

/// The bytes of `file A.Text Hello%0d`.
const HELLO: [u8; 16] = [
    0x05, 0x06, 0x41, 0x2e, 0x54, 0x65, 0x78, 0x74, 0x00, 0x06, 0x48, 0x65, 0x6c, 0x6c, 0x6f, 0x0d,
];

#[test]
fn file_is_spelled_and_read(rt: HostRuntime) -> Result<(), Fail> {
    let event = Event::File {
        name: Name::new(b"A.Text").ok_or("no name")?,
        bytes: FileBytes::new(b"Hello\r").ok_or("no bytes of a file")?,
    };
    assert!(rt; event.encode().as_slice() == HELLO.as_slice());
    assert!(rt; Event::decode(&HELLO) == Some((event, 16)));
    Ok(())
}

#[test]
fn no_events(rt: HostRuntime) {
    let spellings: [&[u8]; 4] = [
        &[],
        &[0x01, 0x00, 0x00],
        &[0x04, 0x09, 0x00, 0x00, 0x00, 0x00],
        &HELLO[..15],
    ];
    for spelling in spellings {
        assert!(rt; Event::decode(spelling).is_none());
    }
}
