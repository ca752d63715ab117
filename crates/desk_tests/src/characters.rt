//! Characters in memory, through the bound.

use crate::sources::char_at;
use char_file::{CharFile, CharSource, MOST_CHARACTERS};
use std::test::Fail;

/// Appends the text. The offset where it begins, and how long the source is then.
fn append<S: CharSource>(source: &mut S, text: &[u8]) -> Result<(u32, u32), Fail> {
    if source.len() as usize + text.len() > MOST_CHARACTERS as usize {
        return Err("no room".into());
    }
    let offset = source.append(text)?;
    Ok((offset, source.len()))
}

#[test]
fn appended_characters(rt: HostRuntime) -> Result<(), Fail> {
    let mut file = CharFile::new(rt.alloc());
    for (text, wanted) in [("abcdef", (0, 6)), ("gh", (6, 8)), ("", (8, 8))] {
        assert!(rt; append(&mut file, text.as_bytes())? == wanted);
    }
    for (offset, wanted) in [(0, Some(b'a')), (7, Some(b'h')), (8, None)] {
        assert!(rt; char_at(&mut file, offset) == wanted);
    }
    Ok(())
}
