//! A reader. What the symbols of texts are, `proofs/SymbolRows.antt` has in tables.

use crate::sources::text_of;
use char_file::CharFile;
use piece_ring::{DEFAULT_LOOK, Look};
use readers_scanners::Reader;
use std::alloc::Global;
use std::process::Abort;
use std::test::Fail;

/// What two reads from a position of a text give, and where the reader stands then.
fn two_reads(
    rt: &impl Abort,
    alloc: Global,
    bytes: &[u8],
    pos: u32,
) -> Result<([Option<(u8, Look)>; 2], u32), Fail> {
    let mut source = CharFile::new(alloc);
    let text = text_of(rt, alloc, &mut source, bytes)?;
    assert!(rt; pos <= text.len());
    let mut reader = Reader::open(&text, pos);
    let first = reader.read(&mut source)?;
    let second = reader.read(&mut source)?;
    Ok(([first, second], reader.pos()))
}

#[test]
fn reader(rt: HostRuntime) -> Result<(), Fail> {
    let (read, pos) = two_reads(&rt, rt.alloc(), b"ab", 1)?;
    assert!(rt; read == [Some((b'b', DEFAULT_LOOK)), None] && pos == 2);
    Ok(())
}
