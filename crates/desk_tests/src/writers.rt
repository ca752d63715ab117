//! Writers, over characters in memory. Rows of numbers stand in `proofs/FrameRows.antt`.

use crate::sources::char_at;
use char_file::{CharFile, CharSource};
use piece_ring::{DEFAULT_LOOK, Ring};
use std::alloc::Global;
use std::process::Abort;
use std::test::Fail;
use writer_core::{Look, NoMemory, Writer, numbers_are_short};

const RED: Look = Look {
    font: 1,
    colour: 1,
    voff: -2,
};

/// A writer, and the source that it writes to.
#[derive(Drop)]
struct Desk {
    alloc: Global,
    writer: Writer,
    source: CharFile,
}

/// A writer over an empty source.
fn new_desk(alloc: Global) -> Result<Desk, NoMemory> {
    Ok(Desk {
        alloc,
        writer: Writer::new(alloc)?,
        source: CharFile::new(alloc),
    })
}

/// What is written.
#[derive(Clone, Copy)]
enum Part {
    Byte(u8),
    Line,
    Text(&'static str),
    /// A number, with a width.
    Int(i64, u8),
    /// The look of what comes.
    Look(Look),
}

/// Writes a part, where there is room.
fn write(rt: &impl Abort, desk: &mut Desk, part: Part) -> Result<(), NoMemory> {
    assert!(rt; desk.source.len() < 1_000);
    assert!(rt; desk.writer.len() < 1_000);
    match part {
        Part::Byte(byte) => desk.writer.write(desk.alloc, byte, &mut desk.source),
        Part::Line => desk.writer.write_ln(desk.alloc, &mut desk.source),
        Part::Text(text) => {
            assert!(rt; text.len() < 1_000);
            desk.writer
                .write_string(desk.alloc, text.as_bytes(), &mut desk.source)
        }
        Part::Int(value, width) => {
            numbers_are_short();
            desk.writer
                .write_int(desk.alloc, value, width, &mut desk.source)
        }
        Part::Look(look) => {
            desk.writer.set_looks(look);
            Ok(())
        }
    }
}

/// Whether a ring has just these characters of the source, in one look.
fn has(ring: &Ring, source: &mut CharFile, wanted: &[u8], look: Look) -> bool {
    let mut cursor = ring.cursor(0);
    for byte in wanted {
        match cursor.next() {
            Some((offset, seen)) if seen == look && char_at(source, offset) == Some(*byte) => {}
            _ => return false,
        }
    }
    cursor.next().is_none()
}

/// Takes what was written. Whether it is these characters, in one look.
fn takes(desk: &mut Desk, wanted: &[u8], look: Look) -> Result<bool, NoMemory> {
    let ring = desk.writer.take_buffer(desk.alloc)?.take(desk.alloc)?;
    Ok(has(&ring, &mut desk.source, wanted, look))
}

/// Writes parts over an empty source. Whether what is taken then is these characters, in one look, and nothing is left.
fn writes(
    rt: &impl Abort,
    alloc: Global,
    parts: &[Part],
    wanted: &[u8],
    look: Look,
) -> Result<bool, NoMemory> {
    let mut desk = new_desk(alloc)?;
    for part in parts {
        write(rt, &mut desk, *part)?;
    }
    let is_long = desk.writer.len() as usize == wanted.len();
    Ok(is_long && takes(&mut desk, wanted, look)? && takes(&mut desk, b"", look)?)
}

#[test]
fn writer(rt: HostRuntime) -> Result<(), Fail> {
    let rows: [(&[Part], &[u8], Look); 5] = [
        (
            &[Part::Byte(65), Part::Line, Part::Text("hi")],
            b"A\rhi",
            DEFAULT_LOOK,
        ),
        (&[Part::Text("")], b"", DEFAULT_LOOK),
        (
            &[
                Part::Int(-7, 5),
                Part::Int(12345, 2),
                Part::Int(i64::MIN, 0),
            ],
            b"   -712345-9223372036854775808",
            DEFAULT_LOOK,
        ),
        (
            &[Part::Look(RED), Part::Text("red"), Part::Byte(33)],
            b"red!",
            RED,
        ),
        (
            &[Part::Look(RED), Part::Byte(33), Part::Look(DEFAULT_LOOK)],
            b"!",
            RED,
        ),
    ];
    for (parts, wanted, look) in rows {
        assert!(rt; writes(&rt, rt.alloc(), parts, wanted, look)?);
    }
    Ok(())
}
