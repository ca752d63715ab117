//! Rows of texts and buffers, and each call once.
ghost use Rattle.std.specs.Prelude.{◌≤◌, length};
ghost use Rattle.piece_ring.specs.Flat.{flat};

use crate::rings::has;
use std::alloc::Global;
use std::process::Abort;
use std::test::Fail;
use text_core::{Buffer, DEFAULT_LOOK, Look, NoMemory, Piece, Text};

/// A look that differs from the default one in every field.
const CHANGED: Look = Look {
    font: 1,
    colour: 3,
    voff: 5,
};

/// The default look with the colour of `CHANGED`.
const COLOURED: Look = Look {
    font: 0,
    colour: 3,
    voff: 0,
};

/// What is done to a text and a buffer.
#[derive(Clone, Copy)]
enum Edit {
    /// Adds so many characters from an offset on to the buffer.
    Add(u32, u32),
    /// Puts so many characters from an offset on in at the end of the text, as a piece of their own.
    PushText(u32, u32),
    /// The same in the buffer.
    PushBuffer(u32, u32),
    /// Puts a character before those of the buffer.
    CopyTo(u32),
    /// Takes the ring out of the buffer, and adds it again.
    TakeAndAppend,
    /// Leaves the buffer empty.
    Clear,
    /// Has the characters of a stretch of the text in the buffer too.
    Save(u32, u32),
    /// Takes the characters of a stretch of the text into the buffer.
    Delete(u32, u32),
    /// Puts the buffer's characters into the text.
    Insert(u32),
    /// Puts the buffer's characters in at the end of the text.
    Append,
    /// Gives a stretch of the text the fields of `CHANGED` that a selector names.
    ChangeLooks(u32, u32, u8),
}

/// Does that, where the positions are in the text.
fn apply(
    rt: &impl Abort,
    alloc: Global,
    text: &mut Text,
    buffer: &mut Buffer,
    edit: Edit,
) -> Result<(), NoMemory> {
    assert!(rt; text.len() < 100);
    assert!(rt; buffer.len() < 100);
    match edit {
        Edit::Add(off, len) => {
            assert!(rt; off < 100 && 0 < len && len < 100);
            let look = DEFAULT_LOOK;
            buffer.add(alloc, Piece { off, len, look })
        }
        Edit::PushText(off, len) => {
            assert!(rt; off < 100 && 0 < len && len < 100);
            let look = DEFAULT_LOOK;
            text.push(alloc, Piece { off, len, look })
        }
        Edit::PushBuffer(off, len) => {
            assert!(rt; off < 100 && 0 < len && len < 100);
            let look = DEFAULT_LOOK;
            buffer.push(alloc, Piece { off, len, look })
        }
        Edit::CopyTo(off) => {
            *buffer = copied_to(rt, alloc, off, buffer)?;
            Ok(())
        }
        Edit::TakeAndAppend => {
            let ring = buffer.take(alloc)?;
            assert!(rt; buffer.len() < 100 && ring.len() < 100);
            buffer.append(alloc, ring)
        }
        Edit::Clear => {
            buffer.clear();
            Ok(())
        }
        Edit::Save(beg, end) => {
            assert!(rt; beg <= end && beg <= text.len());
            *buffer = saved(alloc, text, beg, end)?;
            Ok(())
        }
        Edit::Delete(beg, end) => {
            assert!(rt; beg <= end && beg <= text.len());
            text.delete(alloc, beg, end, buffer)
        }
        Edit::Insert(pos) => {
            assert!(rt; pos <= text.len());
            text.insert(alloc, pos, buffer)
        }
        Edit::Append => text.append(alloc, buffer),
        Edit::ChangeLooks(beg, end, sel) => {
            assert!(rt; beg <= end && beg <= text.len());
            text.change_looks(alloc, beg, end, sel, CHANGED)
        }
    }
}

/// A buffer with one character, and after it those of another.
fn copied_to(
    rt: &impl Abort,
    alloc: Global,
    off: u32,
    buffer: &Buffer,
) -> Result<Buffer, NoMemory> {
    assert!(rt; off < 100);
    assert!(rt; buffer.len() < 100);
    let mut other = Buffer::new(alloc)?;
    let look = DEFAULT_LOOK;
    other.add(alloc, Piece { off, len: 1, look })?;
    buffer.copy_to(alloc, &mut other)?;
    Ok(other)
}

/// The characters of a stretch, in a buffer of their own.
fn saved(alloc: Global, text: &Text, beg: u32, end: u32) -> Result<Buffer, NoMemory>
    requires order { beg ≤ end }
    requires within { beg ≤ length (flat text.now) }
{
    let mut buffer = Buffer::new(alloc)?;
    text.save(alloc, beg, end, &mut buffer)?;
    Ok(buffer)
}

/// The text of the offsets 0 to 5 and an empty buffer, edited.
fn edited(rt: &impl Abort, alloc: Global, edits: &[Edit]) -> Result<(Text, Buffer), NoMemory> {
    let mut text = Text::of_run(alloc, 0, 6, DEFAULT_LOOK)?;
    let mut buffer = Buffer::new(alloc)?;
    for one in edits {
        apply(rt, alloc, &mut text, &mut buffer, *one)?;
    }
    Ok((text, buffer))
}

/// Whether the text of the offsets 0 to 5 and an empty buffer have these offsets after edits, with 1,000 more where the
/// colour is changed, and the text so many pieces.
fn becomes(
    rt: &impl Abort,
    alloc: Global,
    edits: &[Edit],
    wanted: [&[u32]; 2],
    pieces: u32,
) -> Result<bool, NoMemory> {
    let (text, buffer) = edited(rt, alloc, edits)?;
    let is_text = has(text.cursor(0), wanted[0], COLOURED) && text.pieces() == pieces;
    Ok(is_text && has(buffer.cursor(0), wanted[1], COLOURED))
}

#[test]
fn text_operations(rt: HostRuntime) -> Result<(), Fail> {
    let six: &[u32] = &[0, 1, 2, 3, 4, 5];
    let rows: [(&[Edit], [&[u32]; 2], u32); 9] = [
        (
            &[Edit::Save(1, 5), Edit::ChangeLooks(2, 4, 2)],
            [&[0, 1, 1_002, 1_003, 4, 5], &[1, 2, 3, 4]],
            3,
        ),
        (&[Edit::Add(50, 1), Edit::Delete(0, 99)], [&[], six], 0),
        (&[Edit::Delete(0, 99), Edit::Insert(0)], [six, &[]], 1),
        (&[Edit::Delete(6, 99)], [six, &[]], 1),
        (&[Edit::ChangeLooks(0, 99, 0)], [six, &[]], 1),
        (&[Edit::ChangeLooks(0, 99, 8)], [six, &[]], 1),
        (
            &[Edit::ChangeLooks(4, 99, 2)],
            [&[0, 1, 2, 3, 1_004, 1_005], &[]],
            2,
        ),
        (
            &[
                Edit::Add(50, 1),
                Edit::Insert(3),
                Edit::Add(51, 1),
                Edit::Insert(4),
            ],
            [&[0, 1, 2, 50, 51, 3, 4, 5], &[]],
            3,
        ),
        (&[Edit::PushText(6, 2)], [&[0, 1, 2, 3, 4, 5, 6, 7], &[]], 2),
    ];
    for (edits, wanted, pieces) in rows {
        assert!(rt; becomes(&rt, rt.alloc(), edits, wanted, pieces)?);
    }
    Ok(())
}

#[test]
fn buffers(rt: HostRuntime) -> Result<(), Fail> {
    let rows: [(&[Edit], &[u32]); 6] = [
        (&[Edit::Add(0, 2)], &[0, 1]),
        (&[Edit::Add(0, 2), Edit::CopyTo(2)], &[2, 0, 1]),
        (
            &[Edit::Add(4, 3), Edit::TakeAndAppend, Edit::Add(9, 1)],
            &[4, 5, 6, 9],
        ),
        (&[Edit::Add(4, 3), Edit::Clear, Edit::Clear], &[]),
        (&[Edit::Add(9, 1), Edit::Append], &[]),
        (&[Edit::Add(0, 2), Edit::PushBuffer(2, 1)], &[0, 1, 2]),
    ];
    for (edits, wanted) in rows {
        let (_, buffer) = edited(&rt, rt.alloc(), edits)?;
        assert!(rt; has(buffer.cursor(0), wanted, COLOURED));
    }
    Ok(())
}

/// The look at a position of the text of the offsets 0 to 5, edited.
fn look_at(rt: &impl Abort, alloc: Global, last: Edit, pos: u32) -> Result<Look, NoMemory> {
    let (text, _) = edited(rt, alloc, &[last])?;
    assert!(rt; pos <= text.len());
    Ok(text.attributes(pos))
}

#[test]
fn looks_at_positions(rt: HostRuntime) -> Result<(), Fail> {
    let change = Edit::ChangeLooks(2, 99, 2);
    for (edit, pos, look) in [
        (change, 1, DEFAULT_LOOK),
        (change, 2, COLOURED),
        (change, 6, COLOURED),
        (Edit::Delete(0, 99), 0, DEFAULT_LOOK),
    ] {
        assert!(rt; look_at(&rt, rt.alloc(), edit, pos)? == look);
    }
    Ok(())
}
