//! Rows of rings of pieces.
//!
//! What becomes of a ring where memory is refused, its clauses say, and the script
//! `every_allocation_of_a_ring_refused` shows.

use piece_ring::{Cursor, DEFAULT_LOOK, Look, NoMemory, Piece, Ring};
use std::alloc::Global;
use std::process::Abort;
use std::test::Fail;

/// A look that differs from the default one in the font.
const FONT_3: Look = Look {
    font: 3,
    colour: 15,
    voff: 0,
};

/// What is done to a ring.
#[derive(Clone, Copy)]
enum Edit {
    /// Adds so many characters from an offset on, in a look.
    Add(u32, u32, Look),
    /// Puts so many characters from an offset on in at the end, as a piece of their own in the default look.
    Push(u32, u32),
    /// Keeps the place of a position.
    Locate(u32),
    /// Cuts a piece in two.
    Split(u32),
    /// Takes the characters of a stretch out.
    Cut(u32, u32),
    /// Takes the characters of a stretch out, and keeps these alone.
    Keep(u32, u32),
    /// Keeps a copy of the characters of a stretch alone.
    Copy(u32, u32),
    /// Takes the characters of a stretch out, and puts them in at a position.
    Move(u32, u32, u32),
    /// Gives the characters of a stretch the font of a look.
    SetFont(u32, u32, Look),
}

/// Does that, where the positions are in the ring.
fn apply(rt: &impl Abort, alloc: Global, ring: &mut Ring, edit: Edit) -> Result<(), NoMemory> {
    match edit {
        Edit::Add(off, len, look) => add(rt, alloc, ring, Piece { off, len, look }),
        Edit::Push(off, len) => push(rt, alloc, ring, off, len),
        Edit::Locate(pos) => {
            assert!(rt; pos <= ring.len());
            ring.locate(pos);
            Ok(())
        }
        Edit::Split(pos) => {
            assert!(rt; pos <= ring.len());
            ring.split_at(alloc, pos)
        }
        Edit::Cut(beg, end) => {
            cut(rt, alloc, ring, beg, end)?;
            Ok(())
        }
        Edit::Keep(beg, end) => {
            *ring = cut(rt, alloc, ring, beg, end)?;
            Ok(())
        }
        Edit::Copy(beg, end) => {
            assert!(rt; beg <= end);
            assert!(rt; end <= ring.len());
            *ring = ring.copy(alloc, beg, end)?;
            Ok(())
        }
        Edit::Move(beg, end, pos) => move_to(rt, alloc, ring, beg, end, pos),
        Edit::SetFont(beg, end, look) => {
            assert!(rt; beg <= end);
            assert!(rt; end <= ring.len());
            ring.set_looks(alloc, beg, end, 1, look)
        }
    }
}

/// Adds a piece.
fn add(rt: &impl Abort, alloc: Global, ring: &mut Ring, piece: Piece) -> Result<(), NoMemory> {
    assert!(rt; ring.len() < 1_000);
    assert!(rt; 0 < piece.len);
    assert!(rt; piece.off < 1_000);
    assert!(rt; piece.len < 1_000);
    ring.add(alloc, piece)
}

/// Puts a piece in at the end, as it is.
fn push(
    rt: &impl Abort,
    alloc: Global,
    ring: &mut Ring,
    off: u32,
    len: u32,
) -> Result<(), NoMemory> {
    assert!(rt; ring.len() < 1_000);
    assert!(rt; off < 1_000 && 0 < len && len < 1_000);
    let look = DEFAULT_LOOK;
    ring.push(alloc, Piece { off, len, look })
}

/// Takes the characters of a stretch out.
fn cut(
    rt: &impl Abort,
    alloc: Global,
    ring: &mut Ring,
    beg: u32,
    end: u32,
) -> Result<Ring, NoMemory> {
    assert!(rt; beg <= end);
    assert!(rt; end <= ring.len());
    ring.cut(alloc, beg, end)
}

/// Takes the characters of a stretch out, and puts them in at a position.
fn move_to(
    rt: &impl Abort,
    alloc: Global,
    ring: &mut Ring,
    beg: u32,
    end: u32,
    pos: u32,
) -> Result<(), NoMemory> {
    let taken = cut(rt, alloc, ring, beg, end)?;
    assert!(rt; pos <= ring.len() && ring.len() < 1_000 && taken.len() < 1_000);
    match ring.splice(alloc, pos, taken) {
        Ok(()) => Ok(()),
        Err((refused, _)) => Err(refused),
    }
}

/// The ring that has the offsets 0 to 5 as one piece, edited.
fn edited(rt: &impl Abort, alloc: Global, edits: &[Edit]) -> Result<Ring, NoMemory> {
    let mut ring = Ring::new(alloc)?;
    apply(rt, alloc, &mut ring, Edit::Add(0, 6, DEFAULT_LOOK))?;
    for one in edits {
        apply(rt, alloc, &mut ring, *one)?;
    }
    Ok(ring)
}

/// Whether just these characters are left, by their offsets, of which those with 1,000 more have the look `changed`,
/// the others the default one. The cursor follows at most one link for each.
pub(crate) fn has(cursor: Cursor<'_>, wanted: &[u32], changed: Look) -> bool {
    let mut cursor = cursor;
    for code in wanted {
        let look = if *code < 1_000 { DEFAULT_LOOK } else { changed };
        if cursor.next() != Some((*code % 1_000, look)) || cursor.links() > 1 {
            return false;
        }
    }
    cursor.next().is_none()
}

/// Whether a ring has just these characters, in so many pieces, and so many nodes and one are freed with it.
fn is_ring(ring: Ring, wanted: &[u32], pieces: u32) -> bool {
    let is = has(ring.cursor(0), wanted, FONT_3) && ring.pieces() == pieces;
    ring.destroy() == pieces as usize + 1 && is
}

#[test]
fn rings(rt: HostRuntime) -> Result<(), Fail> {
    let rows: [(&[Edit], &[u32], u32); 17] = [
        (&[], &[0, 1, 2, 3, 4, 5], 1),
        (&[Edit::Cut(1, 3)], &[0, 3, 4, 5], 2),
        (&[Edit::Keep(1, 3)], &[1, 2], 1),
        (&[Edit::Move(1, 3, 2)], &[0, 3, 1, 2, 4, 5], 4),
        (&[Edit::Move(2, 4, 2)], &[0, 1, 2, 3, 4, 5], 1),
        (&[Edit::Copy(1, 3)], &[1, 2], 1),
        (&[Edit::Split(3)], &[0, 1, 2, 3, 4, 5], 2),
        (&[Edit::Split(3), Edit::Split(6)], &[0, 1, 2, 3, 4, 5], 2),
        (
            &[Edit::SetFont(2, 4, FONT_3)],
            &[0, 1, 1_002, 1_003, 4, 5],
            3,
        ),
        (
            &[
                Edit::SetFont(2, 4, FONT_3),
                Edit::SetFont(2, 4, DEFAULT_LOOK),
            ],
            &[0, 1, 2, 3, 4, 5],
            1,
        ),
        (&[Edit::Cut(2, 2)], &[0, 1, 2, 3, 4, 5], 1),
        (&[Edit::Keep(2, 2)], &[], 0),
        (&[Edit::Cut(0, 6)], &[], 0),
        (&[Edit::Keep(0, 6)], &[0, 1, 2, 3, 4, 5], 1),
        (
            &[Edit::Add(20, 3, FONT_3), Edit::Keep(4, 8)],
            &[4, 5, 1_020, 1_021],
            2,
        ),
        (
            &[Edit::Add(6, 2, DEFAULT_LOOK)],
            &[0, 1, 2, 3, 4, 5, 6, 7],
            1,
        ),
        (&[Edit::Push(6, 2)], &[0, 1, 2, 3, 4, 5, 6, 7], 2),
    ];
    for (edits, wanted, pieces) in rows {
        let ring = edited(&rt, rt.alloc(), edits)?;
        assert!(rt; is_ring(ring, wanted, pieces));
    }
    Ok(())
}

/// The offsets and lengths of the next three pieces from a position on, of the offsets 0 to 5 and 6 and 7 as two
/// pieces.
fn next_pieces(
    rt: &impl Abort,
    alloc: Global,
    pos: u32,
) -> Result<[Option<(u32, u32)>; 3], NoMemory> {
    let ring = edited(rt, alloc, &[Edit::Push(6, 2)])?;
    assert!(rt; pos <= ring.len());
    let mut cursor = ring.cursor(pos);
    let mut pieces = [None; 3];
    for piece in &mut pieces {
        *piece = cursor.next_piece().map(|piece| (piece.off, piece.len));
    }
    Ok(pieces)
}

#[test]
fn pieces_one_by_one(rt: HostRuntime) -> Result<(), Fail> {
    let rows = [
        (0, [Some((0, 6)), Some((6, 2)), None]),
        (4, [Some((4, 2)), Some((6, 2)), None]),
        (6, [Some((6, 2)), None, None]),
        (8, [None, None, None]),
    ];
    for (pos, wanted) in rows {
        assert!(rt; next_pieces(&rt, rt.alloc(), pos)? == wanted);
    }
    Ok(())
}

/// How many characters and pieces a hundred adds of one character make, of which one is in another look.
fn typed(rt: &impl Abort, alloc: Global, other: u32) -> Result<(u32, u32), NoMemory> {
    let mut ring = Ring::new(alloc)?;
    for off in 0..100 {
        let look = if off == other { FONT_3 } else { DEFAULT_LOOK };
        apply(rt, alloc, &mut ring, Edit::Add(off, 1, look))?;
    }
    Ok((ring.len(), ring.pieces()))
}

#[test]
fn merged_adds(rt: HostRuntime) -> Result<(), Fail> {
    for (other, pieces) in [(100, 1), (50, 3)] {
        assert!(rt; typed(&rt, rt.alloc(), other)? == (100, pieces));
    }
    Ok(())
}

/// The number of links that lead a cursor to a position of ten pieces of ten characters, of which none continues the
/// one before it, after an edit.
fn walked(rt: &impl Abort, alloc: Global, last: Edit, pos: u32) -> Result<u32, NoMemory> {
    let mut ring = Ring::new(alloc)?;
    for i in 0..10 {
        apply(rt, alloc, &mut ring, Edit::Add(20 * i, 10, DEFAULT_LOOK))?;
    }
    apply(rt, alloc, &mut ring, last)?;
    assert!(rt; pos <= ring.len());
    Ok(ring.cursor(pos).walked())
}

#[test]
fn walks_from_the_kept_place(rt: HostRuntime) -> Result<(), Fail> {
    let rows: [(Edit, &[(u32, u32)]); 3] = [
        (
            Edit::Locate(55),
            &[
                (50, 0),
                (59, 0),
                (60, 1),
                (75, 2),
                (49, 2),
                (35, 3),
                (0, 6),
                (12, 5),
                (99, 4),
                (88, 3),
                (100, 0),
            ],
        ),
        (Edit::Locate(100), &[(100, 0), (99, 10), (0, 1)]),
        (Edit::Cut(42, 58), &[(42, 0), (43, 0), (44, 1), (41, 2)]),
    ];
    for (edit, walks) in rows {
        for (pos, links) in walks {
            assert!(rt; walked(&rt, rt.alloc(), edit, *pos)? == *links);
        }
    }
    Ok(())
}
