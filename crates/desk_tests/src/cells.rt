//! The screen: writers that take a text in pieces or fail, and lines that are kept. Rows of screens stand in
//! `proofs/ScreenRows.antt` and beside the steps.
ghost use Rattle.std.specs.Prelude.{◌<◌, ◌≤◌, ◌+◌, ◌^◌, length, IfOk};
ghost use Rattle.piece_ring.specs.Flat.{flat};
ghost use Rattle.piece_ring.specs.Text.{AreWithin};
ghost use Rattle.screen_cells.specs.Lines.{HavePlaces};

use byte_streams::OutputFault;
use char_file::{CharFile, CharSource, NoMemory};
use char_pages::{Paged, Pages};
use piece_ring::DEFAULT_LOOK;
use screen_cells::{KeptLines, Screen, Shown};
use sector_disk::{Disk, Fault, Fuse, MemoryDisk};
use std::alloc::Global;
use std::io;
use std::io::{ErrorKind, Write};
use std::process::Abort;
use std::test::Fail;
use text_core::Text;
use text_frames::{Frame, FrameSelection};
use viewer_tracks::{Tracks, ViewerId};

const CORNER: Option<(u8, u8)> = Some((79, 31));

/// The length of what is printed of an empty display with the marker in that corner.
const CORNER_LENGTH: usize = 222;

/// A writer that takes at most `size` bytes at a time, and once it has `room` bytes fails or takes no more.
#[derive(Drop)]
struct Narrow {
    taken: Vec<u8>,
    size: usize,
    room: usize,
    fails: bool,
}

impl Write for Narrow {
    fn write(&mut self, buf: &[u8]) -> io::Result<usize> {
        let has = self.taken.len();
        if has >= self.room && self.fails {
            return Err(io::Error::from(ErrorKind::BrokenPipe));
        }
        let left = if has < self.room { self.room - has } else { 0 };
        let count = self.size.min(buf.len()).min(left);
        self.taken.extend_from_slice(&buf[..count])?;
        Ok(count)
    }

    fn flush(&mut self) -> io::Result<()> {
        Ok(())
    }
}

/// A writer that takes everything and can't pass it on.
#[derive(Drop)]
struct Stuck {
    taken: Vec<u8>,
}

impl Write for Stuck {
    fn write(&mut self, buf: &[u8]) -> io::Result<usize> {
        self.taken.write(buf)
    }

    fn flush(&mut self) -> io::Result<()> {
        Err(io::Error::from(ErrorKind::BrokenPipe))
    }
}

/// The screen of an empty display.
fn painted(alloc: Global, marker: Option<(u8, u8)>) -> Result<Screen, Fail> {
    let mut screen = Screen::new();
    let mut source = CharFile::new(alloc);
    let mut lines = KeptLines::new(alloc);
    lines.prepare()?;
    screen.paint(&Tracks::new(), &[], marker, &mut lines, &mut source)?;
    Ok(screen)
}

/// What is printed of a screen.
fn text_of(alloc: Global, screen: &Screen) -> Result<Vec<u8>, OutputFault> {
    let mut text = Vec::new(alloc);
    screen.print(&mut text)?;
    Ok(text)
}

/// What is to be printed of an empty display: 32 lines of which each is a number, and a line for the row of the marker.
fn wanted(alloc: Global, marker: Option<(u8, u8)>) -> Result<Vec<u8>, Fail> {
    let mut text = Vec::new(alloc);
    for y in (0..32u8).rev() {
        text.extend_from_slice(&[b'0' + y / 10, b'0' + y % 10, b':', b'\n'])?;
    }
    text.extend_from_slice(b"marks\n")?;
    if let Some((x, y)) = marker {
        text.extend_from_slice(&[b'0' + y / 10 % 10, b'0' + y % 10, b':'])?;
        for _ in 0..x {
            text.push(b'.')?;
        }
        text.extend_from_slice(b"m\n")?;
    }
    text.extend_from_slice(b"end\n")?;
    Ok(text)
}

/// The text of some of the source's characters, in the default look.
fn text_within<S: CharSource>(
    alloc: Global,
    source: &S,
    first: u32,
    count: u32,
) -> Result<Text, NoMemory>
    requires fits { first + count < 2 ^ 32 }
    requires inside { first + count ≤ length (S.characters source.now) }
    ensures { IfOk result (λ text. AreWithin (length (S.characters source.now)) (flat text)) }
{
    let text = Text::of_run(alloc, first, count, DEFAULT_LOOK)?;
    Ok(text)
}

/// The same, where they are there.
fn text_at<S: CharSource>(
    rt: &impl Abort,
    alloc: Global,
    source: &S,
    first: u32,
    count: u32,
) -> Result<Text, NoMemory>
    ensures { IfOk result (λ text. AreWithin (length (S.characters source.now)) (flat text)) }
{
    let len = source.len();
    assert!(rt; first < 100_000);
    assert!(rt; count < 100_000);
    assert!(rt; first + count <= len);
    text_within(alloc, source, first, count)
}

/// The tracks of a display where viewer 1 has all rows of the track with this column.
fn tracks_of_one(rt: &impl Abort, x: u8) -> Tracks {
    let mut tracks = Tracks::new();
    assert!(rt; x < 80 && !tracks.contains(ViewerId(1)));
    assert!(rt; tracks.open(ViewerId(1), x, 32).is_none());
    tracks
}

/// Paints viewer 1 with these texts, numbered 2 and 1, from lines that are kept.
fn paint_one<S: CharSource>(
    rt: &impl Abort,
    tracks: &Tracks,
    menu: &Text,
    main: &Text,
    frame: &Frame,
    marker: Option<(u8, u8)>,
    lines: &mut KeptLines,
    source: &mut S,
) -> Result<Screen, Fault>
    requires ready { HavePlaces lines.old }
    requires menu { AreWithin (length (S.characters source.old)) (flat menu.now) }
    requires main { AreWithin (length (S.characters source.old)) (flat main.now) }
{
    assert!(rt; frame.org <= main.len());
    let mut screen = Screen::new();
    let shown = [Shown {
        id: ViewerId(1),
        menu,
        menu_text: 2,
        main,
        frame: *frame,
    }];
    screen.paint(tracks, &shown, marker, lines, source)?;
    Ok(screen)
}

/// A frame of the text from `org` on.
fn frame_at(org: u32, caret: Option<u32>, selection: Option<(u32, u32)>) -> Frame {
    Frame {
        text: 1,
        org,
        caret,
        selection: selection.map(|(beg, end)| FrameSelection { beg, end, rank: 1 }),
    }
}

/// Prints a screen on a writer with so much room that takes so many bytes at a time: how that ends, and what is taken.
fn printed(
    alloc: Global,
    screen: &Screen,
    size: usize,
    room: usize,
    fails: bool,
) -> (Result<(), OutputFault>, Vec<u8>) {
    let mut writer = Narrow {
        taken: Vec::new(alloc),
        size,
        room,
        fails,
    };
    let end = screen.print(&mut writer);
    (end, writer.taken)
}

#[test]
fn pieces_of_any_size(rt: HostRuntime) -> Result<(), Fail> {
    let alloc = rt.alloc();
    let whole = wanted(alloc, CORNER)?;
    let screen = painted(alloc, CORNER)?;
    for size in 1..=CORNER_LENGTH {
        let (end, taken) = printed(alloc, &screen, size, CORNER_LENGTH, true);
        assert!(rt; end == Ok(()) && taken.as_slice() == whole.as_slice());
    }
    Ok(())
}

#[test]
fn write_faults(rt: HostRuntime) -> Result<(), Fail> {
    let alloc = rt.alloc();
    let whole = wanted(alloc, CORNER)?;
    let screen = painted(alloc, CORNER)?;
    for room in 0..CORNER_LENGTH.min(whole.len()) {
        for (size, fails) in [(1, true), (1, false), (84, true), (84, false)] {
            let (end, taken) = printed(alloc, &screen, size, room, fails);
            assert!(rt; end == Err(OutputFault) && taken.as_slice() == &whole[..room]);
        }
    }
    Ok(())
}

#[test]
fn flush_fault(rt: HostRuntime) -> Result<(), Fail> {
    let screen = painted(rt.alloc(), CORNER)?;
    let mut writer = Stuck {
        taken: Vec::new(rt.alloc()),
    };
    assert!(rt;
        screen.print(&mut writer) == Err(OutputFault) && writer.taken.len() == CORNER_LENGTH
    );
    Ok(())
}

/// What is printed of viewer 1 over a disk whose first sector has both its texts, from lines that are kept. None where
/// a read fails.
fn printed_over<D: Disk>(
    rt: &impl Abort,
    alloc: Global,
    disk: &mut D,
    lines: &mut KeptLines,
) -> Result<Option<Vec<u8>>, Fail> {
    assert!(rt; disk.sectors() > 0);
    let mut pages = Pages::new(alloc, 0, 1024, &[])?;
    let mut source = Paged::over(disk, &mut pages);
    let menu = text_at(rt, alloc, &source, 0, 24)?;
    let main = text_at(rt, alloc, &source, 24, 900)?;
    let frame = frame_at(0, Some(60), None);
    lines.prepare()?;
    match paint_one(
        rt,
        &tracks_of_one(rt, 0),
        &menu,
        &main,
        &frame,
        None,
        lines,
        &mut source,
    ) {
        Ok(screen) => Ok(Some(text_of(alloc, &screen)?)),
        Err(Fault) => Ok(None),
    }
}

/// Lines that are kept are painted over a disk that refuses every read; others aren't, and those of a text that was
/// given up aren't either.
#[test]
fn no_second_read(rt: HostRuntime) -> Result<(), Fail> {
    let alloc = rt.alloc();
    let mut disk = MemoryDisk::new(alloc, 1)?;
    let mut lines = KeptLines::new(alloc);
    let first = printed_over(&rt, alloc, &mut disk, &mut lines)?;
    assert!(rt; first.is_some());
    let mut refusing = Fuse::new(disk, 0);
    assert!(rt; printed_over(&rt, alloc, &mut refusing, &mut lines)? == first);
    for number in [1, 2] {
        let mut none = KeptLines::new(alloc);
        assert!(rt; printed_over(&rt, alloc, &mut refusing, &mut none)?.is_none());
        lines.forget_text(number, 0);
        assert!(rt; printed_over(&rt, alloc, &mut refusing, &mut lines)?.is_none());
    }
    Ok(())
}
