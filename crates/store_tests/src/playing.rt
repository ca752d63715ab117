//! Scripts played over a store by readers that give them in pieces or fail, and writers that fail. That a line is
//! answered before the next one is read, and that a long line is one malformed line, the scripts `answers_held_back`
//! and `long_line` show.
ghost use Rattle.std.specs.Prelude.{◌≡◌, IfOk, false};

use crate::disks::new_store;
use oberon_main::{CountedReader, CountedWriter, PlayEnd, Store, Version, play, play_bounded};
use sector_disk::MemoryDisk;
use std::alloc::{AllocError, Global};
use std::io;
use std::io::{ErrorKind, Read, Write};

/// Files a text and shows it.
const HELLO: &[u8] = b"file A.Text Hello%0d\nshow A.Text\n";

/// What `HELLO` gives.
const HELLO_REPLIES: &[u8] = b"ok\n0 15 0 Hello%0d\nend\n";

/// A new store in memory, open.
fn opened(alloc: Global) -> Result<Store<MemoryDisk>, AllocError>
    ensures { IfOk result (λ store. store.must_reopen ≡ false) }
{
    match Store::open(alloc, new_store(alloc, Version::V3)?) {
        Ok(store) => Ok(store),
        Err(_) => Err(AllocError),
    }
}

/// How a script ends over a new store.
fn end_of<R: Read, W: Write>(
    alloc: Global,
    reader: &mut R,
    writer: &mut W,
) -> Result<PlayEnd, AllocError> {
    let mut store = opened(alloc)?;
    Ok(play(
        alloc,
        &mut CountedReader::new(reader),
        &mut CountedWriter::new(writer),
        &mut store,
    ))
}

/// A reader that gives at most so many bytes at a time.
#[derive(Drop)]
struct Pieces<'a> {
    bytes: &'a [u8],
    size: usize,
    /// Whether the read after the last byte fails.
    fails: bool,
}

impl Read for Pieces<'_> {
    fn read(&mut self, buf: &mut [u8]) -> io::Result<usize> {
        if self.bytes.is_empty() && self.fails {
            return Err(io::Error::from(ErrorKind::BrokenPipe));
        }
        let count = self.size.min(self.bytes.len()).min(buf.len());
        let (piece, rest) = self.bytes.split_at(count);
        buf[..count].copy_from_slice(piece);
        self.bytes = rest;
        Ok(count)
    }
}

/// A writer that takes so many bytes, one at a time, and so many flushes.
#[derive(Drop)]
struct Narrow {
    taken: Vec<u8>,
    room: usize,
    flushes: usize,
    /// Whether a write without room fails, rather than takes no byte.
    fails: bool,
}

impl Write for Narrow {
    fn write(&mut self, buf: &[u8]) -> io::Result<usize> {
        match buf.first() {
            Some(byte) if self.taken.len() < self.room => {
                self.taken.push(*byte)?;
                Ok(1)
            }
            _ if self.fails => Err(io::Error::from(ErrorKind::BrokenPipe)),
            _ => Ok(0),
        }
    }

    fn flush(&mut self) -> io::Result<()> {
        if self.flushes == 0 {
            return Err(io::Error::from(ErrorKind::BrokenPipe));
        }
        self.flushes -= 1;
        Ok(())
    }
}

/// A reader that gives one byte of a line at a time, without an end.
#[derive(Drop)]
struct Endless {
    reads: u64,
}

impl Read for Endless {
    fn read(&mut self, buf: &mut [u8]) -> io::Result<usize> {
        let Some(first) = buf.first_mut() else {
            return Ok(0);
        };
        *first = b'x';
        self.reads = self.reads.wrapping_add(1);
        Ok(1)
    }
}

/// How a script ends that comes in pieces of that size, and then perhaps fails, and what it gives.
fn in_pieces(
    alloc: Global,
    bytes: &[u8],
    size: usize,
    fails: bool,
) -> Result<(PlayEnd, Vec<u8>), AllocError> {
    let mut written = Vec::new(alloc);
    let end = end_of(alloc, &mut Pieces { bytes, size, fails }, &mut written)?;
    Ok((end, written))
}

/// A last line without its line feed is played, but not where reading fails behind it.
#[test]
fn script_in_pieces(rt: HostRuntime) -> Result<(), AllocError> {
    let rows: [(&[u8], bool, PlayEnd, &[u8]); 4] = [
        (HELLO, false, PlayEnd::Done, HELLO_REPLIES),
        (
            HELLO,
            true,
            PlayEnd::Input,
            b"ok\n0 15 0 Hello%0d\nend\ninput\n",
        ),
        (b"list", false, PlayEnd::Done, b"written 0\nend\n"),
        (b"list", true, PlayEnd::Input, b"input\n"),
    ];
    for size in 1..40 {
        for (bytes, fails, end, wanted) in rows {
            let (ended, written) = in_pieces(rt.alloc(), bytes, size, fails)?;
            assert!(rt; ended == end && written.as_slice() == wanted);
        }
    }
    Ok(())
}

/// How ten empty lines end over a new store with a bound on the reads, and what they give.
fn ten_lines(alloc: Global, reads: u32) -> Result<(PlayEnd, Vec<u8>), AllocError> {
    let mut store = opened(alloc)?;
    let mut written = Vec::new(alloc);
    let mut reader = CountedReader::new(Pieces {
        bytes: b"\n\n\n\n\n\n\n\n\n\n",
        size: 1,
        fails: false,
    });
    let mut writer = CountedWriter::new(&mut written);
    let end = play_bounded(alloc, &mut reader, &mut writer, &mut store, reads);
    Ok((end, written))
}

/// How a line without an end ends, what it gives, and how many reads it took.
fn played_on(alloc: Global) -> Result<(PlayEnd, Vec<u8>, u64), AllocError> {
    let mut reader = Endless { reads: 0 };
    let mut written = Vec::new(alloc);
    let end = end_of(alloc, &mut reader, &mut written)?;
    Ok((end, written, reader.reads))
}

/// The most reads that give bytes are 67,108,864, or another bound where one is named.
#[test]
fn bounded_turns(rt: HostRuntime) -> Result<(), AllocError> {
    let rows: [(u32, PlayEnd, &[u8]); 2] = [
        (8, PlayEnd::Input, b"?\n?\n?\n?\n?\n?\n?\n?\ninput\n"),
        (11, PlayEnd::Done, b"?\n?\n?\n?\n?\n?\n?\n?\n?\n?\n"),
    ];
    for (reads, end, wanted) in rows {
        let (ended, written) = ten_lines(rt.alloc(), reads)?;
        assert!(rt; ended == end && written.as_slice() == wanted);
    }
    let (ended, written, reads) = played_on(rt.alloc())?;
    assert!(rt; ended == PlayEnd::Input && reads == 67_108_864);
    assert!(rt; written.as_slice() == b"input\n".as_slice());
    Ok(())
}

/// Plays `HELLO` on a writer that takes so many bytes and flushes: how it ends, and what the writer has taken.
fn halted(
    alloc: Global,
    room: usize,
    flushes: usize,
    fails: bool,
) -> Result<(PlayEnd, Vec<u8>), AllocError> {
    let mut writer = Narrow {
        taken: Vec::new(alloc),
        room,
        flushes,
        fails,
    };
    let mut script = HELLO;
    let end = end_of(alloc, &mut script, &mut writer)?;
    Ok((end, writer.taken))
}

/// Each of the two lines has a flush.
#[test]
fn write_faults(rt: HostRuntime) -> Result<(), AllocError> {
    for room in 0..HELLO_REPLIES.len() {
        for fails in [true, false] {
            let (end, taken) = halted(rt.alloc(), room, 2, fails)?;
            assert!(rt; end == PlayEnd::Output && taken.as_slice() == &HELLO_REPLIES[..room]);
        }
    }
    let rows: [(usize, PlayEnd, &[u8]); 3] = [
        (0, PlayEnd::Output, b"ok\n"),
        (1, PlayEnd::Output, HELLO_REPLIES),
        (2, PlayEnd::Done, HELLO_REPLIES),
    ];
    for (flushes, end, wanted) in rows {
        let (ended, taken) = halted(rt.alloc(), HELLO_REPLIES.len(), flushes, true)?;
        assert!(rt; ended == end && taken.as_slice() == wanted);
    }
    Ok(())
}
