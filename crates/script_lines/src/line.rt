//! Taking the lines of a script from a reader, in whatever pieces it gives them.
ghost use Rattle.std.specs.Prelude.{◌≡◌, ◌≢◌, ◌==◌, ℕ, List, [], ◌+◌, ◌<◌, ◌≤◌, ◌++◌, ◌↔◌, length, position, IsTrue};
ghost use Rattle.std.specs.Prelude.{true, false, Some, None, IfSome};
ghost use Rattle.std.specs.Io.KnownBytes.{IsAtEnd};
ghost use Rattle.screen_pictures.specs.Printed.{ended_line};
ghost use Rattle.script_lines.specs.Script.{IsLine};
ghost use Rattle.script_lines.specs.Request.{request_of};

use crate::request::{LONGEST_LINE, Request, ask, ask_nothing};
use arrayvec::ArrayVec;
use byte_streams::ScriptReader;
use std::marker::Model;

/// How many bytes a read gives at most.
pub(crate) const LONGEST_PIECE: usize = 8192;

/// A line of a script, as far as it is kept: of a line of more than 4,096 bytes it is only known that it is so long.
#[derive(Drop)]
pub struct Line {
    bytes: ArrayVec<u8, LONGEST_LINE>,
    is_long: bool,
}

impl Line {
    ghost use Rattle.script_lines.specs.Reading.{HoldsLine};

    /// The empty line.
    pub fn new() -> Line
        ensures { HoldsLine result [] }
    {
        Line {
            bytes: ArrayVec::new(),
            is_long: false,
        }
    }

    /// Makes the request what the line asks for.
    pub fn ask(&self, request: &mut Request)
        ensures { (line : List ℕ) → HoldsLine self.now line → request.new ≡ request_of line }
    {
        if self.is_long {
            ask_nothing(request);
        } else {
            ask(self.bytes.as_slice(), request);
        }
    }

    /// Whether it is the empty line.
    pub fn is_empty(&self) -> bool
        ensures { (line : List ℕ) → HoldsLine self.now line → IsTrue result ↔ (line ≡ []) }
    {
        !self.is_long && self.bytes.is_empty()
    }

    /// Makes it the empty line.
    fn clear(&mut self)
        ensures { HoldsLine self.new [] }
    {
        self.bytes.clear();
        self.is_long = false;
    }

    /// Adds bytes at its end.
    fn extend(&mut self, bytes: &[u8])
        ensures { (line : List ℕ) → HoldsLine self.old line
            → HoldsLine self.new (line ++ bytes.now) }
    {
        match self.bytes.try_extend_from_slice(bytes) {
            Ok(()) => {}
            Err(_) => self.is_long = true,
        }
    }
}

/// How a line came to its end.
#[derive(Clone, Copy, Debug, PartialEq, Eq)]
pub enum LineEnd {
    /// By a line feed.
    Feed,
    /// By the end of the script.
    End,
    /// By a read that failed, or by one read call too many.
    Fault,
}

/// A script on its way from a reader: a piece of it, of which a prefix is in lines already.
///
/// A clause sees what of the piece is in no line yet, and how many reads may follow.
#[derive(Drop)]
pub struct Script {
    piece: [u8; LONGEST_PIECE],
    next: usize,
    end: usize,
    reads: u32,
}

impl Model for Script {
    ghost use Rattle.std.specs.Prelude.{◌≤◌};
    ghost use Rattle.std.specs.List.{between};
    ghost use Rattle.script_lines.specs.Reading.{Unplayed, longest_piece};

    ghost Value = { Unplayed };

    ghost view = { λ s. record { pending = between s.next s.end s.piece; reads = s.reads } };

    ghost invariant = { λ s. (s.next ≤ s.end) × (s.end ≤ longest_piece) };
}

impl Script {
    ghost use Rattle.script_lines.specs.Reading.{HoldsLine, TakesLine, TakesRest, ReadsPiece, most_lines};
    ghost use Rattle.byte_streams.specs.Counting.{RisesWhere};

    /// A script of which nothing is read yet, and that may take so many reads before the one that says that it is at
    /// its end.
    pub fn new(reads: u32) -> Script
        ensures pending { result.pending ≡ [] }
        ensures reads { result.reads ≡ reads }
    {
        Script {
            piece: [0; LONGEST_PIECE],
            next: 0,
            end: 0,
            reads,
        }
    }

    /// Takes the next line from the reader. It ends at a line feed, at the end of the script, or where a read fails. The
    /// read that gave no byte was the last one: none follows the end of the script, nor a read that failed.
    pub fn take_line<R: ScriptReader>(&mut self, line: &mut Line, reader: &mut R) -> LineEnd
        ensures line { result ≡ LineEnd.Feed → TakesLine self.old self.new
            (R.remaining reader.old) (R.remaining reader.new) line.new }
        ensures fewer { result ≡ LineEnd.Feed → most_lines self.new < most_lines self.old }
        ensures rest { (result ≡ LineEnd.Feed → ⊥) → TakesRest self.old self.new
            (R.remaining reader.old) (R.remaining reader.new) line.new }
        ensures end { result ≡ LineEnd.End → IsAtEnd (R.remaining reader.new) }
        ensures counted { R.reads reader.new + self.new.reads
            ≡ R.reads reader.old + self.old.reads }
        ensures given { result ≡ LineEnd.Feed
            → R.calls reader.new + R.reads reader.old ≡ R.calls reader.old + R.reads reader.new }
        ensures one_blank { R.calls reader.new + R.reads reader.old
            ≤ R.calls reader.old + R.reads reader.new + 1 }
        ensures cause { RisesWhere ((result ≡ LineEnd.Fault) × (self.new.reads ≢ 0))
            (R.failures reader.old) (R.failures reader.new) }
    {
        line.clear();
        while !self.take_pending(line) {
            match self.read_piece(reader) {
                Some(0) => return LineEnd::End,
                Some(_) => {}
                None => return LineEnd::Fault,
            }
        }
        LineEnd::Feed
    }

    /// Adds what is pending up to the next line feed to the line. Whether there was one: then it is taken too.
    fn take_pending(&mut self, line: &mut Line) -> bool
        ensures feed { IsTrue result → (front : List ℕ) × IsLine front
            × (self.old.pending ≡ ended_line front ++ self.new.pending)
            × ((before : List ℕ) → HoldsLine line.old before
            → HoldsLine line.new (before ++ front)) }
        ensures none { result ≡ false → (self.new.pending ≡ []) × IsLine self.old.pending
            × ((before : List ℕ) → HoldsLine line.old before
            → HoldsLine line.new (before ++ self.old.pending)) }
        ensures reads { self.new.reads ≡ self.old.reads }
    {
        let pending = &self.piece[self.next..self.end];
        match first_feed(pending) {
            Some(feed) => {
                line.extend(&pending[..feed]);
                self.next += feed + 1;
                true
            }
            None => {
                line.extend(pending);
                self.next = self.end;
                false
            }
        }
    }

    /// Reads the next piece. Returns how many bytes it has, 0 at the end of the script; None where the read
    /// failed or would be one too many.
    fn read_piece<R: ScriptReader>(&mut self, reader: &mut R) -> Option<usize>
        requires { self.old.pending ≡ [] }
        ensures piece { ReadsPiece result (R.remaining reader.old) (R.remaining reader.new)
            self.new.pending }
        ensures reads { IfSome result (λ n. 0 < n → self.new.reads + 1 ≡ self.old.reads) }
        ensures no_more { self.new.reads ≤ self.old.reads }
        ensures counted { R.reads reader.new + self.new.reads
            ≡ R.reads reader.old + self.old.reads }
        ensures given { IfSome result (λ n. 0 < n
            → R.calls reader.new + R.reads reader.old ≡ R.calls reader.old + R.reads reader.new) }
        ensures one_blank { R.calls reader.new + R.reads reader.old
            ≤ R.calls reader.old + R.reads reader.new + 1 }
        ensures cause { RisesWhere ((result ≡ None) × (self.new.reads ≢ 0))
            (R.failures reader.old) (R.failures reader.new) }
    {
        if self.reads == 0 {
            return None;
        }
        self.next = 0;
        self.end = 0;
        match reader.read_some(&mut self.piece) {
            Ok(0) => Some(0),
            Ok(count) => {
                self.end = count;
                self.reads -= 1;
                Some(count)
            }
            Err(_) => None,
        }
    }
}

/// Where the first line feed stands.
fn first_feed(bytes: &[u8]) -> Option<usize>
    ensures first { result ≡ position (λ b. b == 10) bytes.now }
    ensures within { IfSome result (λ i. i < length bytes.now) }
{
    bytes.iter().position(|byte| *byte == b'\n')
}
