//! The writer.
ghost use Rattle.std.specs.Prelude.{◌≡◌, ◌+◌, ◌^◌, ◌<◌, ◌≤◌, ◌∷◌, [], length, IfOk, OnOk, OnErr};
ghost use Rattle.piece_ring.specs.Flat.{flat};
ghost use Rattle.piece_ring.specs.Look.{default_look};
ghost use Rattle.char_file.specs.Source.{most_characters, KeepsGround};
ghost use Rattle.writer_core.specs.Number.{number_text};
ghost use Rattle.writer_core.specs.Written.{IsWritten, IsRefused};

use crate::number::aligned;
use crate::{Buffer, CharSource, Look, NoMemory};
use piece_ring::{DEFAULT_LOOK, Piece};
use std::alloc::Global;
use std::marker::Model;
use std::mem::replace;

/// Characters that were written and not handed out yet, and the look of those to come.
#[derive(Drop)]
pub struct Writer {
    buffer: Buffer,
    look: Look,
}

impl Model for Writer {
    ghost use Rattle.piece_ring.specs.Flat.{flat};
    ghost use Rattle.writer_core.specs.Written.{Written};

    ghost Value = { Written };

    ghost view = { λ w. record { text = flat w.buffer; look = w.look } };
}

impl Writer {
    /// A writer that has written nothing, in the default look. It takes a little memory.
    pub fn new(alloc: Global) -> Result<Writer, NoMemory>
        ensures empty { IfOk result (λ w. w.text ≡ []) }
        ensures plain { IfOk result (λ w. w.look ≡ default_look) }
    {
        Ok(Writer {
            buffer: Buffer::new(alloc)?,
            look: DEFAULT_LOOK,
        })
    }

    /// The number of characters that were written and not handed out yet.
    pub fn len(&self) -> u32
        ensures { result ≡ length self.now.text }
    {
        self.buffer.len()
    }

    /// Sets the look of the characters to come. Those that were written keep theirs.
    pub fn set_looks(&mut self, look: Look)
        ensures text { self.new.text ≡ self.old.text }
        ensures look { self.new.look ≡ look }
    {
        self.look = look;
    }

    /// Writes one byte. `NoMemory`: nothing was written, though the source may have the byte.
    pub fn write<S: CharSource>(
        &mut self,
        alloc: Global,
        byte: u8,
        source: &mut S,
    ) -> Result<(), NoMemory>
        requires room { length (S.characters source.old) + 1 ≤ most_characters }
        requires fits { length self.old.text + 1 < 2 ^ 32 }
        ensures written { OnOk result (IsWritten (byte ∷ []) (S.characters source.old)
            (S.characters source.new) self.old self.new) }
        ensures refused { OnErr result (IsRefused (byte ∷ []) (S.characters source.old)
            (S.characters source.new) self.old self.new) }
        ensures keeps { KeepsGround S.failures S.honest S.same_ground source.old source.new }
    {
        self.write_string(alloc, &[byte], source)
    }

    /// Ends the line: writes a carriage return, the byte 13. `NoMemory`: as with `write`.
    pub fn write_ln<S: CharSource>(&mut self, alloc: Global, source: &mut S) -> Result<(), NoMemory>
        requires room { length (S.characters source.old) + 1 ≤ most_characters }
        requires fits { length self.old.text + 1 < 2 ^ 32 }
        ensures written { OnOk result (IsWritten (13 ∷ []) (S.characters source.old)
            (S.characters source.new) self.old self.new) }
        ensures refused { OnErr result (IsRefused (13 ∷ []) (S.characters source.old)
            (S.characters source.new) self.old self.new) }
        ensures keeps { KeepsGround S.failures S.honest S.same_ground source.old source.new }
    {
        self.write(alloc, b'\r', source)
    }

    /// Writes bytes, which may be none. `NoMemory`: nothing was written, though the source may have
    /// all of them.
    pub fn write_string<S: CharSource>(
        &mut self,
        alloc: Global,
        bytes: &[u8],
        source: &mut S,
    ) -> Result<(), NoMemory>
        requires room { length (S.characters source.old) + length bytes.now ≤ most_characters }
        requires fits { length self.old.text + length bytes.now < 2 ^ 32 }
        ensures written { OnOk result (IsWritten bytes.now (S.characters source.old)
            (S.characters source.new) self.old self.new) }
        ensures refused { OnErr result (IsRefused bytes.now (S.characters source.old)
            (S.characters source.new) self.old self.new) }
        ensures keeps { KeepsGround S.failures S.honest S.same_ground source.old source.new }
    {
        if bytes.is_empty() {
            return Ok(());
        }
        let off = source.append(bytes)?;
        let piece = Piece {
            off,
            len: bytes.len() as u32,
            look: self.look,
        };
        self.buffer.add(alloc, piece)
    }

    /// Writes a number in decimal, with a `-` before a negative one, after as many blanks as fill the width; a wider
    /// number is written whole. `NoMemory`: as with `write_string`.
    pub fn write_int<S: CharSource>(
        &mut self,
        alloc: Global,
        value: i64,
        width: u8,
        source: &mut S,
    ) -> Result<(), NoMemory>
        requires room { length (S.characters source.old) + length (number_text width value)
            ≤ most_characters }
        requires fits { length self.old.text + length (number_text width value) < 2 ^ 32 }
        ensures written { OnOk result (IsWritten (number_text width value) (S.characters source.old)
            (S.characters source.new) self.old self.new) }
        ensures refused { OnErr result (IsRefused (number_text width value)
            (S.characters source.old) (S.characters source.new) self.old self.new) }
        ensures keeps { KeepsGround S.failures S.honest S.same_ground source.old source.new }
    {
        let text = aligned(alloc, value, width)?;
        self.write_string(alloc, &text, source)
    }

    /// Hands out the characters that were written, and leaves none. `NoMemory`: the writer keeps them. The look stays
    /// in any case.
    pub fn take_buffer(&mut self, alloc: Global) -> Result<Buffer, NoMemory>
        ensures taken { IfOk result (λ b. flat b ≡ self.old.text) }
        ensures left { OnOk result (self.new.text ≡ []) }
        ensures refused { OnErr result (self.new.text ≡ self.old.text) }
        ensures look { self.new.look ≡ self.old.look }
    {
        let none = Buffer::new(alloc)?;
        Ok(replace(&mut self.buffer, none))
    }
}
