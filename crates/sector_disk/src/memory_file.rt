//! A file in memory, for tests of what stands above a file.
//!
//! A clause sees it as the list of the bytes written to it and of its syncs, which has no bytes itself.
ghost use Rattle.std.specs.Prelude.{◌≡◌, ◌<◌, ◌≤◌, ◌^◌, ◌==◌, ℕ, [], ◌∷◌, ◌++◌, length, get_or, if◌then◌else◌, true};
ghost use Rattle.std.specs.Prelude.{OnOk, OnErr};
ghost use Rattle.sector_disk.specs.FileTrail.{current};
ghost use Rattle.sector_disk.specs.MemoryFile.{file_trail_of};

use crate::NoMemory;
use crate::file_call::FileCall;
use crate::host_file::{HostError, HostFile};
use ghost_traces::Trace;
use std::alloc::Global;
use std::marker::Model;

/// A file in memory, at first without bytes. It is always honest, and as unwilling as a host may be: a call moves no more
/// bytes than so many, and signals may interrupt it.
#[derive(Drop)]
pub struct MemoryFile {
    bytes: Vec<u8>,
    calls: Trace<FileCall>,

    /// How many bytes a call moves at most, beyond the first.
    more: u32,

    /// Whether every other read and write is interrupted.
    signals: bool,

    /// Whether the last one was.
    interrupted: bool,
}

impl Model for MemoryFile {
    ghost use Rattle.std.specs.Prelude.{◌≡◌, ℕ, List, get_or};
    ghost use Rattle.sector_disk.specs.declared.file_call.FileCall.{FileCall};
    ghost use Rattle.sector_disk.specs.FileTrail.{current};
    ghost use Rattle.sector_disk.specs.MemoryFile.{file_trail_of};

    ghost Value = { List FileCall };

    ghost view = { λ f. f.calls.items };

    ghost invariant = { λ f. (i : ℕ) → get_or f.bytes.items i 0 ≡ (current (file_trail_of f.calls.items)).reads i };
}

impl MemoryFile {
    /// A file without bytes, each call of which moves one byte, and at most so many more. Where there are signals, one
    /// interrupts the first read or write, the third one, and so on.
    pub fn new(alloc: Global, more: u32, signals: bool) -> MemoryFile
        ensures { result ≡ [] }
    {
        MemoryFile {
            bytes: Vec::new(alloc),
            calls: Trace::new(),
            more,
            signals,
            interrupted: false,
        }
    }

    /// Whether a signal interrupts this call.
    fn signalled(&mut self) -> bool
        ensures { self.new ≡ self.old }
    {
        self.interrupted = self.signals && !self.interrupted;
        self.interrupted
    }

    /// Writes a byte.
    fn put(&mut self, at: usize, value: u8) -> Result<(), NoMemory>
        requires { at < 2 ^ 63 }
        ensures written { OnOk result (self.new ≡ self.old ++ FileCall.Byte at value ∷ []) }
        ensures refused { OnErr result (self.new ≡ self.old) }
    {
        set_byte(&mut self.bytes, at, value)?;
        self.calls.add(&[FileCall::Byte(at as u64, value)]);
        Ok(())
    }
}

/// Makes the bytes as many as that at least, with zeros behind those that there are.
fn lengthen(bytes: &mut Vec<u8>, size: usize) -> Result<(), NoMemory>
    ensures long { OnOk result (size ≤ length bytes.new.items) }
    ensures same { (i : ℕ) → get_or bytes.new.items i 0 ≡ get_or bytes.old.items i 0 }
{
    while bytes.len() < size {
        bytes.push(0)?;
    }
    Ok(())
}

/// Puts a byte, behind zeros where there are fewer. `NoMemory`: all bytes are as before.
fn set_byte(bytes: &mut Vec<u8>, at: usize, value: u8) -> Result<(), NoMemory>
    requires { at < 2 ^ 63 }
    ensures set { OnOk result ((i : ℕ)
        → get_or bytes.new.items i 0 ≡ (if i == at then value else get_or bytes.old.items i 0)) }
    ensures refused { OnErr result ((i : ℕ)
        → get_or bytes.new.items i 0 ≡ get_or bytes.old.items i 0) }
{
    lengthen(bytes, at + 1)?;
    bytes[at] = value;
    Ok(())
}

impl HostFile for MemoryFile {
    ghost trail = { λ f. file_trail_of f };

    ghost honest = { λ _. Unit {0} };

    ghost intact = { λ _. true };

    fn read_at(&mut self, buffer: &mut [u8], offset: u64) -> Result<usize, HostError> {
        if self.signalled() {
            return Err(HostError::Interrupted);
        }
        let from = offset as usize;
        let size = self.bytes.len();
        if from >= size || buffer.is_empty() {
            return Ok(0);
        }
        let n = buffer.len().min(size - from).min(self.more as usize + 1);
        buffer[..n].copy_from_slice(&self.bytes[from..from + n]);
        Ok(n)
    }

    /// A write that finds no memory for a byte is refused.
    fn write_at(&mut self, bytes: &[u8], offset: u64) -> Result<usize, HostError> {
        if self.signalled() {
            return Err(HostError::Interrupted);
        }
        if offset >= u32::MAX as u64 {
            return Err(HostError::Refused);
        }
        let n = bytes.len().min(self.more as usize + 1);
        for i in 0..n {
            if self.put(offset as usize + i, bytes[i]).is_err() {
                return Err(HostError::Refused);
            }
        }
        Ok(n)
    }

    fn sync_data(&mut self) -> Result<(), HostError> {
        self.calls.add(&[FileCall::Sync]);
        Ok(())
    }
}
