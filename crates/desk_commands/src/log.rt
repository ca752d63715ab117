//! Lines of the log, which is text 0.
ghost use Rattle.std.specs.Prelude.{◌≡◌, ◌+◌, ◌<◌, ◌≤◌, ◌^◌, ◌++◌, ℕ, List, ◌∷◌, length, map, slice_get, Some, Ok};
ghost use Rattle.std.specs.Prelude.{IfOk};
ghost use Rattle.std.specs.Fmt.{decimal};
ghost use Rattle.screen_pictures.specs.Bytes.{space};
ghost use Rattle.desktop_definitions.specs.Log.{line, logged, all_logged, log_shown, log_end_shown};
ghost use Rattle.desktop_definitions.specs.Effects.{size_line, storing_line, log_cleared, directory_logged};
ghost use Rattle.desk_commands.specs.Lines.{bytes_of_lines, length_of_lines, CanLog, Logs, OnlyChangesSo};
ghost use Rattle.desk_core.specs.Words.{keys_of, flat, text_in, seen_table};
ghost use Rattle.desk_core.specs.Words.{IsOver, IsBuilt, kept_desktop, Does};
ghost use Rattle.desk_commands.specs.Words.{default_look, run, deleting_line};

use arrayvec::ArrayVec;
use char_file::CharSource;
use desk_core::desk::Desk;
use desk_core::edits::buffer_of_run;
use desk_core::files::Files;
use desk_core::stop::{NoMemory, StepResult, Stop};
use desktop_definitions::{Reply, codes};
use event_bytes::Name;
use piece_ring::DEFAULT_LOOK;
use std::alloc::Global;
use std::vec::Vec;
use text_core::Buffer;
use viewer_tracks::ViewerId;

/// A line of the log, with the carriage return that ends it.
pub type LogLine = ArrayVec<u8, 64>;

/// A word, a name, and a carriage return.
fn named_line(word: &[u8], name: &Name) -> LogLine
    requires { length word.now < 20 }
    ensures { result.items ≡ line (word.now ++ name.now) }
{
    let mut text = LogLine::new();
    text.try_extend_from_slice(word).unwrap();
    text.try_extend_from_slice(name.as_bytes()).unwrap();
    text.push(b'\r');
    text
}

/// A word, a name, a space and a number, and a carriage return.
fn sized_line(word: &[u8], name: &Name, size: u32) -> LogLine
    requires { length word.now < 20 }
    ensures { result.items ≡ line (word.now ++ (name.now ++ space ∷ decimal size)) }
{
    let mut digits = itoa::Buffer::new();
    let mut text = LogLine::new();
    text.try_extend_from_slice(word).unwrap();
    text.try_extend_from_slice(name.as_bytes()).unwrap();
    text.push(b' ');
    text.try_extend_from_slice(digits.format(size).as_bytes())
        .unwrap();
    text.push(b'\r');
    text
}

/// The line of a file that was stored.
pub fn storing_line(name: &Name, size: u32) -> LogLine
    ensures { result.items ≡ storing_line name.now size }
{
    sized_line(b"Edit.Store ", name, size)
}

/// The line of a file that was deleted.
pub fn deleting_line(name: &Name) -> LogLine
    ensures { result.items ≡ deleting_line name.now }
{
    named_line(b"System.DeleteFiles ", name)
}

/// A line for each file, by rising names. NoMemory where an allocation is refused.
fn directory_lines(alloc: Global, files: &Files) -> Result<Vec<LogLine>, NoMemory>
    ensures { IfOk result (λ lines. (characters : List ℕ) → bytes_of_lines lines.items
        ≡ map (λ file. size_line file.0 (length file.1))
        (seen_table characters files.now.entries)) }
{
    let mut lines = Vec::new(alloc);
    for (name, text) in files {
        lines.push(sized_line(b"", name, text.len()))?;
    }
    Ok(lines)
}

/// How many characters lines have.
pub fn total(lines: &[LogLine]) -> usize
    requires { length lines.now ≤ 257 }
    ensures value { result ≡ length_of_lines lines.now }
    ensures few { result < 2 ^ 16 }
{
    let mut sum = 0;
    for line in lines {
        sum += line.len();
    }
    sum
}

/// A buffer of the `count` characters of a line, which stand together from the offset `first` on. NoMemory where an
/// allocation is refused.
fn buffer_of_line(alloc: Global, first: u32, count: u32) -> Result<Buffer, NoMemory>
    requires offsets { first + count < 2 ^ 32 }
    ensures { IfOk result (λ buffer. flat buffer ≡ run first count default_look) }
{
    if count == 0 {
        return Buffer::new(alloc);
    }
    buffer_of_run(alloc, first, count, DEFAULT_LOOK)
}

/// The log becomes empty. NoMemory where an allocation is refused, Fault where a character could not be read.
pub fn clear_log<S: CharSource>(desk: &mut Desk, source: &mut S) -> StepResult
    requires over { IsOver (S.characters source.old) (kept_desktop desk.old) }
    ensures { Does S.CharSource (λ d. Ok (log_cleared d)) result
        source.old source.new (kept_desktop desk.old) (kept_desktop desk.new) }
{
    let len = log_len(desk);
    if len > 0 {
        desk.delete(0, 0, len, source)?;
    }
    Ok(Reply::Done)
}

/// A line for each file goes into the log, by rising names. Refused where the limits on characters don't hold then.
/// NoMemory where an allocation is refused, Fault where a character could not be read.
pub fn log_directory<S: CharSource>(desk: &mut Desk, source: &mut S) -> StepResult
    requires over { IsOver (S.characters source.old) (kept_desktop desk.old) }
    ensures { Does S.CharSource (λ d. Ok (directory_logged d)) result
        source.old source.new (kept_desktop desk.old) (kept_desktop desk.new) }
{
    let made = directory_lines(desk.alloc, &desk.files)?;
    let lines = made.as_slice();
    let count = total(lines);
    if !desk.fits_more(count, count, 0) {
        return Ok(Reply::No(codes::FULL));
    }
    log_lines(desk, lines, source)?;
    Ok(Reply::Done)
}

/// How many characters the log has.
fn log_len(desk: &Desk) -> u32
    ensures { result ≡ length (flat (text_in (kept_desktop desk.now).texts 0)) }
{
    match desk.texts.get(&0) {
        Some(log) => log.len(),
        None => 0,
    }
}

/// Puts lines in at the end of the log, one by one: each viewer of the log in a track shows its end before the
/// next line comes. NoMemory where an allocation is refused, Fault where a character could not be read.
pub fn log_lines<S: CharSource>(
    desk: &mut Desk,
    lines: &[LogLine],
    source: &mut S,
) -> Result<(), Stop>
    requires { CanLog (S.characters source.old) (kept_desktop desk.old)
        (length_of_lines lines.now) }
    ensures { Logs S.CharSource (λ d. all_logged d (bytes_of_lines lines.now))
        (length_of_lines lines.now) result
        source.old source.new (kept_desktop desk.old) (kept_desktop desk.new) }
{
    for line in lines {
        log_line(desk, line.as_slice(), source)?;
    }
    Ok(())
}

/// Puts a line in at the end of the log, and each viewer of the log in a track shows its end. NoMemory where an
/// allocation is refused, Fault where a character could not be read.
pub fn log_line<S: CharSource>(desk: &mut Desk, line: &[u8], source: &mut S) -> Result<(), Stop>
    requires { CanLog (S.characters source.old) (kept_desktop desk.old) (length line.now) }
    ensures { Logs S.CharSource (λ d. logged d line.now) (length line.now) result
        source.old source.new (kept_desktop desk.old) (kept_desktop desk.new) }
{
    let end = log_len(desk);
    let mut buffer = buffer_of_line(desk.alloc, desk.written, line.len() as u32)?;
    source.append(line)?;
    desk.insert(0, end, &mut buffer, source)?;
    desk.written += line.len() as u32;
    show_log_end(desk, source)?;
    Ok(())
}

/// Each viewer of the log in a track, be that covered or not, shows the end of the log. Fault: the source failed in
/// this call.
fn show_log_end<S: CharSource>(desk: &mut Desk, source: &mut S) -> Result<(), Stop>
    requires built { IsBuilt (length (S.characters source.old)) (kept_desktop desk.old) }
    ensures { OnlyChangesSo S.CharSource log_end_shown result source.old source.new
        (kept_desktop desk.old) (kept_desktop desk.new) }
{
    for at in 0..viewer_count(desk) {
        let id = viewer_at(desk, at);
        show_log_in(desk, id, source)?;
    }
    Ok(())
}

/// How many viewers there are.
fn viewer_count(desk: &Desk) -> usize
    ensures { result ≡ length (kept_desktop desk.now).viewers }
{
    desk.viewers.len()
}

/// The id of a viewer, by its place among all.
fn viewer_at(desk: &Desk, at: usize) -> u16
    requires { at < length (kept_desktop desk.now).viewers }
    ensures { slice_get (keys_of (kept_desktop desk.now).viewers) at ≡ Some result }
{
    desk.viewers[at].0
}

/// The end of the log is shown in a viewer, where that shows the log and stands in a track. Fault: the source failed in
/// this call.
fn show_log_in<S: CharSource>(desk: &mut Desk, id: u16, source: &mut S) -> Result<(), Stop>
    requires built { IsBuilt (length (S.characters source.old)) (kept_desktop desk.old) }
    ensures { OnlyChangesSo S.CharSource (λ d. log_shown d id) result source.old source.new
        (kept_desktop desk.old) (kept_desktop desk.new) }
{
    if desk.main_of(id) == 0 && desk.tracks.contains(ViewerId(id)) {
        let end = log_len(desk);
        desk.show(id, end, source)?;
    }
    Ok(())
}
