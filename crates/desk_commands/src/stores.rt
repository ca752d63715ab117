//! Files are stored and deleted, each with a line of the log.
ghost use Rattle.std.specs.Prelude.{◌≡◌, ◌+◌, ◌≤◌, ℕ, List, [], length, fold, map, IsTrue, IfOk, Ok};
ghost use Rattle.command_table.specs.Deciding.{is_among, can_be_deleted};
ghost use Rattle.desktop_definitions.specs.DeskWords.{can_go};
ghost use Rattle.desktop_definitions.specs.Effects.{menu_name, after_store, stored_as, without_file};
ghost use Rattle.desk_commands.specs.Lines.{bytes_of_lines};
ghost use Rattle.desk_core.specs.Words.{most_held, unless, lengths, seen_table};
ghost use Rattle.desk_core.specs.Words.{IsOver, keys_of, kept_desktop, Does, TellsValue};
ghost use Rattle.desk_commands.specs.Calls.{IsViewerOnTop};
ghost use Rattle.desk_commands.specs.Words.{files_deleted, deleting_line, too_many_files, has_file_room, main_of};

use crate::log::{LogLine, deleting_line, log_line, log_lines, storing_line, total};
use crate::openings::copy_of;
use char_file::{CharSource, Fault};
use command_table::{name_in, symbol_at};
use desk_core::desk::Desk;
use desk_core::files::{Files, size_of};
use desk_core::stop::{NoMemory, StepResult};
use desktop_definitions::{Reply, codes};
use event_bytes::Name;
use std::alloc::Global;
use std::vec::Vec;

/// Whether a name is among these.
fn is_among(names: &[Name], name: &Name) -> bool
    ensures { result ≡ is_among names.now name.now }
{
    names.iter().any(|other| *name == *other)
}

/// Whether a name is a file's, and isn't among the others.
fn can_go(files: &Files, name: &Name, others: &[Name]) -> bool
    ensures { result ≡ can_go (keys_of files.now.entries) name.now others.now }
{
    files.contains_key(name) && !is_among(others, name)
}

/// Whether each name is a file's, and none stands there twice.
fn can_be_deleted(files: &Files, names: &[Name]) -> bool
    ensures { result ≡ can_be_deleted (keys_of files.now.entries) names.now }
{
    for at in 0..names.len() {
        if !can_go(files, &names[at], &names[at + 1..]) {
            return false;
        }
    }
    true
}

/// The files of these names go.
fn remove(files: &mut Files, names: &[Name])
    ensures { files.new.entries ≡ fold without_file files.old.entries names.now }
{
    for name in names {
        files.remove(name);
    }
}

/// How many characters the files of these names have.
fn lengths_of(files: &Files, names: &[Name]) -> usize
    requires files { lengths (seen_table [] files.now.entries) ≤ most_held }
    requires distinct { IsTrue (can_be_deleted (keys_of files.now.entries) names.now) }
    ensures sum { (characters : List ℕ)
        → lengths (fold without_file (seen_table characters files.now.entries) names.now) + result
        ≡ lengths (seen_table characters files.now.entries) }
    ensures few { result ≤ most_held }
{
    let mut sum = 0;
    for name in names {
        sum += size_of(files, name);
    }
    sum
}

/// A line for each name. NoMemory where an allocation is refused.
fn deleting_lines(alloc: Global, names: &[Name]) -> Result<Vec<LogLine>, NoMemory>
    ensures { IfOk result (λ lines. bytes_of_lines lines.items ≡ map deleting_line names.now) }
{
    let mut lines = Vec::new(alloc);
    for name in names {
        lines.push(deleting_line(name))?;
    }
    Ok(lines)
}

/// The files of these names go, each with a line of the log. Refused where a name is no file's, or stands there
/// twice.
pub fn delete_files<S: CharSource>(desk: &mut Desk, names: &[Name], source: &mut S) -> StepResult
    requires few { length names.now ≤ 257 }
    requires over { IsOver (S.characters source.old) (kept_desktop desk.old) }
    ensures { Does S.CharSource (λ d. files_deleted d names.now) result
        source.old source.new (kept_desktop desk.old) (kept_desktop desk.new) }
{
    if !can_be_deleted(&desk.files, names) {
        return Ok(Reply::No(codes::NO_FILE));
    }
    let made = deleting_lines(desk.alloc, names)?;
    let lines = made.as_slice();
    let count = total(lines);
    if !desk.fits_more(count, count, lengths_of(&desk.files, names)) {
        return Ok(Reply::No(codes::FULL));
    }
    remove(&mut desk.files, names);
    log_lines(desk, lines, source)?;
    Ok(Reply::Done)
}

/// A viewer's main text becomes the file that the first symbol of its menu names, with a line of the log. Refused
/// where that symbol is no name, and where there is no room for one more file.
pub fn store<S: CharSource>(desk: &mut Desk, id: u16, source: &mut S) -> StepResult
    requires { IsViewerOnTop (S.characters source.old) (kept_desktop desk.old) id }
    ensures { Does S.CharSource (λ d. after_store d id) result
        source.old source.new (kept_desktop desk.old) (kept_desktop desk.new) }
{
    match menu_name(desk, id, source)? {
        Some(name) => store_as(desk, id, &name, source),
        None => Ok(Reply::No(codes::WRONG_SYMBOL)),
    }
}

/// The first symbol of a viewer's menu. None where it is no name. Fault: the source failed in this call.
fn menu_name<S: CharSource>(desk: &Desk, id: u16, source: &mut S) -> Result<Option<Name>, Fault>
    requires { IsViewerOnTop (S.characters source.old) (kept_desktop desk.now) id }
    ensures { TellsValue S.CharSource result (λ d. menu_name d id) source.old source.new
        (kept_desktop desk.now) }
{
    let symbol = symbol_at(desk.text_called(id, true), 0, source)?;
    Ok(name_in(&symbol))
}

/// A viewer's main text becomes the file of that name, with a line of the log. Refused where there is no room for
/// one more file.
fn store_as<S: CharSource>(desk: &mut Desk, id: u16, name: &Name, source: &mut S) -> StepResult
    requires { IsViewerOnTop (S.characters source.old) (kept_desktop desk.old) id }
    ensures { Does S.CharSource
        (λ d. unless (has_file_room d.files name.now) too_many_files
        (Ok (stored_as d name.now (main_of d id)))) result
        source.old source.new (kept_desktop desk.old) (kept_desktop desk.new) }
{
    let text = desk.main_text(id);
    let line = storing_line(name, text.len());
    let more = text.len() as usize + line.len();
    let copy = copy_of(desk.alloc, text)?;
    let reply = desk.put_file(name, copy, line.len(), more)?;
    match reply {
        Reply::Done => {
            log_line(desk, line.as_slice(), source)?;
            Ok(Reply::Done)
        }
        Reply::No(code) => Ok(Reply::No(code)),
    }
}
