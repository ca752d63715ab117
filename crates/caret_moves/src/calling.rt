//! The words of commands that are called by a key: where they are shown, and which word of a line is called.
ghost use Rattle.std.specs.Prelude.{◌≡◌, ◌<◌, ◌≤◌, ◌-◌, ◌*◌, length, option_map, true, false, IfOk, IfSome};
ghost use Rattle.readers_scanners.specs.Words.{ReadsOrFails, flat, bytes_of_text};
ghost use Rattle.command_table.specs.Parameters.{IsTextPlace};
ghost use Rattle.text_frames.specs.Walks.{CanWalk};
ghost use Rattle.desktop_definitions.specs.Call.{text_called};
ghost use Rattle.desktop_definitions.specs.Gesture.{IsRegionOf, menu_position, text_position};
ghost use Rattle.desk_core.specs.Words.{IsOnTop, IsOver, kept_desktop, COLUMNS, ROWS, TellsValue};
ghost use Rattle.desk_input.specs.Reads.{IsMainRow};
ghost use Rattle.caret_moves.specs.Calling.{is_word_of, is_word_found, calls, calls_in_menu, calls_in_text, calls_at};
ghost use Rattle.caret_moves.specs.Calling.{cell_numbered, word_number, word_cell, mark_cell, is_called, line_word, first_where};

use crate::steps::end_of_line;
use crate::wish::CaretCommand;
use char_file::{CharSource, Fault};
use command_table::{Command, NEWEST, called};
use desk_core::desk::Desk;
use desk_input::places::{Read, menu_position, region_under, text_position};
use desktop_definitions::Region;
use text_core::Text;
use text_frames::line_start;
use viewer_tracks::{COLUMNS, ROWS, ViewerId};

/// How many cells the display has.
const CELLS: u16 = COLUMNS as u16 * ROWS as u16;

/// Whether a word is that of the command.
#[tactic(auto, unfolding(crate::specs::Calling::is_word_of))]
fn is_word_of(command: CaretCommand, word: Command) -> bool
    ensures { result ≡ is_word_of command word }
{
    match command {
        CaretCommand::Search => matches!(word, Command::EditSearch),
        CaretCommand::Store => matches!(word, Command::EditStore),
    }
}

/// The command whose word was found.
fn is_word_found(command: CaretCommand, found: Option<(Command, u32)>) -> bool
    ensures { result ≡ is_word_found command found }
{
    match found {
        None => false,
        Some((word, _)) => is_word_of(command, word),
    }
}

/// Whether the word at a position of a viewer's menu or main text is that of the command. `Fault`: the source failed in
/// this call.
fn calls<S: CharSource>(
    desk: &Desk,
    id: u16,
    in_menu: bool,
    command: CaretCommand,
    pos: u32,
    source: &mut S,
) -> Read<bool>
    requires placed { IsOnTop id (kept_desktop desk.now).columns }
    requires place { pos ≤ length (flat (text_called (kept_desktop desk.now) id in_menu)) }
    requires over { IsOver (S.characters source.old) (kept_desktop desk.now) }
    ensures { TellsValue S.CharSource result (λ d. calls d id in_menu command pos) source.old
        source.new (kept_desktop desk.now) }
{
    let found = called(NEWEST, desk.text_called(id, in_menu), pos, source)?;
    Ok(is_word_found(command, found))
}

/// Whether the middle button calls the command at a column of a viewer's menu. `Fault`: the source failed in this call.
fn calls_by_menu<S: CharSource>(
    desk: &Desk,
    command: CaretCommand,
    id: u16,
    x: u8,
    source: &mut S,
) -> Read<bool>
    requires placed { IsOnTop id (kept_desktop desk.now).columns }
    requires over { IsOver (S.characters source.old) (kept_desktop desk.now) }
    ensures { TellsValue S.CharSource result (λ d. calls d id true command (menu_position d id x))
        source.old source.new
        (kept_desktop desk.now) }
{
    let pos = menu_position(desk, id, x, source)?;
    calls(desk, id, true, command, pos, source)
}

/// Whether it calls the command at a cell of a viewer's text. `Fault`: the source failed in this call.
fn calls_by_text<S: CharSource>(
    desk: &Desk,
    command: CaretCommand,
    id: u16,
    cell: (u8, u8),
    source: &mut S,
) -> Read<bool>
    requires at { IsMainRow (S.characters source.old) (kept_desktop desk.now) id 0 }
    ensures { TellsValue S.CharSource result
        (λ d. calls d id false command (text_position d id cell.0 cell.1)) source.old source.new
        (kept_desktop desk.now) }
{
    let pos = text_position(desk, id, cell.0, cell.1, source)?;
    calls(desk, id, false, command, pos, source)
}

/// Whether it calls the command at a cell of that region, in the menu of a viewer. `Fault`: the source failed in this
/// call.
fn calls_in_menu<S: CharSource>(
    desk: &Desk,
    command: CaretCommand,
    id: u16,
    cell: (u8, u8),
    region: Region,
    source: &mut S,
) -> Read<bool>
    requires stands { IsRegionOf (kept_desktop desk.now) cell.1 region }
    requires over { IsOver (S.characters source.old) (kept_desktop desk.now) }
    ensures { TellsValue S.CharSource result (λ d. calls_in_menu d command id cell region)
        source.old source.new
        (kept_desktop desk.now) }
{
    match region {
        Region::Menu(it) => {
            if it != id {
                return Ok(false);
            }
            calls_by_menu(desk, command, id, cell.0, source)
        }
        _ => Ok(false),
    }
}

/// Whether it calls the command at a cell of that region, in any text. `Fault`: the source failed in this call.
fn calls_in_text<S: CharSource>(
    desk: &Desk,
    command: CaretCommand,
    cell: (u8, u8),
    region: Region,
    source: &mut S,
) -> Read<bool>
    requires stands { IsRegionOf (kept_desktop desk.now) cell.1 region }
    requires over { IsOver (S.characters source.old) (kept_desktop desk.now) }
    ensures { TellsValue S.CharSource result (λ d. calls_in_text d command cell region) source.old
        source.new (kept_desktop desk.now) }
{
    match region {
        Region::Body(it) => calls_by_text(desk, command, it, cell, source),
        _ => Ok(false),
    }
}

/// Whether it calls the command at a cell: in the menu of that viewer, or in any text where none is meant. `Fault`: the
/// source failed in this call.
fn calls_at<S: CharSource>(
    desk: &Desk,
    command: CaretCommand,
    place: Option<u16>,
    cell: (u8, u8),
    source: &mut S,
) -> Read<bool>
    requires column { cell.0 < COLUMNS }
    requires row { cell.1 < ROWS }
    requires over { IsOver (S.characters source.old) (kept_desktop desk.now) }
    ensures { TellsValue S.CharSource result (λ d. calls_at d command place cell) source.old
        source.new (kept_desktop desk.now) }
{
    let region = region_under(desk, cell.0, cell.1);
    match place {
        None => calls_in_text(desk, command, cell, region, source),
        Some(id) => calls_in_menu(desk, command, id, cell, region, source),
    }
}

/// The cell of a number: the lowest row comes first, and each row from the left.
fn cell_numbered(number: u16) -> (u8, u8)
    requires { number < COLUMNS * ROWS }
    ensures value { result ≡ cell_numbered number }
    ensures column { result.0 < COLUMNS }
    ensures row { result.1 < ROWS }
{
    let columns = u16::from(COLUMNS);
    ((number % columns) as u8, (number / columns) as u8)
}

/// The number of the first cell at which the middle button calls the command: in the menu of that viewer, or in any text
/// where none is meant. None where there is no such cell. `Fault`: the source failed in this call.
fn word_number<S: CharSource>(
    desk: &Desk,
    command: CaretCommand,
    place: Option<u16>,
    source: &mut S,
) -> Read<Option<u16>>
    requires over { IsOver (S.characters source.old) (kept_desktop desk.now) }
    ensures told { TellsValue S.CharSource result (λ d. word_number d command place) source.old
        source.new (kept_desktop desk.now) }
    ensures within { IfOk result (λ number. IfSome number (λ n. n < COLUMNS * ROWS)) }
{
    for number in 0..CELLS {
        let calls = calls_at(desk, command, place, cell_numbered(number), source)?;
        if calls {
            return Ok(Some(number));
        }
    }
    Ok(None)
}

/// The cell of a number, where there is one.
fn cell_told(number: Option<u16>) -> Option<(u8, u8)>
    requires { IfSome number (λ n. n < COLUMNS * ROWS) }
    ensures { result ≡ option_map cell_numbered number }
{
    match number {
        None => None,
        Some(number) => Some(cell_numbered(number)),
    }
}

/// The first cell at which the middle button calls the command: in the menu of that viewer, or in any text where none is
/// meant. None where there is no such cell. `Fault`: the source failed in this call.
pub(crate) fn word_cell<S: CharSource>(
    desk: &Desk,
    command: CaretCommand,
    place: Option<u16>,
    source: &mut S,
) -> Read<Option<(u8, u8)>>
    requires over { IsOver (S.characters source.old) (kept_desktop desk.now) }
    ensures { TellsValue S.CharSource result (λ d. word_cell d command place) source.old source.new
        (kept_desktop desk.now) }
{
    let number = word_number(desk, command, place, source)?;
    Ok(cell_told(number))
}

/// The cell in the middle of the leftmost column of a viewer.
pub(crate) fn mark_cell(desk: &Desk, id: u16) -> (u8, u8)
    requires placed { IsOnTop id (kept_desktop desk.now).columns }
    ensures { result ≡ mark_cell (kept_desktop desk.now) id }
{
    let place = desk.tracks.place_of(ViewerId(id));
    (place.x, (place.bottom + place.top - 1) / 2)
}

/// Whether a word of a command stands at a position. `Fault`: the source failed in this call.
fn is_called<S: CharSource>(text: &Text, pos: u32, source: &mut S) -> Read<bool>
    requires { IsTextPlace (length (S.characters source.old)) (flat text.now, pos) }
    ensures is { IfOk result (λ is. S.honest source.old
        → is ≡ is_called (bytes_of_text (S.characters source.old) (flat text.now)) pos) }
    ensures source { ReadsOrFails S.CharSource result source.old source.new }
{
    let found = called(NEWEST, text, pos, source)?;
    Ok(found.is_some())
}

/// The first position from `start` up to before `upto` at which a word of a command stands. `Fault`: the source failed in
/// this call.
fn first_called<S: CharSource>(
    text: &Text,
    start: u32,
    upto: u32,
    source: &mut S,
) -> Read<Option<u32>>
    requires { IsTextPlace (length (S.characters source.old)) (flat text.now, upto) }
    ensures found { IfOk result (λ found. S.honest source.old
        → found ≡ first_where (is_called (bytes_of_text (S.characters source.old) (flat text.now)))
        start (upto - start)) }
    ensures within { IfOk result (λ found. IfSome found (λ pos. pos ≤ length (flat text.now))) }
    ensures source { ReadsOrFails S.CharSource result source.old source.new }
{
    for at in start..upto {
        let called = is_called(text, at, source)?;
        if called {
            return Ok(Some(at));
        }
    }
    Ok(None)
}

/// The position of the word that is called from a position: the word there, or the first of its line, in the first `w`
/// characters. None where there is none. `Fault`: the source failed in this call.
#[tactic(auto, unfolding(crate::specs::Calling::line_word))]
pub(crate) fn line_word<S: CharSource>(
    text: &Text,
    w: u8,
    pos: u32,
    source: &mut S,
) -> Read<Option<u32>>
    requires { CanWalk (S.characters source.old) (flat text.now) 0 pos }
    ensures word { IfOk result (λ word. S.honest source.old
        → word ≡ line_word (bytes_of_text (S.characters source.old) (flat text.now)) w pos) }
    ensures within { IfOk result (λ word. IfSome word (λ pos. pos ≤ length (flat text.now))) }
    ensures source { ReadsOrFails S.CharSource result source.old source.new }
{
    let called = is_called(text, pos, source)?;
    if called {
        return Ok(Some(pos));
    }
    let start = line_start(text, pos, source)?;
    let end = end_of_line(text, pos, source)?;
    let upto = start.saturating_add(w as u32).min(end);
    first_called(text, start, upto, source)
}
