//! What the mouse does in a scroll bar.
ghost use Rattle.std.specs.Prelude.{◌≡◌, ◌==◌, ◌*◌, ◌/◌, ◌<◌, ◌≤◌, false, if◌then◌else◌, Some, None, IfOk, IfSome, Ok, ⊤};
ghost use Rattle.std.specs.Option.{option_map, unwrap_or};
ghost use Rattle.desktop_definitions.specs.Viewers.{with_org};
ghost use Rattle.desktop_definitions.specs.Gesture.{scrolled_to_row, scrolled_to_share};
ghost use Rattle.desk_core.specs.Mouse.{start_of_row, start_of_share};
ghost use Rattle.desk_core.specs.Words.{IsOnTop, IsOver, kept_desktop, IsPosition, Does, DoesUnread};
ghost use Rattle.desk_input.specs.Reads.{IsMainRow, TellsValue};

use crate::places::{Read, position_in, text_width};
use char_file::CharSource;
use desk_core::desk::Desk;
use desk_core::stop::StepResult;
use desk_core::viewers::set_org;
use desktop_definitions::Reply;
use text_frames::line_start;

/// As far down in `len` characters as a row in so many rows.
fn share(len: u32, row: u8, rows: u8) -> u32
    requires { row < rows }
    ensures value { result ≡ len * row / rows }
    ensures within { result ≤ len }
{
    (u64::from(len) * u64::from(row) / u64::from(rows)) as u32
}

/// Whether a cell is known, and stands in that row.
fn is_in_row(cell: Option<(u8, u8)>, row: u8) -> bool
    ensures { result ≡ unwrap_or (option_map (λ c. c.1 == row) cell) false }
{
    match cell {
        None => false,
        Some((_, there)) => there == row,
    }
}

/// Where a line begins whose beginning is shown at that cell, if it is one of the row.
fn line_in_row(begin: u32, cell: Option<(u8, u8)>, row: u8) -> Option<u32>
    ensures { result
        ≡ (if unwrap_or (option_map (λ c. c.1 == row) cell) false then Some begin else None) }
{
    if is_in_row(cell, row) {
        Some(begin)
    } else {
        None
    }
}

/// Where the line begins that a viewer shows in a row of its main frame. None where it shows none there.
fn start_of_row<S: CharSource>(desk: &Desk, id: u16, row: u8, source: &mut S) -> Read<Option<u32>>
    requires at { IsMainRow (S.characters source.old) (kept_desktop desk.now) id row }
    ensures told { TellsValue S.CharSource result (λ d. start_of_row d id row) source.old source.new
        (kept_desktop desk.now) }
    ensures within { IfOk result (λ start. IfSome start (IsPosition (kept_desktop desk.now) id)) }
{
    let begin = position_in(desk, id, 0, row, source)?;
    let frame = desk.main_frame(id);
    let text = desk.main_text(id);
    let cell = frame.cell_of(text, text_width(desk, id), desk.rows_of(id), begin, source)?;
    Ok(line_in_row(begin, cell, row))
}

/// Where the line begins that stands as far down in a viewer's main text as a row in its main frame.
fn start_of_share<S: CharSource>(desk: &Desk, id: u16, row: u8, source: &mut S) -> Read<u32>
    requires at { IsMainRow (S.characters source.old) (kept_desktop desk.now) id row }
    ensures told { TellsValue S.CharSource result (λ d. start_of_share d id row) source.old
        source.new (kept_desktop desk.now) }
    ensures within { IfOk result (IsPosition (kept_desktop desk.now) id) }
{
    let text = desk.main_text(id);
    let pos = share(text.len(), row, desk.rows_of(id));
    let start = line_start(text, pos, source)?;
    Ok(start)
}

/// A viewer shows its main text from that position on.
fn begin_at(desk: &mut Desk, id: u16, org: u32)
    ensures { kept_desktop desk.new ≡ with_org (kept_desktop desk.old) id org }
{
    set_org(&mut desk.viewers, id, org);
}

/// The line in that row of a viewer comes first, where there is one.
pub fn scroll_row<S: CharSource>(desk: &mut Desk, id: u16, row: u8, source: &mut S) -> StepResult
    requires at { IsMainRow (S.characters source.old) (kept_desktop desk.old) id row }
    ensures { Does S.CharSource (λ d. Ok (scrolled_to_row d id row)) result
        source.old source.new (kept_desktop desk.old) (kept_desktop desk.new) }
{
    let Some(start) = start_of_row(desk, id, row, source)? else {
        return Ok(Reply::Done);
    };
    begin_at(desk, id, start);
    Ok(Reply::Done)
}

/// The line comes first that stands as far down in the text as the row in the frame.
pub fn scroll_share<S: CharSource>(desk: &mut Desk, id: u16, row: u8, source: &mut S) -> StepResult
    requires at { IsMainRow (S.characters source.old) (kept_desktop desk.old) id row }
    ensures { Does S.CharSource (λ d. Ok (scrolled_to_share d id row)) result
        source.old source.new (kept_desktop desk.old) (kept_desktop desk.new) }
{
    let start = start_of_share(desk, id, row, source)?;
    begin_at(desk, id, start);
    Ok(Reply::Done)
}

/// A viewer shows its text from the beginning.
pub fn scroll_top<S: CharSource>(desk: &mut Desk, id: u16, source: &mut S) -> StepResult
    requires placed { IsOnTop id (kept_desktop desk.old).columns }
    requires over { IsOver (S.characters source.old) (kept_desktop desk.old) }
    ensures { DoesUnread S.CharSource ⊤ (λ d. Ok (with_org d id 0)) result
        source.old source.new (kept_desktop desk.old) (kept_desktop desk.new) }
{
    begin_at(desk, id, 0);
    Ok(Reply::Done)
}
