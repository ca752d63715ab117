//! Where a step leads in a text, and where its line is to be shown.
ghost use Rattle.std.specs.Prelude.{◌≡◌, ◌-◌, ◌<◌, ◌≤◌, min, length, Some, IfOk, IfSome, option_map, unwrap_or};
ghost use Rattle.readers_scanners.specs.Words.{ReadsOrFails, flat, AreWithin, bytes_of_text};
ghost use Rattle.text_frames.specs.Walks.{CanWalk};
ghost use Rattle.text_frames.specs.Near.{below};
ghost use Rattle.text_frames.specs.Cells.{column_of};
ghost use Rattle.text_frames.specs.Lines.{line_above};
ghost use Rattle.text_frames.specs.declared.row.TheConstants.{MOST_COLUMNS};
ghost use Rattle.desk_input.specs.Lines.{line_below, lines_in_sight};
ghost use Rattle.caret_moves.specs.Steps.{column_cut, level_with, end_of_line, org_for, step_goal};

use crate::runs::{next_word, word_before};
use crate::wish::Step;
use char_file::{CharSource, Fault};
use desk_input::{line_above, line_below, lines_in_sight, start_below};
use text_core::Text;
use text_frames::{Frame, line_start};

/// A frame that shows a text from a position on.
pub(crate) fn frame_from(org: u32) -> Frame
    ensures { result.org ≡ org }
{
    Frame {
        text: 0,
        org,
        caret: None,
        selection: None,
    }
}

/// The column of a cell.
fn column_told(cell: Option<(u8, u8)>) -> Option<u8>
    ensures { result ≡ option_map (λ c. c.0) cell }
{
    match cell {
        None => None,
        Some((column, _)) => Some(column),
    }
}

/// The column of a position in a frame from `org` on. None where it is `w` or more. `Fault`: the source failed in this
/// call.
pub(crate) fn column_below<S: CharSource>(
    text: &Text,
    w: u8,
    org: u32,
    pos: u32,
    source: &mut S,
) -> Result<Option<u8>, Fault>
    requires walk { CanWalk (S.characters source.old) (flat text.now) org pos }
    requires fits { w ≤ MOST_COLUMNS }
    ensures column { IfOk result (λ column. S.honest source.old
        → column ≡ below w (column_of (bytes_of_text (S.characters source.old) (flat text.now)) org
        pos)) }
    ensures inside { IfOk result (λ column. IfSome column (λ column. column < w)) }
    ensures source { ReadsOrFails S.CharSource result source.old source.new }
{
    let start = line_start(text, pos, source)?;
    let cell = frame_from(org.max(start)).cell_of(text, w, 1, pos, source)?;
    Ok(column_told(cell))
}

/// A column, or the last one where it is none.
fn column_or_last(column: Option<u8>, w: u8) -> u8
    requires some { 0 < w }
    requires inside { IfSome column (λ column. column < w) }
    ensures is { result ≡ unwrap_or column (w - 1) }
    ensures within { result < w }
{
    column.unwrap_or(w - 1)
}

/// The column of a position in a frame from `org` on, or the last one where it stands right of that. `Fault`: the source
/// failed in this call.
pub(crate) fn column_cut<S: CharSource>(
    text: &Text,
    w: u8,
    org: u32,
    pos: u32,
    source: &mut S,
) -> Result<u8, Fault>
    requires walk { CanWalk (S.characters source.old) (flat text.now) org pos }
    requires some { 0 < w }
    requires fits { w ≤ MOST_COLUMNS }
    ensures column { IfOk result (λ column. S.honest source.old
        → column ≡ column_cut (bytes_of_text (S.characters source.old) (flat text.now)) w org pos) }
    ensures within { IfOk result (λ column. column < w) }
    ensures source { ReadsOrFails S.CharSource result source.old source.new }
{
    let column = column_below(text, w, org, pos, source)?;
    Ok(column_or_last(column, w))
}

/// The position in the column of `pos`, in the line that starts there. `Fault`: the source failed in this call.
fn level_with<S: CharSource>(
    text: &Text,
    w: u8,
    pos: u32,
    start: u32,
    source: &mut S,
) -> Result<u32, Fault>
    requires walk { CanWalk (S.characters source.old) (flat text.now) 0 pos }
    requires start { start ≤ length (flat text.now) }
    requires some { 0 < w }
    requires fits { w ≤ MOST_COLUMNS }
    ensures place { IfOk result (λ place. S.honest source.old → place
        ≡ level_with (bytes_of_text (S.characters source.old) (flat text.now)) w pos start) }
    ensures within { IfOk result (λ place. place ≤ length (flat text.now)) }
    ensures source { ReadsOrFails S.CharSource result source.old source.new }
{
    let column = column_cut(text, w, 0, pos, source)?;
    let place = frame_from(start).pos_at(text, column, 0, source)?;
    Ok(place)
}

/// The position in the same column so many lines above. `Fault`: the source failed in this call.
fn lines_up<S: CharSource>(
    text: &Text,
    w: u8,
    lines: u32,
    pos: u32,
    source: &mut S,
) -> Result<u32, Fault>
    requires walk { CanWalk (S.characters source.old) (flat text.now) 0 pos }
    requires some { 0 < w }
    requires fits { w ≤ MOST_COLUMNS }
    ensures place { IfOk result (λ place. S.honest source.old → place
        ≡ level_with (bytes_of_text (S.characters source.old) (flat text.now)) w pos
        (line_above (bytes_of_text (S.characters source.old) (flat text.now)) lines pos)) }
    ensures within { IfOk result (λ place. place ≤ length (flat text.now)) }
    ensures source { ReadsOrFails S.CharSource result source.old source.new }
{
    let start = line_above(text, lines, pos, source)?;
    let place = level_with(text, w, pos, start, source)?;
    Ok(place)
}

/// The position in the same column so many lines below. `Fault`: the source failed in this call.
fn lines_down<S: CharSource>(
    text: &Text,
    w: u8,
    lines: u32,
    pos: u32,
    source: &mut S,
) -> Result<u32, Fault>
    requires walk { CanWalk (S.characters source.old) (flat text.now) 0 pos }
    requires some { 0 < w }
    requires fits { w ≤ MOST_COLUMNS }
    ensures place { IfOk result (λ place. S.honest source.old → place
        ≡ level_with (bytes_of_text (S.characters source.old) (flat text.now)) w pos
        (line_below (bytes_of_text (S.characters source.old) (flat text.now)) lines pos)) }
    ensures within { IfOk result (λ place. place ≤ length (flat text.now)) }
    ensures source { ReadsOrFails S.CharSource result source.old source.new }
{
    let start = line_below(text, lines, pos, source)?;
    let place = level_with(text, w, pos, start, source)?;
    Ok(place)
}

/// Where the line of a position ends. `Fault`: the source failed in this call.
pub(crate) fn end_of_line<S: CharSource>(
    text: &Text,
    pos: u32,
    source: &mut S,
) -> Result<u32, Fault>
    requires { CanWalk (S.characters source.old) (flat text.now) 0 pos }
    ensures end { IfOk result (λ end. S.honest source.old
        → end ≡ end_of_line (bytes_of_text (S.characters source.old) (flat text.now)) pos) }
    ensures within { IfOk result (λ end. end ≤ length (flat text.now)) }
    ensures source { ReadsOrFails S.CharSource result source.old source.new }
{
    let below = start_below(text, pos, source)?;
    if pos < below {
        return Ok(below - 1);
    }
    Ok(text.len())
}

/// The position to which a step leads in a text that is shown in `h` rows of `w` columns. `Fault`: the source failed in
/// this call.
#[tactic(auto, unfolding(crate::specs::Steps::step_goal))]
pub(crate) fn step_goal<S: CharSource>(
    text: &Text,
    w: u8,
    h: u8,
    pos: u32,
    step: Step,
    source: &mut S,
) -> Result<u32, Fault>
    requires walk { CanWalk (S.characters source.old) (flat text.now) 0 pos }
    requires some { 0 < w }
    requires fits { w ≤ MOST_COLUMNS }
    ensures place { IfOk result (λ place. S.honest source.old
        → place ≡ step_goal (bytes_of_text (S.characters source.old) (flat text.now)) w h pos
        step) }
    ensures within { IfOk result (λ place. place ≤ length (flat text.now)) }
    ensures source { ReadsOrFails S.CharSource result source.old source.new }
{
    let page = h.saturating_sub(1) as u32;
    match step {
        Step::Left => Ok(pos.saturating_sub(1)),
        Step::Right => Ok(pos.saturating_add(1).min(text.len())),
        Step::WordLeft => word_before(text, pos, source),
        Step::WordRight => next_word(text, pos, source),
        Step::Up => lines_up(text, w, 1, pos, source),
        Step::Down => lines_down(text, w, 1, pos, source),
        Step::LineStart => line_start(text, pos, source),
        Step::LineEnd => end_of_line(text, pos, source),
        Step::TextStart => Ok(0),
        Step::TextEnd => Ok(text.len()),
        Step::PageUp => lines_up(text, w, page, pos, source),
        Step::PageDown => lines_down(text, w, page, pos, source),
    }
}

/// Where a text is to be shown from in `h` rows that was shown from `org` on, so that the line of the position is in one
/// of them. `Fault`: the source failed in this call.
pub(crate) fn org_for<S: CharSource>(
    text: &Text,
    h: u8,
    org: u32,
    pos: u32,
    source: &mut S,
) -> Result<u32, Fault>
    requires walk { CanWalk (S.characters source.old) (flat text.now) 0 pos }
    requires org { org ≤ length (flat text.now) }
    ensures place { IfOk result (λ place. S.honest source.old
        → place ≡ org_for (bytes_of_text (S.characters source.old) (flat text.now)) h org pos) }
    ensures from { IfOk result (λ place. place ≤ pos) }
    ensures source { ReadsOrFails S.CharSource result source.old source.new }
{
    let lines = lines_in_sight(text, h, org, pos, source)?;
    if let Some(_) = lines {
        return Ok(org);
    }
    if pos < org {
        return line_start(text, pos, source);
    }
    let above = line_above(text, h.saturating_sub(1) as u32, pos, source)?;
    Ok(above.min(pos))
}
