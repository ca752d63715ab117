//! What a desk tells of itself before and after a command is called.
ghost use Rattle.std.specs.Prelude.{◌≡◌, ◌+◌, ◌<◌, ◌≤◌, ℕ, List, length, take, slice_range, option_map, IfOk};
ghost use Rattle.readers_scanners.specs.Words.{ReadsOrFails, flat, AreWithin, bytes_of_text};
ghost use Rattle.desk_core.specs.Words.{COLUMNS, ROWS, IsKeptWhole, IsOver, kept_desktop, seen, TellsAs};
ghost use Rattle.viewer_tracks.specs.Columns.{seen_at};
ghost use Rattle.desk_views.specs.Info.{shown_viewer, place_at, viewer_place, desk_info, last_line, last_log_line};

use crate::unstored::closed_id;
use arrayvec::ArrayVec;
use char_file::{CharSource, Fault};
use desk_core::desk::Desk;
use desk_core::tables::unused_id;
use desk_core::viewers::viewer_or_none;
use desk_core::views::text_there;
use desktop_definitions::Caret;
use readers_scanners::Reader;
use text_core::Text;
use text_frames::line_start;
use viewer_tracks::{COLUMNS, Place, ROWS, ViewerId};

/// How many bytes of a line are told at most: as many as a row of the display shows.
const LONGEST: usize = COLUMNS as usize;

/// A line of the log, without the carriage return that ends it, as far as a row of the display shows it.
pub type LogRow = ArrayVec<u8, LONGEST>;

/// What a desktop says of itself before a command is called.
#[derive(Clone, Copy, Debug, PartialEq, Eq)]
pub struct DeskInfo {
    /// The id that the next viewer gets that opens.
    pub next_viewer: u16,
    /// The id of the viewer that was closed last, which has it again where it is recalled.
    pub closed_viewer: Option<u16>,
    /// The id of the viewer that has the caret.
    pub caret_viewer: Option<u16>,
    /// The position at which the caret stands in the text of that viewer.
    pub caret_position: Option<u32>,
    /// Whether the marker is set.
    pub is_marked: bool,
    /// How many characters the log has.
    pub log_length: u32,
}

/// A viewer that stands in a track that is shown.
#[derive(Clone, Copy, Debug, PartialEq, Eq)]
pub struct ShownViewer {
    /// Where it stands.
    pub place: Place,
    /// Whether its main text is the log.
    pub is_log: bool,
}

/// The viewer of an id, if it stands in a track that is shown. None where no viewer of that id does.
pub fn shown_viewer(desk: &Desk, id: u16) -> Option<ShownViewer>
    ensures { result ≡ shown_viewer (kept_desktop desk.now) id }
{
    if !desk.tracks.is_on_top(ViewerId(id)) {
        return None;
    }
    let place = desk.tracks.place_of(ViewerId(id));
    let viewer = viewer_or_none(&desk.viewers, id);
    Some(ShownViewer {
        place,
        is_log: viewer.main == 0,
    })
}

/// Where the viewer stands that is seen at a cell, by its column and row. None where none is, and off the display.
#[tactic(auto, unfolding(crate::specs::Info::place_at))]
pub fn place_at(desk: &Desk, cell: (u8, u8)) -> Option<Place>
    ensures { result ≡ place_at (kept_desktop desk.now) cell }
{
    let (x, y) = cell;
    if x < COLUMNS && y < ROWS {
        seen_place(desk, x, y)
    } else {
        None
    }
}

/// The same within the display.
fn seen_place(desk: &Desk, x: u8, y: u8) -> Option<Place>
    requires column { x < COLUMNS }
    requires row { y < ROWS }
    ensures { result ≡ option_map (viewer_place (kept_desktop desk.now))
        (seen_at (kept_desktop desk.now).columns x y) }
{
    match desk.tracks.at(x, y) {
        None => None,
        Some(id) => Some(desk.tracks.place_of(id)),
    }
}

/// The id of the viewer that has the caret.
fn caret_id(caret: Option<Caret>) -> Option<u16>
    ensures { result ≡ option_map (λ c. c.viewer) caret }
{
    match caret {
        None => None,
        Some(caret) => Some(caret.viewer),
    }
}

/// The position at which the caret stands.
fn caret_position(caret: Option<Caret>) -> Option<u32>
    ensures { result ≡ option_map (λ c. c.position) caret }
{
    match caret {
        None => None,
        Some(caret) => Some(caret.position),
    }
}

/// What the desk says of itself.
pub fn desk_info(desk: &Desk) -> DeskInfo
    requires { IsKeptWhole (kept_desktop desk.now) }
    ensures { (characters : List ℕ) → result ≡ desk_info (seen characters (kept_desktop desk.now)) }
{
    DeskInfo {
        next_viewer: unused_id(desk.viewers.as_slice()),
        closed_viewer: closed_id(desk.closed),
        caret_viewer: caret_id(desk.caret),
        caret_position: caret_position(desk.caret),
        is_marked: desk.marker.is_some(),
        log_length: text_there(&desk.texts, 0).len(),
    }
}

/// The bytes of a text from a position up to another. `Fault`: the source failed in this call.
fn bytes_between<S: CharSource>(
    text: &Text,
    start: u32,
    end: u32,
    source: &mut S,
) -> Result<LogRow, Fault>
    requires order { start ≤ end }
    requires within { end ≤ length (flat text.now) }
    requires few { end ≤ start + LONGEST }
    requires offsets { AreWithin (length (S.characters source.old)) (flat text.now) }
    ensures bytes { IfOk result (λ line. S.honest source.old → line.items
        ≡ slice_range (bytes_of_text (S.characters source.old) (flat text.now)) start end) }
    ensures source { ReadsOrFails S.CharSource result source.old source.new }
{
    let mut reader = Reader::open(text, start);
    let mut line = LogRow::new();
    for at in start..end {
        let byte = reader.next_byte(source)?;
        line.push(byte);
    }
    Ok(line)
}

/// The last whole line of a text, as far as a row of the display shows it. `Fault`: the source failed in this call.
fn last_line<S: CharSource>(text: &Text, source: &mut S) -> Result<LogRow, Fault>
    requires { AreWithin (length (S.characters source.old)) (flat text.now) }
    ensures line { IfOk result (λ line. S.honest source.old → line.items ≡ take COLUMNS
        (last_line (bytes_of_text (S.characters source.old) (flat text.now)))) }
    ensures source { ReadsOrFails S.CharSource result source.old source.new }
{
    let last = line_start(text, text.len(), source)?;
    let end = last.saturating_sub(1);
    let start = line_start(text, end, source)?;
    let few = (end - start).min(COLUMNS as u32);
    let line = bytes_between(text, start, start + few, source)?;
    Ok(line)
}

/// The bytes of the log's last whole line without the carriage return that ends it, as far as a row of the display shows
/// it. Empty where the log has no whole line. Fault: the source failed in this call.
pub fn last_log_line<S: CharSource>(desk: &Desk, source: &mut S) -> Result<LogRow, Fault>
    requires { IsOver (S.characters source.old) (kept_desktop desk.now) }
    ensures { TellsAs S.CharSource (λ line. line.items) result last_log_line source.old source.new
        (kept_desktop desk.now) }
{
    last_line(text_there(&desk.texts, 0), source)
}
