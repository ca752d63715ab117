//! What a command would lose.
ghost use Rattle.std.specs.Prelude.{◌≡◌, ◌<◌, IfSome};
ghost use Rattle.viewer_tracks.specs.Viewers.{id_number};
ghost use Rattle.desk_core.specs.Words.{COLUMNS, IsOnTop, IsKeptWhole, IsOver, kept_desktop, TellsValue};
ghost use Rattle.desk_views.specs.Losses.{menu_start, lost_by_closing, lost_by_storing, closed_cell, opening_cell};
ghost use Rattle.desk_views.specs.Losses.{replaced_in, taken_by, lost_by_opening, lost_by, TakenViewersGo};

use crate::rivals::is_rivalled;
use crate::unstored::is_unstored;
use char_file::{CharSource, Fault};
use command_table::Command;
use desk_core::desk::Desk;
use desktop_definitions::ClosedViewer;
use viewer_tracks::{Track, ViewerId};

/// What a command would lose. Each cell is the first one of a menu, as column and row.
#[derive(Clone, Copy, Debug, PartialEq, Eq)]
pub enum Loss {
    /// The text of the viewer of that menu, which would be closed: nothing else has it.
    Closed((u8, u8)),
    /// The viewer of that menu: one that opens would take its whole place.
    Taken((u8, u8)),
    /// The document that the menu names: another viewer has it open with another text, and this one would be stored
    /// over it.
    Rivalled((u8, u8)),
}

/// The first cell of a viewer's menu, as column and row.
fn menu_start(desk: &Desk, id: u16) -> (u8, u8)
    requires { IsOnTop id (kept_desktop desk.now).columns }
    ensures { result ≡ menu_start (kept_desktop desk.now) id }
{
    let place = desk.tracks.place_of(ViewerId(id));
    (place.x, place.top.saturating_sub(1))
}

/// What is lost by closing a viewer, where one is meant. `Fault`: the source failed in this call.
fn lost_by_closing<S: CharSource>(
    desk: &Desk,
    meant: Option<u16>,
    source: &mut S,
) -> Result<Option<Loss>, Fault>
    requires over { IsOver (S.characters source.old) (kept_desktop desk.now) }
    requires placed { IfSome meant (λ v. IsOnTop v (kept_desktop desk.now).columns) }
    ensures { TellsValue S.CharSource result (λ d. lost_by_closing d meant) source.old source.new
        (kept_desktop desk.now) }
{
    let Some(id) = meant else {
        return Ok(None);
    };
    let lost = is_unstored(desk, id, source)?;
    if lost {
        return Ok(Some(Loss::Closed(menu_start(desk, id))));
    }
    Ok(None)
}

/// What is lost by storing the text of a viewer, where one is meant. `Fault`: the source failed in this call.
fn lost_by_storing<S: CharSource>(
    desk: &Desk,
    meant: Option<u16>,
    source: &mut S,
) -> Result<Option<Loss>, Fault>
    requires over { IsOver (S.characters source.old) (kept_desktop desk.now) }
    requires placed { IfSome meant (λ v. IsOnTop v (kept_desktop desk.now).columns) }
    ensures { TellsValue S.CharSource result (λ d. lost_by_storing d meant) source.old source.new
        (kept_desktop desk.now) }
{
    let Some(id) = meant else {
        return Ok(None);
    };
    let lost = is_rivalled(desk, id, source)?;
    if lost {
        return Ok(Some(Loss::Rivalled(menu_start(desk, id))));
    }
    Ok(None)
}

/// The cell at which the viewer opens that was closed last, as column and row.
fn closed_cell(closed: Option<ClosedViewer>) -> Option<(u8, u8)>
    ensures { result ≡ closed_cell closed }
{
    let closed = closed?;
    Some((closed.track.left(), closed.top))
}

/// The cell at which a command opens a viewer, as column and row. None where it opens none.
#[tactic(auto, unfolding(crate::specs::Losses::opening_cell))]
fn opening_cell(desk: &Desk, command: Command) -> Option<(u8, u8)>
    requires { IsKeptWhole (kept_desktop desk.now) }
    ensures cell { result ≡ opening_cell (kept_desktop desk.now) command }
    ensures column { IfSome result (λ cell. cell.0 < COLUMNS) }
{
    match command {
        Command::EditOpen => Some(desk.tracks.allocate(Track::User, desk.marker)),
        Command::SystemOpen => Some(desk.tracks.allocate(Track::System, desk.marker)),
        Command::SystemOpenLog => Some(desk.tracks.allocate(Track::System, desk.marker)),
        Command::SystemRecall => closed_cell(desk.closed),
        _ => None,
    }
}

/// The number of a viewer, where there is one.
fn number_of(viewer: Option<ViewerId>) -> Option<u16>
    ensures { result ≡ id_number viewer }
{
    viewer.map(|viewer| viewer.0)
}

/// The viewer whose whole place one takes that opens at a cell, where one is meant. None where there is none.
fn replaced_in(desk: &Desk, cell: Option<(u8, u8)>) -> Option<u16>
    requires whole { IsKeptWhole (kept_desktop desk.now) }
    requires column { IfSome cell (λ cell. cell.0 < COLUMNS) }
    ensures taken { result ≡ replaced_in (kept_desktop desk.now) cell }
    ensures placed { IfSome result (λ v. IsOnTop v (kept_desktop desk.now).columns) }
{
    match cell {
        None => None,
        Some((x, y)) => number_of(desk.tracks.replaced(x, y)),
    }
}

/// The viewer whose whole place one takes that a command opens. None where there is none.
fn taken_by(desk: &Desk, command: Command) -> Option<u16>
    requires { IsKeptWhole (kept_desktop desk.now) }
    ensures taken { result ≡ taken_by (kept_desktop desk.now) command }
    ensures placed { IfSome result (λ v. IsOnTop v (kept_desktop desk.now).columns) }
{
    replaced_in(desk, opening_cell(desk, command))
}

/// What is lost by the viewer that a command opens.
fn lost_by_opening(desk: &Desk, command: Command) -> Option<Loss>
    requires { IsKeptWhole (kept_desktop desk.now) }
    ensures { result ≡ lost_by_opening (kept_desktop desk.now) command }
{
    let id = taken_by(desk, command)?;
    Some(Loss::Taken(menu_start(desk, id)))
}

/// What a command would lose, by the viewer that it means where it is called. None where nothing would be lost. Fault:
/// the source failed in this call.
pub fn lost_by<S: CharSource>(
    desk: &Desk,
    command: Command,
    meant: Option<u16>,
    source: &mut S,
) -> Result<Option<Loss>, Fault>
    requires over { IsOver (S.characters source.old) (kept_desktop desk.now) }
    requires placed { IfSome meant (λ v. IsOnTop v (kept_desktop desk.now).columns) }
    ensures { TellsValue S.CharSource result (λ d. lost_by d command meant) source.old source.new
        (kept_desktop desk.now) }
{
    match command {
        Command::SystemClose => lost_by_closing(desk, meant, source),
        Command::EditStore => lost_by_storing(desk, meant, source),
        _ => Ok(lost_by_opening(desk, command)),
    }
}

/// A viewer that a command takes was shown, and once the command is done it is gone.
pub fn taken_viewers_go()
    ensures { TakenViewersGo }
{}
