//! What a click would lose: the command is found as a call of it finds it.
ghost use Rattle.std.specs.Prelude.{◌≡◌, ◌≤◌, length};
ghost use Rattle.desktop_definitions.specs.Call.{text_called};
ghost use Rattle.desk_core.specs.Words.{flat, IsOnTop, IsOver, kept_desktop, TellsValue};
ghost use Rattle.desk_input.specs.Reads.{IsMainRow};
ghost use Rattle.desk_views.specs.Losses.{lost_by_call, lost_in, lost_by_click, loss_at};
ghost use Rattle.desktop_definitions.specs.declared.region.Region.TheVariants.{Menu, Body};

use char_file::{CharSource, Fault};
use command_table::{NEWEST, called};
use desk_commands::calls::meant;
use desk_core::desk::Desk;
use desk_core::marks::are_on_display;
use desk_input::places::{menu_position, region_under, text_position};
use desk_views::{Loss, lost_by};
use desktop_definitions::{Call, Region};

/// What a call reads. Fault: the source failed in that call.
type Told = Result<Option<Loss>, Fault>;

/// What is lost by the word at `pos` of a viewer's menu or main text. None where it is the word of no command.
fn lost_by_call<S: CharSource>(
    desk: &Desk,
    id: u16,
    in_menu: bool,
    pos: u32,
    source: &mut S,
) -> Told
    requires placed { IsOnTop id (kept_desktop desk.now).columns }
    requires place { pos ≤ length (flat (text_called (kept_desktop desk.now) id in_menu)) }
    requires over { IsOver (S.characters source.old) (kept_desktop desk.now) }
    ensures { TellsValue S.CharSource result (λ d. lost_by_call d id in_menu pos) source.old
        source.new (kept_desktop desk.now) }
{
    let found = called(NEWEST, desk.text_called(id, in_menu), pos, source)?;
    let Some((command, after)) = found else {
        return Ok(None);
    };
    let call = Call {
        viewer: id,
        in_menu,
        after,
    };
    lost_by(desk, command, meant(desk, call), source)
}

/// What is lost by the word that a viewer's menu shows nearest to a column.
fn lost_in_menu<S: CharSource>(desk: &Desk, id: u16, to: (u8, u8), source: &mut S) -> Told
    requires placed { IsOnTop id (kept_desktop desk.now).columns }
    requires over { IsOver (S.characters source.old) (kept_desktop desk.now) }
    ensures { TellsValue S.CharSource result (λ d. lost_in d (Menu id) to) source.old source.new
        (kept_desktop desk.now) }
{
    let pos = menu_position(desk, id, to.0, source)?;
    lost_by_call(desk, id, true, pos, source)
}

/// What is lost by the word that a viewer's main text shows nearest to a cell.
fn lost_in_text<S: CharSource>(desk: &Desk, id: u16, to: (u8, u8), source: &mut S) -> Told
    requires at { IsMainRow (S.characters source.old) (kept_desktop desk.now) id 0 }
    ensures { TellsValue S.CharSource result (λ d. lost_in d (Body id) to) source.old source.new
        (kept_desktop desk.now) }
{
    let pos = text_position(desk, id, to.0, to.1, source)?;
    lost_by_call(desk, id, false, pos, source)
}

/// What the command would lose that is called by the middle button, which went down at a cell and up at another.
fn lost_by_click<S: CharSource>(desk: &Desk, from: (u8, u8), to: (u8, u8), source: &mut S) -> Told
    requires { IsOver (S.characters source.old) (kept_desktop desk.now) }
    ensures { TellsValue S.CharSource result (λ d. lost_by_click d from to) source.old source.new
        (kept_desktop desk.now) }
{
    if !are_on_display(from, to) {
        return Ok(None);
    }
    match region_under(desk, from.0, from.1) {
        Region::Filler => Ok(None),
        Region::Menu(id) => lost_in_menu(desk, id, to, source),
        Region::Bar(_) => Ok(None),
        Region::Body(id) => lost_in_text(desk, id, to, source),
    }
}

/// What the command would lose that is called by the middle button, which went down at `from` and up at `to`, once the
/// marker was set to `marked`, if that is a cell. None where nothing would be lost, and where a cell isn't on the
/// display. Fault: the source failed in this call. The desk stays.
pub fn loss_at<S: CharSource>(
    desk: &mut Desk,
    marked: Option<(u8, u8)>,
    from: (u8, u8),
    to: (u8, u8),
    source: &mut S,
) -> Told
    requires { IsOver (S.characters source.old) (kept_desktop desk.old) }
    ensures told { TellsValue S.CharSource result (λ d. loss_at d marked from to) source.old
        source.new (kept_desktop desk.old) }
    ensures unchanged { kept_desktop desk.new ≡ kept_desktop desk.old }
{
    let Some(cell) = marked else {
        return lost_by_click(desk, from, to, source);
    };
    if !are_on_display(cell, cell) {
        return Ok(None);
    }
    let before = desk.marker;
    desk.marker = Some(cell);
    let loss = lost_by_click(desk, from, to, source);
    desk.marker = before;
    loss
}
