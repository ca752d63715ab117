//! What the mouse does with stretches of texts.
ghost use Rattle.std.specs.Prelude.{◌≡◌, ◌≤◌, length, is_none, true};
ghost use Rattle.text_core.specs.Attributes.{look_at};
ghost use Rattle.desktop_definitions.specs.Gesture.{copied_to, looks_taken, taken_out, sent_to_caret};
ghost use Rattle.desk_core.specs.Words.{flat, newest, kept_main, kept_desktop, Does, DoesUnread};
ghost use Rattle.desk_input.specs.Reads.{IsMainPlace};

use char_file::CharSource;
use desk_core::desk::Desk;
use desk_core::stop::StepResult;
use desk_core::viewers::select;
use desktop_definitions::{Caret, Reply, Selection, codes};
use piece_ring::{DEFAULT_LOOK, Look};

/// The selector of a whole look: its font, its colour and its vertical offset.
const WHOLE_LOOK: u8 = 7;

/// A copy of the newest selection is put in at `pos` in a viewer, and the caret after it, where it is shown.
/// Refused without a selection.
pub fn copy_to<S: CharSource>(desk: &mut Desk, id: u16, pos: u32, source: &mut S) -> StepResult
    requires { IsMainPlace (S.characters source.old) (kept_desktop desk.old) id pos }
    ensures { DoesUnread S.CharSource (is_none (newest (kept_desktop desk.old)) ≡ true)
        (λ d. copied_to d id pos) result
        source.old source.new (kept_desktop desk.old) (kept_desktop desk.new) }
{
    let Some(selection) = desk.selection() else {
        return Ok(Reply::No(codes::NO_SELECTION));
    };
    let len = (selection.end - selection.beg) as usize;
    if !desk.fits_more(0, len, 0) {
        return Ok(Reply::No(codes::FULL));
    }
    let mut copy = desk.copy_of(selection)?;
    desk.put_in(id, pos, &mut copy, source)?;
    Ok(Reply::Done)
}

/// The newest selection gets the look at `pos` in a viewer, where the caret then stands. Refused without a
/// selection.
pub fn take_looks<S: CharSource>(desk: &mut Desk, id: u16, pos: u32, source: &mut S) -> StepResult
    requires { IsMainPlace (S.characters source.old) (kept_desktop desk.old) id pos }
    ensures { DoesUnread S.CharSource (is_none (newest (kept_desktop desk.old)) ≡ true)
        (λ d. looks_taken d id pos) result
        source.old source.new (kept_desktop desk.old) (kept_desktop desk.new) }
{
    let look = look_at(desk, id, pos);
    let Some(selection) = desk.selection() else {
        return Ok(Reply::No(codes::NO_SELECTION));
    };
    desk.set_looks(selection, WHOLE_LOOK, look)?;
    desk.caret = Some(Caret {
        viewer: id,
        position: pos,
    });
    Ok(Reply::Done)
}

/// The look of the character at `pos` in a viewer's main text, of the last one at its end, and `DEFAULT_LOOK` where
/// there is none.
fn look_at(desk: &Desk, id: u16, pos: u32) -> Look
    requires { pos ≤ length (flat (kept_main (kept_desktop desk.now) id)) }
    ensures { result ≡ look_at pos (flat (kept_main (kept_desktop desk.now) id)) }
{
    let number = desk.main_of(id);
    match desk.texts.get(&number) {
        Some(text) => text.attributes(pos),
        None => DEFAULT_LOOK,
    }
}

/// A stretch goes into the deleted buffer, and the caret to where it was, which is shown. Refused where it is
/// empty.
pub fn take_out<S: CharSource>(desk: &mut Desk, drawn: Selection, source: &mut S) -> StepResult
    requires { IsMainPlace (S.characters source.old) (kept_desktop desk.old) drawn.viewer
        drawn.end }
    ensures { Does S.CharSource (λ d. taken_out d drawn) result source.old source.new
        (kept_desktop desk.old) (kept_desktop desk.new) }
{
    if drawn.beg >= drawn.end {
        return Ok(Reply::No(codes::NO_SELECTION));
    }
    let taken = desk.cut_out(drawn, source)?;
    desk.deleted = taken;
    Ok(Reply::Done)
}

/// A stretch is selected, and a copy of it put in at the caret. Refused where it is empty, or without a caret.
pub fn send_to_caret<S: CharSource>(desk: &mut Desk, drawn: Selection, source: &mut S) -> StepResult
    requires { IsMainPlace (S.characters source.old) (kept_desktop desk.old) drawn.viewer
        drawn.end }
    ensures { Does S.CharSource (λ d. sent_to_caret d drawn) result source.old source.new
        (kept_desktop desk.old) (kept_desktop desk.new) }
{
    if drawn.beg >= drawn.end {
        return Ok(Reply::No(codes::NO_SELECTION));
    }
    let Some(caret) = desk.caret_place() else {
        return Ok(Reply::No(codes::NO_CARET));
    };
    let len = (drawn.end - drawn.beg) as usize;
    if !desk.fits_more(0, len, 0) {
        return Ok(Reply::No(codes::FULL));
    }
    let mut copy = desk.copy_of(drawn)?;
    select(&mut desk.selections, drawn)?;
    desk.put_at_caret(caret, &mut copy, source)?;
    Ok(Reply::Done)
}
