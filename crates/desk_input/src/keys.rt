//! What typing and the keys do.
ghost use Rattle.std.specs.Prelude.{◌≡◌, ◌+◌, ◌<◌, is_none, true, ⊤};
ghost use Rattle.event_bytes.specs.declared.keys.Key.TheVariants.{Back, Copy, Cut, Escape};
ghost use Rattle.desktop_definitions.specs.Keys.{after_typing, after_key};
ghost use Rattle.desktop_definitions.specs.Unread.{key_needs_no_byte};
ghost use Rattle.desk_core.specs.Words.{newest, IsOver, kept_desktop, DoesUnread};

use char_file::CharSource;
use desk_core::desk::Desk;
use desk_core::edits::{DeskBuffer, buffer_of_run};
use desk_core::stop::StepResult;
use desktop_definitions::{Reply, Selection, codes};
use event_bytes::{Key, TypedBytes};

/// The bytes go to the caret in the current look, and the caret after them, where it is shown. Refused without a
/// caret.
pub fn type_bytes<S: CharSource>(desk: &mut Desk, bytes: &TypedBytes, source: &mut S) -> StepResult
    requires { IsOver (S.characters source.old) (kept_desktop desk.old) }
    ensures { DoesUnread S.CharSource (is_none (kept_desktop desk.old).caret ≡ true)
        (λ d. after_typing d bytes.now) result
        source.old source.new (kept_desktop desk.old) (kept_desktop desk.new) }
{
    let Some(caret) = desk.caret_place() else {
        return Ok(Reply::No(codes::NO_CARET));
    };
    let bytes = bytes.as_bytes();
    if !desk.fits_more(bytes.len(), bytes.len(), 0) {
        return Ok(Reply::No(codes::FULL));
    }
    let mut buffer = buffer_of_run(desk.alloc, desk.written, bytes.len() as u32, desk.look)?;
    source.append(bytes)?;
    desk.put_at_caret(caret, &mut buffer, source)?;
    desk.written += bytes.len() as u32;
    Ok(Reply::Done)
}

/// Does what a key means.
#[tactic(auto, unfolding(desktop_definitions::specs::Unread::key_needs_no_byte))]
pub fn press<S: CharSource>(desk: &mut Desk, key: Key, source: &mut S) -> StepResult
    requires { IsOver (S.characters source.old) (kept_desktop desk.old) }
    ensures { DoesUnread S.CharSource (key_needs_no_byte (kept_desktop desk.old) key ≡ true)
        (λ d. after_key d key) result
        source.old source.new (kept_desktop desk.old) (kept_desktop desk.new) }
{
    match key {
        Key::Back => take_back(desk, source),
        Key::Copy => copy(desk, source),
        Key::Paste => desk.put_buffer(DeskBuffer::Copied, source),
        Key::Cut => cut(desk, source),
        Key::Escape => escape(desk, source),
    }
}

/// The character before the caret is taken out, where there is one. Refused without a caret.
fn take_back<S: CharSource>(desk: &mut Desk, source: &mut S) -> StepResult
    requires { IsOver (S.characters source.old) (kept_desktop desk.old) }
    ensures { DoesUnread S.CharSource (is_none (kept_desktop desk.old).caret ≡ true)
        (λ d. after_key d Back) result
        source.old source.new (kept_desktop desk.old) (kept_desktop desk.new) }
{
    let Some(caret) = desk.caret_place() else {
        return Ok(Reply::No(codes::NO_CARET));
    };
    if caret.position > 0 {
        let before = Selection {
            viewer: caret.viewer,
            beg: caret.position - 1,
            end: caret.position,
        };
        desk.cut_out(before, source)?;
    }
    Ok(Reply::Done)
}

/// The newest selection goes into the copied buffer. Refused without a selection.
fn copy<S: CharSource>(desk: &mut Desk, source: &mut S) -> StepResult
    requires { IsOver (S.characters source.old) (kept_desktop desk.old) }
    ensures { DoesUnread S.CharSource ⊤ (λ d. after_key d Copy) result source.old source.new
        (kept_desktop desk.old) (kept_desktop desk.new) }
{
    let Some(selection) = desk.selection() else {
        return Ok(Reply::No(codes::NO_SELECTION));
    };
    let len = (selection.end - selection.beg) as usize;
    if !desk.fits_more(0, len, desk.copied.len() as usize) {
        return Ok(Reply::No(codes::FULL));
    }
    desk.copied = desk.copy_of(selection)?;
    Ok(Reply::Done)
}

/// The newest selection goes out of its text into the copied buffer, and the caret to where it was. Refused without
/// a selection.
fn cut<S: CharSource>(desk: &mut Desk, source: &mut S) -> StepResult
    requires { IsOver (S.characters source.old) (kept_desktop desk.old) }
    ensures { DoesUnread S.CharSource (is_none (newest (kept_desktop desk.old)) ≡ true)
        (λ d. after_key d Cut) result
        source.old source.new (kept_desktop desk.old) (kept_desktop desk.new) }
{
    let Some(selection) = desk.selection() else {
        return Ok(Reply::No(codes::NO_SELECTION));
    };
    desk.copied = desk.copy_of(selection)?;
    desk.cut_out(selection, source)?;
    Ok(Reply::Done)
}

/// Caret, selections and marker go.
fn escape<S: CharSource>(desk: &mut Desk, source: &mut S) -> StepResult
    requires { IsOver (S.characters source.old) (kept_desktop desk.old) }
    ensures { DoesUnread S.CharSource ⊤ (λ d. after_key d Escape) result source.old source.new
        (kept_desktop desk.old) (kept_desktop desk.new) }
{
    desk.caret = None;
    desk.selections.clear();
    desk.marker = None;
    Ok(Reply::Done)
}
