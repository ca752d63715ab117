//! Texts of their own with what is selected, and with what was copied; and the text in which the caret stands.
ghost use Rattle.std.specs.Prelude.{◌≡◌, IfOk, option_map};
ghost use Rattle.desk_core.specs.Words.{flat, stretch, newest, kept_main, kept_desktop, IsKeptWhole};

use desk_core::desk::Desk;
use desk_core::stop::NoMemory;
use std::alloc::Global;
use text_core::{Buffer, Text};

/// A text of the buffer's characters. NoMemory where an allocation is refused.
fn text_of(alloc: Global, mut buffer: Buffer) -> Result<Text, NoMemory>
    ensures { IfOk result (λ text. flat text ≡ flat buffer) }
{
    let mut text = Text::new(alloc)?;
    if buffer.len() > 0 {
        text.append(alloc, &mut buffer)?;
    }
    Ok(text)
}

/// A text of what was copied last. NoMemory where an allocation is refused.
pub fn copied_text(desk: &Desk) -> Result<Text, NoMemory>
    ensures { IfOk result (λ text. flat text ≡ flat (kept_desktop desk.now).copied) }
{
    let mut copy = Buffer::new(desk.alloc)?;
    if desk.copied.len() > 0 {
        desk.copied.copy_to(desk.alloc, &mut copy)?;
    }
    text_of(desk.alloc, copy)
}

/// A text of the newest selection; None where nothing is selected. NoMemory where an allocation is refused.
pub fn selected_text(desk: &Desk) -> Result<Option<Text>, NoMemory>
    requires { IsKeptWhole (kept_desktop desk.now) }
    ensures { IfOk result (λ text. option_map (λ t. flat t) text
        ≡ option_map (λ s. stretch s.beg s.end (flat (kept_main (kept_desktop desk.now) s.viewer)))
        (newest (kept_desktop desk.now))) }
{
    let Some(selection) = desk.selection() else {
        return Ok(None);
    };
    let copy = desk.copy_of(selection)?;
    let text = text_of(desk.alloc, copy)?;
    Ok(Some(text))
}

/// The main text of the viewer with the caret; None where no viewer has it.
pub fn text_with_caret(desk: &Desk) -> Option<&Text>
    requires { IsKeptWhole (kept_desktop desk.now) }
    ensures { option_map (λ text. text.now) result
        ≡ option_map (λ c. kept_main (kept_desktop desk.now) c.viewer)
        (kept_desktop desk.now).caret }
{
    let Some(caret) = desk.caret_place() else {
        return None;
    };
    Some(desk.main_text(caret.viewer))
}
