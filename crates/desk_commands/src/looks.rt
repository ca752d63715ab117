//! What commands set in looks.
ghost use Rattle.std.specs.Prelude.{◌≡◌, Ok};
ghost use Rattle.desktop_definitions.specs.Looks.{font_set, colour_set, offset_set, SetsLook};
ghost use Rattle.desktop_definitions.specs.Effects.{look_set, selection_set};
ghost use Rattle.desk_core.specs.Words.{needs, IsOver, kept_desktop, Does};
ghost use Rattle.desk_commands.specs.Words.{bad_value};

use char_file::CharSource;
use desk_core::desk::Desk;
use desk_core::stop::StepResult;
use desktop_definitions::{
    COLOURS, FONTS, GREATEST_OFFSET, LEAST_OFFSET, LookChange, Reply, codes,
};
use event_bytes::Name;
use piece_ring::{DEFAULT_LOOK, Look};

/// What is to be set. None where there is no such look.
pub type NewLook = Option<LookChange>;

/// The names of the fonts, by their numbers.
const FONT_NAMES: [&[u8]; FONTS as usize] = [
    b"Oberon10.Scn.Fnt",
    b"Oberon10i.Scn.Fnt",
    b"Oberon10b.Scn.Fnt",
    b"Oberon8.Scn.Fnt",
    b"Oberon12.Scn.Fnt",
];

/// The font of a name. None where there is no such font.
pub fn font_set(name: &Name) -> NewLook
    ensures { result ≡ font_set name.now }
{
    let name = name.as_bytes();
    let font = FONT_NAMES.iter().position(|font| name == *font)? as u8;
    Some(LookChange {
        selector: 1,
        look: Look {
            font,
            ..DEFAULT_LOOK
        },
    })
}

/// The colour of a number. None where there is no such colour.
pub fn colour_set(number: i32) -> NewLook
    ensures { result ≡ colour_set number }
{
    if number < 0 || number >= i32::from(COLOURS) {
        return None;
    }
    Some(LookChange {
        selector: 2,
        look: Look {
            colour: number as u8,
            ..DEFAULT_LOOK
        },
    })
}

/// That vertical offset. None where it is out of range.
pub fn offset_set(number: i32) -> NewLook
    ensures { result ≡ offset_set number }
{
    if number < i32::from(LEAST_OFFSET) || number > i32::from(GREATEST_OFFSET) {
        return None;
    }
    Some(LookChange {
        selector: 4,
        look: Look {
            voff: number as i8,
            ..DEFAULT_LOOK
        },
    })
}

/// What is typed gets a look, in the fields that are set. Refused where none are.
pub fn set_look<S: CharSource>(desk: &mut Desk, new: NewLook, source: &mut S) -> StepResult
    requires sets { SetsLook new }
    requires over { IsOver (S.characters source.old) (kept_desktop desk.old) }
    ensures { Does S.CharSource (λ d. needs new bad_value λ set. Ok (look_set d set)) result
        source.old source.new (kept_desktop desk.old) (kept_desktop desk.new) }
{
    let Some(change) = new else {
        return Ok(Reply::No(codes::BAD_VALUE));
    };
    desk.look = desk.look.relooked(change.selector, change.look);
    Ok(Reply::Done)
}

/// The newest selection gets a look, in the fields that are set, and is the newest then too. Refused where none
/// are, and without a selection. NoMemory where an allocation is refused.
pub fn change_look<S: CharSource>(desk: &mut Desk, new: NewLook, source: &mut S) -> StepResult
    requires sets { SetsLook new }
    requires over { IsOver (S.characters source.old) (kept_desktop desk.old) }
    ensures { Does S.CharSource (λ d. needs new bad_value (selection_set d)) result
        source.old source.new (kept_desktop desk.old) (kept_desktop desk.new) }
{
    let Some(change) = new else {
        return Ok(Reply::No(codes::BAD_VALUE));
    };
    let Some(selection) = desk.selection() else {
        return Ok(Reply::No(codes::NO_SELECTION));
    };
    desk.set_looks(selection, change.selector, change.look)?;
    Ok(Reply::Done)
}
