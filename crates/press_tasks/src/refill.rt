//! How far a paragraph is filled, and what is done in it where the caret stands.
//!
//! A paragraph is filled edit by edit. The caret goes to where an edit is made, and comes back at the end. No click sets a
//! caret right of the last column: a line that is to end there is torn in sight, and is mended once its rest has ended where
//! it was to end.
ghost use Rattle.std.specs.Prelude.{◌≡◌, ◌∷◌, [], IsTrue};
ghost use Rattle.event_bytes.specs.Bytes.{is_text_byte};
ghost use Rattle.event_bytes.specs.declared.event.Event.TheVariants as event;
ghost use Rattle.press_tasks.specs.Refilling.{after_stroke, counted_position, edit_place, edit_stroke, one_behind, stroke_event};

use event_bytes::{CARRIAGE_RETURN, Event, Key, TypedBytes};
use filled_pastes::Edit;

/// What is done where the caret stands, so that a paragraph is filled.
#[derive(Clone, Copy, Debug, PartialEq, Eq)]
pub enum Stroke {
    /// A line ends.
    End,
    /// A line is torn, and its rest is to end at this position.
    Tear(u32),
    /// A line ends that was torn at this position: there it is mended.
    Mend(u32),
    /// The end of the line before goes.
    Join,
    /// It goes, and a blank takes its place.
    Swap,
    /// A blank comes.
    Blank,
}

/// How far a paragraph is filled.
#[derive(Clone, Copy, Debug, PartialEq, Eq)]
pub enum Refilling {
    /// The paragraph of the caret is to be filled.
    Begin,
    /// The next edit is sought, or the first one, where the caret belongs at this position.
    Next(u32, bool),
    /// The caret goes to the second position, where this is to be done.
    Go(u32, u32, Stroke),
    /// This is done where the caret stands, if that is the second position.
    Do(u32, u32, Stroke),
}

/// The position of the caret once there is a character more before it.
pub fn one_behind(place: Option<u32>) -> u32
    ensures { result ≡ one_behind place }
{
    match place {
        None => 0,
        Some(place) => place.saturating_add(1),
    }
}

/// A position, as far as it is counted.
fn counted_position(place: usize) -> u32
    ensures { result ≡ counted_position place }
{
    place.min(u32::MAX as usize) as u32
}

/// Where an edit begins: an end of line is taken away from behind.
pub fn edit_place(edit: Edit) -> u32
    ensures { result ≡ edit_place edit }
{
    match edit {
        Edit::Ends(at) => counted_position(at),
        Edit::Tears(at, _) => counted_position(at),
        Edit::Joins(at) => one_behind(Some(counted_position(at))),
        Edit::Blanks(at) => one_behind(Some(counted_position(at))),
    }
}

/// With what it begins.
pub fn edit_stroke(edit: Edit) -> Stroke
    ensures { result ≡ edit_stroke edit }
{
    match edit {
        Edit::Ends(_) => Stroke::End,
        Edit::Tears(_, at) => Stroke::Tear(counted_position(at)),
        Edit::Joins(_) => Stroke::Join,
        Edit::Blanks(_) => Stroke::Swap,
    }
}

/// A byte is typed.
fn typed_byte(byte: u8) -> Event
    requires { IsTrue (is_text_byte byte) }
    ensures { result ≡ event.Typed (byte ∷ []) }
{
    Event::Typed(TypedBytes::new(&[byte]).unwrap())
}

/// What is done where the caret stands.
#[tactic(auto, unfolding(event_bytes::specs::Bytes::is_text_byte))]
pub fn stroke_event(stroke: Stroke) -> Event
    ensures { result ≡ stroke_event stroke }
{
    match stroke {
        Stroke::End => typed_byte(CARRIAGE_RETURN),
        Stroke::Tear(_) => typed_byte(CARRIAGE_RETURN),
        Stroke::Mend(_) => typed_byte(CARRIAGE_RETURN),
        Stroke::Join => Event::Key(Key::Back),
        Stroke::Swap => Event::Key(Key::Back),
        Stroke::Blank => typed_byte(b' '),
    }
}

/// What is left to do after that, where the caret belongs at `home` and stands at `at`.
pub fn after_stroke(home: u32, at: u32, stroke: Stroke) -> Refilling
    ensures { result ≡ after_stroke home at stroke }
{
    match stroke {
        Stroke::End => Refilling::Next(home, false),
        Stroke::Tear(end) => Refilling::Go(home, one_behind(Some(end)), Stroke::Mend(at)),
        Stroke::Mend(torn) => Refilling::Go(home, one_behind(Some(torn)), Stroke::Join),
        Stroke::Join => Refilling::Next(home, false),
        Stroke::Swap => Refilling::Do(home, at.saturating_sub(1), Stroke::Blank),
        Stroke::Blank => Refilling::Next(home, false),
    }
}
