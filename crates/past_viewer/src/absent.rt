//! A person who asks for a past that the store doesn't keep.
ghost use Rattle.std.specs.Prelude.{◌≡◌, false, None, IfErr, IfOk, OnOk};
ghost use Rattle.past_pages.specs.Reading.{IsOnlyReadFrom};
ghost use Rattle.past_viewer.specs.Viewing.{CountsViewOutput, EndsViewBy, TakesScenes};

use crate::pane::{Pane, Window};
use crate::viewer::{Doing, MOST_TURNS, ViewEnd, Viewed, hear_on};
use byte_streams::AnswerWriter;
use desk_journal::Store;
use past_looks::{ViewHand, Wish};
use screen_cells::Screen;
use sector_disk::Disk;
use std::alloc::Global;
use terminal_keyboard::{Keyboard, Parser};
use terminal_presses::{Heard, Press, Presses};

/// What the line below says then.
const NO_PAST: &[u8] = b"no past is kept here (desk PATH keeps one): Escape goes back";

/// A person before the desktop as it is.
#[derive(Drop)]
struct Absent {
    hand: ViewHand,
    parser: Parser,
    pane: Pane,
}

/// Shows the desktop of a store that keeps no past, until the person goes back to their sitting, and returns the size of
/// the terminal then. Nothing is copied.
///
/// Errors: those of `view`.
pub(crate) fn serve_absent<K: Keyboard, W: AnswerWriter, D: Disk>(
    alloc: Global,
    keyboard: &mut K,
    writer: &mut W,
    store: &mut Store<D>,
    window: Window,
) -> Result<Viewed, ViewEnd>
    requires { store.old.must_reopen ≡ false }
    ensures still { IsOnlyReadFrom D.Disk store.old store.new }
    ensures scenes { OnOk result (TakesScenes D.Disk store.new None (W.contents writer.old)
        (W.contents writer.new)) }
    ensures none { IfOk result (λ viewed. viewed.copied ≡ None) }
    ensures ended { IfErr result (EndsViewBy (K.ended keyboard.new)) }
    ensures output { CountsViewOutput result (W.failures writer.old) (W.failures writer.new) }
{
    let mut absent = Absent::new(window);
    for _count in 0..MOST_TURNS {
        store.shows_what_crashes_leave();
        absent.show(alloc, writer, store)?;
        let hearing = hear_on(keyboard)?;
        match absent.take(hearing.as_slice()) {
            Doing::Leaves => {
                return Ok(Viewed {
                    window: absent.pane.window,
                    copied: None,
                });
            }
            Doing::Stays => {}
        }
    }
    Err(ViewEnd::TooLong)
}

impl Absent {
    /// In a terminal of this size. It rings first.
    fn new(window: Window) -> Absent {
        let mut pane = Pane::new(window);
        pane.ring();
        Absent {
            hand: ViewHand::new(),
            parser: Parser::new(),
            pane,
        }
    }

    /// Shows the desktop, and that there is no past.
    ///
    /// Errors: `Memory`; `Fault`; `Output`.
    fn show<W: AnswerWriter, D: Disk>(
        &mut self,
        alloc: Global,
        writer: &mut W,
        store: &mut Store<D>,
    ) -> Result<(), ViewEnd>
        requires { store.old.must_reopen ≡ false }
        ensures still { IsOnlyReadFrom D.Disk store.old store.new }
        ensures scenes { OnOk result (TakesScenes D.Disk store.new None (W.contents writer.old)
            (W.contents writer.new)) }
        ensures output { CountsViewOutput result (W.failures writer.old) (W.failures writer.new) }
        ensures cause { IfErr result (EndsViewBy (λ why. ⊥)) }
    {
        let mut screen = Screen::new();
        store.screen(alloc, &mut screen)?;
        Ok(self.pane.show(writer, &screen, NO_PAST, b"")?)
    }

    /// Does what is pressed by all that was heard.
    fn take(&mut self, hearing: &[Heard]) -> Doing {
        for heard in hearing {
            let presses = self.parser.take(*heard);
            match self.press_each(presses) {
                Doing::Leaves => return Doing::Leaves,
                Doing::Stays => {}
            }
        }
        Doing::Stays
    }

    /// Does at most two presses.
    fn press_each(&mut self, presses: Presses) -> Doing {
        match presses {
            Presses::Nothing => Doing::Stays,
            Presses::One(press) => self.press(press),
            Presses::Two(first, second) => match self.press(first) {
                Doing::Leaves => Doing::Leaves,
                Doing::Stays => self.press(second),
            },
        }
    }

    /// Does what is pressed: Return and what leaves the past lead back, and a key that means another moment rings.
    fn press(&mut self, press: Press) -> Doing {
        match self.hand.take(self.pane.sight(), press) {
            Wish::Turn | Wish::Leave => return Doing::Leaves,
            Wish::Nothing | Wish::Point(_) | Wish::Wheel(_, _) => {}
            Wish::Ring | Wish::Go(_) | Wish::Seek | Wish::Copy => self.pane.ring(),
            Wish::LookAnew => self.pane.look_anew(),
            Wish::Move(page) => self.pane.move_by(page),
            Wish::Fit(rows, columns) => self.pane.fit(rows, columns),
        }
        Doing::Stays
    }
}
