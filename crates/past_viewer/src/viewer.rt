//! The past on the screen, turn by turn.
ghost use Rattle.std.specs.Prelude.{◌≡◌, Some, None, false, IfErr, IfOk, IfSome, OnOk};
ghost use Rattle.past_pages.specs.Reading.{IsOnlyReadFrom};
ghost use Rattle.past_looks.specs.Looking.{IsLookerOf, StaysOrTurns};
ghost use Rattle.past_viewer.specs.declared.viewer.ViewEnd.TheVariants.{Memory, Output as TakesNoMore};
ghost use Rattle.past_viewer.specs.Copies.{copy_kept, exported_selection};
ghost use Rattle.past_viewer.specs.Viewing.{CountsViewOutput, DoesKey, EndsViewBy, IsViewed, LeavesViewed, LooksOn, TakesScenes};
ghost use Rattle.past_viewer.specs.Viewing.{IsTextCopied, KeepsCopied};
ghost use Rattle.past_viewer.specs.Viewing.{IsOfStore, IsUsableBehind, TakesSome, TellsBelow, TurnsOrStays, heard_end, view_end_of};

use crate::absent::serve_absent;
use crate::copies::{Copied, copied_of};
use crate::held::PastText;
use crate::pane::{Pane, Window};
use byte_streams::{AnswerWriter, OutputFault};
use desk_journal::{Error, Store};
use past_looks::{Looker, Wish, moment_line};
use screen_cells::Screen;
use sector_disk::Disk;
use std::alloc::{AllocError, Global};
use terminal_keyboard::{Hearing, Keyboard, KeyboardEnd, Parser};
use terminal_presses::{Heard, Press, Presses};

/// How many turns there are at most.
pub(crate) const MOST_TURNS: u64 = u64::MAX;

/// Why nobody looks on.
#[derive(Clone, Copy, Debug, PartialEq, Eq)]
pub enum ViewEnd {
    /// The keyboard told that nothing more comes.
    Closed,
    /// A read of the keyboard failed.
    Input,
    /// There were as many turns as can be counted.
    TooLong,
    /// A write or a flush of the output failed, or a write took no byte.
    Output,
    /// The disk failed.
    Fault,
    /// An allocation was refused.
    Memory,
}

impl From<OutputFault> for ViewEnd {
    ghost from_gives = { λ _ end. end ≡ TakesNoMore };

    /// `Output`, where the output takes no more.
    fn from(_fault: OutputFault) -> ViewEnd {
        ViewEnd::Output
    }
}

impl From<KeyboardEnd> for ViewEnd {
    ghost from_gives = { λ why end. end ≡ heard_end why };

    /// `Closed` or `Input`, as the keyboard has ended.
    fn from(why: KeyboardEnd) -> ViewEnd {
        match why {
            KeyboardEnd::Closed => ViewEnd::Closed,
            KeyboardEnd::Fault => ViewEnd::Input,
        }
    }
}

impl From<Error> for ViewEnd {
    ghost from_gives = { λ error end. end ≡ view_end_of error };

    /// `Memory` where memory runs out, and else `Fault`.
    fn from(error: Error) -> ViewEnd {
        match error {
            Error::NoMemory => ViewEnd::Memory,
            _ => ViewEnd::Fault,
        }
    }
}

impl From<AllocError> for ViewEnd {
    ghost from_gives = { λ _ end. end ≡ Memory };

    /// `Memory`.
    fn from(_error: AllocError) -> ViewEnd {
        ViewEnd::Memory
    }
}

/// Whether the person looks on.
#[derive(Clone, Copy, Debug, PartialEq, Eq)]
pub(crate) enum Doing {
    Stays,
    Leaves,
}

/// How a person leaves the past: the size of the terminal, and what was copied there last, if anything was.
#[derive(Drop)]
pub struct Viewed {
    pub window: Window,
    pub copied: Option<PastText>,
}

/// A person before a past, at a terminal.
#[derive(Drop)]
struct Viewer {
    looker: Looker,
    parser: Parser,
    pane: Pane,
    /// What was copied last, if anything was.
    copied: Option<PastText>,
    /// Something that is shown may have changed since the last scene.
    due: bool,
}

/// What is heard next. Where Ctrl-P stops a keyboard it is heard again.
pub(crate) fn hear_on<K: Keyboard>(keyboard: &mut K) -> Result<Hearing, KeyboardEnd>
    ensures cause { IfErr result (λ why. K.ended keyboard.new why) }
{
    match keyboard.hear() {
        Err(KeyboardEnd::Closed) => keyboard.hear(),
        heard => heard,
    }
}

/// Shows the past of a store to the person at the keyboard, in a terminal of so many rows and columns, until they go back
/// to their sitting; and returns the size of the terminal then, and what was copied last. First it hears the press that
/// called for it. Where the store keeps no past, or one that can't be read, the line below says so, over the desktop as it
/// is. What the mouse does at a moment is done in memory alone, and what is selected there is copied, and given to the
/// clipboard of the terminal.
///
/// The store is only read, unless the person turns it back to the moment that is shown. Errors: `Closed`, where nothing is
/// heard, and the others by their names. After `Fault` and `Memory` the store may have to be opened again.
pub fn view<K: Keyboard, W: AnswerWriter, D: Disk>(
    alloc: Global,
    keyboard: &mut K,
    writer: &mut W,
    store: &mut Store<D>,
    window: Window,
) -> Result<Viewed, ViewEnd>
    requires { store.old.must_reopen ≡ false }
    ensures copied { IfOk result (λ viewed. IfSome viewed.copied
        (IsTextCopied D.Disk store.old)) }
    ensures viewed { OnOk result (IsViewed D.Disk store.old store.new (W.contents writer.old)
        (W.contents writer.new)) }
    ensures any_moment { LeavesViewed D.Disk store.old store.new (W.contents writer.old)
        (W.contents writer.new) }
    ensures usable { IsUsableBehind result store.new }
    ensures ended { IfErr result (EndsViewBy (K.ended keyboard.new)) }
    ensures output { CountsViewOutput result (W.failures writer.old) (W.failures writer.new) }
{
    let _called = keyboard.hear()?;
    match Viewer::of(alloc, store, window)? {
        None => serve_absent(alloc, keyboard, writer, store, window),
        Some(mut viewer) => viewer.serve(alloc, keyboard, writer, store),
    }
}

/// What was copied is kept, if that is any text. Returns what gives it to the clipboard.
fn keep(kept: &mut Option<PastText>, copied: Copied) -> Vec<u8>
    ensures clip { result.items ≡ copied.clip.items }
    ensures kept { kept.new ≡ copy_kept kept.old copied.text.items }
{
    let Copied { text, words, clip } = copied;
    drop(words);
    if !text.is_empty() {
        *kept = Some(PastText::of(text));
    }
    clip
}

impl Viewer {
    /// A person to whom the present is shown. None where the past of the store can't be read.
    ///
    /// Errors: `Memory`; `Fault`.
    fn of<D: Disk>(
        alloc: Global,
        store: &mut Store<D>,
        window: Window,
    ) -> Result<Option<Viewer>, ViewEnd>
        requires { store.old.must_reopen ≡ false }
        ensures is { IfOk result (λ found. IfSome found (λ viewer.
            IsLookerOf D.Disk viewer.looker store.new)) }
        ensures none { IfOk result (λ found. IfSome found (λ viewer. viewer.copied ≡ None)) }
        ensures still { IsOnlyReadFrom D.Disk store.old store.new }
        ensures cause { IfErr result IsOfStore }
    {
        match Looker::of(alloc, store)? {
            None => Ok(None),
            Some(looker) => Ok(Some(Viewer {
                looker,
                parser: Parser::new(),
                pane: Pane::new(window),
                copied: None,
                due: true,
            })),
        }
    }

    /// Turns, one after another, until the person leaves.
    fn serve<K: Keyboard, W: AnswerWriter, D: Disk>(
        &mut self,
        alloc: Global,
        keyboard: &mut K,
        writer: &mut W,
        store: &mut Store<D>,
    ) -> Result<Viewed, ViewEnd>
        requires { store.old.must_reopen ≡ false }
        ensures copied { IfOk result (λ viewed. IsLookerOf D.Disk self.old.looker store.old
            → KeepsCopied D.Disk store.old self.old.copied viewed.copied) }
        ensures viewed { OnOk result (IsLookerOf D.Disk self.old.looker store.old
            → IsViewed D.Disk store.old store.new (W.contents writer.old) (W.contents writer.new)) }
        ensures any_moment { IsLookerOf D.Disk self.old.looker store.old
            → LeavesViewed D.Disk store.old store.new (W.contents writer.old)
            (W.contents writer.new) }
        ensures usable { IsUsableBehind result store.new }
        ensures ended { IfErr result (EndsViewBy (K.ended keyboard.new)) }
        ensures output { CountsViewOutput result (W.failures writer.old) (W.failures writer.new) }
    {
        for _count in 0..MOST_TURNS {
            store.shows_what_crashes_leave();
            self.show_if_due(alloc, store, writer)?;
            let hearing = hear_on(keyboard)?;
            match self.take(alloc, writer, store, hearing.as_slice())? {
                Doing::Leaves => return Ok(self.leave()),
                Doing::Stays => {}
            }
        }
        Err(ViewEnd::TooLong)
    }

    /// What the person leaves with.
    fn leave(&mut self) -> Viewed
        ensures { result.copied ≡ self.old.copied }
    {
        Viewed {
            window: self.pane.window,
            copied: self.copied.take(),
        }
    }

    /// Shows what is in memory, where anything that is shown may have changed.
    ///
    /// Errors: those of `show`.
    fn show_if_due<W: AnswerWriter, D: Disk>(
        &mut self,
        alloc: Global,
        store: &Store<D>,
        writer: &mut W,
    ) -> Result<(), ViewEnd>
        ensures looker { IsLookerOf D.Disk self.old.looker store.now
            → IsLookerOf D.Disk self.new.looker store.now }
        ensures copied { self.new.copied ≡ self.old.copied }
        ensures scenes { OnOk result (IsLookerOf D.Disk self.old.looker store.now
            → TakesSome D.Disk store.now (W.contents writer.old) (W.contents writer.new)) }
        ensures output { CountsViewOutput result (W.failures writer.old) (W.failures writer.new) }
        ensures cause { IfErr result (EndsViewBy (λ why. ⊥)) }
    {
        if self.due {
            self.show(alloc, store, writer)
        } else {
            Ok(())
        }
    }

    /// Shows what is in memory.
    ///
    /// Errors: `Memory`; `Output`.
    fn show<W: AnswerWriter, D: Disk>(
        &mut self,
        alloc: Global,
        store: &Store<D>,
        writer: &mut W,
    ) -> Result<(), ViewEnd>
        ensures looker { IsLookerOf D.Disk self.old.looker store.now
            → IsLookerOf D.Disk self.new.looker store.now }
        ensures shown { self.new.looker.shown ≡ self.old.looker.shown }
        ensures copied { self.new.copied ≡ self.old.copied }
        ensures scenes { OnOk result (IsLookerOf D.Disk self.old.looker store.now
            → TakesScenes D.Disk store.now (Some self.new.looker.shown) (W.contents writer.old)
            (W.contents writer.new)) }
        ensures output { CountsViewOutput result (W.failures writer.old) (W.failures writer.new) }
        ensures cause { IfErr result (EndsViewBy (λ why. ⊥)) }
    {
        let line = self.looker.line(alloc)?;
        self.show_saying(alloc, store, writer, line.as_slice(), b"")
    }

    /// Shows what is in memory, and says this below, and sends this, which gives the clipboard a text.
    ///
    /// Errors: `Memory`; `Output`.
    fn show_saying<W: AnswerWriter, D: Disk>(
        &mut self,
        alloc: Global,
        _store: &Store<D>,
        writer: &mut W,
        line: &[u8],
        clip: &[u8],
    ) -> Result<(), ViewEnd>
        ensures looker { IsLookerOf D.Disk self.old.looker _store.now
            → IsLookerOf D.Disk self.new.looker _store.now }
        ensures shown { self.new.looker.shown ≡ self.old.looker.shown }
        ensures copied { self.new.copied ≡ self.old.copied }
        ensures scenes { OnOk result (IsLookerOf D.Disk self.old.looker _store.now
            → TellsBelow D.Disk self.old.looker.shown _store.now
            self.old.looker.look.shown.desktop clip.now line.now
            → TakesScenes D.Disk _store.now (Some self.new.looker.shown) (W.contents writer.old)
            (W.contents writer.new)) }
        ensures output { CountsViewOutput result (W.failures writer.old) (W.failures writer.new) }
        ensures cause { IfErr result (EndsViewBy (λ why. ⊥)) }
    {
        self.due = false;
        let mut screen = Screen::new();
        self.looker.screen(alloc, &mut screen)?;
        self.pane.ring_where(self.looker.take_ring());
        Ok(self.pane.show(writer, &screen, line, clip)?)
    }

    /// Gives the clipboard what is selected at the moment that is wished, which is shown, and the line below says so. Where
    /// that moment can't be shown, nothing is copied.
    ///
    /// Errors: `Memory`; `Fault`; `Output`.
    fn copy<W: AnswerWriter, D: Disk>(
        &mut self,
        alloc: Global,
        writer: &mut W,
        store: &mut Store<D>,
    ) -> Result<(), ViewEnd>
        requires { store.old.must_reopen ≡ false }
        ensures looks { OnOk result (LooksOn D.Disk self.old.looker self.new.looker store.old
            store.new (W.contents writer.old) (W.contents writer.new)) }
        ensures copied { OnOk result (IsLookerOf D.Disk self.old.looker store.old
            → KeepsCopied D.Disk store.old self.old.copied self.new.copied) }
        ensures still { IsOnlyReadFrom D.Disk store.old store.new }
        ensures output { CountsViewOutput result (W.failures writer.old) (W.failures writer.new) }
        ensures cause { IfErr result (EndsViewBy (λ why. ⊥)) }
    {
        if !self.come(alloc, store)? {
            return Ok(());
        }
        self.show_copy(alloc, store, writer)
    }

    /// Shows what is in memory, gives the clipboard what is selected there, and says below what was copied. It rings where
    /// nothing was.
    ///
    /// Errors: `Memory`; `Fault`; `Output`.
    fn show_copy<W: AnswerWriter, D: Disk>(
        &mut self,
        alloc: Global,
        store: &Store<D>,
        writer: &mut W,
    ) -> Result<(), ViewEnd>
        ensures looker { IsLookerOf D.Disk self.old.looker store.now
            → IsLookerOf D.Disk self.new.looker store.now }
        ensures copied { OnOk result (self.new.copied ≡ copy_kept self.old.copied
            (exported_selection self.old.looker.look.shown.desktop)) }
        ensures scenes { OnOk result (IsLookerOf D.Disk self.old.looker store.now
            → TakesScenes D.Disk store.now (Some self.new.looker.shown) (W.contents writer.old)
            (W.contents writer.new)) }
        ensures output { CountsViewOutput result (W.failures writer.old) (W.failures writer.new) }
        ensures cause { IfErr result (EndsViewBy (λ why. ⊥)) }
    {
        let copied = copied_of(alloc, &mut self.looker.look.shown)?;
        self.looker.copied(copied.clip.is_empty());
        let last = self.looker.moments.last();
        let line = moment_line(alloc, self.looker.shown, last, copied.words.as_slice())?;
        let clip = keep(&mut self.copied, copied);
        self.show_saying(alloc, store, writer, line.as_slice(), clip.as_slice())
    }

    /// Does what is pressed by all that was heard.
    ///
    /// Errors: `Memory`; `Fault`; `Output`.
    fn take<W: AnswerWriter, D: Disk>(
        &mut self,
        alloc: Global,
        writer: &mut W,
        store: &mut Store<D>,
        hearing: &[Heard],
    ) -> Result<Doing, ViewEnd>
        requires { store.old.must_reopen ≡ false }
        ensures does { IfOk result (λ doing. DoesKey D.Disk doing self.old.looker self.new.looker
            store.old store.new (W.contents writer.old) (W.contents writer.new)) }
        ensures copied { IfOk result (λ doing. IsLookerOf D.Disk self.old.looker store.old
            → KeepsCopied D.Disk store.old self.old.copied self.new.copied) }
        ensures any_moment { IsLookerOf D.Disk self.old.looker store.old
            → LeavesViewed D.Disk store.old store.new (W.contents writer.old)
            (W.contents writer.new) }
        ensures usable { IsUsableBehind result store.new }
        ensures output { CountsViewOutput result (W.failures writer.old) (W.failures writer.new) }
        ensures cause { IfErr result (EndsViewBy (λ why. ⊥)) }
    {
        for heard in hearing {
            store.shows_what_crashes_leave();
            let presses = self.parser.take(*heard);
            match self.press_each(alloc, writer, store, presses)? {
                Doing::Leaves => return Ok(Doing::Leaves),
                Doing::Stays => {}
            }
        }
        store.shows_what_crashes_leave();
        self.due = self.due || self.looker.seeks();
        let comes = self.looker.go_on(alloc, store)?;
        self.pane.follow_where(comes);
        self.pane.ask_where(self.looker.seeks());
        Ok(Doing::Stays)
    }

    /// Does at most two presses.
    ///
    /// Errors: those of `press`.
    fn press_each<W: AnswerWriter, D: Disk>(
        &mut self,
        alloc: Global,
        writer: &mut W,
        store: &mut Store<D>,
        presses: Presses,
    ) -> Result<Doing, ViewEnd>
        requires { store.old.must_reopen ≡ false }
        ensures does { IfOk result (λ doing. DoesKey D.Disk doing self.old.looker self.new.looker
            store.old store.new (W.contents writer.old) (W.contents writer.new)) }
        ensures copied { IfOk result (λ doing. IsLookerOf D.Disk self.old.looker store.old
            → KeepsCopied D.Disk store.old self.old.copied self.new.copied) }
        ensures any_moment { IsLookerOf D.Disk self.old.looker store.old
            → LeavesViewed D.Disk store.old store.new (W.contents writer.old)
            (W.contents writer.new) }
        ensures usable { IsUsableBehind result store.new }
        ensures output { CountsViewOutput result (W.failures writer.old) (W.failures writer.new) }
        ensures cause { IfErr result (EndsViewBy (λ why. ⊥)) }
    {
        match presses {
            Presses::Nothing => Ok(Doing::Stays),
            Presses::One(press) => self.press(alloc, writer, store, press),
            Presses::Two(first, second) => match self.press(alloc, writer, store, first)? {
                Doing::Leaves => Ok(Doing::Leaves),
                Doing::Stays => {
                    store.shows_what_crashes_leave();
                    self.press(alloc, writer, store, second)
                }
            },
        }
    }

    /// Does what is pressed.
    ///
    /// Errors: `Memory`; `Fault`; `Output`.
    fn press<W: AnswerWriter, D: Disk>(
        &mut self,
        alloc: Global,
        writer: &mut W,
        store: &mut Store<D>,
        press: Press,
    ) -> Result<Doing, ViewEnd>
        requires { store.old.must_reopen ≡ false }
        ensures does { IfOk result (λ doing. DoesKey D.Disk doing self.old.looker self.new.looker
            store.old store.new (W.contents writer.old) (W.contents writer.new)) }
        ensures copied { IfOk result (λ doing. IsLookerOf D.Disk self.old.looker store.old
            → KeepsCopied D.Disk store.old self.old.copied self.new.copied) }
        ensures any_moment { IsLookerOf D.Disk self.old.looker store.old
            → LeavesViewed D.Disk store.old store.new (W.contents writer.old)
            (W.contents writer.new) }
        ensures usable { IsUsableBehind result store.new }
        ensures output { CountsViewOutput result (W.failures writer.old) (W.failures writer.new) }
        ensures cause { IfErr result (EndsViewBy (λ why. ⊥)) }
    {
        self.due = true;
        match self.looker.wish_of(self.pane.sight(), press) {
            Wish::Turn => self.turn(alloc, writer, store),
            Wish::Leave => Ok(Doing::Leaves),
            Wish::Copy => {
                self.copy(alloc, writer, store)?;
                Ok(Doing::Stays)
            }
            wish => {
                self.pane.change(&wish);
                self.looker.change(alloc, store, wish)?;
                Ok(Doing::Stays)
            }
        }
    }

    /// Turns the store back to the moment that is wished, which is shown first, and then the person leaves. Where that is the
    /// present nothing is turned, and where it can't be shown the person looks on.
    ///
    /// Errors: `Memory`; `Fault`; `Output`.
    fn turn<W: AnswerWriter, D: Disk>(
        &mut self,
        alloc: Global,
        writer: &mut W,
        store: &mut Store<D>,
    ) -> Result<Doing, ViewEnd>
        requires { store.old.must_reopen ≡ false }
        ensures copied { self.new.copied ≡ self.old.copied }
        ensures does { IfOk result (λ doing. DoesKey D.Disk doing self.old.looker self.new.looker
            store.old store.new (W.contents writer.old) (W.contents writer.new)) }
        ensures any_moment { IsLookerOf D.Disk self.old.looker store.old
            → LeavesViewed D.Disk store.old store.new (W.contents writer.old)
            (W.contents writer.new) }
        ensures usable { IsUsableBehind result store.new }
        ensures output { CountsViewOutput result (W.failures writer.old) (W.failures writer.new) }
        ensures cause { IfErr result (EndsViewBy (λ why. ⊥)) }
    {
        if !self.come(alloc, store)? {
            return Ok(Doing::Stays);
        }
        store.shows_what_crashes_leave();
        self.show(alloc, store, writer)?;
        if self.looker.is_present() {
            return Ok(Doing::Leaves);
        }
        self.turn_back(alloc, store)
    }

    /// The moment that is wished comes into memory, where another one is there. Whether it is there then.
    ///
    /// Errors: `Memory`; `Fault`.
    fn come<D: Disk>(&mut self, alloc: Global, store: &mut Store<D>) -> Result<bool, ViewEnd>
        requires { store.old.must_reopen ≡ false }
        ensures copied { self.new.copied ≡ self.old.copied }
        ensures looker { OnOk result (IsLookerOf D.Disk self.old.looker store.old
            → IsLookerOf D.Disk self.new.looker store.new) }
        ensures still { IsOnlyReadFrom D.Disk store.old store.new }
        ensures cause { IfErr result IsOfStore }
    {
        if self.looker.has_come() {
            return Ok(true);
        }
        let comes = self.looker.come(alloc, store)?;
        self.pane.follow_where(comes);
        Ok(comes)
    }

    /// Turns the store back to the moment that is shown. Where the past has no room for that, the person looks on.
    ///
    /// Errors: `Memory`; `Fault`.
    fn turn_back<D: Disk>(&mut self, alloc: Global, store: &mut Store<D>) -> Result<Doing, ViewEnd>
        requires { store.old.must_reopen ≡ false }
        ensures copied { self.new.copied ≡ self.old.copied }
        ensures does { IfOk result (λ doing. TurnsOrStays D.Disk doing self.old.looker
            self.new.looker store.old store.new) }
        ensures any_moment { IsLookerOf D.Disk self.old.looker store.old
            → StaysOrTurns D.Disk self.old.looker.shown store.old store.new }
        ensures usable { IsUsableBehind result store.new }
        ensures cause { IfErr result IsOfStore }
    {
        if self.looker.turn_back(alloc, store)? {
            Ok(Doing::Leaves)
        } else {
            Ok(Doing::Stays)
        }
    }
}
