//! A person before a past: which moment they see, and what a press does to that.
ghost use Rattle.std.specs.Prelude.{◌≡◌, false, is_some, true, IfOk, IfSome, OnOk};
ghost use Rattle.desktop_definitions.specs.Shown.{shown_screen};
ghost use Rattle.past_pages.specs.Reading.{IsOnlyReadFrom};
ghost use Rattle.desk_past.specs.Turning.{HasTurnedFar, TurnsFar};
ghost use Rattle.all_moments.specs.Parts.{AreAllMomentsOf, IsNearest};
ghost use Rattle.past_looks.specs.Looking.{ComesOfPress, IsAlike, IsLookerOf, IsSameLook, ComesBackTo, KeepsUntouched, StaysOrTurns};
ghost use Rattle.past_looks.specs.Looking.{is_of_mouse, looker_line, untouched_of};
ghost use Rattle.past_looks.specs.Words.{said_words};

use crate::hand::{PAGE_EVENTS, ViewHand, Way, Wish};
use crate::words::{asked_line, moment_line, seeking_line};
use all_moments::AllMoments;
use desk_journal::{Error, Store, Wish as Lines};
use desk_past::{copy_of, turn_far, turn_to};
use desktop_definitions::Reply;
use event_bytes::Event;
use past_moments::{Look, Sought, of_memory};
use screen_cells::Screen;
use sector_disk::{Disk, MemoryDisk};
use std::alloc::{AllocError, Global};
use terminal_presses::{Press, Sight, Spot};

/// By how many lines a text moves with the wheel, as in a sitting.
const WHEEL_LINES: u32 = 3;

/// What the line below says behind the moment that is shown.
#[derive(Clone, Copy, Debug, PartialEq, Eq)]
pub enum Said {
    /// Which keys there are.
    Keys,
    /// What led to the moment.
    Deed,
    /// That what the mouse does there is done in memory alone.
    Tried,
    /// That a key stopped what was sought.
    Stopped,
    /// That the word didn't go from the screen before.
    NotThere,
    /// That there is no word to be sought.
    NoWord,
    /// That the past has no room for a turn.
    NoRoom,
    /// That the moment can't be worked out.
    Unread,
}

/// What becomes of a look at the past.
#[derive(Clone, Copy, Debug, PartialEq, Eq)]
pub enum Doing {
    /// The person looks on.
    Stays,
    /// The person goes back to the present.
    Leaves,
    /// The store was turned back to the moment that was shown, and the person goes back to that.
    Turned,
}

/// A person before a past.
#[derive(Drop)]
pub struct Looker {
    pub moments: AllMoments,
    hand: ViewHand,
    /// The moment that is shown, which one is to be shown, and the former in memory, behind what the mouse has done there.
    pub shown: u64,
    wished: u64,
    pub look: Look,
    /// That moment as it was, where the mouse has done anything.
    pub untouched: Option<Store<MemoryDisk>>,
    said: Said,
    /// Up to which moment it is sought next for the word, while it is.
    seeks: Option<u64>,
    /// It is to ring behind the next scene.
    rings: bool,
}

impl Looker {
    /// A person to whom the present is shown. None where the past of the store can't be read, or it keeps none.
    ///
    /// Errors: those of `AllMoments::of` and `AllMoments::look`.
    pub fn of<D: Disk>(alloc: Global, store: &mut Store<D>) -> Result<Option<Looker>, Error>
        requires { store.old.must_reopen ≡ false }
        ensures is { IfOk result (λ found. IfSome found (λ looker.
            IsLookerOf D.Disk looker store.new)) }
        ensures still { IsOnlyReadFrom D.Disk store.old store.new }
    {
        let Some(moments) = AllMoments::of(alloc, store)? else {
            return Ok(None);
        };
        Looker::with_look(alloc, store, moments)
    }

    /// The same, where these are its moments.
    ///
    /// Errors: those of `AllMoments::look`.
    fn with_look<D: Disk>(
        alloc: Global,
        store: &mut Store<D>,
        moments: AllMoments,
    ) -> Result<Option<Looker>, Error>
        requires { store.old.must_reopen ≡ false }
        ensures is { IfOk result (λ found. IfSome found (λ looker.
            AreAllMomentsOf D.Disk moments store.old → IsLookerOf D.Disk looker store.new)) }
        ensures still { IsOnlyReadFrom D.Disk store.old store.new }
    {
        let mut moments = moments;
        let last = moments.last();
        match moments.look(alloc, store, last) {
            Err(error) => Err(error),
            Ok(None) => Ok(None),
            Ok(Some(look)) => Ok(Some(Looker {
                moments,
                hand: ViewHand::new(),
                shown: last,
                wished: last,
                look,
                untouched: None,
                said: Said::Keys,
                seeks: None,
                rings: false,
            })),
        }
    }

    /// Paints the screen of what is shown.
    ///
    /// Error: `NoMemory`.
    pub fn screen(&mut self, alloc: Global, screen: &mut Screen) -> Result<(), Error>
        ensures shown { OnOk result (screen.new ≡ shown_screen self.old.look.shown.desktop) }
        ensures same { IsAlike self.old self.new }
        ensures line { looker_line self.new ≡ looker_line self.old }
    {
        of_memory(self.look.shown.screen(alloc, screen))
    }

    /// The line below.
    pub fn line(&self, alloc: Global) -> Result<Vec<u8>, AllocError>
        ensures { IfOk result (λ line. line.items ≡ looker_line self.now) }
    {
        if let Some(word) = self.hand.asked() {
            return asked_line(alloc, word);
        }
        if let Some(k) = self.seeks {
            return seeking_line(alloc, k);
        }
        let words = words_of(self.said, self.look.words.as_slice());
        moment_line(alloc, self.shown, self.moments.last(), words)
    }

    /// It rings, where that is to be, and the line below says what led to the moment.
    pub fn copied(&mut self, rings: bool)
        ensures same { IsSameLook self.old self.new }
    {
        self.said = Said::Deed;
        self.rings = self.rings || rings;
    }

    /// Whether it is to ring. It rings once.
    pub fn take_ring(&mut self) -> bool
        ensures same { IsSameLook self.old self.new }
        ensures line { looker_line self.new ≡ looker_line self.old }
    {
        let rings = self.rings;
        self.rings = false;
        rings
    }

    /// Whether it is sought for a word, and so to be gone on.
    pub fn seeks(&self) -> bool
        ensures { result ≡ is_some self.now.seeks }
    {
        self.seeks.is_some()
    }

    /// Whether the moment is shown that is wished.
    pub fn has_come(&self) -> bool {
        self.wished == self.shown
    }

    /// Whether the moment that is shown is the present.
    pub fn is_present(&self) -> bool {
        self.shown >= self.moments.last()
    }

    /// Does what is pressed where this part of the display is in sight, up to that another moment comes into memory. Return
    /// turns the store back to the moment that is shown; it rings where another one is wished already, and leads back where it
    /// is the present. A copy is left to who shows it.
    ///
    /// Errors: those of `change` and `turn_back`.
    pub fn press<D: Disk>(
        &mut self,
        alloc: Global,
        store: &mut Store<D>,
        sight: Sight,
        press: Press,
    ) -> Result<Doing, Error>
        requires { store.old.must_reopen ≡ false }
        ensures does { IfOk result (λ doing. ComesOfPress D.Disk doing self.old self.new store.old
            store.new) }
        ensures any_moment { IsLookerOf D.Disk self.old store.old
            → StaysOrTurns D.Disk self.old.shown store.old store.new }
        ensures usable { OnOk result (store.new.must_reopen ≡ false) }
    {
        match self.wish_of(sight, press) {
            Wish::Turn => self.turn(alloc, store),
            Wish::Leave => Ok(Doing::Leaves),
            wish => {
                self.change(alloc, store, wish)?;
                Ok(Doing::Stays)
            }
        }
    }

    /// What a press comes to, where this part of the display is in sight. While it is sought for a word any key stops that, and
    /// does nothing else.
    pub fn wish_of(&mut self, sight: Sight, press: Press) -> Wish
        ensures same { IsSameLook self.old self.new }
    {
        let wish = self.hand.take(sight, press);
        if self.seeks.is_none() || matches!(wish, Wish::Nothing | Wish::LookAnew | Wish::Fit(..)) {
            return wish;
        }
        self.seeks = None;
        self.said = Said::Stopped;
        Wish::Nothing
    }

    /// Does what leaves the store and the moment that is shown as they are: another moment is wished, or a word is sought, or the
    /// mouse does something in memory. At a key that means nothing it rings, and the line below says which keys there are.
    /// Other wishes do nothing.
    ///
    /// Errors: those of `goal_of`, `point` and `scroll`.
    pub fn change<D: Disk>(
        &mut self,
        alloc: Global,
        store: &mut Store<D>,
        wish: Wish,
    ) -> Result<(), Error>
        requires { store.old.must_reopen ≡ false }
        ensures looker { OnOk result (IsLookerOf D.Disk self.old store.old
            → IsLookerOf D.Disk self.new store.new) }
        ensures shown { self.new.shown ≡ self.old.shown }
        ensures still { IsOnlyReadFrom D.Disk store.old store.new }
    {
        match wish {
            Wish::Go(way) => return self.go(alloc, store, way),
            Wish::Point(event) => return self.point(alloc, store, &event),
            Wish::Wheel(spot, up) => return self.scroll(alloc, store, spot, up),
            Wish::Ring => self.refuse(Said::Keys),
            Wish::Seek => self.seek(),
            Wish::Nothing
            | Wish::Copy
            | Wish::Turn
            | Wish::Leave
            | Wish::LookAnew
            | Wish::Move(_)
            | Wish::Fit(..) => {}
        }
        Ok(())
    }

    /// The mouse does something at the moment that is shown, in memory alone. It rings where that is refused.
    ///
    /// Errors: those of `keep` and `Store::post`, whose faults are want of memory.
    fn point<D: Disk>(
        &mut self,
        alloc: Global,
        _store: &Store<D>,
        event: &Event,
    ) -> Result<(), Error>
        ensures looker { OnOk result (IsLookerOf D.Disk self.old _store.now
            → IsLookerOf D.Disk self.new _store.now) }
        ensures shown { self.new.shown ≡ self.old.shown }
    {
        if !is_of_mouse(event) {
            return Ok(());
        }
        self.keep(alloc)?;
        self.said = Said::Tried;
        let reply = of_memory(self.look.shown.post(alloc, event))?;
        self.rings = self.rings || reply != Reply::Done;
        Ok(())
    }

    /// The wheel is turned at the moment that is shown, up or down: the text at that cell moves, in memory alone. It rings
    /// where it can't.
    ///
    /// Errors: those of `Store::scroll` and `point`.
    fn scroll<D: Disk>(
        &mut self,
        alloc: Global,
        store: &Store<D>,
        spot: Spot,
        up: bool,
    ) -> Result<(), Error>
        ensures looker { OnOk result (IsLookerOf D.Disk self.old store.now
            → IsLookerOf D.Disk self.new store.now) }
        ensures shown { self.new.shown ≡ self.old.shown }
    {
        let cell = Some((spot.x, spot.y));
        let Some(events) = of_memory(self.look.shown.scroll(alloc, cell, turned(up)))? else {
            self.rings = true;
            return Ok(());
        };
        for event in events.as_slice() {
            self.point(alloc, store, event)?;
        }
        Ok(())
    }

    /// The moment that is shown is kept as it was, before the mouse does anything there.
    ///
    /// Errors: those of `copy_of`.
    fn keep(&mut self, alloc: Global) -> Result<(), Error>
        ensures kept { OnOk result (KeepsUntouched self.old self.new) }
        ensures shown { self.new.shown ≡ self.old.shown }
    {
        if self.untouched.is_some() {
            return Ok(());
        }
        let copy = copy_of(alloc, &mut self.look.shown)?;
        self.untouched = Some(copy);
        Ok(())
    }

    /// Another moment is wished. It rings where that is the same one.
    ///
    /// Errors: those of `goal_of` and `nearest`.
    fn go<D: Disk>(&mut self, alloc: Global, store: &mut Store<D>, way: Way) -> Result<(), Error>
        requires { store.old.must_reopen ≡ false }
        ensures looker { OnOk result (IsLookerOf D.Disk self.old store.old
            → IsLookerOf D.Disk self.new store.new) }
        ensures shown { self.new.shown ≡ self.old.shown }
        ensures still { IsOnlyReadFrom D.Disk store.old store.new }
    {
        let to = self.goal_of(alloc, store, way)?;
        let nearest = self.nearest(alloc, store, to)?;
        self.wish(nearest);
        Ok(())
    }

    /// The moment to which a way leads from the one that is wished. It may lie beyond the past.
    ///
    /// Errors: those of `AllMoments::step_back` and `AllMoments::first_of`.
    fn goal_of<D: Disk>(
        &mut self,
        alloc: Global,
        store: &mut Store<D>,
        way: Way,
    ) -> Result<u64, Error>
        requires { store.old.must_reopen ≡ false }
        ensures looker { OnOk result (IsLookerOf D.Disk self.old store.old
            → IsLookerOf D.Disk self.new store.new) }
        ensures shown { self.new.shown ≡ self.old.shown }
        ensures still { IsOnlyReadFrom D.Disk store.old store.new }
    {
        store.shows_what_crashes_leave();
        match way {
            Way::StepBack => Ok(self.moments.step_back(alloc, store, self.wished)?),
            Way::StepForth => Ok(self.moments.step_forth(alloc, store, self.wished)?),
            Way::First => Ok(self.moments.first_of(alloc, store, self.wished)?),
            way => Ok(leap(way, self.wished)),
        }
    }

    /// The moment that is nearest to that one, of those that can be read.
    ///
    /// Errors: those of `AllMoments::nearest`.
    fn nearest<D: Disk>(
        &mut self,
        alloc: Global,
        store: &mut Store<D>,
        to: u64,
    ) -> Result<u64, Error>
        requires { store.old.must_reopen ≡ false }
        ensures nearest { IfOk result (λ at. IsNearest to at self.new.moments) }
        ensures looker { OnOk result (IsLookerOf D.Disk self.old store.old
            → IsLookerOf D.Disk self.new store.new) }
        ensures shown { self.new.shown ≡ self.old.shown }
        ensures still { IsOnlyReadFrom D.Disk store.old store.new }
    {
        store.shows_what_crashes_leave();
        self.moments.nearest(alloc, store, to)
    }

    /// That moment is wished.
    fn wish(&mut self, to: u64)
        ensures same { IsSameLook self.old self.new }
    {
        if to == self.wished {
            self.rings = true;
        }
        self.wished = to;
        self.said = Said::Deed;
    }

    /// It is sought further, where that is to be, and the moment that is wished comes into memory. Whether another one is shown
    /// then.
    ///
    /// Errors: those of `seek_on` and `come`.
    pub fn go_on<D: Disk>(&mut self, alloc: Global, store: &mut Store<D>) -> Result<bool, Error>
        requires { store.old.must_reopen ≡ false }
        ensures looker { OnOk result (IsLookerOf D.Disk self.old store.old
            → IsLookerOf D.Disk self.new store.new) }
        ensures still { IsOnlyReadFrom D.Disk store.old store.new }
    {
        self.seek_on(alloc, store)?;
        self.come(alloc, store)
    }

    /// The moment that is wished comes into memory, where another one is there. Whether it has come.
    ///
    /// Errors: those of `AllMoments::look`.
    pub fn come<D: Disk>(&mut self, alloc: Global, store: &mut Store<D>) -> Result<bool, Error>
        requires { store.old.must_reopen ≡ false }
        ensures looker { OnOk result (IsLookerOf D.Disk self.old store.old
            → IsLookerOf D.Disk self.new store.new) }
        ensures still { IsOnlyReadFrom D.Disk store.old store.new }
    {
        if self.has_come() {
            return Ok(false);
        }
        store.shows_what_crashes_leave();
        match self.moments.look(alloc, store, self.wished)? {
            None => {
                self.wished = self.shown;
                self.refuse(Said::Unread);
                Ok(false)
            }
            Some(look) => {
                self.look = look;
                self.untouched = None;
                self.shown = self.wished;
                Ok(true)
            }
        }
    }

    /// It rings, and that is said.
    fn refuse(&mut self, said: Said)
        ensures same { IsSameLook self.old self.new }
    {
        self.said = said;
        self.rings = true;
    }

    /// From now on it is sought, before the moment that is wished, for the last one at which a word stood on the screen that
    /// wasn't there at the next one.
    fn seek(&mut self)
        ensures same { IsSameLook self.old self.new }
    {
        if self.hand.sought().is_empty() {
            self.refuse(Said::NoWord);
        } else {
            self.seeks = Some(self.wished);
        }
    }

    /// It is sought further, where that is to be, through a page.
    ///
    /// Errors: those of `AllMoments::seek_page`.
    fn seek_on<D: Disk>(&mut self, alloc: Global, store: &mut Store<D>) -> Result<(), Error>
        requires { store.old.must_reopen ≡ false }
        ensures looker { OnOk result (IsLookerOf D.Disk self.old store.old
            → IsLookerOf D.Disk self.new store.new) }
        ensures still { IsOnlyReadFrom D.Disk store.old store.new }
    {
        let Some(k) = self.seeks else {
            return Ok(());
        };
        store.shows_what_crashes_leave();
        let sought = self.moments.seek_page(alloc, store, k, self.hand.sought())?;
        self.note(sought);
        Ok(())
    }

    /// This became of the word that is sought, in a page.
    fn note(&mut self, sought: Sought)
        ensures same { IsSameLook self.old self.new }
    {
        self.seeks = None;
        match sought {
            Sought::At(k) => self.wish(k),
            Sought::Before(k) => self.seeks = Some(k),
            Sought::Nowhere => self.refuse(Said::NotThere),
        }
    }

    /// Turns the store back to the moment that is shown, and the person goes back to that. Where it is the present nothing is
    /// turned, where another moment is wished that is shown first, and where the past has no room for a turn the person looks
    /// on.
    ///
    /// Errors: those of `turn_back`.
    fn turn<D: Disk>(&mut self, alloc: Global, store: &mut Store<D>) -> Result<Doing, Error>
        requires { store.old.must_reopen ≡ false }
        ensures does { IfOk result (λ doing. ComesOfPress D.Disk doing self.old self.new store.old
            store.new) }
        ensures any_moment { IsLookerOf D.Disk self.old store.old
            → StaysOrTurns D.Disk self.old.shown store.old store.new }
        ensures usable { OnOk result (store.new.must_reopen ≡ false) }
    {
        store.shows_what_crashes_leave();
        if !self.has_come() {
            self.rings = true;
            return Ok(Doing::Stays);
        }
        if self.is_present() {
            return Ok(Doing::Leaves);
        }
        if self.turn_back(alloc, store)? {
            Ok(Doing::Turned)
        } else {
            Ok(Doing::Stays)
        }
    }

    /// A copy of the moment that is shown, as it was before the mouse did anything.
    ///
    /// Errors: those of `copy_of`.
    fn moment(&mut self, alloc: Global) -> Result<Store<MemoryDisk>, Error>
        ensures copy { IfOk result (λ copy. copy.desktop ≡ untouched_of self.old) }
        ensures same { IsAlike self.old self.new }
    {
        match &mut self.untouched {
            Some(moment) => copy_of(alloc, moment),
            None => copy_of(alloc, &mut self.look.shown),
        }
    }

    /// Turns the store back to the moment that is shown, of the part in use or of a former one. False where the past has no room
    /// for it: then it rings, and the store is only read.
    ///
    /// Errors: those of `turn_former`, `copy_of`, `Store::gathered` and `turn_to`.
    pub fn turn_back<D: Disk>(&mut self, alloc: Global, store: &mut Store<D>) -> Result<bool, Error>
        requires { store.old.must_reopen ≡ false }
        ensures turned { IfOk result (λ done. done ≡ true → IsLookerOf D.Disk self.old store.old
            → ComesBackTo D.Disk self.old.shown store.old store.new) }
        ensures stays { IfOk result (λ done. done ≡ false
            → IsOnlyReadFrom D.Disk store.old store.new
            × (IsLookerOf D.Disk self.old store.old → IsLookerOf D.Disk self.new store.new)) }
        ensures shown { self.new.shown ≡ self.old.shown }
        ensures any_moment { IsLookerOf D.Disk self.old store.old
            → StaysOrTurns D.Disk self.old.shown store.old store.new }
        ensures usable { OnOk result (store.new.must_reopen ≡ false) }
    {
        store.shows_what_crashes_leave();
        let shown = self.shown;
        if self.moments.is_former(shown) {
            return self.turn_former(alloc, store);
        }
        let copy = self.moment(alloc)?;
        let to = of_memory(copy.gathered(alloc))?;
        if turn_to(alloc, store, shown, to)? {
            Ok(true)
        } else {
            self.refuse(Said::NoRoom);
            Ok(false)
        }
    }

    /// The same, where that moment is one of a former part: its desktop is worked out anew, for a page that has it.
    ///
    /// Errors: those of `turn_far`.
    fn turn_former<D: Disk>(&mut self, alloc: Global, store: &mut Store<D>) -> Result<bool, Error>
        ensures turned { IfOk result (λ done. done ≡ true
            → HasTurnedFar D.Disk self.old.shown store.old store.new) }
        ensures stays { IfOk result (λ done. done ≡ false
            → IsOnlyReadFrom D.Disk store.old store.new) }
        ensures same { IsSameLook self.old self.new }
        ensures any_moment { TurnsFar D.Disk self.old.shown store.old store.new }
        ensures usable { OnOk result (store.new.must_reopen ≡ false) }
    {
        if turn_far(alloc, store, self.shown)? {
            Ok(true)
        } else {
            self.refuse(Said::NoRoom);
            Ok(false)
        }
    }
}

/// How far a text moves with the wheel.
fn turned(up: bool) -> Lines {
    if up {
        Lines::Up(WHEEL_LINES)
    } else {
        Lines::Down(WHEEL_LINES)
    }
}

/// Whether the mouse does this.
fn is_of_mouse(event: &Event) -> bool
    ensures { result ≡ is_of_mouse event.now }
{
    matches!(event, Event::Point { .. })
}

/// The moment to which a way leads from moment `k`, where that is no step of a hand.
fn leap(way: Way, k: u64) -> u64 {
    match way {
        Way::Back | Way::StepBack => k.saturating_sub(1),
        Way::Forth | Way::StepForth => k.saturating_add(1),
        Way::PageBack => k.saturating_sub(PAGE_EVENTS),
        Way::PageForth => k.saturating_add(PAGE_EVENTS),
        Way::First => 0,
        Way::Last => u64::MAX,
    }
}

/// What is said, where these words tell what led to the moment that is shown.
fn words_of(said: Said, led: &[u8]) -> &[u8]
    ensures { result.now ≡ said_words said led.now }
{
    match said {
        Said::Keys => b"Escape leaves, Left back, / seeks, Return turns back",
        Said::Deed => led,
        Said::Tried => b"this is in memory alone: Ctrl-C copies what is selected",
        Said::Stopped => b"a key stopped the search",
        Said::NotThere => b"that word didn't go from the screen before",
        Said::NoWord => b"type the word behind / first",
        Said::NoRoom => b"the past has no room for a turn",
        Said::Unread => b"what was before can't be read",
    }
}
