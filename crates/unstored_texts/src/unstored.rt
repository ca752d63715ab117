//! The texts, and what becomes of each.
ghost use Rattle.std.specs.Prelude.{◌≡◌, false, IfOk};
ghost use Rattle.unstored_texts.specs.declared.unstored.Fate.TheVariants.{Left};

use arrayvec::ArrayVec;
use desk_journal::{CaretCommand, Error, KeyWish, Loss, Store};
use desktop_definitions::{Entry, Reply};
use event_bytes::{Event, Keys};
use screen_cells::Screen;
use screen_reading::{MOST_WORD, called_word, word_from};
use sector_disk::MemoryDisk;
use std::alloc::{AllocError, Global};
use std::str::from_utf8;
use viewer_tracks::{COLUMNS, Place};

/// More ids than viewers can have.
const MOST_IDS: u16 = 1024;

/// More rounds than there can be tracks over one another.
const MOST_ROUNDS: u8 = 32;

/// What became of a text that no document has.
#[derive(Clone, Copy, Debug, PartialEq, Eq)]
pub enum Fate {
    /// It is a document of the copy by now.
    Kept,
    /// It isn't, since another one of its name is.
    NameTaken,
    /// It isn't.
    Left,
}

/// A text that no document has.
#[derive(Drop)]
pub struct Unstored {
    name: ArrayVec<u8, MOST_WORD>,
    /// How many characters it has.
    pub len: u32,
    /// What became of it.
    pub fate: Fate,
}

impl Unstored {
    /// The name in its menu.
    pub fn name(&self) -> &str {
        from_utf8(self.name.as_slice()).unwrap_or("?")
    }
}

/// Texts on their way to be found.
#[derive(Drop)]
struct Search<'a> {
    alloc: Global,
    store: &'a mut Store<MemoryDisk>,
    /// Whether each is to become a document.
    keeps: bool,
    found: Vec<Unstored>,
}

/// The texts of a copy of a store that no document has, each of which becomes one first if that is asked for; of several of
/// one name the first that is closed does. Afterwards the copy has no viewers that can be closed.
pub fn unstored_in(
    alloc: Global,
    store: &mut Store<MemoryDisk>,
    keeps: bool,
) -> Result<Vec<Unstored>, Error> {
    let mut search = Search {
        alloc,
        store,
        keeps,
        found: Vec::new(alloc),
    };
    let done = search.close_all();
    let Search {
        alloc: _,
        store: _,
        keeps: _,
        found,
    } = search;
    match done {
        Ok(()) => Ok(found),
        Err(error) => Err(error),
    }
}

impl Search<'_> {
    /// Closes viewers until none is closed any more.
    fn close_all(&mut self) -> Result<(), Error> {
        for _ in 0..MOST_ROUNDS {
            if !self.close_shown()? {
                return Ok(());
            }
        }
        Ok(())
    }

    /// Closes the viewers that are shown, the last ids first, and returns whether any was closed.
    fn close_shown(&mut self) -> Result<bool, Error> {
        let mut some = false;
        for id in (0..MOST_IDS).rev() {
            if self.close_viewer(id)? {
                some = true;
            }
        }
        Ok(some)
    }

    /// Closes the viewer of an id, if it is shown and isn't that of the log, and returns whether it did.
    fn close_viewer(&mut self, id: u16) -> Result<bool, Error> {
        match self.store.shown_viewer(id)? {
            Some(viewer) if !viewer.is_log => self.close_at(viewer.place),
            _ => Ok(false),
        }
    }

    /// Closes the viewer that stands there, if its menu shows the word that does, and returns whether it did. A text that
    /// no document has is found.
    fn close_at(&mut self, place: Place) -> Result<bool, Error> {
        let screen = self.screen()?;
        let Some(cell) = self.close_word(&screen, place)? else {
            return Ok(false);
        };
        if let Some(Loss::Closed(_)) = self.store.loss_at(None, cell, cell)? {
            self.find(&screen, place)?;
        }
        self.call(cell)
    }

    /// The screen.
    fn screen(&mut self) -> Result<Screen, Error> {
        let mut screen = Screen::new();
        self.store.screen(self.alloc, &mut screen)?;
        Ok(screen)
    }

    /// A cell of the word in a viewer's menu that closes it.
    fn close_word(&self, screen: &Screen, place: Place) -> Result<Option<(u8, u8)>, Error> {
        let y = place.top.saturating_sub(1);
        for x in place.x..COLUMNS {
            let is_word = called_word(screen, x, y).as_slice() == b"System.Close".as_slice();
            if is_word && self.store.place_at((x, y))? == Some(place) {
                return Ok(Some((x, y)));
            }
        }
        Ok(None)
    }

    /// Adds the text of the viewer that stands there.
    fn find(&mut self, screen: &Screen, place: Place) -> Result<(), Error> {
        let name = word_from(screen, place.x, place.top.saturating_sub(1));
        let len = self.length_at(place)?;
        let fate = self.fate_of(name.as_slice(), place)?;
        Ok(self.add(Unstored { name, len, fate })?)
    }

    /// Adds a text.
    fn add(&mut self, text: Unstored) -> Result<(), AllocError> {
        self.found.push(text)?;
        Ok(())
    }

    /// What becomes of the text of this name in the viewer that stands there: where none is to become a document it is left.
    fn fate_of(&mut self, name: &[u8], place: Place) -> Result<Fate, Error>
        ensures unasked { self.old.keeps ≡ false → IfOk result (λ fate. fate ≡ Left) }
    {
        if !self.keeps {
            return Ok(Fate::Left);
        }
        for text in self.found.as_slice() {
            if text.name.as_slice() == name && text.fate == Fate::Kept {
                return Ok(Fate::NameTaken);
            }
        }
        if self.keep(place)? {
            Ok(Fate::Kept)
        } else {
            Ok(Fate::Left)
        }
    }

    /// How many characters the text has of the viewer that stands there, and is shown: its track lies over others.
    fn length_at(&mut self, place: Place) -> Result<u32, Error> {
        let mut length = 0;
        let entries = self.store.list(self.alloc)?;
        for entry in entries.as_slice() {
            if let Entry::Viewer {
                x,
                bottom,
                top,
                len,
                ..
            } = entry
            {
                if *x == place.x && *bottom == place.bottom && *top == place.top {
                    length = *len;
                }
            }
        }
        Ok(length)
    }

    /// Has the text of the viewer that stands there stored, as Ctrl-S does, and returns whether it was.
    fn keep(&mut self, place: Place) -> Result<bool, Error> {
        let begin = (place.x.saturating_add(1), place.top.saturating_sub(2));
        let _reply = self.click(Keys::Left, begin)?;
        let wish = KeyWish::Call(CaretCommand::Store);
        match self.store.lead(self.alloc, wish)? {
            Err(_) => Ok(false),
            Ok(events) => self.post_all(events.as_slice()),
        }
    }

    /// Posts events, and returns whether the last of them was done.
    fn post_all(&mut self, events: &[Event]) -> Result<bool, Error> {
        let mut is_done = false;
        for event in events {
            is_done = matches!(self.store.post(self.alloc, event)?, Reply::Done);
        }
        Ok(is_done)
    }

    /// Calls the word at a cell, and returns whether that was done.
    fn call(&mut self, cell: (u8, u8)) -> Result<bool, Error> {
        Ok(matches!(self.click(Keys::Middle, cell)?, Reply::Done))
    }

    /// Clicks at a cell.
    fn click(&mut self, keys: Keys, cell: (u8, u8)) -> Result<Reply, Error> {
        let (x, y) = cell;
        let event = Event::Point {
            keys,
            x0: x,
            y0: y,
            x1: x,
            y1: y,
        };
        self.store.post(self.alloc, &event)
    }
}
