//! A page whose past is shown, and what a call does to it.
ghost use Rattle.std.specs.Prelude.{◌≡◌, false, if◌then◌else◌, is_some, option_map, IfErr, IfOk, OnOk};
ghost use Rattle.screen_drawing.specs.Drawn.{drawing_of};
ghost use Rattle.desk_page.specs.Giving.{given_text, selected_text};
ghost use Rattle.desk_page.specs.Looks.{HandsOutLook, IsNotPressedAt, IsOfLook, LeavesLook, LooksAtDesk};
ghost use Rattle.desk_page.specs.Looks.{LooksAtPast, ComesOfPresses, PressesDesk, PressesLook, page_of, seated_anew, shown_desktop};
ghost use Rattle.desk_page.specs.Turns.{IsOfMemory, IsWithheld};

use crate::documents::{give, selected};
use crate::heard::hearing;
use crate::page::HEIGHT;
use crate::scene::{HostPage, Scene, pressed, settled, usable};
use desk_journal::Error;
use desk_sitting::Sitting;
use event_bytes::Name;
use page_disks::RecordedDisk;
use past_looks::{Doing, Looker};
use screen_cells::Screen;
use screen_drawing::draw;
use sector_disk::Disk;
use status_line::Saying;
use std::alloc::Global;
use terminal_keyboard::Parser;
use terminal_presses::{Heard, Press, Presses};
use viewer_tracks::COLUMNS;

/// A page, and a person who looks at its past.
#[derive(Drop)]
pub struct Looking {
    pub page: HostPage,
    pub looker: Looker,
    pub parser: Parser,
}

/// What a host is shown: a page as it is, or a moment of its past.
#[derive(Drop)]
pub enum Desk {
    Present(HostPage),
    Past(Looking),
}

/// What is shown, and what the host is handed of it.
type Shown = Result<(Desk, Scene), Error>;

impl Desk {
    /// The page, at its present.
    pub(crate) fn page(self) -> HostPage
        ensures { result ≡ page_of self }
    {
        match self {
            Desk::Present(page) => page,
            Desk::Past(looking) => looking.into_page(),
        }
    }

    /// The text of the document of that name, as it is or was at what is shown.
    ///
    /// Errors: those of `give`.
    pub(crate) fn give(&mut self, alloc: Global, name: &Name) -> Result<Option<Vec<u8>>, Error>
        ensures given { IfOk result (λ text. option_map (λ bytes. bytes.items) text
            ≡ given_text name.now (shown_desktop self.old)) }
        ensures looked { LooksAtDesk ⟦<RecordedDisk as Disk>⟧ self.old self.new }
        ensures errors { IfErr result (IsOfLook self.old) }
    {
        match self {
            Desk::Present(page) => give(alloc, &mut page.store, name),
            Desk::Past(looking) => give(alloc, &mut looking.looker.look.shown, name),
        }
    }

    /// What is selected in what is shown.
    ///
    /// Errors: those of `selected`.
    pub(crate) fn selected(&mut self, alloc: Global) -> Result<Option<Vec<u8>>, Error>
        ensures given { IfOk result (λ text. option_map (λ bytes. bytes.items) text
            ≡ selected_text (shown_desktop self.old)) }
        ensures looked { LooksAtDesk ⟦<RecordedDisk as Disk>⟧ self.old self.new }
        ensures errors { IfErr result (IsOfLook self.old) }
    {
        match self {
            Desk::Present(page) => selected(alloc, &mut page.store),
            Desk::Past(looking) => selected(alloc, &mut looking.looker.look.shown),
        }
    }

    /// Does what is pressed by these bytes of a terminal and a quiet while, at the page, or at its past where that is shown.
    ///
    /// Errors: those of `pressed` and of `looked`.
    pub(crate) fn press(self, alloc: Global, bytes: &[u8]) -> Shown
        ensures done { IfOk result (λ both.
            PressesDesk ⟦<RecordedDisk as Disk>⟧ bytes.now self both.0 both.1) }
        ensures failed { IfErr result (IsNotPressedAt ⟦<RecordedDisk as Disk>⟧ bytes.now self) }
    {
        match self {
            Desk::Past(looking) => looked(alloc, looking, bytes),
            Desk::Present(page) => {
                let (page, scene) = pressed(alloc, page, bytes)?;
                Ok((Desk::Present(page), scene))
            }
        }
    }
}

/// What an error comes to while a past is shown, which stands in memory.
fn of_look(error: Error) -> Error
    ensures { IsOfMemory result }
{
    match error {
        Error::NoMemory => Error::NoMemory,
        _ => Error::Fault,
    }
}

/// The past of a page is shown, from its present on. The page as it is, and nothing is handed, where its store keeps none that
/// can be read.
///
/// Errors: `NoMemory`; `Fault`; `MustReopen`.
pub(crate) fn look_at(alloc: Global, page: HostPage) -> Result<(Desk, Option<Scene>), Error>
    ensures looks { IfOk result (λ both. LooksAtPast ⟦<RecordedDisk as Disk>⟧ page both.0 both.1) }
    ensures withheld { IfErr result (IsWithheld page) }
{
    let mut page = page;
    usable(&page.store)?;
    match Looker::of(alloc, &mut page.store) {
        Err(error) => Err(of_look(error)),
        Ok(None) => Ok((Desk::Present(page), None)),
        Ok(Some(mut looker)) => {
            page.store.shows_what_crashes_leave();
            let scene = seen(alloc, &mut looker)?;
            let parser = Parser::new();
            let looking = Looking {
                page,
                looker,
                parser,
            };
            Ok((Desk::Past(looking), Some(scene)))
        }
    }
}

/// What a host is handed of a moment: its drawing, and the line that says which one it is. The disk has nothing to tell.
///
/// Errors: `NoMemory`; `Fault`.
fn seen(alloc: Global, looker: &mut Looker) -> Result<Scene, Error>
    ensures scene { IfOk result (HandsOutLook looker.old looker.new) }
    ensures errors { IfErr result IsOfMemory }
{
    let mut screen = Screen::new();
    let Ok(()) = looker.screen(alloc, &mut screen) else {
        return Err(Error::NoMemory);
    };
    let line = looker.line(alloc)?;
    let rings = looker.take_ring();
    let drawing = drawn(alloc, &screen)?;
    Ok(Scene {
        drawing,
        line,
        calls: Vec::new(alloc),
        rings,
    })
}

/// The drawing of a screen.
///
/// Error: `NoMemory`.
fn drawn(alloc: Global, screen: &Screen) -> Result<Vec<u8>, Error>
    ensures drawn { IfOk result (λ drawing. drawing.items ≡ drawing_of screen.now) }
    ensures errors { IfErr result IsOfMemory }
{
    let mut drawing = Vec::new(alloc);
    match draw(&mut drawing, screen.rows()) {
        Ok(()) => Ok(drawing),
        Err(_) => Err(Error::NoMemory),
    }
}

/// Does what is pressed by these bytes and a quiet while, up to a press by which the person leaves the past. What is pressed
/// behind that isn't done.
///
/// Errors: `NoMemory`; `Fault`; `MustReopen`.
fn looked(alloc: Global, looking: Looking, bytes: &[u8]) -> Shown
    ensures done { IfOk result (λ both.
        PressesLook ⟦<RecordedDisk as Disk>⟧ looking both.0 both.1) }
    ensures failed { IfErr result (IsWithheld looking.page) }
{
    let mut looking = looking;
    usable(&looking.page.store)?;
    let Ok(heard) = hearing(alloc, bytes) else {
        return Err(Error::NoMemory);
    };
    match looking.take(alloc, heard.as_slice()) {
        Err(error) => Err(of_look(error)),
        Ok(Doing::Stays) => looked_on(alloc, looking),
        Ok(Doing::Leaves) => left(alloc, looking.into_page()),
        Ok(Doing::Turned) => left(alloc, seated_again(looking.into_page())),
    }
}

/// It is sought further, where that is to be, the moment that is wished comes into memory, and the host is handed what is shown.
///
/// Errors: `NoMemory`; `Fault`.
fn looked_on(alloc: Global, looking: Looking) -> Shown
    requires { looking.page.store.must_reopen ≡ false }
    ensures looks { IfOk result (λ both.
        PressesLook ⟦<RecordedDisk as Disk>⟧ looking both.0 both.1) }
    ensures errors { IfErr result IsOfMemory }
{
    let mut looking = looking;
    match looking.looker.go_on(alloc, &mut looking.page.store) {
        Err(error) => Err(of_look(error)),
        Ok(_) => {
            looking.page.store.shows_what_crashes_leave();
            let scene = seen(alloc, &mut looking.looker)?;
            Ok((Desk::Past(looking), scene))
        }
    }
}

/// The page at its present is handed to the host.
///
/// Errors: those of `settled`.
fn left(alloc: Global, page: HostPage) -> Shown
    ensures left { IfOk result (λ both.
        LeavesLook ⟦<RecordedDisk as Disk>⟧ page both.0 both.1) }
    ensures withheld { IfErr result (IsWithheld page) }
{
    let (page, scene) = settled(alloc, page)?;
    Ok((Desk::Present(page), scene))
}

/// The page before a store that was turned, or whose past was forgotten: what was done and taken back before is known by its past
/// alone. Whether lines are broken stays.
pub(crate) fn seated_again(page: HostPage) -> HostPage
    ensures store { result.store ≡ page.store }
    ensures sitting { result.sitting ≡ seated_anew page.sitting }
    ensures parser { result.parser ≡ page.parser }
{
    let mut page = page;
    let fills = page.sitting.fills;
    page.sitting = Sitting::new(HEIGHT, u16::from(COLUMNS), Saying::Keys, true);
    page.sitting.fills = fills;
    page
}

impl Looking {
    /// 1, and 2 while it is sought for a word.
    pub(crate) fn looks(&self) -> u32
        ensures { result ≡ (if is_some self.now.looker.seeks then 2 else 1) }
    {
        if self.looker.seeks() { 2 } else { 1 }
    }

    /// The page.
    fn into_page(self) -> HostPage
        ensures { result ≡ self.page }
    {
        let Looking {
            page,
            looker: _,
            parser: _,
        } = self;
        page
    }

    /// Does what is pressed by all that was heard, up to a press by which the person leaves.
    ///
    /// Errors: those of `Looker::press`.
    fn take(&mut self, alloc: Global, heard: &[Heard]) -> Result<Doing, Error>
        requires { self.old.page.store.must_reopen ≡ false }
        ensures does { IfOk result (λ doing.
            ComesOfPresses ⟦<RecordedDisk as Disk>⟧ doing self.old self.new) }
        ensures usable { OnOk result (self.new.page.store.must_reopen ≡ false) }
    {
        for one in heard {
            self.page.store.shows_what_crashes_leave();
            let presses = self.parser.take(*one);
            match self.press_each(alloc, presses)? {
                Doing::Stays => {}
                doing => return Ok(doing),
            }
        }
        Ok(Doing::Stays)
    }

    /// Does at most two presses.
    ///
    /// Errors: those of `Looker::press`.
    fn press_each(&mut self, alloc: Global, presses: Presses) -> Result<Doing, Error>
        requires { self.old.page.store.must_reopen ≡ false }
        ensures does { IfOk result (λ doing.
            ComesOfPresses ⟦<RecordedDisk as Disk>⟧ doing self.old self.new) }
        ensures usable { OnOk result (self.new.page.store.must_reopen ≡ false) }
    {
        match presses {
            Presses::Nothing => Ok(Doing::Stays),
            Presses::One(press) => self.press(alloc, press),
            Presses::Two(first, second) => match self.press(alloc, first)? {
                Doing::Stays => {
                    self.page.store.shows_what_crashes_leave();
                    self.press(alloc, second)
                }
                doing => Ok(doing),
            },
        }
    }

    /// Does what is pressed. All of the display is in sight.
    ///
    /// Errors: those of `Looker::press`.
    fn press(&mut self, alloc: Global, press: Press) -> Result<Doing, Error>
        requires { self.old.page.store.must_reopen ≡ false }
        ensures does { IfOk result (λ doing.
            ComesOfPresses ⟦<RecordedDisk as Disk>⟧ doing self.old self.new) }
        ensures usable { OnOk result (self.new.page.store.must_reopen ≡ false) }
    {
        let sight = self.page.sitting.sight;
        self.looker.press(alloc, &mut self.page.store, sight, press)
    }
}
