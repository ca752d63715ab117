//! A page, from its beginning to its end, and what it shows.
ghost use Rattle.std.specs.Prelude.{◌≡◌, ◌⊎◌, ◌++◌, true, false, OnOk, IfOk, IfErr};
ghost use Rattle.desktop_definitions.specs.Desktop.{empty_desktop};
ghost use Rattle.desktop_definitions.specs.Shown.{shown_screen};
ghost use Rattle.desktop_definitions.specs.Step.{steps};
ghost use Rattle.desk_journal.specs.Device.{IsOnlyRead};
ghost use Rattle.desk_journal.specs.Errors.{OfOpen};
ghost use Rattle.desk_journal.specs.Opening.{IsNoStore, IsOpened};
ghost use Rattle.desk_journal.specs.Session.{session_of};
ghost use Rattle.desk_journal.specs.View.{IsDurable};
ghost use Rattle.desk_page.specs.Lines.{page_line, page_shown};
ghost use Rattle.desk_sitting.specs.Sittings.{looked, new_sitting};
ghost use Rattle.starter_desktop.specs.StarterDesktop.{furnishing};
ghost use Rattle.screen_drawing.specs.Drawn.{drawing_of};
ghost use Rattle.terminal_keyboard.specs.Presses.{at_rest};
ghost use Rattle.viewer_tracks.specs.declared.display.TheConstants.{COLUMNS};

use desk_journal::{Error, Store};
use desk_sitting::{Sitting, mark};
use screen_cells::Screen;
use screen_drawing::draw;
use sector_disk::Disk;
use starter_desktop::furnish;
use status_line::Saying;
use std::alloc::Global;
use store_layout::showing_law;
use terminal_keyboard::Parser;
use viewer_tracks::COLUMNS;

/// How many rows a page has, as a sitting counts them: those of the display, all of them in sight, and the line below.
pub const HEIGHT: u16 = 33;

/// The desktop for a page: a store over a disk, the sitting before it, and the parser of what is heard.
#[derive(Drop)]
pub struct Page<D: Disk> {
    pub store: Store<D>,
    pub sitting: Sitting,
    pub parser: Parser,
}

/// A page before a store, of which nothing was heard. The line below says the greeting.
fn seated<D: Disk>(store: Store<D>) -> Page<D>
    ensures store { result.store ≡ store }
    ensures sitting { result.sitting ≡ new_sitting HEIGHT COLUMNS Saying.Greeting true }
    ensures parser { result.parser ≡ at_rest }
{
    Page {
        store,
        sitting: Sitting::new(HEIGHT, u16::from(COLUMNS), Saying::Greeting, true),
        parser: Parser::new(),
    }
}

/// A page before the store on a disk.
///
/// Errors: those of `Store::open`.
pub fn begin<D: Disk + Drop>(alloc: Global, disk: D) -> Result<Page<D>, Error>
    ensures opened { IfOk result (λ page. IsOpened D.Disk disk page.store) }
    ensures sitting { IfOk result (λ page. page.sitting
        ≡ new_sitting HEIGHT COLUMNS Saying.Greeting true) }
    ensures parser { IfOk result (λ page. page.parser ≡ at_rest) }
    ensures usable { IfOk result (λ page. page.store.must_reopen ≡ false) }
    ensures disk { IfOk result (λ page. IsOnlyRead D.Disk disk page.store.disk) }
    ensures no_store { IfErr result (λ error. IsNoStore D.Disk disk error) }
    ensures errors { IfErr result OfOpen }
{
    match Store::open(alloc, disk) {
        Ok(store) => Ok(seated(store)),
        Err((error, _)) => Err(error),
    }
}

/// A page before a new store, which it makes of a disk. The desktop has a document with the words of all commands, in a
/// viewer.
///
/// Errors: `TooSmall` where the disk has fewer sectors than a store needs; `Fault`; `NoMemory`. The disk may then be no
/// store.
pub fn begin_new<D: Disk + Drop>(alloc: Global, disk: D) -> Result<Page<D>, Error>
    ensures desktop { IfOk result (λ page. D.honest disk
        → page.store.desktop ≡ steps empty_desktop furnishing) }
    ensures durable { IfOk result (λ page. IsDurable D.Disk page.store) }
    ensures sitting { IfOk result (λ page. page.sitting
        ≡ new_sitting HEIGHT COLUMNS Saying.Greeting true) }
    ensures parser { IfOk result (λ page. page.parser ≡ at_rest) }
    ensures usable { IfOk result (λ page. page.store.must_reopen ≡ false) }
{
    showing_law();
    let mut page = match Store::format(disk) {
        Ok(made) => begin(alloc, made)?,
        Err((error, _)) => return Err(error),
    };
    furnish(alloc, &mut page.store)?;
    page.store.shows_what_crashes_leave();
    Ok(page)
}

/// Adds the drawing of what the desktop shows, and the line below it. Where that rests, it says whether the text with the
/// caret isn't stored. All events of what is shown are acknowledged, and nothing is posted.
///
/// Errors: `NoMemory`; `Fault`. The drawing and the line may then have a front of it.
pub fn show<D: Disk>(
    alloc: Global,
    page: &mut Page<D>,
    drawing: &mut Vec<u8>,
    line: &mut Vec<u8>,
) -> Result<(), Error>
    requires { page.old.store.must_reopen ≡ false }
    ensures drawn { OnOk result (D.honest page.old.store.disk
        → drawing.new.items ≡ drawing.old.items
        ++ drawing_of (shown_screen page.old.store.desktop)) }
    ensures line { OnOk result (D.honest page.old.store.disk → line.new.items
        ≡ line.old.items ++ page_line (shown_screen page.old.store.desktop) page.new.sitting) }
    ensures sitting { OnOk result (D.honest page.old.store.disk
        → page.new.sitting ≡ page_shown page.old.store.desktop page.old.sitting) }
    ensures kept { (page.new.parser ≡ page.old.parser) × (page.new.store.must_reopen ≡ false) }
    ensures session { D.honest page.old.store.disk
        → session_of page.new.store ≡ session_of page.old.store }
    ensures disk { IsOnlyRead D.Disk page.old.store.disk page.new.store.disk }
    ensures errors { IfErr result (λ error. (error ≡ Error.NoMemory) ⊎ (error ≡ Error.Fault)) }
{
    mark(alloc, &mut page.sitting, &mut page.store)?;
    show_marked(alloc, page, drawing, line)
}

/// Adds the drawing of what the desktop shows, and the line below it as it is to be.
///
/// Errors: those of `show`.
fn show_marked<D: Disk>(
    alloc: Global,
    page: &mut Page<D>,
    drawing: &mut Vec<u8>,
    line: &mut Vec<u8>,
) -> Result<(), Error>
    requires { page.old.store.must_reopen ≡ false }
    ensures drawn { OnOk result (D.honest page.old.store.disk
        → drawing.new.items ≡ drawing.old.items
        ++ drawing_of (shown_screen page.old.store.desktop)) }
    ensures line { OnOk result (D.honest page.old.store.disk → line.new.items
        ≡ line.old.items ++ page_line (shown_screen page.old.store.desktop) page.new.sitting) }
    ensures sitting { OnOk result (D.honest page.old.store.disk
        → page.new.sitting ≡ looked (shown_screen page.old.store.desktop) page.old.sitting) }
    ensures kept { (page.new.parser ≡ page.old.parser) × (page.new.store.must_reopen ≡ false) }
    ensures session { D.honest page.old.store.disk
        → session_of page.new.store ≡ session_of page.old.store }
    ensures disk { IsOnlyRead D.Disk page.old.store.disk page.new.store.disk }
    ensures errors { IfErr result (λ error. (error ≡ Error.NoMemory) ⊎ (error ≡ Error.Fault)) }
{
    let mut screen = Screen::new();
    page.store.screen(alloc, &mut screen)?;
    page.sitting.look(&screen);
    let below = page.sitting.line(&screen);
    if line.extend_from_slice(below.as_slice()).is_err() {
        return Err(Error::NoMemory);
    }
    match draw(drawing, screen.rows()) {
        Ok(()) => Ok(()),
        Err(_) => Err(Error::NoMemory),
    }
}

/// Hands out the disk. It writes nothing, and works after any error.
pub fn close<D: Disk>(page: Page<D>) -> D
    ensures { result ≡ page.store.disk }
{
    let Page {
        store,
        sitting: _,
        parser: _,
    } = page;
    store.close()
}
