//! System.Collect, for a person who isn't at the desk.

use cli_copies::Stop;
use desk_journal::{Error, Store};
use desk_past::post;
use desktop_definitions::Reply;
use event_bytes::{Event, Keys};
use screen_cells::Screen;
use sector_disk::Disk;
use store_documents::place_of_word;

/// The word of the command.
const WORD: &[u8] = b"System.Collect";

/// Has the command done by a click of the middle button on its word, which a viewer of the desktop must show.
pub(crate) fn collect<D: Disk>(rt: &HostRuntime, store: &mut Store<D>) -> Result<(), Stop> {
    let Some((x, y)) = find_word(rt, store)? else {
        let _ = eprintln!(rt;
            "desk: no viewer shows the word System.Collect, on which to click, so nothing was done; sit down and call it"
        );
        return Err(Stop::Refused);
    };
    let click = Event::Point {
        keys: Keys::Middle,
        x0: x,
        y0: y,
        x1: x,
        y1: y,
    };
    match post(rt.alloc(), store, &click)? {
        Reply::Done => Ok(()),
        Reply::No(_) => {
            let _ = eprintln!(rt; "desk: System.Collect was refused, so nothing was done");
            Err(Stop::Refused)
        }
    }
}

/// Where the word begins on the screen of a store.
fn find_word<D: Disk>(rt: &HostRuntime, store: &mut Store<D>) -> Result<Option<(u8, u8)>, Error> {
    let mut screen = Screen::new();
    store.screen(rt.alloc(), &mut screen)?;
    Ok(place_of_word(&screen, WORD))
}
