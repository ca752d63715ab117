//! What a desktop keeps, and a method for each kind of event.
//!
//! The methods that do events stand in the modules beside this one, and go in this order: refusals, the limits, what
//! may want memory, characters that are added, the change. Each promises the same: over an honest source what is
//! `settled` of its effect, and over any source what holds of the desktop, the reply and the source whatever was read.
ghost use Rattle.std.specs.Prelude.{◌≡◌, ◌+◌, ◌<◌, ◌≤◌, ℕ, List, [], IfOk};
ghost use Rattle.desktop_definitions.specs.Desktop.{empty_desktop, characters_held};
ghost use Rattle.desk_core.specs.Words.{most_held, seen, IsOver, IsKeptWhole, kept_desktop};

use crate::files::Files;
use crate::held::lengths;
use crate::stop::NoMemory;
use crate::viewers::ViewerTable;
use arrayvec::ArrayVec;
use desktop_definitions::{Caret, ClosedViewer, MOST_PATTERN, Selection};
use piece_ring::{DEFAULT_LOOK, Look};
use std::alloc::Global;
use std::collections::BTreeMap;
use std::vec::Vec;
use text_core::{Buffer, Text};
use viewer_tracks::Tracks;

/// How many bytes a pattern has at most.
pub const PATTERN: usize = MOST_PATTERN as usize;

/// What a desktop keeps. `specs/Desktop.antt` of `desktop_definitions` says what its parts are.
#[derive(Drop)]
pub struct Desk {
    /// Texts by number, of which text 0 is the log.
    pub texts: BTreeMap<u16, Text>,
    /// Viewers by rising ids, the one that was closed last among them.
    pub viewers: ViewerTable,
    /// Where they stand on the display.
    pub tracks: Tracks,
    /// The caret, if a viewer has it.
    pub caret: Option<Caret>,
    /// One in each viewer at most, from the oldest to the newest.
    pub selections: Vec<Selection>,
    /// The cell of the marker, as column and row, if it is set.
    pub marker: Option<(u8, u8)>,
    /// The viewer that was closed last, if there is one.
    pub closed: Option<ClosedViewer>,
    pub files: Files,
    /// What was copied last.
    pub copied: Buffer,
    /// What was deleted last.
    pub deleted: Buffer,
    /// The bytes for which a text was searched last.
    pub pattern: ArrayVec<u8, PATTERN>,
    /// The look in which characters are typed.
    pub look: Look,
    /// How many characters count as written.
    pub written: u32,
    /// Where what it keeps has its memory.
    pub alloc: Global,
}

/// An empty log, and nothing else.
pub fn empty_desk(alloc: Global) -> Result<Desk, NoMemory>
    ensures seen { IfOk result (λ d. (characters : List ℕ) → seen characters (kept_desktop d)
        ≡ empty_desktop) }
    ensures over { IfOk result (λ d. IsOver [] (kept_desktop d)) }
{
    let mut texts = BTreeMap::new(alloc);
    texts.insert(0, Text::new(alloc)?)?;
    let copied = Buffer::new(alloc)?;
    let deleted = Buffer::new(alloc)?;
    Ok(Desk {
        texts,
        viewers: Vec::new(alloc),
        tracks: Tracks::new(),
        caret: None,
        selections: Vec::new(alloc),
        marker: None,
        closed: None,
        files: BTreeMap::new(alloc),
        copied,
        deleted,
        pattern: ArrayVec::new(),
        look: DEFAULT_LOOK,
        written: 0,
        alloc,
    })
}

impl Desk {
    /// How many characters the desktop holds.
    pub fn held(&self) -> usize
        requires { IsKeptWhole (kept_desktop self.now) }
        ensures held { (characters : List ℕ) → result
            ≡ characters_held (seen characters (kept_desktop self.now)) }
        ensures few { result ≤ most_held }
    {
        lengths(&self.texts)
            + lengths(&self.files)
            + self.copied.len() as usize
            + self.deleted.len() as usize
    }
}
