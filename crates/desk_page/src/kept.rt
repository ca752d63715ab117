//! What is kept between calls, and what a call does to it.
ghost use Rattle.std.specs.Prelude.{◌≡◌, ◌≢◌, ◌≤◌, ◌++◌, ◌∷◌, [], ℕ, List, length, take, drop, min, IfOk, IfErr, IfSome};
ghost use Rattle.std.specs.Prelude.{Some, None, Ok};
ghost use Rattle.store_documents.specs.HostText.{imported};
ghost use Rattle.desk_page.specs.Calls.{AnswersAsk, AnswersBegin, AnswersBring, AnswersBringMore, AnswersForget, AnswersGive, AnswersLoad, AnswersLook, AnswersPress};
ghost use Rattle.desk_page.specs.Calls.{IsNoFile, has_left, looks_of, made_by, made_numbered, pointer_number};
ghost use Rattle.desk_page.specs.Giving.{selected_text};
ghost use Rattle.desk_page.specs.Statuses.{not_there, status_of_error};

use crate::forgetting::forgotten;
use crate::looks::{Desk, look_at};
use crate::scene::{Scene, begun, brought, settled};
use crate::status::{
    DONE, GONE, NO_DOCUMENT, NO_MEMORY, NO_NAME, NO_PAST, NO_ROOM, PAST_STAYS, status_of,
    status_of_unfit,
};
use desk_journal::Error;
use document_filing::Document;
use event_bytes::Name;
use page_disks::{RecordedDisk, loaded_with};
use sector_disk::Disk;
use std::alloc::Global;
use std::mem::replace;
use store_documents::document;
use viewer_tracks::COLUMNS;

/// What is kept: what is shown, unless a call has failed, and what the last call made.
#[derive(Drop)]
pub struct Kept {
    pub desk: Option<Desk>,
    pub scene: Scene,
    /// The text that was asked for last.
    pub text: Vec<u8>,
    /// Documents that are brought with the next one.
    pub coming: Vec<Document>,
    /// The disk of the sectors that were loaded, before there is a page.
    pub loaded: Option<RecordedDisk>,
}

/// Which of the things is meant that a call made.
#[derive(Clone, Copy)]
pub enum Made {
    Drawing,
    Line,
    Calls,
    Text,
}

impl Made {
    /// By its number.
    pub fn of(number: u32) -> Option<Made>
        ensures { result ≡ made_numbered number }
    {
        match number {
            0 => Some(Made::Drawing),
            1 => Some(Made::Line),
            2 => Some(Made::Calls),
            3 => Some(Made::Text),
            _ => None,
        }
    }
}

impl Kept {
    /// Nothing yet.
    pub fn new(alloc: Global) -> Kept
        ensures desk { result.desk ≡ None }
        ensures coming { result.coming.items ≡ [] }
        ensures loaded { result.loaded ≡ None }
        ensures untold { result.scene.calls.items ≡ [] }
    {
        Kept {
            desk: None,
            scene: Scene {
                drawing: Vec::new(alloc),
                line: Vec::new(alloc),
                calls: Vec::new(alloc),
                rings: false,
            },
            text: Vec::new(alloc),
            coming: Vec::new(alloc),
            loaded: None,
        }
    }

    /// Loads the sectors from `first` on, which are these bytes, a sector after another. The others are zeros, unless they were
    /// loaded before. After want of memory nothing is loaded.
    pub fn load(&mut self, alloc: Global, first: u32, bytes: &[u8]) -> u32
        ensures answers { AnswersLoad first bytes.now self.old self.new result }
        ensures untold { self.new.scene.calls.items ≡ [] }
        ensures coming { self.new.coming ≡ self.old.coming }
    {
        self.scene.calls.clear();
        match loaded_with(alloc, self.loaded.take(), first, bytes) {
            Ok(disk) => {
                self.loaded = Some(disk);
                DONE
            }
            Err(_) => NO_MEMORY,
        }
    }

    /// Opens the store on the disk that was loaded, or makes a new one where none was. Where it is to keep a past, that goes on
    /// or begins.
    pub fn begin(&mut self, alloc: Global, past: bool) -> u32
        ensures answers { AnswersBegin ⟦<RecordedDisk as Disk>⟧ past self.old self.new result }
        ensures untold { result ≢ 0 → self.new.scene.calls.items ≡ [] }
        ensures coming { self.new.coming ≡ self.old.coming }
        ensures few { result ≤ 5 }
    {
        self.scene.calls.clear();
        let page = match begun(alloc, self.loaded.take(), past) {
            Ok(page) => page,
            Err(error) => return status_of(error),
        };
        match settled(alloc, page) {
            Ok((page, scene)) => self.keep(Desk::Present(page), scene),
            Err(error) => status_of(error),
        }
    }

    /// Does what is pressed by these bytes of a terminal, at the page, or at its past where that is shown.
    pub fn press(&mut self, alloc: Global, bytes: &[u8]) -> u32
        ensures answers { AnswersPress ⟦<RecordedDisk as Disk>⟧ bytes.now self.old self.new result }
        ensures untold { result ≢ 0 → self.new.scene.calls.items ≡ [] }
        ensures coming { self.new.coming ≡ self.old.coming }
        ensures loaded { self.new.loaded ≡ self.old.loaded }
    {
        self.scene.calls.clear();
        let Some(desk) = self.desk.take() else {
            return GONE;
        };
        match desk.press(alloc, bytes) {
            Ok((desk, scene)) => self.keep(desk, scene),
            Err(error) => status_of(error),
        }
    }

    /// Shows the past of the page, from its present on. Where its store keeps none that can be read, the page is shown.
    pub fn look(&mut self, alloc: Global) -> u32
        ensures answers { AnswersLook ⟦<RecordedDisk as Disk>⟧ self.old self.new result }
        ensures untold { self.new.scene.calls.items ≡ [] }
        ensures coming { self.new.coming ≡ self.old.coming }
        ensures loaded { self.new.loaded ≡ self.old.loaded }
    {
        self.scene.calls.clear();
        let Some(desk) = self.desk.take() else {
            return GONE;
        };
        match look_at(alloc, desk.page()) {
            Ok((desk, scene)) => self.keep_or_leave(desk, scene, NO_PAST),
            Err(error) => status_of(error),
        }
    }

    /// Forgets the past of the page: one begins anew with what it shows, and behind the store nothing else is left. The page is
    /// shown then, and no past, also where the past stays.
    pub fn forget(&mut self, alloc: Global) -> u32
        ensures answers { AnswersForget ⟦<RecordedDisk as Disk>⟧ self.old self.new result }
        ensures untold { result ≢ 0 → self.new.scene.calls.items ≡ [] }
        ensures coming { self.new.coming ≡ self.old.coming }
        ensures loaded { self.new.loaded ≡ self.old.loaded }
    {
        self.scene.calls.clear();
        let Some(desk) = self.desk.take() else {
            return GONE;
        };
        match forgotten(alloc, desk.page()) {
            Ok((page, scene)) => self.keep_or_leave(Desk::Present(page), scene, PAST_STAYS),
            Err(error) => status_of(error),
        }
    }

    /// Makes the document of that name of a file of the host's, together with those that are kept. The page is shown then, and
    /// no past, unless the name or the file is refused.
    pub fn bring(&mut self, alloc: Global, name: &[u8], file: &[u8]) -> u32
        ensures answers { AnswersBring ⟦<RecordedDisk as Disk>⟧ name.now file.now self.old self.new
            result }
        ensures untold { result ≢ 0 → self.new.scene.calls.items ≡ [] }
        ensures coming { self.new.coming.items ≡ [] }
        ensures loaded { self.new.loaded ≡ self.old.loaded }
    {
        self.scene.calls.clear(); // also where it is refused
        let coming = replace(&mut self.coming, Vec::new(alloc));
        let documents = match with_one_more(alloc, coming, name, file) {
            Ok(documents) => documents,
            Err(status) => return status,
        };
        let Some(desk) = self.desk.take() else {
            return GONE;
        };
        match brought(alloc, desk.page(), documents.as_slice()) {
            Ok((page, scene)) => self.keep_or_leave(Desk::Present(page), scene, NO_ROOM),
            Err(error) => status_of(error),
        }
    }

    /// Keeps the document of that name of a file of the host's, to be brought with the next one. Where it is refused none
    /// is kept.
    pub fn bring_more(&mut self, alloc: Global, name: &[u8], file: &[u8]) -> u32
        ensures answers { AnswersBringMore name.now file.now self.old self.new result }
        ensures untold { self.new.scene.calls.items ≡ [] }
        ensures loaded { self.new.loaded ≡ self.old.loaded }
    {
        self.scene.calls.clear();
        let coming = replace(&mut self.coming, Vec::new(alloc));
        match with_one_more(alloc, coming, name, file) {
            Ok(documents) => {
                self.coming = documents;
                DONE
            }
            Err(status) => status,
        }
    }

    /// Asks for the text of the document of that name, as it is or was at what is shown.
    pub fn give(&mut self, alloc: Global, name: &[u8]) -> u32
        ensures answers { AnswersGive ⟦<RecordedDisk as Disk>⟧ name.now self.old self.new result }
        ensures untold { self.new.scene.calls.items ≡ [] }
        ensures coming { self.new.coming ≡ self.old.coming }
        ensures loaded { self.new.loaded ≡ self.old.loaded }
    {
        self.scene.calls.clear();
        let Some(name) = Name::new(name) else {
            return NO_NAME;
        };
        let Some(desk) = &mut self.desk else {
            return GONE;
        };
        let found = desk.give(alloc, &name);
        self.tell(found)
    }

    /// Asks for what is selected in what is shown.
    pub fn copied(&mut self, alloc: Global) -> u32
        ensures answers { AnswersAsk ⟦<RecordedDisk as Disk>⟧ selected_text self.old self.new
            result }
        ensures untold { self.new.scene.calls.items ≡ [] }
        ensures coming { self.new.coming ≡ self.old.coming }
        ensures loaded { self.new.loaded ≡ self.old.loaded }
    {
        self.scene.calls.clear();
        let Some(desk) = &mut self.desk else {
            return GONE;
        };
        let found = desk.selected(alloc);
        self.tell(found)
    }

    /// Keeps a text that was found.
    fn tell(&mut self, found: Result<Option<Vec<u8>>, Error>) -> u32
        ensures given { IfOk found (λ text. IfSome text (λ bytes.
            (self.new.text ≡ bytes) × (result ≡ 0))) }
        ensures missing { found ≡ Ok None
            → (self.new.text ≡ self.old.text) × (result ≡ not_there) }
        ensures failed { IfErr found (λ error.
            (self.new.text ≡ self.old.text) × (result ≡ status_of_error error)) }
        ensures desk { self.new.desk ≡ self.old.desk }
        ensures scene { self.new.scene ≡ self.old.scene }
        ensures coming { self.new.coming ≡ self.old.coming }
        ensures loaded { self.new.loaded ≡ self.old.loaded }
    {
        match found {
            Ok(Some(text)) => {
                self.text = text;
                DONE
            }
            Ok(None) => NO_DOCUMENT,
            Err(error) => status_of(error),
        }
    }

    /// Keeps what is shown, and what is handed of it.
    fn keep(&mut self, desk: Desk, scene: Scene) -> u32
        ensures done { result ≡ 0 }
        ensures desk { self.new.desk ≡ Some desk }
        ensures scene { self.new.scene ≡ scene }
        ensures text { self.new.text ≡ self.old.text }
        ensures coming { self.new.coming ≡ self.old.coming }
        ensures loaded { self.new.loaded ≡ self.old.loaded }
    {
        self.desk = Some(desk);
        self.scene = scene;
        DONE
    }

    /// Keeps what is shown, with what is handed of it, or with this status where nothing is.
    fn keep_or_leave(&mut self, desk: Desk, scene: Option<Scene>, status: u32) -> u32
        ensures desk { self.new.desk ≡ Some desk }
        ensures handed { IfSome scene (λ s. (self.new.scene ≡ s) × (result ≡ 0)) }
        ensures left { scene ≡ None → (self.new.scene ≡ self.old.scene) × (result ≡ status) }
        ensures text { self.new.text ≡ self.old.text }
        ensures coming { self.new.coming ≡ self.old.coming }
        ensures loaded { self.new.loaded ≡ self.old.loaded }
    {
        self.desk = Some(desk);
        match scene {
            Some(scene) => {
                self.scene = scene;
                DONE
            }
            None => status,
        }
    }

    /// Whether the last presses rang.
    pub fn rings(&self) -> bool
        ensures { result ≡ self.now.scene.rings }
    {
        self.scene.rings
    }

    /// Whether the person has left.
    pub fn leaves(&self) -> bool
        ensures { result ≡ has_left self.now.desk }
    {
        match &self.desk {
            Some(Desk::Present(page)) => page.sitting.leaves,
            _ => false,
        }
    }

    /// What is shown: 0 is the page, 1 its past, and 2 its past while that is sought for a word, which goes on with the next
    /// presses, if there are any or not.
    pub fn looks(&self) -> u32
        ensures { result ≡ looks_of self.now.desk }
    {
        match &self.desk {
            Some(Desk::Past(looking)) => looking.looks(),
            _ => 0,
        }
    }

    /// Where a pointer is shown that keys move, by the number of its cell: 1 at the lower left, and one more for each
    /// cell to the right of it and in the rows above. 0 where none is shown.
    pub fn pointer(&self) -> u32
        ensures { result ≡ pointer_number self.now.desk }
    {
        let Some(Desk::Present(page)) = &self.desk else {
            return 0;
        };
        match page.sitting.hand.pointer() {
            Some((x, y)) => 1 + u32::from(x) + u32::from(COLUMNS) * u32::from(y),
            None => 0,
        }
    }

    /// How many bytes there are of it.
    pub fn size(&self, made: Made) -> usize
        ensures { result ≡ length (made_by self.now made) }
    {
        match made {
            Made::Drawing => self.scene.drawing.len(),
            Made::Line => self.scene.line.len(),
            Made::Calls => self.scene.calls.len(),
            Made::Text => self.text.len(),
        }
    }

    /// Copies as much of it as there is room for, and returns how much that is.
    pub fn copy(&self, made: Made, to: &mut [u8]) -> usize
        ensures size { result ≡ min (length (made_by self.now made)) (length to.old) }
        ensures copied { to.new ≡ take result (made_by self.now made) ++ drop result to.old }
    {
        match made {
            Made::Drawing => copied(&self.scene.drawing, to),
            Made::Line => copied(&self.scene.line, to),
            Made::Calls => copied(&self.scene.calls, to),
            Made::Text => copied(&self.text, to),
        }
    }
}

/// Copies as much as there is room for, and returns how much that is.
fn copied(from: &[u8], to: &mut [u8]) -> usize
    ensures size { result ≡ min (length from.now) (length to.old) }
    ensures copied { to.new ≡ take result from.now ++ drop result to.old }
{
    let n = from.len().min(to.len());
    to[..n].copy_from_slice(&from[..n]);
    n
}

/// The document of that name and this file of the host's, or a status that says why there is none.
fn document_of(alloc: Global, name: &[u8], file: &[u8]) -> Result<Document, u32>
    ensures name { IfOk result (λ document. document.0 ≡ name.now) }
    ensures text { IfOk result (λ document. imported file.now ≡ Ok document.1) }
    ensures refused { IfErr result (IsNoFile name.now file.now) }
{
    let Some(name) = Name::new(name) else {
        return Err(NO_NAME);
    };
    match document(alloc, file) {
        Ok(text) => match Document::new(name, text) {
            Some(document) => Ok(document),
            None => unreachable!(),
        },
        Err(unfit) => Err(status_of_unfit(unfit)),
    }
}

/// The document of that name and this file of the host's behind others, or a status that says why there is none.
fn with_one_more(
    alloc: Global,
    coming: Vec<Document>,
    name: &[u8],
    file: &[u8],
) -> Result<Vec<Document>, u32>
    ensures all { IfOk result (λ documents. (document : List ℕ) × (imported file.now ≡ Ok document)
        × (documents.items ≡ coming.items ++ (name.now, document) ∷ [])) }
    ensures refused { IfErr result (IsNoFile name.now file.now) }
{
    let mut documents = coming;
    let document = document_of(alloc, name, file)?;
    if documents.push(document).is_err() {
        return Err(NO_MEMORY);
    }
    Ok(documents)
}
