//! What a host is handed of a page, and what a call does to a page.
ghost use Rattle.std.specs.Prelude.{◌≡◌, ℕ, is_none, true, false, IfOk, IfErr, IsErrOf, IsOk, OnOk};
ghost use Rattle.desk_journal.specs.View.{IsDurable};
ghost use Rattle.desk_sitting.specs.declared.sitting.TheConstants.{MOST_TURNS};
ghost use Rattle.page_disks.specs.Spelling.{spelling_of_calls};
ghost use Rattle.desk_page.specs.Turns.{AreTravelled, Begins, BringsOrTurnsDown, KeepsFrom, Presses, IsMade, IsMadeOrFound, IsToldAll, IsHanded, IsNotBegun};
ghost use Rattle.desk_page.specs.Turns.{IsOfMemory, IsStopped, IsNotPressed, IsWithheld, OfTravels};

use crate::documents::bring;
use crate::heard::{hear, hearing};
use crate::page::{Page, begin, begin_new, close, show};
use desk_journal::{Error, Store};
use desk_past::go_on;
use desk_sitting::{MOST_TURNS, Sitting, travel};
use desktop_definitions::Reply;
use document_filing::Document;
use page_disks::{RecordedDisk, blank_disk};
use sector_disk::Disk;
use std::alloc::Global;
use store_layout::{LAST_EPOCH, showing_law};

/// A page over the disk whose calls the host repeats.
pub type HostPage = Page<RecordedDisk>;

/// What a host is handed of a page: the drawing, the line below it, the calls of the disk that it hasn't been told, and
/// whether the page rings.
#[derive(Drop)]
pub struct Scene {
    pub drawing: Vec<u8>,
    pub line: Vec<u8>,
    pub calls: Vec<u8>,
    pub rings: bool,
}

/// A page and what the host is handed of it.
pub(crate) type Turn = Result<(HostPage, Scene), Error>;

/// A page before the store on a disk that was loaded, or before a new one where none was. Where it is to keep a past, that goes
/// on or begins.
///
/// Errors: those of `begin` and of `go_on`; `NoMemory`, where a new one can't be made.
pub(crate) fn begun(
    alloc: Global,
    loaded: Option<RecordedDisk>,
    past: bool,
) -> Result<HostPage, Error>
    ensures begun { IfOk result (Begins ⟦<RecordedDisk as Disk>⟧ past loaded) }
    ensures refused { IfErr result (IsNotBegun ⟦<RecordedDisk as Disk>⟧ loaded) }
{
    let page = found_or_made(alloc, loaded)?;
    if past { keeping(alloc, page) } else { Ok(page) }
}

/// A page before the store on a disk that was loaded, or before a new one where none was.
///
/// Errors: those of `begin` and `made`.
fn found_or_made(alloc: Global, loaded: Option<RecordedDisk>) -> Result<HostPage, Error>
    ensures is { IfOk result (IsMadeOrFound ⟦<RecordedDisk as Disk>⟧ loaded) }
    ensures usable { IfOk result (λ page. page.store.must_reopen ≡ false) }
    ensures refused { IfErr result (IsNotBegun ⟦<RecordedDisk as Disk>⟧ loaded) }
{
    match loaded {
        None => made(alloc),
        Some(disk) => begin(alloc, disk),
    }
}

/// The same page, whose store keeps a past from now on, unless its epochs are used up.
///
/// Errors: those of `go_on`.
fn keeping(alloc: Global, page: HostPage) -> Result<HostPage, Error>
    requires { page.store.must_reopen ≡ false }
    ensures kept { IfOk result (KeepsFrom ⟦<RecordedDisk as Disk>⟧ page) }
    ensures refused { IfErr result IsOfMemory }
{
    let mut page = page;
    let info = page.store.info()?;
    if info.epoch == LAST_EPOCH {
        return Ok(page);
    }
    let _outset = go_on(alloc, &mut page.store, true)?;
    Ok(page)
}

/// A page before a new store, over a disk that has all of its calls to tell.
///
/// Error: `NoMemory`.
fn made(alloc: Global) -> Result<HostPage, Error>
    ensures made { IfOk result (IsMade ⟦<RecordedDisk as Disk>⟧) }
    ensures refused { IfErr result (λ error. error ≡ Error.NoMemory) }
{
    showing_law();
    let Ok(disk) = blank_disk(alloc) else {
        return Err(Error::NoMemory);
    };
    let Ok(page) = begin_new(alloc, disk) else {
        return Err(Error::NoMemory);
    };
    let disk = close(page);
    if !disk.is_whole() {
        return Err(Error::NoMemory);
    }
    match begin(alloc, disk) {
        Ok(page) => Ok(page),
        Err(_) => Err(Error::NoMemory),
    }
}

/// The page after what is pressed by these bytes of a terminal and a quiet while, and what is asked for by that.
///
/// Errors: those of `hear` and of `travel`; `MustReopen`.
pub(crate) fn pressed(alloc: Global, page: HostPage, bytes: &[u8]) -> Turn
    ensures done { IfOk result (λ both.
        Presses ⟦<RecordedDisk as Disk>⟧ bytes.now page both.0 both.1) }
    ensures failed { IfErr result (IsNotPressed ⟦<RecordedDisk as Disk>⟧ bytes.now page) }
{
    let mut page = page;
    usable(&page.store)?;
    let Ok(heard) = hearing(alloc, bytes) else {
        return Err(Error::NoMemory);
    };
    hear(alloc, &mut page, heard.as_slice())?;
    usable(&page.store)?;
    travel_on(alloc, &mut page.sitting, &mut page.store)?;
    settled(alloc, page)
}

/// Does what is asked for beside the presses, step after step, until nothing is asked for.
///
/// Errors: those of `travel`; `MustReopen` after `MOST_TURNS` steps.
fn travel_on(
    alloc: Global,
    sitting: &mut Sitting,
    store: &mut Store<RecordedDisk>,
) -> Result<(), Error>
    requires usable { store.old.must_reopen ≡ false }
    requires durable { IsDurable ⟦<RecordedDisk as Disk>⟧ store.old }
    ensures travelled { OnOk result ((count : ℕ) × AreTravelled ⟦<RecordedDisk as Disk>⟧ count
        sitting.old sitting.new store.old store.new) }
    ensures endless { IsErrOf result Error.MustReopen → (count : ℕ) × (count ≡ MOST_TURNS)
        × AreTravelled ⟦<RecordedDisk as Disk>⟧ count sitting.old sitting.new store.old store.new }
    ensures errors { IfErr result OfTravels }
    ensures rests { OnOk result (is_none sitting.new.travels ≡ true) }
    ensures usable { OnOk result (store.new.must_reopen ≡ false) }
{
    for _count in 0..MOST_TURNS {
        if sitting.travels.is_none() {
            return Ok(());
        }
        travel(alloc, sitting, store)?;
    }
    Err(Error::MustReopen)
}

/// The page after documents were brought, with what is handed of it, or the page as it was where there is no room for
/// them.
///
/// Errors: those of `bring`.
pub(crate) fn brought(
    alloc: Global,
    page: HostPage,
    documents: &[Document],
) -> Result<(HostPage, Option<Scene>), Error>
    ensures done { IfOk result (λ both.
        BringsOrTurnsDown ⟦<RecordedDisk as Disk>⟧ documents.now page both.0 both.1) }
    ensures failed { IfErr result (IsStopped page) }
{
    let mut page = page;
    match bring(alloc, &mut page, documents)? {
        Reply::No(_) => Ok((page, None)),
        Reply::Done => {
            let (page, scene) = settled(alloc, page)?;
            Ok((page, Some(scene)))
        }
    }
}

/// Draws a page, and tells the calls of its disk.
///
/// Errors: `NoMemory`; `Fault`; `MustReopen`.
pub(crate) fn settled(alloc: Global, page: HostPage) -> Turn
    ensures handed { IfOk result (λ both.
        IsHanded ⟦<RecordedDisk as Disk>⟧ page both.0 both.1) }
    ensures withheld { IfErr result (IsWithheld page) }
{
    let rings = page.sitting.rings;
    let (page, calls) = told(alloc, page)?;
    let mut page = page;
    let mut drawing = Vec::new(alloc);
    let mut line = Vec::new(alloc);
    show(alloc, &mut page, &mut drawing, &mut line)?;
    Ok((
        page,
        Scene {
            drawing,
            line,
            calls,
            rings,
        },
    ))
}

/// The calls of a page's disk, which then forgets them. The store is in use as before.
///
/// Errors: `NoMemory`; `MustReopen`.
fn told(alloc: Global, page: HostPage) -> Result<(HostPage, Vec<u8>), Error>
    ensures page { IfOk result (λ both. IsToldAll ⟦<RecordedDisk as Disk>⟧ page both.0) }
    ensures calls { IfOk result (λ both. both.1.items ≡ spelling_of_calls page.store.disk.since) }
    ensures withheld { IfErr result (IsWithheld page) }
{
    let mut page = page;
    usable(&page.store)?;
    let mut calls = Vec::new(alloc);
    let noted = page.store.disk().spelled();
    if calls.extend_from_slice(noted).is_err() {
        return Err(Error::NoMemory);
    }
    page.store.forget_noted();
    page.store.shows_what_crashes_leave();
    Ok((page, calls))
}

/// Whether the store needn't be opened again: what it shows is then what every crash leaves.
///
/// Error: `MustReopen`.
pub(crate) fn usable(store: &Store<RecordedDisk>) -> Result<(), Error>
    ensures usable { IsOk result → store.now.must_reopen ≡ false }
    ensures durable { IsOk result → IsDurable ⟦<RecordedDisk as Disk>⟧ store.now }
    ensures reopen { IfErr result (λ error. (error ≡ Error.MustReopen)
        × (store.now.must_reopen ≡ true)) }
{
    match store.info() {
        Ok(_) => Ok(()),
        Err(error) => Err(error),
    }
}
