//! A person at a terminal, over a store in a file or in memory.
ghost use Rattle.std.specs.Prelude.{◌≡◌, false, IfOk, OnOk};
ghost use Rattle.terminal_sittings.specs.Serving.{IsUsableAt};

use crate::endings::{kept, lost};
use byte_streams::{AnswerWriter, CountedWriter};
use cli_stores::{NewFile, Trouble, in_memory, make, new_file};
use desk_journal::{Error, Store};
use desk_past::{Outset, go_on};
use desk_sitting::MOST_TURNS;
use done_presses::Past;
use host_files::{HostFault, LockedFile, lock_alone};
use host_stores::{FileDisk, with_past_room, without_twin};
use past_viewer::{HeldKeys, PastKeys, ViewEnd, Window as Size, view};
use screen_drawing::{ring, send_bytes};
use sector_disk::Disk;
use status_line::Saying;
use std::fs::File;
use std::io::BufWriter;
use terminal_keyboard::{DeskKeyboard, Keyboard, StandardInput};
use terminal_sittings::{SittingEnd, serve};
use twin_disk::Leg;
use twin_files::{OpenedPair, PairTrouble, PairWatch, WatchedKeyboard, open_pair};

/// What a terminal answers with its size: its cursor goes to the last cell, says where it is, and goes back.
const ASK_SIZE: &[u8] = b"\x1b7\x1b[999;999H\x1b[6n\x1b8";

/// How many rows and columns a terminal has, and whether lines are filled that are typed at it.
#[derive(Clone, Copy)]
pub struct Window {
    pub rows: u16,
    pub columns: u16,
    pub fills: bool,
}

/// How a person is served.
#[derive(Clone, Copy)]
pub(crate) struct Service {
    /// How many rows and columns the terminal has.
    pub(crate) window: Window,
    /// What the line below begins with.
    pub(crate) greeting: Saying,
    /// Before a press loses something it is asked about.
    pub(crate) questions: bool,
    /// A past begins where the store keeps none.
    pub(crate) past: bool,
    /// The store was made for this sitting.
    pub(crate) made: bool,
}

/// The keys of a terminal, files of the host's, what is seen of the store's files, and a text that was copied in the past, as
/// one keyboard.
type DeskKeys<'a> = HeldKeys<
    WatchedKeyboard<DeskKeyboard<'a, PastKeys<StandardInput>>, FileDisk<File>>,
>;

/// Serves a person at the desktop of a new store in memory, and returns the status.
pub(crate) fn sit_in_memory(rt: &HostRuntime, service: Service) -> u8 {
    match in_memory(rt) {
        Ok(store) => lost(rt, sit(rt, store, service)),
        Err(trouble) => trouble.say(rt, ""),
    }
}

/// Serves a person at the desktop of the store in a file, which is made where there is none, and returns the status.
pub(crate) fn sit_at(rt: &HostRuntime, path: &str, service: Service) -> u8 {
    match lock_alone(rt, path) {
        Ok(file) => sit_at_locked(rt, file, path, service),
        Err(HostFault::Missing) => sit_at_new(rt, path, service),
        Err(fault) => Trouble::Host(fault).say(rt, path),
    }
}

/// The same, in the file of that path, which is locked. If it has a twin, the line below says first that this gets nothing.
fn sit_at_locked(rt: &HostRuntime, file: LockedFile, path: &str, service: Service) -> u8 {
    let mut service = service;
    match without_twin(rt, file) {
        Ok((store, left_twin)) => {
            if left_twin {
                service.greeting = Saying::WithoutTwin;
            }
            sit_keeping(rt, store, path, service)
        }
        Err(error) => Trouble::Store(error).say(rt, path),
    }
}

/// The same over a store on a disk with room for a past, which goes on or begins, if the store keeps one or is to. Where the
/// disk fails at that, as a file system that is full, the person sits down without one.
fn sit_keeping(
    rt: &HostRuntime,
    store: Store<FileDisk<LockedFile>>,
    path: &str,
    service: Service,
) -> u8
    requires { store.must_reopen ≡ false }
{
    let mut store = store;
    match kept_from_now(rt, &mut store, service) {
        Ok(greeting) => {
            let greeted = Service {
                greeting,
                ..service
            };
            kept(rt, path, sit(rt, store, greeted))
        }
        Err(Error::Fault) => {
            drop(store);
            sit_without_past(rt, path, service)
        }
        Err(error) => Trouble::Store(error).say(rt, path),
    }
}

/// A past goes on, if the store keeps one, and begins, if it is to. Returns what the line below says first.
///
/// Errors: those of `go_on`.
fn kept_from_now<D: Disk>(
    rt: &HostRuntime,
    store: &mut Store<D>,
    service: Service,
) -> Result<Saying, Error>
    requires { store.old.must_reopen ≡ false }
    ensures usable { OnOk result (store.new.must_reopen ≡ false) }
{
    let went_on = go_on(rt.alloc(), store, false)?;
    if !service.past || went_on != Outset::Absent {
        return Ok(service.greeting);
    }
    let begun = go_on(rt.alloc(), store, true)?;
    Ok(first_told(service, begun))
}

/// What the line below says first where a past was to begin: of a store that was there before, that it keeps one from now on;
/// that none is kept, where none began. That a store has a twin, which gets nothing, goes before that.
fn first_told(service: Service, begun: Outset) -> Saying {
    match (service.greeting, begun) {
        (Saying::WithoutTwin, _) => Saying::WithoutTwin,
        (_, Outset::Absent) => Saying::NoPast,
        (greeting, _) if service.made => greeting,
        (_, _) => Saying::PastBegins,
    }
}

/// Serves a person at the desktop of a store behind which nothing can be written: it is opened anew, and keeps no past. The
/// line below says so.
fn sit_without_past(rt: &HostRuntime, path: &str, service: Service) -> u8 {
    let told = Service {
        greeting: Saying::NoPast,
        ..service
    };
    match opened_again(rt, path) {
        Ok(store) => kept(rt, path, sit(rt, store, told)),
        Err(trouble) => trouble.say(rt, path),
    }
}

/// The store in the file of that path.
///
/// Errors: those of `lock_alone` and of `without_twin`.
fn opened_again(rt: &HostRuntime, path: &str) -> Result<Store<FileDisk<LockedFile>>, Trouble>
    ensures { IfOk result (λ store. store.must_reopen ≡ false) }
{
    match lock_alone(rt, path) {
        Err(fault) => Err(Trouble::Host(fault)),
        Ok(file) => match without_twin(rt, file) {
            Err(error) => Err(Trouble::Store(error)),
            Ok((store, _left_twin)) => Ok(store),
        },
    }
}

/// The same, where there is no file yet. The store is made under another name, and gets its own when it is whole: so
/// there is a whole store or none, whenever the making is stopped.
fn sit_at_new(rt: &HostRuntime, path: &str, service: Service) -> u8 {
    match new_file(rt, path) {
        Ok(made) => sit_at_made(rt, made, path, service),
        Err(trouble) => trouble.say(rt, path),
    }
}

/// The same, in the file under the other name.
fn sit_at_made(rt: &HostRuntime, made: NewFile, path: &str, service: Service) -> u8 {
    let begun = Service {
        made: true,
        ..service
    };
    match make(rt, made, path) {
        Ok(store) => sit_again(rt, store.close().into_file(), path, begun),
        Err(trouble) => trouble.say(rt, path),
    }
}

/// The same, in a file whose store was just made.
fn sit_again(rt: &HostRuntime, file: LockedFile, path: &str, service: Service) -> u8 {
    match with_past_room(rt, file) {
        Ok(store) => sit_keeping(rt, store, path, service),
        Err(error) => Trouble::Store(error).say(rt, path),
    }
}

/// Serves a person at the desktop of the store in a file and in its twin, and returns the status. Where there is neither
/// the store is made first.
pub(crate) fn sit_at_pair(rt: &HostRuntime, path: &str, twin: &str, service: Service) -> u8 {
    match open_pair(rt, path, twin) {
        Ok(pair) => sit_at_opened(rt, pair, path, twin, service),
        Err(PairTrouble::NoFile) => sit_at_new_pair(rt, path, twin, service),
        Err(trouble) => trouble.say(rt, path, twin),
    }
}

/// The same, where there is no file yet.
fn sit_at_new_pair(rt: &HostRuntime, path: &str, twin: &str, service: Service) -> u8 {
    if let Err(trouble) = make_at(rt, path) {
        return trouble.say(rt, path);
    }
    match open_pair(rt, path, twin) {
        Ok(pair) => sit_at_opened(rt, pair, path, twin, service),
        Err(trouble) => trouble.say(rt, path, twin),
    }
}

/// Makes a store at a path.
fn make_at(rt: &HostRuntime, path: &str) -> Result<(), Trouble> {
    let _store = make(rt, new_file(rt, path)?, path)?;
    Ok(())
}

/// The same, over both files. At its end it is said if one of them failed.
fn sit_at_opened(rt: &HostRuntime, pair: OpenedPair, path: &str, twin: &str, service: Service) -> u8
    requires { pair.store.must_reopen ≡ false }
{
    let mut pair = pair;
    let watch = PairWatch::new(rt, path, twin).ok();
    let status = kept(rt, path, sit_watched(rt, &mut pair.store, watch, service));
    pair.end(rt, path, twin);
    status
}

/// Serves a person at the desktop of a store.
fn sit<D: Disk + Drop>(rt: &HostRuntime, store: Store<D>, service: Service) -> SittingEnd
    requires { store.must_reopen ≡ false }
{
    let mut store = store;
    sit_watched(rt, &mut store, None, service)
}

/// The same, and where one of the store's two files fails the line below says so until a key is pressed. What the terminal
/// is sent is gathered until it is flushed, so that a scene is one write.
fn sit_watched<D: Disk>(
    rt: &HostRuntime,
    store: &mut Store<D>,
    watch: Option<PairWatch>,
    service: Service,
) -> SittingEnd
    requires { store.old.must_reopen ≡ false }
{
    let Ok(output) = BufWriter::new(rt.alloc(), rt.stdout()) else {
        return SittingEnd::Memory;
    };
    let mut writer = CountedWriter::new(output);
    let keys = PastKeys::new(StandardInput::new(rt.stdin()));
    let watched = WatchedKeyboard::new(DeskKeyboard::new(rt, keys), watch);
    let mut keyboard = HeldKeys::new(rt.alloc(), watched);
    let mut holds = false;
    let end = serve_through(rt, &mut keyboard, &mut holds, &mut writer, store, service);
    match keyboard.keys.failed() {
        Some(leg) if matches!(end, SittingEnd::Closed) => {
            let told = Service {
                greeting: failure_of(leg),
                ..service
            };
            serve_told(rt, &mut keyboard, &mut holds, &mut writer, store, told)
        }
        _ => end,
    }
}

/// What is said of a file that failed.
fn failure_of(leg: Leg) -> Saying {
    match leg {
        Leg::First => Saying::FirstFailed,
        Leg::Second => Saying::TwinFailed,
    }
}

/// Rings, asks for the size of the terminal, and goes on serving.
fn serve_told<W: AnswerWriter, D: Disk>(
    rt: &HostRuntime,
    keyboard: &mut DeskKeys<'_>,
    holds: &mut bool,
    writer: &mut W,
    store: &mut Store<D>,
    service: Service,
) -> SittingEnd
    requires { store.old.must_reopen ≡ false }
{
    if send_bytes(writer, ASK_SIZE).is_err() || ring(writer).is_err() {
        return SittingEnd::Output;
    }
    serve_through(rt, keyboard, holds, writer, store, service)
}

/// Serves a person by these devices. Where Ctrl-P ends a sitting, and no file that fails, the past is shown, and then the
/// person sits down again, unless a file failed meanwhile. What was copied of the past the keyboard holds, until something is
/// copied in the present: `holds` says whether it does so.
fn serve_through<W: AnswerWriter, D: Disk>(
    rt: &HostRuntime,
    keyboard: &mut DeskKeys<'_>,
    holds: &mut bool,
    writer: &mut W,
    store: &mut Store<D>,
    service: Service,
) -> SittingEnd
    requires { store.old.must_reopen ≡ false }
    ensures { IsUsableAt result store.new }
{
    let mut service = service;
    let failed = keyboard.keys.failed();
    for _count in 0..MOST_TURNS {
        let end = serve_by(rt, keyboard, holds, writer, store, service);
        if !matches!(end, SittingEnd::Closed) || keyboard.keys.failed() != failed {
            return end;
        }
        match view(rt.alloc(), keyboard, writer, store, size_of(service.window)) {
            Ok(viewed) => {
                service = seated_again(service, viewed.window);
                *holds = keyboard.hold(viewed.copied) || *holds;
            }
            Err(why) => return end_of(why),
        }
        if keyboard.keys.failed() != failed {
            return SittingEnd::Closed;
        }
    }
    SittingEnd::TooLong
}

/// How many rows and columns a window has.
fn size_of(window: Window) -> Size {
    Size {
        rows: window.rows,
        columns: window.columns,
    }
}

/// The same service in a window of this size, where the line below says the keys that are needed most.
fn seated_again(service: Service, size: Size) -> Service {
    Service {
        window: Window {
            rows: size.rows,
            columns: size.columns,
            fills: service.window.fills,
        },
        greeting: Saying::Keys,
        ..service
    }
}

/// How a sitting ends in which nobody looks on at the past.
fn end_of(why: ViewEnd) -> SittingEnd
    ensures fault { why ≡ ViewEnd.Fault → result ≡ SittingEnd.Fault }
    ensures memory { why ≡ ViewEnd.Memory → result ≡ SittingEnd.Memory }
{
    match why {
        ViewEnd::Closed => SittingEnd::Closed,
        ViewEnd::Input => SittingEnd::Input,
        ViewEnd::TooLong => SittingEnd::TooLong,
        ViewEnd::Output => SittingEnd::Output,
        ViewEnd::Fault => SittingEnd::Fault,
        ViewEnd::Memory => SittingEnd::Memory,
    }
}

/// Serves a person by these devices.
fn serve_by<K: Keyboard, W: AnswerWriter, D: Disk>(
    rt: &HostRuntime,
    keyboard: &mut K,
    holds: &mut bool,
    writer: &mut W,
    store: &mut Store<D>,
    service: Service,
) -> SittingEnd
    requires { store.old.must_reopen ≡ false }
    ensures { IsUsableAt result store.new }
{
    let past = past_of(rt, store);
    serve(
        rt.alloc(),
        keyboard,
        writer,
        store,
        service.window.rows,
        service.window.columns,
        service.greeting,
        service.questions,
        service.window.fills,
        holds,
        past,
    )
}

/// What was done at the desktop of a store, as far as it can be taken back. Where that can't be read nothing is known of it,
/// and undos take back event by event.
fn past_of<D: Disk>(rt: &HostRuntime, store: &mut Store<D>) -> Past
    ensures usable { store.new.must_reopen ≡ store.old.must_reopen }
{
    match store.history(rt.alloc()) {
        Ok(events) => Past::of(events.as_slice()),
        Err(_) => Past::none(),
    }
}
