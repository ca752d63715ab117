//! The answer to a request, worked out over a store.
ghost use Rattle.std.specs.Prelude.{◌≡◌, ◌≢◌, false, IfOk, IfErr, codes};
ghost use Rattle.screen_pictures.specs.Printed.{ended_line};
ghost use Rattle.script_lines.specs.declared.request.Request.TheVariants.{Post, Checkpoint, Show};
ghost use Rattle.script_lines.specs.declared.request.Request.TheVariants.{Listing, Display};
ghost use Rattle.oberon_main.specs.Worked.{bytes_of_answer, play_end_of, WorksOut, LooksOut};

use crate::playing::PlayEnd;
use desk_journal::{Error, Store};
use desktop_definitions::codes;
use event_bytes::{Event, Name};
use screen_cells::Screen;
use script_lines::{
    Request, ShortLine, list_bytes, refusal_bytes, reply_bytes, screen_bytes, short_line,
    text_bytes,
};
use sector_disk::Disk;
use std::alloc::Global;

/// An answer: a short line, which takes no memory, or the lines of a look at the desktop.
#[derive(Drop)]
pub enum Answer {
    Short(ShortLine),
    Long(Vec<u8>),
}

impl Answer {
    /// Its bytes, with the line feed of each line.
    pub fn as_bytes(&self) -> &[u8]
        ensures { result.now ≡ bytes_of_answer self.now }
    {
        match self {
            Answer::Short(line) => line.as_slice(),
            Answer::Long(text) => text.as_slice(),
        }
    }
}

/// Works out the answer to a request as a whole. Events and checkpoints change the store, nothing else does.
#[tactic(auto, unfolding(crate::specs::Answers::answer, crate::specs::Answers::session_after))]
pub fn work_out<D: Disk>(
    alloc: Global,
    request: &Request,
    store: &mut Store<D>,
) -> Result<Answer, PlayEnd>
    requires { store.old.must_reopen ≡ false }
    ensures { WorksOut D.Disk request.now result store.old store.new }
{
    match request {
        Request::Post(event) => post(alloc, event, store),
        Request::Checkpoint => checkpoint(store),
        Request::Show(name) => show(alloc, name, store),
        Request::Listing => list(alloc, store),
        Request::Display => screen(alloc, store),
        Request::Malformed => Ok(Answer::Short(short_line(b"?"))),
    }
}

/// Posts an event. Its answer is the reply, or `worn` where there is no room for it any more.
fn post<D: Disk>(alloc: Global, event: &Event, store: &mut Store<D>) -> Result<Answer, PlayEnd>
    requires { store.old.must_reopen ≡ false }
    ensures { WorksOut D.Disk (Post event.now) result store.old store.new }
{
    match store.post(alloc, event) {
        Ok(reply) => Ok(Answer::Short(reply_bytes(reply))),
        Err(error) => refused(error),
    }
}

/// Makes a checkpoint. Its answer is `ok`, or `worn` where the epoch is the last one.
fn checkpoint<D: Disk>(store: &mut Store<D>) -> Result<Answer, PlayEnd>
    requires { store.old.must_reopen ≡ false }
    ensures { WorksOut D.Disk Checkpoint result store.old store.new }
{
    match store.checkpoint() {
        Ok(()) => Ok(Answer::Short(short_line(b"ok"))),
        Err(error) => refused(error),
    }
}

/// What a post or a checkpoint comes to that was refused: `worn` in the last epoch, else the script ends.
fn refused(error: Error) -> Result<Answer, PlayEnd>
    ensures worn { IfOk result (λ a. (error ≡ Error.Worn)
        × (bytes_of_answer a ≡ ended_line (codes "worn"))) }
    ensures other { IfErr result (λ end. (error ≢ Error.Worn) × (end ≡ play_end_of error)) }
{
    match error {
        Error::Worn => Ok(Answer::Short(short_line(b"worn"))),
        _ => Err(PlayEnd::from(error)),
    }
}

/// Works out the lines of a file's text, or that there is no such file. Looks are compiled apart: a line that posts takes
/// no room on the stack for what they want.
#[inline(never)]
#[tactic(auto, unfolding(crate::specs::Answers::answer, crate::specs::Answers::session_after))]
fn show<D: Disk>(alloc: Global, name: &Name, store: &mut Store<D>) -> Result<Answer, PlayEnd>
    requires { store.old.must_reopen ≡ false }
    ensures { LooksOut D.Disk (Show name.now) result store.old store.new }
{
    match store.file(alloc, name)? {
        None => Ok(Answer::Short(refusal_bytes(codes::NO_FILE))),
        Some(text) => Ok(Answer::Long(text_bytes(alloc, text.as_slice())?)),
    }
}

/// Works out the lines of what the desktop has.
#[inline(never)]
#[tactic(auto, unfolding(crate::specs::Answers::answer, crate::specs::Answers::session_after))]
fn list<D: Disk>(alloc: Global, store: &mut Store<D>) -> Result<Answer, PlayEnd>
    requires { store.old.must_reopen ≡ false }
    ensures { LooksOut D.Disk Listing result store.old store.new }
{
    let entries = store.list(alloc)?;
    Ok(Answer::Long(list_bytes(alloc, entries.as_slice())?))
}

/// Works out the printed screen.
#[inline(never)]
#[tactic(auto, unfolding(crate::specs::Answers::answer, crate::specs::Answers::session_after))]
fn screen<D: Disk>(alloc: Global, store: &mut Store<D>) -> Result<Answer, PlayEnd>
    requires { store.old.must_reopen ≡ false }
    ensures { LooksOut D.Disk Display result store.old store.new }
{
    let mut screen = Screen::new();
    store.screen(alloc, &mut screen)?;
    Ok(Answer::Long(screen_bytes(alloc, &screen)?))
}
