//! Playing a script over a store.
ghost use Rattle.std.specs.Prelude.{◌≡◌, ◌⊎◌, ◌↔◌, ℕ, List, [], ◌∷◌, false, OnOk, IsOk, IsErrOf};
ghost use Rattle.sector_disk.specs.Faults.{FailsAs, OneOf};
ghost use Rattle.screen_cells.specs.Sent.{Sends};
ghost use Rattle.oberon_main.specs.declared.playing.PlayEnd.TheVariants as ends;
ghost use Rattle.script_lines.specs.Reading.{HoldsLine};
ghost use Rattle.byte_streams.specs.Counting.{CountsFault, RisesWhere};
ghost use Rattle.desk_journal.specs.View.{IsDurable};
ghost use Rattle.oberon_main.specs.Play.{play_state, last_word};
ghost use Rattle.oberon_main.specs.ByLines.{PlaysLines, PlaysLine, EndsInRest};
ghost use Rattle.oberon_main.specs.Promised.{PlaysScript, ReadsScript, WritesAnswers};
ghost use Rattle.oberon_main.specs.Worked.{play_end_of};

use crate::answering::work_out;
use byte_streams::{AnswerWriter, ScriptReader};
use desk_journal::{Error, Store};
use script_lines::{Line, LineEnd, OutputFault, Request, Script, send, short_line};
use sector_disk::Disk;
use std::alloc::{AllocError, Global};

/// How a script came to its end.
#[derive(Clone, Copy, Debug, PartialEq, Eq)]
pub enum PlayEnd {
    /// Each line was answered.
    Done,
    /// The disk failed.
    Fault,
    /// An allocation was refused.
    Memory,
    /// A read of the script failed, or it took too many.
    Input,
    /// A write or a flush of the output failed, or a write took no byte.
    Output,
}

impl From<AllocError> for PlayEnd {
    ghost from_gives = { λ _ end. end ≡ ends.Memory };

    /// A script ends by `Memory` where an allocation is refused.
    fn from(_refused: AllocError) -> PlayEnd {
        PlayEnd::Memory
    }
}

impl From<OutputFault> for PlayEnd {
    ghost from_gives = { λ _ end. end ≡ ends.Output };

    /// A script ends by `Output` where the output takes no more.
    fn from(_fault: OutputFault) -> PlayEnd {
        PlayEnd::Output
    }
}

impl From<Error> for PlayEnd {
    ghost use Rattle.std.specs.Prelude.{◌≡◌};
    ghost use Rattle.oberon_main.specs.Worked.{play_end_of};

    ghost from_gives = { λ error end. end ≡ play_end_of error };

    /// A script ends by `Memory` where the store is out of memory, and by `Fault` where it refuses otherwise.
    fn from(error: Error) -> PlayEnd {
        match error {
            Error::NoMemory => PlayEnd::Memory,
            _ => PlayEnd::Fault,
        }
    }
}

/// How many read calls that give bytes a script may take.
pub const MOST_READS: u32 = 67_108_864;

/// Plays the script that the reader gives: each line is answered on the writer, and the writer flushed, before the
/// next line is read.
///
/// It ends with the script, or earlier where the disk, the memory, the reader or the writer fails; but for the
/// writer's failure a last line then says why: `fault`, `memory` or `input`. After `MOST_READS` reads that gave bytes
/// the reader counts as failed. The store must be one that needn't be opened again.
pub fn play<R: ScriptReader, W: AnswerWriter, D: Disk>(
    alloc: Global,
    reader: &mut R,
    writer: &mut W,
    store: &mut Store<D>,
) -> PlayEnd
    requires { store.old.must_reopen ≡ false }
    ensures { PlaysScript R.ScriptReader W.AnswerWriter D.Disk MOST_READS result
        reader.old reader.new writer.old writer.new store.old store.new }
{
    play_bounded(alloc, reader, writer, store, MOST_READS)
}

/// Plays as `play` does, with another bound on the reads: after so many that gave bytes the reader counts as failed.
pub fn play_bounded<R: ScriptReader, W: AnswerWriter, D: Disk>(
    alloc: Global,
    reader: &mut R,
    writer: &mut W,
    store: &mut Store<D>,
    reads: u32,
) -> PlayEnd
    requires { store.old.must_reopen ≡ false }
    ensures { PlaysScript R.ScriptReader W.AnswerWriter D.Disk reads result reader.old reader.new
        writer.old writer.new store.old store.new }
{
    let end = play_lines(alloc, reader, reads, writer, store);
    match say(writer, end) {
        Ok(()) => end,
        Err(OutputFault) => PlayEnd::Output,
    }
}

/// Writes why the script ended early, where the output can still take it.
fn say<W: AnswerWriter>(writer: &mut W, end: PlayEnd) -> Result<(), OutputFault>
    ensures said { Sends result (W.contents writer.old) (W.contents writer.new) (last_word end) }
    ensures done { end ≡ ends.Done → IsOk result }
    ensures output { end ≡ ends.Output → IsOk result }
    ensures handed { OnOk result (W.unflushed writer.old ≡ 0 → W.unflushed writer.new ≡ 0) }
    ensures cause { CountsFault result (W.failures writer.old) (W.failures writer.new) }
{
    match end {
        PlayEnd::Done | PlayEnd::Output => Ok(()),
        PlayEnd::Fault => send(writer, short_line(b"fault").as_slice()),
        PlayEnd::Memory => send(writer, short_line(b"memory").as_slice()),
        PlayEnd::Input => send(writer, short_line(b"input").as_slice()),
    }
}

/// Plays all lines, by so many reads that give bytes at most. It says nothing of why the script ended early.
fn play_lines<R: ScriptReader, W: AnswerWriter, D: Disk>(
    alloc: Global,
    reader: &mut R,
    reads: u32,
    writer: &mut W,
    store: &mut Store<D>,
) -> PlayEnd
    requires { store.old.must_reopen ≡ false }
    ensures by_lines { D.honest store.old.disk → PlaysLines D.Disk result
        (play_state (R.remaining reader.old) (W.contents writer.old) store.old)
        (play_state (R.remaining reader.new) (W.contents writer.new) store.new) }
    ensures usable { (result ≡ ends.Done) ⊎ (result ≡ ends.Input) → store.new.must_reopen ≡ false }
    ensures premise { D.honest store.new.disk ↔ D.honest store.old.disk }
    ensures reading { ReadsScript R.ScriptReader reads result reader.old reader.new }
    ensures writing { WritesAnswers W.AnswerWriter result writer.old writer.new }
    ensures faults { RisesWhere (result ≡ ends.Fault)
        (D.failures store.old.disk) (D.failures store.new.disk) }
{
    store.shows_what_crashes_leave();
    let mut script = Script::new(reads);
    let mut line = Line::new();
    let mut request = Request::Malformed;
    loop {
        match script.take_line(&mut line, reader) {
            LineEnd::Feed => {
                if let Err(end) = play_line(alloc, &line, &mut request, writer, store) {
                    return end;
                }
            }
            LineEnd::End => return play_rest(alloc, &line, &mut request, writer, store),
            LineEnd::Fault => return PlayEnd::Input,
        }
    }
}

/// Plays what stands after the last line feed, where that is anything. The request is what the line before asked for.
fn play_rest<W: AnswerWriter, D: Disk>(
    alloc: Global,
    line: &Line,
    request: &mut Request,
    writer: &mut W,
    store: &mut Store<D>,
) -> PlayEnd
    requires { store.old.must_reopen ≡ false }
    ensures by_lines { IsDurable D.Disk store.old → D.honest store.old.disk
        → (rest : List ℕ) → HoldsLine line.now rest
        → EndsInRest D.Disk rest (W.contents writer.old) (W.contents writer.new)
        store.old store.new result }
    ensures usable { result ≡ ends.Done → store.new.must_reopen ≡ false }
    ensures no_input { result ≡ ends.Input → ⊥ }
    ensures premise { D.honest store.new.disk ↔ D.honest store.old.disk }
    ensures writing { WritesAnswers W.AnswerWriter result writer.old writer.new }
    ensures faults { RisesWhere (result ≡ ends.Fault)
        (D.failures store.old.disk) (D.failures store.new.disk) }
{
    if line.is_empty() {
        return PlayEnd::Done;
    }
    match play_line(alloc, line, request, writer, store) {
        Ok(()) => PlayEnd::Done,
        Err(end) => end,
    }
}

/// Plays one line: its answer is worked out, and then written. The request is what the line before asked for; what this
/// one asks for takes its place.
fn play_line<W: AnswerWriter, D: Disk>(
    alloc: Global,
    line: &Line,
    request: &mut Request,
    writer: &mut W,
    store: &mut Store<D>,
) -> Result<(), PlayEnd>
    requires { store.old.must_reopen ≡ false }
    ensures by_lines { PlaysLine D.Disk line.now result
        (W.contents writer.old) (W.contents writer.new) store.old store.new }
    ensures usable { OnOk result (store.new.must_reopen ≡ false) }
    ensures durable { OnOk result (IsDurable D.Disk store.new) }
    ensures premise { D.honest store.new.disk ↔ D.honest store.old.disk }
    ensures handed { (IsErrOf result ends.Output → ⊥)
        → W.unflushed writer.old ≡ 0 → W.unflushed writer.new ≡ 0 }
    ensures faults { FailsAs ends.Fault (OneOf (ends.Fault ∷ ends.Memory ∷ ends.Output ∷ []))
        result (D.failures store.old.disk) (D.failures store.new.disk) }
    ensures output { FailsAs ends.Output (OneOf (ends.Fault ∷ ends.Memory ∷ ends.Output ∷ []))
        result (W.failures writer.old) (W.failures writer.new) }
{
    line.ask(request);
    let answer = work_out(alloc, request, store)?;
    store.shows_what_crashes_leave();
    send(writer, answer.as_bytes())?;
    Ok(())
}
