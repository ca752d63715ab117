//! What is said of a store, and the statuses of the program.
ghost use Rattle.std.specs.Prelude.{◌≡◌, ◌⊎◌, false};
ghost use Rattle.std.specs.Io.KnownBytes.{Appends};
ghost use Rattle.oberon_main.specs.declared.playing.PlayEnd.TheVariants as ends;
ghost use Rattle.screen_cells.specs.Sent.{AppendsFront, Sends};
ghost use Rattle.byte_streams.specs.Counting.{CountsFault, RisesWhere};
ghost use Rattle.oberon_main.specs.Report.{check_line, error_line, refusal_status, end_status};

use crate::playing::PlayEnd;
use arrayvec::ArrayVec;
use byte_streams::AnswerWriter;
use desk_journal::{Error, Store};
use script_lines::{OutputFault, ShortLine, numbered_line, send, short_line};
use sector_disk::Disk;

/// Says the layout, the epoch and the number of events of a store that can be used.
pub fn check<W: AnswerWriter, D: Disk>(writer: &mut W, store: &Store<D>) -> PlayEnd
    requires { store.now.must_reopen ≡ false }
    ensures done { result ≡ ends.Done
        → Appends (W.contents writer.old) (W.contents writer.new)
        (check_line store.now.layout store.now.epoch store.now.events) }
    ensures output { result ≡ ends.Output
        → AppendsFront (W.contents writer.old) (W.contents writer.new)
        (check_line store.now.layout store.now.epoch store.now.events) }
    ensures named { (result ≡ ends.Done) ⊎ (result ≡ ends.Output) }
    ensures cause { RisesWhere (result ≡ ends.Output)
        (W.failures writer.old) (W.failures writer.new) }
{
    let Ok(info) = store.info() else {
        unreachable!()
    };
    let line = check_bytes(info.layout, info.epoch, info.events);
    match send(writer, line.as_slice()) {
        Ok(()) => PlayEnd::Done,
        Err(OutputFault) => PlayEnd::Output,
    }
}

/// The line about a store that can be used.
fn check_bytes(layout: u32, epoch: u32, events: u32) -> ShortLine
    ensures { result.items ≡ check_line layout epoch events }
{
    let mut digits = itoa::Buffer::new();
    let mut text = ArrayVec::<u8, 60>::new();
    text.try_extend_from_slice(b"ok layout ").unwrap();
    text.try_extend_from_slice(digits.format(layout).as_bytes())
        .unwrap();
    text.try_extend_from_slice(b" epoch ").unwrap();
    text.try_extend_from_slice(digits.format(epoch).as_bytes())
        .unwrap();
    text.try_extend_from_slice(b" events ").unwrap();
    text.try_extend_from_slice(digits.format(events).as_bytes())
        .unwrap();
    short_line(text.as_slice())
}

/// The status of the program after a script that ended so: 0 where each line was answered, 5 for want of memory, else
/// 4.
pub fn status(end: &PlayEnd) -> u8
    ensures { result ≡ end_status end.now }
{
    match end {
        PlayEnd::Done => 0,
        PlayEnd::Memory => 5,
        PlayEnd::Fault | PlayEnd::Input | PlayEnd::Output => 4,
    }
}

/// Says why a store was refused, whole where no call of the writer fails, and else as far as it takes it. Returns the status of the program: 3 where
/// there is no store or a damaged one, 5 for want of memory, else 4.
pub fn refuse<W: AnswerWriter>(writer: &mut W, error: &Error) -> u8
    ensures status { result ≡ refusal_status error.now }
    ensures said { AppendsFront (W.contents writer.old) (W.contents writer.new)
        (error_line error.now) }
    ensures whole { W.failures writer.new ≡ W.failures writer.old
        → Appends (W.contents writer.old) (W.contents writer.new) (error_line error.now) }
{
    let _ = say_refusal(writer, error);
    status_of(error)
}

/// The status of the program where a store was refused.
fn status_of(error: &Error) -> u8
    ensures { result ≡ refusal_status error.now }
{
    match error {
        Error::NotAStore | Error::Damaged(_) => 3,
        Error::NoMemory => 5,
        _ => 4,
    }
}

/// Writes the line about a refusal.
fn say_refusal<W: AnswerWriter>(writer: &mut W, error: &Error) -> Result<(), OutputFault>
    ensures sent { Sends result (W.contents writer.old) (W.contents writer.new)
        (error_line error.now) }
    ensures cause { CountsFault result (W.failures writer.old) (W.failures writer.new) }
{
    let line = refusal_bytes(error);
    send(writer, line.as_slice())
}

/// The line about a refusal.
fn refusal_bytes(error: &Error) -> ShortLine
    ensures { result.items ≡ error_line error.now }
{
    match error {
        Error::NotAStore => short_line(b"not a store"),
        Error::Damaged(sector) => numbered_line(b"damaged ", *sector),
        Error::NoMemory => short_line(b"memory"),
        _ => short_line(b"fault"),
    }
}
