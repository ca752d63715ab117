//! A sitting over a store, turn by turn.
ghost use Rattle.std.specs.Prelude.{◌≡◌, ◌≢◌, ◌++◌, true, false, OnOk, OnErr, IfErr, IfSome, List, Result, ⊤};
ghost use Rattle.host_files.specs.declared.HostFault.{HostFault};
ghost use Rattle.terminal_keyboard.specs.declared.parser.Parser.{Parser as AParser};
ghost use Rattle.screen_drawing.specs.declared.face.Face.{Face};
ghost use Rattle.byte_streams.specs.Counting.{CountsFault, RisesWhere};
ghost use Rattle.byte_streams.specs.Sent.{Sends};
ghost use Rattle.desk_journal.specs.Device.{IsSameDevice};
ghost use Rattle.desk_journal.specs.View.{IsDurable};
ghost use Rattle.desk_sitting.specs.Clips.{clip_sent};
ghost use Rattle.desk_sitting.specs.Sittings.{after_fetch, is_scene_due, looked};
ghost use Rattle.terminal_sittings.specs.declared.ending.SittingEnd.TheVariants.{Output as TakesNoMore};
ghost use Rattle.screen_drawing.specs.Scene.{IsInSight};
ghost use Rattle.terminal_sittings.specs.Scenes.{IsSceneOf, IsHalfPainted, IsScenePainted, IsSceneShown, IsUnshown};
ghost use Rattle.terminal_sittings.specs.Endings.{EndsBy, IsOfNoKeyboard};
ghost use Rattle.terminal_sittings.specs.Scenes.{after_scene, bell_bytes, known_by, request};
ghost use Rattle.terminal_clipboards.specs.Clips.{clip_bytes};
ghost use Rattle.terminal_sittings.specs.Serving.{CountsEnding, CountsOutput, CountsTurn, Exchange, IsFetched, exchange};
ghost use Rattle.desk_sitting.specs.Doing.{IsLookedAt};
ghost use Rattle.terminal_sittings.specs.Serving.{IsTextFetched, IsCompleted, asking_rest};
ghost use Rattle.terminal_sittings.specs.Serving.{IsShownIfDue, IsUsableAt};
ghost use Rattle.terminal_sittings.specs.Serving.{StaysInUse, TakesTurn, first_place, turn_state_of, store_screen};
ghost use Rattle.terminal_sittings.specs.Sitting.{Sits, TakesEitherTurn};
ghost use Rattle.terminal_sittings.specs.Travelling.{TakesBetween};
ghost use Rattle.desk_sitting.specs.Telling.{scene_told};
ghost use Rattle.desk_sitting.specs.TheDesk.{pointer_of as pointer_at, sitting_line, the_desk};

use crate::ending::SittingEnd;
use crate::serving_laws::sittings_survive;
use crate::telling::tell;
use byte_streams::{AnswerWriter, OutputFault};
use desk_journal::Store;
use desk_sitting::{MOST_TURNS, Sitting, do_presses, travel};
use done_presses::Past;
use screen_cells::Screen;
use screen_drawing::{Painter, Scene, ring, send_bytes};
use sector_disk::Disk;
use status_line::Saying;
use std::alloc::Global;
use terminal_keyboard::{Completion, Keyboard, Parser};
use viewer_tracks::ROWS;

/// An escape byte and `[18t`, to which a terminal tells its size.
const SIZE_REQUEST: [u8; 5] = [27, 91, 49, 56, 116];

/// Serves the person at the keyboard: shows the screen in a terminal of `height` rows and `width` columns, and does what is
/// pressed, until they leave or something fails. The line below begins with the greeting. With questions it is asked
/// before a press loses something. Lines are filled from the beginning on, or not. Undos take back what was done in the
/// past, as the store has it. Where the keyboard holds a text, Ctrl-V has it typed, until something is copied; `holds` says
/// then whether it does so before the last turn. (In a turn that ends by `Closed` nothing is done.)
///
/// Each event is acknowledged before the next scene is sent, so that no crash takes away what was shown. The store must
/// be one that needn't be opened again. It can be used on after the sitting, but after `Fault` and `Memory` it must be
/// opened again where an event was posted. `Closed` and `Input` come only where the keyboard has ended so, and `Output`
/// where, and only where, a call of the writer has failed.
pub fn serve<K: Keyboard, W: AnswerWriter, D: Disk>(
    alloc: Global,
    keyboard: &mut K,
    writer: &mut W,
    store: &mut Store<D>,
    height: u16,
    width: u16,
    greeting: Saying,
    questions: bool,
    fills: bool,
    holds: &mut bool,
    past: Past,
) -> SittingEnd
    requires { store.old.must_reopen ≡ false }
    ensures sat { D.honest store.old.disk → Sits the_desk D.Disk result holds.new
        (first_place the_desk height width greeting questions fills holds.old past store.old
        (exchange (K.heard keyboard.old) (K.asked keyboard.old) (W.contents writer.old)
        (W.unflushed writer.old)))
        store.new
        (exchange (K.heard keyboard.new) (K.asked keyboard.new) (W.contents writer.new)
        (W.unflushed writer.new)) }
    ensures device { IsSameDevice D.Disk store.old.disk store.new.disk }
    ensures usable { IsUsableAt result store.new }
    ensures faults { CountsEnding result (D.failures store.old.disk) (D.failures store.new.disk) }
    ensures ended { EndsBy (K.ended keyboard.new) result }
    ensures output { RisesWhere (result ≡ TakesNoMore)
        (W.failures writer.old) (W.failures writer.new) }
{
    // What a crash leaves of it.
    sittings_survive::<D>();
    store.shows_what_crashes_leave();
    let mut sitting = Sitting::new(height, width, greeting, questions);
    sitting.fills = fills;
    sitting.holds = *holds;
    sitting.past = past;
    let mut parser = Parser::new();
    let mut painter = Painter::new();
    for _count in 0..MOST_TURNS {
        *holds = sitting.holds;
        if let Err(end) = step(
            alloc,
            &mut sitting,
            &mut parser,
            &mut painter,
            keyboard,
            writer,
            store,
        ) {
            return end;
        }
    }
    *holds = sitting.holds;
    SittingEnd::TooLong
}

/// One turn, of either kind: what was asked for beside the presses is done at once, before anything is shown.
///
/// Errors: those of `turn` and `go`.
fn step<K: Keyboard, W: AnswerWriter, D: Disk>(
    alloc: Global,
    sitting: &mut Sitting,
    parser: &mut Parser,
    painter: &mut Painter,
    keyboard: &mut K,
    writer: &mut W,
    store: &mut Store<D>,
) -> Result<(), SittingEnd>
    requires { store.old.must_reopen ≡ false }
    ensures steps { TakesEitherTurn the_desk D.Disk result
        (turn_state_of parser.old sitting.old store.old painter.old
        (exchange (K.heard keyboard.old) (K.asked keyboard.old) (W.contents writer.old)
        (W.unflushed writer.old)))
        (turn_state_of parser.new sitting.new store.new painter.new
        (exchange (K.heard keyboard.new) (K.asked keyboard.new) (W.contents writer.new)
        (W.unflushed writer.new))) }
    ensures ended { IfErr result (EndsBy (K.ended keyboard.new)) }
    ensures output { CountsOutput result (W.failures writer.old) (W.failures writer.new) }
{
    if sitting.travels.is_none() {
        turn(alloc, sitting, parser, painter, keyboard, writer, store)
    } else {
        go(alloc, sitting, store)
    }
}

/// A press is taken back, or an event done again. Nothing is shown and heard.
///
/// Errors: `Fault` and `Memory`.
fn go<D: Disk>(alloc: Global, sitting: &mut Sitting, store: &mut Store<D>) -> Result<(), SittingEnd>
    requires { store.old.must_reopen ≡ false }
    ensures between { (parser : AParser) (known : List (List Face)) (out : Exchange)
        → TakesBetween the_desk D.Disk result (turn_state_of parser sitting.old store.old known out)
        (turn_state_of parser sitting.new store.new known out) }
    ensures cause { IfErr result IsOfNoKeyboard }
    ensures unsent { IfErr result (λ end. end ≢ TakesNoMore) }
{
    Ok(travel(alloc, sitting, store)?)
}

/// One turn: the desktop is shown where a scene is due, something is heard, and what is pressed by it is done.
///
/// Errors: `Output`, and `Fault` and `Memory` where the screen can't be worked out, before anything is heard; `Closed`
/// and `Input` where nothing is heard; `Fault` and `Memory` where a press fails; `Left` where the person leaves.
fn turn<K: Keyboard, W: AnswerWriter, D: Disk>(
    alloc: Global,
    sitting: &mut Sitting,
    parser: &mut Parser,
    painter: &mut Painter,
    keyboard: &mut K,
    writer: &mut W,
    store: &mut Store<D>,
) -> Result<(), SittingEnd>
    requires { store.old.must_reopen ≡ false }
    ensures turns { TakesTurn the_desk D.Disk result
        (turn_state_of parser.old sitting.old store.old painter.old
        (exchange (K.heard keyboard.old) (K.asked keyboard.old) (W.contents writer.old)
        (W.unflushed writer.old)))
        (turn_state_of parser.new sitting.new store.new painter.new
        (exchange (K.heard keyboard.new) (K.asked keyboard.new) (W.contents writer.new)
        (W.unflushed writer.new))) }
    ensures ended { IfErr result (EndsBy (K.ended keyboard.new)) }
    ensures output { CountsOutput result (W.failures writer.old) (W.failures writer.new) }
{
    show_if_due(alloc, store, sitting, painter, writer)?;
    let hearing = keyboard.hear()?;
    do_presses(alloc, sitting, parser, hearing.as_slice(), store)?;
    fetch(sitting, keyboard);
    if sitting.leaves {
        Err(SittingEnd::Left)
    } else {
        Ok(())
    }
}

/// Asks the keyboard for the text of a host file where one is wanted, and how a name goes on where that is.
fn fetch<K: Keyboard>(sitting: &mut Sitting, keyboard: &mut K)
    ensures brought { IsFetched the_desk sitting.old sitting.new (K.asked keyboard.old)
        (K.asked keyboard.new) }
    ensures silent { K.heard keyboard.new ≡ K.heard keyboard.old }
{
    bring(sitting, keyboard);
    complete(sitting, keyboard);
}

/// Asks the keyboard for the text of a host file where one is wanted.
fn bring<K: Keyboard>(sitting: &mut Sitting, keyboard: &mut K)
    ensures brought { IsTextFetched the_desk sitting.old sitting.new (K.asked keyboard.old)
        (K.asked keyboard.new) }
    ensures asked { IfSome sitting.old.wanted (λ name. (answer : Result ⊤ HostFault)
        × K.answers keyboard.old keyboard.new name answer
        × (sitting.new ≡ after_fetch answer sitting.old)) }
    ensures silent { K.heard keyboard.new ≡ K.heard keyboard.old }
{
    let answer = match &sitting.wanted {
        Some(name) => keyboard.bring(name.as_bytes()),
        None => Ok(()),
    };
    sitting.bring(answer);
}

/// Asks the keyboard how a name goes on, where that is wanted of one that is asked for.
fn complete<K: Keyboard>(sitting: &mut Sitting, keyboard: &mut K)
    ensures completed { IsCompleted the_desk sitting.old sitting.new (K.asked keyboard.old)
        (K.asked keyboard.new) }
    ensures silent { K.heard keyboard.new ≡ K.heard keyboard.old }
{
    let told = rest_of(sitting, keyboard);
    sitting.complete(&told);
}

/// How the name goes on that is asked for, where that is wanted.
fn rest_of<K: Keyboard>(sitting: &Sitting, keyboard: &mut K) -> Completion
    ensures asks { K.asked keyboard.new ≡ K.asked keyboard.old
        ++ asking_rest sitting.now.completes sitting.now.hand.asked result }
    ensures silent { K.heard keyboard.new ≡ K.heard keyboard.old }
{
    if !sitting.completes {
        return Completion::none();
    }
    match sitting.hand.asked() {
        None => Completion::none(),
        Some(name) => keyboard.complete(name),
    }
}

/// Shows the desktop where a scene is due. Else the terminal shows it already: nobody looks at the store, and nothing is
/// sent.
///
/// Errors: those of `show`, and only where a scene is due.
fn show_if_due<W: AnswerWriter, D: Disk>(
    alloc: Global,
    store: &mut Store<D>,
    sitting: &mut Sitting,
    painter: &mut Painter,
    writer: &mut W,
) -> Result<(), SittingEnd>
    requires { store.old.must_reopen ≡ false }
    ensures looks { D.honest store.old.disk → IsDurable D.Disk store.old
        → IsLookedAt D.Disk store.old store.new }
    ensures shown { OnOk result (D.honest store.old.disk
        → (sitting.new ≡ looked (store_screen store.old) (scene_told store.old.desktop sitting.old))
        × IsShownIfDue the_desk sitting.old store.old store.new
        painter.old painter.new (W.contents writer.old) (W.contents writer.new)
        (W.unflushed writer.old) (W.unflushed writer.new)) }
    ensures unshown { IfErr result (λ end. (is_scene_due sitting.old ≡ true)
        × (D.honest store.old.disk
        → IsUnshown the_desk end (scene_told store.old.desktop sitting.old) (store_screen store.old)
        (clip_bytes (clip_sent store.old.desktop sitting.old))
        painter.old (W.contents writer.old) (W.contents writer.new))) }
    ensures cause { IfErr result IsOfNoKeyboard }
    ensures output { CountsOutput result (W.failures writer.old) (W.failures writer.new) }
    ensures counts { CountsTurn result (D.failures store.old.disk) (D.failures store.new.disk) }
    ensures store { StaysInUse D.Disk store.old store.new }
{
    if sitting.is_scene_due() {
        show(alloc, store, sitting, painter, writer)
    } else {
        Ok(())
    }
}

/// Shows the desktop, all events of which are acknowledged, and gives the clipboard of the terminal what was copied.
///
/// Errors: `Fault` and `Memory`, and nothing was sent; `Output`, and a front may have been sent.
fn show<W: AnswerWriter, D: Disk>(
    alloc: Global,
    store: &mut Store<D>,
    sitting: &mut Sitting,
    painter: &mut Painter,
    writer: &mut W,
) -> Result<(), SittingEnd>
    requires { store.old.must_reopen ≡ false }
    ensures looks { D.honest store.old.disk → IsDurable D.Disk store.old
        → IsLookedAt D.Disk store.old store.new }
    ensures shown { OnOk result (D.honest store.old.disk
        → (sitting.new ≡ looked (store_screen store.old) (scene_told store.old.desktop sitting.old))
        × IsSceneShown the_desk (scene_told store.old.desktop sitting.old) (store_screen store.old)
        (clip_bytes (clip_sent store.old.desktop sitting.old))
        painter.old painter.new (W.contents writer.old) (W.contents writer.new)
        (W.unflushed writer.new)) }
    ensures unshown { IfErr result (λ end. D.honest store.old.disk
        → IsUnshown the_desk end (scene_told store.old.desktop sitting.old) (store_screen store.old)
        (clip_bytes (clip_sent store.old.desktop sitting.old))
        painter.old (W.contents writer.old) (W.contents writer.new)) }
    ensures cause { IfErr result IsOfNoKeyboard }
    ensures output { CountsOutput result (W.failures writer.old) (W.failures writer.new) }
    ensures counts { CountsTurn result (D.failures store.old.disk) (D.failures store.new.disk) }
    ensures store { StaysInUse D.Disk store.old store.new }
{
    let clip = tell(alloc, sitting, store)?;
    show_with(alloc, clip.as_slice(), store, sitting, painter, writer)
}

/// Shows the desktop, and gives this to the clipboard of the terminal.
///
/// Errors: as those of `show`.
fn show_with<W: AnswerWriter, D: Disk>(
    alloc: Global,
    clip: &[u8],
    store: &mut Store<D>,
    sitting: &mut Sitting,
    painter: &mut Painter,
    writer: &mut W,
) -> Result<(), SittingEnd>
    requires { store.old.must_reopen ≡ false }
    ensures looks { D.honest store.old.disk → IsDurable D.Disk store.old
        → IsLookedAt D.Disk store.old store.new }
    ensures shown { OnOk result (D.honest store.old.disk
        → (sitting.new ≡ looked (store_screen store.old) sitting.old)
        × IsSceneShown the_desk sitting.old (store_screen store.old) clip.now
        painter.old painter.new (W.contents writer.old) (W.contents writer.new)
        (W.unflushed writer.new)) }
    ensures unshown { IfErr result (λ end. D.honest store.old.disk
        → IsUnshown the_desk end sitting.old (store_screen store.old) clip.now
        painter.old (W.contents writer.old) (W.contents writer.new)) }
    ensures cause { IfErr result IsOfNoKeyboard }
    ensures output { CountsOutput result (W.failures writer.old) (W.failures writer.new) }
    ensures counts { CountsTurn result (D.failures store.old.disk) (D.failures store.new.disk) }
    ensures store { StaysInUse D.Disk store.old store.new }
{
    let mut screen = Screen::new();
    store.screen(alloc, &mut screen)?;
    let (rings, asks, forgets) = (sitting.rings, sitting.asks, sitting.forgets);
    sitting.look(&screen);
    paint(sitting, forgets, painter, writer, &screen)?;
    follow(writer, rings, asks, clip)
}

/// Paints the scene. Where it forgets, nothing is known of the terminal.
///
/// Error: `Output`, and a front may have been sent.
fn paint<W: AnswerWriter>(
    sitting: &Sitting,
    forgets: bool,
    painter: &mut Painter,
    writer: &mut W,
    screen: &Screen,
) -> Result<(), SittingEnd>
    ensures painted { OnOk result (IsScenePainted the_desk sitting.now screen.now
        (known_by forgets painter.old) painter.new
        (W.contents writer.old) (W.contents writer.new)) }
    ensures front { OnErr result (IsHalfPainted the_desk sitting.now screen.now
        (known_by forgets painter.old)
        (W.contents writer.old) (W.contents writer.new)) }
    ensures handed { OnOk result (W.unflushed writer.new ≡ 0) }
    ensures end { IfErr result (λ end. end ≡ TakesNoMore) }
    ensures cause { CountsFault result (W.failures writer.old) (W.failures writer.new) }
{
    if forgets {
        painter.forget();
    }
    let line = sitting.line(screen);
    let scene = scene_of(sitting, screen, line.as_slice());
    Ok(painter.paint(writer, &scene)?)
}

/// Where in the terminal the pointer is that keys move, while it is shown.
fn pointer_of(sitting: &Sitting) -> Option<(u8, u8)>
    ensures { result ≡ pointer_at sitting.now }
{
    let cell = sitting.hand.pointer()?;
    sitting.sight.place(cell)
}

/// The part of the screen that is in sight, and the sitting's line below it.
fn scene_of<'a>(sitting: &Sitting, screen: &'a Screen, line: &'a [u8]) -> Scene<'a>
    requires { line.now ≡ sitting_line screen.now sitting.now }
    ensures scene { IsSceneOf the_desk sitting.now screen.now result }
    ensures in_sight { IsInSight result }
{
    Scene {
        screen: screen.rows(),
        first: ROWS - 1 - sitting.sight.top(),
        rows: sitting.sight.rows(),
        left: sitting.sight.first_column(),
        columns: sitting.sight.columns(),
        width: sitting.sight.width(),
        pointer: pointer_of(sitting),
        below: Some(line),
    }
}

/// Sends what comes after the scene.
///
/// Error: `Output`, and a front may have been sent.
fn follow<W: AnswerWriter>(
    writer: &mut W,
    rings: bool,
    asks: bool,
    clip: &[u8],
) -> Result<(), SittingEnd>
    ensures sent { Sends result (W.contents writer.old) (W.contents writer.new)
        (after_scene rings asks clip.now) }
    ensures handed { OnOk result (W.unflushed writer.old ≡ 0 → W.unflushed writer.new ≡ 0) }
    ensures end { IfErr result (λ end. end ≡ TakesNoMore) }
    ensures cause { CountsFault result (W.failures writer.old) (W.failures writer.new) }
{
    ring_and_ask(writer, rings, asks)?;
    Ok(clip_if(writer, clip)?)
}

/// Rings the bell, and asks the terminal for its size, where that is to be.
fn ring_and_ask<W: AnswerWriter>(writer: &mut W, rings: bool, asks: bool) -> Result<(), OutputFault>
    ensures sent { Sends result (W.contents writer.old) (W.contents writer.new)
        (bell_bytes rings ++ request asks) }
    ensures handed { OnOk result (W.unflushed writer.old ≡ 0 → W.unflushed writer.new ≡ 0) }
    ensures cause { CountsFault result (W.failures writer.old) (W.failures writer.new) }
{
    ring_if(writer, rings)?;
    ask_if(writer, asks)?;
    Ok(())
}

/// Sends this to the clipboard of the terminal, where it is anything.
fn clip_if<W: AnswerWriter>(writer: &mut W, clip: &[u8]) -> Result<(), OutputFault>
    ensures sent { Sends result (W.contents writer.old) (W.contents writer.new) clip.now }
    ensures handed { OnOk result (W.unflushed writer.old ≡ 0 → W.unflushed writer.new ≡ 0) }
    ensures cause { CountsFault result (W.failures writer.old) (W.failures writer.new) }
{
    if clip.is_empty() {
        Ok(())
    } else {
        send(writer, clip)
    }
}

/// Rings the bell where that is to be.
fn ring_if<W: AnswerWriter>(writer: &mut W, rings: bool) -> Result<(), OutputFault>
    ensures sent { Sends result (W.contents writer.old) (W.contents writer.new) (bell_bytes rings) }
    ensures handed { OnOk result (W.unflushed writer.old ≡ 0 → W.unflushed writer.new ≡ 0) }
    ensures cause { CountsFault result (W.failures writer.old) (W.failures writer.new) }
{
    if rings { ring(writer) } else { Ok(()) }
}

/// Asks the terminal for its size where that is to be.
fn ask_if<W: AnswerWriter>(writer: &mut W, asks: bool) -> Result<(), OutputFault>
    ensures sent { Sends result (W.contents writer.old) (W.contents writer.new) (request asks) }
    ensures handed { OnOk result (W.unflushed writer.old ≡ 0 → W.unflushed writer.new ≡ 0) }
    ensures cause { CountsFault result (W.failures writer.old) (W.failures writer.new) }
{
    if asks {
        send(writer, &SIZE_REQUEST)
    } else {
        Ok(())
    }
}

/// Sends bytes, and hands them on.
fn send<W: AnswerWriter>(writer: &mut W, bytes: &[u8]) -> Result<(), OutputFault>
    ensures sent { Sends result (W.contents writer.old) (W.contents writer.new) bytes.now }
    ensures handed { OnOk result (W.unflushed writer.new ≡ 0) }
    ensures cause { CountsFault result (W.failures writer.old) (W.failures writer.new) }
{
    send_bytes(writer, bytes)?;
    writer.flush()
}
