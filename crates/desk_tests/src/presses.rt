//! Worked bytes of terminals, what they press, and what that comes to, whatever pieces they come in; and what a
//! terminal tells whose reads are interrupted, give nothing or fail.

use std::alloc::{AllocError, Global};
use std::io::{self, ErrorKind, IsTerminal, Read};
use std::test::Fail;
use terminal_keyboard::{
    KeySource, Keyboard, KeyboardEnd, MOST_HEARD, Parser, ScriptedKeyboard, TerminalInput,
};
use terminal_presses::{
    Action, Arrow, Button, FunctionKey, Hand, Heard, MouseReport, Page, Press, Presses, Scroll,
    Sight, Spot, WheelReport,
};
use viewer_tracks::Track;

/// What stands for a quiet while in the tables. No terminal sends this byte.
const QUIET: u8 = 255;

/// How many bytes come at one time.
const PIECES: [usize; 4] = [1, 2, 3, MOST_HEARD];

fn heard_of(byte: u8) -> Heard {
    if byte == QUIET {
        Heard::Quiet
    } else {
        Heard::Byte(byte)
    }
}

fn script_of(alloc: Global, bytes: &[u8]) -> Result<Vec<Heard>, AllocError> {
    bytes.iter().map(|byte| heard_of(*byte)).collect(alloc)
}

fn add_presses(found: &mut Vec<Press>, presses: Presses) -> Result<(), AllocError> {
    match presses {
        Presses::Nothing => {}
        Presses::One(press) => found.push(press)?,
        Presses::Two(first, second) => {
            found.push(first)?;
            found.push(second)?;
        }
    }
    Ok(())
}

/// What is pressed by these bytes, where so many come at one time.
fn pressed(alloc: Global, bytes: &[u8], piece: usize) -> Result<Vec<Press>, AllocError> {
    let script = script_of(alloc, bytes)?;
    let mut keyboard = ScriptedKeyboard::new(&script, piece.clamp(1, MOST_HEARD));
    let mut parser = Parser::new();
    let mut found = Vec::new(alloc);
    for _ in 0..bytes.len() {
        let Ok(hearing) = keyboard.hear() else {
            return Ok(found);
        };
        for heard in hearing.as_slice() {
            add_presses(&mut found, parser.take(*heard))?;
        }
    }
    Ok(found)
}

fn mouse(button: Button, is_down: bool, column: u16, row: u16) -> Press {
    held(button, is_down, false, false, column, row)
}

/// The same with Shift, with Alt, or with both.
fn held(
    button: Button,
    is_down: bool,
    with_shift: bool,
    with_alt: bool,
    column: u16,
    row: u16,
) -> Press {
    Press::Mouse(MouseReport {
        button,
        is_down,
        with_shift,
        with_alt,
        with_control: false,
        column,
        row,
    })
}

fn wheel(is_up: bool, column: u16, row: u16) -> Press {
    Press::Wheel(WheelReport { is_up, column, row })
}

#[test]
fn bytes_press(rt: HostRuntime) -> Result<(), Fail> {
    let table: [(&[u8], &[Press]); 23] = [
        (
            b"aZ ~",
            &[
                Press::Character(97),
                Press::Character(90),
                Press::Character(32),
                Press::Character(126),
            ],
        ),
        (
            b"\t\r\n\x03",
            &[
                Press::Character(9),
                Press::Character(13),
                Press::Control(10),
                Press::Control(3),
            ],
        ),
        (
            b"\x08\x7f\xc3\xa4",
            &[Press::Back, Press::Back, Press::Foreign],
        ),
        (b"\x1b\xff", &[Press::Escape]),
        (
            b"\x1bx\x1b[3~\x1b\x1b\xff",
            &[Press::Unknown, Press::Delete, Press::Escape, Press::Escape],
        ),
        (
            b"\x1b[A\x1bOB\x1b[C\x1bOD",
            &[
                Press::Arrow(Arrow::Up),
                Press::Arrow(Arrow::Down),
                Press::Arrow(Arrow::Right),
                Press::Arrow(Arrow::Left),
            ],
        ),
        (
            b"\x1bOP\x1b[[B\x1b[13~\x1b[21~\x1b7",
            &[
                Press::Function(FunctionKey::F1),
                Press::Function(FunctionKey::F2),
                Press::Function(FunctionKey::F3),
                Press::Function(FunctionKey::F10),
                Press::Function(FunctionKey::F7),
            ],
        ),
        (
            b"\x1b[23~\x1b \x1b[24~\x1b[1;2A\x1b[1;2F",
            &[
                Press::Function(FunctionKey::F11),
                Press::Function(FunctionKey::F11),
                Press::Function(FunctionKey::F12),
                Press::Leap(Arrow::Up),
                Press::Leap(Arrow::End),
            ],
        ),
        (
            b"\x1b[5~\x1b[6\xff~",
            &[
                Press::Scroll(Scroll::PageUp),
                Press::Scroll(Scroll::PageDown),
            ],
        ),
        (
            b"\x1b[5;3~\x1b[6;3~",
            &[Press::Page(Page::Up), Press::Page(Page::Down)],
        ),
        (
            b"\x1b[1;3D\x1b[1;3C",
            &[Press::Page(Page::Left), Press::Page(Page::Right)],
        ),
        (
            b"\x1b[1;5H\x1b[1;5F\x1bz",
            &[
                Press::Scroll(Scroll::First),
                Press::Scroll(Scroll::Last),
                Press::Control(25),
            ],
        ),
        (
            b"\x1b[H\x1bOH\x1b[1~\x1b[F\x1bOF\x1b[4~",
            &[
                Press::Arrow(Arrow::Home),
                Press::Arrow(Arrow::Home),
                Press::Arrow(Arrow::Home),
                Press::Arrow(Arrow::End),
                Press::Arrow(Arrow::End),
                Press::Arrow(Arrow::End),
            ],
        ),
        (
            b"\x1b[1;5C\x1b[1;5D\x1b[1;5A\x1b[1;2C",
            &[
                Press::Arrow(Arrow::WordRight),
                Press::Arrow(Arrow::WordLeft),
                Press::Arrow(Arrow::Up),
                Press::Leap(Arrow::Right),
            ],
        ),
        // Alt with O and with [, and then a letter.
        (
            b"\x1bO\xffA\x1b[\xffB",
            &[
                Press::Unknown,
                Press::Character(65),
                Press::Unknown,
                Press::Character(66),
            ],
        ),
        (
            b"\x1b[<0;1;1M\x1b[<2;223;300m",
            &[
                mouse(Button::Left, true, 1, 1),
                mouse(Button::Right, false, 223, 300),
            ],
        ),
        (
            b"\x1b[<6;1;1M\x1b[<10;2;3m",
            &[
                held(Button::Right, true, true, false, 1, 1),
                held(Button::Right, false, false, true, 2, 3),
            ],
        ),
        (
            b"\x1b[<64;5;6M\x1b[<69;7;8M\x1b[<89;1;1M",
            &[wheel(true, 5, 6), wheel(false, 7, 8), wheel(false, 1, 1)],
        ),
        // A wheel that goes up, one that is turned to the side, and a report of the older form.
        (
            b"\x1b[<64;5;5m\x1b[<66;5;5M\x1b[<96;5;5M\x1b[M !!",
            &[
                Press::Unknown,
                Press::Unknown,
                Press::Unknown,
                Press::Unknown,
            ],
        ),
        (b"\x1b[8;24;80t", &[Press::Size(24, 80)]),
        (
            b"\x1b[200~a\x1b[201~",
            &[Press::PasteBegins, Press::Character(97), Press::PasteEnds],
        ),
        (
            b"\r\n\x1b[202~",
            &[Press::Character(13), Press::Control(10), Press::FileFails],
        ),
        (b"\x1b[9\x1b[A", &[Press::Unknown, Press::Arrow(Arrow::Up)]),
    ];
    for piece in PIECES {
        for (bytes, wanted) in table {
            let found = pressed(rt.alloc(), bytes, piece)?;
            assert!(rt; found.as_slice() == wanted);
        }
    }
    Ok(())
}

/// The letter that stands for an action in the tables; None for an event, a file, and for nothing.
fn letter(action: &Action) -> Option<u8> {
    match action {
        Action::Nothing | Action::Post(_) | Action::TypeFile(_) => None,
        Action::Scroll(_, scroll) => Some(scroll_letter(*scroll)),
        Action::Ring => Some(b'R'),
        Action::LookAnew => Some(b'N'),
        Action::Leave => Some(b'L'),
        Action::Move(Page::Up) => Some(b'U'),
        Action::Move(Page::Down) => Some(b'D'),
        Action::Move(Page::Left) => Some(b'<'),
        Action::Move(Page::Right) => Some(b'>'),
        Action::Step(_) => Some(b'S'),
        Action::CallLine => Some(b'e'),
        Action::Mark => Some(b'm'),
        Action::Select(_) => Some(b'H'),
        Action::SelectAll => Some(b'a'),
        Action::Extend(_, _) => Some(b'x'),
        Action::CutLine => Some(b'K'),
        Action::Refill => Some(b'P'),
        Action::Delete => Some(b'X'),
        Action::Search => Some(b's'),
        Action::SearchBefore => Some(b'b'),
        Action::Find(_, before) => Some(if *before { b'B' } else { b'f' }),
        Action::Store => Some(b't'),
        Action::Replace => Some(b'r'),
        Action::Fill => Some(b'w'),
        Action::Seek(_) => Some(b'k'),
        Action::GoTo(line) => Some((*line).min(255) as u8),
        Action::Undo => Some(b'Z'),
        Action::Redo => Some(b'Y'),
        Action::Fit(_, _) => Some(b'Z'),
        Action::FileFailed => Some(b'F'),
    }
}

fn scroll_letter(scroll: Scroll) -> u8 {
    match scroll {
        Scroll::WheelUp => b'u',
        Scroll::WheelDown => b'd',
        Scroll::PageUp => b'p',
        Scroll::PageDown => b'q',
        Scroll::First => b'f',
        Scroll::Last => b'l',
    }
}

/// Adds what an action is: the spelling of its event, T and the name of its file, or else its letter, behind the cell of
/// the viewer that is meant, if it names one.
fn add_action(found: &mut Vec<u8>, action: &Action) -> Result<(), AllocError> {
    if let Action::Post(event) = action {
        found.extend_from_slice(event.encode().as_slice())?;
    }
    if let Action::TypeFile(name) = action {
        found.push(b'T')?;
        found.extend_from_slice(name.as_bytes())?;
    }
    if let Action::Scroll(Some(Spot { x, y }), _) = action {
        found.extend_from_slice(&[*x, *y])?;
    }
    if let Action::Extend(start, at) = action {
        found.extend_from_slice(&[start.x, start.y, at.x, at.y])?;
    }
    if let Action::Seek(Spot { x, y }) = action {
        found.extend_from_slice(&[*x, *y])?;
    }
    if let Some(letter) = letter(action) {
        found.push(letter)?;
    }
    Ok(())
}

fn take_press(
    hand: &mut Hand,
    sight: Sight,
    press: Press,
    found: &mut Vec<u8>,
) -> Result<(), AllocError> {
    let action = hand.take(sight, press);
    add_action(found, &action)
}

/// What these bytes come to, one action after another.
fn acted(alloc: Global, bytes: &[u8], sight: Sight) -> Result<Vec<u8>, AllocError> {
    let presses = pressed(alloc, bytes, MOST_HEARD)?;
    let mut hand = Hand::new();
    let mut found = Vec::new(alloc);
    for press in presses.as_slice() {
        take_press(&mut hand, sight, *press, &mut found)?;
    }
    Ok(found)
}

#[test]
fn presses_make_events(rt: HostRuntime) -> Result<(), Fail> {
    let table: [(&[u8], &[u8]); 45] = [
        (b"a", b"\x01\x00\x01a"),
        (b"\n", b"\x01\x00\x01\x0d"),
        (b"\x15", b"P"),
        (b"\x08\x03\x18\x16", b"\x02\x00\x02\x01\x02\x03\x02\x02"),
        (b"\x1b\xff\x1b[3~", b"\x02\x04X"),
        // Escape after F2 calls that off, and does no more.
        (b"\x1bOQ\x1b\xff\x1b\xff", b"\x02\x04"),
        (b"\x0c\x11\x04", b"NLR"),
        (b"\x05\x14", b"em"),
        // Shift with an arrow selects, where no pointer is shown.
        (b"\x1b[1;2D\x1b[1;2F\x01\x0b", b"HHaK"),
        // A letter puts the pointer away.
        (b"\x1b[23~x\t", b"\x01\x00\x01x\x01\x00\x01\x09"),
        (b"\x06\x02\x1bf\x12\x13\x17", b"sbbrtw"),
        // A tabulator is typed, and where the pointer is shown it seeks the next command from there on.
        (
            b"\t\x1b[23~\t\x1b\xff\t",
            b"\x01\x00\x01\x09\x27\x0fk\x01\x00\x01\x09",
        ),
        // A pointer that keys move: a left click, a call, a draw, and Escape, which puts it away and drops nothing.
        (b"\x1b[23~\r", b"\x04\x00\x27\x0f\x27\x0f"),
        (
            b"\x1b[23~\x1b[H\x1b[1;2A\x1bOQ\r\x1b\xff\r",
            b"\x04\x03\x00\x17\x00\x17\x01\x00\x01\x0d",
        ),
        (
            b"\x1b \x1b[F\x1bOR\x1b[1;5D\x1b[B\x1bOR",
            b"\x04\x06\x4f\x0f\x47\x0e",
        ),
        (
            b"\x1b[<2;81;1M\x1b[<2;3;2m\x1b[23~\x1b[C\x1bOP\x1b[C\r",
            b"\x03\x04\x1e",
        ),
        (b"\x1b[23~\x1bOQ\x1b\xff\x1b\xff\x1b\xff", b"\x02\x04"),
        (b"\x1b[5;3~\x1b[6;3~\x1b[A\x1b[8;24;80t", b"UDSZ"),
        (b"\x1bz\x1b[H\x1b[1;5D", b"YSS"),
        // The wheel over a cell, outside the display, and while a button is down.
        (
            b"\x1b[<64;3;2M\x1b[<69;80;32M\x1b[<65;3;2m",
            b"\x02\x1eu\x4f\x00d",
        ),
        (b"\x1b[<64;81;1M\x1b[<65;1;33M\x1b[<64;0;1M", b""),
        (
            b"\x1b[<0;2;2M\x1b[<64;2;2M\x1b[<0;2;2m",
            b"\x04\x00\x01\x1e\x01\x1e",
        ),
        // A page of the caret's viewer, of that under the pointer, and of the caret's where the pointer is outside.
        (
            b"\x1b[5~\x1b[<0;3;2m\x1b[6~\x1b[1;5H\x1b[<64;81;2M\x1b[6~\x1b[1;5F",
            b"p\x02\x1eqfql",
        ),
        (b"\x0f\x1b[5~\x1b[<64;1;1M\x1b[5;3~\x1b\xff\x1b[5~", b"RUp"),
        // A click, and a drag from a corner to beyond the opposite one.
        (b"\x1b[<0;2;2M\x1b[<0;2;2m", b"\x04\x00\x01\x1e\x01\x1e"),
        (b"\x1b[<2;1;1M\x1b[<2;200;99m", b"\x04\x06\x00\x1f\x4f\x00"),
        // The right button with Shift, with Alt, and as Ctrl and the left one with both; two buttons with Shift.
        (
            b"\x1b[<6;2;2M\x1b[<6;4;3m\x1b[<2;1;1M\x1b[<10;1;1m\x1b[<16;1;1M\x1b[<28;2;1m",
            b"\x01\x1e\x03\x1dx\x00\x1f\x00\x1fx\x00\x1f\x01\x1fx",
        ),
        (
            b"\x1b[<6;2;2M\x1b[<4;2;2M\x1b[<4;2;2m\x1b[<6;2;2m",
            b"\x04\x07\x01\x1e\x01\x1e",
        ),
        // Two buttons, then three.
        (
            b"\x1b[<0;1;1M\x1b[<1;3;1M\x1b[<1;3;1m\x1b[<0;5;2m",
            b"\x04\x01\x00\x1f\x04\x1e",
        ),
        (
            b"\x1b[<1;1;1M\x1b[<2;3;1M\x1b[<1;3;1m\x1b[<2;5;2m",
            b"\x04\x05\x00\x1f\x04\x1e",
        ),
        (
            b"\x1b[<0;1;1M\x1b[<1;1;1M\x1b[<2;1;1M\x1b[<2;1;1m\x1b[<1;1;1m\x1b[<0;1;1m",
            b"",
        ),
        // The left button with Alt, with Ctrl, after F2 and after F1.
        (b"\x1b[<8;1;1M\x1b[<0;1;1m", b"\x04\x03\x00\x1f\x00\x1f"),
        (b"\x1b[<16;1;1M\x1b[<0;1;1m", b"\x04\x06\x00\x1f\x00\x1f"),
        (
            b"\x1b[12~\x1b[<0;1;1M\x1b[<0;1;1m",
            b"\x04\x03\x00\x1f\x00\x1f",
        ),
        (b"\x1bOP\x1b[<0;3;32M\x1b[<0;1;1m", b"\x03\x02\x00"),
        // A click that begins outside the display, and one on the line below after F2, which is for the next one then.
        (b"\x1b[<0;81;1M\x1b[<0;1;1m", b""),
        (
            b"\x1b[12~\x1b[<0;1;33M\x1b[<0;1;33m\x1b[<0;1;1M\x1b[<0;1;1m",
            b"\x04\x03\x00\x1f\x00\x1f",
        ),
        // A name that is pasted, and the size of the terminal amid a paste.
        (b"\x0f\x1b[200~a.t\rx\x11\x1b[201~\r", b"RRTa.tx"),
        (b"\x1b[200~a\x1b[8;24;80tb\x1b[201~", b"Z\x01\x00\x02ab"),
        // The name of a host file, one with no byte, one that is called off, and what rings meanwhile.
        (b"\x0fa.tx~\x08t\r", b"Ta.txt"),
        (b"\x1b[19~\r\x08", b"\x02\x00"),
        // A line that is asked for, by a number in which a letter rings, and one that is called off.
        (b"\x0712\x080a\x07\r\x077\x1b\xffc", b"RR\x0a\x01\x00\x01c"),
        (b"\x0fab\x1b\xffc", b"\x01\x00\x01c"),
        (b"\x0f\x08\t\xc3\xa4\x1b[A\x1b[21~", b"RRRRL"),
        (
            b"\x1b[200~a\r\nb\nc\xc3\xa4\x07\x1b[201~",
            b"\x01\x00\x07a\rb\rc??",
        ),
    ];
    for (bytes, wanted) in table {
        let found = acted(rt.alloc(), bytes, Sight::whole())?;
        assert!(rt; found.as_slice() == wanted);
    }
    Ok(())
}

#[test]
fn clicks_go_to_the_rows_in_sight(rt: HostRuntime) -> Result<(), Fail> {
    let sight = Sight::new(26, 23);
    let found = acted(rt.alloc(), b"\x1b[<0;1;1M\x1b[<0;1;30m", sight)?;
    assert!(rt; found.as_slice() == b"\x04\x00\x00\x1a\x00\x04".as_slice());
    Ok(())
}

/// In a window of 60 columns that shows the right side a click at the first column is one at the display's column 50. One
/// at the 31st is none, and a release there is one at the last column.
#[test]
fn clicks_go_to_the_columns_in_sight(rt: HostRuntime) -> Result<(), Fail> {
    let sight = Sight::whole().with_width(60).on(Track::System);
    let found = acted(
        rt.alloc(),
        b"\x1b[<0;1;1M\x1b[<0;31;1m\x1b[<0;31;1M\x1b[<0;1;1m",
        sight,
    )?;
    assert!(rt; found.as_slice() == b"\x04\x00\x32\x1f\x4f\x1f".as_slice());
    Ok(())
}

/// A paste of so many letters, as a terminal sends it.
fn paste_of(alloc: Global, count: usize) -> Result<Vec<u8>, AllocError> {
    let mut bytes = Vec::new(alloc);
    bytes.extend_from_slice(b"\x1b[200~")?;
    for _ in 0..count {
        bytes.push(b'x')?;
    }
    bytes.extend_from_slice(b"\x1b[201~")?;
    Ok(bytes)
}

/// The events that type so many letters, 900 at a time.
fn typed(alloc: Global, count: usize) -> Result<Vec<u8>, AllocError> {
    let mut bytes = Vec::new(alloc);
    for i in 0..count {
        if i % 900 == 0 {
            let length = (count - i).min(900) as u16;
            bytes.extend_from_slice(&[1, (length / 256) as u8, (length % 256) as u8])?;
        }
        bytes.push(b'x')?;
    }
    Ok(bytes)
}

#[test]
fn long_pastes(rt: HostRuntime) -> Result<(), Fail> {
    for count in [0, 1, 899, 900, 901, 2000] {
        let bytes = paste_of(rt.alloc(), count)?;
        let found = acted(rt.alloc(), &bytes, Sight::whole())?;
        assert!(rt; found == typed(rt.alloc(), count)?);
    }
    Ok(())
}

/// What one read of a terminal gives.
#[derive(Clone, Copy)]
enum Step {
    Bytes(&'static [u8]),
    Nothing,
    Interrupted,
    Broken,
}

/// A terminal that gives these, and hangs up then.
#[derive(Drop)]
struct Line {
    steps: &'static [Step],
}

impl Read for Line {
    fn read(&mut self, buf: &mut [u8]) -> io::Result<usize> {
        let Some((step, more)) = self.steps.split_first() else {
            return Ok(0);
        };
        self.steps = more;
        match *step {
            Step::Bytes(bytes) => {
                let count = bytes.len().min(buf.len());
                buf[..count].copy_from_slice(&bytes[..count]);
                Ok(count)
            }
            Step::Nothing => Ok(0),
            Step::Interrupted => Err(io::Error::from(ErrorKind::Interrupted)),
            Step::Broken => Err(io::Error::from(ErrorKind::Other)),
        }
    }
}

impl IsTerminal for Line {
    fn is_terminal(&self) -> bool {
        !self.steps.is_empty()
    }
}

/// What such a terminal tells, with 255 for a quiet while, and C or F where it ends.
fn told(alloc: Global, steps: &'static [Step]) -> Result<Vec<u8>, AllocError> {
    let mut keyboard = TerminalInput::new(Line { steps });
    let mut found = Vec::new(alloc);
    for _ in 0..100 {
        match keyboard.hear() {
            Ok(hearing) => add_heard(&mut found, hearing.as_slice())?,
            Err(KeyboardEnd::Closed) => {
                found.push(b'C')?;
                return Ok(found);
            }
            Err(KeyboardEnd::Fault) => {
                found.push(b'F')?;
                return Ok(found);
            }
        }
    }
    Ok(found)
}

fn add_heard(found: &mut Vec<u8>, heard: &[Heard]) -> Result<(), AllocError> {
    for one in heard {
        match one {
            Heard::Byte(byte) => found.push(*byte)?,
            Heard::Quiet => found.push(QUIET)?,
        }
    }
    Ok(())
}

#[test]
fn terminals_tell(rt: HostRuntime) -> Result<(), Fail> {
    let table: [(&[Step], &[u8]); 4] = [
        (
            &[
                Step::Nothing,
                Step::Nothing,
                Step::Interrupted,
                Step::Bytes(b"ab"),
                Step::Nothing,
                Step::Nothing,
                Step::Bytes(b"c"),
            ],
            b"\xffab\xffcC",
        ),
        (&[Step::Bytes(b"a"), Step::Broken], b"aF"),
        (&[Step::Bytes(b"a\rb\nc")], b"a\rb\ncC"),
        (&[], b"C"),
    ];
    for (steps, wanted) in table {
        let found = told(rt.alloc(), steps)?;
        assert!(rt; found.as_slice() == wanted);
    }
    Ok(())
}
