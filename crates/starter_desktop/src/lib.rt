//! The desktop of a new store: a document with the words of all commands, in a viewer, and one that says how the desktop
//! is used.
//!
//! It is what three events make of the empty desktop (`specs/StarterDesktop.antt`).
#![tactic(auto)]

ghost use Rattle.std.specs.Prelude.{◌≡◌, false, OnOk};
ghost use Rattle.desktop_definitions.specs.Step.{steps};
ghost use Rattle.starter_desktop.specs.StarterDesktop.{tool_event as tool_filed, help_event as help_filed, opening_click, furnishing};

use desk_journal::{Error, Store};
use event_bytes::{Event, FileBytes, Keys, Name};
use sector_disk::Disk;
use std::alloc::Global;

/// The name of the document that a click on the empty display opens.
pub const TOOL_NAME: &[u8] = b"System.Tool";

/// The words of all commands, some with parameters: 22 lines of 28 characters at most, which are all in sight where a
/// terminal has 24 rows.
pub const TOOL_TEXT: &[u8] = b"\
Edit.Open A.Text Edit.Recall\r\
Edit.Open Help  Edit.Open ^\r\
System.OpenLog  System.Clear\r\
System.Open System.Tool\r\
System.Open ^  System.Recall\r\
System.DeleteFiles A.Text ~\r\
System.Directory\r\
System.Collect\r\
At the marker:\r\
Edit.Store  Edit.Search\r\
System.Copy  System.Close\r\
Edit.Open *  System.Grow\r\
What is selected:\r\
Edit.ChangeColor 3\r\
Edit.ChangeOffset -2\r\
Edit.ChangeFont\r\
\x20 Oberon12.Scn.Fnt\r\
What is typed:\r\
System.SetColor 15\r\
System.SetOffset 0\r\
System.SetFont\r\
\x20 Oberon10.Scn.Fnt\r\
";

/// The name of the document that says how the desktop is used.
pub const HELP_NAME: &[u8] = b"Help";

/// How the desktop is used, in 20 lines.
pub const HELP_TEXT: &[u8] = b"\
Middle button: calls the word under it.\r\
Left: the caret. Right, Shift-arrows select.\r\
No such buttons? F2 and a click, F3 and a draw.\r\
No mouse? F11: a pointer; arrows, Tab move it.\r\
In a menu: draw with the left button to move the\r\
viewer's top. The last word there is Edit.Store.\r\
F1, then a click: the marker. New viewers open\r\
there; Edit.Store and the like mean its viewer.\r\
Any text will do: type Edit.Open B.Text here, and\r\
call its first word.\r\
Edit.Store, or Ctrl-S, makes it a document.\r\
System.Close closes, System.Recall reopens.\r\
System.Grow gives a viewer its column whole.\r\
In the bar: left scrolls down, right goes to the\r\
beginning. Ctrl-G goes to a line.\r\
Ctrl-C, Ctrl-X, Ctrl-V: copy, cut, put in.\r\
Ctrl-Z takes back what was last; Ctrl-Y redoes.\r\
Ctrl-F seeks words, Ctrl-R replaces so again.\r\
Colour 0 is white on white; 5, 13, 14 are faint.\r\
Ctrl-O types a file. Ctrl-Q leaves; all is kept.\r\
";

/// Makes the document with the words of all commands and the one that says how the desktop is used, and opens the first
/// in a viewer.
///
/// Errors: those of `Store::post`.
pub fn furnish<D: Disk>(alloc: Global, store: &mut Store<D>) -> Result<(), Error>
    ensures desktop { OnOk result (D.honest store.old.disk
        → store.new.desktop ≡ steps store.old.desktop furnishing) }
    ensures usable { OnOk result (store.new.must_reopen ≡ false) }
    ensures still { D.honest store.old.disk → D.honest store.new.disk }
{
    store.post(alloc, &tool_event())?;
    store.post(alloc, &help_event())?;
    store.post(alloc, &opening())?;
    Ok(())
}

/// The event that makes the document.
pub fn tool_event() -> Event
    ensures { result ≡ tool_filed }
{
    Event::File {
        name: Name::new(TOOL_NAME).unwrap(),
        bytes: FileBytes::new(TOOL_TEXT).unwrap(),
    }
}

/// The event that makes the document that says how the desktop is used.
fn help_event() -> Event
    ensures { result ≡ help_filed }
{
    Event::File {
        name: Name::new(HELP_NAME).unwrap(),
        bytes: FileBytes::new(HELP_TEXT).unwrap(),
    }
}

/// The click that opens the words of all commands: the middle key, over the system track.
fn opening() -> Event
    ensures { result ≡ opening_click }
{
    Event::Point {
        keys: Keys::Middle,
        x0: 60,
        y0: 31,
        x1: 60,
        y1: 31,
    }
}
