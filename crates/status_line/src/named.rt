//! What a command would take as names, as it is seen behind its word.
ghost use Rattle.std.specs.Prelude.{◌≡◌, ◌<◌, ◌≤◌, ◌==◌, ◌++◌, [], IfSome, codes, if◌then◌else◌, length, not, position, take};
ghost use Rattle.screen_reading.specs.Along.{shows_text};
ghost use Rattle.status_line.specs.declared.named.Part.TheVariants.{Text};
ghost use Rattle.status_line.specs.Named.{begins_with_name, behind_call, behind_part, row_characters, deletes, deleting_words};
ghost use Rattle.status_line.specs.Named.{goes_on_oddly, is_odd, is_part, misnamed_shortly, misnamed_words, named_question, opens};
ghost use Rattle.status_line.specs.Named.{part_run, row_text, text_from};
ghost use Rattle.viewer_tracks.specs.declared.display.TheConstants.{COLUMNS};

use crate::question::Question;
use crate::saying::{SayingLine, line};
use event_bytes::is_name_byte;
use screen_cells::Screen;
use screen_pictures::{Cell, Mark};
use screen_reading::called_word;
use viewer_tracks::COLUMNS;

/// A row of the screen, from the left.
type Row = [Cell; COLUMNS as usize];

/// What is told apart of cells.
#[derive(Clone, Copy)]
pub(crate) enum Part {
    /// A text is shown there.
    Text,
    /// A byte of a name is there.
    Name,
    /// A blank is there.
    Blank,
    /// Neither is there.
    Odd,
    /// No blank is there.
    Letter,
    /// A byte of a name or a blank is there.
    Listed,
}

/// Whether a byte is neither a blank nor one of a name.
fn is_odd(byte: u8) -> bool
    ensures { result ≡ is_odd byte }
{
    byte != b' ' && !is_name_byte(byte)
}

/// Whether a text is shown at a cell of that mark.
fn shows_text(mark: Mark) -> bool
    ensures { result ≡ shows_text mark }
{
    matches!(
        mark,
        Mark::Caret | Mark::Text | Mark::Selected | Mark::Marker
    )
}

/// Whether a cell is such a one.
fn is_part(part: Part, cell: Cell) -> bool
    ensures { result ≡ is_part part cell }
{
    match part {
        Part::Text => shows_text(cell.mark),
        Part::Name => is_name_byte(cell.ch),
        Part::Blank => cell.ch == b' ',
        Part::Odd => is_odd(cell.ch),
        Part::Letter => cell.ch != b' ',
        Part::Listed => cell.ch == b' ' || is_name_byte(cell.ch),
    }
}

/// The place of the first cell that isn't such a one.
fn other_part(part: Part, cells: &[Cell]) -> Option<usize>
    ensures value { result ≡ position (λ cell. not (is_part part cell)) cells.now }
    ensures within { IfSome result (λ at. at < length cells.now) }
{
    cells.iter().position(|cell| !is_part(part, *cell))
}

/// How many cells from the first on are such ones.
fn part_run(part: Part, cells: &[Cell]) -> usize
    ensures value { result ≡ part_run part cells.now }
    ensures within { result ≤ length cells.now }
{
    match other_part(part, cells) {
        None => cells.len(),
        Some(count) => count,
    }
}

/// The cells behind these.
fn behind_part(part: Part, cells: &[Cell]) -> &[Cell]
    ensures { result.now ≡ behind_part part cells.now }
{
    &cells[part_run(part, cells)..]
}

/// The cells of a text from a column on to the end of its row.
#[tactic(auto, unfolding(crate::specs::Named::text_from))]
fn text_from(screen: &Screen, x: u8, y: u8) -> &[Cell]
    ensures { result.now ≡ text_from screen.now x y }
{
    match screen.rows().get(usize::from(y)) {
        Some(row) if x < COLUMNS => row_text(row, usize::from(x)),
        _ => &[],
    }
}

/// The same of a row.
fn row_text(row: &Row, x: usize) -> &[Cell]
    requires { x < COLUMNS }
    ensures { result.now ≡ row_text row.now x }
{
    text_of(&row[x..])
}

/// The cells from the first on that show a text.
fn text_of(cells: &[Cell]) -> &[Cell]
    ensures { result.now ≡ take (part_run Text cells.now) cells.now }
{
    &cells[..part_run(Part::Text, cells)]
}

/// What stands behind the word at a cell, and the blanks after it.
pub(crate) fn behind_call(screen: &Screen, x: u8, y: u8) -> &[Cell]
    ensures { result.now ≡ behind_call screen.now x y }
{
    behind_part(
        Part::Blank,
        behind_part(Part::Name, text_from(screen, x, y)),
    )
}

/// Whether the first cell has a byte of a name.
fn begins_with_name(cells: &[Cell]) -> bool
    ensures { result ≡ begins_with_name cells.now }
{
    match cells.first() {
        None => false,
        Some(cell) => is_name_byte(cell.ch),
    }
}

/// Whether a name goes on with characters that no name has, and then with one that names have.
fn goes_on_oddly(cells: &[Cell]) -> bool
    ensures { result ≡ goes_on_oddly cells.now }
{
    let behind = behind_part(Part::Name, cells);
    part_run(Part::Name, cells) > 0
        && part_run(Part::Odd, behind) > 0
        && begins_with_name(behind_part(Part::Odd, behind))
}

/// Whether a word is the command that deletes documents.
fn deletes(word: &[u8]) -> bool
    ensures { result ≡ deletes word.now }
{
    word == b"System.DeleteFiles".as_slice()
}

/// Whether a word is a command that opens a document.
pub(crate) fn opens(word: &[u8]) -> bool
    ensures { result ≡ opens word.now }
{
    word == b"Edit.Open".as_slice() || word == b"System.Open".as_slice()
}

/// What is asked about the word that is called at a cell: it deletes documents, or opens one whose name isn't all that
/// stands there.
#[tactic(auto, unfolding(crate::specs::Named::named_question))]
pub fn named_question(screen: &Screen, x: u8, y: u8) -> Option<Question>
    ensures { result ≡ named_question screen.now x y }
{
    let word = called_word(screen, x, y);
    if deletes(word.as_slice()) {
        return Some(Question::Deleting { x, y });
    }
    if opens(word.as_slice()) && goes_on_oddly(behind_call(screen, x, y)) {
        return Some(Question::Misnamed { x, y });
    }
    None
}

/// The bytes of cells.
fn row_characters(cells: &[Cell]) -> SayingLine
    requires { length cells.now ≤ 80 }
    ensures bytes { result.items ≡ row_characters cells.now }
    ensures count { length result.items ≡ length cells.now }
{
    let mut bytes = SayingLine::new();
    for cell in cells {
        bytes.push(cell.ch);
    }
    bytes
}

/// The names that are seen behind the word, up to what is none; two periods where they may go on in the next row.
#[tactic(auto, unfolding(crate::specs::Named::deleting_words))]
pub(crate) fn deleting_words(cells: &[Cell]) -> SayingLine
    ensures { result.items ≡ deleting_words cells.now }
{
    let count = part_run(Part::Listed, cells);
    if count == 0 {
        return line(b"Press again to delete what is named there");
    }
    let names = row_characters(&cells[..count.min(54)]);
    deleting(names.as_slice(), going_on(count, cells.len()))
}

/// That documents go whose names are these, and what stands for those that aren't seen.
fn deleting(names: &[u8], rest: &[u8]) -> SayingLine
    requires names { length names.now ≤ 54 }
    requires rest { length rest.now ≤ 3 }
    ensures { result.items ≡ codes "Press again to delete: " ++ names.now ++ rest.now }
{
    let mut text = line(b"Press again to delete: ");
    text.try_extend_from_slice(names).unwrap();
    text.try_extend_from_slice(rest).unwrap();
    text
}

/// Two periods where names go up to the end of what is seen.
fn going_on(count: usize, all: usize) -> &'static [u8]
    ensures value { result.now ≡ (if count == all then codes " .." else []) }
    ensures short { length result.now ≤ 3 }
{
    if count == all { b" .." } else { b"" }
}

/// The word that is no name, as far as there is room, and the name that it begins with.
#[tactic(auto, unfolding(crate::specs::Named::misnamed_words))]
pub(crate) fn misnamed_words(cells: &[Cell]) -> SayingLine
    ensures { result.items ≡ misnamed_words cells.now }
{
    let whole = row_characters(&cells[..part_run(Part::Letter, cells).min(20)]);
    let name = row_characters(&cells[..part_run(Part::Name, cells).min(31)]);
    misnamed(whole.as_slice(), name.as_slice())
}

/// The same in fewer words.
#[tactic(auto, unfolding(crate::specs::Named::misnamed_shortly))]
pub(crate) fn misnamed_shortly(cells: &[Cell]) -> SayingLine
    ensures { result.items ≡ misnamed_shortly cells.now }
{
    let name = row_characters(&cells[..part_run(Part::Name, cells).min(31)]);
    let mut text = line(b"No name: press again for ");
    text.try_extend_from_slice(name.as_slice()).unwrap();
    text
}

/// That a word is no name, and with which name it begins.
fn misnamed(whole: &[u8], name: &[u8]) -> SayingLine
    requires whole { length whole.now ≤ 20 }
    requires name { length name.now ≤ 31 }
    ensures { result.items ≡ whole.now ++ codes " is no name: press again for " ++ name.now }
{
    let mut text = line(whole);
    text.try_extend_from_slice(b" is no name: press again for ")
        .unwrap();
    text.try_extend_from_slice(name).unwrap();
    text
}
