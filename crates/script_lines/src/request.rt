//! What a line of a script asks for.
//!
//! `type BYTES`, `key WORD`, `mark X Y`, `point KEYS X0 Y0 X1 Y1`, `file NAME BYTES` and `file NAME`, with or without a
//! space after it, ask for an event, and `checkpoint` for a checkpoint. `show NAME`, `list` and `screen` ask for a
//! look. Words are parted by exactly one space. In BYTES a percent sign and two hexadecimal digits stand for a byte.
//! What else a line says is malformed.
ghost use Rattle.std.specs.Prelude.{◌≡◌, None, Some, IfSome, IsTrue};
ghost use Rattle.std.specs.Option.{option_map};
ghost use Rattle.std.specs.List.{list_all};
ghost use Rattle.screen_pictures.specs.Bytes.{is_printable};
ghost use Rattle.script_lines.specs.Request.{is_readable, file_bytes_of, typed_bytes_of, typed_of, key_request};
ghost use Rattle.script_lines.specs.Request.{mark_request, point_of, file_request, show_of, command_of, request_of};
ghost use Rattle.script_lines.specs.Request.{typed_plain, pointing};
ghost use Rattle.script_lines.specs.declared.request.Request.TheVariants.{Malformed};

use crate::percent::{is_plain, spelled};
use crate::words::{key, leading_keys, leading_number, number, split_word};
use event_bytes::{Event, FileBytes, Keys, Name, TypedBytes};

/// How many bytes a line has at most.
pub(crate) const LONGEST_LINE: usize = 4096;

/// The keys of the mouse, the column and the row where they go down, and those where they go up.
type Drag = (Keys, u8, u8, u8, u8);

/// What a line asks for.
#[derive(Debug, PartialEq, Eq, Drop)]
pub enum Request {
    /// Something happens to the desktop.
    Post(Event),
    /// The desktop goes into the other slot.
    Checkpoint,
    /// The text of the file.
    Show(Name),
    /// All files and viewers, and how many characters count as written.
    Listing,
    /// The screen.
    Display,
    /// No line of the language.
    Malformed,
}

/// Makes the request what the line asks for, whose line feed isn't part of it.
///
/// Most lines type a text in which each byte stands for itself, one such line after another. Its text takes the place
/// of the one before; what else is asked for is made anew, and is moved.
pub fn ask(line: &[u8], request: &mut Request)
    ensures { request.new ≡ request_of line.now }
{
    match plain_typed(line) {
        Some(text) => type_plain(text, request),
        None => ask_other(line, request),
    }
}

/// The same where the line types no such text. It is compiled apart, and so is all that makes a request, since a function
/// clears at its beginning all places for texts that stand in it.
#[inline(never)]
fn ask_other(line: &[u8], request: &mut Request)
    ensures { request.new ≡ request_of line.now }
{
    match pointed(line) {
        Some(drag) => point_anew(drag, request),
        None => parse_anew(line, request),
    }
}

/// Makes the request what a line asks for that points with the mouse.
#[inline(never)]
fn point_anew(drag: Drag, request: &mut Request)
    ensures { request.new ≡ pointing drag }
{
    *request = pointing(drag);
}

/// Makes the request what the line asks for, by its words.
#[inline(never)]
fn parse_anew(line: &[u8], request: &mut Request)
    ensures { request.new ≡ request_of line.now }
{
    *request = parse(line);
}

/// Makes the request that of a malformed line.
#[inline(never)]
pub(crate) fn ask_nothing(request: &mut Request)
    ensures { request.new ≡ Malformed }
{
    *request = Request::Malformed;
}

/// How the line points with the mouse. None where it asks for something else.
fn pointed(line: &[u8]) -> Option<Drag>
    ensures { IfSome result (λ drag. request_of line.now ≡ pointing drag) }
{
    let (name, rest) = split_word(line);
    let text = rest?;
    if name == b"point".as_slice() && is_text(line) {
        return drag_of(text);
    }
    None
}

/// The text that the line types, where each byte of it stands for itself. None where the line asks for something else.
fn plain_typed(line: &[u8]) -> Option<&[u8]>
    ensures { IfSome result (λ text. request_of line.now ≡ typed_plain text.now) }
{
    let (name, rest) = split_word(line);
    let text = rest?;
    if name == b"type".as_slice() && is_text(line) && is_plain(text) {
        return Some(text);
    }
    None
}

/// Makes the request what a line asks for that types this text, in which each byte stands for itself.
fn type_plain(text: &[u8], request: &mut Request)
    ensures { request.new ≡ typed_plain text.now }
{
    if !type_again(text, request) {
        *request = type_anew(text);
    }
}

/// Puts the text in the place of the one that the request types. Whether there is one, and the text can be typed.
fn type_again(text: &[u8], request: &mut Request) -> bool
    ensures { IsTrue result → request.new ≡ typed_plain text.now }
{
    match request {
        Request::Post(Event::Typed(bytes)) => bytes.set(text),
        _ => false,
    }
}

/// What a line asks for that types this text, in which each byte stands for itself.
#[inline(never)]
fn type_anew(text: &[u8]) -> Request
    ensures { result ≡ typed_plain text.now }
{
    match TypedBytes::new(text) {
        Some(bytes) => Request::Post(Event::Typed(bytes)),
        None => Request::Malformed,
    }
}

/// What the line asks for, by its words. It stands apart, since a function clears at its beginning all places for texts
/// that stand in it.
#[inline(never)]
#[tactic(auto, unfolding(crate::specs::Request::request_of))]
fn parse(line: &[u8]) -> Request
    ensures { result ≡ request_of line.now }
{
    if !is_text(line) {
        return Request::Malformed;
    }
    let (name, rest) = split_word(line);
    command(name, rest).unwrap_or(Request::Malformed)
}

/// The line isn't too long, and each of its bytes is one from the space to the tilde.
fn is_text(line: &[u8]) -> bool
    ensures { result ≡ is_readable line.now }
{
    line.len() <= LONGEST_LINE && are_printable(line)
}

/// Whether each byte is one from the space to the tilde.
fn are_printable(bytes: &[u8]) -> bool
    ensures { result ≡ list_all is_printable bytes.now }
{
    bytes.iter().all(|byte| matches!(*byte, 32..=126))
}

/// What a line asks for, by its first word and what stands after one space.
#[tactic(auto, unfolding(crate::specs::Request::command_of))]
fn command(name: &[u8], rest: Option<&[u8]>) -> Option<Request>
    ensures { result ≡ command_of name.now (option_map (λ rest. rest.now) rest.entry) }
{
    match rest {
        None => one_word(name),
        Some(rest) => many_words(name, rest),
    }
}

/// What a line of one word asks for.
#[tactic(auto, unfolding(crate::specs::Request::command_of))]
fn one_word(name: &[u8]) -> Option<Request>
    ensures { result ≡ command_of name.now None }
{
    match name {
        _ if name == b"list".as_slice() => Some(Request::Listing),
        _ if name == b"screen".as_slice() => Some(Request::Display),
        _ if name == b"checkpoint".as_slice() => Some(Request::Checkpoint),
        _ => None,
    }
}

/// What a line asks for that has this first word, and this after one space.
#[tactic(auto, unfolding(crate::specs::Request::command_of))]
fn many_words(name: &[u8], rest: &[u8]) -> Option<Request>
    ensures { result ≡ command_of name.now (Some rest.now) }
{
    match name {
        _ if name == b"type".as_slice() => typed(rest),
        _ if name == b"key".as_slice() => pressed(rest),
        _ if name == b"mark".as_slice() => mark(rest),
        _ if name == b"point".as_slice() => point(rest),
        _ if name == b"file".as_slice() => {
            let (name, text) = split_word(rest);
            file(name, text.unwrap_or(&[]))
        }
        _ if name == b"show".as_slice() => show(rest),
        _ => None,
    }
}

/// The request that `type` makes of its text.
#[tactic(auto, unfolding(crate::specs::Request::typed_bytes_of))]
fn typed(text: &[u8]) -> Option<Request>
    ensures { result ≡ typed_of text.now }
{
    let bytes = typed_bytes(text)?;
    Some(Request::Post(Event::Typed(bytes)))
}

/// The request that `key` makes of its word.
fn pressed(name: &[u8]) -> Option<Request>
    ensures { result ≡ key_request name.now }
{
    Some(Request::Post(Event::Key(key(name)?)))
}

/// The request that `mark` makes of its column and row.
fn mark(text: &[u8]) -> Option<Request>
    ensures { result ≡ mark_request text.now }
{
    let (x, rest) = leading_number(text)?;
    let y = number(rest)?;
    Some(Request::Post(Event::Mark { x, y }))
}

/// The request that `point` makes of keys, the cell where they go down and the one where they go up.
fn point(text: &[u8]) -> Option<Request>
    ensures { result ≡ point_of text.now }
{
    let drag = drag_of(text)?;
    Some(pointing(drag))
}

/// The keys, the cell where they go down and the one where they go up.
fn drag_of(text: &[u8]) -> Option<Drag>
    ensures { option_map pointing result ≡ point_of text.now }
{
    let (keys, rest) = leading_keys(text)?;
    let (x0, rest) = leading_number(rest)?;
    let (y0, rest) = leading_number(rest)?;
    let (x1, rest) = leading_number(rest)?;
    let y1 = number(rest)?;
    Some((keys, x0, y0, x1, y1))
}

/// The request to point so with the mouse.
fn pointing(drag: Drag) -> Request
    ensures { result ≡ pointing drag }
{
    let (keys, x0, y0, x1, y1) = drag;
    Request::Post(Event::Point {
        keys,
        x0,
        y0,
        x1,
        y1,
    })
}

/// The request that `file` makes of its two arguments.
#[tactic(auto, unfolding(crate::specs::Request::file_bytes_of))]
fn file(name: &[u8], text: &[u8]) -> Option<Request>
    ensures { result ≡ file_request name.now text.now }
{
    let name = Name::new(name)?;
    let bytes = file_bytes(text)?;
    Some(Request::Post(Event::File { name, bytes }))
}

/// The request that `show` makes of its argument.
fn show(name: &[u8]) -> Option<Request>
    ensures { result ≡ show_of name.now }
{
    Some(Request::Show(Name::new(name)?))
}

/// The bytes that the text stands for, where they can be typed.
#[tactic(auto, using(crate::proofs::Escapes::typed_exits))]
fn typed_bytes(text: &[u8]) -> Option<TypedBytes>
    ensures { result ≡ typed_bytes_of text.now }
{
    TypedBytes::new(spelled(text)?.as_slice())
}

/// The bytes that the text stands for, where a file can have them.
#[tactic(auto, using(crate::proofs::Escapes::file_exits))]
fn file_bytes(text: &[u8]) -> Option<FileBytes>
    ensures { result ≡ file_bytes_of text.now }
{
    if is_plain(text) {
        return FileBytes::new(text);
    }
    FileBytes::new(spelled(text)?.as_slice())
}
