//! What is asked for and typed by the hand, and what the next click does, in words.
ghost use Rattle.std.specs.Prelude.{◌≡◌, ◌≤◌, length, option_map, take};
ghost use Rattle.status_line.specs.Sayings.{click_words, keys_words, other_way, sought_words, typed_so_far};
ghost use Rattle.status_line.specs.Sayings.{words_again, search_line, line_by_hand, question, search_asked};
ghost use Rattle.status_line.specs.Sayings.{file_question, names_told, search_shortly};

use crate::fitting::or_shorter;
use crate::saying::{Saying, SayingLine, cut, line};
use event_bytes::Keys;
use host_names::MOST_SOUGHT;
use screen_cells::Screen;
use terminal_presses::{Asks, Click};

/// What the next click is.
fn click_words(click: Click) -> &'static [u8]
    ensures value { result.now ≡ click_words click }
    ensures short { length result.now ≤ 80 }
{
    match click {
        Click::Mark => b"the next click sets the marker in the viewer there; Escape calls it off",
        Click::Keys(keys) => keys_words(keys),
    }
}

/// With which keys the next click is.
fn keys_words(keys: Keys) -> &'static [u8]
    ensures value { result.now ≡ keys_words keys }
    ensures short { length result.now ≤ 80 }
{
    match keys {
        Keys::Left => b"the next click sets the caret; Escape calls it off",
        Keys::LeftMiddle => b"the next click copies the selection there; Escape calls it off",
        Keys::LeftRight =>
            b"the next click gives the selection the look there; Escape calls it off",
        Keys::Middle => b"the next click calls the word there; Escape calls it off",
        Keys::MiddleLeft => b"the next click: middle and left; Escape calls it off",
        Keys::MiddleRight => b"the next click: middle and right; Escape calls it off",
        Keys::Right => b"drag over what is to be selected; Escape calls it off",
        Keys::RightLeft => b"drag over what is to be deleted; Escape calls it off",
        Keys::RightMiddle => b"drag over what is to be copied to the caret; Escape calls it off",
    }
}

/// The same where no question is asked: a name that is asked for, or else what the next click does.
pub(crate) fn line_by_hand(
    width: usize,
    screen: &Screen,
    log: &SayingLine,
    asked: Option<&[u8]>,
    asks: Asks,
    names: u8,
    sought: &[u8],
    armed: Option<Click>,
    saying: Saying,
) -> SayingLine
    requires { width ≤ 80 }
    ensures value { result.items ≡ line_by_hand width screen.now log.now.items
        (option_map (λ name. name.now) asked.entry) asks names sought.now armed saying }
    ensures fits { 17 ≤ width → length result.items ≤ width }
{
    if let Some(name) = asked {
        return question(width, asks, names, sought, name);
    }
    match armed {
        Some(click) => cut(width, click_words(click)),
        None => cut(width, saying.words(screen, log).as_slice()),
    }
}

/// The name of a host file, the number of a line, or words that are sought, as far as they are typed, behind words that
/// were sought last.
fn question(width: usize, asks: Asks, names: u8, sought: &[u8], name: &[u8]) -> SayingLine
    requires { width ≤ 80 }
    ensures value { result.items ≡ question width asks names sought.now name.now }
    ensures fits { 17 ≤ width → length result.items ≤ width }
{
    match asks {
        Asks::File => file_question(width, names_told(names).as_slice(), name),
        Asks::Line => typed_so_far(width, b"Line? ", name),
        Asks::Words => search_line(width, false, sought, name),
        Asks::WordsBefore => search_line(width, true, sought, name),
    }
}

/// How many names of host files begin so, if there are several.
fn names_told(names: u8) -> SayingLine
    ensures value { result.items ≡ names_told names }
    ensures short { length result.items ≤ 20 }
{
    let mut text = SayingLine::new();
    if names > 1 {
        let mut digits = itoa::Buffer::new();
        text.try_extend_from_slice(b"  (").unwrap();
        text.try_extend_from_slice(digits.format(names).as_bytes())
            .unwrap();
        text.try_extend_from_slice(b" names)").unwrap();
    }
    text
}

/// The name of a host file, and behind it how many begin so, where there is room for that.
fn file_question(width: usize, told: &[u8], name: &[u8]) -> SayingLine
    requires columns { width ≤ 80 }
    requires short { length told.now ≤ 20 }
    ensures value { result.items ≡ file_question width told.now name.now }
    ensures fits { 17 ≤ width → length result.items ≤ width }
{
    if width < 17 + told.len() {
        return typed_so_far(width, b"Type which file? ", name);
    }
    let mut text = typed_so_far(width - told.len(), b"Type which file? ", name);
    text.try_extend_from_slice(told).unwrap();
    text
}

/// What is asked for, and what is typed, of which the end is seen.
fn typed_so_far(width: usize, asked: &[u8], name: &[u8]) -> SayingLine
    requires columns { width ≤ 80 }
    requires short { length asked.now ≤ 17 }
    ensures value { result.items ≡ typed_so_far width asked.now name.now }
    ensures fits { 17 ≤ width → length result.items ≤ width }
{
    let mut text = line(asked);
    let start = name.len().saturating_sub(width.saturating_sub(asked.len()));
    text.try_extend_from_slice(&name[start..]).unwrap();
    text
}

/// The words that are asked for, and where none is typed what Return does, and the key for the other way.
#[tactic(auto, unfolding(crate::specs::Sayings::search_line))]
fn search_line(width: usize, before: bool, sought: &[u8], words: &[u8]) -> SayingLine
    requires { width ≤ 80 }
    ensures value { result.items ≡ search_line width before sought.now words.now }
    ensures fits { 17 ≤ width → length result.items ≤ width }
{
    if !words.is_empty() {
        let asked = sought_words(before, words.len() < MOST_SOUGHT);
        return typed_so_far(width, asked, words);
    }
    let short = search_shortly(before);
    or_shorter(
        width,
        search_asked(before, sought),
        cut(width, short.as_slice()),
    )
}

/// What Return does in few words.
fn search_shortly(before: bool) -> SayingLine
    ensures { result.items ≡ search_shortly before }
{
    let mut text = line(sought_words(before, true));
    text.try_extend_from_slice(b"(Return: again)").unwrap();
    text
}

/// What Return does, and the key for the other way.
fn search_asked(before: bool, sought: &[u8]) -> SayingLine
    ensures { result.items ≡ search_asked before sought.now }
{
    let mut text = line(sought_words(before, true));
    text.try_extend_from_slice(b"(Return: ").unwrap();
    text.try_extend_from_slice(words_again(front(sought, MOST_SOUGHT)))
        .unwrap();
    text.try_extend_from_slice(other_way(before)).unwrap();
    text
}

/// What Return seeks where no words are typed: those that were sought last.
fn words_again(sought: &[u8]) -> &[u8]
    requires { length sought.now ≤ 31 }
    ensures value { result.now ≡ words_again sought.now }
    ensures short { length result.now ≤ 31 }
{
    if sought.is_empty() {
        b"the last words again"
    } else {
        sought
    }
}

/// The key that seeks in the other direction.
fn other_way(before: bool) -> &'static [u8]
    ensures value { result.now ≡ other_way before }
    ensures short { length result.now ≤ 19 }
{
    if before {
        b". Ctrl-F: onward)"
    } else {
        b". Ctrl-B: backward)"
    }
}

/// That words are asked for, and where there is no room for more how many there may be.
fn sought_words(before: bool, has_room: bool) -> &'static [u8]
    ensures value { result.now ≡ sought_words before has_room }
    ensures short { length result.now ≤ 13 }
{
    if !has_room {
        b"31 at most: "
    } else if before {
        b"Search back? "
    } else {
        b"Search for? "
    }
}

/// The first bytes, so many of them.
fn front(bytes: &[u8], count: usize) -> &[u8]
    ensures value { result.now ≡ take count bytes.now }
    ensures short { length result.now ≤ count }
{
    if count < bytes.len() {
        &bytes[..count]
    } else {
        bytes
    }
}
