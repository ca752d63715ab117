//! The words of a line, and the numbers and keys that they name.
ghost use Rattle.std.specs.Prelude.{◌≡◌, ◌<◌, ◌==◌, length, position, IfSome};
ghost use Rattle.std.specs.Option.{option_map};
ghost use Rattle.event_bytes.specs.Parts.{value_and_rest};
ghost use Rattle.screen_pictures.specs.Bytes.{space};
ghost use Rattle.script_lines.specs.Words.{first_word, argument, leading, to_number, key_named, keys_named};
ghost use Rattle.script_lines.specs.Digits.{one_more, number_from, read_number};

use event_bytes::{Key, Keys, is_digit};

/// What stands before the first space, and what stands after it.
#[tactic(auto, using(crate::proofs::FirstSpace::word_parts))]
pub fn split_word(line: &[u8]) -> (&[u8], Option<&[u8]>)
    ensures before { result.0.now ≡ first_word line.now }
    ensures behind { option_map (λ rest. rest.now) result.1 ≡ argument line.now }
{
    match first_space(line) {
        None => (line, None),
        Some(space) => (&line[..space], Some(&line[space + 1..])),
    }
}

/// Where the first space stands.
fn first_space(line: &[u8]) -> Option<usize>
    ensures first { result ≡ position (λ b. b == space) line.now }
    ensures within { IfSome result (λ i. i < length line.now) }
{
    line.iter().position(|byte| *byte == b' ')
}

/// The number that the word before the first space spells, and what stands after the space.
pub fn leading_number(text: &[u8]) -> Option<(u8, &[u8])>
    ensures { value_and_rest result ≡ leading to_number text.now }
{
    let (word, rest) = split_word(text);
    let rest = rest?;
    Some((number(word)?, rest))
}

/// The keys of the mouse that the word before the first space names, and what stands after the space.
pub fn leading_keys(text: &[u8]) -> Option<(Keys, &[u8])>
    ensures { value_and_rest result ≡ leading keys_named text.now }
{
    let (word, rest) = split_word(text);
    let rest = rest?;
    Some((keys(word)?, rest))
}

/// The number from 0 to 255 whose decimal digits the text is.
pub fn number(text: &[u8]) -> Option<u8>
    ensures { result ≡ to_number text.now }
{
    read(text)
}

/// The same, digit by digit.
#[tactic(auto, unfolding(crate::specs::Digits::read_number, event_bytes::specs::Bytes::is_digit))]
fn read(text: &[u8]) -> Option<u8>
    ensures { result ≡ read_number text.now }
{
    let (first, rest) = text.split_first()?;
    if !is_digit(*first) {
        return None;
    }
    number_from(*first - b'0', rest)
}

/// The number with these digits more. None where it passes 255, and where digits follow a zero at the beginning.
#[tactic(auto, unfolding(crate::specs::Digits::number_from))]
fn number_from(number: u8, digits: &[u8]) -> Option<u8>
    ensures { result ≡ number_from number digits.now }
{
    match digits.split_first() {
        None => Some(number),
        Some((digit, rest)) => number_from(one_more(number, *digit)?, rest),
    }
}

/// The number with a digit more.
#[tactic(auto, unfolding(crate::specs::Digits::one_more, event_bytes::specs::Bytes::is_digit))]
fn one_more(number: u8, digit: u8) -> Option<u8>
    ensures { result ≡ one_more number digit }
{
    if !is_digit(digit) || number == 0 {
        return None;
    }
    let more = 10 * number as u16 + (digit - b'0') as u16;
    u8::try_from(more).ok()
}

/// The key of the keyboard that a word names.
#[tactic(auto, unfolding(crate::specs::Words::key_named))]
pub fn key(name: &[u8]) -> Option<Key>
    ensures { result ≡ key_named name.now }
{
    match name {
        _ if name == b"back".as_slice() => Some(Key::Back),
        _ if name == b"copy".as_slice() => Some(Key::Copy),
        _ if name == b"paste".as_slice() => Some(Key::Paste),
        _ if name == b"cut".as_slice() => Some(Key::Cut),
        _ if name == b"escape".as_slice() => Some(Key::Escape),
        _ => None,
    }
}

/// The keys of the mouse that a word names: the first letters of each, in the order in which they are pressed.
#[tactic(auto, unfolding(crate::specs::Words::keys_named))]
fn keys(name: &[u8]) -> Option<Keys>
    ensures { result ≡ keys_named name.now }
{
    match name {
        _ if name == b"l".as_slice() => Some(Keys::Left),
        _ if name == b"lm".as_slice() => Some(Keys::LeftMiddle),
        _ if name == b"lr".as_slice() => Some(Keys::LeftRight),
        _ if name == b"m".as_slice() => Some(Keys::Middle),
        _ if name == b"ml".as_slice() => Some(Keys::MiddleLeft),
        _ if name == b"mr".as_slice() => Some(Keys::MiddleRight),
        _ if name == b"r".as_slice() => Some(Keys::Right),
        _ if name == b"rl".as_slice() => Some(Keys::RightLeft),
        _ if name == b"rm".as_slice() => Some(Keys::RightMiddle),
        _ => None,
    }
}
