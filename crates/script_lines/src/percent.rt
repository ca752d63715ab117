//! The bytes that a text of a script stands for: a percent sign and two hexadecimal digits stand for one byte.
ghost use Rattle.std.specs.Prelude.{◌≡◌, ◌<◌, ◌≤◌, ◌∷◌, length, None, IfSome, MatchOption};
ghost use Rattle.std.specs.Option.{option_map};
ghost use Rattle.std.specs.List.{list_all};
ghost use Rattle.script_lines.specs.Percent.{is_itself, digit_value, byte_of_digits, in_front, meant, escaped as escape_meant};
ghost use Rattle.script_lines.specs.Percent.{few_meant};

use arrayvec::ArrayVec;

/// The bytes that one event has at most.
pub type Few = ArrayVec<u8, 900>;

/// Whether no byte is a percent sign. Such a text stands for its own bytes.
pub fn is_plain(text: &[u8]) -> bool
    ensures { result ≡ list_all is_itself text.now }
{
    text.iter().all(|byte| *byte != b'%')
}

/// The bytes that the text stands for. None where they are more than 900, and where a percent sign has no hexadecimal
/// digits after it.
#[tactic(auto, using(crate::proofs::Escapes::spelled_exits))]
pub fn spelled(text: &[u8]) -> Option<Few>
    ensures { option_map (λ bytes. bytes.items) result ≡ few_meant text.now }
{
    let mut bytes = Few::new();
    let mut rest = text;
    while let Some((first, behind)) = rest.split_first() {
        let (byte, behind) = first_meant(*first, behind)?;
        bytes.try_push(byte).ok()?;
        rest = behind;
    }
    Some(bytes)
}

/// The first byte that a text stands for, and the text after its spelling.
#[tactic(auto, unfolding(crate::specs::Percent::meant))]
fn first_meant(first: u8, rest: &[u8]) -> Option<(u8, &[u8])>
    ensures meant { MatchOption result (meant (first ∷ rest.now) ≡ None)
        (λ x. meant (first ∷ rest.now) ≡ in_front x.0 (meant x.1.now)) }
    ensures shorter { IfSome result (λ x. length x.1.now ≤ length rest.now) }
{
    if first == b'%' {
        escaped(rest)
    } else {
        Some((first, rest))
    }
}

/// The byte that two hexadecimal digits spell at the beginning, and the text after them.
#[tactic(auto, unfolding(crate::specs::Percent::escaped))]
fn escaped(text: &[u8]) -> Option<(u8, &[u8])>
    ensures meant { MatchOption result (escape_meant text.now ≡ None)
        (λ x. escape_meant text.now ≡ in_front x.0 (meant x.1.now)) }
    ensures shorter { IfSome result (λ x. length x.1.now ≤ length text.now) }
{
    let (high, rest) = text.split_first()?;
    let (low, rest) = rest.split_first()?;
    Some((byte_of(*high, *low)?, rest))
}

#[tactic(auto, unfolding(crate::specs::Percent::byte_of_digits))]
fn byte_of(high: u8, low: u8) -> Option<u8>
    ensures { result ≡ byte_of_digits high low }
{
    let high = digit(high)?;
    let low = digit(low)?;
    Some(16 * high + low)
}

#[tactic(auto, unfolding(event_bytes::specs::Bytes::is_digit))]
fn digit(byte: u8) -> Option<u8>
    ensures value { result ≡ digit_value byte }
    ensures small { IfSome result (λ value. value < 16) }
{
    match byte {
        b'0'..=b'9' => Some(byte - b'0'),
        b'A'..=b'F' => Some(byte - b'A' + 10),
        b'a'..=b'f' => Some(byte - b'a' + 10),
        _ => None,
    }
}
