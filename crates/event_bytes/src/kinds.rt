//! Bytes by kind.
ghost use Rattle.std.specs.Prelude.{◌≡◌};
ghost use Rattle.event_bytes.specs.Bytes.{is_letter as letter, is_digit as digit};
ghost use Rattle.event_bytes.specs.Bytes.{is_name_byte as name_byte, is_text_byte as text_byte};

/// The byte of a tabulator.
pub const TABULATOR: u8 = 9;

/// The byte of a carriage return, which ends a line.
pub const CARRIAGE_RETURN: u8 = 13;

/// Whether a byte is a letter: A to Z or a to z.
#[tactic(auto, unfolding(crate::specs::Bytes::is_letter))]
pub fn is_letter(byte: u8) -> bool
    ensures { result ≡ letter byte }
{
    byte.is_ascii_alphabetic()
}

/// Whether a byte is a digit: 0 to 9.
#[tactic(auto, unfolding(crate::specs::Bytes::is_digit))]
pub fn is_digit(byte: u8) -> bool
    ensures { result ≡ digit byte }
{
    byte.is_ascii_digit()
}

/// Whether a byte may stand in a name: a letter, a digit or a period.
#[tactic(auto, unfolding(crate::specs::Bytes::is_name_byte))]
pub fn is_name_byte(byte: u8) -> bool
    ensures { result ≡ name_byte byte }
{
    is_letter(byte) || is_digit(byte) || byte == b'.'
}

/// Whether a byte may be typed or stand in a file: a tabulator (9), a carriage return (13), or one from the space to
/// the tilde (32 to 126).
#[tactic(auto, unfolding(crate::specs::Bytes::is_text_byte))]
pub fn is_text_byte(byte: u8) -> bool
    ensures { result ≡ text_byte byte }
{
    matches!(byte, TABULATOR | CARRIAGE_RETURN | 32..=126)
}
