//! What a byte says that stands by itself.
ghost use Rattle.std.specs.Prelude.{◌≡◌};
ghost use Rattle.terminal_presses.specs.Singles.{single};

use crate::press::Press;
use event_bytes::is_text_byte;

/// The byte that begins most spellings of keys, and is the key Escape by itself.
pub const ESCAPE: u8 = 27;

impl Press {
    /// What a byte says that stands by itself. None for one from 128 to 191, which goes on with a character of several
    /// bytes that its first byte has told.
    #[tactic(auto, unfolding(crate::specs::Singles::single))]
    pub fn of_byte(byte: u8) -> Option<Press>
        ensures { result ≡ single byte }
    {
        if byte == ESCAPE {
            Some(Press::Escape)
        } else if is_text_byte(byte) {
            Some(Press::Character(byte))
        } else if byte == 8 || byte == 127 {
            Some(Press::Back)
        } else if byte < 32 {
            Some(Press::Control(byte))
        } else if byte < 192 {
            None
        } else {
            Some(Press::Foreign)
        }
    }
}
