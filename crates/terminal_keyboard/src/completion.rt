//! How a name goes on.
ghost use Rattle.std.specs.Prelude.{◌≡◌, ◌++◌, []};
ghost use Rattle.terminal_keyboard.specs.Hearings.{asked_rest};

use crate::Trace;
use host_names::{HostName, is_host_byte};

/// How the name of a host file goes on that a person has begun to type.
#[derive(Drop)]
pub struct Completion {
    /// How all names go on that begin so, as far as they agree and can be typed. A folder's name ends with a slash.
    pub rest: HostName,
    /// How many there are, up to 255.
    pub count: u8,
}

impl Completion {
    /// No name begins so.
    pub fn none() -> Completion
        ensures { result ≡ record { rest = []; count = 0 } }
    {
        Completion {
            rest: HostName::none(),
            count: 0,
        }
    }

    /// So many names go on so, as far as that can be typed.
    pub(crate) fn of(bytes: &[u8], count: u8) -> Completion {
        let mut rest = HostName::none();
        for byte in bytes {
            if !add(&mut rest, *byte) {
                break;
            }
        }
        Completion { rest, count }
    }
}

/// Writes down a name of which it was asked how it goes on, and the answer.
pub(crate) fn note_rest(log: &mut Trace<u8>, name: &[u8], told: &Completion)
    ensures { log.new.items ≡ log.old.items ++ asked_rest name.now told.now }
{
    log.add(name);
    log.add(told.rest.as_bytes());
    log.add(&[told.count]);
}

/// Adds a byte, if it can stand in a name and there is room. Returns whether it did.
fn add(name: &mut HostName, byte: u8) -> bool {
    if !is_host_byte(byte) || !name.has_room() {
        return false;
    }
    name.add(byte);
    true
}
