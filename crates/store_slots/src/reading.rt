//! Reading a whole text.
ghost use Rattle.std.specs.Prelude.{◌≡◌, length, IfOk};
ghost use Rattle.char_file.specs.Source.{OnlyReads};
ghost use Rattle.store_slots.specs.Words.{FailsAs, IsStop, AreWithin, contents, flat};

use char_file::CharSource;
use event_loop::Stop;
use piece_ring::Look;
use readers_scanners::Reader;
use std::alloc::Global;
use text_core::Text;

/// All characters of a text with their looks.
///
/// Errors: `NoMemory`; `Fault` where a character could not be read.
pub fn read_all<S: CharSource>(
    alloc: Global,
    text: &Text,
    source: &mut S,
) -> Result<Vec<(u8, Look)>, Stop>
    requires { AreWithin (length (S.characters source.old)) (flat text.now) }
    ensures read { IfOk result (λ characters. S.honest source.old
        → characters.items ≡ contents (S.characters source.old) (flat text.now)) }
    ensures reads { OnlyReads S.characters S.failures S.honest S.same_ground source.old source.new }
    ensures faults { FailsAs Stop.Fault IsStop result (S.failures source.old)
        (S.failures source.new) }
{
    let mut reader = Reader::open(text, 0);
    let mut characters = Vec::new(alloc);
    while let Some(character) = reader.read(source)? {
        characters.push(character)?;
    }
    Ok(characters)
}
