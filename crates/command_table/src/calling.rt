//! Which command is called at a position of a text.
ghost use Rattle.std.specs.Prelude.{◌≡◌, ◌+◌, ◌-◌, ◌<◌, ◌≤◌, ◌^◌, length, drop, take, min, IfOk, IfSome};
ghost use Rattle.std.specs.List.{prefix_len};
ghost use Rattle.readers_scanners.specs.Words.{CountsFault, OnlyReads, flat, bytes_of_text};
ghost use Rattle.event_bytes.specs.Bytes.{is_name_byte};
ghost use Rattle.command_table.specs.Call.{word_begin, called_at};
ghost use Rattle.command_table.specs.Parameters.{IsTextPlace};
ghost use Rattle.command_table.specs.Versions.{version_number};

use crate::{ArrayVec, CharSource, Command, Fault, Text, Version};
use event_bytes::is_name_byte;
use readers_scanners::Reader;

/// How many bytes the longest word of a command has. A longer run of letters, digits and periods calls nothing.
const LONGEST: u32 = 18;

/// How many bytes are looked at: so many before the position, the one there, and so many after it.
const LOOKED_AT: usize = 37;

/// The command that is called at `pos` in a version of the table, and the position where its parameters begin: the
/// longest run of letters, digits and periods that holds the character there has to be the command's word, and ends
/// where the parameters begin. None where there is no such run, as at the end of the text, or where it is the word of
/// no command that the version has. `Fault`: the source failed in this call.
///
/// It reads 37 characters at most, however long the run is.
pub fn called<S: CharSource>(
    version: Version,
    text: &Text,
    pos: u32,
    source: &mut S,
) -> Result<Option<(Command, u32)>, Fault>
    requires { IsTextPlace (length (S.characters source.old)) (flat text.now, pos) }
    ensures call { IfOk result (λ call. S.honest source.old
        → call ≡ called_at (version_number version)
        (bytes_of_text (S.characters source.old) (flat text.now)) pos) }
    ensures range { IfOk result
        (λ call. IfSome call (λ x. (pos < x.1) × (x.1 ≤ length (flat text.now)))) }
    ensures reads { OnlyReads S.characters S.failures S.honest S.same_ground source.old source.new }
    ensures cause { CountsFault result (S.failures source.old) (S.failures source.new) }
{
    let start = pos.saturating_sub(LONGEST);
    let window = bytes_from(text, start, source)?;
    match called_in(version, window.as_slice(), (pos - start) as usize) {
        None => Ok(None),
        Some((command, end)) => Ok(Some((command, start + end as u32))),
    }
}

/// The bytes of a text from a position on, as many as are looked at, or fewer at its end. `Fault`: the source failed in
/// this call.
fn bytes_from<S: CharSource>(
    text: &Text,
    start: u32,
    source: &mut S,
) -> Result<ArrayVec<u8, LOOKED_AT>, Fault>
    requires { IsTextPlace (length (S.characters source.old)) (flat text.now, start) }
    ensures bytes { IfOk result (λ window. S.honest source.old
        → window.items
        ≡ take LOOKED_AT (drop start (bytes_of_text (S.characters source.old) (flat text.now)))) }
    ensures count { IfOk result
        (λ window. length window.items ≡ min LOOKED_AT (length (flat text.now) - start)) }
    ensures fits { IfOk result (λ window. start + length window.items < 2 ^ 32) }
    ensures reads { OnlyReads S.characters S.failures S.honest S.same_ground source.old source.new }
    ensures cause { CountsFault result (S.failures source.old) (S.failures source.new) }
{
    let end = text.len().min(start.saturating_add(LOOKED_AT as u32));
    let mut reader = Reader::open(text, start);
    let mut window = ArrayVec::new();
    for at in start..end {
        let byte = reader.next_byte(source)?;
        window.push(byte);
    }
    Ok(window)
}

/// The command that is called at a position of these bytes in a version of the table, and where its word ends.
#[tactic(auto, unfolding(crate::specs::Call::called_at))]
fn called_in(version: Version, bytes: &[u8], at: usize) -> Option<(Command, usize)>
    requires { at ≤ length bytes.now }
    ensures call { result ≡ called_at (version_number version) bytes.now at }
    ensures range { IfSome result (λ x. (at < x.1) × (x.1 ≤ length bytes.now)) }
{
    let run = run_len(&bytes[at..]);
    if run == 0 {
        return None;
    }
    let begin = word_begin(bytes, at);
    let command = Command::named(version, &bytes[begin..at + run])?;
    Some((command, at + run))
}

/// How many bytes at the beginning are letters, digits and periods.
fn run_len(bytes: &[u8]) -> usize
    ensures run { result ≡ prefix_len is_name_byte bytes.now }
    ensures within { result ≤ length bytes.now }
{
    for (i, byte) in bytes.iter().enumerate() {
        if !is_name_byte(*byte) {
            return i;
        }
    }
    bytes.len()
}

/// Where the letters, digits and periods that stand together before a position begin.
fn word_begin(bytes: &[u8], at: usize) -> usize
    requires { at ≤ length bytes.now }
    ensures begin { result ≡ word_begin bytes.now at }
    ensures within { result ≤ at }
{
    let mut begin = at;
    while begin > 0 && is_name_byte(bytes[begin - 1]) {
        begin -= 1;
    }
    begin
}
