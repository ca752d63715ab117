//! Lists of names.
ghost use Rattle.std.specs.Prelude.{◌≡◌, ◌≤◌, ◌<◌, length, IfOk, IfSome, None};
ghost use Rattle.std.specs.Option.{option_map};
ghost use Rattle.readers_scanners.specs.Words.{CountsFault, OnlyReads, flat, AreWithin, bytes_of_text};
ghost use Rattle.readers_scanners.specs.Symbol.{IsSymbolShaped};
ghost use Rattle.command_table.specs.Parameters.{IsTextPlace, IsNames, IsList, place_lent, listed_names, names, names_on};
ghost use Rattle.command_table.specs.Parameters.{some_names, first_names};
ghost use Rattle.command_table.specs.Deciding.{most_names};

use crate::symbols::{is_special, name_in, next_symbol};
use crate::{ArrayVec, CharSource, Fault, Name, Symbol, Text, codes};
use readers_scanners::Scanner;

/// How many names of a list are read.
pub const MOST_NAMES: usize = 257;

/// Names of a list, in its order.
type Names = ArrayVec<Name, MOST_NAMES>;

/// The first names of the list at `pos`, at most 257. The list is the names from there on up to the first other symbol.
/// Where the first symbol is `^` the list begins where the newest selection begins, whose end is no bound. Of a name of
/// more than 31 bytes the first 31 count.
///
/// `sel` is the text of the newest selection and where it begins. A code: `codes::NO_SELECTION` for `^` where `sel` is
/// None, `codes::WRONG_SYMBOL` for a list without a name. `Fault`: the source failed in this call.
pub fn names<S: CharSource>(
    text: &Text,
    pos: u32,
    sel: Option<(&Text, u32)>,
    source: &mut S,
) -> Result<Result<Names, u8>, Fault>
    requires text { IsTextPlace (length (S.characters source.old)) (flat text.now, pos) }
    requires sel { IfSome (option_map place_lent sel)
        (IsTextPlace (length (S.characters source.old))) }
    ensures names { IfOk result (λ r. S.honest source.old
        → listed_names r
        ≡ first_names (names (bytes_of_text (S.characters source.old)) (flat text.now) pos
        (option_map place_lent sel.entry))) }
    ensures kind { IfOk result (λ r. IsNames sel.entry (listed_names r)) }
    ensures reads { OnlyReads S.characters S.failures S.honest S.same_ground source.old source.new }
    ensures cause { CountsFault result (S.failures source.old) (S.failures source.new) }
{
    let mut scanner = Scanner::open(text, pos);
    let first = next_symbol(&mut scanner, source)?;
    if is_special(&first, b'^') {
        let Some((text, begin)) = sel else {
            return Ok(Err(codes::NO_SELECTION));
        };
        let mut scanner = Scanner::open(text, begin);
        let first = next_symbol(&mut scanner, source)?;
        list_from(&first, &mut scanner, source)
    } else {
        list_from(&first, &mut scanner, source)
    }
}

/// The list that begins with a symbol that was scanned, or a code where that is no name. `Fault`: the source failed in
/// this call.
fn list_from<S: CharSource>(
    first: &Symbol,
    scanner: &mut Scanner<'_>,
    source: &mut S,
) -> Result<Result<Names, u8>, Fault>
    requires shape { IsSymbolShaped first.now }
    requires within { scanner.old.position ≤ length scanner.old.text }
    requires offsets { AreWithin (length (S.characters source.old)) scanner.old.text }
    ensures names { IfOk result (λ r. S.honest source.old
        → listed_names r
        ≡ some_names (names_on (bytes_of_text (S.characters source.old) scanner.old.text) most_names
        (first.now, scanner.old.position))) }
    ensures kind { IfOk result (λ r. IsList (listed_names r)) }
    ensures reads { OnlyReads S.characters S.failures S.honest S.same_ground source.old source.new }
    ensures cause { CountsFault result (S.failures source.old) (S.failures source.new) }
{
    let names = names_from(first, scanner, source)?;
    if names.is_empty() {
        Ok(Err(codes::WRONG_SYMBOL))
    } else {
        Ok(Ok(names))
    }
}

/// The names that begin with a symbol that was scanned, at most 257: none where that is no name. `Fault`: the source
/// failed in this call.
fn names_from<S: CharSource>(
    first: &Symbol,
    scanner: &mut Scanner<'_>,
    source: &mut S,
) -> Result<Names, Fault>
    requires shape { IsSymbolShaped first.now }
    requires within { scanner.old.position ≤ length scanner.old.text }
    requires offsets { AreWithin (length (S.characters source.old)) scanner.old.text }
    ensures names { IfOk result (λ names. S.honest source.old
        → names.items ≡ names_on (bytes_of_text (S.characters source.old) scanner.old.text)
        most_names
        (first.now, scanner.old.position)) }
    ensures most { IfOk result (λ names. length names.items ≤ most_names) }
    ensures reads { OnlyReads S.characters S.failures S.honest S.same_ground source.old source.new }
    ensures cause { CountsFault result (S.failures source.old) (S.failures source.new) }
{
    let mut names = Names::new();
    let Some(name) = name_in(first) else {
        return Ok(names);
    };
    names.push(name);
    'names: while !names.is_full() {
        let symbol = next_symbol(scanner, source)?;
        match name_in(&symbol) {
            Some(name) => names.push(name),
            None => return Ok(names),
        }
    }
    Ok(names)
}
