//! The symbols of a text, and what is asked of them.
ghost use Rattle.std.specs.Prelude.{◌≡◌, ◌≤◌, length, IfOk};
ghost use Rattle.readers_scanners.specs.Words.{CountsFault, OnlyReads, flat, AreWithin};
ghost use Rattle.readers_scanners.specs.Form.{symbol as symbol_worked};
ghost use Rattle.readers_scanners.specs.Reading.{bytes_of_text, MovesOn};
ghost use Rattle.readers_scanners.specs.Symbol.{IsSymbolShaped};
ghost use Rattle.command_table.specs.Parameters.{IsTextPlace, symbol_in, is_special, name_in};

use crate::{CharSource, Fault, Name, Symbol, Text};
use readers_scanners::{Scanner, symbol_worked_out};

/// The next symbol of a scanner that stands within its text. `Fault`: the source failed in this call.
pub(crate) fn next_symbol<S: CharSource>(
    scanner: &mut Scanner<'_>,
    source: &mut S,
) -> Result<Symbol, Fault>
    requires within { scanner.old.position ≤ length scanner.old.text }
    requires offsets { AreWithin (length (S.characters source.old)) scanner.old.text }
    ensures symbol { IfOk result (λ symbol. S.honest source.old
        → symbol_worked (bytes_of_text (S.characters source.old) scanner.old.text)
        scanner.old.position
        ≡ (symbol, scanner.new.position)) }
    ensures shape { IfOk result IsSymbolShaped }
    ensures moves { MovesOn scanner.old scanner.new }
    ensures reads { OnlyReads S.characters S.failures S.honest S.same_ground source.old source.new }
    ensures cause { CountsFault result (S.failures source.old) (S.failures source.new) }
{
    symbol_worked_out();
    scanner.scan(source)
}

/// The first symbol from `pos` on. `Fault`: the source failed in this call.
pub fn symbol_at<S: CharSource>(text: &Text, pos: u32, source: &mut S) -> Result<Symbol, Fault>
    requires { IsTextPlace (length (S.characters source.old)) (flat text.now, pos) }
    ensures symbol { IfOk result (λ symbol. S.honest source.old
        → symbol ≡ symbol_in (bytes_of_text (S.characters source.old)) (flat text.now, pos)) }
    ensures shape { IfOk result IsSymbolShaped }
    ensures reads { OnlyReads S.characters S.failures S.honest S.same_ground source.old source.new }
    ensures cause { CountsFault result (S.failures source.old) (S.failures source.new) }
{
    let mut scanner = Scanner::open(text, pos);
    next_symbol(&mut scanner, source)
}

/// Whether a symbol is that byte, standing for itself.
pub(crate) fn is_special(symbol: &Symbol, byte: u8) -> bool
    ensures { result ≡ is_special byte symbol.now }
{
    match symbol {
        Symbol::Special(other) => *other == byte,
        _ => false,
    }
}

/// The name that a symbol is. None where it is another symbol.
pub fn name_in(symbol: &Symbol) -> Option<Name>
    requires { IsSymbolShaped symbol.now }
    ensures { result ≡ name_in symbol.now }
{
    match symbol {
        Symbol::Name(kept) => Name::new(kept.as_slice()),
        _ => None,
    }
}
