//! The value parameter of a command.
ghost use Rattle.std.specs.Prelude.{◌≡◌, length, IfOk, IfSome, MatchResult, None};
ghost use Rattle.std.specs.Option.{option_map};
ghost use Rattle.readers_scanners.specs.Words.{CountsFault, OnlyReads, flat, bytes_of_text};
ghost use Rattle.readers_scanners.specs.Symbol.{IsSymbolShaped};
ghost use Rattle.command_table.specs.Parameters.{IsTextPlace, IsValue, place_lent, text_lent, value_parameter, symbol_or};

use crate::symbols::{is_special, symbol_at};
use crate::{CharSource, Fault, Symbol, Text, codes};

/// The value parameter at `pos`: the first symbol from there on. Where that is `^` it is the symbol from the beginning
/// of the newest selection on, whose end is no bound, and where it is `*` the first symbol of the menu of the viewer at
/// the marker. The symbol found there isn't followed again. Of what kind it is, the caller tests.
///
/// `sel` is the text of the newest selection and where it begins, `menu` that menu's text. A code:
/// `codes::NO_SELECTION` for `^` where `sel` is None, `codes::NO_VIEWER` for `*` where `menu` is None. `Fault`: the
/// source failed in this call.
pub fn params<S: CharSource>(
    text: &Text,
    pos: u32,
    sel: Option<(&Text, u32)>,
    menu: Option<&Text>,
    source: &mut S,
) -> Result<Result<Symbol, u8>, Fault>
    requires text { IsTextPlace (length (S.characters source.old)) (flat text.now, pos) }
    requires sel { IfSome (option_map place_lent sel)
        (IsTextPlace (length (S.characters source.old))) }
    requires menu { IfSome (option_map text_lent menu)
        (λ m. IsTextPlace (length (S.characters source.old)) (m, 0)) }
    ensures value { IfOk result (λ r. S.honest source.old
        → r ≡ value_parameter (bytes_of_text (S.characters source.old)) (flat text.now) pos
        (option_map place_lent sel.entry) (option_map text_lent menu.entry)) }
    ensures kind { IfOk result (IsValue sel.entry menu.entry) }
    ensures reads { OnlyReads S.characters S.failures S.honest S.same_ground source.old source.new }
    ensures cause { CountsFault result (S.failures source.old) (S.failures source.new) }
{
    let first = symbol_at(text, pos, source)?;
    if is_special(&first, b'^') {
        symbol_or(codes::NO_SELECTION, sel, source)
    } else if is_special(&first, b'*') {
        symbol_or(codes::NO_VIEWER, menu.map(|menu| (menu, 0)), source)
    } else {
        Ok(Ok(first))
    }
}

/// The first symbol at a place, or the code where there is no place. `Fault`: the source failed in this call.
fn symbol_or<S: CharSource>(
    code: u8,
    place: Option<(&Text, u32)>,
    source: &mut S,
) -> Result<Result<Symbol, u8>, Fault>
    requires { IfSome (option_map place_lent place)
        (IsTextPlace (length (S.characters source.old))) }
    ensures symbol { IfOk result (λ r. S.honest source.old
        → r ≡ symbol_or (bytes_of_text (S.characters source.old)) code
        (option_map place_lent place.entry)) }
    ensures kind { IfOk result
        (λ r. MatchResult r IsSymbolShaped (λ c. (c ≡ code) × (place.entry ≡ None))) }
    ensures reads { OnlyReads S.characters S.failures S.honest S.same_ground source.old source.new }
    ensures cause { CountsFault result (S.failures source.old) (S.failures source.new) }
{
    match place {
        None => Ok(Err(code)),
        Some((text, pos)) => Ok(Ok(symbol_at(text, pos, source)?)),
    }
}
