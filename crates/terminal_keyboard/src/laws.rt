//! What holds of all that is heard.
ghost use Rattle.std.specs.Prelude.{◌≡◌, ℕ, ◌+◌, ◌<◌, ◌==◌, not, List, ◌∷◌, ◌++◌, length, map, IsTrue};
ghost use Rattle.std.specs.List.{list_all};
ghost use Rattle.terminal_presses.specs.declared.press.Heard.{Heard};
ghost use Rattle.terminal_presses.specs.declared.press.Heard.TheVariants.{Byte};
ghost use Rattle.terminal_presses.specs.declared.press.Press.{Press};
ghost use Rattle.terminal_presses.specs.declared.press.Press.TheVariants.{Escape, Unknown};
ghost use Rattle.terminal_presses.specs.declared.hand.Hand.{Hand};
ghost use Rattle.terminal_presses.specs.Sights.{Sight};
ghost use Rattle.terminal_keyboard.specs.Presses.{at_rest, parser_after, presses_heard};
ghost use Rattle.terminal_presses.specs.Hands.{idle};
ghost use Rattle.terminal_presses.specs.Runs.{Types, paste_of, pasted_text, posted_events};
ghost use Rattle.terminal_keyboard.specs.Spelling.{AreHeard, bytes_heard, is_alone_with_alt, pasted};
ghost use Rattle.terminal_keyboard.specs.declared.parser.Parser.{Parser};
ghost use Rattle.terminal_keyboard.specs.HostPastes.{AreTold, file_fails, harmless};

use crate::paste::Stage;

/// It is one whether what is heard comes in one piece or in two, and so in many: what is pressed of both is what is
/// pressed of the first, and then what the parser that has heard it makes of the second.
#[tactic(auto, using(crate::proofs::Pieces::of_both))]
pub fn pieces_do_not_matter()
    ensures presses { (parser : Parser) (first second : List Heard)
        → presses_heard parser (first ++ second)
        ≡ presses_heard parser first ++ presses_heard (parser_after parser first) second }
    ensures parser { (parser : Parser) (first second : List Heard)
        → parser_after parser (first ++ second) ≡ parser_after (parser_after parser first) second }
{}

/// Presses that are spelled one after another are found again, and nothing of them is left in the parser. The key
/// Escape is found without a quiet while too, where a byte below the space follows. With a letter right after it, it is
/// the key Alt, and means nothing but with z.
pub fn spelled_presses_are_found()
    ensures presses { (presses : List Press) (heard : List Heard) → AreHeard presses heard
        → presses_heard at_rest heard ≡ presses }
    ensures parser { (presses : List Press) (heard : List Heard) → AreHeard presses heard
        → parser_after at_rest heard ≡ at_rest }
    ensures escape { (b : ℕ) (more : List Heard) → b < 32
        → presses_heard at_rest (Byte 27 ∷ Byte b ∷ more)
        ≡ Escape ∷ presses_heard at_rest (Byte b ∷ more) }
    ensures alt { (b : ℕ) (more : List Heard) → IsTrue (is_alone_with_alt b)
        → presses_heard at_rest (Byte 27 ∷ Byte b ∷ more) ≡ Unknown ∷ presses_heard at_rest more }
{}

/// A text that is pasted, in which no escape byte is, is heard as what each of its bytes says by itself, and nothing of it
/// is left in the parser. So its events type it.
pub fn pastes_are_heard()
    ensures presses { (text : List ℕ) → IsTrue (list_all (λ b. not (b == 27)) text)
        → presses_heard at_rest (pasted text) ≡ paste_of text }
    ensures parser { (text : List ℕ) → IsTrue (list_all (λ b. not (b == 27)) text)
        → parser_after at_rest (pasted text) ≡ at_rest }
    ensures typed { (sight : Sight) (hand : Hand) (text : List ℕ)
        → IsTrue (list_all (λ b. not (b == 27)) text)
        → Types (posted_events sight (idle hand) (presses_heard at_rest (pasted text)))
        (pasted_text text) }
{}

/// What is told of a text from its beginning to its end is a paste of it, and its events type it: of each line the end
/// is a carriage return, and a question mark stands for each character that can't be typed, the key Escape's byte too.
/// Where a read fails, the paste is of the text before, and that it ends there is told behind it.
pub fn texts_are_typed()
    ensures pasted { (most left : ℕ) (text : List ℕ) (told : List Heard)
        → AreTold most Stage.Ended left text told
        → told ≡ pasted (map harmless text) }
    ensures typed { (most left : ℕ) (text : List ℕ) (told : List Heard) (sight : Sight)
        (hand : Hand)
        → AreTold most Stage.Ended left text told
        → Types (posted_events sight (idle hand) (presses_heard at_rest told))
        (pasted_text (map harmless text)) }
    ensures broken { (most left : ℕ) (text : List ℕ) (told : List Heard)
        → AreTold most Stage.Broken left text told
        → told ≡ pasted (map harmless text) ++ bytes_heard file_fails }
    ensures few { (most left : ℕ) (text : List ℕ) (told : List Heard)
        → AreTold most Stage.Ended left text told
        → left + length text ≡ most }
{
    pastes_are_heard();
}
