//! What holds of all lines.
ghost use Rattle.std.specs.Prelude.{◌≡◌, ◌≤◌, ◌↔◌, ℕ, List, Some};
ghost use Rattle.std.specs.Fmt.{decimal};
ghost use Rattle.script_lines.specs.Script.{OneSplit, SomeSplit};
ghost use Rattle.script_lines.specs.Words.{to_number};

/// Bytes are split into lines in one way, so that it doesn't matter in which pieces they come.
pub fn one_split()
    ensures one { OneSplit }
    ensures some { SomeSplit }
{}

/// A word of a script spells a number from 0 to 255 exactly where it is that number in decimal digits.
pub fn numbers_are_decimal()
    ensures { (word : List ℕ) (n : ℕ)
        → (to_number word ≡ Some n) ↔ ((n ≤ 255) × (word ≡ decimal n)) }
{}
