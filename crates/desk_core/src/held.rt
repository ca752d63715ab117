//! How many characters a desktop has.
ghost use Rattle.std.specs.Prelude.{◌≡◌, ◌≤◌, ◌&&◌, ℕ, List, [], nat_le};
ghost use Rattle.desk_core.specs.Words.{most_written, most_held, lengths, seen_table};

use desktop_definitions::{MOST_HELD, MOST_WRITTEN};
use std::collections::BTreeMap;
use text_core::Text;

/// How many characters the texts of a table have.
pub fn lengths<K: Ord>(table: &BTreeMap<K, Text>) -> usize
    requires { lengths (seen_table [] table.now.entries) ≤ most_held }
    ensures { (characters : List ℕ) → result ≡ lengths (seen_table characters table.now.entries) }
{
    let mut sum = 0;
    for text in table.values() {
        sum += text.len() as usize;
    }
    sum
}

/// Whether so many characters written, and so many held, are within the limits.
pub fn within_limits(written: usize, held: usize) -> bool
    ensures { result ≡ (nat_le written most_written && nat_le held most_held) }
{
    written <= MOST_WRITTEN as usize && held <= MOST_HELD as usize
}
