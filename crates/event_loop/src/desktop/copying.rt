//! What a desktop hands out of its selections, of what was copied, of the caret's text and of what was searched.
ghost use Rattle.std.specs.Prelude.{◌≡◌, ℕ, List, length, IfOk, IfSome, option_map};
ghost use Rattle.readers_scanners.specs.Words.{contents};
ghost use Rattle.desktop_definitions.specs.Viewers.{newest, selected};
ghost use Rattle.desk_core.specs.Words.{flat, AreWithin, seen, IsKeptWhole, IsOver};
ghost use Rattle.event_loop.specs.CaretText.{caret_text};

use super::Desktop;
use crate::copies::{copied_text, selected_text, text_with_caret};
use desk_core::stop::NoMemory;
use std::alloc::Global;
use text_core::Text;

impl Desktop {
    /// A text of its own with what was copied or cut last, empty where nothing was. NoMemory where an allocation is
    /// refused. The desktop stays, whatever is returned.
    pub fn copied(&mut self, alloc: Global) -> Result<Text, NoMemory>
        ensures seen { IfOk result (λ text. (characters : List ℕ) → contents characters (flat text)
            ≡ (seen characters self.old).copied) }
        ensures within { IfOk result (λ text. (characters : List ℕ) → IsOver characters self.old
            → AreWithin (length characters) (flat text)) }
        ensures unchanged { self.new ≡ self.old }
    {
        self.desk.alloc = alloc;
        copied_text(&self.desk)
    }

    /// A text of its own with what was selected last and is selected still. None where nothing is. NoMemory where an
    /// allocation is refused. The desktop stays, whatever is returned.
    pub fn selected(&mut self, alloc: Global) -> Result<Option<Text>, NoMemory>
        requires { IsKeptWhole self.old }
        ensures seen { IfOk result (λ text. (characters : List ℕ)
            → option_map (λ t. contents characters (flat t)) text
            ≡ option_map (selected (seen characters self.old))
            (newest (seen characters self.old))) }
        ensures within { IfOk result (λ text. (characters : List ℕ) → IsOver characters self.old
            → IfSome text (λ t. AreWithin (length characters) (flat t))) }
        ensures unchanged { self.new ≡ self.old }
    {
        self.desk.alloc = alloc;
        selected_text(&self.desk)
    }

    /// The main text of the viewer with the caret. None exactly where no viewer has it.
    pub fn caret_text(&self) -> Option<&Text>
        requires { IsKeptWhole self.now }
        ensures seen { (characters : List ℕ)
            → option_map (λ text. contents characters (flat text.now)) result
            ≡ caret_text (seen characters self.now) }
        ensures within { (characters : List ℕ) → IsOver characters self.now
            → IfSome result (λ text. AreWithin (length characters) (flat text.now)) }
    {
        text_with_caret(&self.desk)
    }

    /// The bytes for which a text was searched last, 31 at most. Empty where none was.
    pub fn pattern(&self) -> &[u8]
        ensures { (characters : List ℕ) → result.now ≡ (seen characters self.now).pattern }
    {
        self.desk.pattern.as_slice()
    }
}
