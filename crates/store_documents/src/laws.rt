//! Laws of the two ways.
ghost use Rattle.std.specs.Prelude.{◌≡◌, ◌==◌, ℕ, List, IsTrue, not, map, filter};
ghost use Rattle.std.specs.List.{list_all};
ghost use Rattle.event_bytes.specs.Bytes.{is_text_byte, carriage_return};
ghost use Rattle.piece_ring.specs.declared.piece.Look.{Look};
ghost use Rattle.piece_ring.specs.Text.{Text};
ghost use Rattle.store_documents.specs.Markup.{text_told, turned_text};
ghost use Rattle.store_documents.specs.HostText.{exported, document_of, printable, is_strange};
ghost use Rattle.store_documents.specs.Filling.{joined_text, filled_text, has_narrow_lines, has_short_units};

/// What goes out comes back: the text of a document, and a file whose lines end with LF. What a terminal gets is what a
/// file gets, where the document is a text; and it is nothing but plain characters and line feeds, whatever it is.
pub fn texts_come_back()
    ensures document { (text : List ℕ) → IsTrue (list_all is_text_byte text)
        → document_of (exported text) ≡ text }
    ensures file { (file : List ℕ) → IsTrue (list_all (λ b. not (b == carriage_return)) file)
        → exported (document_of file) ≡ file }
    ensures same { (text : List ℕ) → IsTrue (list_all is_text_byte text)
        → printable text ≡ exported text }
    ensures plain { (text : List ℕ) → IsTrue (list_all (λ b. not (is_strange b)) (printable text)) }
{}

/// What is joined is the text from before the filling, where there was no line's end right behind a blank in it. The
/// filling adds line ends, and takes nothing away. No line of a filled text has more columns than the width, where
/// nothing has that stays together. A text stays one.
pub fn lines_come_back()
    ensures joined { (width : ℕ) (text : List ℕ) → joined_text text ≡ text
        → joined_text (filled_text width text) ≡ text }
    ensures kept { (width : ℕ) (text : List ℕ)
        → filter (λ b. not (b == carriage_return)) (filled_text width text)
        ≡ filter (λ b. not (b == carriage_return)) text }
    ensures narrow { (width : ℕ) (text : List ℕ) → IsTrue (has_short_units width text)
        → IsTrue (has_narrow_lines width 0 (filled_text width text)) }
    ensures plain { (width : ℕ) (text : List ℕ) → IsTrue (list_all is_text_byte text)
        → IsTrue (list_all is_text_byte (filled_text width text)) }
{}

/// What is told of looks tells all: the characters that HTML has one after another, each in the last look before it, are
/// the text.
pub fn looks_come_back()
    ensures { (before : Look) (text : Text ℕ) → text_told before (turned_text before text) ≡ text }
{}
