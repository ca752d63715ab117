//! A law of documents that come together.
ghost use Rattle.desktop_definitions.specs.Desktop.{Desktop};
ghost use Rattle.desktop_definitions.specs.Sound.{IsSound};
ghost use Rattle.document_filing.specs.Bringing.{Documents, brought_in};
ghost use Rattle.document_filing.specs.Gathered.{AreNamed};

/// A sound desktop into which documents came is sound.
pub fn bringing_keeps_sound()
    ensures { (d : Desktop) (documents : Documents) → IsSound d → AreNamed documents
        → IsSound (brought_in d documents).desktop }
{}
