//! What holds of all scripts.
ghost use Rattle.oberon_main.specs.Files.{FileScriptsSurvive};
ghost use Rattle.oberon_main.specs.Laws.{ScriptsAreAnswered, ScriptsAreCutOff, ScriptsSurvive};
ghost use Rattle.oberon_main.specs.Surviving.{LinesAreSteps};

use sector_disk::{Disk, FileDisk, HostFile};

/// Lines lead to the desktop to which the events lead that are accepted of them.
pub fn lines_are_steps()
    ensures { LinesAreSteps }
{}

/// A script that is played by lines (the part `by_lines` of the contract of `play`) is answered the stated replies, line
/// by line, and nothing else; where the output fails, it takes a front of them.
pub fn scripts_are_answered<D: Disk>()
    ensures { ScriptsAreAnswered D.Disk }
{}

/// At every moment of such a script a crash leaves the desktop after the lines that were answered by then, or after
/// these and the next one.
pub fn scripts_are_cut_off<D: Disk>()
    ensures { ScriptsAreCutOff D.Disk }
{}

/// At its end a crash leaves a desktop that has the event of each line whose answer was written, in whole or in part.
pub fn scripts_survive<D: Disk>()
    ensures { ScriptsSurvive D.Disk }
{}

/// What a script leaves of a store in a file (`scripts_survive`), it leaves of the bytes of the file: no image that a
/// crash may leave of them loses an event whose answer was written.
pub fn scripts_survive_in_files<F: HostFile>()
    ensures { FileScriptsSurvive F.HostFile ⟦<FileDisk<F> as Disk>⟧ }
{}
