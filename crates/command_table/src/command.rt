//! The commands and the words that call them.
ghost use Rattle.std.specs.Prelude.{◌≡◌};
ghost use Rattle.command_table.specs.Commands.{word_of, since, command_named};
ghost use Rattle.command_table.specs.Versions.{version_number};

use crate::version::Version;

/// What a middle click on a word can call.
#[derive(Clone, Copy, Debug, PartialEq, Eq)]
pub enum Command {
    /// Opens a copy of a file, or an empty text, in the user track.
    EditOpen,
    /// Opens a copy of a file in the system track.
    SystemOpen,
    /// Opens the log in the system track.
    SystemOpenLog,
    /// Closes a viewer, which can be recalled.
    SystemClose,
    /// Opens the viewer that was closed last.
    SystemRecall,
    /// Opens a viewer on the same text.
    SystemCopy,
    /// Empties the log.
    SystemClear,
    /// Writes the files and their lengths into the log.
    SystemDirectory,
    /// Deletes the files of a list.
    SystemDeleteFiles,
    /// Sets the font of what is typed.
    SystemSetFont,
    /// Sets the colour of what is typed.
    SystemSetColor,
    /// Sets the vertical offset of what is typed.
    SystemSetOffset,
    /// Gives the newest selection a font.
    EditChangeFont,
    /// Gives the newest selection a colour.
    EditChangeColor,
    /// Gives the newest selection a vertical offset.
    EditChangeOffset,
    /// Stores a viewer's text as the file that its menu names.
    EditStore,
    /// Finds the next place of a pattern.
    EditSearch,
    /// Inserts what was deleted last.
    EditRecall,
    /// Gives up the characters that no text has any more.
    SystemCollect,
    /// Opens a viewer on the same text that has a whole column, over the track that was shown there.
    SystemGrow,
}

/// The number of commands.
const COUNT: usize = 20;

/// Every command.
const COMMANDS: [Command; COUNT] = [
    Command::EditOpen,
    Command::SystemOpen,
    Command::SystemOpenLog,
    Command::SystemClose,
    Command::SystemRecall,
    Command::SystemCopy,
    Command::SystemClear,
    Command::SystemDirectory,
    Command::SystemDeleteFiles,
    Command::SystemSetFont,
    Command::SystemSetColor,
    Command::SystemSetOffset,
    Command::EditChangeFont,
    Command::EditChangeColor,
    Command::EditChangeOffset,
    Command::EditStore,
    Command::EditSearch,
    Command::EditRecall,
    Command::SystemCollect,
    Command::SystemGrow,
];

impl Command {
    /// The command that a word calls in a version of the table. None where it calls none: the whole word has to be the
    /// word of a command that the version has.
    pub fn named(version: Version, word: &[u8]) -> Option<Command>
        ensures { result ≡ command_named (version_number version) word.now }
    {
        let number = version.number();
        COMMANDS.iter().copied().find(|command| command.word() == word && command.since() <= number)
    }

    /// The number of the first version of the table that has the command.
    pub fn since(self) -> u32
        ensures { result ≡ since self }
    {
        match self {
            Command::SystemCollect => 2,
            Command::SystemGrow => 3,
            _ => 1,
        }
    }

    /// The word that calls the command.
    pub fn word(self) -> &'static [u8]
        ensures { result.now ≡ word_of self }
    {
        match self {
            Command::EditOpen => b"Edit.Open",
            Command::SystemOpen => b"System.Open",
            Command::SystemOpenLog => b"System.OpenLog",
            Command::SystemClose => b"System.Close",
            Command::SystemRecall => b"System.Recall",
            Command::SystemCopy => b"System.Copy",
            Command::SystemClear => b"System.Clear",
            Command::SystemDirectory => b"System.Directory",
            Command::SystemDeleteFiles => b"System.DeleteFiles",
            Command::SystemSetFont => b"System.SetFont",
            Command::SystemSetColor => b"System.SetColor",
            Command::SystemSetOffset => b"System.SetOffset",
            Command::EditChangeFont => b"Edit.ChangeFont",
            Command::EditChangeColor => b"Edit.ChangeColor",
            Command::EditChangeOffset => b"Edit.ChangeOffset",
            Command::EditStore => b"Edit.Store",
            Command::EditSearch => b"Edit.Search",
            Command::EditRecall => b"Edit.Recall",
            Command::SystemCollect => b"System.Collect",
            Command::SystemGrow => b"System.Grow",
        }
    }
}
