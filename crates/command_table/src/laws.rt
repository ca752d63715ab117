//! What holds of all words and lists.
ghost use Rattle.command_table.specs.Call.{WordIsLongest};
ghost use Rattle.command_table.specs.Commands.{OneWordEach};
ghost use Rattle.std.specs.Prelude.{◌≡◌};
ghost use Rattle.command_table.specs.Codes.{no_selection, wrong_symbol, no_viewer};
ghost use Rattle.command_table.specs.Deciding.{FirstNamesDecide, most_names};
ghost use Rattle.command_table.specs.declared.codes.TheConstants.{NO_SELECTION, WRONG_SYMBOL, NO_VIEWER};
ghost use Rattle.command_table.specs.declared.listing.TheConstants.{MOST_NAMES};

/// Each command has a word of its own, and no other word calls it, nor does it in a version that hasn't the command.
pub fn one_word_each()
    ensures { OneWordEach }
{}

/// The word at a position is the longest run of letters, digits and periods that holds the byte there.
pub fn word_is_longest()
    ensures { WordIsLongest }
{}

/// With at most 256 files the first 257 names of a list decide whether its files can be deleted: 257 names have one
/// that is no file's, or one that is named twice.
pub fn first_names_decide()
    ensures { FirstNamesDecide }
{}

/// The codes and the number of names that are read are the numbers that the definitions say.
pub fn constants_are_defined()
    ensures selection { NO_SELECTION ≡ no_selection }
    ensures symbol { WRONG_SYMBOL ≡ wrong_symbol }
    ensures viewer { NO_VIEWER ≡ no_viewer }
    ensures names { MOST_NAMES ≡ most_names }
{}
