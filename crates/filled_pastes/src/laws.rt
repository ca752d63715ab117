//! What holds of every paste, and of every paragraph that is filled.
ghost use Rattle.filled_pastes.specs.Poured.{PastesLoseNothing, PastesStayShort};
ghost use Rattle.filled_pastes.specs.Filled.{WordsStay};

/// What is typed for a paste is the paste with ends of lines that were put in. It is at most half as long again, and a byte.
pub fn nothing_is_lost()
    ensures nothing { PastesLoseNothing }
    ensures short { PastesStayShort }
{}

/// An edit of a paragraph breaks no word, makes one of no two, and leaves all letters before the caret and behind it.
pub fn words_stay()
    ensures { WordsStay }
{}
