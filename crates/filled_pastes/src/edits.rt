//! An edit of a paragraph, and where it leaves the caret.
ghost use Rattle.std.specs.Prelude.{◌≡◌};
ghost use Rattle.filled_pastes.specs.Paragraphs.{moved, one_on};

/// What is to be done first so that a paragraph is filled.
#[derive(Clone, Copy, Debug, PartialEq, Eq)]
pub enum Edit {
    /// A line ends at a position, before a word.
    Ends(usize),
    /// A line ends there that isn't in sight: it is torn at the first position, and that is mended then.
    Tears(usize, usize),
    /// The end of a line goes, behind a blank.
    Joins(usize),
    /// A blank takes the place of the end of a line.
    Blanks(usize),
}

impl Edit {
    /// Where the caret belongs after the edit, if it belongs at this position before: behind the same characters.
    #[tactic(auto, unfolding(crate::specs::Paragraphs::moved))]
    pub fn moved(self, place: u32) -> u32
        ensures { result ≡ moved self place }
    {
        match self {
            Edit::Ends(at) | Edit::Tears(_, at) => one_on(at, place),
            Edit::Joins(at) if at < place as usize => place - 1,
            Edit::Joins(_) | Edit::Blanks(_) => place,
        }
    }
}

/// A position, one further where a character comes before it.
fn one_on(at: usize, place: u32) -> u32
    ensures { result ≡ one_on at place }
{
    if at <= place as usize {
        place.saturating_add(1)
    } else {
        place
    }
}
