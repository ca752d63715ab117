//! Questions: what a press would lose is asked about first.
ghost use Rattle.std.specs.Prelude.{◌≡◌};
ghost use Rattle.status_line.specs.Question.{asks_to_leave, comes_first, is_same_question, left_behind};

/// What a press would lose.
#[derive(Clone, Copy, Debug, PartialEq, Eq)]
pub enum Question {
    /// The desktop in memory: the person leaves.
    Leaving,
    /// What was taken back, which can be done again until the person leaves.
    Forgetting,
    /// A text that no document has: its viewer is closed.
    Closing {
        /// The column of the first cell of the viewer's menu.
        x: u8,
        /// Its row.
        y: u8,
    },
    /// The whole place of a viewer: another one opens there.
    Taking {
        /// The column of the first cell of the menu of the viewer that goes.
        x: u8,
        /// Its row.
        y: u8,
    },
    /// What a document holds of which another viewer shows another text: the text of a viewer is stored.
    Rivalled {
        /// The column of the first cell of the menu of the viewer whose text is stored.
        x: u8,
        /// Its row.
        y: u8,
    },
    /// Documents: the command is called that deletes them.
    Deleting {
        /// The column of a cell of its word, or of the one right behind it.
        x: u8,
        /// Its row.
        y: u8,
    },
    /// A viewer of a document that shows another text than the one of its name that is open, and isn't stored.
    Reopening {
        /// The column of the first cell of the menu of the viewer that is open.
        x: u8,
        /// Its row.
        y: u8,
    },
    /// A name that goes on with a character that no name has: what stands before that is opened.
    Misnamed {
        /// The column of a cell of the command's word, or of the one right behind it.
        x: u8,
        /// Its row.
        y: u8,
    },
}

/// Whether two questions are the same.
fn is_same(last: Question, question: Question) -> bool
    ensures { result ≡ is_same_question last question }
{
    match (last, question) {
        (Question::Leaving, Question::Leaving) => true,
        (Question::Forgetting, Question::Forgetting) => true,
        (Question::Closing { x, y }, Question::Closing { x: u, y: v }) => x == u && y == v,
        (Question::Taking { x, y }, Question::Taking { x: u, y: v }) => x == u && y == v,
        (Question::Rivalled { x, y }, Question::Rivalled { x: u, y: v }) => x == u && y == v,
        (Question::Deleting { x, y }, Question::Deleting { x: u, y: v }) => x == u && y == v,
        (Question::Misnamed { x, y }, Question::Misnamed { x: u, y: v }) => x == u && y == v,
        (Question::Reopening { x, y }, Question::Reopening { x: u, y: v }) => x == u && y == v,
        _ => false,
    }
}

/// Whether the question is whether the person leaves.
pub fn asks_to_leave(question: Option<Question>) -> bool
    ensures { result ≡ asks_to_leave question }
{
    matches!(question, Some(Question::Leaving | Question::Forgetting))
}

/// Whether a question is asked before its press is done: unless the last press has asked it.
pub fn comes_first(last: Option<Question>, question: Option<Question>) -> bool
    ensures { result ≡ comes_first last question }
{
    match (last, question) {
        (_, None) => false,
        (None, Some(_)) => true,
        (Some(last), Some(question)) => !is_same(last, question),
    }
}

/// What leaving would lose: a desktop in memory, or else what was taken back, where any of it can be done again.
pub fn left_behind(in_memory: bool, goes_again: bool) -> Option<Question>
    ensures { result ≡ left_behind in_memory goes_again }
{
    if in_memory {
        Some(Question::Leaving)
    } else if goes_again {
        Some(Question::Forgetting)
    } else {
        None
    }
}
