//! What is left to do of a press that posts events.
//!
//! A press that posts events is a task (`Task`). Over the desktop that stands there it becomes a plan (`press_plans`): the
//! reason why it can't be done, or events, and what is left to do once they are done. So another kind of press is a variant
//! here, and a row of `plan_of` there.
ghost use Rattle.std.specs.Prelude.{◌≡◌, Some, None, IfOk, IfErr};
ghost use Rattle.press_tasks.specs.Tasks.{calling_wish, cell_meant as cell_of_spot, deed_of_task, keeps_sight, lead_deed};
ghost use Rattle.press_tasks.specs.Tasks.{breaks_lines, bytes_task, deleting, fills_lines, letter_task, posted, posting, pour_deed};
ghost use Rattle.press_tasks.specs.Tasks.{posting_over, scroll_task, selecting, typed_task};
ghost use Rattle.earlier_presses.specs.Replacing.{nothing_typed, typed_behind};
ghost use Rattle.press_tasks.specs.Tasks.{step_meant as step_of_arrow, task_of};

use crate::finding::{Finding, finding_of};
use crate::refill::Refilling;
use desk_journal::{CaretCommand, DeskInfo, KeyWish, Step, Wish};
use earlier_presses::Typing;
use event_bytes::{Event, Key, Keys, TypedBytes};
use status_line::Deed;
use terminal_presses::{Action, Arrow, Scroll, Sight, Spot};

/// A cell of the display: its column and its row.
pub type CellPlace = (u8, u8);

/// How many plans a press has at most: a replacement one for each Backspace and three for each byte, and three where it ends.
pub const MOST_PLANS: u16 = 321;

/// How what is typed breaks lines.
#[derive(Clone, Copy, Debug, PartialEq, Eq)]
pub enum Filling {
    /// It breaks none.
    Off,
    /// A letter breaks a line that has no room for it.
    Letters,
    /// So does each word of a paste, of which so many characters are typed.
    Pasted(u32),
}

/// How far a part of a paste is that is typed where lines are filled.
#[derive(Clone, Copy, Debug, PartialEq, Eq)]
pub enum Stage {
    /// It isn't known whether its first word has room.
    First,
    /// The line is broken before that word, and the caret goes to this position of its text.
    Back(u32),
    /// The caret stands where the word comes.
    On,
}

/// What is left to do of a press that posts events.
#[derive(Drop)]
pub enum Task {
    /// An event of the hand happens, as it is meant at the desk.
    Post(Event),
    /// The click that calls the command of a key happens so: this is what the press did. None: what the click did.
    Call(Event, Option<Deed>),
    /// A word was called, over a desktop that said this of itself, and where the caret was seen at this cell: the caret goes
    /// into the viewer that it opened, the line below says what it added to the log, or the caret comes back.
    After(DeskInfo, Option<CellPlace>),
    /// The word at a cell is selected, and the caret goes before it.
    Word(CellPlace),
    /// What is selected in the viewer of the first cell is extended to the second one.
    Extend(CellPlace, CellPlace),
    /// The caret goes to a cell of a viewer that opened, and the marker goes away before it, if it is set.
    Enter(CellPlace),
    /// What is left of what the press types, and its lines are filled or not: this is what it did.
    TypeOn(Typing, bool, Deed),
    /// The caret goes to a position of its text. Then what is left is typed.
    GoBack(u32, Typing, bool, Deed),
    /// The pointer that keys move goes from a cell on to the next word of a command.
    Seek(CellPlace),
    /// The text of the viewer at a cell moves. None: of the viewer of the caret.
    Scroll(Option<CellPlace>, Wish),
    /// The same by a page, which is as long as what is in sight of the text.
    Page {
        at: Option<CellPlace>,
        is_up: bool,
        sight: Sight,
    },
    /// The caret goes to the first cell of its viewer's text.
    Show,
    /// A cell comes into sight.
    Reveal(CellPlace),
    /// What is wished of the caret by a key.
    Lead(KeyWish),
    /// An event is typed, in the place of what is selected up to the caret, and may break lines or not.
    TypeOver(Event, Filling),
    /// A part of a paste is typed where lines are filled, behind so many characters of it.
    Pour(Stage, TypedBytes, u32),
    /// Words are found in the text of the caret.
    Find(Finding),
    /// The paragraph of the caret is filled.
    Refill(Refilling),
    /// What is selected up to the caret is deleted, or where nothing is the character behind the caret, or the one before
    /// it.
    Erase {
        behind: bool,
    },
}

impl Task {
    /// The task of a press, where what is typed may break lines or not, the press before it selected something or didn't, a
    /// replacement is to be typed or none is, and this part of the display is in sight. An action that posts nothing is none, but for that which moves the pointer to the
    /// next command.
    #[tactic(auto, unfolding(crate::specs::Tasks::task_of))]
    pub fn of(
        action: Action,
        fills: Filling,
        over: bool,
        replacement: Option<Typing>,
        sight: Sight,
    ) -> Result<Task, Action>
        ensures task { IfOk result (λ task. task_of fills over replacement sight action
            ≡ Some task) }
        ensures none { IfErr result (λ alone. (alone ≡ action)
            × (task_of fills over replacement sight action ≡ None)) }
    {
        match action {
            Action::Post(event) => Ok(posted(over, fills, event)),
            Action::Scroll(at, scroll) => Ok(scroll_task(cell_meant(at), scroll, sight)),
            Action::GoTo(line) => Ok(Task::Scroll(None, Wish::Line(line.saturating_sub(1)))),
            Action::Step(arrow) => Ok(Task::Lead(KeyWish::Step(step_meant(arrow)))),
            Action::Select(arrow) => Ok(Task::Lead(selecting(over, step_meant(arrow)))),
            Action::SelectAll => Ok(Task::Lead(KeyWish::SelectAll)),
            Action::Extend(start, at) => Ok(Task::Extend((start.x, start.y), (at.x, at.y))),
            Action::CutLine => Ok(Task::Lead(KeyWish::CutLine)),
            Action::Refill => Ok(Task::Refill(Refilling::Begin)),
            Action::Delete => Ok(deleting(over)),
            Action::Search => Ok(Task::Find(Finding::Search {
                over,
                before: false,
            })),
            Action::SearchBefore => Ok(Task::Find(Finding::Search { over, before: true })),
            Action::Find(words, before) => Ok(Task::Find(finding_of(words.as_bytes(), before))),
            Action::Store => Ok(Task::Lead(KeyWish::Call(CaretCommand::Store))),
            Action::CallLine => Ok(Task::Lead(KeyWish::CallLine)),
            Action::Mark => Ok(Task::Lead(KeyWish::Mark)),
            Action::Seek(at) => Ok(Task::Seek((at.x, at.y))),
            Action::Replace => match replacement {
                Some(typing) => {
                    let breaks = breaks_lines(fills, &typing);
                    Ok(Task::TypeOn(typing, breaks, Deed::Replacement))
                }
                None => Err(Action::Replace),
            },
            alone => Err(alone),
        }
    }

    /// What the press did by it. None: what its first event did.
    pub fn deed(&self) -> Option<Deed>
        ensures { result ≡ deed_of_task self.now }
    {
        match self {
            Task::Post(_)
            | Task::After(_, _)
            | Task::Enter(_)
            | Task::Seek(_)
            | Task::Show
            | Task::Reveal(_) => None,
            Task::Call(_, deed) => *deed,
            Task::TypeOn(_, _, deed) | Task::GoBack(_, _, _, deed) => Some(*deed),
            Task::Scroll(_, _) | Task::Page { .. } => Some(Deed::Scroll),
            Task::TypeOver(_, _) => Some(Deed::Typed(0)),
            Task::Pour(stage, _, typed) => pour_deed(*stage, *typed),
            Task::Erase { behind } => Some(Deed::erasing(*behind)),
            Task::Word(_) | Task::Extend(_, _) => Some(Deed::Click(Keys::Right)),
            Task::Find(_) => Some(Deed::Click(Keys::Left)),
            Task::Refill(_) => Some(Deed::Paragraph),
            Task::Lead(wish) => lead_deed(*wish),
        }
    }

    /// Whether the rows in sight don't follow the caret for it.
    pub fn keeps_sight(&self) -> bool
        ensures { result ≡ keeps_sight self.now }
    {
        matches!(self, Task::Scroll(_, _) | Task::Page { .. })
    }
}

/// What is wished of the caret by a press that calls a command.
#[tactic(auto, unfolding(crate::specs::Tasks::calling_wish))]
pub fn calling_wish(action: &Action) -> Option<KeyWish>
    ensures { result ≡ calling_wish action.now }
{
    match action {
        Action::Search => Some(KeyWish::Call(CaretCommand::Search)),
        Action::Store => Some(KeyWish::Call(CaretCommand::Store)),
        Action::CallLine => Some(KeyWish::CallLine),
        _ => None,
    }
}

/// Whether lines are broken.
fn fills_lines(fills: Filling) -> bool
    ensures { result ≡ fills_lines fills }
{
    match fills {
        Filling::Off => false,
        Filling::Letters | Filling::Pasted(_) => true,
    }
}

/// Whether a replacement breaks lines: one that types nothing breaks none.
fn breaks_lines(fills: Filling, typing: &Typing) -> bool
    ensures { result ≡ breaks_lines fills typing.now }
{
    fills_lines(fills) && typing.types()
}

/// An event of the hand. What is typed or pasted may break a line, where lines are filled.
pub fn posting(fills: Filling, event: Event) -> Task
    ensures { result ≡ posting fills event }
{
    match event {
        Event::Typed(bytes) => typed_posting(fills, bytes),
        event => Task::Post(event),
    }
}

/// What is typed by the hand.
fn typed_posting(fills: Filling, bytes: TypedBytes) -> Task
    ensures { result ≡ bytes_task fills bytes }
{
    match fills {
        Filling::Off => Task::Post(Event::Typed(bytes)),
        Filling::Letters => letter_task(bytes),
        Filling::Pasted(typed) => Task::Pour(Stage::First, bytes, typed),
    }
}

/// What is typed by the hand where lines are filled: of several bytes none breaks a line.
fn letter_task(bytes: TypedBytes) -> Task
    ensures { result ≡ letter_task bytes }
{
    if bytes.as_bytes().len() == 1 {
        typed_task(bytes)
    } else {
        Task::Post(Event::Typed(bytes))
    }
}

/// A letter that is typed by the hand where lines are filled.
fn typed_task(bytes: TypedBytes) -> Task
    ensures { result ≡ typed_task (typed_behind bytes nothing_typed) bytes }
{
    match Typing::of(&bytes) {
        None => Task::Post(Event::Typed(bytes)),
        Some(typing) => Task::TypeOn(typing, true, Deed::of(&Event::Typed(bytes))),
    }
}

/// An event of the hand, which takes the place of what the press before it selected, or doesn't.
fn posted(over: bool, fills: Filling, event: Event) -> Task
    ensures { result ≡ posted over fills event }
{
    if over {
        posting_over(fills, event)
    } else {
        posting(fills, event)
    }
}

/// What the press before it selected is deleted, or the character behind the caret.
fn deleting(over: bool) -> Task
    ensures { result ≡ deleting over }
{
    if over {
        Task::Erase { behind: true }
    } else {
        Task::Lead(KeyWish::DeleteNext)
    }
}

/// What a step passes is selected, with what the press before it selected, or alone.
fn selecting(over: bool, step: Step) -> KeyWish
    ensures { result ≡ selecting over step }
{
    if over {
        KeyWish::SelectOn(step)
    } else {
        KeyWish::Select(step)
    }
}

/// What is typed, and Backspace, act on what is selected up to the caret.
fn posting_over(fills: Filling, event: Event) -> Task
    ensures { result ≡ posting_over fills event }
{
    match event {
        Event::Typed(bytes) => Task::TypeOver(Event::Typed(bytes), fills),
        Event::Key(Key::Back) => Task::Erase { behind: false },
        event => Task::Post(event),
    }
}

/// What a press did by a part of a paste: what was typed before, to which comes what is typed.
fn pour_deed(stage: Stage, typed: u32) -> Option<Deed>
    ensures { result ≡ pour_deed stage typed }
{
    match stage {
        Stage::First | Stage::Back(_) => Some(Deed::Typed(typed)),
        Stage::On => None,
    }
}

/// What a press did by what is wished of the caret. None: what its first event did.
#[tactic(auto, unfolding(crate::specs::Tasks::lead_deed))]
pub fn lead_deed(wish: KeyWish) -> Option<Deed>
    ensures { result ≡ lead_deed wish }
{
    match wish {
        KeyWish::Step(_) => Some(Deed::Click(Keys::Left)),
        KeyWish::DeleteNext => Some(Deed::Delete),
        KeyWish::Call(CaretCommand::Store) => Some(Deed::Store),
        KeyWish::Call(CaretCommand::Search) => Some(Deed::Search),
        KeyWish::CallLine => None,
        KeyWish::Mark => None,
        KeyWish::Select(_) => Some(Deed::Click(Keys::Right)),
        KeyWish::SelectOn(_) => Some(Deed::Click(Keys::Right)),
        KeyWish::SelectAll => Some(Deed::Click(Keys::Right)),
        KeyWish::CutSelected => Some(Deed::Click(Keys::RightLeft)),
        KeyWish::CutLine => Some(Deed::Click(Keys::RightLeft)),
        KeyWish::Break(_) => None,
        KeyWish::Place(_) => None,
        KeyWish::Reach(_) => None,
    }
}

/// What a scroll does to the viewer at a cell, or to that of the caret, where this part of the display is in sight. The
/// wheel moves the text by three lines. To an end of the text goes the caret.
fn scroll_task(at: Option<CellPlace>, scroll: Scroll, sight: Sight) -> Task
    ensures { result ≡ scroll_task at scroll sight }
{
    match scroll {
        Scroll::WheelUp => Task::Scroll(at, Wish::Up(3)),
        Scroll::WheelDown => Task::Scroll(at, Wish::Down(3)),
        Scroll::PageUp => Task::Page {
            at,
            is_up: true,
            sight,
        },
        Scroll::PageDown => Task::Page {
            at,
            is_up: false,
            sight,
        },
        Scroll::First => Task::Lead(KeyWish::Step(Step::TextStart)),
        Scroll::Last => Task::Lead(KeyWish::Step(Step::TextEnd)),
    }
}

/// The step of an arrow.
#[tactic(auto, unfolding(crate::specs::Tasks::step_meant))]
fn step_meant(arrow: Arrow) -> Step
    ensures { result ≡ step_of_arrow arrow }
{
    match arrow {
        Arrow::Up => Step::Up,
        Arrow::Down => Step::Down,
        Arrow::Right => Step::Right,
        Arrow::Left => Step::Left,
        Arrow::Home => Step::LineStart,
        Arrow::End => Step::LineEnd,
        Arrow::WordRight => Step::WordRight,
        Arrow::WordLeft => Step::WordLeft,
    }
}

/// The cell that is meant, as column and row.
fn cell_meant(at: Option<Spot>) -> Option<CellPlace>
    ensures { result ≡ cell_of_spot at }
{
    match at {
        None => None,
        Some(spot) => Some((spot.x, spot.y)),
    }
}
