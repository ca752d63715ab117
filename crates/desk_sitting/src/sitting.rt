//! A person at a terminal, before a store.
ghost use Rattle.std.specs.Prelude.{◌≡◌, false, if◌then◌else◌, Some, None, IfOk, IfErr, IfSome, ◌<◌};
ghost use Rattle.desk_sitting.specs.Doing.{DoesAction, DoesPress, seat_of};
ghost use Rattle.desk_sitting.specs.TheDesk.{sitting_line};
ghost use Rattle.desk_sitting.specs.Questions.{questioned, unasked};
ghost use Rattle.desk_sitting.specs.Sittings.{followed_cell, acted, acted_alone, after_press, after_fetch, looked};
ghost use Rattle.desk_sitting.specs.Sittings.{new_sitting, filling, is_done, refused, replied, ring_reason};
ghost use Rattle.desk_sitting.specs.Sittings.{turned_away, accepted_of, accepted_unasked, aimed_at, noted_in, unplaced};
ghost use Rattle.desk_sitting.specs.Sittings.{why_unreplaced, with_log_line, brought_in_sight, is_scene_due, is_unseen};
ghost use Rattle.desk_sitting.specs.Sittings.{pointed_no_more, asked_words, with_words, meant_by, task_or_word};
ghost use Rattle.desk_sitting.specs.Sittings.{with_hand, with_marks, marked_saying, marks_more};
ghost use Rattle.desk_sitting.specs.Sittings.{after_completion, asks_rest, hand_typed, is_tabulator};
ghost use Rattle.desk_sitting.specs.Clips.{is_copying};
ghost use Rattle.desk_sitting.specs.Held.{held_meant, pastes_copy};
ghost use Rattle.earlier_presses.specs.Twice.{is_of_terminal};

use desk_journal::{Error, Store};
use desktop_definitions::Reply;
use desktop_definitions::codes::NOT_FOUND;
use done_presses::{Again, Past};
use earlier_presses::{
    Replacing, Typing, cell_again, cell_clicked, cell_kept, hand_meant, is_nothing, is_of_terminal,
    still_missed,
};
use event_bytes::{Event, Key, TABULATOR};
use host_files::HostFault;
use host_names::HostName;
use press_tasks::{Filling, Task};
use screen_cells::Screen;
use screen_reading::{caret_of, fitted, followed, moved};
use sector_disk::Disk;
use status_line::{
    Question, Saying, SayingLine, asks_to_leave, came_to, comes_first, done_saying, fill_saying,
    first_saying, line_of, refused_saying, resting_of, said_by_pointer, typed_more,
};
use std::alloc::Global;
use terminal_keyboard::Completion;
use terminal_presses::{Action, Asks, Hand, Press, Sight, becomes_mark};
use viewer_tracks::{ROWS, Track};

/// How many turns a sitting has at most.
pub const MOST_TURNS: u64 = u64::MAX;

/// What is asked for beside a press: to take the last one back, or to do again what was taken back last.
#[derive(Clone, Copy, Debug, PartialEq, Eq)]
pub enum Travel {
    Back,
    Again,
}

/// What doing a press comes to: it is done, or why it isn't.
pub(crate) type Doing = Result<(), Error>;

/// What a sitting knows beside the store: the hand, the rows in sight, the line below, and what is to be done when the
/// screen is shown next.
#[derive(Drop)]
pub struct Sitting {
    /// What was pressed so far, as far as later events depend on it.
    pub hand: Hand,
    /// The rows in sight.
    pub sight: Sight,
    /// What the line below says, where no name is asked for and no function key has said what the next click is.
    pub saying: Saying,
    /// What it says where there is nothing else to be said.
    pub resting: Saying,
    /// Before a press loses something it is asked about.
    pub questions: bool,
    /// What was asked by the last press that did anything.
    pub question: Option<Question>,
    /// The terminal rings.
    pub rings: bool,
    /// The rows in sight follow the caret.
    pub follows: bool,
    /// Nothing is known of the terminal.
    pub forgets: bool,
    /// The person has left.
    pub leaves: bool,
    /// The text of the host file of this name is to be heard.
    pub wanted: Option<HostName>,
    /// The terminal is asked for its size.
    pub asks: bool,
    /// How many characters are typed of the text that was pasted when something was pressed last. None where none was.
    pub typed: Option<u32>,
    /// How many characters of that text became question marks.
    pub marks: u32,
    /// A press is to be taken back, or an event to be done again.
    pub travels: Option<Travel>,
    /// What was taken back, as far as it can be done again.
    pub again: Again,
    /// A past has all of that, and so the next sitting can do it again.
    pub kept: bool,
    /// What was done, as far as it can be taken back.
    pub past: Past,
    /// The next event that is done is one of the press that was done last, as amid a paste.
    pub joins: bool,
    /// What is typed breaks a line that would pass the edge of its viewer.
    pub fills: bool,
    /// The line of the log that the line below says, where it says one.
    pub logged: SayingLine,
    /// What is typed where the pattern was found, and typed again in another such place.
    pub replacing: Replacing,
    /// Something was copied since the last scene: the clipboard of the terminal is to be given it.
    pub copies: bool,
    /// The keyboard holds a text that was copied in the past, and nothing was copied in the present since then: it is typed
    /// where that would be pasted.
    pub holds: bool,
    /// The cell at which the left button was clicked last, where nothing else was done since: the next click there selects the
    /// word.
    pub clicked: Option<(u8, u8)>,
    /// A search found nothing right before.
    pub missed: bool,
    /// The words that were sought last, where they can be typed.
    pub sought: HostName,
    /// The keyboard is to be asked how the name goes on that is asked for.
    pub completes: bool,
    /// How many names of host files begin so, where that was told right before.
    pub names: u8,
    /// What is seen may have changed since the last scene.
    pub changed: bool,
}

impl Sitting {
    /// A sitting at a terminal of so many rows and columns, in which nothing was pressed. The line below says the
    /// greeting, or where one side of the display is in sight, how the other one comes into sight. With questions it asks
    /// before a press loses something.
    pub fn new(height: u16, width: u16, greeting: Saying, questions: bool) -> Sitting
        ensures { result ≡ new_sitting height width greeting questions }
    {
        Sitting {
            hand: Hand::new(),
            sight: fitted(height, width, Sight::whole().on(Track::System)),
            saying: first_saying(width, greeting),
            resting: resting_of(greeting),
            questions,
            question: None,
            rings: false,
            follows: true,
            forgets: false,
            leaves: false,
            wanted: None,
            asks: false,
            typed: None,
            marks: 0,
            travels: None,
            again: Again::none(),
            kept: false,
            past: Past::none(),
            joins: false,
            fills: true,
            logged: SayingLine::new(),
            replacing: Replacing::none(),
            copies: false,
            holds: false,
            clicked: None,
            missed: false,
            sought: HostName::none(),
            completes: false,
            names: 0,
            changed: true,
        }
    }

    /// The line below this screen, of 80 characters at most, and no more than the window has columns.
    pub fn line(&self, screen: &Screen) -> SayingLine
        ensures { result.items ≡ sitting_line screen.now self.now }
    {
        let saying = said_by_pointer(self.hand.pointer().is_some(), self.saying);
        line_of(
            self.sight.width(),
            screen,
            &self.logged,
            self.hand.asked(),
            self.hand.asks,
            self.names,
            self.sought.as_bytes(),
            self.hand.armed(),
            saying,
        )
    }

    /// An event is refused, or can't be made: the terminal rings, and the line below says why.
    pub(crate) fn refuse(&mut self, saying: Saying)
        ensures { self.new ≡ refused saying self.old }
    {
        self.saying = saying;
        self.rings = true;
    }

    /// A press can't be done: the terminal rings, and the line below says why. What was typed after a search isn't known
    /// any more.
    pub(crate) fn give_up(&mut self, why: Saying)
        ensures { self.new ≡ refused why (unplaced self.old) }
    {
        self.replacing.leave();
        self.refuse(why);
    }

    /// The line below says a line of the log.
    pub(crate) fn say_logged(&mut self, line: SayingLine)
        ensures { self.new ≡ with_log_line line.items self.old }
    {
        self.saying = Saying::Logged;
        self.logged = line;
    }

    /// The pointer that keys move is shown at a cell, and the rows in sight follow it.
    pub(crate) fn aim(&mut self, cell: (u8, u8))
        ensures { self.new ≡ aimed_at cell self.old }
    {
        self.hand.move_pointer(cell);
        self.follows = true;
    }

    /// The rows in sight go to a cell, and don't follow the caret.
    pub(crate) fn show_cell(&mut self, cell: (u8, u8))
        ensures { self.new ≡ brought_in_sight cell self.old }
    {
        let (x, y) = cell;
        self.sight = followed(Some((x, y.min(ROWS - 1))), self.sight);
        self.follows = false;
    }

    /// The line below says that.
    pub(crate) fn say(&mut self, saying: Saying)
        ensures { self.new ≡ record self.old { saying = saying } }
    {
        self.saying = saying;
    }

    /// These are the words that were sought last.
    pub(crate) fn remember(&mut self, words: HostName)
        ensures { self.new ≡ record self.old { sought = words } }
    {
        self.sought = words;
    }

    /// It is asked for words that are sought. What was typed after a search isn't known any more.
    pub(crate) fn ask_words(&mut self, before: bool)
        ensures { self.new ≡ asked_words before self.old }
    {
        self.replacing.leave();
        self.hand.ask_words(before);
    }

    /// The pointer that keys move is put away.
    pub(crate) fn put_pointer_away(&mut self)
        ensures { self.new ≡ pointed_no_more self.old }
    {
        self.hand.point_nowhere();
    }

    /// What the rows in sight follow: the pointer that keys move, where it is shown, and else the caret.
    fn followed_cell(&self, screen: &Screen) -> Option<(u8, u8)>
        ensures value { result ≡ followed_cell screen.now self.now.hand }
        ensures row { IfSome result (λ at. at.1 < ROWS) }
    {
        match self.hand.pointer() {
            None => caret_of(screen),
            shown => shown,
        }
    }

    /// The screen is shown: the rows in sight follow the caret where an event was done, or a pointer.
    #[tactic(auto, unfolding(crate::specs::Sittings::looked))]
    pub fn look(&mut self, screen: &Screen)
        ensures { self.new ≡ looked screen.now self.old }
    {
        if self.follows {
            self.sight = followed(self.followed_cell(screen), self.sight);
        }
        self.follows = false;
        self.rings = false;
        self.forgets = false;
        self.asks = false;
        self.copies = false;
        self.changed = false;
    }

    /// Whether a scene is due: without one all that is seen is as it is to be.
    pub fn is_scene_due(&self) -> bool
        ensures { result ≡ is_scene_due self.now }
    {
        self.changed || self.follows || self.rings || self.forgets || self.asks || self.copies
    }

    /// The keyboard was asked for the text of the host file that is wanted, and answers that it will be heard, or why it
    /// won't be.
    #[tactic(auto, unfolding(crate::specs::Sittings::after_fetch))]
    pub fn bring(&mut self, answer: Result<(), HostFault>)
        ensures { self.new ≡ after_fetch answer self.old }
    {
        if self.wanted.is_some() {
            self.wanted = None;
            match answer {
                Ok(()) => {
                    self.saying = self.resting;
                    self.changed = true;
                }
                Err(why) => self.refuse(Saying::Unread(why)),
            }
        }
    }

    /// The keyboard was asked how the name goes on that is asked for.
    #[tactic(auto, unfolding(crate::specs::Sittings::after_completion))]
    pub fn complete(&mut self, told: &Completion)
        ensures { self.new ≡ after_completion told.now self.old }
    {
        if self.completes {
            type_on(&mut self.hand, self.sight, told.rest.as_bytes());
            self.completes = false;
            self.names = told.count;
            self.rings = self.rings || told.count == 0;
            self.changed = true;
        }
    }

    /// An event is turned away. Amid a paste the rest of that is dropped, and the line below says how far it came.
    #[tactic(auto, unfolding(crate::specs::Sittings::turned_by))]
    pub(crate) fn turn_away(&mut self, why: Saying)
        ensures { self.new ≡ turned_away why self.old }
    {
        self.replacing.leave();
        match self.typed {
            None => self.refuse(why),
            Some(typed) => {
                self.hand.drop_rest();
                self.refuse(came_to(typed, why));
            }
        }
    }

    /// What a reply says of the event: whether it is done.
    #[tactic(auto, unfolding(crate::specs::Sittings::replied))]
    pub(crate) fn reply(&mut self, event: &Event, reply: Reply) -> bool
        ensures state { self.new ≡ replied event.now reply self.old }
        ensures done { result ≡ is_done reply }
    {
        match reply {
            Reply::Done => {
                self.saying = done_saying(event, marked_saying(self.marks, self.resting));
                self.follows = true;
                self.past.add(event, self.joins, self.typed.is_some());
                self.joins = true;
                self.copies = self.copies || is_copying(event);
                self.holds = self.holds && !is_copying(event);
                if let Some(typed) = self.typed {
                    self.typed = Some(typed_more(event, typed));
                }
                true
            }
            Reply::No(code) => {
                self.past.add_refused();
                self.missed = code == NOT_FOUND;
                self.turn_away(refused_saying(event, code));
                false
            }
        }
    }

    /// Does what is pressed. After the person has left nothing is done.
    ///
    /// Errors: `NoMemory`, where memory runs out, and an event that was begun is on the disk in no image; `Fault`, where
    /// the disk fails, and it may be there or not.
    pub(crate) fn press<D: Disk>(
        &mut self,
        alloc: Global,
        press: Press,
        store: &mut Store<D>,
    ) -> Doing
        requires { store.old.must_reopen ≡ false }
        ensures { DoesPress D.Disk (accepted_of press (seat_of self.old store.old))
            (after_press press (seat_of self.old store.old)) result self.new store.old store.new }
    {
        if self.leaves {
            return Ok(());
        }
        let action = self.take(press);
        self.act(alloc, action, store)
    }

    /// The hand takes a press. Amid a text that is pasted it is counted how many of its characters are typed, and its
    /// events are those of one press.
    fn take(&mut self, press: Press) -> Action
        ensures state { self.new ≡ with_hand (meant_by press self.old) (with_marks press self.old) }
        ensures answer { result ≡ (meant_by press self.old).1 }
    {
        let stays = is_unseen(&self.hand) && !asks_to_leave(self.question);
        let pastes = self.hand.pastes_text();
        self.typed = if pastes {
            Some(self.typed.unwrap_or(0))
        } else {
            None
        };
        self.marks = marks_more(pastes, press, self.marks);
        self.completes = asks_rest(press, &self.hand);
        self.joins = pastes && self.joins;
        let goes_on = self.replacing.is_replaced();
        let meant = hand_meant(
            &mut self.hand,
            self.missed,
            goes_on,
            &self.sought,
            self.sight,
            press,
        );
        let action = held_meant(self.holds, meant);
        self.missed = still_missed(self.missed, &action);
        self.names = names_behind(self.names, &action);
        self.follows = self.hand.pointer().is_some() || self.follows;
        let is_still = is_nothing(&action) && is_unseen(&self.hand) && stays;
        self.changed = self.changed || !is_still;
        action
    }

    /// Does what a press comes to, or asks first.
    fn act<D: Disk>(&mut self, alloc: Global, action: Action, store: &mut Store<D>) -> Doing
        requires { store.old.must_reopen ≡ false }
        ensures { DoesPress D.Disk (accepted_unasked action (seat_of self.old store.old))
            (acted action (seat_of self.old store.old)) result self.new store.old store.new }
    {
        let question = self.question_of(alloc, &action, store)?;
        if comes_first(self.question, question) {
            self.ask(question);
            return Ok(());
        }
        self.unask(&action);
        self.do_action(alloc, action, store)
    }

    /// The question is asked: the terminal rings, and the line below says it.
    fn ask(&mut self, question: Option<Question>)
        ensures { self.new ≡ questioned question self.old }
    {
        if let Some(question) = question {
            self.question = Some(question);
            self.refuse(Saying::Asks(question));
        }
    }

    /// A question that isn't answered is forgotten, and what was said before it is old.
    #[tactic(auto, unfolding(crate::specs::Questions::unasked))]
    fn unask(&mut self, action: &Action)
        ensures { self.new ≡ unasked action.now self.old }
    {
        if is_of_terminal(action) || is_nothing(action) && !asks_to_leave(self.question) {
            return;
        }
        self.question = None;
        self.saying = self.resting;
    }

    /// Why the terminal rings: where a name is asked for, that stands on the line below.
    fn ring_reason(&self) -> Saying
        ensures { result ≡ ring_reason self.now }
    {
        if self.hand.asked().is_some() {
            self.resting
        } else {
            Saying::NoKey
        }
    }

    /// The terminal rings, unless the press asked how a name goes on.
    fn ring(&mut self)
        ensures { self.new
            ≡ (if self.old.completes then self.old else refused (ring_reason self.old) self.old) }
    {
        if !self.completes {
            let reason = self.ring_reason();
            self.refuse(reason);
        }
    }

    /// How what is typed breaks a line.
    fn filling(&self) -> Filling
        ensures { result ≡ filling self.now }
    {
        if !self.fills {
            return Filling::Off;
        }
        match self.typed {
            None => Filling::Letters,
            Some(typed) => Filling::Pasted(typed),
        }
    }

    /// A press is to be done: what is typed where the pattern was found is kept.
    fn note(&mut self, action: &Action)
        ensures { self.new ≡ noted_in action.now self.old }
    {
        self.replacing.note(action);
        self.clicked = cell_kept(action, self.clicked);
        self.keep_words(action);
    }

    /// The words that a press seeks are those that were sought last.
    fn keep_words(&mut self, action: &Action)
        ensures { self.new ≡ with_words action.now self.old }
    {
        if let Action::Find(words, _) = action {
            self.sought = words.copied();
        }
    }

    /// Why there is nothing to be typed in the place of what was found.
    fn unreplaced_reason(&self) -> Saying
        ensures { result ≡ why_unreplaced self.now.replacing }
    {
        if self.replacing.is_untouched() {
            Saying::NothingTyped
        } else {
            Saying::NoSearch
        }
    }

    /// Does what a press comes to.
    fn do_action<D: Disk>(&mut self, alloc: Global, action: Action, store: &mut Store<D>) -> Doing
        requires { store.old.must_reopen ≡ false }
        ensures { DoesAction D.Disk action result self.old self.new store.old store.new }
    {
        let replacement = self.replacing.replacement();
        let fills = self.filling();
        let over = self.past.selects();
        let sight = self.sight;
        let again = cell_again(cell_clicked(&action), self.clicked);
        self.note(&action);
        match task_of(again, action, fills, over, replacement, sight) {
            Ok(task) => self.carry_out(alloc, task, store),
            Err(alone) => {
                self.act_alone(alone);
                Ok(())
            }
        }
    }

    /// Does what a press comes to that posts nothing.
    #[tactic(auto, unfolding(crate::specs::Sittings::acted_alone))]
    fn act_alone(&mut self, action: Action)
        ensures { self.new ≡ acted_alone action self.old }
    {
        match action {
            Action::Nothing
            | Action::Post(_)
            | Action::Step(_)
            | Action::Scroll(_, _)
            | Action::GoTo(_)
            | Action::Delete
            | Action::Search
            | Action::SearchBefore
            | Action::Find(_, _)
            | Action::Store
            | Action::Seek(_)
            | Action::Select(_)
            | Action::SelectAll
            | Action::Extend(_, _)
            | Action::CutLine
            | Action::Refill
            | Action::CallLine
            | Action::Mark => {}
            Action::Ring => self.ring(),
            Action::FileFailed => self.refuse(Saying::Unfinished),
            Action::Replace => {
                let why = self.unreplaced_reason();
                self.refuse(why);
            }
            Action::Fill => {
                self.fills = !self.fills;
                self.saying = fill_saying(self.fills);
            }
            Action::TypeFile(name) => self.wanted = Some(name),
            Action::LookAnew => {
                self.forgets = true;
                self.asks = true;
            }
            Action::Leave => self.leaves = true,
            Action::Undo => self.travels = Some(Travel::Back),
            Action::Redo => self.travels = Some(Travel::Again),
            Action::Move(page) => {
                self.sight = moved(page, self.sight);
                self.follows = false;
            }
            Action::Fit(rows, columns) => self.fit(rows, columns),
        }
    }
}

/// The task of a press: a second click at a cell selects the word there.
fn task_of(
    again: Option<(u8, u8)>,
    action: Action,
    fills: Filling,
    over: bool,
    replacement: Option<Typing>,
    sight: Sight,
) -> Result<Task, Action>
    ensures task { IfOk result (λ task. task_or_word again fills over replacement sight action
        ≡ Some task) }
    ensures none { IfErr result (λ alone. (alone ≡ action)
        × (task_or_word again fills over replacement sight action ≡ None)) }
{
    match again {
        Some(cell) => Ok(Task::Word(cell)),
        None => Task::of(action, fills, over, replacement, sight),
    }
}

/// How many characters became question marks, with a press more amid a text that is pasted. None where none is.
fn marks_more(pastes: bool, press: Press, marks: u32) -> u32
    ensures { result ≡ marks_more pastes press marks }
{
    if !pastes {
        0
    } else if becomes_mark(press) {
        marks.saturating_add(1)
    } else {
        marks
    }
}

/// What is said where so many characters became question marks, or where none did.
fn marked_saying(marks: u32, resting: Saying) -> Saying
    ensures { result ≡ marked_saying marks resting }
{
    if marks == 0 {
        resting
    } else {
        Saying::Marked(marks)
    }
}

/// Bytes are typed, one after another, where a name is asked for.
fn type_on(hand: &mut Hand, sight: Sight, bytes: &[u8])
    ensures { hand.new ≡ hand_typed sight hand.old bytes.now }
{
    for byte in bytes {
        let _action = hand.take(sight, Press::Character(*byte));
    }
}

/// Whether a press asks how the name of a host file goes on.
fn asks_rest(press: Press, hand: &Hand) -> bool
    ensures { result ≡ asks_rest press hand.now }
{
    hand.asked().is_some() && matches!(hand.asks, Asks::File) && is_tabulator(press)
}

/// How many names begin so, behind an action: none is told any more, unless the action is the terminal's own.
fn names_behind(names: u8, action: &Action) -> u8
    ensures { result ≡ (if is_of_terminal action.now then names else 0) }
{
    if is_of_terminal(action) { names } else { 0 }
}

/// Whether it is the key Tab.
fn is_tabulator(press: Press) -> bool
    ensures { result ≡ is_tabulator press }
{
    match press {
        Press::Character(byte) => byte == TABULATOR,
        _ => false,
    }
}

/// Whether nothing of a hand is seen.
fn is_unseen(hand: &Hand) -> bool
    ensures { result ≡ is_unseen hand.now }
{
    hand.asked().is_none() && hand.armed().is_none() && hand.pointer().is_none()
}

/// What a press means while the keyboard holds a text, or none: a paste has that typed, which has no name.
fn held_meant(holds: bool, action: Action) -> Action
    ensures { result ≡ held_meant holds action }
{
    if holds && pastes_copy(&action) {
        Action::TypeFile(HostName::none())
    } else {
        action
    }
}

/// Whether a press pastes what was copied.
fn pastes_copy(action: &Action) -> bool
    ensures { result ≡ pastes_copy action.now }
{
    matches!(action, Action::Post(Event::Key(Key::Paste)))
}

/// Whether an event copies what is selected.
fn is_copying(event: &Event) -> bool
    ensures { result ≡ is_copying event.now }
{
    matches!(event, Event::Key(Key::Copy | Key::Cut))
}
