//! What is asked about a press before it is done.
ghost use Rattle.std.specs.Prelude.{◌≡◌, false, Some, None, if◌then◌else◌};
ghost use Rattle.std.specs.Result.{result_map_both};
ghost use Rattle.desk_journal.specs.Losses.{loss_at};
ghost use Rattle.desk_sitting.specs.Doing.{Finds};
ghost use Rattle.desk_journal.specs.Leading.{led};
ghost use Rattle.desk_journal.specs.Session.{session_of};
ghost use Rattle.status_line.specs.declared.question.Question.TheVariants.{Reopening};
ghost use Rattle.desk_sitting.specs.Questions.{asked_at, click_led, click_made, click_question, is_leave, loss_question};
ghost use Rattle.desk_sitting.specs.Questions.{leaving_loses, named_at, named_by, session_place, question_of};
ghost use Rattle.desk_sitting.specs.Stored.{open_question, reopening};

use crate::called::called_cell;
use crate::sitting::Sitting;
use crate::travels::place;
use crate::unstored::names_unstored;
use desk_journal::{Error, KeyWish, Loss, Store, WhyNot};
use done_presses::StorePlace;
use event_bytes::Event;
use press_tasks::calling_wish;
use screen_cells::Screen;
use sector_disk::Disk;
use status_line::{
    MiddleClick, Question, click_in, click_posted, is_in_memory, left_behind, menu_reopened,
    named_question,
};
use std::alloc::Global;
use std::vec::Vec;
use terminal_presses::Action;

/// What is asked about a press.
type Asking = Result<Option<Question>, Error>;

impl Sitting {
    /// What is asked about a press. It only looks at the store.
    ///
    /// Errors: `NoMemory`, where memory runs out; `Fault`, where the disk fails.
    pub(crate) fn question_of<D: Disk>(
        &self,
        alloc: Global,
        action: &Action,
        store: &mut Store<D>,
    ) -> Asking
        requires { store.old.must_reopen ≡ false }
        ensures { Finds D.Disk result
            (question_of action.now self.now (session_place (session_of store.old)))
            self.now store.old store.new }
    {
        if !self.questions {
            return Ok(None);
        }
        if is_leave(action) {
            return Ok(self.leaving_loses(place(store)));
        }
        self.lost_by(alloc, action, store)
    }

    /// What leaving would lose, where the store stands at this place.
    fn leaving_loses(&self, place: StorePlace) -> Option<Question>
        ensures { result ≡ leaving_loses place self.now }
    {
        let goes_again = self.again.has_again(place) && !self.kept;
        left_behind(is_in_memory(self.resting), goes_again)
    }

    /// What the click of the middle button would lose that a press makes. It only looks at the store.
    ///
    /// Errors: `NoMemory`; `Fault`.
    fn lost_by<D: Disk>(&self, alloc: Global, action: &Action, store: &mut Store<D>) -> Asking
        requires { store.old.must_reopen ≡ false }
        ensures { Finds D.Disk result
            (λ d. click_question (click_made action.now d) d) self.now store.old store.new }
    {
        let click = self.click_made(alloc, action, store)?;
        match click {
            None => Ok(None),
            Some(click) => self.asked_at(alloc, click, store),
        }
    }

    /// What is asked about a click: what the command would lose that it calls, and where it loses nothing what it takes as
    /// names. It only looks at the store.
    ///
    /// Errors: `NoMemory`; `Fault`.
    fn asked_at<D: Disk>(&self, alloc: Global, click: MiddleClick, store: &mut Store<D>) -> Asking
        requires { store.old.must_reopen ≡ false }
        ensures { Finds D.Disk result (asked_at click) self.now store.old store.new }
    {
        let lost = self.lost_at(click, store)?;
        match lost {
            None => self.named_by(alloc, click, store),
            Some(question) => Ok(Some(question)),
        }
    }

    /// What is asked about the word that a click calls, where it calls one. It only looks at the store.
    ///
    /// Errors: `NoMemory`; `Fault`.
    fn named_by<D: Disk>(&self, alloc: Global, click: MiddleClick, store: &mut Store<D>) -> Asking
        requires { store.old.must_reopen ≡ false }
        ensures { Finds D.Disk result (named_by click) self.now store.old store.new }
    {
        match called_cell(click.from, click.to, store) {
            None => Ok(None),
            Some(cell) => self.named_at(alloc, cell, store),
        }
    }

    /// What is asked about the names that the word at a cell takes, and where nothing is, about a document that it opens once
    /// more. It only looks at the store.
    ///
    /// Errors: `NoMemory`; `Fault`.
    fn named_at<D: Disk>(&self, alloc: Global, to: (u8, u8), store: &mut Store<D>) -> Asking
        requires { store.old.must_reopen ≡ false }
        ensures { Finds D.Disk result (named_at to) self.now store.old store.new }
    {
        let mut screen = Screen::new();
        store.screen(alloc, &mut screen)?;
        match named_question(&screen, to.0, to.1) {
            None => self.reopened_at(&screen, to, store),
            Some(question) => Ok(Some(question)),
        }
    }

    /// What is asked about a document that the word at a cell opens once more. It only looks at the store.
    ///
    /// Errors: `Fault`.
    fn reopened_at<D: Disk>(&self, screen: &Screen, to: (u8, u8), store: &mut Store<D>) -> Asking
        requires { store.old.must_reopen ≡ false }
        ensures { Finds D.Disk result (reopening screen.now to) self.now store.old store.new }
    {
        match menu_reopened(screen, to.0, to.1) {
            None => Ok(None),
            Some(at) => self.unstored_open(screen, at, store),
        }
    }

    /// What is asked where the menu of a viewer of that document begins at a cell. It only looks at the store.
    ///
    /// Errors: `Fault`.
    fn unstored_open<D: Disk>(&self, screen: &Screen, at: (u8, u8), store: &mut Store<D>) -> Asking
        requires { store.old.must_reopen ≡ false }
        ensures { Finds D.Disk result (open_question (Some at) screen.now) self.now store.old
            store.new }
    {
        let found = names_unstored(screen, at, store)?;
        Ok(reopening_if(found, at))
    }

    /// The click of the middle button that a press makes. It only looks at the store.
    ///
    /// Errors: `NoMemory`; `Fault`.
    fn click_made<D: Disk>(
        &self,
        alloc: Global,
        action: &Action,
        store: &mut Store<D>,
    ) -> Result<Option<MiddleClick>, Error>
        requires { store.old.must_reopen ≡ false }
        ensures { Finds D.Disk result (click_made action.now) self.now store.old store.new }
    {
        match calling_wish(action) {
            None => Ok(click_posted(action)),
            Some(wish) => self.click_led(alloc, wish, store),
        }
    }

    /// The click of the middle button that does what is wished of the caret. It only looks at the store.
    ///
    /// Errors: `NoMemory`; `Fault`.
    fn click_led<D: Disk>(
        &self,
        alloc: Global,
        wish: KeyWish,
        store: &mut Store<D>,
    ) -> Result<Option<MiddleClick>, Error>
        requires { store.old.must_reopen ≡ false }
        ensures { Finds D.Disk result (λ d. click_led (led d wish)) self.now store.old store.new }
    {
        let told = store.lead(alloc, wish)?;
        Ok(click_led(told))
    }

    /// What the command would lose that is called by a click. It only looks at the store.
    ///
    /// Errors: `Fault`.
    fn lost_at<D: Disk>(&self, click: MiddleClick, store: &mut Store<D>) -> Asking
        requires { store.old.must_reopen ≡ false }
        ensures { Finds D.Disk result
            (λ d. loss_question (loss_at d click.marker click.from click.to)) self.now store.old
            store.new }
    {
        let loss = store.loss_at(click.marker, click.from, click.to)?;
        Ok(loss_question(loss))
    }
}

/// What is asked about what a command would lose.
fn loss_question(loss: Option<Loss>) -> Option<Question>
    ensures { result ≡ loss_question loss }
{
    match loss {
        None => None,
        Some(Loss::Closed((x, y))) => Some(Question::Closing { x, y }),
        Some(Loss::Taken((x, y))) => Some(Question::Taking { x, y }),
        Some(Loss::Rivalled((x, y))) => Some(Question::Rivalled { x, y }),
    }
}

/// What is asked where a viewer is open of a document that is opened, and its menu begins at a cell: whether its text isn't
/// stored is told.
fn reopening_if(is_so: bool, at: (u8, u8)) -> Option<Question>
    ensures { result ≡ (if is_so then Some (Reopening at.0 at.1) else None) }
{
    if is_so {
        Some(Question::Reopening { x: at.0, y: at.1 })
    } else {
        None
    }
}

/// The click among the events for a wish.
fn click_led(told: Result<Vec<Event>, WhyNot>) -> Option<MiddleClick>
    ensures { result ≡ click_led (result_map_both (λ events. events.items) (λ why. why) told) }
{
    match told {
        Ok(events) => click_in(events.as_slice()),
        Err(_) => None,
    }
}

/// Whether the person leaves by a press.
fn is_leave(action: &Action) -> bool
    ensures { result ≡ is_leave action.now }
{
    matches!(action, Action::Leave)
}
