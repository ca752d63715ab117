//! A task of a press, carried out plan by plan over a store.
ghost use Rattle.std.specs.Prelude.{◌≡◌, ◌≢◌, false, Some, None, if◌then◌else◌, OnOk, IfOk, IfErr};
ghost use Rattle.desk_journal.specs.Session.{session_of};
ghost use Rattle.desk_sitting.specs.Doing.{ComesToSeat, DoesPress, TellsDone, seat_of};
ghost use Rattle.desk_sitting.specs.Pasts.{KeepsPast};
ghost use Rattle.desk_journal.specs.View.{IsDurable};
ghost use Rattle.desk_sitting.specs.Sittings.{after_post, turned_away, accepted_by, accepted_one, after_posts, does_all};
ghost use Rattle.desk_sitting.specs.Sittings.{accepted_in, accepted_stage, after_planned, after_stage, after_task};
ghost use Rattle.desk_sitting.specs.Sittings.{kept_follows, left_by, most_plans, task_left, planned, went_on};
ghost use Rattle.press_plans.specs.Plans.{seen_plan};

use crate::sitting::{Doing, Sitting};
use desk_journal::{Error, Store};
use event_bytes::Event;
use press_plans::{Plan, plan_of};
use press_tasks::{MOST_PLANS, Task};
use sector_disk::Disk;
use status_line::{Deed, Saying};
use std::alloc::Global;

impl Sitting {
    /// Does a task, and what is left of it then.
    pub(crate) fn carry_out<D: Disk>(
        &mut self,
        alloc: Global,
        task: Task,
        store: &mut Store<D>,
    ) -> Doing
        requires { store.old.must_reopen ≡ false }
        ensures { DoesPress D.Disk
            (accepted_in most_plans (Some task) (seat_of self.old store.old))
            (after_task most_plans (Some task) (seat_of self.old store.old))
            result self.new store.old store.new }
    {
        let mut left = Some(task);
        for _count in 0..MOST_PLANS {
            left = self.go_on(alloc, left, store)?;
            if left.is_none() {
                return Ok(());
            }
        }
        Ok(())
    }

    /// Does what is left of a task, as far as one plan goes, and returns what is left then.
    fn go_on<D: Disk>(
        &mut self,
        alloc: Global,
        left: Option<Task>,
        store: &mut Store<D>,
    ) -> Result<Option<Task>, Error>
        requires { store.old.must_reopen ≡ false }
        ensures does { DoesPress D.Disk (accepted_stage left (seat_of self.old store.old))
            (after_stage left (seat_of self.old store.old)) result self.new store.old store.new }
        ensures left { IfOk result (λ next. D.honest store.old.disk → IsDurable D.Disk store.old
            → next ≡ task_left left (session_of store.old)) }
    {
        match left {
            None => Ok(None),
            Some(task) => self.advance(alloc, task, store),
        }
    }

    /// Does a task as far as one plan goes, and returns what is left then.
    fn advance<D: Disk>(
        &mut self,
        alloc: Global,
        task: Task,
        store: &mut Store<D>,
    ) -> Result<Option<Task>, Error>
        requires { store.old.must_reopen ≡ false }
        ensures does { DoesPress D.Disk (accepted_stage (Some task) (seat_of self.old store.old))
            (after_stage (Some task) (seat_of self.old store.old)) result self.new store.old
            store.new }
        ensures left { IfOk result (λ next. D.honest store.old.disk → IsDurable D.Disk store.old
            → next ≡ task_left (Some task) (session_of store.old)) }
    {
        let deed = task.deed();
        let follows = self.kept_follows(&task);
        let plan = plan_of(alloc, task, store)?;
        let next = self.post_planned(alloc, plan, store)?;
        self.went_on(deed, follows);
        Ok(next)
    }

    /// Whether the rows in sight were to follow the caret, where they don't for a task.
    fn kept_follows(&self, task: &Task) -> Option<bool>
        ensures { result ≡ kept_follows task.now self.now }
    {
        if task.keeps_sight() {
            Some(self.follows)
        } else {
            None
        }
    }

    /// Does a plan, whose events are posted one after another, and returns what is left to do.
    fn post_planned<D: Disk>(
        &mut self,
        alloc: Global,
        plan: Plan,
        store: &mut Store<D>,
    ) -> Result<Option<Task>, Error>
        requires { store.old.must_reopen ≡ false }
        ensures does { DoesPress D.Disk
            (accepted_by (session_of store.old) (planned (seen_plan plan)))
            (after_planned (seen_plan plan) (seat_of self.old store.old))
            result self.new store.old store.new }
        ensures left { IfOk result (λ next. D.honest store.old.disk → IsDurable D.Disk store.old
            → next ≡ left_by (seen_plan plan) (session_of store.old)) }
    {
        match plan {
            Plan::Refused(why) => {
                self.give_up(why);
                Ok(None)
            }
            Plan::Says(line) => {
                self.say_logged(line);
                Ok(None)
            }
            Plan::Aims(cell) => {
                self.aim(cell);
                Ok(None)
            }
            Plan::Shows(cell) => {
                self.show_cell(cell);
                Ok(None)
            }
            Plan::Tells(saying) => {
                self.say(saying);
                Ok(None)
            }
            Plan::Asks(before) => {
                self.ask_words(before);
                Ok(None)
            }
            Plan::Keeps(words, next) => {
                self.remember(words);
                Ok(Some(next))
            }
            Plan::PutsAway(next) => {
                self.put_pointer_away();
                Ok(Some(next))
            }
            Plan::Next(next) => Ok(next),
            Plan::Event(event, next) => {
                let done = self.post(alloc, &event, store)?;
                Ok(left_if(done, next))
            }
            Plan::Events(events, next) => {
                let all = self.post_all(alloc, events.as_slice(), store)?;
                Ok(left_if(all, next))
            }
        }
    }

    /// Events of a task were posted. What was done, if anything, is named so.
    fn went_on(&mut self, deed: Option<Deed>, follows: Option<bool>)
        ensures { self.new ≡ went_on deed follows self.old }
    {
        self.follows = follows.unwrap_or(self.follows);
        if let Some(deed) = deed
            && self.joins
        {
            self.past.name(deed);
        }
    }

    /// Posts events, one after another, each acknowledged before the next one. Where one isn't done, those behind it
    /// aren't posted. Returns whether all are done.
    fn post_all<D: Disk>(
        &mut self,
        alloc: Global,
        events: &[Event],
        store: &mut Store<D>,
    ) -> Result<bool, Error>
        requires { store.old.must_reopen ≡ false }
        ensures does { DoesPress D.Disk (accepted_by (session_of store.old) events.now)
            (after_posts events.now (seat_of self.old store.old)) result self.new store.old
            store.new }
        ensures done { IfOk result (λ done. D.honest store.old.disk → IsDurable D.Disk store.old
            → done ≡ does_all (session_of store.old) events.now) }
    {
        for event in events {
            let done = self.post(alloc, event, store)?;
            if !done {
                return Ok(false);
            }
        }
        Ok(true)
    }

    /// Posts an event, and returns whether it is done. Where the store keeps a past, that goes on.
    pub(crate) fn post<D: Disk>(
        &mut self,
        alloc: Global,
        event: &Event,
        store: &mut Store<D>,
    ) -> Result<bool, Error>
        requires { store.old.must_reopen ≡ false }
        ensures comes { ComesToSeat D.Disk (after_post event.now (seat_of self.old store.old))
            result self.new store.old store.new }
        ensures done { TellsDone D.Disk event.now result store.old }
        ensures past { KeepsPast D.Disk (accepted_one (session_of store.old) event.now) result
            store.old store.new }
    {
        match desk_past::post(alloc, store, event) {
            Ok(reply) => Ok(self.reply(event, reply)),
            Err(error) => self.turned_away(error),
        }
    }

    /// What an error of a post comes to: a worn store rings, and the event isn't done; any other error is passed on.
    fn turned_away(&mut self, error: Error) -> Result<bool, Error>
        ensures worn { OnOk result ((error ≡ Error.Worn)
            × (self.new ≡ turned_away Saying.Worn self.old)) }
        ensures never { IfOk result (λ done. done ≡ false) }
        ensures other { IfErr result (λ passed. (error ≢ Error.Worn) × (passed ≡ error)) }
    {
        match error {
            Error::Worn => {
                self.turn_away(Saying::Worn);
                Ok(false)
            }
            other => Err(other),
        }
    }
}

/// What is left to do where events are done, or one of them isn't.
fn left_if(done: bool, next: Option<Task>) -> Option<Task>
    ensures { result ≡ (if done then next else None) }
{
    if done { next } else { None }
}
