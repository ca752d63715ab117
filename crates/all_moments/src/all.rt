//! The moments of a past over all its parts that stand.
ghost use Rattle.std.specs.Prelude.{◌≡◌, ◌≢◌, ◌⊎◌, ◌+◌, ◌-◌, ◌<◌, ◌≤◌, false, length, suc, true, None, IfOk, IfSome, IsSomeAnd, OnOk};
ghost use Rattle.past_pages.specs.Reading.{IsOnlyReadFrom};
ghost use Rattle.past_moments.specs.Moments.{AreMomentsOf, IsDesktopAt};
ghost use Rattle.past_moments.specs.Seeking.{IsBefore};
ghost use Rattle.all_moments.specs.Parts.{AreAllMomentsOf, AreBehindHand, HasCome, IsDesktopThen, IsFormerPart, IsNearest, IsPartFront};
ghost use Rattle.all_moments.specs.Parts.{IsSoughtThen, IsToldThen, first_at_hand};

use crate::part::{Edge, FormerPart, Front, part_before};
use desk_journal::{Error, Store};
use past_moments::{Look, Moments, Sought};
use past_pages::PART_SECTORS;
use sector_disk::Disk;
use std::alloc::{AllocError, Global};

/// The moments of a past, of which a part is at hand: the one in use, or a former one in memory.
#[derive(Drop)]
pub struct AllMoments {
    pub in_use: Moments,
    former: Option<FormerPart>,
    /// Where the parts behind the one at hand begin, that in use first.
    fronts: Vec<Front>,
    /// What is known of the part before the one at hand.
    edge: Edge,
}

impl AllMoments {
    /// Those of the past of a store, whose part in use is at hand. None where it keeps no past that can be read.
    ///
    /// Errors: those of `Moments::of`.
    pub fn of<D: Disk>(alloc: Global, store: &mut Store<D>) -> Result<Option<AllMoments>, Error>
        requires { store.old.must_reopen ≡ false }
        ensures are { IfOk result (λ found. IfSome found (λ all.
            AreAllMomentsOf D.Disk all store.new)) }
        ensures still { IsOnlyReadFrom D.Disk store.old store.new }
    {
        match Moments::of(alloc, store)? {
            None => Ok(None),
            Some(in_use) => Ok(Some(AllMoments {
                in_use,
                former: None,
                fronts: Vec::new(alloc),
                edge: Edge::Unknown,
            })),
        }
    }

    /// The last moment, which is the present.
    pub fn last(&self) -> u64
        ensures { result ≡ self.now.in_use.extent.last }
    {
        self.in_use.extent.last
    }

    /// Whether moment `k` lies before the part in use.
    pub fn is_former(&self, k: u64) -> bool
        ensures yes { result ≡ true → k < self.now.in_use.extent.first }
        ensures no { result ≡ false → self.now.in_use.extent.first ≤ k }
    {
        k < self.in_use.extent.first
    }

    // ---- the part at hand

    /// Where it begins.
    fn front<D: Disk>(&self, _store: &Store<D>) -> Front
        ensures is { AreAllMomentsOf D.Disk self.now _store.now
            → IsPartFront D.Disk (length self.now.fronts.items) result _store.now }
        ensures first { result.first ≡ first_at_hand self.now }
    {
        match &self.former {
            None => Front {
                base: self.in_use.extent.base,
                first: self.in_use.extent.first,
            },
            Some(part) => part.front,
        }
    }

    /// The oldest moment of it.
    fn first(&self) -> u64
        ensures { result ≡ first_at_hand self.now }
    {
        match &self.former {
            None => self.in_use.extent.first,
            Some(part) => part.front.first,
        }
    }

    /// Whether moment `k` lies behind it.
    fn lies_behind(&self, k: u64) -> bool {
        match &self.former {
            None => false,
            Some(part) => k > part.last,
        }
    }

    /// The part in use comes to hand.
    fn come_back<D: Disk>(&mut self, _store: &Store<D>)
        ensures are { AreMomentsOf D.Disk self.old.in_use _store.now
            → AreAllMomentsOf D.Disk self.new _store.now }
        ensures in_use { self.new.in_use ≡ self.old.in_use }
        ensures none { self.new.former ≡ None }
    {
        self.former = None;
        self.fronts.clear();
        self.edge = Edge::Unknown;
    }

    /// A part comes to hand that stands before one that begins there.
    ///
    /// Error: `NoMemory`.
    fn hold<D: Disk>(
        &mut self,
        _store: &Store<D>,
        part: FormerPart,
        behind: Front,
    ) -> Result<(), AllocError>
        ensures { OnOk result (AreBehindHand D.Disk self.old _store.now
            → IsPartFront D.Disk (length self.old.fronts.items) behind _store.now
            → IsFormerPart D.Disk (suc (length self.old.fronts.items)) part _store.now
            → AreAllMomentsOf D.Disk self.new _store.now) }
    {
        self.fronts.push(behind)?;
        self.former = Some(part);
        self.edge = Edge::Unknown;
        Ok(())
    }

    /// Leaves the part at hand, and the one behind it, and says where the one behind that begins. None where there is none.
    fn leave<D: Disk>(&mut self, _store: &Store<D>) -> Option<Front>
        ensures known { IfSome result (λ front. AreBehindHand D.Disk self.old _store.now
            → AreBehindHand D.Disk self.new _store.now
            × IsPartFront D.Disk (length self.new.fronts.items) front _store.now) }
        ensures two { IfSome result (λ front.
            length self.old.fronts.items ≡ length self.new.fronts.items + 2) }
        ensures in_use { self.new.in_use ≡ self.old.in_use }
    {
        let _front = self.fronts.pop();
        self.fronts.pop()
    }

    /// The part before the one at hand comes to hand. False where none is found.
    ///
    /// Errors: those of `part_before`.
    fn go_back<D: Disk>(&mut self, alloc: Global, store: &mut Store<D>) -> Result<bool, Error>
        requires { store.old.must_reopen ≡ false }
        ensures edge { IfOk result (λ done. done ≡ false → self.new.edge ≢ Edge.Unknown) }
        ensures are { OnOk result (AreAllMomentsOf D.Disk self.old store.old
            → AreAllMomentsOf D.Disk self.new store.new) }
        ensures still { IsOnlyReadFrom D.Disk store.old store.new }
    {
        store.shows_what_crashes_leave();
        if self.edge != Edge::Unknown {
            return Ok(false);
        }
        let front = self.front(store);
        match part_before(alloc, store, front)? {
            Err(edge) => {
                self.edge = edge;
                Ok(false)
            }
            Ok(part) => {
                self.hold(store, part, front)?;
                Ok(true)
            }
        }
    }

    /// The part behind a former one that is at hand comes to hand; where it can't be read the one in use does.
    ///
    /// Errors: those of `part_before`.
    fn go_forth<D: Disk>(&mut self, alloc: Global, store: &mut Store<D>) -> Result<(), Error>
        requires { store.old.must_reopen ≡ false }
        ensures are { OnOk result (AreAllMomentsOf D.Disk self.old store.old
            → AreAllMomentsOf D.Disk self.new store.new) }
        ensures still { IsOnlyReadFrom D.Disk store.old store.new }
    {
        store.shows_what_crashes_leave();
        let Some(behind) = self.leave(store) else {
            self.come_back(store);
            return Ok(());
        };
        match part_before(alloc, store, behind)? {
            Err(_edge) => {
                self.come_back(store);
                Ok(())
            }
            Ok(part) => Ok(self.hold(store, part, behind)?),
        }
    }

    /// The part comes to hand to whose moment `k` a deed led, or the nearest one that is found.
    ///
    /// Errors: those of `part_before`.
    fn come_to<D: Disk>(&mut self, alloc: Global, store: &mut Store<D>, k: u64) -> Result<(), Error>
        requires { store.old.must_reopen ≡ false }
        ensures come { OnOk result (HasCome k self.new) }
        ensures are { OnOk result (AreAllMomentsOf D.Disk self.old store.old
            → AreAllMomentsOf D.Disk self.new store.new) }
        ensures still { IsOnlyReadFrom D.Disk store.old store.new }
    {
        if k <= self.in_use.extent.first {
            self.come_forth(alloc, store, k)?;
            return self.come_before(alloc, store, k);
        }
        self.come_back(store);
        Ok(())
    }

    /// Parts come to hand, one behind another, until moment `k` doesn't lie behind the one at hand.
    ///
    /// Errors: those of `part_before`.
    fn come_forth<D: Disk>(
        &mut self,
        alloc: Global,
        store: &mut Store<D>,
        k: u64,
    ) -> Result<(), Error>
        requires { store.old.must_reopen ≡ false }
        ensures are { OnOk result (AreAllMomentsOf D.Disk self.old store.old
            → AreAllMomentsOf D.Disk self.new store.new) }
        ensures still { IsOnlyReadFrom D.Disk store.old store.new }
    {
        for _part in 0..self.fronts.len() {
            if !self.lies_behind(k) {
                return Ok(());
            }
            self.go_forth(alloc, store)?;
        }
        Ok(())
    }

    /// Parts come to hand, one before another, until moment `k` lies behind the oldest one of that at hand.
    ///
    /// Errors: those of `part_before`.
    fn come_before<D: Disk>(
        &mut self,
        alloc: Global,
        store: &mut Store<D>,
        k: u64,
    ) -> Result<(), Error>
        requires { store.old.must_reopen ≡ false }
        ensures come { OnOk result (HasCome k self.new) }
        ensures are { OnOk result (AreAllMomentsOf D.Disk self.old store.old
            → AreAllMomentsOf D.Disk self.new store.new) }
        ensures still { IsOnlyReadFrom D.Disk store.old store.new }
    {
        for _part in 0..store.sectors() / PART_SECTORS {
            if k > self.first() {
                return Ok(());
            }
            if !self.go_back(alloc, store)? {
                return Ok(());
            }
        }
        self.end(store);
        Ok(())
    }

    /// No part is sought before the one at hand.
    fn end<D: Disk>(&mut self, _store: &Store<D>)
        ensures are { AreAllMomentsOf D.Disk self.old _store.now
            → AreAllMomentsOf D.Disk self.new _store.now }
        ensures edge { self.new.edge ≢ Edge.Unknown }
    {
        self.edge = Edge::Unread;
    }

    // ---- moments

    /// The moment that is nearest to moment `k`, of those that can be read.
    ///
    /// Errors: those of `come_to`.
    pub fn nearest<D: Disk>(
        &mut self,
        alloc: Global,
        store: &mut Store<D>,
        k: u64,
    ) -> Result<u64, Error>
        requires { store.old.must_reopen ≡ false }
        ensures nearest { IfOk result (λ at. IsNearest k at self.new) }
        ensures are { OnOk result (AreAllMomentsOf D.Disk self.old store.old
            → AreAllMomentsOf D.Disk self.new store.new) }
        ensures still { IsOnlyReadFrom D.Disk store.old store.new }
    {
        self.come_to(alloc, store, k)?;
        if k >= self.last() {
            return Ok(self.last());
        }
        Ok(k.max(self.first()))
    }

    /// The oldest moment of the part to whose moment `k` a deed led; where that is moment `k`, the same.
    ///
    /// Errors: those of `come_to`.
    pub fn first_of<D: Disk>(
        &mut self,
        alloc: Global,
        store: &mut Store<D>,
        k: u64,
    ) -> Result<u64, Error>
        requires { store.old.must_reopen ≡ false }
        ensures first { IfOk result (λ at. (at ≡ first_at_hand self.new) × HasCome k self.new) }
        ensures are { OnOk result (AreAllMomentsOf D.Disk self.old store.old
            → AreAllMomentsOf D.Disk self.new store.new) }
        ensures still { IsOnlyReadFrom D.Disk store.old store.new }
    {
        self.come_to(alloc, store, k)?;
        Ok(self.first())
    }

    /// Moment `k` in memory, and what led to it. None where it can't be read.
    ///
    /// Errors: those of `come_to`, `FormerPart::look` and `Moments::look`.
    pub fn look<D: Disk>(
        &mut self,
        alloc: Global,
        store: &mut Store<D>,
        k: u64,
    ) -> Result<Option<Look>, Error>
        requires { store.old.must_reopen ≡ false }
        ensures shown { IfOk result (λ found. IfSome found (λ look.
            AreAllMomentsOf D.Disk self.old store.old
            → IsDesktopThen D.Disk k look.shown.desktop store.new)) }
        ensures words { IfOk result (λ found. IfSome found (λ look.
            AreAllMomentsOf D.Disk self.old store.old
            → IsToldThen D.Disk k look.words.items store.new)) }
        ensures are { OnOk result (AreAllMomentsOf D.Disk self.old store.old
            → AreAllMomentsOf D.Disk self.new store.new) }
        ensures still { IsOnlyReadFrom D.Disk store.old store.new }
    {
        self.come_to(alloc, store, k)?;
        self.look_at_hand(alloc, store, k)
    }

    /// The same, where the part has it that is at hand.
    ///
    /// Errors: those of `FormerPart::look` and `Moments::look`.
    fn look_at_hand<D: Disk>(
        &mut self,
        alloc: Global,
        store: &mut Store<D>,
        k: u64,
    ) -> Result<Option<Look>, Error>
        requires { store.old.must_reopen ≡ false }
        ensures shown { IfOk result (λ found. IfSome found (λ look.
            AreAllMomentsOf D.Disk self.old store.old
            → IsDesktopThen D.Disk k look.shown.desktop store.new)) }
        ensures words { IfOk result (λ found. IfSome found (λ look.
            AreAllMomentsOf D.Disk self.old store.old
            → IsToldThen D.Disk k look.words.items store.new)) }
        ensures are { OnOk result (AreAllMomentsOf D.Disk self.old store.old
            → AreAllMomentsOf D.Disk self.new store.new) }
        ensures still { IsOnlyReadFrom D.Disk store.old store.new }
    {
        store.shows_what_crashes_leave();
        let edge = self.edge;
        let look = match &mut self.former {
            None => return self.look_in_use(alloc, store, k),
            Some(part) => part.look(alloc, k, edge)?,
        };
        if k == self.in_use.extent.first {
            return self.look_first(alloc, store, look);
        }
        Ok(look)
    }

    /// The same, where that is the part in use.
    ///
    /// Errors: those of `Moments::look` and `Moments::look_plain`.
    fn look_in_use<D: Disk>(
        &mut self,
        alloc: Global,
        store: &mut Store<D>,
        k: u64,
    ) -> Result<Option<Look>, Error>
        requires usable { store.old.must_reopen ≡ false }
        requires none { self.old.former ≡ None }
        ensures shown { IfOk result (λ found. IfSome found (λ look.
            AreAllMomentsOf D.Disk self.old store.old
            → IsDesktopThen D.Disk k look.shown.desktop store.new)) }
        ensures words { IfOk result (λ found. IfSome found (λ look.
            AreAllMomentsOf D.Disk self.old store.old
            → IsToldThen D.Disk k look.words.items store.new)) }
        ensures are { OnOk result (AreAllMomentsOf D.Disk self.old store.old
            → AreAllMomentsOf D.Disk self.new store.new) }
        ensures still { IsOnlyReadFrom D.Disk store.old store.new }
    {
        store.shows_what_crashes_leave();
        if k > self.in_use.extent.first {
            return self.in_use.look(alloc, store, k);
        }
        self.in_use.look_plain(alloc, store, k, self.edge.words())
    }

    /// The oldest moment of the part in use in memory, and what led to it in the part before, as that tells. None where it
    /// can't be read.
    ///
    /// Errors: those of `Moments::at`.
    fn look_first<D: Disk>(
        &mut self,
        alloc: Global,
        store: &mut Store<D>,
        look: Option<Look>,
    ) -> Result<Option<Look>, Error>
        requires { store.old.must_reopen ≡ false }
        ensures shown { IfOk result (λ found. IfSome found (λ first.
            AreAllMomentsOf D.Disk self.old store.old
            → IsDesktopAt D.Disk self.old.in_use.extent.first first.shown.desktop store.new)) }
        ensures words { IfOk result (λ found. IfSome found (λ first.
            IsSomeAnd look (λ was. first.words ≡ was.words))) }
        ensures are { OnOk result (AreAllMomentsOf D.Disk self.old store.old
            → AreAllMomentsOf D.Disk self.new store.new) }
        ensures still { IsOnlyReadFrom D.Disk store.old store.new }
    {
        store.shows_what_crashes_leave();
        let Some(look) = look else {
            return Ok(None);
        };
        let first = self.in_use.extent.first;
        match self.in_use.at(alloc, store, first)? {
            None => Ok(None),
            Some(mark) => Ok(Some(Look {
                shown: mark.shown,
                words: look.words,
            })),
        }
    }

    // ---- ways to others

    /// The moment before the step of a hand that led to moment `k`: a word that was typed, and else an event.
    ///
    /// Errors: those of `come_to` and of `Moments::step_back`.
    pub fn step_back<D: Disk>(
        &mut self,
        alloc: Global,
        store: &mut Store<D>,
        k: u64,
    ) -> Result<u64, Error>
        requires { store.old.must_reopen ≡ false }
        ensures before { IfOk result (λ at. at ≤ k - 1) }
        ensures are { OnOk result (AreAllMomentsOf D.Disk self.old store.old
            → AreAllMomentsOf D.Disk self.new store.new) }
        ensures still { IsOnlyReadFrom D.Disk store.old store.new }
    {
        self.come_to(alloc, store, k)?;
        store.shows_what_crashes_leave();
        match &mut self.former {
            None => self.in_use.step_back(alloc, store, k),
            Some(part) => part.step_back(alloc, k),
        }
    }

    /// The moment behind the step of a hand that was done at moment `k`.
    ///
    /// Errors: those of `come_to` and of `Moments::step_forth`.
    pub fn step_forth<D: Disk>(
        &mut self,
        alloc: Global,
        store: &mut Store<D>,
        k: u64,
    ) -> Result<u64, Error>
        requires { store.old.must_reopen ≡ false }
        ensures behind { IfOk result (λ at. k ≤ at) }
        ensures are { OnOk result (AreAllMomentsOf D.Disk self.old store.old
            → AreAllMomentsOf D.Disk self.new store.new) }
        ensures still { IsOnlyReadFrom D.Disk store.old store.new }
    {
        self.come_to(alloc, store, k.saturating_add(1))?;
        store.shows_what_crashes_leave();
        match &mut self.former {
            None => self.in_use.step_forth(alloc, store, k),
            Some(part) => part.step_forth(alloc, k),
        }
    }

    /// At which moment a word stood on the screen last, and not at the one behind it, of those of a page up to moment `k`.
    ///
    /// Errors: those of `come_to`, `Moments::seek_page` and `go_back`.
    pub fn seek_page<D: Disk>(
        &mut self,
        alloc: Global,
        store: &mut Store<D>,
        k: u64,
        word: &[u8],
    ) -> Result<Sought, Error>
        requires { store.old.must_reopen ≡ false }
        ensures before { IfOk result (IsBefore k) }
        ensures sought { IfOk result (λ sought. AreAllMomentsOf D.Disk self.old store.old
            → IsSoughtThen D.Disk k word.now sought store.new) }
        ensures are { OnOk result (AreAllMomentsOf D.Disk self.old store.old
            → AreAllMomentsOf D.Disk self.new store.new) }
        ensures still { IsOnlyReadFrom D.Disk store.old store.new }
    {
        self.come_to(alloc, store, k)?;
        let sought = self.seek_at_hand(alloc, store, k, word)?;
        store.shows_what_crashes_leave();
        self.settled(alloc, store, sought)
    }

    /// The same, in the part at hand.
    ///
    /// Errors: those of `Moments::seek_page`.
    fn seek_at_hand<D: Disk>(
        &mut self,
        alloc: Global,
        store: &mut Store<D>,
        k: u64,
        word: &[u8],
    ) -> Result<Sought, Error>
        requires { store.old.must_reopen ≡ false }
        ensures before { IfOk result (IsBefore k) }
        ensures sought { IfOk result (λ sought. AreAllMomentsOf D.Disk self.old store.old
            → IsSoughtThen D.Disk k word.now sought store.new) }
        ensures are { OnOk result (AreAllMomentsOf D.Disk self.old store.old
            → AreAllMomentsOf D.Disk self.new store.new) }
        ensures still { IsOnlyReadFrom D.Disk store.old store.new }
    {
        store.shows_what_crashes_leave();
        match &mut self.former {
            None => self.in_use.seek_page(alloc, store, k, word),
            Some(part) => part.seek_page(alloc, k, word),
        }
    }

    /// The same, and nowhere in place of the oldest moment of the part at hand, where no part before is found.
    ///
    /// Errors: those of `go_back`.
    fn settled<D: Disk>(
        &mut self,
        alloc: Global,
        store: &mut Store<D>,
        sought: Sought,
    ) -> Result<Sought, Error>
        requires { store.old.must_reopen ≡ false }
        ensures same { IfOk result (λ settled. (settled ≡ sought) ⊎ (settled ≡ Sought.Nowhere)) }
        ensures are { OnOk result (AreAllMomentsOf D.Disk self.old store.old
            → AreAllMomentsOf D.Disk self.new store.new) }
        ensures still { IsOnlyReadFrom D.Disk store.old store.new }
    {
        if sought != Sought::Before(self.first()) {
            return Ok(sought);
        }
        if self.go_back(alloc, store)? {
            Ok(sought)
        } else {
            Ok(Sought::Nowhere)
        }
    }
}
