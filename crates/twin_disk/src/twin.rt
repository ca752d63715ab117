//! One disk over two.
ghost use Rattle.std.specs.Prelude.{◌≡◌, ◌<◌, ◌+◌, ◌++◌, [], ◌∷◌, true, false, if◌then◌else◌, MatchResult, OnOk, OnErr, Some, None};
ghost use Rattle.sector_disk.specs.Trail.{now, Nowhere, Only, written, after_sync, CountsFault};
ghost use Rattle.sector_disk.specs.Confined.{IsConfined};
ghost use Rattle.std.proofs.Props.{props};
ghost use Rattle.twin_disk.specs.declared.legs.Left.TheVariants.{First, Second};
ghost use Rattle.twin_disk.specs.Bounded.{within};
ghost use Rattle.twin_disk.specs.Copying.{HoldSame};
ghost use Rattle.twin_disk.specs.Flags.{IsOpen};
ghost use Rattle.twin_disk.specs.Legs.{IsHonest};
ghost use Rattle.twin_disk.specs.Twin.{Agrees, TwinEnds, IsFlagged, IsLegFollowed, with_mark, pending_now, twin_trail};

use crate::choosing::Leg;
use crate::closing::mark_both;
use crate::flags::Name;
use crate::legs::{Beside, Closed, Left, Legs};
use crate::notes::Notes;
use ghost_traces::Count;
use sector_disk::{Disk, Fault, Sector};

/// A disk over two others, its legs. A write or a sync goes to both, a read to the first one. A call is done as long as
/// one leg did it. The other one is dropped then: the flag of the leg that is left says *alone* for good before the call
/// returns, and nothing is asked of the one that failed any more. Where neither leg did it, or the flag couldn't be
/// written, the call returns `Fault`, as does every later one.
#[derive(Drop)]
pub struct TwinDisk<A: Disk, B: Disk> {
    legs: Legs<A, B>,

    /// Where the flag of a leg stands, which is behind the sectors of the twin, and the name of the pair.
    beside: Beside,

    /// Which legs may still say *closed*. Before one of them is written its mark is taken off: so a start that writes
    /// nothing leaves it there.
    closed: Closed,

    /// Whether no leg is left.
    lost: bool,
    failed: Count,

    /// The legs at the start, and at each call that wrote or settled.
    start: Notes<Legs<A, B>>,
    calls: Notes<Legs<A, B>>,
    ghost first_size: { beside.sector + 1 < A.Disk.size legs.first },
    ghost second_size: { beside.sector + 1 < B.Disk.size legs.second },
    ghost agree: { IsHonest (within beside.sector A.Disk) (within beside.sector B.Disk) legs
        → Agrees (within beside.sector A.Disk) (within beside.sector B.Disk) lost
        (pending_now (within beside.sector A.Disk)
        (within beside.sector B.Disk) start.items calls.items) legs } by { Prim.hlevel props },
    ghost flagged: { IsHonest (within beside.sector A.Disk) (within beside.sector B.Disk) legs
        → IsFlagged A.Disk B.Disk beside.sector lost legs } by { Prim.hlevel props },
    ghost first_open: { A.Disk.honest legs.first → closed.first ≡ false
        → IsOpen (beside.sector + 1) (now (A.Disk.trail legs.first)) } by { Prim.hlevel props },
    ghost second_open: { B.Disk.honest legs.second → closed.second ≡ false
        → IsOpen (beside.sector + 1) (now (B.Disk.trail legs.second)) } by { Prim.hlevel props },
    ghost held: { closed.first ≡ true → closed.second ≡ true
        → HoldSame A.Disk B.Disk beside.sector legs.first legs.second } by { Prim.hlevel props },
    ghost first_followed: { IsHonest (within beside.sector A.Disk)
        (within beside.sector B.Disk) legs
        → IsLegFollowed (within beside.sector A.Disk) (within beside.sector B.Disk)
        (within beside.sector A.Disk)
        (λ l. l.first) Second start.items calls.items legs } by { Prim.hlevel props },
    ghost second_followed: { IsHonest (within beside.sector A.Disk)
        (within beside.sector B.Disk) legs
        → IsLegFollowed (within beside.sector A.Disk) (within beside.sector B.Disk)
        (within beside.sector B.Disk)
        (λ l. l.second) First start.items calls.items legs } by { Prim.hlevel props },
}

/// What the legs did. Where none did it, none is left.
fn told(done: Result<(), Fault>, lost: &mut bool, failed: &mut Count) -> Result<(), Fault>
    ensures same { result ≡ done }
    ensures counted { MatchResult done
        (λ _. (lost.new ≡ lost.old) × (failed.new ≡ failed.old))
        (λ _. (lost.new ≡ true) × (failed.old < failed.new)) }
{
    if done.is_err() {
        *lost = true;
        failed.rise();
    }
    done
}

/// Notes that a sector is written next.
fn begin_write<A: Disk, B: Disk>(n: u32, legs: &mut Legs<A, B>, calls: &mut Notes<Legs<A, B>>)
    ensures legs { legs.new ≡ with_mark (Some n) legs.old }
    ensures calls { calls.new.items ≡ calls.old.items ++ with_mark (Some n) legs.old ∷ [] }
{
    legs.mark = Some(n);
    calls.add(legs);
}

/// Notes that all is settled, if it is.
fn end_sync<A: Disk, B: Disk>(settled: bool, legs: &mut Legs<A, B>, calls: &mut Notes<Legs<A, B>>)
    ensures legs { legs.new ≡ (if settled then with_mark None legs.old else legs.old) }
    ensures calls { calls.new.items
        ≡ (if settled then calls.old.items ++ with_mark None legs.old ∷ [] else calls.old.items) }
{
    if settled {
        legs.mark = None;
        calls.add(legs);
    }
}

impl<A: Disk, B: Disk> TwinDisk<A, B> {
    ghost use Rattle.std.specs.Prelude.{ℕ, ◌↔◌, ◌⊎◌, IsTrue};
    ghost use Rattle.twin_disk.specs.Bounded.{bounded_moment};
    ghost use Rattle.twin_disk.specs.Closing.{IsClosed, IsMarked};
    ghost use Rattle.twin_disk.specs.Copying.{ArePaired, HoldSame};
    ghost use Rattle.twin_disk.specs.Survival.{HasBothLegs, HasHonestLegs, dropped_of, either_pending, first_leg, second_leg, twin_moments, twin_size};

    /// The disk over two legs that hold the same in their first `sectors`, and whose flags, in the sector behind them,
    /// say *in pair*. Their marks, in the one behind that, may say *closed*. `name` is written beside a flag that is
    /// changed.
    pub fn new(first: A, second: B, sectors: u32, name: Name) -> TwinDisk<A, B>
        requires sizes { (sectors + 1 < A.size first) × (sectors + 1 < B.size second) }
        requires in_pair { ArePaired A.Disk B.Disk sectors first second }
        ensures legs { (first_leg result ≡ first) × (second_leg result ≡ second) }
        ensures size { ⟦<TwinDisk<A, B> as Disk>⟧.size result ≡ sectors }
        ensures honest { ⟦<TwinDisk<A, B> as Disk>⟧.honest result ↔ (A.honest first
            × B.honest second) }
        ensures trail { now (⟦<TwinDisk<A, B> as Disk>⟧.trail result)
            ≡ either_pending (bounded_moment sectors (now (A.trail first)))
            (bounded_moment sectors (now (B.trail second))) }
        ensures failures { ⟦<TwinDisk<A, B> as Disk>⟧.failures result ≡ 0 }
    {
        let legs = Legs {
            first,
            second,
            left: Left::Both,
            mark: None,
        };
        let beside = Beside {
            sector: sectors,
            name,
        };
        let mut start = Notes::new();
        start.add(&legs);
        TwinDisk {
            legs,
            beside,
            closed: Closed {
                first: true,
                second: true,
            },
            lost: false,
            failed: Count::new(),
            start,
            calls: Notes::new(),
        }
    }

    /// Whether both legs are in use.
    pub fn is_whole(&self) -> bool
        ensures { IsTrue result ↔ HasBothLegs self.now }
    {
        matches!(self.legs.left, Left::Both) && !self.lost
    }

    /// Which leg was dropped, if one was.
    pub fn dropped(&self) -> Option<Leg>
        ensures { result ≡ dropped_of self.now }
    {
        match self.legs.left {
            Left::Both => None,
            Left::First => Some(Leg::Second),
            Left::Second => Some(Leg::First),
        }
    }

    /// Hands out both legs at the end. Where both are in use, all is synced, and then both say *closed* under this stamp,
    /// as far as they can, unless they say so still: the next start needn't compare them.
    pub fn close(self, stamp: &Name) -> (A, B)
        ensures { IsClosed self result.0 result.1 }
    {
        if self.closed.first || self.closed.second {
            return self.close_unwritten(stamp);
        }
        let mut twin = self;
        match twin.sync() {
            Ok(()) => twin.leave(stamp),
            Err(_) => twin.into_legs(),
        }
    }

    /// The same of a twin of which a leg wasn't written, and so neither was, unless one was dropped.
    fn close_unwritten(self, stamp: &Name) -> (A, B)
        ensures { IsClosed self result.0 result.1 }
    {
        if self.closed.first && self.closed.second && self.is_whole() {
            return self.mark(stamp);
        }
        self.into_legs()
    }

    /// The same of a twin of which all is settled.
    fn leave(self, stamp: &Name) -> (A, B)
        requires { HasHonestLegs self → (n : ℕ) → (now (twin_moments self)).pending n ≡ false }
        ensures { (result ≡ (first_leg self, second_leg self)) ⊎ IsMarked self result.0 result.1 }
    {
        if !self.is_whole() {
            return self.into_legs();
        }
        self.mark(stamp)
    }

    /// Hands out both legs, which hold the same and say *closed*, as far as they can.
    fn mark(self, stamp: &Name) -> (A, B)
        requires { HoldSame A.Disk B.Disk (twin_size self) (first_leg self) (second_leg self) }
        ensures { IsMarked self result.0 result.1 }
    {
        let beside = self.beside;
        let (mut first, mut second) = self.into_legs();
        let _ = mark_both(&mut first, &mut second, beside.sector, stamp);
        (first, second)
    }

    /// Hands out both legs, also one that was dropped.
    pub fn into_legs(self) -> (A, B)
        ensures { result ≡ (first_leg self, second_leg self) }
    {
        let TwinDisk {
            legs,
            beside: _,
            closed: _,
            lost: _,
            failed: _,
            start: _,
            calls: _,
        } = self;
        let Legs {
            first,
            second,
            left: _,
            mark: _,
        } = legs;
        (first, second)
    }
}

impl<A: Disk, B: Disk> Disk for TwinDisk<A, B> {
    ghost use Rattle.twin_disk.specs.Choosing.{GoesOn};

    ghost size = { λ d. d.beside.sector };

    ghost trail = { λ d. twin_trail (within d.beside.sector A.Disk) (within d.beside.sector B.Disk)
        d.start.items d.calls.items d.legs };

    ghost failures = { λ d. d.failed };

    ghost honest = { λ d. IsHonest (within d.beside.sector A.Disk)
        (within d.beside.sector B.Disk) d.legs };

    fn sectors(&self) -> u32 {
        self.beside.sector
    }

    /// Reads from the first leg in use.
    fn read(&mut self, n: u32, buffer: &mut Sector) -> Result<(), Fault>
        requires { n < ⟦<Self as Disk>⟧.size self.old }
        ensures goes_on { GoesOn self.old self.new }
        ensures ends { TwinEnds A.Disk B.Disk result self.old.lost self.new.lost
            self.old.legs self.new.legs }
        ensures kept { IsConfined ⟦<Self as Disk>⟧.size ⟦<Self as Disk>⟧.honest
            ⟦<Self as Disk>⟧.trail
            Nowhere self.old self.new }
        ensures cause { CountsFault result (⟦<Self as Disk>⟧.failures self.old)
            (⟦<Self as Disk>⟧.failures self.new) }
        ensures bytes { OnOk result (⟦<Self as Disk>⟧.honest self.old
            → buffer.new ≡ (now (⟦<Self as Disk>⟧.trail self.old)).reads n) }
    {
        if self.lost {
            self.failed.rise();
            return Err(Fault);
        }
        let done = self.legs.read(n, buffer, &self.beside);
        told(done, &mut self.lost, &mut self.failed)
    }

    /// Writes to each leg in use, from which its mark is taken off before the first write.
    fn write(&mut self, n: u32, bytes: &Sector) -> Result<(), Fault>
        requires { n < ⟦<Self as Disk>⟧.size self.old }
        ensures goes_on { GoesOn self.old self.new }
        ensures ends { TwinEnds A.Disk B.Disk result self.old.lost self.new.lost
            self.old.legs self.new.legs }
        ensures kept { IsConfined ⟦<Self as Disk>⟧.size ⟦<Self as Disk>⟧.honest
            ⟦<Self as Disk>⟧.trail
            (Only n) self.old self.new }
        ensures cause { CountsFault result (⟦<Self as Disk>⟧.failures self.old)
            (⟦<Self as Disk>⟧.failures self.new) }
        ensures written { OnOk result (⟦<Self as Disk>⟧.honest self.old
            → now (⟦<Self as Disk>⟧.trail self.new)
            ≡ written (now (⟦<Self as Disk>⟧.trail self.old)) n bytes.now) }
    {
        if self.lost {
            self.failed.rise();
            return Err(Fault);
        }
        begin_write(n, &mut self.legs, &mut self.calls);
        let done = self.legs.write(n, bytes, &self.beside, &mut self.closed);
        told(done, &mut self.lost, &mut self.failed)
    }

    /// Syncs each leg in use.
    fn sync(&mut self) -> Result<(), Fault>
        ensures goes_on { GoesOn self.old self.new }
        ensures ends { TwinEnds A.Disk B.Disk result self.old.lost self.new.lost
            self.old.legs self.new.legs }
        ensures kept { IsConfined ⟦<Self as Disk>⟧.size ⟦<Self as Disk>⟧.honest
            ⟦<Self as Disk>⟧.trail
            Nowhere self.old self.new }
        ensures cause { CountsFault result (⟦<Self as Disk>⟧.failures self.old)
            (⟦<Self as Disk>⟧.failures self.new) }
        ensures settled { OnOk result (⟦<Self as Disk>⟧.honest self.old
            → now (⟦<Self as Disk>⟧.trail self.new)
            ≡ after_sync (now (⟦<Self as Disk>⟧.trail self.old))) }
        ensures unsettled { OnErr result (⟦<Self as Disk>⟧.honest self.old
            → now (⟦<Self as Disk>⟧.trail self.new) ≡ now (⟦<Self as Disk>⟧.trail self.old)) }
    {
        if self.lost {
            self.failed.rise();
            return Err(Fault);
        }
        let done = self.legs.sync(&self.beside);
        end_sync(done.is_ok(), &mut self.legs, &mut self.calls);
        told(done, &mut self.lost, &mut self.failed)
    }
}
