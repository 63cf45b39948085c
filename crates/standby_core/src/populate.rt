ghost use Rattle.std.specs.Prelude.{◌≡◌, ℕ, ◌+◌, ◌<◌, ◌^◌, length, slice_set, None, true, false, IfSome, IfOk, OnOk, OnErr};
ghost use Rattle.adg_base.specs.Shard.{shard_of_unit};
ghost use Rattle.column_units.specs.Shard.{Units, KeepsAll};
ghost use Rattle.core_rules.specs.declared.event.Event.TheVariants as event;
ghost use Rattle.core_rules.specs.State.{CoreState, At, is_flushing};
ghost use Rattle.dictionary.specs.Standing.{StandsFor};
ghost use Rattle.standby_core.specs.Links.{quiesce_shown};
ghost use Rattle.standby_core.specs.declared.flush.Quiesce.TheVariants as keeper;
ghost use Rattle.standby_core.specs.declared.session.Session.TheVariants as seat;
ghost use Rattle.standby_core.specs.declared.session.Population.{Population as Populates};
ghost use Rattle.standby_core.specs.Populating.{IsSeat, IsSetIn, TakesUnit, begun_population, is_in, once_less, once_more};
ghost use Rattle.standby_core.specs.Shows.{Shows, IsState, HasState, HasStepped};

use crate::flush::{Flush, Quiesce};
use crate::session::{Population, Session, free_place, place_of};
use crate::standby::Core;
use adg_base::answer::Reply;
use adg_base::definition::Definition;
use adg_base::memory::Memory;
use adg_base::number::{Obj, Scn};
use adg_base::shard::unit_shard;
use column_units::shard::UnitShard;
use core_rules::event::CoreAnswer;
use dictionary::Dictionary;
use population::build::Build;
use std::alloc::Global;

/// What a population does next: it registers a unit, has registered all of them, reads a block, or has
/// read all blocks of its extent.
#[derive(Clone, Copy)]
pub(crate) enum Phase {
    Registering,
    Registered,
    Reading,
    Read,
}

impl Core {
    /// A session begins to populate an object, or is refused.
    pub(crate) fn pop_begin(
        &mut self,
        session: u8,
        obj: Obj,
        dictionary: &Dictionary,
    ) -> Result<CoreAnswer, Memory>
        requires { HasState self.old }
        ensures ok { IfOk result (λ answer. (c : CoreState) → IsState self.old c → StandsFor dictionary.now c.log → HasStepped self.new c (event.PopBegin session obj) answer) }
        ensures err { OnErr result ((c : CoreState) → IsState self.old c → Shows self.new c) }
    {
        let Some(place) = free_place(&self.sessions, session) else {
            return Ok(CoreAnswer::NotReady);
        };
        if self.flush.is_flushing() {
            return Ok(CoreAnswer::NotReady);
        }
        let scn = self.query;
        let Some(definition) = dictionary.at(obj, scn) else {
            return Ok(CoreAnswer::Said(Reply::NoTable { scn }));
        };
        if !definition.flag {
            return Ok(CoreAnswer::Said(Reply::NotInMemory { scn }));
        }
        let next = next_ticket(self.ticket)?;
        let population = Population::begin(self.alloc, obj, scn, self.ticket, &definition)?;
        begin_in(&mut self.sessions, place, population);
        self.flush.hold();
        self.ticket = next;
        Ok(CoreAnswer::Moved)
    }

    /// The unit of a population's next extent stands for it, not filled.
    pub(crate) fn pop_register(&mut self, session: u8) -> Result<CoreAnswer, Memory>
        requires { HasState self.old }
        ensures ok { IfOk result (λ answer. (c : CoreState) → IsState self.old c → HasStepped self.new c (event.PopRegister session) answer) }
        ensures err { OnErr result ((c : CoreState) → IsState self.old c → Shows self.new c) }
    {
        let Some(place) = in_phase(&self.sessions, session, Phase::Registering) else {
            return Ok(CoreAnswer::NotReady);
        };
        register_next(&mut self.sessions, place, &mut self.units)?;
        Ok(CoreAnswer::Moved)
    }

    /// A population lets publication go on, where all of its units are registered.
    pub(crate) fn pop_release(&mut self, session: u8) -> CoreAnswer
        requires { HasState self.old }
        ensures { (c : CoreState) → IsState self.old c → HasStepped self.new c (event.PopRelease session) result }
    {
        let Some(place) = in_phase(&self.sessions, session, Phase::Registered) else {
            return CoreAnswer::NotReady;
        };
        let_go(&mut self.sessions, place);
        self.flush.release();
        CoreAnswer::Moved
    }
}

impl Population {
    /// A population of an object with this definition that holds publication back.
    fn begin(
        alloc: Global,
        obj: Obj,
        snapshot: Scn,
        ticket: u64,
        definition: &Definition,
    ) -> Result<Population, Memory>
        ensures { IfOk result (λ population. population ≡ begun_population obj snapshot ticket definition.now) }
    {
        let build = Build::new(alloc, obj, 0, snapshot, definition)?;
        Ok(Population {
            obj,
            extents: definition.extents,
            snapshot,
            ticket,
            holds: true,
            registered: 0,
            installed: 0,
            build,
        })
    }
}

impl Phase {
    /// Whether a population is in this phase.
    fn is_of(self, population: &Population) -> bool
        ensures { result ≡ is_in self population.now }
    {
        match self {
            Phase::Registering => population.holds && population.registered < population.extents,
            Phase::Registered => population.holds && population.extents <= population.registered,
            Phase::Reading => !population.holds && population.build.blocks() < BLOCKS,
            Phase::Read => !population.holds && BLOCKS <= population.build.blocks(),
        }
    }
}

impl Flush {
    /// Whether a flush goes on.
    fn is_flushing(&self) -> bool
        ensures { result ≡ is_flushing (quiesce_shown self.now.quiesce) }
    {
        match self.quiesce {
            Quiesce::Flushing(_) => true,
            Quiesce::Idle | Quiesce::Shared(_) => false,
        }
    }

    /// One population more keeps publication back.
    fn hold(&mut self)
        requires { (n : ℕ) → self.old.quiesce ≡ keeper.Shared n → n + 1 < 2 ^ 64 }
        ensures quiesce { self.new.quiesce ≡ once_more self.old.quiesce }
        ensures same { self.new ≡ record self.old { quiesce = self.new.quiesce } }
    {
        match self.quiesce {
            Quiesce::Idle => self.quiesce = Quiesce::Shared(1),
            Quiesce::Shared(count) => self.quiesce = Quiesce::Shared(count + 1),
            Quiesce::Flushing(_) => {}
        }
    }

    /// One population less keeps publication back.
    fn release(&mut self)
        ensures quiesce { self.new.quiesce ≡ once_less self.old.quiesce }
        ensures same { self.new ≡ record self.old { quiesce = self.new.quiesce } }
    {
        match self.quiesce {
            Quiesce::Shared(count) => {
                self.quiesce = if count <= 1 {
                    Quiesce::Idle
                } else {
                    Quiesce::Shared(count - 1)
                };
            }
            Quiesce::Idle | Quiesce::Flushing(_) => {}
        }
    }
}

impl Session {
    /// A population does not keep publication back any more.
    fn let_go(&mut self)
        ensures { (p : Populates) → self.old ≡ seat.Populating p → self.new ≡ seat.Populating (record p { holds = false }) }
    {
        match self {
            Session::Populating(population) => population.holds = false,
            Session::Free | Session::Scanning(_) => {}
        }
    }

    /// The next extent of a population is registered.
    fn register_next(&mut self, units: &mut [UnitShard]) -> Result<(), Memory>
        requires left { (p : Populates) → self.old ≡ seat.Populating p → p.registered < p.extents }
        requires count { length units.old ≡ 32 }
        requires numbers { (n : ℕ) (s : Units) → At units.old n s → s.number ≡ n }
        ensures population { OnOk result ((p : Populates) → self.old ≡ seat.Populating p → self.new ≡ seat.Populating (record p { registered = p.registered + 1 })) }
        ensures unit { OnOk result ((p : Populates) → self.old ≡ seat.Populating p → IsSetIn (TakesUnit p.obj p.registered p.snapshot p.ticket) (shard_of_unit p.obj p.registered) units.old units.new) }
        ensures same { OnErr result (self.new ≡ self.old) }
        ensures kept { OnErr result ((p : Populates) → self.old ≡ seat.Populating p → IsSetIn KeepsAll (shard_of_unit p.obj p.registered) units.old units.new) }
    {
        match self {
            Session::Populating(population) => {
                let extent = population.registered;
                put_unit(
                    units,
                    population.obj,
                    extent,
                    population.snapshot,
                    population.ticket,
                )?;
                population.registered = next_extent(extent, population.extents);
                Ok(())
            }
            Session::Free | Session::Scanning(_) => Ok(()),
        }
    }
}

/// How many blocks an extent has.
const BLOCKS: u8 = 16;

/// The place of a session whose population is in a phase.
pub(crate) fn in_phase(sessions: &[Session], session: u8, phase: Phase) -> Option<usize>
    ensures none { result ≡ None → (place : ℕ) (p : Populates) → session ≡ place + 1 → At sessions.now place (seat.Populating p) → is_in phase p ≡ true → ⊥ }
    ensures some { IfSome result (IsSeat sessions.now session phase) }
{
    let place = place_of(session)?;
    match sessions.get(place) {
        Some(Session::Populating(population)) if phase.is_of(population) => Some(place),
        _ => None,
    }
}

/// The ticket behind one, where there is one. A core that takes a ticket each microsecond comes to the
/// last in half a million years.
fn next_ticket(ticket: u64) -> Result<u64, Memory>
    ensures { IfOk result (λ next. next ≡ ticket + 1) }
{
    match ticket.checked_add(1) {
        Some(next) => Ok(next),
        None => Err(Memory),
    }
}

/// A population begins in the place of a session.
fn begin_in(sessions: &mut [Session], place: usize, population: Population)
    requires { place < length sessions.old }
    ensures { sessions.new ≡ slice_set sessions.old place (seat.Populating population) }
{
    sessions[place] = Session::Populating(population);
}

/// A population does not keep publication back any more.
fn let_go(sessions: &mut [Session], place: usize)
    requires { place < length sessions.old }
    ensures { (p : Populates) → At sessions.old place (seat.Populating p) → sessions.new ≡ slice_set sessions.old place (seat.Populating (record p { holds = false })) }
{
    sessions[place].let_go();
}

/// The next extent of a population is registered.
fn register_next(
    sessions: &mut [Session],
    place: usize,
    units: &mut [UnitShard],
) -> Result<(), Memory>
    requires within { place < length sessions.old }
    requires left { (p : Populates) → At sessions.old place (seat.Populating p) → p.registered < p.extents }
    requires count { length units.old ≡ 32 }
    requires numbers { (n : ℕ) (s : Units) → At units.old n s → s.number ≡ n }
    ensures population { OnOk result ((p : Populates) → At sessions.old place (seat.Populating p) → sessions.new ≡ slice_set sessions.old place (seat.Populating (record p { registered = p.registered + 1 }))) }
    ensures unit { OnOk result ((p : Populates) → At sessions.old place (seat.Populating p) → IsSetIn (TakesUnit p.obj p.registered p.snapshot p.ticket) (shard_of_unit p.obj p.registered) units.old units.new) }
    ensures same { OnErr result (sessions.new ≡ sessions.old) }
    ensures kept { OnErr result ((p : Populates) → At sessions.old place (seat.Populating p) → IsSetIn KeepsAll (shard_of_unit p.obj p.registered) units.old units.new) }
{
    sessions[place].register_next(units)
}

/// The number behind that of an extent of so many.
fn next_extent(extent: u16, extents: u16) -> u16
    requires { extent < extents }
    ensures { result ≡ extent + 1 }
{
    extent + 1
}

/// A unit, not filled, stands for an extent.
fn put_unit(
    units: &mut [UnitShard],
    obj: Obj,
    extent: u16,
    snapshot: Scn,
    ticket: u64,
) -> Result<(), Memory>
    requires count { length units.old ≡ 32 }
    requires numbers { (n : ℕ) (s : Units) → At units.old n s → s.number ≡ n }
    ensures unit { OnOk result (IsSetIn (TakesUnit obj extent snapshot ticket) (shard_of_unit obj extent) units.old units.new) }
    ensures kept { OnErr result (IsSetIn KeepsAll (shard_of_unit obj extent) units.old units.new) }
{
    let shard = usize::from(unit_shard(obj, extent));
    units[shard].register(obj, extent, snapshot, ticket)
}
