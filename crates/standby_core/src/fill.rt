ghost use Rattle.std.specs.Prelude.{◌≡◌, ◌<◌, length, slice_set, IfOk, OnOk, OnErr};
ghost use Rattle.adg_base.specs.Address.{block_places};
ghost use Rattle.adg_base.specs.Shard.{shard_of_unit};
ghost use Rattle.adg_base.specs.declared.answer.Reply.TheVariants as reply;
ghost use Rattle.column_codec.specs.Extent.{AreColumns, placed_rows};
ghost use Rattle.column_units.specs.Shard.{is_awaited};
ghost use Rattle.core_rules.specs.declared.event.Event.TheVariants as event;
ghost use Rattle.core_rules.specs.State.{CoreState, At};
ghost use Rattle.hybrid_scan.specs.Reader.{placed};
ghost use Rattle.row_blocks.specs.Shards.{shards_in, row_in};
ghost use Rattle.standby_core.specs.declared.session.Session.TheVariants as seat;
ghost use Rattle.standby_core.specs.declared.session.Population.{Population as Populates};
ghost use Rattle.standby_core.specs.Filling.{next_rows, with_block, rows_read, with_installed, has_next, at_next, session_after, answer_after, CanTake, CanEnd, TakesColumns};
ghost use Rattle.standby_core.specs.Parts.{unit_in};
ghost use Rattle.standby_core.specs.Populating.{IsSetIn};
ghost use Rattle.standby_core.specs.Shows.{Shows, IsState, HasState, HasStepped};

use crate::populate::{Phase, in_phase};
use crate::session::{Population, Session};
use crate::standby::Core;
use adg_base::answer::Reply;
use adg_base::memory::Memory;
use adg_base::number::{Obj, Scn};
use adg_base::placed::BlockRows;
use adg_base::shard::unit_shard;
use adg_base::steps::Steps;
use column_codec::columns::Columns;
use column_units::shard::UnitShard;
use core_rules::event::CoreAnswer;
use hybrid_scan::shard_reader::block_rows;
use row_blocks::shard::Shard;
use std::alloc::Global;
use std::marker::Brand;
use std::sync::ledger::{Blank, Ledger};

impl Core {
    /// A population that was released reads the next block of its extent.
    pub(crate) fn pop_read(&mut self, session: u8) -> Result<CoreAnswer, Memory>
        requires { HasState self.old }
        ensures ok { IfOk result (λ answer. (c : CoreState) → IsState self.old c → HasStepped self.new c (event.PopRead session) answer) }
        ensures err { OnErr result ((c : CoreState) → IsState self.old c → Shows self.new c) }
    {
        let Some(place) = in_phase(&self.sessions, session, Phase::Reading) else {
            return Ok(CoreAnswer::NotReady);
        };
        read_next(self.alloc, &mut self.sessions, place, &self.shards)?;
        Ok(CoreAnswer::Moved)
    }

    /// A population ends an extent of which all blocks are read: its unit gets the columns if it waits
    /// for them, and the population goes on with the next extent or is over.
    pub(crate) fn pop_end(&mut self, session: u8) -> Result<CoreAnswer, Memory>
        requires { HasState self.old }
        ensures ok { IfOk result (λ answer. (c : CoreState) → IsState self.old c → HasStepped self.new c (event.PopEnd session) answer) }
        ensures err { OnErr result ((c : CoreState) → IsState self.old c → Shows self.new c) }
    {
        let Some(place) = in_phase(&self.sessions, session, Phase::Read) else {
            return Ok(CoreAnswer::NotReady);
        };
        let answer = end_extent(&mut self.sessions, place, &mut self.units)?;
        Ok(answer)
    }
}

impl Population {
    /// Its next block is read.
    fn read_next(&mut self, alloc: Global, shards: &[Shard]) -> Result<(), Memory>
        requires { CanTake shards.now self.old }
        ensures ok { OnOk result (self.new ≡ with_block (next_rows shards.now self.old) self.old) }
        ensures err { OnErr result (self.new ≡ self.old) }
    {
        let rows = self.next_rows(alloc, shards)?;
        self.build.block(&rows)
    }

    /// The rows of its next block at its snapshot.
    #[tactic(auto, unfolding(crate::specs::Filling::next_rows))]
    fn next_rows(&self, alloc: Global, shards: &[Shard]) -> Result<BlockRows, Memory>
        requires { CanTake shards.now self.now }
        ensures { IfOk result (λ rows. rows ≡ next_rows shards.now self.now) }
    {
        let block = 16 * self.build.extent() + u16::from(self.build.blocks());
        rows_of_block(alloc, shards, self.obj, block, self.snapshot)
    }

    /// Its extent is installed where the unit waits for it.
    fn install(&mut self, units: &mut [UnitShard]) -> Result<(), Memory>
        requires can { CanEnd self.old }
        requires count { length units.old ≡ 32 }
        ensures population { OnOk result (self.new ≡ with_installed units.old self.old) }
        ensures unit { OnOk result (IsSetIn (TakesColumns self.old.obj self.old.build.extent self.old.ticket (rows_read self.old)) (shard_of_unit self.old.obj self.old.build.extent) units.old units.new) }
        ensures same { OnErr result (self.new ≡ self.old) }
        ensures kept { OnErr result (units.new ≡ units.old) }
    {
        let columns = self.build.columns()?;
        if give_columns(units, self.obj, self.build.extent(), self.ticket, columns) {
            self.installed += 1;
        }
        Ok(())
    }

    /// Whether an extent is left behind the one at hand.
    fn has_next(&self) -> bool
        requires { self.now.build.extent < 256 }
        ensures { result ≡ has_next self.now }
    {
        self.build.extent() + 1 < self.extents
    }

    /// It begins with its next extent.
    fn begin_next(&mut self)
        requires { self.old.build.extent < 256 }
        ensures { self.new ≡ at_next self.old }
    {
        self.build = self.build.next();
    }

    /// What it says when it is over.
    fn reply(&self) -> Reply
        ensures { result ≡ reply.Populated self.now.snapshot self.now.installed }
    {
        Reply::Populated {
            scn: self.snapshot,
            units: self.installed,
        }
    }
}

impl Session {
    /// The next block of a population's extent is read.
    fn read_next(&mut self, alloc: Global, shards: &[Shard]) -> Result<(), Memory>
        requires { (p : Populates) → self.old ≡ seat.Populating p → CanTake shards.now p }
        ensures ok { OnOk result ((p : Populates) → self.old ≡ seat.Populating p → self.new ≡ seat.Populating (with_block (next_rows shards.now p) p)) }
        ensures err { OnErr result (self.new ≡ self.old) }
    {
        match self {
            Session::Populating(population) => population.read_next(alloc, shards),
            Session::Free | Session::Scanning(_) => Ok(()),
        }
    }

    /// A population's extent is installed. It goes on with the next one, or is over and says how many
    /// were installed.
    fn end_extent(&mut self, units: &mut [UnitShard]) -> Result<CoreAnswer, Memory>
        requires can { (p : Populates) → self.old ≡ seat.Populating p → CanEnd p }
        requires count { length units.old ≡ 32 }
        ensures session { OnOk result ((p : Populates) → self.old ≡ seat.Populating p → self.new ≡ session_after (with_installed units.old p)) }
        ensures answer { IfOk result (λ answer. (p : Populates) → self.old ≡ seat.Populating p → answer ≡ answer_after (with_installed units.old p)) }
        ensures unit { OnOk result ((p : Populates) → self.old ≡ seat.Populating p → IsSetIn (TakesColumns p.obj p.build.extent p.ticket (rows_read p)) (shard_of_unit p.obj p.build.extent) units.old units.new) }
        ensures same { OnErr result (self.new ≡ self.old) }
        ensures kept { OnErr result (units.new ≡ units.old) }
    {
        let Session::Populating(population) = self else {
            return Ok(CoreAnswer::NotReady);
        };
        population.install(units)?;
        if population.has_next() {
            population.begin_next();
            return Ok(CoreAnswer::Moved);
        }
        let said = population.reply();
        *self = Session::Free;
        Ok(CoreAnswer::Said(said))
    }
}

/// The next block of a population's extent is read.
fn read_next(
    alloc: Global,
    sessions: &mut [Session],
    place: usize,
    shards: &[Shard],
) -> Result<(), Memory>
    requires within { place < length sessions.old }
    requires can { (p : Populates) → At sessions.old place (seat.Populating p) → CanTake shards.now p }
    ensures ok { OnOk result ((p : Populates) → At sessions.old place (seat.Populating p) → sessions.new ≡ slice_set sessions.old place (seat.Populating (with_block (next_rows shards.now p) p))) }
    ensures err { OnErr result (sessions.new ≡ sessions.old) }
{
    sessions[place].read_next(alloc, shards)
}

/// A population's extent is installed. It goes on with the next one, or is over and says how many were
/// installed.
fn end_extent(
    sessions: &mut [Session],
    place: usize,
    units: &mut [UnitShard],
) -> Result<CoreAnswer, Memory>
    requires within { place < length sessions.old }
    requires can { (p : Populates) → At sessions.old place (seat.Populating p) → CanEnd p }
    requires count { length units.old ≡ 32 }
    ensures session { OnOk result ((p : Populates) → At sessions.old place (seat.Populating p) → sessions.new ≡ slice_set sessions.old place (session_after (with_installed units.old p))) }
    ensures answer { IfOk result (λ answer. (p : Populates) → At sessions.old place (seat.Populating p) → answer ≡ answer_after (with_installed units.old p)) }
    ensures unit { OnOk result ((p : Populates) → At sessions.old place (seat.Populating p) → IsSetIn (TakesColumns p.obj p.build.extent p.ticket (rows_read p)) (shard_of_unit p.obj p.build.extent) units.old units.new) }
    ensures same { OnErr result (sessions.new ≡ sessions.old) }
    ensures kept { OnErr result (units.new ≡ units.old) }
{
    sessions[place].end_extent(units)
}

/// The unit of an extent gets its columns, if it waits for them with this ticket.
fn give_columns(
    units: &mut [UnitShard],
    obj: Obj,
    extent: u16,
    ticket: u64,
    columns: Columns,
) -> bool
    requires columns { AreColumns obj extent columns }
    requires count { length units.old ≡ 32 }
    ensures answer { result ≡ is_awaited ticket (unit_in units.old obj extent) }
    ensures unit { IsSetIn (TakesColumns obj extent ticket (placed_rows columns)) (shard_of_unit obj extent) units.old units.new }
{
    let shard = usize::from(unit_shard(obj, extent));
    units[shard].install(obj, extent, ticket, columns)
}

/// The rows that the shards give in a block. The steps that they cost are not counted.
fn rows_of_block(
    alloc: Global,
    shards: &[Shard],
    obj: Obj,
    block: u16,
    scn: Scn,
) -> Result<BlockRows, Memory>
    requires { length shards.now ≡ 64 }
    ensures { IfOk result (λ rows. rows ≡ placed (row_in (shards_in shards.now) scn) (block_places obj block)) }
{
    counted_rows::<Brand>(alloc, shards, obj, block, scn, Blank::new(1))
}

/// The same, with a counter of its own.
fn counted_rows<L: Ledger>(
    alloc: Global,
    shards: &[Shard],
    obj: Obj,
    block: u16,
    scn: Scn,
    blank: Blank,
) -> Result<BlockRows, Memory>
    requires name { blank.name ≡ L.name }
    requires parts { blank.parts ≡ L.parts }
    requires shared { 0 < L.parts }
    requires count { length shards.now ≡ 64 }
    ensures { IfOk result (λ rows. rows ≡ placed (row_in (shards_in shards.now) scn) (block_places obj block)) }
{
    let mut steps = Steps::<L>::of(blank);
    block_rows(alloc, shards, obj, block, scn, &mut steps)
}
