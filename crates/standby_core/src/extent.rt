ghost use Rattle.std.specs.Prelude.{◌≡◌, ◌+◌, ◌<◌, [], length, option_copied, IfOk, IfSome, OnOk, OnErr, MatchBool};
ghost use Rattle.std.specs.Option.{ForSome};
ghost use Rattle.column_codec.specs.Extent.{AreColumns};
ghost use Rattle.column_units.specs.Unit.{IsOf};
ghost use Rattle.core_rules.specs.declared.event.Event.TheVariants as event;
ghost use Rattle.core_rules.specs.State.{CoreState};
ghost use Rattle.hybrid_scan.specs.Reader.{AreServing};
ghost use Rattle.standby_core.specs.NextExtent.{look_of, look_next, CanGather, HasRows, HasGathered, GathersIn, HasNoneLeft};
ghost use Rattle.standby_core.specs.Parts.{unit_in};
ghost use Rattle.standby_core.specs.Shows.{Shows, IsState, HasState, HasStepped};
ghost use Rattle.standby_core.specs.declared.session.Scan.{Scan as OwnScan};
ghost use Rattle.standby_core.specs.declared.session.Session.TheVariants as seat;

use crate::session::{Scan, Session, place_of};
use crate::standby::Core;
use adg_base::memory::Memory;
use adg_base::number::{Obj, Scn};
use adg_base::shard::unit_shard;
use adg_base::steps::Steps;
use column_units::shard::UnitShard;
use column_units::unit::CleanRows;
use core_rules::event::CoreAnswer;
use hybrid_scan::scan::{ExtentCounts, add_extent};
use hybrid_scan::shard_reader::ShardReader;
use row_blocks::shard::Shard;
use scan_eval::accumulator::Accumulator;
use std::alloc::Global;
use std::marker::Brand;
use std::sync::ledger::{Blank, Ledger};

impl Core {
    /// A scan gathers the rows of its next extent.
    pub(crate) fn scan_extent(&mut self, session: u8) -> Result<CoreAnswer, Memory>
        requires { HasState self.old }
        ensures ok { IfOk result (λ answer. (c : CoreState) → IsState self.old c → HasStepped self.new c (event.ScanExtent session) answer) }
        ensures err { OnErr result ((c : CoreState) → IsState self.old c → Shows self.new c) }
    {
        let Some(place) = place_of(session) else {
            return Ok(CoreAnswer::NotReady);
        };
        if place >= self.sessions.len() {
            return Ok(CoreAnswer::NotReady);
        }
        let session = &mut self.sessions[place];
        if gather_next(self.alloc, session, &self.units, &self.shards)? {
            Ok(CoreAnswer::Moved)
        } else {
            Ok(CoreAnswer::NotReady)
        }
    }
}

impl Scan {
    /// Gathers the rows of its next extent.
    fn gather(&mut self, alloc: Global, units: &[UnitShard], shards: &[Shard]) -> Result<(), Memory>
        requires { CanGather self.old units.now shards.now }
        ensures ok { OnOk result (HasGathered self.old units.now shards.now self.new) }
        ensures err { OnErr result (self.new ≡ self.old) }
    {
        let look = look_at(units, self.definition.obj, self.extents, self.scn)?;
        let blank = Blank::new(1);
        let (rows, counts) = self.next_rows::<Brand>(alloc, look.as_ref(), shards, blank)?;
        self.accumulator.join(alloc, rows)?;
        self.extents += 1;
        self.col += counts.from_columns;
        self.row += counts.from_blocks;
        Ok(())
    }

    /// The rows of its next extent, and how many came from the look and from the shards.
    fn next_rows<L: Ledger>(
        &self,
        alloc: Global,
        look: Option<&CleanRows>,
        shards: &[Shard],
        blank: Blank,
    ) -> Result<(Accumulator, ExtentCounts), Memory>
        requires name { blank.name ≡ L.name }
        requires parts { blank.parts ≡ L.parts }
        requires shared { 0 < L.parts }
        requires left { self.now.extents < 256 }
        requires serves { AreServing shards.now self.now.scn }
        requires columns { ForSome (option_copied look) (λ l. AreColumns self.now.definition.obj self.now.extents l.columns) }
        ensures { IfOk result (λ piece. HasRows self.now (option_copied look.entry) shards.now piece.0 piece.1) }
    {
        let mut steps = Steps::<L>::of(blank);
        let mut reader = ShardReader::new(alloc, shards);
        let mut rows = self.none(alloc)?;
        let counts = add_extent(
            alloc,
            &mut rows,
            look,
            &mut reader,
            &self.definition,
            self.extents,
            self.scn,
            &mut steps,
        )?;
        Ok((rows, counts))
    }

    /// Its query with no rows. It was admitted when the scan began, so only memory can be wanting.
    fn none(&self, alloc: Global) -> Result<Accumulator, Memory>
        ensures { IfOk result (λ rows. rows ≡ record { select = self.now.select; rows = [] }) }
    {
        match Accumulator::new(alloc, &self.select, &self.definition) {
            Ok(rows) => Ok(rows),
            Err(_) => Err(Memory),
        }
    }
}

/// Gathers the rows of the next extent of a session's scan, where it has one with an extent left.
fn gather_next(
    alloc: Global,
    session: &mut Session,
    units: &[UnitShard],
    shards: &[Shard],
) -> Result<bool, Memory>
    requires { (x : OwnScan) → session.old ≡ seat.Scanning x → x.extents < x.definition.extents → CanGather x units.now shards.now }
    ensures ok { IfOk result (λ gathered. MatchBool gathered (GathersIn session.old units.now shards.now session.new) (HasNoneLeft session.old × (session.new ≡ session.old))) }
    ensures err { OnErr result (session.new ≡ session.old) }
{
    let Session::Scanning(scan) = session else {
        return Ok(false);
    };
    if scan.extents >= scan.definition.extents {
        return Ok(false);
    }
    scan.gather(alloc, units, shards)?;
    Ok(true)
}

/// What a scan may take of the unit that stands for an extent.
fn look_at(
    units: &[UnitShard],
    obj: Obj,
    extent: u16,
    scn: Scn,
) -> Result<Option<CleanRows>, Memory>
    requires { length units.now ≡ 32 }
    ensures look { IfOk result (λ look. look ≡ look_of scn (unit_in units.now obj extent)) }
    ensures columns { IfOk result (λ look. ForSome look (λ l. AreColumns obj extent l.columns)) }
    ensures unit { IfSome (unit_in units.now obj extent) (IsOf obj extent) }
{
    let shard = usize::from(unit_shard(obj, extent));
    match units[shard].find(obj, extent) {
        Some(unit) => unit.clean_rows(scn),
        None => Ok(None),
    }
}
