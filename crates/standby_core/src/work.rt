ghost use Rattle.std.specs.Prelude.{◌≡◌, ◌+◌, ◌<◌, List, length, drop, slice_get, Some, None, IfOk, OnOk, OnErr, MatchBool, MatchOption};
ghost use Rattle.std.specs.List.{Contains, AllByRecursion};
ghost use Rattle.std.specs.List.Sorted.{IsNonDecreasingBy};
ghost use Rattle.adg_base.specs.Shard.{shard_of_vector};
ghost use Rattle.adg_base.specs.declared.log.LogEntry.{LogEntry as Entry};
ghost use Rattle.adg_model.specs.Mined.{mined_of};
ghost use Rattle.adg_journal.specs.Area.{IsArea};
ghost use Rattle.row_blocks.specs.Shard.{shown};
ghost use Rattle.row_blocks.specs.Stands.{SameKept};
ghost use Rattle.core_rules.specs.Applying.{end_kind};
ghost use Rattle.core_rules.specs.declared.event.Event.TheVariants as event;
ghost use Rattle.core_rules.specs.State.{CoreState, At};
ghost use Rattle.dictionary.specs.Standing.{StandsFor};
ghost use Rattle.standby_core.specs.Entries.{TakesEntry};
ghost use Rattle.standby_core.specs.Mining.{IsBehind, TakesMined, StaysSame};
ghost use Rattle.standby_core.specs.Shows.{Shows, IsState, HasState, HasStepped};

use crate::standby::Core;
use crate::worker::Worker;
use adg_base::log::LogEntry;
use adg_base::memory::Memory;
use adg_base::node::{Node, NodeKind};
use adg_base::number::{Pos, Scn};
use adg_base::shard::shard_of;
use adg_model::mined::Mined;
use core_rules::event::CoreAnswer;
use ddl_table::DdlTable;
use dictionary::Dictionary;
use mining::mine;
use row_blocks::shard::Shard;
use row_blocks::shards::settle_in;

impl Core {
    /// A worker applies the next entry of its share at the entry's shard.
    pub(crate) fn apply(&mut self, worker: u8) -> Result<CoreAnswer, Memory>
        requires { HasState self.old }
        ensures ok { IfOk result (λ answer. (c : CoreState) → IsState self.old c → HasStepped self.new c (event.Apply worker) answer) }
        ensures err { OnErr result ((c : CoreState) → IsState self.old c → Shows self.new c) }
    {
        let index = usize::from(worker);
        let Some(own) = self.workers.get(index) else {
            return Ok(CoreAnswer::NotReady);
        };
        let Some(entry) = own.next_to_apply() else {
            return Ok(CoreAnswer::NotReady);
        };
        let Some(number) = shard_of(&entry.vector) else {
            return Ok(CoreAnswer::NotReady);
        };
        apply_at(&mut self.shards[usize::from(number)], entry)?;
        self.workers[index].applied += 1;
        self.settle(number);
        Ok(CoreAnswer::Moved)
    }

    /// Where it is time to look how many versions of an address of a shard are settled, does so.
    fn settle(&mut self, number: u8)
        requires within { number < 64 }
        requires state { HasState self.old }
        ensures { (c : CoreState) → IsState self.old c → Shows self.new c }
    {
        settle_in(&mut self.shards, number);
    }

    /// A worker mines the next entry that it has applied.
    pub(crate) fn mine(&mut self, worker: u8, dictionary: &Dictionary) -> Result<CoreAnswer, Memory>
        requires { HasState self.old }
        ensures ok { IfOk result (λ answer. (c : CoreState) → IsState self.old c → StandsFor dictionary.now c.log → HasStepped self.new c (event.Mine worker) answer) }
        ensures err { OnErr result ((c : CoreState) → IsState self.old c → Shows self.new c) }
    {
        let index = usize::from(worker);
        let Some(own) = self.workers.get(index) else {
            return Ok(CoreAnswer::NotReady);
        };
        if own.mined >= own.applied {
            return Ok(CoreAnswer::NotReady);
        }
        self.workers[index].mine(dictionary, &mut self.ddl)?;
        Ok(CoreAnswer::Moved)
    }

    /// A worker says that all of its share up to an SCN is mined.
    pub(crate) fn raise(&mut self, worker: u8, through: Scn) -> CoreAnswer
        requires { HasState self.old }
        ensures { (c : CoreState) → IsState self.old c → HasStepped self.new c (event.Raise worker through) result }
    {
        let index = usize::from(worker);
        let Some(own) = self.workers.get(index) else {
            return CoreAnswer::NotReady;
        };
        if through <= own.progress {
            return CoreAnswer::NotReady;
        }
        if self.frontier < through {
            return CoreAnswer::NotReady;
        }
        if !own.has_mined(through) {
            return CoreAnswer::NotReady;
        }
        self.workers[index].progress = through;
        CoreAnswer::Moved
    }
}

impl Worker {
    /// The next entry of the share that is not applied.
    fn next_to_apply(&self) -> Option<&LogEntry>
        ensures { MatchOption result (slice_get self.now.share self.now.applied ≡ None) (λ e. At self.now.share self.now.applied e.now) }
    {
        self.share.as_slice().get(self.applied)
    }

    /// Mines the next entry.
    fn mine(&mut self, dictionary: &Dictionary, ddl: &mut DdlTable) -> Result<(), Memory>
        requires left { self.old.mined < length self.old.share }
        requires area { IsArea self.old.area }
        requires behind { (e : Entry) → At self.old.share self.old.mined e → IsBehind e.scn e.pos self.old.ends }
        ensures ok { OnOk result ((log : List Entry) (e : Entry) → StandsFor dictionary.now log → Contains log e → At self.old.share self.old.mined e →
            TakesMined e.scn e.pos (mined_of log e) (record self.old { mined = self.old.mined + 1 }) self.new ddl.old ddl.new) }
        ensures err { OnErr result (StaysSame self.old self.new × (ddl.new ≡ ddl.old)) }
    {
        let entry = &self.share.as_slice()[self.mined];
        let (scn, pos) = (entry.scn, entry.pos);
        let what = mine(entry, dictionary);
        self.take(scn, pos, &what, ddl)?;
        self.mined += 1;
        Ok(())
    }

    /// Takes what an entry notes: a beginning or an address into the area, an end into the part of the
    /// commit table, a change of a definition into the table of those.
    fn take(
        &mut self,
        scn: Scn,
        pos: Pos,
        what: &Option<Mined>,
        ddl: &mut DdlTable,
    ) -> Result<(), Memory>
        requires area { IsArea self.old.area }
        requires behind { IsBehind scn pos self.old.ends }
        ensures ok { OnOk result (TakesMined scn pos what.now self.old self.new ddl.old ddl.new) }
        ensures err { OnErr result (StaysSame self.old self.new × (ddl.new ≡ ddl.old)) }
    {
        match what {
            Some(Mined::Begin { txn }) => self.area.begin(*txn),
            Some(Mined::Note { txn, addr }) => self.area.note(*txn, *addr),
            Some(
                Mined::End {
                    txn,
                    flag,
                    committed,
                },
            ) => {
                let complete = self.area.end(*txn);
                let kind = kind_of(*flag, *committed);
                self.ends.enter(Node {
                    scn,
                    pos,
                    txn: *txn,
                    complete,
                    kind,
                })
            }
            Some(Mined::Ddl { obj }) => ddl.enter(scn, *obj),
            None => Ok(()),
        }
    }

    /// Whether every entry of the share up to an SCN is mined.
    fn has_mined(&self, through: Scn) -> bool
        ensures { IsNonDecreasingBy (λ (e : Entry). e.scn) self.now.share → MatchBool result (AllByRecursion (λ (e : Entry). through < e.scn) (drop self.now.mined self.now.share))
            (AllByRecursion (λ (e : Entry). through < e.scn) (drop self.now.mined self.now.share) → ⊥) }
    {
        match self.share.as_slice().get(self.mined) {
            Some(entry) => through < entry.scn,
            None => true,
        }
    }
}

/// How an end of a transaction ended it.
fn kind_of(flag: bool, committed: bool) -> NodeKind
    ensures { result ≡ end_kind flag committed }
{
    if committed {
        NodeKind::Committed { flag }
    } else {
        NodeKind::Aborted
    }
}

/// Applies an entry at its shard.
fn apply_at(shard: &mut Shard, entry: &LogEntry) -> Result<(), Memory>
    requires { shard_of_vector entry.now.vector ≡ Some shard.old.number }
    ensures ok { OnOk result (TakesEntry shard.old entry.now shard.new) }
    ensures settled { shard.new.settled ≡ shard.old.settled }
    ensures err { OnErr result (SameKept (shown shard.new) (shown shard.old)) }
{
    shard.apply(entry)?;
    Ok(())
}
