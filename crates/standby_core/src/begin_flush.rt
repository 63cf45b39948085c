ghost use Rattle.std.specs.Prelude.{◌≡◌, ℕ, ◌&&◌, nat_lt, nat_le, [], map, length, filter, IfOk, OnOk, OnErr};
ghost use Rattle.std.specs.List.{list_all, flat_map};
ghost use Rattle.adg_base.specs.declared.node.DdlNode.{DdlNode as Change};
ghost use Rattle.core_rules.specs.declared.event.Event.TheVariants as event;
ghost use Rattle.core_rules.specs.State.{CoreState};
ghost use Rattle.standby_core.specs.declared.flush.Quiesce.TheVariants as keeper;
ghost use Rattle.standby_core.specs.Begin.{is_idle, has_come, ends_upto, without_ends, opened, AreLinksUpto};
ghost use Rattle.standby_core.specs.Shows.{Shows, IsState, HasState, HasStepped};

use crate::flush::{Flush, Quiesce};
use crate::link::{Link, Stage};
use crate::standby::Core;
use crate::worker::Worker;
use adg_base::memory::Memory;
use adg_base::node::Node;
use adg_base::number::Scn;
use core_rules::event::CoreAnswer;
use ddl_table::DdlTable;
use std::alloc::Global;
use worklinks::{Worklink, WorklinkList, chop};

impl Core {
    /// Cuts the ends and the changes of definitions up to an SCN, and chops them into worklinks.
    pub(crate) fn begin_flush(&mut self, through: Scn) -> Result<CoreAnswer, Memory>
        requires { HasState self.old }
        ensures ok { IfOk result (λ answer. (c : CoreState) → IsState self.old c → HasStepped self.new c (event.BeginFlush through) answer) }
        ensures err { OnErr result ((c : CoreState) → IsState self.old c → Shows self.new c) }
    {
        if !self.can_flush(through) {
            return Ok(CoreAnswer::NotReady);
        }
        let nodes = nodes_upto(self.alloc, &self.workers, through)?;
        let links = links_of(self.alloc, nodes, &self.ddl, self.worker_count, through)?;
        drop_through(&mut self.workers, through);
        self.ddl.drop_through(through);
        self.flush.open(through, links);
        Ok(CoreAnswer::Moved)
    }

    /// Whether nobody keeps publication back, the SCN is above the QuerySCN, and all workers have
    /// come to it.
    fn can_flush(&self, through: Scn) -> bool
        ensures { result ≡ (is_idle self.now.flush.quiesce && (nat_lt self.now.query through && list_all (has_come through) self.now.workers.items)) }
    {
        self.flush.is_idle() && self.query < through && have_come(&self.workers, through)
    }
}

impl Flush {
    /// Whether nobody keeps publication back.
    fn is_idle(&self) -> bool
        ensures { result ≡ is_idle self.now.quiesce }
    {
        match self.quiesce {
            Quiesce::Idle => true,
            Quiesce::Shared(_) | Quiesce::Flushing(_) => false,
        }
    }

    /// A flush begins with these worklinks.
    fn open(&mut self, through: Scn, links: Vec<Link>)
        ensures quiesce { self.new.quiesce ≡ keeper.Flushing through }
        ensures links { self.new.links.items ≡ links.items }
        ensures claimed { self.new.claimed ≡ 0 }
        ensures done { self.new.done ≡ 0 }
        ensures held { self.new.held.items ≡ self.old.held.items }
    {
        self.quiesce = Quiesce::Flushing(through);
        self.links = links;
        self.claimed = 0;
        self.done = 0;
    }
}

fn have_come(workers: &[Worker], through: Scn) -> bool
    ensures { result ≡ list_all (has_come through) workers.now }
{
    workers.iter().all(|worker| through <= worker.progress)
}

/// The ends of all workers with SCNs up to one, worker by worker.
fn nodes_upto(alloc: Global, workers: &[Worker], through: Scn) -> Result<Vec<Node>, Memory>
    ensures { IfOk result (λ nodes. nodes.items ≡ flat_map (ends_upto through) workers.now) }
{
    let mut nodes = Vec::new(alloc);
    for worker in workers {
        let ends = worker.ends.upto(through)?;
        nodes.extend_from_slice(ends.as_slice())?;
    }
    Ok(nodes)
}

/// The worklinks of these ends, in the order of the log, and of the changes of definitions with SCNs
/// up to one.
fn links_of(
    alloc: Global,
    nodes: Vec<Node>,
    ddl: &DdlTable,
    workers: u8,
    through: Scn,
) -> Result<Vec<Link>, Memory>
    ensures { IfOk result (λ links. AreLinksUpto nodes.items (filter (λ (n : Change). nat_le n.scn through) ddl.now) workers links.items) }
{
    let mut nodes = nodes;
    nodes.sort_unstable_by_key(|node| node.pos);
    let changes = ddl.upto(through)?;
    let worklinks = chop(alloc, &nodes, changes.as_slice(), workers)?;
    let links = unclaimed(alloc, worklinks)?;
    Ok(links)
}

/// Worklinks that nobody has.
fn unclaimed(alloc: Global, worklinks: WorklinkList) -> Result<Vec<Link>, Memory>
    ensures { IfOk result (λ links. links.items ≡ map opened worklinks) }
{
    Ok(worklinks.into_vec().into_iter().map(opened).collect(alloc)?)
}

fn opened(worklink: Worklink) -> Link
    ensures { result ≡ opened worklink }
{
    Link {
        items: worklink.items,
        collected: worklink.collected,
        stage: Stage::Unclaimed,
    }
}

/// Drops the ends with SCNs up to one.
fn drop_through(workers: &mut [Worker], through: Scn)
    ensures { workers.new ≡ map (without_ends through) workers.old }
{
    for worker in workers.iter_mut() {
        worker.ends.drop_through(through);
    }
}
