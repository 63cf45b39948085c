ghost use Rattle.std.specs.Prelude.{◌≡◌, ◌+◌, ◌<◌, ◌≤◌, length};
ghost use Rattle.std.specs.List.{list_any};
ghost use Rattle.std.specs.List.Sorted.{IsPermutation, IsNonDecreasingBy};
ghost use Rattle.adg_journal.specs.Area.{IsArea};
ghost use Rattle.core_rules.specs.declared.event.Event.TheVariants as event;
ghost use Rattle.core_rules.specs.State.{CoreState, is_change_of, has_change};
ghost use Rattle.standby_core.specs.Collecting.{is_let_go_by, GivesOut, Takes, TakesArea};
ghost use Rattle.standby_core.specs.Links.{shard_of_place};
ghost use Rattle.standby_core.specs.Shows.{IsState, HasState, HasStepped};

use crate::link::{Link, Stage};
use crate::standby::Core;
use adg_base::address::{Addr, AddrList};
use adg_base::list::List;
use adg_base::node::Item;
use adg_base::shard::unit_shard;
use adg_journal::Area;
use core_rules::event::CoreAnswer;
use worklinks::CollectedList;

/// How many blocks an extent has.
const BLOCKS: u16 = 16;

impl Core {
    /// The area at the cursor of an actor's worklink gives out what it holds of its transactions.
    pub(crate) fn collect(&mut self, actor: u8) -> CoreAnswer
        requires { HasState self.old }
        ensures { (c : CoreState) → IsState self.old c → HasStepped self.new c (event.Collect actor) result }
    {
        let Some(number) = self.flush.number_of(actor) else {
            return CoreAnswer::NotReady;
        };
        let link = &mut self.flush.links[number];
        let Stage::Claimed { cursor, .. } = link.stage else {
            return CoreAnswer::NotReady;
        };
        let Some(worker) = self.workers.get_mut(cursor) else {
            return CoreAnswer::NotReady;
        };
        link.collect(&mut worker.area);
        link.stage = Stage::Claimed {
            actor,
            cursor: cursor + 1,
        };
        CoreAnswer::Moved
    }
}

impl Link {
    /// Takes what an area holds of the transactions of the items. What is not to be marked is let go.
    fn collect(&mut self, area: &mut Area)
        requires area { IsArea area.old }
        requires room { length self.old.collected.lists + length self.old.items ≤ self.old.collected.room }
        ensures { TakesArea area.old area.new self.old self.new }
    {
        gather(self.items.as_slice(), &mut self.collected, area);
        forget(self.items.as_slice(), area);
    }
}

/// Takes what an area holds of the transactions whose changes are to be marked.
fn gather(items: &[Item], collected: &mut CollectedList, area: &mut Area)
    requires area { IsArea area.old }
    requires room { length collected.old.lists + length items.now ≤ collected.old.room }
    ensures { Takes (λ t. has_change t items.now) (length items.now) area.old area.new collected.old collected.new }
{
    for item in items {
        gather_of(*item, collected, area);
    }
}

fn gather_of(item: Item, collected: &mut CollectedList, area: &mut Area)
    requires area { IsArea area.old }
    requires room { length collected.old.lists < collected.old.room }
    ensures { Takes (λ t. is_change_of t item) 1 area.old area.new collected.old collected.new }
{
    let Item::Change { txn } = item else {
        return;
    };
    if let Some(addrs) = area.collect(txn) {
        collected.push(txn, by_unit_shard(addrs));
    }
}

/// Lets go what an area holds of the other transactions.
fn forget(items: &[Item], area: &mut Area)
    requires { IsArea area.old }
    ensures area { IsArea area.new }
    ensures gives { GivesOut (λ t. list_any (is_let_go_by t) items.now) area.old area.new }
{
    for item in items {
        forget_of(*item, area);
    }
}

fn forget_of(item: Item, area: &mut Area)
    requires { IsArea area.old }
    ensures area { IsArea area.new }
    ensures gives { GivesOut (λ t. is_let_go_by t item) area.old area.new }
{
    match item {
        Item::Coarse { txn } | Item::Forget { txn } => {
            let _ = area.collect(txn);
        }
        Item::Change { .. } | Item::DropObject { .. } => {}
    }
}

/// Addresses in the order of their unit shards.
fn by_unit_shard(addrs: AddrList) -> AddrList
    ensures same { IsPermutation addrs result }
    ensures order { IsNonDecreasingBy shard_of_place result }
{
    let mut addrs = addrs.into_vec();
    addrs.sort_unstable_by_key(
        |addr: &Addr| -> u8
            ensures { result ≡ shard_of_place addr.now }
        { shard_of_addr(*addr) },
    );
    List::from_vec(addrs)
}

/// The unit shard of an address.
pub(crate) fn shard_of_addr(addr: Addr) -> u8
    ensures value { result ≡ shard_of_place addr }
    ensures range { result < 32 }
{
    unit_shard(addr.obj(), addr.block() / BLOCKS)
}
