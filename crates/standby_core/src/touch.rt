ghost use Rattle.std.specs.Prelude.{◌≡◌, ◌↔◌, ◌≤◌, length, nat_lt, nat_le, false, None, if◌then◌else◌};
ghost use Rattle.std.specs.List.{Contains, AllByRecursion};
ghost use Rattle.std.specs.List.Sorted.{IsNonDecreasingBy};
ghost use Rattle.adg_base.specs.Address.{Place};
ghost use Rattle.worklinks.specs.declared.collected.Collected.{Collected as Gathered};
ghost use Rattle.column_units.specs.Shard.{MakesEach};
ghost use Rattle.core_rules.specs.declared.event.Event.TheVariants as event;
ghost use Rattle.core_rules.specs.State.{CoreState, has_coarse, has_drop, is_drop_of};
ghost use Rattle.standby_core.specs.Links.{shard_of_place, IsReadyList};
ghost use Rattle.standby_core.specs.Shows.{IsState, HasState, HasStepped};
ghost use Rattle.standby_core.specs.Touching.{StartsAt, EndsAt, IsInShard, IsListed, MarksUnits, TouchesUnits};

use crate::collect::shard_of_addr;
use crate::link::{Link, Stage};
use crate::standby::Core;
use adg_base::address::Addr;
use adg_base::node::Item;
use column_units::shard::UnitShard;
use core_rules::event::CoreAnswer;
use worklinks::Collected;

impl Core {
    /// The units of the shard at the cursor of an actor's worklink get the marks that it asks for.
    pub(crate) fn touch(&mut self, actor: u8) -> CoreAnswer
        requires { HasState self.old }
        ensures { (c : CoreState) → IsState self.old c → HasStepped self.new c (event.Touch actor) result }
    {
        let Some(number) = self.flush.number_of(actor) else {
            return CoreAnswer::NotReady;
        };
        let link = &mut self.flush.links[number];
        let Stage::Claimed { cursor, .. } = link.stage else {
            return CoreAnswer::NotReady;
        };
        let Some(shard) = cursor.checked_sub(self.workers.len()) else {
            return CoreAnswer::NotReady;
        };
        let Some(units) = self.units.get_mut(shard) else {
            return CoreAnswer::NotReady;
        };
        link.touch(units);
        link.stage = Stage::Claimed {
            actor,
            cursor: cursor + 1,
        };
        CoreAnswer::Moved
    }
}

impl Link {
    /// The units of a shard get the marks that the items ask for, or are dropped. Where there is none
    /// no address is looked at.
    #[tactic(auto, using(crate::proofs::Touched::touches_none))]
    fn touch(&self, units: &mut UnitShard)
        requires { AllByRecursion (IsReadyList self.now.items) self.now.collected.lists }
        ensures { TouchesUnits self.now.items self.now.collected.lists units.old units.new }
    {
        if units.is_empty() {
            return;
        }
        mark_lists(self.collected.as_slice(), units);
        mark_wholly(self.items.as_slice(), units);
        drop_objects(self.items.as_slice(), units);
    }
}

/// Marks the collected addresses of a shard.
fn mark_lists(lists: &[Collected], units: &mut UnitShard)
    requires { AllByRecursion (λ (list : Gathered). IsNonDecreasingBy shard_of_place list.addrs) lists.now }
    ensures { MarksUnits (IsListed lists.now units.old.number) false units.old units.new }
{
    for list in lists {
        mark_list(list.addrs.as_slice(), units);
    }
}

fn mark_list(addrs: &[Addr], units: &mut UnitShard)
    requires { IsNonDecreasingBy shard_of_place addrs.now }
    ensures { MarksUnits (IsInShard addrs.now units.old.number) false units.old units.new }
{
    let shard = units.number();
    mark_each(of_shard(addrs, shard), units);
}

/// The addresses of a unit shard, where they are in the order of their shards. Most lists are of few
/// shards, and then the first and the last address tell.
fn of_shard(addrs: &[Addr], shard: u8) -> &[Addr]
    requires { IsNonDecreasingBy shard_of_place addrs.now }
    ensures { (a : Place) → Contains result.now a ↔ IsInShard addrs.now shard a }
{
    let (Some(first), Some(last)) = (addrs.first(), addrs.last()) else {
        return addrs;
    };
    let lowest = shard_of_addr(*first);
    let highest = shard_of_addr(*last);
    if shard < lowest || highest < shard {
        &[]
    } else if lowest == highest {
        addrs
    } else {
        search_shard(addrs, shard)
    }
}

/// The same, by a search for where the shard starts and where it ends.
fn search_shard(addrs: &[Addr], shard: u8) -> &[Addr]
    requires { IsNonDecreasingBy shard_of_place addrs.now }
    ensures { (a : Place) → Contains result.now a ↔ IsInShard addrs.now shard a }
{
    let from = start_of(addrs, shard);
    let to = end_of(addrs, from, shard);
    &addrs[from..to]
}

/// How many addresses are of shards below one.
fn start_of(addrs: &[Addr], shard: u8) -> usize
    requires { IsNonDecreasingBy shard_of_place addrs.now }
    ensures within { result ≤ length addrs.now }
    ensures start { StartsAt shard addrs.now result }
{
    addrs.partition_point(
        |addr: &Addr| -> bool
            ensures { result ≡ nat_lt (shard_of_place addr.now) shard }
        { shard_of_addr(*addr) < shard },
    )
}

/// Where the addresses of a shard end that begin at a place. Where there is none, the first behind the
/// lower shards tells so.
fn end_of(addrs: &[Addr], from: usize, shard: u8) -> usize
    requires order { IsNonDecreasingBy shard_of_place addrs.now }
    requires within { from ≤ length addrs.now }
    requires start { StartsAt shard addrs.now from }
    ensures within { result ≤ length addrs.now }
    ensures end { EndsAt shard addrs.now result }
{
    match addrs.get(from) {
        Some(first) if shard_of_addr(*first) == shard => addrs.partition_point(
            |addr: &Addr| -> bool
                ensures { result ≡ nat_le (shard_of_place addr.now) shard }
            { shard_of_addr(*addr) <= shard },
        ),
        _ => from,
    }
}

fn mark_each(addrs: &[Addr], units: &mut UnitShard)
    ensures { MarksUnits (Contains addrs.now) false units.old units.new }
{
    for addr in addrs {
        units.mark(*addr);
    }
}

/// Marks the units of a shard wholly, where an item asks for it.
fn mark_wholly(items: &[Item], units: &mut UnitShard)
    ensures { MarksUnits (λ a. ⊥) (has_coarse items.now) units.old units.new }
{
    if has_coarse(items) {
        units.mark_all();
    }
}

fn has_coarse(items: &[Item]) -> bool
    ensures { result ≡ has_coarse items.now }
{
    items
        .iter()
        .any(|item| matches!(*item, Item::Coarse { .. }))
}

/// Drops the units of each object whose definition changed.
fn drop_objects(items: &[Item], units: &mut UnitShard)
    ensures { MakesEach (λ o unit. if has_drop o items.now then None else unit) units.old units.new }
{
    for item in items {
        drop_of(*item, units);
    }
}

fn drop_of(item: Item, units: &mut UnitShard)
    ensures { MakesEach (λ o unit. if is_drop_of o item then None else unit) units.old units.new }
{
    if let Item::DropObject { obj } = item {
        units.drop_object(obj);
    }
}
