ghost use Rattle.std.specs.Prelude.{◌≡◌, ℕ, ◌+◌, ◌<◌, ◌^◌, max, List, ◌++◌, if◌then◌else◌, length, is_some, option_copied, option_to_list, slice_get, Some, IfSome, IfOk, OnOk, OnErr};
ghost use Rattle.std.specs.List.{filter_map};
ghost use Rattle.adg_base.specs.Address.{place, block_places};
ghost use Rattle.adg_base.specs.Shard.{shard_of_block};
ghost use Rattle.adg_base.specs.declared.log.LogEntry.{LogEntry as Entry};
ghost use Rattle.row_blocks.specs.Pick.{candidate, later, latest_by, picked_by};
ghost use Rattle.row_blocks.specs.Best.{shown};
ghost use Rattle.row_blocks.specs.Shard.{at_slot, shown as shown_shard};
ghost use Rattle.row_blocks.specs.Stands.{none_kept};
ghost use Rattle.row_blocks.specs.Versions.{end_of as log_end};
ghost use Rattle.row_blocks.specs.Shards.{shards_in, versions_in, end_in, commits_in, row_in, AreNumbered, KeepSame, PassesEntry, StandAtStart};
ghost use Rattle.row_blocks.specs.Settled.{settled_at, AreBehind, AreEnded, AreEndsOf, AreEachSettled};
ghost use Rattle.row_blocks.specs.declared.shard.Shard.{Shard as OwnShard};
ghost use Rattle.row_blocks.specs.Lent.{lent, rows_in_slots};

use crate::block::{Block, SLOTS};
use crate::pick::{Best, is_behind, told, with_commit};
use crate::settled::Settled;
use crate::shard::{STRIDE, Shard};
use crate::version::{End, Version};
use adg_base::address::Addr;
use adg_base::log::LogEntry;
use adg_base::memory::Memory;
use adg_base::number::{Obj, Pos, Scn, Txn};
use adg_base::row::Row;
use adg_base::shard::{SHARDS, block_shard, shard_of, txn_shard};
use adg_base::steps::Steps;
use std::alloc::Global;
use std::sync::ledger::Ledger;

/// How many versions of an address are left for a pick to look at.
const TAIL: usize = 4;

/// A block, from its shard among the 64, where it has a version.
pub fn block_of(shards: &[Shard], obj: Obj, block: u16) -> Option<&Block>
    requires { length shards.now ≡ 64 }
    ensures { (slot : ℕ) → at_slot (option_copied result) slot ≡ versions_in (shards_in shards.now) (place obj block slot) }
{
    shard_at(shards, obj, block).block(obj, block)
}

/// The end of a transaction, from its shard among the 64.
pub fn end_of(shards: &[Shard], txn: Txn) -> Option<End>
    requires { length shards.now ≡ 64 }
    ensures { result ≡ end_in (shards_in shards.now) txn }
{
    shards[txn_shard(txn) as usize].ends(txn)
}

/// Where a transaction committed that counts at `q`, from its shard among the 64.
fn commit_of(shards: &[Shard], txn: Txn, q: Scn) -> Option<u64>
    requires { length shards.now ≡ 64 }
    ensures { result ≡ commits_in (shards_in shards.now) q txn }
{
    shards[txn_shard(txn) as usize].commit_upto(txn, q)
}

/// The later of the best so far and a version. For a struck version no end is looked up.
fn with_version_of<'a>(
    best: Option<Best<'a>>,
    version: &'a Version,
    shards: &[Shard],
    q: Scn,
) -> Option<Best<'a>>
    requires { length shards.now ≡ 64 }
    ensures { shown result ≡ later (shown best.entry) (candidate version.now (commits_in (shards_in shards.now) q version.now.txn)) }
{
    if version.struck {
        best
    } else {
        with_commit(best, version, commit_of(shards, version.txn, q))
    }
}

/// As `pick`, with the ends looked up in the 64 shards.
pub fn pick_in<'a, L: Ledger>(
    versions: &'a [Version],
    shards: &[Shard],
    q: Scn,
    steps: &mut Steps<L>,
) -> Option<&'a Row>
    requires { length shards.now ≡ 64 }
    ensures row { option_copied result ≡ picked_by (commits_in (shards_in shards.now) q) versions.now }
    ensures cost { steps.new ≡ steps.old + (if is_some result then 1 else 0) }
{
    told(latest_in(versions, shards, q), steps)
}

/// As `pick_in`, where it is known how many of the versions are settled. It looks at those only where
/// none of the others counts whose transaction committed behind them.
pub fn pick_settled<'a, L: Ledger>(
    versions: &'a [Version],
    settled: Settled,
    shards: &[Shard],
    q: Scn,
    steps: &mut Steps<L>,
) -> Option<&'a Row>
    requires count { length shards.now ≡ 64 }
    requires settled { AreBehind (commits_in (shards_in shards.now) q) versions.now settled }
    ensures row { option_copied result ≡ picked_by (commits_in (shards_in shards.now) q) versions.now }
    ensures cost { steps.new ≡ steps.old + (if is_some result then 1 else 0) }
{
    let late = latest_in(&versions[settled.count..], shards, q);
    if is_behind(late, settled.upto) {
        told(late, steps)
    } else {
        pick_in(versions, shards, q, steps)
    }
}

/// As `pick_in` over the versions at an address of a shard, with what the shard knows of them. It looks
/// that up for an address with many versions alone.
pub fn pick_known<'a, L: Ledger>(
    shard: &Shard,
    addr: Addr,
    versions: &'a [Version],
    shards: &[Shard],
    q: Scn,
    steps: &mut Steps<L>,
) -> Option<&'a Row>
    requires count { length shards.now ≡ 64 }
    requires settled { AreBehind (commits_in (shards_in shards.now) q) versions.now (settled_at shard.now addr) }
    ensures row { option_copied result ≡ picked_by (commits_in (shards_in shards.now) q) versions.now }
    ensures cost { steps.new ≡ steps.old + (if is_some result then 1 else 0) }
{
    if versions.len() < STRIDE {
        pick_in(versions, shards, q, steps)
    } else {
        pick_settled(versions, shard.settled(addr), shards, q, steps)
    }
}

/// The latest of some versions that counts at `q`.
fn latest_in<'a>(versions: &'a [Version], shards: &[Shard], q: Scn) -> Option<Best<'a>>
    requires { length shards.now ≡ 64 }
    ensures { shown result ≡ latest_by (commits_in (shards_in shards.now) q) versions.now }
{
    let mut best = None;
    for version in versions {
        best = with_version_of(best, version, shards, q);
    }
    best
}

/// The row that the 64 shards give at an address.
pub fn row_at<'a, L: Ledger>(
    shards: &'a [Shard],
    addr: Addr,
    q: Scn,
    steps: &mut Steps<L>,
) -> Option<&'a Row>
    requires { length shards.now ≡ 64 }
    ensures row { option_copied result ≡ row_in (shards_in shards.now) q addr }
    ensures cost { steps.new ≡ steps.old + (if is_some result then 1 else 0) }
{
    match block_of(shards, addr.obj(), addr.block()) {
        Some(block) => pick_in(block.versions(addr.slot()), shards, q, steps),
        None => None,
    }
}

/// As `row_at`, with what is known of the versions there.
pub fn known_row_at<'a, L: Ledger>(
    shards: &'a [Shard],
    addr: Addr,
    q: Scn,
    steps: &mut Steps<L>,
) -> Option<&'a Row>
    requires count { length shards.now ≡ 64 }
    requires settled { (shard : OwnShard) → slice_get shards.now (shard_of_block addr.obj addr.block) ≡ Some shard
        → AreBehind (commits_in (shards_in shards.now) q) ((shown_shard shard).versions addr) (settled_at shard addr) }
    ensures row { option_copied result ≡ row_in (shards_in shards.now) q addr }
    ensures cost { steps.new ≡ steps.old + (if is_some result then 1 else 0) }
{
    let shard = shard_at(shards, addr.obj(), addr.block());
    pick_known(shard, addr, shard.versions(addr), shards, q, steps)
}

/// The shard of a block among the 64.
pub fn shard_at(shards: &[Shard], obj: Obj, block: u16) -> &Shard
    requires { length shards.now ≡ 64 }
    ensures { slice_get shards.now (shard_of_block obj block) ≡ Some result.now }
{
    &shards[block_shard(obj, block) as usize]
}

/// The 64 shards with nothing applied, each at the place of its number.
pub fn new_shards(alloc: Global) -> Result<Vec<Shard>, Memory>
    ensures count { IfOk result (λ shards. length shards.items ≡ 64) }
    ensures empty { IfOk result (λ shards. KeepSame (shards_in shards.items) none_kept) }
    ensures stand { IfOk result (λ shards. StandAtStart (shards_in shards.items)) }
    ensures settled { IfOk result (λ shards. (log : List Entry) → AreEachSettled log shards.items) }
{
    let mut shards = Vec::with_capacity(alloc, SHARDS as usize)?;
    for number in 0..SHARDS {
        shards.push(Shard::new(alloc, number))?;
    }
    Ok(shards)
}

/// Applies an entry to its shard, if it has one.
pub fn apply_in(shards: &mut [Shard], entry: &LogEntry) -> Result<(), Memory>
    requires count { length shards.old ≡ 64 }
    requires numbers { AreNumbered (shards_in shards.old) }
    ensures count { length shards.new ≡ 64 }
    ensures numbers { AreNumbered (shards_in shards.new) }
    ensures passes { OnOk result (entry.now.pos + 1 < 2 ^ 64 → PassesEntry (shards_in shards.old) entry.now (shards_in shards.new)) }
    ensures err { OnErr result (KeepSame (shards_in shards.new) (shards_in shards.old)) }
{
    if let Some(number) = shard_of(&entry.vector) {
        shards[number as usize].apply(entry)?;
    }
    Ok(())
}

/// Where it is time to look how many versions of an address of a shard are settled, keeps that. It does
/// so once in a while as the address gets more versions, so it looks at each version once.
pub fn settle_in(shards: &mut [Shard], number: u8)
    requires count { length shards.old ≡ 64 }
    requires within { number < 64 }
    ensures count { length shards.new ≡ 64 }
    ensures same { KeepSame (shards_in shards.new) (shards_in shards.old) }
    ensures settled { (log : List Entry) → AreEndsOf log (shards_in shards.old) → AreEachSettled log shards.old → AreEachSettled log shards.new }
{
    if let Some(due) = due_in(shards, number) {
        shards[usize::from(number)].settle(due.addr, due.settled);
    }
}

/// An address that is due, and how many of its versions are settled now.
#[derive(Clone, Copy)]
struct Due {
    addr: Addr,
    settled: Settled,
}

/// The address of a shard that is due.
fn due_in(shards: &[Shard], number: u8) -> Option<Due>
    requires count { length shards.now ≡ 64 }
    requires within { number < 64 }
    ensures { IfSome result (λ due. (log : List Entry) (shard : OwnShard) → AreEndsOf log (shards_in shards.now) → slice_get shards.now number ≡ Some shard
        → AreEnded (log_end log) ((shown_shard shard).versions due.addr) (settled_at shard due.addr) → AreEnded (log_end log) ((shown_shard shard).versions due.addr) due.settled) }
{
    let shard = &shards[usize::from(number)];
    let addr = shard.due()?;
    let settled = more_settled(shard.versions(addr), shard.settled(addr), shards);
    Some(Due { addr, settled })
}

/// How many versions are settled, where so many were. The last few are left out: they are those that a
/// pick looks at.
fn more_settled(versions: &[Version], known: Settled, shards: &[Shard]) -> Settled
    requires { length shards.now ≡ 64 }
    ensures { (log : List Entry) → AreEndsOf log (shards_in shards.now) → AreEnded (log_end log) versions.now known → AreEnded (log_end log) versions.now result }
{
    let mut settled = known;
    for index in known.count..versions.len().saturating_sub(TAIL) {
        let Some(end) = end_of(shards, versions[index].txn) else {
            return settled;
        };
        settled = Settled {
            count: index + 1,
            upto: later_of(settled.upto, end.pos),
        };
    }
    settled
}

/// The later of two positions.
fn later_of(one: Pos, other: Pos) -> Pos
    ensures { result ≡ max one other }
{
    if one < other { other } else { one }
}

/// Adds the rows of a block at `q` to `rows`, in the order of their slots. They are lent, and none
/// is copied. After want of memory `rows` is of no more use.
pub fn read_block<'a, L: Ledger>(
    shards: &'a [Shard],
    obj: Obj,
    block: u16,
    q: Scn,
    rows: &mut Vec<&'a Row>,
    steps: &mut Steps<L>,
) -> Result<(), Memory>
    requires { length shards.now ≡ 64 }
    ensures rows { OnOk result (lent rows.new.items ≡ lent rows.old.items ++ filter_map (row_in (shards_in shards.now) q) (block_places obj block)) }
    ensures cost { OnOk result (steps.new + length rows.old.items ≡ steps.old + length rows.new.items) }
{
    match block_of(shards, obj, block) {
        Some(found) => read_slots(found, shards, q, rows, steps),
        None => Ok(()),
    }
}

/// Adds the rows of a block that has versions.
fn read_slots<'a, L: Ledger>(
    found: &'a Block,
    shards: &[Shard],
    q: Scn,
    rows: &mut Vec<&'a Row>,
    steps: &mut Steps<L>,
) -> Result<(), Memory>
    requires { length shards.now ≡ 64 }
    ensures rows { OnOk result (lent rows.new.items ≡ lent rows.old.items ++ rows_in_slots (commits_in (shards_in shards.now) q) found.now 64) }
    ensures cost { OnOk result (steps.new + length rows.old.items ≡ steps.old + length rows.new.items) }
{
    for slot in 0..SLOTS {
        add_row(pick_in(found.versions(slot), shards, q, steps), rows)?;
    }
    Ok(())
}

fn add_row<'a>(row: Option<&'a Row>, rows: &mut Vec<&'a Row>) -> Result<(), Memory>
    ensures rows { OnOk result (lent rows.new.items ≡ lent rows.old.items ++ option_to_list (option_copied row.entry)) }
    ensures count { OnOk result (length rows.new.items ≡ length rows.old.items + (if is_some row.entry then 1 else 0)) }
{
    if let Some(row) = row {
        rows.push(row)?;
    }
    Ok(())
}
