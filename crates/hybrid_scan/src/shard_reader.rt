ghost use Rattle.std.specs.Prelude.{◌≡◌, ℕ, ◌+◌, ◌<◌, ◌++◌, [], slice_index_or, if◌then◌else◌, length, is_some, IfOk, OnOk, option_to_list, option_copied, option_map};
ghost use Rattle.std.specs.Option.{ForSome};
ghost use Rattle.adg_base.specs.Address.{place, block_places};
ghost use Rattle.row_blocks.specs.Pick.{picked_by};
ghost use Rattle.row_blocks.specs.Settled.{settled_at, AreBehind};
ghost use Rattle.row_blocks.specs.Shards.{shards_in, versions_in, row_in, commits_in};
ghost use Rattle.hybrid_scan.specs.Reader.{AreServing, placed, placed_at, picked_in};

use crate::reader::BlockReader;
use adg_base::address::{Addr, SLOTS};
use adg_base::list::{Duplicate, List};
use adg_base::memory::Memory;
use adg_base::number::{Obj, Scn};
use adg_base::placed::{BlockRows, PlacedRow};
use adg_base::row::Row;
use adg_base::steps::Steps;
use row_blocks::block::Block;
use row_blocks::shard::Shard;
use row_blocks::shards::{block_of, known_row_at, pick_in, pick_known, row_at, shard_at};
use row_blocks::version::Version;
use std::alloc::Global;
use std::sync::ledger::Ledger;

/// The 64 shards as a store, each at the place of its number. It covers each SCN at which all of them
/// serve one log and what they know of settled versions is so there.
#[derive(Clone, Copy)]
pub struct ShardReader<'a> {
    alloc: Global,
    shards: &'a [Shard],
}

impl<'a> ShardReader<'a> {
    /// The store of these shards.
    pub fn new(alloc: Global, shards: &'a [Shard]) -> ShardReader<'a>
        ensures { result.shards.now ≡ shards.now }
    {
        ShardReader { alloc, shards }
    }
}

impl BlockReader for ShardReader<'_> {
    ghost covers = { λ reader. AreServing reader.shards.now };

    ghost committed = { λ reader. row_in (shards_in reader.shards.now) };

    fn rows<L: Ledger>(
        &mut self,
        obj: Obj,
        block: u16,
        q: Scn,
        steps: &mut Steps<L>,
    ) -> Result<BlockRows, Memory> {
        served_rows(self.alloc, self.shards, obj, block, q, steps)
    }

    fn row<L: Ledger>(
        &mut self,
        addr: Addr,
        q: Scn,
        steps: &mut Steps<L>,
    ) -> Result<Option<Row>, Memory> {
        served_row(self.alloc, self.shards, addr, q, steps)
    }
}

/// The row that the 64 shards give at an address, held once.
pub fn row_copy<L: Ledger>(
    alloc: Global,
    shards: &[Shard],
    addr: Addr,
    q: Scn,
    steps: &mut Steps<L>,
) -> Result<Option<Row>, Memory>
    requires { length shards.now ≡ 64 }
    ensures row { IfOk result (λ row. row ≡ row_in (shards_in shards.now) q addr) }
    ensures cost { IfOk result (λ row. steps.new ≡ steps.old + (if is_some row then 1 else 0)) }
{
    match row_at(shards, addr, q, steps) {
        Some(row) => Ok(Some(row.copy(alloc)?)),
        None => Ok(None),
    }
}

/// The rows that the 64 shards give in a block, with their addresses, in the order of their slots.
pub fn block_rows<L: Ledger>(
    alloc: Global,
    shards: &[Shard],
    obj: Obj,
    block: u16,
    q: Scn,
    steps: &mut Steps<L>,
) -> Result<BlockRows, Memory>
    requires { length shards.now ≡ 64 }
    ensures rows { IfOk result (λ rows. rows ≡ placed (row_in (shards_in shards.now) q) (block_places obj block)) }
    ensures cost { IfOk result (λ rows. steps.new ≡ steps.old + length rows) }
{
    known_rows(alloc, None, shards, obj, block, q, steps)
}

/// As `row_copy`, from shards that serve the SCN: there what they know of the versions is so.
fn served_row<L: Ledger>(
    alloc: Global,
    shards: &[Shard],
    addr: Addr,
    q: Scn,
    steps: &mut Steps<L>,
) -> Result<Option<Row>, Memory>
    requires { AreServing shards.now q }
    ensures row { IfOk result (λ row. row ≡ row_in (shards_in shards.now) q addr) }
    ensures cost { IfOk result (λ row. steps.new ≡ steps.old + (if is_some row then 1 else 0)) }
{
    match known_row_at(shards, addr, q, steps) {
        Some(row) => Ok(Some(row.copy(alloc)?)),
        None => Ok(None),
    }
}

/// As `block_rows`, from shards that serve the SCN.
fn served_rows<L: Ledger>(
    alloc: Global,
    shards: &[Shard],
    obj: Obj,
    block: u16,
    q: Scn,
    steps: &mut Steps<L>,
) -> Result<BlockRows, Memory>
    requires { AreServing shards.now q }
    ensures rows { IfOk result (λ rows. rows ≡ placed (row_in (shards_in shards.now) q) (block_places obj block)) }
    ensures cost { IfOk result (λ rows. steps.new ≡ steps.old + length rows) }
{
    let known = Some(shard_at(shards, obj, block));
    known_rows(alloc, known, shards, obj, block, q, steps)
}

/// The rows of a block, with what a shard knows of them, where it is so.
fn known_rows<L: Ledger>(
    alloc: Global,
    known: Option<&Shard>,
    shards: &[Shard],
    obj: Obj,
    block: u16,
    q: Scn,
    steps: &mut Steps<L>,
) -> Result<BlockRows, Memory>
    requires count { length shards.now ≡ 64 }
    requires known { ForSome (option_copied known) (λ shard. (slot : ℕ) → slot < 64 → AreBehind (commits_in (shards_in shards.now) q) (versions_in (shards_in shards.now) (place obj block slot)) (settled_at shard (place obj block slot))) }
    ensures rows { IfOk result (λ rows. rows ≡ placed (row_in (shards_in shards.now) q) (block_places obj block)) }
    ensures cost { IfOk result (λ rows. steps.new ≡ steps.old + length rows) }
{
    match block_of(shards, obj, block) {
        Some(found) => rows_in(alloc, found, known, shards, obj, block, q, steps),
        None => Ok(List::new(alloc)),
    }
}

/// The rows of a block that has versions, with what a shard knows of them, where it is so.
fn rows_in<L: Ledger>(
    alloc: Global,
    found: &Block,
    known: Option<&Shard>,
    shards: &[Shard],
    obj: Obj,
    block: u16,
    q: Scn,
    steps: &mut Steps<L>,
) -> Result<BlockRows, Memory>
    requires count { length shards.now ≡ 64 }
    requires known { ForSome (option_copied known) (λ shard. (slot : ℕ) → slot < 64 → AreBehind (commits_in (shards_in shards.now) q) (slice_index_or found.now slot []) (settled_at shard (place obj block slot))) }
    ensures rows { IfOk result (λ rows. rows ≡ placed (picked_in (commits_in (shards_in shards.now) q) found.now) (block_places obj block)) }
    ensures cost { IfOk result (λ rows. steps.new ≡ steps.old + length rows) }
{
    let mut rows = Vec::with_capacity(alloc, usize::from(SLOTS))?;
    for slot in 0..SLOTS {
        let addr = Addr::new(obj, block, slot).unwrap();
        let row = pick_with(known, addr, found.versions(slot), shards, q, steps);
        push_row(alloc, &mut rows, addr, row)?;
    }
    Ok(List::from_vec(rows))
}

/// The row at an address, with what a shard knows of it, where it is so.
fn pick_with<'a, L: Ledger>(
    known: Option<&Shard>,
    addr: Addr,
    versions: &'a [Version],
    shards: &[Shard],
    q: Scn,
    steps: &mut Steps<L>,
) -> Option<&'a Row>
    requires count { length shards.now ≡ 64 }
    requires known { ForSome (option_copied known) (λ shard. AreBehind (commits_in (shards_in shards.now) q) versions.now (settled_at shard addr)) }
    ensures row { option_copied result ≡ picked_by (commits_in (shards_in shards.now) q) versions.now }
    ensures cost { steps.new ≡ steps.old + (if is_some result then 1 else 0) }
{
    match known {
        Some(shard) => pick_known(shard, addr, versions, shards, q, steps),
        None => pick_in(versions, shards, q, steps),
    }
}

/// Adds a row, if there is one, with its address.
fn push_row(
    alloc: Global,
    rows: &mut Vec<PlacedRow>,
    addr: Addr,
    row: Option<&Row>,
) -> Result<(), Memory>
    ensures rows { OnOk result (rows.new.items ≡ rows.old.items ++ option_to_list (option_map (placed_at addr) (option_copied row.entry))) }
    ensures count { OnOk result (length rows.new.items ≡ length rows.old.items + (if is_some row.entry then 1 else 0)) }
{
    if let Some(row) = row {
        let row = row.copy(alloc)?;
        rows.push(PlacedRow { addr, row })?;
    }
    Ok(())
}
