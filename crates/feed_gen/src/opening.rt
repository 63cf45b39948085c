//! The first delivery's records: the tables are made and loaded.

ghost use Rattle.std.specs.Prelude.{◌≡◌, ◌<◌, ◌≤◌, ◌^◌, ◌+◌, ◌++◌, ◌∷◌, [], IfOk, OnOk, map};
ghost use Rattle.feed_gen.specs.Tables.{puts, first_load, second_load, load, creates, loads};
ghost use Rattle.feed_gen.specs.Written.{with_writings};

use crate::table::{FIRST_BALANCE, ROWS, TABLES, create, put, table_of, thread_of, txn_of};
use crate::writer::FeedWriter;
use crate::writing::Writing;
use adg_base::memory::Memory;
use adg_base::number::Obj;
use adg_base::vector::{Vector, VectorList};
use std::alloc::Global;

/// Adds the puts of the rows from one on.
#[tactic(auto, using(crate::proofs::Loops::puts_none, crate::proofs::Loops::puts_more))]
fn push_puts(
    alloc: Global,
    vectors: &mut VectorList,
    table: Obj,
    from: u8,
    count: u8,
) -> Result<(), Memory>
    requires table { table ≤ 20 }
    requires rows { from + count ≤ 100 }
    ensures { OnOk result (vectors.new ≡ vectors.old ++ puts table from count) }
{
    let txn = txn_of(table);
    for row in from..from + count {
        vectors.push(put(alloc, txn, table, row, FIRST_BALANCE)?)?;
    }
    Ok(())
}

/// The first of the two records that load a table.
#[tactic(auto, unfolding(crate::specs::Tables::first_load))]
fn first_load(alloc: Global, table: Obj) -> Result<Writing, Memory>
    requires { table ≤ 20 }
    ensures { IfOk result (λ w. w ≡ first_load table) }
{
    let txn = txn_of(table);
    let mut vectors = VectorList::new(alloc);
    vectors.push(Vector::Begin { txn })?;
    push_puts(alloc, &mut vectors, table, 0, ROWS / 2)?;
    Ok(Writing {
        thread: thread_of(table),
        vectors,
    })
}

/// The second one.
#[tactic(auto, unfolding(crate::specs::Tables::second_load))]
fn second_load(alloc: Global, table: Obj) -> Result<Writing, Memory>
    requires { table ≤ 20 }
    ensures { IfOk result (λ w. w ≡ second_load table) }
{
    let txn = txn_of(table);
    let mut vectors = VectorList::new(alloc);
    push_puts(alloc, &mut vectors, table, ROWS / 2, ROWS / 2)?;
    vectors.push(Vector::Commit { txn, flag: true })?;
    Ok(Writing {
        thread: thread_of(table),
        vectors,
    })
}

fn write_load(alloc: Global, feed: &mut FeedWriter, table: Obj) -> Result<(), Memory>
    requires table { table ≤ 20 }
    requires room { feed.old.records < 2 ^ 30 }
    ensures { OnOk result (feed.new ≡ with_writings feed.old (load table)) }
{
    let first = first_load(alloc, table)?;
    feed.write(alloc, first)?;
    let second = second_load(alloc, table)?;
    feed.write(alloc, second)?;
    Ok(())
}

/// Makes all tables.
fn write_creates(alloc: Global, feed: &mut FeedWriter) -> Result<(), Memory>
    requires { feed.old.records < 2 ^ 29 }
    ensures { OnOk result (feed.new ≡ with_writings feed.old creates) }
{
    for number in 1..TABLES + 1 {
        let table = table_of(number);
        let record = create(alloc, table)?;
        feed.write(alloc, record)?;
    }
    Ok(())
}

/// Loads all tables.
fn write_loads(alloc: Global, feed: &mut FeedWriter) -> Result<(), Memory>
    requires { feed.old.records < 2 ^ 29 }
    ensures { OnOk result (feed.new ≡ with_writings feed.old loads) }
{
    for number in 1..TABLES + 1 {
        let table = table_of(number);
        write_load(alloc, feed, table)?;
    }
    Ok(())
}

/// Makes all tables, and then loads them.
pub fn write_opening(alloc: Global, feed: &mut FeedWriter) -> Result<(), Memory>
    requires { feed.old.records ≡ 0 }
    ensures { OnOk result (feed.new ≡ with_writings feed.old (creates ++ loads)) }
{
    write_creates(alloc, feed)?;
    write_loads(alloc, feed)?;
    Ok(())
}
