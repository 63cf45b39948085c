//! The tables: where their rows lie, and the vectors that make, set and take back.

ghost use Rattle.std.specs.Prelude.{◌≡◌, ◌<◌, ◌≤◌, IfOk, [], ◌∷◌, ◌++◌, map};
ghost use Rattle.std.specs.List.{range_with_len};
ghost use Rattle.feed_gen.specs.Tables.{thread_of, extents_of, block_of, slot_of, label, values, put, undo, create, puts, kinds};

use crate::writing::Writing;
use adg_base::list::List;
use adg_base::memory::Memory;
use adg_base::number::{Obj, Txn};
use adg_base::row::Row;
use adg_base::text::Text;
use adg_base::value::{ColKind, Value};
use adg_base::vector::{Vector, VectorList};
use std::alloc::Global;

/// How many tables there are.
pub const TABLES: u8 = 20;

/// How many rows a table has.
pub const ROWS: u8 = 100;

/// How many branches the rows of a table are of.
pub const BRANCHES: u8 = 5;

/// How many rows of a table a branch has.
pub const BRANCH_ROWS: u8 = 20;

/// What each row has at first.
pub const FIRST_BALANCE: i64 = 1_000;

/// The table of a number.
pub fn table_of(number: u8) -> Obj
    requires { 1 ≤ number }
    ensures { result ≡ number }
{
    Obj::new(u16::from(number)).unwrap()
}

/// The transaction that loads a table.
pub fn txn_of(table: Obj) -> Txn
    ensures { result ≡ table }
{
    Txn::new(u64::from(table.get())).unwrap()
}

/// The thread that writes a table.
pub fn thread_of(table: Obj) -> u8
    ensures { result ≡ thread_of table }
{
    1 + (table.get() % 3) as u8
}

fn extents_of(table: Obj) -> u16
    requires { table ≤ 20 }
    ensures { result ≡ extents_of table }
{
    2 * table.get()
}

fn block_of(table: Obj, row: u8) -> u16
    requires { table ≤ 20 }
    ensures { result ≡ block_of table row }
{
    16 * (u16::from(row) % extents_of(table))
}

fn slot_of(table: Obj, row: u8) -> u8
    requires { table ≤ 20 }
    ensures { result ≡ slot_of table row }
{
    (u16::from(row) / extents_of(table)) as u8
}

fn text_of(alloc: Global, bytes: &[u8]) -> Result<Text, Memory>
    ensures { IfOk result (λ text. text ≡ bytes.now) }
{
    match Text::new(alloc, bytes) {
        Ok(text) => Ok(text),
        Err(_) => Err(Memory),
    }
}

/// The text of a row.
#[tactic(auto, using(crate::proofs::Labels::label_short, crate::proofs::Labels::label_long))]
fn label_of(alloc: Global, row: u8) -> Result<Text, Memory>
    requires { row < 100 }
    ensures { IfOk result (λ text. text ≡ label row) }
{
    if row < 10 {
        text_of(alloc, &[b'r', b'0' + row])
    } else {
        text_of(alloc, &[b'r', b'0' + row / 10, b'0' + row % 10])
    }
}

/// The values of a row.
fn row_of(alloc: Global, row: u8, balance: i64) -> Result<Row, Memory>
    requires { row < 100 }
    ensures { IfOk result (λ r. r ≡ values row balance) }
{
    let mut cells = Vec::with_capacity(alloc, 3)?;
    cells.push(Value::Int(i64::from(row % BRANCHES)))?;
    cells.push(Value::Int(balance))?;
    cells.push(Value::Text(label_of(alloc, row)?))?;
    Row::from_vec(alloc, cells)
}

/// A transaction sets the balance of a row.
pub fn put(alloc: Global, txn: Txn, table: Obj, row: u8, balance: i64) -> Result<Vector, Memory>
    requires table { table ≤ 20 }
    requires row { row < 100 }
    ensures { IfOk result (λ v. v ≡ put txn table row balance) }
{
    let cells = row_of(alloc, row, balance)?;
    Ok(Vector::Put {
        txn,
        obj: table,
        block: block_of(table, row),
        slot: slot_of(table, row),
        row: cells,
    })
}

/// A transaction takes its latest change of a row back.
pub fn undo(txn: Txn, table: Obj, row: u8) -> Vector
    requires { table ≤ 20 }
    ensures { result ≡ undo txn table row }
{
    Vector::Undo {
        txn,
        obj: table,
        block: block_of(table, row),
        slot: slot_of(table, row),
    }
}

/// The record that makes a table.
pub fn create(alloc: Global, table: Obj) -> Result<Writing, Memory>
    requires { table ≤ 20 }
    ensures { IfOk result (λ w. w ≡ create table) }
{
    let columns = List::from_slice(alloc, &[ColKind::Int, ColKind::Int, ColKind::Text])?;
    let mut vectors = VectorList::new(alloc);
    vectors.push(Vector::Create {
        obj: table,
        extents: extents_of(table),
        flag: true,
        columns,
    })?;
    Ok(Writing {
        thread: thread_of(table),
        vectors,
    })
}
