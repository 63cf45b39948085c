//! The meaning of a SELECT over the changes that are committed, by the definitions one by one.

ghost use Rattle.std.specs.Prelude.{◌≡◌, ◌++◌, ◌&&◌, [], ◌∷◌, map, not, IfOk, OnOk};
ghost use Rattle.std.specs.List.{filter_map, list_all};
ghost use Rattle.adg_model.specs.Database.{played};
ghost use Rattle.adg_base.specs.Address.{place, block_places};
ghost use Rattle.adg_model.specs.Query as query;
ghost use Rattle.adg_base.specs.Values as order;
ghost use Rattle.adg_base.specs.Values.{value_cmp};
ghost use Rattle.adg_model.specs.Query.{allows, padded, table_rows};
ghost use Rattle.adg_model.specs.Plain.{no_rows};

use super::walk::{PlainChange, PlainTable, row_at};
use crate::admission::Columns;
use crate::comparison::is_allowed;
use adg_base::command::{Condition, Op};
use adg_base::list::{Duplicate, List};
use adg_base::memory::Memory;
use adg_base::number::Obj;
use adg_base::row::{Row, RowList};
use adg_base::value::Value;
use std::alloc::Global;
use std::cmp::Ordering;

/// The rows of an object in the order of their addresses, each as wide as the object.
pub fn rows_of(
    alloc: Global,
    changes: &[PlainChange],
    obj: Obj,
    table: &PlainTable,
) -> Result<RowList, Memory>
    ensures { IfOk result (λ rows. rows ≡ table_rows (played changes.now no_rows) obj table.now) }
{
    let width = table.kinds().len();
    let blocks = 16 * u32::from(table.extents());
    let mut rows = List::new(alloc);
    for block in 0..blocks {
        add_rows(alloc, &mut rows, changes, obj, block, width)?;
    }
    Ok(rows)
}

/// Adds the rows of a block.
fn add_rows(
    alloc: Global,
    rows: &mut RowList,
    changes: &[PlainChange],
    obj: Obj,
    block: u32,
    width: usize,
) -> Result<(), Memory>
    ensures { OnOk result (rows.new ≡ rows.old ++ map (padded width) (filter_map (played changes.now no_rows) (block_places obj block))) }
{
    for slot in 0..64 {
        add_row(alloc, rows, changes, obj, block, slot, width)?;
    }
    Ok(())
}

/// Adds the row at an address, where one is.
fn add_row(
    alloc: Global,
    rows: &mut RowList,
    changes: &[PlainChange],
    obj: Obj,
    block: u32,
    slot: u8,
    width: usize,
) -> Result<(), Memory>
    ensures { OnOk result (rows.new ≡ rows.old ++ map (padded width) (filter_map (played changes.now no_rows) (place obj block slot ∷ []))) }
{
    match row_at(changes, obj, block, slot) {
        Some(row) => rows.push(widened(alloc, row, width)?),
        None => Ok(()),
    }
}

/// A row with no value in the columns that it lacks.
fn widened(alloc: Global, row: &Row, width: usize) -> Result<Row, Memory>
    ensures { IfOk result (λ wide. wide ≡ padded width row.now) }
{
    let mut wide = values_of(alloc, row)?;
    let missing = width.saturating_sub(row.len());
    for _ in 0..missing {
        wide.push(Value::Null)?;
    }
    Row::from_vec(alloc, wide.into_vec())
}

/// The values of a row, copied.
fn values_of(alloc: Global, row: &Row) -> Result<List<Value>, Memory>
    ensures { IfOk result (λ values. values ≡ row.now) }
{
    let mut values = List::new(alloc);
    for value in row.as_slice() {
        values.push(value.copy(alloc)?)?;
    }
    Ok(values)
}

/// Whether a row meets all conditions.
pub fn meets_all(row: &[Value], conditions: &[Condition]) -> bool
    ensures { result ≡ list_all (query.meets row.now) conditions.now }
{
    conditions.iter().all(|condition| meets(row, condition))
}

fn meets(row: &[Value], condition: &Condition) -> bool
    ensures { result ≡ query.meets row.now condition.now }
{
    match row.get(usize::from(condition.column).saturating_sub(1)) {
        Some(value) => compares(value, condition.op, &condition.literal),
        None => false,
    }
}

fn compares(value: &Value, op: Op, literal: &Value) -> bool
    ensures { result ≡ (not (order.is_null value.now) && not (order.is_null literal.now) && allows op (value_cmp value.now literal.now)) }
{
    !is_null(value) && !is_null(literal) && is_allowed(op, compare(value, literal))
}

/// Whether there is no value.
pub fn is_null(value: &Value) -> bool
    ensures { result ≡ order.is_null value.now }
{
    match value {
        Value::Null => true,
        Value::Int(_) | Value::Text(_) => false,
    }
}

/// The order of two values, as the definition has it.
pub fn compare(left: &Value, right: &Value) -> Ordering
    ensures { result ≡ value_cmp left.now right.now }
{
    match (left, right) {
        (Value::Null, Value::Null) => Ordering::Equal,
        (Value::Null, Value::Int(_) | Value::Text(_)) => Ordering::Less,
        (Value::Int(_) | Value::Text(_), Value::Null) => Ordering::Greater,
        (Value::Int(left), Value::Int(right)) => left.cmp(right),
        (Value::Int(_), Value::Text(_)) => Ordering::Less,
        (Value::Text(_), Value::Int(_)) => Ordering::Greater,
        (Value::Text(left), Value::Text(right)) => left.as_bytes().cmp(right.as_bytes()),
    }
}
