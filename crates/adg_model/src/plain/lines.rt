//! The lines of a SELECT over rows: the rows themselves, aggregates of them, or one line for each
//! group.

ghost use Rattle.std.specs.Prelude.{◌≡◌, [], ◌∷◌, ◌++◌, map, length, not, slice_get, unwrap_or, option_copied, is_some, option_map, IfOk, OnOk, IfSome};
ghost use Rattle.adg_base.specs.declared.value.Value.{Value as Datum};
ghost use Rattle.adg_base.specs.declared.value.Value.TheVariants.{Null};
ghost use Rattle.adg_model.specs.Query as query;
ghost use Rattle.adg_base.specs.Values as order;
ghost use Rattle.adg_model.specs.Query.{filtered, rows_with, group_lines, aggregate_cells};
ghost use Rattle.adg_model.specs.Plain.{key_place, prefers};

use super::meaning::{compare, is_null, meets_all};
use adg_base::answer::{Answer, Cell, CellList};
use adg_base::command::{Aggregate, Condition, What};
use adg_base::list::{Duplicate, List};
use adg_base::memory::Memory;
use adg_base::row::{Row, RowList};
use adg_base::value::Value;
use std::alloc::Global;
use std::cmp::Ordering;

/// Which value of a column is asked for.
#[derive(Clone, Copy, PartialEq, Eq)]
pub enum Extreme {
    Least,
    Greatest,
}

/// The rows that meet all conditions.
pub fn kept(alloc: Global, rows: &[Row], conditions: &[Condition]) -> Result<RowList, Memory>
    ensures { IfOk result (λ kept. kept ≡ filtered conditions.now rows.now) }
{
    let mut kept = List::new(alloc);
    for row in rows {
        if meets_all(row.as_slice(), conditions) {
            kept.push(row.copy(alloc)?)?;
        }
    }
    Ok(kept)
}

/// What is asked of some rows.
pub fn result_lines(
    alloc: Global,
    what: &What,
    group: Option<u8>,
    rows: &[Row],
) -> Result<Answer, Memory>
    ensures { IfOk result (λ lines. lines ≡ query.result_lines what.now group rows.now) }
{
    match what {
        What::All => row_lines(alloc, rows),
        What::Aggregates(aggregates) => match group {
            None => one_line(alloc, aggregates.as_slice(), rows),
            Some(column) => lines_of_groups(alloc, aggregates.as_slice(), column, rows),
        },
    }
}

fn row_lines(alloc: Global, rows: &[Row]) -> Result<Answer, Memory>
    ensures { IfOk result (λ lines. lines ≡ map (map order.cell_of) rows.now) }
{
    let mut lines = List::new(alloc);
    for row in rows {
        lines.push(row_cells(alloc, row.as_slice())?)?;
    }
    Ok(lines)
}

fn row_cells(alloc: Global, values: &[Value]) -> Result<CellList, Memory>
    ensures { IfOk result (λ cells. cells ≡ map order.cell_of values.now) }
{
    let mut cells = List::new(alloc);
    for value in values {
        cells.push(cell_of(alloc, value)?)?;
    }
    Ok(cells)
}

fn cell_of(alloc: Global, value: &Value) -> Result<Cell, Memory>
    ensures { IfOk result (λ cell. cell ≡ order.cell_of value.now) }
{
    match value {
        Value::Null => Ok(Cell::Null),
        Value::Int(number) => Ok(Cell::Number(i128::from(*number))),
        Value::Text(text) => Ok(Cell::Text(text.copy(alloc)?)),
    }
}

fn one_line(alloc: Global, aggregates: &[Aggregate], rows: &[Row]) -> Result<Answer, Memory>
    ensures { IfOk result (λ lines. lines ≡ aggregate_cells aggregates.now rows.now ∷ []) }
{
    let mut lines = List::new(alloc);
    lines.push(cells_of(alloc, List::new(alloc), aggregates, rows)?)?;
    Ok(lines)
}

/// Some cells, and behind them one for each aggregate.
fn cells_of(
    alloc: Global,
    mut cells: CellList,
    aggregates: &[Aggregate],
    rows: &[Row],
) -> Result<CellList, Memory>
    ensures { IfOk result (λ all. all ≡ cells ++ aggregate_cells aggregates.now rows.now) }
{
    for aggregate in aggregates {
        cells.push(aggregate_cell(alloc, *aggregate, rows)?)?;
    }
    Ok(cells)
}

fn aggregate_cell(alloc: Global, aggregate: Aggregate, rows: &[Row]) -> Result<Cell, Memory>
    ensures { IfOk result (λ cell. cell ≡ query.aggregate_cell rows.now aggregate) }
{
    match aggregate {
        Aggregate::Count => Ok(Cell::Number(rows.len() as i128)),
        Aggregate::Sum(column) => {
            let values = values_in(alloc, column, rows)?;
            Ok(sum_cell(values.as_slice()))
        }
        Aggregate::Min(column) => {
            let values = values_in(alloc, column, rows)?;
            chosen_cell(alloc, Extreme::Least, values.as_slice())
        }
        Aggregate::Max(column) => {
            let values = values_in(alloc, column, rows)?;
            chosen_cell(alloc, Extreme::Greatest, values.as_slice())
        }
    }
}

/// The value of a row in a column, which counts from 1.
fn value_in(alloc: Global, column: u8, row: &[Value]) -> Result<Value, Memory>
    ensures { IfOk result (λ value. value ≡ query.value_in column row.now) }
{
    match row.get(usize::from(column).saturating_sub(1)) {
        Some(value) => value.copy(alloc),
        None => Ok(Value::Null),
    }
}

/// The values of a column that are there.
fn values_in(alloc: Global, column: u8, rows: &[Row]) -> Result<List<Value>, Memory>
    ensures { IfOk result (λ values. values ≡ query.values_in column rows.now) }
{
    let mut values = List::new(alloc);
    for row in rows {
        let value = value_in(alloc, column, row.as_slice())?;
        if !is_null(&value) {
            values.push(value)?;
        }
    }
    Ok(values)
}

fn sum_cell(values: &[Value]) -> Cell
    ensures { result ≡ query.sum_cell values.now }
{
    if values.is_empty() {
        Cell::Null
    } else {
        Cell::Number(total(values))
    }
}

fn total(values: &[Value]) -> i128
    ensures { result ≡ query.total values.now }
{
    let mut left = values.len();
    let mut sum: i128 = 0;
    while left > 0 {
        left -= 1;
        sum += i128::from(number_of(&values[left]));
    }
    sum
}

fn number_of(value: &Value) -> i64
    ensures { result ≡ query.number_of value.now }
{
    match value {
        Value::Int(number) => *number,
        Value::Null | Value::Text(_) => 0,
    }
}

/// Whether a value comes before another where this one is asked for.
fn is_better(extreme: Extreme, value: &Value, best: &Value) -> bool
    ensures { result ≡ prefers extreme (order.value_cmp value.now best.now) }
{
    match extreme {
        Extreme::Least => compare(value, best).is_lt(),
        Extreme::Greatest => compare(value, best).is_gt(),
    }
}

fn chosen_cell(alloc: Global, extreme: Extreme, values: &[Value]) -> Result<Cell, Memory>
    ensures { IfOk result (λ cell. cell ≡ query.chosen_cell (prefers extreme) values.now) }
{
    match values.split_first() {
        Some((first, others)) => cell_of(alloc, chosen(extreme, first, others)),
        None => Ok(Cell::Null),
    }
}

fn chosen<'a>(extreme: Extreme, first: &'a Value, others: &'a [Value]) -> &'a Value
    ensures { result.now ≡ query.chosen (prefers extreme) first.now others.now }
{
    let mut best = first;
    for value in others {
        if is_better(extreme, value, best) {
            best = value;
        }
    }
    best
}

/// The keys of the rows, each once, in their order.
fn keys_of(alloc: Global, column: u8, rows: &[Row]) -> Result<List<Value>, Memory>
    ensures { IfOk result (λ keys. keys ≡ query.keys_of column rows.now) }
{
    let mut left = rows.len();
    let mut keys = List::new(alloc);
    while left > 0 {
        left -= 1;
        let key = value_in(alloc, column, rows[left].as_slice())?;
        keys = with_key(key, keys)?;
    }
    Ok(keys)
}

/// Keys in their order with one more, where it is not there yet.
fn with_key(key: Value, keys: List<Value>) -> Result<List<Value>, Memory>
    ensures { IfOk result (λ more. more ≡ query.with_key key keys) }
{
    let mut more = keys.into_vec();
    match place_of(&key, more.as_slice()) {
        Some(place) => {
            more.insert(place, key)?;
            Ok(List::from_vec(more))
        }
        None => Ok(List::from_vec(more)),
    }
}

/// Where a key goes among keys in their order; none where it is one of them.
fn place_of(key: &Value, keys: &[Value]) -> Option<usize>
    ensures { result ≡ key_place key.now keys.now }
{
    for (place, other) in keys.iter().enumerate() {
        match compare(key, other) {
            Ordering::Less => return Some(place),
            Ordering::Equal => return None,
            Ordering::Greater => {}
        }
    }
    Some(keys.len())
}

/// The rows with a key.
fn with_the_key(alloc: Global, column: u8, key: &Value, rows: &[Row]) -> Result<RowList, Memory>
    ensures { IfOk result (λ those. those ≡ rows_with column key.now rows.now) }
{
    let mut those = List::new(alloc);
    for row in rows {
        let value = value_in(alloc, column, row.as_slice())?;
        if compare(&value, key).is_eq() {
            those.push(row.copy(alloc)?)?;
        }
    }
    Ok(those)
}

fn lines_of_groups(
    alloc: Global,
    aggregates: &[Aggregate],
    column: u8,
    rows: &[Row],
) -> Result<Answer, Memory>
    ensures { IfOk result (λ lines. lines ≡ group_lines aggregates.now column rows.now) }
{
    let keys = keys_of(alloc, column, rows)?;
    let mut lines = List::new(alloc);
    for key in keys.as_slice() {
        lines.push(line_of_group(alloc, aggregates, column, key, rows)?)?;
    }
    Ok(lines)
}

/// The key of a group, and what is asked of its rows.
fn line_of_group(
    alloc: Global,
    aggregates: &[Aggregate],
    column: u8,
    key: &Value,
    rows: &[Row],
) -> Result<CellList, Memory>
    ensures { IfOk result (λ line. line ≡ order.cell_of key.now ∷ aggregate_cells aggregates.now (rows_with column key.now rows.now)) }
{
    let those = with_the_key(alloc, column, key, rows)?;
    let mut line = List::new(alloc);
    line.push(cell_of(alloc, key)?)?;
    cells_of(alloc, line, aggregates, those.as_slice())
}
