//! Queries.

ghost use Rattle.std.specs.Prelude.{◌≡◌};
ghost use Rattle.adg_model.specs.Command.{IsSelect};
ghost use Rattle.query_text.specs.Stopping.{ReadsAll};
ghost use Rattle.query_text.specs.Parts.{IsTable, table_tail_bytes, AsksRows, AsksSums, query_bytes};

use crate::aggregate::aggregates_of;
use crate::fault::Fault;
use crate::number::object_of;
use crate::tail::tail_of;
use crate::word::{behind_byte, behind_word};
use adg_base::command::{ConditionList, Select, What};
use adg_base::list::List;
use adg_base::number::Obj;
use std::alloc::Global;

/// A table, and what stands behind it.
#[derive(Debug, Drop)]
struct Table {
    obj: Obj,
    conditions: ConditionList,
    group: Option<u8>,
}

/// The table that the bytes spell from its number on, all of them.
fn table_of(alloc: Global, bytes: &[u8], grouped: bool) -> Result<Table, Fault>
    ensures { ReadsAll (λ t. (t.obj, (t.conditions, t.group))) (IsTable grouped) table_tail_bytes bytes.now result }
{
    let (obj, rest) = object_of(bytes)?;
    let (conditions, group) = tail_of(alloc, rest, grouped)?;
    match Obj::new(obj) {
        Some(obj) => Ok(Table {
            obj,
            conditions: List::from_vec(conditions),
            group,
        }),
        None => Err(Fault::Stopped { left: bytes.len() }),
    }
}

fn select(what: What, table: Table) -> Select
    ensures { result ≡ record { obj = table.obj; what = what; conditions = table.conditions; group = table.group } }
{
    let Table {
        obj,
        conditions,
        group,
    } = table;
    Select {
        obj,
        what,
        conditions,
        group,
    }
}

/// The query of all rows that the bytes spell, from the star on.
fn rows_of(alloc: Global, bytes: &[u8]) -> Result<Select, Fault>
    ensures { ReadsAll (λ s. s) AsksRows query_bytes bytes.now result }
{
    let rest = behind_word(b"* FROM t", bytes)?;
    let table = table_of(alloc, rest, false)?;
    Ok(select(What::All, table))
}

/// The query of aggregates that the bytes spell, from the first of them on.
fn sums_of(alloc: Global, bytes: &[u8]) -> Result<Select, Fault>
    ensures { ReadsAll (λ s. s) AsksSums query_bytes bytes.now result }
{
    let (aggregates, rest) = aggregates_of(alloc, bytes)?;
    let table = table_of(alloc, rest, true)?;
    Ok(select(What::Aggregates(List::from_vec(aggregates)), table))
}

/// The query that the bytes spell, from what it asks for on.
pub fn select_of(alloc: Global, bytes: &[u8]) -> Result<Select, Fault>
    ensures { ReadsAll (λ s. s) IsSelect query_bytes bytes.now result }
{
    match behind_byte(b'*', bytes) {
        Some(_) => rows_of(alloc, bytes),
        None => sums_of(alloc, bytes),
    }
}
