//! The plain program: what a log and a command mean, computed by the definitions one after another
//! in one thread. It walks the whole log again for each commit and all changes again for each
//! address, on purpose: it is what faster programs are compared with, in tests and audits, and so
//! its form is the one that is easiest to believe.

ghost use Rattle.std.specs.Prelude.{◌≡◌, IfOk};
ghost use Rattle.adg_model.specs.Plain.{plain_reply, populate_reply, select_reply};
ghost use Rattle.adg_model.specs.Database.{database, rows_at, table_at};
ghost use Rattle.adg_model.specs.Query.{answer_of, row_count};

use crate::admission::{has_columns, has_types};
use crate::plain::lines::{kept, result_lines};
use crate::plain::meaning::rows_of;
use crate::plain::walk::{PlainTable, committed, entries_upto, table};
use adg_base::answer::Answer;
use adg_base::command::{Command, Select};
use adg_base::log::LogEntry;
use adg_base::memory::Memory;
use adg_base::number::{Obj, Scn};
use std::alloc::Global;

mod lines;
mod meaning;
mod walk;

/// What the plain program says of a command.
#[derive(Debug, Drop)]
pub enum PlainReply {
    /// The answer of a query, and how many rows its object has before the filter.
    Rows(Answer, u64),
    NoTable,
    NotInMemory,
    NoColumn,
    WrongType,
    /// The reply is left to the caller: the command asks nothing of the rows, or it is a population
    /// of an in-memory object.
    Plain,
}

/// The reply to a command over the entries of a log, at an SCN.
pub fn plain_answer(
    alloc: Global,
    entries: &[LogEntry],
    command: &Command,
    q: Scn,
) -> Result<PlainReply, Memory>
    ensures { IfOk result (λ reply. reply ≡ plain_reply entries.now command.now q) }
{
    match command {
        Command::Select(select) => answer(alloc, entries, select, q),
        Command::Populate { obj } => populated(alloc, entries, *obj, q),
        Command::Sync | Command::ShowScn | Command::Abort => Ok(PlainReply::Plain),
    }
}

/// The reply to a SELECT.
fn answer(
    alloc: Global,
    entries: &[LogEntry],
    select: &Select,
    q: Scn,
) -> Result<PlainReply, Memory>
    ensures { IfOk result (λ reply. reply ≡ select_reply (rows_at entries.now q) select.now (table_at entries.now q select.now.obj)) }
{
    let entries = entries_upto(alloc, entries, q)?;
    let Some(table) = table(alloc, entries.as_slice(), select.obj)? else {
        return Ok(PlainReply::NoTable);
    };
    if !has_columns(select, &table) {
        return Ok(PlainReply::NoColumn);
    }
    if !has_types(select, &table) {
        return Ok(PlainReply::WrongType);
    }
    selected(alloc, entries.as_slice(), select, &table)
}

/// The answer over the rows of an object with this definition, after some entries.
fn selected(
    alloc: Global,
    entries: &[LogEntry],
    select: &Select,
    table: &PlainTable,
) -> Result<PlainReply, Memory>
    ensures { let rows = (database entries.now).rows in IfOk result (λ reply. reply ≡ PlainReply.Rows (answer_of rows select.now table.now) (row_count rows select.now.obj table.now)) }
{
    let changes = committed(alloc, entries)?;
    let rows = rows_of(alloc, changes.as_slice(), select.obj, table)?;
    let kept = kept(alloc, rows.as_slice(), select.conditions.as_slice())?;
    let lines = result_lines(alloc, &select.what, select.group, kept.as_slice())?;
    Ok(PlainReply::Rows(lines, rows.len() as u64))
}

/// The reply to a POPULATE.
fn populated(alloc: Global, entries: &[LogEntry], obj: Obj, q: Scn) -> Result<PlainReply, Memory>
    ensures { IfOk result (λ reply. reply ≡ populate_reply (table_at entries.now q obj)) }
{
    let entries = entries_upto(alloc, entries, q)?;
    match table(alloc, entries.as_slice(), obj)? {
        None => Ok(PlainReply::NoTable),
        Some(table) if table.flag() => Ok(PlainReply::Plain),
        Some(_) => Ok(PlainReply::NotInMemory),
    }
}
