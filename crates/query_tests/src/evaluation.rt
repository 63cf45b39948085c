ghost use Rattle.std.specs.Prelude.{◌≡◌, IfOk};

use adg_base::answer::{Answer, Cell, CellList};
use adg_base::command::{Aggregate, Command, Condition, Select, What};
use adg_base::definition::Definition;
use adg_base::list::{Duplicate, List};
use adg_base::log::LogEntry;
use adg_base::memory::Memory;
use adg_base::number::{Obj, Pos, Scn, Txn};
use adg_base::row::{Row, RowList};
use adg_base::text::Text;
use adg_base::value::{ColKind, Value};
use adg_base::vector::Vector;
use adg_model::plain::{PlainReply, plain_answer};
use scan_eval::accumulator::Accumulator;
use scan_eval::admission::QueryRefused;
use scan_eval::select::select;
use std::alloc::Global;
use std::process::Abort;
use std::test::Fail;
use tables::{Ask, Case, Rows, Short, Sums, Test};

mod tables;

fn value_of(alloc: Global, value: Short) -> Result<Value, Memory> {
    match value {
        Short::Absent | Short::Null => Ok(Value::Null),
        Short::Int(number) => Ok(Value::Int(number)),
        Short::Text(text) => match Text::new(alloc, text.as_bytes()) {
            Ok(text) => Ok(Value::Text(text)),
            Err(_) => Err(Memory),
        },
    }
}

fn row_of(alloc: Global, number: Short, name: Short) -> Result<Row, Memory> {
    let mut values = vec![in alloc; value_of(alloc, number)?]?;
    match name {
        Short::Absent => {}
        _ => values.push(value_of(alloc, name)?)?,
    }
    Row::from_vec(alloc, values)
}

fn list_of(alloc: Global, pairs: &[(Short, Short)]) -> Result<RowList, Memory> {
    let mut rows = List::new(alloc);
    for (number, name) in pairs {
        rows.push(row_of(alloc, *number, *name)?)?;
    }
    Ok(rows)
}

fn rows_of(alloc: Global, rows: Rows) -> Result<RowList, Memory> {
    match rows {
        Rows::Empty => Ok(List::new(alloc)),
        Rows::Five => list_of(alloc, tables::FIVE.as_slice()),
        Rows::Mixed => list_of(alloc, tables::MIXED.as_slice()),
        Rows::Greatest => list_of(alloc, tables::GREATEST.as_slice()),
        Rows::Least => list_of(alloc, tables::LEAST.as_slice()),
        Rows::Nulls => list_of(alloc, tables::NULLS.as_slice()),
        Rows::Narrow => list_of(alloc, tables::NARROW.as_slice()),
        Rows::Shared => list_of(alloc, tables::SHARED.as_slice()),
    }
}

/// Rows of 150 keys, each in two rows, not in their order. The number and the name of a row are
/// the same.
fn many_rows(alloc: Global) -> Result<RowList, Memory> {
    let mut rows = List::new(alloc);
    for index in 0..300_u32 {
        let number = 100 + index * 37 % 150;
        let name = format!(in alloc; "{number}")?;
        let name = match Text::new(alloc, name.as_bytes()) {
            Ok(name) => Value::Text(name),
            Err(_) => return Err(Memory),
        };
        let values = vec![in alloc; Value::Int(i64::from(number)), name]?;
        rows.push(Row::from_vec(alloc, values)?)?;
    }
    Ok(rows)
}

/// The groups of these rows, by either column.
fn many_lines(alloc: Global) -> Result<String, Memory> {
    let mut lines = String::new(alloc);
    for number in 100..250 {
        lines.push_str(format!(in alloc; "{number}|2|;")?.as_str())?;
    }
    Ok(lines)
}

fn aggregates_of(alloc: Global, sums: Sums) -> Result<What, Memory> {
    use Aggregate::{Count, Max, Min, Sum};

    let aggregates = match sums {
        Sums::Counted => vec![in alloc; Count]?,
        Sums::Numbers => vec![in alloc; Count, Sum(1), Min(1), Max(1)]?,
        Sums::Names => vec![in alloc; Count, Min(2), Max(2)]?,
        Sums::NamesSummed => vec![in alloc; Sum(2)]?,
        Sums::Third => vec![in alloc; Min(3)]?,
        Sums::Fourth => vec![in alloc; Sum(2), Sum(4)]?,
    };
    Ok(What::Aggregates(List::from_vec(aggregates)))
}

fn condition_of(alloc: Global, test: Test) -> Result<Condition, Memory> {
    let (column, op, literal) = test;
    Ok(Condition {
        column,
        op,
        literal: value_of(alloc, literal)?,
    })
}

fn query_of(alloc: Global, ask: Ask, obj: Obj) -> Result<Select, Memory> {
    let mut conditions = List::new(alloc);
    let mut group = None;
    let what = match ask {
        Ask::All => What::All,
        Ask::Of(sums) => aggregates_of(alloc, sums)?,
        Ask::By(column, sums) => {
            group = Some(column);
            aggregates_of(alloc, sums)?
        }
        Ask::Where(test) => {
            conditions.push(condition_of(alloc, test)?)?;
            What::All
        }
        Ask::WhereBy(test, column, sums) => {
            conditions.push(condition_of(alloc, test)?)?;
            group = Some(column);
            aggregates_of(alloc, sums)?
        }
        Ask::Both(first, second, sums) => {
            conditions.push(condition_of(alloc, first)?)?;
            conditions.push(condition_of(alloc, second)?)?;
            aggregates_of(alloc, sums)?
        }
    };
    Ok(Select {
        obj,
        what,
        conditions,
        group,
    })
}

fn push_cell(alloc: Global, text: &mut String, cell: &Cell) -> Result<(), Memory> {
    match cell {
        Cell::Null => text.push_str("NULL")?,
        Cell::Number(number) => text.push_str(format!(in alloc; "{number}")?.as_str())?,
        Cell::Text(name) => text.push_str(str::from_utf8(name.as_bytes()).unwrap_or("?"))?,
    }
    Ok(())
}

fn push_line(alloc: Global, text: &mut String, line: &CellList) -> Result<(), Memory> {
    for cell in line.as_slice() {
        push_cell(alloc, text, cell)?;
        text.push_str("|")?;
    }
    text.push_str(";")?;
    Ok(())
}

fn shown(alloc: Global, answer: &Answer) -> Result<String, Memory> {
    let mut text = String::new(alloc);
    for line in answer.as_slice() {
        push_line(alloc, &mut text, line)?;
    }
    Ok(text)
}

fn told(alloc: Global, answered: Result<Answer, QueryRefused>) -> Result<String, Memory> {
    match answered {
        Ok(answer) => shown(alloc, &answer),
        Err(refused) => Ok(format!(in alloc; "{refused:?}")?),
    }
}

/// Of a number and a name.
fn definition(obj: Obj) -> Definition {
    let mut kinds = [ColKind::Int; 16];
    kinds[1] = ColKind::Text;
    Definition {
        obj,
        extents: 1,
        flag: true,
        width: 2,
        kinds,
    }
}

/// An accumulator with these rows.
fn part_of(
    alloc: Global,
    rows: &[Row],
    query: &Select,
    def: &Definition,
) -> Result<Accumulator, QueryRefused>
    ensures { IfOk result (λ part. part ≡ record { select = query.now; rows = rows.now }) }
{
    let mut part = Accumulator::new(alloc, query, def)?;
    for row in rows {
        part.add(alloc, row)?;
    }
    Ok(part)
}

/// The answer of two accumulators, the one of the rows before an index and the other of the rest.
fn joined(
    alloc: Global,
    rows: &[Row],
    at: usize,
    query: &Select,
    def: &Definition,
) -> Result<Answer, QueryRefused> {
    let at = at.min(rows.len());
    let mut front = part_of(alloc, &rows[..at], query, def)?;
    front.join(alloc, part_of(alloc, &rows[at..], query, def)?)?;
    Ok(front.take_answer(alloc)?)
}

/// The vectors that give an object these rows.
fn vectors_of(alloc: Global, rows: &[Row], obj: Obj, txn: Txn) -> Result<Vec<Vector>, Memory> {
    let columns = List::from_slice(alloc, [ColKind::Int, ColKind::Text].as_slice())?;
    let create = Vector::Create {
        obj,
        extents: 1,
        flag: true,
        columns,
    };
    let mut vectors = vec![in alloc; create, Vector::Begin { txn }]?;
    for (index, row) in rows.iter().enumerate() {
        vectors.push(Vector::Put {
            txn,
            obj,
            block: u16::try_from(index / 64).unwrap_or(0),
            slot: u8::try_from(index % 64).unwrap_or(0),
            row: row.copy(alloc)?,
        })?;
    }
    vectors.push(Vector::Commit { txn, flag: true })?;
    Ok(vectors)
}

fn log_of(alloc: Global, rows: &[Row], obj: Obj, scn: Scn) -> Result<Vec<LogEntry>, Fail> {
    let txn = Txn::new(7).ok_or("txn")?;
    let mut log = Vec::new(alloc);
    for vector in vectors_of(alloc, rows, obj, txn)? {
        log.push(LogEntry {
            pos: Pos::new(log.len() as u64),
            scn,
            thread: 1,
            number: 1,
            index: 1,
            vector,
        })?;
    }
    Ok(log)
}

/// The reply of the plain program over a log that gives the object these rows.
fn plainly(alloc: Global, rows: &[Row], query: Select) -> Result<String, Fail> {
    let scn = Scn::new(11).ok_or("scn")?;
    let log = log_of(alloc, rows, query.obj, scn)?;
    match plain_answer(alloc, log.as_slice(), &Command::Select(query), scn)? {
        PlainReply::Rows(answer, count) if count == rows.len() as u64 => Ok(shown(alloc, &answer)?),
        other => Ok(format!(in alloc; "{other:?}")?),
    }
}

/// That a case has its answer.
fn assert_answer(rt: &impl Abort, alloc: Global, case: &Case) -> Result<(), Fail> {
    let (name, rows, ask, want) = *case;
    let rows = rows_of(alloc, rows)?;
    assert_answered(rt, alloc, name, &rows, ask, want)
}

/// That `select`, two accumulators that share the rows, and the plain program give this answer.
fn assert_answered(
    rt: &impl Abort,
    alloc: Global,
    name: &str,
    rows: &RowList,
    ask: Ask,
    want: &str,
) -> Result<(), Fail> {
    let obj = Obj::new(1).ok_or("obj")?;
    let def = definition(obj);
    let query = query_of(alloc, ask, obj)?;
    let selected = told(alloc, select(alloc, rows, &query, &def))?;
    assert_eq!(rt; selected.as_str(), want, "{name}");
    for at in 0..=rows.len() {
        let both = told(alloc, joined(alloc, rows.as_slice(), at, &query, &def))?;
        assert_eq!(rt; both.as_str(), want, "{name}, joined at {at}");
    }
    let plain = plainly(alloc, rows.as_slice(), query)?;
    assert_eq!(rt; plain.as_str(), want, "{name}, plainly");
    Ok(())
}

#[test]
fn meets_conditions(rt: HostRuntime) -> Result<(), Fail> {
    for case in &tables::CONDITIONS {
        assert_answer(&rt, rt.alloc(), case)?;
    }
    Ok(())
}

#[test]
fn sums_up(rt: HostRuntime) -> Result<(), Fail> {
    for case in &tables::AGGREGATES {
        assert_answer(&rt, rt.alloc(), case)?;
    }
    Ok(())
}

#[test]
fn groups(rt: HostRuntime) -> Result<(), Fail> {
    for case in &tables::GROUPS {
        assert_answer(&rt, rt.alloc(), case)?;
    }
    Ok(())
}

#[test]
fn groups_many(rt: HostRuntime) -> Result<(), Fail> {
    let alloc = rt.alloc();
    let rows = many_rows(alloc)?;
    let want = many_lines(alloc)?;
    for column in [1, 2] {
        let ask = Ask::By(column, Sums::Counted);
        assert_answered(&rt, alloc, "many keys", &rows, ask, want.as_str())?;
    }
    Ok(())
}

#[test]
fn refuses_in_order(rt: HostRuntime) -> Result<(), Fail> {
    for case in &tables::REFUSALS {
        assert_answer(&rt, rt.alloc(), case)?;
    }
    Ok(())
}
