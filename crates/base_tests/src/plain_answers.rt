use adg_base::answer::{Cell, CellList};
use adg_base::command::{Aggregate, Command, Condition, Op, Select, What};
use adg_base::list::List;
use adg_base::log::LogEntry;
use adg_base::memory::Memory;
use adg_base::number::{Obj, Pos, Scn, Txn};
use adg_base::row::Row;
use adg_base::text::Text;
use adg_base::value::{ColKind, Value};
use adg_base::vector::Vector;
use adg_model::plain::{PlainReply, plain_answer};
use std::alloc::Global;
use std::test::Fail;

/// A vector written short: transactions by their numbers, and slots of the first block of an
/// in-memory object that has one extent and a column of integers.
#[derive(Clone, Copy)]
enum Step {
    Create,
    Begin(u64),
    Put(u64, u8, i64),
    Delete(u64, u8),
    Undo(u64, u8),
    Commit(u64),
    Abort(u64),
    Pair(u64, u8, Option<i64>, Option<u8>),
    Widen,
    Plain,
    Drop,
}

/// Aggregates of an object whose columns are a number and a name.
#[derive(Clone, Copy)]
enum Sums {
    Count,
    Numbers,
    Names,
    SumOfNames,
    Grouped,
}

/// What is asked: the rows, aggregates of all rows or of those that meet a condition, groups by a
/// column, or another command. A name is one letter.
#[derive(Clone, Copy)]
enum Ask {
    Rows,
    Of(Sums),
    Where(u8, Op, i64),
    Named(u8, Op, u8),
    By(u8, Sums),
    Populate,
    Sync,
}

/// Two transactions set one row, and the one that wrote first commits last.
const COMMIT_POSITION: [(u64, Step); 7] = [
    (10, Step::Create),
    (11, Step::Begin(7)),
    (11, Step::Begin(8)),
    (12, Step::Put(7, 0, 1)),
    (13, Step::Put(8, 0, 2)),
    (14, Step::Commit(8)),
    (15, Step::Commit(7)),
];

/// Both changes of a transaction are taken back.
const UNDONE: [(u64, Step); 7] = [
    (10, Step::Create),
    (11, Step::Begin(7)),
    (11, Step::Put(7, 0, 1)),
    (11, Step::Put(7, 0, 2)),
    (11, Step::Undo(7, 0)),
    (11, Step::Undo(7, 0)),
    (11, Step::Commit(7)),
];

/// A transaction that does not commit.
const NOT_COMMITTED: [(u64, Step); 3] = [
    (10, Step::Create),
    (11, Step::Begin(7)),
    (11, Step::Put(7, 0, 5)),
];

/// Two threads set one row at one SCN.
const EQUAL_SCNS: [(u64, Step); 7] = [
    (10, Step::Create),
    (20, Step::Begin(7)),
    (20, Step::Put(7, 0, 1)),
    (20, Step::Commit(7)),
    (20, Step::Begin(8)),
    (20, Step::Put(8, 0, 2)),
    (20, Step::Commit(8)),
];

/// The worked log of docs/MEANING.md.
const TWO_THREADS: [(u64, Step); 17] = [
    (10, Step::Create),
    (20, Step::Begin(7)),
    (20, Step::Put(7, 0, 1)),
    (20, Step::Begin(8)),
    (20, Step::Put(8, 0, 2)),
    (20, Step::Commit(8)),
    (30, Step::Put(7, 1, 3)),
    (30, Step::Undo(7, 1)),
    (30, Step::Commit(7)),
    (40, Step::Begin(10)),
    (40, Step::Put(10, 1, 5)),
    (40, Step::Commit(10)),
    (40, Step::Begin(9)),
    (40, Step::Put(9, 1, 4)),
    (40, Step::Commit(9)),
    (50, Step::Begin(11)),
    (50, Step::Delete(11, 0)),
];

/// Rows are added and deleted, and the object gets a column, is no longer in-memory and is dropped.
const CHANGED_OBJECT: [(u64, Step); 14] = [
    (10, Step::Create),
    (11, Step::Begin(7)),
    (11, Step::Put(7, 0, 1)),
    (11, Step::Put(7, 1, 2)),
    (11, Step::Commit(7)),
    (12, Step::Begin(8)),
    (12, Step::Put(8, 2, 3)),
    (12, Step::Abort(8)),
    (13, Step::Begin(9)),
    (13, Step::Delete(9, 1)),
    (13, Step::Commit(9)),
    (14, Step::Widen),
    (15, Step::Plain),
    (16, Step::Drop),
];

/// Five rows of two columns, with a missing number and a missing name.
const GROUPS: [(u64, Step); 9] = [
    (10, Step::Create),
    (10, Step::Widen),
    (11, Step::Begin(7)),
    (11, Step::Pair(7, 0, Some(1), Some(b'a'))),
    (11, Step::Pair(7, 1, Some(2), Some(b'b'))),
    (11, Step::Pair(7, 2, Some(5), Some(b'a'))),
    (11, Step::Pair(7, 3, None, Some(b'b'))),
    (11, Step::Pair(7, 4, Some(7), None)),
    (11, Step::Commit(7)),
];

/// Sums beyond the range of a value, both ways.
const ENDS_OF_RANGES: [(u64, Step); 9] = [
    (10, Step::Create),
    (11, Step::Begin(7)),
    (11, Step::Put(7, 0, i64::MAX)),
    (11, Step::Put(7, 63, i64::MAX)),
    (11, Step::Commit(7)),
    (12, Step::Begin(8)),
    (12, Step::Put(8, 0, i64::MIN)),
    (12, Step::Put(8, 63, i64::MIN)),
    (12, Step::Commit(8)),
];

fn named(alloc: Global, letter: u8) -> Result<Value, Memory> {
    match Text::new(alloc, &[letter]) {
        Ok(text) => Ok(Value::Text(text)),
        Err(_) => Err(Memory),
    }
}

fn row_of(alloc: Global, number: Option<i64>, name: Option<u8>) -> Result<Row, Memory> {
    let mut values = Vec::new(alloc);
    match number {
        Some(number) => values.push(Value::Int(number))?,
        None => values.push(Value::Null)?,
    }
    match name {
        Some(name) => values.push(named(alloc, name)?)?,
        None => values.push(Value::Null)?,
    }
    Row::from_vec(alloc, values)
}

fn vector_of(alloc: Global, step: Step, obj: Obj, one: Txn) -> Result<Vector, Memory> {
    let block = 0;
    let txn_of = |number: u64| Txn::new(number).unwrap_or(one);
    let vector = match step {
        Step::Create => Vector::Create {
            obj,
            extents: 1,
            flag: true,
            columns: List::from_slice(alloc, [ColKind::Int].as_slice())?,
        },
        Step::Begin(txn) => Vector::Begin { txn: txn_of(txn) },
        Step::Put(txn, slot, number) => {
            let values = vec![in alloc; Value::Int(number)]?;
            Vector::Put {
                txn: txn_of(txn),
                obj,
                block,
                slot,
                row: Row::from_vec(alloc, values)?,
            }
        }
        Step::Pair(txn, slot, number, name) => Vector::Put {
            txn: txn_of(txn),
            obj,
            block,
            slot,
            row: row_of(alloc, number, name)?,
        },
        Step::Delete(txn, slot) => Vector::Delete {
            txn: txn_of(txn),
            obj,
            block,
            slot,
        },
        Step::Undo(txn, slot) => Vector::Undo {
            txn: txn_of(txn),
            obj,
            block,
            slot,
        },
        Step::Commit(txn) => Vector::Commit {
            txn: txn_of(txn),
            flag: true,
        },
        Step::Abort(txn) => Vector::Abort { txn: txn_of(txn) },
        Step::Widen => Vector::AddColumn {
            obj,
            kind: ColKind::Text,
        },
        Step::Plain => Vector::NoInMemory { obj },
        Step::Drop => Vector::DropObject { obj },
    };
    Ok(vector)
}

/// The log of these vectors, each at its SCN.
fn log_of(
    alloc: Global,
    steps: &[(u64, Step)],
    obj: Obj,
    one: Txn,
) -> Result<Vec<LogEntry>, Memory> {
    let mut log = Vec::new(alloc);
    for (scn, step) in steps {
        log.push(LogEntry {
            pos: Pos::new(log.len() as u64),
            scn: Scn::new(*scn).unwrap_or(Scn::ZERO),
            thread: 1,
            number: 1,
            index: 1,
            vector: vector_of(alloc, *step, obj, one)?,
        })?;
    }
    Ok(log)
}

fn condition(column: u8, op: Op, literal: Value) -> Condition {
    Condition {
        column,
        op,
        literal,
    }
}

fn aggregates_of(alloc: Global, sums: Sums) -> Result<What, Memory> {
    use Aggregate::{Count, Max, Min, Sum};

    let aggregates = match sums {
        Sums::Count => vec![in alloc; Count]?,
        Sums::Numbers => vec![in alloc; Count, Sum(1), Min(1), Max(1)]?,
        Sums::Names => vec![in alloc; Min(2), Max(2)]?,
        Sums::SumOfNames => vec![in alloc; Sum(2)]?,
        Sums::Grouped => vec![in alloc; Count, Sum(1), Max(1)]?,
    };
    Ok(What::Aggregates(List::from_vec(aggregates)))
}

fn command_of(alloc: Global, ask: Ask, obj: Obj) -> Result<Command, Memory> {
    let mut conditions = List::new(alloc);
    let mut group = None;
    let what = match ask {
        Ask::Rows => What::All,
        Ask::Of(sums) => aggregates_of(alloc, sums)?,
        Ask::Where(column, op, number) => {
            conditions.push(condition(column, op, Value::Int(number)))?;
            What::All
        }
        Ask::Named(column, op, name) => {
            conditions.push(condition(1, Op::Gt, Value::Int(0)))?;
            conditions.push(condition(column, op, named(alloc, name)?))?;
            aggregates_of(alloc, Sums::Count)?
        }
        Ask::By(column, sums) => {
            group = Some(column);
            aggregates_of(alloc, sums)?
        }
        Ask::Populate => return Ok(Command::Populate { obj }),
        Ask::Sync => return Ok(Command::Sync),
    };
    Ok(Command::Select(Select {
        obj,
        what,
        conditions,
        group,
    }))
}

fn push_cell(alloc: Global, text: &mut String, cell: &Cell) -> Result<(), Memory> {
    match cell {
        Cell::Null => text.push_str("NULL")?,
        Cell::Number(number) => text.push_str(format!(in alloc; "{number}")?.as_str())?,
        Cell::Text(name) => text.push_str(str::from_utf8(name.as_bytes()).unwrap_or("?"))?,
    }
    Ok(())
}

fn push_line(alloc: Global, text: &mut String, line: &CellList) -> Result<(), Memory> {
    for cell in line.as_slice() {
        push_cell(alloc, text, cell)?;
        text.push_str("|")?;
    }
    text.push_str(";")?;
    Ok(())
}

/// A reply as a text: of rows the cells, each before a bar, the lines, each before a semicolon, and
/// the number of rows before the filter.
fn shown(alloc: Global, reply: &PlainReply) -> Result<String, Memory> {
    let PlainReply::Rows(answer, before) = reply else {
        return Ok(format!(in alloc; "{reply:?}")?);
    };
    let mut text = String::new(alloc);
    for line in answer.as_slice() {
        push_line(alloc, &mut text, line)?;
    }
    text.push_str(format!(in alloc; "{before}")?.as_str())?;
    Ok(text)
}

fn tell(alloc: Global, steps: &[(u64, Step)], ask: Ask, q: u64) -> Result<String, Memory> {
    let (Some(obj), Some(one), Some(q)) = (Obj::new(1), Txn::new(1), Scn::new(q)) else {
        return Ok(String::new(alloc));
    };
    let log = log_of(alloc, steps, obj, one)?;
    let command = command_of(alloc, ask, obj)?;
    shown(alloc, &plain_answer(alloc, log.as_slice(), &command, q)?)
}

#[test]
fn answers_the_worked_logs(rt: HostRuntime) -> Result<(), Fail> {
    use Ask::{By, Named, Of, Populate, Rows, Sync, Where};
    use Sums::{Count, Grouped, Names, Numbers, SumOfNames};

    let cases = [
        ("commit 8", COMMIT_POSITION.as_slice(), 14, Rows, "2|;1"),
        ("commit 7", COMMIT_POSITION.as_slice(), 15, Rows, "1|;1"),
        ("undone", UNDONE.as_slice(), 11, Rows, "0"),
        (
            "not committed",
            NOT_COMMITTED.as_slice(),
            11,
            Of(Count),
            "0|;0",
        ),
        ("equal SCNs", EQUAL_SCNS.as_slice(), 20, Rows, "2|;1"),
        ("before all", TWO_THREADS.as_slice(), 9, Rows, "NoTable"),
        ("at 10", TWO_THREADS.as_slice(), 10, Rows, "0"),
        ("at 20", TWO_THREADS.as_slice(), 20, Rows, "2|;1"),
        ("at 30", TWO_THREADS.as_slice(), 30, Rows, "1|;1"),
        ("at 40", TWO_THREADS.as_slice(), 40, Rows, "1|;4|;2"),
        (
            "at 50",
            TWO_THREADS.as_slice(),
            50,
            Where(1, Op::Ne, 4),
            "1|;2",
        ),
        (
            "equal",
            TWO_THREADS.as_slice(),
            50,
            Where(1, Op::Eq, 4),
            "4|;2",
        ),
        (
            "greater",
            TWO_THREADS.as_slice(),
            50,
            Where(1, Op::Gt, 1),
            "4|;2",
        ),
        (
            "less",
            CHANGED_OBJECT.as_slice(),
            12,
            Where(1, Op::Lt, 2),
            "1|;2",
        ),
        (
            "at most",
            CHANGED_OBJECT.as_slice(),
            12,
            Where(1, Op::Le, 2),
            "1|;2|;2",
        ),
        (
            "at least",
            CHANGED_OBJECT.as_slice(),
            12,
            Where(1, Op::Ge, 2),
            "2|;2",
        ),
        ("deleted", CHANGED_OBJECT.as_slice(), 13, Of(Count), "1|;1"),
        (
            "no column",
            CHANGED_OBJECT.as_slice(),
            13,
            Where(2, Op::Eq, 1),
            "NoColumn",
        ),
        (
            "no text",
            CHANGED_OBJECT.as_slice(),
            13,
            Named(1, Op::Eq, b'a'),
            "WrongType",
        ),
        (
            "a sum of texts",
            CHANGED_OBJECT.as_slice(),
            14,
            Of(SumOfNames),
            "WrongType",
        ),
        (
            "the new column",
            CHANGED_OBJECT.as_slice(),
            14,
            Rows,
            "1|NULL|;1",
        ),
        (
            "no value there",
            CHANGED_OBJECT.as_slice(),
            14,
            Named(2, Op::Ne, b'a'),
            "0|;1",
        ),
        (
            "in-memory",
            CHANGED_OBJECT.as_slice(),
            14,
            Populate,
            "Plain",
        ),
        (
            "no longer",
            CHANGED_OBJECT.as_slice(),
            15,
            Populate,
            "NotInMemory",
        ),
        ("dropped", CHANGED_OBJECT.as_slice(), 16, Rows, "NoTable"),
        (
            "and not populated",
            CHANGED_OBJECT.as_slice(),
            16,
            Populate,
            "NoTable",
        ),
        (
            "another command",
            CHANGED_OBJECT.as_slice(),
            11,
            Sync,
            "Plain",
        ),
        (
            "of no rows",
            CHANGED_OBJECT.as_slice(),
            10,
            Of(Numbers),
            "0|NULL|NULL|NULL|;0",
        ),
        (
            "no groups",
            CHANGED_OBJECT.as_slice(),
            10,
            By(1, Numbers),
            "0",
        ),
        (
            "of all rows",
            GROUPS.as_slice(),
            11,
            Of(Numbers),
            "5|15|1|7|;5",
        ),
        ("of texts", GROUPS.as_slice(), 11, Of(Names), "a|b|;5"),
        (
            "no b",
            GROUPS.as_slice(),
            11,
            Named(2, Op::Ne, b'b'),
            "2|;5",
        ),
        (
            "groups",
            GROUPS.as_slice(),
            11,
            By(2, Grouped),
            "NULL|1|7|7|;a|2|6|5|;b|2|2|2|;5",
        ),
        (
            "groups by numbers",
            GROUPS.as_slice(),
            11,
            By(1, Count),
            "NULL|1|;1|1|;2|1|;5|1|;7|1|;5",
        ),
        (
            "up",
            ENDS_OF_RANGES.as_slice(),
            11,
            Of(Numbers),
            "2|18446744073709551614|9223372036854775807|9223372036854775807|;2",
        ),
        (
            "down",
            ENDS_OF_RANGES.as_slice(),
            12,
            Of(Numbers),
            "2|-18446744073709551616|-9223372036854775808|-9223372036854775808|;2",
        ),
    ];
    for (name, log, q, ask, want) in cases {
        let told = tell(rt.alloc(), log, ask, q)?;
        assert_eq!(rt; told.as_str(), want, "{name}");
    }
    Ok(())
}
