use adg_base::command::{Aggregate, Command, Condition, ConditionList, Op, Select, What};
use adg_base::list::{Bytes, List};
use adg_base::number::Obj;
use adg_base::value::Value;
use query_text::print::print_command;
use query_text::read::read_command;
use query_text::refused::{PrintRefused, TextFault};
use std::alloc::Global;
use std::test::Fail;

/// Texts that are no command, and the longest part in front of each that a command begins with.
static WRONG: [(&str, &str); 58] = [
    ("", ""),
    ("?", ""),
    ("select * FROM t1", ""),
    ("SELECT", "SELECT"),
    ("SELECT ", "SELECT "),
    ("SELECT  * FROM t1", "SELECT "),
    ("Sync", "S"),
    ("SYNC ", "SYNC"),
    ("SYNCH", "SYNC"),
    ("SHOW SC", "SHOW SC"),
    ("SHOW  SCN", "SHOW "),
    ("ABORT\n", "ABORT"),
    ("POPULATE", "POPULATE"),
    ("POPULATE t", "POPULATE t"),
    ("POPULATE t0", "POPULATE t"),
    ("POPULATE t65536", "POPULATE t6553"),
    ("POPULATE t7x", "POPULATE t7"),
    ("POPULATE T7", "POPULATE "),
    ("SELECT * FROM t", "SELECT * FROM t"),
    ("SELECT * FROM t0", "SELECT * FROM t"),
    ("SELECT COUNT FROM t0", "SELECT COUNT FROM t"),
    ("SELECT * FROM t01", "SELECT * FROM t"),
    ("SELECT * FROM t65536", "SELECT * FROM t6553"),
    ("SELECT * FROM t1 ", "SELECT * FROM t1 "),
    ("SELECT * FROM t1;", "SELECT * FROM t1"),
    ("SELECT *, ", "SELECT *"),
    ("SELECT COUNT, ", "SELECT COUNT, "),
    ("SELECT COUNT,", "SELECT COUNT,"),
    ("SELECT COUNT,SUM(c1) FROM t1", "SELECT COUNT,"),
    ("SELECT COUN", "SELECT COUN"),
    ("SELECT FROM t1", "SELECT "),
    ("SELECT MAY(c1) FROM t1", "SELECT MA"),
    ("SELECT SUM(c17) FROM t1", "SELECT SUM(c1"),
    (
        "SELECT SUM(c16) FROM t1 WHERE c17 = 1",
        "SELECT SUM(c16) FROM t1 WHERE c1",
    ),
    ("SELECT SUM(c0) FROM t1", "SELECT SUM(c"),
    ("SELECT SUM(c1 ) FROM t1", "SELECT SUM(c1"),
    ("SELECT * FROM t1 GROUP BY c1", "SELECT * FROM t1 "),
    (
        "SELECT * FROM t1 WHERE c1 = 1 GROUP BY c1",
        "SELECT * FROM t1 WHERE c1 = 1 ",
    ),
    (
        "SELECT COUNT FROM t1 GROUP BY c17",
        "SELECT COUNT FROM t1 GROUP BY c1",
    ),
    (
        "SELECT COUNT FROM t1 GROUP BY c2 ",
        "SELECT COUNT FROM t1 GROUP BY c2",
    ),
    (
        "SELECT COUNT FROM t1 GROUP BY c2 WHERE c1 = 1",
        "SELECT COUNT FROM t1 GROUP BY c2",
    ),
    (
        "SELECT COUNT FROM t1 WHERE c1 = 1 GRAND",
        "SELECT COUNT FROM t1 WHERE c1 = 1 GR",
    ),
    (
        "SELECT COUNT FROM t1 WHERE c1 = 1 ANY",
        "SELECT COUNT FROM t1 WHERE c1 = 1 AN",
    ),
    (
        "SELECT * FROM t1 WHERE c1 == 1",
        "SELECT * FROM t1 WHERE c1 =",
    ),
    (
        "SELECT * FROM t1 WHERE c1 <>",
        "SELECT * FROM t1 WHERE c1 <>",
    ),
    (
        "SELECT * FROM t1 WHERE c1 >< 1",
        "SELECT * FROM t1 WHERE c1 >",
    ),
    ("SELECT * FROM t1 WHERE c1=1", "SELECT * FROM t1 WHERE c1"),
    (
        "SELECT * FROM t1 WHERE c1 = -",
        "SELECT * FROM t1 WHERE c1 = -",
    ),
    (
        "SELECT * FROM t1 WHERE c1 = -0",
        "SELECT * FROM t1 WHERE c1 = -",
    ),
    (
        "SELECT * FROM t1 WHERE c1 = 00",
        "SELECT * FROM t1 WHERE c1 = 0",
    ),
    (
        "SELECT * FROM t1 WHERE c1 = +1",
        "SELECT * FROM t1 WHERE c1 = ",
    ),
    (
        "SELECT * FROM t1 WHERE c1 = 9223372036854775808",
        "SELECT * FROM t1 WHERE c1 = 922337203685477580",
    ),
    (
        "SELECT * FROM t1 WHERE c1 = -9223372036854775809",
        "SELECT * FROM t1 WHERE c1 = -922337203685477580",
    ),
    (
        "SELECT * FROM t1 WHERE c1 = 'a",
        "SELECT * FROM t1 WHERE c1 = 'a",
    ),
    (
        "SELECT * FROM t1 WHERE c1 = 'a|b'",
        "SELECT * FROM t1 WHERE c1 = 'a",
    ),
    (
        "SELECT * FROM t1 WHERE c1 = 'a' AND",
        "SELECT * FROM t1 WHERE c1 = 'a' AND",
    ),
    (
        "SELECT * FROM t1 WHERE c1 = 'a'b'",
        "SELECT * FROM t1 WHERE c1 = 'a'",
    ),
    (
        "SELECT * FROM t1 WHERE c1 = 'xxxxxxxxxxxxxxxxxxxxxxxxxxxxxxxxxxxxxxxxxxxxxxxxxxxxxxxxxxxxxxxxx'",
        "SELECT * FROM t1 WHERE c1 = 'xxxxxxxxxxxxxxxxxxxxxxxxxxxxxxxxxxxxxxxxxxxxxxxxxxxxxxxxxxxxxxxx",
    ),
];

/// Each kind of command, at the ends of its numbers.
static COMMANDS: [&str; 22] = [
    "SYNC",
    "SHOW SCN",
    "ABORT",
    "POPULATE t1",
    "POPULATE t2",
    "POPULATE t65535",
    "SELECT * FROM t1",
    "SELECT * FROM t3",
    "SELECT COUNT FROM t1",
    "SELECT COUNT FROM t1 WHERE c1 = 'a'",
    "SELECT COUNT FROM t1 WHERE c1 > 1 AND c2 <> 'b'",
    "SELECT COUNT, SUM(c1) FROM t1",
    "SELECT COUNT, SUM(c1), MAX(c1) FROM t1 GROUP BY c2",
    "SELECT COUNT, SUM(c2) FROM t7 GROUP BY c1",
    "SELECT SUM(c1), MIN(c1) FROM t1",
    "SELECT SUM(c1) FROM t2",
    "SELECT SUM(c2) FROM t1",
    "SELECT MIN(c16), MAX(c10) FROM t1 WHERE c1 <= 0 AND c2 < 10 AND c3 >= -1 GROUP BY c16",
    "SELECT * FROM t1 WHERE c1 = 9223372036854775807",
    "SELECT * FROM t1 WHERE c1 = -9223372036854775808",
    "SELECT * FROM t1 WHERE c1 = ''",
    "SELECT * FROM t1 WHERE c1 = 'xxxxxxxxxxxxxxxxxxxxxxxxxxxxxxxxxxxxxxxxxxxxxxxxxxxxxxxxxxxxxxxx'",
];

#[test]
fn wrong_texts(rt: HostRuntime) -> Result<(), Fail> {
    for (text, begins) in &WRONG {
        assert!(rt; text.len() < 200);
        let read = read_command(rt.alloc(), text.as_bytes());
        assert!(rt;
            matches!(read, Err(TextFault::BadQuery { byte }) if byte as usize == begins.len()),
            "{text}"
        );
    }
    Ok(())
}

#[test]
fn read_and_printed(rt: HostRuntime) -> Result<(), Fail> {
    for text in &COMMANDS {
        assert!(rt; text.len() < 200);
        let command = read_command(rt.alloc(), text.as_bytes())?;
        let printed = print_command(rt.alloc(), &command)?;
        assert_eq!(rt; printed.as_slice(), text.as_bytes());
    }
    Ok(())
}

/// What a query asks for.
#[derive(Clone, Copy)]
enum Asked {
    Rows,
    Aggregates(&'static [Aggregate]),
}

/// A name, what a query of table 1 asks for, the column that it compares, with Null or with an integer, and the
/// column that it groups by.
type Query = (&'static str, Asked, u8, Option<i64>, Option<u8>);

/// Queries that have no spelling.
static UNSPELLED: [Query; 7] = [
    ("rows in groups", Asked::Rows, 2, Some(0), Some(1)),
    ("column 0", Asked::Rows, 0, Some(0), None),
    ("column 17", Asked::Rows, 17, Some(0), None),
    ("Null", Asked::Rows, 2, None, None),
    ("no aggregate", Asked::Aggregates(&[]), 2, Some(0), None),
    (
        "an aggregate of column 17",
        Asked::Aggregates(&[Aggregate::Count, Aggregate::Max(17)]),
        2,
        Some(0),
        None,
    ),
    (
        "groups by column 17",
        Asked::Aggregates(&[Aggregate::Count]),
        2,
        Some(0),
        Some(17),
    ),
];

static SPELLED: Query = (
    "a query",
    Asked::Aggregates(&[Aggregate::Sum(16)]),
    2,
    Some(-3),
    Some(1),
);

fn what_of(alloc: Global, asked: Asked) -> Result<What, Fail> {
    match asked {
        Asked::Rows => Ok(What::All),
        Asked::Aggregates(list) => Ok(What::Aggregates(List::from_slice(alloc, list)?)),
    }
}

fn conditions_of(alloc: Global, column: u8, number: Option<i64>) -> Result<ConditionList, Fail> {
    let literal = match number {
        Some(number) => Value::Int(number),
        None => Value::Null,
    };
    let mut conditions = List::new(alloc);
    conditions.push(Condition {
        column,
        op: Op::Lt,
        literal,
    })?;
    Ok(conditions)
}

fn printed(alloc: Global, query: &Query) -> Result<Result<Bytes, PrintRefused>, Fail> {
    let (_, asked, column, number, group) = *query;
    let command = Command::Select(Select {
        obj: Obj::new(1).ok_or("an object")?,
        what: what_of(alloc, asked)?,
        conditions: conditions_of(alloc, column, number)?,
        group,
    });
    Ok(print_command(alloc, &command))
}

#[test]
fn no_spelling(rt: HostRuntime) -> Result<(), Fail> {
    for query in &UNSPELLED {
        let refused = printed(rt.alloc(), query)?;
        assert!(rt;
            matches!(refused, Err(PrintRefused::NoSpelling)),
            "{}",
            query.0
        );
    }
    Ok(())
}

#[test]
fn one_spelling(rt: HostRuntime) -> Result<(), Fail> {
    let spelled = printed(rt.alloc(), &SPELLED)??;
    assert_eq!(rt;
        spelled.as_slice(),
        b"SELECT SUM(c16) FROM t1 WHERE c2 < -3 GROUP BY c1".as_slice()
    );
    Ok(())
}
