ghost use Rattle.std.specs.Prelude.{◌≡◌, ◌<◌};

use adg_base::address::{Addr, AddrList};
use adg_base::answer::{Answer, Cell, Line, Lines, Reply};
use adg_base::command::{
    Aggregate, Command, CommandList, CommandText, Condition, Op, Select, What,
};
use adg_base::list::{Bytes, Duplicate, List};
use adg_base::log::{EntryList, LogEntry};
use adg_base::number::{Extent, Obj, Pos, Scn, Txn};
use adg_base::placed::{PlacedRow, PlacedRows};
use adg_base::row::Row;
use adg_base::shard::{
    SHARDS, block_shard, object_shard, shard_of, txn_shard, unit_shard, worker_of,
};
use adg_base::steps::Steps;
use adg_base::text::{Text, TextRefused};
use adg_base::value::{ColKind, Value};
use adg_base::value_ref::ValueRef;
use adg_base::vector::{RedoRecord, Vector, VectorList};
use std::alloc::Global;
use std::cmp::Ordering;
use std::fmt::Debug;
use std::marker::Brand;
use std::process::Abort;
use std::sync::ledger::{Blank, Ledger};
use std::test::Fail;

fn scn() -> Result<Scn, Fail> {
    Ok(Scn::new(281_474_976_710_655).ok_or("scn")?)
}

fn obj() -> Result<Obj, Fail> {
    Ok(Obj::new(3).ok_or("obj")?)
}

fn addr() -> Result<Addr, Fail> {
    Ok(Addr::new(obj()?, 130, 63).ok_or("addr")?)
}

fn text(alloc: Global) -> Result<Text, Fail> {
    Ok(Text::new(alloc, b"a b~")?)
}

fn row(alloc: Global) -> Result<Row, Fail> {
    let text = text(alloc)?;
    let values = vec![in alloc; Value::Null, Value::Int(-3), Value::Text(text)]?;
    Ok(Row::from_vec(alloc, values)?)
}

// One vector of each kind.
fn vectors(alloc: Global) -> Result<VectorList, Fail> {
    let txn = Txn::new(70).ok_or("txn")?;
    let obj = obj()?;
    let (block, slot) = (130, 63);
    let row = row(alloc)?;
    let columns = List::from_slice(alloc, &[ColKind::Int, ColKind::Text])?;
    Ok(List::from_vec(vec![in alloc;
        Vector::Begin { txn },
        Vector::Put {
            txn,
            obj,
            block,
            slot,
            row
        },
        Vector::Delete {
            txn,
            obj,
            block,
            slot
        },
        Vector::Undo {
            txn,
            obj,
            block,
            slot
        },
        Vector::Commit { txn, flag: true },
        Vector::Abort { txn },
        Vector::Create {
            obj,
            extents: 256,
            flag: true,
            columns
        },
        Vector::DropObject { obj },
        Vector::AddColumn {
            obj,
            kind: ColKind::Text
        },
        Vector::NoInMemory { obj },
        Vector::EndThread,
    ]?))
}

// One command of each kind, with each aggregate and each comparison.
fn commands(alloc: Global) -> Result<List<Command>, Fail> {
    let obj = obj()?;
    let aggregates = [
        Aggregate::Count,
        Aggregate::Sum(1),
        Aggregate::Min(2),
        Aggregate::Max(16),
    ];
    let mut conditions = List::new(alloc);
    for op in [Op::Eq, Op::Ne, Op::Lt, Op::Le, Op::Gt, Op::Ge] {
        conditions.push(Condition {
            column: 2,
            op,
            literal: Value::Text(text(alloc)?),
        })?;
    }
    let grouped = Select {
        obj,
        what: What::Aggregates(List::from_slice(alloc, &aggregates)?),
        conditions,
        group: Some(3),
    };
    let all = Select {
        obj,
        what: What::All,
        conditions: List::new(alloc),
        group: None,
    };
    Ok(List::from_vec(vec![in alloc;
        Command::Select(grouped),
        Command::Select(all),
        Command::Populate { obj },
        Command::Sync,
        Command::ShowScn,
        Command::Abort,
    ]?))
}

// One line for each kind of reply.
fn lines(alloc: Global) -> Result<Lines, Fail> {
    let scn = scn()?;
    let cells = vec![in alloc;
        Cell::Null,
        Cell::Number(i128::MIN),
        Cell::Text(text(alloc)?),
    ]?;
    let answer: Answer = List::from_vec(vec![in alloc; List::from_vec(cells), List::new(alloc)]?);
    let replies = vec![in alloc;
        Reply::Rows {
            scn,
            answer,
            col: 1,
            row: u64::MAX
        },
        Reply::Populated { scn, units: 256 },
        Reply::Synced { scn },
        Reply::Shown { scn },
        Reply::Aborted { scn },
        Reply::BadQuery { scn, byte: 7 },
        Reply::NoTable { scn },
        Reply::NotInMemory { scn },
        Reply::NoColumn { scn },
        Reply::WrongType { scn },
        Reply::Down,
    ]?;
    let mut list = List::new(alloc);
    let mut number = 1;
    for reply in replies {
        list.push(Line {
            session: 8,
            number,
            reply,
        })?;
        number = 1024;
    }
    Ok(Lines { list, end: scn })
}

fn assert_copied<T: Duplicate + Debug + Drop>(
    rt: &impl Abort,
    alloc: Global,
    value: T,
) -> Result<(), Fail> {
    let copied = value.copy(alloc)?;
    let shown = format!(in alloc; "{copied:?}")?;
    assert_eq!(rt; shown, format!(in alloc; "{value:?}")?);
    Ok(())
}

fn placed(alloc: Global) -> Result<PlacedRows, Fail> {
    let placed = PlacedRow {
        addr: addr()?,
        row: row(alloc)?,
    };
    Ok(List::from_vec(vec![in alloc; placed]?))
}

fn command_texts(alloc: Global) -> Result<CommandList, Fail> {
    let text = List::from_slice(alloc, b"SYNC")?;
    let command = CommandText { session: 8, text };
    Ok(List::from_vec(vec![in alloc; command]?))
}

fn entries(alloc: Global) -> Result<EntryList, Fail> {
    let (pos, scn) = (Pos::new(u64::MAX), scn()?);
    let mut entries = List::new(alloc);
    for vector in vectors(alloc)?.into_vec() {
        entries.push(LogEntry {
            pos,
            scn,
            thread: 8,
            number: 9,
            index: 255,
            vector,
        })?;
    }
    Ok(entries)
}

fn assert_copies(rt: &impl Abort, alloc: Global) -> Result<(), Fail> {
    let addrs: AddrList = List::from_slice(alloc, &[addr()?])?;
    assert_copied(rt, alloc, addrs)?;
    assert_copied(rt, alloc, placed(alloc)?)?;
    assert_copied(rt, alloc, command_texts(alloc)?)?;
    assert_copied(rt, alloc, commands(alloc)?)?;
    assert_copied(rt, alloc, lines(alloc)?)?;
    assert_copied(rt, alloc, entries(alloc)?)?;
    let (scn, vectors) = (scn()?, vectors(alloc)?);
    assert_copied(rt, alloc, RedoRecord { scn, vectors })
}

// `new` and `is_text` give this outcome.
fn assert_text(rt: &impl Abort, alloc: Global, bytes: &[u8], good: bool) {
    assert!(rt; Text::is_text(bytes) == good, "{bytes:?}");
    match Text::new(alloc, bytes) {
        Ok(text) => assert!(rt; good && text.as_bytes() == bytes, "{bytes:?}"),
        Err(refused) => assert!(rt; !good && refused == TextRefused::BadText, "{bytes:?}"),
    }
}

fn assert_bytes(rt: &impl Abort, alloc: Global) -> Result<(), Fail> {
    let mut bytes: Bytes = List::new(alloc);
    assert!(rt; bytes.is_empty());
    bytes.push(7)?;
    bytes.push(9)?;
    assert!(rt; !bytes.is_empty() && bytes.len() == 2);
    let copied = List::from_slice(alloc, bytes.as_slice())?;
    assert!(rt; copied.as_slice() == [7, 9].as_slice());
    assert!(rt; copied.into_vec() == bytes.into_vec());
    Ok(())
}

fn assert_texts(rt: &impl Abort, alloc: Global) -> Result<(), Fail> {
    let long = [b'~'; 65];
    assert_text(rt, alloc, &long[..64], true);
    assert_text(rt, alloc, &long, false);
    for good in [b"".as_slice(), b" {}"] {
        assert_text(rt, alloc, good, true);
    }
    for bad in [b"a'b".as_slice(), b"|", b"ab\x1f", b"\x7f", b"\xff"] {
        assert_text(rt, alloc, bad, false);
    }
    assert!(rt; text(alloc)? == text(alloc)?);
    assert!(rt; text(alloc)? != Text::new(alloc, b"a b")?);
    Ok(())
}

// Texts of so many bytes lie in the value itself up to 14, and beyond that in memory of their own.
const TEXT_LENGTHS: [usize; 8] = [0, 1, 13, 14, 15, 16, 63, 64];

// A text of so many equal bytes.
fn text_of(alloc: Global, byte: u8, len: usize) -> Result<Text, Fail> {
    let bytes = vec![in alloc; byte; len]?;
    Ok(Text::new(alloc, bytes.as_slice())?)
}

fn order(left: Text, right: Text) -> Ordering {
    let (left, right) = (Value::Text(left), Value::Text(right));
    ValueRef::of(&left).compare(ValueRef::of(&right))
}

// A text of this length beside one of each length: they are equal where the lengths are.
fn assert_beside_others(rt: &impl Abort, alloc: Global, len: usize) -> Result<(), Fail> {
    for other in TEXT_LENGTHS {
        let (left, right) = (text_of(alloc, b'a', len)?, text_of(alloc, b'a', other)?);
        assert!(rt; (left == right) == (len == other), "{len} {other}");
        assert!(rt; order(left, right) == len.cmp(&other), "{len} {other}");
        let (less, more) = (text_of(alloc, b'a', len)?, text_of(alloc, b'b', other)?);
        let shown = if other == 0 {
            len.cmp(&0)
        } else {
            Ordering::Less
        };
        assert!(rt; (less == more) == (len == 0 && other == 0), "{len} {other}");
        assert!(rt; order(less, more) == shown, "{len} {other}");
    }
    Ok(())
}

fn assert_text_lengths(rt: &impl Abort, alloc: Global) -> Result<(), Fail> {
    for len in TEXT_LENGTHS {
        let text = text_of(alloc, b'~', len)?;
        assert_text(rt, alloc, text.as_bytes(), true);
        let copied = text.copy(alloc)?;
        assert!(rt; copied == text && copied.as_bytes().len() == len, "{len}");
        assert_copied(rt, alloc, Value::Text(copied))?;
        assert_beside_others(rt, alloc, len)?;
    }
    Ok(())
}

// So many values of all kinds, in a `Vec` with room for so many.
fn values(alloc: Global, count: usize, room: usize) -> Result<Vec<Value>, Fail> {
    let mut values = Vec::with_capacity(alloc, room)?;
    for index in 0..count {
        values.push(match index % 4 {
            0 => Value::Text(text_of(alloc, b'a', 14)?),
            1 => Value::Int(-5),
            2 => Value::Text(text_of(alloc, b'b', 15)?),
            _ => Value::Null,
        })?;
    }
    Ok(values)
}

// Up to four values lie beside the count, however much room their `Vec` has; more stay in it.
fn assert_rows(rt: &impl Abort, alloc: Global) -> Result<(), Fail> {
    for (count, room) in [
        (0, 0),
        (0, 8),
        (1, 1),
        (1, 5),
        (3, 3),
        (4, 4),
        (4, 16),
        (5, 5),
        (16, 16),
    ] {
        let expected = values(alloc, count, count)?;
        let row = Row::from_vec(alloc, values(alloc, count, room)?)?;
        let copied = row.copy(alloc)?;
        assert!(rt;
            row.len() == count && copied.len() == count,
            "{count} {room}"
        );
        assert!(rt; row.as_slice() == expected.as_slice(), "{count} {room}");
        drop(row);
        assert!(rt; copied.as_slice() == expected.as_slice(), "{count} {room}");
        assert_copied(rt, alloc, copied)?;
    }
    assert!(rt; Value::default() == Value::Null);
    Ok(())
}

fn assert_ends(rt: &impl Abort) -> Result<(), Fail> {
    assert!(rt; scn()?.get() == 281_474_976_710_655 && Scn::new(1 << 48).is_none());
    assert!(rt; Scn::new(0) == Some(Scn::ZERO) && Scn::ZERO.get() == 0);
    assert!(rt; Txn::new(0).is_none() && Txn::new(1).is_some());
    assert!(rt; Obj::new(0).is_none() && Obj::new(1).is_some());
    assert!(rt; obj()?.get() == 3 && Extent::new(255).get() == 255 && Pos::new(9).get() == 9);
    let addr = addr()?;
    assert!(rt; addr.obj() == obj()? && addr.block() == 130 && addr.slot() == 63);
    assert!(rt; Addr::new(obj()?, 130, 64).is_none());
    Ok(())
}

fn assert_shards(rt: &impl Abort) -> Result<(), Fail> {
    for (number, place, block, unit) in [(1, 0, 1, 1), (60, 10, 6, 6), (65_535, 65_535, 62, 30)] {
        let obj = Obj::new(number).ok_or("obj")?;
        assert!(rt; block_shard(obj, place) == block, "{number}");
        assert!(rt; unit_shard(obj, place) == unit, "{number}");
    }
    assert!(rt; txn_shard(Txn::new(u64::MAX).ok_or("txn")?) == 63);
    assert!(rt; object_shard(Obj::new(130).ok_or("obj")?) == 2);
    assert!(rt; worker_of(63, 8) == 7 && worker_of(10, 3) == 1 && worker_of(5, 1) == 0);
    Ok(())
}

fn assert_vector_shards(rt: &impl Abort, alloc: Global) -> Result<(), Fail> {
    let mut shards = List::new(alloc);
    for vector in vectors(alloc)?.as_slice() {
        shards.push(shard_of(vector).unwrap_or(SHARDS))?;
    }
    assert!(rt; shards.as_slice() == [6, 5, 5, 5, 6, 6, 3, 3, 3, 3, 64].as_slice());
    Ok(())
}

fn tick_twice<L: Ledger>(blank: Blank)
    requires name { blank.name ≡ L.name }
    requires parts { blank.parts ≡ L.parts }
    requires shared { 0 < L.parts }
{
    let mut steps = Steps::<L>::of(blank);
    steps.tick();
    steps.tick();
}

#[test]
fn copies_are_whole(rt: HostRuntime) -> Result<(), Fail> {
    assert_copies(&rt, rt.alloc())
}

#[test]
fn texts_and_lists(rt: HostRuntime) -> Result<(), Fail> {
    assert_texts(&rt, rt.alloc())?;
    assert_bytes(&rt, rt.alloc())
}

#[test]
fn short_and_long_texts(rt: HostRuntime) -> Result<(), Fail> {
    assert_text_lengths(&rt, rt.alloc())
}

#[test]
fn rows_of_few_and_many(rt: HostRuntime) -> Result<(), Fail> {
    assert_rows(&rt, rt.alloc())
}

#[test]
fn ends_and_shards(rt: HostRuntime) -> Result<(), Fail> {
    assert_ends(&rt)?;
    assert_shards(&rt)?;
    assert_vector_shards(&rt, rt.alloc())?;
    tick_twice::<Brand>(Blank::new(1));
    Ok(())
}
