ghost use Rattle.std.specs.Prelude.{◌≡◌, ◌<◌, length, IfOk};
ghost use Rattle.std.specs.Option.{ForSome};
ghost use Rattle.column_codec.specs.Extent.{AreColumns};
ghost use Rattle.column_units.specs.Unit.{FitState};
ghost use Rattle.row_blocks.specs.Shards.{shards_in, row_in};
ghost use Rattle.hybrid_scan.specs.Reader.{AreServing};

use adg_base::address::Addr;
use adg_base::answer::Cell;
use adg_base::command::{Aggregate, Select, What};
use adg_base::definition::Definition;
use adg_base::list::List;
use adg_base::log::LogEntry;
use adg_base::memory::Memory;
use adg_base::number::{Obj, Pos, Scn, Txn};
use adg_base::placed::BlockRows;
use adg_base::row::{Row, RowList};
use adg_base::steps::Steps;
use adg_base::value::{ColKind, Value};
use adg_base::vector::Vector;
use column_codec::column::Column;
use column_codec::columns::Columns;
use column_units::unit::{CleanRows, Unit, UnitState};
use hybrid_scan::reader::BlockReader;
use hybrid_scan::scan::{ExtentCounts, add_extent, scan_extent};
use hybrid_scan::shard_reader::{ShardReader, block_rows, row_copy};
use row_blocks::shard::Shard;
use row_blocks::shards::{apply_in, new_shards};
use scan_eval::accumulator::Accumulator;
use std::alloc::Global;
use std::marker::Brand;
use std::process::Abort;
use std::sync::ledger::{Blank, Ledger};
use std::test::Fail;

/// The shards as a store, with what they give at any SCN.
#[derive(Drop)]
struct TestStore<'a> {
    alloc: Global,
    shards: &'a [Shard],
}

impl BlockReader for TestStore<'_> {
    ghost covers = { λ store q. length store.shards.now ≡ 64 };

    ghost committed = { λ store. row_in (shards_in store.shards.now) };

    fn rows<L: Ledger>(
        &mut self,
        obj: Obj,
        block: u16,
        q: Scn,
        steps: &mut Steps<L>,
    ) -> Result<BlockRows, Memory> {
        block_rows(self.alloc, self.shards, obj, block, q, steps)
    }

    fn row<L: Ledger>(
        &mut self,
        addr: Addr,
        q: Scn,
        steps: &mut Steps<L>,
    ) -> Result<Option<Row>, Memory> {
        row_copy(self.alloc, self.shards, addr, q, steps)
    }
}

/// What a transaction does: at a block and a slot of t1, or at its end. Or t1 gets a column.
#[derive(Clone, Copy)]
enum Deed {
    Put(u16, u8, i64),
    Delete(u16, u8),
    Commit,
    Widen,
}

use Deed::{Commit, Delete, Put, Widen};

static LOG: [(u64, u64, Deed); 14] = [
    (11, 7, Put(0, 0, 1)),
    (11, 7, Put(0, 1, 2)),
    (11, 7, Commit),
    (12, 8, Put(0, 1, 9)),
    (12, 8, Commit),
    (13, 9, Delete(0, 1)),
    (13, 9, Commit),
    (14, 10, Put(0, 1, 5)),
    (14, 10, Commit),
    (15, 11, Put(15, 63, 7)),
    (15, 11, Commit),
    (16, 12, Delete(0, 0)),
    (16, 12, Commit),
    (17, 13, Widen),
];

fn vector(alloc: Global, obj: Obj, txn: u64, deed: Deed) -> Result<Vector, Fail> {
    let txn = Txn::new(txn).ok_or("txn")?;
    Ok(match deed {
        Put(block, slot, number) => Vector::Put {
            txn,
            obj,
            block,
            slot,
            row: Row::from_vec(alloc, vec![in alloc; Value::Int(number)]?)?,
        },
        Delete(block, slot) => Vector::Delete {
            txn,
            obj,
            block,
            slot,
        },
        Commit => Vector::Commit { txn, flag: true },
        Widen => Vector::AddColumn {
            obj,
            kind: ColKind::Int,
        },
    })
}

/// The 64 shards after the log.
fn applied(alloc: Global, obj: Obj) -> Result<Vec<Shard>, Fail>
    ensures { IfOk result (λ shards. length shards.items ≡ 64) }
{
    let mut shards = new_shards(alloc)?;
    let mut pos = 0u64;
    for (scn, txn, deed) in &LOG {
        let entry = LogEntry {
            pos: Pos::new(pos),
            scn: Scn::new(*scn).ok_or("scn")?,
            thread: 1,
            number: 1,
            index: 1,
            vector: vector(alloc, obj, *txn, *deed)?,
        };
        apply_in(&mut shards, &entry)?;
        pos = pos.wrapping_add(1);
    }
    Ok(shards)
}

/// The rows of the first extent as of 11: 1 at t1.0.0 and 2 at t1.0.1.
fn two_rows(alloc: Global, obj: Obj) -> Result<Columns, Fail>
    requires { obj ≡ 1 }
    ensures { IfOk result (AreColumns obj 0) }
{
    let first = Addr::new(obj, 0, 0).ok_or("addr")?;
    let second = Addr::new(obj, 0, 1).ok_or("addr")?;
    let addresses = vec![in alloc; first, second]?;
    let values = vec![in alloc; Value::Int(1), Value::Int(2)]?;
    let columns = vec![in alloc; Column::from_vec(alloc, values)?]?;
    Ok(Columns::new(alloc, List::from_vec(addresses), List::from_vec(columns))?)
}

/// Its rows as of 17, when a column was added: 5 at t1.0.1 and 7 at t1.15.63.
fn two_wide_rows(alloc: Global, obj: Obj) -> Result<Columns, Fail>
    requires { obj ≡ 1 }
    ensures { IfOk result (AreColumns obj 0) }
{
    let first = Addr::new(obj, 0, 1).ok_or("addr")?;
    let last = Addr::new(obj, 15, 63).ok_or("addr")?;
    let addresses = vec![in alloc; first, last]?;
    let values = vec![in alloc; Value::Int(5), Value::Int(7)]?;
    let nulls = vec![in alloc; Value::Null, Value::Null]?;
    let columns = vec![in alloc;
        Column::from_vec(alloc, values)?,
        Column::from_vec(alloc, nulls)?,
    ]?;
    Ok(Columns::new(alloc, List::from_vec(addresses), List::from_vec(columns))?)
}

/// The rows of the first extent in a unit that was built at an SCN.
fn rows_at(alloc: Global, obj: Obj, built: u64) -> Result<Columns, Fail>
    requires { obj ≡ 1 }
    ensures { IfOk result (AreColumns obj 0) }
{
    if built == 17 {
        return two_wide_rows(alloc, obj);
    }
    two_rows(alloc, obj)
}

/// A scan at an SCN, through a look at a unit built at another, with marks in the first and in the last block, or
/// without a look, of an object so wide; the numbers of its rows, and how many came from columns and from blocks.
struct Case {
    name: &'static str,
    q: u64,
    built: u64,
    marks: Option<(u64, u64)>,
    width: u8,
    numbers: &'static [i64],
    counts: (u64, u64),
}

static CASES: [Case; 11] = [
    Case {
        name: "as built",
        q: 11,
        built: 11,
        marks: Some((0, 0)),
        width: 1,
        numbers: &[1, 2],
        counts: (2, 0),
    },
    Case {
        name: "a commit at 12",
        q: 12,
        built: 11,
        marks: Some((2, 0)),
        width: 1,
        numbers: &[1, 9],
        counts: (1, 1),
    },
    Case {
        name: "deleted",
        q: 13,
        built: 11,
        marks: Some((2, 0)),
        width: 1,
        numbers: &[1],
        counts: (1, 0),
    },
    Case {
        name: "put again",
        q: 14,
        built: 11,
        marks: Some((2, 0)),
        width: 1,
        numbers: &[1, 5],
        counts: (1, 1),
    },
    Case {
        name: "the last address, which is not in the unit",
        q: 15,
        built: 11,
        marks: Some((2, 1 << 63)),
        width: 1,
        numbers: &[1, 5, 7],
        counts: (1, 2),
    },
    Case {
        name: "the first address deleted",
        q: 16,
        built: 11,
        marks: Some((3, 1 << 63)),
        width: 1,
        numbers: &[5, 7],
        counts: (0, 2),
    },
    Case {
        name: "before a column was added",
        q: 16,
        built: 11,
        marks: None,
        width: 1,
        numbers: &[5, 7],
        counts: (0, 2),
    },
    Case {
        name: "after a column was added",
        q: 16,
        built: 11,
        marks: None,
        width: 2,
        numbers: &[5, 7],
        counts: (0, 2),
    },
    Case {
        name: "a mark where nothing was put",
        q: 12,
        built: 11,
        marks: Some((2 | 1 << 5, 0)),
        width: 1,
        numbers: &[1, 9],
        counts: (1, 1),
    },
    Case {
        name: "built after a column was added",
        q: 17,
        built: 17,
        marks: Some((0, 0)),
        width: 2,
        numbers: &[5, 7],
        counts: (2, 0),
    },
    Case {
        name: "a short row of the store among wide ones of columns",
        q: 17,
        built: 17,
        marks: Some((2, 0)),
        width: 2,
        numbers: &[5, 7],
        counts: (1, 1),
    },
];

/// What a scan at an SCN may take from a unit, whose columns are those of its extent.
fn look_at(unit: &Unit, q: Scn) -> Result<Option<CleanRows>, Fail>
    requires { FitState unit.now.obj unit.now.extent unit.now.state }
    ensures { IfOk result (λ look. ForSome look (λ l. AreColumns unit.now.obj unit.now.extent l.columns)) }
{
    Ok(unit.clean_rows(q)?)
}

/// What a scan at an SCN may take from the unit that was built at another, with these marks.
fn look_of(
    alloc: Global,
    obj: Obj,
    q: Scn,
    built: u64,
    marks: Option<(u64, u64)>,
) -> Result<Option<CleanRows>, Fail>
    requires { obj ≡ 1 }
    ensures { IfOk result (λ look. ForSome look (λ l. AreColumns obj 0 l.columns)) }
{
    let Some((first, last)) = marks else {
        return Ok(None);
    };
    let mut map = [0; 16];
    map[0] = first;
    map[15] = last;
    let unit = Unit {
        obj,
        extent: 0,
        snapshot: Scn::new(built).ok_or("scn")?,
        ticket: 1,
        state: UnitState::Ready(rows_at(alloc, obj, built)?),
        map,
        all: false,
    };
    look_at(&unit, q)
}

fn definition(obj: Obj, width: u8) -> Definition
    ensures obj { result.obj ≡ obj }
    ensures width { result.width ≡ width }
{
    Definition {
        obj,
        extents: 1,
        flag: true,
        width,
        kinds: [ColKind::Int; 16],
    }
}

fn assert_rows(rt: &impl Abort, case: &Case, rows: &RowList) -> Result<(), Fail> {
    assert!(rt; rows.len() == case.numbers.len(), "{}", case.name);
    for (row, number) in rows.as_slice().iter().zip(case.numbers.iter()) {
        assert!(rt; row.len() == usize::from(case.width), "{}", case.name);
        assert!(rt;
            row.as_slice().first() == Some(&Value::Int(*number)),
            "{}",
            case.name
        );
        assert!(rt;
            row.as_slice()
                .iter()
                .skip(1)
                .all(|value| *value == Value::Null),
            "{}",
            case.name
        );
    }
    Ok(())
}

/// How many rows there are, and the sum of their numbers.
fn query(alloc: Global, obj: Obj) -> Result<Select, Fail> {
    let aggregates = vec![in alloc; Aggregate::Count, Aggregate::Sum(1)]?;
    Ok(Select {
        obj,
        what: What::Aggregates(List::from_vec(aggregates)),
        conditions: List::new(alloc),
        group: None,
    })
}

fn assert_sum(
    rt: &impl Abort,
    alloc: Global,
    case: &Case,
    accumulator: Accumulator,
) -> Result<(), Fail> {
    let mut sum = 0i128;
    for number in case.numbers {
        sum = sum.wrapping_add(i128::from(*number));
    }
    let answer = accumulator.finish(alloc)?;
    let line = answer.as_slice().first().ok_or("line")?;
    let count = case.numbers.len() as i128;
    assert!(rt;
        line.as_slice() == [Cell::Number(count), Cell::Number(sum)].as_slice(),
        "{}",
        case.name
    );
    Ok(())
}

fn assert_case<L: Ledger>(
    rt: &impl Abort,
    alloc: Global,
    case: &Case,
    shards: &[Shard],
    obj: Obj,
    steps: &mut Steps<L>,
) -> Result<(), Fail>
    requires shards { length shards.now ≡ 64 }
    requires obj { obj ≡ 1 }
{
    let q = Scn::new(case.q).ok_or("scn")?;
    let def = definition(obj, case.width);
    let (from_columns, from_blocks) = case.counts;
    let look = look_of(alloc, obj, q, case.built, case.marks)?;
    let mut store = TestStore { alloc, shards };
    let scanned = scan_extent(alloc, look.as_ref(), &mut store, &def, 0, q, steps)?;
    assert_rows(rt, case, &scanned.rows)?;
    assert!(rt; scanned.from_columns == from_columns, "{}", case.name);
    assert!(rt; scanned.from_blocks == from_blocks, "{}", case.name);
    let mut accumulator = Accumulator::new(alloc, &query(alloc, obj)?, &def).map_err(|_| Memory)?;
    let counts = add_extent(
        alloc,
        &mut accumulator,
        look.as_ref(),
        &mut store,
        &def,
        0,
        q,
        steps,
    )?;
    assert!(rt;
        counts
            == ExtentCounts {
                from_columns,
                from_blocks
            },
        "{}",
        case.name
    );
    assert_sum(rt, alloc, case, accumulator)
}

fn assert_cases<L: Ledger>(rt: &impl Abort, alloc: Global, blank: Blank) -> Result<(), Fail>
    requires name { blank.name ≡ L.name }
    requires parts { blank.parts ≡ L.parts }
    requires shared { 0 < L.parts }
{
    let obj = Obj::new(1).ok_or("obj")?;
    let mut steps = Steps::<L>::of(blank);
    let shards = applied(alloc, obj)?;
    for case in &CASES {
        assert_case(rt, alloc, case, &shards, obj, &mut steps)?;
    }
    Ok(())
}

/// An extent that was built at 11, and what committed since.
#[test]
fn scans_are_the_committed_rows(rt: HostRuntime) -> Result<(), Fail> {
    assert_cases::<Brand>(&rt, rt.alloc(), Blank::new(1))
}

/// Shards that serve an SCN and to which nothing was applied give no row.
fn assert_no_rows<L: Ledger>(
    rt: &impl Abort,
    alloc: Global,
    shards: &[Shard],
    q: Scn,
    steps: &mut Steps<L>,
) -> Result<(), Fail>
    requires { AreServing shards.now q }
{
    let obj = Obj::new(1).ok_or("obj")?;
    let addr = Addr::new(obj, 0, 0).ok_or("addr")?;
    let mut reader = ShardReader::new(alloc, shards);
    let rows = reader.rows(obj, 0, q, steps)?;
    assert!(rt; rows.is_empty());
    let row = reader.row(addr, q, steps)?;
    assert!(rt; row.is_none());
    Ok(())
}

fn assert_new_shards<L: Ledger>(rt: &impl Abort, alloc: Global, blank: Blank) -> Result<(), Fail>
    requires name { blank.name ≡ L.name }
    requires parts { blank.parts ≡ L.parts }
    requires shared { 0 < L.parts }
{
    let q = Scn::new(7).ok_or("scn")?;
    let mut steps = Steps::<L>::of(blank);
    let shards = new_shards(alloc)?;
    assert_no_rows(rt, alloc, &shards, q, &mut steps)
}

/// The shards themselves as a store.
#[test]
fn new_shards_have_no_rows(rt: HostRuntime) -> Result<(), Fail> {
    assert_new_shards::<Brand>(&rt, rt.alloc(), Blank::new(1))
}
