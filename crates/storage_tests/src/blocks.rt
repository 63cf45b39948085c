ghost use Rattle.std.specs.Prelude.{◌≡◌, ◌+◌, ◌<◌, if◌then◌else◌, length, IfOk};

use adg_base::address::Addr;
use adg_base::list::List;
use adg_base::log::LogEntry;
use adg_base::number::{Obj, Pos, Scn, Txn};
use adg_base::row::Row;
use adg_base::shard::shard_of;
use adg_base::steps::Steps;
use adg_base::value::{ColKind, Value};
use adg_base::vector::Vector;
use row_blocks::pick::pick;
use row_blocks::shard::{Applied, Shard};
use row_blocks::shards::{apply_in, new_shards, read_block, row_at};
use row_blocks::version::{End, Version};
use std::alloc::Global;
use std::marker::Brand;
use std::process::Abort;
use std::sync::ledger::{Blank, Ledger};
use std::test::Fail;

/// What a transaction does at the one address of these logs, t1.0.0.
#[derive(Clone, Copy)]
enum Deed {
    Put(i64),
    Delete,
    Undo,
    Commit,
    Abort,
}

use Deed::{Abort as Aborts, Commit, Delete, Put, Undo};

fn row(alloc: Global, number: i64) -> Result<Row, Fail> {
    let values = vec![in alloc; Value::Int(number)]?;
    Ok(Row::from_vec(alloc, values)?)
}

fn vector(alloc: Global, txn: u64, deed: Deed) -> Result<Vector, Fail> {
    let txn = Txn::new(txn).ok_or("txn")?;
    let obj = Obj::new(1).ok_or("obj")?;
    let (block, slot) = (0, 0);
    Ok(match deed {
        Put(number) => Vector::Put {
            txn,
            obj,
            block,
            slot,
            row: row(alloc, number)?,
        },
        Delete => Vector::Delete {
            txn,
            obj,
            block,
            slot,
        },
        Undo => Vector::Undo {
            txn,
            obj,
            block,
            slot,
        },
        Commit => Vector::Commit { txn, flag: false },
        Aborts => Vector::Abort { txn },
    })
}

fn entry(pos: u64, scn: u64, vector: Vector) -> Result<LogEntry, Fail> {
    Ok(LogEntry {
        pos: Pos::new(pos),
        scn: Scn::new(scn).ok_or("scn")?,
        thread: 1,
        number: 1,
        index: 1,
        vector,
    })
}

fn log(alloc: Global, deeds: &[(u64, u64, Deed)]) -> Result<Vec<LogEntry>, Fail> {
    let mut entries = Vec::new(alloc);
    let mut pos = 0u64;
    for (scn, txn, deed) in deeds {
        entries.push(entry(pos, *scn, vector(alloc, *txn, *deed)?)?)?;
        pos = pos.wrapping_add(1);
    }
    Ok(entries)
}

/// Applies an entry to its shard.
fn apply(shards: &mut [Shard], entry: &LogEntry) -> Result<Applied, Fail> {
    let number = shard_of(&entry.vector).ok_or("no shard")?;
    let shard = shards.get_mut(number as usize).ok_or("few shards")?;
    if shard.number() == number {
        Ok(shard.apply(entry)?)
    } else {
        Err("number")?
    }
}

/// The 64 shards after a log.
fn applied(alloc: Global, entries: &[LogEntry]) -> Result<Vec<Shard>, Fail>
    ensures { IfOk result (λ shards. length shards.items ≡ 64) }
{
    let mut shards = new_shards(alloc)?;
    for entry in entries {
        apply_in(&mut shards, entry)?;
    }
    Ok(shards)
}

/// The number in the row at t1.0.0, which is the only row of its block.
fn number_at<L: Ledger>(
    rt: &impl Abort,
    alloc: Global,
    shards: &[Shard],
    q: u64,
    steps: &mut Steps<L>,
) -> Result<Option<i64>, Fail>
    requires { length shards.now ≡ 64 }
{
    let obj = Obj::new(1).ok_or("obj")?;
    let addr = Addr::new(obj, 0, 0).ok_or("addr")?;
    let q = Scn::new(q).ok_or("scn")?;
    let mut rows = Vec::new(alloc);
    read_block(shards, obj, 0, q, &mut rows, steps)?;
    let number = number_in(rows.pop())?;
    assert!(rt; rows.is_empty() && number_in(row_at(shards, addr, q, steps))? == number);
    Ok(number)
}

/// A log, as SCN, transaction and deed, and the row at some SCNs after it.
#[derive(Clone, Copy)]
struct Case {
    deeds: &'static [(u64, u64, Deed)],
    rows: &'static [(u64, Option<i64>)],
}

/// The transaction that commits last wins, whatever it did first.
static COMMIT_POSITION_WINS: Case = Case {
    deeds: &[
        (12, 7, Put(1)),
        (13, 8, Put(2)),
        (14, 8, Commit),
        (15, 7, Commit),
    ],
    rows: &[(13, None), (14, Some(2)), (15, Some(1)), (99, Some(1))],
};

static UNDONE: Case = Case {
    deeds: &[
        (11, 7, Put(1)),
        (11, 7, Put(2)),
        (11, 7, Undo),
        (11, 7, Undo),
        (11, 7, Commit),
    ],
    rows: &[(11, None)],
};

/// An Undo strikes the latest change that is not struck.
static LATEST_UNDONE: Case = Case {
    deeds: &[
        (11, 7, Put(1)),
        (12, 7, Put(2)),
        (12, 7, Undo),
        (13, 7, Put(3)),
        (13, 7, Put(4)),
        (13, 7, Undo),
        (14, 7, Commit),
    ],
    rows: &[(13, None), (14, Some(3))],
};

static NOT_COMMITTED: Case = Case {
    deeds: &[(11, 7, Put(5))],
    rows: &[(11, None)],
};

static DELETED_AND_ABORTED: Case = Case {
    deeds: &[
        (11, 7, Put(1)),
        (11, 7, Commit),
        (12, 8, Put(9)),
        (12, 8, Aborts),
        (13, 9, Delete),
        (13, 9, Commit),
    ],
    rows: &[(10, None), (11, Some(1)), (12, Some(1)), (13, None)],
};

fn assert_case<L: Ledger>(
    rt: &impl Abort,
    alloc: Global,
    case: &Case,
    steps: &mut Steps<L>,
) -> Result<(), Fail> {
    let shards = applied(alloc, &log(alloc, case.deeds)?)?;
    for (q, number) in case.rows {
        assert!(rt;
            number_at(rt, alloc, &shards, *q, steps)? == *number,
            "at {q}"
        );
    }
    Ok(())
}

/// The deed of each place in a log of 4,000 puts at one address, 2,000 undos and a commit.
fn deep_deed(place: u64) -> Deed {
    match place {
        0..4000 => Put(place as i64 + 1),
        4000..6000 => Undo,
        _ => Commit,
    }
}

fn assert_deep_redo<L: Ledger>(
    rt: &impl Abort,
    alloc: Global,
    steps: &mut Steps<L>,
) -> Result<(), Fail> {
    let mut entries = Vec::new(alloc);
    for place in 0..6001u64 {
        let vector = vector(alloc, 7, deep_deed(place))?;
        entries.push(entry(place, place / 6000 + 12, vector)?)?;
    }
    let shards = applied(alloc, &entries)?;
    assert!(rt; number_at(rt, alloc, &shards, 12, steps)? == None);
    assert!(rt; number_at(rt, alloc, &shards, 13, steps)? == Some(2000));
    Ok(())
}

static APART: [(u64, u64, Deed); 4] = [
    (12, 7, Put(1)),
    (13, 7, Commit),
    (14, 8, Put(2)),
    (15, 8, Commit),
];

/// Which entry of `APART` is applied, the SCN of a question after it, and its answer: the block's
/// shard is at the end before the transactions' shards are.
static ORDER: [(usize, u64, Option<i64>); 4] = [
    (0, 12, None),
    (2, 12, None),
    (1, 14, Some(1)),
    (3, 15, Some(2)),
];

fn assert_apart<L: Ledger>(
    rt: &impl Abort,
    alloc: Global,
    steps: &mut Steps<L>,
) -> Result<(), Fail> {
    let entries = log(alloc, &APART)?;
    let mut shards = new_shards(alloc)?;
    for (index, q, number) in &ORDER {
        let entry = entries.get(*index).ok_or("entry")?;
        assert!(rt; apply(&mut shards, entry)? == Applied::Done);
        if shards.len() != 64 {
            Err("few shards")?
        }
        assert!(rt;
            number_at(rt, alloc, &shards, *q, steps)? == *number,
            "at {q}"
        );
    }
    Ok(())
}

/// Transactions whose numbers lie far above those of all others. The second end of one is no end.
static DISTANT: [(u64, u64, Deed); 5] = [
    (11, 64_001, Put(1)),
    (12, 64_001, Commit),
    (13, 320_001, Put(2)),
    (13, 320_001, Aborts),
    (13, 64_001, Aborts),
];

static DISTANT_ROWS: [(u64, Option<i64>); 3] = [(11, None), (12, Some(1)), (13, Some(1))];

/// The end that shard 1 has for a transaction.
fn end_in_first(shards: &[Shard], txn: u64) -> Result<Option<End>, Fail> {
    let shard = shards.get(1).ok_or("shard")?;
    Ok(shard.ends(Txn::new(txn).ok_or("txn")?))
}

fn assert_distant<L: Ledger>(
    rt: &impl Abort,
    alloc: Global,
    entries: &[LogEntry],
    steps: &mut Steps<L>,
) -> Result<(), Fail> {
    let shards = applied(alloc, entries)?;
    assert!(rt; end_in_first(&shards, 64_001)? == Some(end(1, 12, true)?));
    assert!(rt; end_in_first(&shards, 320_001)? == Some(end(3, 13, false)?));
    assert!(rt; end_in_first(&shards, 128_001)? == None);
    for (q, number) in &DISTANT_ROWS {
        assert!(rt;
            number_at(rt, alloc, &shards, *q, steps)? == *number,
            "at {q}"
        );
    }
    for (pos, entry) in entries.iter().enumerate().skip(DISTANT.len()) {
        let txn = match &entry.vector {
            Vector::Commit { txn, .. } => txn.get(),
            _ => Err("a commit")?,
        };
        assert!(rt; end_in_first(&shards, txn)? == Some(end(pos as u64, 14, true)?));
    }
    Ok(())
}

/// Ends of distant transactions are found where they stand alone, and behind 1,100 of the same shard
/// that are numbered from the first on and pass one of them.
fn assert_distant_ends<L: Ledger>(
    rt: &impl Abort,
    alloc: Global,
    steps: &mut Steps<L>,
) -> Result<(), Fail> {
    let mut entries = log(alloc, &DISTANT)?;
    assert_distant(rt, alloc, &entries, steps)?;
    for place in (0..1_100u64).filter(|place| *place != 1_000) {
        let pos = entries.len() as u64;
        let txn = place.wrapping_mul(64).wrapping_add(1);
        entries.push(entry(pos, 14, vector(alloc, txn, Commit)?)?)?;
    }
    assert_distant(rt, alloc, &entries, steps)
}

/// Puts at all slots of block t1.0 in a mixed order, twice each, by one transaction that commits.
fn full_block(alloc: Global) -> Result<Vec<LogEntry>, Fail> {
    let txn = Txn::new(7).ok_or("txn")?;
    let obj = Obj::new(1).ok_or("obj")?;
    let mut entries = Vec::new(alloc);
    for pos in 0..128u64 {
        let slot = (pos.wrapping_mul(37) % 64) as u8;
        let row = row(alloc, pos as i64)?;
        let put = Vector::Put {
            txn,
            obj,
            block: 0,
            slot,
            row,
        };
        entries.push(entry(pos, 11, put)?)?;
    }
    entries.push(entry(128, 12, Vector::Commit { txn, flag: false })?)?;
    Ok(entries)
}

/// The rows of a full block are the second of each slot, in the order of the slots.
fn assert_full_block<L: Ledger>(
    rt: &impl Abort,
    alloc: Global,
    steps: &mut Steps<L>,
) -> Result<(), Fail> {
    let entries = full_block(alloc)?;
    let shards = applied(alloc, &entries)?;
    let obj = Obj::new(1).ok_or("obj")?;
    let q = Scn::new(12).ok_or("scn")?;
    let mut rows = Vec::new(alloc);
    read_block(&shards, obj, 0, q, &mut rows, steps)?;
    assert!(rt; rows.len() == 64);
    for slot in 0..64u8 {
        let addr = Addr::new(obj, 0, slot).ok_or("addr")?;
        // 45 times 37 is one more than a multiple of 64
        let pos = u64::from(slot).wrapping_mul(45) % 64 + 64;
        assert!(rt;
            number_in(row_at(&shards, addr, q, steps))? == Some(pos as i64),
            "at {slot}"
        );
    }
    Ok(())
}

/// The row of a version and whether it is struck, and its transaction's end: the position, the SCN
/// and whether it is a commit.
#[derive(Clone, Copy)]
struct Line {
    number: Option<i64>,
    struck: bool,
    end: Option<(u64, u64, bool)>,
}

static LINES: [Line; 7] = [
    Line {
        number: Some(1),
        struck: false,
        end: Some((20, 15, true)),
    },
    Line {
        number: Some(2),
        struck: false,
        end: Some((10, 11, true)),
    },
    Line {
        number: Some(3),
        struck: true,
        end: Some((10, 11, true)),
    },
    Line {
        number: Some(4),
        struck: false,
        end: Some((10, 11, true)),
    },
    Line {
        number: Some(5),
        struck: false,
        end: Some((12, 12, false)),
    },
    Line {
        number: None,
        struck: false,
        end: Some((16, 14, true)),
    },
    Line {
        number: Some(7),
        struck: false,
        end: None,
    },
];

static PICKS: [(u64, Option<i64>); 7] = [
    (10, None),
    (11, Some(4)),
    (12, Some(4)),
    (13, Some(4)),
    (14, None),
    (15, Some(1)),
    (281_474_976_710_655, Some(1)),
];

fn version(alloc: Global, pos: u64, line: &Line) -> Result<Version, Fail> {
    let row = match line.number {
        Some(number) => Some(row(alloc, number)?),
        None => None,
    };
    Ok(Version {
        pos: Pos::new(pos),
        txn: Txn::new(7).ok_or("txn")?,
        row,
        struck: line.struck,
    })
}

fn end(pos: u64, scn: u64, committed: bool) -> Result<End, Fail> {
    Ok(End {
        pos: Pos::new(pos),
        scn: Scn::new(scn).ok_or("scn")?,
        committed,
    })
}

fn number_in(row: Option<&Row>) -> Result<Option<i64>, Fail> {
    match row {
        Some(row) => match row.as_slice() {
            [Value::Int(number)] => Ok(Some(*number)),
            _ => Err("another row")?,
        },
        None => Ok(None),
    }
}

/// One table of versions and ends, with the pick at each SCN.
fn assert_picks<L: Ledger>(
    rt: &impl Abort,
    alloc: Global,
    steps: &mut Steps<L>,
) -> Result<(), Fail> {
    let (mut versions, mut ends) = (Vec::new(alloc), Vec::new(alloc));
    for line in &LINES {
        versions.push(version(alloc, ends.len() as u64, line)?)?;
        ends.push(match line.end {
            Some((pos, scn, committed)) => Some(end(pos, scn, committed)?),
            None => None,
        })?;
    }
    if versions.len() != ends.len() {
        Err("lengths")?
    }
    for (q, number) in &PICKS {
        let row = pick(&versions, &ends, Scn::new(*q).ok_or("scn")?, steps);
        assert!(rt; number_in(row)? == *number, "at {q}");
    }
    Ok(())
}

/// A pick costs no step where there is no row.
fn pick_none<L: Ledger>(steps: &mut Steps<L>) -> bool
    ensures { steps.new ≡ steps.old + (if result then 1 else 0) }
{
    pick(&[], &[], Scn::ZERO, steps).is_some()
}

static DEEDS: [(u64, u64, Deed); 5] = [
    (11, 1, Put(3)),
    (11, 1, Undo),
    (11, 1, Delete),
    (11, 1, Commit),
    (11, 65, Aborts),
];

/// Each kind of vector that has a shard is applied once, and its position is passed.
fn assert_kinds(rt: &impl Abort, alloc: Global) -> Result<(), Fail> {
    let obj = Obj::new(1).ok_or("obj")?;
    let others = vec![in alloc;
        Vector::Begin {
            txn: Txn::new(1).ok_or("txn")?
        },
        Vector::Create {
            obj,
            extents: 1,
            flag: true,
            columns: List::new(alloc)
        },
        Vector::AddColumn {
            obj,
            kind: ColKind::Int
        },
        Vector::NoInMemory { obj },
        Vector::DropObject { obj },
    ]?;
    let mut entries = log(alloc, &DEEDS)?;
    for vector in others {
        let pos = entries.len() as u64;
        entries.push(entry(pos, 11, vector)?)?;
    }
    let mut shards = new_shards(alloc)?;
    for entry in &entries {
        assert!(rt; apply(&mut shards, entry)? == Applied::Done);
        assert!(rt; apply(&mut shards, entry)? == Applied::Already);
    }
    assert_kept(rt, shards.get(1).ok_or("shard")?, obj)
}

fn assert_kept(rt: &impl Abort, shard: &Shard, obj: Obj) -> Result<(), Fail> {
    assert!(rt; shard.applied() == Pos::new(10));
    assert!(rt; shard.versions(Addr::new(obj, 0, 0).ok_or("addr")?).len() == 2);
    assert!(rt;
        shard
            .versions(Addr::new(obj, 0, 1).ok_or("addr")?)
            .is_empty()
    );
    assert!(rt; shard.ends(Txn::new(1).ok_or("txn")?) == Some(end(3, 11, true)?));
    assert!(rt; shard.ends(Txn::new(65).ok_or("txn")?) == Some(end(4, 11, false)?));
    assert!(rt; shard.ends(Txn::new(129).ok_or("txn")?) == None);
    Ok(())
}

fn assert_rows<L: Ledger>(rt: &impl Abort, alloc: Global, blank: Blank) -> Result<(), Fail>
    requires name { blank.name ≡ L.name }
    requires parts { blank.parts ≡ L.parts }
    requires shared { 0 < L.parts }
{
    let mut steps = Steps::<L>::of(blank);
    for case in [
        COMMIT_POSITION_WINS,
        UNDONE,
        LATEST_UNDONE,
        NOT_COMMITTED,
        DELETED_AND_ABORTED,
    ] {
        assert_case(rt, alloc, &case, &mut steps)?;
    }
    assert_deep_redo(rt, alloc, &mut steps)?;
    assert_apart(rt, alloc, &mut steps)?;
    assert_distant_ends(rt, alloc, &mut steps)?;
    assert_full_block(rt, alloc, &mut steps)?;
    assert_picks(rt, alloc, &mut steps)?;
    assert!(rt; !pick_none(&mut steps));
    Ok(())
}

#[test]
fn picks_committed_rows(rt: HostRuntime) -> Result<(), Fail> {
    assert_rows::<Brand>(&rt, rt.alloc(), Blank::new(1))
}

#[test]
fn applies_each_kind_once(rt: HostRuntime) -> Result<(), Fail> {
    assert_kinds(&rt, rt.alloc())
}
