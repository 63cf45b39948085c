ghost use Rattle.std.specs.Prelude.{◌≡◌, ◌+◌, ◌<◌, length, IfOk};
ghost use Rattle.std.specs.List.{AllByRecursion};
ghost use Rattle.adg_model.specs.Feed.{IsIn};
ghost use Rattle.redo_intake.specs.Intake.{bytes_of};

use adg_base::command::CommandText;
use adg_base::list::{Bytes, List};
use adg_base::log::LogEntry;
use adg_base::number::{Scn, Txn};
use adg_base::vector::{RedoRecord, Vector, VectorList};
use adg_model::delivery::{RawDelivery, RedoPiece};
use adg_model::fault::{CheckKind, FrameKind, RedoFault, RedoKind};
use change_vectors::write::write_record;
use redo_intake::{IntakeRefused, RedoIntake};
use std::alloc::Global;
use std::process::Abort;
use std::test::Fail;

/// A vector in short.
#[derive(Clone, Copy)]
enum Line {
    Begin(u64),
    Commit(u64, bool),
    Nothing,
}

/// A record: its SCN and its vectors. With SCN 0 a record that is too short.
type Record = (u64, Line, Line);

/// The record that a delivery brings of each of two threads, and what is wanted then: the frontier, and
/// how many entries come in all, or the fault.
type Case = (Record, Record, u64, usize, Option<RedoFault>);

/// Where an entry is to come from: its thread, record and index.
type Place = (u8, u64, u16);

fn push_line(vectors: &mut VectorList, line: Line) -> Result<(), Fail> {
    match line {
        Line::Begin(txn) => vectors.push(Vector::Begin {
            txn: Txn::new(txn).ok_or("a transaction")?,
        })?,
        Line::Commit(txn, flag) => vectors.push(Vector::Commit {
            txn: Txn::new(txn).ok_or("a transaction")?,
            flag,
        })?,
        Line::Nothing => {}
    }
    Ok(())
}

fn record_bytes(alloc: Global, record: Record) -> Result<Bytes, Fail> {
    let (scn, first, second) = record;
    if scn == 0 {
        return Ok(List::from_slice(alloc, [0, 12].as_slice())?);
    }
    let mut vectors = List::new(alloc);
    push_line(&mut vectors, first)?;
    push_line(&mut vectors, second)?;
    let scn = Scn::new(scn).ok_or("an SCN")?;
    Ok(write_record(alloc, &RedoRecord { scn, vectors })?)
}

/// The redo of thread 2 comes first.
fn delivery(alloc: Global, one: Bytes, two: Bytes) -> Result<RawDelivery, Fail>
    ensures threads { IfOk result (λ d. AllByRecursion (λ piece. IsIn 2 piece.thread) d.pieces) }
    ensures bytes { IfOk result (λ d. length (bytes_of d.pieces) ≡ length two + length one) }
{
    let mut pieces = List::new(alloc);
    pieces.push(RedoPiece {
        thread: 2,
        bytes: two,
    })?;
    pieces.push(RedoPiece {
        thread: 1,
        bytes: one,
    })?;
    let commands: List<CommandText> = List::new(alloc);
    let schedule = List::from_slice(alloc, [7].as_slice())?;
    Ok(RawDelivery {
        pieces,
        commands,
        schedule,
    })
}

/// Compares entries with the places from one on. Gives how many have come then.
fn assert_come(rt: &impl Abort, entries: &[LogEntry], places: &[Place], from: usize) -> usize {
    let mut given = from;
    for entry in entries {
        let place = (entry.thread, entry.number, entry.index);
        assert_eq!(rt; places.get(given).copied(), Some(place));
        assert_eq!(rt; entry.pos.get(), given as u64);
        given = given.saturating_add(1);
    }
    given
}

/// Takes deliveries of two threads one after another, and compares what comes.
fn assert_takes(
    rt: &impl Abort,
    alloc: Global,
    cases: &[Case],
    places: &[Place],
) -> Result<(), Fail>
    requires { length cases.now < 1000 }
{
    let mut intake = RedoIntake::new(alloc, 2)?;
    let mut given: usize = 0;
    for case in cases {
        let (first, second, frontier, count, fault) = *case;
        let one = record_bytes(alloc, first)?;
        let two = record_bytes(alloc, second)?;
        if one.len() > 65535 || two.len() > 65535 {
            return Err(Fail::new("too many bytes"));
        }
        let checked = match intake.take(delivery(alloc, one, two)?) {
            Ok(checked) => checked,
            Err(IntakeRefused::Redo(found)) => {
                assert_eq!(rt; Some(found), fault);
                return Ok(());
            }
            Err(IntakeRefused::Memory) => return Err(Fail::new("want of memory")),
        };
        assert_eq!(rt; fault, None);
        assert_eq!(rt; checked.frontier.get(), frontier);
        assert_eq!(rt; intake.frontier().get(), frontier);
        assert_eq!(rt; checked.schedule.as_slice(), [7].as_slice());
        given = assert_come(rt, checked.entries.as_slice(), places, given);
        assert_eq!(rt; given, count);
    }
    Ok(())
}

#[test]
fn takes_deliveries(rt: HostRuntime) -> Result<(), Fail> {
    // equal SCNs: only with thread 1 first is the log sound; then the frontier holds an entry back, and
    // with it comes a commit whose flag is bad
    let bad_flag = RedoFault {
        thread: 1,
        number: 3,
        kind: RedoKind::Unsound {
            index: 2,
            check: CheckKind::BadFlag,
        },
    };
    let sound = [
        (
            (10, Line::Begin(1), Line::Nothing),
            (10, Line::Commit(1, false), Line::Nothing),
            10,
            2,
            None,
        ),
        (
            (20, Line::Begin(2), Line::Nothing),
            (15, Line::Begin(3), Line::Commit(3, false)),
            15,
            4,
            None,
        ),
        (
            (30, Line::Begin(4), Line::Commit(2, true)),
            (40, Line::Nothing, Line::Nothing),
            0,
            0,
            Some(bad_flag),
        ),
    ];
    let places = [(1, 1, 1), (2, 1, 1), (2, 2, 1), (2, 2, 2)];
    assert_takes(&rt, rt.alloc(), sound.as_slice(), places.as_slice())?;
    // a bad record of thread 2 comes before an unsound entry of thread 1
    let bad_record = RedoFault {
        thread: 2,
        number: 1,
        kind: RedoKind::Frame(FrameKind::BadLength),
    };
    let refused = [(
        (10, Line::Commit(5, false), Line::Nothing),
        (0, Line::Nothing, Line::Nothing),
        0,
        0,
        Some(bad_record),
    )];
    assert_takes(&rt, rt.alloc(), refused.as_slice(), [].as_slice())
}
