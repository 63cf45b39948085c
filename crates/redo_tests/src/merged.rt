ghost use Rattle.std.specs.Prelude.{◌≡◌, ◌+◌, ◌<◌, ◌≤◌, ◌^◌, length};
ghost use Rattle.log_merger.specs.Merger.{highest_number};

use adg_base::list::{Bytes, List};
use adg_base::log::LogEntry;
use adg_base::number::{Obj, Scn};
use adg_base::vector::{RedoRecord, Vector};
use adg_model::fault::{FrameKind, RedoFault, RedoKind};
use change_vectors::write::write_record;
use log_merger::{MergeRefused, Merger};
use std::alloc::Global;
use std::process::Abort;
use std::test::Fail;

/// An entry that is wanted: its SCN, thread, record and index, and the object that it drops, 0 for the
/// end of a thread.
type Wanted = (u64, u8, u64, u16, u16);

/// What is done with a merger.
#[derive(Clone, Copy)]
enum Step {
    /// A record of a thread comes, with an SCN, that drops so many objects from one on.
    Redo(u8, u64, u16, u16),
    /// The last record of a thread comes.
    End(u8, u64),
    /// The log is drained: the frontier, and how many entries come.
    Drain(u64, usize),
}

/// A record that drops objects, or that ends its thread where the first is 0.
fn record_bytes(alloc: Global, scn: u64, first: u16, count: u16) -> Result<Bytes, Fail> {
    let mut vectors = List::new(alloc);
    for more in 0..count {
        let object = first.saturating_add(more);
        vectors.push(match Obj::new(object) {
            Some(obj) => Vector::DropObject { obj },
            None => Vector::EndThread,
        })?;
    }
    let scn = Scn::new(scn).ok_or("an SCN")?;
    Ok(write_record(alloc, &RedoRecord { scn, vectors })?)
}

/// Whether this is the wanted entry, at its place of the log.
fn is_wanted(entry: &LogEntry, pos: u64, wanted: Wanted) -> bool {
    let (scn, thread, number, index, object) = wanted;
    let named = match entry.vector {
        Vector::DropObject { obj } => obj.get(),
        _ => 0,
    };
    let place = entry.pos.get() == pos && entry.thread == thread && entry.number == number;
    place && entry.scn.get() == scn && entry.index == index && named == object
}

/// Accepts bytes of a thread, as one piece or one by one.
fn accept(
    merger: &mut Merger,
    threads: u8,
    thread: u8,
    bytes: &[u8],
    one_by_one: bool,
) -> Result<(), Fail>
    requires threads { threads ≡ length merger.old.threads }
    requires number { highest_number merger.old < 2 ^ 32 }
    ensures threads { length merger.new.threads ≡ length merger.old.threads }
    ensures number { highest_number merger.new ≤ highest_number merger.old + 65536 }
{
    if thread == 0 || thread > threads || bytes.len() > 65535 {
        return Err(Fail::new("no such thread, or too many bytes"));
    }
    if !one_by_one {
        return Ok(merger.accept(thread, bytes)?);
    }
    for at in 0..bytes.len() {
        merger.accept(thread, &bytes[at..at + 1])?;
    }
    Ok(())
}

/// Does the steps, and compares what comes with the log that is wanted. Positions run on from the first
/// drain.
fn assert_merges(
    rt: &impl Abort,
    alloc: Global,
    threads: u8,
    steps: &[Step],
    log: &[Wanted],
    one_by_one: bool,
) -> Result<(), Fail>
    requires { length steps.now < 1000 }
{
    let mut merger = Merger::new(alloc, threads)?;
    let mut given: usize = 0;
    for step in steps {
        let (thread, bytes) = match *step {
            Step::Redo(thread, scn, first, count) => {
                (thread, record_bytes(alloc, scn, first, count)?)
            }
            Step::End(thread, scn) => (thread, record_bytes(alloc, scn, 0, 1)?),
            Step::Drain(frontier, count) => {
                assert_eq!(rt; merger.frontier().get(), frontier);
                let entries = merger.drain()?;
                assert_eq!(rt; entries.len(), count, "at {frontier}");
                for entry in entries.as_slice() {
                    let wanted = log.get(given).copied().ok_or("no more entries")?;
                    assert!(rt; is_wanted(entry, given as u64, wanted), "at {given}");
                    given = given.saturating_add(1);
                }
                continue;
            }
        };
        accept(&mut merger, threads, thread, bytes.as_slice(), one_by_one)?;
    }
    assert_eq!(rt; given, log.len());
    Ok(())
}

#[test]
fn merges(rt: HostRuntime) -> Result<(), Fail> {
    // equal SCNs: thread 2 comes second, also where its redo came first
    let in_order = [
        Step::Redo(1, 20, 2, 2),
        Step::Redo(2, 20, 4, 2),
        Step::Drain(20, 4),
    ];
    let turned = [
        Step::Redo(2, 20, 4, 2),
        Step::Redo(1, 20, 2, 2),
        Step::Drain(20, 4),
    ];
    let equal = [
        (20, 1, 1, 1, 2),
        (20, 1, 1, 2, 3),
        (20, 2, 1, 1, 4),
        (20, 2, 1, 2, 5),
    ];
    // a silent thread holds the frontier back, and a record without vectors moves it alone
    let silent = [
        Step::Redo(1, 10, 1, 1),
        Step::Drain(0, 0),
        Step::Redo(2, 15, 0, 0),
        Step::Drain(10, 1),
        Step::Redo(1, 12, 0, 0),
        Step::Drain(12, 0),
        Step::Redo(1, 16, 2, 1),
        Step::Drain(15, 0),
    ];
    let first = [(10, 1, 1, 1, 1)];
    // an ended thread does not hold it back; where all have ended it is the greatest last SCN
    let ended = [
        Step::Redo(1, 10, 1, 1),
        Step::End(1, 11),
        Step::Redo(2, 14, 2, 1),
        Step::Redo(3, 13, 3, 1),
        Step::Drain(13, 3),
        Step::End(3, 30),
        Step::Drain(14, 1),
        Step::End(2, 20),
        Step::Drain(30, 2),
    ];
    let to_the_end = [
        (10, 1, 1, 1, 1),
        (11, 1, 2, 1, 0),
        (13, 3, 1, 1, 3),
        (14, 2, 1, 1, 2),
        (20, 2, 2, 1, 0),
        (30, 3, 2, 1, 0),
    ];
    // three threads in equal and interleaved SCNs, over five drains
    let three = [
        Step::Redo(3, 5, 9, 1),
        Step::Redo(1, 5, 1, 2),
        Step::Redo(2, 7, 3, 1),
        Step::Drain(5, 3),
        Step::Redo(1, 8, 4, 1),
        Step::Redo(3, 6, 8, 1),
        Step::Redo(3, 7, 7, 1),
        Step::Drain(7, 3),
        Step::Drain(7, 0),
        Step::Redo(2, 8, 5, 1),
        Step::Redo(2, 11, 6, 1),
        Step::Redo(3, 9, 0, 0),
        Step::Drain(8, 2),
        Step::Redo(1, 12, 0, 0),
        Step::End(3, 12),
        Step::Drain(11, 1),
    ];
    let interleaved = [
        (5, 1, 1, 1, 1),
        (5, 1, 1, 2, 2),
        (5, 3, 1, 1, 9),
        (6, 3, 2, 1, 8),
        (7, 2, 1, 1, 3),
        (7, 3, 3, 1, 7),
        (8, 1, 2, 1, 4),
        (8, 2, 2, 1, 5),
        (11, 2, 3, 1, 6),
    ];
    for one_by_one in [false, true] {
        assert_merges(&rt, rt.alloc(), 2, &in_order, &equal, one_by_one)?;
        assert_merges(&rt, rt.alloc(), 2, &turned, &equal, one_by_one)?;
        assert_merges(&rt, rt.alloc(), 2, &silent, &first, one_by_one)?;
        assert_merges(&rt, rt.alloc(), 3, &ended, &to_the_end, one_by_one)?;
        assert_merges(&rt, rt.alloc(), 3, &three, &interleaved, one_by_one)?;
    }
    Ok(())
}

/// A record of SCN 5 without vectors. Behind it: one of SCN 9 whose vector cannot be read and a length
/// below that of a record; and the end of the thread at SCN 9 and one byte. The length alone.
const GOOD: &[u8] = b"\0\x0d\0\0\0\0\0\0\0\x05\0\0\x0d";

const BAD_VECTOR: &[u8] = b"\0\x0d\0\0\0\0\0\0\0\x05\0\0\x0d\
\0\x0e\0\0\0\0\0\0\0\x09\x01\x0c\0\x0e\0\x0c";

const AFTER_END: &[u8] = b"\0\x0d\0\0\0\0\0\0\0\x05\0\0\x0d\
\0\x0e\0\0\0\0\0\0\0\x09\x01\x0b\0\x0e\0";

const SHORT: &[u8] = b"\0\x0c";

/// Refuses what threads 1 and 2 of three bring: twice with this fault, and some redo between.
fn assert_refuses(
    rt: &impl Abort,
    alloc: Global,
    redo: (&[u8], &[u8]),
    fault: RedoFault,
) -> Result<(), Fail> {
    let (first, second) = redo;
    let mut merger = Merger::new(alloc, 3)?;
    accept(&mut merger, 3, 2, second, false)?;
    accept(&mut merger, 3, 1, first, false)?;
    assert_eq!(rt; merger.drain().err(), Some(MergeRefused::Redo(fault)));
    accept(&mut merger, 3, 3, GOOD, false)?;
    assert_eq!(rt; merger.drain().err(), Some(MergeRefused::Redo(fault)));
    Ok(())
}

#[test]
fn refuses(rt: HostRuntime) -> Result<(), Fail> {
    // of two threads the lower; and the bad vector of a record above the frontier before the bad frame
    // of a later one
    let bad_vector = RedoFault {
        thread: 1,
        number: 2,
        kind: RedoKind::BadVector { index: 1 },
    };
    assert_refuses(&rt, rt.alloc(), (BAD_VECTOR, SHORT), bad_vector)?;
    let after_end = RedoFault {
        thread: 2,
        number: 3,
        kind: RedoKind::Frame(FrameKind::AfterEnd),
    };
    assert_refuses(&rt, rt.alloc(), (GOOD, AFTER_END), after_end)
}
