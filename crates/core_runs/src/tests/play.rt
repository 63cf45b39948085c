//! Plays runs on benches.

ghost use Rattle.std.specs.Prelude.{◌≡◌, OnOk};
ghost use Rattle.core_runs.specs.InStep.{IsInStep};

use crate::Bench;
use crate::tests::line::{Line, Run};
use crate::tests::words::{Ask, Want, event_of, is_wanted};
use adg_base::list::{Bytes, List};
use core_rules::event::CoreAnswer;
use feed_text::assemble::assemble;
use std::alloc::Global;
use std::process::Abort;
use std::test::Fail;

/// How many bytes a frame of redo has before its records: its tag, its length and its thread.
const FRAME_HEAD: usize = 6;

/// How many unit shards a worklink goes to.
const UNIT_SHARDS: u32 = 32;

/// How many blocks an extent has.
const BLOCKS: u32 = 16;

/// A line of a run, by its number from 0.
#[derive(Clone, Copy)]
struct Place {
    run: &'static str,
    line: usize,
}

/// The redo bytes of a line of records.
fn redo_of(alloc: Global, text: &str) -> Result<Bytes, Fail> {
    let frame = assemble(alloc, text.as_bytes())?;
    let redo = frame.as_slice().get(FRAME_HEAD..).ok_or("a frame")?;
    Ok(List::from_slice(alloc, redo)?)
}

/// The records of so many transactions from one on.
fn commits(alloc: Global, first: u64, count: u64) -> Result<String, Fail> {
    let mut text = format!(in alloc; "1")?;
    let mut between = "";
    for txn in first..first.saturating_add(count) {
        let (block, slot) = (txn / 64, txn % 64);
        let record = format!(in alloc;
            "{between}@{txn}: Begin {txn}; Put {txn} t1.{block}.{slot} ({txn}); Commit {txn} +"
        )?;
        text.push_str(record.as_str())?;
        between = " | ";
    }
    Ok(text)
}

/// Asks an event, and compares its answer.
fn ask(
    rt: &impl Abort,
    alloc: Global,
    bench: &mut Bench,
    place: Place,
    ask: Ask,
    want: Want,
) -> Result<(), Fail>
    requires { IsInStep bench.old }
    ensures { IsInStep bench.new }
{
    let answer = bench.ask(event_of(alloc, ask)?)?;
    let wanted = is_wanted(alloc, &answer, want)?;
    let Place { run, line } = place;
    assert!(rt;
        wanted,
        "{run}, line {line}: {ask:?} is answered {answer:?}, not {want:?}"
    );
    Ok(())
}

/// Asks an event so many times, and compares each answer. Gives how many they were.
fn ask_times(
    rt: &impl Abort,
    alloc: Global,
    bench: &mut Bench,
    place: Place,
    count: u32,
    event: Ask,
    want: Want,
) -> Result<u32, Fail>
    requires { IsInStep bench.old }
    ensures { IsInStep bench.new }
{
    for _ in 0..count {
        ask(rt, alloc, bench, place, event, want)?;
    }
    Ok(count)
}

/// Asks an event until it can't happen.
fn ask_while_it_moves(alloc: Global, bench: &mut Bench, event: Ask) -> Result<(), Fail>
    requires { IsInStep bench.old }
    ensures { IsInStep bench.new }
{
    for _ in 0..u64::MAX {
        match bench.ask(event_of(alloc, event)?)? {
            CoreAnswer::Moved => {}
            CoreAnswer::NotReady => return Ok(()),
            CoreAnswer::Said(_) => return Err(Fail::new("a reply")),
        }
    }
    Err(Fail::new("no end"))
}

/// Each worker applies and mines all of its share, and comes to the frontier.
fn work(
    rt: &impl Abort,
    alloc: Global,
    bench: &mut Bench,
    place: Place,
    workers: u8,
) -> Result<(), Fail>
    requires { IsInStep bench.old }
    ensures { IsInStep bench.new }
{
    let frontier = bench.frontier().get();
    for worker in 0..workers {
        ask_while_it_moves(alloc, bench, Ask::Apply(worker))?;
        ask_while_it_moves(alloc, bench, Ask::Mine(worker))?;
        ask(
            rt,
            alloc,
            bench,
            place,
            Ask::Raise(worker, frontier),
            Want::Moved,
        )?;
    }
    Ok(())
}

/// The coordinator takes a worklink from its claim to its end, before which nothing can be published.
/// Gives how many events moved.
fn flush_link(
    rt: &impl Abort,
    alloc: Global,
    bench: &mut Bench,
    place: Place,
    workers: u8,
) -> Result<u32, Fail>
    requires { IsInStep bench.old }
    ensures { IsInStep bench.new }
{
    let areas = u32::from(workers);
    ask(rt, alloc, bench, place, Ask::Publish, Want::NotReady)?;
    let mut moved = ask_times(rt, alloc, bench, place, 1, Ask::Claim(0), Want::Moved)?;
    moved = moved.saturating_add(ask_times(
        rt,
        alloc,
        bench,
        place,
        areas,
        Ask::Collect(0),
        Want::Moved,
    )?);
    moved = moved.saturating_add(ask_times(
        rt,
        alloc,
        bench,
        place,
        UNIT_SHARDS,
        Ask::Touch(0),
        Want::Moved,
    )?);
    moved = moved.saturating_add(ask_times(rt, alloc, bench, place, 1, Ask::Done(0), Want::Moved)?);
    Ok(moved)
}

/// The coordinator flushes all up to the frontier, in so many worklinks.
fn flush(
    rt: &impl Abort,
    alloc: Global,
    bench: &mut Bench,
    place: Place,
    workers: u8,
    links: u32,
) -> Result<(), Fail>
    requires { IsInStep bench.old }
    ensures { IsInStep bench.new }
{
    let frontier = bench.frontier().get();
    ask(
        rt,
        alloc,
        bench,
        place,
        Ask::BeginFlush(frontier),
        Want::Moved,
    )?;
    let mut moved: u32 = 0;
    for _ in 0..links {
        moved = moved.saturating_add(flush_link(rt, alloc, bench, place, workers)?);
    }
    ask(rt, alloc, bench, place, Ask::Claim(0), Want::NotReady)?;
    moved = moved.saturating_add(ask_times(rt, alloc, bench, place, 1, Ask::Publish, Want::Moved)?);
    assert_eq!(rt;
        moved,
        links
            .saturating_mul(u32::from(workers) + 34)
            .saturating_add(1)
    );
    assert_eq!(rt; bench.query_scn().get(), frontier);
    Ok(())
}

/// A population reads an extent.
fn populate_extent(
    rt: &impl Abort,
    alloc: Global,
    bench: &mut Bench,
    place: Place,
    session: u8,
    want: Want,
) -> Result<(), Fail>
    requires { IsInStep bench.old }
    ensures { IsInStep bench.new }
{
    ask_times(
        rt,
        alloc,
        bench,
        place,
        BLOCKS,
        Ask::PopRead(session),
        Want::Moved,
    )?;
    ask(
        rt,
        alloc,
        bench,
        place,
        Ask::PopRead(session),
        Want::NotReady,
    )?;
    ask(rt, alloc, bench, place, Ask::PopEnd(session), want)
}

/// A session populates an object.
fn populate(
    rt: &impl Abort,
    alloc: Global,
    bench: &mut Bench,
    place: Place,
    session: u8,
    obj: u16,
    extents: u32,
    said: &'static str,
) -> Result<(), Fail>
    requires { IsInStep bench.old }
    ensures { IsInStep bench.new }
{
    ask(
        rt,
        alloc,
        bench,
        place,
        Ask::PopBegin(session, obj),
        Want::Moved,
    )?;
    ask_times(
        rt,
        alloc,
        bench,
        place,
        extents,
        Ask::PopRegister(session),
        Want::Moved,
    )?;
    ask(
        rt,
        alloc,
        bench,
        place,
        Ask::PopRegister(session),
        Want::NotReady,
    )?;
    ask(
        rt,
        alloc,
        bench,
        place,
        Ask::PopRelease(session),
        Want::Moved,
    )?;
    for _ in 1..extents {
        populate_extent(rt, alloc, bench, place, session, Want::Moved)?;
    }
    populate_extent(rt, alloc, bench, place, session, Want::Said(said))
}

/// A session's SELECT from its begin to its end.
fn select(
    rt: &impl Abort,
    alloc: Global,
    bench: &mut Bench,
    place: Place,
    session: u8,
    text: &'static str,
    extents: u32,
    said: &'static str,
) -> Result<(), Fail>
    requires { IsInStep bench.old }
    ensures { IsInStep bench.new }
{
    ask(
        rt,
        alloc,
        bench,
        place,
        Ask::ScanBegin(session, text),
        Want::Moved,
    )?;
    ask_times(
        rt,
        alloc,
        bench,
        place,
        extents,
        Ask::ScanExtent(session),
        Want::Moved,
    )?;
    ask(
        rt,
        alloc,
        bench,
        place,
        Ask::ScanExtent(session),
        Want::NotReady,
    )?;
    ask(
        rt,
        alloc,
        bench,
        place,
        Ask::ScanEnd(session),
        Want::Said(said),
    )
}

/// Plays a line.
fn play_line(
    rt: &impl Abort,
    alloc: Global,
    bench: &mut Bench,
    place: Place,
    workers: u8,
    line: Line,
) -> Result<(), Fail>
    requires { IsInStep bench.old }
    ensures { OnOk result (IsInStep bench.new) }
{
    match line {
        Line::Redo(text) => Ok(bench.deliver(redo_of(alloc, text)?)?),
        Line::Commits(first, count) => {
            let text = commits(alloc, first, count)?;
            Ok(bench.deliver(redo_of(alloc, text.as_str())?)?)
        }
        Line::Once(event, want) => ask(rt, alloc, bench, place, event, want),
        Line::Times(count, event, want) => {
            ask_times(rt, alloc, bench, place, count, event, want)?;
            Ok(())
        }
        Line::Work => work(rt, alloc, bench, place, workers),
        Line::Flush(links) => flush(rt, alloc, bench, place, workers, links),
        Line::Populate(session, obj, extents, said) => {
            populate(rt, alloc, bench, place, session, obj, extents, said)
        }
        Line::Select(session, text, extents, said) => {
            select(rt, alloc, bench, place, session, text, extents, said)
        }
    }
}

/// Plays a run.
fn play(rt: &impl Abort, alloc: Global, run: Run) -> Result<(), Fail> {
    let Run {
        name,
        workers,
        sessions,
        lines,
    } = run;
    if workers == 0 {
        return Err(Fail::new("no worker"));
    }
    let mut bench = Bench::new(alloc, workers, sessions)?;
    for (number, line) in lines.iter().enumerate() {
        let place = Place {
            run: name,
            line: number,
        };
        play_line(rt, alloc, &mut bench, place, workers, *line)?;
    }
    Ok(())
}

/// Plays runs, each from a bench of its own on.
pub fn play_all(rt: &impl Abort, alloc: Global, runs: &[Run]) -> Result<(), Fail> {
    for run in runs {
        play(rt, alloc, *run)?;
    }
    Ok(())
}
