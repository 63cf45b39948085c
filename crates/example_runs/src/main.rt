//! Runs each feed of the examples and each worked case, and says whether the status and what was
//! written are those that are stored; and turns the text of each example into its feed, and the feed
//! into text and back. The examples lie where it runs.
#![tactic(auto)]

mod cases;
mod texts;

use crate::cases::{CASES, CHANGED, CHANGED_LINES, Case, READ_LINES};
use crate::texts::said_of_text;
use adg_io::gate::OpenGate;
use adg_io::memory_sink::MemSink;
use adg_io::memory_source::MemSource;
use feed_text::assemble::assemble;
use imadg_top::standby;
use std::alloc::Global;
use std::io::ErrorKind;
use std::rt::Files;
use std::sync::Wait;
use std::thread::Threads;
use std::{fs, io};

/// The names of the feeds, and the statuses that their runs end with.
const EXAMPLES: [(&str, u8); 12] = [
    ("smallest", 0),
    ("first_answer", 0),
    ("changed_row", 0),
    ("restart", 0),
    ("schedule", 0),
    ("two_sessions", 0),
    ("rich", 0),
    ("two_threads", 0),
    ("groups", 0),
    ("bad_trailer", 3),
    ("bad_flag", 3),
    ("cut_short", 2),
];

/// The words of a run with one worker.
const STEP: [&str; 3] = ["step", "--workers", "1"];

/// The words of a realistic run that comes to its ABORT and populates its tables again.
const SOAK: [&str; 7] = ["soak", "--seed", "1", "--txns", "5000", "--workers", "4"];

/// Schedule bytes, which are put in front of each delivery of a case that prints the same with any.
const SCHEDULES: [&str; 3] = ["01 01 02", "00*40", "03*20 02*9 01*30"];

/// Words of their own.
fn owned(alloc: Global, words: &[&str]) -> io::Result<Vec<String>> {
    let mut owned = Vec::new(alloc);
    for word in words {
        owned.push(format!(in alloc; "{word}")?)?;
    }
    Ok(owned)
}

/// Whether a run over a feed ends with this status, and writes this.
fn ends_so<H: Threads + Wait + Sync>(
    rt: &H,
    alloc: Global,
    words: &[&str],
    feed: Vec<u8>,
    wanted: (u8, &[u8]),
) -> io::Result<bool> {
    let (status, written) = wanted;
    let words = owned(alloc, words)?;
    let mut source = MemSource::new(feed, 4_096, Vec::new(alloc));
    let Ok(mut sink) = MemSink::new(alloc, 1_048_576, 4_096, Vec::new(alloc)) else {
        return Err(ErrorKind::OutOfMemory.into());
    };
    let outcome = standby(
        rt,
        alloc,
        words.as_slice(),
        &mut source,
        &mut sink,
        &OpenGate,
    );
    Ok(outcome.status == status && sink.held() == written)
}

/// Whether the feed of an example runs as what is stored beside it says.
fn is_as_stored<H: Files + Alloc<A = Global> + Threads + Wait + Sync>(
    rt: &H,
    name: &str,
    status: u8,
) -> io::Result<bool> {
    let alloc = rt.alloc();
    let feed = fs::read(rt, format!(in alloc; "{name}.feed")?.as_str())?;
    let stored = fs::read(rt, format!(in alloc; "{name}.out")?.as_str())?;
    ends_so(rt, alloc, &STEP, feed, (status, stored.as_slice()))
}

/// The text of a feed with schedule bytes in front of each of its deliveries.
fn scheduled(alloc: Global, text: &str, schedule: &str) -> io::Result<String> {
    let mut whole = String::new(alloc);
    let mut begins = false;
    for line in text.split('\n') {
        if begins && line != "stop" {
            write!(whole, "schedule {schedule}\n")?;
        }
        write!(whole, "{line}\n")?;
        begins = line == "end" || line.starts_with("threads ");
    }
    Ok(whole)
}

/// Whether the feed of a text runs as its case says, with each of its numbers of workers.
fn runs_so<H: Threads + Wait + Sync>(
    rt: &H,
    alloc: Global,
    case: &Case,
    text: &str,
    lines: &[u8],
) -> io::Result<bool> {
    for workers in case.workers {
        let Ok(feed) = assemble(alloc, text.as_bytes()) else {
            return Ok(false);
        };
        let words = ["step", "--workers", *workers];
        if !ends_so(rt, alloc, &words, feed, (case.status, lines))? {
            return Ok(false);
        }
    }
    Ok(true)
}

/// Whether the feed of a case runs as what is stored beside it says, and where schedule bytes change
/// nothing, with these too.
fn is_as_worked<H: Files + Alloc<A = Global> + Threads + Wait + Sync>(
    rt: &H,
    case: &Case,
) -> io::Result<bool> {
    let alloc = rt.alloc();
    let name = case.name;
    let text = fs::read_to_string(rt, format!(in alloc; "worked_{name}.txt")?.as_str())?;
    let lines = fs::read(rt, format!(in alloc; "worked_{name}.out")?.as_str())?;
    if !runs_so(rt, alloc, case, text.as_str(), lines.as_slice())? {
        return Ok(false);
    }
    if !case.any_schedule {
        return Ok(true);
    }
    for schedule in SCHEDULES {
        let text = scheduled(alloc, text.as_str(), schedule)?;
        if !runs_so(rt, alloc, case, text.as_str(), lines.as_slice())? {
            return Ok(false);
        }
    }
    Ok(true)
}

/// A feed in which a row of a populated table changes, and an ABORT is answered after so many turns
/// of the coordinator and of two workers.
fn stopped_text(alloc: Global, turns: u32) -> io::Result<String> {
    let mut text = String::new(alloc);
    text.push_str(CHANGED)?;
    text.push_str("session 1: ABORT\nschedule")?;
    for turn in 0..turns {
        let actor = turn % 3;
        write!(text, " 0{actor}")?;
    }
    text.push_str(" 03\nend\nsession 1: SYNC\nsession 1: SELECT * FROM t1\nend\nstop\n")?;
    Ok(text)
}

/// Whether an ABORT after each event of a flush leaves the rows right. The 124th turn publishes.
fn stops_as_worked<H: Threads + Wait + Sync>(rt: &H, alloc: Global) -> io::Result<bool> {
    for turns in 0..127 {
        let text = stopped_text(alloc, turns)?;
        let Ok(feed) = assemble(alloc, text.as_bytes()) else {
            return Ok(false);
        };
        let scn = if turns < 124 { 11 } else { 12 };
        let lines = format!(in alloc;
            "{CHANGED_LINES}d3 s1 c1 scn={scn} aborted\nd3 end scn={scn}\n{READ_LINES}"
        )?;
        if !ends_so(
            rt,
            alloc,
            &["step", "--workers", "2"],
            feed,
            (0, lines.as_bytes()),
        )? {
            return Ok(false);
        }
    }
    Ok(true)
}

/// Whether a realistic run writes the summary that is stored. Its feed is not read.
fn soaks_as_stored<H: Files + Alloc<A = Global> + Threads + Wait + Sync>(
    rt: &H,
) -> io::Result<bool> {
    let alloc = rt.alloc();
    let stored = fs::read(rt, "soak.out")?;
    ends_so(rt, alloc, &SOAK, Vec::new(alloc), (0, stored.as_slice()))
}

/// Says of each example whether it runs as stored, and what there is to say of its text.
fn tell_of_examples<H: Files + Print + Alloc<A = Global> + Threads + Wait + Sync>(
    rt: &H,
    examples: &[(&str, u8)],
) -> io::Result<()> {
    for (name, status) in examples {
        if is_as_stored(rt, name, *status)? {
            println!(rt; "{name}: status {status}, as stored")?;
        } else {
            println!(rt; "{name}: another status or other lines")?;
        }
        let said = said_of_text(rt, name)?;
        println!(rt; "{name}: {said}")?;
    }
    Ok(())
}

/// Says of each case whether it runs as worked.
fn tell_of_cases<H: Files + Print + Alloc<A = Global> + Threads + Wait + Sync>(
    rt: &H,
    cases: &[Case],
) -> io::Result<()> {
    for case in cases {
        let name = case.name;
        if is_as_worked(rt, case)? {
            println!(rt; "{name}: as worked")?;
        } else {
            println!(rt; "{name}: another status or other lines")?;
        }
    }
    Ok(())
}

fn main(rt: HostRuntime) -> io::Result<()> {
    tell_of_examples(&rt, &EXAMPLES)?;
    tell_of_cases(&rt, &CASES)?;
    if stops_as_worked(&rt, rt.alloc())? {
        println!(rt; "a stop after each of 127 turns: as worked")?;
    } else {
        println!(rt; "a stop after each of 127 turns: another status or other lines")?;
    }
    if soaks_as_stored(&rt)? {
        println!(rt; "a realistic run: as stored")?;
    } else {
        println!(rt; "a realistic run: another status or another summary")?;
    }
    Ok(())
}
