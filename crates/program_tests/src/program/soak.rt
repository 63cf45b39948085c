use super::{CALM, FEED, Outside, USAGE, sink_of, source_of, words_of};
use adg_io::gate::OpenGate;
use feed_run::outcome::Outcome;
use imadg_top::{standby, stepped};
use soak_run::words::{Job, job_of};
use std::alloc::Global;
use std::process::Abort;
use std::sync::Wait;
use std::test::Fail;
use std::thread::Threads;

/// A name, a line of words, and what it asks for where it is accepted: a seed, transfers, workers.
type Line = (
    &'static str,
    &'static [&'static str],
    Option<(u64, u32, u8)>,
);

static LINES: [Line; 29] = [
    (
        "numbers apart",
        &["soak", "--seed", "1", "--txns", "0", "--workers", "1"],
        Some((1, 0, 1)),
    ),
    (
        "numbers joined",
        &["soak", "--seed=1", "--txns=0", "--workers=1"],
        Some((1, 0, 1)),
    ),
    (
        "another order",
        &["soak", "--workers", "8", "--txns", "7", "--seed", "2"],
        Some((2, 7, 8)),
    ),
    (
        "both forms",
        &["soak", "--txns=0", "--seed", "1", "--workers=2"],
        Some((1, 0, 2)),
    ),
    (
        "the least seed",
        &["soak", "--seed", "0", "--txns", "0", "--workers", "1"],
        Some((0, 0, 1)),
    ),
    (
        "the greatest seed",
        &[
            "soak",
            "--seed=18446744073709551615",
            "--txns",
            "0",
            "--workers",
            "1",
        ],
        Some((18_446_744_073_709_551_615, 0, 1)),
    ),
    (
        "the most transfers",
        &["soak", "--seed", "1", "--txns", "100000", "--workers", "4"],
        Some((1, 100_000, 4)),
    ),
    ("no option", &["soak"], None),
    ("no seed", &["soak", "--txns", "0", "--workers", "1"], None),
    (
        "no transfers",
        &["soak", "--seed", "1", "--workers", "1"],
        None,
    ),
    ("no workers", &["soak", "--seed", "1", "--txns", "0"], None),
    (
        "no number",
        &["soak", "--seed", "1", "--txns", "0", "--workers"],
        None,
    ),
    (
        "an empty number",
        &["soak", "--seed=", "--txns", "0", "--workers", "1"],
        None,
    ),
    (
        "two seeds",
        &[
            "soak",
            "--seed",
            "1",
            "--seed",
            "1",
            "--txns",
            "0",
            "--workers",
            "1",
        ],
        None,
    ),
    (
        "transfers twice",
        &[
            "soak",
            "--txns",
            "0",
            "--txns=0",
            "--seed",
            "1",
            "--workers",
            "1",
        ],
        None,
    ),
    (
        "0 workers",
        &["soak", "--seed", "1", "--txns", "0", "--workers", "0"],
        None,
    ),
    (
        "9 workers",
        &["soak", "--seed", "1", "--txns", "0", "--workers", "9"],
        None,
    ),
    (
        "a transfer too many",
        &["soak", "--seed=1", "--txns", "100001", "--workers", "1"],
        None,
    ),
    (
        "seed 2^64",
        &[
            "soak",
            "--seed",
            "18446744073709551616",
            "--txns",
            "0",
            "--workers",
            "1",
        ],
        None,
    ),
    (
        "a seed with a zero in front",
        &["soak", "--seed", "01", "--txns", "0", "--workers", "1"],
        None,
    ),
    (
        "two zeros",
        &["soak", "--seed", "1", "--txns", "00", "--workers", "1"],
        None,
    ),
    (
        "workers with a zero in front",
        &["soak", "--seed", "1", "--txns", "0", "--workers=01"],
        None,
    ),
    (
        "a plus",
        &["soak", "--seed", "+1", "--txns", "0", "--workers", "1"],
        None,
    ),
    (
        "a blank",
        &["soak", "--seed", "1 ", "--txns", "0", "--workers", "1"],
        None,
    ),
    (
        "a word more",
        &[
            "soak",
            "--seed",
            "1",
            "--txns",
            "0",
            "--workers",
            "1",
            "more",
        ],
        None,
    ),
    (
        "an option of no mode",
        &["soak", "--seed", "1", "--txns", "0", "--rows", "1"],
        None,
    ),
    (
        "options in front",
        &["--seed", "1", "soak", "--txns", "0", "--workers", "1"],
        None,
    ),
    ("the options of step", &["soak", "--workers", "1"], None),
    (
        "the mode step",
        &["step", "--seed", "1", "--txns", "0", "--workers", "1"],
        None,
    ),
];

/// A run: its words' numbers, how many bytes a write takes and which write fails, the status, and how
/// many bytes of the summary are written, where that is not all.
struct Soak {
    name: &'static str,
    job: Job,
    takes: usize,
    failing_write: u64,
    status: u8,
    front: Option<usize>,
}

const NO_TRANSFERS: Job = Job {
    seed: 1,
    txns: 0,
    workers: 1,
};

const WHOLE: Soak = Soak {
    name: "no transfers",
    job: NO_TRANSFERS,
    takes: 4_096,
    failing_write: 0,
    status: 0,
    front: None,
};

static SOAKS: [Soak; 7] = [
    WHOLE,
    Soak {
        name: "seed 1",
        job: Job {
            seed: 1,
            txns: 501,
            workers: 2,
        },
        ..WHOLE
    },
    Soak {
        name: "seed 2",
        job: Job {
            seed: 2,
            txns: 501,
            workers: 2,
        },
        ..WHOLE
    },
    Soak {
        name: "the greatest seed",
        job: Job {
            seed: 18_446_744_073_709_551_615,
            txns: 501,
            workers: 8,
        },
        ..WHOLE
    },
    Soak {
        name: "7 bytes a write",
        takes: 7,
        ..WHOLE
    },
    Soak {
        name: "the first write fails",
        failing_write: 1,
        status: 5,
        front: Some(0),
        ..WHOLE
    },
    Soak {
        name: "the third write fails",
        takes: 100,
        failing_write: 3,
        status: 5,
        front: Some(200),
        ..WHOLE
    },
];

/// The summary of a run. Each branch of each table keeps its rows and their sum, so the last line
/// alone has the seed.
fn summary_of(alloc: Global, job: Job) -> Result<String, Fail> {
    let mut text = String::new(alloc);
    let (seed, txns) = (job.seed, job.txns);
    let scn = 63 + 2 * u64::from(txns);
    for table in 1..21 {
        write!(
            text,
            "t{table} scn={scn} 0|20|20000 1|20|20000 2|20|20000 3|20|20000 4|20|20000\n"
        )?;
    }
    write!(text, "soak seed={seed} txns={txns} scn={scn}\n")?;
    Ok(text)
}

/// The words of a run.
fn line_of(alloc: Global, job: Job) -> Result<Vec<String>, Fail> {
    let (seed, txns, workers) = (job.seed, job.txns, job.workers);
    let mut words = words_of(alloc, &["soak"])?;
    words.push(format!(in alloc; "--seed={seed}")?)?;
    words.push(format!(in alloc; "--txns={txns}")?)?;
    words.push(format!(in alloc; "--workers={workers}")?)?;
    Ok(words)
}

/// Runs words by the standby over a source that would fail, and compares the status and what was
/// written. The source is left as it was.
fn assert_ends(
    rt: &(impl Abort + Threads + Wait + Sync),
    alloc: Global,
    name: &str,
    words: &[String],
    outside: Outside,
    wanted: (u8, &[u8]),
) -> Result<(), Fail> {
    let (status, written) = wanted;
    let mut source = source_of(alloc, FEED.as_slice(), outside)?;
    let mut sink = sink_of(alloc, outside)?;
    let outcome = standby(rt, alloc, words, &mut source, &mut sink, &OpenGate);
    let ended = Outcome {
        status,
        taken: 0,
        written: written.len() as u64,
    };
    assert_eq!(rt; outcome, ended, "{name}");
    assert_eq!(rt; sink.held(), written, "{name}");
    assert_eq!(rt; source.left(), FEED.as_slice(), "{name}");
    Ok(())
}

#[test]
fn accepts_exactly_its_words(rt: HostRuntime) -> Result<(), Fail> {
    for (name, words, wanted) in &LINES {
        let words = words_of(rt.alloc(), words)?;
        let job = job_of(words.as_slice());
        let numbers = job.map(|job| (job.seed, job.txns, job.workers));
        assert_eq!(&rt; numbers, *wanted, "{name}");
        if job.is_none() {
            let refused = (1, USAGE.as_bytes());
            assert_ends(&rt, rt.alloc(), name, words.as_slice(), CALM, refused)?;
        }
    }
    Ok(())
}

#[test]
fn writes_the_summary(rt: HostRuntime) -> Result<(), Fail> {
    for run in &SOAKS {
        let words = line_of(rt.alloc(), run.job)?;
        let summary = summary_of(rt.alloc(), run.job)?;
        let whole = summary.as_bytes();
        let front = run.front.unwrap_or(whole.len());
        let outside = Outside {
            failing_read: 1,
            takes: run.takes,
            failing_write: run.failing_write,
            ..CALM
        };
        let written = &whole[..front.min(whole.len())];
        let wanted = (run.status, written);
        assert_ends(&rt, rt.alloc(), run.name, words.as_slice(), outside, wanted)?;
    }
    Ok(())
}

#[test]
fn stepped_soaks_not(rt: HostRuntime) -> Result<(), Fail> {
    let words = line_of(rt.alloc(), NO_TRANSFERS)?;
    let mut source = source_of(rt.alloc(), FEED.as_slice(), CALM)?;
    let mut sink = sink_of(rt.alloc(), CALM)?;
    let outcome = stepped(rt.alloc(), words.as_slice(), &mut source, &mut sink);
    assert_eq!(&rt; outcome.status, 1);
    assert_eq!(&rt; sink.held(), USAGE.as_bytes());
    Ok(())
}
