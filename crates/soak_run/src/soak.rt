//! The run of a generated feed in memory, and its summary.

ghost use Rattle.std.specs.Prelude.{◌≡◌, ◌≤◌, ℕ, List, Option, IfOk};
ghost use Rattle.feed_gen.specs.Generated.{threads, sessions};
ghost use Rattle.feed_run.specs.Headline.{Headline};
ghost use Rattle.feed_run.specs.Standby.{SomeAnswered};
ghost use Rattle.feed_run.specs.View.{source_view, sink_view};
ghost use Rattle.soak_run.specs.Run.{TellsTranscripts, SoakEnds, IsSoakComplete, Offers};
ghost use Rattle.soak_run.specs.Summary.{soaked, IsSummary};

use crate::summary::summary;
use crate::transcript::Transcript;
use adg_base::memory::Memory;
use adg_io::memory_source::MemSource;
use adg_io::outside::Sink;
use adg_io::transfer::write_whole;
use feed_gen::generate::generate;
use feed_run::outcome::{Outcome, Status};
use feed_run::run::run_feed;
use feed_run::standby::Standby;
use std::alloc::Global;

/// How many bytes of the feed are given at once.
const PIECE_LEN: usize = 65_536;

/// The transcript of the generated feed. The feed has no fault, and its source never fails, so nothing
/// but want of memory keeps the run from its end.
fn transcript_of<S: Standby>(
    alloc: Global,
    setup: S::Setup,
    seed: u64,
    txns: u32,
) -> Result<Vec<u8>, Memory>
    requires { txns ≤ 100000 }
    ensures { IfOk result (λ bytes. SomeAnswered S.answered setup threads sessions (soaked seed txns) bytes.items) }
{
    let feed = generate(alloc, seed, txns)?;
    let mut source = MemSource::new(feed.into_vec(), PIECE_LEN, Vec::new(alloc));
    let mut sink = Transcript::new(alloc);
    let outcome = run_feed::<S, MemSource, Transcript>(alloc, setup, &mut source, &mut sink);
    if outcome.status == Status::FeedRead.code() {
        Ok(sink.bytes)
    } else {
        Err(Memory)
    }
}

/// The summary of the run of the generated feed.
fn summary_of<S: Standby>(
    alloc: Global,
    setup: S::Setup,
    seed: u64,
    txns: u32,
) -> Result<Vec<u8>, Memory>
    requires { txns ≤ 100000 }
    ensures { TellsTranscripts (SomeAnswered S.answered setup) → IfOk result (λ text. IsSummary seed txns text.items) }
{
    let transcript = transcript_of::<S>(alloc, setup, seed, txns)?;
    let text = summary(alloc, seed, txns, transcript.as_slice())?;
    Ok(text)
}

/// Writes a text whole, and ends with status 0 where that was done.
fn end_with<K: Sink>(sink: &mut K, text: &[u8]) -> Outcome
    ensures { Offers (sink_view (K.held sink.old) (K.faults sink.old)) (sink_view (K.held sink.new) (K.faults sink.new)) text.now result }
{
    let wrote = write_whole(sink, text);
    let written = wrote.count as u64;
    if wrote.whole {
        Outcome {
            status: Status::FeedRead.code(),
            taken: 0,
            written,
        }
    } else {
        Outcome {
            status: Status::SinkFailed.code(),
            taken: 0,
            written,
        }
    }
}

/// Runs the generated feed of a seed and a number of transfers in memory, and writes the summary of its
/// run to a sink, as one piece. Nothing is taken from any source.
pub fn soak<S: Standby, K: Sink>(
    alloc: Global,
    setup: S::Setup,
    seed: u64,
    txns: u32,
    sink: &mut K,
) -> Outcome
    requires { txns ≤ 100000 }
    ensures headline { TellsTranscripts (SomeAnswered S.answered setup) → (left : Option (List ℕ)) (faults : ℕ) → Headline (SoakEnds seed txns) (source_view left faults) (source_view left faults) (sink_view (K.held sink.old) (K.faults sink.old)) (sink_view (K.held sink.new) (K.faults sink.new)) result }
    ensures complete { IsSoakComplete (sink_view (K.held sink.old) (K.faults sink.old)) (sink_view (K.held sink.new) (K.faults sink.new)) result }
{
    match summary_of::<S>(alloc, setup, seed, txns) {
        Ok(text) => end_with(sink, text.as_slice()),
        Err(Memory) => Outcome {
            status: Status::NoMemory.code(),
            taken: 0,
            written: 0,
        },
    }
}
