ghost use Rattle.std.specs.Prelude.{◌≡◌, map, string_bytes};
ghost use Rattle.feed_run.specs.View.{source_view, sink_view};
ghost use Rattle.imadg_top.specs.Headline.{Headline, IsComplete};
ghost use Rattle.imadg_top.specs.Stepped.{SteppedHeadline, IsSteppedComplete};

use crate::kept::Kept;
use crate::words::workers;
use adg_io::outside::{Gate, Sink, Source};
use core_standby::{CoreStandby, Workers};
use feed_run::outcome::Outcome;
use feed_run::run::{refuse_words, run_feed};
use soak_run::soak::soak;
use soak_run::words::job_of;
use std::alloc::Global;
use std::sync::Wait;
use std::thread::Threads;

/// Answers the feed of a source to a sink on one thread, on which the actors of the core take turns.
/// The words are those after the program's name; they say how many workers the core has. It is the
/// last thing that a program does: what the standby holds at the end is not freed.
pub fn stepped<R: Source, K: Sink>(
    alloc: Global,
    words: &[String],
    source: &mut R,
    sink: &mut K,
) -> Outcome
    ensures headline { SteppedHeadline (map (λ w. string_bytes w) words.now) (source_view (R.left source.old) (R.faults source.old)) (source_view (R.left source.new) (R.faults source.new)) (sink_view (K.held sink.old) (K.faults sink.old)) (sink_view (K.held sink.new) (K.faults sink.new)) result }
    ensures complete { IsSteppedComplete (map (λ w. string_bytes w) words.now) (source_view (R.left source.old) (R.faults source.old)) (source_view (R.left source.new) (R.faults source.new)) (sink_view (K.held sink.old) (K.faults sink.old)) (sink_view (K.held sink.new) (K.faults sink.new)) result }
{
    match workers(words) {
        Some(number) => {
            let workers = Workers::new(number);
            run_feed::<Kept<CoreStandby>, R, K>(alloc, workers, source, sink)
        }
        None => refuse_words(sink),
    }
}

/// The standby: it does what the words say that follow the program's name. In the mode `soak` it
/// runs a generated feed in memory, takes nothing from the source, and writes the summary of that run
/// to the sink. In the mode `step`, and where the words are no accepted line, it does what `stepped`
/// does. No actor passes the gate in either mode.
pub fn standby<H: Threads + Wait + Sync, R: Source, K: Sink, G: Gate>(
    _rt: &H,
    alloc: Global,
    words: &[String],
    source: &mut R,
    sink: &mut K,
    _gate: &G,
) -> Outcome
    ensures headline { Headline (map (λ w. string_bytes w) words.now) (source_view (R.left source.old) (R.faults source.old)) (source_view (R.left source.new) (R.faults source.new)) (sink_view (K.held sink.old) (K.faults sink.old)) (sink_view (K.held sink.new) (K.faults sink.new)) result }
    ensures complete { IsComplete (map (λ w. string_bytes w) words.now) (source_view (R.left source.old) (R.faults source.old)) (source_view (R.left source.new) (R.faults source.new)) (sink_view (K.held sink.old) (K.faults sink.old)) (sink_view (K.held sink.new) (K.faults sink.new)) result }
{
    match job_of(words) {
        Some(job) => {
            let workers = Workers::new(job.workers);
            soak::<Kept<CoreStandby>, K>(alloc, workers, job.seed, job.txns, sink)
        }
        None => stepped(alloc, words, source, sink),
    }
}
