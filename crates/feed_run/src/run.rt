ghost use Rattle.std.specs.Prelude.{◌≡◌, ℕ, List, Option};
ghost use Rattle.feed_frames.specs.State.{fresh};
ghost use Rattle.feed_run.specs.Ending.{RunEnds, UsageEnds};
ghost use Rattle.feed_run.specs.Headline.{HasCauses, Headline, IsComplete};
ghost use Rattle.feed_run.specs.Progress.{RunStops, ending_of};
ghost use Rattle.feed_run.specs.Standby.{SomeAnswered};
ghost use Rattle.feed_run.specs.View.{source_view, sink_view};

use crate::outcome::{Outcome, Status};
use crate::refusal::Refusal;
use crate::report::usage;
use crate::standby::Standby;
use crate::telling::{conclude, put, tell};
use adg_io::outside::{Sink, Source};
use feed_frames::reader::{FeedReader, Step};
use std::alloc::Global;

/// Reads a feed to its end, has each delivery answered, and writes its lines as one piece before
/// the next is read.
fn answer_deliveries<S: Standby, R: Source, K: Sink>(
    alloc: Global,
    setup: S::Setup,
    reader: &mut FeedReader,
    source: &mut R,
    sink: &mut K,
    written: &mut u64,
) -> Result<(), Refusal>
    requires fresh { reader.old ≡ fresh }
    requires none { written.old ≡ 0 }
    ensures stops { RunStops (SomeAnswered S.answered setup) (R.left source.old) (R.left source.new) (K.held sink.old) (K.held sink.new) reader.new.taken written.new (ending_of result) }
    ensures causes { HasCauses (ending_of result) (source_view (R.left source.old) (R.faults source.old)) (source_view (R.left source.new) (R.faults source.new)) (sink_view (K.held sink.old) (K.faults sink.old)) (sink_view (K.held sink.new) (K.faults sink.new)) }
{
    if let Err(fault) = reader.read_header(source) {
        return Err(Refusal::Feed(fault));
    }
    let mut standby = S::begin(alloc, setup, reader.threads(), reader.sessions())?;
    'deliveries: loop {
        let delivery = match reader.next_delivery(source) {
            Ok(Step::Delivery(delivery)) => delivery,
            Ok(Step::End) => return Ok(()),
            Err(fault) => return Err(Refusal::Feed(fault)),
        };
        let lines = standby.deliver(alloc, delivery)?;
        put(sink, written, lines.as_slice())?;
    }
}

/// Runs the feed of a source: a standby answers its deliveries to a sink, and a line tells what
/// ended the run before its feed did.
pub fn run_feed<S: Standby, R: Source, K: Sink>(
    alloc: Global,
    setup: S::Setup,
    source: &mut R,
    sink: &mut K,
) -> Outcome
    ensures headline { Headline (RunEnds (SomeAnswered S.answered setup) (R.left source.old)) (source_view (R.left source.old) (R.faults source.old)) (source_view (R.left source.new) (R.faults source.new)) (sink_view (K.held sink.old) (K.faults sink.old)) (sink_view (K.held sink.new) (K.faults sink.new)) result }
    ensures complete { IsComplete (source_view (R.left source.old) (R.faults source.old)) (source_view (R.left source.new) (R.faults source.new)) (sink_view (K.held sink.old) (K.faults sink.old)) (sink_view (K.held sink.new) (K.faults sink.new)) result }
{
    let mut written: u64 = 0;
    let mut reader = FeedReader::new(alloc);
    let ended = answer_deliveries::<S, R, K>(alloc, setup, &mut reader, source, sink, &mut written);
    let status = conclude(alloc, sink, &mut written, ended);
    Outcome {
        status: status.code(),
        taken: reader.taken(),
        written,
    }
}

/// Ends a run whose words are no accepted line: nothing is read, and the usage line is written.
pub fn refuse_words<K: Sink>(sink: &mut K) -> Outcome
    ensures headline { (left : Option (List ℕ)) (faults : ℕ) → Headline UsageEnds (source_view left faults) (source_view left faults) (sink_view (K.held sink.old) (K.faults sink.old)) (sink_view (K.held sink.new) (K.faults sink.new)) result }
{
    let mut written: u64 = 0;
    let status = tell(sink, &mut written, usage(), Status::WordsRefused);
    Outcome {
        status: status.code(),
        taken: 0,
        written,
    }
}
