ghost use Rattle.std.specs.Prelude.{Err};
ghost use Rattle.feed_run.specs.Progress.{Writes, Tells, IsEnded, ending_of, feed_ending};
ghost use Rattle.feed_run.specs.Status.{code_of};
ghost use Rattle.feed_run.specs.View.{sink_view};

use crate::outcome::Status;
use crate::refusal::Refusal;
use crate::report::{feed_refused, redo_refused};
use crate::standby::Unanswered;
use adg_io::outside::Sink;
use adg_io::transfer::write_whole;
use adg_model::fault::{FeedKind, RedoFault};
use feed_frames::fault::FeedFault;
use std::alloc::Global;

/// Writes a piece whole, and adds to the count what the sink took of it.
pub fn put<K: Sink>(sink: &mut K, written: &mut u64, piece: &[u8]) -> Result<(), Refusal>
    ensures { Writes (sink_view (K.held sink.old) (K.faults sink.old)) (sink_view (K.held sink.new) (K.faults sink.new)) written.old written.new piece.now result }
{
    let wrote = write_whole(sink, piece);
    *written = written.saturating_add(wrote.count as u64);
    if wrote.whole {
        Ok(())
    } else {
        Err(Refusal::Write)
    }
}

/// Writes a line, and gives the status that goes with it.
pub fn tell<K: Sink>(sink: &mut K, written: &mut u64, line: &str, status: Status) -> Status
    ensures { Tells (sink_view (K.held sink.old) (K.faults sink.old)) (sink_view (K.held sink.new) (K.faults sink.new)) written.old written.new line.now (code_of status) (code_of result) }
{
    match put(sink, written, line.as_bytes()) {
        Ok(()) => status,
        Err(_) => Status::SinkFailed,
    }
}

/// Ends a run whose feed is refused or could not be read.
fn refuse_feed<K: Sink>(alloc: Global, sink: &mut K, written: &mut u64, fault: FeedFault) -> Status
    ensures { IsEnded (feed_ending fault.kind fault.byte) (sink_view (K.held sink.old) (K.faults sink.old)) (sink_view (K.held sink.new) (K.faults sink.new)) written.old written.new (code_of result) }
{
    match fault.kind {
        FeedKind::Read => Status::SourceFailed,
        FeedKind::Memory => Status::NoMemory,
        kind => match feed_refused(alloc, kind, fault.byte) {
            Ok(line) => tell(sink, written, line.as_str(), Status::FeedRefused),
            Err(_) => Status::NoMemory,
        },
    }
}

/// Ends a run whose redo is refused.
fn refuse_redo<K: Sink>(alloc: Global, sink: &mut K, written: &mut u64, fault: RedoFault) -> Status
    ensures { IsEnded (ending_of (Err (Refusal.Delivery (Unanswered.Redo fault)))) (sink_view (K.held sink.old) (K.faults sink.old)) (sink_view (K.held sink.new) (K.faults sink.new)) written.old written.new (code_of result) }
{
    match redo_refused(alloc, fault) {
        Ok(line) => tell(sink, written, line.as_str(), Status::RedoRefused),
        Err(_) => Status::NoMemory,
    }
}

/// Ends a run: where it stopped before its feed did, a line tells why.
pub fn conclude<K: Sink>(
    alloc: Global,
    sink: &mut K,
    written: &mut u64,
    ended: Result<(), Refusal>,
) -> Status
    ensures { IsEnded (ending_of ended) (sink_view (K.held sink.old) (K.faults sink.old)) (sink_view (K.held sink.new) (K.faults sink.new)) written.old written.new (code_of result) }
{
    match ended {
        Ok(()) => Status::FeedRead,
        Err(Refusal::Feed(fault)) => refuse_feed(alloc, sink, written, fault),
        Err(Refusal::Delivery(Unanswered::Redo(fault))) => refuse_redo(alloc, sink, written, fault),
        Err(Refusal::Delivery(Unanswered::Memory)) => Status::NoMemory,
        Err(Refusal::Write) => Status::SinkFailed,
    }
}
