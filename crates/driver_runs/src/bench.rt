ghost use Rattle.std.specs.Prelude.{IfOk};
ghost use Rattle.driver_runs.specs.Run.{HasRun};

use adg_base::memory::Memory;
use adg_io::memory_sink::MemSink;
use adg_io::memory_source::MemSource;
use core_standby::{CoreStandby, Workers};
use feed_run::run::run_feed;
use std::alloc::Global;

/// How many bytes one call gives of the feed, and takes of the lines.
const PIECE: usize = 65_536;

/// How many bytes of lines there is room for.
const ROOM: usize = 1_048_576;

/// How the run of a feed ended, and what it wrote.
#[derive(Debug, Drop)]
pub struct Answer {
    pub status: u8,
    pub lines: Vec<u8>,
}

/// Runs a feed by a new standby over a core of so many workers, from memory to memory.
pub fn run(alloc: Global, workers: Workers, feed: Vec<u8>) -> Result<Answer, Memory>
    ensures { IfOk result (λ answer. HasRun workers feed.items answer) }
{
    let mut source = MemSource::new(feed, PIECE, Vec::new(alloc));
    let mut sink = MemSink::new(alloc, ROOM, PIECE, Vec::new(alloc))?;
    let outcome = run_feed::<CoreStandby, MemSource, MemSink>(
        alloc,
        workers,
        &mut source,
        &mut sink,
    );
    Ok(Answer {
        status: outcome.status,
        lines: Vec::from_slice(alloc, sink.held())?,
    })
}
