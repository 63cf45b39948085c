//! The summary of a realistic run.

ghost use Rattle.std.specs.Prelude.{◌≡◌, ◌≤◌, IfOk};
ghost use Rattle.adg_model.specs.Transcript.{IsTranscript};
ghost use Rattle.feed_gen.specs.Generated.{threads, sessions};
ghost use Rattle.soak_run.specs.Summary.{soaked, IsSummary};
ghost use Rattle.soak_run.specs.Telling.{told_of};

use crate::tally::Tally;
use adg_base::memory::Memory;
use std::alloc::Global;

/// Goes over the lines of a transcript.
fn told(alloc: Global, seed: u64, txns: u32, transcript: &[u8]) -> Result<Vec<u8>, Memory>
    ensures { IfOk result (λ text. text.items ≡ told_of seed txns transcript.now) }
{
    let mut tally = Tally::new(alloc);
    for line in transcript.split(|byte| *byte == b'\n') {
        tally.read(alloc, line)?;
    }
    tally.finish(alloc, seed, txns)
}

/// The summary of a run of the generated feed, of which this is a legal transcript: it has the answers
/// of the last delivery's SELECTs, table by table, and the SCN at which they were given.
pub fn summary(alloc: Global, seed: u64, txns: u32, transcript: &[u8]) -> Result<Vec<u8>, Memory>
    requires { txns ≤ 100000 }
    ensures { IsTranscript threads sessions (soaked seed txns) transcript.now → IfOk result (λ text. IsSummary seed txns text.items) }
{
    told(alloc, seed, txns, transcript)
}
