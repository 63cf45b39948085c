ghost use Rattle.std.specs.Prelude.{◌≡◌, []};

use crate::share::Share;
use adg_base::number::Scn;
use adg_journal::Area;
use commit_table::Partition;
use std::alloc::Global;

/// A worker: its share of the log, how many entries of it are applied and mined, the SCN up to which
/// all of it is mined, its area of the journal, and its part of the commit table.
#[derive(Drop)]
pub struct Worker {
    pub(crate) share: Share,
    pub(crate) applied: usize,
    pub(crate) mined: usize,
    pub(crate) progress: Scn,
    pub(crate) area: Area,
    pub(crate) ends: Partition,
}

impl Worker {
    /// A worker that nothing was received for.
    pub(crate) fn idle(alloc: Global) -> Worker
        ensures { result ≡ record { share = []; applied = 0; mined = 0; progress = 0; area = []; ends = [] } }
    {
        Worker {
            share: Share::new(alloc),
            applied: 0,
            mined: 0,
            progress: Scn::ZERO,
            area: Area::new(alloc),
            ends: Partition::new(alloc),
        }
    }
}
