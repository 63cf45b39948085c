ghost use Rattle.std.specs.Prelude.{◌≡◌, ◌<◌, length};
ghost use Rattle.core_rules.specs.State.{CoreState};
ghost use Rattle.standby_core.specs.Shows.{IsState, HasState};
ghost use Rattle.standby_core.specs.Looks.{IsProgress, IsMinedThrough};

use crate::standby::Core;
use adg_base::number::Scn;
use row_blocks::shard::Shard;

impl Core {
    /// How many workers there are.
    pub fn workers(&self) -> u8
        ensures { (c : CoreState) → IsState self.now c → result ≡ length c.workers }
    {
        self.worker_count
    }

    /// How many sessions there are.
    pub fn sessions(&self) -> u8
        ensures { (c : CoreState) → IsState self.now c → result ≡ length c.sessions }
    {
        self.session_count
    }

    /// The 64 shards of the row store, each at the place of its number.
    pub fn shards(&self) -> &[Shard]
        ensures { result.now ≡ self.now.shards.items }
    {
        &self.shards
    }

    /// The QuerySCN.
    pub fn query_scn(&self) -> Scn
        ensures { (c : CoreState) → IsState self.now c → result ≡ c.query }
    {
        self.query
    }

    /// The SCN that a worker has come to.
    pub fn progress(&self, worker: u8) -> Scn
        requires state { HasState self.now }
        requires known { worker < self.now.worker_count }
        ensures { (c : CoreState) → IsState self.now c → IsProgress c worker result }
    {
        self.workers[usize::from(worker)].progress
    }

    /// The SCN below that of the next entry of a worker's share that is not mined; the frontier
    /// where there is none.
    pub fn mined_through(&self, worker: u8) -> Scn
        requires state { HasState self.now }
        requires known { worker < self.now.worker_count }
        ensures { (c : CoreState) → IsState self.now c → IsMinedThrough c worker result }
    {
        let worker = &self.workers[usize::from(worker)];
        match worker.share.as_slice().get(worker.mined) {
            Some(entry) => Scn::new(entry.scn.get().saturating_sub(1)).unwrap(),
            None => self.frontier,
        }
    }
}
