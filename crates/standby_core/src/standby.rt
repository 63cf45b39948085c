use crate::flush::Flush;
use crate::session::Session;
use crate::worker::Worker;
use adg_base::number::Scn;
use column_units::shard::UnitShard;
use ddl_table::DdlTable;
use row_blocks::shard::Shard;
use std::alloc::Global;

/// The core of the standby. The log is kept in the shares of the workers; what is in none of them,
/// the end of a thread, changes nothing.
#[derive(Drop)]
pub struct Core {
    pub(crate) alloc: Global,
    pub(crate) worker_count: u8,
    pub(crate) session_count: u8,
    /// How many entries were received.
    pub(crate) received: u64,
    pub(crate) frontier: Scn,
    pub(crate) query: Scn,
    /// The QuerySCN of the last restart.
    pub(crate) born: Scn,
    pub(crate) workers: Vec<Worker>,
    pub(crate) shards: Vec<Shard>,
    pub(crate) ddl: DdlTable,
    pub(crate) flush: Flush,
    pub(crate) units: Vec<UnitShard>,
    pub(crate) sessions: Vec<Session>,
    /// Above every ticket that was taken.
    pub(crate) ticket: u64,
}
