ghost use Rattle.std.specs.Prelude.{◌≡◌, ◌<◌, ◌+◌, [], None, replicate, IfOk, OnOk};
ghost use Rattle.core_rules.specs.State.{opening};
ghost use Rattle.core_rules.specs.Invariant.{Invariant, Precise};
ghost use Rattle.standby_core.specs.Parts.{AreEmpty};
ghost use Rattle.standby_core.specs.Shows.{Shows};

use crate::flush::{Flush, Quiesce};
use crate::session::Session;
use crate::standby::Core;
use crate::worker::Worker;
use adg_base::memory::Memory;
use adg_base::number::Scn;
use adg_base::shard::UNIT_SHARDS;
use column_units::shard::UnitShard;
use ddl_table::DdlTable;
use row_blocks::shards::new_shards;
use std::alloc::Global;

impl Core {
    /// The core of so many workers and sessions before anything is received.
    pub fn start(alloc: Global, workers: u8, sessions: u8) -> Result<Core, Memory>
        ensures shows { IfOk result (λ core. Shows core (opening workers sessions)) }
        ensures invariant { OnOk result (0 < workers → Invariant (opening workers sessions)) }
        ensures precise { OnOk result (0 < workers → Precise (opening workers sessions)) }
    {
        Ok(Core {
            alloc,
            worker_count: workers,
            session_count: sessions,
            received: 0,
            frontier: Scn::ZERO,
            query: Scn::ZERO,
            born: Scn::ZERO,
            workers: idle_workers(alloc, workers)?,
            shards: new_shards(alloc)?,
            ddl: DdlTable::new(alloc),
            flush: Flush {
                quiesce: Quiesce::Idle,
                links: Vec::new(alloc),
                claimed: 0,
                done: 0,
                held: holding_nothing(alloc, workers)?,
            },
            units: unit_shards(alloc)?,
            sessions: free_sessions(alloc, sessions)?,
            ticket: 0,
        })
    }
}

fn idle_workers(alloc: Global, count: u8) -> Result<Vec<Worker>, Memory>
    ensures { IfOk result (λ workers. workers.items ≡ replicate count (record { share = []; applied = 0; mined = 0; progress = 0; area = []; ends = [] })) }
{
    let mut workers = Vec::with_capacity(alloc, usize::from(count))?;
    for _ in 0..count {
        workers.push(Worker::idle(alloc))?;
    }
    Ok(workers)
}

/// For each actor, the coordinator among them, that it holds no worklink.
fn holding_nothing(alloc: Global, workers: u8) -> Result<Vec<Option<usize>>, Memory>
    ensures { IfOk result (λ held. held.items ≡ replicate (workers + 1) None) }
{
    let actors = usize::from(workers) + 1;
    let mut held = Vec::with_capacity(alloc, actors)?;
    for _ in 0..actors {
        held.push(None)?;
    }
    Ok(held)
}

fn unit_shards(alloc: Global) -> Result<Vec<UnitShard>, Memory>
    ensures { IfOk result (λ shards. AreEmpty shards.items) }
{
    let mut shards = Vec::with_capacity(alloc, usize::from(UNIT_SHARDS))?;
    for number in 0..UNIT_SHARDS {
        shards.push(UnitShard::new(alloc, number))?;
    }
    Ok(shards)
}

fn free_sessions(alloc: Global, count: u8) -> Result<Vec<Session>, Memory>
    ensures { IfOk result (λ sessions. sessions.items ≡ replicate count Session.Free) }
{
    let mut sessions = Vec::with_capacity(alloc, usize::from(count))?;
    for _ in 0..count {
        sessions.push(Session::Free)?;
    }
    Ok(sessions)
}
