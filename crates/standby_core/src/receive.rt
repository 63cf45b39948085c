ghost use Rattle.std.specs.Prelude.{◌≡◌, ◌<◌, List, [], ◌∷◌, length, map, OnOk, OnErr, IfOk};
ghost use Rattle.adg_base.specs.declared.log.LogEntry.{LogEntry as Entry};
ghost use Rattle.adg_model.specs.Sound.{IsContinuation};
ghost use Rattle.core_rules.specs.State.{CoreState};
ghost use Rattle.standby_core.specs.Each.{EachAt};
ghost use Rattle.standby_core.specs.Shows.{IsState, Shows};
ghost use Rattle.standby_core.specs.Received.{CanReceive, HasReceived, AreDealt, HasMore, AreCutBack};

use crate::standby::Core;
use crate::worker::Worker;
use adg_base::log::{EntryList, LogEntry};
use adg_base::memory::Memory;
use adg_base::number::Scn;
use adg_base::shard::{shard_of, worker_of};
use std::alloc::Global;

impl Core {
    /// Receives the entries of a delivery, each into the share of its worker, and its frontier. The
    /// entries are moved, so that no row is counted for it. After `Memory` they are gone.
    pub fn receive(&mut self, entries: EntryList, frontier: Scn) -> Result<(), Memory>
        requires { CanReceive self.old entries frontier }
        ensures ok { OnOk result ((c : CoreState) → IsState self.old c → IsContinuation c.log c.frontier entries frontier → HasReceived self.new c entries frontier) }
        ensures err { OnErr result ((c : CoreState) → IsState self.old c → IsState self.new c) }
    {
        let entries = entries.into_vec();
        let Some(received) = self.received.checked_add(entries.len() as u64) else {
            return Err(Memory);
        };
        deal_whole(self.alloc, &mut self.workers, self.worker_count, entries)?;
        self.received = received;
        self.frontier = frontier;
        Ok(())
    }
}

/// Deals entries out to the shares of the workers, all of them or none.
fn deal_whole(
    alloc: Global,
    workers: &mut [Worker],
    count: u8,
    entries: Vec<LogEntry>,
) -> Result<(), Memory>
    requires some { 0 < count }
    requires count { length workers.old ≡ count }
    ensures ok { OnOk result (AreDealt entries.items workers.old workers.new) }
    ensures err { OnErr result (workers.new ≡ workers.old) }
{
    let counts = counts_of(alloc, workers)?;
    match deal(workers, count, entries) {
        Ok(()) => Ok(()),
        Err(memory) => {
            cut_back(workers, counts.as_slice());
            Err(memory)
        }
    }
}

/// How many entries each share has.
fn counts_of(alloc: Global, workers: &[Worker]) -> Result<Vec<usize>, Memory>
    ensures { IfOk result (λ counts. counts.items ≡ map (λ w. length w.share) workers.now) }
{
    let mut counts = Vec::with_capacity(alloc, workers.len())?;
    for worker in workers {
        counts.push(worker.share.len())?;
    }
    Ok(counts)
}

/// Deals entries out in their order. After want of memory some may have been dealt.
fn deal(workers: &mut [Worker], count: u8, entries: Vec<LogEntry>) -> Result<(), Memory>
    requires some { 0 < count }
    requires count { length workers.old ≡ count }
    ensures ok { OnOk result (AreDealt entries.items workers.old workers.new) }
    ensures err { OnErr result (EachAt HasMore workers.old workers.new) }
{
    for entry in entries {
        deal_one(workers, count, entry)?;
    }
    Ok(())
}

/// Adds an entry to the share that it is of, if it is of one.
fn deal_one(workers: &mut [Worker], count: u8, entry: LogEntry) -> Result<(), Memory>
    requires some { 0 < count }
    requires count { length workers.old ≡ count }
    ensures ok { OnOk result (AreDealt (entry ∷ []) workers.old workers.new) }
    ensures err { OnErr result (workers.new ≡ workers.old) }
{
    if let Some(number) = shard_of(&entry.vector) {
        let worker = usize::from(worker_of(number, count));
        workers[worker].share.push(entry)?;
    }
    Ok(())
}

/// Drops what stands in each share behind so many entries.
fn cut_back(workers: &mut [Worker], counts: &[usize])
    requires { length counts.now ≡ length workers.old }
    ensures { AreCutBack counts.now workers.old workers.new }
{
    for index in 0..counts.len() {
        workers[index].share.truncate(counts[index]);
    }
}
