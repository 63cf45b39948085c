ghost use Rattle.std.specs.Prelude.{◌≡◌, ℕ, ◌+◌, ◌<◌, ◌≤◌, nat_lt, length, map, slice_get, None, Some, IfSome, MatchOption};
ghost use Rattle.std.specs.List.{list_all, list_any};
ghost use Rattle.core_rules.specs.State.{CoreState, Worker as WorkerOf, Session as SessionOf, Idle, At, share_of, is_flushing, is_unclaimed, is_finished};
ghost use Rattle.standby_core.specs.Duty.{HasCursor, HoldsLink, CanFlush, cursor_in, below_next, through_mined, least_progress, lowest, duty_of, own_duty};
ghost use Rattle.standby_core.specs.Links.{quiesce_shown};
ghost use Rattle.standby_core.specs.declared.link.Link.{Link as OwnLink};
ghost use Rattle.standby_core.specs.declared.session.Session.TheVariants as seat;
ghost use Rattle.standby_core.specs.declared.worker.Worker.{Worker as OwnWorker};
ghost use Rattle.standby_core.specs.Shows.{IsState};

use crate::flush::{Flush, Quiesce};
use crate::link::{Link, Stage};
use crate::session::{Population, Scan, Session, place_of};
use crate::standby::Core;
use crate::worker::Worker;
use adg_base::number::Scn;

/// What a session has begun, and what comes next of it.
#[derive(Clone, Copy, Debug, PartialEq, Eq)]
pub enum Duty {
    /// It does nothing.
    Free,
    /// Its population registers the next unit.
    Register,
    /// Its population has registered all units, and lets publication go on.
    Release,
    /// Its population reads the next block.
    Read,
    /// Its population has read the blocks of an extent, and ends it.
    Install,
    /// Its scan gathers the next extent.
    Gather,
    /// Its scan has gathered all extents, and ends.
    Answer,
}

impl Core {
    /// The SCN through which redo was received.
    pub fn frontier(&self) -> Scn
        ensures { (c : CoreState) → IsState self.now c → result ≡ c.frontier }
    {
        self.frontier
    }

    /// Who keeps publication back.
    pub fn quiesce(&self) -> Quiesce
        ensures { (c : CoreState) → IsState self.now c → quiesce_shown result ≡ c.quiesce }
    {
        self.flush.quiesce
    }

    /// Whether a flush goes on.
    pub fn is_flushing(&self) -> bool
        ensures { (c : CoreState) → IsState self.now c → result ≡ is_flushing c.quiesce }
    {
        match self.flush.quiesce {
            Quiesce::Flushing(_) => true,
            Quiesce::Idle | Quiesce::Shared(_) => false,
        }
    }

    /// The SCN through which a flush can begin, where one can: the least that a worker has come to.
    pub fn flush_through(&self) -> Option<Scn>
        ensures none { result ≡ None → (c : CoreState) → IsState self.now c → c.quiesce ≡ Idle → least_progress c ≤ c.query }
        ensures some { IfSome result (λ through. (c : CoreState) → IsState self.now c → CanFlush c through) }
    {
        match self.flush.quiesce {
            Quiesce::Idle => least_above(&self.workers, self.query, self.frontier),
            Quiesce::Shared(_) | Quiesce::Flushing(_) => None,
        }
    }

    /// The place of the worklink that an actor has: an area, behind the areas a unit shard, or behind
    /// both the end.
    pub fn cursor(&self, actor: u8) -> Option<usize>
        ensures none { result ≡ None → (c : CoreState) → IsState self.now c → (cursor : ℕ) → HasCursor c.links actor cursor → ⊥ }
        ensures some { IfSome result (λ cursor. (c : CoreState) → IsState self.now c → HasCursor c.links actor cursor) }
    {
        match self.flush.link_of(actor) {
            Some(link) => link.stage.cursor(),
            None => None,
        }
    }

    /// Whether nobody has one of the worklinks.
    pub fn has_unclaimed(&self) -> bool
        ensures { (c : CoreState) → IsState self.now c → result ≡ list_any (λ l. is_unclaimed l.stage) c.links }
    {
        self.flush.claimed < self.flush.links.len()
    }

    /// Whether all worklinks are done.
    pub fn are_finished(&self) -> bool
        ensures { (c : CoreState) → IsState self.now c → result ≡ list_all (λ l. is_finished l.stage) c.links }
    {
        self.flush.done == self.flush.links.len()
    }

    /// The SCN to which a worker can raise its progress, where that is above it: the one below its
    /// next entry that is not mined, or the frontier.
    pub fn ahead(&self, worker: u8) -> Option<Scn>
        ensures none { result ≡ None → (c : CoreState) (w : WorkerOf) → IsState self.now c → At c.workers worker w → through_mined c worker w ≤ w.progress }
        ensures some { IfSome result (λ through. (c : CoreState) (w : WorkerOf) → IsState self.now c → At c.workers worker w → (through ≡ through_mined c worker w) × (w.progress < through)) }
    {
        match self.worker_at(worker) {
            Some(own) => own.ahead(self.frontier),
            None => None,
        }
    }

    /// Whether an entry that a worker has applied is not mined.
    pub fn has_to_mine(&self, worker: u8) -> bool
        ensures { (c : CoreState) (w : WorkerOf) → IsState self.now c → At c.workers worker w → result ≡ nat_lt w.mined w.applied }
    {
        match self.worker_at(worker) {
            Some(own) => own.mined < own.applied,
            None => false,
        }
    }

    /// Whether an entry of a worker's share is not applied.
    pub fn has_to_apply(&self, worker: u8) -> bool
        ensures { (c : CoreState) (w : WorkerOf) → IsState self.now c → At c.workers worker w → result ≡ nat_lt w.applied (length (share_of c worker)) }
    {
        match self.worker_at(worker) {
            Some(own) => own.applied < own.share.len(),
            None => false,
        }
    }

    /// What comes next of what a session, which counts from 1, has begun.
    pub fn duty(&self, session: u8) -> Duty
        ensures { (c : CoreState) (place : ℕ) (s : SessionOf) → IsState self.now c → session ≡ place + 1 → At c.sessions place s → result ≡ duty_of s }
    {
        match self.session_at(session) {
            Some(own) => own.duty(),
            None => Duty::Free,
        }
    }

    /// The worker of a number.
    fn worker_at(&self, worker: u8) -> Option<&Worker>
        ensures { MatchOption result (slice_get self.now.workers.items worker ≡ None) (λ x. At self.now.workers.items worker x.now) }
    {
        self.workers.get(usize::from(worker))
    }

    /// The session of a number, which counts from 1.
    fn session_at(&self, session: u8) -> Option<&Session>
        ensures { MatchOption result ((place : ℕ) → session ≡ place + 1 → slice_get self.now.sessions.items place ≡ None)
            (λ x. (place : ℕ) → session ≡ place + 1 → At self.now.sessions.items place x.now) }
    {
        let place = place_of(session)?;
        self.sessions.get(place)
    }
}

impl Flush {
    /// The worklink that an actor holds.
    fn link_of(&self, actor: u8) -> Option<&Link>
        ensures { MatchOption result ((n : ℕ) (x : OwnLink) → At self.now.held.items actor (Some n) → At self.now.links.items n x → ⊥) (λ x. HoldsLink self.now actor x.now) }
    {
        let number = self.number_of(actor)?;
        self.links.get(number)
    }
}

impl Stage {
    /// The cursor of a worklink that an actor has.
    fn cursor(self) -> Option<usize>
        ensures { result ≡ cursor_in self }
    {
        match self {
            Stage::Claimed { cursor, .. } => Some(cursor),
            Stage::Unclaimed | Stage::Finished => None,
        }
    }
}

impl Worker {
    /// The SCN to which the progress can be raised, where that is above it.
    fn ahead(&self, frontier: Scn) -> Option<Scn>
        ensures none { result ≡ None → below_next frontier (slice_get self.now.share self.now.mined) ≤ self.now.progress }
        ensures some { IfSome result (λ through. through ≡ below_next frontier (slice_get self.now.share self.now.mined)) }
        ensures above { IfSome result (λ through. self.now.progress < through) }
    {
        let through = self.through(frontier);
        if self.progress < through {
            Some(through)
        } else {
            None
        }
    }

    /// The SCN below that of the next entry that is not mined; the frontier where there is none.
    fn through(&self, frontier: Scn) -> Scn
        ensures { result ≡ below_next frontier (slice_get self.now.share self.now.mined) }
    {
        match self.share.as_slice().get(self.mined) {
            Some(entry) => Scn::new(entry.scn.get().saturating_sub(1)).unwrap(),
            None => frontier,
        }
    }
}

impl Session {
    /// What comes next of what is begun.
    fn duty(&self) -> Duty
        ensures { result ≡ own_duty self.now }
    {
        match self {
            Session::Free => Duty::Free,
            Session::Populating(population) => population.duty(),
            Session::Scanning(scan) => scan.duty(),
        }
    }
}

impl Population {
    /// What comes next of it.
    fn duty(&self) -> Duty
        ensures { result ≡ own_duty (seat.Populating self.now) }
    {
        if self.holds {
            if self.registered < self.extents {
                Duty::Register
            } else {
                Duty::Release
            }
        } else if self.build.blocks() < BLOCKS {
            Duty::Read
        } else {
            Duty::Install
        }
    }
}

impl Scan {
    /// What comes next of it.
    fn duty(&self) -> Duty
        ensures { result ≡ own_duty (seat.Scanning self.now) }
    {
        if self.extents < self.definition.extents {
            Duty::Gather
        } else {
            Duty::Answer
        }
    }
}

/// How many blocks an extent has.
const BLOCKS: u8 = 16;

/// The least SCN that a worker has come to, where it is above another one; the frontier where there
/// is no worker.
fn least_above(workers: &[Worker], query: Scn, frontier: Scn) -> Option<Scn>
    ensures none { result ≡ None → lowest frontier (map (λ (x : OwnWorker). x.progress) workers.now) ≤ query }
    ensures some { IfSome result (λ least. least ≡ lowest frontier (map (λ (x : OwnWorker). x.progress) workers.now)) }
    ensures above { IfSome result (λ least. query < least) }
{
    if frontier <= query {
        return None;
    }
    let mut least = frontier;
    for worker in workers {
        if worker.progress <= query {
            return None;
        }
        if worker.progress < least {
            least = worker.progress;
        }
    }
    Some(least)
}
