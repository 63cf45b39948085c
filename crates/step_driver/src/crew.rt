ghost use Rattle.std.specs.Prelude.{◌≡◌, ◌-◌, ◌<◌, ◌^◌, length};
ghost use Rattle.core_rules.specs.State.{CoreState, Worker as WorkerOf, At};
ghost use Rattle.turn_rules.specs.Picks.{link_event, coordinator_act, worker_act, flushing_act, calm_act, share_act};
ghost use Rattle.standby_core.specs.Shows.{IsState};
ghost use Rattle.standby_core.specs.Crew.{event_of};
ghost use Rattle.step_driver.specs.Acts.{crew_shown};

use adg_base::shard::UNIT_SHARDS;
use standby_core::Core;
use standby_core::crew::CrewEvent;

/// What the coordinator does.
pub(crate) fn coordinator(core: &Core) -> Option<CrewEvent>
    ensures { (c : CoreState) → IsState core.now c → crew_shown result ≡ coordinator_act c }
{
    match core.cursor(0) {
        Some(cursor) => Some(next_of_link(core.workers(), 0, cursor)),
        None if core.is_flushing() => flushing(core),
        None => calm(core),
    }
}

/// What a worker does.
pub(crate) fn worker(core: &Core, worker: u8) -> Option<CrewEvent>
    requires { worker < 2 ^ 8 - 1 }
    ensures { (c : CoreState) → IsState core.now c → worker < length c.workers → crew_shown result ≡ worker_act c worker }
{
    let actor = worker + 1;
    match core.cursor(actor) {
        Some(cursor) => Some(next_of_link(core.workers(), actor, cursor)),
        None if core.is_flushing() && core.has_unclaimed() => Some(CrewEvent::Claim { actor }),
        None => at_share(core, worker),
    }
}

/// The next event of an actor that has a worklink.
fn next_of_link(workers: u8, actor: u8, cursor: usize) -> CrewEvent
    ensures { event_of result ≡ link_event workers actor cursor }
{
    let workers = usize::from(workers);
    if cursor < workers {
        CrewEvent::Collect { actor }
    } else if cursor < workers + usize::from(UNIT_SHARDS) {
        CrewEvent::Touch { actor }
    } else {
        CrewEvent::Done { actor }
    }
}

/// What the coordinator does in a flush, where it has no worklink.
fn flushing(core: &Core) -> Option<CrewEvent>
    ensures { (c : CoreState) → IsState core.now c → crew_shown result ≡ flushing_act c.links }
{
    if core.has_unclaimed() {
        Some(CrewEvent::Claim { actor: 0 })
    } else if core.are_finished() {
        Some(CrewEvent::Publish)
    } else {
        None
    }
}

/// What the coordinator does outside of a flush.
fn calm(core: &Core) -> Option<CrewEvent>
    ensures { (c : CoreState) → IsState core.now c → crew_shown result ≡ calm_act c }
{
    match core.flush_through() {
        Some(through) => Some(CrewEvent::BeginFlush { through }),
        None => None,
    }
}

/// What a worker does for its share of the log.
fn at_share(core: &Core, worker: u8) -> Option<CrewEvent>
    ensures { (c : CoreState) (w : WorkerOf) → IsState core.now c → At c.workers worker w → crew_shown result ≡ share_act c worker (Some w) }
{
    if let Some(through) = core.ahead(worker) {
        Some(CrewEvent::Raise { worker, through })
    } else if core.has_to_mine(worker) {
        Some(CrewEvent::Mine { worker })
    } else if core.has_to_apply(worker) {
        Some(CrewEvent::Apply { worker })
    } else {
        None
    }
}
