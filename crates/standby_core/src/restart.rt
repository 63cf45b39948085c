ghost use Rattle.std.specs.Prelude.{◌≡◌, [], map, None};
ghost use Rattle.core_rules.specs.declared.event.Event.TheVariants as event;
ghost use Rattle.core_rules.specs.State.{CoreState};
ghost use Rattle.standby_core.specs.Each.{EachAt};
ghost use Rattle.standby_core.specs.Restarting.{GoesBack, IsEmptied};
ghost use Rattle.standby_core.specs.Shows.{IsState, HasState, HasStepped};
ghost use Rattle.standby_core.specs.declared.flush.Quiesce.TheVariants as keeper;
ghost use Rattle.standby_core.specs.declared.session.Session.TheVariants as seat;

use crate::flush::{Flush, Quiesce};
use crate::session::Session;
use crate::standby::Core;
use crate::worker::Worker;
use adg_base::number::Scn;
use adg_journal::Area;
use column_units::shard::UnitShard;
use commit_table::Partition;
use core_rules::event::CoreAnswer;
use ddl_table::DdlTable;
use restart_rules::rewind;
use std::alloc::Global;

impl Core {
    /// All that is kept beside the log and the row store is lost, and the workers go back to the
    /// first entries above the QuerySCN.
    pub(crate) fn restart(&mut self) -> CoreAnswer
        requires { HasState self.old }
        ensures { (c : CoreState) → IsState self.old c → HasStepped self.new c event.Restart result }
    {
        self.born = self.query;
        rewind_all(self.alloc, &mut self.workers, self.query);
        self.ddl = DdlTable::new(self.alloc);
        self.flush.forget(self.alloc);
        drop_units(self.alloc, &mut self.units);
        free_all(&mut self.sessions);
        CoreAnswer::Moved
    }
}

impl Worker {
    /// Goes back to the first entry above an SCN, with nothing noted.
    fn rewind(&mut self, alloc: Global, query: Scn)
        ensures { GoesBack query self.old self.new }
    {
        let place = rewind(self.share.as_slice(), query);
        self.applied = place;
        self.mined = place;
        self.progress = query;
        self.area = Area::new(alloc);
        self.ends = Partition::new(alloc);
    }
}

impl Flush {
    /// No flush goes on, and nobody keeps publication back.
    fn forget(&mut self, alloc: Global)
        ensures quiesce { self.new.quiesce ≡ keeper.Idle }
        ensures links { self.new.links.items ≡ [] }
        ensures claimed { self.new.claimed ≡ 0 }
        ensures done { self.new.done ≡ 0 }
        ensures held { self.new.held.items ≡ map (λ n. None) self.old.held.items }
    {
        self.quiesce = Quiesce::Idle;
        self.links = Vec::new(alloc);
        self.claimed = 0;
        self.done = 0;
        hold_nothing(&mut self.held);
    }
}

fn rewind_all(alloc: Global, workers: &mut [Worker], query: Scn)
    ensures { EachAt (λ n. GoesBack query) workers.old workers.new }
{
    for worker in workers.iter_mut() {
        worker.rewind(alloc, query);
    }
}

fn hold_nothing(held: &mut [Option<usize>])
    ensures { held.new ≡ map (λ n. None) held.old }
{
    for number in held.iter_mut() {
        *number = None;
    }
}

fn drop_units(alloc: Global, shards: &mut [UnitShard])
    ensures { EachAt (λ n. IsEmptied) shards.old shards.new }
{
    for shard in shards.iter_mut() {
        *shard = UnitShard::new(alloc, shard.number());
    }
}

fn free_all(sessions: &mut [Session])
    ensures { sessions.new ≡ map (λ s. seat.Free) sessions.old }
{
    for session in sessions.iter_mut() {
        *session = Session::Free;
    }
}
