ghost use Rattle.std.specs.Prelude.{◌≡◌, ℕ, ◌<◌, ◌+◌, ◌==◌, [], length, slice_set, IfSome, None, Some};
ghost use Rattle.core_rules.specs.declared.event.Event.TheVariants as event;
ghost use Rattle.core_rules.specs.State.{CoreState, At};
ghost use Rattle.standby_core.specs.declared.flush.Quiesce.TheVariants as keeper;
ghost use Rattle.standby_core.specs.declared.link.Link.{Link as Held};
ghost use Rattle.standby_core.specs.declared.link.Stage.TheVariants as stage;
ghost use Rattle.standby_core.specs.Shows.{IsState, HasState, HasStepped};

use crate::flush::{Flush, Quiesce};
use crate::link::Stage;
use crate::standby::Core;
use adg_base::number::Scn;
use core_rules::event::CoreAnswer;
use std::alloc::Global;

impl Core {
    /// An actor without a worklink takes the first that nobody has taken.
    pub(crate) fn claim(&mut self, actor: u8) -> CoreAnswer
        requires { HasState self.old }
        ensures { (c : CoreState) → IsState self.old c → HasStepped self.new c (event.Claim actor) result }
    {
        let Some(number) = self.flush.next_for(actor) else {
            return CoreAnswer::NotReady;
        };
        self.flush.take(actor, number);
        CoreAnswer::Moved
    }

    /// An actor whose worklink has been everywhere is done with it.
    pub(crate) fn done(&mut self, actor: u8) -> CoreAnswer
        requires { HasState self.old }
        ensures { (c : CoreState) → IsState self.old c → HasStepped self.new c (event.Done actor) result }
    {
        match self.flush.number_of(actor) {
            Some(number) if self.flush.has_come_to(number, self.places()) => {
                self.flush.finish(actor, number);
                CoreAnswer::Moved
            }
            _ => CoreAnswer::NotReady,
        }
    }

    /// How many places a worklink goes to: the areas and the unit shards.
    fn places(&self) -> usize
        requires { HasState self.now }
        ensures { result ≡ length self.now.workers.items + length self.now.units.items }
    {
        self.workers.len() + self.units.len()
    }

    /// The SCN of the flush becomes the QuerySCN, where all worklinks are done.
    pub(crate) fn publish(&mut self) -> CoreAnswer
        requires { HasState self.old }
        ensures { (c : CoreState) → IsState self.old c → HasStepped self.new c event.Publish result }
    {
        let Some(through) = self.flush.published() else {
            return CoreAnswer::NotReady;
        };
        self.query = through;
        self.flush.close(self.alloc);
        CoreAnswer::Moved
    }
}

impl Flush {
    /// The number of the first worklink that nobody has taken, for an actor that holds none.
    fn next_for(&self, actor: u8) -> Option<usize>
        ensures none { result ≡ None → At self.now.held.items actor None → self.now.claimed < length self.now.links.items → ⊥ }
        ensures free { IfSome result (λ number. At self.now.held.items actor None) }
        ensures first { IfSome result (λ number. number ≡ self.now.claimed) }
        ensures within { IfSome result (λ number. number < length self.now.links.items) }
    {
        match self.held.get(usize::from(actor)) {
            Some(None) if self.claimed < self.links.len() => Some(self.claimed),
            _ => None,
        }
    }

    /// An actor takes the worklink of this number.
    fn take(&mut self, actor: u8, number: usize)
        requires known { actor < length self.old.held.items }
        requires within { number < length self.old.links.items }
        ensures held { self.new.held.items ≡ slice_set self.old.held.items actor (Some number) }
        ensures links { (x : Held) → At self.old.links.items number x → self.new.links.items ≡ slice_set self.old.links.items number (record x { stage = stage.Claimed actor 0 }) }
        ensures claimed { self.new.claimed ≡ number + 1 }
        ensures same { self.new.quiesce ≡ self.old.quiesce }
        ensures done { self.new.done ≡ self.old.done }
    {
        self.held[usize::from(actor)] = Some(number);
        self.links[number].stage = Stage::Claimed { actor, cursor: 0 };
        self.claimed = number + 1;
    }

    /// Whether a worklink has come to a place.
    fn has_come_to(&self, number: usize, place: usize) -> bool
        ensures { (x : Held) (holder cursor : ℕ) → At self.now.links.items number x → x.stage ≡ stage.Claimed holder cursor → result ≡ (cursor == place) }
    {
        match self.links.get(number) {
            Some(link) => match link.stage {
                Stage::Claimed { cursor, .. } => cursor == place,
                _ => false,
            },
            None => false,
        }
    }

    /// The worklink that an actor holds is done.
    fn finish(&mut self, actor: u8, number: usize)
        requires known { actor < length self.old.held.items }
        requires within { number < length self.old.links.items }
        requires count { self.old.done < length self.old.links.items }
        ensures held { self.new.held.items ≡ slice_set self.old.held.items actor None }
        ensures links { (x : Held) → At self.old.links.items number x → self.new.links.items ≡ slice_set self.old.links.items number (record x { stage = stage.Finished }) }
        ensures done { self.new.done ≡ self.old.done + 1 }
        ensures same { self.new.quiesce ≡ self.old.quiesce }
        ensures claimed { self.new.claimed ≡ self.old.claimed }
    {
        self.links[number].stage = Stage::Finished;
        self.held[usize::from(actor)] = None;
        self.done += 1;
    }

    /// The SCN of a flush whose worklinks are all done.
    fn published(&self) -> Option<Scn>
        ensures none { result ≡ None → (through : ℕ) → self.now.quiesce ≡ keeper.Flushing through → self.now.done ≡ length self.now.links.items → ⊥ }
        ensures some { IfSome result (λ through. self.now.quiesce ≡ keeper.Flushing through) }
        ensures done { IfSome result (λ through. self.now.done ≡ length self.now.links.items) }
    {
        match self.quiesce {
            Quiesce::Flushing(through) if self.done == self.links.len() => Some(through),
            _ => None,
        }
    }

    /// No flush goes on.
    fn close(&mut self, alloc: Global)
        ensures quiesce { self.new.quiesce ≡ keeper.Idle }
        ensures links { self.new.links.items ≡ [] }
        ensures claimed { self.new.claimed ≡ 0 }
        ensures done { self.new.done ≡ 0 }
        ensures held { self.new.held.items ≡ self.old.held.items }
    {
        self.quiesce = Quiesce::Idle;
        self.links = Vec::new(alloc);
        self.claimed = 0;
        self.done = 0;
    }
}
