ghost use Rattle.std.specs.Prelude.{IsOk, IfOk, OnErr};
ghost use Rattle.core_rules.specs.State.{CoreState};
ghost use Rattle.dictionary.specs.Standing.{StandsFor};
ghost use Rattle.standby_core.specs.Shows.{IsState, HasState};
ghost use Rattle.standby_core.specs.Steps.{Keeps, TakesNoMemory};
ghost use Rattle.standby_core.specs.Crew.{event_of, answer_of};

use crate::standby::Core;
use adg_base::memory::Memory;
use adg_base::number::Scn;
use core_rules::event::CoreAnswer;
use dictionary::Dictionary;

/// An event of the coordinator or of a worker, the actors that work through the redo. Such an event
/// says no reply and carries no query, so it is a small value: most of the events of a feed are these.
/// Workers count from 0. Actor 0 is the coordinator and actor `1 + w` is worker `w`.
#[derive(Clone, Copy, Debug, PartialEq, Eq)]
pub enum CrewEvent {
    /// A worker applies the next entry of its share to its shard.
    Apply { worker: u8 },
    /// A worker mines the next entry that it has applied.
    Mine { worker: u8 },
    /// A worker says that all of its share up to an SCN is mined.
    Raise { worker: u8, through: Scn },
    /// The coordinator begins the flush of all that ended up to an SCN.
    BeginFlush { through: Scn },
    /// An actor takes the first worklink that nobody has taken.
    Claim { actor: u8 },
    /// An actor takes what the next area holds for its worklink.
    Collect { actor: u8 },
    /// An actor marks in the next unit shard what it has collected.
    Touch { actor: u8 },
    /// An actor has marked all that its worklink asks for.
    Done { actor: u8 },
    /// The flush is over, and its SCN becomes the QuerySCN.
    Publish,
}

impl Core {
    /// The step of an event of the coordinator or of a worker, and whether it happened. `false` says
    /// that it can't happen now, and then nothing changed.
    pub fn step_crew(&mut self, event: CrewEvent, dictionary: &Dictionary) -> Result<bool, Memory>
        requires { HasState self.old }
        ensures steps { IfOk result (λ moved. (c : CoreState) → IsState self.old c → StandsFor dictionary.now c.log → Keeps self.new c (event_of event) (answer_of moved)) }
        ensures err { OnErr result ((c : CoreState) → IsState self.old c → IsState self.new c) }
        ensures sure { TakesNoMemory (event_of event) → IsOk result }
    {
        match self.take_crew(event, dictionary)? {
            CoreAnswer::NotReady => Ok(false),
            CoreAnswer::Moved | CoreAnswer::Said(_) => Ok(true),
        }
    }

    /// The same, with the answer of the core.
    pub(crate) fn answer_crew(
        &mut self,
        event: CrewEvent,
        dictionary: &Dictionary,
    ) -> Result<CoreAnswer, Memory>
        requires { HasState self.old }
        ensures steps { IfOk result (λ answer. (c : CoreState) → IsState self.old c → StandsFor dictionary.now c.log → Keeps self.new c (event_of event) answer) }
        ensures err { OnErr result ((c : CoreState) → IsState self.old c → IsState self.new c) }
        ensures sure { TakesNoMemory (event_of event) → IsOk result }
    {
        if self.step_crew(event, dictionary)? {
            Ok(CoreAnswer::Moved)
        } else {
            Ok(CoreAnswer::NotReady)
        }
    }

    /// Takes an event of the coordinator or of a worker.
    #[inline(always)]
    fn take_crew(&mut self, event: CrewEvent, dictionary: &Dictionary) -> Result<CoreAnswer, Memory>
        requires { HasState self.old }
        ensures steps { IfOk result (λ answer. (c : CoreState) → IsState self.old c → StandsFor dictionary.now c.log → Keeps self.new c (event_of event) answer) }
        ensures err { OnErr result ((c : CoreState) → IsState self.old c → IsState self.new c) }
        ensures sure { TakesNoMemory (event_of event) → IsOk result }
    {
        match event {
            CrewEvent::Apply { worker } => self.apply(worker),
            CrewEvent::Mine { worker } => self.mine(worker, dictionary),
            CrewEvent::Raise { worker, through } => Ok(self.raise(worker, through)),
            CrewEvent::BeginFlush { through } => self.begin_flush(through),
            CrewEvent::Claim { actor } => Ok(self.claim(actor)),
            CrewEvent::Collect { actor } => Ok(self.collect(actor)),
            CrewEvent::Touch { actor } => Ok(self.touch(actor)),
            CrewEvent::Done { actor } => Ok(self.done(actor)),
            CrewEvent::Publish => Ok(self.publish()),
        }
    }
}
