ghost use Rattle.std.specs.Prelude.{IsOk, IfOk, OnErr};
ghost use Rattle.core_rules.specs.State.{CoreState};
ghost use Rattle.dictionary.specs.Standing.{StandsFor};
ghost use Rattle.standby_core.specs.Shows.{IsState, HasState};
ghost use Rattle.standby_core.specs.Steps.{Keeps, TakesNoMemory};

use crate::crew::CrewEvent;
use crate::standby::Core;
use adg_base::memory::Memory;
use core_rules::event::{CoreAnswer, Event};
use dictionary::Dictionary;

impl Core {
    /// What the core answers to an event, and makes of it. `NotReady` says that the event can't happen
    /// now, and then nothing changed.
    pub fn step(&mut self, event: Event, dictionary: &Dictionary) -> Result<CoreAnswer, Memory>
        requires { HasState self.old }
        ensures steps { IfOk result (λ answer. (c : CoreState) → IsState self.old c → StandsFor dictionary.now c.log → Keeps self.new c event answer) }
        ensures err { OnErr result ((c : CoreState) → IsState self.old c → IsState self.new c) }
        ensures sure { TakesNoMemory event → IsOk result }
    {
        match event {
            Event::Apply { worker } => self.answer_crew(CrewEvent::Apply { worker }, dictionary),
            Event::Mine { worker } => self.answer_crew(CrewEvent::Mine { worker }, dictionary),
            Event::Raise { worker, through } => {
                self.answer_crew(CrewEvent::Raise { worker, through }, dictionary)
            }
            Event::BeginFlush { through } => {
                self.answer_crew(CrewEvent::BeginFlush { through }, dictionary)
            }
            Event::Claim { actor } => self.answer_crew(CrewEvent::Claim { actor }, dictionary),
            Event::Collect { actor } => self.answer_crew(CrewEvent::Collect { actor }, dictionary),
            Event::Touch { actor } => self.answer_crew(CrewEvent::Touch { actor }, dictionary),
            Event::Done { actor } => self.answer_crew(CrewEvent::Done { actor }, dictionary),
            Event::Publish => self.answer_crew(CrewEvent::Publish, dictionary),
            Event::Restart => Ok(self.restart()),
            Event::PopBegin { session, obj } => self.pop_begin(session, obj, dictionary),
            Event::PopRegister { session } => self.pop_register(session),
            Event::PopRelease { session } => Ok(self.pop_release(session)),
            Event::PopRead { session } => self.pop_read(session),
            Event::PopEnd { session } => self.pop_end(session),
            Event::ScanBegin { session, select } => self.scan_begin(session, select, dictionary),
            Event::ScanExtent { session } => self.scan_extent(session),
            Event::ScanEnd { session } => self.scan_end(session),
        }
    }
}
