ghost use Rattle.std.specs.Prelude.{◌≡◌, ◌<◌, ◌++◌, ◌∷◌, [], IfOk, OnOk, Err};
ghost use Rattle.adg_model.specs.declared.fault.RedoFault.{RedoFault as Fault};
ghost use Rattle.adg_model.specs.Sound.{IsRedoFault};
ghost use Rattle.core_runs.specs.InStep.{IsInStep, HasDelivered, HasAsked, delivery_of};

use adg_base::command::CommandText;
use adg_base::list::{Bytes, List};
use adg_base::memory::Memory;
use adg_base::number::Scn;
use adg_model::delivery::{RawDelivery, RedoPiece};
use core_rules::event::{CoreAnswer, Event};
use redo_intake::{IntakeRefused, RedoIntake};
use standby_core::Core;
use std::alloc::Global;

/// The only thread of a bench.
const THREAD: u8 = 1;

/// A core with the intake that its redo comes through. The redo is of one thread; there are no commands,
/// since whoever has the bench asks the events.
#[derive(Drop)]
pub struct Bench {
    alloc: Global,
    intake: RedoIntake,
    core: Core,
    /// How many bytes of redo were delivered.
    delivered: u64,
}

impl Bench {
    /// A bench of so many workers and sessions that nothing was delivered to.
    pub fn new(alloc: Global, workers: u8, sessions: u8) -> Result<Bench, Memory>
        requires { 0 < workers }
        ensures { IfOk result IsInStep }
    {
        Ok(Bench {
            alloc,
            intake: RedoIntake::new(alloc, THREAD)?,
            core: Core::start(alloc, workers, sessions)?,
            delivered: 0,
        })
    }

    /// Takes the redo bytes of the next delivery, and has the core receive their entries. After an error
    /// the bench is of no further use. Want of memory is answered too where it would be the 2^64th byte.
    pub fn deliver(&mut self, redo: Bytes) -> Result<(), IntakeRefused>
        requires { IsInStep self.old }
        ensures ok { OnOk result ((before : IsInStep self.old) → HasDelivered before self.new redo) }
        ensures in_step { OnOk result (IsInStep self.new) }
        ensures refused { (fault : Fault) → result ≡ Err (IntakeRefused.Redo fault) → (before : IsInStep self.old) → IsRedoFault 1 (before.deliveries ++ delivery_of redo ∷ []) fault }
    {
        let Some(delivered) = self.delivered.checked_add(redo.len() as u64) else {
            return Err(IntakeRefused::Memory);
        };
        if delivered >= u64::MAX {
            return Err(IntakeRefused::Memory);
        }
        let delivery = self.raw_delivery(redo)?;
        let checked = self.intake.take(delivery)?;
        self.core.receive(checked.entries, checked.frontier)?;
        self.delivered = delivered;
        Ok(())
    }

    /// What the core answers to an event, and makes of it.
    pub fn ask(&mut self, event: Event) -> Result<CoreAnswer, Memory>
        requires { IsInStep self.old }
        ensures ok { IfOk result (λ answer. (before : IsInStep self.old) → HasAsked before self.new event answer) }
        ensures in_step { IsInStep self.new }
    {
        self.core.step(event, self.intake.dictionary())
    }

    /// The QuerySCN of the core.
    pub fn query_scn(&self) -> Scn
        ensures { (is : IsInStep self.now) → result ≡ is.state.query }
    {
        self.core.query_scn()
    }

    /// The frontier of the redo that was delivered.
    pub fn frontier(&self) -> Scn
        ensures { (is : IsInStep self.now) → result ≡ is.state.frontier }
    {
        self.intake.frontier()
    }
}

impl Bench {
    /// The redo as a delivery without commands.
    fn raw_delivery(&self, redo: Bytes) -> Result<RawDelivery, Memory>
        ensures { IfOk result (λ delivery. delivery ≡ delivery_of redo) }
    {
        let mut pieces = List::new(self.alloc);
        pieces.push(RedoPiece {
            thread: THREAD,
            bytes: redo,
        })?;
        let commands: List<CommandText> = List::new(self.alloc);
        let schedule: Bytes = List::new(self.alloc);
        Ok(RawDelivery {
            pieces,
            commands,
            schedule,
        })
    }
}
