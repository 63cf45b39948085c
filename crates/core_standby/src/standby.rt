ghost use Rattle.std.specs.Prelude.{◌≡◌};
ghost use Rattle.feed_run.specs.Standby.{IsNext};
ghost use Rattle.core_standby.specs.Standing.{HasAnswered, RunsOne};

use crate::workers::Workers;
use adg_base::answer::Lines;
use adg_base::list::Bytes;
use adg_base::memory::Memory;
use adg_model::delivery::RawDelivery;
use answer_lines::render;
use feed_run::standby::{Standby, Unanswered};
use redo_intake::{IntakeRefused, RedoIntake};
use standby_core::Core;
use std::alloc::Global;
use step_driver::run_delivery;

/// The standby over one core. It works on one thread: the actors of the core take turns.
#[derive(Drop)]
pub struct CoreStandby {
    intake: RedoIntake,
    core: Core,
    delivered: u32,
}

impl CoreStandby {
    /// Takes the redo of a delivery, and then the core receives it and takes the turns of the
    /// delivery.
    fn answer(&mut self, alloc: Global, delivery: RawDelivery) -> Result<Lines, Unanswered>
        requires { IsNext (HasAnswered self.old) delivery }
        ensures runs { (next : IsNext (HasAnswered self.old) delivery) → RunsOne next.has.run self.new.intake self.new.core delivery result }
        ensures delivered { self.new.delivered ≡ self.old.delivered }
    {
        let checked = match self.intake.take(delivery) {
            Ok(checked) => checked,
            Err(IntakeRefused::Redo(fault)) => return Err(Unanswered::Redo(fault)),
            Err(IntakeRefused::Memory) => return Err(Unanswered::Memory),
        };
        let dictionary = self.intake.dictionary();
        let lines = run_delivery(alloc, &mut self.core, checked, dictionary)?;
        Ok(lines)
    }
}

impl Standby for CoreStandby {
    /// The number of workers of the core.
    type Setup = Workers;

    ghost answered = { HasAnswered };

    fn begin(
        alloc: Global,
        workers: Workers,
        threads: u8,
        sessions: u8,
    ) -> Result<CoreStandby, Memory> {
        Ok(CoreStandby {
            intake: RedoIntake::new(alloc, threads)?,
            core: Core::start(alloc, workers.get(), sessions)?,
            delivered: 0,
        })
    }

    fn deliver(&mut self, alloc: Global, delivery: RawDelivery) -> Result<Bytes, Unanswered> {
        let lines = self.answer(alloc, delivery)?;
        self.delivered += 1;
        let text = render(alloc, &lines, self.delivered)?;
        Ok(text)
    }
}
