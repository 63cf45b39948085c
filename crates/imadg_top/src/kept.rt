use adg_base::list::Bytes;
use adg_base::memory::Memory;
use adg_model::delivery::RawDelivery;
use feed_run::standby::{Standby, Unanswered};
use std::alloc::Global;
use std::mem::ManuallyDrop;

/// A standby that is not taken apart when its run is over: what it holds goes back with the
/// process. To free each version and each row of its own would take longer than all that was done to
/// apply them, and nobody would be there to use what is freed.
#[derive(Drop)]
pub struct Kept<S> {
    standby: ManuallyDrop<S>,
}

impl<S: Standby> Standby for Kept<S> {
    ghost use Rattle.std.specs.Mem.{manually_drop_value};

    type Setup = S::Setup;

    ghost answered = { λ k. S.answered (manually_drop_value k.standby) };

    fn begin(alloc: Global, setup: S::Setup, threads: u8, sessions: u8) -> Result<Kept<S>, Memory> {
        let standby = S::begin(alloc, setup, threads, sessions)?;
        Ok(Kept {
            standby: ManuallyDrop::new(standby),
        })
    }

    fn deliver(&mut self, alloc: Global, delivery: RawDelivery) -> Result<Bytes, Unanswered> {
        self.standby.deliver(alloc, delivery)
    }
}
