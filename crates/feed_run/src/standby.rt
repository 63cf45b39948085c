use adg_base::list::Bytes;
use adg_base::memory::Memory;
use adg_model::delivery::RawDelivery;
use adg_model::fault::RedoFault;
use std::alloc::Global;
use thiserror::Error;

/// Why a delivery is not answered.
#[derive(Clone, Copy, Debug, PartialEq, Eq, Error)]
pub enum Unanswered {
    /// The redo has a fault.
    #[error("the redo is refused")]
    Redo(RedoFault),
    /// Want of memory.
    #[error("want of memory")]
    Memory,
}

impl From<Memory> for Unanswered {
    ghost use Rattle.std.specs.Prelude.{◌≡◌};
    ghost use Rattle.feed_run.specs.declared.standby.Unanswered.TheVariants as unanswered;

    ghost from_gives = { λ _ e. e ≡ unanswered.Memory };

    fn from(_error: Memory) -> Unanswered {
        Unanswered::Memory
    }
}

/// What answers the deliveries of a feed, one after another.
pub trait Standby: Drop {
    ghost use Rattle.std.specs.Prelude.{ℕ, ◌∷◌, ◌++◌, [], List, IfOk};
    ghost use Rattle.adg_model.specs.declared.delivery.RawDelivery.{RawDelivery as Delivery};
    ghost use Rattle.adg_model.specs.Feed.{IsHeader};
    ghost use Rattle.feed_run.specs.Standby.{IsNext, Responds, deliveries_of};

    /// What it needs to begin, besides the header of the feed: a number of workers, a handle.
    type Setup: Drop;

    /// Begun with this setup, for so many threads and sessions, it has answered these deliveries,
    /// and these bytes are their lines. What the bytes mean is for each standby to say.
    ghost answered: { Self → Self.Setup → (threads sessions : ℕ) → List Delivery → List ℕ → Type 0 };

    /// A standby for a feed whose header names so many threads and sessions.
    fn begin(alloc: Global, setup: Self::Setup, threads: u8, sessions: u8) -> Result<Self, Memory>
        requires { IsHeader threads sessions }
        ensures { IfOk result (λ standby. answered standby setup threads sessions [] []) };

    /// Answers the delivery that comes next, with the lines that are to be written. After an error
    /// it is of no more use.
    fn deliver(&mut self, alloc: Global, delivery: RawDelivery) -> Result<Bytes, Unanswered>
        requires { IsNext (answered self.old) delivery }
        ensures { (next : IsNext (answered self.old) delivery) →
            Responds (answered self.new next.setup) next.threads next.sessions (deliveries_of next.before ++ delivery ∷ []) next.written result };
}
