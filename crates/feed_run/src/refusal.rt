use crate::standby::Unanswered;
use adg_base::memory::Memory;
use feed_frames::fault::FeedFault;
use thiserror::Error;

/// Why a run ends before its feed does.
#[derive(Clone, Copy, Debug, PartialEq, Eq, Error)]
pub enum Refusal {
    /// The bytes of the feed have a fault, or the source failed.
    #[error("the feed is refused")]
    Feed(FeedFault),
    /// The standby did not begin, or a delivery was not answered.
    #[error("a delivery is not answered")]
    Delivery(Unanswered),
    /// The sink failed.
    #[error("the sink failed")]
    Write,
}

impl From<Unanswered> for Refusal {
    ghost use Rattle.std.specs.Prelude.{◌≡◌};
    ghost use Rattle.feed_run.specs.declared.refusal.Refusal.TheVariants as refusals;

    ghost from_gives = { λ u e. e ≡ refusals.Delivery u };

    fn from(unanswered: Unanswered) -> Refusal {
        Refusal::Delivery(unanswered)
    }
}

impl From<Memory> for Refusal {
    ghost use Rattle.std.specs.Prelude.{◌≡◌};
    ghost use Rattle.feed_run.specs.declared.refusal.Refusal.TheVariants as refusals;
    ghost use Rattle.feed_run.specs.declared.standby.Unanswered.TheVariants as unanswered;

    ghost from_gives = { λ _ e. e ≡ refusals.Delivery unanswered.Memory };

    fn from(_error: Memory) -> Refusal {
        Refusal::Delivery(Unanswered::Memory)
    }
}
