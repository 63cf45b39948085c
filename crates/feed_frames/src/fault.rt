ghost use Rattle.std.specs.Prelude.{◌≡◌};
ghost use Rattle.feed_frames.specs.Intake.{fault_byte};

use adg_model::fault::FeedKind;

/// What is wrong with a feed, and where: the first byte of the frame or the magic at fault; for
/// `Truncated`, `Read` and `Memory` the number of bytes taken so far.
#[derive(Clone, Copy, Debug, PartialEq, Eq)]
pub struct FeedFault {
    pub kind: FeedKind,
    pub byte: u64,
}

impl FeedFault {
    /// The fault of a frame that begins at `start`, after so many bytes were taken.
    pub(crate) fn new(kind: FeedKind, start: u64, taken: u64) -> FeedFault
        ensures { result ≡ record { kind = kind; byte = fault_byte kind start taken } }
    {
        let byte = match kind {
            FeedKind::Truncated | FeedKind::Read | FeedKind::Memory => taken,
            _ => start,
        };
        FeedFault { kind, byte }
    }
}
