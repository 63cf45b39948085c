use adg_base::memory::Memory;
use adg_model::fault::RedoFault;
use thiserror::Error;

/// Why no entries are given.
#[derive(Clone, Copy, Debug, PartialEq, Eq, Error)]
pub enum MergeRefused {
    /// The first bad record of the lowest thread that has one. Its kind names a bad frame, or the
    /// index of the vector that cannot be read.
    #[error("record {} of thread {} is refused", .0.number, .0.thread)]
    Redo(RedoFault),
    /// Want of memory.
    #[error("want of memory")]
    Memory,
}

impl From<Memory> for MergeRefused {
    ghost use Rattle.std.specs.Prelude.{◌≡◌};
    ghost use Rattle.log_merger.specs.declared.refused.MergeRefused.{MergeRefused};

    ghost from_gives = { λ _ e. e ≡ MergeRefused.Memory };

    fn from(_error: Memory) -> MergeRefused {
        MergeRefused::Memory
    }
}
