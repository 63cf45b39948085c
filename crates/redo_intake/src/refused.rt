use adg_base::memory::Memory as WantOfMemory;
use adg_model::fault::RedoFault;
use log_merger::MergeRefused;
use thiserror::Error;

/// Why the redo of a delivery is not taken.
#[derive(Clone, Copy, Debug, PartialEq, Eq, Error)]
pub enum IntakeRefused {
    /// The first bad record of the lowest thread that has one, or where there is none the first entry
    /// of the merged log that fails a check.
    #[error("record {} of thread {} is refused", .0.number, .0.thread)]
    Redo(RedoFault),
    /// Want of memory.
    #[error("want of memory")]
    Memory,
}

impl From<WantOfMemory> for IntakeRefused {
    ghost use Rattle.std.specs.Prelude.{◌≡◌};
    ghost use Rattle.redo_intake.specs.declared.refused.IntakeRefused.TheVariants.{Memory};

    ghost from_gives = { λ _ e. e ≡ Memory };

    fn from(_error: WantOfMemory) -> IntakeRefused {
        IntakeRefused::Memory
    }
}

impl From<MergeRefused> for IntakeRefused {
    ghost use Rattle.std.specs.Prelude.{◌≡◌};
    ghost use Rattle.redo_intake.specs.Intake.{of_merge};

    ghost from_gives = { λ refused e. e ≡ of_merge refused };

    fn from(refused: MergeRefused) -> IntakeRefused {
        match refused {
            MergeRefused::Redo(fault) => IntakeRefused::Redo(fault),
            MergeRefused::Memory => IntakeRefused::Memory,
        }
    }
}
