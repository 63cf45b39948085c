use adg_base::memory::Memory as WantOfMemory;
use adg_model::fault::CheckKind;
use thiserror::Error;

/// Why an entry is not accepted.
#[derive(Clone, Copy, Debug, PartialEq, Eq, Error)]
pub enum RedoRefused {
    /// It fails this check against the entries accepted before, and none that is made earlier.
    #[error("the entry fails a check")]
    Check(CheckKind),
    /// Want of memory.
    #[error("want of memory")]
    Memory,
}

impl From<WantOfMemory> for RedoRefused {
    ghost use Rattle.std.specs.Prelude.{◌≡◌};
    ghost use Rattle.dictionary.specs.declared.refused.RedoRefused.TheVariants.{Memory};

    ghost from_gives = { λ _ e. e ≡ Memory };

    fn from(_error: WantOfMemory) -> RedoRefused {
        RedoRefused::Memory
    }
}
