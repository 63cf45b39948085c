use std::alloc::{AllocError, AllocFailed};
use thiserror::Error;

/// Why the vectors of a record are not read.
#[derive(Clone, Copy, Debug, PartialEq, Eq, Error)]
pub enum VectorsRefused {
    /// The vector of this index, from 1, cannot be read, and those before it can. Where all can be
    /// read and bytes remain, it is one more than the number of vectors.
    #[error("vector {index} cannot be read")]
    BadVector { index: u16 },
    /// Want of memory.
    #[error("want of memory")]
    Memory,
}

/// Why a record is not written.
#[derive(Clone, Copy, Debug, PartialEq, Eq, Error)]
pub enum WriteRefused {
    /// It would be longer than a record may be, or it has too many vectors.
    #[error("the record is too long")]
    TooLong,
    /// It is not too long, and its SCN or one of its vectors has no spelling.
    #[error("the record has no spelling")]
    BadForm,
    /// Want of memory.
    #[error("want of memory")]
    Memory,
}

impl From<AllocError> for VectorsRefused {
    ghost use Rattle.std.specs.Prelude.{◌≡◌};
    ghost use Rattle.change_vectors.specs.declared.refused.VectorsRefused.TheVariants.{Memory};

    ghost from_gives = { λ _ e. e ≡ Memory };

    fn from(_error: AllocError) -> VectorsRefused {
        VectorsRefused::Memory
    }
}

impl<T: Drop> From<AllocFailed<T>> for VectorsRefused {
    ghost use Rattle.std.specs.Prelude.{◌≡◌};
    ghost use Rattle.change_vectors.specs.declared.refused.VectorsRefused.TheVariants.{Memory};

    ghost from_gives = { λ _ e. e ≡ Memory };

    fn from(_error: AllocFailed<T>) -> VectorsRefused {
        VectorsRefused::Memory
    }
}

impl From<AllocError> for WriteRefused {
    ghost use Rattle.std.specs.Prelude.{◌≡◌};
    ghost use Rattle.change_vectors.specs.declared.refused.WriteRefused.TheVariants.{Memory};

    ghost from_gives = { λ _ e. e ≡ Memory };

    fn from(_error: AllocError) -> WriteRefused {
        WriteRefused::Memory
    }
}

impl<T: Drop> From<AllocFailed<T>> for WriteRefused {
    ghost use Rattle.std.specs.Prelude.{◌≡◌};
    ghost use Rattle.change_vectors.specs.declared.refused.WriteRefused.TheVariants.{Memory};

    ghost from_gives = { λ _ e. e ≡ Memory };

    fn from(_error: AllocFailed<T>) -> WriteRefused {
        WriteRefused::Memory
    }
}
