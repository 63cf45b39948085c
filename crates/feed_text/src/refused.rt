use crate::reason::Reason;
use std::alloc::{AllocError, AllocFailed};

/// Why a line adds nothing to the feed.
#[derive(Clone, Copy, Debug, PartialEq, Eq)]
pub enum LineRefused {
    /// It breaks the notation.
    Broken(Reason),
    /// Want of memory.
    Memory,
}

/// Why a text stands for no bytes.
#[derive(Clone, Copy, Debug, PartialEq, Eq)]
pub enum TextRefused {
    /// The line of this number, from 1, is the first that breaks the notation.
    Line { number: u64, reason: Reason },
    /// Want of memory.
    Memory,
}

impl From<AllocError> for LineRefused {
    ghost use Rattle.std.specs.Prelude.{◌≡◌};
    ghost use Rattle.feed_text.specs.declared.refused.LineRefused.TheVariants.{Memory};

    ghost from_gives = { λ _ e. e ≡ Memory };

    fn from(_error: AllocError) -> LineRefused {
        LineRefused::Memory
    }
}

impl<T: Drop> From<AllocFailed<T>> for LineRefused {
    ghost use Rattle.std.specs.Prelude.{◌≡◌};
    ghost use Rattle.feed_text.specs.declared.refused.LineRefused.TheVariants.{Memory};

    ghost from_gives = { λ _ e. e ≡ Memory };

    fn from(_error: AllocFailed<T>) -> LineRefused {
        LineRefused::Memory
    }
}
