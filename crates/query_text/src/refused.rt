use std::alloc::AllocError;
use thiserror::Error;

/// Why a text is read as no command.
#[derive(Clone, Copy, Debug, PartialEq, Eq, Error)]
pub enum TextFault {
    /// The text is no command. `byte` is the length of its longest prefix that begins one.
    #[error("no command from byte {byte} on")]
    BadQuery { byte: u32 },
    /// Want of memory.
    #[error("want of memory")]
    Memory,
}

/// Why a command is not printed.
#[derive(Clone, Copy, Debug, PartialEq, Eq, Error)]
pub enum PrintRefused {
    /// The command has no spelling: a column is not 1 to 16, a literal is Null, no aggregate is
    /// asked for, or the rows are to be grouped.
    #[error("the command has no spelling")]
    NoSpelling,
    /// Want of memory.
    #[error("want of memory")]
    Memory,
}

impl From<AllocError> for PrintRefused {
    ghost use Rattle.std.specs.Prelude.{◌≡◌};
    ghost use Rattle.query_text.specs.declared.refused.PrintRefused.TheVariants.{Memory};

    ghost from_gives = { λ _ e. e ≡ Memory };

    fn from(_error: AllocError) -> PrintRefused {
        PrintRefused::Memory
    }
}
