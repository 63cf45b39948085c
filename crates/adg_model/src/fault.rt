use adg_base::memory::Memory;
use std::alloc::AllocError;

/// What is wrong with the bytes of a feed. `Read` and `Memory` are no faults of the bytes: the
/// source failed, or memory was wanting.
#[derive(Clone, Copy, Debug, PartialEq, Eq)]
pub enum FeedKind {
    /// The first eight bytes are others.
    BadMagic,
    /// The tag is none of the six.
    BadTag,
    /// The frame may not stand here.
    BadOrder,
    /// The tag does not allow the length.
    BadLength,
    /// The payloads of the delivery, or the redo of the feed, pass their limit.
    TooLarge,
    /// One end of a delivery too many.
    TooManyDeliveries,
    /// There is no such thread.
    BadThread,
    /// There is no such session.
    BadSession,
    /// One command of the session too many.
    TooManyCommands,
    /// The input ends inside a frame, or where one has to begin.
    Truncated,
    /// The source failed.
    Read,
    /// Memory was wanting.
    Memory,
}

/// What is wrong with a record of a thread, whatever its vectors are.
#[derive(Clone, Copy, Debug, PartialEq, Eq)]
pub enum FrameKind {
    /// Its length is below 13.
    BadLength,
    /// Its last two bytes are not its length again.
    BadTrailer,
    /// Its SCN is 0 or above `2^48 - 1`.
    ScnRange,
    /// Its SCN is not above that of the record before.
    ScnOrder,
    /// It follows the end of its thread.
    AfterEnd,
}

/// The checks that an entry of the merged log has to pass against the entries before it, in the
/// order in which they are made.
#[derive(Clone, Copy, Debug, PartialEq, Eq)]
pub enum CheckKind {
    /// The transaction was begun before.
    TxnTwice,
    /// The transaction is not begun or has ended.
    TxnUnknown,
    /// The object was created before.
    ObjectTwice,
    /// The object is not created or is dropped.
    NoObject,
    /// The block or the slot is beyond the object's end.
    BadAddress,
    /// The row does not fit the object's columns, or the object has no room for one more column.
    BadRow,
    /// The transaction has no pending change at the address.
    NothingToUndo,
    /// The flag of a commit does not say whether the transaction changed an in-memory object.
    BadFlag,
}

/// What is wrong with a record of a thread.
#[derive(Clone, Copy, Debug, PartialEq, Eq)]
pub enum RedoKind {
    /// The record itself.
    Frame(FrameKind),
    /// The vector of this index cannot be read.
    BadVector { index: u16 },
    /// The vector of this index fails a check against the entries before it.
    Unsound { index: u16, check: CheckKind },
}

/// Where redo is refused: the thread, the number of its record from 1, and what is wrong there.
#[derive(Clone, Copy, Debug, PartialEq, Eq)]
pub struct RedoFault {
    pub thread: u8,
    pub number: u64,
    pub kind: RedoKind,
}

impl From<Memory> for FeedKind {
    ghost use Rattle.std.specs.Prelude.{◌≡◌};
    ghost use Rattle.adg_model.specs.declared.fault.FeedKind.TheVariants as kind;

    ghost from_gives = { λ _ e. e ≡ kind.Memory };

    fn from(_error: Memory) -> FeedKind {
        FeedKind::Memory
    }
}

impl From<AllocError> for FeedKind {
    ghost use Rattle.std.specs.Prelude.{◌≡◌};
    ghost use Rattle.adg_model.specs.declared.fault.FeedKind.TheVariants as kind;

    ghost from_gives = { λ _ e. e ≡ kind.Memory };

    fn from(_error: AllocError) -> FeedKind {
        FeedKind::Memory
    }
}
