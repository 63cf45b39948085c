ghost use Rattle.std.specs.Prelude.{◌≡◌};
ghost use Rattle.feed_run.specs.Status.{code_of};

/// How a run ended: the code of its status, and how many bytes the source gave and the sink took.
/// `written` stands still at its type's last value.
#[derive(Clone, Copy, Debug, PartialEq, Eq)]
pub struct Outcome {
    pub status: u8,
    pub taken: u64,
    pub written: u64,
}

/// The status of a run.
#[derive(Clone, Copy, Debug, PartialEq, Eq)]
pub enum Status {
    /// The feed was read through its stop frame.
    FeedRead,
    /// The words are no accepted line.
    WordsRefused,
    /// The bytes are no feed.
    FeedRefused,
    /// The redo of a delivery is no redo.
    RedoRefused,
    /// A read failed.
    SourceFailed,
    /// A write failed.
    SinkFailed,
    /// Want of memory.
    NoMemory,
}

impl Status {
    /// The number that the program ends with.
    pub fn code(self) -> u8
        ensures { result ≡ code_of self }
    {
        match self {
            Status::FeedRead => 0,
            Status::WordsRefused => 1,
            Status::FeedRefused => 2,
            Status::RedoRefused => 3,
            Status::SourceFailed => 4,
            Status::SinkFailed => 5,
            Status::NoMemory => 6,
        }
    }
}
