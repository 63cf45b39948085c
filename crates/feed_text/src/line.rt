use adg_base::list::{Bytes, List};
use adg_base::vector::RedoRecord;

/// A list of records.
pub type RecordList = List<RedoRecord>;

/// What a line of the text says. All but a comment add bytes to the feed.
#[derive(Debug, Drop)]
pub enum Line {
    /// An empty line, or one that begins with `#`.
    Nothing,
    /// The magic and the header.
    Opening { threads: u8, sessions: u8 },
    /// Records of a thread in one frame.
    Records { thread: u8, records: RecordList },
    /// Redo bytes of a thread in one frame.
    Redo { thread: u8, bytes: Bytes },
    /// A command of a session.
    Command { session: u8, text: Bytes },
    /// Schedule bytes in one frame.
    Schedule { bytes: Bytes },
    /// The end of a delivery.
    End,
    /// The end of the feed.
    Stop,
    /// Bytes as they are.
    Raw { bytes: Bytes },
}
