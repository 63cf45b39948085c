/// Why a line is no line of the notation, or stands for no bytes.
#[derive(Clone, Copy, Debug, PartialEq, Eq)]
pub enum Reason {
    /// It begins as no line does.
    NoLine,
    /// The numbers of threads and sessions cannot be read.
    NoOpening,
    /// The number of a session, or what stands behind it, cannot be read.
    NoCommand,
    /// The bytes in hexadecimal cannot be read.
    NoBytes,
    /// The records cannot be read.
    NoRecords,
    /// A record of it has no spelling, or the frame would be too long.
    NoSpelling,
}
