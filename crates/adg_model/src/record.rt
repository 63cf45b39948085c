//! The numbers of a record's form that its readers and its writer share.

/// The bytes of a record beside those of its vectors: its length at both ends, its SCN and the
/// number of its vectors.
pub const RECORD_OVERHEAD: usize = 13;

/// The most bytes of a record, which its length of two bytes can say.
pub const MOST_RECORD_BYTES: usize = 65_535;

/// The first byte of each vector.
pub mod tag {
    pub const BEGIN: u8 = 0x01;

    pub const PUT: u8 = 0x02;

    pub const DELETE: u8 = 0x03;

    pub const UNDO: u8 = 0x04;

    pub const COMMIT: u8 = 0x05;

    pub const ABORT: u8 = 0x06;

    pub const CREATE: u8 = 0x07;

    pub const DROP_OBJECT: u8 = 0x08;

    pub const ADD_COLUMN: u8 = 0x09;

    pub const NO_IN_MEMORY: u8 = 0x0a;

    pub const END_THREAD: u8 = 0x0b;
}
