use crate::list::{Duplicate, List};
use crate::memory::Memory;
use crate::number::{Pos, Scn};
use crate::vector::Vector;
use std::alloc::Global;

/// An entry of the merged log: a vector, where it stands in the log, and where it came from, the
/// record of this number of a thread and the place in that record, both from 1.
#[derive(Debug, Drop)]
pub struct LogEntry {
    pub pos: Pos,
    pub scn: Scn,
    pub thread: u8,
    pub number: u64,
    pub index: u16,
    pub vector: Vector,
}

/// A list of entries.
pub type EntryList = List<LogEntry>;

impl Duplicate for LogEntry {
    fn copy(&self, alloc: Global) -> Result<LogEntry, Memory> {
        let vector = self.vector.copy(alloc)?;
        Ok(LogEntry {
            pos: self.pos,
            scn: self.scn,
            thread: self.thread,
            number: self.number,
            index: self.index,
            vector,
        })
    }
}
