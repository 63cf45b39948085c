use adg_base::command::CommandList;
use adg_base::list::{Bytes, Duplicate, List};
use adg_base::log::EntryList;
use adg_base::memory::Memory;
use adg_base::number::Scn;
use std::alloc::Global;

/// Redo bytes of a thread as one frame of the feed brought them.
#[derive(Debug, Drop)]
pub struct RedoPiece {
    pub thread: u8,
    pub bytes: Bytes,
}

/// Pieces in feed order.
pub type PieceList = List<RedoPiece>;

/// A delivery as the feed brought it: redo, commands and schedule bytes, each in feed order.
#[derive(Debug, Drop)]
pub struct RawDelivery {
    pub pieces: PieceList,
    pub commands: CommandList,
    pub schedule: Bytes,
}

/// A delivery whose redo was checked: the entries that continue the merged log, the frontier of the
/// records received so far, the commands and the schedule bytes.
#[derive(Debug, Drop)]
pub struct CheckedDelivery {
    pub entries: EntryList,
    pub frontier: Scn,
    pub commands: CommandList,
    pub schedule: Bytes,
}

impl Duplicate for RedoPiece {
    fn copy(&self, alloc: Global) -> Result<RedoPiece, Memory> {
        let bytes = self.bytes.copy(alloc)?;
        Ok(RedoPiece {
            thread: self.thread,
            bytes,
        })
    }
}

impl Duplicate for RawDelivery {
    fn copy(&self, alloc: Global) -> Result<RawDelivery, Memory> {
        let pieces = self.pieces.copy(alloc)?;
        let commands = self.commands.copy(alloc)?;
        let schedule = self.schedule.copy(alloc)?;
        Ok(RawDelivery {
            pieces,
            commands,
            schedule,
        })
    }
}

impl Duplicate for CheckedDelivery {
    fn copy(&self, alloc: Global) -> Result<CheckedDelivery, Memory> {
        let entries = self.entries.copy(alloc)?;
        let commands = self.commands.copy(alloc)?;
        let schedule = self.schedule.copy(alloc)?;
        Ok(CheckedDelivery {
            entries,
            frontier: self.frontier,
            commands,
            schedule,
        })
    }
}
