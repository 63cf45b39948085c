use crate::address::Addr;
use crate::list::{Duplicate, List};
use crate::memory::Memory;
use crate::row::Row;
use std::alloc::Global;

/// A row beside its address.
#[derive(Debug, Drop)]
pub struct PlacedRow {
    pub addr: Addr,
    pub row: Row,
}

/// Rows with their addresses, in address order.
pub type PlacedRows = List<PlacedRow>;

/// The rows of one block with their addresses, in slot order.
pub type BlockRows = List<PlacedRow>;

impl Duplicate for PlacedRow {
    fn copy(&self, alloc: Global) -> Result<PlacedRow, Memory> {
        let row = self.row.copy(alloc)?;
        Ok(PlacedRow {
            addr: self.addr,
            row,
        })
    }
}
