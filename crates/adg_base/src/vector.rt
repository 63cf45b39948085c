ghost use Rattle.std.specs.Prelude.{◌≡◌, IfOk};

use crate::list::{Duplicate, List};
use crate::memory::Memory;
use crate::number::{Obj, Scn, Txn};
use crate::row::Row;
use crate::value::{ColKind, KindList};
use std::alloc::Global;

/// A change vector: one change of a block, a transaction or an object.
#[derive(Debug, Drop)]
pub enum Vector {
    /// A transaction begins.
    Begin {
        txn: Txn,
    },
    /// A transaction sets a row. A slot of 64 or more is a fault that the checks of the log find.
    Put {
        txn: Txn,
        obj: Obj,
        block: u16,
        slot: u8,
        row: Row,
    },
    /// A transaction removes a row.
    Delete {
        txn: Txn,
        obj: Obj,
        block: u16,
        slot: u8,
    },
    /// A transaction takes back its latest change at an address.
    Undo {
        txn: Txn,
        obj: Obj,
        block: u16,
        slot: u8,
    },
    /// A transaction ends, and its changes become rows. The flag says whether it changed an
    /// in-memory object.
    Commit {
        txn: Txn,
        flag: bool,
    },
    /// A transaction ends, and its changes are forgotten.
    Abort {
        txn: Txn,
    },
    /// An object is made, of this many extents; the flag says whether it is in-memory.
    Create {
        obj: Obj,
        extents: u16,
        flag: bool,
        columns: KindList,
    },
    /// An object is dropped.
    DropObject {
        obj: Obj,
    },
    /// An object gets one column more.
    AddColumn {
        obj: Obj,
        kind: ColKind,
    },
    /// An object is no longer in-memory.
    NoInMemory {
        obj: Obj,
    },
    /// A redo thread ends.
    EndThread,
}

/// A list of vectors.
pub type VectorList = List<Vector>;

/// A redo record: the vectors of one SCN of a thread.
#[derive(Debug, Drop)]
pub struct RedoRecord {
    pub scn: Scn,
    pub vectors: VectorList,
}

impl Duplicate for Vector {
    fn copy(&self, alloc: Global) -> Result<Vector, Memory> {
        match self {
            Vector::Begin { txn } => Ok(Vector::Begin { txn: *txn }),
            Vector::Put {
                txn,
                obj,
                block,
                slot,
                row,
            } => Ok(Vector::Put {
                txn: *txn,
                obj: *obj,
                block: *block,
                slot: *slot,
                row: row.copy(alloc)?,
            }),
            Vector::Delete {
                txn,
                obj,
                block,
                slot,
            } => Ok(Vector::Delete {
                txn: *txn,
                obj: *obj,
                block: *block,
                slot: *slot,
            }),
            Vector::Undo {
                txn,
                obj,
                block,
                slot,
            } => Ok(Vector::Undo {
                txn: *txn,
                obj: *obj,
                block: *block,
                slot: *slot,
            }),
            Vector::Commit { txn, flag } => Ok(Vector::Commit {
                txn: *txn,
                flag: *flag,
            }),
            Vector::Abort { txn } => Ok(Vector::Abort { txn: *txn }),
            Vector::Create {
                obj,
                extents,
                flag,
                columns,
            } => Ok(Vector::Create {
                obj: *obj,
                extents: *extents,
                flag: *flag,
                columns: columns.copy(alloc)?,
            }),
            Vector::DropObject { obj } => Ok(Vector::DropObject { obj: *obj }),
            Vector::AddColumn { obj, kind } => Ok(Vector::AddColumn {
                obj: *obj,
                kind: *kind,
            }),
            Vector::NoInMemory { obj } => Ok(Vector::NoInMemory { obj: *obj }),
            Vector::EndThread => Ok(Vector::EndThread),
        }
    }
}

impl Duplicate for RedoRecord {
    fn copy(&self, alloc: Global) -> Result<RedoRecord, Memory> {
        let vectors = self.vectors.copy(alloc)?;
        Ok(RedoRecord {
            scn: self.scn,
            vectors,
        })
    }
}
