use crate::list::{Duplicate, List};
use crate::memory::Memory;
use crate::number::{Obj, Pos, Scn, Txn};
use std::alloc::Global;

/// How a transaction ended: committed with the flag that says whether it changed an in-memory
/// object, or aborted.
#[derive(Clone, Copy, Debug, PartialEq, Eq)]
pub enum NodeKind {
    Committed { flag: bool },
    Aborted,
}

/// The end of a transaction as a commit table keeps it: where it stands in the log, and whether all
/// that the transaction changed was noted.
#[derive(Clone, Copy, Debug, PartialEq, Eq)]
pub struct Node {
    pub scn: Scn,
    pub pos: Pos,
    pub txn: Txn,
    pub complete: bool,
    pub kind: NodeKind,
}

/// A list of ends of transactions.
pub type NodeList = List<Node>;

/// A change of an object's definition after which its column units are of no more use.
#[derive(Clone, Copy, Debug, PartialEq, Eq)]
pub struct DdlNode {
    pub scn: Scn,
    pub obj: Obj,
}

/// A list of changes of definitions.
pub type DdlList = List<DdlNode>;

/// What a flush has to do for one end of a transaction or one change of a definition.
#[derive(Clone, Copy, Debug, PartialEq, Eq)]
pub enum Item {
    /// The addresses that were noted for the transaction are marked in the column units.
    Change { txn: Txn },
    /// Not all addresses were noted: every column unit is marked wholly.
    Coarse { txn: Txn },
    /// What was noted is forgotten.
    Forget { txn: Txn },
    /// The column units of the object are dropped.
    DropObject { obj: Obj },
}

/// A list of items.
pub type ItemList = List<Item>;

impl Duplicate for Node {
    fn copy(&self, _alloc: Global) -> Result<Node, Memory> {
        Ok(*self)
    }
}

impl Duplicate for DdlNode {
    fn copy(&self, _alloc: Global) -> Result<DdlNode, Memory> {
        Ok(*self)
    }
}

impl Duplicate for Item {
    fn copy(&self, _alloc: Global) -> Result<Item, Memory> {
        Ok(*self)
    }
}
