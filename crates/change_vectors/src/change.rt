use adg_base::number::{Obj, Txn};

/// A transaction, and the address of its change.
#[derive(Clone, Copy, Debug, PartialEq, Eq)]
pub struct Change {
    pub txn: Txn,
    pub obj: Obj,
    pub block: u16,
    pub slot: u8,
}
