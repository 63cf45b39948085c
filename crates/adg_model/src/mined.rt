use adg_base::address::Addr;
use adg_base::number::{Obj, Txn};

/// What an entry of the log notes for the column units.
#[derive(Clone, Copy, Debug, PartialEq, Eq)]
pub enum Mined {
    /// A transaction began.
    Begin {
        txn: Txn,
    },
    /// A transaction touched a row of an in-memory object.
    Note {
        txn: Txn,
        addr: Addr,
    },
    /// A transaction ended, committed with its flag or aborted.
    End {
        txn: Txn,
        flag: bool,
        committed: bool,
    },
    /// The definition of an object changed.
    Ddl {
        obj: Obj,
    },
}
