use adg_base::number::{Pos, Scn, Txn};
use adg_base::row::Row;

/// What one change of a transaction made of the row at an address: the row that it set there, or
/// None where it removed the row. A change that was taken back is struck.
#[derive(Debug, Drop)]
pub struct Version {
    pub pos: Pos,
    pub txn: Txn,
    pub row: Option<Row>,
    pub struck: bool,
}

/// The end of a transaction: where it stands in the log, and whether it is a commit or an abort.
#[derive(Clone, Copy, Debug, PartialEq, Eq)]
pub struct End {
    pub pos: Pos,
    pub scn: Scn,
    pub committed: bool,
}
